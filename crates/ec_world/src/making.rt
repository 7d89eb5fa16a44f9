//! What each event does, by calls of the start-up, the master, the ring and its slaves.
ghost use Rattle.std.specs.Prelude.{◌≡◌, Bool, length, is_some, true};
ghost use Rattle.ec_start.specs.Running.{IsStartTaken};
ghost use Rattle.ec_world.specs.declared.event.Event.TheVariants.{StartNext, Set, Begin, Pass, Lose, Return, Close, Serve, AppPut, AppGet, Fault, Reset as ResetSlave, Stop};
ghost use Rattle.ec_world.specs.Plain.{filled};
ghost use Rattle.ec_world.specs.World.{IsStep, can_begin, can_start, can_stop, awaits, ready_with, resumed, stopped, flights_from};
ghost use Rattle.ec_world.specs.Held.{cycle_frames, AreFrames, FitSlots, IsHandedIn};

use crate::event::Event;
use crate::slots::Slots;
use crate::world::World;
use ec_cycle::Master;
use ec_frame::Frame;
use ec_start::{Phase, Startup};

/// Whether a frame of the start-up is outstanding.
fn awaits(start: &Startup) -> bool
    ensures { result ≡ awaits start.now }
{
    match start.phase() {
        Phase::Sent(_) => true,
        _ => false,
    }
}

/// Begins a start-up that failed again, with the next number.
fn resume(start: &mut Startup)
    ensures { start.new ≡ resumed start.old start.old.phase }
{
    match start.phase() {
        Phase::Failed(_) => start.restart(),
        _ => {}
    }
}

/// Gives a Ready start-up up: it is as one that was given up before its first frame, behind the numbers of its frames and of the
/// cycles.
#[tactic(auto, using(crate::proofs::Runs::Unstopped::stopped_plan, crate::proofs::Runs::Unstopped::stopped_feeds))]
fn give_up(start: &mut Startup, master: &Master<'_>)
    ensures value { start.new ≡ stopped start.old master.now }
    ensures plan { start.new.plan ≡ start.old.plan }
    ensures feeds { start.new.feeds ≡ start.old.feeds }
{
    let number = start.next_number().max(master.next_number());
    start.begin_again(number);
    start.give_up();
}

/// Gives a payload to the start-up. If the start-up is Ready then, the master becomes ready.
fn answer(start: &mut Startup, master: &mut Master<'_>, payload: &[u8])
    requires same { start.old.plan ≡ master.old.plan.slaves }
    ensures taken { (is_accepted : Bool) × IsStartTaken start.old payload.now is_accepted start.new }
    ensures ready { master.new ≡ ready_with master.old start.new }
{
    let _ = start.take(payload);
    match start.phase() {
        Phase::Ready => master.ready(start),
        _ => {}
    }
}

/// Gives a payload to the start-up if it awaits one, and else to the master.
fn hand_in(start: &mut Startup, master: &mut Master<'_>, payload: &[u8])
    requires same { start.old.plan ≡ master.old.plan.slaves }
    ensures { IsHandedIn start.old master.old payload.now start.new master.new }
{
    if awaits(start) {
        answer(start, master, payload);
        return;
    }
    let _ = master.take(payload);
}

/// Puts the frames of the open cycle into the lowest free slots, part after part.
fn place_frames(master: &Master<'_>, number: u64, slots: &mut Slots)
    requires opened { is_some master.now.cycle ≡ true }
    requires fit { FitSlots (cycle_frames master.now.cycle) }
    requires frames { AreFrames (cycle_frames master.now.cycle) }
    requires count { length (cycle_frames master.now.cycle) ≡ length master.now.plan.parts }
    ensures { slots.new ≡ filled (flights_from number 0 (cycle_frames master.now.cycle)) slots.old }
{
    for part in 0..master.parts() {
        slots.fill(master.frame(part), number, part);
    }
}

impl World<'_> {
    /// Makes an event, and returns whether it can be made. If it can't, nothing changes.
    pub(crate) fn make(&mut self, event: Event) -> bool
        ensures { IsStep self.old event self.new result }
    {
        match event {
            Event::StartNext => self.start_next(),
            Event::Set(variable, value) => self.set(variable, value),
            Event::Begin => self.begin(),
            Event::Pass(slot) => self.pass(slot),
            Event::Lose(slot) => self.lose(slot),
            Event::Return(slot) => self.take_back(slot),
            Event::Close => self.close(),
            Event::Serve(slave) => self.serve(slave),
            Event::AppPut(slave, offset, byte) => self.put(slave, offset, byte),
            Event::AppGet(slave, offset) => self.get(slave, offset),
            Event::Fault(slave) => self.fault(slave),
            Event::Reset(slave) => self.reset(slave),
            Event::Stop => self.stop(),
        }
    }

    /// Whether the start-up goes on, or begins again: it isn't Ready, it awaits no frame, none is on its way, and a number is
    /// left.
    #[tactic(auto, using(crate::proofs::SlotLaws::Filled::nones_counted))]
    fn can_start(&self) -> bool
        ensures { result ≡ can_start self.now }
    {
        !self.is_ready()
            && !awaits(&self.start)
            && self.slots.free() == self.slots.len()
            && self.start.next_number() < u64::MAX
    }

    /// The start-up sends its next frame; after a failure it begins again.
    fn start_next(&mut self) -> bool
        ensures { IsStep self.old StartNext self.new result }
    {
        if !self.can_start() {
            return false;
        }
        resume(&mut self.start);
        let number = self.start.next_number();
        let mut frame = Frame::new();
        let _ = self.start.next(&mut frame);
        self.slots.fill(frame.as_slice(), number, 0);
        true
    }

    /// Sets a variable of the outputs.
    fn set(&mut self, variable: usize, value: u64) -> bool
        ensures { IsStep self.old (Set variable value) self.new result }
    {
        if !self.master.can_set(variable, value) {
            return false;
        }
        self.master.set(variable, value);
        true
    }

    /// Whether a cycle can begin: the start-up and the master are Ready, none is open, a slot is free for each part, and a number is
    /// left.
    #[tactic(auto, using(crate::proofs::SlotLaws::Filled::nones_counted))]
    fn can_begin(&self) -> bool
        ensures { result ≡ can_begin self.now }
    {
        self.is_ready()
            && self.master.is_ready()
            && !self.master.is_open()
            && self.plan.parts().len() <= self.slots.free()
            && self.master.next_number() < u64::MAX
    }

    /// The master begins a cycle.
    fn begin(&mut self) -> bool
        ensures { IsStep self.old Begin self.new result }
    {
        if !self.can_begin() {
            return false;
        }
        let number = self.master.next_number();
        if self.master.begin().is_err() {
            return false;
        }
        place_frames(&self.master, number, &mut self.slots);
        true
    }

    /// The frame in a slot passes its next slave.
    fn pass(&mut self, slot: usize) -> bool
        ensures { IsStep self.old (Pass slot) self.new result }
    {
        if !self.slots.may_pass(slot, self.ring.len()) {
            return false;
        }
        self.slots.pass(slot, &mut self.ring);
        true
    }

    /// The frame in a slot is lost.
    fn lose(&mut self, slot: usize) -> bool
        ensures { IsStep self.old (Lose slot) self.new result }
    {
        if self.slots.progress(slot).is_none() {
            return false;
        }
        self.slots.clear(slot);
        true
    }

    /// The frame in a slot comes back: to the start-up if it awaits one, and else to the master.
    fn take_back(&mut self, slot: usize) -> bool
        ensures { IsStep self.old (Return slot) self.new result }
    {
        if !self.slots.may_return(slot, self.ring.len()) {
            return false;
        }
        let payload = self.slots.bytes(slot);
        hand_in(&mut self.start, &mut self.master, payload);
        self.slots.clear(slot);
        true
    }

    /// Gives the start-up up if it awaits a frame, and else closes the cycle.
    fn close(&mut self) -> bool
        ensures { IsStep self.old Close self.new result }
    {
        if awaits(&self.start) {
            self.start.give_up();
            return true;
        }
        match self.master.close() {
            Ok(report) => {
                self.report = Some(report);
                true
            }
            Err(_) => false,
        }
    }

    /// Makes a firmware step of a slave.
    fn serve(&mut self, slave: usize) -> bool
        ensures { IsStep self.old (Serve slave) self.new result }
    {
        if slave >= self.ring.len() {
            return false;
        }
        self.ring.slave_mut(slave).serve();
        true
    }

    /// A slave's application writes a byte of its inputs.
    fn put(&mut self, slave: usize, offset: usize, byte: u8) -> bool
        ensures { IsStep self.old (AppPut slave offset byte) self.new result }
    {
        if slave >= self.ring.len() {
            return false;
        }
        self.ring.slave_mut(slave).app_put(offset, byte)
    }

    /// A slave's application reads a byte of its outputs.
    fn get(&mut self, slave: usize, offset: usize) -> bool
        ensures { IsStep self.old (AppGet slave offset) self.new result }
    {
        if slave >= self.ring.len() {
            return false;
        }
        match self.ring.slave_mut(slave).app_get(offset) {
            Some(byte) => {
                self.got = Some(byte);
                true
            }
            None => false,
        }
    }

    /// A slave's application has a fault.
    fn fault(&mut self, slave: usize) -> bool
        ensures { IsStep self.old (Fault slave) self.new result }
    {
        if slave >= self.ring.len() {
            return false;
        }
        self.ring.slave_mut(slave).fault()
    }

    /// Whether the master can give up: it is Ready, no cycle is open, and no frame is on its way.
    #[tactic(auto, using(crate::proofs::SlotLaws::Filled::nones_counted))]
    fn can_stop(&self) -> bool
        ensures { result ≡ can_stop self.now }
    {
        self.is_ready() && !self.master.is_open() && self.slots.free() == self.slots.len()
    }

    /// The master gives up. The next start-up begins behind all numbers that were used.
    fn stop(&mut self) -> bool
        ensures { IsStep self.old Stop self.new result }
    {
        if !self.can_stop() {
            return false;
        }
        give_up(&mut self.start, &self.master);
        true
    }

    /// Switches a slave off and on.
    fn reset(&mut self, slave: usize) -> bool
        ensures { IsStep self.old (ResetSlave slave) self.new result }
    {
        if slave >= self.ring.len() {
            return false;
        }
        self.ring.slave_mut(slave).reset();
        true
    }
}

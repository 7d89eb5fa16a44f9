//! A watcher of a world's events, which notes each hop of the frames in a capture.
ghost use Rattle.std.specs.Prelude.{◌≡◌, false, length, option_map, true};
ghost use Rattle.ec_capture.specs.Recordings.{Notes};
ghost use Rattle.ec_world.specs.World.{flight_at};
ghost use Rattle.ec_world.specs.Watching.{sent_of};
ghost use Rattle.cmd_sim.specs.CapturedEvents.{comment_if, leaves, captured_after, captured_back, captured_before, captured_if, captured_parts, captured_sent};

use ec_capture::{Packet, Recorder};
use ec_world::{Event, Watcher, World};
use std::io::Write;
use std::marker::Model;

/// The comment on a frame that is lost.
const LOST_HERE: &str = "lost here";

/// A capture of the frames of a world. Its interface 0 is the master's, and interface `s + 1` is behind slave `s`.
#[derive(Drop)]
pub struct Watch<W: Write + Drop> {
    capture: Recorder<W>,
    events: u64,
}

impl<W: Write + Drop> Model for Watch<W> {
    ghost use Rattle.cmd_sim.specs.CapturedEvents.{Watched};

    ghost Value = { Watched };

    ghost view = { λ w. record { capture = w.capture; events = w.events } };
}

impl<W: Write + Drop> Watch<W> {
    ghost use Rattle.cmd_sim.specs.CapturedEvents.{CapturesRun};

    /// A watch over a capture, with no events made yet.
    pub fn new(capture: Recorder<W>) -> Watch<W>
        ensures { result ≡ record { capture = capture; events = 0 } }
    {
        Watch { capture, events: 0 }
    }

    /// Makes the events that can be made, in their order, and notes the frames of each. The packets that it adds are exactly the frames of
    /// that run, unless the capture is cut short.
    pub fn run(&mut self, world: &mut World<'_>, events: &[Event])
        ensures { CapturesRun self.old world.old events.now world.new self.new }
    {
        for event in events {
            self.step(world, *event);
        }
    }

    /// The capture.
    pub fn capture(&self) -> &Recorder<W>
        ensures { result.now ≡ self.now.capture }
    {
        &self.capture
    }

    /// The capture itself, in which all frames so far are noted.
    pub fn into_capture(self) -> Recorder<W>
        ensures { result ≡ self.capture }
    {
        self.capture
    }
}

impl<W: Write + Drop> Watcher for Watch<W> {
    ghost use Rattle.cmd_sim.specs.CapturedEvents.{CapturesEvent};

    ghost observed = { CapturesEvent };

    #[tactic(auto, using(crate::proofs::Watching::unseen_refused))]
    fn step(&mut self, world: &mut World<'_>, event: Event) -> bool {
        let number = self.events.saturating_add(1);
        capture_leaving(&mut self.capture, number, world, event);
        if !world.step(event) {
            return false;
        }
        capture_after(&mut self.capture, number, event, world);
        self.events = number;
        true
    }
}

/// Notes a frame before it leaves the world, if the event can be made and lets one leave.
fn capture_leaving<W: Write + Drop>(
    capture: &mut Recorder<W>,
    time: u64,
    world: &World<'_>,
    event: Event,
)
    ensures seen { leaves world.now event ≡ true
        → Notes (captured_before time world.now event) capture.old capture.new }
    ensures unchanged { leaves world.now event ≡ false → capture.new ≡ capture.old }
{
    if leaves(world, event) {
        capture_before(capture, time, world, event);
    }
}

/// Whether an event can be made and lets a frame leave the world.
fn leaves(world: &World<'_>, event: Event) -> bool
    ensures { result ≡ leaves world.now event }
{
    match event {
        Event::Lose(slot) => world.progress(slot).is_some(),
        Event::Return(slot) => match world.progress(slot) {
            Some(frame) => frame.passed == world.slaves(),
            None => false,
        },
        _ => false,
    }
}

/// Notes the frames that an event has sent, or the frame that has passed a slave by it.
fn capture_after<W: Write + Drop>(
    capture: &mut Recorder<W>,
    time: u64,
    event: Event,
    world: &World<'_>,
)
    ensures { Notes (captured_after time event world.now) capture.old capture.new }
{
    match event {
        Event::StartNext => capture_slot(capture, time, world, 0, false),
        Event::Begin => capture_parts(capture, time, world),
        Event::Pass(slot) => capture_slot(capture, time, world, slot, false),
        _ => {}
    }
}

/// Notes a frame before it leaves the world: where it is lost, or as it comes back.
fn capture_before<W: Write + Drop>(
    capture: &mut Recorder<W>,
    time: u64,
    world: &World<'_>,
    event: Event,
)
    ensures { Notes (captured_before time world.now event) capture.old capture.new }
{
    match event {
        Event::Lose(slot) => capture_slot(capture, time, world, slot, true),
        Event::Return(slot) => capture_back(capture, time, world, slot),
        _ => {}
    }
}

/// Notes the frames of the open cycle, part after part.
fn capture_parts<W: Write + Drop>(capture: &mut Recorder<W>, time: u64, world: &World<'_>)
    ensures { Notes (captured_parts time world.now (length world.now.master.plan.parts)) capture.old capture.new }
{
    for part in 0..world.parts() {
        capture_sent(capture, time, world, part);
    }
}

/// Notes the frame of a part of the open cycle as the master sends it.
fn capture_sent<W: Write + Drop>(
    capture: &mut Recorder<W>,
    time: u64,
    world: &World<'_>,
    part: usize,
)
    ensures { Notes (captured_sent time (sent_of world.now part)) capture.old capture.new }
{
    if let Some(payload) = world.sent(part) {
        capture.note(&Packet {
            interface: 0,
            time,
            passed: false,
            payload,
            comment: None,
        });
    }
}

/// Notes the frame in a slot as it comes back to the master, if there is one.
fn capture_back<W: Write + Drop>(
    capture: &mut Recorder<W>,
    time: u64,
    world: &World<'_>,
    slot: usize,
)
    ensures { Notes (captured_back time (flight_at world.now slot)) capture.old capture.new }
{
    let Some(frame) = world.progress(slot) else {
        return;
    };
    let Some(payload) = world.bytes(slot) else {
        return;
    };
    capture.note(&Packet {
        interface: 0,
        time,
        passed: frame.passed > 0,
        payload,
        comment: None,
    });
}

/// Notes the frame in a slot where it is, if there is one. With `is_lost` it is lost there.
fn capture_slot<W: Write + Drop>(
    capture: &mut Recorder<W>,
    time: u64,
    world: &World<'_>,
    slot: usize,
    is_lost: bool,
)
    ensures { Notes (captured_if time (comment_if is_lost) (flight_at world.now slot)) capture.old capture.new }
{
    let Some(frame) = world.progress(slot) else {
        return;
    };
    let Some(payload) = world.bytes(slot) else {
        return;
    };
    capture.note(&Packet {
        interface: frame.passed,
        time,
        passed: frame.passed > 0,
        payload,
        comment: comment_if(is_lost),
    });
}

/// The comment on a frame, if it is lost.
fn comment_if(is_lost: bool) -> Option<&'static str>
    ensures { option_map (λ t. t.now) result ≡ comment_if is_lost }
{
    if is_lost { Some(LOST_HERE) } else { None }
}

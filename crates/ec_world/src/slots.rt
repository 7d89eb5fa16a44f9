//! All frames that are on their way.
ghost use Rattle.std.specs.Prelude.{◌≡◌, ◌≤◌, ◌<◌, ◌∷◌, [], length, replicate, get_or, set, position, nat_lt, Some, None, is_none, option_map, IfOk};
ghost use Rattle.std.specs.List.{list_all, count_by, fold};
ghost use Rattle.ec_frame.specs.Frame.{Payload, IsFrame};
ghost use Rattle.ec_world.specs.Plain.{lets_by, may_pass, may_return, filled};
ghost use Rattle.ec_world.specs.World.{Flight, flight_progress, flights_progress};
ghost use Rattle.ec_world.specs.Slots.{AreInUse, HavePassed, no_end, clearance_behind};

use crate::progress::Progress;
use crate::slot::Slot;
use ec_ring::Ring;
use std::alloc::{AllocError, Global};
use std::marker::Model;

/// The frames that are on their way, each in a slot. All slots are allocated when they are made.
#[derive(Drop)]
pub struct Slots {
    slots: Vec<Slot>,
    // all slots with this number or more are free
    used: usize,
    // spares a frame the look at all others before each slave
    clearance: Clearance,
}

/// How many slaves the frame in a slot may pass. No other frame can lower it before a new frame comes.
#[derive(Clone, Copy, Drop)]
struct Clearance {
    slot: usize,
    until: usize,
}

impl Clearance {
    /// A clearance of no frame.
    fn none() -> Clearance
        ensures { result.until ≡ 0 }
    {
        Clearance { slot: 0, until: 0 }
    }
}

impl Model for Slots {
    ghost use Rattle.std.specs.Prelude.{List, Option};
    ghost use Rattle.ec_world.specs.Slots.{AreHeld};
    ghost use Rattle.ec_world.specs.World.{Flight};

    ghost Value = { List (Option Flight) };

    ghost view = { λ s. s.slots.items };

    ghost invariant = { λ s. AreHeld s.slots.items s.used s.clearance.slot s.clearance.until };
}

impl Slots {
    /// `count` free slots.
    pub fn new(alloc: Global, count: usize) -> Result<Slots, AllocError>
        ensures { IfOk result (λ s. s ≡ replicate count None) }
    {
        let mut slots = Vec::new(alloc);
        for n in 0..count {
            slots.push(Slot::new())?;
        }
        Ok(Slots {
            slots,
            used: 0,
            clearance: Clearance::none(),
        })
    }

    /// How many slots there are.
    pub fn len(&self) -> usize
        ensures { result ≡ length self.now }
    {
        self.slots.len()
    }

    /// How far the frame in a slot is; none if there is no frame or no slot.
    pub fn progress(&self, slot: usize) -> Option<Progress>
        ensures { result ≡ option_map flight_progress (get_or self.now slot None) }
    {
        if slot < self.slots.len() {
            self.slots[slot].progress()
        } else {
            None
        }
    }

    /// How many slots are free.
    pub fn free(&self) -> usize
        ensures { result ≡ count_by (λ o. is_none o) self.now }
    {
        let used = self.in_use();
        self.len() - used.len() + free_of(used)
    }

    /// Whether the frame in a slot may pass its next slave, of `slaves`: there is one, and every older frame has passed it.
    pub fn may_pass(&mut self, slot: usize, slaves: usize) -> bool
        ensures may { result ≡ may_pass slaves (flights_progress self.old) (option_map flight_progress (get_or self.old slot None)) }
        ensures unchanged { self.new ≡ self.old }
    {
        let Some(frame) = self.progress(slot) else {
            return false;
        };
        frame.passed < slaves && frame.passed < self.clearance_of(slot, &frame)
    }

    /// Whether the frame in a slot has passed all slaves, which are `slaves`.
    pub fn may_return(&self, slot: usize, slaves: usize) -> bool
        ensures { result ≡ may_return slaves (option_map flight_progress (get_or self.now slot None)) }
    {
        match self.progress(slot) {
            Some(frame) => frame.passed == slaves,
            None => false,
        }
    }

    /// The bytes of the frame in a slot.
    pub fn bytes(&self, slot: usize) -> &[u8]
        requires { slot < length self.now }
        ensures { (f : Flight) → get_or self.now slot None ≡ Some f → result.now ≡ f.bytes }
    {
        self.slots[slot].bytes()
    }

    /// Puts a frame into the lowest free slot, if there is one.
    pub fn fill(&mut self, bytes: &[u8], number: u64, part: usize)
        requires room { length bytes.now ≤ 1472 }
        requires frame { (p : Payload) × IsFrame bytes.now p }
        ensures { self.new ≡ filled (record { bytes = bytes.now; number = number; part = part; passed = 0 } ∷ []) self.old }
    {
        if let Some(place) = self.lowest_free() {
            self.clearance = Clearance::none();
            self.slots[place].put(bytes, number, part);
            self.used = self.used.max(place + 1);
        }
    }

    /// Removes the frame in a slot.
    pub fn clear(&mut self, slot: usize)
        requires { slot < length self.old }
        ensures { self.new ≡ set self.old slot None }
    {
        self.slots[slot].clear();
        if slot + 1 == self.used {
            self.used = slot;
        }
    }

    /// Passes the frame in a slot through its next slave.
    pub fn pass(&mut self, slot: usize, ring: &mut Ring)
        requires there { slot < length self.old }
        requires next { (f : Flight) → get_or self.old slot None ≡ Some f → f.passed < length ring.old }
        ensures { (f : Flight) → get_or self.old slot None ≡ Some f → HavePassed ring.old self.old slot f ring.new self.new }
    {
        self.slots[slot].pass(ring);
    }

    /// The slots that can hold a frame: all slots behind them are free.
    fn in_use(&self) -> &[Slot]
        ensures { AreInUse self.now result.now }
    {
        &self.slots[..self.used]
    }

    /// A number of slaves that the frame in a slot may pass. It is above `frame.passed` exactly if the next one may be passed.
    fn clearance_of(&mut self, slot: usize, frame: &Progress) -> usize
        requires there { option_map flight_progress (get_or self.old slot None) ≡ Some frame.now }
        requires few { frame.now.passed < no_end }
        ensures clearance { nat_lt frame.now.passed result ≡ list_all (lets_by frame.now) (flights_progress self.old) }
        ensures unchanged { self.new ≡ self.old }
    {
        if self.clearance.slot == slot && frame.passed < self.clearance.until {
            return self.clearance.until;
        }
        let until = clearance_behind(self.in_use(), frame);
        self.clearance = Clearance { slot, until };
        until
    }

    /// The lowest free slot, if there is one.
    fn lowest_free(&self) -> Option<usize>
        ensures { result ≡ position (λ o. is_none o) self.now }
    {
        let used = self.in_use();
        if let Some(place) = first_free(used) {
            return Some(place);
        }
        if used.len() < self.len() {
            Some(used.len())
        } else {
            None
        }
    }
}

/// How many slaves a frame may pass without overtaking an older frame in these slots.
fn clearance_behind(slots: &[Slot], frame: &Progress) -> usize
    ensures { result ≡ fold (clearance_behind frame.now) no_end (flights_progress slots.now) }
{
    let mut far = usize::MAX;
    for slot in slots {
        let other = slot.progress();
        far = frame.clearance_behind(far, other);
    }
    far
}

/// The lowest free slot of these.
fn first_free(slots: &[Slot]) -> Option<usize>
    ensures { result ≡ position (λ o. is_none o) slots.now }
{
    for (place, slot) in slots.iter().enumerate() {
        if slot.is_free() {
            return Some(place);
        }
    }
    None
}

/// How many of these slots are free.
fn free_of(slots: &[Slot]) -> usize
    ensures { result ≡ count_by (λ o. is_none o) slots.now }
{
    let mut count = 0;
    for slot in slots {
        let is_free = slot.is_free();
        count += is_free as usize;
    }
    count
}

//! Why an event can't be made, in the world as it is.
use crate::reasons::has_cycle;
use crate::scene::{Firmware, Scene};
use ec_diagnostic::{Counted, Printable};
use ec_table::Direction;
use ec_world::{Event, Progress};
use std::fmt;

impl Scene<'_, '_> {
    /// Writes why the frames of the last cycle that was begun don't come back.
    pub fn write_held<W: fmt::Write>(&self, f: &mut fmt::Formatter<W>) -> fmt::Result {
        self.write_no_pass(f, self.newest_slot())
    }

    /// The first slot with a frame of the highest number, which is the last cycle's; the first slot if no slot has a frame.
    fn newest_slot(&self) -> usize {
        let mut newest = None;
        let mut found = 0;
        for slot in 0..self.world.slots() {
            let number = self.world.slot(slot);
            if number > newest {
                newest = number;
                found = slot;
            }
        }
        found
    }

    /// Writes why an event can't be made in this world. If it can be made, the words mean nothing.
    pub fn write_event<W: fmt::Write>(
        &self,
        f: &mut fmt::Formatter<W>,
        event: Event,
    ) -> fmt::Result {
        match event {
            Event::StartNext => self.write_no_start(f),
            Event::Set(variable, _) => self.write_unset(f, variable, Direction::Out),
            Event::Begin => self.write_no_begin(f),
            Event::Pass(slot) => self.write_no_pass(f, slot),
            Event::Lose(slot) => self.write_no_frame(f, slot),
            Event::Return(slot) => self.write_no_return(f, slot),
            Event::Close => {
                f.write_str("no cycle is open, and no frame of the start-up is awaited")
            }
            Event::Serve(slave) | Event::Reset(slave) => self.write_no_slave(f, slave),
            Event::AppPut(slave, place, _) => self.write_no_byte(f, slave, place, Direction::In),
            Event::AppGet(slave, place) => self.write_no_byte(f, slave, place, Direction::Out),
            Event::Fault(slave) => self.write_no_fault(f, slave),
            Event::Stop => self.write_no_stop(f),
        }
    }

    /// Writes why a frame doesn't pass its next slave.
    fn write_no_pass<W: fmt::Write>(&self, f: &mut fmt::Formatter<W>, slot: usize) -> fmt::Result {
        let Some(frame) = self.world.progress(slot) else {
            return self.write_no_frame(f, slot);
        };
        if frame.passed >= self.world.slaves() {
            return write!(
                f,
                "the frame in slot {slot} has passed every slave: `return {slot}` brings it back"
            );
        }
        match self.slot_before(&frame) {
            Some(other) => write!(
                f,
                "the older frame in slot {other} is in its way: frames don't overtake; `lose {other}` takes it away"
            ),
            None => write!(f, "the frame in slot {slot} can't go on"),
        }
    }

    /// The first slot with an older frame that has passed no more slaves.
    fn slot_before(&self, frame: &Progress) -> Option<usize> {
        for slot in 0..self.world.slots() {
            if is_before(self.world.progress(slot), frame) {
                return Some(slot);
            }
        }
        None
    }

    /// Writes why no cycle is begun.
    fn write_no_begin<W: fmt::Write>(&self, f: &mut fmt::Formatter<W>) -> fmt::Result {
        let world = self.world;
        if !world.is_ready() {
            return f.write_str("the start-up isn't ready: `ready` brings the slaves up");
        }
        if has_cycle(world) {
            return f.write_str("a cycle is open: `close` ends it");
        }
        if self.free_slots() >= world.parts() {
            return f.write_str("there is no number left for its frames");
        }
        let frames = Counted(world.parts(), "frame");
        let held = "frames of earlier cycles are on their way";
        match self.free_slots() {
            0 => write!(f, "a cycle sends {frames}, and no slot is free: {held}"),
            1 => write!(f, "a cycle sends {frames}, and 1 slot is free: {held}"),
            free => write!(
                f,
                "a cycle sends {frames}, and {free} slots are free: {held}"
            ),
        }
    }

    /// Writes why the start-up sends no frame.
    fn write_no_start<W: fmt::Write>(&self, f: &mut fmt::Formatter<W>) -> fmt::Result {
        let words = if self.world.is_ready() {
            "the start-up is ready: the slaves are in OP, or were"
        } else if self.free_slots() < self.world.slots() {
            "a frame is on its way: the start-up sends one at a time"
        } else {
            "the answer to the frame that was sent last is awaited: `close` gives the start-up up"
        };
        f.write_str(words)
    }

    /// Writes why the master doesn't give up.
    fn write_no_stop<W: fmt::Write>(&self, f: &mut fmt::Formatter<W>) -> fmt::Result {
        let words = if !self.world.is_ready() {
            "the start-up isn't ready: there is nothing to give up"
        } else if has_cycle(self.world) {
            "a cycle is open: `close` ends it"
        } else {
            "a frame is on its way: `lose K` takes it away"
        };
        f.write_str(words)
    }

    /// How many slots have no frame.
    fn free_slots(&self) -> usize {
        let mut free = 0_usize;
        for slot in 0..self.world.slots() {
            if self.world.slot(slot).is_none() {
                free = free.saturating_add(1);
            }
        }
        free
    }

    /// Writes why the application of a slave doesn't fail.
    fn write_no_fault<W: fmt::Write>(
        &self,
        f: &mut fmt::Formatter<W>,
        slave: usize,
    ) -> fmt::Result {
        if !self.has_slave(slave) {
            return self.write_no_slave(f, slave);
        }
        let name = self.slave_name(slave);
        let state = Firmware::of(self.world, slave).state;
        write!(f, "`{name}` is in {state}: an application fails in OP")
    }

    /// Writes why an application doesn't write a byte of its inputs, or read one of its outputs.
    fn write_no_byte<W: fmt::Write>(
        &self,
        f: &mut fmt::Formatter<W>,
        slave: usize,
        place: usize,
        direction: Direction,
    ) -> fmt::Result {
        if !self.has_slave(slave) {
            return self.write_no_slave(f, slave);
        }
        let name = self.slave_name(slave);
        let Firmware { state, is_running } = Firmware::of(self.world, slave);
        let (what, count) = self.bytes_of(slave, direction);
        if !is_running {
            return write!(
                f,
                "`{name}` is in {state}: its application has {what} in SAFEOP and OP"
            );
        }
        match count {
            0 => write!(f, "`{name}` has no {what}"),
            count if place >= count => {
                let last = count.saturating_sub(1);
                write!(
                    f,
                    "`{name}` has no byte {place} of {what}: the last is byte {last}"
                )
            }
            _ if direction == Direction::Out && self.has_locked_outputs(slave) => {
                self.write_locked(f, name)
            }
            _ => write!(
                f,
                "byte {place} is out of turn: the {what} of `{name}` go from byte 0 on, one after another"
            ),
        }
    }

    /// Writes why an application doesn't read outputs that are locked.
    fn write_locked<W: fmt::Write>(
        &self,
        f: &mut fmt::Formatter<W>,
        name: Printable<'_>,
    ) -> fmt::Result {
        let way_out = if self.world.is_ready() {
            "with which `ready` begins after `stop`"
        } else {
            "with which a start-up begins"
        };
        write!(
            f,
            "the outputs of `{name}` are locked since its fault: INIT alone opens them, {way_out}"
        )
    }

    /// The word for a slave's data in a direction, and how many bytes of them it has.
    fn bytes_of(&self, slave: usize, direction: Direction) -> (&'static str, usize) {
        let (outputs, inputs) = match self.world.plan().slaves().get(slave) {
            Some(settings) => (settings.share.outs, settings.share.ins),
            None => (0, 0),
        };
        match direction {
            Direction::Out => ("outputs", outputs.div_ceil(8)),
            Direction::In => ("inputs", inputs.div_ceil(8)),
        }
    }

    /// Writes why a frame doesn't come back.
    fn write_no_return<W: fmt::Write>(
        &self,
        f: &mut fmt::Formatter<W>,
        slot: usize,
    ) -> fmt::Result {
        let Some(frame) = self.world.progress(slot) else {
            return self.write_no_frame(f, slot);
        };
        match (frame.passed, self.world.slaves()) {
            (_, 1) => write!(f, "the frame in slot {slot} hasn't passed the slave"),
            (passed, slaves) => {
                write!(
                    f,
                    "the frame in slot {slot} has passed {passed} of {slaves} slaves"
                )
            }
        }
    }
}

/// Whether a frame is older than another one, and has passed no more slaves.
fn is_before(frame: Option<Progress>, other: &Progress) -> bool {
    match frame {
        Some(frame) => frame.is_older(other) && frame.passed <= other.passed,
        None => false,
    }
}

//! The table of events: when each can be made, apart from the world that is tried.
//!
//! | Event | Can be made where |
//! |---|---|
//! | `StartNext` | not ready, no frame of the start-up outstanding, no frame on its way |
//! | `Set` | an output variable, and the value fits |
//! | `Begin` | ready, no cycle open, a slot free for each part |
//! | `Pass` | the slot's frame has a next slave, which every older frame on its way has passed |
//! | `Lose` | the slot holds a frame |
//! | `Return` | the slot's frame has passed all slaves |
//! | `Close` | a cycle is open, or a frame of the start-up is outstanding |
//! | `Serve`, `Reset` | there is the slave |
//! | `AppPut`, `AppGet` | the slave isn't denying it |
//! | `Fault` | the slave is in OP |
//! | `Stop` | ready, no cycle open, no frame on its way |

use ec_link::{Plan, SlavePlan};
use ec_table::Direction;
use ec_world::{Event, Progress, World};

/// How many slaves a table has at most.
pub const SLAVES: usize = 64;

/// What is known of a slave.
#[derive(Clone, Copy, PartialEq, Eq)]
pub enum Standing {
    /// It had no trouble since the start-up began: once that is ready, it is in OP.
    Fine,
    /// It had a fault in OP.
    Faulted,
    /// It was switched off and on after the start-up was ready.
    Gone,
    /// It had trouble while the start-up ran.
    Unknown,
}

/// Which bytes an application has taken, of a value that it goes through byte by byte.
#[derive(Clone, Copy, PartialEq, Eq)]
pub enum Walk {
    Unknown,
    Closed,
    Open,
}

/// What is known of a slave and of its application.
#[derive(Clone, Copy)]
pub struct Known {
    pub standing: Standing,
    /// Of the inputs that it puts, and of the outputs that it gets.
    pub puts: Walk,
    pub gets: Walk,
}

/// What is known of a world beside what it shows.
#[derive(Clone, Copy)]
pub struct Model {
    /// Whether the start-up has begun.
    has_begun: bool,
    /// Whether a frame of the start-up is outstanding.
    pub awaits: bool,
    /// Whether a cycle is open.
    pub is_open: bool,
    slaves: [Known; SLAVES],
}

/// A slave of which a start-up that has just begun knows nothing bad.
const FINE: Known = Known {
    standing: Standing::Fine,
    puts: Walk::Unknown,
    gets: Walk::Unknown,
};

/// How many bytes so many bits take.
fn bytes_of(bits: usize) -> usize {
    bits / 8 + usize::from(bits % 8 > 0)
}

/// Whether a frame may pass its next slave as far as another one is concerned.
fn lets_by(frame: Progress, other: Progress) -> bool {
    let is_older = (other.number, other.part) < (frame.number, frame.part);
    !is_older || other.passed > frame.passed
}

/// How many slots hold a frame.
pub fn frames(world: &World<'_>) -> usize {
    let mut count = 0usize;
    for slot in 0..world.slots() {
        if world.progress(slot).is_some() {
            count = count.saturating_add(1);
        }
    }
    count
}

/// Whether the frame of a slot may pass its next slave.
fn may_pass(world: &World<'_>, slot: usize) -> bool {
    let Some(frame) = world.progress(slot) else {
        return false;
    };
    for other in 0..world.slots() {
        match world.progress(other) {
            Some(other) if !lets_by(frame, other) => return false,
            _ => {}
        }
    }
    frame.passed < world.slaves()
}

/// Whether the frame of a slot may come back.
fn may_return(world: &World<'_>, slot: usize) -> bool {
    match world.progress(slot) {
        Some(frame) => frame.passed == world.slaves(),
        None => false,
    }
}

/// Whether a value can be set.
fn may_set(plan: &Plan, variable: usize, value: u64) -> bool {
    match plan.variables().get(variable) {
        Some(row) if row.direction == Direction::Out => {
            row.bits >= 64 || value.checked_shr(u32::from(row.bits)) == Some(0)
        }
        _ => false,
    }
}

/// Whether an application may take a byte of a value of so many bytes, where it may take any.
fn may_walk(walk: Walk, place: usize, bytes: usize) -> Option<bool> {
    if place >= bytes {
        return Some(false);
    }
    match walk {
        _ if place == 0 => Some(true),
        Walk::Unknown => None,
        Walk::Closed => Some(false),
        Walk::Open => Some(true),
    }
}

/// Where the application is after it took a byte of a value of so many bytes.
fn walked(walk: Walk, place: usize, bytes: usize) -> Walk {
    if place.saturating_add(1) >= bytes {
        Walk::Closed
    } else if place == 0 {
        Walk::Open
    } else {
        walk
    }
}

impl Model {
    /// Of a new world.
    pub fn new() -> Model {
        Model {
            has_begun: false,
            awaits: false,
            is_open: false,
            slaves: [FINE; SLAVES],
        }
    }

    /// What is known of a slave.
    pub fn known(&self, slave: usize) -> Known {
        match self.slaves.get(slave) {
            Some(known) => *known,
            None => FINE,
        }
    }

    /// Whether a slave's application may put or get a byte; none where that isn't known.
    fn may_take(&self, world: &World<'_>, plan: &Plan, event: Event) -> Option<bool> {
        let (slave, place, is_put) = match event {
            Event::AppPut(slave, place, _) => (slave, place, true),
            Event::AppGet(slave, place) => (slave, place, false),
            _ => return None,
        };
        let Some(settings) = plan.slaves().get(slave) else {
            return Some(false);
        };
        let known = self.known(slave);
        let (walk, bytes) = if is_put {
            (known.puts, bytes_of(settings.share.ins))
        } else {
            (known.gets, bytes_of(settings.share.outs))
        };
        if place >= bytes {
            return Some(false);
        }
        if !world.is_ready() {
            return None;
        }
        match known.standing {
            Standing::Fine => may_walk(walk, place, bytes),
            Standing::Faulted if is_put => may_walk(walk, place, bytes),
            Standing::Faulted | Standing::Gone => Some(false),
            Standing::Unknown => None,
        }
    }

    /// Whether a slave may have a fault; none where that isn't known.
    fn may_fail(&self, world: &World<'_>, slave: usize) -> Option<bool> {
        if slave >= world.slaves() {
            return Some(false);
        }
        if !world.is_ready() {
            return None;
        }
        match self.known(slave).standing {
            Standing::Fine => Some(true),
            Standing::Faulted | Standing::Gone => Some(false),
            Standing::Unknown => None,
        }
    }

    /// Whether an event can be made; none where that isn't known.
    pub fn can_happen(&self, world: &World<'_>, plan: &Plan, event: Event) -> Option<bool> {
        match event {
            Event::StartNext => Some(self.may_start(world)),
            Event::Set(variable, value) => Some(may_set(plan, variable, value)),
            Event::Begin => Some(self.may_begin(world, plan)),
            Event::Pass(slot) => Some(may_pass(world, slot)),
            Event::Lose(slot) => Some(world.progress(slot).is_some()),
            Event::Return(slot) => Some(may_return(world, slot)),
            Event::Close => Some(self.is_open || self.awaits),
            Event::Serve(slave) | Event::Reset(slave) => Some(slave < world.slaves()),
            Event::AppPut(..) | Event::AppGet(..) => self.may_take(world, plan, event),
            Event::Fault(slave) => self.may_fail(world, slave),
            Event::Stop => Some(self.may_stop(world)),
        }
    }

    /// Whether the start-up may send its next frame.
    fn may_start(&self, world: &World<'_>) -> bool {
        !world.is_ready() && !self.awaits && frames(world) == 0
    }

    /// Whether a cycle may begin.
    fn may_begin(&self, world: &World<'_>, plan: &Plan) -> bool {
        let free = world.slots().saturating_sub(frames(world));
        world.is_ready() && !self.is_open && plan.parts().len() <= free
    }

    /// Whether the master may stop.
    fn may_stop(&self, world: &World<'_>) -> bool {
        world.is_ready() && !self.is_open && frames(world) == 0
    }

    /// The start-up sends a frame.
    fn start(&mut self, has_failed: bool) {
        if !self.has_begun || has_failed {
            self.slaves = [FINE; SLAVES];
        }
        self.has_begun = true;
        self.awaits = true;
    }

    /// A slave has trouble.
    fn trouble(&mut self, slave: usize, is_ready: bool, standing: Standing) {
        if let Some(known) = self.slaves.get_mut(slave) {
            let is_known = is_ready
                && (known.standing == Standing::Fine || standing == Standing::Gone);
            known.standing = if is_known {
                standing
            } else {
                Standing::Unknown
            };
        }
    }

    /// An application took a byte.
    fn walk(&mut self, slave: usize, place: usize, is_put: bool, settings: &SlavePlan) {
        if let Some(known) = self.slaves.get_mut(slave) {
            if is_put {
                known.puts = walked(known.puts, place, bytes_of(settings.share.ins));
            } else {
                known.gets = walked(known.gets, place, bytes_of(settings.share.outs));
            }
        }
    }

    /// The start-up has become ready: no value is known to be open.
    pub fn become_ready(&mut self) {
        for known in self.slaves.iter_mut() {
            known.puts = Walk::Unknown;
            known.gets = Walk::Unknown;
        }
    }

    /// An event was made. `is_ready` and `has_failed` say how the start-up stood before it.
    pub fn happen(&mut self, plan: &Plan, event: Event, is_ready: bool, has_failed: bool) {
        match event {
            Event::StartNext => self.start(has_failed),
            Event::Begin => self.is_open = true,
            Event::Return(_) => self.awaits = false,
            Event::Close if self.awaits => self.awaits = false,
            Event::Close => self.is_open = false,
            Event::Fault(slave) => self.trouble(slave, is_ready, Standing::Faulted),
            Event::Reset(slave) => self.trouble(slave, is_ready, Standing::Gone),
            Event::AppPut(slave, place, _) | Event::AppGet(slave, place) => {
                if let Some(settings) = plan.slaves().get(slave) {
                    self.walk(slave, place, matches!(event, Event::AppPut(..)), settings);
                }
            }
            _ => {}
        }
    }

    /// Whether a unit must be taken by an undisturbed cycle; none where that isn't known.
    pub fn must_take(&self, plan: &Plan, unit: u8) -> Option<bool> {
        let mut must = Some(true);
        for slave in 0..plan.slaves().len() {
            if plan.unit_of(slave) == unit {
                must = match (must, self.must_answer(plan, slave)) {
                    (Some(false), _) | (_, Some(false)) => Some(false),
                    (Some(true), Some(true)) => Some(true),
                    _ => None,
                };
            }
        }
        must
    }

    /// Whether a slave must give its whole share; none where that isn't known.
    fn must_answer(&self, plan: &Plan, slave: usize) -> Option<bool> {
        let share = plan.slaves().get(slave)?.share;
        match self.known(slave).standing {
            _ if share.outs == 0 && share.ins == 0 => Some(true),
            Standing::Fine => Some(true),
            Standing::Faulted => Some(share.outs == 0),
            Standing::Gone => Some(false),
            Standing::Unknown => None,
        }
    }
}

//! Watchers: they make the events of a world, and may store what they observe.
ghost use Rattle.std.specs.Prelude.{◌≡◌, true, false};
ghost use Rattle.ec_world.specs.World.{WorldState, IsStep};

use crate::event::Event;
use crate::world::World;

/// A watcher makes the events of a world, one after another, and may store what it observes of them.
pub trait Watcher {
    ghost use Rattle.ec_world.specs.declared.event.Event.{Event};

    /// What the watcher stores of an event that was made, by the worlds before and after.
    ghost observed: { Self → WorldState → Event → WorldState → Self → Type 0 };

    /// Makes an event, and returns whether it can be made. If it can't, nothing changes.
    fn step(&mut self, world: &mut World<'_>, event: Event) -> bool
        ensures step { IsStep world.old event world.new result }
        ensures observed { result ≡ true → observed self.old world.old event world.new self.new }
        ensures unobserved { result ≡ false → self.new ≡ self.old };
}

/// A watcher that stores nothing.
#[derive(Clone, Copy, Debug, PartialEq, Eq, Drop)]
pub struct Unwatched;

impl Watcher for Unwatched {
    ghost observed = { λ old before event after new. Unit {0} };

    fn step(&mut self, world: &mut World<'_>, event: Event) -> bool {
        world.step(event)
    }
}

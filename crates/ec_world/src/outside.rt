//! Frames of another master.
ghost use Rattle.std.specs.Prelude.{◌≡◌, false, map, true};
ghost use Rattle.ec_slave.specs.Serving.{served};
ghost use Rattle.ec_ring.specs.Rings.{IsNoFrame};
ghost use Rattle.ec_world.specs.Outside.{IsCarried};

use crate::world::World;
use ec_ring::Ring;

impl World<'_> {
    /// A payload from outside passes all slaves, and then each makes a firmware step. No application steps, and start-up, master and
    /// slots stay. Returns whether the payload was a frame; if it wasn't, nothing changes.
    pub fn carry(&mut self, payload: &mut [u8]) -> bool
        ensures carried { result ≡ true → IsCarried self.old payload.old self.new payload.new }
        ensures refused { result ≡ false → IsNoFrame payload.old }
        ensures unchanged { result ≡ false → self.new ≡ self.old }
        ensures payload { result ≡ false → payload.new ≡ payload.old }
    {
        if self.ring.pass_all(payload).is_err() {
            return false;
        }
        serve_all(&mut self.ring);
        true
    }
}

/// Each slave makes a firmware step.
fn serve_all(ring: &mut Ring)
    ensures { ring.new ≡ map served ring.old }
{
    for place in 0..ring.len() {
        ring.slave_mut(place).serve();
    }
}

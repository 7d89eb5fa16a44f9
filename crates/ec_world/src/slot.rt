//! A slot: room for one frame on its way.
ghost use Rattle.std.specs.Prelude.{◌≡◌, ◌≤◌, ◌<◌, length, Some, None, is_none, option_map};
ghost use Rattle.ec_frame.specs.Frame.{Payload, IsFrame};
ghost use Rattle.ec_world.specs.World.{flight_progress, Flight};
ghost use Rattle.ec_world.specs.Slots.{HasPassed};

use crate::progress::Progress;
use ec_frame::Frame;
use ec_ring::Ring;
use std::marker::Model;

/// Room for a frame on its way. It holds only frames of datagrams, so no slave has to check them.
#[derive(Drop)]
pub struct Slot {
    progress: Option<Progress>,
    frame: Frame,
}

impl Model for Slot {
    ghost use Rattle.std.specs.Prelude.{Option, option_map};
    ghost use Rattle.ec_world.specs.Slots.{HoldsFrame};
    ghost use Rattle.ec_world.specs.World.{Flight};

    ghost Value = { Option Flight };

    ghost view = { λ s. option_map (λ p. record { bytes = s.frame.items; number = p.number; part = p.part; passed = p.passed }) s.progress };

    ghost invariant = { λ s. HoldsFrame s.progress s.frame.items };
}

impl Slot {
    /// A slot without a frame.
    pub fn new() -> Slot
        ensures { result ≡ None }
    {
        Slot {
            progress: None,
            frame: Frame::new(),
        }
    }

    /// How far its frame is, if it has one.
    pub fn progress(&self) -> Option<Progress>
        ensures { result ≡ option_map flight_progress self.now }
    {
        self.progress
    }

    /// Whether it has no frame.
    pub fn is_free(&self) -> bool
        ensures { result ≡ is_none self.now }
    {
        self.progress.is_none()
    }

    /// The bytes of its frame.
    pub fn bytes(&self) -> &[u8]
        ensures { (f : Flight) → self.now ≡ Some f → result.now ≡ f.bytes }
    {
        self.frame.as_slice()
    }

    /// Puts a frame in that has passed no slave.
    pub fn put(&mut self, bytes: &[u8], number: u64, part: usize)
        requires room { length bytes.now ≤ 1472 }
        requires frame { (p : Payload) × IsFrame bytes.now p }
        ensures { self.new ≡ Some (record { bytes = bytes.now; number = number; part = part; passed = 0 }) }
    {
        replace(&mut self.frame, bytes);
        self.progress = Some(Progress {
            number,
            part,
            passed: 0,
        });
    }

    /// Removes its frame, if it has one.
    pub fn clear(&mut self)
        ensures { self.new ≡ None }
    {
        self.progress = None;
    }

    /// Passes its frame through the next slave, if it has a frame.
    pub fn pass(&mut self, ring: &mut Ring)
        requires { (f : Flight) → self.old ≡ Some f → f.passed < length ring.old }
        ensures passed { (f : Flight) → self.old ≡ Some f → HasPassed ring.old f ring.new self.new }
        ensures free { self.old ≡ None → self.new ≡ None }
    {
        let Some(progress) = &mut self.progress else {
            return;
        };
        prove!(progress.passed < ring.len());
        let slave = ring.slave_mut(progress.passed);
        slave.pass(self.frame.as_mut_slice());
        progress.passed += 1;
    }
}

/// Replaces the bytes of a frame.
fn replace(frame: &mut Frame, bytes: &[u8])
    requires { length bytes.now ≤ 1472 }
    ensures { frame.new.items ≡ bytes.now }
{
    frame.clear();
    let _ = frame.try_extend_from_slice(bytes);
}

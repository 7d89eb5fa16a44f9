//! A frame that passes a slave.

ghost use Rattle.std.specs.Prelude.{◌≡◌};
ghost use Rattle.ec_frame.specs.Frame.{Payload, IsFrame};
ghost use Rattle.ec_slave.specs.Keeping.{meets-keeps};
ghost use Rattle.ec_slave.specs.Sound.{IsSlave};
ghost use Rattle.ec_slave.specs.Meeting.{IsPassed, datagram_met, slave_met};

use crate::column::pass_each;
use crate::slave::Slave;
use ec_frame::{Handler, pass};
use std::slice;

/// The most bytes of data that a datagram has.
pub(crate) const MAX_DATA: usize = 2047;

impl Slave {
    /// Passes a frame through the slave: its datagrams act in order, each on the slave as the one before
    /// left it. It takes no memory.
    pub fn pass(&mut self, frame: &mut [u8])
        requires { (p : Payload) × IsFrame frame.old p }
        ensures kind { self.new.kind ≡ self.old.kind }
        ensures identity { self.new.identity ≡ self.old.identity }
        ensures meets { IsPassed self.old frame.old self.new frame.new }
        ensures sound { IsSlave self.new }
    {
        pass(self, frame);
        self.is_sound();
    }
}

impl Handler for Slave {
    ghost handled = { datagram_met };

    ghost after = { slave_met };

    ghost keeps_length = { meets-keeps };

    fn handle(&mut self, part: &mut [u8]) {
        pass_each(slice::from_mut(self), part);
    }
}

//! A wire that carries nothing.

use ec_wire::{Trouble, Wire};
use std::time::Duration;

/// Each `recv` brings a payload of up to so many bytes, `recv_within` nothing, and the count of faults stays as it is; at its last
/// value each call is a fault.
#[derive(Drop)]
pub struct Fake {
    pub failures: u64,
    pub bytes: usize,
    /// How many payloads were received.
    pub received: u64,
}

impl Wire for Fake {
    ghost use Rattle.ec_wire.specs.Wires.{silent};

    ghost state = { λ w. silent w.failures };

    fn failures(&self) -> u64 {
        self.failures
    }

    fn trouble(&self) -> Trouble {
        Trouble::Unmade
    }

    fn send(&mut self, _payload: &[u8]) {}

    fn recv(&mut self, buffer: &mut [u8]) -> usize {
        self.received = self.received.saturating_add(1);
        buffer.len().min(self.bytes)
    }

    fn recv_within(&mut self, _waited: Duration, _buffer: &mut [u8]) -> Option<usize> {
        None
    }
}

//! What a mailbox holds.

ghost use Rattle.std.specs.Prelude.{◌≡◌, ◌+◌, ◌-◌, ◌<◌, ◌≤◌, ◌++◌, length, drop, IfOk, is_some, unwrap_or, [], Some, None, true};
ghost use Rattle.ec_bits.specs.Bits.{zeros};
ghost use Rattle.ec_regs.specs.Memory.{ram_end};

use crate::buffer::{clear_front, fill_front};
use crate::touching::Writing;
use std::alloc::{AllocError, Global};
use std::marker::Model;

/// The longest mailbox: all of the RAM.
const MAX_LENGTH: usize = 8192;

/// A message or none, in storage that every configuration fits.
#[derive(Drop)]
pub struct Mail {
    storage: Vec<u8>,
    len: usize,
    is_full: bool,
}

impl Model for Mail {
    ghost use Rattle.std.specs.Prelude.{ℕ, List, Option, Some, None, take, length, if◌then◌else◌, ◌≡◌, ◌≤◌};

    ghost Value = { Option (List ℕ) };

    ghost view = { λ m. if m.is_full then Some (take m.len m.storage.items) else None };

    ghost invariant = { λ m. (length m.storage.items ≡ 8192) × (m.len ≤ 8192) };
}

impl Mail {
    /// A mailbox without a message.
    pub fn new(alloc: Global) -> Result<Mail, AllocError>
        ensures { IfOk result (λ m. m ≡ None) }
    {
        Ok(Mail {
            storage: vec![in alloc; 0; MAX_LENGTH]?,
            len: 0,
            is_full: false,
        })
    }

    /// Whether there is a message.
    pub fn is_full(&self) -> bool
        ensures { result ≡ is_some self.now }
    {
        self.is_full
    }

    /// The message.
    pub fn message(&self) -> &[u8]
        ensures { result.now ≡ unwrap_or self.now [] }
    {
        if self.is_full {
            &self.storage[..self.len]
        } else {
            &[]
        }
    }

    /// Drops the message.
    pub fn empty(&mut self)
        ensures { self.new ≡ None }
    {
        self.is_full = false;
    }

    /// Holds what an access writes into so many bytes from an address on.
    pub fn fill<W: Writing>(&mut self, start: usize, len: usize, writing: &W)
        requires small { len ≤ 8192 }
        requires some { 0 < len }
        requires inside { start + len ≤ ram_end }
        requires first { W.touched writing.now start ≡ true }
        requires last { W.touched writing.now (start + len - 1) ≡ true }
        ensures { self.new ≡ Some (W.written writing.now start len) }
    {
        self.is_full = true;
        self.len = len;
        fill_front(&mut self.storage, len, start, writing);
    }

    /// Holds a message, and zeros behind it to a length.
    pub fn put(&mut self, message: &[u8], len: usize)
        requires fits { length message.now ≤ len }
        requires small { len ≤ 8192 }
        ensures { self.new ≡ Some (message.now ++ zeros (len - length message.now)) }
    {
        self.is_full = true;
        self.len = len;
        put_front(&mut self.storage, message, len);
    }
}

/// Writes a message at the front, and zeros behind it to a length.
fn put_front(storage: &mut [u8], message: &[u8], len: usize)
    requires fits { length message.now ≤ len }
    requires room { len ≤ length storage.old }
    ensures { let n = length message.now in
        storage.new ≡ message.now ++ (zeros (len - n) ++ drop len storage.old) }
{
    clear_front(storage, len);
    storage[..message.len()].copy_from_slice(message);
}

//! One sync manager: its settings, and what it allows.

ghost use Rattle.std.specs.Prelude.{◌≡◌, ◌-◌, ◌<◌, ◌≤◌, length, IfOk, true, false};
ghost use Rattle.std.specs.Bool.{OnTrue};
ghost use Rattle.ec_bits.specs.Bits.{within};
ghost use Rattle.ec_regs.specs.Managers.{is_set as is_set_of};
ghost use Rattle.ec_sync.specs.SyncManager.{buffer_length as buffer_length_of, no_manager, LiesInRam, is_enabled as is_enabled_of, may_read as may_be_read, may_write as may_be_written, visible as value_shown};
ghost use Rattle.ec_sync.specs.Bounds.{bounds_of};
ghost use Rattle.ec_sync.specs.Governing.{governs as governs_byte, covers, in_first_buffer as lies_in_first_buffer, manager_byte, visible_byte as byte_visible};

use crate::bounds::Bounds;
use crate::buffer::Buffer;
use crate::mail::Mail;
use ec_regs::SyncManagerSettings;
use std::alloc::{AllocError, Global};
use std::marker::Model;

/// A short name of a sync manager.
pub type Manager = SyncManager;

/// A sync manager: its settings, whether it is locked, and what it holds.
#[derive(Drop)]
pub struct SyncManager {
    pub(crate) settings: SyncManagerSettings,
    pub(crate) bounds: Bounds,
    pub(crate) is_locked: bool,
    pub(crate) buffer: Buffer,
    // the firmware awaits the ring's next value
    pub(crate) is_awaited: bool,
    pub(crate) mail: Mail,
}

impl Model for SyncManager {
    ghost use Rattle.std.specs.Prelude.{◌≡◌, length};
    ghost use Rattle.ec_sync.specs.SyncManager.{SyncManager as ManagerState, buffer_length};
    ghost use Rattle.ec_sync.specs.Bounds.{bounds_of};

    ghost Value = { ManagerState };

    ghost view = { λ m.
        record { settings = m.settings; locked = m.is_locked; buffer = m.buffer; awaited = m.is_awaited; mail = m.mail } };

    ghost invariant = { λ m.
        (length m.buffer.published ≡ buffer_length m.settings) × (m.bounds ≡ bounds_of m.settings) };
}

impl SyncManager {
    /// A manager as the power comes on: not set, and empty. It has room for every configuration, so that no other call
    /// takes memory.
    ///
    /// # Errors
    ///
    /// `AllocError` if there is no memory.
    pub fn new(alloc: Global) -> Result<SyncManager, AllocError>
        ensures { IfOk result (λ m. m ≡ no_manager) }
    {
        let settings = SyncManagerSettings::none();
        Ok(SyncManager {
            settings,
            bounds: Bounds::of(settings),
            is_locked: false,
            buffer: Buffer::new(alloc)?,
            is_awaited: false,
            mail: Mail::new(alloc)?,
        })
    }

    /// What its registers hold: its start address, its length, its control byte and its activate byte.
    pub fn settings(&self) -> SyncManagerSettings
        ensures { result ≡ self.now.settings }
    {
        self.settings
    }

    /// Whether its settings make a manager.
    #[tactic(auto, using(crate::proofs::Lengths::set_lies_in_ram))]
    pub fn is_set(&self) -> bool
        ensures value { result ≡ is_set_of self.now.settings }
        ensures inside { OnTrue result (LiesInRam self.now.settings) }
    {
        self.bounds.is_set
    }

    /// Whether it is set and not locked: a locked manager denies every access.
    pub fn is_enabled(&self) -> bool
        ensures value { result ≡ is_enabled_of self.now }
        ensures set { OnTrue result (is_set_of self.now.settings ≡ true) }
        ensures inside { OnTrue result (LiesInRam self.now.settings) }
    {
        self.is_set() && !self.is_locked
    }

    /// Whether the firmware awaits the ring's next value: it did so by `await_value`, and since then the ring has written none
    /// and `empty` hasn't been called.
    pub fn is_awaited(&self) -> bool
        ensures { result ≡ self.now.awaited }
    {
        self.is_awaited
    }

    /// The bounds of its bytes in the memory, in byte addresses.
    pub fn bounds(&self) -> Bounds
        ensures { result ≡ bounds_of self.now.settings }
    {
        self.bounds
    }

    /// Whether its span has the byte.
    #[tactic(auto, using(crate::proofs::Lengths::span_has))]
    pub fn governs(&self, address: usize) -> bool
        ensures { result ≡ governs_byte self.now address }
    {
        self.bounds.first <= address && address < self.bounds.span_end
    }

    /// Whether the byte lies before the end of its value, and not in a buffer behind it.
    pub fn in_first_buffer(&self, address: usize) -> bool
        ensures { result ≡ lies_in_first_buffer self.now address }
    {
        address < self.bounds.value_end
    }

    /// Whether the ring may read it, by a datagram that touches its first and its last byte.
    pub fn may_read(&self) -> bool
        ensures value { result ≡ may_be_read self.now }
        ensures set { OnTrue result (is_set_of self.now.settings ≡ true) }
        ensures inside { OnTrue result (LiesInRam self.now.settings) }
    {
        self.is_enabled()
            && self.settings.is_master_read()
            && (!self.settings.is_mailbox() || self.mail.is_full())
    }

    /// Whether the ring may write it, by a datagram that touches its first and its last byte.
    pub fn may_write(&self) -> bool
        ensures value { result ≡ may_be_written self.now }
        ensures set { OnTrue result (is_set_of self.now.settings ≡ true) }
        ensures inside { OnTrue result (LiesInRam self.now.settings) }
    {
        self.is_enabled()
            && self.settings.is_master_written()
            && (!self.settings.is_mailbox() || !self.mail.is_full())
    }

    /// Whether the `len` bytes that begin at `from` have its first and its last byte.
    pub fn is_covered(&self, from: usize, len: usize) -> bool
        ensures { result ≡ covers (within from len) self.now }
    {
        let first = self.bounds.first;
        let last = self.bounds.value_end.saturating_sub(1);
        first >= from && first - from < len && last >= from && last - from < len
    }

    /// Byte k of its eight registers.
    pub fn register(&self, k: usize) -> u8
        requires { k < 8 }
        ensures { result ≡ manager_byte self.now k }
    {
        match k {
            0 => (self.settings.start % 256) as u8,
            1 => (self.settings.start / 256) as u8,
            2 => (self.settings.length % 256) as u8,
            3 => (self.settings.length / 256) as u8,
            4 => self.settings.control,
            5 => 8 * self.mail.is_full() as u8,
            6 => self.settings.activate,
            _ => self.is_locked as u8,
        }
    }

    /// The last value that was published whole; empty if this isn't a set buffered manager.
    pub fn published(&self) -> &[u8]
        ensures value { result.now ≡ self.now.buffer.published }
        ensures long { length self.now.buffer.published ≡ buffer_length_of self.now.settings }
        ensures small { length self.now.buffer.published ≤ 2730 }
    {
        self.buffer.published()
    }

    /// What a datagram reads: the message of a mailbox, else the last value that was published whole.
    pub fn visible(&self) -> &[u8]
        ensures { result.now ≡ value_shown self.now }
    {
        if self.settings.is_mailbox() {
            self.mail.message()
        } else {
            self.buffer.published()
        }
    }

    /// The byte that a datagram reads at an address in its value.
    pub fn visible_byte(&self, address: usize) -> u8
        ensures { result ≡ byte_visible self.now address }
    {
        let offset = address.saturating_sub(self.bounds.first);
        match self.visible().get(offset) {
            Some(byte) => *byte,
            None => 0,
        }
    }
}

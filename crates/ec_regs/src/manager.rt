//! The record of a sync manager.
ghost use Rattle.std.specs.Prelude.{◌≡◌, slice_index};
ghost use Rattle.ec_regs.specs.Managers.{no_settings, area_settings, settings_of, manager_bytes, is_mailbox, is_buffered, is_master_written, is_master_read, span, is_set};

use crate::registers::{RAM_END, RAM_START};
use byteorder::{ByteOrder, LittleEndian};

/// The control byte of a mailbox that the ring writes.
pub const CONTROL_MAILBOX_OUT: u8 = 0x26;
/// The control byte of a mailbox that the ring reads.
pub const CONTROL_MAILBOX_IN: u8 = 0x22;
/// The control byte of a buffered manager that the ring writes.
pub const CONTROL_OUTPUTS: u8 = 0x24;
/// The control byte of a buffered manager that the ring reads.
pub const CONTROL_INPUTS: u8 = 0x20;

/// In a sync manager's eight bytes: the first byte of its span, two bytes.
const START: usize = 0;
/// How many bytes a value has, two bytes.
const LENGTH: usize = 2;
/// Mode, direction and interrupts.
const CONTROL: usize = 4;
/// Bit 0: the manager is active. Byte 5, between, is its status.
const ACTIVATE: usize = 6;

/// The bytes of a sync manager that the ring writes: 0 to 4 and 6 of its eight.
#[derive(Clone, Copy, Debug, PartialEq, Eq)]
pub struct SyncManagerSettings {
    /// The physical start address.
    pub start: u16,
    /// The length in bytes.
    pub length: u16,
    /// The control byte: bits 0 and 1 the mode, bits 2 and 3 the direction.
    pub control: u8,
    /// The activate byte: bit 0 enables the manager.
    pub activate: u8,
}

impl SyncManagerSettings {
    /// Those of a manager that isn't there: all 0.
    pub fn none() -> Self
        ensures { result ≡ no_settings }
    {
        SyncManagerSettings {
            start: 0,
            length: 0,
            control: 0,
            activate: 0,
        }
    }

    /// Those of an activated manager whose value has `length` bytes from `start` on; the control
    /// byte is one of the four above.
    pub fn of_area(start: u16, length: u16, control: u8) -> Self
        ensures { result ≡ area_settings start length control }
    {
        SyncManagerSettings {
            start,
            length,
            control,
            activate: 1,
        }
    }

    /// Whether the mode is mailbox: 10 in bits 0 and 1 of the control byte.
    pub fn is_mailbox(&self) -> bool
        ensures { result ≡ is_mailbox self.now }
    {
        self.control % 4 == 0b10
    }

    /// Whether the mode is buffered: 00 in bits 0 and 1 of the control byte.
    pub fn is_buffered(&self) -> bool
        ensures { result ≡ is_buffered self.now }
    {
        self.control % 4 == 0b00
    }

    /// Whether the ring writes and the slave reads: 01 in bits 2 and 3 of the control byte.
    pub fn is_master_written(&self) -> bool
        ensures { result ≡ is_master_written self.now }
    {
        self.control / 4 % 4 == 0b01
    }

    /// Whether the ring reads and the slave writes: 00 in bits 2 and 3 of the control byte.
    pub fn is_master_read(&self) -> bool
        ensures { result ≡ is_master_read self.now }
    {
        self.control / 4 % 4 == 0b00
    }

    /// How many bytes the manager governs: its length, or three lengths if it is no mailbox.
    pub fn span(&self) -> usize
        ensures { result ≡ span self.now }
    {
        if self.is_mailbox() {
            self.length as usize
        } else {
            3 * self.length as usize
        }
    }

    /// Whether the manager is set: activated, of a mode and a direction that are there, with a
    /// length, and with its whole span inside the RAM.
    #[tactic(auto, unfolding(crate::specs::Managers::is_set))]
    pub fn is_set(&self) -> bool
        ensures { result ≡ is_set self.now }
    {
        self.activate % 2 == 1
            && (self.is_mailbox() || self.is_buffered())
            && (self.is_master_written() || self.is_master_read())
            && self.length > 0
            && self.start as usize >= RAM_START
            && self.start as usize + self.span() <= RAM_END
    }
}

/// The settings in a sync manager's eight bytes; byte 5, the status, and byte 7, the slave's side,
/// are no settings.
pub fn decode_manager(bytes: &[u8; 8]) -> SyncManagerSettings
    ensures { result ≡ settings_of (slice_index bytes.now) }
{
    SyncManagerSettings {
        start: LittleEndian::read_u16(&bytes[START..LENGTH]),
        length: LittleEndian::read_u16(&bytes[LENGTH..CONTROL]),
        control: bytes[CONTROL],
        activate: bytes[ACTIVATE],
    }
}

/// The eight bytes of a sync manager with these settings, 0 in bytes 5 and 7.
pub fn encode_manager(settings: &SyncManagerSettings) -> [u8; 8]
    ensures { result ≡ manager_bytes settings.now }
{
    let SyncManagerSettings {
        start,
        length,
        control,
        activate,
    } = *settings;
    let [start_low, start_high] = start.to_le_bytes();
    let [length_low, length_high] = length.to_le_bytes();
    [
        start_low,
        start_high,
        length_low,
        length_high,
        control,
        0,
        activate,
        0,
    ]
}

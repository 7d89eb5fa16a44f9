//! The data link registers of a slave.
ghost use Rattle.std.specs.Prelude.{◌≡◌, length, slice_index};
ghost use Rattle.std.specs.Option.{option_copied, option_map_or};
ghost use Rattle.std.specs.List.{list_any};
ghost use Rattle.ec_bits.specs.Bits.{within as within_of};
ghost use Rattle.ec_dl.specs.DataLink.{new_data_link, dl_byte, dl_takes, dl_written, byte_stored, stored_index, stored_registers, status_word};

use ec_bits::within;
use ec_device::Face;
use std::marker::Model;

/// The type of the slave controller, a byte.
const CONTROLLER_TYPE: usize = 0x0000;
/// The type of an ET1100.
const ET1100: u8 = 0x11;
/// The port descriptors, a byte.
const PORT_DESCRIPTORS: usize = 0x0007;
/// Ports 0 and 1 are MII, two bits each.
const TWO_PORTS: u8 = 0x0F;
/// DL status, two bytes.
const DL_STATUS: usize = 0x0110;
/// Its high byte.
const DL_STATUS_HIGH: usize = DL_STATUS + 1;
/// DL status if a slave follows, and if none does.
const FOLLOWED: u16 = 0x5A31;

const LAST: u16 = 0x5611;

/// The registers that keep what is written: DL control, PDI control, SII access.
const STORED: [usize; 6] = [0x0100, 0x0101, 0x0102, 0x0103, 0x0140, 0x0500];

/// The data link registers of a slave (ETG.1000.4, "DL information" to "DL status"). A full slave shows the type of its
/// controller (0x0000), its port descriptors (0x0007) and its links (DL status, 0x0110), and keeps what datagrams write to DL
/// control (0x0100 to 0x0103), PDI control (0x0140) and SII access (0x0500), without an effect. Any other slave shows and keeps
/// none of them.
#[derive(Debug, Drop)]
pub struct DataLink {
    is_visible: bool,
    has_next: bool,
    stored: [u8; 6],
}

impl Model for DataLink {
    ghost use Rattle.ec_dl.specs.DataLink.{DataLink as Registers};

    ghost Value = { Registers };

    ghost view = { λ d. record { visible = d.is_visible; next = d.has_next; stored = d.stored } };
}

impl DataLink {
    /// The registers of a slave that was just switched on. A full slave has a face, any other has none.
    pub fn new(face: Option<&Face>) -> Self
        ensures { result ≡ new_data_link (option_copied face.entry) }
    {
        match face {
            None => DataLink {
                is_visible: false,
                has_next: false,
                stored: [0; 6],
            },
            Some(face) => DataLink {
                is_visible: true,
                has_next: !face.is_last,
                stored: [0; 6],
            },
        }
    }

    /// The byte that an address reads, 0 if it is none of these registers or the slave isn't full.
    #[tactic(auto, unfolding(crate::specs::DataLink::dl_byte))]
    pub fn read(&self, address: usize) -> u8
        ensures { result ≡ dl_byte self.now address }
    {
        if !self.is_visible {
            return 0;
        }
        match address {
            CONTROLLER_TYPE => ET1100,
            PORT_DESCRIPTORS => TWO_PORTS,
            DL_STATUS => (status_word(self.has_next) % 256) as u8,
            DL_STATUS_HIGH => (status_word(self.has_next) / 256) as u8,
            _ => self.stored_byte(address),
        }
    }

    /// A datagram writes bytes to the addresses that begin at `from`. The registers of a full slave that keep writes take them.
    /// Returns whether there is one; all else is left alone.
    #[tactic(auto, unfolding(crate::specs::DataLink::dl_written, crate::specs::DataLink::dl_takes))]
    pub fn write(&mut self, from: usize, bytes: &[u8]) -> bool
        ensures after { self.new ≡ dl_written self.old from bytes.now }
        ensures some { result ≡ dl_takes self.old from (length bytes.now) }
    {
        if !self.is_visible || !reaches_stored(from, bytes.len()) {
            return false;
        }
        let [byte_0, byte_1, byte_2, byte_3, pdi, sii] = self.stored;
        self.stored = [
            byte_stored(from, bytes, 0x0100, byte_0),
            byte_stored(from, bytes, 0x0101, byte_1),
            byte_stored(from, bytes, 0x0102, byte_2),
            byte_stored(from, bytes, 0x0103, byte_3),
            byte_stored(from, bytes, 0x0140, pdi),
            byte_stored(from, bytes, 0x0500, sii),
        ];
        true
    }

    /// What was written to an address, if it keeps that.
    fn stored_byte(&self, address: usize) -> u8
        ensures { result ≡ option_map_or (slice_index self.now.stored) (stored_index address) 0 }
    {
        match address {
            0x0100 => self.stored[0],
            0x0101 => self.stored[1],
            0x0102 => self.stored[2],
            0x0103 => self.stored[3],
            0x0140 => self.stored[4],
            0x0500 => self.stored[5],
            _ => 0,
        }
    }
}

/// DL status of a full slave, if a slave follows it or not.
fn status_word(has_next: bool) -> u16
    ensures { result ≡ status_word has_next }
{
    if has_next { FOLLOWED } else { LAST }
}

/// Whether a datagram over the `len` bytes that begin at `from` reaches a register that keeps writes.
fn reaches_stored(from: usize, len: usize) -> bool
    ensures { result ≡ list_any (λ a. within_of from len a) stored_registers }
{
    STORED.iter().any(|address| within(from, len, *address))
}

/// The byte that an address keeps, after a datagram whose bytes begin at `from`.
fn byte_stored(from: usize, bytes: &[u8], address: usize, old: u8) -> u8
    ensures { result ≡ byte_stored from bytes.now address old }
{
    if within(from, bytes.len(), address) {
        bytes[address - from]
    } else {
        old
    }
}

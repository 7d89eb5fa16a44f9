//! The registers by which SII words are read.
ghost use Rattle.std.specs.Prelude.{◌≡◌, ◌<◌, ◌^◌};
ghost use Rattle.ec_sii.specs.Port.{idle_port, sii_byte, status_byte, byte_for, address_written, written, stepped, last_address};

use crate::image::SiiImage;
use ec_regs::SiiControl;
use ec_regs::registers::{SII_ADDRESS, SII_CONTROL, SII_DATA};
use std::marker::Model;

/// The address of the command: the high byte of the control and status word, whose low byte reads 0.
const COMMAND: usize = SII_CONTROL + 1;

/// The first address after the four bytes of the data.
const END: usize = SII_DATA + 4;

/// The registers by which datagrams read the SII (ETG.1000.4, "Slave information interface"): 0x0502 control and
/// status, 0x0504 the word address, 0x0508 the four bytes of the last read.
#[derive(Debug, Drop)]
pub struct Port {
    image: SiiImage,
    address: u32,
    is_busy: bool,
    is_error: bool,
    found: u32,
}

impl Model for Port {
    ghost use Rattle.ec_sii.specs.Port.{Sii};

    ghost Value = { Sii };

    ghost view = { λ p. record {
      image = p.image;
      address = p.address;
      busy = p.is_busy;
      error = p.is_error;
      found = p.found;
    } };
}

impl Port {
    /// The port of an image, as a slave powers on.
    pub fn new(image: SiiImage) -> Self
        ensures { result ≡ idle_port image }
    {
        Port {
            image,
            address: 0,
            is_busy: false,
            is_error: false,
            found: 0,
        }
    }

    /// Does nothing. Its contract says that the word address of every port has 32 bits.
    pub fn is_sound(&self)
        ensures { self.now.address < 2 ^ 32 }
    {
        let _address = self.address;
    }

    /// Whether a read is under way. Until the next firmware step the port then takes no write.
    pub fn is_busy(&self) -> bool
        ensures { result ≡ self.now.busy }
    {
        self.is_busy
    }

    /// The byte that an address reads, 0 if it is none of 0x0502 to 0x050B.
    #[tactic(auto, unfolding(crate::specs::Port::sii_byte))]
    pub fn read(&self, address: usize) -> u8
        ensures { result ≡ sii_byte self.now address }
    {
        match address {
            COMMAND => self.status(),
            SII_ADDRESS..SII_DATA => self.address.to_le_bytes()[address - SII_ADDRESS],
            SII_DATA..END => self.found.to_le_bytes()[address - SII_DATA],
            _ => 0,
        }
    }

    /// A datagram writes bytes to the addresses that begin at `from`; those outside 0x0502 to 0x0507 are ignored. While
    /// the port is busy nothing changes. Otherwise the bytes are stored, and then that of 0x0503, if there is one, gives a
    /// command by its bits 0 to 2: 0 clears the error, 1 begins a read, any other is an error.
    #[tactic(auto, unfolding(crate::specs::Port::written))]
    pub fn write(&mut self, from: usize, bytes: &[u8])
        ensures { self.new ≡ written self.old from bytes.now }
    {
        if self.is_busy {
            return;
        }
        self.address = address_written(self.address, from, bytes);
        if let Some(control) = byte_for(from, bytes, COMMAND) {
            let command = control % 8;
            self.is_busy = command == 1;
            self.is_error = command > 1;
        }
    }

    /// A firmware step: a read that is under way is finished. The two words at the word address then stand in the
    /// data; for a word address past the image there is an error and the data stay.
    #[tactic(auto, unfolding(crate::specs::Port::stepped))]
    pub fn step(&mut self)
        ensures { self.new ≡ stepped self.old }
    {
        if !self.is_busy {
            return;
        }
        self.is_busy = false;
        let address = self.address as usize;
        if address <= self.last_address() {
            let low = self.image.word(address);
            let high = self.image.word(address + 1);
            self.found = low as u32 | (high as u32) << 16;
        } else {
            self.is_error = true;
        }
    }

    /// Puts the port back to power-on, with the image that it has.
    pub fn reset(&mut self)
        ensures { self.new ≡ idle_port self.old.image }
    {
        self.address = 0;
        self.is_busy = false;
        self.is_error = false;
        self.found = 0;
    }

    /// The high byte of the control and status word, which shows the command under way (1, a read), the error, and
    /// busy.
    fn status(&self) -> u8
        ensures { result ≡ status_byte self.now }
    {
        (SiiControl::new(self.is_busy as u8, self.is_error, self.is_busy).0 / 256) as u8
    }

    /// The last word address at which the image has two words: 62, or more in a full slave.
    fn last_address(&self) -> usize
        ensures { result ≡ last_address self.now.image }
    {
        64 * self.image.size() - 2
    }
}

/// The byte that a datagram, whose bytes begin at `from`, has for an address.
fn byte_for(from: usize, bytes: &[u8], address: usize) -> Option<u8>
    ensures { result ≡ byte_for from bytes.now address }
{
    let offset = address.checked_sub(from)?;
    bytes.get(offset).copied()
}

/// The word address, after a datagram's bytes for it were stored.
fn address_written(old: u32, from: usize, bytes: &[u8]) -> u32
    ensures { result ≡ address_written old from bytes.now }
{
    let [byte_0, byte_1, byte_2, byte_3] = old.to_le_bytes();
    u32::from_le_bytes([
        byte_for(from, bytes, SII_ADDRESS).unwrap_or(byte_0),
        byte_for(from, bytes, SII_ADDRESS + 1).unwrap_or(byte_1),
        byte_for(from, bytes, SII_ADDRESS + 2).unwrap_or(byte_2),
        byte_for(from, bytes, SII_ADDRESS + 3).unwrap_or(byte_3),
    ])
}

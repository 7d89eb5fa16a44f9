//! The record of an FMMU.
ghost use Rattle.std.specs.Prelude.{◌≡◌, slice_index};
ghost use Rattle.ec_regs.specs.Fmmus.{no_fmmu, fmmu_of, fmmu_bytes};

use byteorder::{ByteOrder, LittleEndian};

/// In an FMMU's sixteen bytes: the first logical byte, four bytes.
const LOGICAL_START: usize = 0;
/// How many logical bytes it touches, two bytes.
const LENGTH: usize = 4;
/// The first logical bit, in the first byte.
const START_BIT: usize = 6;
/// The last logical bit, in the last byte.
const STOP_BIT: usize = 7;
/// The first physical byte, two bytes.
const PHYSICAL_START: usize = 8;
/// The first physical bit, in that byte.
const PHYSICAL_BIT: usize = 10;
/// The type: bit 0 reads, bit 1 writes.
const TYPE: usize = 11;
/// Bit 0: the FMMU is active.
const ACTIVATE: usize = 12;

/// An FMMU as its sixteen bytes say it.
#[derive(Clone, Copy, Debug, PartialEq, Eq)]
pub struct FmmuSettings {
    /// The logical start address.
    pub logical_start: u32,
    /// The length in logical bytes, the first and the last one with it.
    pub length: u16,
    /// The first bit in the first logical byte, 0 to 7.
    pub start_bit: u8,
    /// The last bit in the last logical byte, 0 to 7.
    pub stop_bit: u8,
    /// The physical start address.
    pub physical_start: u16,
    /// The first bit in the first physical byte, 0 to 7.
    pub physical_bit: u8,
    /// Logical reads go through it.
    pub reads: bool,
    /// Logical writes go through it.
    pub writes: bool,
    /// It is activated.
    pub active: bool,
}

impl FmmuSettings {
    /// Those of an FMMU that maps nothing: all 0.
    pub fn none() -> Self
        ensures { result ≡ no_fmmu }
    {
        FmmuSettings {
            logical_start: 0,
            length: 0,
            start_bit: 0,
            stop_bit: 0,
            physical_start: 0,
            physical_bit: 0,
            reads: false,
            writes: false,
            active: false,
        }
    }
}

/// The settings in an FMMU's sixteen bytes. Of the bit numbers the low three bits count; bits 2 to 7
/// of the type and bits 1 to 7 of the activate byte, and the last three bytes, are reserved.
pub fn decode_fmmu(bytes: &[u8; 16]) -> FmmuSettings
    ensures { result ≡ fmmu_of (slice_index bytes.now) }
{
    FmmuSettings {
        logical_start: LittleEndian::read_u32(&bytes[LOGICAL_START..LENGTH]),
        length: LittleEndian::read_u16(&bytes[LENGTH..START_BIT]),
        start_bit: bytes[START_BIT] % 8,
        stop_bit: bytes[STOP_BIT] % 8,
        physical_start: LittleEndian::read_u16(&bytes[PHYSICAL_START..PHYSICAL_BIT]),
        physical_bit: bytes[PHYSICAL_BIT] % 8,
        reads: bytes[TYPE] % 2 == 1,
        writes: bytes[TYPE] / 2 % 2 == 1,
        active: bytes[ACTIVATE] % 2 == 1,
    }
}

/// The sixteen bytes of an FMMU with these settings, 0 in the reserved ones.
pub fn encode_fmmu(settings: &FmmuSettings) -> [u8; 16]
    ensures { result ≡ fmmu_bytes settings.now }
{
    let logical = settings.logical_start.to_le_bytes();
    let [length_low, length_high] = settings.length.to_le_bytes();
    let [physical_low, physical_high] = settings.physical_start.to_le_bytes();
    [
        logical[0],
        logical[1],
        logical[2],
        logical[3],
        length_low,
        length_high,
        settings.start_bit,
        settings.stop_bit,
        physical_low,
        physical_high,
        settings.physical_bit,
        settings.reads as u8 + 2 * settings.writes as u8,
        settings.active as u8,
        0,
        0,
        0,
    ]
}

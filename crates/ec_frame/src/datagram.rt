//! One datagram: its header decoded, its fields read and written in its spelling, and its parts.
ghost use Rattle.std.specs.Prelude.{◌≡◌, ◌≤◌, ◌+◌, ◌*◌, ◌/◌, ◌%◌, ◌++◌, Bool, List, ℕ, length};
ghost use Rattle.std.specs.Borrow.{sem};
ghost use Rattle.byteorder.specs.Endian.{little_bytes};
ghost use Rattle.ec_frame.specs.Datagram.{Datagram, IsDatagram, IsSpelling, heading, spelling};
ghost use Rattle.ec_frame.specs.Fields.{header_of, with_address, with_adp, with_counter};
ghost use Rattle.ec_frame.specs.Parts.{LendsParts};

use crate::command::Command;
use crate::field;
use byteorder::{ByteOrder, LittleEndian};

/// The ten bytes before a datagram's data, decoded (ETG.1000.4, "EtherCAT datagram").
#[derive(Clone, Copy, Debug, PartialEq, Eq, Drop)]
pub struct Header {
    /// The command.
    pub command: Command,
    /// The index that the master gave; slaves leave it as it is.
    pub index: u8,
    /// The four address bytes: ADP the low half and ADO the high half, or a logical address.
    pub address: u32,
    /// How many bytes of data there are, below 2048.
    pub data_length: u16,
    /// The three reserved bits.
    pub reserved: u8,
    /// Whether the frame has circulated once.
    pub circulating: bool,
    /// Whether another datagram follows.
    pub more: bool,
    /// The event request word.
    pub irq: u16,
}

impl Header {
    /// Reads the header of the datagram that `part` spells.
    pub fn read(part: &[u8]) -> Self
        requires { IsSpelling part.now }
        ensures { (more : Bool) (d : Datagram) → IsDatagram d → part.now ≡ spelling more d
            → result ≡ header_of more d }
    {
        let flags = LittleEndian::read_u16(&part[field::FLAGS..]);
        Header {
            command: Command::from_number(part[field::COMMAND]).unwrap(),
            index: part[field::INDEX],
            address: LittleEndian::read_u32(&part[field::ADDRESS..]),
            data_length: field::length_in(flags),
            reserved: field::reserved_in(flags),
            circulating: field::is_circulating(flags),
            more: field::says_more(flags),
            irq: LittleEndian::read_u16(&part[field::IRQ..]),
        }
    }

    /// The position or station address: the low half of the address.
    pub fn adp(self) -> u16
        ensures { result ≡ self.address % 65536 }
    {
        (self.address % 65536) as u16
    }

    /// The address in a slave's memory: the high half of the address.
    pub fn ado(self) -> u16
        ensures { result ≡ self.address / 65536 }
    {
        (self.address / 65536) as u16
    }
}

/// The address of a physical datagram: ADP, the position or station address of the slave that is
/// meant, the low half, and ADO, the address in its memory, the high half.
pub fn address_of(adp: u16, ado: u16) -> u32
    ensures { result ≡ adp + 65536 * ado }
{
    u32::from(adp) + 65536 * u32::from(ado)
}

/// The data of the datagram that `part` spells.
pub fn read_data(part: &[u8]) -> &[u8]
    requires { IsSpelling part.now }
    ensures { (more : Bool) (d : Datagram) → IsDatagram d → part.now ≡ spelling more d
        → result.now ≡ d.data_bytes }
{
    let end = part.len() - field::COUNTER_LEN;
    &part[field::HEADER_LEN..end]
}

/// The working counter of the datagram that `part` spells.
pub fn read_counter(part: &[u8]) -> u16
    requires { IsSpelling part.now }
    ensures { (more : Bool) (d : Datagram) → IsDatagram d → part.now ≡ spelling more d
        → result ≡ d.counter }
{
    let at = part.len() - field::COUNTER_LEN;
    LittleEndian::read_u16(&part[at..])
}

/// Writes the working counter, and nothing else.
pub fn write_counter(part: &mut [u8], counter: u16)
    requires { IsSpelling part.old }
    ensures written { (more : Bool) (d : Datagram) → IsDatagram d → part.old ≡ spelling more d
        → part.new ≡ spelling more (with_counter d counter) }
    ensures spelled { IsSpelling part.new }
{
    let at = part.len() - field::COUNTER_LEN;
    LittleEndian::write_u16(&mut part[at..], counter);
}

/// Writes ADP, the low half of the address, and nothing else.
pub fn write_adp(part: &mut [u8], adp: u16)
    requires { IsSpelling part.old }
    ensures written { (more : Bool) (d : Datagram) → IsDatagram d → part.old ≡ spelling more d
        → part.new ≡ spelling more (with_adp d adp) }
    ensures spelled { IsSpelling part.new }
{
    LittleEndian::write_u16(&mut part[field::ADDRESS..field::ADO], adp);
}

/// Writes the four address bytes, and nothing else.
pub fn write_address(part: &mut [u8], address: u32)
    requires { IsSpelling part.old }
    ensures written { (more : Bool) (d : Datagram) → IsDatagram d → part.old ≡ spelling more d
        → part.new ≡ spelling more (with_address d address) }
    ensures spelled { IsSpelling part.new }
{
    LittleEndian::write_u32(&mut part[field::ADDRESS..field::FLAGS], address);
}

/// The ten bytes of the heading and, as another slice, the data with the counter.
pub fn cut_heading(part: &mut [u8]) -> (&mut [u8], &mut [u8])
    requires { IsSpelling part.old }
    ensures* lends { sem 𝓛 (LendsParts part.entry result) }
    ensures heading { (more : Bool) (d : Datagram) → IsDatagram d → part.old ≡ spelling more d
        → result.0.now ≡ heading more d }
    ensures body { (more : Bool) (d : Datagram) → IsDatagram d → part.old ≡ spelling more d
        → result.1.now ≡ d.data_bytes ++ little_bytes 2 d.counter }
    ensures room { 2 ≤ length result.1.now }
{
    part.split_at_mut(field::HEADER_LEN)
}

/// The data and, as another slice, the two bytes of the counter, of the bytes behind a heading.
pub fn cut_counter(body: &mut [u8]) -> (&mut [u8], &mut [u8])
    requires { 2 ≤ length body.old }
    ensures* lends { sem 𝓛 (LendsParts body.entry result) }
    ensures content { (bytes : List ℕ) (n : ℕ) → body.old ≡ bytes ++ little_bytes 2 n
        → result.0.now ≡ bytes }
    ensures counter { (bytes : List ℕ) (n : ℕ) → body.old ≡ bytes ++ little_bytes 2 n
        → result.1.now ≡ little_bytes 2 n }
{
    let len = body.len() - field::COUNTER_LEN;
    body.split_at_mut(len)
}

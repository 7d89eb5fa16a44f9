//! The places of the fields of a frame and of a datagram, in bytes, and the meaning of the bits of their
//! words (ETG.1000.4, "EtherCAT frame structure" and "EtherCAT datagram"). Words are little-endian.
ghost use Rattle.std.specs.Prelude.{◌≡◌, ◌/◌, ◌%◌, ◌==◌, leb};

/// The bytes of the frame's header, before the datagrams.
pub const FRAME_HEADER_LEN: usize = 2;

/// In a datagram: the command's number.
pub(crate) const COMMAND: usize = 0;
/// In a datagram: the index that the master gives.
pub const INDEX: usize = 1;
/// In a datagram: the four bytes of the address. ADP is the first two of them.
pub(crate) const ADDRESS: usize = 2;
/// In a datagram: ADO, the other two bytes of the address.
pub(crate) const ADO: usize = 4;
/// In a datagram: the word of flags.
pub(crate) const FLAGS: usize = 6;
/// In a datagram: the high byte of the flags.
pub(crate) const FLAGS_HIGH: usize = 7;
/// In a datagram: the event request word.
pub(crate) const IRQ: usize = 8;
/// The bytes of a datagram before its data.
pub const HEADER_LEN: usize = 10;
/// The bytes of the working counter, after the data.
pub(crate) const COUNTER_LEN: usize = 2;
/// What a datagram has beside its data.
pub const OVERHEAD: usize = 12;

/// The bytes of a frame's name, the data of its first datagram.
pub const NAME_LEN: usize = 10;

/// How many bytes of datagrams a frame has at most: what an Ethernet frame leaves a UDP payload,
/// 1500 - 20 - 8, without the frame's header.
pub(crate) const MAX_AREA: u16 = 1470;

/// How many bytes a frame has at most: a UDP payload in one Ethernet frame, 1500 - 20 - 8.
pub const MAX_FRAME_LEN: usize = 1472;

/// In the frame's header and in a datagram's flags: bits 0 to 10, a length.
const LENGTH: u16 = 0x07FF;
/// In the flags, behind the length: the three reserved bits.
const RESERVED_SHIFT: u16 = 11;

const RESERVED: u16 = 0x0007;
/// In the flags: the frame has circulated once.
const CIRCULATING: u16 = 0x4000;
/// In the flags: another datagram follows.
pub(crate) const MORE: u16 = 0x8000;
/// In the frame's header, behind the length and a reserved bit: the type.
const TYPE_SHIFT: u16 = 12;
/// In the frame's header: the type of a frame of datagrams, 1.
pub(crate) const DATAGRAMS: u16 = 0x1000;

/// The length in the frame's header or in a datagram's flags.
pub(crate) fn length_in(word: u16) -> u16
    ensures { result ≡ word % 2048 }
{
    word & LENGTH
}

/// The type in the frame's header.
pub(crate) fn type_in(header: u16) -> u16
    ensures { result ≡ header / 4096 }
{
    header >> TYPE_SHIFT
}

/// The reserved bits in a datagram's flags.
pub(crate) fn reserved_in(flags: u16) -> u8
    ensures { result ≡ flags / 2048 % 8 }
{
    (flags >> RESERVED_SHIFT & RESERVED) as u8
}

/// Whether flags say that the frame has circulated.
pub(crate) fn is_circulating(flags: u16) -> bool
    ensures { result ≡ (flags / 16384 % 2 == 1) }
{
    flags & CIRCULATING != 0
}

/// Whether flags say that another datagram follows.
pub(crate) fn says_more(flags: u16) -> bool
    ensures { result ≡ leb 32768 flags }
{
    flags & MORE != 0
}

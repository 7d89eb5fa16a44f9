//! The lines of datagrams.
ghost use Rattle.std.specs.Prelude.{◌≡◌, ◌+◌, ◌≤◌, ◌++◌, ◌∷◌, [], Bool, List, OnOk, codes, drop, length, string_bytes};
ghost use Rattle.std.specs.Fmt.{decimal};
ghost use Rattle.byteorder.specs.Endian.{little_number};
ghost use Rattle.ec_frame.specs.Datagram.{Datagram, IsDatagram, IsSpelling, data_length, spelling};
ghost use Rattle.ec_decode.specs.FrameText.{address_words, byte_text, circulating_words, command_name, data_text, datagram_line, datagram_lines, irq_words, is_logical, newline, reserved_words, spaced};
ghost use Rattle.ec_decode.specs.Standing.{BeginsWith, datagram_of};

use byteorder::{ByteOrder, LittleEndian};
use ec_frame::field::OVERHEAD;
use ec_frame::{Command, Header, read_counter, read_data};
use std::alloc::{AllocError, Global};
use std::fmt::Write as _;

/// In a datagram: the word of flags, whose low bits are the length of its data.
const FLAGS: usize = 6;

const LENGTH_BITS: u32 = 11;

/// Whether a command goes by a logical address.
pub(crate) fn is_logical(command: Command) -> bool
    ensures { result ≡ is_logical command }
{
    matches!(&command, Command::Lrd | Command::Lwr | Command::Lrw)
}

/// The word of flags of the datagram that begins some bytes.
pub(crate) fn flags_at(bytes: &[u8]) -> u16
    requires { 8 ≤ length bytes.now }
    ensures { result ≡ little_number 2 (drop 6 bytes.now) }
{
    let (_, rest) = bytes.split_at(FLAGS);
    LittleEndian::read_u16(rest)
}

/// The length of the datagram that begins some bytes, with its heading and its counter.
pub(crate) fn length_at(bytes: &[u8]) -> usize
    requires { 8 ≤ length bytes.now }
    ensures { result ≡ 12 + data_length bytes.now }
{
    OVERHEAD + usize::from(flags_at(bytes) % (1 << LENGTH_BITS))
}

/// Adds the lines of so many datagrams that stand at the front of some bytes.
pub(crate) fn write_datagrams(
    alloc: Global,
    text: &mut String,
    count: usize,
    bytes: &[u8],
) -> Result<(), AllocError>
    requires { (ds : List Datagram) × BeginsWith bytes.now ds × (count ≡ length ds) }
    ensures { OnOk result ((ds : List Datagram) → BeginsWith bytes.now ds → count ≡ length ds
        → string_bytes text.new ≡ string_bytes text.old ++ datagram_lines 0 ds) }
{
    let mut rest = bytes;
    for number in 0..count {
        let (part, after) = rest.split_at(length_at(rest));
        write_datagram(alloc, text, number, part)?;
        rest = after;
    }
    Ok(())
}

/// The standard's name of a command.
fn name_of(command: Command) -> &'static str
    ensures { result.now ≡ command_name command }
{
    match command {
        Command::Nop => "NOP",
        Command::Aprd => "APRD",
        Command::Apwr => "APWR",
        Command::Aprw => "APRW",
        Command::Fprd => "FPRD",
        Command::Fpwr => "FPWR",
        Command::Fprw => "FPRW",
        Command::Brd => "BRD",
        Command::Bwr => "BWR",
        Command::Brw => "BRW",
        Command::Lrd => "LRD",
        Command::Lwr => "LWR",
        Command::Lrw => "LRW",
        Command::Armw => "ARMW",
        Command::Frmw => "FRMW",
    }
}

/// Adds the line of the datagram that `part` spells.
fn write_datagram(
    alloc: Global,
    text: &mut String,
    number: usize,
    part: &[u8],
) -> Result<(), AllocError>
    requires { IsSpelling part.now }
    ensures { OnOk result ((more : Bool) (d : Datagram) → IsDatagram d → part.now ≡ spelling more d
        → string_bytes text.new ≡ string_bytes text.old ++ datagram_line number d) }
{
    let header = Header::read(part);
    write_line(
        alloc,
        text,
        number,
        &header,
        read_counter(part),
        read_data(part),
    )
}

/// Adds the line of a datagram by its parts.
fn write_line(
    alloc: Global,
    text: &mut String,
    number: usize,
    header: &Header,
    counter: u16,
    content: &[u8],
) -> Result<(), AllocError>
    ensures { OnOk result (string_bytes text.new ≡ string_bytes text.old
        ++ datagram_line number (datagram_of header.now counter content.now)) }
{
    write_head(alloc, text, number, header)?;
    write_address(alloc, text, header)?;
    write_irq(alloc, text, header.irq)?;
    write_reserved(text, header.reserved)?;
    write_circulating(text, header.circulating)?;
    write_tail(alloc, text, counter, content)
}

/// Adds a datagram's counter and its data, and ends its line.
fn write_tail(
    alloc: Global,
    text: &mut String,
    counter: u16,
    content: &[u8],
) -> Result<(), AllocError>
    ensures { OnOk result (string_bytes text.new ≡ string_bytes text.old
        ++ (spaced (codes "counter" ∷ decimal counter ∷ codes "data" ∷ data_text content.now ∷ []) ++ newline)) }
{
    write!(text, " counter {counter} data ")?;
    write_data(alloc, text, content)?;
    text.push_str("\n")
}

/// Adds bytes in hex, or a dash for none.
fn write_data(alloc: Global, text: &mut String, bytes: &[u8]) -> Result<(), AllocError>
    ensures { OnOk result (string_bytes text.new ≡ string_bytes text.old ++ data_text bytes.now) }
{
    if bytes.is_empty() {
        return text.push_str("-");
    }
    let digits = hex::encode(alloc, bytes)?;
    text.push_str(digits.as_str())
}

/// Adds whether a datagram has circulated.
fn write_circulating(text: &mut String, circulating: bool) -> Result<(), AllocError>
    ensures { OnOk result
        (string_bytes text.new ≡ string_bytes text.old ++ spaced (circulating_words circulating)) }
{
    if circulating {
        text.push_str(" circulating")
    } else {
        Ok(())
    }
}

/// Adds a datagram's reserved bits, unless they are 0.
fn write_reserved(text: &mut String, bits: u8) -> Result<(), AllocError>
    ensures { OnOk result
        (string_bytes text.new ≡ string_bytes text.old ++ spaced (reserved_words bits)) }
{
    if bits == 0 {
        return Ok(());
    }
    write!(text, " reserved {bits}")
}

/// Adds a datagram's event request word, unless it is 0.
fn write_irq(alloc: Global, text: &mut String, irq: u16) -> Result<(), AllocError>
    ensures { OnOk result (string_bytes text.new ≡ string_bytes text.old ++ spaced (irq_words irq)) }
{
    if irq == 0 {
        return Ok(());
    }
    let digits = hex::encode(alloc, &irq.to_be_bytes())?;
    write!(text, " irq {digits}")
}

/// Adds a datagram's address.
fn write_address(alloc: Global, text: &mut String, header: &Header) -> Result<(), AllocError>
    ensures { OnOk result (string_bytes text.new ≡ string_bytes text.old
        ++ spaced (address_words header.now.command header.now.address)) }
{
    if is_logical(header.command) {
        let address = hex::encode(alloc, &header.address.to_be_bytes())?;
        write!(text, " logical {address}")
    } else {
        let adp = hex::encode(alloc, &header.adp().to_be_bytes())?;
        let ado = hex::encode(alloc, &header.ado().to_be_bytes())?;
        write!(text, " at {adp}:{ado}")
    }
}

/// Adds a datagram's number, its command and its index.
fn write_head(
    alloc: Global,
    text: &mut String,
    number: usize,
    header: &Header,
) -> Result<(), AllocError>
    ensures { OnOk result (string_bytes text.new ≡ string_bytes text.old ++ (decimal number
        ++ spaced (command_name header.now.command ∷ codes "index" ∷ byte_text header.now.index ∷ []))) }
{
    let name = name_of(header.command);
    let index = hex::encode(alloc, &header.index.to_be_bytes())?;
    write!(text, "{number} {name} index {index}")
}

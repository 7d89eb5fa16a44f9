//! The blocks of a capture file, in the form pcapng.
ghost use Rattle.std.specs.Prelude.{◌≡◌, ◌≤◌, ◌<◌, ◌+◌, ◌^◌, ◌++◌, length, option_map};
ghost use Rattle.std.specs.List.{flat_map};
ghost use Rattle.ec_capture.specs.Blocks.{block_bytes, number, options_bytes, padding, zeros};
ghost use Rattle.ec_capture.specs.Captures.{IsComment, IsCaptured, IsText, comment_bytes, ethernet_head, ethernet_size, interface_block, packet_block, section_block, captured_as};
ghost use Rattle.ec_capture.specs.Writing.{Writes};

use crate::packet::Packet;
use crate::writing::{WriteFault, write_bytes};
use std::io::Write;

/// Types of blocks: the description of an interface, and a packet.
const INTERFACE: u32 = 1;

const PACKET: u32 = 6;

/// Codes of options: a comment, and the name of an interface.
const COMMENT: u8 = 1;

const NAME: u8 = 2;

/// The link type of Ethernet in two bytes, and two reserved bytes of zero.
const ETHERNET: u32 = 1;

/// The most bytes of a frame that a packet keeps.
const MAX_KEPT: u32 = 65535;

/// The section header of a file: little-endian, version 1.0, of unknown length.
const SECTION: [u8; 28] = [
    0x0A, 0x0D, 0x0D, 0x0A, 28, 0, 0, 0, 0x4D, 0x3C, 0x2B, 0x1A, 1, 0, 0, 0, 255, 255, 255, 255,
    255, 255, 255, 255, 28, 0, 0, 0,
];

/// One unit of the high half of a time, in microseconds.
const HIGH: u64 = 1 << 32;

/// The bytes of an Ethernet header.
const ETHERNET_HEADER: usize = 14;

/// The header of a frame as the master sends it, and of a frame that has passed a slave.
const SENT: [u8; ETHERNET_HEADER] = [
    255, 255, 255, 255, 255, 255, 0x00, 0x00, 0x00, 0x45, 0x43, 0x01, 0x88, 0xA4,
];

const PASSED: [u8; ETHERNET_HEADER] = [
    255, 255, 255, 255, 255, 255, 0x02, 0x00, 0x00, 0x45, 0x43, 0x01, 0x88, 0xA4,
];

/// Writes the section header, with which a file begins.
///
/// # Errors
///
/// `WriteFault` if a write was refused. A first part of the header is written then.
pub fn write_section<W: Write>(file: &mut W) -> Result<(), WriteFault>
    ensures { Writes (block_bytes section_block) (W.contents file.old) (W.contents file.new) result }
{
    write_bytes(&SECTION, file)
}

/// Writes the description of an interface with a name of at most 65535 bytes. The first interface in a file has number 0.
///
/// # Errors
///
/// `WriteFault` if a write was refused. A first part of the block is written then.
pub fn write_interface<W: Write>(name: &str, file: &mut W) -> Result<(), WriteFault>
    requires { IsText name.now }
    ensures { Writes (block_bytes (interface_block name.now)) (W.contents file.old) (W.contents file.new) result }
{
    let size = 20 + options_size(name.len());
    write_numbers(&[INTERFACE, size, ETHERNET, MAX_KEPT], file)?;
    write_options(NAME, name, file)?;
    write_numbers(&[size], file)
}

/// Writes a packet: its payload as an Ethernet frame, with its interface, its time and its comment.
///
/// # Errors
///
/// `WriteFault` if a write was refused. A first part of the block is written then.
pub fn write_packet<W: Write>(packet: &Packet<'_>, file: &mut W) -> Result<(), WriteFault>
    requires { IsCaptured (captured_as packet.now) }
    ensures { Writes (block_bytes (packet_block (captured_as packet.now))) (W.contents file.old) (W.contents file.new) result }
{
    let count = ETHERNET_HEADER + packet.payload.len();
    let size = 32 + (count + padding(count)) as u32 + comment_size(packet.comment);
    let (high, low) = ((packet.time / HIGH) as u32, (packet.time % HIGH) as u32);
    let kept = count as u32;
    let interface = packet.interface as u32;
    write_numbers(&[PACKET, size, interface, high, low, kept, kept], file)?;
    write_frame(packet.passed, packet.payload, file)?;
    write_comment(packet.comment, file)?;
    write_numbers(&[size], file)
}

/// The bytes of an option with `count` bytes of text, and of the end of options behind it.
fn options_size(count: usize) -> u32
    requires { count < 2 ^ 16 }
    ensures value { result ≡ 8 + count + padding count }
    ensures few { result ≤ 65546 }
{
    (8 + count + padding(count)) as u32
}

/// Writes an option with a text, and the end of options.
fn write_options<W: Write>(code: u8, text: &str, file: &mut W) -> Result<(), WriteFault>
    requires { length text.now < 2 ^ 16 }
    ensures { Writes (options_bytes code text.now) (W.contents file.old) (W.contents file.new) result }
{
    write_bytes(&[code, 0], file)?;
    write_bytes(&(text.len() as u16).to_le_bytes(), file)?;
    write_bytes(text.as_bytes(), file)?;
    write_zeros(padding(text.len()), file)?;
    write_zeros(4, file)
}

/// Writes numbers of four bytes each, little-endian.
fn write_numbers<W: Write>(numbers: &[u32], file: &mut W) -> Result<(), WriteFault>
    ensures { Writes (flat_map number numbers.now) (W.contents file.old) (W.contents file.new) result }
{
    for number in numbers {
        write_bytes(&number.to_le_bytes(), file)?;
    }
    Ok(())
}

/// Writes `count` zeros, at most four.
#[tactic(auto, using(crate::proofs::AppendedBytes::few_zeros))]
fn write_zeros<W: Write>(count: usize, file: &mut W) -> Result<(), WriteFault>
    requires { count ≤ 4 }
    ensures { Writes (zeros count) (W.contents file.old) (W.contents file.new) result }
{
    write_bytes(&[0; 4][..count], file)
}

/// How many bytes fill `count` bytes up to a multiple of four.
#[tactic(auto, unfolding(crate::specs::Blocks::padding))]
fn padding(count: usize) -> usize
    ensures value { result ≡ padding count }
    ensures few { result ≤ 3 }
{
    (4 - count % 4) % 4
}

/// Writes the Ethernet frame of a payload, filled up with zeros to a multiple of four bytes.
fn write_frame<W: Write>(passed: bool, payload: &[u8], file: &mut W) -> Result<(), WriteFault>
    requires { length payload.now ≤ 1500 }
    ensures { Writes (ethernet_head passed ++ (payload.now ++ zeros (padding (ethernet_size payload.now)))) (W.contents file.old) (W.contents file.new) result }
{
    write_bytes(ethernet_head(passed), file)?;
    write_bytes(payload, file)?;
    write_zeros(padding(ETHERNET_HEADER + payload.len()), file)
}

/// The Ethernet header of a frame that has passed a slave, or hasn't.
#[tactic(auto, using(crate::proofs::BlockBytes::sent_spelled, crate::proofs::BlockBytes::passed_spelled))]
fn ethernet_head(passed: bool) -> &'static [u8; ETHERNET_HEADER]
    ensures { result.now ≡ ethernet_head passed }
{
    if passed { &PASSED } else { &SENT }
}

/// Writes a comment, if there is one.
fn write_comment<W: Write>(comment: Option<&str>, file: &mut W) -> Result<(), WriteFault>
    requires { IsComment (option_map (λ t. t.now) comment) }
    ensures { Writes (comment_bytes (option_map (λ t. t.now) comment.entry)) (W.contents file.old) (W.contents file.new) result }
{
    match comment {
        None => Ok(()),
        Some(text) => write_options(COMMENT, text, file),
    }
}

/// The bytes of a comment's option and of the end of options; 0 if there is no comment.
fn comment_size(comment: Option<&str>) -> u32
    requires { IsComment (option_map (λ t. t.now) comment) }
    ensures size { result ≡ length (comment_bytes (option_map (λ t. t.now) comment.entry)) }
    ensures few { result ≤ 65546 }
{
    match comment {
        None => 0,
        Some(text) => options_size(text.len()),
    }
}

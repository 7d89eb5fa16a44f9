//! The text of a frame.
ghost use Rattle.std.specs.Prelude.{◌≡◌, ◌++◌, OnOk, length, string_bytes};
ghost use Rattle.ec_frame.specs.Frame.{IsFrame, Payload};
ghost use Rattle.ec_decode.specs.FrameText.{frame_text, heading_line, reserved_bit_words, rest_words};
ghost use Rattle.ec_decode.specs.FrameText.{spaced};

use crate::datagram::write_datagrams;
use byteorder::{ByteOrder, LittleEndian};
use ec_frame::check;
use ec_frame::field::FRAME_HEADER_LEN;
use std::alloc::{AllocError, Global};
use std::fmt::Write as _;

/// In the frame's header: how many bits of length there are, before the reserved bit.
const LENGTH_BITS: u32 = 11;

/// Adds the text of a frame with so many datagrams.
pub(crate) fn write_counted(
    alloc: Global,
    text: &mut String,
    count: usize,
    payload: &[u8],
) -> Result<(), AllocError>
    requires { (p : Payload) × IsFrame payload.now p × (count ≡ length p.datagrams) }
    ensures { OnOk result ((p : Payload) → IsFrame payload.now p → count ≡ length p.datagrams
        → string_bytes text.new ≡ string_bytes text.old ++ frame_text p) }
{
    let header = LittleEndian::read_u16(payload);
    let (_, area) = payload.split_at(FRAME_HEADER_LEN);
    let (_, rest) = area.split_at(usize::from(header % (1 << LENGTH_BITS)));
    let reserved = header / (1 << LENGTH_BITS) % 2 == 1;
    write_heading(alloc, text, count, reserved, rest)?;
    write_datagrams(alloc, text, count, area)
}

/// Adds the text of a frame: a line for the frame, and one for each of its datagrams.
///
/// # Errors
///
/// `AllocError` if there is no memory. Drop the text then: it may have any part of the lines.
pub fn write_frame(alloc: Global, text: &mut String, payload: &[u8]) -> Result<(), AllocError>
    requires { (p : Payload) × IsFrame payload.now p }
    ensures { OnOk result ((p : Payload) → IsFrame payload.now p
        → string_bytes text.new ≡ string_bytes text.old ++ frame_text p) }
{
    let count = check(payload).unwrap();
    write_counted(alloc, text, count, payload)
}

/// Adds the line of a frame with so many datagrams.
fn write_heading(
    alloc: Global,
    text: &mut String,
    count: usize,
    reserved: bool,
    rest: &[u8],
) -> Result<(), AllocError>
    ensures { OnOk result (string_bytes text.new ≡ string_bytes text.old
        ++ heading_line count reserved rest.now) }
{
    write!(text, "frame {count}")?;
    write_reserved(text, reserved)?;
    write_rest(alloc, text, rest)?;
    text.push_str("\n")
}

/// Adds the bytes behind the datagrams, if there are any.
fn write_rest(alloc: Global, text: &mut String, rest: &[u8]) -> Result<(), AllocError>
    ensures { OnOk result
        (string_bytes text.new ≡ string_bytes text.old ++ spaced (rest_words rest.now)) }
{
    if rest.is_empty() {
        return Ok(());
    }
    let digits = hex::encode(alloc, rest)?;
    write!(text, " rest {digits}")
}

/// Adds whether bit 11 of the header is set.
fn write_reserved(text: &mut String, reserved: bool) -> Result<(), AllocError>
    ensures { OnOk result
        (string_bytes text.new ≡ string_bytes text.old ++ spaced (reserved_bit_words reserved)) }
{
    if reserved {
        text.push_str(" reserved")
    } else {
        Ok(())
    }
}

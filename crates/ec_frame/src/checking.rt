//! Checks whether a payload is a frame.
ghost use Rattle.std.specs.Prelude.{◌≡◌, ◌<◌, ◌≤◌, length, IfOk, IfErr};
ghost use Rattle.ec_frame.specs.declared.error.FrameError.{FrameError};
ghost use Rattle.ec_frame.specs.Frame.{Payload, IsFrame};
ghost use Rattle.ec_frame.specs.Refusals.{IsRefused};
ghost use Rattle.ec_frame.specs.Datagram.{data_length};
ghost use Rattle.ec_frame.specs.Reading.{GivesShape, GivesCount, GivesVerdict};

use crate::command::Command;
use crate::error::FrameError;
use crate::field::{self, OVERHEAD};
use byteorder::{ByteOrder, LittleEndian};

/// The datagram at the front of some bytes.
#[derive(Clone, Copy)]
struct Shape {
    len: usize,
    is_last: bool,
}

/// The length of the data of the datagram that begins some bytes.
pub(crate) fn data_length(bytes: &[u8]) -> usize
    requires { 12 ≤ length bytes.now }
    ensures value { result ≡ data_length bytes.now }
    ensures bound { result < 2048 }
{
    let flags = LittleEndian::read_u16(&bytes[field::FLAGS..]);
    usize::from(field::length_in(flags))
}

/// The number of datagrams of a payload, if it is a frame (ETG.1000.4, "EtherCAT frame structure").
/// Reserved bits and all bytes after the datagrams are free.
///
/// It tests in this order: fewer than 2 bytes, `Short`; a type other than 1, `BadType`; a length
/// field over 1470, `TooLong`; fewer bytes than it says, `Short`; a length field of 0, `BadLength`;
/// then for each datagram no room for it, `BadLength`, a command over 14, `BadCommand`, and a more
/// bit that is wrong, `BadMore`.
pub fn check(payload: &[u8]) -> Result<usize, FrameError>
    ensures accepted { IfOk result (λ count.
        (p : Payload) × IsFrame payload.now p × (count ≡ length p.datagrams)) }
    ensures refused { IfErr result (IsRefused payload.now) }
    ensures accepts { (p : Payload) → IsFrame payload.now p → result ≡ Ok (length p.datagrams) }
    ensures refuses { (e : FrameError) → IsRefused payload.now e → result ≡ Err e }
{
    read_frame(payload)
}

/// Tests the header, and then counts the datagrams.
fn read_frame(payload: &[u8]) -> Result<usize, FrameError>
    ensures { GivesVerdict payload.now result }
{
    if payload.len() < field::FRAME_HEADER_LEN {
        return Err(FrameError::Short);
    }
    let header = LittleEndian::read_u16(payload);
    if field::type_in(header) != 1 {
        return Err(FrameError::BadType);
    }
    let length = field::length_in(header);
    if length > field::MAX_AREA {
        return Err(FrameError::TooLong);
    }
    let end = field::FRAME_HEADER_LEN + usize::from(length);
    if payload.len() < end {
        return Err(FrameError::Short);
    }
    if length == 0 {
        return Err(FrameError::BadLength);
    }
    count_datagrams(&payload[field::FRAME_HEADER_LEN..end])
}

/// Counts the datagrams of an area.
fn count_datagrams(area: &[u8]) -> Result<usize, FrameError>
    requires { 0 < length area.now }
    ensures { GivesCount area.now result }
{
    let mut rest = area;
    let mut count = 0;
    loop {
        let shape = read_shape(rest)?;
        count += 1;
        if shape.is_last {
            return Ok(count);
        }
        let (_, after) = rest.split_at(shape.len);
        rest = after;
    }
}

/// Reads the datagram at the front, and whether another follows.
fn read_shape(rest: &[u8]) -> Result<Shape, FrameError>
    ensures { GivesShape rest.now result }
{
    if rest.len() < OVERHEAD {
        return Err(FrameError::BadLength);
    }
    let flags = LittleEndian::read_u16(&rest[field::FLAGS..]);
    let len = OVERHEAD + usize::from(field::length_in(flags));
    if rest.len() < len {
        return Err(FrameError::BadLength);
    }
    if Command::from_number(rest[field::COMMAND]).is_none() {
        return Err(FrameError::BadCommand);
    }
    let is_last = !field::says_more(flags);
    if is_last != (rest.len() == len) {
        return Err(FrameError::BadMore);
    }
    Ok(Shape { len, is_last })
}

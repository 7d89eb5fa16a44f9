//! Where a payload stops being a frame.
ghost use Rattle.std.specs.Prelude.{◌≡◌, ◌++◌, IfErr, IfNone, IfOk, IfSome, List, OnOk, length, string_bytes};
ghost use Rattle.ec_frame.specs.Datagram.{Datagram};
ghost use Rattle.ec_frame.specs.Frame.{IsFrame, Payload, area};
ghost use Rattle.ec_frame.specs.Refusals.{IsRefused};
ghost use Rattle.ec_decode.specs.Faults.{AreWhole, BeginsNone, IsRefusedAt, error_name, refused_line, refused_text};
ghost use Rattle.ec_decode.specs.Standing.{BeginsLong, IsNotOpened, IsOpened};
ghost use Rattle.ec_decode.specs.Stopping.{Stops};

use crate::datagram::{flags_at, length_at, write_datagrams};
use byteorder::{ByteOrder, LittleEndian};
use ec_frame::field::{FRAME_HEADER_LEN, OVERHEAD};
use ec_frame::{Command, FrameError, check};
use std::alloc::{AllocError, Global};
use std::fmt::Write as _;

/// In the frame's header: how many bits of length there are.
const LENGTH_BITS: u32 = 11;
/// In a datagram's flags: another follows.
const MORE: u16 = 0x8000;

/// Why a payload is no frame, and where its fault is.
#[derive(Clone, Copy, Debug, PartialEq, Eq, Drop)]
pub struct LocatedFault {
    /// The first fault, as `ec_frame::check` returns it.
    pub error: FrameError,
    /// How many datagrams stand whole before it; if it is `Short`, a whole last one counts too.
    pub whole: usize,
    /// The byte where the fault begins: the payload's length if it is `Short`; 0 if it is in the
    /// header; else the first byte of the next datagram.
    pub at: usize,
}

/// The datagrams that stand at the front of an area.
#[derive(Clone, Copy)]
struct Front {
    /// How many they are.
    whole: usize,
    /// How many bytes they have.
    len: usize,
}

/// The number of datagrams of a payload, if it is a frame, as `ec_frame::check` returns it. The
/// error is the first fault, with its position.
pub fn check_located(payload: &[u8]) -> Result<usize, LocatedFault>
    ensures accepted { IfOk result (λ count.
        (p : Payload) × IsFrame payload.now p × (count ≡ length p.datagrams)) }
    ensures refused { IfErr result (λ refused.
        (ds : List Datagram) × IsRefusedAt payload.now refused ds) }
{
    check(payload).map_err(|error| locate(payload, error))
}

/// The name of a refusal, one word.
pub fn error_name(error: FrameError) -> &'static str
    ensures { result.now ≡ error_name error }
{
    match error {
        FrameError::Short => "Short",
        FrameError::BadType => "BadType",
        FrameError::BadLength => "BadLength",
        FrameError::BadMore => "BadMore",
        FrameError::BadCommand => "BadCommand",
        FrameError::TooLong => "TooLong",
    }
}

/// Adds the text of a payload that is no frame: the lines of the datagrams that stand whole before
/// its fault, and that of its refusal.
///
/// # Errors
///
/// `AllocError` if there is no memory. Drop the text then: it may have any part of the lines.
pub fn write_refused(
    alloc: Global,
    text: &mut String,
    payload: &[u8],
    refused: LocatedFault,
) -> Result<(), AllocError>
    requires { (ds : List Datagram) × IsRefusedAt payload.now refused ds }
    ensures { OnOk result ((ds : List Datagram) → IsRefusedAt payload.now refused ds
        → string_bytes text.new ≡ string_bytes text.old ++ refused_text refused ds) }
{
    write_datagrams(alloc, text, refused.whole, area_of(payload))?;
    write_line(text, refused)
}

/// Finds the position of a fault.
fn locate(payload: &[u8], error: FrameError) -> LocatedFault
    requires { IsRefused payload.now error }
    ensures { (ds : List Datagram) × IsRefusedAt payload.now result ds × (result.error ≡ error) }
{
    let area = area_of(payload);
    let header = LocatedFault {
        error,
        whole: 0,
        at: 0,
    };
    match error {
        FrameError::Short => LocatedFault {
            error,
            whole: count_whole(area),
            at: payload.len(),
        },
        FrameError::BadType | FrameError::TooLong => header,
        _ if area.is_empty() => header,
        _ => {
            let Front { whole, len } = front_of(area);
            LocatedFault {
                error,
                whole,
                at: FRAME_HEADER_LEN + len,
            }
        }
    }
}

/// The bytes of datagrams that are there, as many as the header says at most.
fn area_of(payload: &[u8]) -> &[u8]
    ensures { result.now ≡ area payload.now }
{
    if payload.len() < FRAME_HEADER_LEN {
        return &[];
    }
    let header = LittleEndian::read_u16(payload);
    let (_, rest) = payload.split_at(FRAME_HEADER_LEN);
    let len = usize::from(header % (1 << LENGTH_BITS)).min(rest.len());
    let (area, _) = rest.split_at(len);
    area
}

/// How many datagrams stand whole at the front of an area that is cut short: those that say rightly
/// that another follows, and the one behind them, if it is whole.
fn count_whole(area: &[u8]) -> usize
    ensures { (ds : List Datagram) × AreWhole area.now ds × (result ≡ length ds) }
{
    let Front { whole, len } = front_of(area);
    let (_, rest) = area.split_at(len);
    match whole_length(rest) {
        Some(_) => whole + 1,
        None => whole,
    }
}

/// The datagrams at the front of an area that say rightly that another follows.
fn front_of(area: &[u8]) -> Front
    ensures { Stops area.now result }
{
    let mut rest = area;
    let mut whole = 0;
    while let Some(len) = opened_length(rest) {
        let (_, after) = rest.split_at(len);
        rest = after;
        whole += 1;
    }
    Front {
        whole,
        len: area.len() - rest.len(),
    }
}

/// The length of the datagram at the front of some bytes, if it stands there whole and says rightly
/// that another follows.
fn opened_length(bytes: &[u8]) -> Option<usize>
    ensures found { IfSome result (IsOpened bytes.now) }
    ensures none { IfNone result (IsNotOpened bytes.now) }
{
    let len = whole_length(bytes)?;
    if len == bytes.len() || flags_at(bytes) < MORE {
        return None;
    }
    Some(len)
}

/// The length of the datagram at the front of some bytes, if it stands there whole.
fn whole_length(bytes: &[u8]) -> Option<usize>
    ensures found { IfSome result (BeginsLong bytes.now) }
    ensures none { IfNone result (BeginsNone bytes.now) }
{
    if bytes.len() < OVERHEAD {
        return None;
    }
    let len = length_at(bytes);
    if bytes.len() < len {
        return None;
    }
    let _command = Command::from_number(bytes[0])?;
    Some(len)
}

/// Adds the line of a refusal.
#[tactic(auto, unfolding(crate::specs::Faults::refused_line))]
fn write_line(text: &mut String, refused: LocatedFault) -> Result<(), AllocError>
    ensures { OnOk result
        (string_bytes text.new ≡ string_bytes text.old ++ refused_line refused) }
{
    let LocatedFault { error, whole, at } = refused;
    let (number, name) = (error.number(), error_name(error));
    writeln!(text, "refused {number} {name} datagram {whole} byte {at}")
}

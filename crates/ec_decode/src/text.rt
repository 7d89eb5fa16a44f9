//! Lines of hex as text, and text as lines of hex.
ghost use Rattle.std.specs.Prelude.{◌≡◌, ◌++◌, IfOk, OnOk, map, string_bytes};
ghost use Rattle.std.specs.Str.Lines.{lines};
ghost use Rattle.hex.specs.Hex.{encode_lower};
ghost use Rattle.ec_decode.specs.Answers.{DecodesLine, DecodesLines, EncodesText, IsTextOf};
ghost use Rattle.ec_decode.specs.FrameText.{newline};
ghost use Rattle.ec_decode.specs.Steps.{AddsLine, AddsLines};

use crate::error::DecodeError;
use crate::frame::write_counted;
use crate::located::{check_located, write_refused};
use crate::reader::Reader;
use hex::FromHexError;
use std::alloc::{AllocError, Global};

/// The text of a payload. A frame has a line for it and one for each of its datagrams. Any other payload has
/// a line for each datagram that stands whole before its fault, and one for its refusal.
pub fn payload_text(alloc: Global, payload: &[u8]) -> Result<String, AllocError>
    ensures { IfOk result (λ text. IsTextOf payload.now (string_bytes text)) }
{
    let mut text = String::new(alloc);
    match check_located(payload) {
        Ok(count) => write_counted(alloc, &mut text, count, payload)?,
        Err(refused) => write_refused(alloc, &mut text, payload, refused)?,
    }
    Ok(text)
}

/// The text of the payload that a line spells in hex digits of either case; none if the line isn't
/// hex. `AllocError` if there is no memory.
pub fn decode_line(alloc: Global, line: &str) -> Result<Option<String>, AllocError>
    ensures { IfOk result (DecodesLine line.now) }
{
    let payload = match hex::decode(alloc, line) {
        Ok(payload) => payload,
        Err(FromHexError::OutOfMemory) => return Err(AllocError),
        Err(_) => return Ok(None),
    };
    Ok(Some(payload_text(alloc, payload.as_slice())?))
}

/// What lines of hex are printed as.
#[derive(Debug, Drop)]
pub struct Decoded {
    /// The texts of the payloads, one after another.
    pub text: String,
    /// Whether each line is hex or empty; else the text ends before the first that is neither.
    pub is_whole: bool,
}

/// The texts of the payloads that the lines of a text spell in hex, one after another, up to the first
/// line that isn't hex. Empty lines are skipped. `AllocError` if there is no memory.
pub fn decode_text(alloc: Global, text: &str) -> Result<Decoded, AllocError>
    ensures { IfOk result (λ decoded.
        DecodesLines (lines text.now) (string_bytes decoded.text) decoded.is_whole) }
{
    let lines = lines_of(alloc, text)?;
    let mut answer = String::new(alloc);
    let is_whole = add_lines(alloc, &mut answer, lines.as_slice())?;
    Ok(Decoded {
        text: answer,
        is_whole,
    })
}

/// The payloads of the frames that a text states, in lower-case hex, a line for each. Empty lines and
/// indented ones are skipped.
///
/// # Errors
///
/// `BadScript`, with the number of the first line that is out of form, or of the line that is missing
/// if a text ends within a frame; `Memory` if memory ran out.
pub fn encode_text(alloc: Global, text: &str) -> Result<String, DecodeError>
    ensures { EncodesText text.now result }
{
    let lines = lines_of(alloc, text)?;
    let mut reader = Reader::new();
    let mut answer = String::new(alloc);
    for (place, line) in lines.as_slice().iter().enumerate() {
        if let Some(payload) = reader.read_line(alloc, place + 1, line)? {
            write_payload(alloc, &mut answer, payload.as_slice())?;
        }
    }
    if !reader.is_between() {
        return Err(DecodeError::BadScript(lines.len() + 1));
    }
    Ok(answer)
}

/// Adds what lines of hex are printed as, up to the first that isn't hex, and returns whether each is.
fn add_lines(alloc: Global, text: &mut String, lines: &[&str]) -> Result<bool, AllocError>
    ensures { IfOk result (AddsLines (map (λ x. x.now) lines.now) (string_bytes text.old) (string_bytes text.new)) }
{
    for line in lines {
        if !add_line(alloc, text, line)? {
            return Ok(false);
        }
    }
    Ok(true)
}

/// Adds what a line of hex is printed as, which is nothing if it is empty, and returns whether it is hex.
fn add_line(alloc: Global, text: &mut String, line: &str) -> Result<bool, AllocError>
    ensures { IfOk result (AddsLine line.now (string_bytes text.old) (string_bytes text.new)) }
{
    if line.is_empty() {
        return Ok(true);
    }
    let Some(more) = decode_line(alloc, line)? else {
        return Ok(false);
    };
    text.push_str(more.as_str())?;
    Ok(true)
}

/// The lines of a text.
fn lines_of<'a>(alloc: Global, text: &'a str) -> Result<Vec<&'a str>, AllocError>
    ensures { IfOk result (λ v. map (λ x. x.now) v.items ≡ lines text.now) }
{
    text.lines().collect(alloc)
}

/// Adds a payload in hex, and a newline.
fn write_payload(alloc: Global, text: &mut String, payload: &[u8]) -> Result<(), AllocError>
    ensures { OnOk result (string_bytes text.new
        ≡ string_bytes text.old ++ (encode_lower payload.now ++ newline)) }
{
    let digits = hex::encode(alloc, payload)?;
    text.push_str(digits.as_str())?;
    text.push_str("\n")
}

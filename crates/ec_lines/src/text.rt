//! The text before a line `%%`.
ghost use Rattle.std.specs.Prelude.{◌≡◌, ◌≤◌, ◌^◌, ◌++◌, IfErr, IfOk, OnOk, length, string_bytes};
ghost use Rattle.std.specs.Str.{IsUtf8};
ghost use Rattle.ec_lines.specs.Inputs.{bytes_left};
ghost use Rattle.ec_lines.specs.Kept.{IsAddFault, RefusesLines, is_last};
ghost use Rattle.ec_lines.specs.Taking.{RefusesText, TakesText, is_divider};

use crate::LinesError;
use crate::lines::{InputStream, MAX_BYTES, MAX_KEPT, take_bytes};
use std::alloc::Global;
use std::io::Read;

/// Takes the text before a line `%%`, and that line; or all that is left if there is no such line. The line may end in `\r\n`, or be
/// the last one without an end. Nothing behind it is taken. An interrupted read is made again.
///
/// # Errors
///
/// `LinesError::TooLong` once more than 2^20 bytes of text are taken. `NoText` if the text isn't UTF-8. `Unread` if a read is
/// refused, `Memory` if memory runs out.
pub fn take_text<R: Read + Drop>(
    alloc: Global,
    input: &mut InputStream<R>,
) -> Result<String, LinesError>
    ensures taken { IfOk result (λ text.
        TakesText (bytes_left R.remaining input.old) (bytes_left R.remaining input.new) (string_bytes text)) }
    ensures short { IfOk result (λ text. length (string_bytes text) ≤ 2 ^ 20) }
    ensures refused { IfErr result (RefusesText input.new.is_refused (bytes_left R.remaining input.old) (bytes_left R.remaining input.new)) }
    ensures unchanged { OnOk result (input.new.is_refused ≡ input.old.is_refused) }
{
    let bytes = take_lines(alloc, input)?;
    text_of(bytes)
}

/// Takes the lines before a line `%%`, and that line; or all that are left. Returns the bytes of the lines before it.
fn take_lines<R: Read + Drop>(
    alloc: Global,
    input: &mut InputStream<R>,
) -> Result<Vec<u8>, LinesError>
    ensures taken { IfOk result (λ text.
        TakesText (bytes_left R.remaining input.old) (bytes_left R.remaining input.new) text.items) }
    ensures short { IfOk result (λ text. length text.items ≤ 2 ^ 20) }
    ensures refused { IfErr result (RefusesLines input.new.is_refused (bytes_left R.remaining input.old) (bytes_left R.remaining input.new)) }
    ensures unchanged { OnOk result (input.new.is_refused ≡ input.old.is_refused) }
{
    let mut text = Vec::new(alloc);
    loop {
        let line = take_bytes(alloc, input, MAX_KEPT)?;
        if is_last(&line) {
            return Ok(text);
        }
        add_line(&mut text, &line)?;
    }
}

/// Adds a line to a text. `TooLong` if the text then has more than 2^20 bytes.
fn add_line(text: &mut Vec<u8>, line: &[u8]) -> Result<(), LinesError>
    ensures added { OnOk result (text.new.items ≡ text.old.items ++ line.now) }
    ensures short { OnOk result (length text.new.items ≤ 2 ^ 20) }
    ensures refused { IfErr result (IsAddFault text.old.items line.now) }
{
    text.extend_from_slice(line)?;
    if text.len() > MAX_BYTES {
        return Err(LinesError::TooLong);
    }
    Ok(())
}

/// The text that these bytes are, or `NoText` if they aren't UTF-8.
fn text_of(bytes: Vec<u8>) -> Result<String, LinesError>
    ensures same { IfOk result (λ text. string_bytes text ≡ bytes.items) }
    ensures refused { IfErr result (λ error. (error ≡ LinesError.NoText)
        × (IsUtf8 bytes.items → ⊥)) }
{
    String::from_utf8(bytes).map_err(|_| LinesError::NoText)
}

/// Whether a line, with its end, is the last one that is taken of a text: an empty one or a line `%%`.
fn is_last(line: &[u8]) -> bool
    ensures { result ≡ is_last line.now }
{
    line.is_empty() || is_divider(line)
}

/// Whether a line, with its end, is a line `%%`.
fn is_divider(line: &[u8]) -> bool
    ensures { result ≡ is_divider line.now }
{
    line == b"%%\n".as_slice() || line == b"%%\r\n".as_slice() || line == b"%%".as_slice()
}

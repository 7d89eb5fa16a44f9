//! `ecat decode` and `ecat encode`: each reads the whole input, and then prints the result.
ghost use Rattle.std.specs.Prelude.{IfErr, IfOk, string_bytes};
ghost use Rattle.ec_app.specs.Translating.{IsEncoded, IsOutOfForm, RunsDecode, RunsEncode};
ghost use Rattle.ec_console.specs.Given.{given_by};

use ec_console::{InputStream, OutputStream, Refusal, print_text, read_text};
use ec_decode::{DecodeError, decode_text, encode_text};
use ec_script::ScriptError;
use std::alloc::Global;
use std::io::{Read, Write};

/// Prints as text each payload that a line of the input spells in hex digits of either case. A frame is one line, and one for each of
/// its datagrams. A payload that is no frame is the datagrams before its fault, and the fault. Empty lines are skipped.
///
/// # Errors
///
/// The refusal of the input. `Refusal::BadHex` at the first line that isn't hex, behind the texts of those before it.
/// `Refusal::Output` if a write was refused, `Refusal::Memory` if memory ran out.
pub fn print_decode<R: Read + Drop, W: Write + Drop>(
    alloc: Global,
    input: &mut InputStream<R>,
    output: &mut OutputStream<W>,
) -> Result<(), Refusal>
    ensures { RunsDecode (given_by R.remaining input.old input.new) output.old output.new result }
{
    let text = read_text(alloc, input)?;
    let decoded = decode_text(alloc, text.as_str())?;
    print_text(decoded.text.as_bytes(), output)?;
    if decoded.is_whole {
        Ok(())
    } else {
        Err(Refusal::BadHex)
    }
}

/// Prints the frames of a text on the input in lower-case hex, one a line. The text has the form that `print_decode` prints. Empty
/// lines and indented ones are skipped.
///
/// # Errors
///
/// `Refusal::Script` with the number of the first line that is out of form, or of the line behind the last if datagrams are missing.
/// The refusal of the input. `Refusal::Output` if a write was refused. If the text or the input is refused, nothing is printed.
pub fn print_encode<R: Read + Drop, W: Write + Drop>(
    alloc: Global,
    input: &mut InputStream<R>,
    output: &mut OutputStream<W>,
) -> Result<(), Refusal>
    ensures { RunsEncode (given_by R.remaining input.old input.new) output.old output.new result }
{
    let text = read_text(alloc, input)?;
    let answer = encoded(alloc, text.as_str())?;
    print_text(answer.as_bytes(), output)
}

/// The frames of a text in hex, one a line. The errors are `Refusal::Script` and `Refusal::Memory`.
fn encoded(alloc: Global, text: &str) -> Result<String, Refusal>
    ensures answer { IfOk result (λ answer. IsEncoded text.now (string_bytes answer)) }
    ensures refused { IfErr result (IsOutOfForm text.now) }
{
    match encode_text(alloc, text) {
        Ok(answer) => Ok(answer),
        Err(DecodeError::Memory) => Err(Refusal::Memory),
        Err(DecodeError::BadScript(line)) => Err(Refusal::Script(ScriptError::BadScript(line))),
    }
}

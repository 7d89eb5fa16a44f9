//! Reading a whole text, up to a limit.
ghost use Rattle.std.specs.Prelude.{◌≡◌, ◌≤◌, ◌^◌, ◌+◌, IfErr, IfOk, IfSome, OnOk, length, take};
ghost use Rattle.std.specs.String.{string_bytes};
ghost use Rattle.ec_lines.specs.Inputs.{bytes_left};
ghost use Rattle.ec_console.specs.Given.{GivesText, IsInputRefusal, IsNoInput, IsReadRefusal, given_by};

use crate::Refusal;
use ec_lines::InputStream;
use std::alloc::Global;
use std::io::{ErrorKind, Read};

/// The most bytes of an input.
const MAX_INPUT: usize = 1 << 20;

/// All that `input` gives, as text. `Refusal::Input` if a read is refused, or if the input has more
/// than 2^20 bytes or isn't UTF-8. `Refusal::Memory` if memory runs out. An interrupted read is made again.
pub fn read_text<R: Read + Drop>(
    alloc: Global,
    input: &mut InputStream<R>,
) -> Result<String, Refusal>
    ensures whole { IfOk result (λ text. GivesText (given_by R.remaining input.old input.new) (string_bytes text)) }
    ensures short { IfOk result (λ text. length (string_bytes text) ≤ 2 ^ 20) }
    ensures refused { IfErr result (IsInputRefusal (given_by R.remaining input.old input.new)) }
    ensures unchanged { OnOk result (input.new.is_refused ≡ input.old.is_refused) }
{
    let bytes = read_bytes(alloc, input)?;
    text_of(bytes)
}

/// The text that these bytes are. `Refusal::Input` if they are more than 2^20, or no UTF-8.
fn text_of(bytes: Vec<u8>) -> Result<String, Refusal>
    ensures same { IfOk result (λ text. string_bytes text ≡ bytes.items) }
    ensures short { IfOk result (λ text. length (string_bytes text) ≤ 2 ^ 20) }
    ensures refused { IfErr result (λ refusal. (refusal ≡ Refusal.Input) × IsNoInput bytes.items) }
{
    if bytes.len() > MAX_INPUT {
        return Err(Refusal::Input);
    }
    String::from_utf8(bytes).map_err(|_| Refusal::Input)
}

/// The bytes of `input`, up to one more than an input may have. An interrupted read is made again.
fn read_bytes<R: Read + Drop>(alloc: Global, input: &mut InputStream<R>) -> Result<Vec<u8>, Refusal>
    ensures known { IfOk result (λ bytes.
        IfSome (bytes_left R.remaining input.old) (λ all. bytes.items ≡ take (2 ^ 20 + 1) all)) }
    ensures refused { IfErr result (IsReadRefusal input.new.is_refused) }
    ensures unchanged { OnOk result (input.new.is_refused ≡ input.old.is_refused) }
{
    let mut bytes = Vec::new(alloc);
    match input.read_first(MAX_INPUT as u64 + 1, &mut bytes) {
        Ok(_) => Ok(bytes),
        Err(error) => {
            if error.kind() == ErrorKind::OutOfMemory {
                return Err(Refusal::Memory);
            }
            Err(Refusal::Input)
        }
    }
}

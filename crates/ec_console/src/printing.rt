//! Texts on the output, written as a whole.
ghost use Rattle.std.specs.Prelude.{◌≡◌, IfErr, OnErr, OnOk};
ghost use Rattle.std.specs.Io.KnownBytes.{Appends};
ghost use Rattle.ec_console.specs.Printing.{IsCutOff, IsPrinted};

use crate::{OutputStream, Refusal};
use std::io::{ErrorKind, Write};

/// Writes a text and hands on what is written. `Refusal::Output` is the only error: a write or the
/// flush was refused, and what is written by then is a first part of the text.
pub fn print_text<W: Write + Drop>(text: &[u8], output: &mut OutputStream<W>) -> Result<(), Refusal>
    ensures all { OnOk result (IsPrinted output.old output.new text.now) }
    ensures part { OnErr result (IsCutOff output.old output.new text.now) }
    ensures fault { IfErr result (λ refusal. refusal ≡ Refusal.Output) }
{
    write_text(text, output)?;
    match output.flush() {
        Ok(()) => Ok(()),
        Err(_) => Err(Refusal::Output),
    }
}

/// Writes all of a text. `Refusal::Output` if a write was refused; a first part of the text is written then.
fn write_text<W: Write + Drop>(text: &[u8], output: &mut OutputStream<W>) -> Result<(), Refusal>
    ensures all { OnOk result (Appends output.old.holds output.new.holds text.now) }
    ensures unchanged { OnOk result (output.new.is_refused ≡ output.old.is_refused) }
    ensures part { OnErr result (IsCutOff output.old output.new text.now) }
    ensures fault { IfErr result (λ refusal. refusal ≡ Refusal.Output) }
{
    let mut written = 0;
    for _ in 0..u64::MAX {
        if written == text.len() {
            return Ok(());
        }
        match output.write(&text[written..]) {
            Ok(0) => return Err(Refusal::Output),
            Ok(count) => written += count,
            Err(error) => {
                if error.kind() != ErrorKind::Interrupted {
                    return Err(Refusal::Output);
                }
            }
        }
    }
    output.give_up();
    Err(Refusal::Output)
}

//! Texts in files, and inputs that may be files.
ghost use Rattle.std.specs.Prelude.{◌≡◌, ◌++◌, IfErr, IfOk, string_bytes};
ghost use Rattle.std.specs.Io.{ReadsAtMost};
ghost use Rattle.std.specs.Io.KnownBytes.{ReadConsumes};
ghost use Rattle.ec_lines.specs.Inputs.{bytes_left};
ghost use Rattle.ec_console.specs.Explaining.{IsLeft};
ghost use Rattle.ec_console.specs.Given.{IsUnread};
ghost use Rattle.ec_console.specs.Stating.{TakesBehind, divider, left_in};

use crate::input::read_text;
use crate::{Explanation, Refusal, Source};
use ec_lines::InputStream;
use std::alloc::{AllocError, Global};
use std::fs::{File, Files};
use std::io;
use std::io::Read;

/// What stands between a table and its script in one text: the end of the table's last line, and a line `%%`.
const DIVIDER: &str = "\n%%\n";

/// The stream of an input: one that was given, such as standard input, or a file that was opened.
#[derive(Drop)]
pub enum Origin<R: Read + Drop, O: Read + Drop> {
    /// The stream that was given.
    Given(R),
    /// A file.
    Opened(O),
}

impl<R: Read + Drop, O: Read + Drop> Read for Origin<R, O> {
    ghost use Rattle.ec_console.specs.Stating.{left_in};

    ghost remaining = { left_in R.remaining };

    fn read(&mut self, buf: &mut [u8]) -> io::Result<usize>
        ensures bound { ReadsAtMost result buf.new }
        ensures bytes { ReadConsumes (left_in R.remaining self.old) (left_in R.remaining self.new) result buf.new }
    {
        match self {
            Origin::Given(stream) => stream.read(buf),
            Origin::Opened(file) => file.read(buf),
        }
    }
}

/// The text in a file. `behind` explains why it can't be read, if that is wanted.
///
/// # Errors
///
/// `Refusal::Input` if the file can't be opened or read, or isn't text of at most 2^20 bytes. `Refusal::Memory` if memory ran out.
#[tactic(auto, using(crate::proofs::InputLemmas::refused_unread))]
pub fn read_file<H: AllocGlobal + Files>(
    rt: &H,
    path: &str,
    behind: &mut Explanation,
) -> Result<String, Refusal>
    ensures refused { IfErr result IsUnread }
    ensures explains { IsLeft behind.old behind.new }
{
    let file = open_file(rt, path, behind)?;
    match read_text(rt.alloc(), &mut InputStream::new(file)) {
        Ok(text) => Ok(text),
        Err(refusal) => {
            behind.explain_stream(rt.alloc(), Some(path), &Err(refusal));
            Err(refusal)
        }
    }
}

/// Opens a file for reading. `behind` explains why it can't be opened, if that is wanted.
///
/// # Errors
///
/// `Refusal::Input` if the file can't be opened.
pub fn open_file<H: AllocGlobal + Files>(
    rt: &H,
    path: &str,
    behind: &mut Explanation,
) -> Result<H::File, Refusal>
    ensures refused { IfErr result (λ refusal. refusal ≡ Refusal.Input) }
    ensures explains { IsLeft behind.old behind.new }
{
    match File::open(rt, path) {
        Ok(file) => Ok(file),
        Err(error) => {
            behind.explain_unopened(rt.alloc(), path, &error);
            Err(Refusal::Input)
        }
    }
}

/// The text of a command whose table was read before. If the command reads a script, that is read of the input, and stands behind the
/// table and a line `%%`. Lines that are run as they come stay in the input.
///
/// # Errors
///
/// `Refusal::Input` if the script can't be read or isn't text of at most 2^20 bytes. `Refusal::Memory` if memory ran out.
#[tactic(auto, using(crate::proofs::InputLemmas::refused_unread))]
pub fn read_behind<R: Read + Drop>(
    alloc: Global,
    source: Source,
    table: &str,
    input: &mut InputStream<R>,
) -> Result<String, Refusal>
    ensures taken { IfOk result (λ text. TakesBehind source table.now (bytes_left R.remaining input.old) (string_bytes text) (bytes_left R.remaining input.new)) }
    ensures refused { IfErr result IsUnread }
{
    match source {
        Source::Table => Ok(String::from_str(alloc, table)?),
        Source::Script => {
            let script = read_text(alloc, input)?;
            Ok(joined(alloc, table, script.as_str())?)
        }
        Source::Lines => Ok(String::from_str(alloc, table)?),
    }
}

/// A table, a line `%%` and a script in one text.
fn joined(alloc: Global, table: &str, script: &str) -> Result<String, AllocError>
    ensures { IfOk result (λ text. string_bytes text ≡ table.now ++ (divider ++ script.now)) }
{
    let mut text = String::from_str(alloc, table)?;
    text.push_str(DIVIDER)?;
    text.push_str(script)?;
    Ok(text)
}

/// How many lines stand before the script in a text that [`read_behind`] returns for a table.
pub fn lines_before(table: &str) -> usize {
    let ends = table
        .as_bytes()
        .iter()
        .filter(|byte| **byte == b'\n')
        .count();
    ends.saturating_add(2)
}

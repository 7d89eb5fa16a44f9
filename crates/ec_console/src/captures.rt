//! A capture in a file of the system, and how a command with a capture ends.
ghost use Rattle.std.specs.Prelude.{◌≡◌, All, IfErr, IfOk, is_some, map, option_map, true};
ghost use Rattle.ec_capture.specs.Captures.{IsText};
ghost use Rattle.ec_console.specs.Capturing.{IsUnopened, finished, is_complete, is_through};

use crate::refusal::Refusal;
use ec_capture::{MAX_TEXT, Recorder};
use ec_table::Table;
use std::alloc::{AllocError, Global};
use std::fs::{File, Files};
use std::io::{BufWriter, Write};

/// A capture that is written to a file of the system.
pub type Recording<F> = Recorder<BufWriter<F>>;

/// The capture of a command, if there is to be one.
pub type Capture<F> = Option<Recording<F>>;

/// The interfaces of a capture.
#[derive(Clone, Copy, Debug, PartialEq, Eq, Drop)]
pub enum Interfaces {
    /// One, of this name.
    One(&'static str),
    /// An interface `master`, and one behind each slave of a table, by its name.
    Segment,
}

/// Opens the file of a capture with such interfaces, if a file is named. Returns `None` if none is named.
///
/// # Errors
///
/// `Refusal::Output` if the file can't be opened or begun, `Refusal::Memory` if there is no memory for it.
pub fn open_capture<H: AllocGlobal + Files>(
    rt: &H,
    file: Option<&str>,
    interfaces: Interfaces,
    table: &Table,
) -> Result<Capture<H::File>, Refusal>
    ensures refused { IfErr result (λ refusal. (is_some (option_map (λ x. x.now) file.entry) ≡ true) × IsUnopened refusal) }
    ensures opened { IfOk result (λ capture. is_some capture ≡ is_some (option_map (λ x. x.now) file.entry)) }
{
    match file {
        Some(path) => Ok(Some(open_recording(rt, path, interfaces, table)?)),
        None => Ok(None),
    }
}

/// Returns how a command ends that may have a capture: with `Refusal::Output` if it was through and the capture isn't whole, else as
/// `ended`.
pub fn close_capture<F: Write + Drop>(
    ended: Result<(), Refusal>,
    capture: &Capture<F>,
) -> Result<(), Refusal>
    ensures { result ≡ finished (is_complete capture.now) ended }
{
    if is_complete(capture) || !is_through(&ended) {
        ended
    } else {
        Err(Refusal::Output)
    }
}

/// Whether all of a capture is written and handed on, if there is one.
fn is_complete<F: Write + Drop>(capture: &Capture<F>) -> bool
    ensures { result ≡ is_complete capture.now }
{
    match capture {
        Some(recording) => recording.is_whole(),
        None => true,
    }
}

/// Whether a command was through, whether or not all that it expected was so.
fn is_through(ended: &Result<(), Refusal>) -> bool
    ensures { result ≡ is_through ended.now }
{
    match ended {
        Ok(()) => true,
        Err(refusal) => matches!(refusal, Refusal::Unmet(_)),
    }
}

/// Opens a file and begins a capture in it, with such interfaces.
fn open_recording<H: AllocGlobal + Files>(
    rt: &H,
    path: &str,
    interfaces: Interfaces,
    table: &Table,
) -> Result<Recording<H::File>, Refusal>
    ensures { IfErr result IsUnopened }
{
    match interfaces {
        Interfaces::One(name) => open_recorder(rt, path, &[short(name)]),
        Interfaces::Segment => {
            let names = interfaces_of(rt.alloc(), table)?;
            open_recorder(rt, path, names.as_slice())
        }
    }
}

/// Opens a file and begins a capture in it, with interfaces of these names. The errors are those of [`open_capture`].
fn open_recorder<H: AllocGlobal + Files>(
    rt: &H,
    path: &str,
    names: &[&str],
) -> Result<Recording<H::File>, Refusal>
    requires { All IsText (map (λ t. t.now) names.now) }
    ensures { IfErr result IsUnopened }
{
    let Ok(file) = File::create(rt, path) else {
        return Err(Refusal::Output);
    };
    let Ok(file) = BufWriter::new(rt.alloc(), file) else {
        return Err(Refusal::Memory);
    };
    Recorder::open(file, names).map_err(|_| Refusal::Output)
}

/// The name, or an empty one if it is too long for an interface.
fn short(name: &str) -> &str
    ensures { IsText result.now }
{
    if is_text(name) { name } else { "" }
}

/// Whether a name is short enough for an interface.
fn is_text(name: &str) -> bool
    ensures { result ≡ true → IsText name.now }
{
    name.len() <= MAX_TEXT
}

/// The names of a segment's interfaces: `master`, and the name of each slave.
#[tactic(auto, using(crate::proofs::CaptureLemmas::texts_more))]
fn interfaces_of<'t>(alloc: Global, table: &'t Table) -> Result<Vec<&'t str>, AllocError>
    ensures { IfOk result (λ names. All IsText (map (λ t. t.now) names.items)) }
{
    let mut names = Vec::new(alloc);
    names.push("master")?;
    for slave in table.slaves() {
        names.push(short(slave.name.as_str()))?;
    }
    Ok(names)
}

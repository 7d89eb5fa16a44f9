//! The capture of a scan.
ghost use Rattle.std.specs.Prelude.{◌≡◌, IfErr, IfOk, is_some, option_map, true};
ghost use Rattle.ec_console.specs.Capturing.{IsUnopened};

use ec_capture::Recorder;
use ec_console::{Capture, Recording, Refusal};
use std::fs::{File, Files};
use std::io::BufWriter;

/// Opens the file of a scan's capture, which has one interface, if a file is named. Returns `None` if none is named.
///
/// # Errors
///
/// `Refusal::Output` if the file can't be opened or begun, `Refusal::Memory` if there is no memory for it.
pub fn open_scan_capture<H: AllocGlobal + Files>(
    rt: &H,
    file: Option<&str>,
) -> Result<Capture<H::File>, Refusal>
    ensures refused { IfErr result (λ refusal. (is_some (option_map (λ x. x.now) file.entry) ≡ true) × IsUnopened refusal) }
    ensures opened { IfOk result (λ capture. is_some capture ≡ is_some (option_map (λ x. x.now) file.entry)) }
{
    match file {
        Some(path) => Ok(Some(open_recording(rt, path)?)),
        None => Ok(None),
    }
}

/// Opens a file and begins a capture in it. The errors are those of [`open_scan_capture`].
fn open_recording<H: AllocGlobal + Files>(rt: &H, path: &str) -> Result<Recording<H::File>, Refusal>
    ensures { IfErr result IsUnopened }
{
    let Ok(file) = File::create(rt, path) else {
        return Err(Refusal::Output);
    };
    let Ok(file) = BufWriter::new(rt.alloc(), file) else {
        return Err(Refusal::Memory);
    };
    Recorder::open(file, &["scan"]).map_err(|_| Refusal::Output)
}

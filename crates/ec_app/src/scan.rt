//! `ecat scan`: a link table of the slaves of a segment, or what differs from one.
ghost use Rattle.std.specs.Prelude.{◌≡◌, option_map};
ghost use Rattle.cmd_scan.specs.Scans.{RunsAgainst, RunsScan};
ghost use Rattle.ec_app.specs.Scanned.{RunsScanWith};
ghost use Rattle.ec_console.specs.Capturing.{EndsWith};
ghost use Rattle.ec_console.specs.Explaining.{IsLeft};

use crate::remarked::read_linked;
use cmd_scan::{ScanOptions, open_scan_capture, run_against, run_scan};
use ec_console::{Explanation, OutputStream, Refusal, close_capture};
use ec_table::Table;
use std::fs::Files;
use std::io::Write;
use std::net::Net;
use std::time::Clock;

/// The files of a scan.
#[derive(Clone, Copy, Drop)]
pub struct ScanFiles<'a> {
    /// The file of the table that the slaves are compared with.
    pub against: Option<&'a str>,
    /// The file of the capture.
    pub capture: Option<&'a str>,
}

/// Scans a segment and prints a link table of its slaves; if the file of a table is named, what differs from that. That file is read
/// first. Then the file of the capture is opened, if one is named, which gets the frames. `behind` explains a refusal, if that is wanted.
///
/// # Errors
///
/// `Refusal::Input` if the file can't be read, or the refusal of the table in it. `Refusal::Output` or `Memory` if the file of the capture
/// couldn't be opened. Those of the scan. `Refusal::Output` if that was through and the capture isn't whole.
pub fn print_scan<H: AllocGlobal + Net + Files + Clock, W: Write + Drop>(
    rt: &H,
    options: ScanOptions<'_>,
    files: ScanFiles<'_>,
    output: &mut OutputStream<W>,
    behind: &mut Explanation,
) -> Result<(), Refusal>
    ensures runs { RunsScanWith (option_map (λ x. x.now) files.entry.against) (option_map (λ x. x.now) files.entry.capture) output.old output.new result }
    ensures explains { IsLeft behind.old behind.new }
{
    match files.against {
        None => scan_alone(rt, options, files.capture, output, behind),
        Some(path) => {
            let machine = read_linked(rt, path, behind)?;
            scan_against(rt, options, machine.table(), files.capture, output, behind)
        }
    }
}

/// Scans a segment and prints a table. The frames go into a capture, if a file is named.
fn scan_alone<H: AllocGlobal + Net + Files + Clock, W: Write + Drop>(
    rt: &H,
    options: ScanOptions<'_>,
    file: Option<&str>,
    output: &mut OutputStream<W>,
    behind: &mut Explanation,
) -> Result<(), Refusal>
    ensures runs { EndsWith (option_map (λ x. x.now) file.entry) (RunsScan output.old output.new) (output.new ≡ output.old) result }
    ensures explains { IsLeft behind.old behind.new }
{
    let mut capture = open_scan_capture(rt, file)?;
    let ended = run_scan(rt, options, &mut capture, output, behind);
    close_capture(ended, &capture)
}

/// Scans a segment and prints what differs from a table. The frames go into a capture, if a file is named.
fn scan_against<H: AllocGlobal + Net + Files + Clock, W: Write + Drop>(
    rt: &H,
    options: ScanOptions<'_>,
    table: &Table,
    file: Option<&str>,
    output: &mut OutputStream<W>,
    behind: &mut Explanation,
) -> Result<(), Refusal>
    ensures runs { EndsWith (option_map (λ x. x.now) file.entry) (RunsAgainst table.now output.old output.new) (output.new ≡ output.old) result }
    ensures explains { IsLeft behind.old behind.new }
{
    let mut capture = open_scan_capture(rt, file)?;
    let ended = run_against(rt, options, table, &mut capture, output, behind);
    close_capture(ended, &capture)
}

//! `ecat scan` over a socket or a card.
ghost use Rattle.std.specs.Prelude.{◌≡◌, [], IfErr, IfOk, is_some};
ghost use Rattle.std.specs.String.{string_bytes};
ghost use Rattle.cmd_scan.specs.Scans.{AreFound, IsScanOf, IsUnprinted, IsUnscanned, RunsAgainst, RunsScan, against_end, first_unsaid, line_ends, unsaid_end};
ghost use Rattle.ec_console.specs.Explaining.{IsLeft};
ghost use Rattle.ec_scan.specs.Lines.{IsFresh};
ghost use Rattle.ec_wire.specs.Taps.{IsTraceOf};

use crate::finding::{Seen, found_all};
use crate::why::{ScanFault, fault_text, unprinted_text};
use cmd_master::connect;
use ec_card::{CardWire, Sender};
use ec_console::{Capture, Explanation, OutputStream, Refusal, print_text};
use ec_found::{Found, FoundError, agrees, differences_text, printed, unsaid_text};
use ec_link::MachineError;
use ec_scan::{Line, ScanError, Shown, scan};
use ec_start::Action;
use ec_table::Table;
use ec_wire::{CapturedWire, Patience, Resting, Side, Trouble, Wire};
use std::alloc::Global;
use std::fs::Files;
use std::io::Write;
use std::net::Net;
use std::time::Clock;

/// Where the frames of a scan go, and how long it waits for an answer, in milliseconds.
#[derive(Clone, Copy, Drop)]
pub struct ScanOptions<'a> {
    /// The IPv4 address and the UDP port of a segment, such as `127.0.0.1:34980`.
    pub to: &'a str,
    /// The descriptor of a card's raw socket; it replaces the address.
    pub descriptor: Option<u16>,
    pub patience: u16,
}

/// Scans a segment and prints a link table of its slaves. The table was read back before: it states the slaves that were found, and has
/// a plan. What the scan sends and receives goes into an open capture, if there is one. `behind` explains why the scan failed, or what a
/// table can't say of the slaves, if that is wanted.
///
/// # Errors
///
/// `Refusal::Socket` if there is no such socket. `Refusal::Start` if the scan failed, as a start-up would. `Refusal::Link` or
/// `Refusal::Table` if the slaves have no plan together. `Refusal::Unsaid` if a table can't say all of a slave, and the table is printed
/// then; or if its text reads as another slave, and nothing is printed. `Refusal::Memory` or `Refusal::Output` if memory or a write was
/// refused.
pub fn run_scan<H: AllocGlobal + Net + Files + Clock, W: Write + Drop>(
    rt: &H,
    options: ScanOptions<'_>,
    capture: &mut Capture<H::File>,
    output: &mut OutputStream<W>,
    behind: &mut Explanation,
) -> Result<(), Refusal>
    ensures runs { RunsScan output.old output.new result }
    ensures still_open { is_some capture.new ≡ is_some capture.old }
    ensures explains { IsLeft behind.old behind.new }
{
    let seen = scan_at(rt, options, capture, behind)?;
    let text = text_of(rt.alloc(), &seen, behind)?;
    print_text(text.as_bytes(), output)?;
    let (shown, found) = (seen.shown.as_slice(), seen.found.as_slice());
    behind.explain_by(unsaid_text(rt.alloc(), shown, found));
    unsaid_end(found)
}

/// Scans a segment, as [`run_scan`] does, and prints what differs between its slaves and a table, a line each.
///
/// # Errors
///
/// `Refusal::Socket`, `Refusal::Start`, `Refusal::Memory` or `Refusal::Output`, as those of [`run_scan`], and `Refusal::Unmet` with the
/// number of lines if anything differs.
pub fn run_against<H: AllocGlobal + Net + Files + Clock, W: Write + Drop>(
    rt: &H,
    options: ScanOptions<'_>,
    table: &Table,
    capture: &mut Capture<H::File>,
    output: &mut OutputStream<W>,
    behind: &mut Explanation,
) -> Result<(), Refusal>
    ensures runs { RunsAgainst table.now output.old output.new result }
    ensures still_open { is_some capture.new ≡ is_some capture.old }
    ensures explains { IsLeft behind.old behind.new }
{
    let seen = scan_at(rt, options, capture, behind)?;
    let text = differences_text(rt.alloc(), table, seen.found.as_slice())?;
    let agreed = agrees(rt.alloc(), table, seen.found.as_slice())?;
    print_text(text.as_bytes(), output)?;
    against_end(agreed, text.as_bytes())
}

/// Scans a segment over a socket or a card.
fn scan_at<H: AllocGlobal + Net + Files + Clock>(
    rt: &H,
    options: ScanOptions<'_>,
    capture: &mut Capture<H::File>,
    behind: &mut Explanation,
) -> Result<Seen, Refusal>
    ensures found { IfOk result (λ seen. AreFound seen.shown.items seen.found.items) }
    ensures refused { IfErr result IsUnscanned }
    ensures still_open { is_some capture.new ≡ is_some capture.old }
    ensures explains { IsLeft behind.old behind.new }
{
    match options.descriptor {
        None => scan_tapped(
            rt,
            connect(rt, options.to, options.patience)?,
            capture,
            behind,
        ),
        Some(descriptor) => {
            let patience = Patience::of_millis(options.patience);
            let wire = CardWire::of_descriptor(i32::from(descriptor), Sender::Master, patience)?;
            scan_tapped(rt, wire, capture, behind)
        }
    }
}

/// Scans a segment over a wire that has carried nothing. If there is a capture, it notes what the wire carries.
#[tactic(auto, using(crate::proofs::Ending::fresh_trace))]
fn scan_tapped<H: AllocGlobal + Files + Clock, W: Wire + Drop>(
    rt: &H,
    wire: W,
    capture: &mut Capture<H::File>,
    behind: &mut Explanation,
) -> Result<Seen, Refusal>
    requires sent { IsFresh (W.state wire).sent }
    requires received { IsTraceOf (W.state wire).received [] }
    ensures found { IfOk result (λ seen. AreFound seen.shown.items seen.found.items) }
    ensures refused { IfErr result IsUnscanned }
    ensures still_open { is_some capture.new ≡ is_some capture.old }
    ensures explains { IsLeft behind.old behind.new }
{
    match capture.take() {
        None => {
            let (seen, _) = scan_over(rt, wire, behind);
            seen
        }
        Some(recording) => {
            let tapped = CapturedWire::new(wire, recording, Side::Master, rt);
            let (seen, tapped) = scan_over(rt, tapped, behind);
            let (_, recording) = tapped.into_parts();
            *capture = Some(recording);
            seen
        }
    }
}

/// Scans a segment over a wire that has sent nothing, and returns the wire, too.
fn scan_over<H: AllocGlobal + Clock, W: Wire + Drop>(
    rt: &H,
    wire: W,
    behind: &mut Explanation,
) -> (Result<Seen, Refusal>, W)
    requires { IsFresh (W.state wire).sent }
    ensures found { IfOk result.0 (λ seen. AreFound seen.shown.items seen.found.items) }
    ensures refused { IfErr result.0 IsUnscanned }
    ensures explains { IsLeft behind.old behind.new }
{
    let mut line = Line::new(wire, Resting::new(rt));
    let shown = scan(rt.alloc(), &mut line);
    let asked = line.asked();
    let wire = line.into_wire();
    let shown = explained(rt.alloc(), shown, (asked, trouble_on(&wire)), behind);
    (seen_of(rt.alloc(), shown), wire)
}

/// Why the last call of a wire that was a fault was one; `None` if none was.
fn trouble_on<W: Wire>(wire: &W) -> Option<Trouble> {
    if wire.failures() > 0 {
        Some(wire.trouble())
    } else {
        None
    }
}

/// What slaves show, or the refusal of a scan that failed, which is explained if that is wanted: by what was asked last, and by a fault of the
/// wire.
fn explained(
    alloc: Global,
    shown: Result<Vec<Shown>, ScanError>,
    last: (Option<Action>, Option<Trouble>),
    behind: &mut Explanation,
) -> Result<Vec<Shown>, Refusal>
    ensures refused { IfErr result IsUnscanned }
    ensures explains { IsLeft behind.old behind.new }
{
    match shown {
        Ok(shown) => Ok(shown),
        Err(ScanError::Memory) => Err(Refusal::Memory),
        Err(ScanError::Start(error)) => {
            let (asked, trouble) = last;
            let fault = ScanFault {
                error,
                asked,
                trouble,
            };
            behind.explain_by(fault_text(alloc, fault));
            Err(Refusal::Start(error))
        }
    }
}

/// The slaves of a segment, by what each of them shows.
fn seen_of(alloc: Global, shown: Result<Vec<Shown>, Refusal>) -> Result<Seen, Refusal>
    requires { IfErr shown IsUnscanned }
    ensures found { IfOk result (λ seen. AreFound seen.shown.items seen.found.items) }
    ensures refused { IfErr result IsUnscanned }
{
    let shown = shown?;
    let found = found_all(alloc, shown.as_slice())?;
    Ok(Seen { shown, found })
}

/// The text of a table with the slaves that were found. If they have none that has a plan, `behind` explains that, if it is wanted.
fn text_of(alloc: Global, seen: &Seen, behind: &mut Explanation) -> Result<String, Refusal>
    requires { AreFound seen.now.shown.items seen.now.found.items }
    ensures text { IfOk result (λ text. IsScanOf (string_bytes text) seen.now.found.items) }
    ensures refused { IfErr result IsUnprinted }
    ensures explains { IsLeft behind.old behind.new }
{
    match printed(alloc, seen.shown.as_slice(), seen.found.as_slice()) {
        Ok(text) => Ok(text),
        Err(error) => {
            let refusal = refusal_of(error);
            behind.explain_by(unprinted_text(alloc, seen, refusal));
            Err(refusal)
        }
    }
}

/// The refusal of slaves whose table isn't printed.
fn refusal_of(error: FoundError) -> Refusal
    ensures { IsUnprinted result }
{
    match error {
        FoundError::Memory => Refusal::Memory,
        FoundError::Refused(MachineError::Table(error)) => Refusal::Table(error),
        FoundError::Refused(MachineError::Link(error)) => Refusal::Link(error),
        FoundError::Otherwise(slave) => Refusal::Unsaid(slave),
    }
}

/// How a scan ends: by `Refusal::Unsaid` with the first slave of which a table can't say all, if there is one.
fn unsaid_end(found: &[Found]) -> Result<(), Refusal>
    ensures { result ≡ unsaid_end found.now }
{
    match first_unsaid(found) {
        None => Ok(()),
        Some(slave) => Err(Refusal::Unsaid(slave)),
    }
}

/// The place of the first slave of which a table can't say all.
fn first_unsaid(found: &[Found]) -> Option<usize>
    ensures { result ≡ first_unsaid found.now }
{
    found.iter().position(|one| !one.unsaid.is_empty())
}

/// How a scan ends that was compared with a table, by whether nothing differs and by what was printed.
fn against_end(agreed: bool, text: &[u8]) -> Result<(), Refusal>
    ensures { result ≡ against_end agreed text.now }
{
    if agreed {
        Ok(())
    } else {
        Err(Refusal::Unmet(line_ends(text).max(1)))
    }
}

/// How many line ends a text has.
fn line_ends(text: &[u8]) -> u64
    ensures { result ≡ line_ends text.now }
{
    text.iter().filter(|byte| **byte == b'\n').count() as u64
}

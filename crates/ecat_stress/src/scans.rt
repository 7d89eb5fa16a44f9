//! Scans of slaves whose every word a seed decides.
//!
//! For each seed a few slaves answer with an SII of their own: lengths that overrun, PDOs of 255 entries, strings of any bytes, mailboxes
//! over registers; and mailboxes reply with anything. Each scan must end within the frames that it may send, by a table that is read
//! back, or by a refusal. A slave that is slow at each word of an SII without an end is given up.
mod image;
mod wire;

use crate::args::number;
use crate::scans::wire::Hostile;
use ec_found::{Found, FoundError, found_of, printed};
use ec_link::{LinkFault, MachineError};
use ec_scan::{Line, MOST_FRAMES, SLAVE_FRAMES, ScanError, Shown, scan};
use ec_table::OrMemory;
use ec_wire::Restless;
use std::alloc::{AllocError, Global};
use std::io;
use std::io::Write;
use test_data::Random;

/// How many scans are made unless the arguments say it, and in the gate's share.
const SCANS: u32 = 1_000;

const SHARE: u32 = 20;

/// How many polls a slow slave takes for each word. It has 2048 pairs of words to be read, and one turn sends 65,536 frames.
const POLLS: u32 = 40;

/// How scans ended.
#[derive(Drop)]
struct Figures {
    tables: u64,
    unsaid: u64,
    planless: u64,
    refused: u64,
    /// The most frames of a scan.
    frames: u64,
    is_right: bool,
}

/// Scans from a seed on, and prints how they ended: `scans [SEED [COUNT]]`.
pub fn run<W: Write>(alloc: Global, args: &[String], output: &mut W) -> io::Result<bool> {
    let (Some(seed), Some(count)) = (number(args, 1, 1), number(args, 2, SCANS)) else {
        writeln!(output, "no such scans")?;
        return Ok(false);
    };
    let Figures {
        tables,
        unsaid,
        planless,
        refused,
        frames,
        is_right,
    } = try_scans(alloc, seed, count)?;
    writeln!(
        output,
        "scans {count}; tables {tables} not whole {unsaid} without a plan {planless} refused {refused}; at most {frames} frames"
    )?;
    Ok(is_right)
}

/// The gate's share.
pub fn run_share<W: Write>(alloc: Global, output: &mut W) -> io::Result<bool> {
    let is_right = try_scans(alloc, 1, SHARE)?.is_right && is_given_up(alloc)?;
    let word = if is_right {
        "all as it must be"
    } else {
        "not all"
    };
    writeln!(output, "scans {SHARE}; {word}")?;
    Ok(is_right)
}

/// Makes so many scans from a seed on.
fn try_scans(alloc: Global, seed: u32, count: u32) -> Result<Figures, AllocError> {
    let mut figures = Figures {
        tables: 0,
        unsaid: 0,
        planless: 0,
        refused: 0,
        frames: 0,
        is_right: true,
    };
    for turn in 0..count {
        let seed = u64::from(seed) + u64::from(turn);
        try_scan(alloc, seed, &mut figures)?;
    }
    Ok(figures)
}

/// Makes the scan of a seed.
fn try_scan(alloc: Global, seed: u64, figures: &mut Figures) -> Result<(), AllocError> {
    let wire = Hostile::new(alloc, Random::new(seed))?;
    let mut line = Line::new(wire, Restless);
    let ended = scan(alloc, &mut line);
    figures.frames = figures.frames.max(line.number());
    if line.number() > MOST_FRAMES {
        figures.is_right = false;
    }
    match ended {
        Ok(shown) => try_table(alloc, shown.as_slice(), figures),
        Err(ScanError::Memory) => Err(AllocError),
        Err(ScanError::Start(_)) => {
            figures.refused = figures.refused.saturating_add(1);
            Ok(())
        }
    }
}

/// Whether the scan of a slow slave is refused once its turn is over.
fn is_given_up(alloc: Global) -> Result<bool, AllocError> {
    let mut line = Line::new(Hostile::slow(alloc, POLLS)?, Restless);
    let is_refused = matches!(scan(alloc, &mut line), Err(ScanError::Start(_)));
    Ok(is_refused && line.number() >= SLAVE_FRAMES && line.number() <= 2 * SLAVE_FRAMES)
}

/// Makes the table of what slaves show.
fn try_table(alloc: Global, shown: &[Shown], figures: &mut Figures) -> Result<(), AllocError> {
    let mut found = Vec::new(alloc);
    for slave in shown {
        found.push(found_of(alloc, slave)?)?;
    }
    match printed(alloc, shown, found.as_slice()) {
        Ok(_) => {
            figures.tables = figures.tables.saturating_add(1);
            if has_unsaid(found.as_slice()) {
                figures.unsaid = figures.unsaid.saturating_add(1);
            }
        }
        Err(FoundError::Memory) => return Err(AllocError),
        Err(FoundError::Refused(error)) => {
            figures.planless = figures.planless.saturating_add(1);
            if is_of_writer(error) {
                figures.is_right = false;
            }
        }
        Err(FoundError::Otherwise(_)) => figures.is_right = false,
    }
    Ok(())
}

/// Whether the writer of a text is at fault: it isn't read as a table, or a slave assigns an entry twice.
fn is_of_writer(error: MachineError) -> bool {
    match error {
        MachineError::Table(_) => true,
        MachineError::Link(OrMemory::Refused(LinkFault::EntryTwice(_))) => true,
        MachineError::Link(_) => false,
    }
}

fn has_unsaid(found: &[Found]) -> bool {
    found.iter().any(|one| !one.unsaid.is_empty())
}

//! A scan from the first frame to the last.
ghost use Rattle.std.specs.Prelude.{◌≡◌, ◌≤◌, ◌<◌, length, All, IfOk};
ghost use Rattle.ec_scan.specs.Lines.{WasCounted};
ghost use Rattle.ec_scan.specs.Showing.{HasWholeSii};

use crate::coe::read_exchanged;
use crate::error::ScanError;
use crate::line::{Line, MAX_POLLS};
use crate::shown::Shown;
use crate::sii::{read_categories, read_identity, read_mailbox};
use byteorder::{ByteOrder, LittleEndian};
use ec_start::{Action, SiiAccess, StartError};
use ec_wire::{Pace, Wire};
use std::alloc::Global;

/// The most slaves of a table.
const MAX_SLAVES: u16 = 64;

/// How often an AL status must show the acknowledgement, and no code, to be a copy of AL control.
const COPIES: u16 = 50;

/// Scans the slaves of a segment, in the order in which a frame passes them. They are counted at its begin and at its end. Then, also if
/// it failed, all are asked for INIT.
///
/// # Errors
///
/// What a start-up fails with: `Count` if there are over 64 slaves, `Identity` of an SII that can't be read up to its end mark, `Counter`
/// (also if another number of slaves is there at the end), `AlError`, `Abort`, `BadMailbox`, `TooSlow` or `Lost`; or `Memory`.
pub fn scan<W: Wire + Drop, P: Pace + Drop>(
    alloc: Global,
    line: &mut Line<W, P>,
) -> Result<Vec<Shown>, ScanError>
    ensures few { IfOk result (λ found. length found.items ≤ 64) }
    ensures counted { IfOk result (λ found. WasCounted 1 line.new (length found.items)) }
    ensures whole { IfOk result (λ found. All HasWholeSii found.items) }
{
    let found = scan_all(alloc, line);
    // also if a slave took all the frames of its turn
    line.dismiss();
    found
}

/// Scans the slaves of a segment and leaves them where they are.
#[tactic(auto, using(crate::proofs::WalkLemmas::same_words))]
fn scan_all<W: Wire + Drop, P: Pace + Drop>(
    alloc: Global,
    line: &mut Line<W, P>,
) -> Result<Vec<Shown>, ScanError>
    ensures few { IfOk result (λ found. length found.items ≤ 64) }
    ensures counted { IfOk result (λ found. WasCounted 0 line.new (length found.items)) }
    ensures whole { IfOk result (λ found. All HasWholeSii found.items) }
{
    let count = line.ask(&Action::CountSlaves)?;
    if count > MAX_SLAVES {
        return Err(ScanError::Start(StartError::Count { seen: count }));
    }
    settle_all(line, count)?;
    let mut found = Vec::new(alloc);
    for slave in 0..usize::from(count) {
        found.push(read_slave(alloc, line, slave)?)?;
    }
    line.ask(&Action::AssignSii(SiiAccess::Device))?;
    for slave in 0..usize::from(count) {
        add_exchanged(alloc, line, slave, &mut found[slave])?;
    }
    line.begin_turn();
    line.ask_counted(&Action::CountSlaves, found.len() as u16)?;
    Ok(found)
}

/// Brings all slaves to INIT and names them.
fn settle_all<W: Wire + Drop, P: Pace + Drop>(
    line: &mut Line<W, P>,
    count: u16,
) -> Result<(), StartError>
    requires { count ≤ 64 }
{
    line.ask_counted(&Action::AskInit, count)?;
    await_init(line, count)?;
    // which of these registers a slave has is its own
    line.ask(&Action::ClearAllFmmus)?;
    line.ask(&Action::ClearAllManagers)?;
    line.ask(&Action::AssignSii(SiiAccess::Forced))?;
    line.ask(&Action::AssignSii(SiiAccess::Master))?;
    line.ask(&Action::ClearSiiError)?;
    line.ask_counted(&Action::ClearStations, count)?;
    for slave in 0..usize::from(count) {
        line.ask_counted(&Action::NameSlave { slave }, 1)?;
    }
    Ok(())
}

/// Waits until all slaves are in INIT.
fn await_init<W: Wire + Drop, P: Pace + Drop>(
    line: &mut Line<W, P>,
    count: u16,
) -> Result<(), StartError> {
    for _ in 0..MAX_POLLS {
        line.ask_counted(&Action::AwaitInitState, count)?;
        // without slaves nothing was written into the frame
        if count == 0 || line.answer()[0] % 16 == 1 {
            return Ok(());
        }
    }
    Err(line.too_slow())
}

/// Reads what a slave shows in INIT.
#[tactic(auto, using(crate::proofs::WalkLemmas::whole_words))]
fn read_slave<W: Wire + Drop, P: Pace + Drop>(
    alloc: Global,
    line: &mut Line<W, P>,
    slave: usize,
) -> Result<Shown, ScanError>
    requires { slave < 64 }
    ensures { IfOk result HasWholeSii }
{
    line.begin_turn();
    let has_firmware = has_firmware(line, slave)?;
    let identity = read_identity(line, slave)?;
    let mailbox = read_mailbox(line, slave)?;
    let categories = read_categories(alloc, line, slave)?;
    Ok(Shown {
        identity,
        mailbox,
        has_firmware,
        categories,
        outputs: None,
        inputs: None,
    })
}

/// Whether a slave has firmware, which takes the acknowledgement of an error and clears it. Without, the AL status is a copy of AL
/// control, and the acknowledgement stays in it.
fn has_firmware<W: Wire + Drop, P: Pace + Drop>(
    line: &mut Line<W, P>,
    slave: usize,
) -> Result<bool, StartError>
    requires { slave < 64 }
{
    let mut copies = 0;
    for _ in 0..MAX_POLLS {
        line.ask_counted(&Action::AwaitCleanInit { slave }, 1)?;
        let answer = line.answer();
        if answer[0] % 32 == 1 {
            return Ok(true);
        }
        if LittleEndian::read_u16(&answer[4..6]) == 0 {
            copies += 1;
        }
        if copies == COPIES {
            return Ok(false);
        }
    }
    Err(line.too_slow())
}

/// Adds the PDOs that a slave exchanges to what it shows, if it says so by CoE.
fn add_exchanged<W: Wire + Drop, P: Pace + Drop>(
    alloc: Global,
    line: &mut Line<W, P>,
    slave: usize,
    shown: &mut Shown,
) -> Result<(), ScanError>
    requires { slave < 64 }
    ensures { shown.new.categories ≡ shown.old.categories }
{
    let Some(mailbox) = shown.mailbox.usable() else {
        return Ok(());
    };
    line.begin_turn();
    let exchanged = read_exchanged(alloc, line, slave, mailbox)?;
    shown.outputs = exchanged.outputs;
    shown.inputs = exchanged.inputs;
    Ok(())
}

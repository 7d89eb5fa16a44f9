//! Reports on cycles, and how start-ups ended, as text.
ghost use Rattle.std.specs.Prelude.{◌≡◌, ◌++◌, OnOk, None, false, string_bytes};
ghost use Rattle.ec_text.specs.PlanText.{lines_from};
ghost use Rattle.ec_text.specs.ReportText.{counter_at, kept_text, outcome_text, report_text, taken_text, unit_at, units_text};

use crate::digits::{write_counter, write_word};
use ec_cycle::Report;
use ec_link::{ExpectedCounters, PartPlan};
use ec_start::StartError;
use ec_table::Version;
use std::alloc::{AllocError, Global};
use std::fmt::Write as _;

/// Adds the line of a report on a cycle of a plan with these parts, by the version of its table.
///
/// # Errors
///
/// `AllocError` if memory ran out.
#[tactic(auto, using(crate::proofs::Lines::added), unfolding(crate::specs::ReportText::report_text))]
pub fn write_report(
    alloc: Global,
    text: &mut String,
    version: Version,
    parts: &[PartPlan],
    report: &Report,
) -> Result<(), AllocError>
    ensures { OnOk result (string_bytes text.new
        ≡ string_bytes text.old ++ report_text version parts.now report.now) }
{
    let missing = report.missing();
    text.push_str("report")?;
    write_units(text, version, report)?;
    write!(text, " missing {missing} counters")?;
    write_counters(text, parts, report.counters().as_slice())?;
    text.push_str(" al ")?;
    write_word(alloc, text, report.al_word())?;
    text.push_str("\n")
}

/// Adds the line of how a start-up ended, if it has: `ready`, or `failed` and the number of its refusal.
///
/// # Errors
///
/// `AllocError` if memory ran out.
pub fn write_outcome(
    text: &mut String,
    outcome: Option<Result<(), StartError>>,
) -> Result<(), AllocError>
    ensures { OnOk result (string_bytes text.new ≡ string_bytes text.old ++ outcome_text outcome) }
{
    match outcome {
        None => Ok(()),
        Some(Ok(())) => text.push_str("ready\n"),
        Some(Err(error)) => {
            let number = error.number();
            writeln!(text, "failed {number}")
        }
    }
}

/// Adds the working counters of the parts.
#[tactic(auto, using(crate::proofs::Lines::line_steps))]
fn write_counters(
    text: &mut String,
    parts: &[PartPlan],
    counters: &[Option<ExpectedCounters>],
) -> Result<(), AllocError>
    ensures { OnOk result (string_bytes text.new
        ≡ string_bytes text.old ++ lines_from (counter_at counters.now) 0 parts.now) }
{
    for (index, part) in parts.iter().enumerate() {
        write_part(text, counters, index, part)?;
    }
    Ok(())
}

/// Adds a blank and the working counters of a part.
fn write_part(
    text: &mut String,
    counters: &[Option<ExpectedCounters>],
    index: usize,
    part: &PartPlan,
) -> Result<(), AllocError>
    ensures { OnOk result
        (string_bytes text.new ≡ string_bytes text.old ++ counter_at counters.now index part.now) }
{
    text.push_str(" ")?;
    write_kept(text, part, counters.get(index).copied().unwrap_or(None))
}

/// Adds the working counters of a part, or `-` if it wasn't kept.
fn write_kept(
    text: &mut String,
    part: &PartPlan,
    counters: Option<ExpectedCounters>,
) -> Result<(), AllocError>
    ensures { OnOk result
        (string_bytes text.new ≡ string_bytes text.old ++ kept_text part.now counters) }
{
    match counters {
        None => text.push_str("-"),
        Some(counters) => write_counter(text, part, counters),
    }
}

/// Adds whether inputs were taken, unit by unit if the table's version has units.
fn write_units(text: &mut String, version: Version, report: &Report) -> Result<(), AllocError>
    ensures { OnOk result
        (string_bytes text.new ≡ string_bytes text.old ++ units_text version report.now) }
{
    match version {
        Version::One => write_taken(text, report.is_taken()),
        Version::Two => write_unit_list(text, report.units(), report.units_taken()),
    }
}

/// Adds the units.
#[tactic(auto, using(crate::proofs::Lines::line_steps))]
fn write_unit_list(text: &mut String, units: &[u8], taken: &[bool]) -> Result<(), AllocError>
    ensures { OnOk result
        (string_bytes text.new ≡ string_bytes text.old ++ lines_from (unit_at taken.now) 0 units.now) }
{
    for (index, unit) in units.iter().enumerate() {
        write_unit(text, taken, index, *unit)?;
    }
    Ok(())
}

/// Adds a unit, and whether its inputs were taken.
fn write_unit(text: &mut String, taken: &[bool], index: usize, unit: u8) -> Result<(), AllocError>
    ensures { OnOk result
        (string_bytes text.new ≡ string_bytes text.old ++ unit_at taken.now index unit) }
{
    write!(text, " {unit}")?;
    write_taken(text, taken.get(index).copied().unwrap_or(false))
}

/// Adds whether inputs were taken.
fn write_taken(text: &mut String, taken: bool) -> Result<(), AllocError>
    ensures { OnOk result (string_bytes text.new ≡ string_bytes text.old ++ taken_text taken) }
{
    if taken {
        text.push_str(" taken")
    } else {
        text.push_str(" untaken")
    }
}

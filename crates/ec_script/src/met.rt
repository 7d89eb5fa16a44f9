//! Whether what a line expects of a master holds.
ghost use Rattle.std.specs.Prelude.{◌≡◌, slice_get};
ghost use Rattle.ec_script.specs.Expecting.{all_units, is_failed, is_met, is_ready, is_tested, is_unit, of_report};

use crate::expectation::Expectation;
use crate::value_test::ValueTest;
use crate::view::MasterView;
use ec_cycle::{Master, Report};
use ec_start::StartError;
use ec_text::value_of;

/// Whether what a line expects holds, as far as a master alone shows it: a variable has its value in the process image. The state
/// of a slave is never met.
pub fn is_met(view: &MasterView<'_, '_>, expected: Expectation) -> bool
    ensures { result ≡ is_met expected view.now }
{
    match expected {
        Expectation::Is(variable, value) => value_of(view.master, variable) == value,
        Expectation::Holds(variable, test) => is_tested(view.master, variable, test),
        Expectation::Never(_) | Expectation::State(_, _, _) => false,
        Expectation::Units(taken) => are_units(view, taken),
        Expectation::Unit(number, taken) => has_unit(view, number, taken),
        Expectation::Ready => is_ready(view.outcome),
        Expectation::Failed(number) => is_failed(number, view.outcome),
    }
}

/// Whether the value of a variable in the process image meets a test; false if there is no such variable.
fn is_tested(master: &Master<'_>, variable: usize, test: ValueTest) -> bool
    ensures { result ≡ is_tested test master.now variable (slice_get master.now.plan.variables variable) }
{
    match master.plan().variables().get(variable) {
        Some(place) => test.holds(*place, value_of(master, variable)),
        None => false,
    }
}

/// Whether a start-up has failed, by the refusal with this number if one is given.
pub fn is_failed(number: Option<u64>, outcome: Option<Result<(), StartError>>) -> bool
    ensures { result ≡ is_failed number outcome }
{
    match (outcome, number) {
        (Some(Err(error)), Some(number)) => u64::from(error.number()) == number,
        (Some(Err(_)), None) => true,
        _ => false,
    }
}

/// Whether a start-up has ended Ready.
fn is_ready(outcome: Option<Result<(), StartError>>) -> bool
    ensures { result ≡ is_ready outcome }
{
    matches!(outcome, Some(Ok(())))
}

/// Whether the last report has this sync unit as `taken` says; false without a report.
fn has_unit(view: &MasterView<'_, '_>, number: u64, taken: bool) -> bool
    ensures { result ≡ of_report (is_unit number taken) view.now.report }
{
    match view.report {
        Some(report) => is_unit(number, taken, report),
        None => false,
    }
}

/// Whether the last report has every sync unit as `taken` says; false without a report.
fn are_units(view: &MasterView<'_, '_>, taken: bool) -> bool
    ensures { result ≡ of_report (all_units taken) view.now.report }
{
    match view.report {
        Some(report) => all_units(taken, report),
        None => false,
    }
}

/// Whether a report has the sync unit with this number as `taken` says: taken, or not.
fn is_unit(number: u64, taken: bool, report: &Report) -> bool
    ensures { result ≡ is_unit number taken report.now }
{
    report
        .units()
        .iter()
        .zip(report.units_taken())
        .any(|(unit, was)| u64::from(*unit) == number && *was == taken)
}

/// Whether a report has every sync unit as `taken` says: taken, or not.
fn all_units(taken: bool, report: &Report) -> bool
    ensures { result ≡ all_units taken report.now }
{
    report.units_taken().iter().all(|unit| *unit == taken)
}

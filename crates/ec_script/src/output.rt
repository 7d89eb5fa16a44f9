//! The output of a line, and what it prints.
ghost use Rattle.std.specs.Prelude.{◌≡◌, ◌++◌, IfOk, OnOk, Some, slice_get, string_bytes};
ghost use Rattle.ec_table.specs.Numbers.{number_at};
ghost use Rattle.ec_text.specs.ReportText.{report_if};
ghost use Rattle.ec_script.specs.Outputs.{answer_of, is_counted, is_done, is_unmet, output_if};
ghost use Rattle.ec_script.specs.Texts.{byte_text, output_text, value_text};

use crate::met::is_failed;
use crate::states::write_states;
use crate::view::MasterView;
use ec_asking::AlStatus;
use ec_start::StartError;
use ec_table::{Table, VariableRow, Version};
use ec_text::{write_inputs, write_outcome, write_report};
use std::alloc::{AllocError, Global};
use std::fmt::Write as _;

/// The output of a line that is done once: it decides what the line prints.
#[derive(Clone, Copy, Debug, PartialEq, Eq, Drop)]
pub enum LineOutput {
    /// Nothing.
    Nothing,
    /// What the line says can't be done, and it ended there.
    No,
    /// What was expected doesn't hold.
    Unmet,
    /// The byte that an application read.
    Byte,
    /// How the start-up ended.
    Ended,
    /// The last report.
    Report,
    /// The input variables.
    Values,
    /// The AL states of all slaves.
    States,
    /// A fault of the wire ended the cycle, and nothing of it was taken.
    Fault,
    /// A variable and its value.
    Value(usize, u64),
}

impl LineOutput {
    /// Whether all that the line asks for was done.
    pub fn is_done(self) -> bool
        ensures { result ≡ is_done self }
    {
        match self {
            LineOutput::No | LineOutput::Fault => false,
            LineOutput::Nothing
            | LineOutput::Unmet
            | LineOutput::Byte
            | LineOutput::Ended
            | LineOutput::Report
            | LineOutput::Values
            | LineOutput::States
            | LineOutput::Value(_, _) => true,
        }
    }

    /// Whether what was expected doesn't hold.
    pub fn is_unmet(self) -> bool
        ensures { result ≡ is_unmet self }
    {
        matches!(self, LineOutput::Unmet)
    }

    /// The output of an expectation, by whether it holds.
    pub fn of_expectation(holds: bool) -> LineOutput
        ensures { result ≡ output_if holds }
    {
        if holds {
            LineOutput::Nothing
        } else {
            LineOutput::Unmet
        }
    }

    /// The output of a step whose action has this one: if the line expects that it can't be done, whether it couldn't.
    pub fn answer(self, expects_no: bool) -> LineOutput
        ensures { result ≡ answer_of expects_no self }
    {
        if expects_no {
            LineOutput::of_expectation(matches!(self, LineOutput::No))
        } else {
            self
        }
    }

    /// Whether it counts as unmet. If lines are taken strictly, one that can't be done or has failed counts too; `outcome` is how the last
    /// start-up ended.
    pub fn is_counted(self, strict: bool, outcome: Option<Result<(), StartError>>) -> bool
        ensures { result ≡ is_counted strict outcome self }
    {
        match self {
            LineOutput::Unmet => true,
            LineOutput::No | LineOutput::Fault => strict,
            LineOutput::Ended => strict && is_failed(None, outcome),
            LineOutput::Nothing
            | LineOutput::Byte
            | LineOutput::Report
            | LineOutput::Values
            | LineOutput::States
            | LineOutput::Value(_, _) => false,
        }
    }
}

/// The text that line `number` prints for this output, by a master of the table. `states` is what the slaves say of their AL states,
/// none of one that doesn't answer; only the output `States` prints it.
///
/// # Errors
///
/// `AllocError` if memory ran out.
pub fn output_text(
    alloc: Global,
    table: &Table,
    number: usize,
    output: LineOutput,
    view: &MasterView<'_, '_>,
    states: &[Option<AlStatus>],
) -> Result<String, AllocError>
    ensures { IfOk result (λ text. string_bytes text ≡ output_text table.now number view.now states.now output) }
{
    let mut text = String::new(alloc);
    write_output(alloc, &mut text, table, number, output, view, states)?;
    Ok(text)
}

/// Adds what line `number` prints for an output.
fn write_output(
    alloc: Global,
    text: &mut String,
    table: &Table,
    number: usize,
    output: LineOutput,
    view: &MasterView<'_, '_>,
    states: &[Option<AlStatus>],
) -> Result<(), AllocError>
    ensures { OnOk result (string_bytes text.new ≡ string_bytes text.old ++ output_text table.now number view.now states.now output) }
{
    match output {
        LineOutput::Nothing => Ok(()),
        LineOutput::No => writeln!(text, "no {number}"),
        LineOutput::Unmet => writeln!(text, "unmet {number}"),
        LineOutput::Byte => write_byte(alloc, text, view.byte),
        LineOutput::Ended => write_outcome(text, view.outcome),
        LineOutput::Report => write_last(alloc, text, table.version(), view),
        LineOutput::Values => write_inputs(text, view.master, table),
        LineOutput::States => write_states(alloc, text, table.slaves(), states),
        LineOutput::Fault => text.push_str("fault 37 Wire\n"),
        LineOutput::Value(variable, value) => write_value(text, table, variable, value),
    }
}

/// Adds the line of a variable and its value, if there is such a variable.
fn write_value(
    text: &mut String,
    table: &Table,
    variable: usize,
    value: u64,
) -> Result<(), AllocError>
    ensures { OnOk result (string_bytes text.new
        ≡ string_bytes text.old ++ value_text (number_at table.now variable value) (slice_get table.now.variables variable)) }
{
    match table.variables().get(variable) {
        None => Ok(()),
        Some(row) => write_number(text, row, table.number(variable, value)),
    }
}

/// Adds the name of a variable and the number that its value is.
fn write_number(text: &mut String, row: &VariableRow, number: i128) -> Result<(), AllocError>
    ensures { OnOk result (string_bytes text.new ≡ string_bytes text.old ++ value_text number (Some row.now)) }
{
    let name = row.name.as_str();
    writeln!(text, "{name} {number}")
}

/// Adds the line of the byte that an application read, if one did.
fn write_byte(alloc: Global, text: &mut String, byte: Option<u8>) -> Result<(), AllocError>
    ensures { OnOk result (string_bytes text.new ≡ string_bytes text.old ++ byte_text byte) }
{
    match byte {
        None => Ok(()),
        Some(byte) => {
            let digits = hex::encode(alloc, &[byte])?;
            writeln!(text, "byte {digits}")
        }
    }
}

/// Adds the line of the last report, if there is one.
fn write_last(
    alloc: Global,
    text: &mut String,
    version: Version,
    view: &MasterView<'_, '_>,
) -> Result<(), AllocError>
    ensures { OnOk result (string_bytes text.new
        ≡ string_bytes text.old ++ report_if version view.now.master.plan.parts view.now.report) }
{
    match view.report {
        None => Ok(()),
        Some(report) => write_report(alloc, text, version, view.master.plan().parts(), report),
    }
}

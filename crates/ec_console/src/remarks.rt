//! Refusals for people: which line of a text is at fault, what is wrong there in names and numbers of the text, and what to do.
ghost use Rattle.std.specs.Prelude.{All, IfOk};
ghost use Rattle.ec_diagnostic.specs.Remarks.{StandsIn};
ghost use Rattle.ec_diagnostic.specs.Texts.{IsUnmarked};

use crate::Refusal;
use ec_diagnostic::{Diagnosis, FileNames, Remarks, without_mark};
use ec_explain_plan::explain_link_fault;
use ec_explain_script::{explain_bad_line, explain_unmet};
use ec_explain_start::{explain_cycle_error, explain_start_error, explain_wire_fault};
use ec_explain_table::explain_fault;
use ec_link::LinkError;
use ec_script::ScriptError;
use ec_table::{TableError, read_table};
use ec_wire::RunError;
use std::alloc::{AllocError, Global};

/// The remarks on a text for which a command was refused: which lines are at fault, what is wrong there, and what to do. The text is a
/// link table; for a bad line of a script it is all that was read, and the script begins at byte `script`. If the text isn't at fault,
/// there are no remarks.
///
/// # Errors
///
/// `AllocError` if there is no memory.
pub fn remarks_on<'a>(
    alloc: Global,
    text: &'a str,
    script: usize,
    refusal: &Refusal,
) -> Result<Remarks<'a>, AllocError>
    ensures text { IfOk result (λ remarks. IsUnmarked text.now remarks.text) }
    ensures lie { IfOk result (λ remarks. All (StandsIn remarks.text) remarks.remarks) }
{
    let rest = without_mark(text);
    let mut diagnosis = Diagnosis::new(alloc, rest)?;
    let skipped = text.len().saturating_sub(rest.len());
    explain(
        &mut diagnosis,
        rest,
        script.saturating_sub(skipped),
        refusal,
    );
    diagnosis.into_remarks(rest)
}

/// The remarks on a text and its refusal, as one text, which is printed behind the refusal's line. They name the files that the text was
/// read from. `AllocError` if there is no memory.
pub fn remarks_text(
    alloc: Global,
    text: &str,
    script: usize,
    names: FileNames<'_>,
    refusal: &Refusal,
) -> Result<String, AllocError> {
    let remarks = remarks_on(alloc, text, script, refusal)?;
    remarks.to_text(alloc, names)
}

/// Adds the remarks on a refusal, in a text whose script begins at byte `script`.
fn explain(diagnosis: &mut Diagnosis<'_>, text: &str, script: usize, refusal: &Refusal) {
    match *refusal {
        Refusal::Table(TableError::Refused(fault)) => explain_fault(diagnosis, text, fault),
        Refusal::Link(_) | Refusal::Start(_) => explain_by_table(diagnosis, text, refusal),
        Refusal::Run(RunError::Refused(error)) => explain_cycle_error(diagnosis, error),
        Refusal::Run(RunError::Wire) => explain_wire_fault(diagnosis),
        Refusal::Script(ScriptError::BadScript(line)) => explain_bad_line(
            diagnosis, text, script, line,
        ),
        Refusal::Unmet(count) => explain_unmet(diagnosis, count),
        _ => (),
    }
}

/// Adds the remarks on a refusal of the table that a text states.
fn explain_by_table(diagnosis: &mut Diagnosis<'_>, text: &str, refusal: &Refusal) {
    match (read_table(diagnosis.alloc, text), *refusal) {
        (Ok(table), Refusal::Link(LinkError::Refused(fault))) => {
            explain_link_fault(diagnosis, &table, fault);
        }
        (Ok(table), Refusal::Start(error)) => explain_start_error(diagnosis, &table, error),
        (Err(error), _) if error.number() == 1 => diagnosis.fall_short(),
        _ => (),
    }
}

//! `ecat plan`: a link table on the input, and its plan.
ghost use Rattle.std.specs.Prelude.{◌≡◌, IfErr, IfOk, option_map};
ghost use Rattle.std.specs.String.{string_bytes};
ghost use Rattle.ec_console.specs.Explaining.{IsLeft};
ghost use Rattle.ec_app.specs.Planning.{IsPlanAnswer, IsTextOfPlan, RunsPlan, form_of, prefix_or};
ghost use Rattle.ec_console.specs.Given.{IsTableRefusal, given_by};

use ec_console::{
    Explanation, FileNames, InputStream, OutputStream, Refusal, SlaveForm, Source, TextRead,
    print_text, read_machine, read_text,
};
use ec_link::Machine;
use ec_plan_table::explain_text;
use ec_text::{header_text, plan_text};
use std::alloc::Global;
use std::io::{Read, Write};

/// How the plan of a table is printed.
#[derive(Clone, Copy, Debug, PartialEq, Eq, Drop)]
pub enum PlanForm {
    /// In its fixed form, for programs.
    Fixed,
    /// As tables of bits, for people.
    Explained,
    /// Its variables as a header of C.
    Header,
}

impl PlanForm {
    /// The form that the flags ask for: with `header` a header, also if `explained`.
    pub fn of(header: bool, explained: bool) -> PlanForm
        ensures { result ≡ form_of header explained }
    {
        match (header, explained) {
            (true, _) => PlanForm::Header,
            (false, true) => PlanForm::Explained,
            (false, false) => PlanForm::Fixed,
        }
    }
}

/// What the names of a C header begin with: `ECAT_` if nothing else is given.
pub fn prefix_or(prefix: Option<&str>) -> &str
    ensures { result.now ≡ prefix_or (option_map (λ x. x.now) prefix.entry) }
{
    match prefix {
        Some(prefix) => prefix,
        None => "ECAT_",
    }
}

/// The plan of the table that the text states, in a form; the names of a header begin with `prefix`.
///
/// # Errors
///
/// What [`read_machine`] refuses, and `Refusal::Memory` if memory ran out.
pub fn show_plan(alloc: Global, form: PlanForm, prefix: &str, text: &str) -> Result<String, Refusal>
    ensures answer { IfOk result (λ answer. IsPlanAnswer form prefix.now text.now (string_bytes answer)) }
    ensures refused { IfErr result (IsTableRefusal text.now) }
{
    let machine = read_machine(alloc, SlaveForm::Plain, text)?;
    text_of(alloc, form, prefix, &machine)
}

/// Prints what [`show_plan`] returns for the whole text of the input, and explains its refusal in
/// `behind`, if that is wanted. If the input is a file, its name is given.
///
/// # Errors
///
/// `Refusal::Input` if the input couldn't be read, isn't text or is too long; those of [`show_plan`]; and `Refusal::Output`
/// if a write was refused.
pub fn print_plan<R: Read + Drop, W: Write + Drop>(
    alloc: Global,
    form: PlanForm,
    prefix: &str,
    file: Option<&str>,
    input: &mut InputStream<R>,
    output: &mut OutputStream<W>,
    behind: &mut Explanation,
) -> Result<(), Refusal>
    ensures runs { RunsPlan form prefix.now (given_by R.remaining input.old input.new) output.old
        output.new result }
    ensures explains { IsLeft behind.old behind.new }
{
    let text = read_text(alloc, input)?;
    match show_plan(alloc, form, prefix, text.as_str()) {
        Ok(answer) => print_text(answer.as_bytes(), output),
        Err(refusal) => {
            let read = TextRead {
                source: Source::Table,
                text: text.as_str(),
                names: FileNames::of(file),
            };
            behind.explain(alloc, read, &Err(refusal));
            Err(refusal)
        }
    }
}

/// The plan of a machine in a form.
#[tactic(auto, using(crate::proofs::PlanLemmas::shown_fixed, crate::proofs::PlanLemmas::shown_explained, crate::proofs::PlanLemmas::shown_header))]
fn text_of(
    alloc: Global,
    form: PlanForm,
    prefix: &str,
    machine: &Machine,
) -> Result<String, Refusal>
    ensures shown { IfOk result (λ answer. IsTextOfPlan form prefix.now machine.now (string_bytes answer)) }
    ensures memory { IfErr result (λ refusal. refusal ≡ Refusal.Memory) }
{
    let (table, plan) = (machine.table(), machine.plan());
    match form {
        PlanForm::Fixed => Ok(plan_text(alloc, table.version(), plan)?),
        PlanForm::Explained => Ok(explain_text(alloc, table, plan)?),
        PlanForm::Header => Ok(header_text(alloc, prefix, table, plan)?),
    }
}

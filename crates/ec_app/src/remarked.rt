//! `ecat decode` with remarks for people, by the standard's names and by a link table.
ghost use Rattle.std.specs.Prelude.{IfErr, IfOk, option_map};
ghost use Rattle.std.specs.Option.{ForSome};
ghost use Rattle.ec_link.specs.Usable.{IsUsable};
ghost use Rattle.ec_app.specs.Remarking.{IsFileRefusal, RunsDecodeWith, RunsRemarked, RunsWith};
ghost use Rattle.ec_app.specs.Scanned.{IsOfFile};
ghost use Rattle.ec_console.specs.Explaining.{IsLeft};
ghost use Rattle.ec_console.specs.Given.{given_by};

use crate::translate::print_decode;
use ec_annotate::{Links, Names, annotate_text};
use ec_console::{
    Explanation, FileNames, InputStream, OutputStream, Refusal, SlaveForm, Source, TextRead,
    print_text, read_file, read_machine, read_text,
};
use ec_link::Machine;
use std::alloc::Global;
use std::fs::Files;
use std::io::{Read, Write};

/// Prints what `print_decode` prints, with indented lines of remarks for people between. The remarks use the
/// standard's names if `names` says so. If the file of a link table is named, they also have the variables that
/// process data carry, and the predicted working counter. The file is read before the input, and `behind` explains a refusal of it, if
/// that is wanted.
///
/// # Errors
///
/// `Refusal::Input` if the file can't be read, or the refusal of the table in it: nothing is printed then. Else
/// those of `print_decode`.
pub fn print_remarked<H: AllocGlobal + Files, R: Read + Drop, W: Write + Drop>(
    rt: &H,
    table: Option<&str>,
    names: Names,
    input: &mut InputStream<R>,
    output: &mut OutputStream<W>,
    behind: &mut Explanation,
) -> Result<(), Refusal>
    ensures runs { RunsWith (option_map (λ x. x.now) table.entry) (given_by R.remaining input.old input.new) output.old
        output.new result }
    ensures explains { IsLeft behind.old behind.new }
{
    match table {
        Some(path) => {
            let machine = read_linked(rt, path, behind)?;
            print_linked(rt.alloc(), names, &machine, input, output)
        }
        None => print_text_remarked(rt.alloc(), names, None, input, output),
    }
}

/// `ecat decode`: prints the payloads that the lines of the input spell. If a table is named or the standard's names are
/// wanted, it prints as `print_remarked` does, else as `print_decode` does.
///
/// # Errors
///
/// Those of the function that it calls.
pub fn print_payloads<H: AllocGlobal + Files, R: Read + Drop, W: Write + Drop>(
    rt: &H,
    table: Option<&str>,
    names: Names,
    input: &mut InputStream<R>,
    output: &mut OutputStream<W>,
    behind: &mut Explanation,
) -> Result<(), Refusal>
    ensures runs { RunsDecodeWith (option_map (λ x. x.now) table.entry) names (given_by R.remaining input.old input.new)
        output.old output.new result }
    ensures explains { IsLeft behind.old behind.new }
{
    match (table, names) {
        (None, Names::Omitted) => print_decode(rt.alloc(), input, output),
        _ => print_remarked(rt, table, names, input, output, behind),
    }
}

/// The machine of the link table in a file.
pub(crate) fn read_linked<H: AllocGlobal + Files>(
    rt: &H,
    path: &str,
    behind: &mut Explanation,
) -> Result<Machine, Refusal>
    ensures read { IfOk result IsOfFile }
    ensures refused { IfErr result IsFileRefusal }
    ensures explains { IsLeft behind.old behind.new }
{
    let text = read_file(rt, path, behind)?;
    match read_machine(rt.alloc(), SlaveForm::Plain, text.as_str()) {
        Ok(machine) => Ok(machine),
        Err(refusal) => {
            let read = TextRead {
                source: Source::Table,
                text: text.as_str(),
                names: FileNames::of(Some(path)),
            };
            behind.explain(rt.alloc(), read, &Err(refusal));
            Err(refusal)
        }
    }
}

/// Prints the input's payloads with remarks by a machine's table and plan.
fn print_linked<R: Read + Drop, W: Write + Drop>(
    alloc: Global,
    names: Names,
    machine: &Machine,
    input: &mut InputStream<R>,
    output: &mut OutputStream<W>,
) -> Result<(), Refusal>
    ensures { RunsRemarked (given_by R.remaining input.old input.new) output.old output.new result }
{
    let links = Links {
        table: machine.table(),
        plan: machine.plan(),
    };
    print_text_remarked(alloc, names, Some(links), input, output)
}

/// Prints the input's payloads with remarks, by a link table if there is one.
fn print_text_remarked<R: Read + Drop, W: Write + Drop>(
    alloc: Global,
    names: Names,
    links: Option<Links<'_>>,
    input: &mut InputStream<R>,
    output: &mut OutputStream<W>,
) -> Result<(), Refusal>
    requires { ForSome links (λ links. IsUsable links.plan.now) }
    ensures { RunsRemarked (given_by R.remaining input.old input.new) output.old output.new result }
{
    let text = read_text(alloc, input)?;
    let remarked = annotate_text(alloc, text.as_str(), names, links)?;
    print_text(remarked.text.as_bytes(), output)?;
    if remarked.is_whole {
        Ok(())
    } else {
        Err(Refusal::BadHex)
    }
}

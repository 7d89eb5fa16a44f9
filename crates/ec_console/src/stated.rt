//! What the text of a command states: a machine, and the lines of its script.
ghost use Rattle.std.specs.Prelude.{◌≡◌, [], IfErr, IfOk, Ok, string_bytes};
ghost use Rattle.ec_lines.specs.Inputs.{bytes_left};
ghost use Rattle.ec_lines.specs.Taking.{TakesText};
ghost use Rattle.ec_script.specs.Scripts.{script_of};
ghost use Rattle.ec_console.specs.Given.{IsTableRefusal, given_by};
ghost use Rattle.ec_console.specs.Stating.{RefusesHalves, RefusesSource, RefusesStated, States, StatesIn, TakesSource};

use crate::input::read_text;
use crate::machine::read_machine;
use crate::{Refusal, SlaveForm};
use ec_lines::{InputStream, take_text};
use ec_link::Machine;
use ec_script::{Script, read_script, split_script};
use std::alloc::Global;
use std::io::Read;

/// What a command reads of its input before it runs.
#[derive(Clone, Copy, Debug, PartialEq, Eq, Drop)]
pub enum Source {
    /// All of it: a link table.
    Table,
    /// All of it: a link table, and behind a line `%%` a script.
    Script,
    /// A link table up to a line `%%`. The lines behind that stay in the input.
    Lines,
}

/// A machine, and the lines of its script. Without a script there are none.
#[derive(Drop)]
pub struct Stated {
    pub machine: Machine,
    pub lines: Script,
}

/// The text that a command reads of its input.
///
/// # Errors
///
/// `Refusal::Input` if a read is refused, or the text has over 2^20 bytes or is no UTF-8, and `Refusal::Memory`.
pub fn read_source<R: Read + Drop>(
    alloc: Global,
    source: Source,
    input: &mut InputStream<R>,
) -> Result<String, Refusal>
    ensures taken { IfOk result (λ text. TakesSource source (bytes_left R.remaining input.old) (string_bytes text) (bytes_left R.remaining input.new)) }
    ensures refused { IfErr result (RefusesSource source (given_by R.remaining input.old input.new)) }
{
    match source {
        Source::Table => read_text(alloc, input),
        Source::Script => read_text(alloc, input),
        Source::Lines => read_front(alloc, input),
    }
}

/// The text before a line `%%`.
fn read_front<R: Read + Drop>(alloc: Global, input: &mut InputStream<R>) -> Result<String, Refusal>
    ensures taken { IfOk result (λ text. TakesText (bytes_left R.remaining input.old) (bytes_left R.remaining input.new) (string_bytes text)) }
    ensures refused { IfErr result (RefusesSource Source.Lines (given_by R.remaining input.old input.new)) }
{
    let text = take_text(alloc, input)?;
    Ok(text)
}

/// What a text states that is such a source: a machine, whose slaves are shown in a form, and the lines of its script.
///
/// # Errors
///
/// The first fault of the table, of its plan or of the script, in this order, or `Refusal::Memory`.
pub fn read_stated(
    alloc: Global,
    source: Source,
    form: SlaveForm,
    text: &str,
) -> Result<Stated, Refusal>
    ensures states { IfOk result (λ stated. States source form text.now stated.machine stated.lines) }
    ensures refused { IfErr result (RefusesStated source form text.now) }
{
    match source {
        Source::Table => read_alone(alloc, form, text),
        Source::Script => {
            let (table, script) = split_script(text);
            read_both(alloc, form, table, script)
        }
        Source::Lines => read_alone(alloc, form, text),
    }
}

/// The machine of a text, without a script.
fn read_alone(alloc: Global, form: SlaveForm, text: &str) -> Result<Stated, Refusal>
    ensures states { IfOk result (λ stated. StatesIn form text.now stated.machine × (stated.lines ≡ [])) }
    ensures refused { IfErr result (IsTableRefusal text.now) }
{
    let machine = read_machine(alloc, form, text)?;
    let lines = Script::new(alloc);
    Ok(Stated { machine, lines })
}

/// The machine of a text, and the lines of a script for it.
fn read_both(alloc: Global, form: SlaveForm, table: &str, script: &str) -> Result<Stated, Refusal>
    ensures states { IfOk result (λ stated. StatesIn form table.now stated.machine × (script_of stated.machine script.now ≡ Ok stated.lines)) }
    ensures refused { IfErr result (RefusesHalves form table.now script.now) }
{
    let machine = read_machine(alloc, form, table)?;
    let lines = read_script(alloc, machine.table(), script)?;
    Ok(Stated { machine, lines })
}

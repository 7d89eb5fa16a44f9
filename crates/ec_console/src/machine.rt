//! The machine that a text states.
ghost use Rattle.std.specs.Prelude.{◌≡◌, IfErr, IfOk, None, OnOk};
ghost use Rattle.ec_link.specs.Faults.{compile_fault};
ghost use Rattle.ec_console.specs.Given.{IsLinkRefusal, IsTableRefusal};
ghost use Rattle.ec_console.specs.Stating.{StatesIn};

use crate::form::advertise_in;
use crate::{Refusal, SlaveForm};
use ec_link::Machine;
use ec_table::{Table, read_table};
use std::alloc::Global;

/// The machine that a text states, with its slaves in a form: the one way of all commands from a text to a table and its plan.
///
/// # Errors
///
/// The first fault of the text as a link table, else the first that keeps the table from having a plan.
pub fn read_machine(alloc: Global, form: SlaveForm, text: &str) -> Result<Machine, Refusal>
    ensures machine { IfOk result (StatesIn form text.now) }
    ensures refused { IfErr result (IsTableRefusal text.now) }
{
    let mut table = read_table(alloc, text)?;
    advertise_in(&mut table, form);
    machine_of(alloc, table)
}

/// The machine of a table.
fn machine_of(alloc: Global, table: Table) -> Result<Machine, Refusal>
    ensures machine { IfOk result (λ machine. machine ≡ table) }
    ensures accepted { OnOk result (compile_fault table ≡ None) }
    ensures refused { IfErr result (IsLinkRefusal table) }
{
    Ok(Machine::new(alloc, table)?)
}

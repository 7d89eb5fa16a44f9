//! Input variables as text.
ghost use Rattle.std.specs.Prelude.{◌≡◌, ◌++◌, IfOk, OnOk, string_bytes};
ghost use Rattle.ec_text.specs.InputText.{input_by, input_line, inputs_text, value_of_variable};
ghost use Rattle.ec_text.specs.PlanText.{lines_from};

use ec_cycle::Master;
use ec_table::{Direction, Table, VariableRow};
use std::alloc::{AllocError, Global};
use std::fmt::Write as _;

/// The value of a variable of a master; 0 if it has no such variable.
pub fn value_of(master: &Master<'_>, index: usize) -> u64
    ensures { result ≡ value_of_variable master.now index }
{
    if index < master.variables() {
        master.get(index)
    } else {
        0
    }
}

/// The lines of the input variables of a master.
///
/// # Errors
///
/// `AllocError` if memory ran out.
pub fn input_lines(alloc: Global, table: &Table, master: &Master<'_>) -> Result<String, AllocError>
    ensures { IfOk result (λ text. string_bytes text ≡ inputs_text (value_of_variable master.now) table.now) }
{
    let mut text = String::new(alloc);
    write_inputs(&mut text, master, table)?;
    Ok(text)
}

/// Adds the line of a variable and the number that its value is, if it is an input.
fn write_input(text: &mut String, row: &VariableRow, number: i128) -> Result<(), AllocError>
    ensures { OnOk result (string_bytes text.new
        ≡ string_bytes text.old ++ input_by row.now.direction number row.now.name) }
{
    match row.direction {
        Direction::Out => Ok(()),
        Direction::In => {
            let name = row.name.as_str();
            writeln!(text, "{name} {number}")
        }
    }
}

/// Adds the lines of the input variables of a master.
///
/// # Errors
///
/// `AllocError` if memory ran out.
pub fn write_inputs(text: &mut String, master: &Master<'_>, table: &Table) -> Result<(), AllocError>
    ensures { OnOk result (string_bytes text.new
        ≡ string_bytes text.old ++ lines_from (input_line table.now (value_of_variable master.now)) 0 table.now.variables) }
{
    for (index, row) in table.variables().iter().enumerate() {
        write_input(text, row, table.number(index, value_of(master, index)))?;
    }
    Ok(())
}

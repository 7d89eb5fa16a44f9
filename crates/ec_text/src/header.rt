//! The variables of a table as a C header.
ghost use Rattle.std.specs.Prelude.{◌≡◌, ◌++◌, IfOk, OnOk, string_bytes, codes, option_map};
ghost use Rattle.std.specs.Fmt.{decimal};
ghost use Rattle.ec_text.specs.HeaderText.{c_type, define_line, flag, form_lines, header_text, offset_of, sign, signed_type, size_lines, unsigned_type, variable_lines};
ghost use Rattle.ec_text.specs.PlanText.{lines_from};

use ec_link::{Plan, Variable};
use ec_table::{Direction, Table, VariableRow};
use std::alloc::{AllocError, Global};
use std::fmt::Write as _;

/// The variables of a table as a C header, for programs that use the library; `plan` is that of the table. For each variable, in file
/// order, it defines the number, the bits, 1 for an output or 0 for an input, the C type, 1 if it is signed or else 0, and the first bit
/// in the image of its direction. Their names are the variable's behind the prefix and a word. The prefix and `VARIABLES` is the name
/// of how many variables there are.
///
/// # Errors
///
/// `AllocError` if memory ran out.
#[tactic(auto, using(crate::proofs::Lines::header_added))]
pub fn header_text(
    alloc: Global,
    prefix: &str,
    table: &Table,
    plan: &Plan,
) -> Result<String, AllocError>
    ensures { IfOk result (λ text. string_bytes text ≡ header_text prefix.now table.now.variables plan.now.variables) }
{
    let count = table.variables().len();
    let mut text = String::new(alloc);
    write!(text, "#ifndef {prefix}VARIABLES\n#include <stdint.h>\n")?;
    write_variables(&mut text, prefix, table.variables(), plan.variables())?;
    writeln!(text, "#define {prefix}VARIABLES {count}")?;
    text.push_str("#endif\n")?;
    Ok(text)
}

/// Adds the lines of the variables.
#[tactic(auto, using(crate::proofs::Lines::line_steps))]
fn write_variables(
    text: &mut String,
    prefix: &str,
    variables: &[VariableRow],
    places: &[Variable],
) -> Result<(), AllocError>
    ensures { OnOk result (string_bytes text.new
        ≡ string_bytes text.old ++ lines_from (variable_lines prefix.now places.now) 0 variables.now) }
{
    for (number, row) in variables.iter().enumerate() {
        write_variable(text, prefix, places, number, row)?;
    }
    Ok(())
}

/// Adds the lines of a variable.
#[tactic(auto, using(crate::proofs::Lines::added))]
fn write_variable(
    text: &mut String,
    prefix: &str,
    places: &[Variable],
    number: usize,
    row: &VariableRow,
) -> Result<(), AllocError>
    ensures { OnOk result
        (string_bytes text.new ≡ string_bytes text.old ++ variable_lines prefix.now places.now number row.now) }
{
    write_size(text, prefix, number, row)?;
    write_form(text, prefix, offset_of(places.get(number)), row)
}

/// Adds the lines of a variable's number, its bits and its direction.
#[tactic(auto, using(crate::proofs::Lines::three_added), unfolding(crate::specs::HeaderText::size_lines))]
fn write_size(
    text: &mut String,
    prefix: &str,
    number: usize,
    row: &VariableRow,
) -> Result<(), AllocError>
    ensures { OnOk result (string_bytes text.new ≡ string_bytes text.old ++ size_lines prefix.now number row.now) }
{
    let name = row.name.as_str();
    write_number(text, prefix, "NUMBER", name, number)?;
    write_number(text, prefix, "BITS", name, usize::from(row.bits))?;
    write_number(text, prefix, "OUTPUT", name, flag(row.direction))
}

/// Adds the lines of a variable's type, its sign and its first bit.
#[tactic(auto, using(crate::proofs::Lines::three_added), unfolding(crate::specs::HeaderText::form_lines))]
fn write_form(
    text: &mut String,
    prefix: &str,
    offset: usize,
    row: &VariableRow,
) -> Result<(), AllocError>
    ensures { OnOk result (string_bytes text.new ≡ string_bytes text.old ++ form_lines prefix.now offset row.now) }
{
    let name = row.name.as_str();
    write_type(text, prefix, name, c_type(row.signed, row.bits))?;
    write_number(text, prefix, "SIGNED", name, sign(row.signed))?;
    write_number(text, prefix, "OFFSET", name, offset)
}

/// Adds the line that defines a name as a number.
#[tactic(auto, unfolding(crate::specs::HeaderText::define_line))]
fn write_number(
    text: &mut String,
    prefix: &str,
    what: &str,
    name: &str,
    value: usize,
) -> Result<(), AllocError>
    ensures { OnOk result
        (string_bytes text.new ≡ string_bytes text.old ++ define_line prefix.now what.now name.now (decimal value)) }
{
    writeln!(text, "#define {prefix}{what}_{name} {value}")
}

/// Adds the line that defines a name as the type of a variable.
#[tactic(auto, unfolding(crate::specs::HeaderText::define_line))]
fn write_type(text: &mut String, prefix: &str, name: &str, kind: &str) -> Result<(), AllocError>
    ensures { OnOk result
        (string_bytes text.new ≡ string_bytes text.old ++ define_line prefix.now (codes "TYPE") name.now kind.now) }
{
    writeln!(text, "#define {prefix}TYPE_{name} {kind}")
}

/// Returns 1 for an output of the image, 0 for an input.
fn flag(direction: Direction) -> usize
    ensures { result ≡ flag direction }
{
    match direction {
        Direction::Out => 1,
        Direction::In => 0,
    }
}

/// Returns 1 for a signed variable, 0 for any other.
fn sign(signed: bool) -> usize
    ensures { result ≡ sign signed }
{
    if signed { 1 } else { 0 }
}

/// The C type that holds a value of so many bits, with a sign or without.
fn c_type(signed: bool, bits: u8) -> &'static str
    ensures { result.now ≡ c_type signed bits }
{
    if signed {
        signed_type(bits)
    } else {
        unsigned_type(bits)
    }
}

/// The C type that holds a signed value of so many bits.
fn signed_type(bits: u8) -> &'static str
    ensures { result.now ≡ signed_type bits }
{
    if bits <= 8 {
        "int8_t"
    } else if bits <= 16 {
        "int16_t"
    } else if bits <= 32 {
        "int32_t"
    } else {
        "int64_t"
    }
}

/// The C type that holds an unsigned value of so many bits.
fn unsigned_type(bits: u8) -> &'static str
    ensures { result.now ≡ unsigned_type bits }
{
    if bits <= 8 {
        "uint8_t"
    } else if bits <= 16 {
        "uint16_t"
    } else if bits <= 32 {
        "uint32_t"
    } else {
        "uint64_t"
    }
}

/// The first bit of a variable in the image of its direction; 0 if there is no such variable.
fn offset_of(place: Option<&Variable>) -> usize
    ensures { result ≡ offset_of (option_map (λ x. x.now) place.entry) }
{
    match place {
        Some(place) => place.from,
        None => 0,
    }
}

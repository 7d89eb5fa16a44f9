//! Reads the slaves that elements state.
ghost use Rattle.std.specs.Prelude.{◌≡◌, ◌||◌, [], false, Err, IfErr, IfOk, None, Ok, OnOk, get_or, unwrap_or};
ghost use Rattle.toml.specs.Data.{Members};
ghost use Rattle.toml.specs.View.{view, table_view, items_view};
ghost use Rattle.ec_table.specs.Fields.{full_format, viewed};
ghost use Rattle.ec_table.specs.Keys.{names_of};
ghost use Rattle.ec_table.specs.Pdos.{has_twice, indices_of};
ghost use Rattle.ec_table.specs.InOrder.{Gives, rows_after};
ghost use Rattle.ec_table.specs.Names.{is_named};
ghost use Rattle.ec_table.specs.Values.{AreUnder};
ghost use Rattle.ec_table.specs.declared.keys.Shape.TheVariants as shape;
ghost use Rattle.ec_table.specs.declared.rows.SlaveRow.{SlaveRow};
ghost use Rattle.ec_table.specs.Reading.{all_in, assigned_in, same_list, slave_at, slave_element, slave_named, slave_of_type, suits, written_in};

use crate::fault::{Fault, Position, Section, TableError};
use crate::fields::{name_in, numbers_in};
use crate::keys::Shape;
use crate::named::{Named, NamedRows};
use crate::parameters::{are_taken, parameters_in};
use crate::pdos::{has_twice, indices_of, is_index};
use crate::rows::{Format, Name, ProcessData, SlaveRow, TypeRow};
use crate::values::{Values, values_of};
use ec_device::{Parameter, Pdo};
use ec_listed::Listed;
use std::alloc::{AllocError, Global};
use toml::Value;

impl Named for SlaveRow {
    ghost name = { λ s. s.name };

    fn own_name(&self) -> &Name {
        &self.name
    }
}

/// What a slave's element states beside names.
#[derive(Drop)]
pub struct Written {
    pub outputs: Option<Listed<u16>>,
    pub inputs: Option<Listed<u16>>,
    pub serial: u32,
    pub unit: u8,
    pub init: Listed<Parameter>,
}

/// The slaves of the section, in order.
#[tactic(auto, using(crate::proofs::SectionRows::rows_all))]
pub fn slaves_of(
    alloc: Global,
    format: Format,
    types: &NamedRows<TypeRow>,
    elements: &[Value],
) -> Result<NamedRows<SlaveRow>, TableError>
    ensures { Gives result (rows_after (slave_element format types.now) [] 0 (items_view elements.now)) }
{
    let mut found = NamedRows::new(alloc);
    for (element, value) in elements.iter().enumerate() {
        let row = slave_element(alloc, format, types, element, value, &found)?;
        found = found.with(row)?;
    }
    Ok(found)
}

/// The slave that an element of the section states. No slave in `found` has its name.
fn slave_element(
    alloc: Global,
    format: Format,
    types: &NamedRows<TypeRow>,
    element: usize,
    value: &Value,
    found: &NamedRows<SlaveRow>,
) -> Result<SlaveRow, TableError>
    ensures value { Gives result (slave_element format types.now element (view value.now) found.now) }
    ensures fresh { IfOk result (λ s. is_named (λ (s : SlaveRow). s.name) s.name found.now ≡ false) }
{
    let position = Position {
        section: Section::Slave,
        element,
    };
    match value.as_table() {
        Some(members) => slave_at(alloc, format, types, position, members, found),
        None => Err(TableError::Refused(Fault::BadValue(position))),
    }
}

/// The slave that the members of an element state, or their first fault.
#[tactic(auto, unfolding(crate::specs::Reading::slave_at))]
fn slave_at(
    alloc: Global,
    format: Format,
    types: &NamedRows<TypeRow>,
    position: Position,
    members: &toml::Table,
    found: &NamedRows<SlaveRow>,
) -> Result<SlaveRow, TableError>
    ensures value { Gives result (slave_at format types.now position (table_view members.now) found.now) }
    ensures fresh { IfOk result (λ s. is_named (λ (s : SlaveRow). s.name) s.name found.now ≡ false) }
{
    let Some(values) = values_of(Shape::Slave, format, members) else {
        return Err(TableError::Refused(Fault::BadKey(position)));
    };
    let name = name_in(position, values.at(0))?;
    let is_taken = found.has(&name);
    slave_named(alloc, types, position, &values, name, is_taken)
}

/// The slave of this name that the values under its keys state, or their first fault. `is_taken` is whether another slave has the
/// name.
#[tactic(auto, unfolding(crate::specs::Reading::slave_named))]
fn slave_named(
    alloc: Global,
    types: &NamedRows<TypeRow>,
    position: Position,
    values: &Values<'_>,
    name: Name,
    is_taken: bool,
) -> Result<SlaveRow, TableError>
    requires { values.now.shape ≡ shape.Slave }
    ensures value { (ms : Members) → AreUnder values.now.found 0 (names_of shape.Slave full_format) ms
        → Gives result (slave_named types.now position ms name is_taken) }
    ensures fresh { IfOk result (λ s. (s.name ≡ name) × (is_taken ≡ false)) }
{
    let type_name = name_in(position, values.at(1))?;
    let written = written_in(alloc, position, values)?;
    if is_twice(is_taken, &written.outputs, &written.inputs) {
        return Err(TableError::Refused(Fault::TwiceNamed(position)));
    }
    slave_of_type(alloc, types, position, name, &type_name, written)
}

/// What a slave's element states beside names.
#[tactic(auto, unfolding(crate::specs::Reading::written_in))]
fn written_in(alloc: Global, position: Position, values: &Values<'_>) -> Result<Written, TableError>
    requires { values.now.shape ≡ shape.Slave }
    ensures { let found = values.now.found in
        Gives result (written_in position (viewed (get_or found 2 None)) (viewed (get_or found 3 None)) (viewed (get_or found 4 None)) (viewed (get_or found 5 None)) (viewed (get_or found 6 None))) }
{
    let (first, last) = values.indices(2);
    let outputs = numbers_in(alloc, position, values.at(2), first, last)?;
    let (first, last) = values.indices(3);
    let inputs = numbers_in(alloc, position, values.at(3), first, last)?;
    let serial = values.number_or_0(position, 4)?;
    let unit = values.number_or_0(position, 5)?;
    let init = parameters_in(alloc, position, values.at(6))?;
    Ok(Written {
        outputs,
        inputs,
        serial,
        unit: unit as u8,
        init,
    })
}

/// The slave of this name and type, with what its element states.
#[tactic(auto, unfolding(crate::specs::Reading::slave_of_type))]
fn slave_of_type(
    alloc: Global,
    types: &NamedRows<TypeRow>,
    position: Position,
    name: Name,
    type_name: &Name,
    written: Written,
) -> Result<SlaveRow, TableError>
    ensures value { Gives result (slave_of_type types.now position name type_name.now written) }
    ensures name { IfOk result (λ s. s.name ≡ name) }
{
    let Some((at, slave_type)) = types.find(type_name, 0) else {
        return Err(TableError::Refused(Fault::UnknownName(position)));
    };
    let row = row_of(alloc, name, at, &slave_type.process, written)?;
    test_assigned(position, slave_type, &row)?;
    Ok(row)
}

/// A slave's row. If its element states no objects, it has all objects of its type.
fn row_of(
    alloc: Global,
    name: Name,
    type_index: usize,
    process: &ProcessData,
    written: Written,
) -> Result<SlaveRow, AllocError>
    ensures { IfOk result (λ s. s ≡ record {
      name = name;
      type_index = type_index;
      outputs = unwrap_or written.outputs (indices_of process.now.outputs);
      inputs = unwrap_or written.inputs (indices_of process.now.inputs);
      serial = written.serial;
      unit = written.unit;
      init = written.init;
    }) }
{
    Ok(SlaveRow {
        name,
        type_index,
        outputs: written_or_all(alloc, written.outputs, process.outputs.as_slice())?,
        inputs: written_or_all(alloc, written.inputs, process.inputs.as_slice())?,
        serial: written.serial,
        unit: written.unit,
        init: written.init,
    })
}

/// Tests whether the objects that a slave assigns are its type's, and whether the slave suits its type.
#[tactic(auto, unfolding(crate::specs::Reading::assigned_in))]
fn test_assigned(position: Position, slave_type: &TypeRow, row: &SlaveRow) -> Result<(), Fault>
    ensures passes { OnOk result (assigned_in position slave_type.now row.now ≡ Ok row.now) }
    ensures fails { IfErr result (λ f. assigned_in position slave_type.now row.now ≡ Err f) }
{
    let (outputs, inputs) = (row.outputs.as_slice(), row.inputs.as_slice());
    let (all_outputs, all_inputs) = (
        slave_type.process.outputs.as_slice(),
        slave_type.process.inputs.as_slice(),
    );
    if !are_among(outputs, all_outputs) || !are_among(inputs, all_inputs) {
        return Err(Fault::UnknownName(position));
    }
    if !suits(slave_type, row) {
        return Err(Fault::BadValue(position));
    }
    Ok(())
}

/// Whether a slave that doesn't let itself be assigned has all objects of its type in order, and one without a mailbox gets no
/// downloads.
fn suits(slave_type: &TypeRow, row: &SlaveRow) -> bool
    ensures { result ≡ suits slave_type.now row.now }
{
    let process = &slave_type.process;
    let has_all = are_indices(row.outputs.as_slice(), process.outputs.as_slice())
        && are_indices(row.inputs.as_slice(), process.inputs.as_slice());
    (slave_type.is_assignable() || has_all) && are_taken(&slave_type.mailbox, row.init.as_slice())
}

/// The objects that the element states, else all of the type's in order.
fn written_or_all(
    alloc: Global,
    written: Option<Listed<u16>>,
    pdos: &[Pdo],
) -> Result<Listed<u16>, AllocError>
    ensures { IfOk result (λ v. v ≡ unwrap_or written (indices_of pdos.now)) }
{
    match written {
        Some(numbers) => Ok(numbers),
        None => indices_of(alloc, pdos),
    }
}

/// Whether the name is taken, or some object is assigned twice.
fn is_twice(is_taken: bool, outputs: &Option<Listed<u16>>, inputs: &Option<Listed<u16>>) -> bool
    ensures { result
        ≡ (is_taken || (has_twice (unwrap_or outputs.now []) || has_twice (unwrap_or inputs.now []))) }
{
    is_taken || (twice_in(outputs) || twice_in(inputs))
}

/// Whether some number stands twice in a list, if there is one.
fn twice_in(numbers: &Option<Listed<u16>>) -> bool
    ensures { result ≡ has_twice (unwrap_or numbers.now []) }
{
    match numbers {
        None => false,
        Some(numbers) => has_twice(numbers.as_slice()),
    }
}

/// Whether each number is the index of one of the objects.
fn are_among(numbers: &[u16], pdos: &[Pdo]) -> bool
    ensures { result ≡ all_in numbers.now (indices_of pdos.now) }
{
    numbers.iter().all(|number| is_index(*number, pdos))
}

/// Whether numbers are the indices of the objects, in order.
fn are_indices(numbers: &[u16], pdos: &[Pdo]) -> bool
    ensures { result ≡ same_list numbers.now (indices_of pdos.now) }
{
    match (numbers, pdos) {
        ([], []) => true,
        ([number, rest @ ..], [pdo, more @ ..]) => {
            *number == pdo.index && are_indices(rest, more)
        }
        _ => false,
    }
}

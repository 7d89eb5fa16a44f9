//! Reads the types of slaves that elements state.
ghost use Rattle.std.specs.Prelude.{◌≡◌, ◌||◌, [], false, IfOk, None, get_or};
ghost use Rattle.toml.specs.View.{view, table_view, items_view};
ghost use Rattle.ec_table.specs.Fields.{mailbox_of, mailbox_in, viewed};
ghost use Rattle.ec_table.specs.InOrder.{Gives, rows_after};
ghost use Rattle.ec_table.specs.Names.{is_named};
ghost use Rattle.ec_table.specs.declared.keys.Shape.TheVariants as shape;
ghost use Rattle.ec_table.specs.declared.rows.TypeRow.{TypeRow};
ghost use Rattle.ec_table.specs.Reading.{device_in, process_in, process_twice, type_at, type_element};

use crate::described::{hardware_in, is_possible};
use crate::fault::{Fault, Position, Section, TableError};
use crate::fields::{item_in, name_in, truth_in};
use crate::keys::{MAILBOX, Shape};
use crate::named::{Named, NamedRows};
use crate::parameters::parameters_in;
use crate::pdos::{have_twice, pdos_in};
use crate::rows::{Format, Name, ProcessData, TypeRow};
use crate::values::{Values, values_of};
use ec_device::{Device, Mailbox};
use std::alloc::Global;
use toml::Value;

impl Named for TypeRow {
    ghost name = { λ t. t.name };

    fn own_name(&self) -> &Name {
        &self.name
    }
}

/// The types of the section, in order.
#[tactic(auto, using(crate::proofs::SectionRows::rows_all))]
pub fn types_of(
    alloc: Global,
    format: Format,
    elements: &[Value],
) -> Result<NamedRows<TypeRow>, TableError>
    ensures { Gives result (rows_after (type_element format) [] 0 (items_view elements.now)) }
{
    let mut found = NamedRows::new(alloc);
    for (element, value) in elements.iter().enumerate() {
        let row = type_element(alloc, format, element, value, &found)?;
        found = found.with(row)?;
    }
    Ok(found)
}

/// The type that an element of the section states. No type in `found` has its name.
fn type_element(
    alloc: Global,
    format: Format,
    element: usize,
    value: &Value,
    found: &NamedRows<TypeRow>,
) -> Result<TypeRow, TableError>
    ensures value { Gives result (type_element format element (view value.now) found.now) }
    ensures fresh { IfOk result (λ t. is_named (λ (t : TypeRow). t.name) t.name found.now ≡ false) }
{
    let position = Position {
        section: Section::Type,
        element,
    };
    match value.as_table() {
        Some(members) => type_at(alloc, format, position, members, found),
        None => Err(TableError::Refused(Fault::BadValue(position))),
    }
}

/// The type that the members of an element state, or their first fault.
#[tactic(auto, unfolding(crate::specs::Reading::type_at, crate::specs::Reading::type_named))]
fn type_at(
    alloc: Global,
    format: Format,
    position: Position,
    members: &toml::Table,
    found: &NamedRows<TypeRow>,
) -> Result<TypeRow, TableError>
    ensures value { Gives result (type_at format position (table_view members.now) found.now) }
    ensures fresh { IfOk result (λ t. is_named (λ (t : TypeRow). t.name) t.name found.now ≡ false) }
{
    let Some(values) = values_of(Shape::Type, format, members) else {
        return Err(TableError::Refused(Fault::BadKey(position)));
    };
    let name = name_in(position, values.at(0))?;
    let device = device_in(position, &values)?;
    let mailbox = mailbox_in(position, values.at(4))?;
    let process = process_in(alloc, position, &values)?;
    let lrw = truth_in(position, true, values.at(9))?;
    let hardware = hardware_in(format, position, &process, &values)?;
    let init = parameters_in(alloc, position, values.at(14))?;
    if found.has(&name) || is_twice(&process) {
        return Err(TableError::Refused(Fault::TwiceNamed(position)));
    }
    if !is_possible(&mailbox, &hardware, init.as_slice()) {
        return Err(TableError::Refused(Fault::BadValue(position)));
    }
    Ok(TypeRow {
        name,
        device,
        mailbox,
        process,
        lrw,
        hardware,
        init,
    })
}

/// Whether some object stands twice in its direction.
fn is_twice(process: &ProcessData) -> bool
    ensures { result ≡ process_twice process.now }
{
    have_twice(process.outputs.as_slice()) || have_twice(process.inputs.as_slice())
}

/// The addresses where the process data begin, and their objects.
#[tactic(auto, unfolding(crate::specs::Reading::process_in))]
fn process_in(
    alloc: Global,
    position: Position,
    values: &Values<'_>,
) -> Result<ProcessData, TableError>
    requires { values.now.shape ≡ shape.Type }
    ensures { let found = values.now.found in
        Gives result (process_in position (viewed (get_or found 5 None)) (viewed (get_or found 6 None)) (viewed (get_or found 7 None)) (viewed (get_or found 8 None))) }
{
    let out_start = values.number_or_0(position, 5)?;
    let in_start = values.number_or_0(position, 6)?;
    let (first, last) = values.indices(7);
    let outputs = pdos_in(alloc, position, values.at(7), first, last)?;
    let (first, last) = values.indices(8);
    let inputs = pdos_in(alloc, position, values.at(8), first, last)?;
    Ok(ProcessData {
        out_start: out_start as u16,
        in_start: in_start as u16,
        outputs,
        inputs,
    })
}

/// Vendor, product and revision, which is 0 if it is left out.
#[tactic(auto, unfolding(crate::specs::Reading::device_in))]
fn device_in(position: Position, values: &Values<'_>) -> Result<Device, Fault>
    requires { values.now.shape ≡ shape.Type }
    ensures { let found = values.now.found in
        result ≡ device_in position (viewed (get_or found 1 None)) (viewed (get_or found 2 None)) (viewed (get_or found 3 None)) }
{
    Ok(Device {
        vendor: values.number(position, 1)?,
        product: values.number(position, 2)?,
        revision: values.number_or_0(position, 3)?,
    })
}

/// A mailbox, if there is one.
#[tactic(auto, unfolding(crate::specs::Fields::mailbox_in))]
fn mailbox_in(position: Position, value: Option<&Value>) -> Result<Option<Mailbox>, Fault>
    ensures { result ≡ mailbox_in position (viewed value.entry) }
{
    match value {
        None => Ok(None),
        Some(value) => Ok(Some(mailbox_of(position, value)?)),
    }
}

#[tactic(auto, unfolding(crate::specs::Fields::mailbox_of))]
fn mailbox_of(position: Position, value: &Value) -> Result<Mailbox, Fault>
    ensures { result ≡ mailbox_of position (view value.now) }
{
    let receive_start = item_in(position, value, &MAILBOX, 0)?;
    let receive_size = item_in(position, value, &MAILBOX, 1)?;
    let send_start = item_in(position, value, &MAILBOX, 2)?;
    let send_size = item_in(position, value, &MAILBOX, 3)?;
    if value.get(4).is_some() {
        return Err(Fault::BadValue(position));
    }
    Ok(Mailbox {
        receive_start: receive_start as u16,
        receive_size: receive_size as u16,
        send_start: send_start as u16,
        send_size: send_size as u16,
    })
}

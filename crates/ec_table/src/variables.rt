//! Reads the variables that elements state.
ghost use Rattle.std.specs.Prelude.{◌≡◌, [], false, IfOk};
ghost use Rattle.toml.specs.View.{view, table_view, items_view};
ghost use Rattle.ec_table.specs.Fields.{direction_in, viewed};
ghost use Rattle.ec_table.specs.Names.{is_named};
ghost use Rattle.ec_table.specs.declared.rows.VariableRow.{VariableRow};
ghost use Rattle.ec_table.specs.InOrder.{Gives, rows_after};
ghost use Rattle.ec_table.specs.Reading.{variable_at, variable_element};

use crate::fault::{Fault, Position, Section, TableError};
use crate::fields::{name_in, truth_in};
use crate::keys::Shape;
use crate::named::{Named, NamedRows};
use crate::rows::{Direction, Format, Name, VariableRow};
use crate::values::values_of;
use std::alloc::Global;
use toml::Value;

impl Named for VariableRow {
    ghost name = { λ w. w.name };

    fn own_name(&self) -> &Name {
        &self.name
    }
}

/// The variables of the section, in order. It frees each element as soon as it is read, while it is in the cache.
#[tactic(auto, using(crate::proofs::SectionRows::rows_left))]
pub fn variables_of(
    alloc: Global,
    format: Format,
    elements: Vec<Value>,
) -> Result<NamedRows<VariableRow>, TableError>
    ensures { Gives result (rows_after (variable_element format) [] 0 (items_view elements.items)) }
{
    let mut found = NamedRows::new(alloc);
    for value in elements {
        let row = variable_element(format, found.len(), &value, &found)?;
        found = found.with(row)?;
    }
    Ok(found)
}

/// The variable that an element of the section states. No variable in `found` has its name.
fn variable_element(
    format: Format,
    element: usize,
    value: &Value,
    found: &NamedRows<VariableRow>,
) -> Result<VariableRow, Fault>
    ensures value { result ≡ variable_element format element (view value.now) found.now }
    ensures fresh { IfOk result (λ w. is_named (λ (w : VariableRow). w.name) w.name found.now ≡ false) }
{
    let position = Position {
        section: Section::Variable,
        element,
    };
    match value.as_table() {
        Some(members) => variable_at(format, position, members, found),
        None => Err(Fault::BadValue(position)),
    }
}

/// The variable that the members of an element state, or their first fault.
#[tactic(auto, unfolding(crate::specs::Reading::variable_at))]
fn variable_at(
    format: Format,
    position: Position,
    members: &toml::Table,
    found: &NamedRows<VariableRow>,
) -> Result<VariableRow, Fault>
    ensures value { result ≡ variable_at format position (table_view members.now) found.now }
    ensures fresh { IfOk result (λ w. is_named (λ (w : VariableRow). w.name) w.name found.now ≡ false) }
{
    let Some(values) = values_of(Shape::Variable, format, members) else {
        return Err(Fault::BadKey(position));
    };
    let name = name_in(position, values.at(0))?;
    let direction = direction_in(position, values.at(1))?;
    let bits = values.number(position, 2)?;
    let signed = truth_in(position, false, values.at(3))?;
    if found.has(&name) {
        return Err(Fault::TwiceNamed(position));
    }
    Ok(VariableRow {
        name,
        direction,
        bits: bits as u8,
        signed,
    })
}

/// A direction, "out" or "in".
#[tactic(auto, unfolding(crate::specs::Fields::direction_in))]
fn direction_in(position: Position, value: Option<&Value>) -> Result<Direction, Fault>
    ensures { result ≡ direction_in position (viewed value.entry) }
{
    let Some(value) = value else {
        return Err(Fault::BadValue(position));
    };
    let Some(text) = value.as_str() else {
        return Err(Fault::BadValue(position));
    };
    if text == "out" {
        Ok(Direction::Out)
    } else if text == "in" {
        Ok(Direction::In)
    } else {
        Err(Fault::BadValue(position))
    }
}

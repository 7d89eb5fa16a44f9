//! Reads the links that elements state.
ghost use Rattle.std.specs.Prelude.{◌≡◌, [], unwrap_or};
ghost use Rattle.toml.specs.View.{view, table_view, items_view};
ghost use Rattle.ec_table.specs.Fields.{link_bits_of, link_bits_in, viewed};
ghost use Rattle.ec_table.specs.InOrder.{Gives, rows_after};
ghost use Rattle.ec_table.specs.Reading.{all_bits, link_at, link_element};

use crate::fault::{Fault, Position, Section, TableError};
use crate::fields::{item_in, name_in};
use crate::keys::{LINK_BITS, Shape};
use crate::named::NamedRows;
use crate::rows::{Format, LinkBits, LinkRow, SlaveRow, VariableRow};
use crate::values::values_of;
use ec_listed::Listed;
use std::alloc::Global;
use toml::Value;

/// The places where a link's variable and slave are looked for first.
#[derive(Clone, Copy)]
struct Near {
    variable: usize,
    slave: usize,
}

/// The links of the section, in order. It frees each element as soon as it is read, while it is in the cache. It looks for a
/// link's variable first behind that of the link before it, and for its slave first at the slave of that link.
#[tactic(auto, using(crate::proofs::SectionRows::rows_left))]
pub fn links_of(
    alloc: Global,
    format: Format,
    slaves: &NamedRows<SlaveRow>,
    variables: &NamedRows<VariableRow>,
    elements: Vec<Value>,
) -> Result<Listed<LinkRow>, TableError>
    ensures { Gives result
        (rows_after (link_element format slaves.now variables.now) [] 0 (items_view elements.items)) }
{
    let mut found = Listed::new(alloc);
    let mut near = Near {
        variable: 0,
        slave: 0,
    };
    for value in elements {
        let row = link_element(format, slaves, variables, found.len(), &value, near)?;
        near = Near {
            variable: row.variable.saturating_add(1),
            slave: row.slave,
        };
        found.push(row)?;
    }
    Ok(found)
}

fn link_element(
    format: Format,
    slaves: &NamedRows<SlaveRow>,
    variables: &NamedRows<VariableRow>,
    element: usize,
    value: &Value,
    near: Near,
) -> Result<LinkRow, Fault>
    ensures { result ≡ link_element format slaves.now variables.now element (view value.now) [] }
{
    let position = Position {
        section: Section::Link,
        element,
    };
    match value.as_table() {
        Some(members) => link_at(format, slaves, variables, position, members, near),
        None => Err(Fault::BadValue(position)),
    }
}

/// The link that an element states.
#[tactic(auto, unfolding(crate::specs::Reading::link_at))]
fn link_at(
    format: Format,
    slaves: &NamedRows<SlaveRow>,
    variables: &NamedRows<VariableRow>,
    position: Position,
    members: &toml::Table,
    near: Near,
) -> Result<LinkRow, Fault>
    ensures { result ≡ link_at format slaves.now variables.now position (table_view members.now) }
{
    let Some(values) = values_of(Shape::Link, format, members) else {
        return Err(Fault::BadKey(position));
    };
    let variable_name = name_in(position, values.at(0))?;
    let slave_name = name_in(position, values.at(1))?;
    let index = values.number(position, 2)?;
    let subindex = values.number(position, 3)?;
    let bits = link_bits_in(position, values.at(4))?;
    let Some((at, variable)) = variables.find(&variable_name, near.variable) else {
        return Err(Fault::UnknownName(position));
    };
    let Some(slave) = slaves.place_of(&slave_name, near.slave) else {
        return Err(Fault::UnknownName(position));
    };
    Ok(LinkRow {
        variable: at,
        slave,
        index: index as u16,
        subindex: subindex as u8,
        bits: written_or_all(bits, variable),
    })
}

/// A link's bits, if they are written.
#[tactic(auto, unfolding(crate::specs::Fields::link_bits_in))]
fn link_bits_in(position: Position, value: Option<&Value>) -> Result<Option<LinkBits>, Fault>
    ensures { result ≡ link_bits_in position (viewed value.entry) }
{
    match value {
        None => Ok(None),
        Some(value) => Ok(Some(link_bits_of(position, value)?)),
    }
}

#[tactic(auto, unfolding(crate::specs::Fields::link_bits_of))]
fn link_bits_of(position: Position, value: &Value) -> Result<LinkBits, Fault>
    ensures { result ≡ link_bits_of position (view value.now) }
{
    let variable_bit = item_in(position, value, &LINK_BITS, 0)?;
    let entry_bit = item_in(position, value, &LINK_BITS, 1)?;
    let count = item_in(position, value, &LINK_BITS, 2)?;
    if value.get(3).is_some() {
        return Err(Fault::BadValue(position));
    }
    Ok(LinkBits {
        variable_bit: variable_bit as u8,
        entry_bit: entry_bit as u8,
        count: count as u8,
    })
}

/// The bits that are written, else all of the variable's, from bit 0 of both.
fn written_or_all(written: Option<LinkBits>, variable: &VariableRow) -> LinkBits
    ensures { result ≡ unwrap_or written (all_bits variable.now) }
{
    match written {
        Some(bits) => bits,
        None => LinkBits {
            variable_bit: 0,
            entry_bit: 0,
            count: variable.bits,
        },
    }
}

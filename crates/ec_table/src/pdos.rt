//! Reads the PDOs that a type states.
ghost use Rattle.std.specs.Prelude.{◌≡◌, ◌==◌, ◌||◌, [], IfOk, not};
ghost use Rattle.std.specs.List.{list_any};
ghost use Rattle.toml.specs.View.{view, table_view, items_view};
ghost use Rattle.ec_table.specs.Fields.{viewed};
ghost use Rattle.ec_table.specs.InOrder.{Gives, rows_after};
ghost use Rattle.ec_table.specs.Pdos.{entry_of, entry_row, array_of, array_in, pdo_of, pdo_row, pdos_in, indices_of, has_twice};

use crate::fault::{Fault, Position, TableError};
use crate::fields::{item_in, number_in};
use crate::keys::{ENTRY, Shape};
use crate::rows::Format;
use crate::values::values_of;
use ec_device::{
    Entry, FIRST_INPUT_INDEX, FIRST_OUTPUT_INDEX, MAX_ENTRIES, MAX_PDOS, PDO_INDICES, Pdo,
};
use ec_listed::Listed;
use std::alloc::{AllocError, Global};
use toml::Value;

/// The last index of an output PDO.
pub const LAST_OUTPUT_INDEX: u16 = FIRST_OUTPUT_INDEX + (PDO_INDICES - 1);
/// The last index of an input PDO.
pub const LAST_INPUT_INDEX: u16 = FIRST_INPUT_INDEX + (PDO_INDICES - 1);

/// The PDOs of one direction, none if they are left out.
pub fn pdos_in(
    alloc: Global,
    position: Position,
    value: Option<&Value>,
    low: u16,
    high: u16,
) -> Result<Listed<Pdo>, TableError>
    ensures { Gives result (pdos_in position low high (viewed value.entry)) }
{
    match value {
        None => Ok(Listed::new(alloc)),
        Some(value) => pdo_array(alloc, position, low, high, value),
    }
}

/// The indices of PDOs, in order.
pub fn indices_of(alloc: Global, pdos: &[Pdo]) -> Result<Listed<u16>, AllocError>
    ensures { IfOk result (λ v. v ≡ indices_of pdos.now) }
{
    let mut indices = Listed::new(alloc);
    for pdo in pdos {
        indices.push(pdo.index)?;
    }
    Ok(indices)
}

/// Whether some number stands twice.
pub fn has_twice(numbers: &[u16]) -> bool
    ensures { result ≡ has_twice numbers.now }
{
    match numbers {
        [] => false,
        [first, rest @ ..] => is_in(*first, rest) || has_twice(rest),
    }
}

/// Whether some object's index stands twice.
pub fn have_twice(pdos: &[Pdo]) -> bool
    ensures { result ≡ has_twice (indices_of pdos.now) }
{
    match pdos {
        [] => false,
        [first, rest @ ..] => is_index(first.index, rest) || have_twice(rest),
    }
}

/// Whether a number is the index of one of the objects.
pub fn is_index(number: u16, pdos: &[Pdo]) -> bool
    ensures { result ≡ list_any (λ y. y == number) (indices_of pdos.now) }
{
    match pdos {
        [] => false,
        [first, rest @ ..] => first.index == number || is_index(number, rest),
    }
}

/// Whether a number is among others.
pub fn is_in(number: u16, known: &[u16]) -> bool
    ensures { result ≡ list_any (λ y. y == number) known.now }
{
    known.iter().any(|other| *other == number)
}

#[tactic(auto, unfolding(crate::specs::Pdos::array_of))]
fn pdo_array(
    alloc: Global,
    position: Position,
    low: u16,
    high: u16,
    value: &Value,
) -> Result<Listed<Pdo>, TableError>
    ensures { Gives result (array_of (pdo_row position low high) position 16 (view value.now)) }
{
    let Some(elements) = value.as_array() else {
        return Err(TableError::Refused(Fault::BadValue(position)));
    };
    let pdos = pdos_of(alloc, position, low, high, elements.as_slice())?;
    if pdos.len() > MAX_PDOS {
        return Err(TableError::Refused(Fault::BadValue(position)));
    }
    Ok(pdos)
}

#[tactic(auto, using(crate::proofs::SectionRows::rows_all))]
fn pdos_of(
    alloc: Global,
    position: Position,
    low: u16,
    high: u16,
    elements: &[Value],
) -> Result<Listed<Pdo>, TableError>
    ensures { Gives result (rows_after (pdo_row position low high) [] 0 (items_view elements.now)) }
{
    let mut found = Listed::new(alloc);
    for value in elements {
        let pdo = pdo_row(alloc, position, low, high, value)?;
        found.push(pdo)?;
    }
    Ok(found)
}

fn pdo_row(
    alloc: Global,
    position: Position,
    low: u16,
    high: u16,
    value: &Value,
) -> Result<Pdo, TableError>
    ensures { Gives result (pdo_row position low high 0 (view value.now) []) }
{
    match value.as_table() {
        Some(members) => pdo_of(alloc, position, low, high, members),
        None => Err(TableError::Refused(Fault::BadValue(position))),
    }
}

#[tactic(auto, unfolding(crate::specs::Pdos::pdo_of))]
fn pdo_of(
    alloc: Global,
    position: Position,
    low: u16,
    high: u16,
    members: &toml::Table,
) -> Result<Pdo, TableError>
    ensures { Gives result (pdo_of position low high (table_view members.now)) }
{
    let Some(values) = values_of(Shape::Pdo, Format::full(), members) else {
        return Err(TableError::Refused(Fault::BadValue(position)));
    };
    let index = number_in(position, values.at(0), u32::from(low), u32::from(high))?;
    let entries = entries_in(alloc, position, values.at(1))?;
    Ok(Pdo {
        index: index as u16,
        entries,
    })
}

fn entries_in(
    alloc: Global,
    position: Position,
    value: Option<&Value>,
) -> Result<Listed<Entry>, TableError>
    ensures { Gives result (array_in (entry_row position) position 64 (viewed value.entry)) }
{
    match value {
        None => Ok(Listed::new(alloc)),
        Some(value) => entry_array(alloc, position, value),
    }
}

#[tactic(auto, unfolding(crate::specs::Pdos::array_of))]
fn entry_array(
    alloc: Global,
    position: Position,
    value: &Value,
) -> Result<Listed<Entry>, TableError>
    ensures { Gives result (array_of (entry_row position) position 64 (view value.now)) }
{
    let Some(elements) = value.as_array() else {
        return Err(TableError::Refused(Fault::BadValue(position)));
    };
    let entries = entries_of(alloc, position, elements.as_slice())?;
    if entries.len() > MAX_ENTRIES {
        return Err(TableError::Refused(Fault::BadValue(position)));
    }
    Ok(entries)
}

#[tactic(auto, using(crate::proofs::SectionRows::rows_all))]
fn entries_of(
    alloc: Global,
    position: Position,
    elements: &[Value],
) -> Result<Listed<Entry>, TableError>
    ensures { Gives result (rows_after (entry_row position) [] 0 (items_view elements.now)) }
{
    let mut found = Listed::new(alloc);
    for value in elements {
        let entry = entry_of(position, value)?;
        found.push(entry)?;
    }
    Ok(found)
}

#[tactic(auto, unfolding(crate::specs::Pdos::entry_of))]
fn entry_of(position: Position, value: &Value) -> Result<Entry, Fault>
    ensures { result ≡ entry_of position (view value.now) }
{
    let index = item_in(position, value, &ENTRY, 0)?;
    let subindex = item_in(position, value, &ENTRY, 1)?;
    let bits = item_in(position, value, &ENTRY, 2)?;
    if value.get(3).is_some() || is_bad_gap(index, subindex) {
        return Err(Fault::BadValue(position));
    }
    Ok(Entry {
        index: index as u16,
        subindex: subindex as u8,
        bits: bits as u8,
    })
}

/// Whether a gap, whose index is 0, has a subindex.
fn is_bad_gap(index: u32, subindex: u32) -> bool
    ensures { result ≡ not (not (index == 0) || (subindex == 0)) }
{
    index == 0 && subindex != 0
}

//! Reads the values of keys, and checks their ranges.
ghost use Rattle.std.specs.Prelude.{◌≡◌, ◌<◌, ◌≤◌, [], IfOk, get_or, length, option_map};
ghost use Rattle.std.specs.List.{list_all};
ghost use Rattle.std.specs.Str.{bytes_eq};
ghost use Rattle.toml.specs.Data.{at, get_member};
ghost use Rattle.toml.specs.View.{view, table_view, items_view};
ghost use Rattle.ec_table.specs.Fields.{number_or_0, version_in, truth_in, format_in, is_name_byte, is_name, number_in, name_in, is_table, are_tables, section_in, viewed, result_elements, result_items};
ghost use Rattle.ec_table.specs.InOrder.{Gives, rows_after};
ghost use Rattle.ec_table.specs.Pdos.{number_row, number_list, numbers_in};

use crate::fault::{Fault, Position, TableError};
use crate::keys::Shape;
use crate::rows::{Format, Name, Version};
use ec_listed::Listed;
use std::alloc::Global;
use toml::Value;

/// Whether a text is a name: 1 to 32 ASCII letters, digits and `_`.
pub fn is_name(text: &str) -> bool
    ensures { result ≡ is_name text.now }
{
    1 <= text.len() && text.len() <= 32 && are_name_bytes(text.as_bytes())
}

/// Whether two short texts are the same. Most texts differ in length, which takes one comparison.
pub fn are_same(one: &str, other: &str) -> bool
    ensures { result ≡ bytes_eq one.now other.now }
{
    let (one, other) = (one.as_bytes(), other.as_bytes());
    if one.len() != other.len() {
        return false;
    }
    for i in 0..one.len() {
        if one[i] != other[i] {
            return false;
        }
    }
    true
}

/// The value under a key.
pub fn member<'a>(members: &'a toml::Table, key: &str) -> Option<&'a Value>
    ensures { viewed result ≡ get_member key.now (table_view members.now) }
{
    members.get(key)
}

/// A number from `low` to `high`, or the fault `BadValue`.
#[tactic(auto, unfolding(crate::specs::Fields::number_in))]
pub fn number_in(
    position: Position,
    value: Option<&Value>,
    low: u32,
    high: u32,
) -> Result<u32, Fault>
    ensures value { result ≡ number_in position low high (viewed value.entry) }
    ensures range { IfOk result (λ n. (low ≤ n) × (n ≤ high)) }
{
    let Some(value) = value else {
        return Err(Fault::BadValue(position));
    };
    let Some(number) = value.as_integer() else {
        return Err(Fault::BadValue(position));
    };
    if i64::from(low) <= number && number <= i64::from(high) {
        Ok(number as u32)
    } else {
        Err(Fault::BadValue(position))
    }
}

/// The number at a place of a list, in the range at this place, or the fault `BadValue`.
pub fn item_in(
    position: Position,
    value: &Value,
    ranges: &[(u32, u32)],
    place: usize,
) -> Result<u32, Fault>
    requires { place < length ranges.now }
    ensures value { let range = get_or ranges.now place (0, 0) in
        result ≡ number_in position range.0 range.1 (at place (view value.now)) }
    ensures range { let range = get_or ranges.now place (0, 0) in
        IfOk result (λ n. (range.0 ≤ n) × (n ≤ range.1)) }
{
    let (low, high) = ranges[place];
    number_in(position, value.get(place), low, high)
}

/// A name, or the fault `BadValue`.
#[tactic(auto, unfolding(crate::specs::Fields::name_in), using(crate::proofs::NameIndex::name_fits))]
pub fn name_in(position: Position, value: Option<&Value>) -> Result<Name, Fault>
    ensures { result ≡ name_in position (viewed value.entry) }
{
    let Some(value) = value else {
        return Err(Fault::BadValue(position));
    };
    let Some(text) = value.as_str() else {
        return Err(Fault::BadValue(position));
    };
    if is_name(text) {
        Ok(Name::new(text))
    } else {
        Err(Fault::BadValue(position))
    }
}

/// The version of the format, 1 if it is left out.
#[tactic(auto, unfolding(crate::specs::Fields::version_in))]
fn version_in(position: Position, value: Option<&Value>) -> Result<Version, Fault>
    ensures { result ≡ version_in position (viewed value.entry) }
{
    let Some(value) = value else {
        return Ok(Version::One);
    };
    let (low, high) = Shape::Document.rule(0).range();
    let number = number_in(position, Some(value), low, high)?;
    if number == 1 {
        Ok(Version::One)
    } else {
        Ok(Version::Two)
    }
}

/// The format of a document, by the values under `version` and `hardware`.
#[tactic(auto, unfolding(crate::specs::Fields::format_in))]
pub fn format_in(
    position: Position,
    version: Option<&Value>,
    hardware: Option<&Value>,
) -> Result<Format, Fault>
    ensures { result ≡ format_in position (viewed version.entry) (viewed hardware.entry) }
{
    let version = version_in(position, version)?;
    let hardware = truth_in(position, false, hardware)?;
    Ok(Format { version, hardware })
}

/// A truth value, with what it is if it is left out, or the fault `BadValue`.
pub fn truth_in(position: Position, left_out: bool, value: Option<&Value>) -> Result<bool, Fault>
    ensures { result ≡ truth_in position left_out (viewed value.entry) }
{
    let Some(value) = value else {
        return Ok(left_out);
    };
    match value.as_bool() {
        Some(truth) => Ok(truth),
        None => Err(Fault::BadValue(position)),
    }
}

/// A number up to `most`, 0 if it is left out.
pub fn number_or_0(position: Position, value: Option<&Value>, most: u32) -> Result<u32, Fault>
    ensures value { result ≡ number_or_0 position most (viewed value.entry) }
    ensures range { IfOk result (λ n. n ≤ most) }
{
    match value {
        None => Ok(0),
        Some(value) => number_in(position, Some(value), 0, most),
    }
}

/// The numbers of an array, if there is one.
pub fn numbers_in(
    alloc: Global,
    position: Position,
    value: Option<&Value>,
    low: u16,
    high: u16,
) -> Result<Option<Listed<u16>>, TableError>
    ensures { Gives result (numbers_in position low high (viewed value.entry)) }
{
    match value {
        None => Ok(None),
        Some(value) => Ok(Some(number_list(alloc, position, low, high, value)?)),
    }
}

/// The elements of a section, none if it is left out.
#[tactic(auto, unfolding(crate::specs::Fields::section_in))]
pub fn section_in<'a>(position: Position, value: Option<&'a Value>) -> Result<&'a [Value], Fault>
    ensures { result_items result ≡ section_in position (viewed value.entry) }
{
    let Some(value) = value else {
        return Ok(&[]);
    };
    let Some(elements) = value.as_array() else {
        return Err(Fault::BadValue(position));
    };
    if are_tables(elements.as_slice()) {
        Ok(elements.as_slice())
    } else {
        Err(Fault::BadValue(position))
    }
}

/// The elements of a section that was taken out of its document, none if it is left out.
#[tactic(auto, unfolding(crate::specs::Fields::section_in))]
pub fn elements_in(
    alloc: Global,
    position: Position,
    value: Option<Value>,
) -> Result<Vec<Value>, Fault>
    ensures { result_elements result ≡ section_in position (option_map view value) }
{
    let elements = match value {
        None => return Ok(Vec::new(alloc)),
        Some(Value::Array(elements)) => elements,
        Some(_) => return Err(Fault::BadValue(position)),
    };
    if are_tables(elements.as_slice()) {
        Ok(elements)
    } else {
        Err(Fault::BadValue(position))
    }
}

fn is_name_byte(byte: u8) -> bool
    ensures { result ≡ is_name_byte byte }
{
    byte.is_ascii_alphanumeric() || byte == b'_'
}

fn are_name_bytes(bytes: &[u8]) -> bool
    ensures { result ≡ list_all is_name_byte bytes.now }
{
    bytes.iter().all(|byte| is_name_byte(*byte))
}

#[tactic(auto, unfolding(crate::specs::Pdos::number_list))]
fn number_list(
    alloc: Global,
    position: Position,
    low: u16,
    high: u16,
    value: &Value,
) -> Result<Listed<u16>, TableError>
    ensures { Gives result (number_list position low high (view value.now)) }
{
    let Some(elements) = value.as_array() else {
        return Err(TableError::Refused(Fault::BadValue(position)));
    };
    numbers_of(alloc, position, low, high, elements.as_slice())
}

#[tactic(auto, using(crate::proofs::SectionRows::rows_all))]
fn numbers_of(
    alloc: Global,
    position: Position,
    low: u16,
    high: u16,
    elements: &[Value],
) -> Result<Listed<u16>, TableError>
    ensures { Gives result (rows_after (number_row position low high) [] 0 (items_view elements.now)) }
{
    let mut found = Listed::new(alloc);
    for value in elements {
        let number = number_in(position, Some(value), u32::from(low), u32::from(high))?;
        found.push(number as u16)?;
    }
    Ok(found)
}

/// Whether each of these values is a table.
fn each_is_table(elements: &[Value]) -> bool
    ensures { result ≡ list_all (λ v. is_table (view v)) elements.now }
{
    elements.iter().all(|value| is_table(value))
}

/// Whether each element of an array is a table.
#[tactic(auto, using(crate::proofs::Lookups::are_tables_of))]
fn are_tables(elements: &[Value]) -> bool
    ensures { result ≡ are_tables (items_view elements.now) }
{
    each_is_table(elements)
}

fn is_table(value: &Value) -> bool
    ensures { result ≡ is_table (view value.now) }
{
    value.as_table().is_some()
}

//! Reads the downloads that a type or a slave states.
ghost use Rattle.std.specs.Prelude.{◌≡◌, ◌≤◌, ◌-◌, ◌^◌, []};
ghost use Rattle.toml.specs.View.{view, items_view};
ghost use Rattle.ec_device.specs.Parameters.{bit_count};
ghost use Rattle.ec_table.specs.Fields.{viewed};
ghost use Rattle.ec_table.specs.InOrder.{Gives, rows_after};
ghost use Rattle.ec_table.specs.Parameters.{are_taken, held, parameter_of, parameter_row, parameters_in, size_in, value_in};
ghost use Rattle.ec_table.specs.Pdos.{array_of};

use crate::fault::{Fault, Position, TableError};
use crate::fields::{item_in, number_in};
use crate::keys::PARAMETER;
use ec_device::{MAX_PARAMETERS, Mailbox, Parameter, ParameterSize};
use ec_listed::Listed;
use std::alloc::Global;
use toml::Value;

/// Downloads, none if they are left out.
pub fn parameters_in(
    alloc: Global,
    position: Position,
    value: Option<&Value>,
) -> Result<Listed<Parameter>, TableError>
    ensures { Gives result (parameters_in position (viewed value.entry)) }
{
    match value {
        None => Ok(Listed::new(alloc)),
        Some(value) => parameter_array(alloc, position, value),
    }
}

/// Whether a device can take these downloads: they come by its mailbox.
pub fn are_taken(mailbox: &Option<Mailbox>, parameters: &[Parameter]) -> bool
    ensures { result ≡ are_taken mailbox.now parameters.now }
{
    mailbox.is_some() || parameters.is_empty()
}

#[tactic(auto, unfolding(crate::specs::Pdos::array_of))]
fn parameter_array(
    alloc: Global,
    position: Position,
    value: &Value,
) -> Result<Listed<Parameter>, TableError>
    ensures { Gives result (array_of (parameter_row position) position 64 (view value.now)) }
{
    let Some(elements) = value.as_array() else {
        return Err(TableError::Refused(Fault::BadValue(position)));
    };
    let parameters = parameters_of(alloc, position, elements.as_slice())?;
    if parameters.len() > MAX_PARAMETERS {
        return Err(TableError::Refused(Fault::BadValue(position)));
    }
    Ok(parameters)
}

#[tactic(auto, using(crate::proofs::SectionRows::rows_all))]
fn parameters_of(
    alloc: Global,
    position: Position,
    elements: &[Value],
) -> Result<Listed<Parameter>, TableError>
    ensures { Gives result (rows_after (parameter_row position) [] 0 (items_view elements.now)) }
{
    let mut found = Listed::new(alloc);
    for value in elements {
        let parameter = parameter_of(position, value)?;
        found.push(parameter)?;
    }
    Ok(found)
}

/// One download: the object, how many bits its value has, and the value.
#[tactic(auto, unfolding(crate::specs::Parameters::parameter_of))]
fn parameter_of(position: Position, value: &Value) -> Result<Parameter, Fault>
    ensures { result ≡ parameter_of position (view value.now) }
{
    let index = item_in(position, value, &PARAMETER, 0)?;
    let subindex = item_in(position, value, &PARAMETER, 1)?;
    let size = size_in(position, value.get(2))?;
    let number = value_in(position, size, value.get(3))?;
    if value.get(4).is_some() {
        return Err(Fault::BadValue(position));
    }
    Ok(Parameter {
        index: index as u16,
        subindex: subindex as u8,
        size,
        value: number,
    })
}

/// 8, 16 or 32 bits.
#[tactic(auto, unfolding(crate::specs::Parameters::size_in))]
fn size_in(position: Position, value: Option<&Value>) -> Result<ParameterSize, Fault>
    ensures { result ≡ size_in position (viewed value.entry) }
{
    let (low, high) = PARAMETER[2];
    match number_in(position, value, low, high)? {
        8 => Ok(ParameterSize::One),
        16 => Ok(ParameterSize::Two),
        32 => Ok(ParameterSize::Four),
        _ => Err(Fault::BadValue(position)),
    }
}

/// A value that so many bits hold.
#[tactic(auto, unfolding(crate::specs::Parameters::value_in))]
fn value_in(position: Position, size: ParameterSize, value: Option<&Value>) -> Result<u32, Fault>
    ensures { result ≡ value_in position size (viewed value.entry) }
{
    let Some(value) = value else {
        return Err(Fault::BadValue(position));
    };
    let Some(number) = value.as_integer() else {
        return Err(Fault::BadValue(position));
    };
    match held(size, number) {
        Some(number) => Ok(number),
        None => Err(Fault::BadValue(position)),
    }
}

/// A number as so many bits hold it, one below 0 in two's complement; none if they don't.
#[tactic(auto, using(crate::proofs::Held::above_held, crate::proofs::Held::above_none, crate::proofs::Held::below_held, crate::proofs::Held::below_none))]
fn held(size: ParameterSize, number: i64) -> Option<u32>
    ensures { result ≡ held (bit_count size) number }
{
    let (half, distance) = (half_of(size), number.unsigned_abs());
    if number < 0 {
        if distance <= half {
            Some((2 * half - distance) as u32)
        } else {
            None
        }
    } else if distance < 2 * half {
        Some(distance as u32)
    } else {
        None
    }
}

/// Half of the values that so many bytes have.
fn half_of(size: ParameterSize) -> u64
    ensures value { result ≡ 2 ^ (bit_count size - 1) }
    ensures few { result ≤ 2147483648 }
{
    match size {
        ParameterSize::One => 0x80,
        ParameterSize::Two => 0x8000,
        ParameterSize::Four => 0x8000_0000,
    }
}

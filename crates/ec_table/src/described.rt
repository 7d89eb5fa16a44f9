//! Reads what a type for hardware says of real devices.
ghost use Rattle.std.specs.Prelude.{◌≡◌, None, get_or};
ghost use Rattle.toml.specs.View.{view};
ghost use Rattle.ec_table.specs.Fields.{fmmus_in, manager_in, manager_of, viewed};
ghost use Rattle.ec_table.specs.Reading.{can_be, can_be_if, described, hardware_by, is_possible, manner_in};
ghost use Rattle.ec_table.specs.declared.keys.Shape.TheVariants as shape;

use crate::fault::{Fault, Position};
use crate::fields::{item_in, truth_in};
use crate::keys::MANAGER;
use crate::parameters::are_taken;
use crate::rows::{Format, ProcessData};
use crate::values::Values;
use ec_device::{Hardware, MAX_FMMUS, Mailbox, PINS, PINS_BYTES, Parameter, ProcessManager};
use toml::Value;

/// Whether a device's assignment is fixed, and how a simulated slave behaves.
#[derive(Clone, Copy)]
pub struct Manner {
    /// Whether its assignment of PDOs can't be written.
    pub is_fixed: bool,
    /// How many firmware steps later than another it decides a request.
    pub slow: u8,
    /// Whether it sends an emergency as it enters PREOP from INIT.
    pub has_emergency: bool,
}

/// What a type says of real devices, if its table is for hardware, by the values under its keys.
pub fn hardware_in(
    format: Format,
    position: Position,
    process: &ProcessData,
    values: &Values<'_>,
) -> Result<Option<Hardware>, Fault>
    requires { values.now.shape ≡ shape.Type }
    ensures { let found = values.now.found in
        result ≡ hardware_by format position process.now (viewed (get_or found 10 None)) (viewed (get_or found 11 None)) (viewed (get_or found 12 None))
        (viewed (get_or found 13 None)) (viewed (get_or found 15 None)) (viewed (get_or found 16 None)) (viewed (get_or found 17 None)) (viewed (get_or found 3 None)) }
{
    if !format.hardware {
        return Ok(None);
    }
    let manner = manner_in(position, values)?;
    Ok(Some(described(position, process, manner, values)?))
}

/// The values under `fixed`, `slow` and `emergency`.
#[tactic(auto, unfolding(crate::specs::Reading::manner_in))]
fn manner_in(position: Position, values: &Values<'_>) -> Result<Manner, Fault>
    requires { values.now.shape ≡ shape.Type }
    ensures { let found = values.now.found in
        result ≡ manner_in position (viewed (get_or found 13 None)) (viewed (get_or found 15 None)) (viewed (get_or found 16 None)) }
{
    let is_fixed = truth_in(position, false, values.at(13))?;
    let slow = values.number_or_0(position, 15)?;
    let has_emergency = truth_in(position, false, values.at(16))?;
    Ok(Manner {
        is_fixed,
        slow: slow as u8,
        has_emergency,
    })
}

/// The values under `out_manager`, `in_manager`, `firmware` and `fmmus`, whether the outputs begin at the pins, and whether the
/// revision is left out.
#[tactic(auto, unfolding(crate::specs::Reading::described))]
fn described(
    position: Position,
    process: &ProcessData,
    manner: Manner,
    values: &Values<'_>,
) -> Result<Hardware, Fault>
    requires { values.now.shape ≡ shape.Type }
    ensures { let found = values.now.found in
        result ≡ described position process.now manner (viewed (get_or found 10 None)) (viewed (get_or found 11 None))
        (viewed (get_or found 12 None)) (viewed (get_or found 17 None)) (viewed (get_or found 3 None)) }
{
    let out_manager = manager_in(position, ProcessManager::usual_outputs(), values.at(10))?;
    let in_manager = manager_in(position, ProcessManager::usual_inputs(), values.at(11))?;
    let has_firmware = truth_in(position, true, values.at(12))?;
    let fmmus = fmmus_in(position, values)?;
    Ok(Hardware {
        out_manager,
        in_manager,
        has_pins: (PINS..PINS + PINS_BYTES).contains(&process.out_start),
        has_firmware,
        is_fixed: manner.is_fixed,
        slow: manner.slow,
        has_emergency: manner.has_emergency,
        fmmus,
        any_revision: values.at(3).is_none(),
    })
}

/// The manager of a direction, the usual one if it is left out.
#[tactic(auto, unfolding(crate::specs::Fields::manager_in))]
fn manager_in(
    position: Position,
    usual: ProcessManager,
    value: Option<&Value>,
) -> Result<ProcessManager, Fault>
    ensures { result ≡ manager_in position usual (viewed value.entry) }
{
    match value {
        None => Ok(usual),
        Some(value) => manager_of(position, value),
    }
}

/// The number and the control byte of a manager.
#[tactic(auto, unfolding(crate::specs::Fields::manager_of))]
fn manager_of(position: Position, value: &Value) -> Result<ProcessManager, Fault>
    ensures { result ≡ manager_of position (view value.now) }
{
    let number = item_in(position, value, &MANAGER, 0)?;
    let control = item_in(position, value, &MANAGER, 1)?;
    if value.get(2).is_some() {
        return Err(Fault::BadValue(position));
    }
    Ok(ProcessManager {
        number: number as u8,
        control: control as u8,
    })
}

/// How many FMMUs there are, 4 if it is left out.
fn fmmus_in(position: Position, values: &Values<'_>) -> Result<u8, Fault>
    requires { values.now.shape ≡ shape.Type }
    ensures { result ≡ fmmus_in position (viewed (get_or values.now.found 17 None)) }
{
    if values.at(17).is_none() {
        return Ok(MAX_FMMUS);
    }
    Ok(values.number(position, 17)? as u8)
}

/// Whether a device can be what its type says, and can take what is downloaded to it.
pub fn is_possible(
    mailbox: &Option<Mailbox>,
    hardware: &Option<Hardware>,
    init: &[Parameter],
) -> bool
    ensures { result ≡ is_possible mailbox.now hardware.now init.now }
{
    can_be_if(mailbox, hardware) && are_taken(mailbox, init)
}

/// Whether a device can be what its type says, if it says something.
fn can_be_if(mailbox: &Option<Mailbox>, hardware: &Option<Hardware>) -> bool
    ensures { result ≡ can_be_if mailbox.now hardware.now }
{
    match hardware {
        None => true,
        Some(hardware) => can_be(mailbox, hardware),
    }
}

/// Whether each direction has a manager of its own and of its mode, a mailbox has managers 0 and 1 and firmware, and a fixed
/// assignment a mailbox.
fn can_be(mailbox: &Option<Mailbox>, hardware: &Hardware) -> bool
    ensures { result ≡ can_be mailbox.now hardware.now }
{
    let (outputs, inputs) = (hardware.out_manager, hardware.in_manager);
    let are_apart = outputs.number != inputs.number;
    let have_modes = outputs.control % 16 == 4 && inputs.control % 16 == 0;
    let leave_room = outputs.number >= 2 && inputs.number >= 2 && hardware.has_firmware;
    let is_read = !hardware.is_fixed || mailbox.is_some();
    are_apart && have_modes && (mailbox.is_none() || leave_room) && is_read
}

//! Whether two types are the same.
ghost use Rattle.std.specs.Prelude.{◌≡◌, ◌↔◌, IsTrue};
ghost use Rattle.std.specs.Option.{option_copied};
ghost use Rattle.ec_found.specs.Differing.{same_entries};

use ec_device::{Entry, Face, Hardware, Parameter, Pdo, SlaveType};

/// Whether two types are the same, to the last entry.
#[tactic(auto, using(crate::proofs::SameTypes::same_kinds))]
pub(crate) fn are_same(one: &SlaveType, other: &SlaveType) -> bool
    ensures { IsTrue result ↔ (one.now ≡ other.now) }
{
    are_same_devices(one, other)
        && have_same_areas(one, other)
        && are_same_pdos(one.outputs(), other.outputs())
        && are_same_pdos(one.inputs(), other.inputs())
        && have_same_faces(one.face(), other.face())
        && have_same_parameters(one.init(), other.init())
}

fn are_same_devices(one: &SlaveType, other: &SlaveType) -> bool
    ensures { IsTrue result ↔ ((one.now.device ≡ other.now.device) × (one.now.mailbox ≡ other.now.mailbox) × (one.now.lrw ≡ other.now.lrw)) }
{
    one.device() == other.device() && one.mailbox() == other.mailbox() && one.lrw() == other.lrw()
}

fn have_same_areas(one: &SlaveType, other: &SlaveType) -> bool
    ensures { IsTrue result ↔ ((one.now.out_start ≡ other.now.out_start) × (one.now.in_start ≡ other.now.in_start) × (one.now.hardware ≡ other.now.hardware)) }
{
    one.out_start() == other.out_start()
        && one.in_start() == other.in_start()
        && have_same_hardware(one.hardware(), other.hardware())
}

/// Whether two types say the same of real devices.
fn have_same_hardware(one: Option<&Hardware>, other: Option<&Hardware>) -> bool
    ensures { IsTrue result ↔ (option_copied one.entry ≡ option_copied other.entry) }
{
    match (one, other) {
        (None, None) => true,
        (Some(one), Some(other)) => is_same_hardware(one, other),
        _ => false,
    }
}

#[tactic(auto, using(crate::proofs::SameTypes::same_hardware))]
fn is_same_hardware(one: &Hardware, other: &Hardware) -> bool
    ensures { IsTrue result ↔ (one.now ≡ other.now) }
{
    have_same_managers(one, other) && have_same_controller(one, other) && behave_alike(one, other)
}

fn have_same_managers(one: &Hardware, other: &Hardware) -> bool
    ensures { IsTrue result ↔ ((one.now.out_manager ≡ other.now.out_manager) × (one.now.in_manager ≡ other.now.in_manager)) }
{
    one.out_manager == other.out_manager && one.in_manager == other.in_manager
}

fn have_same_controller(one: &Hardware, other: &Hardware) -> bool
    ensures { IsTrue result ↔ ((one.now.has_pins ≡ other.now.has_pins) × (one.now.has_firmware ≡ other.now.has_firmware) × (one.now.fmmus ≡ other.now.fmmus)) }
{
    one.has_pins == other.has_pins
        && one.has_firmware == other.has_firmware
        && one.fmmus == other.fmmus
}

fn behave_alike(one: &Hardware, other: &Hardware) -> bool
    ensures { IsTrue result ↔ ((one.now.is_fixed ≡ other.now.is_fixed) × (one.now.slow ≡ other.now.slow) × (one.now.has_emergency ≡ other.now.has_emergency) × (one.now.any_revision ≡ other.now.any_revision)) }
{
    one.is_fixed == other.is_fixed
        && one.slow == other.slow
        && one.has_emergency == other.has_emergency
        && one.any_revision == other.any_revision
}

/// Whether two lists have the same PDOs in the same order.
fn are_same_pdos(one: &[Pdo], other: &[Pdo]) -> bool
    ensures { IsTrue result ↔ (one.now ≡ other.now) }
{
    if one.len() != other.len() {
        return false;
    }
    for (place, pdo) in one.iter().enumerate() {
        if !is_same_pdo(pdo, &other[place]) {
            return false;
        }
    }
    true
}

#[tactic(auto, using(crate::proofs::SameTypes::same_pdo))]
fn is_same_pdo(one: &Pdo, other: &Pdo) -> bool
    ensures { IsTrue result ↔ (one.now ≡ other.now) }
{
    one.index == other.index && are_same_entries(one.entries.as_slice(), other.entries.as_slice())
}

/// Whether two lists of entries are equal.
fn are_same_entries(one: &[Entry], other: &[Entry]) -> bool
    ensures { IsTrue result ↔ (one.now ≡ other.now) }
{
    have_same_entries(one, other)
}

/// Whether two lists have the same entries in the same order. The PDOs of a table's slave and of the one that was found are compared by it.
pub(crate) fn have_same_entries(one: &[Entry], other: &[Entry]) -> bool
    ensures { result ≡ same_entries one.now other.now }
{
    one == other
}

/// Whether two faces are the same.
#[tactic(auto, using(crate::proofs::SameTypes::same_face))]
fn have_same_faces(one: Option<&Face>, other: Option<&Face>) -> bool
    ensures { IsTrue result ↔ (option_copied one.entry ≡ option_copied other.entry) }
{
    match (one, other) {
        (None, None) => true,
        (Some(one), Some(other)) => {
            one.is_last == other.is_last && one.name.as_slice() == other.name.as_slice()
        }
        _ => false,
    }
}

/// Whether two lists have the same parameters in the same order.
fn have_same_parameters(one: &[Parameter], other: &[Parameter]) -> bool
    ensures { IsTrue result ↔ (one.now ≡ other.now) }
{
    if one.len() != other.len() {
        return false;
    }
    for (place, parameter) in one.iter().enumerate() {
        if !is_same_parameter(parameter, &other[place]) {
            return false;
        }
    }
    true
}

fn is_same_parameter(one: &Parameter, other: &Parameter) -> bool
    ensures { IsTrue result ↔ (one.now ≡ other.now) }
{
    one == other
}

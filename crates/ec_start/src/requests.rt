//! The SDO requests of a start-up to one slave, each found by its place: none of them is stored.

ghost use Rattle.std.specs.Prelude.{◌≡◌, ◌≤◌, ◌<◌, length, All, Some, slice_get};
ghost use Rattle.std.specs.List.{flat_map};
ghost use Rattle.ec_device.specs.Types.{pdo_bits};
ghost use Rattle.ec_device.specs.Objects.{pdo_at};
ghost use Rattle.ec_start.specs.Scripts.{parameters_written, pdo_read, assignment_written, assignment_read, assignment_of, pdo_requests, requests};
ghost use Rattle.ec_start.specs.Planned.{HasFewAssigned};
ghost use Rattle.ec_start.specs.Seeking.{seek, mappings_of, assignments_of};

use crate::action::SdoRequest;
use ec_coe::{INPUT_ASSIGNMENT, OUTPUT_ASSIGNMENT, SdoValue, entry_number, find_pdo};
use ec_device::{Parameter, Pdo};
use ec_link::SlavePlan;

/// What a place in a run of requests is.
#[derive(Clone, Copy)]
pub enum Seek {
    /// The place of this request.
    Found(SdoRequest),
    /// A place this far past the run.
    Past(usize),
}

/// The request at a place, of all requests to a slave; none past the last.
pub fn request_at(settings: &SlavePlan, place: usize) -> Option<SdoRequest>
    requires { HasFewAssigned settings.now }
    ensures { result ≡ slice_get (requests settings.now) place }
{
    match parameter_in(settings.kind.init(), place) {
        Seek::Found(request) => Some(request),
        Seek::Past(past) => pdo_request_at(settings, past),
    }
}

/// The request at a place, of those about the PDOs of a slave; none past the last.
fn pdo_request_at(settings: &SlavePlan, place: usize) -> Option<SdoRequest>
    requires { HasFewAssigned settings.now }
    ensures { result ≡ slice_get (pdo_requests settings.now) place }
{
    match mapping_in(settings, place) {
        Seek::Found(request) => Some(request),
        Seek::Past(past) => match assignment_in(settings, past) {
            Seek::Found(request) => Some(request),
            Seek::Past(_) => None,
        },
    }
}

/// The download at a place, of those of the parameters of a slave.
fn parameter_in(parameters: &[Parameter], place: usize) -> Seek
    ensures { result ≡ seek (parameters_written parameters.now) place }
{
    let count = parameters.len();
    if place >= count {
        return Seek::Past(place - count);
    }
    Seek::Found(SdoRequest::of_parameter(&parameters[place]))
}

/// The request at a place, of those about both assignments of a slave: downloads, or uploads of a fixed one.
fn assignment_in(settings: &SlavePlan, place: usize) -> Seek
    requires { HasFewAssigned settings.now }
    ensures { result ≡ seek (assignments_of settings.now) place }
{
    let fixed = settings.kind.is_fixed();
    let has_outputs = !settings.kind.outputs().is_empty();
    let has_inputs = !settings.kind.inputs().is_empty();
    let outputs = settings.outputs.as_slice();
    let inputs = settings.inputs.as_slice();
    match assigned_at(fixed, OUTPUT_ASSIGNMENT, outputs, has_outputs, place) {
        Seek::Found(request) => Seek::Found(request),
        Seek::Past(past) => assigned_at(fixed, INPUT_ASSIGNMENT, inputs, has_inputs, past),
    }
}

/// The request at a place, of those about one assignment object.
fn assigned_at(fixed: bool, object: u16, indices: &[u16], has_pdos: bool, place: usize) -> Seek
    requires { length indices.now < 256 }
    ensures { result ≡ seek (assignment_of fixed object indices.now has_pdos) place }
{
    if fixed {
        slots_at(object, indices, has_pdos, place)
    } else {
        downloads_at(object, indices, has_pdos, place)
    }
}

/// The upload at a place, of those of one fixed assignment object: the count, then each index.
fn slots_at(object: u16, indices: &[u16], has_pdos: bool, place: usize) -> Seek
    requires { length indices.now < 256 }
    ensures { result ≡ seek (assignment_read object indices.now has_pdos) place }
{
    let count = indices.len();
    if !has_pdos {
        return Seek::Past(place);
    }
    if place == 0 {
        return Seek::Found(SdoRequest::upload(object, 0, SdoValue::byte(count as u8)));
    }
    if place <= count {
        let slot = SdoValue::word(indices[place - 1]);
        return Seek::Found(SdoRequest::upload(object, place as u8, slot));
    }
    Seek::Past(place - 1 - count)
}

/// The upload at a place, of those of the mappings of a slave.
fn mapping_in(settings: &SlavePlan, place: usize) -> Seek
    ensures { result ≡ seek (mappings_of settings.now) place }
{
    let kind = &settings.kind;
    match uploads_at(kind.outputs(), settings.outputs.as_slice(), place) {
        Seek::Found(request) => Seek::Found(request),
        Seek::Past(past) => uploads_at(kind.inputs(), settings.inputs.as_slice(), past),
    }
}

/// The download at a place, of those of one assignment object: count 0, each index, the count.
fn downloads_at(object: u16, indices: &[u16], has_pdos: bool, place: usize) -> Seek
    requires { length indices.now < 256 }
    ensures { result ≡ seek (assignment_written object indices.now has_pdos) place }
{
    let count = indices.len();
    if !has_pdos {
        return Seek::Past(place);
    }
    if place == 0 {
        return Seek::Found(SdoRequest::download(object, 0, SdoValue::byte(0)));
    }
    if count == 0 {
        return Seek::Past(place - 1);
    }
    if place <= count {
        let slot = SdoValue::word(indices[place - 1]);
        return Seek::Found(SdoRequest::download(object, place as u8, slot));
    }
    if place == count + 1 {
        return Seek::Found(SdoRequest::download(object, 0, SdoValue::byte(count as u8)));
    }
    Seek::Past(place - 2 - count)
}

/// The upload at a place, of those of the PDOs with these indices.
fn uploads_at(pdos: &[Pdo], indices: &[u16], place: usize) -> Seek
    requires { All (λ p. (length p.entries ≤ 64) × (pdo_bits p ≤ 4096)) pdos.now }
    ensures { result ≡ seek (flat_map (λ index. pdo_read (pdo_at pdos.now index)) indices.now) place }
{
    let mut left = place;
    for index in indices {
        match upload_at(pdos, *index, left) {
            Seek::Found(request) => return Seek::Found(request),
            Seek::Past(past) => left = past,
        }
    }
    Seek::Past(left)
}

/// The upload at a place, of those of the PDO with an index.
fn upload_at(pdos: &[Pdo], index: u16, place: usize) -> Seek
    requires { All (λ p. (length p.entries ≤ 64) × (pdo_bits p ≤ 4096)) pdos.now }
    ensures { result ≡ seek (pdo_read (pdo_at pdos.now index)) place }
{
    match find_pdo(pdos, index) {
        Some(pdo) => pdo_upload(pdo, place),
        None => Seek::Past(place),
    }
}

/// The upload at a place, of those of one PDO: its number of entries, and each of them.
fn pdo_upload(pdo: &Pdo, place: usize) -> Seek
    requires { length pdo.now.entries ≤ 64 }
    ensures { result ≡ seek (pdo_read (Some pdo.now)) place }
{
    let entries = pdo.entries.as_slice();
    if place == 0 {
        let count = SdoValue::byte(entries.len() as u8);
        return Seek::Found(SdoRequest::upload(pdo.index, 0, count));
    }
    if place <= entries.len() {
        let entry = SdoValue::long(entry_number(&entries[place - 1]));
        return Seek::Found(SdoRequest::upload(pdo.index, place as u8, entry));
    }
    Seek::Past(place - 1 - entries.len())
}

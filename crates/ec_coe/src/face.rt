//! The objects that a full slave has besides: those that its face shows to masters that look around (ETG.1000.6, "Object
//! dictionary").

ghost use Rattle.std.specs.Prelude.{◌≡◌, ◌≤◌, [], ◌∷◌, length, slice_get};
ghost use Rattle.ec_coe.specs.Objects.{name_fits, name_value as value_of_name, is_long as is_long_name, size_of, manager_types_values, face_values};
ghost use Rattle.ec_coe.specs.Transfers.{value_at};

use crate::abort_code::AbortCode;
use crate::bytes::byte_at;
use crate::message::MESSAGE_LENGTH;
use crate::value::{SdoValue, ValueSize};
use ec_device::Face;

/// The index of the device type.
pub const DEVICE_TYPE_OBJECT: u16 = 0x1000;

/// The index of the manufacturer's device name.
pub const DEVICE_NAME_OBJECT: u16 = 0x1008;

/// The index of the manufacturer's hardware version.
pub const HARDWARE_VERSION_OBJECT: u16 = 0x1009;

/// The index of the manufacturer's software version.
pub const SOFTWARE_VERSION_OBJECT: u16 = 0x100A;

/// The index of the object with the use of each sync manager.
pub const MANAGER_TYPES_OBJECT: u16 = 0x1C00;

/// The most bytes that an expedited transfer carries.
const MAX_EXPEDITED: usize = 4;

/// Whether a name is too long for an expedited transfer.
pub(crate) fn is_long(name: &[u8]) -> bool
    ensures { result ≡ is_long_name name.now }
{
    name.len() > MAX_EXPEDITED
}

/// Whether the letters of a name fit a mailbox of `room` bytes, behind a message.
pub(crate) fn has_room(name: &[u8], room: usize) -> bool
    requires { length name.now ≤ 32 }
    ensures { result ≡ name_fits name.now room }
{
    MESSAGE_LENGTH + name.len() <= room
}

/// The value at an index and a subindex of the objects that a face shows, through a mailbox of `room` bytes.
///
/// # Errors
///
/// `NoObject` if the index has no object, `NoSubindex` if the object has no such subindex.
pub(crate) fn face_value(
    face: &Face,
    room: usize,
    index: u16,
    subindex: u8,
) -> Result<SdoValue, AbortCode>
    requires { length face.now.name ≤ 32 }
    ensures { result ≡ value_at (face_values face.now room index) subindex }
{
    let name = face.name.as_slice();
    let value = match index {
        DEVICE_TYPE_OBJECT => only(SdoValue::long(0), subindex),
        DEVICE_NAME_OBJECT if is_long(name) && !has_room(name, room) => {
            return Err(AbortCode::NoObject);
        }
        DEVICE_NAME_OBJECT => only(name_value(name), subindex),
        HARDWARE_VERSION_OBJECT | SOFTWARE_VERSION_OBJECT => only(SdoValue::byte(b'1'), subindex),
        MANAGER_TYPES_OBJECT => manager_type(subindex),
        _ => return Err(AbortCode::NoObject),
    };
    value.ok_or(AbortCode::NoSubindex)
}

/// The use of a sync manager: mailbox out 1, mailbox in 2, outputs 3, inputs 4; at subindex 0 how many there are.
fn manager_type(subindex: u8) -> Option<SdoValue>
    ensures { result ≡ slice_get manager_types_values subindex }
{
    match subindex {
        0 => Some(SdoValue::byte(4)),
        1 => Some(SdoValue::byte(1)),
        2 => Some(SdoValue::byte(2)),
        3 => Some(SdoValue::byte(3)),
        4 => Some(SdoValue::byte(4)),
        _ => None,
    }
}

/// The value of an object at its only subindex, 0.
fn only(value: SdoValue, subindex: u8) -> Option<SdoValue>
    ensures { result ≡ slice_get (value ∷ []) subindex }
{
    (subindex == 0).then_some(value)
}

/// The value of the device name: its letters, the first in the lowest byte; the number of letters of a long name.
fn name_value(name: &[u8]) -> SdoValue
    requires { length name.now ≤ 32 }
    ensures { result ≡ value_of_name name.now }
{
    if is_long(name) {
        return SdoValue::long(name.len() as u32);
    }
    SdoValue {
        size: size_of_bytes(name.len()),
        number: byte_at(name, 0) as u32
            + 0x100 * byte_at(name, 1) as u32
            + 0x1_0000 * byte_at(name, 2) as u32
            + 0x100_0000 * byte_at(name, 3) as u32,
    }
}

/// The size of a value of `count` bytes.
fn size_of_bytes(count: usize) -> ValueSize
    ensures { result ≡ size_of count }
{
    match count {
        1 => ValueSize::One,
        2 => ValueSize::Two,
        3 => ValueSize::Three,
        _ => ValueSize::Four,
    }
}

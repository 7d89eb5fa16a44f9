//! The abort codes of an SDO transfer in words.

use crate::abort_code::AbortCode;

/// An abort code in words.
#[derive(Clone, Copy, Debug)]
pub struct AbortText {
    /// The standard's name.
    pub name: &'static str,
    /// What the slave means, as the end of a sentence about it.
    pub meaning: &'static str,
}

/// The codes of the standard (ETG.1000.6, "Abort SDO transfer"), each with its name and its meaning.
static TEXTS: [(u32, &str, &str); 26] = [
    (
        0x0503_0000,
        "Toggle bit not changed",
        "the toggle bit didn't change",
    ),
    (
        0x0504_0000,
        "SDO protocol timeout",
        "the transfer took too long",
    ),
    (
        0x0504_0001,
        "Client/server command specifier not valid or unknown",
        "it has no such command",
    ),
    (0x0504_0005, "Out of memory", "no memory"),
    (
        0x0601_0000,
        "Unsupported access to an object",
        "the object can't be accessed so",
    ),
    (
        0x0601_0001,
        "Attempt to read a write only object",
        "the object can't be read",
    ),
    (
        0x0601_0002,
        "Attempt to write a read only object",
        "the object can only be read",
    ),
    (
        0x0602_0000,
        "The object does not exist in the object directory",
        "it has no such object",
    ),
    (
        0x0604_0041,
        "The object cannot be mapped into the PDO",
        "the object can't be mapped into a PDO",
    ),
    (
        0x0604_0042,
        "The number and length of the objects to be mapped would exceed the PDO length",
        "the PDO would be too long",
    ),
    (
        0x0604_0043,
        "General parameter incompatibility reason",
        "parameters that don't fit each other",
    ),
    (
        0x0604_0047,
        "General internal incompatibility in the device",
        "parameters that don't fit each other",
    ),
    (
        0x0606_0000,
        "Access failed due to a hardware error",
        "a fault of its hardware",
    ),
    (
        0x0607_0010,
        "Data type does not match, length of service parameter does not match",
        "the length isn't that of the object",
    ),
    (
        0x0607_0012,
        "Data type does not match, length of service parameter too high",
        "the value is too long",
    ),
    (
        0x0607_0013,
        "Data type does not match, length of service parameter too low",
        "the value is too short",
    ),
    (
        0x0609_0011,
        "Subindex does not exist",
        "the object has no such subindex",
    ),
    (
        0x0609_0030,
        "Value range of parameter exceeded",
        "the object doesn't take that value",
    ),
    (
        0x0609_0031,
        "Value of parameter written too high",
        "the value is too large",
    ),
    (
        0x0609_0032,
        "Value of parameter written too low",
        "the value is too small",
    ),
    (
        0x0609_0036,
        "Maximum value is less than minimum value",
        "the maximum is less than the minimum",
    ),
    (0x0800_0000, "General error", "a general error"),
    (
        0x0800_0020,
        "Data cannot be transferred or stored to the application",
        "the value can't be transferred or stored",
    ),
    (
        0x0800_0021,
        "Data cannot be transferred or stored to the application because of local control",
        "the application controls the value",
    ),
    (
        0x0800_0022,
        "Data cannot be transferred or stored to the application because of the present device state",
        "the value can't be transferred in the state that it is in",
    ),
    (
        0x0800_0023,
        "Object dictionary dynamic generation fails or no object dictionary is present",
        "it has no object dictionary, or can't make one",
    ),
];

impl AbortCode {
    /// The words for a number in the data of an abort; `None` if the standard has no such code.
    pub fn text(number: u32) -> Option<AbortText> {
        for (code, name, meaning) in &TEXTS {
            if *code == number {
                return Some(AbortText {
                    name: *name,
                    meaning: *meaning,
                });
            }
        }
        None
    }
}

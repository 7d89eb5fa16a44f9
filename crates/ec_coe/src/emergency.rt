//! The emergency with which a simulated slave may greet its master.

ghost use Rattle.std.specs.Prelude.{◌≡◌, ◌<◌};
ghost use Rattle.ec_coe.specs.Emergency.{emergency_bytes as bytes_of_emergency};

use crate::message::{BYTES_AFTER_HEADER, COE, MESSAGE_LENGTH};

/// The number of emergencies in the CoE header.
const EMERGENCY: u8 = 1;

/// The bytes of an emergency with this counter: error code 0x5000, "device hardware", and zeros (ETG.1000.6, "Emergency services").
pub fn emergency_bytes(counter: u8) -> [u8; MESSAGE_LENGTH]
    requires { counter < 8 }
    ensures { result ≡ bytes_of_emergency counter }
{
    [
        BYTES_AFTER_HEADER as u8,
        0,
        0,
        0,
        0,
        COE + 16 * counter,
        0,
        16 * EMERGENCY,
        0x00,
        0x50,
        0,
        0,
        0,
        0,
        0,
        0,
    ]
}

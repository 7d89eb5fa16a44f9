//! States and why a slave shows an error.
use crate::remark::OTHER_CODE;
use ec_al::{State, StatusCode};

/// The number of BOOT, which the simulated slaves lack.
const BOOT: u8 = 3;

/// The standard's name of a state by its number.
pub(crate) fn state_name(number: u8) -> &'static str {
    match State::from_number(number) {
        Some(state) => state.name(),
        None if number == BOOT => "BOOT",
        None if number == 0 => "no state",
        None => "bits of several states",
    }
}

/// The standard's name of an AL status code.
pub(crate) fn status_name(code: u16) -> &'static str {
    match StatusCode::text(code) {
        Some(text) => text.name,
        None => OTHER_CODE,
    }
}

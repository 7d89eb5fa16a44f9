//! Process data that are exchanged as copies: whether sync managers, or the RAM itself, hold the area that FMMUs map, and what a
//! logical datagram with the whole area brings there and takes from there.
//!
//! A slave that is set up as usual is one of these two cases. `ec_slave` says what a datagram does otherwise, bit by bit, and
//! proves that both are the same.
#![tactic(auto)]

mod copies;
mod holding;
mod reach;

pub use crate::copies::{get_inputs, give_inputs, put_outputs, take_outputs, take_value};
pub use crate::holding::{is_held, is_plain, spanned_area};
pub use crate::reach::{governor, owner_of, read_manager, write_manager};

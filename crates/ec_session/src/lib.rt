//! A master with all that it needs in one value: a [`Session`] owns a machine, its start-up and its cycles. The frames are carried
//! by hand or over a wire.
#![tactic(auto)]

mod asking;
mod by_hand;
pub mod laws;
mod session;

pub use crate::session::Session;
pub use ec_asking::AlStatus;

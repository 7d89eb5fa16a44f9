//! The registers of a slave: their names, their records, and which bytes of them take writes.
#![tactic(auto)]

mod access;
mod fmmu;
pub mod laws;
mod manager;
mod names;
pub mod registers;
mod words;

pub use crate::access::{is_stored, takes_writes};
pub use crate::fmmu::{FmmuSettings, decode_fmmu, encode_fmmu};
pub use crate::manager::{
    CONTROL_INPUTS, CONTROL_MAILBOX_IN, CONTROL_MAILBOX_OUT, CONTROL_OUTPUTS, SyncManagerSettings,
    decode_manager, encode_manager,
};
pub use crate::names::{shown_fmmu, shown_manager};
pub use crate::words::{AlWord, SiiControl};
/// What a slave of one type is, and the identity of one slave.
pub use ec_device::{Identity, SlaveType};

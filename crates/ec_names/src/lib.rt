//! Frames by the standard's names: the registers of a slave, by name and address, and the datagrams that bytes spell.
#![tactic(auto)]

mod datagram;
pub mod laws;
mod register;

pub use crate::datagram::{DatagramFields, first_datagram};
pub use crate::register::{REGISTERS, Register, register_at, register_bytes, registers_within};

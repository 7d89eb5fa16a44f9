//! EtherCAT frames (ETG.1000.4, "EtherCAT frame structure"): the test of a payload, a pass over
//! its datagrams, their fields, a builder, and the names of a master's frames.
#![tactic(auto)]

mod builder;
mod checking;
mod command;
mod cursor;
mod datagram;
mod datagrams;
mod error;
pub mod field;
pub mod laws;
mod name;
mod walk;

pub use crate::builder::{Builder, Frame, Full, Sent, write_pair};
pub use crate::checking::check;
pub use crate::command::Command;
pub use crate::cursor::{DatagramSpan, Datagrams};
pub use crate::datagram::{
    Header, address_of, cut_counter, cut_heading, read_counter, read_data, write_address,
    write_adp, write_counter,
};
pub use crate::datagrams::Datagram;
pub use crate::error::FrameError;
pub use crate::name::{FrameName, index_of};
pub use crate::walk::{Handler, pass};

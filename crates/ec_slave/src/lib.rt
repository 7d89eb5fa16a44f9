//! One simulated slave: its memory, and what datagrams do to it and it to them.
#![tactic(auto)]

mod application;
mod column;
mod firmware;
mod fmmus;
pub mod laws;
mod logical;
mod mailbox;
mod numbers;
mod passing;
mod physical;
mod role;
mod runs;
mod slave;
mod sound;

pub use crate::column::pass_each;
pub use crate::slave::Slave;

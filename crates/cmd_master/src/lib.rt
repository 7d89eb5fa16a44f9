//! `ecat master`: the master of a link table over a wire, which lines move as they come.
#![tactic(auto)]

mod command;
pub mod laws;
mod mastered;
mod why;

pub use crate::command::{MasterOptions, connect, run_connected};
pub use crate::mastered::Mastered;

//! Why a start-up or a cycle failed, for people: at which slave and step, what that means, and what to do.
#![tactic(auto)]

mod cause;
mod fault;
mod starting;
mod steps;

pub use crate::fault::{StartFault, abort_meaning, status_meaning};
pub use crate::starting::{explain_cycle_error, explain_start_error, explain_wire_fault};
pub use crate::steps::Request;

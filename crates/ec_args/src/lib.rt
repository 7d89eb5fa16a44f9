//! The arguments of `ecat`'s command line, read by `clap`.
#![tactic(auto)]

mod commands;
mod helps;
mod laws;
mod request;

pub use crate::laws::{pass_is_read_as_pass, plan_is_read_as_plan};
pub use crate::request::{Arguments, Inputs, Notice, Request, SegmentOptions, read_args};

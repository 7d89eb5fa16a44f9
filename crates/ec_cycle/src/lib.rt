//! The master of the cyclic frames of a plan. It sends the outputs of its process image. It takes the inputs of a sync unit
//! all at once, if all of the unit's frames came back with the predicted working counters, or not at all.
//!
//! This crate knows no wire: [`Master::frame`] lends the frames to send, and [`Master::take`] takes whatever came in.
#![tactic(auto)]

mod asking;
mod building;
mod closing;
mod counters;
mod error;
pub mod laws;
mod master;
mod matching;
mod renewing;
mod returned;
mod run;

pub use crate::closing::Report;
pub use crate::error::CycleError;
pub use crate::master::Master;
pub use ec_start::Taken;

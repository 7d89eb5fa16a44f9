//! Why a text is no link table, for people: which key, name or value is at fault, and what to do.
#![tactic(auto)]

mod impossible;
mod misfit;
mod numbers;
mod reading;
mod rule;

pub use crate::reading::explain_fault;

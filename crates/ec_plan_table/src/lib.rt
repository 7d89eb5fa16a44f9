//! A plan as tables of bits for people.
#![tactic(auto)]

mod explained;

pub use crate::explained::explain_text;

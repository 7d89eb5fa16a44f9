//! A list that contracts see as its elements in order.
#![tactic(auto)]

mod listed;

pub use crate::listed::Listed;

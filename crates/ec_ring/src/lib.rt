//! A ring of slaves: the order in which a frame passes them.
#![tactic(auto)]

mod error;
pub mod laws;
mod ring;

pub use crate::error::NotAFrame;
pub use crate::ring::Ring;

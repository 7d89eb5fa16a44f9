//! Slaves that a master elsewhere moves by frames, while lines move them as the plant does. A run is frames and lines in the order in
//! which they come.
#![tactic(auto)]

mod cyclic;
mod drops;
pub mod laws;
mod live;
mod turns;
mod why;

pub use crate::live::{Live, served_text};
pub use crate::turns::{LineSource, Lines, Ready, Station, Watching, print_live, print_unserved};

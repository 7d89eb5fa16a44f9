//! `ecat scan`: a link table of the slaves of a segment, or what differs between them and a table.
#![tactic(auto)]

mod command;
mod finding;
mod tap;
mod why;

pub use crate::command::{ScanOptions, run_against, run_scan};
pub use crate::tap::open_scan_capture;

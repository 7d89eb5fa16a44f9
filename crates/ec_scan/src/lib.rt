//! A scan of a segment: what its slaves show of themselves by their SII and by CoE, each action a frame (ETG.1000.6, "Slave
//! information interface area", "SDO services").
//!
//! A scan takes some of a start-up's actions. It downloads nothing, moves no process data, and asks for no state above PREOP: a
//! [`Line`] sends nothing else, whatever slaves answer.
#![tactic(auto)]

mod coe;
mod course;
mod error;
pub mod laws;
mod line;
mod shown;
mod sii;

pub use crate::course::scan;
pub use crate::error::ScanError;
pub use crate::line::{Line, MOST_FRAMES, SLAVE_FRAMES};
pub use crate::shown::{Shown, ShownMailbox};

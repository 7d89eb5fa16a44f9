//! `ecat segment`: a segment of simulated slaves on a socket or a card, whose inputs an application makes from their outputs, or lines
//! as they come.
#![tactic(auto)]

mod endpoint;
mod opened;
mod plant;
mod segment;
mod watch;

pub use crate::endpoint::Endpoint;
pub use crate::opened::SegmentWire;
pub use crate::plant::run_plant;
pub use crate::segment::{print_served_segment, run_segment};

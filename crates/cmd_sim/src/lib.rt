//! `ecat sim`: lines act on a simulated segment of a link table, as they stand in a script or come from an input. A capture notes the
//! frames, and reasons say why a line can't be done.
#![tactic(auto)]

mod events;
pub mod laws;
mod reasons;
mod scene;
mod sim;
mod simulation;
mod watch;

pub use crate::sim::{print_noted, run_live, run_script};
pub use crate::simulation::Simulation;
pub use crate::watch::Watch;

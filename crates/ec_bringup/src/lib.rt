//! What a start-up does to the slaves of its segment: laws over the definitions of slave, frame and script; and the start-up of a
//! ring of slaves. The crate also makes that ring: the slaves of a table, just switched on.
#![tactic(auto)]

pub mod laws;
mod switching;
mod turns;

pub use crate::switching::{identities_of, slaves_of, slaves_of_machine, switched_on};
pub use crate::turns::bring_up;

//! The master and the segment of a link table behind handles, for `ec_library`, which exports the calls to C.
#![tactic(auto)]

mod calls;
mod done;
mod error;
mod facts;
mod handle;
mod held;
pub mod on_master;
pub mod on_segment;
mod opening;
mod polling;
mod segments;
mod statuses;

pub use crate::done::{Closed, Done, VariableValue};
pub use crate::facts::{PartCounters, Placed};
pub use crate::handle::{MasterHandle, SegmentHandle};
pub use crate::opening::NotOpened;
pub use crate::statuses::Told;

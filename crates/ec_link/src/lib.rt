//! From a link table to a plan: which bits of the process image go to which logical bits, and where each slave maps them.
#![tactic(auto)]

mod compiling;
mod fault;
mod faults;
mod image;
pub mod laws;
mod layout;
mod link_runs;
mod machine;
mod marks;
mod objects;
mod pairs;
mod plan;
mod settings;
mod sizes;
mod spans;

pub use crate::compiling::compile;
pub use crate::fault::{LinkError, LinkFault};
pub use crate::image::Variable;
pub use crate::layout::{MAX_PART_BYTES, MAX_SPLIT_BYTES};
pub use crate::machine::{Machine, MachineError};
pub use crate::plan::{ExpectedCounters, Link, PartPlan, Plan};
pub use crate::settings::{Share, SlavePlan};
pub use crate::sizes::EntryBits;

//! The data link registers of a full slave: what a common master reads of its controller, its ports and its links, and the
//! registers that it writes there (ETG.1000.4, "DL information", "DL control", "DL status", "PDI control", "SII access"). A slave
//! that isn't full has none of them.
#![tactic(auto)]

mod data_link;
pub mod laws;

pub use crate::data_link::DataLink;

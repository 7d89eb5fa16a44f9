//! The start-up of a segment by init commands: from a plan, one frame at a time, to slaves in OP (ETG.1000.6, "AL state
//! machine"; the order of the commands is this project's profile).
#![tactic(auto)]

mod action;
mod answer;
mod aside;
mod error;
mod feeding;
mod held;
pub mod laws;
mod phase;
mod requests;
mod script;
mod startup;
mod steps;
mod verdict;

pub use crate::action::{Action, Feed, ManagerRegister, SdoRequest, SiiAccess, Transfer};
pub use crate::answer::answer_in;
pub use crate::aside::{Emergency, Heard};
pub use crate::error::StartError;
pub use crate::held::HeldPlan;
pub use crate::phase::{NextFrame, Phase, Taken};
pub use crate::startup::{Startup, write_frame};
pub use crate::steps::step_at;

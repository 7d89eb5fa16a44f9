//! What the lines of a script do to a simulated segment.
#![tactic(auto)]

mod action;
mod inputs;
pub mod laws;
mod met;
mod rounds;
mod run;
mod showing;
mod status;
mod view;
mod within;

pub use crate::action::{event_of, watch_action};
pub use crate::met::is_met;
pub use crate::run::{do_action, run_step};
pub use crate::showing::value_seen;
pub use crate::status::{printed_text, status_of};
pub use crate::view::view_of;

//! What a master asks of slaves apart from start-ups and cycles: the AL status of one, or INIT of all.
//!
//! A [`Question`] is a frame of its own: [`write_question`] writes it, and [`take_answer`] takes the answer.
#![tactic(auto)]

mod answer;
pub mod laws;
mod question;

pub use crate::answer::{AlStatus, take_answer};
pub use crate::question::{Question, write_question};

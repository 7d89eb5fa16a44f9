//! Why a line of a script stands for nothing, for people: which word of it is at fault, and what to do. Of a line that comes to a program,
//! also why the program doesn't take it.
#![tactic(auto)]

mod block;
mod form;
mod misfit;
mod script;
mod word;

pub use crate::block::NO_END;
pub use crate::script::{bad_words, explain_bad_line, explain_unmet};

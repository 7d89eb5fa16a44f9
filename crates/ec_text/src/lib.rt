//! Printed texts: plans, in a fixed form for programs and as a C header, reports on cycles, how start-ups ended,
//! input variables, and refusals.
#![tactic(auto)]

mod digits;
mod header;
mod inputs;
mod plan;
mod refusal;
mod report;

pub use crate::digits::{push_number, push_value, write_counter, write_word};
pub use crate::header::header_text;
pub use crate::inputs::{input_lines, value_of, write_inputs};
pub use crate::plan::plan_text;
pub use crate::refusal::{Refused, Values, listed, refusal_line, refusal_text};
pub use crate::report::{write_outcome, write_report};

//! The language of `ecat sim` and `ecat master`: what lines stand for, and what they print.
#![tactic(auto)]

mod draft;
mod expectation;
mod forms;
mod halves;
pub mod laws;
mod line;
mod met;
mod operands;
mod output;
mod read;
mod script;
mod states;
mod tasks;
mod value;
mod value_test;
mod view;
mod words;

pub use crate::draft::{Draft, Due};
pub use crate::expectation::Expectation;
pub use crate::forms::{ECHO, EXPECT_NO, ExpectForm, FORMS, Form, REPEAT, WITHIN};
pub use crate::halves::split_script;
pub use crate::line::{Line, LineAction, Step, Task, is_simulated};
pub use crate::met::{is_failed, is_met};
pub use crate::operands::{WordKind, slave_named, state_named, variable_named};
pub use crate::output::{LineOutput, output_text};
pub use crate::read::{Reading, read_line, read_script, uncommented};
pub use crate::script::{MAX_DEPTH, Script, ScriptLines};
pub use crate::states::state_name;
pub use crate::value::{bounds_of, hex_of};
pub use crate::value_test::{Comparison, ValueTest};
pub use crate::view::MasterView;
pub use crate::words::{byte_of, code_of, number_of, times_of};
pub use ec_decode::DecodeError as ScriptError;

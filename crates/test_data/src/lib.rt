//! Data for tests and long runs.
//!
//! The link tables of `examples/` and their scripts, word for word, and other spellings of the table of three slaves; numbers, link
//! tables and scripts that a seed decides. A text from a seed is made unless memory is refused; no clause says that it is a table.
#![tactic(auto)]

mod files;
mod random;
mod scripts;
mod spellings;
mod tables;

pub use crate::files::{
    DRIVE, DRIVE_SCRIPT, LINE, LINE_SCRIPT, SMALL_MACHINE, TERMINALS, TERMINALS_SCRIPT,
    THREE_SLAVES, THREE_SLAVES_INLINE,
};
pub use crate::random::Random;
pub use crate::scripts::random_script;
pub use crate::spellings::{SHORT_THREE_SLAVES, SHORT_TWO_UNITS, SHORT_WITHOUT_LRW};
pub use crate::tables::{random_hardware_table, random_table};

//! Lines of an input, each taken as it comes, and the text before a line `%%`.
#![tactic(auto)]

mod error;
mod lines;
mod text;

pub use crate::error::LinesError;
pub use crate::lines::{InputStream, LinePart, MAX_BYTES, NextLine, take_line, take_part};
pub use crate::text::take_text;

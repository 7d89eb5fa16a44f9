//! What the commands of `ecat` share: the refusals by number, the streams of a run, the text of the input, the machine that it states,
//! and texts on the output and the fault stream. Explanations for people stand behind refusals. The file of a capture is opened once a
//! table is accepted, and is whole if a run ends well. One interpreter runs lines, whatever they act on.
#![tactic(auto)]

mod bad;
mod captures;
mod console;
mod explain;
mod fault_stream;
mod files;
mod form;
mod input;
pub mod laws;
mod machine;
mod misfit;
mod output;
mod printing;
mod refusal;
mod remarks;
mod running;
mod stated;
mod target;
mod unmet;
mod wanted;

pub use crate::captures::{Capture, Interfaces, Recording, close_capture, open_capture};
pub use crate::console::{Console, Terminals};
pub use crate::explain::{Explanation, TextRead};
pub use crate::files::{Origin, lines_before, open_file, read_behind, read_file};
pub use crate::form::SlaveForm;
pub use crate::input::read_text;
pub use crate::machine::read_machine;
pub use crate::misfit::{Misfit, greatest};
pub use crate::output::OutputStream;
pub use crate::printing::print_text;
pub use crate::refusal::{Refusal, end_of};
pub use crate::remarks::{remarks_on, remarks_text};
pub use crate::running::{obey_taken, run_input, run_lines};
pub use crate::stated::{Source, Stated, read_source, read_stated};
pub use crate::target::{Said, Target};
pub use crate::unmet::Missed;
pub use crate::wanted::Manner;
pub use ec_diagnostic::FileNames;
pub use ec_lines::{InputStream, LinePart, NextLine, take_part};

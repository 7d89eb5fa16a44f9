//! EtherCAT frames as text in a fixed form, and back.
#![tactic(auto)]

mod begun;
mod datagram;
mod error;
mod frame;
pub mod laws;
mod line;
mod located;
mod reader;
mod text;
mod weaving;
mod words;

pub use crate::error::DecodeError;
pub use crate::frame::write_frame;
pub use crate::located::{LocatedFault, check_located, error_name, write_refused};
pub use crate::reader::Reader;
pub use crate::text::{Decoded, decode_line, decode_text, encode_text, payload_text};
pub use crate::weaving::{push_indented, weave};

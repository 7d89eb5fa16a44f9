//! Payloads in hex as text with remarks for people: what each datagram says, and by a link table which
//! variables it carries.
#![tactic(auto)]

mod annotate;
mod carried;
mod names;
mod remark;
mod remarks;

pub use crate::annotate::{Links, annotate_text};
pub use crate::carried::{
    Carried, Process, ProcessCommand, ProcessDatagram, carried_bits, find_process,
    predicted_counter, variable_at, write_process,
};
pub use crate::names::Names;
pub use crate::remark::{sii_text, write_remarks};

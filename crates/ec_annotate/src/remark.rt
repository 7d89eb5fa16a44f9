//! Datagrams in words for people. They name registers, as the standard does, states, settings of sync
//! managers and FMMUs, accesses to the SII, and mailbox messages with their SDOs.

mod datagram;
mod mailbox;
mod sii;
mod state;
mod value;

pub use self::datagram::write_remarks;
pub use self::sii::sii_text;

/// The words for a code that the standard doesn't have.
pub(crate) const OTHER_CODE: &str = "another code";

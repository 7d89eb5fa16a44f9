//! Captures of EtherCAT frames, as pcapng files that Wireshark opens. A capture has named interfaces, and packets that were seen
//! there. Each packet is an Ethernet frame of type 0x88A4 with a time, and with a comment if there is one.
#![tactic(auto)]

mod blocks;
mod file;
pub mod laws;
mod packet;
mod recorder;
mod writing;

pub use crate::blocks::{write_interface, write_packet, write_section};
pub use crate::packet::{MAX_INTERFACES, MAX_PAYLOAD, MAX_TEXT, Packet};
pub use crate::recorder::Recorder;
pub use crate::writing::WriteFault;

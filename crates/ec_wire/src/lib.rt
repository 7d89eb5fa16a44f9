//! Wires, which carry a master's frames to a segment and back: cycles and start-ups over them, and segments of simulated slaves.
//!
//! A [`Wire`] sends and receives payloads and counts its faults. The contract of a cycle holds for every wire.
//! A [`CapturedWire`] notes in a capture what passes over the wire in it.
#![tactic(auto)]

mod application;
mod asking;
mod cycle;
mod error;
mod loopback;
mod lossy;
mod memory;
mod pace;
mod patience;
mod payload;
mod segment;
mod startup;
mod tap;
mod trouble;
mod udp;
mod wire;

pub use crate::application::{App, Echo};
pub use crate::asking::ask;
pub use crate::cycle::run_cycle;
pub use crate::error::{RunError, SocketFault};
pub use crate::loopback::{LoopWire, Loopback};
pub use crate::lossy::run_lossy_cycle;
pub use crate::memory::MemoryWire;
pub use crate::pace::{Pace, Resting, Restless};
pub use crate::patience::{Patience, PatientSocket};
pub use crate::payload::Payload;
pub use crate::segment::{Served, serve_counted, serve_idle, serve_segment};
pub use crate::startup::{bring_up_resting, bring_up_wire};
pub use crate::tap::{CapturedWire, Side};
pub use crate::trouble::Trouble;
pub use crate::udp::UdpWire;
pub use crate::wire::{Wire, listen_on, receive_on, send_on};

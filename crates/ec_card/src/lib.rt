//! Wires over network cards: Ethernet frames that carry EtherCAT, and a wire over the raw socket of a card.
//!
//! [`framed`] returns the frame of a payload, and [`payload_of`] the payload of a received frame. [`CardWire`] sends and receives
//! such frames. [`is_socket`] says whether a descriptor is that of a socket.
#![tactic(auto)]

mod card;
mod ethernet;
pub mod laws;

pub use crate::card::{CardWire, is_socket};
pub use crate::ethernet::{EthernetFrame, Sender, framed, payload_of};
pub use ec_wire::Patience;

//! Where a segment waits for payloads.
use std::net::Ipv4Addr;

/// Where a segment waits for payloads, how many it serves, and how long it waits for one.
#[derive(Clone, Copy, Debug, PartialEq, Eq, Drop)]
pub struct Endpoint {
    /// How many payloads come; without it, as many as come before none comes for `idle`.
    pub frames: Option<u32>,
    /// The address that it listens on.
    pub address: Ipv4Addr,
    /// The port there.
    pub port: u16,
    /// The descriptor of a card's raw socket; it replaces address and port.
    pub descriptor: Option<u16>,
    /// How long it waits, in seconds; 0 is without end.
    pub idle: u32,
}

//! Packets of a capture, and the limits of its blocks.

/// The most bytes of a payload: those of an Ethernet frame behind its header.
pub const MAX_PAYLOAD: usize = 1500;

/// The most bytes of a name or a comment.
pub const MAX_TEXT: usize = 65535;

/// The most interfaces: a packet has four bytes for the number of its interface.
pub const MAX_INTERFACES: usize = 1 << 32;

/// A payload that was seen at an interface.
#[derive(Clone, Copy)]
pub struct Packet<'a> {
    /// The number of the interface, counted from 0.
    pub interface: usize,
    /// When it was seen, in microseconds.
    pub time: u64,
    /// Whether it had passed a slave.
    pub passed: bool,
    /// The EtherCAT header and the datagrams, at most [`MAX_PAYLOAD`] bytes.
    pub payload: &'a [u8],
    /// A comment on it, if there is one.
    pub comment: Option<&'a str>,
}

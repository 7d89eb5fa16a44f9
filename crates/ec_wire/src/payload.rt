//! A payload of a UDP datagram, which contracts see as the list of its bytes.
ghost use Rattle.std.specs.Prelude.{◌≡◌, ◌≤◌, length};

use ec_frame::Frame;
use std::marker::Model;

/// The bytes of a payload, at most 1472.
#[derive(Drop)]
pub struct Payload {
    bytes: Frame,
}

impl Model for Payload {
    ghost use Rattle.std.specs.Prelude.{ℕ, List};

    ghost Value = { List ℕ };

    ghost view = { λ p. p.bytes.items };
}

/// A frame of these bytes.
pub(crate) fn frame_of(bytes: &[u8]) -> Frame
    requires { length bytes.now ≤ 1472 }
    ensures { result.items ≡ bytes.now }
{
    let mut frame = Frame::new();
    let _ = frame.try_extend_from_slice(bytes);
    frame
}

impl Payload {
    /// The payload of these bytes, at most 1472.
    pub fn new(bytes: &[u8]) -> Payload
        requires { length bytes.now ≤ 1472 }
        ensures { result ≡ bytes.now }
    {
        Payload {
            bytes: frame_of(bytes),
        }
    }

    /// The payload that is this frame.
    pub(crate) fn of(frame: Frame) -> Payload
        ensures { result ≡ frame.items }
    {
        Payload { bytes: frame }
    }

    /// The bytes of the payload.
    pub fn as_slice(&self) -> &[u8]
        ensures bytes { result.now ≡ self.now }
        ensures few { length result.now ≤ 1472 }
    {
        self.bytes.as_slice()
    }
}

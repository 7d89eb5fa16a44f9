//! Whether the next frame of a start-up polls again.
ghost use Rattle.std.specs.Prelude.{◌≡◌, ◌≤◌, ◌↔◌, [], false, length, take, IsTrue};
ghost use Rattle.ec_handles.specs.Polls.{AsksAgain, Notes, feeds_part};

use ec_frame::field::{FRAME_HEADER_LEN, INDEX, MAX_FRAME_LEN, NAME_LEN, OVERHEAD};
use ec_frame::{Command, Frame};

/// The place of a frame's second datagram, behind the one that names the frame.
const ASKING: usize = FRAME_HEADER_LEN + OVERHEAD + NAME_LEN;

/// The last frame of a start-up that fed no part, and whether the last of all asks again what such a one before it asked.
#[derive(Drop)]
pub struct Polling {
    pub last: Frame,
    pub is_again: bool,
}

impl Polling {
    /// No frame was made yet.
    pub fn new() -> Polling
        ensures none { result.last.items ≡ [] }
        ensures first { result.is_again ≡ false }
    {
        Polling {
            last: Frame::new(),
            is_again: false,
        }
    }

    /// Notes the next frame of the start-up, as much of it as a frame has at most. One that feeds a part belongs to the poll behind it.
    pub fn note(&mut self, frame: &[u8])
        ensures { Notes (feeds_part frame.now) self.old frame.now self.new }
    {
        if feeds_part(frame) {
            self.is_again = false;
            return;
        }
        self.is_again = asks_again(self.last.as_slice(), frame);
        self.last = copy_of(first_bytes(frame));
    }
}

/// The bytes, or the first of them, as many as a frame has at most.
fn first_bytes(bytes: &[u8]) -> &[u8]
    ensures first { result.now ≡ take 1472 bytes.now }
    ensures few { length result.now ≤ 1472 }
{
    let size = MAX_FRAME_LEN.min(bytes.len());
    &bytes[..size]
}

/// A frame of these bytes.
fn copy_of(bytes: &[u8]) -> Frame
    requires { length bytes.now ≤ 1472 }
    ensures { result.items ≡ bytes.now }
{
    let mut frame = Frame::new();
    let _ = frame.try_extend_from_slice(bytes);
    frame
}

/// Whether a frame of a start-up feeds a part: no other writes logical addresses.
fn feeds_part(frame: &[u8]) -> bool
    ensures { result ≡ feeds_part frame.now }
{
    frame.len() > ASKING
        && (frame[ASKING] == Command::Lwr.number() || frame[ASKING] == Command::Lrw.number())
}

/// Whether a frame of a start-up asks what the frame before it asked: only the names and the indices differ.
fn asks_again(last: &[u8], next: &[u8]) -> bool
    ensures { IsTrue result ↔ AsksAgain last.now next.now }
{
    last.len() == next.len()
        && last.len() > ASKING + INDEX
        && last[ASKING] == next[ASKING]
        && are_equal(&last[ASKING + INDEX + 1..], &next[ASKING + INDEX + 1..])
}

/// Whether two runs of bytes are equal.
fn are_equal(bytes: &[u8], others: &[u8]) -> bool
    ensures { IsTrue result ↔ (bytes.now ≡ others.now) }
{
    bytes == others
}

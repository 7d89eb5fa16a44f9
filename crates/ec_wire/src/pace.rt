//! How long a start-up rests between the polls of a wait.
ghost use Rattle.std.specs.Prelude.{◌≡◌};
ghost use Rattle.ec_wire.specs.Resting.{rest_behind};

use ec_frame::field::{FRAME_HEADER_LEN, INDEX, NAME_LEN, OVERHEAD};
use ec_frame::{Command, Frame};
use std::thread;
use std::time::{Clock, Duration};

/// The place of a frame's second datagram, behind the one that names the frame.
const ASKING: usize = FRAME_HEADER_LEN + OVERHEAD + NAME_LEN;

/// What a start-up does before it sends a frame.
pub trait Pace {
    /// Is called before each frame is sent.
    fn before(&mut self, frame: &Frame);
}

/// It sends frame after frame and never rests.
#[derive(Drop)]
pub struct Restless;

impl Pace for Restless {
    fn before(&mut self, _frame: &Frame) {}
}

/// It rests between two polls of one wait: not for the first 10, then 1 ms up to the 100th, then 10 ms.
#[derive(Drop)]
pub struct Resting<'c, C: Clock> {
    clock: &'c C,
    last: Frame,
    // how often the last frame was sent
    polls: u32,
}

impl<'c, C: Clock> Resting<'c, C> {
    /// A start-up that rests by this clock.
    pub fn new(clock: &'c C) -> Resting<'c, C> {
        Resting {
            clock,
            last: Frame::new(),
            polls: 0,
        }
    }
}

impl<C: Clock> Pace for Resting<'_, C> {
    fn before(&mut self, frame: &Frame) {
        // it belongs to the poll behind it
        if feeds_part(frame.as_slice()) {
            return;
        }
        if !asks_again(self.last.as_slice(), frame.as_slice()) {
            self.last.clear();
            let _ = self.last.try_extend_from_slice(frame.as_slice());
            self.polls = 1;
            return;
        }
        let millis = rest_behind(self.polls);
        self.polls = self.polls.saturating_add(1);
        if millis > 0 {
            thread::sleep(self.clock, Duration::from_millis(u64::from(millis)));
        }
    }
}

/// How many milliseconds a start-up rests behind so many polls of one wait.
fn rest_behind(polls: u32) -> u8
    ensures { result ≡ rest_behind polls }
{
    if polls < 10 {
        0
    } else if polls < 100 {
        1
    } else {
        10
    }
}

/// Whether a frame of a start-up feeds a part: no other has a logical command.
fn feeds_part(frame: &[u8]) -> bool {
    frame.len() > ASKING
        && (frame[ASKING] == Command::Lwr.number() || frame[ASKING] == Command::Lrw.number())
}

/// Whether a frame of a start-up asks what the frame before it asked: only the names and the indices differ.
fn asks_again(last: &[u8], next: &[u8]) -> bool {
    last.len() == next.len()
        && last.len() > ASKING + INDEX
        && last[ASKING] == next[ASKING]
        && last[ASKING + INDEX + 1..] == next[ASKING + INDEX + 1..]
}

//! The phase of a start-up, and what its calls return.

use crate::error::StartError;

/// How far a start-up is.
#[derive(Clone, Copy, Debug, PartialEq, Eq)]
pub enum Phase {
    /// It runs, and no frame is outstanding.
    Idle,
    /// It runs, and the frame of this number is outstanding.
    Sent(u64),
    /// It ended well: all slaves are in OP.
    Ready,
    /// It failed.
    Failed(StartError),
}

/// What `next` did.
#[derive(Clone, Copy, Debug, PartialEq, Eq)]
pub enum NextFrame {
    /// It wrote the next frame, which is to be sent.
    Send,
    /// It wrote nothing: the last frame is still outstanding.
    Waiting,
    /// It wrote nothing: the start-up has ended.
    Ended,
}

/// Whether a payload was accepted.
#[derive(Clone, Copy, Debug, PartialEq, Eq)]
pub enum Taken {
    /// It answers an outstanding frame, and was accepted.
    Accepted,
    /// It answers none, and nothing changed.
    Foreign,
}

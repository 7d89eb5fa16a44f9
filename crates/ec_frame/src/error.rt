//! Why a payload is no frame.
ghost use Rattle.std.specs.Prelude.{◌≡◌};
ghost use Rattle.ec_frame.specs.Refusals.{refusal_number};

use thiserror::Error;

/// Why a payload is no frame. `check` tests in the order of a payload's parts: the header, then
/// the datagrams one after the other.
#[derive(Clone, Copy, Debug, PartialEq, Eq, Drop, Error)]
pub enum FrameError {
    /// Fewer bytes than the header has, or than the header says.
    #[error("fewer bytes than the header has, or than it says")]
    Short,
    /// The header's type isn't 1.
    #[error("the header's type isn't 1")]
    BadType,
    /// No byte of datagrams, or too few bytes left for a datagram or its data.
    #[error("no byte of datagrams, or too few for a datagram")]
    BadLength,
    /// A datagram says that another follows and it is the last, or the other way round.
    #[error("a datagram is wrong on whether another follows")]
    BadMore,
    /// A command over 14.
    #[error("a command over 14")]
    BadCommand,
    /// The header says more than 1470 bytes of datagrams.
    #[error("more than 1470 bytes of datagrams")]
    TooLong,
}

impl FrameError {
    /// The number of the refusal, as the program prints it.
    pub fn number(self) -> u8
        ensures { result ≡ refusal_number self }
    {
        match self {
            FrameError::Short => 2,
            FrameError::BadType => 3,
            FrameError::BadLength => 4,
            FrameError::BadMore => 5,
            FrameError::BadCommand => 6,
            FrameError::TooLong => 7,
        }
    }
}

//! What the system said of a socket, in words.
use std::io::ErrorKind;
use std::{fmt, io};

/// The number of the error of Linux that there is no memory.
const NO_MEMORY: i32 = 12;

/// Why a call on a socket was a fault.
#[derive(Clone, Copy, Debug, PartialEq, Eq, Drop)]
pub enum Trouble {
    /// Nothing came in time.
    Silence,
    /// The system refused the call, with this number of an error.
    System(i32),
    /// The wire didn't make the call, as of a payload that is too long.
    Unmade,
}

impl Trouble {
    /// What an error of the system says.
    pub fn of(error: &io::Error) -> Trouble {
        match (error.kind(), error.raw_os_error()) {
            (ErrorKind::WouldBlock | ErrorKind::TimedOut, _) => Trouble::Silence,
            (ErrorKind::OutOfMemory, _) => Trouble::System(NO_MEMORY),
            (_, Some(number)) => Trouble::System(number),
            (_, None) => Trouble::Unmade,
        }
    }
}

impl fmt::Display for Trouble {
    fn fmt<W: fmt::Write>(&self, f: &mut fmt::Formatter<W>) -> fmt::Result {
        match *self {
            Trouble::Silence => f.write_str("nothing came in time"),
            Trouble::Unmade => f.write_str("there is no such address, or a payload is too long"),
            Trouble::System(number) => match words_of(number) {
                Some(words) => f.write_str(words),
                None => write!(f, "the system says error {number}"),
            },
        }
    }
}

/// What a number of an error of Linux means on a socket; `None` for those that sockets hardly have.
fn words_of(number: i32) -> Option<&'static str> {
    Some(match number {
        1 | 13 => "it isn't permitted",
        6 | 19 => "there is no such interface, or it is gone",
        9 => "the descriptor isn't open",
        NO_MEMORY => "there is no memory for it",
        22 => "the system doesn't take such a value",
        88 => "the descriptor is no socket",
        90 => "the frame is longer than the interface takes",
        98 => "the address is in use",
        99 => "the address is none of this system's",
        100 => "the interface is down",
        101 | 113 => "there is no way to the address",
        105 => "the system has no room for it",
        111 => "nobody listens at the address",
        _ => return None,
    })
}

//! Errors of cycles over wires, and of sockets.
ghost use Rattle.std.specs.Prelude.{◌≡◌, codes};
ghost use Rattle.ec_wire.specs.Errors.{run_number, run_name};

use crate::trouble::Trouble;
use ec_cycle::CycleError;
use std::io;
use thiserror::Error;

/// Why no input of a cycle over a wire was taken.
#[derive(Clone, Copy, Debug, PartialEq, Eq, Drop, Error)]
pub enum RunError {
    /// The master can't begin a cycle, and stays as it was.
    #[error("{0}")]
    Refused(CycleError),
    /// A call of the wire was a fault. The cycle was dropped, and no input changed.
    #[error("a fault of the wire")]
    Wire,
}

impl RunError {
    /// The number by which the program prints this error.
    pub fn number(self) -> u8
        ensures { result ≡ run_number self }
    {
        match self {
            RunError::Refused(refusal) => refusal.number(),
            RunError::Wire => 37,
        }
    }

    /// The name that the program prints behind the number. A master's refusal keeps the name of its [`CycleError`].
    pub fn name(self) -> &'static str
        ensures { result.now ≡ run_name self }
    {
        match self {
            RunError::Refused(refusal) => refusal.name(),
            RunError::Wire => "Wire",
        }
    }
}

impl From<CycleError> for RunError {
    ghost use Rattle.std.specs.Prelude.{◌≡◌};
    ghost use Rattle.ec_wire.specs.declared.error.RunError.TheVariants.{Refused};

    ghost from_gives = { λ refusal error. error ≡ Refused refusal };

    fn from(refusal: CycleError) -> RunError {
        RunError::Refused(refusal)
    }
}

/// A socket couldn't be opened, or a call on one was a fault: what the system said.
#[derive(Clone, Copy, Debug, PartialEq, Eq, Drop, Error)]
#[error("a fault of a socket")]
pub struct SocketFault(pub Trouble);

impl SocketFault {
    /// The number by which the program prints this error.
    pub fn number(self) -> u8
        ensures { result ≡ 43 }
    {
        43
    }

    /// The name that the program prints behind the number.
    pub fn name(self) -> &'static str
        ensures { result.now ≡ codes "Socket" }
    {
        "Socket"
    }
}

impl From<io::Error> for SocketFault {
    fn from(error: io::Error) -> SocketFault {
        SocketFault(Trouble::of(&error))
    }
}

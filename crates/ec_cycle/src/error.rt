//! Refusals of a master.
ghost use Rattle.std.specs.Prelude.{◌≡◌};
ghost use Rattle.ec_cycle.specs.Refusals.{refusal_number, refusal_name};

use thiserror::Error;

/// Why a master refused a call. A refused call changes nothing.
#[derive(Clone, Copy, Debug, PartialEq, Eq, Drop, Error)]
pub enum CycleError {
    /// No start-up of its plan has ended Ready.
    #[error("no start-up has ended ready")]
    NotReady,
    /// A cycle is open already.
    #[error("a cycle is open already")]
    Open,
    /// No cycle is open.
    #[error("no cycle is open")]
    NotOpen,
    /// The numbers of cycles are used up: the next one would be 2^64 - 1.
    #[error("the numbers of cycles are used up")]
    NumbersSpent,
}

impl CycleError {
    /// The number of the refusal, as the program prints it: 33 to 36.
    pub fn number(self) -> u8
        ensures { result ≡ refusal_number self }
    {
        match self {
            CycleError::NotReady => 33,
            CycleError::Open => 34,
            CycleError::NotOpen => 35,
            CycleError::NumbersSpent => 36,
        }
    }

    /// The name of the refusal, one word.
    pub fn name(self) -> &'static str
        ensures { result.now ≡ refusal_name self }
    {
        match self {
            CycleError::NotReady => "NotReady",
            CycleError::Open => "Open",
            CycleError::NotOpen => "NotOpen",
            CycleError::NumbersSpent => "NumbersSpent",
        }
    }
}

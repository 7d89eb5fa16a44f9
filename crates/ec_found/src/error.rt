//! Why what was found isn't printed.
use ec_link::MachineError;
use std::alloc::{AllocError, AllocFailed};
use thiserror::Error;

/// Why the text of a table isn't given out.
#[derive(Clone, Copy, Debug, PartialEq, Eq, Error)]
pub enum FoundError {
    /// Memory ran out.
    #[error("out of memory")]
    Memory,
    /// The slaves that were found have no plan together, or the text of their table isn't read: the first fault.
    #[error("{0}")]
    Refused(MachineError),
    /// The text reads as another slave than the one that was found at this place.
    #[error("slave {0} reads otherwise than it was found")]
    Otherwise(usize),
}

impl From<MachineError> for FoundError {
    ghost use Rattle.std.specs.Prelude.{◌≡◌};
    ghost use Rattle.ec_found.specs.declared.error.FoundError.TheVariants.{Refused};

    ghost from_gives = { λ error refusal. refusal ≡ Refused error };

    fn from(error: MachineError) -> FoundError {
        Self::Refused(error)
    }
}

impl From<AllocError> for FoundError {
    ghost use Rattle.std.specs.Prelude.{◌≡◌};
    ghost use Rattle.ec_found.specs.declared.error.FoundError.TheVariants.{Memory};

    ghost from_gives = { λ _ refusal. refusal ≡ Memory };

    fn from(_error: AllocError) -> FoundError {
        FoundError::Memory
    }
}

impl<T: Drop> From<AllocFailed<T>> for FoundError {
    ghost use Rattle.std.specs.Prelude.{◌≡◌};
    ghost use Rattle.ec_found.specs.declared.error.FoundError.TheVariants.{Memory};

    ghost from_gives = { λ _ refusal. refusal ≡ Memory };

    fn from(_error: AllocFailed<T>) -> FoundError {
        FoundError::Memory
    }
}

//! Why a scan fails.
use ec_start::StartError;
use std::alloc::{AllocError, AllocFailed};
use thiserror::Error;

/// Why a scan found nothing.
#[derive(Clone, Copy, Debug, PartialEq, Eq, Error)]
pub enum ScanError {
    /// Memory ran out.
    #[error("out of memory")]
    Memory,
    /// What a start-up would fail with, too. The step of a scan is the number of its frame.
    #[error("{0}")]
    Start(StartError),
}

impl From<StartError> for ScanError {
    ghost use Rattle.std.specs.Prelude.{◌≡◌};
    ghost use Rattle.ec_scan.specs.declared.error.ScanError.TheVariants.{Start};

    ghost from_gives = { λ error refusal. refusal ≡ Start error };

    fn from(error: StartError) -> ScanError {
        Self::Start(error)
    }
}

impl From<AllocError> for ScanError {
    ghost use Rattle.std.specs.Prelude.{◌≡◌};
    ghost use Rattle.ec_scan.specs.declared.error.ScanError.TheVariants.{Memory};

    ghost from_gives = { λ _ refusal. refusal ≡ Memory };

    fn from(_error: AllocError) -> ScanError {
        ScanError::Memory
    }
}

impl<T: Drop> From<AllocFailed<T>> for ScanError {
    ghost use Rattle.std.specs.Prelude.{◌≡◌};
    ghost use Rattle.ec_scan.specs.declared.error.ScanError.TheVariants.{Memory};

    ghost from_gives = { λ _ refusal. refusal ≡ Memory };

    fn from(_error: AllocFailed<T>) -> ScanError {
        ScanError::Memory
    }
}

//! Why an input gives no line, or no text.

use std::alloc::{AllocError, AllocFailed};
use std::io::{self, ErrorKind};
use thiserror::Error;

/// Why an input gives no line, or no text before a line `%%`.
#[derive(Clone, Copy, Debug, PartialEq, Eq, Drop, Error)]
pub enum LinesError {
    /// Memory ran out; what the input gives may be good or bad.
    #[error("out of memory")]
    Memory,
    /// A read was refused, or 2^64 - 1 reads gave no end.
    #[error("the input can't be read")]
    Unread,
    /// The text has more than `MAX_BYTES` bytes.
    #[error("the text is too long")]
    TooLong,
    /// The bytes aren't text in UTF-8.
    #[error("the bytes are no text")]
    NoText,
}

impl LinesError {
    ghost use Rattle.std.specs.Prelude.{◌≡◌};
    ghost use Rattle.std.specs.IoError.{error_kind};
    ghost use Rattle.ec_lines.specs.Inputs.{read_fault};

    /// The error for a read that gave `error` and wasn't interrupted.
    pub(crate) fn of_read(error: &io::Error) -> LinesError
        ensures { result ≡ read_fault (error_kind error.now) }
    {
        match error.kind() {
            ErrorKind::OutOfMemory => LinesError::Memory,
            _ => LinesError::Unread,
        }
    }
}

impl From<AllocError> for LinesError {
    ghost use Rattle.std.specs.Prelude.{◌≡◌};
    ghost use Rattle.ec_lines.specs.declared.error.LinesError.TheVariants.{Memory};

    ghost from_gives = { λ _ error. error ≡ Memory };

    fn from(_error: AllocError) -> LinesError {
        LinesError::Memory
    }
}

impl<T: Drop> From<AllocFailed<T>> for LinesError {
    ghost use Rattle.std.specs.Prelude.{◌≡◌};
    ghost use Rattle.ec_lines.specs.declared.error.LinesError.TheVariants.{Memory};

    ghost from_gives = { λ _ error. error ≡ Memory };

    fn from(_error: AllocFailed<T>) -> LinesError {
        LinesError::Memory
    }
}

//! Why a text was not read.
ghost use Rattle.std.specs.Prelude.{◌≡◌};
ghost use Rattle.ec_decode.specs.Reading.{error_name, error_number, error_line};

use std::alloc::{AllocError, AllocFailed};
use thiserror::Error;

/// Why a text of frames, or of lines of a script, was not read.
#[derive(Clone, Copy, Debug, PartialEq, Eq, Drop, Error)]
pub enum DecodeError {
    /// Memory ran out; the text may be good or bad.
    #[error("out of memory")]
    Memory,
    /// The number of the first line that is out of form.
    #[error("line {0} is out of form")]
    BadScript(usize),
}

impl DecodeError {
    /// The number of the refusal, 1 or 39.
    pub fn number(self) -> u8
        ensures { result ≡ error_number self }
    {
        match self {
            DecodeError::Memory => 1,
            DecodeError::BadScript(_) => 39,
        }
    }

    /// The name of the refusal, one word.
    pub fn name(self) -> &'static str
        ensures { result.now ≡ error_name self }
    {
        match self {
            DecodeError::Memory => "Memory",
            DecodeError::BadScript(_) => "BadScript",
        }
    }

    /// The number of the bad line; memory has none.
    pub fn line(self) -> Option<usize>
        ensures { result ≡ error_line self }
    {
        match self {
            DecodeError::Memory => None,
            DecodeError::BadScript(line) => Some(line),
        }
    }
}

impl From<AllocError> for DecodeError {
    ghost use Rattle.ec_decode.specs.declared.error.DecodeError.TheVariants.{Memory};

    ghost from_gives = { λ _ e. e ≡ Memory };

    fn from(_e: AllocError) -> DecodeError {
        DecodeError::Memory
    }
}

impl<T: Drop> From<AllocFailed<T>> for DecodeError {
    ghost use Rattle.ec_decode.specs.declared.error.DecodeError.TheVariants.{Memory};

    ghost from_gives = { λ _ e. e ≡ Memory };

    fn from(_e: AllocFailed<T>) -> DecodeError {
        DecodeError::Memory
    }
}

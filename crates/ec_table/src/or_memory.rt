//! Why there is no result: memory ran out, or the first fault.
ghost use Rattle.std.specs.Prelude.{◌≡◌, codes};
ghost use Rattle.ec_table.specs.Errors.{fault_of, or_memory};

use std::alloc::{AllocError, AllocFailed};
use std::fmt::Display;
use thiserror::Error;

/// A fault that refuses an input.
pub trait Refusing: Display {
    ghost use Rattle.std.specs.Prelude.{List, ℕ};

    /// The number of the refusal.
    ghost number_of: { Self → ℕ };

    /// Its name.
    ghost name_of: { Self → List ℕ };

    /// The number of the refusal.
    fn refusal_number(self) -> u8
        ensures { result ≡ number_of self };

    /// The name of the refusal, one word.
    fn refusal_name(self) -> &'static str
        ensures { result.now ≡ name_of self };
}

/// Why there is no result.
#[derive(Clone, Copy, Debug, PartialEq, Eq, Error)]
pub enum OrMemory<F: Display> {
    /// Memory ran out; the input may be good or bad.
    #[error("out of memory")]
    Memory,
    /// The first fault of the input.
    #[error("{0}")]
    Refused(F),
}

impl<F: Refusing> OrMemory<F> {
    /// The number of the refusal: 1 for memory, else the fault's.
    pub fn number(self) -> u8
        ensures { result ≡ or_memory 1 F.number_of self }
    {
        match self {
            OrMemory::Memory => 1,
            OrMemory::Refused(fault) => fault.refusal_number(),
        }
    }

    /// The name of the refusal, one word.
    pub fn name(self) -> &'static str
        ensures { result.now ≡ or_memory (codes "Memory") F.name_of self }
    {
        match self {
            OrMemory::Memory => "Memory",
            OrMemory::Refused(fault) => fault.refusal_name(),
        }
    }

    /// The fault; none if memory ran out.
    pub fn fault(self) -> Option<F>
        ensures { result ≡ fault_of self }
    {
        match self {
            OrMemory::Memory => None,
            OrMemory::Refused(fault) => Some(fault),
        }
    }
}

impl<F: Display> From<AllocError> for OrMemory<F> {
    ghost use Rattle.ec_table.specs.declared.or_memory.OrMemory.TheVariants.{Memory};

    ghost from_gives = { λ _ e. e ≡ Memory };

    fn from(_e: AllocError) -> OrMemory<F> {
        OrMemory::Memory
    }
}

impl<F: Display, T: Drop> From<AllocFailed<T>> for OrMemory<F> {
    ghost use Rattle.ec_table.specs.declared.or_memory.OrMemory.TheVariants.{Memory};

    ghost from_gives = { λ _ e. e ≡ Memory };

    fn from(_e: AllocFailed<T>) -> OrMemory<F> {
        OrMemory::Memory
    }
}

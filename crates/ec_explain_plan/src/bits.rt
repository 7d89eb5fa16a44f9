//! Runs of bits.
use std::fmt;

/// Consecutive bits. They are printed as `bit 4` or `bits 4 to 7`.
#[derive(Clone, Copy)]
pub struct Run {
    first: u8,
    count: u8,
}

impl Run {
    /// The `count` bits that begin with the bit `first`.
    pub fn new(first: u8, count: u8) -> Run {
        Run { first, count }
    }

    /// The first bit behind them.
    pub fn end(self) -> usize {
        usize::from(self.first).saturating_add(usize::from(self.count))
    }

    /// Whether they share a bit with others.
    pub fn meets(self, other: Run) -> bool {
        usize::from(self.first) < other.end() && usize::from(other.first) < self.end()
    }

    /// The verb that goes with them.
    pub fn verb(self) -> &'static str {
        if self.count == 1 { "is" } else { "are" }
    }
}

impl fmt::Display for Run {
    fn fmt<W: fmt::Write>(&self, f: &mut fmt::Formatter<W>) -> fmt::Result {
        let (first, last) = (self.first, self.end().saturating_sub(1));
        if usize::from(first) == last {
            write!(f, "bit {first}")
        } else {
            write!(f, "bits {first} to {last}")
        }
    }
}

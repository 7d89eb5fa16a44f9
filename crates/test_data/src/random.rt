//! Numbers that a seed decides.
ghost use Rattle.std.specs.Prelude.{◌<◌, ◌≡◌};

use rand_core::Rng;
use rand_pcg::Pcg32;

/// A source of numbers that a seed decides.
#[derive(Drop)]
pub struct Random {
    words: Pcg32,
}

impl Random {
    /// The source of a seed.
    pub fn new(seed: u64) -> Random {
        Random {
            words: Pcg32::new(seed, 54),
        }
    }

    /// A number below a limit.
    pub fn below(&mut self, limit: u32) -> u32
        requires { 0 < limit }
        ensures { result < limit }
    {
        self.words.next_u32() % limit
    }

    /// A place below a limit; 0 where the limit is 0.
    pub fn place(&mut self, limit: usize) -> usize
        ensures below { 0 < limit → result < limit }
        ensures zero { limit ≡ 0 → result ≡ 0 }
    {
        let word = self.words.next_u32() as usize;
        word.checked_rem(limit).unwrap_or(0)
    }

    /// Any byte.
    pub fn byte(&mut self) -> u8 {
        self.below(256) as u8
    }

    /// Any number of 32 bits.
    pub fn word(&mut self) -> u32 {
        self.words.next_u32()
    }

    /// True in so many of a hundred cases.
    pub fn in_hundred(&mut self, cases: u32) -> bool {
        self.below(100) < cases
    }
}

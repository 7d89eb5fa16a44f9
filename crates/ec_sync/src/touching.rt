//! What a datagram touches, and what it writes there.

ghost use Rattle.std.specs.Prelude.{◌≡◌, ◌+◌, ◌-◌, ◌<◌, ◌≤◌, length, true};
ghost use Rattle.ec_bits.specs.Bits.{within};
ghost use Rattle.ec_regs.specs.Memory.{ram_end};

use ec_bits::within;

/// An access of the ring to a slave's memory: which bytes one datagram touches.
pub trait Touching {
    ghost use Rattle.std.specs.Prelude.{ℕ, Bool};

    /// Whether it touches the byte at an address.
    ghost touched: { Self → ℕ → Bool };

    /// Whether it touches the byte at an address of the memory.
    fn touches(&self, address: usize) -> bool
        requires { address < ram_end }
        ensures { result ≡ touched self.now address };
}

/// An access that writes.
pub trait Writing: Touching {
    ghost use Rattle.std.specs.Prelude.{ℕ, List, false, slice_index};

    /// The value that it leaves in bytes that begin at an address, if it touches the first and the last of them.
    ghost written: { Self → ℕ → ℕ → List ℕ };

    /// Fills a value that begins at `start`, whatever stands there: 0 in each byte that it does not touch.
    fn fill(&self, start: usize, value: &mut [u8])
        requires some { 0 < length value.old }
        requires inside { start + length value.old ≤ ram_end }
        requires first { Self.touched self.now start ≡ true }
        requires last { Self.touched self.now (start + length value.old - 1) ≡ true }
        ensures { value.new ≡ written self.now start (length value.old) };

    /// A byte that it does not touch is 0.
    ghost zero_untouched: { (w : Self) (start len k : ℕ) → Self.touched w start ≡ true
        → Self.touched w (start + len - 1) ≡ true → k < len → Self.touched w (start + k) ≡ false
        → slice_index (written w start len) k ≡ 0 };
}

/// The `len` bytes that begin at `from`, as a physical datagram reads them.
#[derive(Clone, Copy, Debug)]
pub struct Reach {
    /// The first address.
    pub from: usize,
    /// How many bytes.
    pub len: usize,
}

impl Touching for Reach {
    ghost touched = { λ r a. within r.from r.len a };

    fn touches(&self, address: usize) -> bool {
        within(self.from, self.len, address)
    }
}

//! A run: logical bits and, one by one, the physical bits that they stand for.

ghost use Rattle.std.specs.Prelude.{ℕ, true, ◌≡◌, ◌<◌, ◌≤◌, ◌+◌, ◌-◌, ◌^◌, IfSome};
ghost use Rattle.ec_bits.specs.Bits.{within};
ghost use Rattle.ec_fmmu.specs.Modes.{IsInRam, run_touches};

/// Logical bits and, one by one, the physical bits that they stand for.
#[derive(Clone, Copy)]
pub(crate) struct Run {
    pub(crate) logical: u64,
    pub(crate) physical: u64,
    pub(crate) count: u64,
}

impl Run {
    /// Whether one of its pairs leads one of the `bits` logical bits that begin at `from` to a byte.
    pub(crate) fn touches(&self, from: u64, bits: u64, address: u16) -> bool
        requires { IsInRam self.now }
        ensures { result ≡ run_touches self.now (record { from = from; bits = bits }) address }
    {
        let first = self.logical.max(from);
        let end = (self.logical + self.count).min(from.saturating_add(bits));
        if end <= first {
            return false;
        }
        let low = self.physical + (first - self.logical);
        let high = self.physical + (end - 1 - self.logical);
        let byte = u64::from(address);
        if byte < low / 8 {
            return false;
        }
        if high / 8 < byte {
            return false;
        }
        true
    }

    /// The first of `count` data bits that its pairs bring, one after the other, to the `count`
    /// physical bits that begin at `physical`. The data bits are the `bits` logical bits that begin
    /// at `from`. None if they don't bring all of them.
    pub(crate) fn source(&self, from: u64, bits: u64, physical: u32, count: u32) -> Option<usize>
        requires inside { IsInRam self.now }
        requires fits { from + bits < 2 ^ 64 }
        ensures inside { IfSome result (λ at. at + count ≤ bits) }
        ensures pairs { IfSome result (λ at. (q : ℕ) → physical ≤ q → q < physical + count
            → (within self.now.physical self.now.count q ≡ true)
            × (within from bits (self.now.logical + (q - self.now.physical)) ≡ true)
            × (self.now.logical + (q - self.now.physical) ≡ from + (at + (q - physical)))) }
    {
        let first = u64::from(physical);
        let end = first + u64::from(count);
        if first < self.physical || self.physical + self.count < end {
            return None;
        }
        let logical = self.logical + (first - self.physical);
        if logical < from || from + bits < logical + u64::from(count) {
            return None;
        }
        Some((logical - from) as usize)
    }
}

//! Bits of byte slices: bit `8 * k + j` is bit `j` of byte `k`, the lowest first.
//!
//! Each call changes the bits that it names and no other. The caller must pass a range inside its
//! slice, whose end, counted in bits, fits a `usize`. A slice of less
//! than `2^61` bytes has only such ranges. The definitions that the contracts cite stand in
//! `specs/Bits.antt`, and the module [`laws`] says what follows from them.
#![tactic(auto)]

mod by_words;
mod copying;
mod fields;
pub mod laws;

ghost use Rattle.std.specs.Prelude.{◌≡◌, ◌<◌, ◌≤◌, ◌*◌, ◌^◌, nat_lt, length, is_some};
ghost use Rattle.ec_bits.specs.Bits.{bit, put as with_put, overwrite as with_overwrite, within as is_within};

pub use crate::by_words::{copy_by_words, copy_slice};
pub use crate::copying::copy_bits;
pub use crate::fields::{read_bits, write_bits};

/// Whether a number has at most `bits` bits.
pub fn is_short(value: u64, bits: u8) -> bool
    requires { bits ≤ 64 }
    ensures { result ≡ nat_lt value (2 ^ bits) }
{
    bits == 64 || value < 1u64 << bits
}

/// Whether `at` is one of the `count` numbers that begin at `from`.
pub fn within(from: usize, count: usize, at: usize) -> bool
    ensures { result ≡ is_within from count at }
{
    from <= at && at - from < count
}

/// The bit at an index.
pub fn get(bytes: &[u8], index: usize) -> bool
    requires { index < 8 * length bytes.now }
    ensures { result ≡ bit bytes.now index }
{
    (bytes[index / 8] >> (index % 8)) & 1 == 1
}

/// Sets the bit at an index.
pub fn put(bytes: &mut [u8], index: usize, value: bool)
    requires { index < 8 * length bytes.old }
    ensures { bytes.new ≡ with_put bytes.old index value }
{
    let mask = 1u8 << (index % 8);
    if value {
        bytes[index / 8] |= mask;
    } else {
        bytes[index / 8] &= !mask;
    }
}

/// Sets the bit at an index if the overlay has one there, and returns whether it has.
pub fn overwrite(bytes: &mut [u8], index: usize, value: Option<bool>) -> bool
    requires { index < 8 * length bytes.old }
    ensures updated { result ≡ is_some value }
    ensures written { bytes.new ≡ with_overwrite bytes.old index value }
{
    match value {
        Some(value) => {
            put(bytes, index, value);
            true
        }
        None => false,
    }
}

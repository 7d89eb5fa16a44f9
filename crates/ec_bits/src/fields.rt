//! Numbers in bits, least significant first.
ghost use Rattle.std.specs.Prelude.{◌≡◌, ◌<◌, ◌≤◌, ◌+◌, ◌*◌, ◌^◌, length};
ghost use Rattle.ec_bits.specs.Bits.{bits_number, with_number};

use crate::copy_bits;

/// The number in the `count` bits that begin at `from`, at most 64: bit `from + i` counts `2^i`. The end
/// of the run, counted in bits, fits a `usize`.
#[tactic(auto, using(crate::proofs::Slices::number_of_copy))]
pub fn read_bits(bytes: &[u8], from: usize, count: usize) -> u64
    requires at_most_64 { count ≤ 64 }
    requires inside { from + count ≤ 8 * length bytes.now }
    requires fits { from + count < 2 ^ 64 }
    ensures { result ≡ bits_number bytes.now from count }
{
    let mut eight = [0; 8];
    copy_bits(&mut eight, 0, bytes, from, count);
    u64::from_le_bytes(eight)
}

/// Sets the `count` bits that begin at `from`, at most 64, to the low bits of `number`. The end of the
/// run, counted in bits, fits a `usize`.
#[tactic(auto, using(crate::proofs::Slices::number_copied))]
pub fn write_bits(bytes: &mut [u8], from: usize, count: usize, number: u64)
    requires at_most_64 { count ≤ 64 }
    requires inside { from + count ≤ 8 * length bytes.old }
    requires fits { from + count < 2 ^ 64 }
    ensures { bytes.new ≡ with_number bytes.old from count number }
{
    copy_bits(bytes, from, &number.to_le_bytes(), 0, count);
}

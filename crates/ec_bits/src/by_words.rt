//! Copies of bits by words of 64.
ghost use Rattle.std.specs.Prelude.{◌≡◌, ◌<◌, ◌≤◌, ◌+◌, ◌-◌, ◌*◌, ◌^◌, ℕ, length, nat_lt, slice_index, if◌then◌else◌};
ghost use Rattle.std.specs.Int.{bit_at, from_bool};
ghost use Rattle.ec_bits.specs.Bits.{bit, with_number, copied};

use crate::copying::{copy_part, shift_bytes};

/// Copies `count` bytes, which begin at `start` in `src` and at `at` in `dst`, at once. It does to
/// their bits what [`copy_bits`] does.
///
/// [`copy_bits`]: crate::copy_bits
pub fn copy_slice(dst: &mut [u8], at: usize, src: &[u8], start: usize, count: usize)
    requires inside { at + count ≤ length dst.old }
    requires there { start + count ≤ length src.now }
    ensures { dst.new ≡ copied dst.old (8 * at) src.now (8 * start) (8 * count) }
{
    paste_slice(dst, at, src, start, count);
}

/// Copies `count` bits, which begin at `from` in `src` and at `to` in `dst`, as [`copy_bits`]
/// does, by whole slices and by words of eight bytes. In the usual case, whole bytes of `dst`, it
/// copies no ends apart. The ends of both runs, counted in bits, fit a `usize`.
///
/// [`copy_bits`]: crate::copy_bits
pub fn copy_by_words(dst: &mut [u8], to: usize, src: &[u8], from: usize, count: usize)
    requires inside { to + count ≤ 8 * length dst.old }
    requires there { from + count ≤ 8 * length src.now }
    requires to_fits { to + count < 2 ^ 64 }
    requires from_fits { from + count < 2 ^ 64 }
    ensures { dst.new ≡ copied dst.old to src.now from count }
{
    if to % 8 == 0 && count % 8 == 0 {
        move_bytes(dst, to / 8, src, from, count / 8);
        return;
    }
    let head = ((8 - to % 8) % 8).min(count);
    let whole = (count - head) / 8;
    let done = head + 8 * whole;
    copy_part(dst, to, src, from, head);
    move_bytes(dst, (to + head) / 8, src, from + head, whole);
    copy_part(dst, to + done, src, from + done, count - done);
}

/// Writes bytes over bytes.
fn paste_slice(dst: &mut [u8], at: usize, src: &[u8], start: usize, count: usize)
    requires inside { at + count ≤ length dst.old }
    requires there { start + count ≤ length src.now }
    requires small { (k : ℕ) → slice_index dst.old k < 256 }
    ensures { dst.new ≡ copied dst.old (8 * at) src.now (8 * start) (8 * count) }
{
    dst[at..at + count].copy_from_slice(&src[start..start + count]);
}

/// Writes a number over the 64 bits that begin with a byte.
#[inline(always)]
fn put_word(dst: &mut [u8], at: usize, word: u64)
    requires { at + 8 ≤ length dst.old }
    ensures { dst.new ≡ with_number dst.old (8 * at) 64 word }
{
    set_word(dst, at, word);
}

/// Writes a number over the 64 bits that begin with a byte.
#[inline(always)]
fn set_word(dst: &mut [u8], at: usize, word: u64)
    requires inside { at + 8 ≤ length dst.old }
    requires small { (k : ℕ) → slice_index dst.old k < 256 }
    ensures { dst.new ≡ with_number dst.old (8 * at) 64 word }
{
    dst[at..at + 8].copy_from_slice(&word.to_le_bytes());
}

/// The 64 bits that begin with a byte, as a number.
#[inline(always)]
fn word_at(bytes: &[u8], at: usize) -> u64
    requires { at + 8 ≤ length bytes.now }
    ensures { (i : ℕ) → i < 64 → bit_at result i ≡ from_bool (bit bytes.now (8 * at + i)) }
{
    let mut eight = [0; 8];
    eight.copy_from_slice(&bytes[at..at + 8]);
    u64::from_le_bytes(eight)
}

/// Copies whole bytes of `dst`.
fn move_bytes(dst: &mut [u8], at: usize, src: &[u8], from: usize, count: usize)
    requires inside { at + count ≤ length dst.old }
    requires there { from + 8 * count ≤ 8 * length src.now }
    ensures { dst.new ≡ copied dst.old (8 * at) src.now from (8 * count) }
{
    if from % 8 == 0 {
        copy_slice(dst, at, src, from / 8, count);
    } else if count > 0 {
        shift_run(dst, at, src, from / 8, from % 8, count);
    }
}

/// Copies whole bytes of `dst` from bits that begin inside a byte of `src`. Both parts are cut
/// first, so that the loop has no ranges of its own and the compiler makes it wide.
fn shift_run(dst: &mut [u8], at: usize, src: &[u8], start: usize, shift: usize, count: usize)
    requires some { 0 < shift }
    requires small { shift < 8 }
    requires inside { at + count ≤ length dst.old }
    requires there { start + count < length src.now }
    ensures { dst.new ≡ copied dst.old (8 * at) src.now (8 * start + shift) (8 * count) }
{
    shift_over(&mut dst[at..at + count], &src[start..], shift);
}

/// Fills `dst` with the bits of `src` that begin at a place inside its first byte. Each of the seven
/// shifts has a loop of its own: a turn takes a quarter less time if the shift stands in the code
/// than if it is an argument.
fn shift_over(dst: &mut [u8], src: &[u8], shift: usize)
    requires some { 0 < shift }
    requires small { shift < 8 }
    requires there { length dst.old < length src.now }
    ensures { dst.new ≡ copied dst.old 0 src.now shift (8 * length dst.old) }
{
    match shift {
        1 => shift_all(dst, src, 1),
        2 => shift_all(dst, src, 2),
        3 => shift_all(dst, src, 3),
        4 => shift_all(dst, src, 4),
        5 => shift_all(dst, src, 5),
        6 => shift_all(dst, src, 6),
        _ => shift_all(dst, src, 7),
    }
}

/// Fills `dst` with the bits of `src` that begin at a place inside its first byte.
#[inline(always)]
fn shift_all(dst: &mut [u8], src: &[u8], shift: usize)
    requires some { 0 < shift }
    requires small { shift < 8 }
    requires there { length dst.old < length src.now }
    ensures { dst.new ≡ copied dst.old 0 src.now shift (8 * length dst.old) }
{
    for w in 0..dst.len() / 8 {
        shift_word(dst, 8 * w, src, 8 * w, shift);
    }
    let done = 8 * (dst.len() / 8);
    shift_bytes(dst, done, src, done, shift, dst.len() - done);
}

/// Copies 64 bits that begin with a byte of `dst` and inside a byte of `src`.
#[inline(always)]
fn shift_word(dst: &mut [u8], at: usize, src: &[u8], start: usize, shift: usize)
    requires some { 0 < shift }
    requires small { shift < 8 }
    requires inside { at + 8 ≤ length dst.old }
    requires there { start + 8 < length src.now }
    ensures { dst.new ≡ copied dst.old (8 * at) src.now (8 * start + shift) 64 }
{
    let low = word_at(src, start);
    let high = word_at(src, start + 1);
    put_word(dst, at, shifted_word(low, high, shift));
}

/// The 64 bits that begin at a place inside the first of two words, which are a byte apart.
#[inline(always)]
fn shifted_word(low: u64, high: u64, shift: usize) -> u64
    requires some { 0 < shift }
    requires inside { shift < 8 }
    requires apart { (i : ℕ) → 8 ≤ i → i < 64 → bit_at low i ≡ bit_at high (i - 8) }
    ensures { (i : ℕ) → i < 64 → bit_at result i ≡ (if nat_lt i (64 - shift) then bit_at low (shift + i) else bit_at high (shift + i - 8)) }
{
    (low >> shift) | (high << (8 - shift))
}

//! Values of variables as words of a line write them.
ghost use Rattle.std.specs.Prelude.{◌≡◌, ◌≤◌};
ghost use Rattle.std.specs.Option.{option_map};
ghost use Rattle.ec_script.specs.Words.{bounds_of, held_in, hex_of, is_range, negative_of, plain_of, positive_of, value_of};

use crate::words::number_of;
use ec_bits::is_short;

/// What a word writes as the value of a variable.
#[derive(Clone, Copy, Debug, PartialEq, Eq, Drop)]
pub enum WrittenValue {
    /// This number, which may be greater than the variable's bits hold.
    Number(u64),
    /// A number that has no two's complement in the variable's bits: one below 0, or of a signed variable one that is too great.
    Outside,
}

/// The number that a word of hex digits writes.
pub fn hex_of(word: &str) -> Option<u64>
    ensures { result ≡ hex_of word.now }
{
    let first = word.as_bytes().first().copied().unwrap_or(b'+');
    if first == b'+' {
        return None;
    }
    u64::from_str_radix(word, 16).ok()
}

/// The value that a word writes for a variable of `bits` bits, which is signed or not. It is a number in decimal, or `0x` and the value's bits
/// in hex digits, or `-` and decimal digits. `None` if the word writes none.
pub fn value_of(signed: bool, bits: u8, word: &str) -> Option<WrittenValue>
    requires some { 1 ≤ bits }
    requires few { bits ≤ 64 }
    ensures { result ≡ value_of signed bits word.now }
{
    match word.strip_prefix('-') {
        Some(digits) => Some(negative_of(bits, number_of(digits)?)),
        None => plain_of(signed, bits, word),
    }
}

/// The two's complement of `-n` in `bits` bits; `Outside` if it has none.
fn negative_of(bits: u8, n: u64) -> WrittenValue
    requires some { 1 ≤ bits }
    requires few { bits ≤ 64 }
    ensures { result ≡ negative_of bits n }
{
    let half = 1u64 << (bits - 1);
    if n == 0 {
        WrittenValue::Number(0)
    } else if n <= half {
        WrittenValue::Number(half - n + half)
    } else {
        WrittenValue::Outside
    }
}

/// The value of a number without a sign in `bits` bits; `Outside` if it needs the bit that is the sign of a signed one.
fn positive_of(signed: bool, bits: u8, n: u64) -> WrittenValue
    requires some { 1 ≤ bits }
    requires few { bits ≤ 64 }
    ensures { result ≡ positive_of signed bits n }
{
    if signed && n >= 1u64 << (bits - 1) {
        WrittenValue::Outside
    } else {
        WrittenValue::Number(n)
    }
}

/// What a word writes without a sign: a number in decimal, or `0x` and bits in hex digits.
fn plain_of(signed: bool, bits: u8, word: &str) -> Option<WrittenValue>
    requires some { 1 ≤ bits }
    requires few { bits ≤ 64 }
    ensures { result ≡ plain_of signed bits word.now }
{
    match word.strip_prefix("0x") {
        Some(digits) => Some(WrittenValue::Number(hex_of(digits)?)),
        None => Some(positive_of(signed, bits, number_of(word)?)),
    }
}

/// The number that is written, if this many bits hold it.
pub fn held_in(bits: u8, value: WrittenValue) -> Option<u64>
    requires { bits ≤ 64 }
    ensures { result ≡ held_in bits value }
{
    match value {
        WrittenValue::Number(number) if is_short(number, bits) => Some(number),
        WrittenValue::Number(_) | WrittenValue::Outside => None,
    }
}

/// What stands before and behind the first `.` of a word, if it is two of them; else `None`.
pub fn bounds_of(word: &str) -> Option<(&str, &str)>
    ensures { option_map (λ x. (x.0.now, x.1.now)) result ≡ bounds_of word.now }
{
    match word.split_once('.') {
        Some((low, rest)) => match rest.strip_prefix('.') {
            Some(high) => Some((low, high)),
            None => None,
        },
        None => None,
    }
}

/// Whether a word is two with `..` between them.
pub fn is_range(word: &str) -> bool
    ensures { result ≡ is_range word.now }
{
    bounds_of(word).is_some()
}

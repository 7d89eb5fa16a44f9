//! What words of a script write.
ghost use Rattle.std.specs.Prelude.{◌≡◌};
ghost use Rattle.ec_script.specs.Words.{byte_of, code_of, number_of, times_of};

use crate::value::hex_of;

/// The number that a word writes: decimal digits, and no sign.
pub fn number_of(word: &str) -> Option<u64>
    ensures { result ≡ number_of word.now }
{
    let first = word.as_bytes().first().copied().unwrap_or(b'+');
    if first == b'+' {
        return None;
    }
    word.parse().ok()
}

/// The byte that a word writes.
pub fn byte_of(word: &str) -> Option<u8>
    ensures { result ≡ byte_of word.now }
{
    u8::try_from(number_of(word)?).ok()
}

/// The 16-bit number that a word of four hex digits writes.
pub fn code_of(word: &str) -> Option<u16>
    ensures { result ≡ code_of word.now }
{
    if word.len() != 4 {
        return None;
    }
    u16::try_from(hex_of(word)?).ok()
}

/// The count that a word behind `repeat` writes: 1 to 1,000,000.
pub fn times_of(word: &str) -> Option<u32>
    ensures { result ≡ times_of word.now }
{
    let times = number_of(word)?;
    if times == 0 || times > 1_000_000 {
        return None;
    }
    Some(times as u32)
}

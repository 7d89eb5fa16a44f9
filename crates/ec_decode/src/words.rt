//! The words of a line, and what they write.
ghost use Rattle.std.specs.Prelude.{◌≡◌, ◌<◌, map, IfOk, IfSome, option_map};
ghost use Rattle.ec_decode.specs.Words.{address_in, bits_in, bytes_in, command_in, counter_in, data_in, hex_in, number_in, physical_in, words_of};

use crate::datagram::is_logical;
use ec_frame::{Command, address_of};
use hex::{FromHex, FromHexError};
use std::alloc::{AllocError, Global};

/// The words of a line, which stand between single blanks.
pub(crate) fn words_of<'a>(alloc: Global, line: &'a str) -> Result<Vec<&'a str>, AllocError>
    ensures { IfOk result (λ v. map (λ x. x.now) v.items ≡ words_of line.now) }
{
    line.split(' ').collect(alloc)
}

/// The number that a word writes: decimal digits, and no sign.
pub(crate) fn number_in(word: &str) -> Option<u64>
    ensures { result ≡ number_in word.now }
{
    let first = word.as_bytes().first().copied().unwrap_or(b'+');
    if first == b'+' {
        return None;
    }
    word.parse().ok()
}

/// The working counter that a word writes.
#[tactic(auto, unfolding(crate::specs::Words::counter_in))]
pub(crate) fn counter_in(word: &str) -> Option<u16>
    ensures { result ≡ counter_in word.now }
{
    u16::try_from(number_in(word)?).ok()
}

/// The three reserved bits that a word writes as a number.
#[tactic(auto, unfolding(crate::specs::Words::bits_in))]
pub(crate) fn bits_in(word: &str) -> Option<u8>
    ensures value { result ≡ bits_in word.now }
    ensures few { IfSome result (λ bits. bits < 8) }
{
    let bits = number_in(word)?;
    if bits < 8 { Some(bits as u8) } else { None }
}

/// The byte that a word writes in two hex digits.
pub(crate) fn byte_in(word: &str) -> Option<u8>
    ensures { result ≡ hex_in 1 word.now }
{
    <[u8; 1]>::from_hex(word).ok().map(u8::from_be_bytes)
}

/// The word of 16 bits that a word writes in four hex digits.
pub(crate) fn word_in(word: &str) -> Option<u16>
    ensures { result ≡ hex_in 2 word.now }
{
    <[u8; 2]>::from_hex(word).ok().map(u16::from_be_bytes)
}

/// The address of a command that two words write: how it is meant, and the digits.
#[tactic(auto, unfolding(crate::specs::Words::address_in))]
pub(crate) fn address_in(command: Command, how: &str, word: &str) -> Option<u32>
    ensures { result ≡ address_in command how.now word.now }
{
    match (is_logical(command), how) {
        (true, "logical") => long_in(word),
        (false, "at") => physical_in(word),
        _ => None,
    }
}

/// The bytes that a word writes, one at least.
#[tactic(auto, unfolding(crate::specs::Words::bytes_in))]
pub(crate) fn bytes_in(alloc: Global, word: &str) -> Result<Option<Vec<u8>>, AllocError>
    ensures { IfOk result (λ bytes. option_map (λ v. v.items) bytes ≡ bytes_in word.now) }
{
    if word.is_empty() {
        return Ok(None);
    }
    match hex::decode(alloc, word) {
        Ok(bytes) => Ok(Some(bytes)),
        Err(FromHexError::OutOfMemory) => Err(AllocError),
        Err(_) => Ok(None),
    }
}

/// The bytes that a word writes, and none for a dash.
#[tactic(auto, unfolding(crate::specs::Words::data_in))]
pub(crate) fn data_in(alloc: Global, word: &str) -> Result<Option<Vec<u8>>, AllocError>
    ensures { IfOk result (λ bytes. option_map (λ v. v.items) bytes ≡ data_in word.now) }
{
    if word == "-" {
        return Ok(Some(Vec::new(alloc)));
    }
    bytes_in(alloc, word)
}

/// The command of a name.
#[tactic(auto, unfolding(crate::specs::Words::command_in))]
pub(crate) fn command_in(word: &str) -> Option<Command>
    ensures { result ≡ command_in word.now }
{
    Some(match word {
        "NOP" => Command::Nop,
        "APRD" => Command::Aprd,
        "APWR" => Command::Apwr,
        "APRW" => Command::Aprw,
        "FPRD" => Command::Fprd,
        "FPWR" => Command::Fpwr,
        "FPRW" => Command::Fprw,
        "BRD" => Command::Brd,
        "BWR" => Command::Bwr,
        "BRW" => Command::Brw,
        "LRD" => Command::Lrd,
        "LWR" => Command::Lwr,
        "LRW" => Command::Lrw,
        "ARMW" => Command::Armw,
        "FRMW" => Command::Frmw,
        _ => return None,
    })
}

/// The address that a word writes as ADP and ADO, with a colon between them.
#[tactic(auto, unfolding(crate::specs::Words::physical_in))]
fn physical_in(word: &str) -> Option<u32>
    ensures { result ≡ physical_in word.now }
{
    let (adp, ado) = word.split_once(':')?;
    Some(address_of(word_in(adp)?, word_in(ado)?))
}

/// The number that a word writes in eight hex digits.
fn long_in(word: &str) -> Option<u32>
    ensures { result ≡ hex_in 4 word.now }
{
    <[u8; 4]>::from_hex(word).ok().map(u32::from_be_bytes)
}

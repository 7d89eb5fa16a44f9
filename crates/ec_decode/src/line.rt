//! What the line of a frame and the line of a datagram stand for.
ghost use Rattle.std.specs.Prelude.{◌≡◌, ◌<◌, map, IfOk, IfSome, option_map};
ghost use Rattle.ec_decode.specs.Lines.{datagram_in, fields_in, flag_in, heading_in, option_in, rest_in, tail_in};
ghost use Rattle.ec_decode.specs.Stating.{datagram_of, heading_of, with_rest, with_word};
ghost use Rattle.ec_decode.specs.Words.{bits_in, hex_in};

use crate::words::{
    address_in, bits_in, byte_in, bytes_in, command_in, counter_in, data_in, number_in, word_in,
};
use ec_frame::Command;
use std::alloc::{AllocError, Global};

/// A datagram's fields before its data.
#[derive(Clone, Copy)]
pub(crate) struct Fields {
    pub(crate) command: Command,
    pub(crate) index: u8,
    pub(crate) address: u32,
    pub(crate) irq: u16,
    pub(crate) reserved: u8,
    pub(crate) circulating: bool,
}

/// A datagram that a line states.
#[derive(Drop)]
pub(crate) struct Stated {
    pub(crate) fields: Fields,
    pub(crate) counter: u16,
    pub(crate) content: Vec<u8>,
}

/// What the line of a frame says.
#[derive(Drop)]
pub(crate) struct Heading {
    pub(crate) count: u64,
    pub(crate) reserved: bool,
    pub(crate) rest: Vec<u8>,
}

/// The datagram with this number that a line states.
#[tactic(auto, unfolding(crate::specs::Lines::datagram_in))]
pub(crate) fn datagram_in(
    alloc: Global,
    number: u64,
    words: &[&str],
) -> Result<Option<Stated>, AllocError>
    ensures value { IfOk result (λ found. option_map datagram_of found
        ≡ datagram_in number (map (λ x. x.now) words.now)) }
    ensures few { IfOk result (λ found. IfSome found (λ stated. stated.fields.reserved < 8)) }
{
    let Some((fields, rest)) = fields_in(number, words) else {
        return Ok(None);
    };
    let Some((counter, word)) = tail_in(rest) else {
        return Ok(None);
    };
    let Some(content) = data_in(alloc, word)? else {
        return Ok(None);
    };
    Ok(Some(Stated {
        fields,
        counter,
        content,
    }))
}

/// What the line of a frame says.
#[tactic(auto, unfolding(crate::specs::Lines::heading_in))]
pub(crate) fn heading_in(alloc: Global, words: &[&str]) -> Result<Option<Heading>, AllocError>
    ensures value { IfOk result (λ found. option_map heading_of found
        ≡ heading_in (map (λ x. x.now) words.now)) }
    ensures some { IfOk result (λ found. IfSome found (λ heading. 0 < heading.count)) }
{
    let [name, count, rest @ ..] = words else {
        return Ok(None);
    };
    if *name != "frame" {
        return Ok(None);
    }
    let Some(count) = number_in(count) else {
        return Ok(None);
    };
    if count == 0 {
        return Ok(None);
    }
    let (reserved, rest) = flag_in("reserved", rest);
    let Some(rest) = rest_in(alloc, rest)? else {
        return Ok(None);
    };
    Ok(Some(Heading {
        count,
        reserved,
        rest,
    }))
}

/// A datagram's counter, and the word of its data, which is the last one.
#[tactic(auto, unfolding(crate::specs::Lines::tail_in))]
fn tail_in<'b>(words: &[&'b str]) -> Option<(u16, &'b str)>
    ensures { option_map with_word result ≡ tail_in (map (λ x. x.now) words.now) }
{
    let [key, counter, name, content] = words else {
        return None;
    };
    if *key != "counter" || *name != "data" {
        return None;
    }
    Some((counter_in(counter)?, *content))
}

/// A datagram's fields, and the words behind them.
#[tactic(auto, unfolding(crate::specs::Lines::fields_in))]
fn fields_in<'a, 'b>(number: u64, words: &'a [&'b str]) -> Option<(Fields, &'a [&'b str])>
    ensures value { option_map with_rest result ≡ fields_in number (map (λ x. x.now) words.now) }
    ensures few { IfSome result (λ r. r.0.reserved < 8) }
{
    let [place, name, key, index, how, address, rest @ ..] = words else {
        return None;
    };
    if number_in(place)? != number || *key != "index" {
        return None;
    }
    let command = command_in(name)?;
    let index = byte_in(index)?;
    let address = address_in(command, how, address)?;
    let (irq, rest) = irq_in("irq", rest)?;
    let (reserved, rest) = reserved_in("reserved", rest)?;
    let (circulating, rest) = flag_in("circulating", rest);
    let fields = Fields {
        command,
        index,
        address,
        irq,
        reserved,
        circulating,
    };
    Some((fields, rest))
}

/// The reserved bits, 0 if they are left out, and the words behind them.
#[tactic(auto, unfolding(crate::specs::Lines::option_in))]
fn reserved_in<'a, 'b>(key: &str, words: &'a [&'b str]) -> Option<(u8, &'a [&'b str])>
    ensures value { option_map with_rest result
        ≡ option_in bits_in key.now (map (λ x. x.now) words.now) }
    ensures few { IfSome result (λ r. r.0 < 8) }
{
    match words {
        [word, value, rest @ ..] if *word == key => Some((bits_in(value)?, rest)),
        _ => Some((0, words)),
    }
}

/// The event request word, 0 if it is left out, and the words behind it.
#[tactic(auto, unfolding(crate::specs::Lines::option_in))]
fn irq_in<'a, 'b>(key: &str, words: &'a [&'b str]) -> Option<(u16, &'a [&'b str])>
    ensures { option_map with_rest result
        ≡ option_in (hex_in 2) key.now (map (λ x. x.now) words.now) }
{
    match words {
        [word, value, rest @ ..] if *word == key => Some((word_in(value)?, rest)),
        _ => Some((0, words)),
    }
}

/// Whether a word comes first, and the words behind it.
#[tactic(auto, unfolding(crate::specs::Lines::flag_in))]
fn flag_in<'a, 'b>(key: &str, words: &'a [&'b str]) -> (bool, &'a [&'b str])
    ensures { with_rest result ≡ flag_in key.now (map (λ x. x.now) words.now) }
{
    match words {
        [word, rest @ ..] if *word == key => (true, rest),
        _ => (false, words),
    }
}

/// The bytes behind the datagrams that a frame's line states.
#[tactic(auto, unfolding(crate::specs::Lines::rest_in))]
fn rest_in(alloc: Global, words: &[&str]) -> Result<Option<Vec<u8>>, AllocError>
    ensures { IfOk result (λ found. option_map (λ v. v.items) found
        ≡ rest_in (map (λ x. x.now) words.now)) }
{
    match words {
        [] => Ok(Some(Vec::new(alloc))),
        [key, word] if *key == "rest" => bytes_in(alloc, word),
        _ => Ok(None),
    }
}

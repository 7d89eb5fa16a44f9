//! SIIs that a seed decides.
use std::alloc::{AllocError, Global};
use test_data::Random;

/// The word address of the categories.
const CATEGORIES: usize = 0x40;

/// The types of categories, some of which a scan reads, and the end mark.
const TYPES: [u16; 8] = [10, 30, 40, 41, 50, 51, 60, 0xFFFF];

/// The words of an SII whose categories have a word each and no end.
pub fn endless_image(alloc: Global) -> Result<Vec<u16>, AllocError> {
    let mut words = Vec::new(alloc);
    for _ in 0..0x2000 {
        words.push(1)?;
    }
    Ok(words)
}

/// The words of an SII.
pub fn random_image(alloc: Global, random: &mut Random) -> Result<Vec<u16>, AllocError> {
    let mut words = Vec::new(alloc);
    for address in 0..CATEGORIES {
        words.push(header_word(random, address))?;
    }
    for _ in 0..random.place(12) {
        if random.in_hundred(5) {
            push_long_pdo(random, &mut words)?;
        } else {
            push_category(random, &mut words)?;
        }
    }
    if random.in_hundred(80) {
        words.push(0xFFFF)?;
        words.push(0xFFFF)?;
    }
    Ok(words)
}

/// A word before the categories. Mailboxes are often such as a scan uses, and sometimes lie over registers.
fn header_word(random: &mut Random, address: usize) -> u16 {
    if random.in_hundred(10) {
        return any_word(random);
    }
    match address {
        0x18 => 0x1000,
        0x1A => 0x1080,
        0x19 | 0x1B => 128,
        0x1C => 4,
        _ => 0,
    }
}

/// Adds a category, whose length may not be that of its words.
fn push_category(random: &mut Random, words: &mut Vec<u16>) -> Result<(), AllocError> {
    let number = TYPES.get(random.place(TYPES.len())).copied().unwrap_or(0);
    let size = random.place(80);
    let said = if random.in_hundred(20) {
        any_word(random)
    } else {
        size as u16
    };
    words.push(number)?;
    words.push(said)?;
    for _ in 0..size {
        words.push(body_word(random))?;
    }
    Ok(())
}

/// Adds a category of one PDO with 255 entries.
fn push_long_pdo(random: &mut Random, words: &mut Vec<u16>) -> Result<(), AllocError> {
    words.push(if random.in_hundred(50) { 50 } else { 51 })?;
    words.push(4 + 4 * 255)?;
    words.push(0x1600 + random.below(0x600) as u16)?;
    words.push(256 * random.below(5) as u16 + 255)?;
    for _ in 0..2 + 4 * 255 {
        words.push(body_word(random))?;
    }
    Ok(())
}

/// A word of a category: an index of a PDO or of one of a few objects, a small number, or any.
fn body_word(random: &mut Random) -> u16 {
    match random.below(5) {
        0 => 0x1600 + random.below(0x600) as u16,
        1 => 0x6000 + random.below(16) as u16,
        2 => random.below(20) as u16,
        3 => 256 * random.below(65) as u16,
        _ => any_word(random),
    }
}

/// Any word.
pub fn any_word(random: &mut Random) -> u16 {
    random.below(0x1_0000) as u16
}

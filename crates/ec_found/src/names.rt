//! Names of a table, made of what slaves are called in their SIIs. Strings of an SII may have any bytes.
use crate::reading::byte_in;
use arrayvec::ArrayString;
use std::alloc::{AllocError, Global};
use std::collections::HashMap;
use std::fmt::Write as _;

/// The most letters of a name.
const MOST: usize = 32;

/// A name, or a first part of one: letters, digits and `_`.
pub(crate) type Word = ArrayString<32>;

/// The letters of a string of an SII by its number, counted from 1, with `_` for what a name can't have. They are cut to `most`, and no `_`
/// stands at either end. Empty if there is no such string.
pub(crate) fn string_word(strings: &[u16], number: u8, most: usize) -> Word {
    let mut word = Word::new();
    let Some((from, size)) = place_of(strings, number) else {
        return word;
    };
    for place in from..from.saturating_add(size) {
        push_letter(&mut word, byte_in(strings, place), most);
    }
    if word.as_str().ends_with('_') {
        let _ = word.pop();
    }
    word
}

/// Where the letters of a string stand in the bytes of the strings, and how many they are.
fn place_of(strings: &[u16], number: u8) -> Option<(usize, usize)> {
    if number == 0 || number > byte_in(strings, 0) {
        return None;
    }
    let mut at: usize = 1;
    for _ in 1..number {
        at = at.saturating_add(1 + usize::from(byte_in(strings, at)));
    }
    Some((at.saturating_add(1), usize::from(byte_in(strings, at))))
}

/// Puts a letter behind others, if there is room: one that a name can't have as `_`, of which no two stand together and none in front.
fn push_letter(word: &mut Word, letter: u8, most: usize) {
    if word.len() >= most.min(MOST) {
        return;
    }
    if letter.is_ascii_alphanumeric() {
        let _ = word.try_push(char::from(letter));
    } else if !word.is_empty() && !word.as_str().ends_with('_') {
        let _ = word.try_push('_');
    }
}

/// Names that are taken, each with the number that it was last given behind it.
#[derive(Drop)]
pub(crate) struct Names {
    taken: HashMap<Word, usize>,
}

impl Names {
    /// None.
    pub(crate) fn new(alloc: Global) -> Names {
        Names {
            taken: HashMap::new(alloc),
        }
    }

    /// A name that wasn't taken and is now: `wanted`, or as much of it as fits with a number behind it.
    pub(crate) fn take(&mut self, wanted: &str) -> Result<Word, AllocError> {
        let whole = first_letters(wanted, MOST);
        let Some(last) = self.taken.get(&whole).copied() else {
            self.taken.insert(whole, 1)?;
            return Ok(whole);
        };
        let (name, count) = self.numbered_behind(wanted, last);
        self.taken.insert(whole, count)?;
        self.taken.insert(name, 1)?;
        Ok(name)
    }

    /// The first name with a number behind it, past `last`, that isn't taken, and its number.
    fn numbered_behind(&self, wanted: &str, last: usize) -> (Word, usize) {
        let mut count = last;
        // one of so many isn't taken
        for _ in 0..self.taken.len() {
            count = count.saturating_add(1);
            let name = numbered(wanted, count);
            if self.taken.get(&name).is_none() {
                return (name, count);
            }
        }
        (numbered(wanted, count.saturating_add(1)), count)
    }
}

/// The first letters of a name, so many at most.
fn first_letters(name: &str, most: usize) -> Word {
    let mut word = Word::new();
    for letter in name.as_bytes().iter().take(most.min(MOST)) {
        let _ = word.try_push(char::from(*letter));
    }
    word
}

/// As much of a name as fits with a number behind it.
fn numbered(name: &str, count: usize) -> Word {
    let mut tail = Word::new();
    let _ = write!(tail, "_{count}");
    let mut word = first_letters(name, MOST - tail.len().min(MOST));
    let _ = word.try_push_str(tail.as_str());
    word
}

/// `PREFIX_WORD`, cut to the length of a name.
pub(crate) fn joined(prefix: &str, word: &str) -> Word {
    let mut name = first_letters(prefix, MOST);
    if name.len() < MOST {
        let _ = name.try_push('_');
    }
    for letter in word.as_bytes().iter().take(MOST - name.len().min(MOST)) {
        let _ = name.try_push(char::from(*letter));
    }
    name
}

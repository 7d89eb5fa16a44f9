//! Lines of text taken apart, and what they say compared. Numbers are decimal, or `0x` and hexadecimal digits. A line that is out
//! of form ends the test, as one does that doesn't hold.
ghost use Rattle.std.specs.Prelude.{◌≡◌, true};

use std::fmt::Debug;
use std::process::Abort;

/// What a line says must hold.
pub fn expect(rt: &impl Abort, holds: bool, line: &str)
    ensures { holds ≡ true }
{
    assert!(rt; holds, "{line}");
}

/// What is seen is what a line says.
pub fn expect_same<T: PartialEq + Debug>(rt: &impl Abort, seen: &T, wanted: &T, line: &str) {
    assert_eq!(rt; seen, wanted, "{line}");
}

/// What stands before and behind the first place of a text; where that place isn't there, all of the text and nothing.
pub fn parts<'t>(text: &'t str, between: &str) -> (&'t str, &'t str) {
    text.split_once(between).unwrap_or((text, ""))
}

/// A word of words, counted from 0; nothing behind the last one.
pub fn word_at(words: &str, place: usize) -> &str {
    words.split(' ').nth(place).unwrap_or("")
}

/// A number.
pub fn number_of(rt: &impl Abort, word: &str) -> u64 {
    let (digits, radix) = match word.strip_prefix("0x") {
        Some(digits) => (digits, 16),
        None => (word, 10),
    };
    u64::from_str_radix(digits, radix).expect(rt, word)
}

/// The number that a word says; 0 where there is no word.
pub fn number_at(rt: &impl Abort, words: &str, place: usize) -> u64 {
    match word_at(words, place) {
        "" => 0,
        word => number_of(rt, word),
    }
}

/// The place that a word says.
pub fn place_at(rt: &impl Abort, words: &str, place: usize) -> usize {
    number_at(rt, words, place) as usize
}

/// A line: all of it, its first word, what stands behind that, and what stands behind `>`.
#[derive(Drop)]
pub struct Line<'t> {
    pub text: &'t str,
    pub word: &'t str,
    pub about: &'t str,
    pub end: &'t str,
}

/// A line taken apart.
pub fn line_of(text: &str) -> Line<'_> {
    let (done, end) = parts(text, " > ");
    let (word, about) = parts(done, " ");
    Line {
        text,
        word,
        about,
        end,
    }
}

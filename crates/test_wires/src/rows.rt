//! Bytes as rows of text, lines of steps, and how what is met is compared. A text that is out of form ends the test, as one does
//! that doesn't hold: so nothing here has another way out, on which slaves, wires or bytes would go away.
ghost use Rattle.std.specs.Prelude.{◌≡◌, true};

use std::alloc::AllocError;
use std::fmt::Debug;
use std::process::Abort;

/// It holds. `about` is printed if it doesn't. An assertion takes seconds to prove, so those of this crate stand here.
pub fn expect(rt: &impl Abort, holds: bool, about: &str)
    ensures { holds ≡ true }
{
    assert!(rt; holds, "{about}");
}

/// Compares what is met with what is wanted, and prints a text that says where it stands.
pub fn assert_same<T: Debug + PartialEq>(rt: &impl Abort, met: &T, wanted: &T, text: &str) {
    assert_eq!(rt; met, wanted, "{text}");
}

/// A number in decimal digits.
pub fn number_of(rt: &impl Abort, digits: &str) -> usize {
    digits.parse::<usize>().expect(rt, digits)
}

/// The bytes of hexadecimal digits.
fn bytes_of_digits(rt: &(impl AllocGlobal + Abort), digits: &str) -> Vec<u8> {
    hex::decode(rt.alloc(), digits).expect(rt, digits)
}

/// Adds bytes so many times.
fn add_times(rt: &impl Abort, bytes: &mut Vec<u8>, part: &[u8], count: usize) {
    for _ in 0..count {
        bytes.extend_from_slice(part).expect(rt, "memory");
    }
}

/// Adds the bytes of a field.
fn add_field(rt: &(impl AllocGlobal + Abort), bytes: &mut Vec<u8>, field: &str) {
    let (digits, count) = field.split_once("x").unwrap_or((field, "1"));
    let count = number_of(rt, count);
    add_times(rt, bytes, &bytes_of_digits(rt, digits), count);
}

/// The bytes of a row: fields of hexadecimal digits with blanks between them, of which `00x7` stands for seven bytes of zeros.
pub fn bytes_of(rt: &(impl AllocGlobal + Abort), row: &str) -> Vec<u8> {
    let mut bytes = Vec::new(rt.alloc());
    for field in row.split_whitespace() {
        add_field(rt, &mut bytes, field);
    }
    bytes
}

/// A line of steps: all of it, its word, what that is about, and what stands behind `>`.
#[derive(Drop)]
pub struct Line<'a> {
    pub text: &'a str,
    pub word: &'a str,
    pub about: &'a str,
    pub row: &'a str,
}

/// Takes a line apart.
pub fn line_of(text: &str) -> Line<'_> {
    let (done, row) = text.split_once(" >").unwrap_or((text, ""));
    let (word, about) = done.split_once(" ").unwrap_or((done, ""));
    Line {
        text,
        word,
        about,
        row,
    }
}

/// Compares bytes with the row of a line.
pub fn assert_row(rt: &(impl AllocGlobal + Abort), line: &Line<'_>, met: &[u8]) {
    assert_same(rt, &met, &bytes_of(rt, line.row).as_slice(), line.text);
}

/// Compares words, as they are made, with what a line says.
pub fn expect_words(rt: &impl Abort, line: &Line<'_>, words: Result<String, AllocError>) {
    let words = words.expect(rt, "memory");
    assert_same(rt, &words.as_str(), &line.row.trim(), line.text);
}

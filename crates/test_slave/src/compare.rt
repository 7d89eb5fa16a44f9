//! Rows of text taken apart, and what is seen beside what is wanted. An assertion takes seconds to prove, so those of this crate
//! stand here.
ghost use Rattle.std.specs.Prelude.{◌≡◌, true};

use std::alloc::AllocError;
use std::fmt::Debug;
use std::process::Abort;

/// It holds. `about` is printed if it doesn't.
pub(crate) fn expect(rt: &impl Abort, holds: bool, about: &str)
    ensures { holds ≡ true }
{
    assert!(rt; holds, "{about}");
}

/// What is seen is what is wanted.
pub(crate) fn expect_same<T: PartialEq + Debug>(
    rt: &impl Abort,
    seen: &T,
    wanted: &T,
    about: &str,
) {
    assert_eq!(rt; seen, wanted, "{about}");
}

/// Words, as they are made, are these.
pub(crate) fn expect_words(rt: &impl Abort, words: Result<String, AllocError>, wanted: &str) {
    let words = words.expect(rt, "memory");
    expect_same(rt, &words.as_str(), &wanted, "words");
}

/// What stands before and behind the first place of a text.
pub(crate) fn parts<'a>(rt: &impl Abort, text: &'a str, between: &str) -> (&'a str, &'a str) {
    text.split_once(between).expect(rt, text)
}

/// The digits of a row of hexadecimal digits.
fn digits_of(rt: &(impl AllocGlobal + Abort), row: &str) -> String {
    row.replace(rt.alloc(), " ", "").expect(rt, "memory")
}

/// The bytes of a row of hexadecimal digits.
pub(crate) fn bytes_of(rt: &(impl AllocGlobal + Abort), row: &str) -> Vec<u8> {
    hex::decode(rt.alloc(), digits_of(rt, row).as_str()).expect(rt, row)
}

//! Lines of text taken apart, and what is seen beside what is wanted. Numbers and bytes are hexadecimal digits, and blanks may stand
//! within rows of bytes. A line that is out of form ends the test. An assertion takes seconds to prove, so those of this crate stand
//! here.
ghost use Rattle.std.specs.Prelude.{◌≡◌, true};

use std::fmt::Debug;
use std::process::Abort;

/// It holds. `about` is printed if it doesn't.
pub(crate) fn expect(rt: &impl Abort, holds: bool, about: &str)
    ensures { holds ≡ true }
{
    assert!(rt; holds, "{about}");
}

/// What is seen is what is wanted.
pub(crate) fn expect_same<T: PartialEq + Debug>(
    rt: &impl Abort,
    seen: &T,
    wanted: &T,
    about: &str,
) {
    assert_eq!(rt; seen, wanted, "{about}");
}

/// What stands before and behind the first place of a text.
pub(crate) fn parts<'a>(rt: &impl Abort, text: &'a str, between: &str) -> (&'a str, &'a str) {
    text.split_once(between).expect(rt, text)
}

/// The same; where that place isn't there, all of the text and what is neither a row nor a number.
pub(crate) fn halves<'a>(text: &'a str, between: &str) -> (&'a str, &'a str) {
    text.split_once(between).unwrap_or((text, "?"))
}

/// A physical address, or a place.
pub(crate) fn word_of(rt: &impl Abort, digits: &str) -> u16 {
    u16::from_str_radix(digits, 16).expect(rt, digits)
}

/// A byte.
pub(crate) fn byte_of(rt: &impl Abort, digits: &str) -> u8 {
    u8::from_str_radix(digits, 16).expect(rt, digits)
}

/// The digits of a row.
fn digits_of(rt: &(impl AllocGlobal + Abort), row: &str) -> String {
    row.replace(rt.alloc(), " ", "").expect(rt, "memory")
}

/// The bytes of a row.
pub(crate) fn bytes_of(rt: &(impl AllocGlobal + Abort), row: &str) -> Vec<u8> {
    hex::decode(rt.alloc(), digits_of(rt, row).as_str()).expect(rt, row)
}

//! What is seen beside what is wanted. An assertion takes seconds to prove, so those of this crate stand here.
ghost use Rattle.std.specs.Prelude.{◌≡◌, true};

use std::fmt::Debug;
use std::process::Abort;

/// It holds. `about` is printed if it doesn't.
pub(crate) fn expect(rt: &impl Abort, holds: bool, about: &str)
    ensures { holds ≡ true }
{
    assert!(rt; holds, "{about}");
}

/// What is seen is what is wanted.
pub(crate) fn expect_same<T: PartialEq + Debug>(
    rt: &impl Abort,
    seen: &T,
    wanted: &T,
    about: &str,
) {
    assert_eq!(rt; seen, wanted, "{about}");
}

/// The digits of a row of hexadecimal digits.
fn digits_of(rt: &(impl AllocGlobal + Abort), row: &str) -> String {
    row.replace(rt.alloc(), " ", "").expect(rt, "memory")
}

/// The bytes of a row of hexadecimal digits, with blanks between fields.
pub(crate) fn bytes_of(rt: &(impl AllocGlobal + Abort), row: &str) -> Vec<u8> {
    hex::decode(rt.alloc(), digits_of(rt, row).as_str()).expect(rt, row)
}

/// Bytes are those of a row.
pub(crate) fn expect_row(rt: &(impl AllocGlobal + Abort), seen: &[u8], row: &str) {
    expect_same(rt, &seen, &bytes_of(rt, row).as_slice(), row);
}

//! What is seen beside what is wanted. An assertion takes seconds to prove, so those of this crate stand here.
ghost use Rattle.std.specs.Prelude.{◌≡◌, true};

use std::fmt::Debug;
use std::process::Abort;

/// It holds. `about` is printed if it doesn't.
pub(crate) fn expect(rt: &impl Abort, holds: bool, about: &str)
    ensures { holds ≡ true }
{
    assert!(rt; holds, "{about}");
}

/// What is seen is what is wanted.
pub(crate) fn expect_same<T: PartialEq + Debug>(
    rt: &impl Abort,
    seen: &T,
    wanted: &T,
    about: &str,
) {
    assert_eq!(rt; seen, wanted, "{about}");
}

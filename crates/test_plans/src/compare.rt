//! What is seen beside what is wanted. An assertion takes seconds to prove, so those of this crate stand here. What keeps a test from
//! its end, ends it: so nothing has another way out, on which tables, plans or texts would go away.
ghost use Rattle.std.specs.Prelude.{◌≡◌, true};

use std::alloc::AllocError;
use std::fmt::{Debug, Display};
use std::process::Abort;

/// It holds. `about` is printed if it doesn't.
pub(crate) fn expect(rt: &impl Abort, holds: bool, about: &str)
    ensures { holds ≡ true }
{
    assert!(rt; holds, "{about}");
}

/// What is seen is what is wanted.
pub(crate) fn expect_same<T: PartialEq + Debug>(
    rt: &impl Abort,
    seen: &T,
    wanted: &T,
    about: &str,
) {
    assert_eq!(rt; seen, wanted, "{about}");
}

/// A text, as it is made, is this one.
pub(crate) fn expect_text(rt: &impl Abort, text: Result<String, AllocError>, wanted: &str) {
    let text = text.expect(rt, "memory");
    expect_same(rt, &text.as_str(), &wanted, "a text");
}

/// An error says this.
pub(crate) fn expect_said<E: Display>(rt: &(impl AllocGlobal + Abort), error: &E, wanted: &str) {
    expect_text(rt, format!(in rt.alloc(); "{error}"), wanted);
}

/// Puts rows behind a text, each as Rattle writes it, in a line of its own.
pub(crate) fn push_rows<T: Debug>(text: &mut String, rows: &[T]) -> Result<(), AllocError> {
    for row in rows {
        writeln!(text, "{row:?}")?;
    }
    Ok(())
}

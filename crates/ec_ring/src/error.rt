//! What a ring refuses.
ghost use Rattle.std.specs.Prelude.{◌≡◌};

use thiserror::Error;

/// A payload that `ec_frame::check` refuses came to a ring.
#[derive(Clone, Copy, Debug, PartialEq, Eq, Drop, Error)]
#[error("not a frame")]
pub struct NotAFrame;

/// The number by which the program names it.
const NUMBER: u8 = 10;

impl NotAFrame {
    /// The number by which the program names it.
    pub fn number(self) -> u8
        ensures { result ≡ 10 }
    {
        NUMBER
    }
}

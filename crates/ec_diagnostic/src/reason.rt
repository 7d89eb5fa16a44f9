//! A reason as a line of its own.
ghost use Rattle.std.specs.Prelude.{◌≡◌, ◌≢◌, ◌∷◌, ◌++◌, [], All, IfOk, codes, string_bytes};
ghost use Rattle.ec_diagnostic.specs.Reason.{IsReason};

use std::alloc::{AllocError, Global};

/// The words if no better ones are known.
const PLAIN: &str = "an event of the line can't be made";

/// The line of a reason: two blanks, and these words. If the words are empty or on more than one line, other words stand
/// there.
///
/// # Errors
///
/// `AllocError` if there is no memory for the text.
pub fn reason_line(alloc: Global, words: &str) -> Result<String, AllocError>
    ensures form { IfOk result (λ text. IsReason (string_bytes text)) }
    ensures words { IfOk result (λ text. words.now ≢ [] → All (λ b. b ≢ 10) words.now
        → string_bytes text ≡ codes "  " ++ (words.now ++ (10 ∷ []))) }
{
    let mut text = String::from_str(alloc, "  ")?;
    text.push_str(on_one_line(words))?;
    text.push_str("\n")?;
    Ok(text)
}

/// These words, if there are some and they are on one line; else [`PLAIN`].
fn on_one_line(words: &str) -> &str
    ensures some { result.now ≢ [] }
    ensures one_line { All (λ b. b ≢ 10) result.now }
    ensures unchanged { words.now ≢ [] → All (λ b. b ≢ 10) words.now → result.now ≡ words.now }
{
    if words.is_empty() || words.as_bytes().contains(&b'\n') {
        PLAIN
    } else {
        words
    }
}

//! What is printed for a line that can't be read, or whose action a target doesn't take.
ghost use Rattle.std.specs.Prelude.{IfOk, string_bytes};
ghost use Rattle.ec_console.specs.Coming.{IsBadText};

use crate::Target;
use ec_diagnostic::reason_line;
use ec_explain_script::{NO_END, bad_words};
use ec_lines::NextLine;
use ec_script::Draft;
use ec_table::Table;
use std::alloc::{AllocError, Global};

/// Why a line is bad whose bytes aren't read as words.
const NO_TEXT: &str = "the line isn't text in UTF-8, or has over 1048576 bytes";

/// The text of a bad line, line `number`, behind a draft: `bad` and its number. At the end of an input it is that of a block without an end.
/// If the target gives reasons, a line that says why stands behind it.
///
/// # Errors
///
/// `AllocError` if there is no memory for the text.
pub fn bad_text<T: Target>(
    alloc: Global,
    target: &T,
    number: usize,
    draft: &Draft,
    taken: &NextLine,
) -> Result<String, AllocError>
    ensures { IfOk result (λ text. IsBadText (T.manner target.now) number (string_bytes text)) }
{
    let mut text = format!(in alloc; "bad {number}\n")?;
    if !target.manner().explained {
        return Ok(text);
    }
    let words = words_on(alloc, target.table(), draft, taken)?;
    let reason = reason_line(alloc, words.as_str())?;
    text.push_str(reason.as_str())?;
    Ok(text)
}

/// Why a line that was taken behind a draft is bad, in words; or a block, at the end of the input.
fn words_on(
    alloc: Global,
    table: &Table,
    draft: &Draft,
    taken: &NextLine,
) -> Result<String, AllocError> {
    match taken {
        NextLine::Text(text) => bad_words(alloc, table, draft, text.as_str()),
        NextLine::NoText => String::from_str(alloc, NO_TEXT),
        NextLine::End => String::from_str(alloc, NO_END),
    }
}

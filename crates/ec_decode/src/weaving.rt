//! Lines with remarks behind them.
ghost use Rattle.std.specs.Prelude.{◌≡◌, ◌+◌, ◌<◌, ◌++◌, nat_lt, IfOk, OnOk, Option, map, string_bytes, option_map};
ghost use Rattle.ec_decode.specs.Indented.{behind, ended, indented, indented_line, parts_of, remark_of, without_indented, woven};

use std::alloc::{AllocError, Global};

/// Adds each line of some remarks with a margin of four blanks, and leaves out empty ones.
///
/// # Errors
///
/// `AllocError` if there is no memory. Drop the text then: it may have any part of the lines.
pub fn push_indented(alloc: Global, text: &mut String, remarks: &str) -> Result<(), AllocError>
    ensures { OnOk result (string_bytes text.new ≡ string_bytes text.old ++ indented remarks.now) }
{
    let lines = parts_of(alloc, remarks)?;
    for line in lines.as_slice() {
        push_line(text, line)?;
    }
    Ok(())
}

/// A text with remarks behind its lines, of which the first has those of number 0: each line of the
/// remarks is indented, and an empty one is left out. `AllocError` if there is no memory.
pub fn weave(alloc: Global, text: &str, remarks: &[String]) -> Result<String, AllocError>
    ensures woven { IfOk result (λ answer. string_bytes answer ≡ woven (map string_bytes remarks.now) text.now) }
    ensures same { IfOk result (λ answer. without_indented (string_bytes answer) ≡ without_indented text.now) }
{
    let parts = parts_of(alloc, text)?;
    let mut answer = String::new(alloc);
    let count = parts.len();
    for (index, part) in parts.as_slice().iter().enumerate() {
        push_part(
            alloc,
            &mut answer,
            part,
            remarks_behind(remarks, index, count),
        )?;
    }
    Ok(answer)
}

/// Adds a line with a margin before it, and nothing for an empty one.
fn push_line(text: &mut String, line: &str) -> Result<(), AllocError>
    ensures { OnOk result (string_bytes text.new ≡ string_bytes text.old ++ indented_line line.now) }
{
    if line.is_empty() {
        return Ok(());
    }
    text.push_str("    ")?;
    text.push_str(line)?;
    text.push_str("\n")
}

/// What stands in a text before, between and behind its newlines.
fn parts_of<'a>(alloc: Global, text: &'a str) -> Result<Vec<&'a str>, AllocError>
    ensures { IfOk result (λ v. map (λ x. x.now) v.items ≡ parts_of text.now) }
{
    text.split('\n').collect(alloc)
}

/// Adds a part of a text, with its newline and the remarks behind it if it is a line.
fn push_part(
    alloc: Global,
    text: &mut String,
    part: &str,
    remarks: Option<&str>,
) -> Result<(), AllocError>
    ensures { OnOk result (string_bytes text.new
        ≡ string_bytes text.old ++ ended part.now (option_map (λ x. x.now) remarks.entry)) }
{
    text.push_str(part)?;
    let Some(remarks) = remarks else {
        return Ok(());
    };
    text.push_str("\n")?;
    push_indented(alloc, text, remarks)
}

/// The remarks behind a part of a text, if it is a line and not the last part.
fn remarks_behind(remarks: &[String], index: usize, parts: usize) -> Option<&str>
    requires { index < parts }
    ensures { option_map (λ x. x.now) result ≡ behind (map string_bytes remarks.now) index (nat_lt (index + 1) parts) }
{
    if index + 1 < parts {
        Some(remark_of(remarks, index))
    } else {
        None
    }
}

/// The remarks on a line; empty if there are none.
fn remark_of(remarks: &[String], index: usize) -> &str
    ensures { result.now ≡ remark_of (map string_bytes remarks.now) index }
{
    match remarks.get(index) {
        Some(remark) => remark.as_str(),
        None => "",
    }
}

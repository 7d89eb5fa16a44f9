//! Reading a script: its lines, without their comments, and the words of each.
ghost use Rattle.std.specs.Prelude.{◌≡◌, IfOk, map};
ghost use Rattle.std.specs.Str.Lines.{lines};
ghost use Rattle.ec_script.specs.Words.{uncommented, without_end_blanks, words_of};
ghost use Rattle.ec_script.specs.Scripts.{Gives, done_times, is_simulated, line_of_words, line_on, reading_of, repeated_line, script_of, taken_by};
ghost use Rattle.ec_script.specs.Tasks.{tasks_of};

use crate::draft::Draft;
use crate::line::{Line, is_simulated_line};
use crate::script::Script;
use crate::tasks::tasks_of_words;
use crate::words::times_of;
use ec_decode::DecodeError as ScriptError;
use ec_table::Table;
use std::alloc::{AllocError, Global};

/// What a line is, by its text.
#[derive(Debug, Drop)]
pub enum Reading {
    /// Nothing but a comment, or nothing at all.
    Empty,
    /// The line stands for nothing.
    Bad,
    /// What the line asks for.
    Line(Line),
}

/// What line `number` is, by its text; its names are those of the table.
///
/// # Errors
///
/// `AllocError` if memory ran out.
pub fn read_line(
    alloc: Global,
    table: &Table,
    number: usize,
    text: &str,
) -> Result<Reading, AllocError>
    ensures { IfOk result (λ reading. reading ≡ reading_of table.now number text.now) }
{
    let text = uncommented(text);
    if text.is_empty() {
        return Ok(Reading::Empty);
    }
    Ok(match line_on(alloc, table, number, text)? {
        Some(line) => Reading::Line(line),
        None => Reading::Bad,
    })
}

/// The lines of a script of simulated slaves that aren't empty without their comments; their names are those of the table. Those of a block
/// come as many times as it says.
///
/// # Errors
///
/// `BadScript`, with the number of the first line that stands for nothing, or for a report, or is a `}` without a block, or begins a block
/// in eight others. If there is none, with the line of the innermost block that has no `}`. `Memory` if memory ran out.
pub fn read_script(alloc: Global, table: &Table, text: &str) -> Result<Script, ScriptError>
    ensures { Gives result (script_of table.now text.now) }
{
    let texts = lines_of(alloc, text)?;
    let mut draft = Draft::new(alloc);
    for (place, line) in texts.as_slice().iter().enumerate() {
        let number = place + 1;
        if !draft.add(alloc, table, number, line)? {
            return Err(ScriptError::BadScript(number));
        }
    }
    draft.into_script()
}

/// A line without its comment, which begins at the first `#`, and without the blanks before that.
pub fn uncommented(line: &str) -> &str
    ensures { result.now ≡ uncommented line.now }
{
    match line.split_once('#') {
        Some((before, _)) => without_end_blanks(before),
        None => line,
    }
}

/// What a line of a script of simulated slaves is: `Bad` if it asks for what no simulation does.
pub fn simulated(reading: Reading) -> Reading
    ensures { result ≡ taken_by is_simulated reading }
{
    match reading {
        Reading::Line(line) => {
            if is_simulated_line(&line) {
                Reading::Line(line)
            } else {
                Reading::Bad
            }
        }
        Reading::Bad => Reading::Bad,
        Reading::Empty => Reading::Empty,
    }
}

/// The lines of a text.
fn lines_of<'a>(alloc: Global, text: &'a str) -> Result<Vec<&'a str>, AllocError>
    ensures { IfOk result (λ v. map (λ x. x.now) v.items ≡ lines text.now) }
{
    text.lines().collect(alloc)
}

/// A text without the blanks at its end.
fn without_end_blanks(text: &str) -> &str
    ensures { result.now ≡ without_end_blanks text.now }
{
    text.trim_end_matches(' ')
}

/// What a text that isn't empty and has no comment stands for as line `number`.
fn line_on(
    alloc: Global,
    table: &Table,
    number: usize,
    text: &str,
) -> Result<Option<Line>, AllocError>
    ensures { IfOk result (λ line. line ≡ line_on table.now number text.now) }
{
    let words = words_of(alloc, text)?;
    line_of_words(alloc, table, number, words.as_slice())
}

/// The words of a line, which stand between single blanks.
pub fn words_of<'a>(alloc: Global, line: &'a str) -> Result<Vec<&'a str>, AllocError>
    ensures { IfOk result (λ v. map (λ x. x.now) v.items ≡ words_of line.now) }
{
    line.split(' ').collect(alloc)
}

/// What words stand for as line `number`.
fn line_of_words(
    alloc: Global,
    table: &Table,
    number: usize,
    words: &[&str],
) -> Result<Option<Line>, AllocError>
    ensures { IfOk result (λ line. line ≡ line_of_words table.now number (map (λ x. x.now) words.now)) }
{
    let Some((verb, rest)) = words.split_first() else {
        return Ok(None);
    };
    if *verb == "repeat" {
        return repeated_line(alloc, table, number, rest);
    }
    line_of_tasks(alloc, table, number, 1, words)
}

/// What the words behind `repeat` stand for as line `number`.
fn repeated_line(
    alloc: Global,
    table: &Table,
    number: usize,
    words: &[&str],
) -> Result<Option<Line>, AllocError>
    ensures { IfOk result (λ line. line ≡ repeated_line table.now number (map (λ x. x.now) words.now)) }
{
    let Some((count, words)) = words.split_first() else {
        return Ok(None);
    };
    match times_of(count) {
        None => Ok(None),
        Some(times) => line_of_tasks(alloc, table, number, times, words),
    }
}

/// Line `number`, which does so many times what these words stand for.
fn line_of_tasks(
    alloc: Global,
    table: &Table,
    number: usize,
    times: u32,
    words: &[&str],
) -> Result<Option<Line>, AllocError>
    ensures { IfOk result (λ line. line ≡ done_times number times (tasks_of table.now number (map (λ x. x.now) words.now))) }
{
    match tasks_of_words(alloc, table, number, words)? {
        None => Ok(None),
        Some(tasks) => Ok(Some(Line {
            number,
            times,
            tasks,
        })),
    }
}

//! Which line of a script stands for nothing: refusal 39; and that what lines expect doesn't hold: 45.
use crate::block::{depth_behind, explain_brace, room_words};
use crate::form::{Forms, form_of, verb_near};
use crate::misfit::{SEE_HELP, explain_misfit};
use crate::word::{Line, Word};
use ec_diagnostic::{Diagnosis, Meant, Printable, Span};
use ec_script::{
    Draft, EXPECT_NO, Expectation, LineAction, REPEAT, Reading, Task, WITHIN, WordKind, read_line,
    uncommented, variable_named,
};
use ec_table::{Direction, Table, VariableRow, read_table};
use std::alloc::{AllocError, Global};

/// What is known of lines: the table, if there is one, and the forms that they may have.
#[derive(Clone, Copy)]
struct Known<'t> {
    table: Option<&'t Table>,
    forms: Forms,
}

impl<'t> Known<'t> {
    /// What is known of the lines of a script of simulated slaves.
    fn script(table: Option<&'t Table>) -> Known<'t> {
        Known {
            table,
            forms: Forms::Script,
        }
    }
}

/// Adds remarks on line `line`, counted from 1, of the script that begins at the byte `from` of a text. They say which word of
/// it is at fault, and how it is written.
pub fn explain_bad_line(diagnosis: &mut Diagnosis<'_>, text: &str, from: usize, line: usize) {
    match line_start(text.as_bytes(), from, line) {
        Some(start) => {
            let depth = depth_behind(text.get(from..start).unwrap_or(""));
            let line = line_at(text, start).in_blocks(depth);
            if !explain_brace(diagnosis, line, depth) {
                explain_in_text(diagnosis, table_before(text, from), line);
            }
        }
        None => diagnosis.note(format_args!("line {line} of the script isn't found in the text")),
    }
}

/// Why a line that comes to a program of a table behind a draft is bad, in one sentence. It stands for nothing, or for what the program
/// doesn't do; or it is a brace out of place, or a line too many of a block.
///
/// # Errors
///
/// `AllocError` if memory ran out.
pub fn bad_words(
    alloc: Global,
    table: &Table,
    draft: &Draft,
    text: &str,
) -> Result<String, AllocError> {
    let text = draft.unindented(text);
    let (reading, line) = (read_line(alloc, table, 1, text)?, line_at(text, 0));
    let is_read = matches!(&reading, Reading::Line(_));
    if let Some(words) = room_words(draft, line, is_read) {
        return String::from_str(alloc, words);
    }
    match reading {
        Reading::Line(read) => untaken_words(alloc, table, read.tasks.as_slice()),
        _ => wrong_words(alloc, table, draft, text, line),
    }
}

/// What is wrong with a line that comes and stands for nothing, in one sentence.
fn wrong_words(
    alloc: Global,
    table: &Table,
    draft: &Draft,
    text: &str,
    line: Line<'_>,
) -> Result<String, AllocError> {
    let mut diagnosis = Diagnosis::new(alloc, text)?;
    if !explain_brace(&mut diagnosis, line, draft.depth()) {
        let (table, forms) = (Some(table), Forms::All);
        explain_line(&mut diagnosis, Known { table, forms }, line);
    }
    let remarks = diagnosis.into_remarks(text)?;
    match remarks.list().first() {
        Some(remark) => String::from_str(alloc, remark.words.as_str()),
        None => Ok(String::new(alloc)),
    }
}

/// Why a program doesn't take all of some tasks, in one sentence.
fn untaken_words(alloc: Global, table: &Table, tasks: &[Task]) -> Result<String, AllocError> {
    let Some(row) = expected_row(table, tasks) else {
        return String::from_str(
            alloc,
            "lines of this form aren't taken here; `--help` lists those that are",
        );
    };
    let name = Printable(row.name.as_str());
    let direction = match row.direction {
        Direction::In => "input",
        Direction::Out => "output",
    };
    format!(in alloc; "`{name}` is an {direction} variable, whose value isn't seen here")
}

/// The variable of which a task expects something.
fn expected_row<'t>(table: &'t Table, tasks: &[Task]) -> Option<&'t VariableRow> {
    let Task::Step(step) = tasks.first()? else {
        return None;
    };
    let expected = match step.action {
        LineAction::Expect(expected) | LineAction::Within(_, expected) => expected,
        _ => return None,
    };
    match expected {
        Expectation::Is(place, _) | Expectation::Holds(place, _) | Expectation::Never(place) =>
            table.variables().get(place),
        _ => None,
    }
}

/// Adds remarks that what lines expect doesn't hold, this many times.
pub fn explain_unmet(diagnosis: &mut Diagnosis<'_>, count: u64) {
    let what = "what a line expects wasn't so; each `unmet` names its line";
    match count {
        1 => diagnosis.note(what),
        _ => diagnosis.note(format_args!("{count} times {what}")),
    }
    diagnosis.advise("see what these lines expect, or what the lines before them do");
}

/// Adds remarks on what is wrong with a line, by the names of the table in the text before it, if that states one.
fn explain_in_text(diagnosis: &mut Diagnosis<'_>, before: &str, line: Line<'_>) {
    match read_table(diagnosis.alloc, before) {
        Ok(table) => explain_line(diagnosis, Known::script(Some(&table)), line),
        Err(error) if error.number() == 1 => diagnosis.fall_short(),
        Err(_) => explain_line(diagnosis, Known::script(None), line),
    }
}

/// Adds remarks on what is wrong with a line, by what is known.
fn explain_line(diagnosis: &mut Diagnosis<'_>, known: Known<'_>, line: Line<'_>) {
    match line.gap() {
        Some(gap) => explain_gap(diagnosis, gap),
        None if line.has(0, "repeat") => explain_repeat(diagnosis, known, line),
        None => explain_once(diagnosis, known, line),
    }
}

/// Adds remarks on what is wrong with a line that isn't repeated.
fn explain_once(diagnosis: &mut Diagnosis<'_>, known: Known<'_>, line: Line<'_>) {
    if !(line.has(0, "expect") && line.has(1, "no")) {
        return explain_actions(diagnosis, known, line);
    }
    match line.word(2) {
        Some(next) => explain_actions(diagnosis, known, line.from(next)),
        None => explain_form(diagnosis, line, EXPECT_NO),
    }
}

/// Adds remarks on what is wrong with a line of one action or several.
fn explain_actions(diagnosis: &mut Diagnosis<'_>, known: Known<'_>, line: Line<'_>) {
    let (name, setting) = ([WordKind::Variable], [WordKind::Variable, WordKind::Value]);
    if line.has(0, "within") {
        explain_within(diagnosis, known, line)
    } else if line.has(0, "set") && line.word(3).is_some() {
        explain_several(
            diagnosis,
            known,
            line,
            &setting,
            "set NAME VALUE NAME VALUE ..",
        )
    } else if line.has(0, "show") && line.word(2).is_some() {
        explain_several(diagnosis, known, line, &name, "show NAME ..")
    } else if line.has(0, "out") && line.word(2).is_some() {
        explain_several(diagnosis, known, line, &name, "out NAME ..")
    } else {
        explain_words(diagnosis, known, line)
    }
}

/// Adds remarks on what is wrong with a line that waits for something.
fn explain_within(diagnosis: &mut Diagnosis<'_>, known: Known<'_>, line: Line<'_>) {
    let (Some(times), Some(next)) = (line.word(1), line.word(2)) else {
        return explain_form(diagnosis, line, WITHIN);
    };
    if explain_misfit(diagnosis, None, WordKind::Times, times) {
        return;
    }
    if next.text == "expect" && !line.has(3, "no") {
        explain_words(diagnosis, known, line.from(next))
    } else {
        explain_form(diagnosis, line, WITHIN)
    }
}

/// Adds remarks on the first word of a line of several actions that isn't what it has to be. The words behind the verb have these kinds,
/// over and over; `form` is how such a line is written.
fn explain_several(
    diagnosis: &mut Diagnosis<'_>,
    known: Known<'_>,
    line: Line<'_>,
    kinds: &[WordKind],
    form: &str,
) {
    for (place, _) in line.text.split(' ').enumerate() {
        if let Some(before) = place.checked_sub(1)
            && let Some(turn) = before.checked_rem(kinds.len())
            && let Some(kind) = kinds.get(turn)
            && let Some(word) = line.word(place)
            && explain_misfit(diagnosis, known.table, *kind, word)
        {
            return;
        }
    }
    explain_form(diagnosis, line, form);
}

/// Adds remarks on a word that is missing.
fn explain_gap(diagnosis: &mut Diagnosis<'_>, gap: Span) {
    explain_plain(
        diagnosis,
        gap,
        "a word is missing here, or a blank is one too many",
        "write single blanks between the words, and none before or behind them",
    );
}

/// Adds remarks on what is wrong with a line that repeats another.
fn explain_repeat(diagnosis: &mut Diagnosis<'_>, known: Known<'_>, line: Line<'_>) {
    let (Some(times), Some(next)) = (line.word(1), line.word(2)) else {
        return explain_form(diagnosis, line, REPEAT);
    };
    if explain_misfit(diagnosis, None, WordKind::Times, times) {
        return;
    }
    if next.text == "repeat" {
        explain_repeat_again(diagnosis, next)
    } else {
        explain_once(diagnosis, known, line.from(next))
    }
}

/// Adds remarks on a word that would repeat a line that repeats another.
fn explain_repeat_again(diagnosis: &mut Diagnosis<'_>, word: Word<'_>) {
    explain_plain(
        diagnosis,
        word.span(),
        "a line that repeats another isn't repeated",
        "write one `repeat` alone",
    );
}

/// Adds remarks on what is wrong at some bytes, and on what to do.
fn explain_plain(diagnosis: &mut Diagnosis<'_>, span: Span, wrong: &str, advice: &str) {
    diagnosis.at_span(span, wrong);
    diagnosis.advise(advice);
}

/// Adds remarks on the words of a line that isn't repeated: on the first that isn't what its form needs there, or on their
/// number.
fn explain_words(diagnosis: &mut Diagnosis<'_>, known: Known<'_>, line: Line<'_>) {
    match form_of(known.forms, line, expects_variable(known.table, line)) {
        Some(form) => explain_by_form(diagnosis, known, line, form),
        None => explain_unknown_verb(diagnosis, known.forms, line),
    }
}

/// Whether a line is an `expect` with three words whose second is the name of a variable.
fn expects_variable(table: Option<&Table>, line: Line<'_>) -> bool {
    match (table, line.word(1)) {
        (Some(table), Some(name)) => {
            let has_three = line.word(2).is_some() && line.word(3).is_none();
            has_three
                && line.has(0, "expect")
                && variable_named(table.variables(), name.text).is_some()
        }
        _ => false,
    }
}

/// Adds remarks on the first word of a line that isn't what a form needs there, or on the number of its words.
fn explain_by_form(diagnosis: &mut Diagnosis<'_>, known: Known<'_>, line: Line<'_>, form: &str) {
    for (place, part) in form.split(' ').enumerate() {
        if let Some(word) = line.word(place)
            && let Some(kind) = WordKind::of(part)
            && explain_misfit(diagnosis, known.table, kind, word)
        {
            return;
        }
    }
    explain_form(diagnosis, line, form);
}

/// Adds remarks on a line that has too few words, or one too many, and on its form.
fn explain_form(diagnosis: &mut Diagnosis<'_>, line: Line<'_>, form: &str) {
    diagnosis.at_span(
        line.span(),
        format_args!("this line isn't written as `{form}`"),
    );
    diagnosis.advise(format_args!("write it as `{form}`, with single blanks between the words"));
}

/// Adds remarks on a line whose first word begins no form.
fn explain_unknown_verb(diagnosis: &mut Diagnosis<'_>, forms: Forms, line: Line<'_>) {
    let Some(word) = line.word(0) else {
        return;
    };
    let near = Meant(verb_near(diagnosis, forms, word.text));
    let shown = Printable(word.text);
    diagnosis.at_span(
        word.span(),
        format_args!("no line of a script begins with `{shown}`{near}"),
    );
    diagnosis.advise(SEE_HELP);
}

/// The text of the table before a script; the line `%%` ends where the script begins.
fn table_before(text: &str, from: usize) -> &str {
    let before = text.get(..from).unwrap_or("");
    before.trim_end().strip_suffix("%%").unwrap_or(before)
}

/// The line that begins at a byte of a text, without its comment.
fn line_at(text: &str, start: usize) -> Line<'_> {
    let rest = text.get(start..).unwrap_or("");
    let whole = match rest.split_once('\n') {
        Some((line, _)) => line,
        None => rest,
    };
    Line {
        start,
        text: uncommented(whole.trim_end_matches('\r')),
    }
}

/// The byte at which line `line`, counted from 1, begins in a text whose first `from` bytes
/// don't count.
fn line_start(bytes: &[u8], from: usize, line: usize) -> Option<usize> {
    let Some(ends_between) = line.checked_sub(2) else {
        return Some(from);
    };
    let mut left = ends_between;
    for (place, byte) in bytes.iter().enumerate().skip(from) {
        if *byte == b'\n' {
            if left == 0 {
                return Some(place.saturating_add(1));
            }
            left -= 1;
        }
    }
    None
}

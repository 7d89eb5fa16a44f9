//! What a line asks for, by its words: its tasks.
ghost use Rattle.std.specs.Prelude.{◌≡◌, ◌∷◌, [], ◌++◌, IfOk, OnOk, map, slice_get};
ghost use Rattle.std.specs.List.{find};
ghost use Rattle.std.specs.Option.{option_map};
ghost use Rattle.ec_script.specs.Tasks.{actions_of, all_or_one, denied_words, each_name, each_setting, echoed, has_room, is_unsettable, single_of, step, steps_if, tasks_of, within_if, within_of};

use crate::forms::action_of_words;
use crate::line::{LineAction, Step, Task};
use crate::words::times_of;
use ec_bits::is_short;
use ec_listed::Listed;
use ec_table::{Direction, Table};
use std::alloc::{AllocError, Global};

/// What the words of line `number` ask for; `None` if they stand for nothing.
///
/// # Errors
///
/// `AllocError` if memory ran out.
pub fn tasks_of_words(
    alloc: Global,
    table: &Table,
    number: usize,
    words: &[&str],
) -> Result<Option<Listed<Task>>, AllocError>
    ensures { IfOk result (λ tasks. tasks ≡ tasks_of table.now number (map (λ x. x.now) words.now)) }
{
    let Some((verb, rest)) = words.split_first() else {
        return Ok(None);
    };
    if *verb == "echo" {
        return Ok(Some(echo_task(alloc, rest)?));
    }
    match denied_words(words) {
        Some(line) => steps_of_words(alloc, table, number, line, true),
        None => steps_of_words(alloc, table, number, words, false),
    }
}

/// The words of the line that `expect no` expects to be refused; `None` without `expect no`.
fn denied_words<'w, 't>(words: &'w [&'t str]) -> Option<&'w [&'t str]>
    ensures { option_map (λ line. map (λ x. x.now) line.now) result ≡ denied_words (map (λ x. x.now) words.now) }
{
    match words {
        [verb, no, line @ ..] if *verb == "expect" && *no == "no" => Some(line),
        _ => None,
    }
}

/// The task that prints words, with a blank between them.
fn echo_task(alloc: Global, words: &[&str]) -> Result<Listed<Task>, AllocError>
    ensures { IfOk result (λ tasks. tasks ≡ Task.Echo (echoed (map (λ x. x.now) words.now)) ∷ []) }
{
    let text = echo_text(alloc, words)?;
    let mut tasks = Listed::new(alloc);
    tasks.push(Task::Echo(text))?;
    Ok(tasks)
}

/// The bytes of words, with a blank between them.
fn echo_text(alloc: Global, words: &[&str]) -> Result<Listed<u8>, AllocError>
    ensures { IfOk result (λ text. text ≡ echoed (map (λ x. x.now) words.now)) }
{
    let Some((first, rest)) = words.split_first() else {
        return Ok(Listed::new(alloc));
    };
    let mut text = Listed::copied(alloc, first.as_bytes())?;
    for word in rest {
        push_word(&mut text, word)?;
    }
    Ok(text)
}

/// Adds a blank and a word.
fn push_word(text: &mut Listed<u8>, word: &str) -> Result<(), AllocError>
    ensures { OnOk result (text.new ≡ text.old ++ (32 ∷ word.now)) }
{
    text.push(b' ')?;
    push_bytes(text, word.as_bytes())
}

/// Adds bytes.
fn push_bytes(text: &mut Listed<u8>, bytes: &[u8]) -> Result<(), AllocError>
    ensures { OnOk result (text.new ≡ text.old ++ bytes.now) }
{
    for byte in bytes {
        text.push(*byte)?;
    }
    Ok(())
}

/// The steps of line `number` whose actions these words stand for.
fn steps_of_words(
    alloc: Global,
    table: &Table,
    number: usize,
    words: &[&str],
    expects_no: bool,
) -> Result<Option<Listed<Task>>, AllocError>
    ensures { IfOk result (λ tasks. tasks ≡ steps_if number expects_no (actions_of table.now (map (λ x. x.now) words.now))) }
{
    match actions_of_words(alloc, table, words)? {
        None => Ok(None),
        Some(actions) => {
            let steps = steps_on(alloc, number, expects_no, actions.as_slice())?;
            Ok(Some(steps))
        }
    }
}

/// The steps of line `number` that have these actions.
fn steps_on(
    alloc: Global,
    number: usize,
    expects_no: bool,
    actions: &[LineAction],
) -> Result<Listed<Task>, AllocError>
    ensures { IfOk result (λ tasks. tasks ≡ map (step number expects_no) actions.now) }
{
    let mut tasks = Listed::new(alloc);
    for action in actions {
        tasks.push(Task::Step(Step {
            number,
            action: *action,
            expects_no,
        }))?;
    }
    Ok(tasks)
}

/// The actions that the words of a line stand for; `None` if they stand for nothing.
fn actions_of_words(
    alloc: Global,
    table: &Table,
    words: &[&str],
) -> Result<Option<Listed<LineAction>>, AllocError>
    ensures { IfOk result (λ actions. actions ≡ actions_of table.now (map (λ x. x.now) words.now)) }
{
    let Some((verb, rest)) = words.split_first() else {
        return Ok(None);
    };
    if rest.is_empty() {
        return one_action(alloc, single_of_words(table, words));
    }
    match *verb {
        "set" => settings_on(alloc, table, rest),
        "show" => each_name(alloc, table, verb, rest),
        "out" => each_name(alloc, table, verb, rest),
        _ => one_action(alloc, single_of_words(table, words)),
    }
}

/// The action that the words of a line of one action stand for; `None` if they stand for nothing.
fn single_of_words(table: &Table, words: &[&str]) -> Option<LineAction>
    ensures { result ≡ single_of table.now (map (λ x. x.now) words.now) }
{
    match words {
        [] => None,
        [verb, rest @ ..] if *verb == "within" => within_of_words(table, rest),
        _ => action_of_words(table, words),
    }
}

/// An action alone, if there is one.
fn one_action(
    alloc: Global,
    action: Option<LineAction>,
) -> Result<Option<Listed<LineAction>>, AllocError>
    ensures { IfOk result (λ actions. actions ≡ option_map (λ a. a ∷ []) action) }
{
    match action {
        None => Ok(None),
        Some(action) => {
            let mut actions = Listed::new(alloc);
            actions.push(action)?;
            Ok(Some(actions))
        }
    }
}

/// What the words behind `within` stand for.
fn within_of_words(table: &Table, words: &[&str]) -> Option<LineAction>
    ensures { result ≡ within_of table.now (map (λ x. x.now) words.now) }
{
    match words {
        [] => None,
        [count, line @ ..] => within_if(times_of(count)?, action_of_words(table, line)?),
    }
}

/// Cycles until what an action expects holds; `None` if it expects nothing.
fn within_if(times: u32, action: LineAction) -> Option<LineAction>
    ensures { result ≡ within_if times action }
{
    match action {
        LineAction::Expect(expected) => Some(LineAction::Within(times, expected)),
        _ => None,
    }
}

/// The action of a verb for each of some names; `None` if there is none for one of them.
fn each_name(
    alloc: Global,
    table: &Table,
    verb: &str,
    names: &[&str],
) -> Result<Option<Listed<LineAction>>, AllocError>
    ensures { IfOk result (λ actions. actions ≡ each_name table.now verb.now (map (λ x. x.now) names.now)) }
{
    let mut actions = Listed::new(alloc);
    for name in names {
        let Some(action) = action_of_words(table, &[verb, name]) else {
            return Ok(None);
        };
        actions.push(action)?;
    }
    Ok(Some(actions))
}

/// The settings of variables to values, each variable before its value: all of them, or the first one alone that can't be done. `None`
/// if the words stand for no settings.
fn settings_on(
    alloc: Global,
    table: &Table,
    words: &[&str],
) -> Result<Option<Listed<LineAction>>, AllocError>
    ensures { IfOk result (λ actions. actions
        ≡ option_map (all_or_one table.now.variables) (each_setting table.now (map (λ x. x.now) words.now))) }
{
    match each_setting(alloc, table, words)? {
        None => Ok(None),
        Some(actions) => match unsettable_of(table, actions.as_slice()) {
            None => Ok(Some(actions)),
            Some(action) => one_action(alloc, Some(action)),
        },
    }
}

/// The settings of variables to values, each variable before its value; `None` if the words stand for no settings.
fn each_setting(
    alloc: Global,
    table: &Table,
    words: &[&str],
) -> Result<Option<Listed<LineAction>>, AllocError>
    ensures { IfOk result (λ actions. actions ≡ each_setting table.now (map (λ x. x.now) words.now)) }
{
    if words.len() % 2 == 1 {
        return Ok(None);
    }
    let mut actions = Listed::new(alloc);
    for pair in 0..words.len() / 2 {
        let (name, value) = (words[2 * pair], words[2 * pair + 1]);
        let Some(action) = action_of_words(table, &["set", name, value]) else {
            return Ok(None);
        };
        actions.push(action)?;
    }
    Ok(Some(actions))
}

/// The first of some settings that can't be done.
fn unsettable_of(table: &Table, actions: &[LineAction]) -> Option<LineAction>
    ensures { result ≡ find (is_unsettable table.now.variables) actions.now }
{
    actions
        .iter()
        .find(|action| is_unsettable(table, **action))
        .copied()
}

/// Whether an action is no setting that can be done: of an output variable to a value that its bits hold.
fn is_unsettable(table: &Table, action: LineAction) -> bool
    ensures { result ≡ is_unsettable table.now.variables action }
{
    match action {
        LineAction::Set(variable, value) => !has_room(table, variable, value),
        _ => true,
    }
}

/// Whether the variable at a place is an output whose bits hold a value.
fn has_room(table: &Table, variable: usize, value: u64) -> bool
    ensures { result ≡ has_room value (slice_get table.now.variables variable) }
{
    match table.variables().get(variable) {
        Some(row) => match row.direction {
            Direction::Out => is_short(value, row.bits),
            Direction::In => false,
        },
        None => false,
    }
}

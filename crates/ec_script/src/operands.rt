//! What single words of a line stand for: variables, values, slaves, numbers and AL states.
ghost use Rattle.std.specs.Prelude.{◌≡◌, ◌<◌, IfSome, length, map};
ghost use Rattle.std.specs.Char.{is_ascii_digit};
ghost use Rattle.std.specs.List.{list_all, slice_get};
ghost use Rattle.std.specs.Option.{option_and_then, option_map};
ghost use Rattle.ec_script.specs.Words.{bounds_of};
ghost use Rattle.ec_script.specs.Operands.{assignment_at, bounds_at, bounds_for, byte_at, code_at, held_at, held_for, mask_at, mask_for, number_at, slave_at, slave_in, slave_named, state_at, state_named, value_for, variable_at, variable_named};

use crate::value::{WrittenValue, bounds_of, held_in, value_of};
use crate::words::{byte_of, code_of, number_of};
use ec_al::State;
use ec_table::{SlaveRow, Table, VariableRow};

/// What a word of a line stands for.
#[derive(Clone, Copy, Debug, PartialEq, Eq, Drop)]
pub enum WordKind {
    /// A variable, by its name.
    Variable,
    /// A value of a variable.
    Value,
    /// Two values of a variable, with `..` between them.
    Range,
    /// A slave, by its number or its name.
    Slave,
    /// A number in decimal.
    Number,
    /// A number up to 255.
    Byte,
    /// A number from 1 to 1,000,000.
    Times,
    /// An AL state, by its name.
    State,
    /// An AL status code in four hex digits.
    Code,
}

/// The words of a line, and the table whose names they may be. Places of words are counted from 0, the place of the verb.
#[derive(Clone, Copy)]
pub struct Operands<'l> {
    pub table: &'l Table,
    pub words: &'l [&'l str],
}

impl WordKind {
    /// What a word of a form stands for; `None` if for itself.
    pub fn of(part: &str) -> Option<WordKind> {
        match part {
            "NAME" => Some(WordKind::Variable),
            "VALUE" | "MASK" => Some(WordKind::Value),
            "LOW..HIGH" => Some(WordKind::Range),
            "S" => Some(WordKind::Slave),
            "K" | "I" | "P" | "UNIT" | "NUMBER" => Some(WordKind::Number),
            "BYTE" => Some(WordKind::Byte),
            "N" => Some(WordKind::Times),
            "STATE" => Some(WordKind::State),
            "CODE" => Some(WordKind::Code),
            _ => None,
        }
    }
}

impl<'l> Operands<'l> {
    /// The variable that the word at the place `name` names, and what the word at the place `value` writes for it.
    pub fn assignment(self, name: usize, value: usize) -> Option<(usize, WrittenValue)>
        ensures { result ≡ assignment_at self.entry.table.now (map (λ x. x.now) self.entry.words.now) name value }
    {
        let variable = self.variable(name)?;
        let value = value_for(self.table, variable, self.word(value)?)?;
        Some((variable, value))
    }

    /// The variable that the word at a place names.
    pub fn variable(self, place: usize) -> Option<usize>
        ensures place { result ≡ variable_at self.entry.table.now (map (λ x. x.now) self.entry.words.now) place }
        ensures there { IfSome result (λ variable. variable < length self.entry.table.now.variables) }
    {
        variable_named(self.table.variables(), self.word(place)?)
    }

    /// The variable that the word at the place `name` names, and the number that the word at the place `value` writes for it, if the
    /// variable's bits hold it.
    pub fn held(self, name: usize, value: usize) -> Option<(usize, Option<u64>)>
        ensures { result ≡ held_at self.entry.table.now (map (λ x. x.now) self.entry.words.now) name value }
    {
        let variable = self.variable(name)?;
        let number = held_for(self.table, variable, self.word(value)?)?;
        Some((variable, number))
    }

    /// As [`held`](Operands::held), for a mask or what is in it, which have no sign.
    pub fn mask(self, name: usize, value: usize) -> Option<(usize, Option<u64>)>
        ensures { result ≡ mask_at self.entry.table.now (map (λ x. x.now) self.entry.words.now) name value }
    {
        let variable = self.variable(name)?;
        let mask = mask_for(self.table, variable, self.word(value)?)?;
        Some((variable, mask))
    }

    /// As [`held`](Operands::held), for the two numbers of a range.
    pub fn bounds(self, name: usize, range: usize) -> Option<(usize, (Option<u64>, Option<u64>))>
        ensures { result ≡ bounds_at self.entry.table.now (map (λ x. x.now) self.entry.words.now) name range }
    {
        let variable = self.variable(name)?;
        let bounds = bounds_for(self.table, variable, self.word(range)?)?;
        Some((variable, bounds))
    }

    /// The slave that the word at a place names.
    pub fn slave(self, place: usize) -> Option<usize>
        ensures { result ≡ slave_at self.entry.table.now (map (λ x. x.now) self.entry.words.now) place }
    {
        slave_in(self.table, self.word(place)?)
    }

    /// The AL state that the word at a place names.
    pub fn state(self, place: usize) -> Option<State>
        ensures { result ≡ state_at (map (λ x. x.now) self.entry.words.now) place }
    {
        state_named(self.word(place)?)
    }

    /// The number that the word at a place writes.
    pub fn number(self, place: usize) -> Option<u64>
        ensures { result ≡ number_at (map (λ x. x.now) self.entry.words.now) place }
    {
        number_of(self.word(place)?)
    }

    /// As [`number`](Operands::number), for the place of something.
    pub fn index(self, place: usize) -> Option<usize>
        ensures { result ≡ number_at (map (λ x. x.now) self.entry.words.now) place }
    {
        Some(self.number(place)? as usize)
    }

    /// The byte that the word at a place writes.
    pub fn byte(self, place: usize) -> Option<u8>
        ensures { result ≡ byte_at (map (λ x. x.now) self.entry.words.now) place }
    {
        byte_of(self.word(place)?)
    }

    /// The AL status code that the word at a place writes.
    pub fn code(self, place: usize) -> Option<u16>
        ensures { result ≡ code_at (map (λ x. x.now) self.entry.words.now) place }
    {
        code_of(self.word(place)?)
    }

    /// The word at a place.
    fn word(self, place: usize) -> Option<&'l str>
        ensures { option_map (λ x. x.now) result ≡ slice_get (map (λ x. x.now) self.entry.words.now) place }
    {
        self.words.get(place).copied()
    }
}

/// The index of the variable with this name; `None` if there is none.
pub fn variable_named(variables: &[VariableRow], name: &str) -> Option<usize>
    ensures place { result ≡ variable_named variables.now name.now }
    ensures there { IfSome result (λ place. place < length variables.now) }
{
    variables
        .iter()
        .position(|variable| variable.name.as_str() == name)
}

/// The place of the slave with this name; `None` if there is none.
pub fn slave_named(slaves: &[SlaveRow], name: &str) -> Option<usize>
    ensures { result ≡ slave_named slaves.now name.now }
{
    slaves.iter().position(|slave| slave.name.as_str() == name)
}

/// The place of the slave that a word names, by its number or by its name; a word of digits alone is a number.
#[tactic(auto, unfolding(crate::specs::Operands::slave_in))]
pub fn slave_in(table: &Table, word: &str) -> Option<usize>
    ensures { result ≡ slave_in table.now word.now }
{
    if is_digits(word) {
        Some(number_of(word)? as usize)
    } else {
        slave_named(table.slaves(), word)
    }
}

/// The AL state with this name; `None` if there is none.
#[tactic(auto, unfolding(crate::specs::Operands::state_named))]
pub fn state_named(name: &str) -> Option<State>
    ensures { result ≡ state_named name.now }
{
    match name {
        "INIT" => Some(State::Init),
        "PREOP" => Some(State::PreOp),
        "SAFEOP" => Some(State::SafeOp),
        "OP" => Some(State::Op),
        _ => None,
    }
}

/// The value that a word writes for the variable at a place; `None` if it writes none.
fn value_for(table: &Table, variable: usize, word: &str) -> Option<WrittenValue>
    requires { variable < length table.now.variables }
    ensures { result ≡ value_for table.now.variables variable word.now }
{
    let row = &table.variables()[variable];
    value_of(row.signed, row.bits, word)
}

/// The number that a word writes for the variable at a place, if its bits hold it; `None` if the word writes no value.
fn held_for(table: &Table, variable: usize, word: &str) -> Option<Option<u64>>
    requires { variable < length table.now.variables }
    ensures { result ≡ held_for table.now.variables variable word.now }
{
    let row = &table.variables()[variable];
    let value = value_of(row.signed, row.bits, word)?;
    Some(held_in(row.bits, value))
}

/// The mask that a word writes for the variable at a place, or what is in it, if the variable's bits hold it; `None` if the word writes no
/// value. It has no sign.
fn mask_for(table: &Table, variable: usize, word: &str) -> Option<Option<u64>>
    requires { variable < length table.now.variables }
    ensures { result ≡ mask_for table.now.variables variable word.now }
{
    let bits = table.variables()[variable].bits;
    Some(held_in(bits, value_of(false, bits, word)?))
}

/// The numbers before and behind the `..` of a word, for the variable at a place; `None` if it isn't two values.
fn bounds_for(table: &Table, variable: usize, word: &str) -> Option<(Option<u64>, Option<u64>)>
    requires { variable < length table.now.variables }
    ensures { result ≡ option_and_then (bounds_for table.now.variables variable) (bounds_of word.now) }
{
    match bounds_of(word) {
        Some((low, high)) => {
            let low = held_for(table, variable, low)?;
            Some((low, held_for(table, variable, high)?))
        }
        None => None,
    }
}

/// Whether a word has digits alone.
fn is_digits(word: &str) -> bool
    ensures { result ≡ list_all is_ascii_digit word.now }
{
    word.as_bytes().iter().all(|byte| byte.is_ascii_digit())
}

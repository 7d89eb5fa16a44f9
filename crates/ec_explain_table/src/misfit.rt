//! Why a value doesn't fit what its key takes.
use crate::reading::items_of;
use crate::rule::{DIRECTIONS, Lacking, TRUTHS, is_key, word_of};
use ec_device::{MAX_ENTRIES, MAX_NAME, MAX_PARAMETERS, MAX_PDOS};
use ec_diagnostic::{Diagnosis, MarkedPart, PathStep, Printable, printed};
use ec_table::{
    ENTRY, Format, LINK_BITS, MAILBOX, MANAGER, PARAMETER, Position, Rule, Section, Shape,
};
use std::fmt;
use toml::{Table, Value};

/// Room for the steps to a value. The longest path in a link table, to a number of an entry of a PDO of a type, has 7.
const STEPS: usize = 8;

/// Why a value doesn't fit a rule. It is printed in words.
#[derive(Clone, Copy, Drop)]
pub enum Misfit<'v> {
    /// The first stands where the second is wanted.
    Other(&'static str, &'static str),
    /// A name has no character.
    EmptyName,
    /// A name has a character that no name has.
    OddName(char),
    /// A name has this many characters.
    LongName(usize),
    /// A number isn't from the second to the third.
    Outside(i64, u32, u32),
    /// The index of a PDO isn't from the second to the third.
    OutsideIndices(i64, u16, u16),
    /// A text is no direction.
    NoDirection,
    /// A list has the first number of items in place of the second.
    Length(usize, usize),
    /// There are more of some things, by their number, than the most.
    TooMany(usize, usize, &'static str),
    /// A PDO lacks keys.
    Lacks(Lacking<'v>),
    /// A PDO has this key.
    NoKey(&'v str),
    /// A gap has a subindex.
    NamedGap,
    /// A download has this many bits.
    OddBits(i64),
    /// The first doesn't lie in so many bits, which hold the second to the third.
    NotHeld(i64, i64, i64),
}

/// How many items a download has.
const PARAMETER_ITEMS: usize = 4;

/// How many bits the value of a download may have, and the least and the highest number that they hold.
static HELD: [(i64, i64, i64); 3] = [
    (8, -0x80, 0xFF),
    (16, -0x8000, 0xFFFF),
    (32, -0x8000_0000, 0xFFFF_FFFF),
];

/// Where a remark stands: at the end of a path, by the key there or by its value.
#[derive(Clone, Copy)]
pub struct Mark<'s> {
    steps: [PathStep<'s>; STEPS],
    count: usize,
    part: MarkedPart,
}

/// What the items of a list are.
#[derive(Clone, Copy)]
enum Items {
    /// Indices of PDOs, from the first to the second.
    Indices(u16, u16),
    /// PDOs with such indices.
    Pdos(u16, u16),
    /// Downloads.
    Parameters,
}

impl Items {
    /// The list in words.
    fn name(self) -> &'static str {
        match self {
            Items::Indices(..) => "a list of PDO indices",
            Items::Pdos(..) => "a list of PDOs",
            Items::Parameters => "a list of downloads",
        }
    }
}

/// A value that doesn't fit, by its place.
#[derive(Clone, Copy)]
pub struct Wrong<'s> {
    /// Where it stands.
    pub mark: Mark<'s>,
    /// Why it doesn't fit.
    pub misfit: Misfit<'s>,
}

/// That a value fits, or what in it doesn't.
type Held<'s> = Result<(), Wrong<'s>>;

impl<'s> Mark<'s> {
    /// Where an element begins.
    pub fn of(position: Position) -> Mark<'s> {
        let mut mark = Mark {
            steps: [PathStep::Item(0); STEPS],
            count: 0,
            part: MarkedPart::Key,
        };
        if position.section != Section::Top {
            mark.enter(PathStep::Key(word_of(position.section)));
            mark.enter(PathStep::Item(position.element));
        }
        mark
    }

    /// A part of what stands under a key of an element.
    pub fn under(position: Position, key: &'s str, part: MarkedPart) -> Mark<'s> {
        let mut mark = Mark::of(position);
        mark.enter(PathStep::Key(key));
        mark.part = part;
        mark
    }

    /// The same part of an item of what stands there.
    pub fn item(self, item: usize) -> Mark<'s> {
        let mut mark = self;
        mark.enter(PathStep::Item(item));
        mark
    }

    /// The same part of what stands under a key there.
    fn key(self, key: &'s str) -> Mark<'s> {
        let mut mark = self;
        mark.enter(PathStep::Key(key));
        mark
    }

    /// Adds a remark there.
    pub fn say<D: fmt::Display + Drop>(&self, diagnosis: &mut Diagnosis<'_>, words: D) {
        let count = self.count.min(STEPS);
        diagnosis.at(&self.steps[..count], self.part, words);
    }

    /// Checks the value there against a rule.
    pub fn hold(self, value: &'s Value, rule: Rule) -> Held<'s> {
        match rule {
            Rule::Name => self.hold_name(value),
            Rule::Number(low, high) => self.hold_number(value, low, high),
            Rule::Mailbox => self.hold_numbers(value, &MAILBOX),
            Rule::Manager => self.hold_numbers(value, &MANAGER),
            Rule::Parameters => self.hold_parameters(value),
            Rule::Indices(first, last) => self.hold_items(value, Items::Indices(first, last)),
            Rule::Pdos(first, last) => self.hold_pdos(value, first, last),
            Rule::Index => self.hold_index(value, 0, u16::MAX),
            Rule::Entries => self.hold_entries(value),
            Rule::LinkBits => self.hold_numbers(value, &LINK_BITS),
            Rule::Direction => self.hold_direction(value),
            Rule::Truth if value.is_bool() => Ok(()),
            Rule::Truth => self.other(value, TRUTHS),
            Rule::Tables if value.is_array() => Ok(()),
            Rule::Tables => self.other(value, "a list of tables"),
        }
    }

    /// That the value there doesn't fit.
    fn wrong(self, misfit: Misfit<'s>) -> Held<'s> {
        Err(Wrong { mark: self, misfit })
    }

    /// That the value there stands in place of what is wanted.
    fn other(self, value: &Value, wanted: &'static str) -> Held<'s> {
        self.wrong(Misfit::Other(kind_of(value), wanted))
    }

    fn hold_name(self, value: &'s Value) -> Held<'s> {
        let Some(name) = value.as_str() else {
            return self.other(value, "a name in quotes");
        };
        match misfit_of_name(name) {
            Some(misfit) => self.wrong(misfit),
            None => Ok(()),
        }
    }

    fn hold_number(self, value: &'s Value, low: u32, high: u32) -> Held<'s> {
        match value.as_integer() {
            None => self.other(value, "a whole number"),
            Some(number) if number < i64::from(low) || i64::from(high) < number => {
                self.wrong(Misfit::Outside(number, low, high))
            }
            Some(_) => Ok(()),
        }
    }

    /// Checks a list of as many numbers as there are ranges.
    fn hold_numbers(self, value: &'s Value, ranges: &[(u32, u32)]) -> Held<'s> {
        let Some(items) = value.as_array() else {
            return self.other(value, "a list of numbers");
        };
        if items.len() != ranges.len() {
            return self.wrong(Misfit::Length(items.len(), ranges.len()));
        }
        for (place, (item, (low, high))) in items.iter().zip(ranges).enumerate() {
            self.item(place).hold_number(item, *low, *high)?;
        }
        Ok(())
    }

    /// Checks the items of a list.
    fn hold_items(self, value: &'s Value, items: Items) -> Held<'s> {
        let Some(list) = value.as_array() else {
            return self.other(value, items.name());
        };
        for (place, item) in list.iter().enumerate() {
            self.item(place).hold_item(item, items)?;
        }
        Ok(())
    }

    fn hold_item(self, value: &'s Value, items: Items) -> Held<'s> {
        match items {
            Items::Indices(first, last) => self.hold_index(value, first, last),
            Items::Pdos(first, last) => self.hold_pdo(value, first, last),
            Items::Parameters => self.hold_parameter(value),
        }
    }

    /// Checks the index of a PDO.
    fn hold_index(self, value: &'s Value, first: u16, last: u16) -> Held<'s> {
        match value.as_integer() {
            None => self.other(value, "the index of a PDO"),
            Some(number) if number < i64::from(first) || i64::from(last) < number => {
                self.wrong(Misfit::OutsideIndices(number, first, last))
            }
            Some(_) => Ok(()),
        }
    }

    fn hold_pdos(self, value: &'s Value, first: u16, last: u16) -> Held<'s> {
        self.hold_items(value, Items::Pdos(first, last))?;
        self.hold_count(items_of(Some(value)).len(), MAX_PDOS, "PDOs")
    }

    fn hold_pdo(self, value: &'s Value, first: u16, last: u16) -> Held<'s> {
        let Some(members) = value.as_table() else {
            return self.other(value, "a PDO, `{ index = .., entries = [..] }`,");
        };
        self.hold_pdo_keys(members)?;
        for (key, rule, _) in Shape::Pdo.keys(Format::full()) {
            if let Some(value) = members.get(*key) {
                self.key(*key).hold_member(value, *rule, first, last)?;
            }
        }
        Ok(())
    }

    /// Checks what stands under a key of a PDO.
    fn hold_member(self, value: &'s Value, rule: Rule, first: u16, last: u16) -> Held<'s> {
        match rule {
            Rule::Entries => self.hold_entries(value),
            _ => self.hold_index(value, first, last),
        }
    }

    /// Checks the keys of a PDO.
    fn hold_pdo_keys(self, members: &'s Table) -> Held<'s> {
        let keys = Shape::Pdo.keys(Format::full());
        for key in members.keys() {
            if !is_key(key.as_str(), keys) {
                return self.no_key(key.as_str());
            }
        }
        let lacks = Lacking { members, keys };
        if lacks.count() > 0 {
            return self.wrong(Misfit::Lacks(lacks));
        }
        Ok(())
    }

    /// That a PDO has no such key.
    fn no_key(self, key: &'s str) -> Held<'s> {
        let mark = Mark {
            part: MarkedPart::Key,
            ..self.key(key)
        };
        mark.wrong(Misfit::NoKey(key))
    }

    fn hold_entries(self, value: &'s Value) -> Held<'s> {
        let Some(entries) = value.as_array() else {
            return self.other(value, "a list of entries");
        };
        for (place, entry) in entries.iter().enumerate() {
            self.item(place).hold_entry(entry)?;
        }
        self.hold_count(entries.len(), MAX_ENTRIES, "entries")
    }

    fn hold_entry(self, value: &'s Value) -> Held<'s> {
        self.hold_numbers(value, &ENTRY)?;
        if is_named_gap(value) {
            return self.wrong(Misfit::NamedGap);
        }
        Ok(())
    }

    fn hold_parameters(self, value: &'s Value) -> Held<'s> {
        self.hold_items(value, Items::Parameters)?;
        self.hold_count(items_of(Some(value)).len(), MAX_PARAMETERS, "downloads")
    }

    fn hold_parameter(self, value: &'s Value) -> Held<'s> {
        let Some(items) = value.as_array() else {
            return self.other(value, "a list of numbers");
        };
        match items.as_slice() {
            [index, subindex, bits, number] => {
                let ((first, last), (least, most)) = (PARAMETER[0], PARAMETER[1]);
                self.item(0).hold_number(index, first, last)?;
                self.item(1).hold_number(subindex, least, most)?;
                self.hold_sized(bits, number)
            }
            items => self.wrong(Misfit::Length(items.len(), PARAMETER_ITEMS)),
        }
    }

    /// Checks the bits of a download and its value.
    fn hold_sized(self, bits: &'s Value, number: &'s Value) -> Held<'s> {
        let Some(count) = bits.as_integer() else {
            return self.item(2).other(bits, "a number of bits");
        };
        match range_of(count) {
            None => self.item(2).wrong(Misfit::OddBits(count)),
            Some((least, most)) => self.item(3).hold_held(number, least, most),
        }
    }

    /// Checks the value of a download.
    fn hold_held(self, value: &'s Value, least: i64, most: i64) -> Held<'s> {
        match value.as_integer() {
            None => self.other(value, "a whole number"),
            Some(number) if number < least || most < number => {
                self.wrong(Misfit::NotHeld(number, least, most))
            }
            Some(_) => Ok(()),
        }
    }

    fn hold_direction(self, value: &'s Value) -> Held<'s> {
        match value.as_str() {
            None => self.other(value, DIRECTIONS),
            Some("out" | "in") => Ok(()),
            Some(_) => self.wrong(Misfit::NoDirection),
        }
    }

    /// Checks that there are no more than `most` things.
    fn hold_count(self, count: usize, most: usize, things: &'static str) -> Held<'s> {
        if count > most {
            return self.wrong(Misfit::TooMany(count, most, things));
        }
        Ok(())
    }

    /// Adds a step to the path; a path that is full stays as it is.
    fn enter(&mut self, step: PathStep<'s>) {
        let count = self.count;
        if let Some(last) = self.steps.get_mut(count) {
            *last = step;
            self.count += 1;
        }
    }
}

impl fmt::Display for Misfit<'_> {
    fn fmt<W: fmt::Write>(&self, f: &mut fmt::Formatter<W>) -> fmt::Result {
        match *self {
            Misfit::Other(kind, wanted) => { write!(f, "{kind} stands where {wanted} is wanted") }
            Misfit::EmptyName => f.write_str("a name has 1 character at least"),
            Misfit::OddName(odd) => {
                write!(f, "`{odd}` is no letter of A to Z, no digit and no `_`")
            }
            Misfit::LongName(length) => {
                write!(
                    f,
                    "a name of {length} characters, and {MAX_NAME} are the most"
                )
            }
            Misfit::Outside(number, low, high) if number >= 0 => {
                write!(f, "{number} (0x{number:X}) is not from {low} to {high}")
            }
            Misfit::Outside(number, low, high) => {
                write!(f, "{number} is not from {low} to {high}")
            }
            Misfit::OutsideIndices(number, first, last) if number >= 0 => {
                write!(
                    f,
                    "0x{number:04X} is not from 0x{first:04X} to 0x{last:04X}"
                )
            }
            Misfit::OutsideIndices(number, first, last) => {
                write!(f, "{number} is not from 0x{first:04X} to 0x{last:04X}")
            }
            Misfit::NoDirection => write!(f, "a direction is {DIRECTIONS}"),
            Misfit::Length(count, wanted) => {
                write!(f, "a list of {count}, and {wanted} are wanted")
            }
            Misfit::TooMany(count, most, things) => {
                write!(f, "{count} {things}, and {most} are the most")
            }
            Misfit::Lacks(lacks) => write!(f, "this PDO lacks {lacks}"),
            Misfit::NoKey(key) => {
                let shown = Printable(key);
                write!(f, "`{shown}` is no key of a PDO")
            }
            Misfit::NamedGap => f.write_str("a gap, which has index 0, has subindex 0 too"),
            Misfit::OddBits(bits) => {
                write!(f, "a download has 8, 16 or 32 bits, and not {bits}")
            }
            Misfit::NotHeld(number, least, most) => {
                write!(f, "{number} is not from {least} to {most}")
            }
        }
    }
}

/// Why a text is no name, if it is none.
fn misfit_of_name<'v>(name: &str) -> Option<Misfit<'v>> {
    if name.is_empty() {
        return Some(Misfit::EmptyName);
    }
    for character in name.chars() {
        if !character.is_ascii_alphanumeric() && character != '_' {
            return Some(Misfit::OddName(printed(character)));
        }
    }
    if name.len() > MAX_NAME {
        return Some(Misfit::LongName(name.len()));
    }
    None
}

/// The least and the highest number that so many bits of a download hold; `None` if a download hasn't so many.
fn range_of(bits: i64) -> Option<(i64, i64)> {
    for (held, least, most) in HELD {
        if bits == held {
            return Some((least, most));
        }
    }
    None
}

/// Whether an entry is a gap with a subindex.
fn is_named_gap(entry: &Value) -> bool {
    match items_of(Some(entry)) {
        [index, subindex, ..] => {
            index.as_integer() == Some(0) && subindex.as_integer() != Some(0)
        }
        _ => false,
    }
}

/// What a value is, in words.
fn kind_of(value: &Value) -> &'static str {
    match value.type_str() {
        "string" => "a text",
        "integer" => "a whole number",
        "float" => "a number with a point",
        "boolean" => "a truth value",
        "array" => "a list",
        "table" => "a table",
        _ => "a date or a time",
    }
}

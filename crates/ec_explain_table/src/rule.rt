//! The keys of a link table, and what each takes, in words.
use ec_device::{MAX_NAME, MAX_PARAMETERS, MAX_PDOS};
use ec_diagnostic::comma;
use ec_table::{Key, MAILBOX, MANAGER, Rule, Section, Shape};
use std::fmt;
use toml::Table;

/// What a direction is, in words.
pub const DIRECTIONS: &str = "\"out\" or \"in\"";

/// What a truth value is, in words.
pub const TRUTHS: &str = "true or false";

/// The word for an element of a section; but for the document it is the section's key, too.
pub fn word_of(section: Section) -> &'static str {
    match section {
        Section::Top => "document",
        Section::Type => "type",
        Section::Slave => "slave",
        Section::Variable => "variable",
        Section::Link => "link",
    }
}

/// The shape of the elements of a section.
pub fn shape_of(section: Section) -> Shape {
    match section {
        Section::Top => Shape::Document,
        Section::Type => Shape::Type,
        Section::Slave => Shape::Slave,
        Section::Variable => Shape::Variable,
        Section::Link => Shape::Link,
    }
}

/// Whether a word is the name of one of these keys.
pub fn is_key(word: &str, keys: &[Key]) -> bool {
    for (name, _, _) in keys {
        if *name == word {
            return true;
        }
    }
    false
}

/// Keys, printed as a list of their names.
#[derive(Clone, Copy, Drop)]
pub struct Named<'k>(pub &'k [Key]);

impl fmt::Display for Named<'_> {
    fn fmt<W: fmt::Write>(&self, f: &mut fmt::Formatter<W>) -> fmt::Result {
        for (index, (name, _, _)) in self.0.iter().enumerate() {
            let before = comma(index, self.0.len());
            write!(f, "{before}{name}")?;
        }
        Ok(())
    }
}

/// Those of some keys that a table must have and lacks, printed as a list of their names.
#[derive(Clone, Copy, Drop)]
pub struct Lacking<'t> {
    /// The table.
    pub members: &'t Table,
    /// The keys.
    pub keys: &'t [Key],
}

impl Lacking<'_> {
    /// Whether the table lacks a key that it must have.
    fn has(&self, (name, _, is_needed): Key) -> bool {
        is_needed && self.members.get(name).is_none()
    }

    /// How many there are.
    pub fn count(&self) -> usize {
        let mut count = 0_usize;
        for key in self.keys {
            count = count.saturating_add(usize::from(self.has(*key)));
        }
        count
    }
}

impl fmt::Display for Lacking<'_> {
    fn fmt<W: fmt::Write>(&self, f: &mut fmt::Formatter<W>) -> fmt::Result {
        let (count, mut index) = (self.count(), 0_usize);
        for key in self.keys {
            if self.has(*key) {
                let (before, name) = (comma(index, count), key.0);
                write!(f, "{before}{name}")?;
                index = index.saturating_add(1);
            }
        }
        Ok(())
    }
}

/// What a key takes, in words.
#[derive(Clone, Copy, Drop)]
pub struct Taken(pub Rule);

impl fmt::Display for Taken {
    fn fmt<W: fmt::Write>(&self, f: &mut fmt::Formatter<W>) -> fmt::Result {
        match self.0 {
            Rule::Number(low, high) => write!(f, "a whole number from {low} to {high}"),
            Rule::Indices(first, last) => {
                write!(
                    f,
                    "a list of PDO indices, each 0x{first:04X} to 0x{last:04X}"
                )
            }
            Rule::Pdos(first, last) => {
                write!(
                    f,
                    "a list of at most {MAX_PDOS} PDOs, each {{ index = 0x{first:04X} to 0x{last:04X}, entries = [[index, subindex, bits], ..] }}"
                )
            }
            Rule::Mailbox => write_mailbox(f),
            Rule::Manager => write_manager(f),
            Rule::Parameters => write!(
                f,
                "a list of at most {MAX_PARAMETERS} downloads, each [index, subindex, bits, value] with 8, 16 or 32 bits"
            ),
            Rule::Direction => f.write_str(DIRECTIONS),
            Rule::LinkBits => f.write_str(
                "[first bit of the variable, first bit of the entry, number of bits]",
            ),
            Rule::Truth => f.write_str(TRUTHS),
            Rule::Name => {
                write!(
                    f,
                    "a text of 1 to {MAX_NAME} letters, digits and `_` in quotes, with no other characters"
                )
            }
            Rule::Tables => f.write_str("a list of tables"),
            Rule::Index => f.write_str("the index of a PDO"),
            Rule::Entries => f.write_str("a list of entries"),
        }
    }
}

/// Prints what a mailbox takes.
fn write_mailbox<W: fmt::Write>(f: &mut fmt::Formatter<W>) -> fmt::Result {
    let ((start, end), (least, most)) = (MAILBOX[0], MAILBOX[1]);
    write!(
        f,
        "[receive start, receive size, send start, send size], each start {start} to {end} and each size {least} to {most}"
    )
}

/// Prints what a sync manager takes.
fn write_manager<W: fmt::Write>(f: &mut fmt::Formatter<W>) -> fmt::Result {
    let ((_, last), (_, most)) = (MANAGER[0], MANAGER[1]);
    write!(
        f,
        "[number, control byte], the number 0 to {last} and the byte 0 to 0x{most:02X}"
    )
}

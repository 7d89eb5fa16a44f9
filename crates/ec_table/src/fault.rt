//! Why a text states no table, and where.
ghost use Rattle.std.specs.Prelude.{◌≡◌};
ghost use Rattle.ec_table.specs.Faults.{section_number, fault_number, fault_name, fault_position, error_position};

use crate::or_memory::{OrMemory, Refusing};
use std::fmt;
use thiserror::Error;

/// A section of a link table, `Top` for the document itself.
#[derive(Clone, Copy, Debug, PartialEq, Eq)]
pub enum Section {
    Top,
    Type,
    Slave,
    Variable,
    Link,
}

impl Section {
    /// The number of the section in a printed refusal.
    pub fn number(self) -> u8
        ensures { result ≡ section_number self }
    {
        match self {
            Section::Top => 0,
            Section::Type => 1,
            Section::Slave => 2,
            Section::Variable => 3,
            Section::Link => 4,
        }
    }

    /// The word for an element of the section, in messages for people.
    fn word(self) -> &'static str {
        match self {
            Section::Top => "document",
            Section::Type => "type",
            Section::Slave => "slave",
            Section::Variable => "variable",
            Section::Link => "link",
        }
    }
}

/// An element of a section, counted from 0 in file order; the document itself is element 0 of `Top`.
#[derive(Clone, Copy, Debug, PartialEq, Eq)]
pub struct Position {
    /// The section of the element.
    pub section: Section,
    /// The number of the element in its section, counted from 0.
    pub element: usize,
}

impl fmt::Display for Position {
    fn fmt<W: fmt::Write>(&self, f: &mut fmt::Formatter<W>) -> fmt::Result {
        match self.section {
            Section::Top => f.write_str("the document"),
            section => write!(f, "{} {}", section.word(), self.element),
        }
    }
}

/// What is wrong with a text, and where.
#[derive(Clone, Copy, Debug, PartialEq, Eq, Error)]
pub enum Fault {
    /// The text is no TOML.
    #[error("the text is not TOML")]
    Toml,
    /// A key that the section doesn't have, or one missing that it must have.
    #[error("{0}: a key is unknown, or one is missing")]
    BadKey(Position),
    /// A value of the wrong kind, out of its range, or with too few or too many items.
    #[error("{0}: a value has the wrong kind, range or number of items")]
    BadValue(Position),
    /// A name that its section has already, or a process data object that its list has already.
    #[error("{0}: a name or an index stands twice")]
    TwiceNamed(Position),
    /// A reference to a type, slave, variable or process data object that doesn't exist.
    #[error("{0}: a name or an index is unknown")]
    UnknownName(Position),
}

impl Fault {
    /// The number of the refusal, 11 to 15.
    pub fn number(self) -> u8
        ensures { result ≡ fault_number self }
    {
        match self {
            Fault::Toml => 11,
            Fault::BadKey(_) => 12,
            Fault::BadValue(_) => 13,
            Fault::TwiceNamed(_) => 14,
            Fault::UnknownName(_) => 15,
        }
    }

    /// The name of the refusal, one word.
    pub fn name(self) -> &'static str
        ensures { result.now ≡ fault_name self }
    {
        match self {
            Fault::Toml => "Toml",
            Fault::BadKey(_) => "BadKey",
            Fault::BadValue(_) => "BadValue",
            Fault::TwiceNamed(_) => "TwiceNamed",
            Fault::UnknownName(_) => "UnknownName",
        }
    }

    /// The place of the fault; none if the text is no TOML.
    pub fn place(self) -> Option<Position>
        ensures { result ≡ fault_position self }
    {
        match self {
            Fault::Toml => None,
            Fault::BadKey(position)
            | Fault::BadValue(position)
            | Fault::TwiceNamed(position)
            | Fault::UnknownName(position) => Some(position),
        }
    }
}

/// Why no table was read: memory ran out, or the first fault of the text.
pub type TableError = OrMemory<Fault>;

impl Refusing for Fault {
    ghost number_of = { fault_number };

    ghost name_of = { fault_name };

    fn refusal_number(self) -> u8 {
        self.number()
    }

    fn refusal_name(self) -> &'static str {
        self.name()
    }
}

impl OrMemory<Fault> {
    /// The place of the fault; none for memory and for a text that is no TOML.
    pub fn place(self) -> Option<Position>
        ensures { result ≡ error_position self }
    {
        match self {
            OrMemory::Memory => None,
            OrMemory::Refused(fault) => fault.place(),
        }
    }
}

impl From<Fault> for OrMemory<Fault> {
    ghost use Rattle.ec_table.specs.declared.or_memory.OrMemory.TheVariants.{Refused};

    ghost from_gives = { λ f e. e ≡ Refused f };

    fn from(fault: Fault) -> OrMemory<Fault> {
        Self::Refused(fault)
    }
}

//! The keys of the tables in a document, and what each takes.
ghost use Rattle.std.specs.Prelude.{◌≡◌, map};
ghost use Rattle.ec_table.specs.Keys.{index_range, key_row, keys_of, number_range, rule_at};
ghost use Rattle.ec_table.specs.declared.keys.Shape.TheVariants as shape;

use crate::pdos::{LAST_INPUT_INDEX, LAST_OUTPUT_INDEX};
use crate::rows::{Format, Version};
use ec_device::{
    FIRST_INPUT_INDEX, FIRST_OUTPUT_INDEX, LAST_MANAGER, MAX_FMMUS, MAX_MAILBOX_SIZE, MAX_SLOW,
    MIN_FMMUS, MIN_MAILBOX_SIZE,
};

/// A kind of table in a document.
#[derive(Clone, Copy)]
pub enum Shape {
    Document,
    Type,
    Pdo,
    Slave,
    Variable,
    Link,
}

/// What a key takes.
#[derive(Clone, Copy)]
pub enum Rule {
    /// The tables of a section.
    Tables,
    /// A name.
    Name,
    /// A number from the first to the second.
    Number(u32, u32),
    /// The starts and sizes of the mailboxes, each in its range of `MAILBOX`.
    Mailbox,
    /// The number and the control byte of a sync manager, in the ranges of `MANAGER`.
    Manager,
    /// Downloads, the numbers of each in the ranges of `PARAMETER`.
    Parameters,
    /// Indices of PDOs, each from the first to the second.
    Indices(u16, u16),
    /// PDOs, each with an index from the first to the second.
    Pdos(u16, u16),
    /// The index of a PDO, in the range of its list.
    Index,
    /// The entries of a PDO, the numbers of each in the ranges of `ENTRY`.
    Entries,
    /// A direction.
    Direction,
    /// Which bits a link joins, in the ranges of `LINK_BITS`.
    LinkBits,
    /// A truth value.
    Truth,
}

/// The largest number of 16 bits, as an address or an index has.
const MAX_U16: u32 = u16::MAX as u32;
/// The largest number of 8 bits, as a subindex has.
const MAX_U8: u32 = u8::MAX as u32;
/// The largest sync unit.
const MAX_UNIT: u32 = 63;
/// The most bits of a variable, of an entry and of a link.
const MAX_VALUE_BITS: u32 = 64;
/// The highest bit of a variable or an entry.
const LAST_BIT: u32 = 63;

/// A key of a table: its name, what it takes, and whether the table must have it.
pub type Key = (&'static str, Rule, bool);

/// The most keys of a table.
pub const MAX_KEYS: usize = 18;

// The keys that a type or a slave has in either format.
const NAME_KEY: Key = ("name", Rule::Name, true);

const VENDOR_KEY: Key = ("vendor", Rule::Number(0, u32::MAX), true);

const PRODUCT_KEY: Key = ("product", Rule::Number(0, u32::MAX), true);

const MAILBOX_KEY: Key = ("mailbox", Rule::Mailbox, false);

const RXPDO_KEY: Key = (
    "rxpdo",
    Rule::Pdos(FIRST_OUTPUT_INDEX, LAST_OUTPUT_INDEX),
    false,
);

const TXPDO_KEY: Key = (
    "txpdo",
    Rule::Pdos(FIRST_INPUT_INDEX, LAST_INPUT_INDEX),
    false,
);

const LRW_KEY: Key = ("lrw", Rule::Truth, false);

const INIT_KEY: Key = ("init", Rule::Parameters, false);

const TYPE_KEY: Key = ("type", Rule::Name, true);

const OUT_KEY: Key = (
    "out",
    Rule::Indices(FIRST_OUTPUT_INDEX, LAST_OUTPUT_INDEX),
    false,
);

const IN_KEY: Key = (
    "in",
    Rule::Indices(FIRST_INPUT_INDEX, LAST_INPUT_INDEX),
    false,
);

const SERIAL_KEY: Key = ("serial", Rule::Number(0, u32::MAX), false);

// The keys of each shape, in the order in which their values are read.
static DOCUMENT_KEYS: [Key; 6] = [
    ("version", Rule::Number(1, 2), false),
    ("hardware", Rule::Truth, false),
    ("type", Rule::Tables, false),
    ("slave", Rule::Tables, false),
    ("variable", Rule::Tables, false),
    ("link", Rule::Tables, false),
];

static TYPE_KEYS: [Key; 10] = [
    NAME_KEY,
    VENDOR_KEY,
    PRODUCT_KEY,
    ("revision", Rule::Number(0, u32::MAX), true),
    MAILBOX_KEY,
    ("out_start", Rule::Number(0, MAX_U16), true),
    ("in_start", Rule::Number(0, MAX_U16), true),
    RXPDO_KEY,
    TXPDO_KEY,
    LRW_KEY,
];

// Those of a type for hardware: any revision may fit, and a device without process data has no starts.
static HARDWARE_TYPE_KEYS: [Key; MAX_KEYS] = [
    NAME_KEY,
    VENDOR_KEY,
    PRODUCT_KEY,
    ("revision", Rule::Number(0, u32::MAX), false),
    MAILBOX_KEY,
    ("out_start", Rule::Number(0, MAX_U16), false),
    ("in_start", Rule::Number(0, MAX_U16), false),
    RXPDO_KEY,
    TXPDO_KEY,
    LRW_KEY,
    ("out_manager", Rule::Manager, false),
    ("in_manager", Rule::Manager, false),
    ("firmware", Rule::Truth, false),
    ("fixed", Rule::Truth, false),
    INIT_KEY,
    ("slow", Rule::Number(0, MAX_SLOW as u32), false),
    ("emergency", Rule::Truth, false),
    (
        "fmmus",
        Rule::Number(MIN_FMMUS as u32, MAX_FMMUS as u32),
        false,
    ),
];

static PDO_KEYS: [Key; 2] = [
    ("index", Rule::Index, true),
    ("entries", Rule::Entries, true),
];

static SLAVE_KEYS: [Key; 7] = [
    NAME_KEY,
    TYPE_KEY,
    OUT_KEY,
    IN_KEY,
    SERIAL_KEY,
    ("unit", Rule::Number(0, MAX_UNIT), false),
    INIT_KEY,
];

// Those of a slave of version 1 for hardware.
static FIRST_SLAVE_KEYS: [Key; 6] = [NAME_KEY, TYPE_KEY, OUT_KEY, IN_KEY, SERIAL_KEY, INIT_KEY];

static VARIABLE_KEYS: [Key; 4] = [
    ("name", Rule::Name, true),
    ("dir", Rule::Direction, true),
    ("bits", Rule::Number(1, MAX_VALUE_BITS), true),
    ("signed", Rule::Truth, false),
];

static LINK_KEYS: [Key; 5] = [
    ("var", Rule::Name, true),
    ("slave", Rule::Name, true),
    ("index", Rule::Number(1, MAX_U16), true),
    ("sub", Rule::Number(0, MAX_U8), true),
    ("bits", Rule::LinkBits, false),
];

const MAILBOX_SIZES: (u32, u32) = (MIN_MAILBOX_SIZE as u32, MAX_MAILBOX_SIZE as u32);

/// The ranges of the numbers of a mailbox: receive start and size, send start and size.
pub static MAILBOX: [(u32, u32); 4] = [(0, MAX_U16), MAILBOX_SIZES, (0, MAX_U16), MAILBOX_SIZES];

/// The ranges of the numbers of a sync manager: its number, its control byte.
pub static MANAGER: [(u32, u32); 2] = [(0, LAST_MANAGER as u32), (0, MAX_U8)];

/// The ranges of the numbers of a download but for its value: index, subindex, number of bits, which is 8, 16 or 32.
pub static PARAMETER: [(u32, u32); 3] = [(0, MAX_U16), (0, MAX_U8), (8, 32)];

/// The ranges of the numbers of a link's bits: first bit of the variable, first bit of the entry, number of bits.
pub static LINK_BITS: [(u32, u32); 3] = [(0, LAST_BIT), (0, LAST_BIT), (1, MAX_VALUE_BITS)];

/// The ranges of the numbers of an entry: index, subindex, number of bits.
pub static ENTRY: [(u32, u32); 3] = [(0, MAX_U16), (0, MAX_U8), (1, MAX_VALUE_BITS)];

impl Shape {
    /// The keys that a table of this shape may have in a format, in the order in which their values are read.
    pub fn keys(self, format: Format) -> &'static [Key]
        ensures { map key_row result.now ≡ keys_of self format }
    {
        match self {
            Shape::Document => &DOCUMENT_KEYS,
            Shape::Type => type_keys(format),
            Shape::Pdo => &PDO_KEYS,
            Shape::Slave => slave_keys(format),
            Shape::Variable => variable_keys(format),
            Shape::Link => &LINK_KEYS,
        }
    }

    /// What the key at a place takes; behind the last key `Tables`.
    pub fn rule(self, place: usize) -> Rule
        ensures { result ≡ rule_at self place }
    {
        let keys = self.keys(Format::full());
        if place < keys.len() {
            keys[place].1
        } else {
            Rule::Tables
        }
    }
}

impl Rule {
    /// The range of the number that the key takes; 0 to 0 if it takes no number.
    pub fn range(self) -> (u32, u32)
        ensures { result ≡ number_range self }
    {
        match self {
            Rule::Number(low, high) => (low, high),
            _ => (0, 0),
        }
    }

    /// The range of the PDO indices that the key takes; 0 to 0 if it takes none.
    pub fn indices(self) -> (u16, u16)
        ensures { result ≡ index_range self }
    {
        match self {
            Rule::Indices(first, last) | Rule::Pdos(first, last) => (first, last),
            _ => (0, 0),
        }
    }
}

/// The keys of a type.
fn type_keys(format: Format) -> &'static [Key]
    ensures { map key_row result.now ≡ keys_of shape.Type format }
{
    match format.hardware {
        false => &TYPE_KEYS,
        true => &HARDWARE_TYPE_KEYS,
    }
}

/// The keys of a variable; a table that isn't for hardware doesn't have the last, `signed`.
fn variable_keys(format: Format) -> &'static [Key]
    ensures { map key_row result.now ≡ keys_of shape.Variable format }
{
    match format.hardware {
        false => &VARIABLE_KEYS[..3],
        true => &VARIABLE_KEYS,
    }
}

/// The keys of a slave: version 1 doesn't have `unit`, and a table that isn't for hardware doesn't have `init`.
fn slave_keys(format: Format) -> &'static [Key]
    ensures { map key_row result.now ≡ keys_of shape.Slave format }
{
    match (format.version, format.hardware) {
        (Version::One, false) => &SLAVE_KEYS[..5],
        (Version::Two, false) => &SLAVE_KEYS[..6],
        (Version::One, true) => &FIRST_SLAVE_KEYS,
        (Version::Two, true) => &SLAVE_KEYS,
    }
}

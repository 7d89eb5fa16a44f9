//! The rows of a table.
ghost use Rattle.std.specs.Prelude.{◌≡◌, ◌≤◌, length};
ghost use Rattle.ec_device.specs.Hardware.{is_assignable, other_name};
ghost use Rattle.ec_table.specs.Contents.{pdos_toward, assigned_toward};
ghost use Rattle.ec_table.specs.Fields.{full_format};

use arrayvec::ArrayString;
use ec_device::{Device, Hardware, Mailbox, Parameter, Pdo};
use ec_listed::Listed;
use std::marker::Model;

/// A name. In a table that was read it has 1 to 32 ASCII letters, digits and `_`.
#[derive(Debug, Drop)]
pub struct Name {
    text: ArrayString<32>,
}

impl Model for Name {
    ghost use Rattle.std.specs.Prelude.{List, ℕ};

    ghost Value = { List ℕ };

    ghost view = { λ a. a.text.bytes };
}

impl Name {
    /// A copy of a text as a name. The caller has checked that it is one.
    pub(crate) fn new(text: &str) -> Name
        requires { length text.now ≤ 32 }
        ensures { result ≡ text.now }
    {
        Name {
            text: ArrayString::from(text).unwrap(),
        }
    }

    /// The text as a key of a map.
    pub(crate) fn key(&self) -> ArrayString<32>
        ensures { result.bytes ≡ self.now }
    {
        ArrayString::from(self.text.as_str()).unwrap()
    }

    /// The name as text.
    pub fn as_str(&self) -> &str
        ensures { result.now ≡ self.now }
    {
        self.text.as_str()
    }
}

/// The version of a link table's format.
#[derive(Clone, Copy, Debug, PartialEq, Eq)]
pub enum Version {
    /// One sync unit for all slaves.
    One,
    /// A sync unit for each slave, by its key `unit`.
    Two,
}

/// The format of a link table: which keys its tables may have, and which they must have.
#[derive(Clone, Copy, Debug, PartialEq, Eq)]
pub struct Format {
    /// Its version.
    pub version: Version,
    /// Whether its slaves are real devices, or simulated ones that behave like them.
    pub hardware: bool,
}

impl Format {
    /// The format that has every key.
    pub fn full() -> Self
        ensures { result ≡ full_format }
    {
        Format {
            version: Version::Two,
            hardware: true,
        }
    }
}

/// The direction of data: `Out` from the master to a slave, `In` from a slave to the master.
#[derive(Clone, Copy, Debug, PartialEq, Eq)]
pub enum Direction {
    Out,
    In,
}

/// A type's process data: the byte addresses where they begin in a slave's memory, and their objects.
#[derive(Debug, Drop)]
pub struct ProcessData {
    /// The byte address where the outputs begin in a slave's memory.
    pub out_start: u16,
    /// The byte address where the inputs begin.
    pub in_start: u16,
    /// The objects that the master writes (RxPDOs).
    pub outputs: Listed<Pdo>,
    /// The objects that the master reads (TxPDOs).
    pub inputs: Listed<Pdo>,
}

/// A row of the section `type`: a type of slaves.
#[derive(Debug, Drop)]
pub struct TypeRow {
    /// Its name, which no other type has.
    pub name: Name,
    /// Vendor, product and revision of its slaves.
    pub device: Device,
    /// The places of its mailboxes, if it has them.
    pub mailbox: Option<Mailbox>,
    /// Its process data objects and where their bytes begin.
    pub process: ProcessData,
    /// Whether slaves of the type take part in LRW datagrams.
    pub lrw: bool,
    /// What it says of real devices, in a table for hardware.
    pub hardware: Option<Hardware>,
    /// The downloads that its slaves get before their process data, at most 64; none without a mailbox.
    pub init: Listed<Parameter>,
}

impl TypeRow {
    /// The process data objects of one direction, in order.
    pub fn pdos(&self, direction: Direction) -> &[Pdo]
        ensures { result.now ≡ pdos_toward direction self.now }
    {
        match direction {
            Direction::Out => self.process.outputs.as_slice(),
            Direction::In => self.process.inputs.as_slice(),
        }
    }

    /// Where its outputs begin inside a slave. Pins are a register of the device, and lie elsewhere there.
    pub fn out_start_inside(&self) -> u16
        ensures { result ≡ other_name self.now.hardware self.now.process.out_start }
    {
        let start = self.process.out_start;
        match &self.hardware {
            None => start,
            Some(hardware) => hardware.other_name(start),
        }
    }

    /// Whether its slaves let themselves be assigned: by a mailbox, unless their assignment is fixed.
    pub fn is_assignable(&self) -> bool
        ensures { result ≡ is_assignable self.now.mailbox self.now.hardware }
    {
        let is_fixed = match &self.hardware {
            None => false,
            Some(hardware) => hardware.is_fixed,
        };
        self.mailbox.is_some() && !is_fixed
    }
}

/// A row of the section `slave`: a slave, of the type at place `type_index`.
#[derive(Debug, Drop)]
pub struct SlaveRow {
    /// Its name, which no other slave has.
    pub name: Name,
    /// The place of its type in the section `type`, counted from 0.
    pub type_index: usize,
    /// The indices of the output objects that it assigns, in order.
    pub outputs: Listed<u16>,
    /// The indices of the input objects that it assigns, in order.
    pub inputs: Listed<u16>,
    /// Its serial number; 0 if the table states none.
    pub serial: u32,
    /// Its sync unit, 0 to 63; 0 in version 1.
    pub unit: u8,
    /// The downloads that it gets behind those of its type, at most 64.
    pub init: Listed<Parameter>,
}

impl SlaveRow {
    /// The indices of the objects that it assigns in one direction, in order.
    pub fn assigned(&self, direction: Direction) -> &[u16]
        ensures { result.now ≡ assigned_toward direction self.now }
    {
        match direction {
            Direction::Out => self.outputs.as_slice(),
            Direction::In => self.inputs.as_slice(),
        }
    }
}

/// A row of the section `variable`: a variable of the process image.
#[derive(Debug, Drop)]
pub struct VariableRow {
    /// Its name, which no other variable has.
    pub name: Name,
    /// Whether the control program writes or reads it.
    pub direction: Direction,
    /// How many bits it has, 1 to 64.
    pub bits: u8,
    /// Whether its value is a signed number for people: in texts and comparisons.
    pub signed: bool,
}

/// The bits that a link joins: `count` bits of the variable, and as many of the entry.
#[derive(Clone, Copy, Debug, PartialEq, Eq)]
pub struct LinkBits {
    /// The first bit of the variable, 0 to 63.
    pub variable_bit: u8,
    /// The first bit of the entry, 0 to 63.
    pub entry_bit: u8,
    /// How many bits, 1 to 64.
    pub count: u8,
}

/// A row of the section `link`: bits of a variable and of an entry of a slave.
#[derive(Clone, Copy, Debug, PartialEq, Eq)]
pub struct LinkRow {
    /// The place of the variable in its section, counted from 0.
    pub variable: usize,
    /// The place of the slave in its section, counted from 0.
    pub slave: usize,
    /// The index of the entry's object, 1 to 65535.
    pub index: u16,
    /// The subindex of the entry.
    pub subindex: u8,
    /// The bits of both that are joined.
    pub bits: LinkBits,
}

//! Slaves, links and entries of a table as people name them, and the keys of a table for each direction.
use crate::bits::Run;
use crate::entries::EntryName;
use ec_table::{Direction, LinkRow, SlaveRow, Table, TypeRow, VariableRow};
use std::fmt;

/// A slave of a table with its type. It is printed by its name.
#[derive(Clone, Copy)]
pub struct SlaveAt<'t> {
    pub place: usize,
    pub row: &'t SlaveRow,
    pub kind: &'t TypeRow,
}

/// A link of a table with what it refers to. It is printed with the bits that it gives.
#[derive(Clone, Copy)]
pub struct LinkAt<'t> {
    pub place: usize,
    pub row: &'t LinkRow,
    pub variable: &'t VariableRow,
    pub slave: SlaveAt<'t>,
}

impl<'t> SlaveAt<'t> {
    /// The slave at this place, if there is one.
    pub fn new(table: &'t Table, place: usize) -> Option<SlaveAt<'t>> {
        let row = table.slaves().get(place)?;
        let kind = table.types().get(row.type_index)?;
        Some(SlaveAt { place, row, kind })
    }
}

impl<'t> LinkAt<'t> {
    /// The link at this place, if there is one.
    pub fn new(table: &'t Table, place: usize) -> Option<LinkAt<'t>> {
        let row = table.links().get(place)?;
        Some(LinkAt {
            place,
            row,
            variable: table.variables().get(row.variable)?,
            slave: SlaveAt::new(table, row.slave)?,
        })
    }

    /// The name of its entry.
    pub fn entry(&self) -> EntryName {
        EntryName(self.row.index, self.row.subindex)
    }

    /// Its bits of the entry.
    pub fn entry_bits(&self) -> Run {
        Run::new(self.row.bits.entry_bit, self.row.bits.count)
    }

    /// Its bits of the variable.
    pub fn variable_bits(&self) -> Run {
        Run::new(self.row.bits.variable_bit, self.row.bits.count)
    }

    /// Whether both links give the same bit, of an output entry or of an input variable.
    pub fn gives_bit_of(&self, other: &LinkAt<'_>) -> bool {
        match (self.variable.direction, other.variable.direction) {
            (Direction::Out, Direction::Out) => {
                self.row.slave == other.row.slave
                    && self.entry() == other.entry()
                    && self.entry_bits().meets(other.entry_bits())
            }
            (Direction::In, Direction::In) => {
                self.row.variable == other.row.variable
                    && self.variable_bits().meets(other.variable_bits())
            }
            _ => false,
        }
    }
}

impl fmt::Display for SlaveAt<'_> {
    fn fmt<W: fmt::Write>(&self, f: &mut fmt::Formatter<W>) -> fmt::Result {
        write!(f, "slave {}", self.row.name.as_str())
    }
}

impl fmt::Display for LinkAt<'_> {
    fn fmt<W: fmt::Write>(&self, f: &mut fmt::Formatter<W>) -> fmt::Result {
        let (entry, slave, name) = (self.entry(), self.slave, self.variable.name.as_str());
        match self.variable.direction {
            Direction::Out => {
                write!(
                    f,
                    "{} of {entry} of {slave}, from variable {name}",
                    self.entry_bits()
                )
            }
            Direction::In => {
                write!(
                    f,
                    "{} of variable {name}, from {entry} of {slave}",
                    self.variable_bits()
                )
            }
        }
    }
}

/// The key under which a slave assigns PDOs of a direction.
pub fn assignment_key(direction: Direction) -> &'static str {
    match direction {
        Direction::Out => "out",
        Direction::In => "in",
    }
}

/// The key under which a type has PDOs of a direction.
pub fn pdos_key(direction: Direction) -> &'static str {
    match direction {
        Direction::Out => "rxpdo",
        Direction::In => "txpdo",
    }
}

/// The word for an entry or a bit of a direction.
pub fn word_of(direction: Direction) -> &'static str {
    match direction {
        Direction::Out => "output",
        Direction::In => "input",
    }
}

//! The entries that a slave assigns.
use crate::places::SlaveAt;
use ec_device::{Entry, Pdo};
use ec_diagnostic::comma;
use ec_table::Direction;
use std::fmt;

/// How many entries are listed in a line at most.
const LISTED: usize = 8;

/// An entry by its index and its subindex. It is printed by both.
#[derive(Clone, Copy, PartialEq, Eq)]
pub struct EntryName(pub u16, pub u8);

/// The entries of a direction that a slave assigns, without gaps: those with an index, or all. Their names are printed as a list of
/// the first of them and how many more there are.
#[derive(Clone, Copy)]
pub struct EntryNames<'t> {
    slave: SlaveAt<'t>,
    direction: Direction,
    index: Option<u16>,
}

impl EntryName {
    /// The name of an entry.
    pub fn of(entry: &Entry) -> EntryName {
        EntryName(entry.index, entry.subindex)
    }
}

impl<'t> SlaveAt<'t> {
    /// The PDO of its type with this index, and its place.
    pub fn pdo(&self, direction: Direction, index: u16) -> Option<(usize, &'t Pdo)> {
        for (place, pdo) in self.kind.pdos(direction).iter().enumerate() {
            if pdo.index == index {
                return Some((place, pdo));
            }
        }
        None
    }

    /// The entries of such a PDO; none if there is no such PDO.
    fn entries(&self, direction: Direction, index: u16) -> &'t [Entry] {
        match self.pdo(direction, index) {
            Some((_, pdo)) => pdo.entries.as_slice(),
            None => &[],
        }
    }

    /// How many bits of a direction it has, with gaps.
    pub fn bits(&self, direction: Direction) -> usize {
        let mut bits: usize = 0;
        for index in self.row.assigned(direction) {
            bits = bits.saturating_add(bits_of(self.entries(direction, *index)));
        }
        bits
    }

    /// How many bits an entry has that it assigns; 0 if it doesn't assign it.
    pub fn entry_bits(&self, direction: Direction, name: EntryName) -> u8 {
        for index in self.row.assigned(direction) {
            if let Some(entry) = find_entry(self.entries(direction, *index), name) {
                return entry.bits;
            }
        }
        0
    }
}

impl<'t> EntryNames<'t> {
    /// The entries of a slave.
    pub fn new(slave: SlaveAt<'t>, direction: Direction, index: Option<u16>) -> EntryNames<'t> {
        EntryNames {
            slave,
            direction,
            index,
        }
    }

    /// How many there are.
    pub fn count(&self) -> usize {
        let mut count: usize = 0;
        for index in self.slave.row.assigned(self.direction) {
            let entries = self.slave.entries(self.direction, *index);
            count = count.saturating_add(self.count_in(entries));
        }
        count
    }

    /// How many of some entries are among them.
    fn count_in(&self, entries: &[Entry]) -> usize {
        let mut count: usize = 0;
        for entry in entries {
            count = count.saturating_add(usize::from(self.has(entry)));
        }
        count
    }

    /// Whether an entry is among them.
    fn has(&self, entry: &Entry) -> bool {
        match self.index {
            _ if entry.index == 0 => false,
            Some(index) => entry.index == index,
            None => true,
        }
    }

    /// Prints those names that are among some entries; the first of them has this place in a list of `count` names.
    fn write_in<W: fmt::Write>(
        &self,
        f: &mut fmt::Formatter<W>,
        entries: &[Entry],
        place: usize,
        count: usize,
    ) -> fmt::Result {
        let mut place = place;
        for entry in entries {
            if self.has(entry) && place < LISTED {
                let (before, name) = (comma(place, count), EntryName::of(entry));
                write!(f, "{before}{name}")?;
                place = place.saturating_add(1);
            }
        }
        Ok(())
    }
}

impl fmt::Display for EntryName {
    fn fmt<W: fmt::Write>(&self, f: &mut fmt::Formatter<W>) -> fmt::Result {
        write!(f, "0x{:04X}:0x{:02X}", self.0, self.1)
    }
}

impl fmt::Display for EntryNames<'_> {
    fn fmt<W: fmt::Write>(&self, f: &mut fmt::Formatter<W>) -> fmt::Result {
        let (count, mut place) = (self.count(), 0_usize);
        for index in self.slave.row.assigned(self.direction) {
            let entries = self.slave.entries(self.direction, *index);
            self.write_in(f, entries, place, count.min(LISTED.saturating_add(1)))?;
            place = place.saturating_add(self.count_in(entries));
        }
        match count.saturating_sub(LISTED) {
            _ if count == 0 => f.write_str("none"),
            0 => Ok(()),
            left => write!(f, " and {left} more"),
        }
    }
}

/// How many bits entries have.
fn bits_of(entries: &[Entry]) -> usize {
    let mut bits: usize = 0;
    for entry in entries {
        bits = bits.saturating_add(usize::from(entry.bits));
    }
    bits
}

/// Whether there is an entry with this name.
pub fn has_entry(entries: &[Entry], name: EntryName) -> bool {
    find_entry(entries, name).is_some()
}

/// The entry with this name.
fn find_entry(entries: &[Entry], name: EntryName) -> Option<Entry> {
    for entry in entries {
        if EntryName::of(entry) == name {
            return Some(*entry);
        }
    }
    None
}

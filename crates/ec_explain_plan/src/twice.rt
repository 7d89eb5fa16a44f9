//! Why a slave assigns an entry twice: refusal 20.
use crate::entries::EntryName;
use crate::places::{SlaveAt, assignment_key, pdos_key};
use ec_device::Pdo;
use ec_diagnostic::{Diagnosis, MarkedPart, PathStep};
use ec_table::Direction;
use std::fmt::Display;

/// Where an entry stands in a type: the direction, place and index of its PDO, its place in that, and its name.
#[derive(Clone, Copy)]
struct Seat {
    direction: Direction,
    pdo: usize,
    index: u16,
    entry: usize,
    name: EntryName,
}

impl Seat {
    /// Whether both are the same place of one direction.
    fn is(&self, other: &Seat) -> bool {
        self.pdo == other.pdo && self.entry == other.entry
    }
}

/// Adds remarks on a slave that assigns an entry twice.
pub fn explain_entry_twice(diagnosis: &mut Diagnosis<'_>, at: &SlaveAt<'_>) {
    for direction in &[Direction::Out, Direction::In] {
        if let Some((first, second)) = seats_twice(at, *direction) {
            return explain_seats(diagnosis, at, &first, &second);
        }
    }
}

/// Adds remarks on two places of an entry that a slave assigns.
fn explain_seats(diagnosis: &mut Diagnosis<'_>, at: &SlaveAt<'_>, first: &Seat, second: &Seat) {
    explain_assigned(diagnosis, at, first, second);
    at_entry(diagnosis, at.row.type_index, first);
    at_entry(diagnosis, at.row.type_index, second);
    advise_on(diagnosis, at, first, second);
}

/// Adds a remark on what to do: a slave may assign one of two PDOs alone, if its type has a mailbox.
fn advise_on(diagnosis: &mut Diagnosis<'_>, at: &SlaveAt<'_>, first: &Seat, second: &Seat) {
    let (one, two, key) = (first.index, second.index, assignment_key(first.direction));
    match at.kind.mailbox {
        _ if one == two => diagnosis.advise(format_args!(
            "leave one of the two entries out of PDO 0x{one:04X}, or correct its index or subindex"
        )),
        Some(_) => diagnosis.advise(format_args!(
            "assign one of the PDOs alone: `{key} = [0x{one:04X}]`, with the others that it needs; without `{key}` all PDOs of the type are assigned"
        )),
        None => diagnosis.advise(format_args!(
            "leave the entry out of PDO 0x{one:04X} or 0x{two:04X}, or correct its index or subindex: a type without a mailbox has all its PDOs assigned"
        )),
    }
}

/// Adds a remark on what a slave assigns: one PDO that has an entry twice, or two PDOs that both have it.
fn explain_assigned(diagnosis: &mut Diagnosis<'_>, at: &SlaveAt<'_>, first: &Seat, second: &Seat) {
    let (kind, name) = (at.kind.name.as_str(), first.name);
    let (one, two) = (first.index, second.index);
    if one == two {
        at_assigned(
            diagnosis,
            at.place,
            first.direction,
            format_args!("{at} assigns PDO 0x{one:04X} of type {kind}, which has {name} twice"),
        );
    } else {
        at_assigned(
            diagnosis,
            at.place,
            first.direction,
            format_args!(
                "{at} assigns PDOs 0x{one:04X} and 0x{two:04X} of type {kind}, and both have {name}"
            ),
        );
    }
}

/// Adds a remark on an entry of a type, and marks it.
fn at_entry(diagnosis: &mut Diagnosis<'_>, kind: usize, seat: &Seat) {
    let (name, index) = (seat.name, seat.index);
    let path = [
        PathStep::Key("type"),
        PathStep::Item(kind),
        PathStep::Key(pdos_key(seat.direction)),
        PathStep::Item(seat.pdo),
        PathStep::Key("entries"),
        PathStep::Item(seat.entry),
    ];
    diagnosis.at(
        &path,
        MarkedPart::Value,
        format_args!("{name} in PDO 0x{index:04X}"),
    );
}

/// Adds a remark on what a slave assigns in a direction, and marks that, or the slave if that isn't written.
fn at_assigned<D: Display + Drop>(
    diagnosis: &mut Diagnosis<'_>,
    slave: usize,
    direction: Direction,
    words: D,
) {
    let key = assignment_key(direction);
    let path = [
        PathStep::Key("slave"),
        PathStep::Item(slave),
        PathStep::Key(key),
    ];
    if diagnosis.has(&path) {
        diagnosis.at_key("slave", slave, key, words);
    } else {
        diagnosis.at_row("slave", slave, words);
    }
}

/// The first entry that a slave assigns behind another with its name, and that other before it. Gaps have no names.
fn seats_twice(at: &SlaveAt<'_>, direction: Direction) -> Option<(Seat, Seat)> {
    for index in at.row.assigned(direction) {
        if let Some((place, pdo)) = at.pdo(direction, *index)
            && let Some(found) = twice_in(at, direction, place, pdo)
        {
            return Some(found);
        }
    }
    None
}

/// The first entry of a PDO that is assigned behind another with its name, and that other before it.
fn twice_in(
    at: &SlaveAt<'_>,
    direction: Direction,
    place: usize,
    pdo: &Pdo,
) -> Option<(Seat, Seat)> {
    for (entry, named) in pdo.entries.as_slice().iter().enumerate() {
        let second = Seat {
            direction,
            pdo: place,
            index: pdo.index,
            entry,
            name: EntryName::of(named),
        };
        if named.index != 0
            && let Some(first) = first_seat(at, direction, second.name)
            && !first.is(&second)
        {
            return Some((first, second));
        }
    }
    None
}

/// The first place of an entry that a slave assigns.
fn first_seat(at: &SlaveAt<'_>, direction: Direction, name: EntryName) -> Option<Seat> {
    for index in at.row.assigned(direction) {
        if let Some((pdo, row)) = at.pdo(direction, *index)
            && let Some(entry) = place_in(row, name)
        {
            return Some(Seat {
                direction,
                pdo,
                index: row.index,
                entry,
                name,
            });
        }
    }
    None
}

/// The place of an entry in a PDO.
fn place_in(pdo: &Pdo, name: EntryName) -> Option<usize> {
    for (place, entry) in pdo.entries.as_slice().iter().enumerate() {
        if EntryName::of(entry) == name {
            return Some(place);
        }
    }
    None
}

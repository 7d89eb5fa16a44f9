//! Why a link is none of a plan: refusals 16 to 19.
use crate::entries::{EntryNames, has_entry};
use crate::places::{LinkAt, assignment_key, word_of};
use ec_diagnostic::{Counted, Diagnosis, PathStep};
use ec_link::LinkFault;
use ec_table::{Direction, Table};
use std::fmt::Display;

/// Adds remarks on a fault of the link at a place.
pub fn explain_link(diagnosis: &mut Diagnosis<'_>, table: &Table, fault: LinkFault, link: usize) {
    let Some(at) = LinkAt::new(table, link) else {
        return;
    };
    match fault {
        LinkFault::WrongDirection(_) => explain_wrong_direction(diagnosis, &at),
        LinkFault::NoEntry(_) => explain_no_entry(diagnosis, &at),
        LinkFault::OutsideEntry(_) => explain_outside(diagnosis, &at),
        _ => explain_linked_twice(diagnosis, table, &at),
    }
}

/// Adds remarks on a link that gives a bit which an earlier link gives.
fn explain_linked_twice(diagnosis: &mut Diagnosis<'_>, table: &Table, at: &LinkAt<'_>) {
    if let Some(earlier) = earlier_giving(table, at) {
        explain_given(diagnosis, &earlier, "");
    }
    explain_given(diagnosis, at, ", too");
    diagnosis.advise("leave one of the links out, or give them different bits");
}

/// The first link before another that gives a bit of it.
fn earlier_giving<'t>(table: &'t Table, at: &LinkAt<'_>) -> Option<LinkAt<'t>> {
    for place in 0..at.place {
        if let Some(earlier) = LinkAt::new(table, place)
            && earlier.gives_bit_of(at)
        {
            return Some(earlier);
        }
    }
    None
}

/// Adds a remark on what a link gives.
fn explain_given(diagnosis: &mut Diagnosis<'_>, at: &LinkAt<'_>, too: &str) {
    let place = at.place;
    at_bits(
        diagnosis,
        place,
        format_args!("link {place} gives {at}{too}"),
    );
}

/// Adds remarks on a link with bits past its entry or its variable.
fn explain_outside(diagnosis: &mut Diagnosis<'_>, at: &LinkAt<'_>) {
    let entry_bits = at.slave.entry_bits(at.variable.direction, at.entry());
    if at.entry_bits().end() > usize::from(entry_bits) {
        explain_past_entry(diagnosis, at, entry_bits);
    } else {
        explain_past_variable(diagnosis, at);
    }
    advise_fewer_bits(diagnosis, at, entry_bits);
}

/// Adds a remark on a link with bits past its entry, which has `bits` bits.
fn explain_past_entry(diagnosis: &mut Diagnosis<'_>, at: &LinkAt<'_>, bits: u8) {
    let (linked, entry, slave) = (at.entry_bits(), at.entry(), at.slave);
    let (are, has) = (linked.verb(), Counted(usize::from(bits), "bit"));
    at_bits(
        diagnosis,
        at.place,
        format_args!("{linked} of {entry} of {slave} {are} linked, and it has {has}"),
    );
}

/// Adds a remark on a link with bits past its variable.
fn explain_past_variable(diagnosis: &mut Diagnosis<'_>, at: &LinkAt<'_>) {
    let (linked, variable) = (at.variable_bits(), at.variable.name.as_str());
    let (are, has) = (linked.verb(), Counted(usize::from(at.variable.bits), "bit"));
    at_bits(
        diagnosis,
        at.place,
        format_args!("{linked} of variable {variable} {are} linked, and it has {has}"),
    );
}

/// Adds a remark on how many bits a link may have, whose entry has `entry_bits` bits.
fn advise_fewer_bits(diagnosis: &mut Diagnosis<'_>, at: &LinkAt<'_>, entry_bits: u8) {
    let (variable, variable_bits) = (at.variable.name.as_str(), at.variable.bits);
    diagnosis.advise(format_args!(
        "link fewer bits: bits = [first of the variable, first of the entry, how many]; variable {variable} has {variable_bits}, the entry {entry_bits}"
    ));
}

/// Adds a remark on the bits of a link, and marks `bits`, or `var` if the link has no `bits`.
fn at_bits<D: Display + Drop>(diagnosis: &mut Diagnosis<'_>, link: usize, words: D) {
    let path = [
        PathStep::Key("link"),
        PathStep::Item(link),
        PathStep::Key("bits"),
    ];
    let key = if diagnosis.has(&path) { "bits" } else { "var" };
    diagnosis.at_key("link", link, key, words);
}

/// Adds remarks on a link to an entry that its slave doesn't assign.
fn explain_no_entry(diagnosis: &mut Diagnosis<'_>, at: &LinkAt<'_>) {
    for pdo in at.slave.kind.pdos(at.variable.direction) {
        if has_entry(pdo.entries.as_slice(), at.entry()) {
            return explain_unassigned(diagnosis, at, pdo.index);
        }
    }
    explain_missing(diagnosis, at);
    diagnosis.advise("correct `index` and `sub`, or add the entry to a PDO of the type");
}

/// Adds a remark on a link to an entry that the type lacks. It lists the entries with its index, or all if there are none.
fn explain_missing(diagnosis: &mut Diagnosis<'_>, at: &LinkAt<'_>) {
    let (entry, slave, direction) = (at.entry(), at.slave, at.variable.direction);
    let (index, word) = (entry.0, word_of(direction));
    let same = EntryNames::new(slave, direction, Some(index));
    if same.count() > 0 {
        return diagnosis.at_key(
            "link",
            at.place,
            "sub",
            format_args!("{slave} has no {word} {entry}; of 0x{index:04X} it has {same}"),
        );
    }
    let all = EntryNames::new(slave, direction, None);
    diagnosis.at_key(
        "link",
        at.place,
        "index",
        format_args!("{slave} has no {word} {entry}; its {word}s are {all}"),
    );
}

/// Adds remarks on a PDO of the type that has a link's entry and isn't assigned.
fn explain_unassigned(diagnosis: &mut Diagnosis<'_>, at: &LinkAt<'_>, number: u16) {
    let (entry, slave, kind) = (at.entry(), at.slave, at.slave.kind.name.as_str());
    diagnosis.at_key(
        "link",
        at.place,
        "index",
        format_args!(
            "{slave} doesn't assign PDO 0x{number:04X} of its type {kind}, which has {entry}"
        ),
    );
    let key = assignment_key(at.variable.direction);
    diagnosis.advise(format_args!("add 0x{number:04X} to `{key}` of {slave}"));
}

/// Adds remarks on a link to an entry of the other direction.
fn explain_wrong_direction(diagnosis: &mut Diagnosis<'_>, at: &LinkAt<'_>) {
    let (variable, entry, slave) = (at.variable.name.as_str(), at.entry(), at.slave);
    let (here, there, key) = match at.variable.direction {
        Direction::Out => ("output", "input", "in"),
        Direction::In => ("input", "output", "out"),
    };
    diagnosis.at_key(
        "link",
        at.place,
        "index",
        format_args!("{entry} is an {there} of {slave}, and variable {variable} an {here}"),
    );
    diagnosis.at_key(
        "variable",
        at.row.variable,
        "dir",
        format_args!("variable {variable} is made an {here} here"),
    );
    diagnosis.advise(format_args!(
        "link a variable with dir = \"{key}\", or an {here} entry of the slave"
    ));
}

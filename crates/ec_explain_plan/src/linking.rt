//! Why a link table has no plan: refusals 16 to 25 and 44.
use crate::links::explain_link;
use crate::slaves::explain_slave;
use ec_diagnostic::Diagnosis;
use ec_link::LinkFault;
use ec_table::{SlaveRow, Table};

/// How many slaves a plan has at most.
const MAX_SLAVES: usize = 64;

/// How many frames a plan has at most.
const MAX_PARTS: usize = 32;

/// Adds remarks on why a table, with this first fault, has no plan.
pub fn explain_link_fault(diagnosis: &mut Diagnosis<'_>, table: &Table, fault: LinkFault) {
    match fault {
        LinkFault::WrongDirection(link)
        | LinkFault::NoEntry(link)
        | LinkFault::OutsideEntry(link)
        | LinkFault::LinkedTwice(link) => explain_link(diagnosis, table, fault, link),
        LinkFault::EntryTwice(slave)
        | LinkFault::TooManyBits(slave)
        | LinkFault::AreasOverlap(slave)
        | LinkFault::OutsideRam(slave) => explain_slave(diagnosis, table, fault, slave),
        LinkFault::TooManySlaves(count) => explain_too_many_slaves(diagnosis, count),
        LinkFault::TooManyParts(count) => explain_too_many_parts(diagnosis, table.slaves(), count),
        LinkFault::SplitVariable(variable) => explain_split(diagnosis, table, variable),
    }
}

/// Adds remarks on an input variable with links from two sync units.
fn explain_split(diagnosis: &mut Diagnosis<'_>, table: &Table, variable: usize) {
    let Some(row) = table.variables().get(variable) else {
        return;
    };
    let name = row.name.as_str();
    diagnosis.at_row(
        "variable",
        variable,
        format_args!("input variable {name} has links from two sync units"),
    );
    explain_units(diagnosis, table, variable);
    diagnosis.advise("make two variables of it, or give the slaves one `unit`");
}

/// Adds remarks on the first link of a variable, and on the first one from another sync unit.
fn explain_units(diagnosis: &mut Diagnosis<'_>, table: &Table, variable: usize) {
    let mut first = None;
    for (index, link) in table.links().iter().enumerate() {
        if link.variable == variable
            && let Some(slave) = table.slaves().get(link.slave)
            && first != Some(slave.unit)
        {
            explain_joined(diagnosis, index, slave);
            if first.is_some() {
                return;
            }
            first = Some(slave.unit);
        }
    }
}

/// Adds a remark on the slave that a link joins a variable to.
fn explain_joined(diagnosis: &mut Diagnosis<'_>, link: usize, slave: &SlaveRow) {
    let (name, unit) = (slave.name.as_str(), slave.unit);
    diagnosis.at_key(
        "link",
        link,
        "slave",
        format_args!("link {link} joins it to slave {name} of unit {unit}"),
    );
}

/// Adds remarks on too many parts.
fn explain_too_many_parts(diagnosis: &mut Diagnosis<'_>, slaves: &[SlaveRow], count: usize) {
    let (units, past) = units_among(slaves, MAX_PARTS);
    match past {
        Some(index) => diagnosis.at_key(
            "slave",
            index,
            "unit",
            format_args!(
                "{units} sync units, each of which has a frame of its own, and {MAX_PARTS} frames are the most: this is the first one more"
            ),
        ),
        None => diagnosis.note(format_args!(
            "{count} frames for {units} sync units, and {MAX_PARTS} are the most: a frame takes slaves of one unit, as many as fit"
        )),
    }
    diagnosis.advise("put slaves into fewer sync units, by their key `unit`");
}

/// How many sync units slaves have, and the place of the first slave whose unit is one more than `most`.
fn units_among(slaves: &[SlaveRow], most: usize) -> (usize, Option<usize>) {
    let (mut units, mut past) = (0_usize, None);
    for (index, slave) in slaves.iter().enumerate() {
        if !has_unit_before(slaves, index, slave.unit) {
            if units == most {
                past = Some(index);
            }
            units = units.saturating_add(1);
        }
    }
    (units, past)
}

/// Whether a slave before a place is in a sync unit.
fn has_unit_before(slaves: &[SlaveRow], index: usize, unit: u8) -> bool {
    for slave in slaves.iter().take(index) {
        if slave.unit == unit {
            return true;
        }
    }
    false
}

/// Adds remarks on too many slaves.
fn explain_too_many_slaves(diagnosis: &mut Diagnosis<'_>, count: usize) {
    diagnosis.at_row(
        "slave",
        MAX_SLAVES,
        format_args!("{count} slaves, and {MAX_SLAVES} are the most: this is the first one more"),
    );
    diagnosis.advise("make two tables, each for a segment of its own");
}

//! Why a slave has no place in a plan: refusals 20 to 23.
use crate::areas::{Area, REGISTER_INSIDE, first_free, first_met, first_outside};
use crate::places::{SlaveAt, assignment_key, word_of};
use crate::twice::explain_entry_twice;
use ec_device::MAX_BITS;
use ec_diagnostic::{Diagnosis, MarkedPart, PathStep};
use ec_link::LinkFault;
use ec_regs::registers::{RAM_END, RAM_START};
use ec_table::{Direction, Table};

/// What to do about a device whose outputs lie in its output register.
const DESCRIBE: &str =
    "write `hardware = true` above all tables, and `out_manager` in the type: 0x0F00 is a terminal's \
    output register; with another address the master becomes ready, and nothing is switched";
/// What to do if they don't end there.
const SHORTEN: &str =
    "take entries away: the output register of a terminal has the four bytes 0x0F00 to 0x0F03";

/// Adds remarks on a fault of the slave at a place.
pub fn explain_slave(diagnosis: &mut Diagnosis<'_>, table: &Table, fault: LinkFault, slave: usize) {
    let Some(at) = SlaveAt::new(table, slave) else {
        return;
    };
    match fault {
        LinkFault::EntryTwice(_) => explain_entry_twice(diagnosis, &at),
        LinkFault::TooManyBits(_) => explain_too_many_bits(diagnosis, &at),
        LinkFault::AreasOverlap(_) => explain_overlap(diagnosis, &at),
        _ => explain_outside_ram(diagnosis, &at),
    }
}

/// Adds remarks on an area outside the RAM.
fn explain_outside_ram(diagnosis: &mut Diagnosis<'_>, at: &SlaveAt<'_>) {
    let Some(area) = first_outside(at) else {
        return;
    };
    let (kind, last) = (at.kind.name.as_str(), RAM_END - 1);
    if area.is_register_inside() {
        diagnosis.at_row(
            "slave",
            at.place,
            format_args!(
                "in {at} an area of its type {kind} begins within 0x{REGISTER_INSIDE:04X} to 0x{last:04X}, where a simulated slave keeps the outputs of 0x0F00"
            ),
        );
    } else {
        diagnosis.at_row(
            "slave",
            at.place,
            format_args!(
                "in {at} an area of its type {kind} is not within 0x{RAM_START:04X} to 0x{last:04X}"
            ),
        );
    }
    explain_area(diagnosis, at.row.type_index, area);
    advise_start(diagnosis, at, area);
}

/// Adds remarks on two areas that overlap.
fn explain_overlap(diagnosis: &mut Diagnosis<'_>, at: &SlaveAt<'_>) {
    let Some((one, other)) = first_met(at) else {
        return;
    };
    let kind = at.kind.name.as_str();
    diagnosis.at_row(
        "slave",
        at.place,
        format_args!("in {at} two areas of its type {kind} share addresses"),
    );
    explain_area(diagnosis, at.row.type_index, one);
    explain_area(diagnosis, at.row.type_index, other);
    advise_start(diagnosis, at, other);
}

/// Says where an area could begin, if another address helps.
fn advise_start(diagnosis: &mut Diagnosis<'_>, at: &SlaveAt<'_>, moved: Area) {
    if moved.is_output_register() {
        let is_described = at.kind.hardware.is_some();
        return diagnosis.advise(if is_described { SHORTEN } else { DESCRIBE });
    }
    let content = moved.content;
    match first_free(at, &moved) {
        Some(start) => diagnosis.advise(format_args!(
            "let the area of the {content} begin elsewhere: 0x{start:04X} is the first address where it meets no other"
        )),
        None => diagnosis.advise(format_args!(
            "make the areas smaller: where the others are, no place in the RAM is long enough for the {content}"
        )),
    }
}

/// Adds a remark on an area, and marks where it begins.
fn explain_area(diagnosis: &mut Diagnosis<'_>, kind: usize, area: Area) {
    let (key, item) = area.content.key();
    match item {
        None => diagnosis.at_key("type", kind, key, area),
        Some(item) => {
            let path = [
                PathStep::Key("type"),
                PathStep::Item(kind),
                PathStep::Key(key),
                PathStep::Item(item),
            ];
            diagnosis.at(&path, MarkedPart::Value, area);
        }
    }
}

/// Adds remarks on a slave with too many bits in a direction.
fn explain_too_many_bits(diagnosis: &mut Diagnosis<'_>, at: &SlaveAt<'_>) {
    for direction in &[Direction::Out, Direction::In] {
        let bits = at.bits(*direction);
        if bits > MAX_BITS {
            return explain_bits(diagnosis, at, *direction, bits);
        }
    }
}

/// Adds remarks on a slave that has this many bits in a direction.
fn explain_bits(
    diagnosis: &mut Diagnosis<'_>,
    at: &SlaveAt<'_>,
    direction: Direction,
    bits: usize,
) {
    let word = word_of(direction);
    diagnosis.at_row(
        "slave",
        at.place,
        format_args!("{at} has {bits} {word} bits, gaps with them, and {MAX_BITS} are the most"),
    );
    let (kind, key) = (at.kind.name.as_str(), assignment_key(direction));
    match at.kind.mailbox {
        Some(_) => diagnosis.advise(format_args!("assign fewer PDOs of its type by `{key}`")),
        None => diagnosis.advise(format_args!(
            "leave PDOs or entries of type {kind} out: it has no mailbox, so all its PDOs are assigned"
        )),
    }
}

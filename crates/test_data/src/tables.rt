//! Random link tables.
use crate::random::Random;
use std::alloc::{AllocError, Global};
use std::fmt::Write as _;

/// The objects of a slave in one direction.
struct Objects<'a> {
    direction: &'a str,
    pdos: &'a str,
    /// The index of the process data object, and of its entries.
    index: u32,
    entry: u32,
    /// The most bits of an entry.
    most: u32,
}

const OUTPUTS: Objects<'static> = Objects {
    direction: "out",
    pdos: "rxpdo",
    index: 0x1600,
    entry: 0x7000,
    most: 24,
};

/// Outputs that have room in the four bytes of the register of the pins.
const PINS: Objects<'static> = Objects {
    direction: "out",
    pdos: "rxpdo",
    index: 0x1600,
    entry: 0x7000,
    most: 10,
};

const INPUTS: Objects<'static> = Objects {
    direction: "in",
    pdos: "txpdo",
    index: 0x1A00,
    entry: 0x6000,
    most: 24,
};

/// What kind of table it is.
#[derive(Clone, Copy, Drop)]
struct Kind {
    /// Whether slaves have sync units.
    has_units: bool,
    /// Whether types say what they have of real devices.
    is_hardware: bool,
}

/// What the rest of a slave depends on that its type says of real devices.
#[derive(Clone, Copy, Drop)]
struct Real {
    /// Whether its outputs begin in the register of the pins.
    has_pins: bool,
    /// Whether it takes downloads.
    has_mailbox: bool,
}

impl Real {
    /// Of a type that says nothing.
    fn none() -> Real {
        Real {
            has_pins: false,
            has_mailbox: false,
        }
    }
}

/// The text of a random link table of up to five slaves, of either version, in up to three units. Its slaves are with and without
/// a mailbox, outputs, inputs and LRW. It ends with a line feed, or is empty. The error says that memory was refused.
pub fn random_table(alloc: Global, random: &mut Random) -> Result<String, AllocError> {
    table_of(alloc, random, false)
}

/// The text of a random link table for hardware: slaves as those of `random_table`, of types that have managers, control bytes and
/// FMMUs of their own, with and without firmware, a revision and outputs in the register of the pins. Those with a mailbox may have
/// a fixed assignment, downloads, and slaves that decide late or send emergencies. Some variables have a sign.
pub fn random_hardware_table(alloc: Global, random: &mut Random) -> Result<String, AllocError> {
    table_of(alloc, random, true)
}

/// The text of a random link table, for hardware or not.
fn table_of(alloc: Global, random: &mut Random, is_hardware: bool) -> Result<String, AllocError> {
    let (mut text, mut links) = (String::new(alloc), String::new(alloc));
    let has_units = random.in_hundred(50);
    let kind = Kind {
        has_units,
        is_hardware,
    };
    if has_units {
        writeln!(text, "version = 2")?;
    }
    if is_hardware {
        writeln!(text, "hardware = true")?;
    }
    for slave in 0..random.below(6) {
        write_slave(random, &mut text, &mut links, slave, kind)?;
    }
    text.push_str(links.as_str())?;
    Ok(text)
}

/// A slave of a type of its own.
fn write_slave(
    random: &mut Random,
    text: &mut String,
    links: &mut String,
    slave: u32,
    kind: Kind,
) -> Result<(), AllocError> {
    let real = if kind.is_hardware {
        write_real_type(random, text, slave)?
    } else {
        write_type(random, text, slave)?;
        Real::none()
    };
    let outputs = if real.has_pins { &PINS } else { &OUTPUTS };
    write_objects(random, text, links, outputs, slave, kind)?;
    write_objects(random, text, links, &INPUTS, slave, kind)?;
    writeln!(text, "[[slave]]\nname = \"s{slave}\"\ntype = \"t{slave}\"")?;
    if kind.has_units {
        let unit = random.below(3);
        writeln!(text, "unit = {unit}")?;
    }
    if real.has_mailbox {
        write_init(random, text)?;
    }
    Ok(())
}

/// The head of a slave's type: its vendor, whether it takes part in LRW, where its process data begin, and its mailbox, if any.
fn write_type(random: &mut Random, text: &mut String, slave: u32) -> Result<(), AllocError> {
    let (product, revision) = (random.below(20), random.below(20));
    let is_whole = random.in_hundred(75);
    writeln!(
        text,
        "[[type]]\nname = \"t{slave}\"\nvendor = 1\nproduct = {product}\nrevision = {revision}\nlrw = {is_whole}"
    )?;
    writeln!(text, "out_start = 0x1100\nin_start = 0x1400")?;
    if random.in_hundred(30) {
        writeln!(text, "mailbox = [0x1000, 64, 0x1080, 64]")?;
    }
    Ok(())
}

/// The head of a slave's type for hardware.
fn write_real_type(random: &mut Random, text: &mut String, slave: u32) -> Result<Real, AllocError> {
    let (product, is_whole) = (random.below(20), random.in_hundred(75));
    writeln!(
        text,
        "[[type]]\nname = \"t{slave}\"\nvendor = 1\nproduct = {product}\nlrw = {is_whole}"
    )?;
    if random.in_hundred(50) {
        let revision = random.below(20);
        writeln!(text, "revision = {revision}")?;
    }
    let has_mailbox = write_managers(random, text)?;
    if has_mailbox {
        write_manner(random, text)?;
        write_init(random, text)?;
    }
    let fmmus = 2 + random.below(3);
    writeln!(text, "fmmus = {fmmus}\nin_start = 0x1400")?;
    let has_pins = random.in_hundred(30);
    let out_start = if has_pins { 0x0F00u32 } else { 0x1100 };
    writeln!(text, "out_start = {out_start}")?;
    Ok(Real {
        has_pins,
        has_mailbox,
    })
}

/// How slaves of a type with a mailbox behave: whether their assignment is fixed, how late they decide, and whether they send
/// emergencies.
fn write_manner(random: &mut Random, text: &mut String) -> Result<(), AllocError> {
    let (is_fixed, has_emergency) = (random.in_hundred(30), random.in_hundred(30));
    let slow = random.below(4);
    writeln!(
        text,
        "fixed = {is_fixed}\nslow = {slow}\nemergency = {has_emergency}"
    )
}

/// Up to five downloads of 8, 16 or 32 bits, each to one of a few objects, which has one size; some values are negative.
fn write_init(random: &mut Random, text: &mut String) -> Result<(), AllocError> {
    write!(text, "init = [")?;
    for _ in 0..random.below(6) {
        let (index, sub) = (0x2000 + random.below(4), random.below(4));
        let (bits, value) = (8u32 << (sub % 3), random.below(128));
        let sign = if random.in_hundred(30) { "-" } else { "" };
        write!(text, "[{index}, {sub}, {bits}, {sign}{value}], ")?;
    }
    writeln!(text, "]")
}

/// The mailbox, if any, and the managers of the process data of a type for hardware. One without a mailbox may lack firmware.
/// Returns whether there is a mailbox.
fn write_managers(random: &mut Random, text: &mut String) -> Result<bool, AllocError> {
    let (out_control, in_control) = (16 * random.below(16) + 4, 16 * random.below(16));
    let has_mailbox = random.in_hundred(30);
    let (first, second) = if has_mailbox {
        writeln!(text, "mailbox = [0x1000, 64, 0x1080, 64]")?;
        let first = 2 + random.below(2);
        (first, 5 - first)
    } else {
        let has_firmware = random.in_hundred(60);
        writeln!(text, "firmware = {has_firmware}")?;
        let first = random.below(4);
        (first, (first + 1 + random.below(3)) % 4)
    };
    writeln!(
        text,
        "out_manager = [{first}, {out_control}]\nin_manager = [{second}, {in_control}]"
    )?;
    Ok(has_mailbox)
}

/// The objects of a slave in a direction: no process data object, or one with up to three entries, of which most are linked.
fn write_objects(
    random: &mut Random,
    text: &mut String,
    links: &mut String,
    objects: &Objects<'_>,
    slave: u32,
    kind: Kind,
) -> Result<(), AllocError> {
    if random.in_hundred(10) {
        return Ok(());
    }
    let (pdos, index, entry) = (objects.pdos, objects.index, objects.entry);
    write!(text, "{pdos} = [ {{ index = {index}, entries = [")?;
    for sub in 1..1 + random.below(4) {
        let bits = (1 + random.below(24)).min(objects.most);
        write!(text, "[{entry}, {sub}, {bits}], ")?;
        if random.in_hundred(80) {
            let is_signed = kind.is_hardware && random.in_hundred(30);
            write_link(links, objects, slave, sub, bits, is_signed)?;
        }
    }
    writeln!(text, "] }} ]")
}

/// A variable, and its link with all bits of an entry.
fn write_link(
    links: &mut String,
    objects: &Objects<'_>,
    slave: u32,
    sub: u32,
    bits: u32,
    is_signed: bool,
) -> Result<(), AllocError> {
    let (direction, entry) = (objects.direction, objects.entry);
    writeln!(
        links,
        "[[variable]]\nname = \"{direction}{slave}_{sub}\"\ndir = \"{direction}\"\nbits = {bits}"
    )?;
    if is_signed {
        writeln!(links, "signed = true")?;
    }
    writeln!(
        links,
        "[[link]]\nvar = \"{direction}{slave}_{sub}\"\nslave = \"s{slave}\"\nindex = {entry}\nsub = {sub}"
    )
}

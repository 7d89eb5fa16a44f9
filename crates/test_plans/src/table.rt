//! Texts, and the tables that they state. What is wrong with texts that are changed, as `ecat plan` prints it, stands as cases in
//! `tools/cases/data/`: `lacking.cases`, `types.cases` and `values.cases`. What slaves show besides, where their table is advertised in full,
//! `tools/scan/run` finds.
mod examples;

use self::examples::{
    SHORT, SMALL_MACHINE, SMALL_MACHINE_READ, THREE_OF_A_TYPE, THREE_OF_A_TYPE_READ, THREE_SLAVES,
    THREE_SLAVES_READ,
};
use crate::compare::{expect, expect_said, expect_text, push_rows};
use ec_table::{Fault, Position, Section, Table, TableError, read_table};
use std::alloc::{AllocError, Global};
use std::process::Abort;

/// All that a table holds: its version, and a line for each row.
fn rows_of(alloc: Global, table: &Table) -> Result<String, AllocError> {
    let mut text = format!(in alloc; "{:?}\n", table.version())?;
    push_rows(&mut text, table.types())?;
    push_rows(&mut text, table.slaves())?;
    push_rows(&mut text, table.variables())?;
    push_rows(&mut text, table.links())?;
    Ok(text)
}

/// Compares all that the table of a text holds.
fn expect_rows(rt: &(impl AllocGlobal + Abort), text: &str, rows: &str) {
    let table = read_table(rt.alloc(), text).expect(rt, text);
    expect_text(rt, rows_of(rt.alloc(), &table), rows);
}

#[test]
fn reads_the_examples(rt: HostRuntime) {
    expect_rows(&rt, "", "One\n");
    expect_rows(&rt, THREE_SLAVES, THREE_SLAVES_READ);
    expect_rows(&rt, SHORT, THREE_SLAVES_READ);
    expect_rows(&rt, SMALL_MACHINE, SMALL_MACHINE_READ);
    expect_rows(&rt, THREE_OF_A_TYPE, THREE_OF_A_TYPE_READ);
}

/// A line for each link: the names of its variable and of its slave.
fn ends_of(alloc: Global, table: &Table) -> Result<String, AllocError> {
    let mut text = String::new(alloc);
    for link in 0..table.links().len() {
        let variable = table.variable_of(link).name.as_str();
        let slave = table.slave_of(link).name.as_str();
        writeln!(text, "{variable} {slave}")?;
    }
    Ok(text)
}

#[test]
fn names_the_ends_of_links(rt: HostRuntime) {
    let table = read_table(rt.alloc(), THREE_OF_A_TYPE).expect(&rt, "a table");
    expect_text(&rt, ends_of(rt.alloc(), &table), "v0 s0\nv1 s1\nv2 s2\n");
}

/// Whether a text states a table, or is refused as texts are, and not for want of memory.
fn is_told(alloc: Global, text: &str) -> bool {
    match read_table(alloc, text).err() {
        Some(error) => error.number() > 10 && error.number() < 16 && error.fault().is_some(),
        None => true,
    }
}

#[test]
fn reads_a_text_cut_anywhere(rt: HostRuntime) {
    for end in 0..THREE_SLAVES.len() {
        let text = THREE_SLAVES.get(..end).unwrap_or("");
        expect(&rt, is_told(rt.alloc(), text), text);
    }
}

/// An element of a section.
fn seventh(section: Section) -> Position {
    Position {
        section,
        element: 7,
    }
}

/// A fault of a text says this.
fn expect_fault(rt: &(impl AllocGlobal + Abort), fault: Fault, wanted: &str) {
    expect_said(rt, &TableError::Refused(fault), wanted);
}

#[test]
fn says_what_is_wrong(rt: HostRuntime) {
    expect_said(&rt, &TableError::Memory, "out of memory");
    expect_fault(&rt, Fault::Toml, "the text is not TOML");
    expect_fault(
        &rt,
        Fault::BadKey(seventh(Section::Top)),
        "the document: a key is unknown, or one is missing",
    );
    expect_fault(
        &rt,
        Fault::BadValue(seventh(Section::Type)),
        "type 7: a value has the wrong kind, range or number of items",
    );
    expect_fault(
        &rt,
        Fault::TwiceNamed(seventh(Section::Slave)),
        "slave 7: a name or an index stands twice",
    );
    expect_fault(
        &rt,
        Fault::BadKey(seventh(Section::Variable)),
        "variable 7: a key is unknown, or one is missing",
    );
    expect_fault(
        &rt,
        Fault::UnknownName(seventh(Section::Link)),
        "link 7: a name or an index is unknown",
    );
}

//! Cycles whose frames are as long as a frame can be: 1470 bytes behind the header, 1472 in all.
use crate::cycle::steps::expect_steps;
use crate::lines::expect_same;
use ec_cycle::Master;
use ec_link::Machine;
use ec_start::HeldPlan;
use std::alloc::{AllocError, Global};
use std::process::Abort;
use std::sync::Arc;

/// One variable is the last byte of the sixth slave, one is the bit of the seventh.
const LINKS_OF_SEVEN: &str = r#"[[variable]]
name = "a"
dir = "out"
bits = 8
[[variable]]
name = "b"
dir = "out"
bits = 1
[[link]]
var = "a"
slave = "s5"
index = 0x7000
sub = 18
bits = [0, 40, 8]
[[link]]
var = "b"
slave = "s6"
index = 0x7000
sub = 1
"#;

/// A variable is the last byte of the third slave.
const LINK_OF_THREE: &str = r#"[[variable]]
name = "a"
dir = "out"
bits = 8
[[link]]
var = "a"
slave = "s2"
index = 0x7000
sub = 25
"#;

/// So many bits in entries of 64 bits and one with the rest; up to 2048.
fn push_entries(text: &mut String, bits: u32) -> Result<(), AllocError> {
    let mut rest = bits;
    for sub in 1..33u8 {
        let count = rest.min(64);
        if count > 0 {
            write!(text, "[0x7000, {sub}, {count}], ")?;
        }
        rest -= count;
    }
    Ok(())
}

/// A slave with so many output bits, of a type of its own, which takes part in LRW or doesn't.
fn push_slave(text: &mut String, place: usize, bits: u32, has_lrw: bool) -> Result<(), AllocError> {
    write!(
        text,
        "[[slave]]
name = \"s{place}\"
type = \"t{place}\"
[[type]]
name = \"t{place}\"
vendor = 1
product = 1
revision = 1
out_start = 0x1100
in_start = 0
lrw = {has_lrw}
rxpdo = [ {{ index = 0x1600, entries = ["
    )?;
    push_entries(text, bits)?;
    text.push_str("] } ]\n")
}

/// Slaves with so many output bits each.
fn push_slaves(text: &mut String, slaves: &[u32], has_lrw: bool) -> Result<(), AllocError> {
    for (place, bits) in slaves.iter().enumerate() {
        push_slave(text, place, *bits, has_lrw)?;
    }
    Ok(())
}

/// So many input variables of 64 bits.
fn push_variables(text: &mut String, count: usize) -> Result<(), AllocError> {
    for place in 0..count {
        write!(
            text,
            "[[variable]]\nname = \"v{place}\"\ndir = \"in\"\nbits = 64\n"
        )?;
    }
    Ok(())
}

/// A table of slaves with so many output bits each, and these variables and links.
fn table_of(rt: &(impl AllocGlobal + Abort), slaves: &[u32], has_lrw: bool, links: &str) -> String {
    let mut text = String::new(rt.alloc());
    push_slaves(&mut text, slaves, has_lrw).expect(rt, "memory");
    text.push_str(links).expect(rt, "memory");
    text
}

/// The first part is full; the last slave's one bit is the second part.
const FULL_PART: &str = "\
sets 0 0xA5
sets 1 1
ready 517
begins
sends 0 be15 \
    0005 0000 0000 0a80 0000 0502000000000000 0000 0000 \
    0705 0000 3001 0280 0000 0000 0000 \
    0c05 00000100 8e05 0000 +1421 a5 0000
sends 1 3110 \
    0005 0000 0000 0a80 0000 0502000000000000 0100 0000 \
    0705 0000 3001 0280 0000 0000 0000 \
    0c05 8e050100 0100 0000 01 0000
keeps be15 \
    0005 0000 0000 0a80 0000 0502000000000000 0000 0000 \
    0705 0700 3001 0280 0000 0800 0700 \
    0c05 00000100 8e05 0000 +1421 a5 0c00
keeps 3110 \
    0005 0000 0000 0a80 0000 0502000000000000 0100 0000 \
    0705 0700 3001 0280 0000 0800 0700 \
    0c05 8e050100 0100 0000 01 0200
closes 1 12,2 0x0008";

/// Without LRW a full part has 705 bytes, which go out and come back in two datagrams.
const FULL_SPLIT_PART: &str = "\
sets 0 0xA5
ready 517
begins
sends 0 be15 \
    0005 0000 0000 0a80 0000 0502000000000000 0000 0000 \
    0705 0000 3001 0280 0000 0000 0000 \
    0b05 00000100 c182 0000 +704 a5 0000 \
    0a05 00000100 c102 0000 +705 0000
keeps be15 \
    0005 0000 0000 0a80 0000 0502000000000000 0000 0000 \
    0705 0300 3001 0280 0000 0800 0300 \
    0b05 00000100 c182 0000 +704 a5 0300 \
    0a05 00000100 c102 0000 +705 0000
closes 1 3+0 0x0008";

/// Takes steps with a master of slaves with so many output bits each.
fn expect_full(
    rt: &(impl AllocGlobal + Abort),
    slaves: &[u32],
    has_lrw: bool,
    links: &str,
    lines: &str,
) {
    expect_steps(rt, table_of(rt, slaves, has_lrw, links).as_str(), lines);
}

#[test]
fn full_parts(rt: HostRuntime) {
    let seven = [2048, 2048, 2048, 2048, 2048, 1136, 1];
    expect_full(&rt, &seven, true, LINKS_OF_SEVEN, FULL_PART);
    let three = [2048, 2048, 1544];
    expect_full(&rt, &three, false, LINK_OF_THREE, FULL_SPLIT_PART);
}

/// A master that owns its machine.
fn owning_master(alloc: Global, machine: Machine) -> Result<Master<'static>, AllocError> {
    let machine = Arc::new(alloc, machine)?;
    // the plan of each machine can be used
    let _ = machine.plan();
    Master::of(alloc, HeldPlan::Shared(machine))
}

/// A master, as it is made, has so many bytes of inputs.
fn expect_inputs(rt: &impl Abort, master: Result<Master<'static>, AllocError>, count: usize) {
    let master = master.expect(rt, "memory");
    expect_same(rt, &master.inputs().len(), &count, "inputs");
}

/// There is memory for a master of a table, whether its plan is lent or shared.
fn expect_master(rt: &(impl AllocGlobal + Abort), table: &str, count: usize) {
    expect_steps(rt, table, "next 0");
    let machine = Machine::read(rt.alloc(), table).expect(rt, "a machine");
    expect_inputs(rt, owning_master(rt.alloc(), machine), count);
}

/// There is one of so many slaves, each with as many outputs as a slave may have.
fn expect_master_of(rt: &(impl AllocGlobal + Abort), slaves: &[u32]) {
    let mut table = table_of(rt, slaves, true, "");
    push_variables(&mut table, slaves.len()).expect(rt, "memory");
    expect_master(rt, table.as_str(), slaves.len().saturating_mul(8));
}

#[test]
fn masters_of_all_sizes(rt: HostRuntime) {
    let slaves = [2048; 64];
    for count in 1..65 {
        expect_master_of(&rt, &slaves[..count]);
    }
}

//! Wires over memory to every number of slaves.
use crate::rows::assert_same;
use crate::wire::machines::{READ, machine_of, ring_of, wire_to};
use ec_wire::Wire;
use std::alloc::AllocError;
use std::process::Abort;

/// A type to which slaves are added.
const TYPE: &str = r#"[[type]]
name = "t"
vendor = 1
product = 1
revision = 1
out_start = 0x1100
in_start = 0x1400
rxpdo = [ { index = 0x1600, entries = [[0x7000, 1, 16]] } ]
"#;

/// Adds a slave of that type.
fn push_slave(text: &mut String, place: u16) -> Result<(), AllocError> {
    write!(text, "[[slave]]\nname = \"s{place}\"\ntype = \"t\"\n")
}

/// A table of so many slaves.
fn table_of(rt: &(impl AllocGlobal + Abort), slaves: u16) -> String {
    let mut text = TYPE.to_string(rt.alloc()).expect(rt, "memory");
    for place in 0..slaves {
        push_slave(&mut text, place).expect(rt, "memory");
    }
    text
}

/// The broadcast goes over a wire to so many slaves, with room for so many payloads, and each of them counts it.
pub fn expect_size(rt: &(impl AllocGlobal + Abort), slaves: u16, room: usize) {
    let machine = machine_of(rt, table_of(rt, slaves).as_str());
    let mut wire = wire_to(rt, ring_of(rt, &machine), room, u64::MAX);
    let mut back = [0; 16];
    wire.send(&READ);
    let count = wire.recv(&mut back);
    let counter = u16::from_le_bytes([back[14], back[15]]);
    assert_same(rt, &(count, counter), &(16, slaves), "slaves");
}

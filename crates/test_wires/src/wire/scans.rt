//! Scans over memory.
use crate::rows::assert_same;
use crate::wire::machines::{ring_of, wire_to};
use ec_found::{Found, differences_text, found_of, printed};
use ec_link::Machine;
use ec_scan::{Line, ScanError, Shown, scan};
use ec_start::StartError;
use ec_table::read_table;
use ec_wire::{MemoryWire, Restless};
use std::process::Abort;

/// Room for the payloads of a scan of a few slaves.
const ROOM: usize = 4000;

/// The machine of a table whose slaves are full.
fn full_machine_of(rt: &(impl AllocGlobal + Abort), text: &str) -> Machine {
    let mut table = read_table(rt.alloc(), text).expect(rt, "a table");
    table.advertise_full();
    Machine::new(rt.alloc(), table).expect(rt, "a machine")
}

/// A line to the slaves of a machine, on which the call of this number is a fault.
fn line_to(
    rt: &(impl AllocGlobal + Abort),
    machine: &Machine,
    call: u64,
) -> Line<MemoryWire, Restless> {
    Line::new(wire_to(rt, ring_of(rt, machine), ROOM, call), Restless)
}

/// What slaves are.
pub fn all_found(rt: &(impl AllocGlobal + Abort), shown: &[Shown]) -> Vec<Found> {
    let mut found = Vec::new(rt.alloc());
    for slave in shown {
        let one = found_of(rt.alloc(), slave).expect(rt, "memory");
        found.push(one).expect(rt, "memory");
    }
    found
}

/// A scan finds the full slaves of a table, and prints a table with as many.
pub fn expect_scan(rt: &(impl AllocGlobal + Abort), text: &str) {
    let machine = full_machine_of(rt, text);
    let mut line = line_to(rt, &machine, u64::MAX);
    let shown = scan(rt.alloc(), &mut line).expect(rt, "slaves");
    let found = all_found(rt, shown.as_slice());
    let other = differences_text(rt.alloc(), machine.table(), found.as_slice()).expect(
        rt, "memory",
    );
    assert_same(rt, &other.as_str(), &"", "what differs");
    let text = printed(rt.alloc(), shown.as_slice(), found.as_slice()).expect(rt, "a text");
    let read = Machine::read(rt.alloc(), text.as_str()).expect(rt, "a machine");
    let slaves = (read.table().slaves().len(), read.table().is_hardware());
    assert_same(
        rt,
        &slaves,
        &(machine.table().slaves().len(), true),
        "slaves",
    );
}

/// A scan is lost with a call of its wire, wherever that is.
pub fn expect_lost_scans(rt: &(impl AllocGlobal + Abort), text: &str) {
    let machine = full_machine_of(rt, text);
    for call in [0, 1, 40, 201] {
        let ended = scan(rt.alloc(), &mut line_to(rt, &machine, call));
        let is_lost = matches!(ended, Err(ScanError::Start(StartError::Lost)));
        assert_same(rt, &is_lost, &true, "a fault of the wire");
    }
}

//! Start-ups over wires.
use crate::rows::assert_same;
use crate::wire::fakes::Fake;
use crate::wire::machines::{ring_of, startup_of, wire_to};
use ec_link::Machine;
use ec_start::{StartError, Startup};
use ec_wire::{Wire, bring_up_resting, bring_up_wire};
use std::process::Abort;
use std::time::Clock;

/// How a start-up ended, and its next number.
type Ended = (&'static str, u64);

fn end_of(startup: &Startup<'_>) -> &'static str {
    match startup.outcome() {
        Some(Ok(())) => "ready",
        Some(Err(StartError::Lost)) => "lost",
        Some(Err(_)) => "failed",
        None => "not ended",
    }
}

/// Runs a start-up over a wire.
fn run<W: Wire>(startup: &mut Startup<'_>, wire: &mut W) -> Ended {
    bring_up_wire(startup, wire);
    (end_of(startup), startup.next_number())
}

/// A start-up over memory ends so whose call of this number is a fault.
type Row = (u64, Ended);

const ROWS: [Row; 6] = [
    (u64::MAX, ("ready", 75)),
    (150, ("ready", 75)),
    (0, ("lost", 1)),
    (1, ("lost", 1)),
    (74, ("lost", 38)),
    (149, ("lost", 75)),
];

/// How it ends.
fn ended(rt: &(impl AllocGlobal + Abort), machine: &Machine, call: u64) -> Ended {
    let mut startup = startup_of(rt, machine, 0);
    run(
        &mut startup,
        &mut wire_to(rt, ring_of(rt, machine), 75, call),
    )
}

fn expect_rows(rt: &(impl AllocGlobal + Abort), machine: &Machine) {
    for row in &ROWS {
        assert_same(rt, &(row.0, ended(rt, machine, row.0)), row, row.1.0);
    }
}

/// A start-up over nothing but payloads of one byte is lost after 64 of them.
fn expect_lost(rt: &impl Abort, machine: &Machine) {
    let mut fake = Fake {
        failures: 0,
        bytes: 1,
        received: 0,
    };
    let ended = run(&mut startup_of(rt, machine, 0), &mut fake);
    let seen = (fake.received, ended);
    assert_same(rt, &seen, &(64, ("lost", 1)), "strange payloads");
}

/// Start-ups of a machine over memory, each with a fault or none, and over strange payloads.
pub fn expect_ends(rt: &(impl AllocGlobal + Abort), machine: &Machine) {
    expect_rows(rt, machine);
    expect_lost(rt, machine);
}

/// A start-up over memory that may rest ends ready as well.
pub fn expect_rested<H: AllocGlobal + Abort + Clock>(rt: &H, machine: &Machine) {
    let mut startup = startup_of(rt, machine, 0);
    let mut wire = wire_to(rt, ring_of(rt, machine), 75, u64::MAX);
    bring_up_resting(&mut startup, &mut wire, rt);
    assert_same(
        rt,
        &(end_of(&startup), wire.failures()),
        &("ready", 0),
        "a start-up at rest",
    );
}

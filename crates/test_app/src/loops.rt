//! `ecat loop` over a wire in memory whose calls can fail.

use crate::compare::expect_same;
use ec_app::{OutputStream, Refusal, run_loop};
use ec_bringup::slaves_of_machine;
use ec_link::Machine;
use ec_start::StartError;
use ec_wire::{MemoryWire, RunError};
use std::alloc::{AllocError, Global};
use std::process::Abort;
use test_data::THREE_SLAVES;

/// The call of the wire that fails, how a run of two cycles then ends, and what it has printed.
type Fault<'a> = (u64, Refusal, &'a str);

// The start-up of the three slaves has 75 frames, so the first cycle begins with the 151st call.
const FAULTS: [Fault; 3] = [
    (0, Refusal::Start(StartError::Lost), ""),
    (149, Refusal::Start(StartError::Lost), ""),
    (150, Refusal::Run(RunError::Wire), "ready\n"),
];

/// Runs two cycles of a machine over a wire. No clause says what it returns.
fn run_over(
    alloc: Global,
    machine: &Machine,
    wire: &mut MemoryWire,
    output: &mut OutputStream<Vec<u8>>,
) -> Result<(), Refusal> {
    run_loop(alloc, machine, wire, 2, output)
}

/// Compares how a run ended, and what it has printed.
fn expect_end(rt: &impl Abort, ended: Result<(), Refusal>, printed: &[u8], fault: &Fault) {
    let (call, refusal, wanted) = *fault;
    expect_same(
        rt,
        &(call, ended, printed),
        &(call, Err(refusal), wanted.as_bytes()),
        "a loop",
    );
}

/// A wire to the slaves of a machine, whose call of this number fails.
fn wire_of(alloc: Global, machine: &Machine, fails_at: u64) -> Result<MemoryWire, AllocError> {
    let slaves = slaves_of_machine(alloc, machine)?;
    MemoryWire::new(alloc, slaves, 100, fails_at)
}

/// Runs two cycles over a wire that fails, and compares how that ends.
fn expect_fault<H: AllocGlobal + Abort>(rt: &H, machine: &Machine, fault: &Fault) {
    let mut wire = wire_of(rt.alloc(), machine, fault.0).expect(rt, "memory");
    let mut output: OutputStream<Vec<u8>> = OutputStream::new(Vec::new(rt.alloc()));
    let ended = run_over(rt.alloc(), machine, &mut wire, &mut output);
    expect_end(rt, ended, output.into_stream().as_slice(), fault);
}

/// Does so for each fault.
fn expect_faults<H: AllocGlobal + Abort>(rt: &H, machine: &Machine) {
    for fault in &FAULTS {
        expect_fault(rt, machine, fault);
    }
}

#[test]
fn ends_at_a_fault_of_the_wire(rt: HostRuntime) {
    let machine = Machine::read(rt.alloc(), THREE_SLAVES).expect(&rt, "a good table");
    expect_faults(&rt, &machine);
}

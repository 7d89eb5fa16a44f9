//! `ecat loop`: cycles of a link table over two sockets of this process.
ghost use Rattle.std.specs.Prelude.{◌≡◌, ◌≤◌, ◌%◌, ◌^◌, List, [], All, None, Some, Ok, IfErr, IfOk, OnErr, OnOk, is_some, length, slice_get};
ghost use Rattle.std.specs.String.{string_bytes};
ghost use Rattle.ec_link.specs.Plan.{plan_of};
ghost use Rattle.ec_start.specs.Planned.{HasFewAssigned};
ghost use Rattle.ec_cycle.specs.Closing.{ReportState};
ghost use Rattle.ec_cycle.specs.Master.{new_master};
ghost use Rattle.ec_bringup.specs.SwitchedOn.{AreSlavesOf};
ghost use Rattle.ec_slave.specs.State.{SlaveState};
ghost use Rattle.ec_wire.specs.Running.{IsRun};
ghost use Rattle.ec_wire.specs.Wires.{IsBack, opened_to};
ghost use Rattle.ec_wire.specs.Taps.{IsTraceOf};
ghost use Rattle.ec_text.specs.ReportText.{report_text};
ghost use Rattle.cmd_loop.specs.Looping.{AreRun, CanCycle, IsCycleRefusal, IsRunEnd, IsStartRefusal, IsUnbound, IsUp, Loops, LoopsOnSockets, RunsCycles, cycles_text, output_put, with_outputs};
ghost use Rattle.ec_console.specs.Printing.{IsPrinted};
ghost use Rattle.cmd_loop.specs.Stages.{IsCut};

use ec_bringup::slaves_of_machine;
use ec_console::{Capture, OutputStream, Refusal, print_text};
use ec_cycle::{Master, Report};
use ec_link::{Machine, Plan, Variable};
use ec_start::Startup;
use ec_text::{input_lines, write_report};
use ec_wire::{
    App, CapturedWire, LoopWire, Loopback, RunError, Side, Wire, bring_up_wire, run_cycle,
};
use std::alloc::Global;
use std::fs::Files;
use std::io::Write;
use std::net::Net;
use std::time::Clock;

/// What is printed when the slaves are up.
const READY: &str = "ready\n";

/// Brings up the slaves on a wire and runs `cycles` cycles of a machine over it. Cycle n sends each output variable as n, cut to its
/// bits. It prints a line when the slaves are up, and the report on each cycle before the next begins. At the end it prints the input
/// variables.
///
/// # Errors
///
/// `Refusal::Memory` if memory ran out. The start-up's refusal if it failed, and the run's if a cycle couldn't be run.
/// `Refusal::Output` if the output couldn't be written.
pub fn run_loop<W: Wire, O: Write + Drop>(
    alloc: Global,
    machine: &Machine,
    wire: &mut W,
    cycles: u16,
    output: &mut OutputStream<O>,
) -> Result<(), Refusal>
    ensures { Loops cycles machine.now (W.state wire.old) (W.state wire.new)
        output.old output.new result }
{
    let mut master = started(alloc, machine, wire)?;
    run_started(alloc, machine, &mut master, wire, cycles, output)
}

/// Runs `cycles` cycles of a machine, with master and slaves on two sockets of this process. The slaves have the application of
/// `loopback`, which counts what goes over the sockets. It prints what [`run_loop`] prints. What the master sends and receives goes
/// into an open capture, if there is one.
///
/// # Errors
///
/// `Refusal::Memory` if memory ran out, `Refusal::Socket` if there are no such sockets, and the errors of [`run_loop`].
#[tactic(auto, using(crate::proofs::LoopLemmas::no_wire, crate::proofs::LoopLemmas::looped_between))]
pub fn run_loopback<H: AllocGlobal + Net + Files + Clock, W: Write + Drop, A: App + Drop>(
    rt: &H,
    machine: &Machine,
    cycles: u16,
    capture: &mut Capture<H::File>,
    output: &mut OutputStream<W>,
    loopback: &mut Loopback<A>,
) -> Result<(), Refusal>
    ensures loops { LoopsOnSockets cycles machine.now output.old output.new
        loopback.old.traffic loopback.new.traffic result }
    ensures still_open { is_some capture.new ≡ is_some capture.old }
    ensures back { IsBack loopback.old loopback.new }
{
    let wire = open_loop(rt, machine, loopback)?;
    let (ended, wire) = run_tapped(rt, machine, wire, cycles, capture, output);
    loopback.close(wire);
    ended
}

/// Runs `cycles` cycles with a master whose slaves are up, and prints what [`run_loop`] prints.
fn run_started<W: Wire, O: Write + Drop>(
    alloc: Global,
    machine: &Machine,
    master: &mut Master<'_>,
    wire: &mut W,
    cycles: u16,
    output: &mut OutputStream<O>,
) -> Result<(), Refusal>
    requires ready { CanCycle (plan_of machine.now) master.old }
    ensures { RunsCycles cycles machine.now master.old (W.state wire.old) (W.state wire.new)
        output.old output.new result }
{
    print_cycles(alloc, machine, master, wire, cycles, output)?;
    let lines = input_lines(alloc, machine.table(), master)?;
    print_text(lines.as_bytes(), output)
}

/// Prints that the slaves are up, and runs `cycles` cycles. It prints the report on each before the next begins.
fn print_cycles<W: Wire, O: Write + Drop>(
    alloc: Global,
    machine: &Machine,
    master: &mut Master<'_>,
    wire: &mut W,
    cycles: u16,
    output: &mut OutputStream<O>,
) -> Result<(), Refusal>
    requires ready { CanCycle (plan_of machine.now) master.old }
    ensures all { OnOk result ((reports : List ReportState)
        × AreRun master.old (W.state wire.old) 1 reports master.new (W.state wire.new) × (length reports ≡ cycles)
        × IsPrinted output.old output.new (cycles_text machine.now reports)) }
    ensures part { IfErr result (IsCut cycles machine.now master.old (W.state wire.old) (W.state wire.new)
        output.old output.new) }
{
    print_text(READY.as_bytes(), output)?;
    for cycle in 0..cycles {
        let line = cycle_line(alloc, machine, master, wire, u64::from(cycle) + 1)?;
        print_text(line.as_bytes(), output)?;
    }
    Ok(())
}

/// Runs one cycle that sends a number, and returns the line of its report.
fn cycle_line<W: Wire>(
    alloc: Global,
    machine: &Machine,
    master: &mut Master<'_>,
    wire: &mut W,
    number: u64,
) -> Result<String, Refusal>
    requires ready { CanCycle (plan_of machine.now) master.old }
    ensures line { IfOk result (λ text. (r : ReportState)
        × IsRun (with_outputs master.old number) (W.state wire.old) (W.state wire.new) (Ok r) master.new
        × (string_bytes text ≡ report_text machine.now.version (plan_of machine.now).parts r)) }
    ensures ready { OnOk result (CanCycle (plan_of machine.now) master.new) }
    ensures refused { IfErr result (IsCycleRefusal (with_outputs master.old number) (W.state wire.old) (W.state wire.new)) }
{
    let (version, plan) = (machine.table().version(), machine.plan());
    let report = run_number(plan, master, wire, number)?;
    let mut text = String::new(alloc);
    write_report(alloc, &mut text, version, plan.parts(), &report)?;
    Ok(text)
}

/// Runs one cycle that sends each output variable as a number, cut to its bits.
fn run_number<W: Wire>(
    plan: &Plan,
    master: &mut Master<'_>,
    wire: &mut W,
    number: u64,
) -> Result<Report, RunError>
    requires ready { CanCycle plan.now master.old }
    ensures ready { OnOk result (CanCycle plan.now master.new) }
    ensures run { IfOk result (λ r. IsRun (with_outputs master.old number) (W.state wire.old) (W.state wire.new) (Ok r) master.new) }
    ensures ended { IfErr result (IsRunEnd (with_outputs master.old number) (W.state wire.old) (W.state wire.new)) }
{
    set_outputs(master, plan, number);
    run_cycle(master, wire)
}

/// Brings up the slaves of a machine over a wire, and returns a master of it that can begin cycles.
fn started<'p, W: Wire>(
    alloc: Global,
    machine: &'p Machine,
    wire: &mut W,
) -> Result<Master<'p>, Refusal>
    ensures ready { IfOk result (CanCycle (plan_of machine.now)) }
    ensures up { IfOk result (IsUp (plan_of machine.now) (W.state wire.old) (W.state wire.new)) }
    ensures refused { IfErr result (IsStartRefusal (plan_of machine.now) (W.state wire.old) (W.state wire.new)) }
{
    let plan = machine.plan();
    let mut master = Master::new(alloc, plan)?;
    bring_up_for(plan, &mut master, wire)?;
    Ok(master)
}

/// Brings up the slaves of a plan over a wire for a new master of it, which can then begin cycles.
fn bring_up_for<W: Wire>(plan: &Plan, master: &mut Master<'_>, wire: &mut W) -> Result<(), Refusal>
    requires few { All HasFewAssigned plan.now.slaves }
    requires new { master.old ≡ new_master plan.now }
    ensures up { OnOk result (IsUp plan.now (W.state wire.old) (W.state wire.new) master.new) }
    ensures refused { IfErr result (IsStartRefusal plan.now (W.state wire.old) (W.state wire.new)) }
{
    let mut startup = Startup::new(plan, 0);
    bring_up_wire(&mut startup, wire);
    startup.outcome().unwrap()?;
    master.ready(&startup);
    Ok(())
}

/// Sets each output variable to a number, cut to its bits.
fn set_outputs(master: &mut Master<'_>, plan: &Plan, number: u64)
    requires { master.old.plan.variables ≡ plan.now.variables }
    ensures { master.new ≡ with_outputs master.old number }
{
    master.is_sound();
    for variable in 0..plan.variables().len() {
        set_output(master, variable, plan.variables()[variable], number);
    }
}

/// Sets a variable to a number, cut to its bits, if it is an output.
fn set_output(master: &mut Master<'_>, variable: usize, place: Variable, number: u64)
    requires there { slice_get master.old.plan.variables variable ≡ Some place }
    requires few { place.bits ≤ 64 }
    ensures { master.new ≡ record master.old { outputs = output_put number master.old.outputs place } }
{
    let value = cut_to(number, place.bits);
    if master.can_set(variable, value) {
        master.set(variable, value);
    }
}

/// The lowest `bits` bits of a number.
fn cut_to(number: u64, bits: u8) -> u64
    requires { bits ≤ 64 }
    ensures { result ≡ number % 2 ^ bits }
{
    if bits < 64 {
        number % (1 << bits)
    } else {
        number
    }
}

/// Runs cycles of a machine over a wire that has carried nothing yet, and notes what it carries in a capture, if there
/// is one. It hands the wire on.
#[tactic(auto, using(crate::proofs::LoopLemmas::tapped_loops))]
fn run_tapped<H: AllocGlobal + Files + Clock, W: Wire + Drop, O: Write + Drop>(
    rt: &H,
    machine: &Machine,
    wire: W,
    cycles: u16,
    capture: &mut Capture<H::File>,
    output: &mut OutputStream<O>,
) -> (Result<(), Refusal>, W)
    requires sent { IsTraceOf (W.state wire).sent [] }
    requires received { IsTraceOf (W.state wire).received [] }
    ensures loops { Loops cycles machine.now (W.state wire) (W.state result.1)
        output.old output.new result.0 }
    ensures still_open { is_some capture.new ≡ is_some capture.old }
{
    match capture.take() {
        None => {
            let mut wire = wire;
            let ended = run_loop(rt.alloc(), machine, &mut wire, cycles, output);
            (ended, wire)
        }
        Some(recording) => {
            let mut tapped = CapturedWire::new(wire, recording, Side::Master, rt);
            let ended = run_loop(rt.alloc(), machine, &mut tapped, cycles, output);
            let (wire, recording) = tapped.into_parts();
            *capture = Some(recording);
            (ended, wire)
        }
    }
}

/// Opens a wire between two sockets of this process, to the slaves of a machine, just switched on. The wire takes the application
/// of `loopback`.
fn open_loop<H: AllocGlobal + Net, A: App + Drop>(
    rt: &H,
    machine: &Machine,
    loopback: &mut Loopback<A>,
) -> Result<LoopWire<A>, Refusal>
    ensures slaves { OnOk result ((slaves : List SlaveState) × AreSlavesOf machine.now slaves
        × (loopback.new.traffic ≡ opened_to (length slaves) loopback.old.traffic)) }
    ensures opened { IfOk result (λ wire. wire.traffic ≡ loopback.new.traffic) }
    ensures taken { OnOk result (loopback.new.app ≡ None) }
    ensures refused { IfErr result IsUnbound }
    ensures unchanged { OnErr result (loopback.new ≡ loopback.old) }
{
    let slaves = slaves_of_machine(rt.alloc(), machine)?;
    let wire = loopback.open(rt, slaves)?;
    Ok(wire)
}

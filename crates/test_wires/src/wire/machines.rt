//! Machines to run: their slaves, masters and start-ups. No clause here says what calls of libraries promise
//! that isn't asked for, so those who call these functions carry nothing of it.
ghost use Rattle.std.specs.Prelude.{◌≡◌};
ghost use Rattle.ec_link.specs.Plan.{plan_of};
ghost use Rattle.ec_scan.specs.Lines.{IsFresh};

use crate::rows::expect;
use ec_bringup::slaves_of_machine;
use ec_cycle::Master;
use ec_link::{Machine, Plan};
use ec_ring::Ring;
use ec_start::{Phase, Startup};
use ec_wire::{MemoryWire, Wire, bring_up_wire};
use std::process::Abort;

/// A broadcast that reads two bytes.
pub const READ: [u8; 16] = [14, 16, 7, 1, 0, 0, 0x30, 1, 2, 0, 0, 0, 0, 0, 0, 0];

/// The machine of a table.
pub fn machine_of(rt: &(impl AllocGlobal + Abort), text: &str) -> Machine {
    Machine::read(rt.alloc(), text).expect(rt, "a machine")
}

/// The slaves of a machine as they are switched on.
pub fn ring_of(rt: &(impl AllocGlobal + Abort), machine: &Machine) -> Ring {
    slaves_of_machine(rt.alloc(), machine).expect(rt, "memory")
}

/// A wire over memory, with room for so many payloads, whose call of this number is a fault.
pub fn wire_to(rt: &(impl AllocGlobal + Abort), ring: Ring, room: usize, call: u64) -> MemoryWire
    ensures { IsFresh result.sent }
{
    MemoryWire::new(rt.alloc(), ring, room, call).expect(rt, "memory")
}

/// A master of a machine.
pub fn master_of<'p>(rt: &(impl AllocGlobal + Abort), machine: &'p Machine) -> Master<'p>
    ensures { result.plan ≡ plan_of machine.now }
{
    Master::new(rt.alloc(), machine.plan()).expect(rt, "memory")
}

/// A start-up of a plan whose first frame has this number.
fn startup_of_plan<'p>(rt: &impl Abort, plan: &'p Plan, number: u64) -> Startup<'p>
    ensures { result.plan ≡ plan.now.slaves }
{
    expect(rt, Startup::can_start(plan), "a start-up");
    Startup::new(plan, number)
}

/// A start-up of a machine whose first frame has this number.
pub fn startup_of<'p>(rt: &impl Abort, machine: &'p Machine, number: u64) -> Startup<'p>
    ensures { result.plan ≡ (plan_of machine.now).slaves }
{
    startup_of_plan(rt, machine.plan(), number)
}

/// Brings the slaves up over a wire, and makes the master ready.
pub fn bring_up<W: Wire>(
    rt: &impl Abort,
    startup: &mut Startup<'_>,
    wire: &mut W,
    master: &mut Master<'_>,
)
    requires { startup.old.plan ≡ master.old.plan.slaves }
{
    bring_up_wire(startup, wire);
    match startup.phase() {
        Phase::Ready => master.ready(startup),
        _ => expect(rt, false, "slaves that come up"),
    }
}

/// Brings the slaves of a machine up over memory by frames from this number on, and makes the master ready.
pub fn brought_up(
    rt: &(impl AllocGlobal + Abort),
    machine: &Machine,
    master: &mut Master<'_>,
    number: u64,
) -> Ring
    requires { master.old.plan ≡ plan_of machine.now }
{
    let mut startup = startup_of(rt, machine, number);
    let mut wire = wire_to(rt, ring_of(rt, machine), 3000, u64::MAX);
    bring_up(rt, &mut startup, &mut wire, master);
    wire.into_ring()
}

/// Sets an output variable, where it holds the value.
pub fn set(master: &mut Master<'_>, variable: usize, value: u64) {
    if master.can_set(variable, value) {
        master.set(variable, value);
    }
}

/// The value of a variable; 0 where there is none.
pub fn value_of(master: &Master<'_>, variable: usize) -> u64 {
    if variable < master.variables() {
        master.get(variable)
    } else {
        0
    }
}

//! Machines, and the slaves and the start-ups of them.

use crate::lines::expect;
use ec_bringup::slaves_of_machine;
use ec_link::{Machine, Plan};
use ec_ring::Ring;
use ec_start::Startup;
use std::process::Abort;

/// The table of `examples/three_slaves.toml`, a line for each list.
pub const THREE_SLAVES: &str = test_data::SHORT_THREE_SLAVES;

/// The machine of a table.
pub fn machine_of(rt: &(impl AllocGlobal + Abort), text: &str) -> Machine {
    Machine::read(rt.alloc(), text).expect(rt, "a machine")
}

/// The slaves of a machine as they are switched on.
pub fn ring_of(rt: &(impl AllocGlobal + Abort), machine: &Machine) -> Ring {
    slaves_of_machine(rt.alloc(), machine).expect(rt, "memory")
}

/// The table of the three slaves, without variables and links.
fn slaves_alone() -> &'static str {
    let (slaves, _) = THREE_SLAVES
        .split_once("variable = ")
        .unwrap_or((THREE_SLAVES, ""));
    slaves
}

/// The slaves of that table, in which a change `OLD => NEW` is made. A word that isn't there changes nothing.
fn changed_table(rt: &(impl AllocGlobal + Abort), change: &str) -> String {
    let (old, new) = change.split_once(" => ").unwrap_or((change, change));
    slaves_alone()
        .replace(rt.alloc(), old, new)
        .expect(rt, "memory")
}

/// The slaves of a table that was changed so, as they are switched on.
pub fn changed_ring(rt: &(impl AllocGlobal + Abort), change: &str) -> Ring {
    ring_of(rt, &machine_of(rt, changed_table(rt, change).as_str()))
}

/// A start-up of a plan whose first frame has this number.
fn startup_of_plan<'p>(rt: &impl Abort, plan: &'p Plan, number: u64) -> Startup<'p> {
    expect(rt, Startup::can_start(plan), "a start-up");
    Startup::new(plan, number)
}

/// A start-up of a machine whose first frame has this number.
pub fn startup_of<'p>(rt: &impl Abort, machine: &'p Machine, number: u64) -> Startup<'p> {
    startup_of_plan(rt, machine.plan(), number)
}

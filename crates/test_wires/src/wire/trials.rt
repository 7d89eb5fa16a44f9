//! What is tried with the machine of a table and a new master of it. Machines and masters go away here alone, since each
//! function in which one does is dear to prove.
ghost use Rattle.std.specs.Prelude.{◌≡◌};
ghost use Rattle.ec_link.specs.Plan.{plan_of};

use crate::rows::expect;
use crate::wire::cycles::{expect_error, expect_faults, expect_loop, expect_silence, expect_spent};
use crate::wire::machines::{machine_of, master_of};
use crate::wire::startups::{expect_ends, expect_rested};
use ec_cycle::{CycleError, Master};
use ec_link::Machine;
use ec_wire::RunError;
use std::net::Net;
use std::process::Abort;
use std::time::Clock;

/// The master is asked before the wire is: it isn't ready.
const NOT_READY: (RunError, u8, &str) = (RunError::Refused(CycleError::NotReady), 33, "NotReady");

/// A trial by its name. The full table has two variables, and 13 parts.
fn expect_trial(
    rt: &(impl Net + AllocGlobal + Abort + Clock),
    machine: &Machine,
    master: &mut Master<'_>,
    trial: &str,
)
    requires { master.old.plan ≡ plan_of machine.now }
{
    match trial {
        "start-ups" => expect_ends(rt, machine),
        "rest" => expect_rested(rt, machine),
        "faults" => expect_faults(rt, machine, master, (1, 3), 1),
        "faults of many" => expect_faults(rt, machine, master, (0, 1), 13),
        "refusal" => expect_error(rt, master, NOT_READY),
        "spent wire" => expect_spent(rt, machine, master),
        "silence" => expect_silence(rt, machine, master),
        "loop" => expect_loop(rt, machine, master),
        _ => expect(rt, false, trial),
    }
}

/// Each trial of these with a new master.
fn expect_trials_of(
    rt: &(impl Net + AllocGlobal + Abort + Clock),
    machine: &Machine,
    trials: &str,
) {
    for trial in trials.split(", ") {
        expect_trial(rt, machine, &mut master_of(rt, machine), trial);
    }
}

/// Trials of a table.
pub fn expect_trials(rt: &(impl Net + AllocGlobal + Abort + Clock), text: &str, trials: &str) {
    expect_trials_of(rt, &machine_of(rt, text), trials);
}

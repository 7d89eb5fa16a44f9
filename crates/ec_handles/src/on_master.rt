//! The calls on the handle of a master.
//!
//! A call takes a handle by value and hands one back through `out`, so that a handle is never in two places. The contract of each
//! call relates what the two handles own: the call of the session leads from the first to the second.
ghost use Rattle.std.specs.Prelude.{◌≡◌, true, is_some, length, slice_get};
ghost use Rattle.ec_handles.specs.Calling.{AreCopied, AsksNext, AsksState, Begins, Closes, Finds, Gets, GivesUp, Leads, Sets, SetsOutputs, CopiesInputs, CopiesPart, Takes, ReturnsPhase, ReturnsUnit, counted};
ghost use Rattle.ec_handles.specs.Facts.{Explains, GetsSigned, ReturnsFailure, counters_of, counters_result, failure_name, name_at, place_result};
ghost use Rattle.ec_handles.specs.Holding.{failure_of};
ghost use Rattle.ec_handles.specs.Opening.{HasMaster};
ghost use Rattle.ec_handles.specs.Refusing.{HasOpened};
ghost use Rattle.ec_handles.specs.Statuses.{state_result, told_of};

use crate::done::{Closed, Done, VariableValue};
use crate::facts::{PartCounters, Placed};
use crate::handle::{MasterHandle, RawBox, conceal_master, reveal_master};
use crate::opening::{NotOpened, boxed_master, opened, refusal_result};
use crate::statuses::Told;
use crate::{calls, facts};
use std::alloc::Global;

/// Opens the master of the table that bytes state, or writes the refusal into `told` and its name into `name`.
#[tactic(auto, using(crate::proofs::Leading::opened_as, crate::proofs::Leading::refused_as))]
pub fn open(
    alloc: Global,
    table: &[u8],
    name: &mut [u8],
    told: &mut NotOpened,
    out: &mut MasterHandle,
)
    ensures { HasOpened (HasMaster table.now) table.now told.new name.new out.new.held out.old out.new }
{
    match boxed_master(alloc, table) {
        Ok(held) => {
            *told = opened();
            *out = conceal_master(RawBox::of(held));
        }
        Err(error) => *told = refusal_result(error, name),
    }
}

/// Frees a master.
pub fn free(alloc: Global, master: MasterHandle)
    requires { is_some master.held ≡ true }
{
    let _held = reveal_master(master).into_box(alloc);
}

/// Writes the next frame of the start-up. The count is its length in bytes, 0 if there is none.
#[tactic(auto, using(crate::proofs::Leading::leads))]
pub fn next(alloc: Global, master: MasterHandle, frame: &mut [u8], out: &mut MasterHandle) -> Done
    requires { is_some master.held ≡ true }
    ensures { Leads master.held out.new.held (λ m n. AsksNext m frame.old result frame.new n) }
{
    let mut held = reveal_master(master).into_box(alloc);
    let done = calls::next(&mut held, frame);
    *out = conceal_master(RawBox::of(held));
    done
}

/// Takes a payload that came; done if it was kept. The count is how many parts of the open cycle are missing then.
#[tactic(auto, using(crate::proofs::Leading::leads))]
pub fn take(alloc: Global, master: MasterHandle, payload: &[u8], out: &mut MasterHandle) -> Done
    requires { is_some master.held ≡ true }
    ensures { Leads master.held out.new.held (λ m n. Takes m payload.now result n) }
{
    let mut held = reveal_master(master).into_box(alloc);
    let done = calls::take(&mut held, payload);
    *out = conceal_master(RawBox::of(held));
    done
}

/// Whether the start-up has ended Ready, or the number of its failure.
#[tactic(auto, using(crate::proofs::Leading::leads))]
pub fn phase(alloc: Global, master: MasterHandle, out: &mut MasterHandle) -> Done
    requires { is_some master.held ≡ true }
    ensures { Leads master.held out.new.held (λ m n. ReturnsPhase m result n) }
{
    let held = reveal_master(master).into_box(alloc);
    let done = calls::phase(&held);
    *out = conceal_master(RawBox::of(held));
    done
}

/// Ends a start-up that runs, as lost.
#[tactic(auto, using(crate::proofs::Leading::leads))]
pub fn give_up(alloc: Global, master: MasterHandle, out: &mut MasterHandle)
    requires { is_some master.held ≡ true }
    ensures { Leads master.held out.new.held (λ m n. GivesUp m n) }
{
    let mut held = reveal_master(master).into_box(alloc);
    calls::give_up(&mut held);
    *out = conceal_master(RawBox::of(held));
}

/// Whether the last frame of the start-up asks again what the one before it asked.
#[tactic(auto, using(crate::proofs::Leading::leads))]
pub fn waits(alloc: Global, master: MasterHandle, out: &mut MasterHandle) -> bool
    requires { is_some master.held ≡ true }
    ensures { Leads master.held out.new.held (λ m n. (n ≡ m) × (result ≡ m.polling.is_again)) }
{
    let held = reveal_master(master).into_box(alloc);
    let done = held.polling.is_again;
    *out = conceal_master(RawBox::of(held));
    done
}

/// The number of the last start-up's failure, or not done. The count is how many values it has, and these are written into `values`.
#[tactic(auto, using(crate::proofs::Leading::leads))]
pub fn failure(
    alloc: Global,
    master: MasterHandle,
    values: &mut [u64],
    out: &mut MasterHandle,
) -> Done
    requires { is_some master.held ≡ true }
    ensures { Leads master.held out.new.held (λ m n. (n ≡ m) × ReturnsFailure (failure_of m) values.old result values.new) }
{
    let held = reveal_master(master).into_box(alloc);
    let done = facts::failure(&held, values);
    *out = conceal_master(RawBox::of(held));
    done
}

/// Writes the name of that failure, if it fits. The count is its length in bytes, 0 if there is no failure.
#[tactic(auto, using(crate::proofs::Leading::leads))]
pub fn failure_name(
    alloc: Global,
    master: MasterHandle,
    name: &mut [u8],
    out: &mut MasterHandle,
) -> Done
    requires { is_some master.held ≡ true }
    ensures { Leads master.held out.new.held (λ m n. (n ≡ m) × AreCopied (failure_name (failure_of m)) name.old result name.new) }
{
    let held = reveal_master(master).into_box(alloc);
    let done = facts::copy_failure_name(&held, name);
    *out = conceal_master(RawBox::of(held));
    done
}

/// Writes in words what the last start-up failed by, if they fit. The count is their length in bytes, 0 if it didn't fail.
#[tactic(auto, using(crate::proofs::Leading::leads))]
pub fn explain(
    alloc: Global,
    master: MasterHandle,
    words: &mut [u8],
    out: &mut MasterHandle,
) -> Done
    requires { is_some master.held ≡ true }
    ensures { Leads master.held out.new.held (λ m n. (n ≡ m) × Explains (failure_of m) words.old result words.new) }
{
    let held = reveal_master(master).into_box(alloc);
    let done = facts::explain(&held, words);
    *out = conceal_master(RawBox::of(held));
    done
}

/// Writes the frame that asks for the AL state of a slave. The count is its length in bytes, 0 if there is none.
#[tactic(auto, using(crate::proofs::Leading::leads))]
pub fn state_next(
    alloc: Global,
    master: MasterHandle,
    slave: usize,
    frame: &mut [u8],
    out: &mut MasterHandle,
) -> Done
    requires { is_some master.held ≡ true }
    ensures { Leads master.held out.new.held (λ m n. AsksState m slave frame.old result frame.new n) }
{
    let mut held = reveal_master(master).into_box(alloc);
    let done = calls::next_state(&mut held, slave, frame);
    *out = conceal_master(RawBox::of(held));
    done
}

/// What the last answer said of the AL state of a slave.
#[tactic(auto, using(crate::proofs::Leading::leads))]
pub fn state(alloc: Global, master: MasterHandle, slave: usize, out: &mut MasterHandle) -> Told
    requires { is_some master.held ≡ true }
    ensures { Leads master.held out.new.held (λ m n. (n ≡ m) × (result ≡ state_result (told_of m.statuses slave))) }
{
    let held = reveal_master(master).into_box(alloc);
    let told = held.statuses.told(slave);
    *out = conceal_master(RawBox::of(held));
    told
}

/// The number of slaves, as the count.
#[tactic(auto, using(crate::proofs::Leading::leads))]
pub fn slaves(alloc: Global, master: MasterHandle, out: &mut MasterHandle) -> Done
    requires { is_some master.held ≡ true }
    ensures { Leads master.held out.new.held (λ m n. (n ≡ m) × (result ≡ counted true (length m.session.master.plan.slaves))) }
{
    let held = reveal_master(master).into_box(alloc);
    let done = calls::slaves(&held);
    *out = conceal_master(RawBox::of(held));
    done
}

/// Begins a cycle. The count is its number of parts.
#[tactic(auto, using(crate::proofs::Leading::leads))]
pub fn begin(alloc: Global, master: MasterHandle, out: &mut MasterHandle) -> Done
    requires { is_some master.held ≡ true }
    ensures { Leads master.held out.new.held (λ m n. Begins m result n) }
{
    let mut held = reveal_master(master).into_box(alloc);
    let done = calls::begin(&mut held);
    *out = conceal_master(RawBox::of(held));
    done
}

/// Writes the frame of a part of the open cycle, if it fits. The count is its length in bytes.
#[tactic(auto, using(crate::proofs::Leading::leads))]
pub fn part(
    alloc: Global,
    master: MasterHandle,
    part: usize,
    frame: &mut [u8],
    out: &mut MasterHandle,
) -> Done
    requires { is_some master.held ≡ true }
    ensures { Leads master.held out.new.held (λ m n. CopiesPart m part frame.old result frame.new n) }
{
    let held = reveal_master(master).into_box(alloc);
    let done = calls::copy_part(&held, part, frame);
    *out = conceal_master(RawBox::of(held));
    done
}

/// Closes the cycle, and returns its report: whether all units were taken, the missing parts, and the AL word.
#[tactic(auto, using(crate::proofs::Leading::leads))]
pub fn close(alloc: Global, master: MasterHandle, out: &mut MasterHandle) -> Closed
    requires { is_some master.held ≡ true }
    ensures { Leads master.held out.new.held (λ m n. Closes m result n) }
{
    let mut held = reveal_master(master).into_box(alloc);
    let done = calls::close(&mut held);
    *out = conceal_master(RawBox::of(held));
    done
}

/// Whether a sync unit was taken in the last report. The count is 1 if the report has the unit.
#[tactic(auto, using(crate::proofs::Leading::leads))]
pub fn unit(alloc: Global, master: MasterHandle, unit: u8, out: &mut MasterHandle) -> Done
    requires { is_some master.held ≡ true }
    ensures { Leads master.held out.new.held (λ m n. ReturnsUnit m unit result n) }
{
    let held = reveal_master(master).into_box(alloc);
    let done = calls::unit_result_of(&held, unit);
    *out = conceal_master(RawBox::of(held));
    done
}

/// The working counters of a part in the last report.
#[tactic(auto, using(crate::proofs::Leading::leads))]
pub fn counters(
    alloc: Global,
    master: MasterHandle,
    part: usize,
    out: &mut MasterHandle,
) -> PartCounters
    requires { is_some master.held ≡ true }
    ensures { Leads master.held out.new.held (λ m n. (n ≡ m) × (result ≡ counters_result (counters_of m part))) }
{
    let held = reveal_master(master).into_box(alloc);
    let counters = facts::counters(&held, part);
    *out = conceal_master(RawBox::of(held));
    counters
}

/// Sets a variable of the outputs, if there is one that holds the value.
#[tactic(auto, using(crate::proofs::Leading::leads))]
pub fn set(
    alloc: Global,
    master: MasterHandle,
    variable: usize,
    value: u64,
    out: &mut MasterHandle,
) -> Done
    requires { is_some master.held ≡ true }
    ensures { Leads master.held out.new.held (λ m n. Sets m variable value result n) }
{
    let mut held = reveal_master(master).into_box(alloc);
    let done = calls::set(&mut held, variable, value);
    *out = conceal_master(RawBox::of(held));
    done
}

/// The value of a variable, if there is one.
#[tactic(auto, using(crate::proofs::Leading::leads))]
pub fn get(
    alloc: Global,
    master: MasterHandle,
    variable: usize,
    out: &mut MasterHandle,
) -> VariableValue
    requires { is_some master.held ≡ true }
    ensures { Leads master.held out.new.held (λ m n. Gets m variable result n) }
{
    let held = reveal_master(master).into_box(alloc);
    let done = calls::get(&held, variable);
    *out = conceal_master(RawBox::of(held));
    done
}

/// Sets the image of all outputs if the lengths agree. The count is the image's number of bytes.
#[tactic(auto, using(crate::proofs::Leading::leads))]
pub fn outputs(alloc: Global, master: MasterHandle, outputs: &[u8], out: &mut MasterHandle) -> Done
    requires { is_some master.held ≡ true }
    ensures { Leads master.held out.new.held (λ m n. SetsOutputs m outputs.now result n) }
{
    let mut held = reveal_master(master).into_box(alloc);
    let done = calls::set_outputs(&mut held, outputs);
    *out = conceal_master(RawBox::of(held));
    done
}

/// Writes the image of all inputs, if it fits. The count is its number of bytes.
#[tactic(auto, using(crate::proofs::Leading::leads))]
pub fn inputs(
    alloc: Global,
    master: MasterHandle,
    inputs: &mut [u8],
    out: &mut MasterHandle,
) -> Done
    requires { is_some master.held ≡ true }
    ensures { Leads master.held out.new.held (λ m n. CopiesInputs m inputs.old result inputs.new n) }
{
    let held = reveal_master(master).into_box(alloc);
    let done = calls::copy_inputs(&held, inputs);
    *out = conceal_master(RawBox::of(held));
    done
}

/// The number of the variable with a name, as the count; not done if there is none.
#[tactic(auto, using(crate::proofs::Leading::leads))]
pub fn variable(alloc: Global, master: MasterHandle, name: &[u8], out: &mut MasterHandle) -> Done
    requires { is_some master.held ≡ true }
    ensures { Leads master.held out.new.held (λ m n. Finds m name.now result n) }
{
    let held = reveal_master(master).into_box(alloc);
    let done = calls::find(&held, name);
    *out = conceal_master(RawBox::of(held));
    done
}

/// The value of a variable with its sign, if there is one.
#[tactic(auto, using(crate::proofs::Leading::leads))]
pub fn get_signed(
    alloc: Global,
    master: MasterHandle,
    variable: usize,
    out: &mut MasterHandle,
) -> VariableValue
    requires { is_some master.held ≡ true }
    ensures { Leads master.held out.new.held (λ m n. (n ≡ m) × GetsSigned m variable result) }
{
    let held = reveal_master(master).into_box(alloc);
    let done = facts::get_signed(&held, variable);
    *out = conceal_master(RawBox::of(held));
    done
}

/// The number of variables, as the count.
#[tactic(auto, using(crate::proofs::Leading::leads))]
pub fn variables(alloc: Global, master: MasterHandle, out: &mut MasterHandle) -> Done
    requires { is_some master.held ≡ true }
    ensures { Leads master.held out.new.held (λ m n. (n ≡ m) × (result ≡ counted true (length m.session.master.plan.variables))) }
{
    let held = reveal_master(master).into_box(alloc);
    let done = calls::variables(&held);
    *out = conceal_master(RawBox::of(held));
    done
}

/// Where a variable is, if there is one.
#[tactic(auto, using(crate::proofs::Leading::leads))]
pub fn place(alloc: Global, master: MasterHandle, variable: usize, out: &mut MasterHandle) -> Placed
    requires { is_some master.held ≡ true }
    ensures { Leads master.held out.new.held (λ m n. (n ≡ m) × (result ≡ place_result (slice_get m.session.master.plan.variables variable))) }
{
    let held = reveal_master(master).into_box(alloc);
    let place = facts::place(&held, variable);
    *out = conceal_master(RawBox::of(held));
    place
}

/// Writes the name of a variable, if it fits. The count is its length in bytes, 0 if there is no such variable.
#[tactic(auto, using(crate::proofs::Leading::leads))]
pub fn name(
    alloc: Global,
    master: MasterHandle,
    variable: usize,
    name: &mut [u8],
    out: &mut MasterHandle,
) -> Done
    requires { is_some master.held ≡ true }
    ensures { Leads master.held out.new.held (λ m n. (n ≡ m) × AreCopied (name_at m.session.table variable) name.old result name.new) }
{
    let held = reveal_master(master).into_box(alloc);
    let done = facts::copy_name(&held, variable, name);
    *out = conceal_master(RawBox::of(held));
    done
}

//! One cycle over a wire on which frames may be lost.
ghost use Rattle.std.specs.Prelude.{◌≡◌, ◌≤◌, ℕ, List, [], Some, None, true, false, take, length, not, is_some, IsErr, Err};
ghost use Rattle.ec_cycle.specs.declared.error.CycleError.{CycleError};
ghost use Rattle.ec_cycle.specs.Master.{begin_refusal};
ghost use Rattle.ec_wire.specs.declared.error.RunError.TheVariants.{Refused};
ghost use Rattle.ec_wire.specs.Losing.{IsHeard, IsLossyRun, max_heard};
ghost use Rattle.ec_wire.specs.Running.{AreTaken, frames_of};
ghost use Rattle.ec_wire.specs.Wires.{Carries, is_fault};

use crate::error::RunError;
use crate::wire::{Watch, Wire, listen_on, send_on};
use ec_cycle::{Master, Report};
use ec_frame::field::MAX_FRAME_LEN;
use std::time::Clock;

/// The most payloads that a cycle hears, or a question: a flood of them ends the wait.
pub const MAX_HEARD: u32 = 65536;

/// Runs one cycle over a wire on which frames may be lost, and returns its report. It begins the cycle, sends the frames of its parts in
/// order, and gives each payload that comes to [`Master::take`]. It closes the cycle once all parts are kept, the wire's patience is
/// over by the clock, or 65,536 payloads came. A part that hasn't come then is missing in the report, and its unit isn't taken.
///
/// # Errors
///
/// `Refused` if the master can't begin a cycle: nothing is sent, and the master stays as it was. `Wire` exactly if a cycle was begun
/// and a call of the wire was a fault: the cycle is then dropped, and no input changes.
pub fn run_lossy_cycle<W: Wire, C: Clock>(
    master: &mut Master<'_>,
    wire: &mut W,
    clock: &C,
) -> Result<Report, RunError>
    ensures run { begin_refusal master.old ≡ None → IsLossyRun master.old (W.state wire.old) (W.state wire.new) result master.new }
    ensures refused { (e : CycleError) → begin_refusal master.old ≡ Some e → result ≡ Err (Refused e) }
    ensures refused_master { (e : CycleError) → begin_refusal master.old ≡ Some e → master.new ≡ master.old }
    ensures refused_wire { (e : CycleError) → begin_refusal master.old ≡ Some e → wire.new ≡ wire.old }
    ensures unchanged { IsErr result → master.new.inputs ≡ master.old.inputs }
{
    master.begin()?;
    if !exchange(master, wire, clock) {
        master.abandon();
        return Err(RunError::Wire);
    }
    Ok(master.close()?)
}

/// Sends the frames of the open cycle and takes what comes. Returns whether no call of the wire was a fault.
fn exchange<W: Wire, C: Clock>(master: &mut Master<'_>, wire: &mut W, clock: &C) -> bool
    requires open { is_some master.old.cycle ≡ true }
    requires count { length (frames_of master.old.cycle) ≡ length master.old.plan.parts }
    ensures heard { IsHeard master.old master.new (W.state wire.old) (W.state wire.new) }
    ensures fault { result ≡ not (is_fault (W.state wire.old) (W.state wire.new)) }
{
    send_parts(master, wire) && hear_parts(master, wire, clock)
}

/// Sends the frames of the open cycle in order, up to the first fault. Returns whether there was none.
pub(crate) fn send_parts<W: Wire>(master: &Master<'_>, wire: &mut W) -> bool
    requires open { is_some master.now.cycle ≡ true }
    requires count { length (frames_of master.now.cycle) ≡ length master.now.plan.parts }
    ensures sent { (n : ℕ) × Carries (W.state wire.old) (W.state wire.new) (take n (frames_of master.now.cycle)) []
        × (n ≤ length master.now.plan.parts) × (result ≡ true → n ≡ length master.now.plan.parts) }
    ensures fault { result ≡ not (is_fault (W.state wire.old) (W.state wire.new)) }
{
    master.is_sound();
    for part in 0..master.parts() {
        if !send_on(wire, master.frame(part)) {
            return false;
        }
    }
    true
}

/// Gives each payload that comes to the master, until all parts are kept, the wire's patience is over, or the most payloads came. Returns
/// whether no call of the wire was a fault.
fn hear_parts<W: Wire, C: Clock>(master: &mut Master<'_>, wire: &mut W, clock: &C) -> bool
    ensures heard { (got : List (List ℕ)) × Carries (W.state wire.old) (W.state wire.new) [] got × AreTaken master.old got master.new
        × (length got ≤ max_heard) }
    ensures fault { result ≡ false → is_fault (W.state wire.old) (W.state wire.new) ≡ true }
    ensures fine { result ≡ true → (W.state wire.new).failed ≡ (W.state wire.old).failed }
{
    let mut buffer = [0; MAX_FRAME_LEN];
    let watch = Watch::start(clock);
    for _ in 0..MAX_HEARD {
        if master.missing() == 0 {
            return true;
        }
        match listen_on(wire, watch.waited(), &mut buffer) {
            Ok(Some(count)) => master.take(&buffer[..count]),
            Ok(None) => return true,
            Err(_) => return false,
        };
    }
    true
}

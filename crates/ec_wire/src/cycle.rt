//! One cycle over a wire.
ghost use Rattle.std.specs.Prelude.{◌≡◌, ◌≤◌, ◌<◌, ◌⊎◌, ℕ, List, [], Some, None, true, false, length, not, is_some, IsErr, Err};
ghost use Rattle.ec_cycle.specs.declared.error.CycleError.{CycleError};
ghost use Rattle.ec_cycle.specs.Master.{begin_refusal, missing_of};
ghost use Rattle.ec_wire.specs.declared.error.RunError.TheVariants.{Refused};
ghost use Rattle.ec_wire.specs.Wires.{Carries, is_fault};
ghost use Rattle.ec_wire.specs.Running.{AreTaken, IsExchanged, IsRun, frames_of, max_received};

use crate::error::RunError;
use crate::lossy::send_parts;
use crate::wire::{Wire, receive_on};
use ec_cycle::{Master, Report};
use ec_frame::field::MAX_FRAME_LEN;

/// Runs one cycle over a wire, and returns its report. It begins the cycle, sends the frames of its parts in order, and gives each
/// received payload to [`Master::take`]. It closes the cycle once all parts are kept or `2 * parts + 64` payloads were received.
///
/// # Errors
///
/// `Refused` if the master can't begin a cycle: nothing is sent, and the master stays as it was. `Wire` exactly if a cycle was begun
/// and a call of the wire was a fault: the cycle is then dropped, and no input changes.
pub fn run_cycle<W: Wire>(master: &mut Master<'_>, wire: &mut W) -> Result<Report, RunError>
    ensures run { begin_refusal master.old ≡ None → IsRun master.old (W.state wire.old) (W.state wire.new) result master.new }
    ensures refused { (e : CycleError) → begin_refusal master.old ≡ Some e → result ≡ Err (Refused e) }
    ensures refused_master { (e : CycleError) → begin_refusal master.old ≡ Some e → master.new ≡ master.old }
    ensures refused_wire { (e : CycleError) → begin_refusal master.old ≡ Some e → wire.new ≡ wire.old }
    ensures unchanged { IsErr result → master.new.inputs ≡ master.old.inputs }
{
    master.begin()?;
    if !exchange(master, wire) {
        master.abandon();
        return Err(RunError::Wire);
    }
    Ok(master.close()?)
}

/// Sends the frames of the open cycle and takes what comes back. Returns whether no call of the wire was a fault.
fn exchange<W: Wire>(master: &mut Master<'_>, wire: &mut W) -> bool
    requires open { is_some master.old.cycle ≡ true }
    requires count { length (frames_of master.old.cycle) ≡ length master.old.plan.parts }
    ensures exchanged { IsExchanged master.old master.new (W.state wire.old) (W.state wire.new) }
    ensures fault { result ≡ not (is_fault (W.state wire.old) (W.state wire.new)) }
{
    send_parts(master, wire) && receive_parts(master, wire)
}

/// Receives payloads and gives each to the master, until all parts are kept or the most payloads were received. Returns whether no
/// call of the wire was a fault.
fn receive_parts<W: Wire>(master: &mut Master<'_>, wire: &mut W) -> bool
    ensures received { (got : List (List ℕ)) × Carries (W.state wire.old) (W.state wire.new) [] got × AreTaken master.old got master.new
        × (length got ≤ max_received (length master.old.plan.parts))
        × (result ≡ true → (missing_of master.new.cycle ≡ 0) ⊎ (length got ≡ max_received (length master.old.plan.parts))) }
    ensures fault { result ≡ false → is_fault (W.state wire.old) (W.state wire.new) ≡ true }
    ensures fine { result ≡ true → (W.state wire.new).failed ≡ (W.state wire.old).failed }
{
    let mut buffer = [0; MAX_FRAME_LEN];
    master.is_sound();
    for _ in 0..2 * master.parts() + 64 {
        if master.missing() == 0 {
            return true;
        }
        let Some(count) = receive_on(wire, &mut buffer) else {
            return false;
        };
        master.take(&buffer[..count]);
    }
    true
}

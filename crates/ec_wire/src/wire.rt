//! What a wire is, and how long one waits at it.
ghost use Rattle.std.specs.Prelude.{◌≡◌, ◌≤◌, [], ◌∷◌, true, false, take, length, not, is_ok, is_some, IfErr, IfOk, IfSome, IfNone};
ghost use Rattle.ec_wire.specs.Wires.{WireState, Carries, is_fault};

use crate::error::SocketFault;
use crate::trouble::Trouble;
use std::time::{Clock, Duration, Instant};

/// What carries payloads to a segment and back.
///
/// A call is a fault exactly if the count of faults rises in it, or has its last value, 2^64 - 1. A wire's state may say which payloads
/// it carried, or how many. Clauses about payloads say something of such a wire alone; all other clauses hold for every wire.
pub trait Wire {
    ghost state: { Self → WireState };

    /// How many calls were faults.
    fn failures(&self) -> u64
        ensures { result ≡ (state self.now).failed };

    /// Why the last call that was a fault was one. No clause says what: the system knows that.
    fn trouble(&self) -> Trouble;

    /// Sends a payload. A call with more than 1472 bytes is a fault.
    fn send(&mut self, payload: &[u8])
        ensures done { is_fault (state self.old) (state self.new) ≡ false → Carries (state self.old) (state self.new) (payload.now ∷ []) [] }
        ensures lost { is_fault (state self.old) (state self.new) ≡ true → Carries (state self.old) (state self.new) [] [] };

    /// Receives a payload into `buffer`, and returns how many bytes of it are there. Bytes that the buffer has no room for are dropped.
    fn recv(&mut self, buffer: &mut [u8]) -> usize
        ensures within { result ≤ length buffer.new }
        ensures done { is_fault (state self.old) (state self.new) ≡ false → Carries (state self.old) (state self.new) [] (take result buffer.new ∷ []) }
        ensures lost { is_fault (state self.old) (state self.new) ≡ true → Carries (state self.old) (state self.new) [] [] };

    /// Receives a payload into `buffer`, as `recv` does. The wire's patience began `waited` ago. If it ends and nothing has come, that is
    /// no fault, and the call returns `None`.
    fn recv_within(&mut self, waited: Duration, buffer: &mut [u8]) -> Option<usize>
        ensures within { IfSome result (λ count. count ≤ length buffer.new) }
        ensures done { is_fault (state self.old) (state self.new) ≡ false → IfSome result (λ count. Carries (state self.old) (state self.new) [] (take count buffer.new ∷ [])) }
        ensures none { is_fault (state self.old) (state self.new) ≡ false → IfNone result (Carries (state self.old) (state self.new) [] []) }
        ensures lost { is_fault (state self.old) (state self.new) ≡ true → Carries (state self.old) (state self.new) [] [] };
}

/// Sends a payload. Returns whether the call was no fault.
pub fn send_on<W: Wire>(wire: &mut W, payload: &[u8]) -> bool
    ensures fault { result ≡ not (is_fault (W.state wire.old) (W.state wire.new)) }
    ensures same { result ≡ true → (W.state wire.new).failed ≡ (W.state wire.old).failed }
    ensures done { result ≡ true → Carries (W.state wire.old) (W.state wire.new) (payload.now ∷ []) [] }
    ensures lost { result ≡ false → Carries (W.state wire.old) (W.state wire.new) [] [] }
{
    let before = wire.failures();
    wire.send(payload);
    is_fine(before, wire.failures())
}

/// Receives a payload into `buffer`. Returns its length there in bytes, or `None` at a fault.
pub fn receive_on<W: Wire>(wire: &mut W, buffer: &mut [u8]) -> Option<usize>
    ensures fault { is_some result ≡ not (is_fault (W.state wire.old) (W.state wire.new)) }
    ensures same { IfSome result (λ count. (W.state wire.new).failed ≡ (W.state wire.old).failed) }
    ensures within { IfSome result (λ count. count ≤ length buffer.new) }
    ensures done { IfSome result (λ count. Carries (W.state wire.old) (W.state wire.new) [] (take count buffer.new ∷ [])) }
    ensures lost { IfNone result (Carries (W.state wire.old) (W.state wire.new) [] []) }
{
    let before = wire.failures();
    let count = wire.recv(buffer);
    if is_fine(before, wire.failures()) {
        Some(count)
    } else {
        None
    }
}

/// A wait that began at a time of a clock.
#[derive(Drop)]
pub(crate) struct Watch<'c, C: Clock> {
    clock: &'c C,
    // none if the clock couldn't be read
    began: Option<Instant>,
}

impl<'c, C: Clock> Watch<'c, C> {
    /// A wait that begins now.
    pub fn start(clock: &'c C) -> Watch<'c, C> {
        Watch {
            clock,
            began: Instant::now(clock).ok(),
        }
    }

    /// How long the wait has lasted; no time at all if the clock can't be read.
    pub fn waited(&self) -> Duration {
        match (self.began, Instant::now(self.clock)) {
            (Some(began), Ok(now)) => now.duration_since(began),
            _ => Duration::ZERO,
        }
    }
}

/// Receives a payload into `buffer` before the wire's patience ends, which began `waited` ago. Returns its length there in bytes, or `None`
/// if nothing came.
///
/// # Errors
///
/// `SocketFault` exactly if the call was a fault.
pub fn listen_on<W: Wire>(
    wire: &mut W,
    waited: Duration,
    buffer: &mut [u8],
) -> Result<Option<usize>, SocketFault>
    ensures fault { is_ok result ≡ not (is_fault (W.state wire.old) (W.state wire.new)) }
    ensures same { IfOk result (λ heard. (W.state wire.new).failed ≡ (W.state wire.old).failed) }
    ensures within { IfOk result (λ heard. IfSome heard (λ count. count ≤ length buffer.new)) }
    ensures done { IfOk result (λ heard. IfSome heard (λ count. Carries (W.state wire.old) (W.state wire.new) [] (take count buffer.new ∷ []))) }
    ensures none { IfOk result (λ heard. IfNone heard (Carries (W.state wire.old) (W.state wire.new) [] [])) }
    ensures lost { IfErr result (λ fault. Carries (W.state wire.old) (W.state wire.new) [] []) }
{
    let before = wire.failures();
    let heard = wire.recv_within(waited, buffer);
    if is_fine(before, wire.failures()) {
        Ok(heard)
    } else {
        Err(SocketFault(wire.trouble()))
    }
}

/// Whether a call was no fault, by the counts of faults before and after it.
fn is_fine(before: u64, after: u64) -> bool
    ensures { (old new : WireState) → old.failed ≡ before → new.failed ≡ after → result ≡ not (is_fault old new) }
{
    !(before < after || before == u64::MAX)
}

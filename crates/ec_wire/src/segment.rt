//! A segment of simulated slaves that answers on a wire.
ghost use Rattle.std.specs.Prelude.{◌≡◌, ◌<◌, ◌+◌, ℕ, List, [], ◌∷◌, true, IfErr, IfOk, IfSome, IfNone, IsErr, OnOk, length, if◌then◌else◌};
ghost use Rattle.ec_wire.specs.Wires.{Carries};
ghost use Rattle.ec_wire.specs.Segments.{AreTreated, HasServed, WasCutOff};

use crate::application::{App, answer};
use crate::error::SocketFault;
use crate::wire::{Wire, listen_on, receive_on, send_on};
use ec_frame::field::MAX_FRAME_LEN;
use ec_ring::Ring;
use std::time::Duration;

/// How many payloads a segment received. A frame whose answer was lost by a fault of the wire isn't counted.
#[derive(Clone, Copy, Debug, PartialEq, Eq, Drop)]
pub struct Served {
    /// Frames, which were answered.
    pub answered: u64,
    /// Other payloads, which weren't answered.
    pub refused: u64,
}

impl Served {
    /// Counts one payload more.
    fn count(&mut self, is_answered: bool)
        requires { self.old.answered + self.old.refused < 18446744073709551615 }
        ensures answered { self.new.answered ≡ self.old.answered + (if is_answered then 1 else 0) }
        ensures all { self.new.answered + self.new.refused ≡ self.old.answered + self.old.refused + 1 }
    {
        if is_answered {
            self.answered += 1;
        } else {
            self.refused += 1;
        }
    }
}

/// Receives `frames` payloads as [`serve_segment`] does, and returns the counts also if a call of the wire was a fault.
///
/// # Errors
///
/// The counts until a call of the wire was a fault. The payloads until then were served; the last answer may be lost, and isn't counted.
pub fn serve_counted<W: Wire>(
    ring: &mut Ring,
    app: &mut dyn App,
    wire: &mut W,
    frames: u32,
) -> Result<Served, Served>
    ensures served { IfOk result (λ s. HasServed (may_produce app.old) ring.old ring.new (W.state wire.old) (W.state wire.new) frames s.answered s.refused) }
    ensures same { OnOk result ((W.state wire.new).failed ≡ (W.state wire.old).failed) }
    ensures cut { IfErr result (λ s. WasCutOff (may_produce app.old) ring.old ring.new (W.state wire.old) (W.state wire.new) frames s.answered s.refused) }
{
    let mut app = app;
    serve_payloads(ring, &mut app, wire, frames)
}

/// Receives `frames` payloads, and returns the counts. A frame passes the slaves, each is served, its application steps, and the frame
/// is sent back. A payload that is no frame is counted and not answered.
///
/// # Errors
///
/// `SocketFault` if a call of the wire was a fault. The payloads until then were served; the last answer may be lost.
pub fn serve_segment<W: Wire>(
    ring: &mut Ring,
    app: &mut dyn App,
    wire: &mut W,
    frames: u32,
) -> Result<Served, SocketFault>
    ensures served { IfOk result (λ s. HasServed (may_produce app.old) ring.old ring.new (W.state wire.old) (W.state wire.new) frames s.answered s.refused) }
    ensures same { OnOk result ((W.state wire.new).failed ≡ (W.state wire.old).failed) }
    ensures cut { IsErr result → (answered : ℕ) × (refused : ℕ) × WasCutOff (may_produce app.old) ring.old ring.new (W.state wire.old) (W.state wire.new) frames answered refused }
{
    match serve_counted(ring, app, wire, frames) {
        Ok(served) => Ok(served),
        Err(_) => Err(SocketFault(wire.trouble())),
    }
}

/// Receives payloads as [`serve_segment`] does, until none comes with the wire's patience, and returns the counts.
///
/// # Errors
///
/// The counts until a call of the wire was a fault. The payloads until then were served; the last answer may be lost, and isn't counted.
pub fn serve_idle<W: Wire>(
    ring: &mut Ring,
    app: &mut dyn App,
    wire: &mut W,
) -> Result<Served, Served>
    ensures served { IfOk result (λ s. (frames : ℕ) × HasServed (may_produce app.old) ring.old ring.new (W.state wire.old) (W.state wire.new) frames s.answered s.refused) }
    ensures same { OnOk result ((W.state wire.new).failed ≡ (W.state wire.old).failed) }
    ensures cut { IfErr result (λ s. (frames : ℕ) × WasCutOff (may_produce app.old) ring.old ring.new (W.state wire.old) (W.state wire.new) frames s.answered s.refused) }
{
    let mut app = app;
    serve_coming(ring, &mut app, wire)
}

/// Receives payloads until none comes, and answers those that are frames. Returns how many were frames and how many weren't; an error has
/// the counts until a fault of the wire.
fn serve_coming<A: App, W: Wire>(
    ring: &mut Ring,
    app: &mut A,
    wire: &mut W,
) -> Result<Served, Served>
    ensures served { IfOk result (λ s. (frames : ℕ) × HasServed (A.may_produce app.old) ring.old ring.new (W.state wire.old) (W.state wire.new) frames s.answered s.refused) }
    ensures same { OnOk result ((W.state wire.new).failed ≡ (W.state wire.old).failed) }
    ensures cut { IfErr result (λ s. (frames : ℕ) × WasCutOff (A.may_produce app.old) ring.old ring.new (W.state wire.old) (W.state wire.new) frames s.answered s.refused) }
{
    let mut served = Served {
        answered: 0,
        refused: 0,
    };
    for _ in 0..u64::MAX {
        match serve_heard(ring, app, wire) {
            Ok(Some(is_answered)) => served.count(is_answered),
            Ok(None) => return Ok(served),
            Err(_) => return Err(served),
        }
    }
    Ok(served)
}

/// Receives one payload, if one comes, and answers it if it is a frame. Returns whether it was one, or `None` if none came.
///
/// # Errors
///
/// `SocketFault` if a call of the wire was a fault.
fn serve_heard<A: App, W: Wire>(
    ring: &mut Ring,
    app: &mut A,
    wire: &mut W,
) -> Result<Option<bool>, SocketFault>
    ensures later { (o i : List ℕ) → A.may_produce app.new o i → A.may_produce app.old o i }
    ensures done { IfOk result (λ heard. IfSome heard (λ is_answered. (payload : List ℕ) × (sent : List (List ℕ))
        × Carries (W.state wire.old) (W.state wire.new) sent (payload ∷ []) × AreTreated (A.may_produce app.old) ring.old (payload ∷ []) ring.new sent
        × (length sent ≡ (if is_answered then 1 else 0)))) }
    ensures quiet { IfOk result (λ heard. IfNone heard (Carries (W.state wire.old) (W.state wire.new) [] [] × (ring.new ≡ ring.old) × (app.new ≡ app.old))) }
    ensures same { IfOk result (λ heard. (W.state wire.new).failed ≡ (W.state wire.old).failed) }
    ensures cut { IsErr result → WasCutOff (A.may_produce app.old) ring.old ring.new (W.state wire.old) (W.state wire.new) 1 0 0 }
{
    let mut buffer = [0; MAX_FRAME_LEN];
    let heard = listen_on(wire, Duration::ZERO, &mut buffer)?;
    let Some(count) = heard else {
        return Ok(None);
    };
    let payload = &mut buffer[..count];
    if !answer(ring, app, payload) {
        return Ok(Some(false));
    }
    if send_on(wire, payload) {
        Ok(Some(true))
    } else {
        Err(SocketFault(wire.trouble()))
    }
}

/// Receives `frames` payloads, and answers those that are frames. Returns how many were frames and how many weren't; an error has
/// the counts until a fault of the wire.
fn serve_payloads<A: App, W: Wire>(
    ring: &mut Ring,
    app: &mut A,
    wire: &mut W,
    frames: u32,
) -> Result<Served, Served>
    ensures served { IfOk result (λ s. HasServed (A.may_produce app.old) ring.old ring.new (W.state wire.old) (W.state wire.new) frames s.answered s.refused) }
    ensures same { OnOk result ((W.state wire.new).failed ≡ (W.state wire.old).failed) }
    ensures cut { IfErr result (λ s. WasCutOff (A.may_produce app.old) ring.old ring.new (W.state wire.old) (W.state wire.new) frames s.answered s.refused) }
{
    let mut served = Served {
        answered: 0,
        refused: 0,
    };
    for _ in 0..frames {
        let Some(is_answered) = serve_payload(ring, app, wire) else {
            return Err(served);
        };
        served.count(is_answered);
    }
    Ok(served)
}

/// Receives one payload, and answers it if it is a frame. Returns whether it was one, or `None` at a fault of the wire.
fn serve_payload<A: App, W: Wire>(ring: &mut Ring, app: &mut A, wire: &mut W) -> Option<bool>
    ensures later { (o i : List ℕ) → A.may_produce app.new o i → A.may_produce app.old o i }
    ensures done { IfSome result (λ is_answered. (payload : List ℕ) × (sent : List (List ℕ))
        × Carries (W.state wire.old) (W.state wire.new) sent (payload ∷ []) × AreTreated (A.may_produce app.old) ring.old (payload ∷ []) ring.new sent
        × (length sent ≡ (if is_answered then 1 else 0))) }
    ensures same { IfSome result (λ is_answered. (W.state wire.new).failed ≡ (W.state wire.old).failed) }
    ensures cut { IfNone result (WasCutOff (A.may_produce app.old) ring.old ring.new (W.state wire.old) (W.state wire.new) 1 0 0) }
{
    let mut buffer = [0; MAX_FRAME_LEN];
    let count = receive_on(wire, &mut buffer)?;
    let payload = &mut buffer[..count];
    if !answer(ring, app, payload) {
        return Some(false);
    }
    if send_on(wire, payload) {
        Some(true)
    } else {
        None
    }
}

//! A wire that notes its payloads in a capture.
ghost use Rattle.std.specs.Prelude.{◌≡◌, ℕ, [], ◌∷◌};
ghost use Rattle.ec_capture.specs.Recordings.{Notes};
ghost use Rattle.ec_wire.specs.Taps.{has_passed, captured_of};

use crate::trouble::Trouble;
use crate::wire::{Wire, listen_on, receive_on, send_on};
use ec_capture::{Packet, Recorder};
use std::io::Write;
use std::marker::Model;
use std::time::{Clock, Duration, SystemTime, UNIX_EPOCH};

/// The end of a segment at which a wire is.
#[derive(Clone, Copy, Debug, PartialEq, Eq)]
pub enum Side {
    /// The master's end: payloads that it receives have passed the slaves.
    Master,
    /// The slaves' end: payloads that it sends have passed the slaves.
    Segment,
}

/// A wire that notes its payloads in a capture, at interface 0, with the time of a clock in microseconds since 1970. It carries
/// payloads as the inner wire does, also if the capture is cut short.
#[derive(Drop)]
pub struct CapturedWire<'c, W: Wire + Drop, O: Write + Drop, C: Clock> {
    wire: W,
    capture: Recorder<O>,
    side: Side,
    clock: &'c C,
}

impl<'c, W: Wire + Drop, O: Write + Drop, C: Clock> Model for CapturedWire<'c, W, O, C> {
    ghost use Rattle.ec_wire.specs.Taps.{IsTapped, Tap};

    ghost Value = { Tap };

    ghost view = { λ t. record { side = t.side; wire = W.state t.wire; capture = t.capture } };

    ghost invariant = { λ t. IsTapped t.side (W.state t.wire) t.capture };
}

impl<'c, W: Wire + Drop, O: Write + Drop, C: Clock> CapturedWire<'c, W, O, C> {
    ghost use Rattle.ec_wire.specs.Taps.{IsTapped, IsTraceOf};

    /// Joins a wire that has carried nothing yet with a capture.
    pub fn new(wire: W, capture: Recorder<O>, side: Side, clock: &'c C) -> CapturedWire<'c, W, O, C>
        requires sent { IsTraceOf (W.state wire).sent [] }
        requires received { IsTraceOf (W.state wire).received [] }
        ensures { result ≡ record { side = side; wire = W.state wire; capture = capture } }
    {
        CapturedWire {
            wire,
            capture,
            side,
            clock,
        }
    }

    /// Returns the wire and the capture, which notes all that the wire carried, in order, up to the first refused write.
    pub fn into_parts(self) -> (W, Recorder<O>)
        ensures wire { W.state result.0 ≡ self.entry.wire }
        ensures capture { result.1 ≡ self.entry.capture }
        ensures tapped { IsTapped self.entry.side self.entry.wire self.entry.capture }
    {
        let CapturedWire {
            wire,
            capture,
            side: _,
            clock: _,
        } = self;
        (wire, capture)
    }
}

impl<'c, W: Wire + Drop, O: Write + Drop, C: Clock> Wire for CapturedWire<'c, W, O, C> {
    ghost state = { λ t. t.wire };

    fn failures(&self) -> u64 {
        self.wire.failures()
    }

    fn trouble(&self) -> Trouble {
        self.wire.trouble()
    }

    fn send(&mut self, payload: &[u8]) {
        if send_on(&mut self.wire, payload) {
            note(&mut self.capture, self.side, self.clock, true, payload);
        }
    }

    fn recv(&mut self, buffer: &mut [u8]) -> usize {
        let Some(count) = receive_on(&mut self.wire, buffer) else {
            return 0;
        };
        note(
            &mut self.capture,
            self.side,
            self.clock,
            false,
            &buffer[..count],
        );
        count
    }

    fn recv_within(&mut self, waited: Duration, buffer: &mut [u8]) -> Option<usize> {
        let Ok(Some(count)) = listen_on(&mut self.wire, waited, buffer) else {
            return None;
        };
        note(
            &mut self.capture,
            self.side,
            self.clock,
            false,
            &buffer[..count],
        );
        Some(count)
    }
}

/// Notes a payload, with the time of the clock.
fn note<O: Write + Drop, C: Clock>(
    capture: &mut Recorder<O>,
    side: Side,
    clock: &C,
    is_sent: bool,
    payload: &[u8],
)
    ensures { (time : ℕ) × Notes (captured_of side (record { is_sent = is_sent; time = time; payload = payload.now }) ∷ []) capture.old capture.new }
{
    let time = micros_now(clock);
    capture.note(&Packet {
        interface: 0,
        time,
        passed: has_passed(side, is_sent),
        payload,
        comment: None,
    });
}

/// Whether a payload has passed the slaves.
fn has_passed(side: Side, is_sent: bool) -> bool
    ensures { result ≡ has_passed side is_sent }
{
    match side {
        Side::Master => !is_sent,
        Side::Segment => is_sent,
    }
}

/// The time since 1970 in microseconds, or 0 if the clock has none or is before 1970.
fn micros_now<C: Clock>(clock: &C) -> u64 {
    let Ok(now) = SystemTime::now(clock) else {
        return 0;
    };
    match now.duration_since(UNIX_EPOCH) {
        Ok(passed) => u64::try_from(passed.as_micros()).unwrap_or(0),
        Err(_) => 0,
    }
}

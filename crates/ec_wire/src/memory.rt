//! A wire over memory.
ghost use Rattle.std.specs.Prelude.{◌≡◌, ◌≤◌, ◌<◌, ℕ, List, [], ◌∷◌, true, false, IfOk, IfSome, IfNone, length, take};
ghost use Rattle.ec_wire.specs.Wires.{Carries, Payloads, WireState, failed_again, max_failed};

use crate::application::{Echo, answer};
use crate::payload::{Payload, frame_of};
use crate::trouble::Trouble;
use crate::wire::Wire;
use ec_frame::field::MAX_FRAME_LEN;
use ec_ring::Ring;
use std::alloc::{AllocError, Global};
use std::marker::Model;
use std::time::Duration;

/// A wire to a ring of slaves in memory, whose applications copy their outputs to their inputs. A sent frame passes the slaves, each
/// is served, and the frame waits until it is received. Contracts know each payload that the wire carried. One of its calls is a
/// fault, so that tests can try a fault at each place.
#[derive(Drop)]
pub struct MemoryWire {
    ring: Ring,
    sent: Vec<Payload>,
    answers: Vec<Payload>,
    received: Vec<Payload>,
    room: usize,
    calls: u64,
    fails_at: u64,
    failures: u64,
}

impl Model for MemoryWire {
    ghost use Rattle.ec_wire.specs.Wires.{Payloads, WireState};

    ghost Value = { WireState };

    ghost view = { λ w. record {
      sent = Payloads w.sent.items;
      received = Payloads w.received.items;
      failed = w.failures;
    } };
}

impl MemoryWire {
    /// A wire to these slaves, with room for `room` payloads sent and `room` received. Call number `fails_at`, counted from 0, is a fault
    /// and carries nothing. So is each call that finds no room or no payload, and each that sends more than 1472 bytes.
    ///
    /// # Errors
    ///
    /// `AllocError` if there is no memory. The slaves are lost then.
    pub fn new(
        alloc: Global,
        ring: Ring,
        room: usize,
        fails_at: u64,
    ) -> Result<MemoryWire, AllocError>
        ensures { IfOk result (λ w. w ≡ record { sent = Payloads []; received = Payloads []; failed = 0 }) }
    {
        Ok(MemoryWire {
            ring,
            sent: Vec::with_capacity(alloc, room)?,
            answers: Vec::with_capacity(alloc, room)?,
            received: Vec::with_capacity(alloc, room)?,
            room,
            calls: 0,
            fails_at,
            failures: 0,
        })
    }

    /// The slaves, as the frames left them.
    pub fn into_ring(self) -> Ring {
        self.ring
    }

    /// How many payloads were received.
    pub fn received_count(&self) -> usize
        ensures { (received : List (List ℕ)) → self.now.received ≡ Payloads received → result ≡ length received }
    {
        self.received.len()
    }

    /// Counts a call, and returns whether it may carry something.
    fn begin_call(&mut self) -> bool
        ensures unchanged { self.new ≡ self.old }
        ensures few { result ≡ true → self.old.failed < max_failed }
    {
        let call = self.calls;
        self.calls = call.saturating_add(1);
        call != self.fails_at && self.failures != u64::MAX
    }

    /// Carries a payload to the slaves, and returns whether there was room for it.
    fn carry(&mut self, payload: &[u8]) -> bool
        requires { length payload.now ≤ 1472 }
        ensures carried { result ≡ true → Carries self.old self.new (payload.now ∷ []) [] }
        ensures lost { result ≡ false → self.new ≡ self.old }
        ensures fine { self.new.failed ≡ self.old.failed }
    {
        if self.sent.len() >= self.room {
            return false;
        }
        let mut frame = frame_of(payload);
        let passed = frame.as_mut_slice();
        let is_frame = answer(&mut self.ring, &mut Echo, passed);
        if is_frame && self.answers.push(Payload::of(frame)).is_err() {
            return false;
        }
        self.sent.push(Payload::new(payload)).is_ok()
    }

    /// Puts the oldest answer that wasn't received yet into `buffer`. Returns how many bytes of it are there, or `None` if there is no
    /// answer, or no room to keep it as received.
    fn deliver(&mut self, buffer: &mut [u8]) -> Option<usize>
        ensures within { IfSome result (λ count. count ≤ length buffer.new) }
        ensures carried { IfSome result (λ count. Carries self.old self.new [] (take count buffer.new ∷ [])) }
        ensures lost { IfNone result (self.new ≡ self.old) }
        ensures fine { self.new.failed ≡ self.old.failed }
    {
        let next = self.received.len();
        if next >= self.room || next >= self.answers.len() {
            return None;
        }
        let payload = self.answers[next].as_slice();
        let count = payload.len().min(buffer.len());
        buffer[..count].copy_from_slice(&payload[..count]);
        if self.received.push(Payload::new(&buffer[..count])).is_err() {
            return None;
        }
        Some(count)
    }

    /// Counts a fault.
    fn fail(&mut self)
        ensures { self.new ≡ failed_again self.old }
    {
        self.failures = self.failures.saturating_add(1);
    }
}

impl Wire for MemoryWire {
    ghost state = { λ w. w };

    fn failures(&self) -> u64 {
        self.failures
    }

    fn trouble(&self) -> Trouble {
        Trouble::Unmade
    }

    fn send(&mut self, payload: &[u8]) {
        if !self.begin_call() || payload.len() > MAX_FRAME_LEN || !self.carry(payload) {
            self.fail();
        }
    }

    fn recv(&mut self, buffer: &mut [u8]) -> usize {
        if self.begin_call() {
            if let Some(count) = self.deliver(buffer) {
                return count;
            }
        }
        self.fail();
        0
    }

    fn recv_within(&mut self, _waited: Duration, buffer: &mut [u8]) -> Option<usize> {
        if !self.begin_call() || self.received.len() >= self.room {
            self.fail();
            return None;
        }
        self.deliver(buffer)
    }
}

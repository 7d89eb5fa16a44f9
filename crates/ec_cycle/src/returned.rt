//! What a master keeps of what came back of a part.
ghost use Rattle.std.specs.Prelude.{◌≡◌, ◌≤◌, ◌<◌, ◌+◌, ◌*◌, [], List, Option, Some, None, is_some, option_map, length, slice_index, if◌then◌else◌};
ghost use Rattle.ec_frame.specs.Datagram.{Datagram};
ghost use Rattle.ec_cycle.specs.Closing.{ReturnedPart, bytes_at, bytes_of, counters_by, input_index, returned_part_by, word_of_returned};
ghost use Rattle.ec_cycle.specs.Matching.{FirstStand};

use crate::counters::Counters;
use crate::matching::{counter_at, data_at};
use ec_frame::DatagramSpan;
use ec_link::MAX_PART_BYTES;
use std::marker::Model;

/// What came back of a part, if its frame did, in memory of its own.
#[derive(Drop)]
pub struct Returned {
    pub(crate) is_back: bool,
    pub(crate) broadcast: u16,
    al_word: u16,
    pub(crate) counters: Counters,
    content: Content,
}

impl Model for Returned {
    ghost use Rattle.std.specs.Prelude.{Option, Some, None, if◌then◌else◌};
    ghost use Rattle.ec_cycle.specs.Closing.{ReturnedPart};

    ghost Value = { Option ReturnedPart };

    ghost view = { λ r. if r.is_back then Some (record { broadcast = r.broadcast; al_word = r.al_word; counters = r.counters; bytes = r.content }) else None };
}

impl Returned {
    /// A part of which nothing came back.
    pub fn new() -> Returned
        ensures { result ≡ None }
    {
        Returned {
            is_back: false,
            broadcast: 0,
            al_word: 0,
            counters: Counters::lrw(0),
            content: Content::new(),
        }
    }

    /// Forgets what came back.
    pub fn forget(&mut self)
        ensures { self.new ≡ None }
    {
        self.is_back = false;
    }

    /// Whether the part is back.
    pub fn is_back(&self) -> bool
        ensures { result ≡ is_some self.now }
    {
        self.is_back
    }

    /// Keeps what a frame brought back; its first four datagrams are at `spans`.
    pub fn keep(&mut self, split: bool, payload: &[u8], spans: &[DatagramSpan; 4])
        requires { (ds : List Datagram) × FirstStand payload.now spans.now ds × (length (bytes_at ds (input_index split)) ≤ 1422) }
        ensures { (ds : List Datagram) → FirstStand payload.now spans.now ds → self.new ≡ Some (returned_part_by split ds) }
    {
        let content = inputs_in(split, payload, spans);
        self.content.replace(content);
        self.broadcast = counter_at(payload, spans[1]);
        self.al_word = word_of(data_at(payload, spans[1]));
        self.counters = counters_in(split, payload, spans);
        self.is_back = true;
    }

    /// The data with the inputs; empty if the part isn't back.
    pub fn bytes(&self) -> &[u8]
        ensures { result.now ≡ bytes_of self.now }
    {
        if self.is_back {
            self.content.as_slice()
        } else {
            &[]
        }
    }

    /// The working counters, if the part is back.
    pub fn counters(&self) -> Option<Counters>
        ensures { result ≡ option_map (λ (q : ReturnedPart). q.counters) self.now }
    {
        if self.is_back {
            Some(self.counters.copied())
        } else {
            None
        }
    }

    /// The AL word; 0 if the part isn't back.
    pub fn al_word(&self) -> u16
        ensures { result ≡ word_of_returned self.now }
    {
        if self.is_back { self.al_word } else { 0 }
    }
}

/// The bytes that a part brought back. `replace` touches only as many bytes of `room` as there are.
#[derive(Drop)]
struct Content {
    room: [u8; MAX_PART_BYTES],
    count: usize,
}

impl Model for Content {
    ghost use Rattle.std.specs.Prelude.{◌≤◌, ℕ, List, take};

    ghost Value = { List ℕ };

    ghost view = { λ c. take c.count c.room };

    ghost invariant = { λ c. c.count ≤ 1422 };
}

impl Content {
    /// No bytes.
    fn new() -> Content
        ensures { result ≡ [] }
    {
        Content {
            room: [0; MAX_PART_BYTES],
            count: 0,
        }
    }

    /// Replaces the bytes.
    fn replace(&mut self, bytes: &[u8])
        requires { length bytes.now ≤ 1422 }
        ensures { self.new ≡ bytes.now }
    {
        self.room[..bytes.len()].copy_from_slice(bytes);
        self.count = bytes.len();
    }

    /// The bytes.
    fn as_slice(&self) -> &[u8]
        ensures { result.now ≡ self.now }
    {
        &self.room[..self.count]
    }
}

/// The data with the inputs, in a frame whose first four datagrams are at `spans`.
#[tactic(auto, using(crate::proofs::FirstSpans::place_steps))]
fn inputs_in<'a>(split: bool, payload: &'a [u8], spans: &[DatagramSpan; 4]) -> &'a [u8]
    requires { (ds : List Datagram) × FirstStand payload.now spans.now ds }
    ensures { (ds : List Datagram) → FirstStand payload.now spans.now ds → result.now ≡ bytes_at ds (input_index split) }
{
    if split {
        data_at(payload, spans[3])
    } else {
        data_at(payload, spans[2])
    }
}

/// The working counters of the process datagrams, in a frame whose first four datagrams are at `spans`.
#[tactic(auto, using(crate::proofs::FirstSpans::place_steps))]
fn counters_in(split: bool, payload: &[u8], spans: &[DatagramSpan; 4]) -> Counters
    requires { (ds : List Datagram) × FirstStand payload.now spans.now ds }
    ensures { (ds : List Datagram) → FirstStand payload.now spans.now ds → result ≡ counters_by split ds }
{
    let first = counter_at(payload, spans[2]);
    if split {
        Counters::split(first, counter_at(payload, spans[3]))
    } else {
        Counters::lrw(first)
    }
}

/// The word of two bytes, little-endian; a byte that isn't there is 0.
fn word_of(bytes: &[u8]) -> u16
    ensures { result ≡ slice_index bytes.now 0 + 256 * slice_index bytes.now 1 }
{
    let low = bytes.first().copied().unwrap_or(0);
    let high = bytes.get(1).copied().unwrap_or(0);
    u16::from(low) + 256 * u16::from(high)
}

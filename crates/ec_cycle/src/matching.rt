//! Finds the part whose frame a payload answers: compares the payload with frames that were sent, datagram by datagram.
ghost use Rattle.std.specs.Prelude.{◌≡◌, ◌<◌, ◌↔◌, [], ℕ, Bool, List, Option, Some, None, get_or, length, true};
ghost use Rattle.std.specs.Option.{option_map_or};
ghost use Rattle.ec_frame.specs.Cursor.{IsAhead};
ghost use Rattle.ec_frame.specs.Datagram.{Datagram, IsDatagram, IsSpelling, spelling};
ghost use Rattle.ec_frame.specs.Frame.{Payload, IsFrame};
ghost use Rattle.ec_cycle.specs.Matching.{Answered, SameAt, SameFrom, StandsFor, FirstStand, StepsOn, NextAre, Names};

use crate::renewing::SentFrame;
use crate::returned::Returned;
use ec_frame::{DatagramSpan, Datagrams, FrameName, Header, read_counter, read_data};

/// The places of a frame's first four datagrams, in bytes; from 0 to 0 for each that isn't there.
pub fn first_spans(payload: &[u8]) -> [DatagramSpan; 4]
    requires { (p : Payload) × IsFrame payload.now p }
    ensures { (p : Payload) → IsFrame payload.now p → FirstStand payload.now result p.datagrams }
{
    let mut places = Datagrams::new(payload);
    let mut spans = [DatagramSpan { from: 0, to: 0 }; 4];
    for n in 0..4 {
        spans[n] = next_place(&mut places, payload);
    }
    spans
}

/// The part whose frame a payload answers, if that part isn't back yet; none if there is none.
pub fn answered(
    payload: &[u8],
    count: usize,
    spans: &[DatagramSpan; 4],
    frames: &[SentFrame],
    kept: &[Returned],
) -> Option<usize>
    requires payload { (p : Payload) × IsFrame payload.now p × FirstStand payload.now spans.now p.datagrams × (count ≡ length p.datagrams) }
    requires sent { (k : ℕ) → k < length frames.now → (q : Payload) × IsFrame (get_or frames.now k []) q }
    requires counts { length kept.now ≡ length frames.now }
    ensures { (p : Payload) → IsFrame payload.now p → FirstStand payload.now spans.now p.datagrams → Answered p.datagrams frames.now kept.now result }
{
    let Some(part) = named_part(payload, spans[0]) else {
        return None;
    };
    if part >= frames.len() || kept[part].is_back() {
        return None;
    }
    if answers(payload, count, frames[part].bytes()) {
        Some(part)
    } else {
        None
    }
}

/// Whether a frame of `count` datagrams answers a frame that was sent: as many datagrams, of the same commands, indices and
/// lengths, the first with the same data, and those behind the second with the same addresses.
fn answers(payload: &[u8], count: usize, sent: &[u8]) -> bool
    requires payload { (p : Payload) × IsFrame payload.now p × (count ≡ length p.datagrams) }
    requires sent { (q : Payload) × IsFrame sent.now q }
    ensures { (p : Payload) (q : Payload) → IsFrame payload.now p → IsFrame sent.now q → (result ≡ true) ↔ SameFrom 0 p.datagrams q.datagrams }
{
    let mut places = Datagrams::new(payload);
    let mut sent_places = Datagrams::new(sent);
    for n in 0..count {
        if !next_is_same(n, &mut places, payload, &mut sent_places, sent) {
            return false;
        }
    }
    next_place(&mut sent_places, sent).to == 0
}

/// The data of the datagram at a place; empty if there is none.
pub fn data_at(payload: &[u8], span: DatagramSpan) -> &[u8]
    requires { (o : Option Datagram) × StandsFor payload.now span o }
    ensures { (o : Option Datagram) → StandsFor payload.now span o → result.now ≡ option_map_or (λ (d : Datagram). d.data_bytes) o [] }
{
    if span.to == 0 {
        return &[];
    }
    read_data(&payload[span.from..span.to])
}

/// The working counter of the datagram at a place; 0 if there is none.
pub fn counter_at(payload: &[u8], span: DatagramSpan) -> u16
    requires { (o : Option Datagram) × StandsFor payload.now span o }
    ensures { (o : Option Datagram) → StandsFor payload.now span o → result ≡ option_map_or (λ (d : Datagram). d.counter) o 0 }
{
    if span.to == 0 {
        return 0;
    }
    read_counter(&payload[span.from..span.to])
}

/// The part that a frame's first datagram names; none if its data are no name.
fn named_part(payload: &[u8], span: DatagramSpan) -> Option<usize>
    requires { (o : Option Datagram) × StandsFor payload.now span o }
    ensures named { (o : Option Datagram) → StandsFor payload.now span o → Names o result }
{
    let name = FrameName::read(data_at(payload, span))?;
    Some(usize::from(name.part))
}

/// The place of the next datagram; from 0 to 0 after the last.
fn next_place(places: &mut Datagrams, payload: &[u8]) -> DatagramSpan
    requires { (ds : List Datagram) × IsAhead payload.now places.old ds }
    ensures { (ds : List Datagram) → IsAhead payload.now places.old ds → StepsOn payload.now places.new result ds }
{
    match places.next_place(payload) {
        Some(span) => span,
        None => DatagramSpan { from: 0, to: 0 },
    }
}

/// Whether datagram `n` of a payload agrees with datagram `n` of the frame that was sent.
fn is_same(n: usize, part: &[u8], sent: &[u8]) -> bool
    requires part { IsSpelling part.now }
    requires sent { IsSpelling sent.now }
    ensures { (m : Bool) (d : Datagram) (k : Bool) (e : Datagram) → IsDatagram d → IsDatagram e → part.now ≡ spelling m d
        → sent.now ≡ spelling k e → (result ≡ true) ↔ SameAt n d e }
{
    let (ours, theirs) = (Header::read(sent), Header::read(part));
    theirs.command.number() == ours.command.number()
        && theirs.index == ours.index
        && theirs.data_length == ours.data_length
        && (n > 0 || read_data(part) == read_data(sent))
        && (n < 2 || theirs.address == ours.address)
}

/// Whether the next datagrams of a payload and of the frame that was sent agree.
fn next_is_same(
    n: usize,
    places: &mut Datagrams,
    payload: &[u8],
    sent_places: &mut Datagrams,
    sent: &[u8],
) -> bool
    requires payload { (ds : List Datagram) × IsAhead payload.now places.old ds }
    requires sent { (es : List Datagram) × IsAhead sent.now sent_places.old es }
    ensures { (ds : List Datagram) (es : List Datagram) → IsAhead payload.now places.old ds → IsAhead sent.now sent_places.old es
        → NextAre n payload.now places.new sent.now sent_places.new ds es result }
{
    let here = next_place(places, payload);
    let there = next_place(sent_places, sent);
    if here.to == 0 || there.to == 0 {
        return false;
    }
    is_same(n, &payload[here.from..here.to], &sent[there.from..there.to])
}

//! The datagrams of a frame, one after another.
ghost use Rattle.std.specs.Prelude.{◌≡◌, ◌+◌, ◌≤◌, ◌∷◌, [], List, length, slice_range, IfSome, IsSome, None};
ghost use Rattle.ec_frame.specs.Datagram.{Datagram, IsSpelling, is_followed, spelling};
ghost use Rattle.ec_frame.specs.Cursor.{IsAhead, StepsTo};
ghost use Rattle.ec_frame.specs.Lending.{HasNext, IsLending};
ghost use Rattle.ec_frame.specs.Frame.{Payload, IsFrame, length_field};

use crate::checking::data_length;
use crate::field::{self, OVERHEAD};
use byteorder::{ByteOrder, LittleEndian};

/// Where the spelling of a datagram stands in a frame: from its first byte to before `to`.
#[derive(Clone, Copy, Debug, PartialEq, Eq, Drop)]
pub struct DatagramSpan {
    /// Its first byte.
    pub from: usize,
    /// The byte behind its last one.
    pub to: usize,
}

/// The datagrams of a checked frame, one after another, each once. It holds no reference: the frame stands beside it and is
/// passed to each step. [`Datagrams::next`] lends a datagram, [`Datagrams::next_part`] its bytes alone, and
/// [`Datagrams::next_place`] returns its place.
#[derive(Clone, Copy, Debug, PartialEq, Eq, Drop)]
pub struct Datagrams {
    /// Where the next datagram begins.
    pub at: usize,
    /// Where the last one ends.
    pub end: usize,
}

impl Datagrams {
    /// All datagrams of a frame. There is one at least.
    pub fn new(frame: &[u8]) -> Self
        requires { (p : Payload) × IsFrame frame.now p }
        ensures first { HasNext frame.now result }
        ensures lending { (p : Payload) → IsFrame frame.now p → IsLending frame.now result p [] p.datagrams }
        ensures ahead { (p : Payload) → IsFrame frame.now p → IsAhead frame.now result p.datagrams }
        ensures at { result.at ≡ 2 }
        ensures end { result.end ≡ 2 + length_field frame.now }
    {
        let header = LittleEndian::read_u16(frame);
        Datagrams {
            at: field::FRAME_HEADER_LEN,
            end: field::FRAME_HEADER_LEN + usize::from(field::length_in(header)),
        }
    }

    /// The place of the next datagram; none after the last.
    pub fn next_place(&mut self, frame: &[u8]) -> Option<DatagramSpan>
        requires { (ds : List Datagram) × IsAhead frame.now self.old ds }
        ensures steps { (ds : List Datagram) → IsAhead frame.now self.old ds
            → StepsTo self.old self.new result ds }
        ensures within { IfSome result (λ span. (span.from ≤ span.to) × (span.to ≤ length frame.now)) }
        ensures spelled { IfSome result (λ span. IsSpelling (slice_range frame.now span.from span.to)) }
        ensures first { (d : Datagram) (ds : List Datagram) → IsAhead frame.now self.old (d ∷ ds)
            → IfSome result (λ span.
            slice_range frame.now span.from span.to ≡ spelling (is_followed ds) d) }
        ensures others { (d : Datagram) (ds : List Datagram) → IsAhead frame.now self.old (d ∷ ds)
            → IsAhead frame.now self.new ds }
        ensures ahead { (ds : List Datagram) × IsAhead frame.now self.new ds }
    {
        if self.at == self.end {
            return None;
        }
        let from = self.at;
        let (_, rest) = frame.split_at(from);
        let to = from + (OVERHEAD + data_length(rest));
        self.at = to;
        Some(DatagramSpan { from, to })
    }

    /// The bytes that spell the next datagram; none after the last.
    pub fn next_part<'a>(&mut self, frame: &'a [u8]) -> Option<&'a [u8]>
        requires { (ds : List Datagram) × IsAhead frame.now self.old ds }
        ensures spelled { IfSome result (λ part. IsSpelling part.now) }
        ensures first { (d : Datagram) (ds : List Datagram) → IsAhead frame.now self.old (d ∷ ds)
            → IfSome result (λ part. part.now ≡ spelling (is_followed ds) d) }
        ensures others { (d : Datagram) (ds : List Datagram) → IsAhead frame.now self.old (d ∷ ds)
            → IsAhead frame.now self.new ds }
        ensures some { (d : Datagram) (ds : List Datagram) → IsAhead frame.now self.old (d ∷ ds) → IsSome result }
        ensures none { IsAhead frame.now self.old [] → result ≡ None }
        ensures ahead { (ds : List Datagram) × IsAhead frame.now self.new ds }
    {
        let span = self.next_place(frame)?;
        Some(&frame[span.from..span.to])
    }
}

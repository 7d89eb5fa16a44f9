//! Ethernet frames that carry EtherCAT (IEEE 802.3; ETG.1000.4, "EtherCAT frame structure").
ghost use Rattle.std.specs.Prelude.{◌≡◌, ◌≤◌, ◌+◌, ◌↔◌, ℕ, List, ◌++◌, length, replicate, IfSome, IfNone, IsTrue};
ghost use Rattle.ec_card.specs.Ethernet.{HandsOn, framed, source_of};
ghost use Rattle.ec_card.specs.Headings.{IsHandedOn};

use arrayvec::ArrayVec;

/// The bytes before the payload: two addresses of six bytes, and the type.
pub(crate) const HEADING_LEN: usize = 14;

/// The least number of bytes behind these: an Ethernet frame has 60, without its check sequence.
const LEAST_PAYLOAD: usize = 46;

/// The destination that every station takes: the broadcast address.
const TO_ALL: [u8; 6] = [0xFF; 6];

/// The type of EtherCAT, 0x88A4, its high byte first.
const ETHER_TYPE: [u8; 2] = [0x88, 0xA4];

/// The sender of a frame: the master, or the segment of its slaves, which set bit 1 of the first
/// byte of the source address.
#[derive(Clone, Copy, Debug, PartialEq, Eq, Drop)]
pub enum Sender {
    Master,
    Segment,
}

/// An Ethernet frame with a payload of at most 1472 bytes.
pub type EthernetFrame = ArrayVec<u8, 1486>;

impl Sender {
    /// The source address of its frames.
    fn source(self) -> [u8; 6]
        ensures { result ≡ source_of self }
    {
        match self {
            Sender::Master => [0, 0, 0, 0x45, 0x43, 1],
            Sender::Segment => [2, 0, 0, 0x45, 0x43, 1],
        }
    }
}

/// The frame in which `sender` sends a payload of at most 1472 bytes. It goes to the broadcast
/// address, has type 0x88A4, and is filled up with zeros to at least 60 bytes.
pub fn framed(sender: Sender, payload: &[u8]) -> EthernetFrame
    requires { length payload.now ≤ 1472 }
    ensures { result.items ≡ framed sender payload.now }
{
    let mut frame = EthernetFrame::new();
    append(&mut frame, &TO_ALL);
    append(&mut frame, &sender.source());
    append(&mut frame, &ETHER_TYPE);
    append(&mut frame, payload);
    append_zeros(&mut frame, LEAST_PAYLOAD.saturating_sub(payload.len()));
    frame
}

/// The payload of a received frame: all bytes behind its type. It is `None` if the frame has another
/// type, fewer than 14 bytes, or the source address of `own`.
#[tactic(auto, using(crate::proofs::PayloadsComeThrough::handed_on, crate::proofs::PayloadsComeThrough::not_handed_on))]
pub fn payload_of<'a>(own: Sender, frame: &'a [u8]) -> Option<&'a [u8]>
    ensures some { IfSome result (λ payload. HandsOn own frame.entry.now payload.now) }
    ensures none { IfNone result ((payload : List ℕ) → HandsOn own frame.entry.now payload → ⊥) }
{
    let (heading, payload) = frame.split_at_checked(HEADING_LEN)?;
    if is_handed_on(own, heading) {
        Some(payload)
    } else {
        None
    }
}

fn append_zeros(frame: &mut EthernetFrame, count: usize)
    requires few { count ≤ 46 }
    requires room { length frame.old.items + count ≤ 1486 }
    ensures { frame.new.items ≡ frame.old.items ++ replicate count 0 }
{
    append(frame, &[0; LEAST_PAYLOAD][..count]);
}

fn append(frame: &mut EthernetFrame, bytes: &[u8])
    requires { length frame.old.items + length bytes.now ≤ 1486 }
    ensures { frame.new.items ≡ frame.old.items ++ bytes.now }
{
    let _ = frame.try_extend_from_slice(bytes);
}

/// Whether a frame whose first 14 bytes these are is handed on: its type is that of EtherCAT, and
/// its source isn't one's own.
fn is_handed_on(own: Sender, heading: &[u8]) -> bool
    requires { length heading.now ≡ 14 }
    ensures { IsTrue result ↔ IsHandedOn own heading.now }
{
    are(&heading[12..], &ETHER_TYPE) && !are(&heading[6..12], &own.source())
}

/// Whether two runs of bytes are equal.
fn are(bytes: &[u8], wanted: &[u8]) -> bool
    ensures { IsTrue result ↔ (bytes.now ≡ wanted.now) }
{
    bytes == wanted
}

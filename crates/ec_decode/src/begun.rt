//! A frame whose lines are being read.
ghost use Rattle.std.specs.Prelude.{◌≡◌, ◌+◌, ◌<◌, ◌≤◌, ◌^◌, ◌==◌, ◌∷◌, ◌++◌, [], length, nat_le};
ghost use Rattle.std.specs.Prelude.{IfOk, OnErr, OnOk, if◌then◌else◌};
ghost use Rattle.std.specs.List.{AllByRecursion};
ghost use Rattle.byteorder.specs.Endian.{little_bytes};
ghost use Rattle.ec_frame.specs.Datagram.{IsDatagram, heading, opened, spelling};
ghost use Rattle.ec_frame.specs.Commands.{number_of};
ghost use Rattle.ec_frame.specs.Frame.{IsByte, IsFrame};
ghost use Rattle.ec_decode.specs.Holding.{HasFields, IsHeld, begun_of};
ghost use Rattle.ec_decode.specs.Reading.{whole_of, with_datagram};
ghost use Rattle.ec_decode.specs.Stating.{datagram_of, heading_of};

use crate::line::{Heading, Stated};
use ec_frame::Command;
use ec_frame::field::{FRAME_HEADER_LEN, MAX_FRAME_LEN, OVERHEAD};
use std::alloc::{AllocError, Global};

/// How many bytes of datagrams a frame has at most.
const MAX_AREA: usize = MAX_FRAME_LEN - FRAME_HEADER_LEN;

/// In a datagram's flags: the place of the reserved bits, behind the length.
const RESERVED_BITS: u32 = 11;
/// In a datagram's flags: the frame has circulated once.
const CIRCULATING: u16 = 0x4000;
/// In a datagram's flags: another follows.
const MORE: u16 = 0x8000;
/// In the frame's header: the reserved bit.
const RESERVED_BIT: u16 = 0x0800;
/// In the frame's header: the type of a frame of datagrams.
const DATAGRAMS: u16 = 0x1000;

/// A frame whose line was read.
#[derive(Drop)]
pub(crate) struct Begun {
    heading: Heading,
    /// How many of its datagrams were read.
    read: u64,
    /// Their bytes, each of which says that another follows.
    area: Vec<u8>,
}

/// The bit of a word if it is set, else 0.
fn bit_if(set: bool, bit: u16) -> u16
    ensures { result ≡ (if set then bit else 0) }
{
    if set { bit } else { 0 }
}

/// The ten bytes before the data.
fn heading_of(command: Command, index: u8, address: u32, flags: u16, irq: u16) -> [u8; 10]
    ensures bytes { result ≡ number_of command ∷ index ∷ little_bytes 4 address
        ++ (little_bytes 2 flags ++ little_bytes 2 irq) }
    ensures fits { (index < 256) × (address < 2 ^ 32) × (irq < 65536) }
{
    let a = address.to_le_bytes();
    let f = flags.to_le_bytes();
    let i = irq.to_le_bytes();
    [
        command.number(),
        index,
        a[0],
        a[1],
        a[2],
        a[3],
        f[0],
        f[1],
        i[0],
        i[1],
    ]
}

/// The two bytes of a working counter.
fn counter_of(counter: u16) -> [u8; 2]
    ensures bytes { result ≡ little_bytes 2 counter }
    ensures fits { counter < 65536 }
{
    counter.to_le_bytes()
}

/// The ten bytes before the data of a datagram, which says whether another follows.
fn heading_bytes(stated: &Stated, more: bool) -> [u8; 10]
    requires length { length (datagram_of stated.now).data_bytes < 2048 }
    requires reserved { (datagram_of stated.now).reserved < 8 }
    ensures value { result ≡ heading more (datagram_of stated.now) }
    ensures fits { HasFields (datagram_of stated.now) }
{
    let fields = stated.fields;
    let flags = stated.content.len() as u16
        + (u16::from(fields.reserved) << RESERVED_BITS)
        + bit_if(fields.circulating, CIRCULATING)
        + bit_if(more, MORE);
    heading_of(
        fields.command,
        fields.index,
        fields.address,
        flags,
        fields.irq,
    )
}

/// The spelling of a datagram, which says whether another follows.
fn spell(alloc: Global, stated: &Stated, more: bool) -> Result<Vec<u8>, AllocError>
    requires length { length (datagram_of stated.now).data_bytes < 2048 }
    requires reserved { (datagram_of stated.now).reserved < 8 }
    ensures value { IfOk result (λ bytes. bytes.items ≡ spelling more (datagram_of stated.now)) }
    ensures good { OnOk result (IsDatagram (datagram_of stated.now)) }
{
    let mut bytes = Vec::new(alloc);
    bytes.extend_from_slice(&heading_bytes(stated, more))?;
    bytes.extend_from_slice(stated.content.as_slice())?;
    bytes.extend_from_slice(&counter_of(stated.counter))?;
    Ok(bytes)
}

/// The payload of a header, the datagrams before the last one, the last one, and the bytes behind
/// it.
fn payload_of(
    alloc: Global,
    header: u16,
    area: &[u8],
    last: &[u8],
    rest: &[u8],
) -> Result<Vec<u8>, AllocError>
    ensures parts { IfOk result (λ payload. payload.items
        ≡ little_bytes 2 header ++ (area.now ++ (last.now ++ rest.now))) }
    ensures bytes { IfOk result (λ payload. AllByRecursion IsByte payload.items) }
{
    let mut payload = Vec::new(alloc);
    payload.extend_from_slice(&header.to_le_bytes())?;
    payload.extend_from_slice(area)?;
    payload.extend_from_slice(last)?;
    payload.extend_from_slice(rest)?;
    Ok(payload)
}

impl Begun {
    /// A frame of which no datagram was read.
    pub(crate) fn new(alloc: Global, heading: Heading) -> Begun
        requires { 0 < heading.count }
        ensures held { IsHeld result }
        ensures begun { begun_of result
            ≡ (record { heading = heading_of heading; datagrams = [] }) }
    {
        Begun {
            heading,
            read: 0,
            area: Vec::new(alloc),
        }
    }

    /// The number of the next datagram.
    pub(crate) fn number(&self) -> u64
        requires { IsHeld self.now }
        ensures { result ≡ length (begun_of self.now).datagrams }
    {
        self.read
    }

    /// Whether the frame has room for a datagram more.
    pub(crate) fn fits(&self, stated: &Stated) -> bool
        requires { IsHeld self.now }
        ensures { result ≡ nat_le (length
            (opened ((begun_of self.now).datagrams ++ datagram_of stated.now ∷ []))) 1470 }
    {
        self.area.len() + OVERHEAD + stated.content.len() <= MAX_AREA
    }

    /// Whether the next datagram is the last one.
    pub(crate) fn ends(&self) -> bool
        requires { IsHeld self.now }
        ensures { result
            ≡ (length (begun_of self.now).datagrams + 1 == (begun_of self.now).heading.count) }
    {
        self.heading.count - self.read == 1
    }

    /// Adds a datagram that others follow. Where memory runs out, nothing changes.
    pub(crate) fn add(&mut self, alloc: Global, stated: &Stated) -> Result<(), AllocError>
        requires held { IsHeld self.old }
        requires reserved { (datagram_of stated.now).reserved < 8 }
        requires fits { length
            (opened ((begun_of self.old).datagrams ++ datagram_of stated.now ∷ [])) ≤ 1470 }
        requires more { length (begun_of self.old).datagrams + 1
            < (begun_of self.old).heading.count }
        ensures held { IsHeld self.new }
        ensures ok { OnOk result (begun_of self.new
            ≡ with_datagram (begun_of self.old) (datagram_of stated.now)) }
        ensures err { OnErr result (begun_of self.new ≡ begun_of self.old) }
    {
        let bytes = spell(alloc, stated, true)?;
        self.area.extend_from_slice(bytes.as_slice())?;
        self.read += 1;
        Ok(())
    }

    /// The payload of the frame with its last datagram.
    pub(crate) fn finish(&self, alloc: Global, stated: &Stated) -> Result<Vec<u8>, AllocError>
        requires held { IsHeld self.now }
        requires reserved { (datagram_of stated.now).reserved < 8 }
        requires fits { length
            (opened ((begun_of self.now).datagrams ++ datagram_of stated.now ∷ [])) ≤ 1470 }
        ensures { IfOk result (λ payload. IsFrame payload.items
            (whole_of (begun_of self.now) (datagram_of stated.now))) }
    {
        let last = spell(alloc, stated, false)?;
        let len = self.area.len() + last.len();
        let header = len as u16 + bit_if(self.heading.reserved, RESERVED_BIT) + DATAGRAMS;
        let rest = self.heading.rest.as_slice();
        payload_of(alloc, header, self.area.as_slice(), last.as_slice(), rest)
    }
}

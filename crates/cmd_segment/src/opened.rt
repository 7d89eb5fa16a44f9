//! A segment's wire: a socket on a port, or that of a card.
ghost use Rattle.std.specs.Prelude.{◌≡◌, IfErr, IfOk};
ghost use Rattle.std.specs.Net.Addr.{ipv4_octets};
ghost use Rattle.ec_wire.specs.Wires.{silent};
ghost use Rattle.ec_console.specs.Printing.{IsEprinted};
ghost use Rattle.cmd_segment.specs.Opening.{TellsOpened, listening_line, state_of};

use crate::endpoint::Endpoint;
use arrayvec::ArrayString;
use ec_card::{CardWire, Sender};
use ec_console::OutputStream;
use ec_text::push_number;
use ec_wire::{Patience, SocketFault, Trouble, UdpWire, Wire};
use std::io::Write;
use std::net::{Ipv4Addr, Net};
use std::os::fd::RawFd;
use std::time::Duration;

/// The most bytes of a printed line.
const LINE_SIZE: usize = 128;

/// A segment's wire.
#[derive(Drop)]
pub enum SegmentWire {
    /// On a port.
    Port(UdpWire),
    /// On a card.
    Card(CardWire),
}

impl SegmentWire {
    /// Opens the wire of an endpoint, which waits for payloads with this patience. On a port it prints on the fault stream where it listens.
    /// Ethernet frames that a card sends have bit 1 of the source set.
    ///
    /// # Errors
    ///
    /// `SocketFault` if there is no such socket. Nothing is printed then.
    pub fn open<H: Net, F: Write + Drop>(
        rt: &H,
        endpoint: Endpoint,
        patience: Patience,
        faults: &mut OutputStream<F>,
    ) -> Result<SegmentWire, SocketFault>
        ensures fresh { IfOk result (λ wire. state_of wire ≡ silent 0) }
        ensures tells { IfOk result (λ wire. TellsOpened endpoint.descriptor (ipv4_octets endpoint.address) endpoint.port faults.old faults.new) }
        ensures refused { IfErr result (λ fault. faults.new ≡ faults.old) }
    {
        match endpoint.descriptor {
            None => {
                let wire = UdpWire::bind_at(rt, endpoint.address, endpoint.port, patience)?;
                eprint_listening(endpoint.address, wire.port(), faults);
                Ok(SegmentWire::Port(wire))
            }
            Some(descriptor) => {
                let descriptor = i32::from(descriptor);
                let wire = CardWire::of_descriptor(descriptor, Sender::Segment, patience)?;
                Ok(SegmentWire::Card(wire))
            }
        }
    }

    /// The descriptor at which one can wait for payloads.
    pub fn descriptor(&self) -> RawFd {
        match self {
            SegmentWire::Port(wire) => wire.descriptor(),
            SegmentWire::Card(wire) => wire.descriptor(),
        }
    }
}

impl Wire for SegmentWire {
    ghost use Rattle.cmd_segment.specs.Opening.{state_of};

    ghost state = { state_of };

    fn failures(&self) -> u64 {
        match self {
            SegmentWire::Port(wire) => wire.failures(),
            SegmentWire::Card(wire) => wire.failures(),
        }
    }

    fn trouble(&self) -> Trouble {
        match self {
            SegmentWire::Port(wire) => wire.trouble(),
            SegmentWire::Card(wire) => wire.trouble(),
        }
    }

    fn send(&mut self, payload: &[u8]) {
        match self {
            SegmentWire::Port(wire) => wire.send(payload),
            SegmentWire::Card(wire) => wire.send(payload),
        }
    }

    fn recv(&mut self, buffer: &mut [u8]) -> usize {
        match self {
            SegmentWire::Port(wire) => wire.recv(buffer),
            SegmentWire::Card(wire) => wire.recv(buffer),
        }
    }

    fn recv_within(&mut self, waited: Duration, buffer: &mut [u8]) -> Option<usize> {
        match self {
            SegmentWire::Port(wire) => wire.recv_within(waited, buffer),
            SegmentWire::Card(wire) => wire.recv_within(waited, buffer),
        }
    }
}

/// Prints on the fault stream where a segment listens. A refused write changes nothing else.
fn eprint_listening<F: Write + Drop>(address: Ipv4Addr, port: u16, faults: &mut OutputStream<F>)
    ensures { IsEprinted (listening_line (ipv4_octets address) port) faults.old faults.new }
{
    let line = listening(address, port);
    faults.eprint_text(line.as_bytes());
}

/// The line that says where a segment listens.
fn listening(address: Ipv4Addr, port: u16) -> ArrayString<LINE_SIZE>
    ensures { result.bytes ≡ listening_line (ipv4_octets address) port }
{
    let [a, b, c, d] = address.octets();
    let mut line = ArrayString::new();
    line.push_str("ecat: listening on ");
    push_number(&mut line, u64::from(a));
    line.push_str(".");
    push_number(&mut line, u64::from(b));
    line.push_str(".");
    push_number(&mut line, u64::from(c));
    line.push_str(".");
    push_number(&mut line, u64::from(d));
    line.push_str(":");
    push_number(&mut line, u64::from(port));
    line.push_str("\n");
    line
}

//! Frames written by hand, and wires over sockets of this process in the place of a card's.
//!
//! What is done with a wire and the socket at its other end are lines of text:
//!
//! | Line | Says |
//! |---|---|
//! | `sends ROW`, `takes SIZE > ROW` | the wire sends a payload, or receives one into a buffer of so many bytes |
//! | `gives ROW`, `meets > ROW` | the other end sends a frame, or receives one |
//! | `failures > COUNT` | the faults of the wire so far |
use crate::rows::{
    Line, assert_row, assert_same, bytes_of, expect, expect_words, line_of, number_of,
};
use ec_card::{CardWire, Patience, Sender, framed, payload_of};
use ec_frame::check;
use ec_wire::{SocketFault, Trouble, Wire};
use std::alloc::{AllocError, Global};
use std::net::{Ipv4Addr, Net, SocketAddr, UdpSocket};
use std::os::fd::IntoRawFd;
use std::process::Abort;
use std::time::Duration;

/// A broadcast read of the AL status: EtherCAT's header, and one datagram.
const READ: &str = "0e100701000030010200000000000000";

/// The same as a master sends it in an Ethernet frame: to all, from 00:00:00:45:43:01, of type 0x88A4, padded to 60 bytes.
const SENT: &str = "ffffffffffff 000000454301 88a4 0e100701000030010200000000000000 00x30";

/// The same from a segment, which sets bit 1 of the source's first byte.
const SENT_BACK: &str = "ffffffffffff 020000454301 88a4 0e100701000030010200000000000000 00x30";

/// Compares the frame of a payload.
fn expect_framed(rt: &(impl AllocGlobal + Abort), sender: Sender, payload: &str, frame: &str) {
    let payload = bytes_of(rt, payload);
    expect(rt, payload.len() <= 1472, "a payload that fits");
    let met = framed(sender, &payload);
    assert_same(rt, &met.as_slice(), &bytes_of(rt, frame).as_slice(), frame);
}

// The heading, the payload and the padding, byte by byte.
#[test]
fn frame_as_sent(rt: HostRuntime) {
    expect_framed(&rt, Sender::Master, READ, SENT);
    expect_framed(&rt, Sender::Segment, READ, SENT_BACK);
    expect_framed(
        &rt,
        Sender::Master,
        "07x1472",
        "ffffffffffff 000000454301 88a4 07x1472",
    );
}

/// Frames that come to a master or a segment. Behind `>` stand the size of the payload that is handed on and how many datagrams it has,
/// 0 if it is no frame; or `none`.
const COMING: &str = "\
master ffffffffffff 020000454301 88a4 0e100701030030010200000001000300 00x30 > 46 1
master ffffffffffff 000000454301 88a4 0e100701000030010200000000000000 00x30 > none
master ffffffffffff 020000454301 0800 450000000000000000000000 > none
master ffffffffffff 020000454301 a488 0e1007010300300102000000 > none
master ffffffffffff 020000454301 88 > none
master > none
segment ffffffffffff 020000454301 88a4 0e100701030030010200000001000300 00x30 > none
master ffffffffffff 020000454301 88a4 > 0 0";

/// What is handed on of a frame.
fn handed_words(alloc: Global, own: Sender, frame: &[u8]) -> Result<String, AllocError> {
    match payload_of(own, frame) {
        None => String::from_str(alloc, "none"),
        Some(payload) => {
            let (size, count) = (payload.len(), check(payload).unwrap_or(0));
            format!(in alloc; "{size} {count}")
        }
    }
}

fn expect_handed_on(rt: &(impl AllocGlobal + Abort), line: &Line<'_>) {
    let own = match line.word {
        "segment" => Sender::Segment,
        _ => Sender::Master,
    };
    let frame = bytes_of(rt, line.about);
    expect_words(rt, line, handed_words(rt.alloc(), own, &frame));
}

// The answer, padded; its own frame; IPv4, and 0xA488; a byte less than the heading, and nothing; a segment's own frame; the heading alone.
#[test]
fn frames_that_come(rt: HostRuntime) {
    for line in COMING.lines() {
        expect_handed_on(&rt, &line_of(line));
    }
}

/// A port on 127.0.0.1.
fn here(port: u16) -> SocketAddr {
    SocketAddr::from((Ipv4Addr::LOCALHOST, port))
}

/// How long a wire of these tests waits.
fn soon() -> Patience {
    Patience::For(Duration::from_millis(50))
}

/// A socket on a port that the system picks, which waits half a second.
fn socket_of(rt: &(impl Net + Abort)) -> UdpSocket {
    let socket = UdpSocket::bind(rt, here(0)).expect(rt, "a socket");
    let wait = Some(Duration::from_millis(500));
    socket.set_read_timeout(wait).expect(rt, "a patience");
    socket
}

/// Connects a socket with another: it sends there, and hears nobody else.
fn connect(rt: &impl Abort, socket: &UdpSocket, other: &UdpSocket) {
    let address = other.local_addr().expect(rt, "an address");
    socket.connect(address).expect(rt, "a connection");
}

/// A wire over a socket.
fn wire_over(rt: &impl Abort, socket: UdpSocket, own: Sender) -> CardWire {
    let descriptor = socket.into_raw_fd();
    expect(rt, descriptor >= 0, "a descriptor");
    CardWire::of_descriptor(descriptor, own, soon()).expect(rt, "a wire")
}

/// The wire sends a payload.
fn send(rt: &(impl AllocGlobal + Abort), wire: &mut CardWire, row: &str) {
    wire.send(&bytes_of(rt, row));
}

/// How many bytes the wire receives into a buffer.
fn receive(wire: &mut CardWire, buffer: &mut [u8]) -> usize {
    wire.recv(buffer)
}

/// The wire receives into a buffer of so many bytes.
fn expect_taken(rt: &(impl AllocGlobal + Abort), wire: &mut CardWire, line: &Line<'_>) {
    let mut buffer = [0; 1472];
    let size = number_of(rt, line.about).min(1472);
    let count = receive(wire, &mut buffer[..size]);
    assert_row(rt, line, &buffer[..count.min(size)]);
}

/// The other end receives a frame.
fn expect_met(rt: &(impl AllocGlobal + Abort), peer: &UdpSocket, line: &Line<'_>) {
    let mut frame = [0; 1514];
    let count = peer.recv(&mut frame).expect(rt, "a frame");
    assert_row(rt, line, &frame[..count.min(1514)]);
}

/// The other end sends a frame.
fn give(rt: &(impl AllocGlobal + Abort), peer: &UdpSocket, row: &str) {
    peer.send(&bytes_of(rt, row)).expect(rt, "a frame");
}

/// Compares the faults of the wire.
fn expect_failures(rt: &impl Abort, wire: &CardWire, line: &Line<'_>) {
    let wanted = number_of(rt, line.row.trim()) as u64;
    assert_same(rt, &wire.failures(), &wanted, line.text);
}

/// Takes the step of a line.
fn take_step(
    rt: &(impl AllocGlobal + Abort),
    wire: &mut CardWire,
    peer: &UdpSocket,
    line: &Line<'_>,
) {
    match line.word {
        "sends" => send(rt, wire, line.about),
        "takes" => expect_taken(rt, wire, line),
        "gives" => give(rt, peer, line.about),
        "meets" => expect_met(rt, peer, line),
        "failures" => expect_failures(rt, wire, line),
        _ => expect(rt, false, line.text),
    }
}

/// Takes the steps of all lines, in their order.
fn take_all(rt: &(impl AllocGlobal + Abort), wire: &mut CardWire, peer: &UdpSocket, lines: &str) {
    for line in lines.lines() {
        take_step(rt, wire, peer, &line_of(line));
    }
}

/// Takes steps with a wire and a socket at its other end: of each message the other gets the whole.
fn expect_steps(rt: &(impl Net + AllocGlobal + Abort), own: Sender, lines: &str) {
    let (card, peer) = (socket_of(rt), socket_of(rt));
    connect(rt, &card, &peer);
    connect(rt, &peer, &card);
    take_all(rt, &mut wire_over(rt, card, own), &peer, lines);
}

// A master's payload goes in a frame; of what comes it is handed the answer alone, behind its own frame and two that are too
// short; then it waits in vain. A payload that is too long isn't sent.
#[test]
fn master_over_a_socket(rt: HostRuntime) {
    expect_steps(
        &rt,
        Sender::Master,
        "\
sends 0e100701000030010200000000000000
meets > ffffffffffff 000000454301 88a4 0e100701000030010200000000000000 00x30
gives ffffffffffff 000000454301 88a4 0e100701000030010200000000000000 00x30
gives 0800
gives
gives ffffffffffff 020000454301 88a4 0e100701030030010200000001000300 00x30
takes 1472 > 0e100701030030010200000001000300 00x30
failures > 0
takes 1472 >
failures > 1
sends 00x1473
failures > 2
",
    );
}

// What the buffer has no room for is dropped.
#[test]
fn short_buffer(rt: HostRuntime) {
    expect_steps(
        &rt,
        Sender::Segment,
        "\
gives ffffffffffff 000000454301 88a4 0e100701000030010200000000000000 00x30
takes 2 > 0e10
failures > 0
",
    );
}

// A descriptor that isn't open is no wire.
#[test]
fn no_socket(rt: HostRuntime) {
    for patience in [soon(), Patience::Endless] {
        let wire = CardWire::of_descriptor(1000, Sender::Master, patience);
        assert_same(&rt, &wire.err(), &Some(SocketFault(Trouble::System(9))), "");
    }
}

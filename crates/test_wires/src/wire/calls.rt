//! Calls of wires, one after another: of one over memory, and of those at both ends of the system's sockets.
use crate::rows::{Line, assert_same, expect, expect_words, line_of, number_of};
use crate::wire::machines::{READ, machine_of, ring_of, wire_to};
use crate::wire::tables::THREE_SLAVES;
use ec_ring::Ring;
use ec_wire::{Echo, MemoryWire, Patience, SocketFault, UdpWire, Wire, serve_segment};
use std::alloc::{AllocError, Global};
use std::net::{Ipv4Addr, Net, SocketAddr, SocketAddrV4, UdpSocket};
use std::process::Abort;

/// What three slaves make of `READ` as they are switched on.
const ANSWER: [u8; 16] = [14, 16, 7, 1, 3, 0, 0x30, 1, 2, 0, 0, 0, 1, 0, 3, 0];

/// Sends a payload. Nothing is received.
fn send<W: Wire>(wire: &mut W, payload: &[u8]) -> (usize, usize) {
    wire.send(payload);
    (0, 0)
}

/// How many bytes are sevens.
fn sevens_in(bytes: &[u8]) -> usize {
    let mut count: usize = 0;
    for byte in bytes {
        count = count.saturating_add(usize::from(*byte == 7));
    }
    count
}

/// How many bytes of a payload are received, and how many sevens there are then in a longer buffer.
fn receive<W: Wire>(wire: &mut W) -> (usize, usize) {
    let mut buffer = [0; 1600];
    let count = wire.recv(&mut buffer);
    (count, sevens_in(&buffer))
}

/// Sends the broadcast, or receives. How many bytes were received.
fn bytes_of_call(wire: &mut MemoryWire, call: &str) -> usize {
    match call {
        "send" => send(wire, &READ).0,
        _ => receive(wire).0,
    }
}

/// How many bytes are received, the faults and the received payloads so far.
fn memory_words(alloc: Global, count: usize, wire: &MemoryWire) -> Result<String, AllocError> {
    let (failures, received) = (wire.failures(), wire.received_count());
    format!(in alloc; "{count} {failures} {received}")
}

/// Makes the call of a line, and compares what is seen then.
fn expect_memory_call(rt: &(impl AllocGlobal + Abort), wire: &mut MemoryWire, line: &Line<'_>) {
    let count = bytes_of_call(wire, line.word);
    expect_words(rt, line, memory_words(rt.alloc(), count, wire));
}

fn expect_memory_calls(rt: &(impl AllocGlobal + Abort), wire: &mut MemoryWire, lines: &str) {
    for line in lines.lines() {
        expect_memory_call(rt, wire, &line_of(line));
    }
}

/// Three slaves as they are switched on.
fn three_slaves(rt: &(impl AllocGlobal + Abort)) -> Ring {
    ring_of(rt, &machine_of(rt, THREE_SLAVES))
}

/// Makes calls of a wire over memory to three slaves, with room for one payload.
pub fn expect_memory(rt: &(impl AllocGlobal + Abort), lines: &str) {
    let mut wire = wire_to(rt, three_slaves(rt), 1, u64::MAX);
    expect_memory_calls(rt, &mut wire, lines);
}

/// A segment of three slaves with its socket, a master's, one of a client of the segment, and one of a stranger. Lines make calls of them:
/// a call, a number, and behind `>` what is seen then. That is the bytes that are received and the sevens among them, or the payloads that
/// are answered and refused; and the faults of the master and of the segment so far.
///
/// | Call | Does |
/// |---|---|
/// | `master_sends`, `segment_sends`, `client_sends` | a payload of so many sevens is sent |
/// | `master_receives`, `segment_receives` | a payload is received |
/// | `stranger_disturbs` | so many sevens are sent to the master |
/// | `client_asks`, `stranger_asks`, `gone_asks` | the broadcast is sent to the segment, also by a client that is gone then |
/// | `client_hears`, `stranger_hears` | the answer to it comes back from the segment |
/// | `serve` | the segment serves so many payloads |
/// | `client_misses` | so many sevens are sent to the segment's port on 127.0.0.2 |
/// | `nearby` | a socket on that port of 127.0.0.2, which a segment on all addresses would hold |
/// | `no_patience`, `port_in_use` | a master that waits no time, and a second segment on that port, are no sockets |
#[derive(Drop)]
struct Ends {
    ring: Ring,
    segment: UdpWire,
    master: UdpWire,
    client: UdpSocket,
    stranger: UdpSocket,
}

/// A port on 127.0.0.1.
fn here(port: u16) -> SocketAddr {
    SocketAddr::from((Ipv4Addr::LOCALHOST, port))
}

/// A port on 127.0.0.2, which is another address of the same machine.
fn near(port: u16) -> SocketAddr {
    SocketAddr::from((Ipv4Addr::new(127, 0, 0, 2), port))
}

/// A socket on a port that the system picks.
fn socket_of(rt: &(impl Net + Abort)) -> UdpSocket {
    UdpSocket::bind(rt, here(0)).expect(rt, "a socket")
}

/// Sends a payload to an address.
fn send_to(rt: &impl Abort, socket: &UdpSocket, to: SocketAddr, payload: &[u8]) -> (usize, usize) {
    socket.send_to(payload, to).expect(rt, "a payload");
    (0, 0)
}

/// The answer comes back from a port. How many bytes it has.
fn hear(rt: &impl Abort, socket: &UdpSocket, port: u16) -> (usize, usize) {
    let mut buffer = [0; 1500];
    let (count, sender) = socket.recv_from(&mut buffer).expect(rt, "an answer");
    assert_same(
        rt,
        &(&buffer[..count.min(1500)], sender),
        &(&ANSWER[..], here(port)),
        "an answer",
    );
    (count, 0)
}

/// Serves so many payloads. How many were answered and how many not.
fn serve(rt: &impl Abort, ends: &mut Ends, count: u32) -> (usize, usize) {
    let served = serve_segment(&mut ends.ring, &mut Echo, &mut ends.segment, count);
    let served = served.expect(rt, "a segment");
    (served.answered as usize, served.refused as usize)
}

/// A master that is connected to a port by its address, and waits so many milliseconds.
fn patient(rt: &impl Net, port: u16, patience: u16) -> Result<UdpWire, SocketFault> {
    UdpWire::connect_patient(rt, SocketAddrV4::new(Ipv4Addr::LOCALHOST, port), patience)
}

/// Makes a call of the two wires.
fn seen_of_wires(
    rt: &(impl Net + Abort),
    ends: &mut Ends,
    call: &str,
    sevens: &[u8],
) -> (usize, usize) {
    match call {
        "master_sends" => send(&mut ends.master, sevens),
        "master_receives" => receive(&mut ends.master),
        "segment_sends" => send(&mut ends.segment, sevens),
        "segment_receives" => receive(&mut ends.segment),
        "serve" => serve(rt, ends, sevens.len().min(1500) as u32),
        _ => {
            expect(rt, false, call);
            (0, 0)
        }
    }
}

/// Makes a call of a socket beside them.
fn seen_of_call(
    rt: &(impl Net + Abort),
    ends: &mut Ends,
    call: &str,
    sevens: &[u8],
) -> (usize, usize) {
    let port = ends.segment.port();
    match call {
        "client_sends" => send_to(rt, &ends.client, here(port), sevens),
        "client_misses" => send_to(rt, &ends.client, near(port), sevens),
        "client_asks" => send_to(rt, &ends.client, here(port), &READ),
        "client_hears" => hear(rt, &ends.client, port),
        "stranger_disturbs" => send_to(rt, &ends.stranger, here(ends.master.port()), sevens),
        "stranger_asks" => send_to(rt, &ends.stranger, here(port), &READ),
        "stranger_hears" => hear(rt, &ends.stranger, port),
        "gone_asks" => send_to(rt, &socket_of(rt), here(port), &READ),
        "nearby" => (usize::from(UdpSocket::bind(rt, near(port)).is_ok()), 0),
        "no_patience" => (usize::from(patient(rt, port, 0).is_ok()), 0),
        "port_in_use" => (usize::from(UdpWire::bind(rt, port).is_ok()), 0),
        _ => seen_of_wires(rt, ends, call, sevens),
    }
}

/// What is seen of a call.
fn call_words(
    alloc: Global,
    seen: (usize, usize),
    faults: (u64, u64),
) -> Result<String, AllocError> {
    let (count, other) = seen;
    let (master, segment) = faults;
    format!(in alloc; "{count} {other} {master} {segment}")
}

/// Makes the call of a line, and compares what is seen then.
fn expect_call(rt: &(impl Net + AllocGlobal + Abort), ends: &mut Ends, line: &Line<'_>) {
    let len = number_of(rt, line.about).min(1600);
    let seen = seen_of_call(rt, ends, line.word, &[7; 1600][..len]);
    let faults = (ends.master.failures(), ends.segment.failures());
    expect_words(rt, line, call_words(rt.alloc(), seen, faults));
}

fn expect_lines(rt: &(impl Net + AllocGlobal + Abort), ends: &mut Ends, lines: &str) {
    for line in lines.lines() {
        expect_call(rt, ends, &line_of(line));
    }
}

/// A segment's wire on a port that the system picks: `idle` waits a second.
fn segment_of(rt: &(impl Net + Abort), kind: &str) -> UdpWire {
    let segment = match kind {
        "idle" => UdpWire::bind_at(rt, Ipv4Addr::LOCALHOST, 0, Patience::of_seconds(1)),
        _ => UdpWire::bind(rt, 0),
    };
    segment.expect(rt, "a segment")
}

/// A master's wire to a port: `patient` waits 20 milliseconds.
fn master_of(rt: &(impl Net + Abort), kind: &str, port: u16) -> UdpWire {
    let master = match kind {
        "patient" => patient(rt, port, 20),
        _ => UdpWire::connect(rt, port),
    };
    master.expect(rt, "a master")
}

/// All ends, of a kind.
fn ends_of(rt: &(impl Net + AllocGlobal + Abort), kind: &str) -> Ends {
    let segment = segment_of(rt, kind);
    let master = master_of(rt, kind, segment.port());
    Ends {
        ring: three_slaves(rt),
        segment,
        master,
        client: socket_of(rt),
        stranger: socket_of(rt),
    }
}

/// Makes calls of sockets.
pub fn expect_calls(rt: &(impl Net + AllocGlobal + Abort), kind: &str, lines: &str) {
    expect_lines(rt, &mut ends_of(rt, kind), lines);
}

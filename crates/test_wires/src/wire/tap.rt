//! Wires whose payloads are noted in captures, by the public calls of `ec_wire`.
ghost use Rattle.std.specs.Prelude.{◌≡◌, []};
ghost use Rattle.ec_wire.specs.Wires.{Payloads};

use crate::rows::{assert_same, bytes_of};
use ec_capture::Recorder;
use ec_ring::Ring;
use ec_wire::{CapturedWire, MemoryWire, Side, Wire};
use std::io;
use std::process::Abort;
use std::time::{Clock, Duration};

/// A broadcast read of the AL status, as it is sent; a ring without slaves gives it back as it came.
const STATUS: [u8; 16] = [0x0e, 0x10, 7, 1, 0, 0, 0x30, 0x01, 2, 0, 0, 0, 0, 0, 0, 0];

/// A packet of it: type, size, interface, time, the counts, the Ethernet frame from the master or past a slave, two bytes to
/// fill it up, size.
const SENT: &str = "06000000 40000000 00000000 01000000 05000000 1e000000 1e000000
    ffffffffffff 000000454301 88a4 0e10070100003001020000000000 0000 0000 40000000";

const PASSED: &str = "06000000 40000000 00000000 01000000 05000000 1e000000 1e000000
    ffffffffffff 020000454301 88a4 0e10070100003001020000000000 0000 0000 40000000";

/// A clock that stands at 2^32 + 5 microseconds and some.
struct Still;

impl Clock for Still {
    fn monotonic(&self) -> io::Result<Duration> {
        Ok(Duration::ZERO)
    }

    fn since_1970(&self) -> io::Result<Duration> {
        Ok(Duration::new(4294, 967_301_999))
    }
}

/// A wire to no slaves, of which the call of a number is a fault.
fn wire_of(rt: &(impl AllocGlobal + Abort), fails_at: u64) -> MemoryWire
    ensures { result ≡ record { sent = Payloads []; received = Payloads []; failed = 0 } }
{
    MemoryWire::new(rt.alloc(), Ring::new(Vec::new(rt.alloc())), 4, fails_at).expect(rt, "memory")
}

/// A capture of one interface.
fn capture_of(rt: &(impl AllocGlobal + Abort)) -> Recorder<Vec<u8>> {
    Recorder::open(Vec::new(rt.alloc()), &["loop"]).expect(rt, "memory")
}

/// Sends the broadcast, and receives. How many bytes came.
fn carry(wire: &mut impl Wire) -> usize {
    let mut buffer = [0; 1472];
    wire.send(&STATUS);
    wire.recv(&mut buffer)
}

/// What stands in a file behind its head.
fn behind(file: &[u8], head: usize) -> &[u8] {
    file.get(head..).unwrap_or(&[])
}

/// A wire at an end, of which the call of a number is a fault; how many bytes come, the faults, and the packets that are noted.
type Row = (Side, u64, (usize, u64), &'static str, &'static str);

/// What is noted of a row.
fn bytes_of_row(rt: &(impl AllocGlobal + Abort), row: &Row) -> Vec<u8> {
    let mut bytes = bytes_of(rt, row.3);
    bytes
        .extend_from_slice(&bytes_of(rt, row.4))
        .expect(rt, "memory");
    bytes
}

/// Compares what came of a wire and its capture.
fn assert_noted(rt: &(impl AllocGlobal + Abort), row: &Row, seen: (usize, u64), noted: &[u8]) {
    let wanted = bytes_of_row(rt, row);
    assert_same(
        rt,
        &(row.0, row.1, seen, noted),
        &(row.0, row.1, row.2, wanted.as_slice()),
        "",
    );
}

/// A frame is sent and received by the wire of a row.
fn expect_noted(rt: &(impl AllocGlobal + Abort), row: &Row) {
    let capture = capture_of(rt);
    let head = capture.file().len();
    let mut tapped = CapturedWire::new(wire_of(rt, row.1), capture, row.0, &Still);
    let count = carry(&mut tapped);
    let (wire, capture) = tapped.into_parts();
    let seen = (count, wire.failures());
    assert_noted(rt, row, seen, behind(capture.file().as_slice(), head));
}

// Payloads are noted as they pass; a segment sends what has passed; faults are not noted.
const ROWS: [Row; 4] = [
    (Side::Master, 9, (16, 0), SENT, PASSED),
    (Side::Segment, 9, (16, 0), PASSED, SENT),
    (Side::Master, 0, (0, 2), "", ""),
    (Side::Master, 1, (0, 1), SENT, ""),
];

#[test]
fn payloads_in_captures(rt: HostRuntime) {
    for row in &ROWS {
        expect_noted(&rt, row);
    }
}

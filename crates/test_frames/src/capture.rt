//! Captures byte by byte, by the public calls of `ec_capture`.
ghost use Rattle.std.specs.Prelude.{All, map, option_map};
ghost use Rattle.ec_capture.specs.Captures.{IsComment, IsCaptured, IsText, captured_as};

use crate::compare::{bytes_of, expect, expect_row, expect_same};
use ec_capture::{Packet, Recorder, write_packet};
use std::io;
use std::io::{ErrorKind, Write};
use std::process::Abort;

/// A broadcast read of the AL status: 16 bytes.
const STATUS: [u8; 16] = [0x0e, 0x10, 7, 1, 0, 0, 0x30, 0x01, 2, 0, 0, 0, 0, 0, 0, 0];

/// A packet much later: type, size, interface, time, the counts, the Ethernet frame with what fills it up, the comment, size.
const PASSED: &str = "06000000 54000000 01000000 01000000 89674523 1d000000 1d000000 \
    ffffffffffff 020000454301 88a4 0e1007010000300102000000000000 000000 \
    0100 0900 6c6f7374 20686572 65 000000 0000 0000 54000000";

/// A capture, as the form is written down. Its head: type, size, byte order, version 1.0, no length, size. Two interfaces: type, size,
/// Ethernet, frames of up to 65535 bytes, the name, the end of options, size. And two packets.
const CAPTURE: &str = "0a0d0d0a 1c000000 4d3c2b1a 0100 0000 ffffffffffffffff 1c000000 \
    01000000 24000000 0100 0000 ffff0000 0200 0600 6d6173746572 0000 0000 0000 24000000 \
    01000000 28000000 0100 0000 ffff0000 0200 0900 626568696e6420696f 000000 0000 0000 28000000 \
    06000000 40000000 00000000 00000000 01000000 1e000000 1e000000 \
    ffffffffffff 000000454301 88a4 0e10070100003001020000000000 0000 0000 40000000 \
    06000000 54000000 01000000 01000000 89674523 1d000000 1d000000 \
    ffffffffffff 020000454301 88a4 0e1007010000300102000000000000 000000 \
    0100 0900 6c6f7374 20686572 65 000000 0000 0000 54000000";

/// A writer that takes so many bytes, one at a time, is interrupted before each, and then is full.
#[derive(Drop)]
struct Narrow {
    bytes: Vec<u8>,
    room: usize,
    interrupted: bool,
}

impl Write for Narrow {
    fn write(&mut self, bytes: &[u8]) -> io::Result<usize> {
        self.interrupted = !self.interrupted;
        if self.interrupted {
            return Err(io::Error::from(ErrorKind::Interrupted));
        }
        match bytes {
            [first, ..] if self.bytes.len() < self.room => {
                self.bytes.push(*first)?;
                Ok(1)
            }
            _ => Ok(0),
        }
    }

    fn flush(&mut self) -> io::Result<()> {
        Ok(())
    }
}

/// A writer that takes all bytes, and hands them on so many times.
#[derive(Drop)]
struct Stuck {
    taken: usize,
    flushes: u32,
}

/// One that hands them on so many times.
fn stuck_behind(flushes: u32) -> Stuck {
    Stuck { taken: 0, flushes }
}

impl Write for Stuck {
    fn write(&mut self, bytes: &[u8]) -> io::Result<usize> {
        self.taken = self.taken.saturating_add(bytes.len());
        Ok(bytes.len())
    }

    fn flush(&mut self) -> io::Result<()> {
        if self.flushes == 0 {
            return Err(io::Error::from(ErrorKind::StorageFull));
        }
        self.flushes -= 1;
        Ok(())
    }
}

/// The frame as the master sends it.
fn sent() -> Packet<'static>
    ensures { IsComment (option_map (λ t. t.now) result.comment) }
{
    Packet {
        interface: 0,
        time: 1,
        passed: false,
        payload: &STATUS,
        comment: None,
    }
}

/// The same without its last byte, where it was lost, much later.
fn lost() -> Packet<'static>
    ensures comment { IsComment (option_map (λ t. t.now) result.comment) }
    ensures seen { IsCaptured (captured_as result) }
{
    Packet {
        interface: 1,
        time: 0x1_2345_6789,
        passed: true,
        payload: &STATUS[..15],
        comment: Some("lost here"),
    }
}

/// A capture in memory, of interfaces with these names.
fn capture_of(rt: &(impl AllocGlobal + Abort), names: &[&str]) -> Recorder<Vec<u8>>
    requires { All IsText (map (λ n. n.now) names.now) }
{
    Recorder::open(Vec::new(rt.alloc()), names).expect(rt, "a capture")
}

#[test]
fn captures_are_spelled(rt: HostRuntime) {
    let mut capture = capture_of(&rt, &["master", "behind io"]);
    capture.note(&sent());
    capture.note(&lost());
    expect(&rt, capture.is_whole(), "a whole capture");
    expect_row(&rt, capture.file().as_slice(), CAPTURE);
}

/// A packet at the one interface, with this payload.
fn packet_of(payload: &[u8]) -> Packet<'_>
    ensures { IsComment (option_map (λ t. t.now) result.comment) }
{
    Packet {
        interface: 0,
        time: 1,
        passed: false,
        payload,
        comment: None,
    }
}

/// Compares whether a capture is whole, and how many bytes it has behind its head of 64.
fn expect_noted(rt: &impl Abort, capture: &Recorder<Vec<u8>>, is_whole: bool, bytes: usize) {
    let len = capture.file().len();
    expect_same(
        rt,
        &(capture.is_whole(), len),
        &(is_whole, bytes.saturating_add(64)),
        "a capture",
    );
}

// A packet of 1500 bytes has 1500 and 14 behind a head of 28, two that fill it up, and four.
#[test]
fn an_interface_that_is_not_there_cuts_the_capture(rt: HostRuntime) {
    let mut capture = capture_of(&rt, &["master"]);
    capture.note(&packet_of(&[0; 1500]));
    expect_noted(&rt, &capture, true, 1548);
    capture.note(&lost());
    expect_noted(&rt, &capture, false, 1548);
    capture.note(&sent());
    expect_noted(&rt, &capture, false, 1548);
}

#[test]
fn a_payload_that_is_too_long_cuts_the_capture(rt: HostRuntime) {
    let mut capture = capture_of(&rt, &["master"]);
    capture.note(&packet_of(&[0; 1501]));
    expect_noted(&rt, &capture, false, 0);
}

/// Writes a packet into so much room, and compares what is there then.
fn expect_first_part(rt: &(impl AllocGlobal + Abort), packet: &[u8], room: usize) {
    let mut file = Narrow {
        bytes: Vec::new(rt.alloc()),
        room,
        interrupted: false,
    };
    let is_written = write_packet(&lost(), &mut file).is_ok();
    expect_same(
        rt,
        &(is_written, Some(file.bytes.as_slice())),
        &(room == packet.len(), packet.get(..room)),
        "a packet",
    );
}

#[test]
fn refused_writes_leave_a_first_part(rt: HostRuntime) {
    let packet = bytes_of(&rt, PASSED);
    for room in 0..85 {
        expect_first_part(&rt, &packet, room);
    }
}

/// Compares whether a capture is whole, and how many bytes its file took.
fn expect_taken(rt: &impl Abort, capture: &Recorder<Stuck>, is_whole: bool, taken: usize) {
    let seen = (capture.is_whole(), capture.file().taken);
    expect_same(rt, &seen, &(is_whole, taken), "a capture");
}

// Head and packet have 64 bytes each. Nothing is noted behind a refused flush.
#[test]
fn a_refused_flush_cuts_the_capture(rt: HostRuntime) {
    let mut capture = Recorder::open(stuck_behind(2), &["master"]).expect(&rt, "a capture");
    capture.note(&sent());
    expect_taken(&rt, &capture, true, 128);
    capture.note(&sent());
    expect_taken(&rt, &capture, false, 192);
    capture.note(&sent());
    expect_taken(&rt, &capture, false, 192);
}

#[test]
fn a_head_that_is_not_handed_on_is_no_capture(rt: HostRuntime) {
    let opened = Recorder::open(stuck_behind(0), &["master"]);
    expect(&rt, opened.is_err(), "a head that isn't handed on");
}

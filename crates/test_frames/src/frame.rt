//! Frames changed and built, by the public calls of `ec_frame`. Which payloads are frames is shown by cases
//! (`tools/cases/data/frames.cases`, `pass.cases`).
ghost use Rattle.std.specs.Prelude.{◌≡◌, ◌<◌, ◌≤◌, ◌+◌, ◌%◌, length, slice_set};
ghost use Rattle.std.proofs.Common.{lit<};
ghost use Rattle.std.proofs.Math.Nat.{mod-lt};
ghost use Rattle.std.proofs.lemmas.List.{length-set};
ghost use Rattle.ec_frame.specs.Datagram.{adp_of};
ghost use Rattle.ec_frame.specs.Fields.{with_adp, with_counter, with_data};
ghost use Rattle.ec_frame.specs.FieldChanges.{IsDatagram-with_adp, IsDatagram-with_counter};
ghost use Rattle.ec_frame.specs.FieldChanges.{IsDatagram-with_data};
ghost use Rattle.ec_frame.specs.Lending.{IsSomeLent};

use crate::compare::{bytes_of, expect, expect_row, expect_same};
use ec_frame::{
    Builder, Command, Datagram, Datagrams, Frame, FrameError, Handler, Header, Sent, check,
    cut_counter, cut_heading, pass, read_counter, read_data, write_address, write_adp,
    write_counter, write_pair,
};
use std::process::Abort;

/// One datagram: a broadcast read of the AL status, two bytes.
const STATUS: &str = "0e10 0701 0000 3001 0200 0000 0000 0000";

/// A frame in which something was before, which is gone when another one is written there.
fn used_frame() -> Frame {
    let mut frame = Frame::new();
    frame.push(0xFF);
    frame
}

#[test]
fn builder_makes_the_frame(rt: HostRuntime) {
    let mut builder = Builder::new();
    let added = builder.add(Command::Brd, 1, 0x0130_0000, &[0, 0]);
    added.expect(&rt, "room");
    let mut written = used_frame();
    builder.write(&mut written);
    expect_row(&rt, written.as_slice(), STATUS);
    expect_row(&rt, builder.finish().as_slice(), STATUS);
}

/// Two datagrams of two bytes each.
const PAIR: &str = "1c10 0007 00000000 0280 0000 0102 0000 0708 00003001 0200 0000 0000 0000";

#[test]
fn pair_makes_the_frame(rt: HostRuntime) {
    let naming = Sent {
        command: Command::Nop,
        index: 7,
        address: 0,
        content: &[1, 2],
    };
    let asking = Sent {
        command: Command::Brd,
        index: 8,
        address: 0x0130_0000,
        content: &[0, 0],
    };
    let mut written = used_frame();
    write_pair(&mut written, naming, asking);
    expect_row(&rt, written.as_slice(), PAIR);
}

/// Whether a datagram of these data is added. None is taken away.
fn is_added(builder: &mut Builder, content: &[u8]) -> bool
    ensures { length builder.old ≤ length builder.new }
{
    match builder.add(Command::Nop, 0, 0, content) {
        Ok(()) => true,
        Err(_) => false,
    }
}

#[test]
fn builder_is_full_at_the_limit(rt: HostRuntime) {
    let content = [0; 1459];
    let mut builder = Builder::new();
    let first = is_added(&mut builder, &content);
    let added = builder.add(Command::Lrw, 0, 0x0001_0000, &content[..1446]);
    added.expect(&rt, "room");
    let others = [
        is_added(&mut builder, &[0]),
        is_added(&mut builder, &[]),
        is_added(&mut builder, &[]),
    ];
    let frame = builder.finish();
    expect_same(
        &rt,
        &(
            (first, others, frame.len()),
            [check(&frame), check(&BROADCAST[..15])],
        ),
        &(
            (false, [false, true, false], 1472),
            [Ok(2), Err(FrameError::Short)],
        ),
        "a full frame",
    );
}

/// What a slave might do to each datagram: adds 1 to ADP and the data's length to the counter, and
/// marks the data's first byte.
#[derive(Drop)]
struct Marker {
    seen: u8,
}

fn mark(content: &mut [u8])
    ensures { content.new ≡ slice_set content.old 0 85 }
{
    if content.len() > 0 {
        content[0] = 0x55;
    }
}

impl Handler for Marker {
    ghost handled = { λ _ d.
        with_data (with_counter (with_adp d ((adp_of d + 1) % 65536)) ((d.counter + length d.data_bytes) % 65536))
        (slice_set d.data_bytes 0 85) };

    ghost after = { λ marker _. record { seen = (marker.seen + 1) % 256 } };

    ghost keeps_length = { λ s d h. (
      IsDatagram-with_data
          (with_counter (with_adp d ((adp_of d + 1) % 65536)) ((d.counter + length d.data_bytes) % 65536))
          (slice_set d.data_bytes 0 85)
          (IsDatagram-with_counter (with_adp d ((adp_of d + 1) % 65536)) ((d.counter + length d.data_bytes) % 65536)
          (IsDatagram-with_adp d ((adp_of d + 1) % 65536) h (mod-lt (adp_of d + 1) (lit< tt)))
          (mod-lt (d.counter + length d.data_bytes) (lit< tt)))
          (length-set d.data_bytes 0 85),
      length-set d.data_bytes 0 85,
    ) };

    fn handle(&mut self, part: &mut [u8]) {
        let header = Header::read(part);
        let counter = read_counter(part).wrapping_add(header.data_length);
        write_adp(part, header.adp().wrapping_add(1));
        write_counter(part, counter);
        let (_heading, body) = cut_heading(part);
        let (content, _counter) = cut_counter(body);
        mark(content);
        self.seen = self.seen.wrapping_add(1);
    }
}

/// A NOP of ten bytes, a broadcast read of two and a logical read-write of five, as a cycle sends
/// them, the reserved bit of the frame's header set; and two bytes after them.
const CYCLE: &str = "3518 \
    0064 0000 0000 0a80 0000 64000000000000000000 0000 \
    0764 0000 3001 0280 0000 0000 0000 \
    0c64 ffff 0100 0540 3412 3a12000000 ffff aabb";

/// The same behind the marker.
const MARKED: &str = "3518 \
    0064 0100 0000 0a80 0000 55000000000000000000 0a00 \
    0764 0100 3001 0280 0000 5500 0200 \
    0c64 0000 0100 0540 3412 5512000000 0400 aabb";

/// Passes a frame, and returns how many datagrams it has.
fn pass_frame(rt: &impl Abort, marker: &mut Marker, frame: &mut [u8]) -> usize {
    let count = check(frame).expect(rt, "a frame");
    pass(marker, frame);
    count
}

#[test]
fn pass_hands_each_datagram_over(rt: HostRuntime) {
    let mut frame = bytes_of(&rt, CYCLE);
    let mut marker = Marker { seen: 0 };
    let count = pass_frame(&rt, &mut marker, &mut frame);
    expect_same(&rt, &(count, marker.seen), &(3, 3), "datagrams");
    expect_row(&rt, &frame, MARKED);
}

/// The header of the first datagram.
const FIRST: Header = Header {
    command: Command::Nop,
    index: 0x64,
    address: 0,
    data_length: 10,
    reserved: 0,
    circulating: false,
    more: true,
    irq: 0,
};

/// Reads the fields of a frame's first datagram, and writes its address.
fn expect_fields(rt: &impl Abort, frame: &mut [u8]) {
    check(frame).expect(rt, "a frame");
    let first = Datagrams::new(frame)
        .next_place(frame)
        .expect(rt, "a datagram");
    let part = &mut frame[first.from..first.to];
    let header = Header::read(part);
    let has_data = read_data(part) == [0x64, 0, 0, 0, 0, 0, 0, 0, 0, 0].as_slice();
    write_address(part, 0x0403_0201);
    let ado = Header::read(part).ado();
    let is_written = frame.get(4..8) == Some([1, 2, 3, 4].as_slice());
    expect_same(
        rt,
        &(header, has_data, ado, is_written),
        &(FIRST, true, 0x0403, true),
        "a datagram",
    );
}

#[test]
fn fields_are_read_and_written(rt: HostRuntime) {
    expect_fields(&rt, &mut bytes_of(&rt, CYCLE));
}

/// A broadcast read of the AL status, with index 1.
const BROADCAST: [u8; 16] = [14, 16, 7, 1, 0, 0, 0x30, 1, 2, 0, 0, 0, 0, 0, 0, 0];

/// What its one datagram is.
const ASKED: Header = Header {
    command: Command::Brd,
    index: 1,
    address: 0x0130_0000,
    data_length: 2,
    reserved: 0,
    circulating: false,
    more: false,
    irq: 0,
};

/// The same with each field that can be written changed.
const REWRITTEN: [u8; 16] = [14, 16, 4, 2, 1, 0x10, 0x10, 1, 2, 0, 4, 0, 8, 0, 3, 0];

/// The header, the data and the working counter of the one datagram of a frame.
fn read_only_one(rt: &impl Abort, frame: &mut [u8]) -> (Header, [u8; 2], u16) {
    check(frame).expect(rt, "a frame");
    let mut datagrams = Datagrams::new(frame);
    expect(rt, datagrams.has_next(), "one datagram");
    let datagram = datagrams.next(frame);
    expect(rt, !datagrams.has_next(), "one datagram");
    let data = datagram.data();
    expect(
        rt,
        data.len() == 2 && datagram.part().len() == 14,
        "one datagram",
    );
    (datagram.header(), [data[0], data[1]], datagram.counter())
}

/// Writes the data of a datagram.
fn write_data(rt: &impl Abort, datagram: &mut Datagram<'_>, content: &[u8])
    requires { IsSomeLent datagram.old }
    ensures same_reference { datagram.new.frame.ghost_name ≡ datagram.old.frame.ghost_name }
    ensures some { IsSomeLent datagram.new }
{
    expect(rt, datagram.data().len() == content.len(), "two bytes");
    datagram.set_data(content);
}

/// Writes each field of the one datagram of a frame.
fn write_only_one(rt: &impl Abort, frame: &mut [u8]) {
    check(frame).expect(rt, "a frame");
    let mut datagrams = Datagrams::new(frame);
    expect(rt, datagrams.has_next(), "one datagram");
    let mut datagram = datagrams.next(frame);
    write_data(rt, &mut datagram, &[8, 0]);
    datagram.set_command(Command::Fprd);
    datagram.set_index(2);
    datagram.set_address(0x0110_1001);
    datagram.set_irq(4);
    datagram.set_counter(3);
}

#[test]
fn datagrams_are_read_and_written(rt: HostRuntime) {
    let mut frame = BROADCAST;
    let read = read_only_one(&rt, &mut frame);
    write_only_one(&rt, &mut frame);
    expect_same(
        &rt,
        &(read, frame),
        &((ASKED, [0, 0], 0), REWRITTEN),
        "a datagram",
    );
}

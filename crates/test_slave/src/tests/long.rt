//! Long frames.
use super::steps::{Line, assert_bytes, expect_back, pass_frame};
use crate::compare::expect_same;
use ec_frame::Command;
use ec_slave::Slave;
use std::process::Abort;

/// The data and the counter of the longest exchange as they come back: what the RAM had, and 3.
fn longest_back() -> [u8; 1460] {
    let mut back = [0; 1460];
    back[1458] = 3;
    back
}

/// The longest datagram, of 1458 bytes of data, exchanges data with the RAM.
pub fn expect_longest(rt: &impl Abort, slave: &mut Slave, line: &Line<'_>) {
    let asked = (Command::Aprw, 0x1000_0000);
    expect_back(rt, slave, line, asked, &[0x5a; 1458], &longest_back());
}

/// The frame of 122 datagrams that ask for nothing and have no data.
fn frame_of_nops() -> [u8; 1466] {
    let mut frame = [0; 1466];
    frame[0] = 0xB8;
    frame[1] = 0x15;
    for place in 0..121usize {
        frame[2 + 12 * place + 7] = 0x80;
    }
    frame
}

/// Passes a frame of so many datagrams, which comes back as it is sent.
fn expect_unchanged(
    rt: &impl Abort,
    slave: &mut Slave,
    line: &Line<'_>,
    frame: &mut [u8],
    sent: &[u8],
    count: usize,
) {
    let met = pass_frame(rt, slave, frame);
    expect_same(rt, &met, &count, "datagrams");
    assert_bytes(rt, line, frame, sent);
}

/// Passes a frame of as many datagrams as there can be.
pub fn expect_nops(rt: &impl Abort, slave: &mut Slave, line: &Line<'_>) {
    expect_unchanged(rt, slave, line, &mut frame_of_nops(), &frame_of_nops(), 122);
}

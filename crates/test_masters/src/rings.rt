//! Frames past the slaves of a ring.
use crate::bringup::changed_ring;
use crate::lines::{expect, expect_same};
use ec_ring::{NotAFrame, Ring};
use std::process::Abort;

/// A broadcast read of the AL status, with index 1.
const BROADCAST: [u8; 16] = [14, 16, 7, 1, 0, 0, 0x30, 1, 2, 0, 0, 0, 0, 0, 0, 0];

/// The same as a slave in INIT leaves it, and as three do.
const BACK: [u8; 16] = [14, 16, 7, 1, 1, 0, 0x30, 1, 2, 0, 0, 0, 1, 0, 1, 0];

const BACK_FROM_THREE: [u8; 16] = [14, 16, 7, 1, 3, 0, 0x30, 1, 2, 0, 0, 0, 1, 0, 3, 0];

/// `BROADCAST` without its last byte, which is no frame.
const CUT: [u8; 15] = [14, 16, 7, 1, 0, 0, 0x30, 1, 2, 0, 0, 0, 0, 0, 0];

/// A broadcast write of the first byte of the RAM, with index 1; and the same as a slave leaves it.
const WRITE: [u8; 15] = [13, 16, 8, 1, 0, 0, 0, 0x10, 1, 0, 0, 0, 0x77, 0, 0];

const WRITTEN: [u8; 15] = [13, 16, 8, 1, 1, 0, 0, 0x10, 1, 0, 0, 0, 0x77, 1, 0];

/// The frame passes one slave, and then all of them. What is no frame passes none, and stays as it is.
fn expect_passed(rt: &impl Abort, ring: &mut Ring) {
    expect(rt, ring.len() == 3, "three slaves");
    let (mut one, mut all, mut cut) = (BROADCAST, BROADCAST, CUT);
    ring.pass_one(&mut one, 1).expect(rt, "a frame");
    ring.pass_all(&mut all).expect(rt, "a frame");
    let refused = [ring.pass_one(&mut cut, 1), ring.pass_all(&mut cut)];
    let is_as_it_was = refused == [Err(NotAFrame); 2] && cut == CUT;
    expect_same(
        rt,
        &(one, all, is_as_it_was),
        &(BACK, BACK_FROM_THREE, true),
        "frames",
    );
}

/// A frame that passes one slave writes into that one alone.
fn expect_written(rt: &impl Abort, ring: &mut Ring) {
    expect(rt, ring.len() == 3, "three slaves");
    let mut frame = WRITE;
    ring.pass_one(&mut frame, 1).expect(rt, "a frame");
    let bytes = (ring.slave(0).byte(0x1000), ring.slave_mut(1).byte(0x1000));
    expect_same(
        rt,
        &(frame, bytes, ring.is_empty()),
        &(WRITTEN, (Some(0), Some(0x77)), false),
        "a written slave",
    );
}

#[test]
fn rings_of_three_slaves(rt: HostRuntime) {
    expect_passed(&rt, &mut changed_ring(&rt, "right"));
    expect_written(&rt, &mut changed_ring(&rt, "right"));
}

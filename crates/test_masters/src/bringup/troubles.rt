//! Start-ups of which frames meet trouble.

use crate::lines::expect;
use ec_frame::Frame;
use ec_ring::Ring;
use ec_start::{NextFrame, Startup, Taken};
use std::process::Abort;

/// What happens to a start-up.
#[derive(Drop)]
pub struct Trouble<'t> {
    /// `lost`: the frame comes to no further slave. `skipped`: it passes by one. `unserved`: no slave serves from this frame on.
    /// `reset`: a slave is switched off and on. `fault`: its application faults, where it is in OP. `changed`: a byte of the frame
    /// becomes another.
    pub word: &'t str,
    /// The number of the frame that meets it.
    pub frame: u64,
    /// The place of the slave before which it comes; 3 behind the last one.
    pub at: usize,
    /// The place of the slave that is reset or has a fault, or of the byte that is changed.
    pub place: usize,
    /// What that byte becomes.
    pub byte: u8,
}

/// None at all.
const NONE: Trouble<'static> = Trouble {
    word: "none",
    frame: 0,
    at: 0,
    place: 0,
    byte: 0,
};

/// What the frame of a number meets.
fn met_by<'t>(trouble: &'t Trouble<'t>, number: u64) -> &'t Trouble<'t> {
    let is_behind = number > trouble.frame && trouble.word == "unserved";
    if is_behind || number == trouble.frame {
        trouble
    } else {
        &NONE
    }
}

/// Whether a frame passes the slave at a place.
fn is_passed(trouble: &Trouble<'_>, place: usize) -> bool {
    match trouble.word {
        "lost" => place < trouble.at,
        "skipped" => place != trouble.at,
        _ => true,
    }
}

/// A slave is reset, or has a fault, or a byte of the frame becomes another.
fn make_trouble(ring: &mut Ring, payload: &mut [u8], trouble: &Trouble<'_>) {
    let place = trouble.place;
    match trouble.word {
        "reset" if place < ring.len() => ring.slave_mut(place).reset(),
        "fault" if place < ring.len() => {
            ring.slave_mut(place).fault();
        }
        "changed" if place < payload.len() => payload[place] = trouble.byte,
        _ => {}
    }
}

fn pass_slave(rt: &impl Abort, ring: &mut Ring, payload: &mut [u8], place: usize) {
    if place < ring.len() {
        ring.pass_one(payload, place).expect(rt, "a frame");
    }
}

/// A frame passes the three slaves, and the trouble comes before the one at its place, or behind all of them.
fn pass_in_trouble(rt: &impl Abort, ring: &mut Ring, payload: &mut [u8], trouble: &Trouble<'_>) {
    for place in 0..4 {
        if place == trouble.at {
            make_trouble(ring, payload, trouble);
        }
        if is_passed(trouble, place) {
            pass_slave(rt, ring, payload, place);
        }
    }
}

fn serve_slave(ring: &mut Ring, place: usize) {
    if place < ring.len() {
        ring.slave_mut(place).serve();
    }
}

/// Each slave serves once.
fn serve_all(ring: &mut Ring) {
    for place in 0..ring.len() {
        serve_slave(ring, place);
    }
}

/// What comes behind a frame's pass: the start-up is given up where it was lost; else the slaves serve, unless they don't.
fn finish_pass(startup: &mut Startup<'_>, ring: &mut Ring, trouble: &Trouble<'_>) {
    match trouble.word {
        "lost" => startup.give_up(),
        "unserved" => {}
        _ => serve_all(ring),
    }
}

/// A frame passes all slaves. Whether the start-up keeps it.
fn is_accepted(
    rt: &impl Abort,
    startup: &mut Startup<'_>,
    ring: &mut Ring,
    payload: &mut [u8],
    trouble: &Trouble<'_>,
) -> bool {
    pass_in_trouble(rt, ring, payload, trouble);
    finish_pass(startup, ring, trouble);
    startup.take(payload) == Taken::Accepted
}

/// One turn. False where there is no next frame, or it was lost.
fn turn(
    rt: &impl Abort,
    startup: &mut Startup<'_>,
    ring: &mut Ring,
    trouble: &Trouble<'_>,
) -> bool {
    let mut frame = Frame::new();
    let met = met_by(trouble, startup.next_number());
    startup.next(&mut frame) == NextFrame::Send
        && is_accepted(rt, startup, ring, frame.as_mut_slice(), met)
}

/// Brings the slaves up, where one frame meets trouble.
pub fn rise_in_trouble(
    rt: &impl Abort,
    startup: &mut Startup<'_>,
    ring: &mut Ring,
    trouble: &Trouble<'_>,
) {
    for _ in 0..2000 {
        if !turn(rt, startup, ring, trouble) {
            return;
        }
    }
    expect(rt, false, "an end");
}

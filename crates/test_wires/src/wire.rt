//! Cycles, start-ups and segments over wires of memory and sockets. What isn't as it must be ends a test at once, so nothing
//! here has another way out, on which machines and wires would go away.
mod calls;
mod cycles;
mod fakes;
mod machines;
mod repeats;
mod scans;
mod sizes;
mod startups;
mod tables;
mod tap;
mod trials;

use self::calls::{expect_calls, expect_memory};
use self::repeats::expect_left_out;
use self::scans::{expect_lost_scans, expect_scan};
use self::sizes::expect_size;
use self::tables::{FULL_TABLE, THREE_SLAVES};
use self::trials::expect_trials;
use crate::rows::assert_same;
use ec_cycle::CycleError;
use ec_ring::NotAFrame;
use ec_wire::{RunError, SocketFault, Trouble};
use std::fmt::Display;
use std::process::Abort;

// Start-ups that come up or are lost, over memory and over strange payloads; cycles over memory, of which each call is a fault in
// turn; refusals, which come before the wire; and a loop over sockets.
#[test]
fn three_slaves(rt: HostRuntime) {
    expect_trials(
        &rt,
        THREE_SLAVES,
        "start-ups, rest, faults, refusal, spent wire, silence, loop",
    );
}

#[test]
fn many_slaves(rt: HostRuntime) {
    expect_trials(&rt, FULL_TABLE, "faults of many");
}

// A scan finds full slaves by their SII and their objects, and is lost with a call of its wire.
#[test]
fn scanned_slaves(rt: HostRuntime) {
    expect_scan(&rt, THREE_SLAVES);
    expect_lost_scans(&rt, THREE_SLAVES);
}

// A PDO that repeats an entry is left out of the table, with a comment.
#[test]
fn repeated_entries(rt: HostRuntime) {
    expect_left_out(&rt);
}

// There is memory for a wire to each number of slaves, with room for one payload and for thousands.
#[test]
fn wires_of_all_sizes(rt: HostRuntime) {
    for slaves in 1..=64 {
        expect_size(&rt, slaves, 1);
        expect_size(&rt, slaves, usize::from(slaves) * 100);
    }
}

// A payload past the room is a fault, and so is a receive where nothing is on its way. The wire has room for one payload, and no
// call is a fault by its number.
#[test]
fn payloads_past_the_room(rt: HostRuntime) {
    expect_memory(
        &rt,
        "\
receive > 0 1 0
send > 0 1 0
send > 0 2 0
receive > 16 2 1
receive > 0 3 1
send > 0 4 1",
    );
}

// A frame is answered to whoever sent it, and another payload is counted. Nobody is there any more to whom the answers to a
// client are sent that is gone; one that never reads has its answer too.
#[test]
fn segments_answer_frames(rt: HostRuntime) {
    expect_calls(
        &rt,
        "connected",
        "\
client_sends 3 > 0 0 0 0
client_asks 0 > 0 0 0 0
serve 2 > 1 1 0 0
client_hears 0 > 16 0 0 0",
    );
    expect_calls(
        &rt,
        "connected",
        "\
gone_asks 0 > 0 0 0 0
gone_asks 0 > 0 0 0 0
gone_asks 0 > 0 0 0 0
serve 3 > 3 0 0 0",
    );
    expect_calls(
        &rt,
        "connected",
        "\
stranger_asks 0 > 0 0 0 0
stranger_asks 0 > 0 0 0 0
stranger_asks 0 > 0 0 0 0
serve 3 > 3 0 0 0
client_asks 0 > 0 0 0 0
serve 1 > 1 0 0 0
client_hears 0 > 16 0 0 0
stranger_hears 0 > 16 0 0 0",
    );
}

// What is too long to send is a fault, and so is a send to nobody and a receive that waits too long. A master receives
// what its segment sends, and nothing else.
#[test]
fn calls_of_sockets(rt: HostRuntime) {
    expect_calls(
        &rt,
        "connected",
        "\
segment_sends 1 > 0 0 0 1
master_sends 1473 > 0 0 1 1
master_receives 0 > 0 0 2 1
master_sends 1472 > 0 0 2 1
segment_receives 0 > 1472 1472 2 1
stranger_disturbs 5 > 0 0 2 1
segment_sends 0 > 0 0 2 1
segment_sends 3 > 0 0 2 1
master_receives 0 > 0 0 2 1
master_receives 0 > 3 3 2 1",
    );
}

// A master that is connected by an address waits as long as it is set to; it sends and receives as one on a port of its own
// machine does. A patience of nothing is no socket, and neither is a port in use.
#[test]
fn masters_with_a_patience(rt: HostRuntime) {
    expect_calls(
        &rt,
        "patient",
        "\
master_receives 0 > 0 0 1 0
master_sends 7 > 0 0 1 0
segment_receives 0 > 7 7 1 0
stranger_disturbs 5 > 0 0 1 0
segment_sends 3 > 0 0 1 0
master_receives 0 > 3 3 1 0
no_patience 0 > 0 0 1 0
port_in_use 0 > 0 0 1 0",
    );
}

// A segment waits as long as it is set to, and then the receive is a fault. What is sent to its port on another address doesn't
// reach it. Of a payload that is too long the rest is dropped.
#[test]
fn waits_a_second(rt: HostRuntime) {
    expect_calls(
        &rt,
        "idle",
        "\
client_misses 5 > 0 0 0 0
segment_receives 0 > 0 0 0 1
nearby 0 > 1 0 0 1
client_sends 1550 > 0 0 0 1
segment_receives 0 > 1472 1472 0 1",
    );
}

/// An error says this.
fn expect_said<T: Display>(rt: &(impl AllocGlobal + Abort), error: &T, text: &str) {
    let said = format!(in rt.alloc(); "{error}").expect(rt, "memory");
    assert_same(rt, &said.as_str(), &text, text);
}

// Of a refusal what the master says of it, and what a ring says of a payload that is no frame.
#[test]
fn texts_of_errors(rt: HostRuntime) {
    let refusal = RunError::Refused(CycleError::NotReady);
    expect_said(&rt, &refusal, "no start-up has ended ready");
    expect_said(&rt, &RunError::Wire, "a fault of the wire");
    let fault = SocketFault(Trouble::Silence);
    expect_said(&rt, &fault, "a fault of a socket");
    expect_said(&rt, &NotAFrame, "not a frame");
    let met = (fault.number(), fault.name(), NotAFrame.number());
    assert_same(&rt, &met, &(43, "Socket", 10), "numbers");
}

/// What the system says of a socket, by the numbers of its errors on Linux.
const TROUBLES: &str = "\
1 it isn't permitted
9 the descriptor isn't open
12 there is no memory for it
13 it isn't permitted
19 there is no such interface, or it is gone
88 the descriptor is no socket
98 the address is in use
99 the address is none of this system's
100 the interface is down
101 there is no way to the address
111 nobody listens at the address
2 the system says error 2";

/// The trouble of a line has these words.
fn expect_trouble(rt: &(impl AllocGlobal + Abort), line: &str) {
    let (number, text) = line.split_once(" ").expect(rt, line);
    let number = number.parse::<i32>().expect(rt, number);
    expect_said(rt, &Trouble::System(number), text);
}

#[test]
fn texts_of_troubles(rt: HostRuntime) {
    for line in TROUBLES.lines() {
        expect_trouble(&rt, line);
    }
    expect_said(&rt, &Trouble::Silence, "nothing came in time");
}

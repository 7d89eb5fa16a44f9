//! Drivers that go wrong: whoever reads or writes fails at some line.

use crate::compare::expect_same;
use crate::live::{expect_ended, run};
use crate::streams::{Source, nothing_handed_on, sink_of, source_of};
use ec_console::{InputStream, OutputStream, Refusal, read_text};
use std::fs::Files;
use std::process::Abort;

/// Lines of each kind over a table without slaves.
const LINES: &[u8] = b"%%\nbegin\nready\nready\n# now\nexpect failed\nhalt\ncycle\n";

/// What they print.
const ANSWERS: &str =
    "no 1\nready\nno 3\nunmet 5\nbad 6\nreport taken missing 0 counters 0 al 0000\n";

/// Compares what wasn't taken.
fn expect_left(rt: &(impl AllocGlobal + Abort), input: &mut InputStream<Source<'_>>, wanted: &str) {
    let left = read_text(rt.alloc(), input).expect(rt, "text");
    expect_same(rt, &left.as_str(), &wanted, "what wasn't taken");
}

/// How many writes are taken, how the run then ends, and what was answered.
const CLOSED: [(usize, Refusal, &str); 7] = [
    (0, Refusal::Output, ""),
    (1, Refusal::Output, "no 1\n"),
    (2, Refusal::Output, "no 1\nready\n"),
    (3, Refusal::Output, "no 1\nready\nno 3\n"),
    (4, Refusal::Output, "no 1\nready\nno 3\nunmet 5\n"),
    (5, Refusal::Output, "no 1\nready\nno 3\nunmet 5\nbad 6\n"),
    (6, Refusal::Unmet(1), ANSWERS),
];

/// Runs the lines where so many writes are taken.
fn expect_closed<H: AllocGlobal + Files + Abort>(rt: &H, closed: &(usize, Refusal, &str)) {
    let (writes, refusal, answers) = *closed;
    let handed_on = nothing_handed_on();
    let mut sink = sink_of(rt.alloc(), &handed_on);
    sink.writes = writes;
    let mut output = OutputStream::new(sink);
    let ended = run(rt, &mut InputStream::new(source_of(LINES)), &mut output);
    expect_ended(rt, ended, output, (Err(refusal), answers));
}

/// Wherever a write is refused, the run ends there, and what was answered before stays.
#[test]
fn ends_at_each_write_that_is_refused(rt: HostRuntime) {
    for closed in &CLOSED {
        expect_closed(&rt, closed);
    }
}

/// An answer that isn't handed on ends the run: no line behind it is done.
#[test]
fn ends_where_answers_are_stuck(rt: HostRuntime) {
    let handed_on = nothing_handed_on();
    let mut input = InputStream::new(source_of(LINES));
    let mut sink = sink_of(rt.alloc(), &handed_on);
    sink.flushes = 2;
    let mut output = OutputStream::new(sink);
    let ended = run(&rt, &mut input, &mut output);
    let wanted = (Err(Refusal::Output), "no 1\nready\nno 3\n");
    expect_ended(&rt, ended, output, wanted);
    expect_left(&rt, &mut input, "# now\nexpect failed\nhalt\ncycle\n");
}

/// Nothing is lost where answers are taken byte by byte, with an interruption before each.
#[test]
fn answers_byte_by_byte(rt: HostRuntime) {
    let handed_on = nothing_handed_on();
    let mut sink = sink_of(rt.alloc(), &handed_on);
    sink.at_a_time = 1;
    sink.halts = true;
    let mut output = OutputStream::new(sink);
    let ended = run(&rt, &mut InputStream::new(source_of(LINES)), &mut output);
    let wanted = (Err(Refusal::Unmet(1)), ANSWERS);
    expect_ended(&rt, ended, output, wanted);
}

/// What is given, byte by byte, before a read is refused, and what is answered by then: a line without its end isn't done.
const BROKEN: [(&str, &str); 6] = [
    ("", ""),
    ("version = 2\n", ""),
    ("%%\n", ""),
    ("%%\nbegin", ""),
    ("%%\nbegin\n", "no 1\n"),
    ("%%\nbegin\nready\nhalt\ncyc", "no 1\nready\nbad 3\n"),
];

/// Runs what is given before a read is refused.
fn expect_broken<H: AllocGlobal + Files + Abort>(rt: &H, broken: &(&str, &str)) {
    let (given, answers) = *broken;
    let handed_on = nothing_handed_on();
    let mut source = source_of(given.as_bytes());
    source.at_a_time = 1;
    source.fails = true;
    let mut output = OutputStream::new(sink_of(rt.alloc(), &handed_on));
    let ended = run(rt, &mut InputStream::new(source), &mut output);
    expect_ended(rt, ended, output, (Err(Refusal::Input), answers));
}

#[test]
fn ends_where_reads_are_refused(rt: HostRuntime) {
    for broken in &BROKEN {
        expect_broken(&rt, broken);
    }
}

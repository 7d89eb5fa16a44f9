//! Whoever asks gives a line once the lines before it are answered, and whoever stops reading ends the run.

use crate::compare::expect_same;
use crate::live::{expect_ended, run};
use crate::streams::{HandedOn, Sink, nothing_handed_on, sink_of, source_of};
use ec_console::{InputStream, OutputStream, Refusal, read_text};
use std::fs::Files;
use std::io;
use std::io::{ErrorKind, Read};
use std::process::Abort;

/// A reader that gives a line at a time, once as many bytes have been written and handed on as stand beside it.
#[derive(Drop)]
struct Asking<'a> {
    lines: &'a [(&'a str, usize)],
    line: usize,
    place: usize,
    handed_on: &'a HandedOn,
}

impl<'a> Read for Asking<'a> {
    fn read(&mut self, buffer: &mut [u8]) -> io::Result<usize> {
        let Some((text, before)) = self.lines.get(self.line).copied() else {
            return Ok(0);
        };
        if self.handed_on.bytes.get() != before {
            return Err(io::Error::from(ErrorKind::Other));
        }
        let rest = text.as_bytes().get(self.place..).unwrap_or(b"");
        let count = rest.len().min(buffer.len());
        buffer[..count].copy_from_slice(&rest[..count]);
        if count == rest.len() {
            self.line = self.line.saturating_add(1);
            self.place = 0;
        } else {
            self.place = self.place.saturating_add(count);
        }
        Ok(count)
    }
}

/// Lines, and how many bytes are handed on before each is given.
const ASKED: [(&str, usize); 8] = [
    ("%%\n", 0),
    ("begin\n", 0),
    ("# nothing\n", 5),
    ("ready\n", 5),
    ("halt\n", 11),
    ("repeat 2 begin\n", 17),
    ("expect ready\n", 22),
    ("begin", 22),
];

/// Lines that are given once the ones before are answered, and what is printed of them.
#[test]
fn answers_before_it_asks(rt: HostRuntime) {
    let handed_on = nothing_handed_on();
    let mut input = InputStream::new(Asking {
        lines: &ASKED,
        line: 0,
        place: 0,
        handed_on: &handed_on,
    });
    let mut output = OutputStream::new(sink_of(rt.alloc(), &handed_on));
    let ended = run(&rt, &mut input, &mut output);
    let printed = "no 1\nready\nbad 4\nno 5\nno 7\n";
    expect_ended(&rt, ended, output, (Ok(()), printed));
}

/// Gives ten thousand lines, each once the one before was answered, and returns how the run ended.
fn drive<H: AllocGlobal + Files>(
    rt: &H,
    handed_on: &HandedOn,
    output: &mut OutputStream<Sink<'_>>,
) -> Result<(), Refusal> {
    let mut source = source_of(b"%%\n");
    source.line = b"expect ready\n";
    source.left = 10_000;
    source.awaits = Some(handed_on);
    run(rt, &mut InputStream::new(source), output)
}

/// Compares how the run ended, how often answers were handed on, how many bytes they have, and how they end. The lines `unmet 1` to
/// `unmet 10000` have 7 bytes each beside 9 digits, 2 times 90, 3 times 900, 4 times 9000, and 5.
fn expect_answered(rt: &impl Abort, ended: Result<(), Refusal>, output: OutputStream<Sink<'_>>) {
    let output = output.into_stream();
    let times = output.handed_on.times.get();
    let taken = output.taken.as_slice();
    expect_same(
        rt,
        &(
            ended,
            times,
            taken.len(),
            taken.ends_with(b"\nunmet 10000\n"),
        ),
        &(Err(Refusal::Unmet(10_000)), 10_000, 108_894, true),
        "answers",
    );
}

/// Ten thousand lines back and forth: none is given before the one before is answered, and none is lost.
#[test]
fn answers_ten_thousand_lines(rt: HostRuntime) {
    let handed_on = nothing_handed_on();
    let mut output = OutputStream::new(sink_of(rt.alloc(), &handed_on));
    let ended = drive(&rt, &handed_on, &mut output);
    expect_answered(&rt, ended, output);
}

/// Whoever stops reading ends the run at the line that can't be printed.
#[test]
fn ends_where_nobody_reads(rt: HostRuntime) {
    let handed_on = nothing_handed_on();
    let mut source = source_of(b"%%\n");
    source.line = b"begin\n";
    source.left = 100;
    let mut input = InputStream::new(source);
    let mut sink = sink_of(rt.alloc(), &handed_on);
    sink.room = 12;
    let mut output = OutputStream::new(sink);
    let ended = run(&rt, &mut input, &mut output);
    let left = read_text(rt.alloc(), &mut input).expect(&rt, "text");
    expect_same(
        &rt,
        &(ended, output.into_stream().room, left.len()),
        &(Err(Refusal::Output), 0, 97 * 6),
        "a run",
    );
}

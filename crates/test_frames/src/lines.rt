//! What is taken of an input that comes in pieces, is interrupted or fails, what is wrong with a text, what is left behind it, and
//! how often the input is read. Cases of `ecat sim --live` (`tools/cases/data/lives.cases`) show what lines and texts are otherwise.
//!
//! A step is a word and what it is about:
//!
//! | Word | Says |
//! |---|---|
//! | `line` | a line is taken: its text, `END`, `UNREAD` or another of `words_of` |
//! | `lines` | 100,000 lines with this text are taken |
//! | `text` | a text is taken: it, or `TOO_LONG` or another of `text_words` |
//! | `first`, `rest` | as many bytes as these are read, or all that are left |
//! | `reads` | so many reads were made, in decimal digits |
//! | `unread` | `yes` if a read was refused, `no` if none was |
use crate::compare::{expect, expect_same};
use ec_lines::{InputStream, LinesError, MAX_BYTES, NextLine, take_line, take_text};
use std::cell::Cell;
use std::io;
use std::io::{ErrorKind, Read};
use std::process::Abort;

/// In the place of a line: the input has ended.
const END: &str = "(end)";

/// In the place of a line or a text: a read was refused, there is no memory, the bytes are no text, the text is too long.
const UNREAD: &str = "(unread)";

const NO_MEMORY: &str = "(no memory)";

const NO_TEXT: &str = "(no text)";

const TOO_LONG: &str = "(too long)";

/// An error, in words.
fn error_words(error: LinesError) -> &'static str {
    match error {
        LinesError::Memory => NO_MEMORY,
        LinesError::Unread => UNREAD,
        LinesError::TooLong => TOO_LONG,
        LinesError::NoText => NO_TEXT,
    }
}

/// What was taken as a line, in words.
fn words_of(taken: &Result<NextLine, LinesError>) -> &str {
    match taken {
        Ok(NextLine::Text(text)) => text.as_str(),
        Ok(NextLine::NoText) => NO_TEXT,
        Ok(NextLine::End) => END,
        Err(error) => error_words(*error),
    }
}

/// What was taken as a text.
fn text_words(taken: &Result<String, LinesError>) -> &str {
    match taken {
        Ok(text) => text.as_str(),
        Err(error) => error_words(*error),
    }
}

/// A reader that gives its bytes in pieces of at most so many, and counts how often it is read. If it halts, it is interrupted before
/// each piece. At its end it fails, if it has a fault.
#[derive(Drop)]
struct Pieces<'a> {
    bytes: &'a [u8],
    size: usize,
    halts: bool,
    is_halted: bool,
    fault: Option<ErrorKind>,
    reads: &'a Cell<usize>,
}

impl<'a> Read for Pieces<'a> {
    fn read(&mut self, buffer: &mut [u8]) -> io::Result<usize> {
        self.reads.set(self.reads.get().saturating_add(1));
        self.is_halted = self.halts && !self.is_halted;
        if self.is_halted {
            return Err(io::Error::from(ErrorKind::Interrupted));
        }
        match self.fault {
            Some(fault) if self.bytes.is_empty() => return Err(io::Error::from(fault)),
            _ => {}
        }
        let count = self.bytes.len().min(self.size).min(buffer.len());
        buffer[..count].copy_from_slice(&self.bytes[..count]);
        self.bytes = &self.bytes[count..];
        Ok(count)
    }
}

/// An input that is read in pieces.
type Input<'a> = InputStream<Pieces<'a>>;

/// Takes a line, and compares it.
fn expect_line(rt: &(impl AllocGlobal + Abort), input: &mut Input<'_>, line: &str) {
    let taken = take_line(rt.alloc(), input);
    expect_same(rt, &words_of(&taken), &line, line);
}

/// Takes many lines, and compares each.
fn expect_lines(rt: &(impl AllocGlobal + Abort), input: &mut Input<'_>, line: &str) {
    for _ in 0..100_000 {
        expect_line(rt, input, line);
    }
}

/// Takes a text, and compares it.
fn expect_text(rt: &(impl AllocGlobal + Abort), input: &mut Input<'_>, text: &str) {
    let taken = take_text(rt.alloc(), input);
    expect_same(rt, &text_words(&taken), &text, text);
}

/// Reads at most so many bytes of what an input has left, and compares them.
fn expect_first(rt: &(impl AllocGlobal + Abort), input: &mut Input<'_>, most: u64, bytes: &[u8]) {
    let mut first = Vec::new(rt.alloc());
    let is_read = input.read_first(most, &mut first).is_ok();
    expect_same(rt, &(is_read, first.as_slice()), &(true, bytes), "bytes");
}

/// So many reads were made.
fn expect_reads(rt: &impl Abort, reads: usize, digits: &str) {
    expect_same(
        rt,
        &reads,
        &digits.parse::<usize>().expect(rt, digits),
        "reads",
    );
}

/// A step.
type Step<'a> = (&'a str, &'a str);

/// Takes a step.
fn take_step(
    rt: &(impl AllocGlobal + Abort),
    input: &mut Input<'_>,
    reads: &Cell<usize>,
    (word, about): Step<'_>,
) {
    match word {
        "line" => expect_line(rt, input, about),
        "lines" => expect_lines(rt, input, about),
        "text" => expect_text(rt, input, about),
        "first" => expect_first(rt, input, about.len() as u64, about.as_bytes()),
        "rest" => expect_first(rt, input, u64::MAX, about.as_bytes()),
        "reads" => expect_reads(rt, reads.get(), about),
        "unread" => expect(rt, input.is_refused() == (about == "yes"), about),
        _ => expect(rt, false, word),
    }
}

/// How an input comes: how many bytes a piece has at most, whether there are interruptions, and by what it fails.
type Way = (usize, bool, Option<ErrorKind>);

/// In one piece; and byte by byte with an interruption before each.
const WHOLE: Way = (usize::MAX, false, None);

const HALTING: Way = (1, true, None);

/// Takes steps on an input.
fn expect_steps(
    rt: &(impl AllocGlobal + Abort),
    bytes: &[u8],
    (size, halts, fault): Way,
    steps: &[Step<'_>],
) {
    let reads = Cell::new(0);
    let mut input = InputStream::new(Pieces {
        bytes,
        size,
        halts,
        is_halted: false,
        fault,
        reads: &reads,
    });
    for step in steps {
        take_step(rt, &mut input, &reads, *step);
    }
}

/// An interrupted read is made again.
const HALTED: [Step; 5] = [
    ("line", "a"),
    ("line", "b"),
    ("line", END),
    ("line", END),
    ("unread", "no"),
];

/// A read that is refused ends the line, the text and what comes behind them.
const REFUSED: [Step; 6] = [
    ("text", "a\n"),
    ("line", "b"),
    ("line", UNREAD),
    ("line", UNREAD),
    ("text", UNREAD),
    ("unread", "yes"),
];

/// A read for which memory runs out is no refusal of it.
const LACKING: [Step; 4] = [
    ("line", "a"),
    ("line", NO_MEMORY),
    ("text", NO_MEMORY),
    ("unread", "no"),
];

#[test]
fn reads_that_are_interrupted_and_refused(rt: HostRuntime) {
    expect_steps(&rt, b"a\nb", HALTING, &HALTED);
    let refused = (1, true, Some(ErrorKind::Other));
    expect_steps(&rt, b"a\n%%\nb\nc", refused, &REFUSED);
    let lacking = (1, true, Some(ErrorKind::OutOfMemory));
    expect_steps(&rt, b"a\nb", lacking, &LACKING);
}

// A carriage return alone ends no line; texts that are none, and lines behind them.
#[test]
fn takes_texts(rt: HostRuntime) {
    expect_steps(&rt, b"a\r%%\n", WHOLE, &[("text", "a\r%%\n"), ("rest", "")]);
    expect_steps(
        &rt,
        b"\xff\n%%\nb",
        WHOLE,
        &[("text", NO_TEXT), ("rest", "b")],
    );
    expect_steps(
        &rt,
        b"\xc3\n\xa4\n%%\n",
        WHOLE,
        &[("text", NO_TEXT), ("rest", "")],
    );
}

/// A text of this is too long.
fn expect_too_long(rt: &(impl AllocGlobal + Abort), line: &str, count: usize) {
    let text = line.repeat(rt.alloc(), count).expect(rt, "memory");
    expect_steps(rt, text.as_bytes(), WHOLE, &[("text", TOO_LONG)]);
}

/// A text of a byte more than `MAX_BYTES` is too long, in one line or in many.
#[test]
fn takes_no_longer_texts(rt: HostRuntime) {
    expect_too_long(&rt, "a", MAX_BYTES + 1);
    expect_too_long(&rt, "aaaaaaa\n", MAX_BYTES / 8 + 1);
}

/// Lines with each end, without text, and without an end; and what they are.
const LINES: &[u8] = b"a\n\nbc\r\n\xff\nmore than seven\n%%\nd";

const WORDS: [Step; 9] = [
    ("line", "a"),
    ("line", ""),
    ("line", "bc"),
    ("line", NO_TEXT),
    ("line", "more than seven"),
    ("line", "%%"),
    ("line", "d"),
    ("line", END),
    ("line", END),
];

/// In whatever pieces lines come, they are the same.
#[test]
fn pieces_make_no_difference(rt: HostRuntime) {
    for size in &[1, 2, 3, 7, usize::MAX] {
        expect_steps(&rt, LINES, (*size, false, None), &WORDS);
        expect_steps(&rt, LINES, (*size, true, None), &WORDS);
    }
}

/// A line is there as soon as its end came, and with it those in the same piece. The end of the input is asked for again.
const NO_MORE: [Step; 7] = [
    ("line", "a"),
    ("line", "b"),
    ("reads", "1"),
    ("line", "c"),
    ("reads", "2"),
    ("line", END),
    ("reads", "3"),
];

/// Lines behind a text, in the piece that ends it.
const BEHIND: [Step; 5] = [
    ("text", "version = 2\n"),
    ("line", "begin"),
    ("line", "stop"),
    ("reads", "1"),
    ("line", END),
];

/// What is ahead is read first: a part of it, all with more behind it, and the rest.
const AHEAD: [Step; 5] = [
    ("line", "a"),
    ("first", "b"),
    ("first", "cde"),
    ("rest", "f"),
    ("line", END),
];

#[test]
fn reads_no_more_than_it_needs(rt: HostRuntime) {
    expect_steps(&rt, b"a\nb\nc", WHOLE, &NO_MORE);
    expect_steps(&rt, b"version = 2\n%%\nbegin\nstop\n", WHOLE, &BEHIND);
    expect_steps(&rt, b"a\nbcdef", (5, false, None), &AHEAD);
}

/// 100,000 lines of 13 bytes are 158 blocks of 8192 bytes, and a part of one; the last read finds the end.
const BLOCKS: [Step; 3] = [("lines", "expect ready"), ("line", END), ("reads", "160")];

#[test]
fn reads_by_blocks(rt: HostRuntime) {
    let lines = "expect ready\n".repeat(rt.alloc(), 100_000);
    let lines = lines.expect(&rt, "memory");
    expect_steps(&rt, lines.as_bytes(), WHOLE, &BLOCKS);
}

/// Takes this line, which is as long as a line may be; then one of a byte more, and the line behind them.
fn expect_long(rt: &(impl AllocGlobal + Abort), line: &str) {
    let lines = format!(in rt.alloc(); "{line}\n{line}a\nb\n").expect(rt, "memory");
    let steps = [
        ("line", line),
        ("line", NO_TEXT),
        ("line", "b"),
        ("line", END),
    ];
    expect_steps(rt, lines.as_bytes(), WHOLE, &steps);
}

/// A line of as many bytes as a line may have, over many blocks, and one of a byte more; and the line behind it.
#[test]
fn takes_long_lines(rt: HostRuntime) {
    let line = "a".repeat(rt.alloc(), MAX_BYTES).expect(&rt, "memory");
    expect_long(&rt, line.as_str());
}

//! What errors say.
use crate::compare::{expect, expect_same};
use ec_capture::WriteFault;
use ec_decode::DecodeError;
use ec_frame::{FrameError, Full};
use ec_lines::LinesError;
use std::alloc::AllocError;
use std::fmt::Display;
use std::process::Abort;

/// Words, as they are made, are these.
fn expect_words(rt: &impl Abort, words: Result<String, AllocError>, wanted: &str) {
    let words = words.expect(rt, "memory");
    expect_same(rt, &words.as_str(), &wanted, "words");
}

/// An error says this.
fn expect_said<E: Display>(rt: &(impl AllocGlobal + Abort), error: &E, text: &str) {
    expect_words(rt, format!(in rt.alloc(); "{error}"), text);
}

/// What each fault of a frame says.
const FAULTS: [(FrameError, &str); 6] = [
    (
        FrameError::Short,
        "fewer bytes than the header has, or than it says",
    ),
    (FrameError::BadType, "the header's type isn't 1"),
    (
        FrameError::BadLength,
        "no byte of datagrams, or too few for a datagram",
    ),
    (
        FrameError::BadMore,
        "a datagram is wrong on whether another follows",
    ),
    (FrameError::BadCommand, "a command over 14"),
    (FrameError::TooLong, "more than 1470 bytes of datagrams"),
];

#[test]
fn faults_of_frames_say_what_is_wrong(rt: HostRuntime) {
    for (fault, text) in &FAULTS {
        expect_said(&rt, fault, text);
    }
}

#[test]
fn errors_say_what_is_wrong(rt: HostRuntime) {
    expect_said(&rt, &Full, "the datagram doesn't fit in the frame");
    expect_said(&rt, &WriteFault, "the capture can't be written further");
    expect_said(&rt, &LinesError::Memory, "out of memory");
    expect_said(&rt, &LinesError::Unread, "the input can't be read");
    expect_said(&rt, &LinesError::TooLong, "the text is too long");
    expect_said(&rt, &LinesError::NoText, "the bytes are no text");
    expect_said(&rt, &DecodeError::Memory, "out of memory");
    expect_said(&rt, &DecodeError::BadScript(12), "line 12 is out of form");
}

/// A refusal of a text has this number, name and line.
fn expect_refusal(
    rt: &impl Abort,
    error: DecodeError,
    number: u8,
    name: &str,
    line: Option<usize>,
) {
    let is_named = error.number() == number && error.name() == name;
    expect(rt, is_named && error.line() == line, name);
}

#[test]
fn refusals_have_numbers_names_and_lines(rt: HostRuntime) {
    expect_refusal(&rt, DecodeError::Memory, 1, "Memory", None);
    expect_refusal(&rt, DecodeError::BadScript(12), 39, "BadScript", Some(12));
}

//! Of frames as text and back what no command shows, by the public calls of `ec_decode`. What `ecat decode` and `ecat encode`
//! show are cases (`tools/cases/data/frames.cases`).
use crate::compare::{expect, expect_same};
use ec_decode::{DecodeError, Reader, check_located, decode_line, write_frame};
use std::process::Abort;

/// A NOP with ten bytes of data, and a broadcast read of the AL status that three slaves answered.
const CYCLE: &[u8] = b"\x24\x10\
    \x00\x05\0\0\0\0\x0a\x80\0\0\x05\0\0\0\0\0\0\0\0\0\0\0\
    \x07\x05\x03\0\x30\x01\x02\0\0\0\x08\0\x03\0";

/// A text with that of the cycle behind it.
const SENT_TEXT: &str = "\
sent frame 2
0 NOP index 05 at 0000:0000 counter 0 data 05000000000000000000
1 BRD index 05 at 0003:0130 counter 3 data 0800
";

/// Adds the text of a payload that is a frame, and returns how many datagrams that has.
fn push_frame(rt: &(impl AllocGlobal + Abort), text: &mut String, payload: &[u8]) -> usize {
    let count = check_located(payload).expect(rt, "a frame");
    write_frame(rt.alloc(), text, payload).expect(rt, "memory");
    count
}

#[test]
fn a_frame_is_written_behind_a_text(rt: HostRuntime) {
    let mut text = String::from_str(rt.alloc(), "sent ").expect(&rt, "memory");
    let count = push_frame(&rt, &mut text, CYCLE);
    expect_same(&rt, &(count, text.as_str()), &(2, SENT_TEXT), "a text");
}

// A payload of no bytes, whose line the command skips.
#[test]
fn no_bytes_are_no_frame(rt: HostRuntime) {
    match decode_line(rt.alloc(), "") {
        Ok(Some(text)) => {
            let is_refused = text.as_str() == "refused 2 Short datagram 0 byte 0\n";
            expect(&rt, is_refused, "no bytes");
        }
        _ => expect(&rt, false, "no bytes"),
    }
}

/// What a reader gives for a line: the frame that the line makes whole, if it does.
type Given<'a> = Result<Option<&'a [u8]>, DecodeError>;

/// A NOP without data, with one byte behind it.
const NOP: &[u8] = b"\x0c\x10\0\0\0\0\0\0\0\0\0\0\0\0\x01";

/// The bytes of what was read.
fn given(read: &Result<Option<Vec<u8>>, DecodeError>) -> Given<'_> {
    match read {
        Ok(Some(payload)) => Ok(Some(payload.as_slice())),
        Ok(None) => Ok(None),
        Err(error) => Err(*error),
    }
}

/// Reads a line, and compares what the reader gives and whether it is between two frames then.
fn expect_read(
    rt: &(impl AllocGlobal + Abort),
    reader: &mut Reader,
    number: usize,
    line: &str,
    wanted: Given<'_>,
    is_between: bool,
) {
    let read = reader.read_line(rt.alloc(), number, line);
    let seen = (given(&read), reader.is_between());
    expect_same(rt, &seen, &(wanted, is_between), line);
}

#[test]
fn a_reader_goes_on_after_a_bad_line(rt: HostRuntime) {
    let mut reader = Reader::new();
    let bad = Err(DecodeError::BadScript(4));
    let line = "0 NOP index 00 at 0000:0000 counter 0 data -";
    expect_read(&rt, &mut reader, 1, "frame 1 rest 01", Ok(None), false);
    expect_read(&rt, &mut reader, 2, "  for people", Ok(None), false);
    expect_read(&rt, &mut reader, 3, "", Ok(None), false);
    expect_read(&rt, &mut reader, 4, "frame 1", bad, false);
    expect_read(&rt, &mut reader, 5, line, Ok(Some(NOP)), true);
}

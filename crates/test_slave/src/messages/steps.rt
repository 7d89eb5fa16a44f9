//! What is asked of slaves, and what must be seen of them, as lines of text. Rows are hexadecimal digits, with blanks in between. Each
//! case begins with a slave that was just switched on, and between cases stand empty lines.
//!
//! | Line | Says |
//! |---|---|
//! | `slave KIND NAME SEND > ROOM` | the slave (`kinds`), in PREOP, and how many bytes the mailbox has that it answers in; first |
//! | `safeop KIND NAME SEND > ROOM` | the same in another state |
//! | `SENT > BACK` | a message and its reply; replies are counted from 1 on |
//! | `assigned WORDS` | what outputs and inputs are assigned to, and how many bits each has |
//! | `resets` | the slave is switched off and on |
//! | `# WORDS` | nothing |
ghost use Rattle.std.specs.Prelude.{◌≤◌};
ghost use Rattle.ec_coe.specs.Messages.{IsMessage};

use crate::compare::{bytes_of, expect, expect_same, expect_words, parts};
use crate::kinds::{DEVICE, dictionary_in};
use ec_coe::{BadMailbox, Dictionary, Message, read_message, write_message};
use std::alloc::{AllocError, Global};
use std::process::Abort;

/// Compares the bytes of a message in a mailbox of 20 bytes, the last of which become 0. A mailbox of 15 bytes has no room for it, and
/// stays as it is.
fn expect_written(rt: &impl Abort, message: &Message, back: &[u8], sent: &str)
    requires { IsMessage message.now }
{
    let mut mailbox = [0xFF; 20];
    let mut short = [7; 15];
    let is_written = write_message(message, &mut mailbox).is_ok();
    let is_refused = write_message(message, &mut short) == Err(BadMailbox);
    let (met, behind) = mailbox.split_at(16);
    let is_met = met == back && behind == [0; 4].as_slice();
    expect(
        rt,
        is_written && is_met && is_refused && short == [7; 15],
        sent,
    );
}

/// How a slave is asked: whether it is in PREOP, and how many bytes the mailbox has.
type Way = (bool, usize);

/// Sends a message, and compares the bytes of the reply.
fn expect_reply(
    rt: &impl Abort,
    dictionary: &mut Dictionary,
    way: Way,
    counter: u8,
    message: &Message,
    row: (&str, &[u8]),
)
    requires { counter ≤ 7 }
{
    let (sent, back) = row;
    let reply = dictionary.answer(way.0, message, counter);
    let bytes = dictionary.reply_bytes(way.1, &reply);
    expect_same(rt, &bytes.as_slice(), &back, sent);
    // behind a longer one stand letters
    if back.len() == 16 {
        expect_written(rt, &reply, back, sent);
    }
}

/// The message of bytes.
fn message_in(rt: &impl Abort, bytes: &[u8]) -> Message {
    read_message(bytes).expect(rt, "a message")
}

/// Sends the message of a row, which is the next of a case.
fn expect_row(
    rt: &(impl AllocGlobal + Abort),
    dictionary: &mut Dictionary,
    way: Way,
    place: usize,
    row: &str,
) {
    let (sent, back) = parts(rt, row, " > ");
    let message = message_in(rt, &bytes_of(rt, sent));
    let counter = (place % 7 + 1) as u8;
    expect_reply(
        rt,
        dictionary,
        way,
        counter,
        &message,
        (sent, &bytes_of(rt, back)),
    );
}

/// What a slave's outputs and inputs are assigned to, and their bits.
fn assigned_words(alloc: Global, dictionary: &Dictionary) -> Result<String, AllocError> {
    let (outputs, inputs) = (dictionary.assigned_outputs(), dictionary.assigned_inputs());
    let (out_bits, in_bits) = (dictionary.output_bits(), dictionary.input_bits());
    format!(in alloc; "{outputs:?} {inputs:?} {out_bits} {in_bits}")
}

/// Compares what a slave is assigned to, and what it says that it is.
fn expect_assigned(rt: &(impl AllocGlobal + Abort), dictionary: &Dictionary, words: &str) {
    expect_words(rt, assigned_words(rt.alloc(), dictionary), words);
    let is_device = dictionary.kind().device() == DEVICE;
    expect(
        rt,
        is_device && dictionary.identity() == DEVICE.identity(0),
        words,
    );
}

/// Takes the step of a line. How many messages were sent then.
fn take_line(
    rt: &(impl AllocGlobal + Abort),
    dictionary: &mut Dictionary,
    way: Way,
    place: usize,
    line: &str,
) -> usize {
    let (word, about) = line.split_once(" ").unwrap_or((line, ""));
    match word {
        "resets" => dictionary.reset(),
        "assigned" => expect_assigned(rt, dictionary, about),
        _ => {
            expect_row(rt, dictionary, way, place, line);
            return place.saturating_add(1);
        }
    }
    place
}

/// Takes the steps of lines.
fn take_lines(
    rt: &(impl AllocGlobal + Abort),
    dictionary: Result<Dictionary, AllocError>,
    way: Way,
    lines: &str,
) {
    let mut dictionary = dictionary.expect(rt, "memory");
    let mut place = 0;
    for line in lines.lines() {
        place = take_line(rt, &mut dictionary, way, place, line);
    }
}

/// Takes the steps of a case: words, the slave, and lines.
fn expect_case(rt: &(impl AllocGlobal + Abort), case: &str) {
    let (_words, lines) = parts(rt, case, "\n");
    let (slave, lines) = parts(rt, lines, "\n");
    let (slave, room) = parts(rt, slave, " > ");
    let (word, kind) = parts(rt, slave, " ");
    let room = room.parse::<usize>().expect(rt, room);
    take_lines(rt, dictionary_in(rt, kind), (word == "slave", room), lines);
}

/// Takes the steps of each case.
pub(crate) fn expect_cases(rt: &(impl AllocGlobal + Abort), cases: &str) {
    for case in cases.split("\n\n") {
        expect_case(rt, case);
    }
}

//! What is done to a slave, and what must be seen of it, as lines of text: a word, what it is about, and behind `>` what is
//! seen. Addresses, places, bytes and rows are hexadecimal digits, and blanks may stand within rows. A line that is out of form
//! ends the test, as one does that doesn't hold: so nothing here has another way out, on which a slave or bytes would go away.
//!
//! | Line | Says |
//! |---|---|
//! | `writes ADDRESS ROW`, `vain ADDRESS ROW` | a write from a physical address on, of which at least one byte counts, or none is taken |
//! | `answers COMMAND ADDRESS COUNTER SENT > BACK` | a datagram: its counter, and its data as they are sent and as they come back |
//! | `passes SENT > BACK` | a frame as it is sent and as it comes back |
//! | `asks CONTROL > STATUS` | a state is asked for, the firmware steps, and the AL status register reads so |
//! | `sends ROW` | a message is written into the mailbox of 128 bytes at 0x1000, and the firmware steps |
//! | `replies > ROW` | the mailbox of 128 bytes at 0x1080 is read |
//! | `serves`, `resets` | the firmware steps; the slave is switched off and on |
//! | `outputs > ROW`, `station > ADDRESS` | the published outputs, the station address |
//! | `shows ADDRESS > BYTE` | the byte at a physical address; nothing stands behind `>` where there is none |
//! | `may_get > BYTE`, `may_put > BYTE` | how many bytes the application may get, and put |
//! | `gets PLACE > BYTE` | the application gets a byte of the outputs, or none |
//! | `puts PLACE BYTE > 01`, `faults > 01` | the application puts a byte of the inputs, has a fault; whether it may, whether that counts: 00 if not |
//! | `longest`, `nops` | `expect_longest` and `expect_nops` of `long` |
//! | `memory_runs`, `value_runs` | `take_runs` of `runs` |
//! | `# WORDS` | nothing |
use super::long::{expect_longest, expect_nops};
use super::runs::take_runs;
use crate::compare::{bytes_of, expect, expect_same, parts};
use ec_frame::{Builder, Command, Frame, check};
use ec_slave::Slave;
use std::alloc::AllocError;
use std::process::Abort;

/// A line of a case: the case's name and all of the line are printed if something isn't as it must be, and the line's parts are
/// its word, what that is about, and what stands behind `>`.
#[derive(Drop)]
pub struct Line<'a> {
    name: &'a str,
    text: &'a str,
    word: &'a str,
    about: &'a str,
    row: &'a str,
}

/// What stands before and behind the first place of a text; where that place isn't there, all of the text and what is neither a row nor
/// a number.
fn halves<'a>(text: &'a str, between: &str) -> (&'a str, &'a str) {
    text.split_once(between).unwrap_or((text, "?"))
}

/// A physical address, or a place.
fn word_of(rt: &impl Abort, digits: &str) -> u16 {
    u16::from_str_radix(digits, 16).expect(rt, digits)
}

/// A byte.
fn byte_of(rt: &impl Abort, digits: &str) -> u8 {
    u8::from_str_radix(digits, 16).expect(rt, digits)
}

/// The address of a datagram.
fn address_of(rt: &impl Abort, digits: &str) -> u32 {
    u32::from_str_radix(digits, 16).expect(rt, digits)
}

/// A command by its name.
fn command_of(rt: &impl Abort, word: &str) -> Command {
    match word {
        "aprd" => Command::Aprd,
        "aprw" => Command::Aprw,
        "brd" => Command::Brd,
        "lrd" => Command::Lrd,
        "lrw" => Command::Lrw,
        "lwr" => Command::Lwr,
        _ => panic!(rt; "{word}"),
    }
}

/// The bytes of a mailbox of 128 bytes: a message and zeros.
fn mailbox_of(rt: &(impl AllocGlobal + Abort), row: &str) -> Vec<u8> {
    let mut bytes = bytes_of(rt, row);
    bytes.resize(bytes.len().max(128), 0).expect(rt, "memory");
    bytes
}

/// Data, and a counter behind them.
fn counted(rt: &(impl AllocGlobal + Abort), bytes: &[u8], counter: u8) -> Vec<u8> {
    let mut row = bytes.to_vec(rt.alloc()).expect(rt, "memory");
    row.extend_from_slice(&[counter, 0]).expect(rt, "memory");
    row
}

/// Compares bytes.
pub fn assert_bytes(rt: &impl Abort, line: &Line<'_>, met: &[u8], wanted: &[u8]) {
    expect_same(rt, &(line.name, met), &(line.name, wanted), line.text);
}

/// Compares bytes with a row.
fn assert_row(rt: &(impl AllocGlobal + Abort), line: &Line<'_>, met: &[u8], row: &str) {
    assert_bytes(rt, line, met, &bytes_of(rt, row));
}

/// Passes a payload that is a frame. So many datagrams it has.
pub fn pass_frame(rt: &impl Abort, slave: &mut Slave, frame: &mut [u8]) -> usize {
    let count = check(frame).expect(rt, "a frame");
    slave.pass(frame);
    count
}

/// Passes a frame, and compares what comes back.
fn expect_passed(rt: &(impl AllocGlobal + Abort), slave: &mut Slave, line: &Line<'_>) {
    let mut frame = bytes_of(rt, line.about);
    pass_frame(rt, slave, &mut frame);
    assert_row(rt, line, &frame, line.row);
}

/// The frame of a datagram.
pub fn frame_of(rt: &impl Abort, command: Command, address: u32, sent: &[u8]) -> Frame {
    let mut builder = Builder::new();
    builder.add(command, 0, address, sent).expect(rt, "room");
    builder.finish()
}

/// What stands in the frame of a datagram from its data on.
pub fn data_of(frame: &[u8]) -> &[u8] {
    frame.get(12..).unwrap_or(&[])
}

/// Passes a datagram, and compares its data and its counter as they come back.
pub fn expect_back(
    rt: &impl Abort,
    slave: &mut Slave,
    line: &Line<'_>,
    (command, address): (Command, u32),
    sent: &[u8],
    wanted: &[u8],
) {
    let mut frame = frame_of(rt, command, address, sent);
    pass_frame(rt, slave, frame.as_mut_slice());
    assert_bytes(rt, line, data_of(frame.as_slice()), wanted);
}

/// The same of data and a counter.
fn expect_data(
    rt: &(impl AllocGlobal + Abort),
    slave: &mut Slave,
    line: &Line<'_>,
    asked: (Command, u32),
    sent: &[u8],
    back: &[u8],
    counter: u8,
) {
    expect_back(rt, slave, line, asked, sent, &counted(rt, back, counter));
}

/// A datagram as a row.
fn expect_answer(rt: &(impl AllocGlobal + Abort), slave: &mut Slave, line: &Line<'_>) {
    let (command, rest) = parts(rt, line.about, " ");
    let (address, rest) = parts(rt, rest, " ");
    let (counter, sent) = parts(rt, rest, " ");
    let asked = (command_of(rt, command), address_of(rt, address));
    let counter = byte_of(rt, counter);
    expect_data(
        rt,
        slave,
        line,
        asked,
        &bytes_of(rt, sent),
        &bytes_of(rt, line.row),
        counter,
    );
}

/// Writes from a physical address on; the data come back as they were.
fn expect_written(
    rt: &(impl AllocGlobal + Abort),
    slave: &mut Slave,
    line: &Line<'_>,
    ado: u16,
    bytes: &[u8],
    counter: u8,
) {
    let asked = (Command::Apwr, 65536 * u32::from(ado));
    expect_data(rt, slave, line, asked, bytes, bytes, counter);
}

/// The same of a row.
fn expect_row_written(
    rt: &(impl AllocGlobal + Abort),
    slave: &mut Slave,
    line: &Line<'_>,
    counter: u8,
) {
    let (ado, row) = parts(rt, line.about, " ");
    expect_written(
        rt,
        slave,
        line,
        word_of(rt, ado),
        &bytes_of(rt, row),
        counter,
    );
}

/// Asks for a state.
fn expect_state(rt: &(impl AllocGlobal + Abort), slave: &mut Slave, line: &Line<'_>) {
    expect_written(rt, slave, line, 0x0120, &bytes_of(rt, line.about), 1);
    slave.serve();
    let asked = (Command::Aprd, 0x0130_0000);
    expect_data(rt, slave, line, asked, &[0; 6], &bytes_of(rt, line.row), 1);
}

/// Writes a message into the mailbox.
fn expect_message(rt: &(impl AllocGlobal + Abort), slave: &mut Slave, line: &Line<'_>) {
    expect_written(rt, slave, line, 0x1000, &mailbox_of(rt, line.about), 1);
    slave.serve();
}

/// Reads a message from the mailbox.
fn expect_reply(rt: &(impl AllocGlobal + Abort), slave: &mut Slave, line: &Line<'_>) {
    let asked = (Command::Aprd, 0x1080_0000);
    expect_data(
        rt,
        slave,
        line,
        asked,
        &[0; 128],
        &mailbox_of(rt, line.row),
        1,
    );
}

/// The application puts a byte; whether it may.
fn is_put(rt: &impl Abort, slave: &mut Slave, about: &str) -> bool {
    let (place, byte) = parts(rt, about, " ");
    slave.app_put(usize::from(word_of(rt, place)), byte_of(rt, byte))
}

/// A byte that is seen at the slave itself.
fn byte_seen(rt: &impl Abort, slave: &mut Slave, line: &Line<'_>) -> Option<u8> {
    match line.word {
        "shows" => slave.byte(word_of(rt, line.about)),
        "may_get" => u8::try_from(slave.app_sizes().0).ok(),
        "may_put" => u8::try_from(slave.app_sizes().1).ok(),
        "gets" => slave.app_get(usize::from(word_of(rt, line.about))),
        "puts" => Some(u8::from(is_put(rt, slave, line.about))),
        "faults" => Some(u8::from(slave.fault())),
        word => {
            expect(rt, false, word);
            None
        }
    }
}

/// What is seen at the slave itself.
fn expect_seen(rt: &(impl AllocGlobal + Abort), slave: &mut Slave, line: &Line<'_>) {
    match line.word {
        "outputs" => assert_row(rt, line, slave.outputs(), line.row),
        "station" => assert_row(rt, line, &slave.station_address().to_be_bytes(), line.row),
        _ => assert_row(rt, line, byte_seen(rt, slave, line).as_slice(), line.row),
    }
}

/// Takes the step of a line.
fn take_step(rt: &(impl AllocGlobal + Abort), slave: &mut Slave, line: &Line<'_>) {
    match line.word {
        "#" => {}
        "serves" => slave.serve(),
        "resets" => slave.reset(),
        "longest" => expect_longest(rt, slave, line),
        "nops" => expect_nops(rt, slave, line),
        "memory_runs" => take_runs(rt, slave, false),
        "value_runs" => take_runs(rt, slave, true),
        "writes" => expect_row_written(rt, slave, line, 1),
        "vain" => expect_row_written(rt, slave, line, 0),
        "answers" => expect_answer(rt, slave, line),
        "passes" => expect_passed(rt, slave, line),
        "asks" => expect_state(rt, slave, line),
        "sends" => expect_message(rt, slave, line),
        "replies" => expect_reply(rt, slave, line),
        _ => expect_seen(rt, slave, line),
    }
}

/// Takes a line apart, and its step.
fn take_line(rt: &(impl AllocGlobal + Abort), name: &str, slave: &mut Slave, text: &str) {
    let (done, row) = halves(text, " >");
    let (word, about) = halves(done, " ");
    let line = Line {
        name,
        text,
        word,
        about,
        row,
    };
    take_step(rt, slave, &line);
}

/// Takes the steps of all lines, in their order.
fn take_all(rt: &(impl AllocGlobal + Abort), name: &str, slave: &mut Slave, lines: &str) {
    for line in lines.lines() {
        take_line(rt, name, slave, line);
    }
}

/// Takes the steps of a case, behind others. Before it stand comments.
fn take_case(rt: &(impl AllocGlobal + Abort), slave: &mut Slave, before: &str, case: &str) {
    let (_, named) = parts(rt, case, "case ");
    let (name, lines) = parts(rt, named, "\n");
    take_all(rt, name, slave, before);
    take_all(rt, name, slave, lines);
}

/// Takes the steps of a case on a slave, behind those that lead it to where the case begins. All slaves of these tests are
/// handed to this function, so here alone the proof has to follow how one goes away.
pub fn expect_case(
    rt: &(impl AllocGlobal + Abort),
    slave: Result<Slave, AllocError>,
    before: &str,
    case: &str,
) {
    let mut slave = slave.expect(rt, "memory");
    take_case(rt, &mut slave, before, case);
}

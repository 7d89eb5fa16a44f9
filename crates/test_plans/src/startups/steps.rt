//! What is done with a start-up, and what must be seen of it, as lines of text. Numbers are decimal. Rows are hexadecimal digits,
//! with blanks or none between fields, of which `00x7` stands for seven bytes of zeros. A line that is out of form ends the test, as
//! one does that doesn't hold: so nothing here has another way out, on which plans, start-ups or bytes would go away.
//!
//! | Line | Says |
//! |---|---|
//! | `starts NUMBER` | a start-up comes in the place of the one before, whose first frame has this number |
//! | `all` | all steps of the table of steps (`rows`): each frame byte by byte, and nothing is sent before it is back |
//! | `makes COUNT` | the first steps of that table, as all is well |
//! | `comes DATA COUNTER` | the next frame is sent, and taken as it comes back: these data in front of its second datagram's, or `-`, and this counter |
//! | `polls COUNT DATA COUNTER` | the same so many times, and the start-up is idle before each |
//! | `ends COUNT DATA COUNTER > PHASE` | a new start-up makes so many steps, then the next frame comes back so, and it is there |
//! | `sends NEXT > ROW` | what is said of the next frame, and the frame |
//! | `takes ROW > (TAKEN, PHASE)` | what a payload is taken for, and where the start-up is then |
//! | `gives_up`, `restarts` | it is given up; it begins anew, where it failed |
//! | `phase > PHASE`, `outcome > OUTCOME`, `next > NUMBER` | where it is, how it ended, the number of its next frame |
//! | `# WORDS`, or nothing | nothing |
//!
//! NEXT, TAKEN, PHASE and OUTCOME are written as Rattle does.
use super::rows::STEPS;
use crate::compare::{expect, expect_same};
use ec_frame::Frame;
use ec_link::{Machine, Plan};
use ec_start::{NextFrame, Phase, Startup, Taken};
use std::fmt::Debug;
use std::process::Abort;

/// A line: all of it, its first word, what that is about, and what stands behind `>`.
#[derive(Drop)]
struct Line<'t> {
    text: &'t str,
    word: &'t str,
    about: &'t str,
    row: &'t str,
}

/// What stands before and behind the first place of a text.
fn parts<'t>(rt: &impl Abort, text: &'t str, between: &str) -> (&'t str, &'t str) {
    text.split_once(between).expect(rt, text)
}

/// The same; where that place isn't there, all of the text and nothing.
fn halves<'t>(text: &'t str, between: &str) -> (&'t str, &'t str) {
    text.split_once(between).unwrap_or((text, ""))
}

/// Takes a line apart.
fn line_of(text: &str) -> Line<'_> {
    let (done, row) = halves(text, " >");
    let (word, about) = halves(done, " ");
    Line {
        text,
        word,
        about,
        row: row.trim(),
    }
}

fn number_of(rt: &impl Abort, digits: &str) -> u64 {
    digits.parse::<u64>().expect(rt, digits)
}

/// The same as a count.
fn count_of(rt: &impl Abort, digits: &str) -> usize {
    digits.parse::<usize>().expect(rt, digits)
}

/// A counter, in hexadecimal digits.
fn counter_of(rt: &impl Abort, digits: &str) -> u8 {
    u8::from_str_radix(digits, 16).expect(rt, digits)
}

/// The bytes of hexadecimal digits.
fn bytes_of_digits(rt: &(impl AllocGlobal + Abort), digits: &str) -> Vec<u8> {
    hex::decode(rt.alloc(), digits).expect(rt, digits)
}

/// Adds bytes so many times.
fn add_times(rt: &impl Abort, bytes: &mut Vec<u8>, part: &[u8], count: usize) {
    for _ in 0..count {
        bytes.extend_from_slice(part).expect(rt, "memory");
    }
}

/// Adds the bytes of a field.
fn add_field(rt: &(impl AllocGlobal + Abort), bytes: &mut Vec<u8>, field: &str) {
    let (digits, count) = field.split_once("x").unwrap_or((field, "1"));
    let count = count_of(rt, count);
    add_times(rt, bytes, &bytes_of_digits(rt, digits), count);
}

/// The bytes of a row.
fn bytes_of(rt: &(impl AllocGlobal + Abort), row: &str) -> Vec<u8> {
    let mut bytes = Vec::new(rt.alloc());
    for field in row.split_whitespace() {
        add_field(rt, &mut bytes, field);
    }
    bytes
}

/// The length that a frame says.
fn said_length(frame: &[u8]) -> usize {
    match frame {
        [low, high, ..] => 2 + usize::from(*low) + 256 * usize::from(*high % 8),
        _ => 0,
    }
}

/// The frame of a step of the table, with zeros up to the length that it says.
fn sent_of(rt: &(impl AllocGlobal + Abort), row: &str) -> Vec<u8> {
    let mut bytes = bytes_of_digits(rt, row);
    let length = said_length(&bytes).max(bytes.len());
    bytes.resize(length, 0).expect(rt, "memory");
    bytes
}

/// Puts bytes into a frame, from a place on.
fn put(rt: &impl Abort, frame: &mut [u8], from: usize, part: &[u8]) {
    for (place, byte) in part.iter().enumerate() {
        match frame.get_mut(from.saturating_add(place)) {
            Some(room) => *room = *byte,
            None => expect(rt, false, "room for the data"),
        }
    }
}

/// What comes back of a frame: these data in front of its second datagram's, and this counter.
fn returned(rt: &(impl AllocGlobal + Abort), sent: &[u8], back: &str) -> Vec<u8> {
    let (data, counter) = parts(rt, back, " ");
    let end = sent.len().saturating_sub(2);
    let mut bytes = sent.to_vec(rt.alloc()).expect(rt, "memory");
    if data != "-" {
        put(rt, &mut bytes, 34, &bytes_of_digits(rt, data));
    }
    put(rt, &mut bytes, end, &[counter_of(rt, counter), 0]);
    bytes
}

/// A value as Rattle writes it.
fn shown<T: Debug>(rt: &(impl AllocGlobal + Abort), value: &T) -> String {
    format!(in rt.alloc(); "{value:?}").expect(rt, "memory")
}

/// Compares a value as Rattle writes it.
fn assert_shown<T: Debug>(rt: &(impl AllocGlobal + Abort), line: &Line<'_>, met: &T) {
    expect_same(rt, &shown(rt, met).as_str(), &line.row, line.text);
}

/// A frame is taken as it comes back.
fn expect_back(
    rt: &(impl AllocGlobal + Abort),
    startup: &mut Startup<'_>,
    sent: &[u8],
    back: &str,
    line: &str,
) {
    let taken = startup.take(&returned(rt, sent, back));
    expect_same(rt, &taken, &Taken::Accepted, line);
}

/// Sends the next frame of a start-up, which is taken as it comes back.
fn exchange(rt: &(impl AllocGlobal + Abort), startup: &mut Startup<'_>, back: &str, line: &str) {
    let mut frame = Frame::new();
    let next = startup.next(&mut frame);
    expect_same(rt, &next, &NextFrame::Send, line);
    expect_back(rt, startup, frame.as_slice(), back, line);
}

/// Makes the first steps of the start-up of the three slaves, as all is well.
fn make_steps(rt: &(impl AllocGlobal + Abort), startup: &mut Startup<'_>, count: usize) {
    for line in STEPS.lines().take(count) {
        exchange(rt, startup, parts(rt, line, " ").1, line);
    }
}

/// The next frame is this one, and there is none behind it before it is back.
fn assert_sends(rt: &impl Abort, startup: &mut Startup<'_>, sent: &[u8], line: &str) {
    let (mut frame, mut behind) = (Frame::new(), Frame::new());
    let outcome = startup.outcome();
    let next = (startup.next(&mut frame), startup.next(&mut behind));
    let wanted = (None, (NextFrame::Send, NextFrame::Waiting), sent);
    expect_same(rt, &(outcome, next, frame.as_slice()), &wanted, line);
}

/// A step of the table: its frame is sent, and taken as it comes back.
fn make_step(rt: &(impl AllocGlobal + Abort), startup: &mut Startup<'_>, line: &str) {
    let (sent, back) = parts(rt, line, " ");
    let sent = sent_of(rt, sent);
    assert_sends(rt, startup, &sent, line);
    expect_back(rt, startup, &sent, back, line);
}

/// All steps of the table.
fn make_all(rt: &(impl AllocGlobal + Abort), startup: &mut Startup<'_>) {
    for line in STEPS.lines() {
        make_step(rt, startup, line);
    }
}

/// The next frame comes back so many times.
fn poll(rt: &(impl AllocGlobal + Abort), startup: &mut Startup<'_>, line: &Line<'_>) {
    let (count, back) = parts(rt, line.about, " ");
    for _ in 0..number_of(rt, count) {
        expect_same(rt, &startup.phase(), &Phase::Idle, line.text);
        exchange(rt, startup, back, line.text);
    }
}

/// A start-up makes steps, and the next frame comes back.
fn expect_end(rt: &(impl AllocGlobal + Abort), startup: &mut Startup<'_>, line: &Line<'_>) {
    let (count, back) = parts(rt, line.about, " ");
    make_steps(rt, startup, count_of(rt, count));
    exchange(rt, startup, back, line.text);
    assert_shown(rt, line, &startup.phase());
}

/// What is said of the next frame, and the frame.
fn expect_next(rt: &(impl AllocGlobal + Abort), startup: &mut Startup<'_>, line: &Line<'_>) {
    let mut frame = Frame::new();
    let next = shown(rt, &startup.next(&mut frame));
    let wanted = bytes_of(rt, line.row);
    expect_same(
        rt,
        &(next.as_str(), frame.as_slice()),
        &(line.about, wanted.as_slice()),
        line.text,
    );
}

/// What a payload is taken for.
fn expect_taken(rt: &(impl AllocGlobal + Abort), startup: &mut Startup<'_>, line: &Line<'_>) {
    let taken = startup.take(&bytes_of(rt, line.about));
    assert_shown(rt, line, &(taken, startup.phase()));
}

/// A start-up that failed begins anew.
fn begin_anew(rt: &impl Abort, startup: &mut Startup<'_>) {
    expect(rt, startup.has_failed(), "a failure");
    startup.restart();
}

/// What is seen of a start-up.
fn expect_seen(rt: &(impl AllocGlobal + Abort), startup: &Startup<'_>, line: &Line<'_>) {
    match line.word {
        "phase" => assert_shown(rt, line, &startup.phase()),
        "outcome" => assert_shown(rt, line, &startup.outcome()),
        "next" => assert_shown(rt, line, &startup.next_number()),
        _ => expect(rt, false, line.text),
    }
}

/// Takes the step of a line.
fn take_step(rt: &(impl AllocGlobal + Abort), startup: &mut Startup<'_>, line: &Line<'_>) {
    match line.word {
        "" | "#" => {}
        "all" => make_all(rt, startup),
        "makes" => make_steps(rt, startup, count_of(rt, line.about)),
        "comes" => exchange(rt, startup, line.about, line.text),
        "polls" => poll(rt, startup, line),
        "ends" => expect_end(rt, startup, line),
        "sends" => expect_next(rt, startup, line),
        "takes" => expect_taken(rt, startup, line),
        "gives_up" => startup.give_up(),
        "restarts" => begin_anew(rt, startup),
        _ => expect_seen(rt, startup, line),
    }
}

/// A start-up of a plan whose first frame has this number.
fn startup_of<'p>(rt: &impl Abort, plan: &'p Plan, from: u64) -> Startup<'p> {
    expect(rt, Startup::can_start(plan), "a start-up");
    Startup::new(plan, from)
}

/// The number of the first frame, where a line begins a new start-up.
fn first_number(rt: &impl Abort, line: &Line<'_>) -> Option<u64> {
    match line.word {
        "starts" => Some(number_of(rt, line.about)),
        "ends" => Some(0),
        _ => None,
    }
}

/// Takes the step of a line, on a new start-up where it begins one.
fn take_line<'p>(
    rt: &(impl AllocGlobal + Abort),
    plan: &'p Plan,
    startup: &mut Startup<'p>,
    line: &Line<'_>,
) {
    if let Some(number) = first_number(rt, line) {
        *startup = startup_of(rt, plan, number);
    }
    if line.word != "starts" {
        take_step(rt, startup, line);
    }
}

/// Takes the steps of all lines, in their order.
fn take_all<'p>(
    rt: &(impl AllocGlobal + Abort),
    plan: &'p Plan,
    startup: &mut Startup<'p>,
    lines: &str,
) {
    for line in lines.lines() {
        take_line(rt, plan, startup, &line_of(line));
    }
}

/// Takes steps with start-ups of the plan of a table.
pub fn expect_steps(rt: &(impl AllocGlobal + Abort), table: &str, lines: &str) {
    let machine = Machine::read(rt.alloc(), table).expect(rt, "a machine");
    let plan = machine.plan();
    take_all(rt, plan, &mut startup_of(rt, plan, 0), lines);
}

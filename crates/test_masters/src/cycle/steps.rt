//! What is done with a master, and what must be seen of it, as lines of text (`crate::lines`).
//!
//! | Line | Says |
//! |---|---|
//! | `ready NUMBER` | a start-up of the plan ended Ready, with this next number |
//! | `sets VARIABLE VALUE`, `denied VARIABLE VALUE` | a variable gets a value; no variable of that number holds the value |
//! | `reads VARIABLE VALUE` | a variable has a value |
//! | `next NUMBER` | the number of the next cycle |
//! | `begins`, `refused NUMBER NAME TEXT` | a cycle begins; none does, and that is what the refusal says |
//! | `sends PART ROW` | the frame of a part |
//! | `keeps ROW`, `foreign ROW` | a payload that is kept; one that isn't |
//! | `closes UNITS COUNTERS AL` | the cycle is closed: for each unit 1 if it was taken, else 0; for each part its counter, `WRITE+READ` of one that is split and `-` of one that wasn't kept, with commas between; the AL word |
//! | `denies NUMBER NAME TEXT` | no cycle is open that could be closed |
//!
//! A ROW has hexadecimal digits with blanks between fields; the field `+7` stands for seven bytes of zeros.
ghost use Rattle.std.specs.Prelude.{◌≡◌};

use crate::lines::{
    Line, expect, expect_same, line_of, number_at, number_of, parts, place_at, word_at,
};
use ec_bringup::{bring_up, slaves_of_machine};
use ec_cycle::{CycleError, Master, Report, Taken};
use ec_link::{ExpectedCounters, Machine, Plan};
use ec_start::{Phase, Startup};
use std::alloc::AllocError;
use std::process::Abort;

/// Appends so many zeros.
fn push_zeros(rt: &impl Abort, bytes: &mut Vec<u8>, count: usize) {
    let len = bytes.len().saturating_add(count);
    bytes.resize(len, 0).expect(rt, "memory");
}

/// Appends the bytes of digits.
fn push_digits(rt: &(impl AllocGlobal + Abort), bytes: &mut Vec<u8>, digits: &str) {
    let more = hex::decode(rt.alloc(), digits).expect(rt, digits);
    bytes.extend_from_slice(&more).expect(rt, "memory");
}

/// The bytes of a row.
fn bytes_of(rt: &(impl AllocGlobal + Abort), row: &str) -> Vec<u8> {
    let mut bytes = Vec::new(rt.alloc());
    for field in row.split(' ') {
        match field.strip_prefix("+") {
            Some(count) => push_zeros(rt, &mut bytes, number_of(rt, count) as usize),
            None => push_digits(rt, &mut bytes, field),
        }
    }
    bytes
}

/// A start-up of a plan over the slaves of its machine, whose first frame has this number; it has ended.
fn ended_startup<'p>(
    rt: &(impl AllocGlobal + Abort),
    machine: &Machine,
    plan: &'p Plan,
    number: u64,
) -> Startup<'p>
    ensures { result.plan ≡ plan.now.slaves }
{
    expect(rt, Startup::can_start(plan), "a start-up");
    let mut startup = Startup::new(plan, number);
    let mut ring = slaves_of_machine(rt.alloc(), machine).expect(rt, "memory");
    bring_up(&mut startup, &mut ring);
    startup
}

/// The number of the first frame of a start-up whose next number is this when it has ended.
fn first_number(
    rt: &(impl AllocGlobal + Abort),
    machine: &Machine,
    plan: &Plan,
    number: u64,
) -> u64 {
    let frames = ended_startup(rt, machine, plan, 0).next_number();
    number.checked_sub(frames).expect(rt, "so many frames")
}

/// The master becomes ready by a start-up of its plan.
fn become_ready(rt: &impl Abort, master: &mut Master, startup: &Startup<'_>, number: u64)
    requires { startup.now.plan ≡ master.old.plan.slaves }
{
    expect_same(rt, &startup.next_number(), &number, "a next number");
    match startup.phase() {
        Phase::Ready => master.ready(startup),
        _ => expect(rt, false, "slaves that come up"),
    }
}

/// The master becomes ready by a start-up of its plan whose next number is this.
fn make_ready(
    rt: &(impl AllocGlobal + Abort),
    machine: &Machine,
    master: &mut Master,
    number: u64,
) {
    let held = master.held_plan().clone().expect(rt, "memory");
    let first = first_number(rt, machine, held.plan(), number);
    let startup = ended_startup(rt, machine, held.plan(), first);
    become_ready(rt, master, &startup, number);
}

/// A variable gets a value.
fn set(rt: &impl Abort, master: &mut Master, line: &Line<'_>) {
    let (variable, value) = (place_at(rt, line.about, 0), number_at(rt, line.about, 1));
    expect(rt, master.can_set(variable, value), line.text);
    master.set(variable, value);
}

/// Compares the value of a variable.
fn expect_value(rt: &impl Abort, master: &Master, line: &Line<'_>) {
    let (variable, value) = (place_at(rt, line.about, 0), number_at(rt, line.about, 1));
    expect(rt, variable < master.variables(), line.text);
    expect_same(rt, &master.get(variable), &value, line.text);
}

/// Compares the frame of a part.
fn expect_frame(rt: &impl Abort, master: &Master, part: usize, wanted: &[u8]) {
    expect(rt, master.is_open() && part < master.parts(), "a frame");
    expect_same(rt, &master.frame(part), &wanted, "a frame");
}

/// The same of a row behind the number of the part.
fn expect_row(rt: &(impl AllocGlobal + Abort), master: &Master, line: &Line<'_>) {
    let (part, row) = parts(line.about, " ");
    expect_frame(rt, master, number_of(rt, part) as usize, &bytes_of(rt, row));
}

/// Compares what a master takes the payload of a row for.
fn expect_taken(
    rt: &(impl AllocGlobal + Abort),
    master: &mut Master,
    line: &Line<'_>,
    taken: Taken,
) {
    let met = master.take(&bytes_of(rt, line.about));
    expect_same(rt, &met, &taken, line.text);
}

/// Compares words, as they are made.
fn expect_words(rt: &impl Abort, words: Result<String, AllocError>, wanted: &str) {
    let words = words.expect(rt, "memory");
    expect_same(rt, &words.as_str(), &wanted, "a refusal");
}

/// Compares a refusal's number, its name, and what it says.
fn expect_refusal(rt: &(impl AllocGlobal + Abort), error: CycleError, about: &str) {
    let (number, rest) = parts(about, " ");
    let (name, wanted) = parts(rest, " ");
    let is_named = u64::from(error.number()) == number_of(rt, number) && error.name() == name;
    expect(rt, is_named, about);
    expect_words(rt, format!(in rt.alloc(); "{error}"), wanted);
}

/// There is a refusal, and it is this one.
fn expect_refused(rt: &(impl AllocGlobal + Abort), refusal: Option<CycleError>, about: &str) {
    match refusal {
        Some(error) => expect_refusal(rt, error, about),
        None => expect(rt, false, about),
    }
}

/// The counters that a word says.
fn counters_of(rt: &impl Abort, word: &str) -> Option<ExpectedCounters> {
    match word.split_once("+") {
        Some((write, read)) => Some(ExpectedCounters::Split {
            write: number_of(rt, write) as usize,
            read: number_of(rt, read) as usize,
        }),
        None if word == "-" => None,
        None => Some(ExpectedCounters::Lrw(number_of(rt, word) as usize)),
    }
}

/// Compares the counters of parts.
fn expect_counters(rt: &impl Abort, counters: &[Option<ExpectedCounters>], words: &str) {
    for (place, word) in words.split(',').enumerate() {
        let wanted = Some(counters_of(rt, word));
        expect_same(rt, &counters.get(place).copied(), &wanted, words);
    }
    expect_same(rt, &counters.len(), &words.split(',').count(), words);
}

/// Compares which units were taken.
fn expect_units(rt: &impl Abort, taken: &[bool], units: &str) {
    for (place, unit) in units.bytes().enumerate() {
        let wanted = Some(unit == b'1');
        expect_same(rt, &taken.get(place).copied(), &wanted, units);
    }
    expect_same(rt, &taken.len(), &units.len(), units);
}

/// Compares a report.
fn expect_report(rt: &impl Abort, report: &Report, line: &Line<'_>) {
    let (units, counters) = (word_at(line.about, 0), word_at(line.about, 1));
    expect_units(rt, report.units_taken(), units);
    expect_counters(rt, report.counters().as_slice(), counters);
    let missing = counters.split('-').count().saturating_sub(1);
    expect_same(
        rt,
        &(report.units().len(), report.missing(), report.is_taken()),
        &(units.len(), missing, !units.contains("0")),
        line.text,
    );
    let al_word = number_at(rt, line.about, 2);
    expect_same(rt, &u64::from(report.al_word()), &al_word, line.text);
}

/// Closes the cycle, and compares the report.
fn expect_closed(rt: &impl Abort, master: &mut Master, line: &Line<'_>) {
    match master.close() {
        Ok(report) => expect_report(rt, &report, line),
        Err(_) => expect(rt, false, line.text),
    }
}

/// What is seen of variables and numbers.
fn expect_seen(rt: &impl Abort, master: &mut Master, line: &Line<'_>) {
    let (first, second) = (number_at(rt, line.about, 0), number_at(rt, line.about, 1));
    match line.word {
        "sets" => set(rt, master, line),
        "reads" => expect_value(rt, master, line),
        "denied" => {
            let is_denied = !master.can_set(first as usize, second);
            expect(rt, is_denied, line.text);
        }
        "next" => expect_same(rt, &master.next_number(), &first, line.text),
        _ => expect(rt, line.word.is_empty(), line.text),
    }
}

/// Takes the step of a line.
fn take_step(
    rt: &(impl AllocGlobal + Abort),
    machine: &Machine,
    master: &mut Master,
    line: &Line<'_>,
) {
    match line.word {
        "ready" => make_ready(rt, machine, master, number_at(rt, line.about, 0)),
        "begins" => expect(rt, master.begin().is_ok(), line.text),
        "refused" => expect_refused(rt, master.begin().err(), line.about),
        "sends" => expect_row(rt, master, line),
        "keeps" => expect_taken(rt, master, line, Taken::Accepted),
        "foreign" => expect_taken(rt, master, line, Taken::Foreign),
        "closes" => expect_closed(rt, master, line),
        "denies" => expect_refused(rt, master.close().err(), line.about),
        _ => expect_seen(rt, master, line),
    }
}

/// Takes the steps of all lines, in their order.
fn take_steps(
    rt: &(impl AllocGlobal + Abort),
    machine: &Machine,
    master: &mut Master,
    lines: &str,
) {
    for line in lines.lines() {
        take_step(rt, machine, master, &line_of(line));
    }
}

/// Takes the steps with a new master of a machine.
fn expect_steps_of(rt: &(impl AllocGlobal + Abort), machine: &Machine, lines: &str) {
    let mut master = Master::new(rt.alloc(), machine.plan()).expect(rt, "memory");
    take_steps(rt, machine, &mut master, lines);
}

/// Takes the steps with a new master of a table's machine.
pub fn expect_steps(rt: &(impl AllocGlobal + Abort), table: &str, lines: &str) {
    let machine = Machine::read(rt.alloc(), table).expect(rt, "a machine");
    expect_steps_of(rt, &machine, lines);
}

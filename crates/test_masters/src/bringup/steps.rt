//! What is done to slaves and their start-up, and what must be seen of it, as lines of text. Numbers are decimal, or `0x` and
//! hexadecimal digits. A line that is out of form ends the test, as one does that doesn't hold.
//!
//! | Line | Says |
//! |---|---|
//! | `slaves OLD => NEW` | slaves come in the place of those before, just switched on: of the table of three slaves in which OLD became NEW; of that table as it is by `slaves right` |
//! | `exchange PLACE` | the slave at a place is exchanged for one as that table has it, just switched on |
//! | `starts NUMBER`, `spares FRAMES` | a start-up comes in the place of the one before, whose first frame has a number, or which has numbers for so many frames |
//! | `rises FRAMES > END` | undisturbed, and begun anew if it had failed, it ends so after so many frames |
//! | `fails FRAME PLACE TROUBLE > END` | another one, of new slaves, ends so where a frame meets trouble before the slave at a place; begun anew, it brings the same slaves up by 75 frames |
//! | `lost`, `reset`, `fault` | in each frame, at each place, of each slave: start-ups of new slaves end as they may, and come up |
//! | `next NUMBER` | the number of the next frame |
//! | `show COUNT STATUS` | so many slaves are there, and each shows this AL status |
//! | `# WORDS`, or nothing | nothing |
//!
//! TROUBLE is `lost`, `skipped`, `unserved`, `reset PLACE`, `fault PLACE` or `changed PLACE BYTE`, as `Trouble` says. END is
//! `ready`, or the number and the values of a failure.

use super::slaves::{changed_ring, machine_of, ring_of, startup_of};
use super::troubles::{Trouble, rise_in_trouble};
use crate::lines::{Line, expect, expect_same, line_of, number_at, place_at, word_at};
use ec_bringup::bring_up;
use ec_link::Machine;
use ec_ring::Ring;
use ec_start::{Phase, StartError, Startup};
use std::process::Abort;

/// The byte that a word says.
fn byte_at(rt: &impl Abort, words: &str, place: usize) -> u8 {
    (number_at(rt, words, place) % 256) as u8
}

/// Whether the words behind the first one are these values.
fn are_values(rt: &impl Abort, words: &str, values: &[u64]) -> bool {
    for place in 0..values.len() {
        if values[place] != number_at(rt, words, place + 1) {
            return false;
        }
    }
    words.split(' ').count() == values.len() + 1
}

/// Whether a failure has this number and these values.
fn is_told(rt: &impl Abort, error: StartError, end: &str) -> bool {
    number_at(rt, end, 0) == u64::from(error.number())
        && are_values(rt, end, error.values().as_slice())
}

fn has_ended(rt: &impl Abort, startup: &Startup<'_>, end: &str) -> bool {
    match startup.outcome() {
        Some(Ok(())) => end == "ready",
        Some(Err(error)) => is_told(rt, error, end),
        None => false,
    }
}

/// Begins a start-up anew, where it has failed.
fn begin_anew(startup: &mut Startup<'_>) {
    if startup.has_failed() {
        startup.restart();
    }
}

/// Brings slaves up.
fn rise(rt: &impl Abort, startup: &mut Startup<'_>, ring: &mut Ring) {
    match startup.phase() {
        Phase::Idle => bring_up(startup, ring),
        _ => expect(rt, false, "a start-up that runs"),
    }
}

/// Brings slaves up. Returns how many frames were sent.
fn frames_of_rise(rt: &impl Abort, startup: &mut Startup<'_>, ring: &mut Ring) -> u64 {
    let before = startup.next_number();
    begin_anew(startup);
    rise(rt, startup, ring);
    startup.next_number().saturating_sub(before)
}

/// Undisturbed a start-up ends so after so many frames.
fn expect_rise(
    rt: &impl Abort,
    startup: &mut Startup<'_>,
    ring: &mut Ring,
    frames: u64,
    end: &str,
    line: &str,
) {
    let sent = frames_of_rise(rt, startup, ring);
    expect(rt, sent == frames && has_ended(rt, startup, end), line);
}

/// The trouble of a line.
fn trouble_of<'t>(rt: &impl Abort, about: &'t str) -> Trouble<'t> {
    Trouble {
        word: word_at(about, 2),
        frame: number_at(rt, about, 0),
        at: place_at(rt, about, 1),
        place: place_at(rt, about, 3),
        byte: byte_at(rt, about, 4),
    }
}

/// A start-up ends so in trouble, and brings the slaves up once it has begun anew.
fn expect_failure(rt: &impl Abort, startup: &mut Startup<'_>, ring: &mut Ring, line: &Line<'_>) {
    rise_in_trouble(rt, startup, ring, &trouble_of(rt, line.about));
    expect(rt, has_ended(rt, startup, line.end), line.text);
    expect_rise(rt, startup, ring, 75, "ready", line.text);
}

/// Whether a start-up may end so that met trouble.
fn may_end(startup: &Startup<'_>, trouble: &str) -> bool {
    match startup.outcome() {
        Some(Err(StartError::Lost)) => trouble == "lost",
        Some(Err(StartError::Counter { .. } | StartError::TooSlow { .. })) => trouble == "reset",
        Some(Err(StartError::AlError { code, .. })) => trouble == "fault" && code == 1,
        Some(Ok(())) => trouble != "lost",
        _ => false,
    }
}

/// Whether a start-up has ended well, or does so once it has begun anew.
fn comes_up(rt: &impl Abort, startup: &mut Startup<'_>, ring: &mut Ring) -> bool {
    if startup.has_failed() {
        startup.restart();
        rise(rt, startup, ring);
    }
    startup.phase() == Phase::Ready
}

/// Whether a start-up of new slaves ends as it may in trouble, and then comes up: by 75 frames more, where a frame was lost.
fn is_overcome(
    rt: &impl Abort,
    startup: &mut Startup<'_>,
    ring: &mut Ring,
    trouble: &Trouble<'_>,
) -> bool {
    rise_in_trouble(rt, startup, ring, trouble);
    may_end(startup, trouble.word)
        && comes_up(rt, startup, ring)
        && (trouble.word != "lost" || startup.next_number() == trouble.frame.saturating_add(76))
}

/// New slaves, and a start-up of them.
fn renew<'p>(
    rt: &(impl AllocGlobal + Abort),
    machine: &'p Machine,
    startup: &mut Startup<'p>,
    ring: &mut Ring,
) {
    *ring = ring_of(rt, machine);
    *startup = startup_of(rt, machine, 0);
}

/// The trouble of a trial: in one of 75 frames, at one of four places, of one of three slaves.
fn trouble_at(word: &str, trial: u64) -> Trouble<'_> {
    Trouble {
        word,
        frame: trial / 4 % 75,
        at: (trial % 4) as usize,
        place: (trial / 300) as usize,
        byte: 0,
    }
}

/// A start-up of new slaves meets the trouble of a trial and overcomes it.
fn expect_overcome<'p>(
    rt: &(impl AllocGlobal + Abort),
    machine: &'p Machine,
    startup: &mut Startup<'p>,
    ring: &mut Ring,
    word: &str,
    trial: u64,
) {
    renew(rt, machine, startup, ring);
    let trouble = trouble_at(word, trial);
    let comes_up = is_overcome(rt, startup, ring, &trouble);
    expect_same(rt, &(trial, comes_up), &(trial, true), word);
}

/// So many trials.
fn expect_trials<'p>(
    rt: &(impl AllocGlobal + Abort),
    machine: &'p Machine,
    startup: &mut Startup<'p>,
    ring: &mut Ring,
    word: &str,
    count: u64,
) {
    for trial in 0..count {
        expect_overcome(rt, machine, startup, ring, word, trial);
    }
}

/// Whether each slave shows this AL status.
fn all_show(ring: &Ring, status: u8) -> bool {
    for place in 0..ring.len() {
        if ring.slave(place).byte(0x0130) != Some(status) {
            return false;
        }
    }
    true
}

/// Exchanges the slaves at a place.
fn exchange(ring: &mut Ring, other: &mut Ring, place: usize) {
    if place < ring.len() && place < other.len() {
        std::mem::swap(ring.slave_mut(place), other.slave_mut(place));
    }
}

/// What a line says of the slaves and the start-up that are there.
fn expect_seen(rt: &impl Abort, startup: &mut Startup<'_>, ring: &mut Ring, line: &Line<'_>) {
    let number = number_at(rt, line.about, 0);
    match line.word {
        "rises" => expect_rise(rt, startup, ring, number, line.end, line.text),
        "next" => expect(rt, startup.next_number() == number, line.text),
        "show" => {
            let is_shown = all_show(ring, byte_at(rt, line.about, 1));
            expect(rt, is_shown && ring.len() as u64 == number, line.text);
        }
        _ => expect(rt, false, line.text),
    }
}

/// Takes the step of a line.
fn take_step<'p>(
    rt: &(impl AllocGlobal + Abort),
    machine: &'p Machine,
    startup: &mut Startup<'p>,
    ring: &mut Ring,
    line: &Line<'_>,
) {
    let about = line.about;
    match line.word {
        "" | "#" => {}
        "slaves" => *ring = changed_ring(rt, about),
        "exchange" => exchange(ring, &mut changed_ring(rt, "right"), place_at(rt, about, 0)),
        "starts" => *startup = startup_of(rt, machine, number_at(rt, about, 0)),
        "spares" => *startup = startup_of(rt, machine, u64::MAX - number_at(rt, about, 0)),
        "fails" => {
            renew(rt, machine, startup, ring);
            expect_failure(rt, startup, ring, line);
        }
        "lost" => expect_trials(rt, machine, startup, ring, line.word, 300),
        "reset" | "fault" => expect_trials(rt, machine, startup, ring, line.word, 900),
        _ => expect_seen(rt, startup, ring, line),
    }
}

/// Takes the steps of all lines, in their order.
fn take_steps<'p>(
    rt: &(impl AllocGlobal + Abort),
    machine: &'p Machine,
    startup: &mut Startup<'p>,
    ring: &mut Ring,
    lines: &str,
) {
    for line in lines.lines() {
        take_step(rt, machine, startup, ring, &line_of(line));
    }
}

fn expect_steps_of(rt: &(impl AllocGlobal + Abort), machine: &Machine, lines: &str) {
    let mut startup = startup_of(rt, machine, 0);
    let mut ring = ring_of(rt, machine);
    take_steps(rt, machine, &mut startup, &mut ring, lines);
}

/// Takes steps with start-ups of the machine of a table.
pub fn expect_steps(rt: &(impl AllocGlobal + Abort), table: &str, lines: &str) {
    expect_steps_of(rt, &machine_of(rt, table), lines);
}

//! A run of a live segment: it waits until something comes, a payload or bytes of a line, and deals with that.
ghost use Rattle.std.specs.Prelude.{◌≡◌, ◌<◌, ◌≤◌, ◌+◌, ◌-◌, ◌^◌, ℕ, List, [], IfErr, OnErr, OnOk, Option, true};
ghost use Rattle.ec_lines.specs.Inputs.{bytes_left};
ghost use Rattle.ec_lines.specs.Taking.{TakesPart};
ghost use Rattle.ec_script.specs.Drafts.{empty_draft};
ghost use Rattle.ec_wire.specs.Wires.{WireState};
ghost use Rattle.ec_live.specs.Living.{LivesOn, RunState, begun};
ghost use Rattle.ec_live.specs.Stages.{AnswersOne, Closes, FitsLines, IsAt, KeepsAnswer, MeetsFault, MeetsSome, ObeysCut, ObeysSome, TurnsEnd, one_less_frame};

use crate::live::{Live, served_text};
use ec_console::{
    InputStream, LinePart, NextLine, OutputStream, Refusal, end_of, obey_taken, print_text,
    take_part,
};
use ec_frame::field::MAX_FRAME_LEN;
use ec_lines::LinesError;
use ec_script::Draft;
use ec_wire::{SocketFault, Trouble, Wire, listen_on, send_on};
use std::alloc::Global;
use std::io::{Read, Write};
use std::marker::Model;
use std::time::Duration;

/// Where the next bytes of a line come from.
#[derive(Clone, Copy, Debug, PartialEq, Eq, Drop)]
pub enum LineSource {
    /// They are there, read ahead.
    Ahead,
    /// They are to be waited for.
    Awaited,
    /// No more come: the input has ended.
    Ended,
}

/// What has come.
#[derive(Clone, Copy, Debug, PartialEq, Eq, Drop)]
pub enum Ready {
    /// A payload, or nothing: what seemed to come may be none.
    Frame,
    /// Bytes of a line, or the end of the input.
    Line,
    /// The patience for payloads is over.
    Over,
}

/// What waits at a segment's wire and at its input. No clause says what has come: the system knows that.
pub trait Watching {
    /// Waits until a payload or bytes of a line have come, or the patience is over. If both have come, it returns them in turn.
    ///
    /// # Errors
    ///
    /// `SocketFault` if the system refuses to wait.
    fn wait(&mut self, lines: LineSource) -> Result<Ready, SocketFault>;
}

/// A segment's wire, what waits at it, and how many payloads are to come: without end if that is `None`.
#[derive(Drop)]
pub struct Station<W: Wire + Drop, K: Watching + Drop> {
    pub wire: W,
    pub watch: K,
    pub frames: Option<u32>,
}

impl<W: Wire + Drop, K: Watching + Drop> Station<W, K> {
    /// How a run ends for which the patience is over.
    ///
    /// # Errors
    ///
    /// `Refusal::Socket` if more payloads were to come.
    fn close(&self) -> Result<(), Refusal>
        ensures { Closes self.now.frames result }
    {
        match self.frames {
            None => Ok(()),
            Some(_) => Err(Refusal::Socket(Trouble::Silence)),
        }
    }
}

/// The lines of an input so far: the bytes of one that isn't whole yet, the lines of a block that isn't, how many came, how often what they
/// expect wasn't so, and whether more may come.
#[derive(Drop)]
pub struct Lines {
    part: LinePart,
    draft: Draft,
    count: usize,
    unmet: u64,
    is_open: bool,
}

impl Model for Lines {
    ghost use Rattle.ec_live.specs.Stages.{LinesState};

    ghost Value = { LinesState };

    ghost view = { λ l. record { part = l.part; draft = l.draft; count = l.count; unmet = l.unmet; is_open = l.is_open } };
}

impl Lines {
    /// The lines of an input of which no line was taken.
    fn new(alloc: Global) -> Lines
        ensures { result ≡ record { part = []; draft = empty_draft; count = 0; unmet = 0; is_open = true } }
    {
        Lines {
            part: LinePart::new(alloc),
            draft: Draft::new(alloc),
            count: 0,
            unmet: 0,
            is_open: true,
        }
    }

    /// Where the next bytes of a line come from.
    fn source<R: Read + Drop>(&self, input: &InputStream<R>) -> LineSource {
        if !self.is_open {
            LineSource::Ended
        } else if input.is_ahead() {
            LineSource::Ahead
        } else {
            LineSource::Awaited
        }
    }
}

/// Runs a live segment: it answers frames and does lines, in the order in which they come; those of a block once it is whole. Behind each
/// line its text is printed. At the end it prints how many frames it answered, and how many other payloads came. It ends when all payloads
/// came, or when the patience for them is over. The end of the input, or a refused read of it, ends the lines alone.
///
/// # Errors
///
/// `Refusal::Socket` if a call of the wire was a fault, or the patience is over and more payloads were to come. `Refusal::Output` or
/// `Refusal::Memory` if a write or memory was refused. `Refusal::Unmet` if what lines expect isn't so.
pub fn print_live<W: Wire + Drop, K: Watching + Drop, R: Read + Drop, O: Write + Drop>(
    alloc: Global,
    live: &mut Live<'_>,
    station: &mut Station<W, K>,
    input: &mut InputStream<R>,
    output: &mut OutputStream<O>,
) -> Result<(), Refusal>
    ensures { LivesOn station.old.frames (begun live.old (W.state station.old.wire) (bytes_left R.remaining input.old) output.old)
        (bytes_left R.remaining input.new) output.new result }
{
    let mut lines = Lines::new(alloc);
    let ended = run_turns(alloc, live, station, &mut lines, input, output);
    let (answered, refused) = live.served();
    print_text(served_text(answered, refused).as_bytes(), output)?;
    ended?;
    end_of(lines.unmet)
}

/// Ends a live segment to which nothing came yet: prints its counts, and returns why it doesn't run.
///
/// # Errors
///
/// `Refusal::Socket` with what the system said, or `Refusal::Output` if the counts couldn't be printed.
pub fn print_unserved<O: Write + Drop>(
    live: &Live<'_>,
    fault: SocketFault,
    output: &mut OutputStream<O>,
) -> Result<(), Refusal>
    ensures { (frames : Option ℕ) (wire : WireState) (left : Option (List ℕ))
        → LivesOn frames (begun live.now wire left output.old) left output.new result }
{
    let (answered, refused) = live.served();
    print_text(served_text(answered, refused).as_bytes(), output)?;
    Err(fault.into())
}

/// Deals with what comes, one thing after another.
fn run_turns<W: Wire + Drop, K: Watching + Drop, R: Read + Drop, O: Write + Drop>(
    alloc: Global,
    live: &mut Live<'_>,
    station: &mut Station<W, K>,
    lines: &mut Lines,
    input: &mut InputStream<R>,
    output: &mut OutputStream<O>,
) -> Result<(), Refusal>
    requires { lines.old.count ≡ 0 }
    ensures { (s : RunState) → IsAt s live.old (W.state station.old.wire) lines.old (bytes_left R.remaining input.old) output.old
        → TurnsEnd station.old.frames s live.new (bytes_left R.remaining input.new) output.new lines.new.unmet result }
{
    for _ in 0..u64::MAX {
        if station.frames == Some(0) {
            return Ok(());
        }
        match station.watch.wait(lines.source(input))? {
            Ready::Frame => meet_one(live, station)?,
            Ready::Line => obey_part(alloc, live, lines, input, output)?,
            Ready::Over => return station.close(),
        }
    }
    station.close()
}

/// Receives a payload, if one has come, and sends the answer, if it has one.
fn meet_one<W: Wire + Drop, K: Watching + Drop>(
    live: &mut Live<'_>,
    station: &mut Station<W, K>,
) -> Result<(), SocketFault>
    ensures met { OnOk result (MeetsSome live.old live.new (W.state station.old.wire) (W.state station.new.wire)
        station.old.frames station.new.frames) }
    ensures cut { OnErr result (MeetsFault live.old live.new (W.state station.old.wire) (W.state station.new.wire)) }
{
    let mut buffer = [0; MAX_FRAME_LEN];
    let heard = listen_on(&mut station.wire, Duration::ZERO, &mut buffer)?;
    let Some(count) = heard else {
        return Ok(());
    };
    station.frames = one_less(station.frames);
    answer(live, &mut station.wire, &mut buffer[..count])
}

/// One payload less is to come, if their number is known.
fn one_less(frames: Option<u32>) -> Option<u32>
    ensures { result ≡ one_less_frame frames }
{
    match frames {
        None => None,
        Some(frames) => Some(frames.saturating_sub(1)),
    }
}

/// Meets a payload, and sends the answer, if it has one.
fn answer<W: Wire>(live: &mut Live<'_>, wire: &mut W, payload: &mut [u8]) -> Result<(), SocketFault>
    ensures sent { OnOk result (AnswersOne payload.old live.old live.new (W.state wire.old) (W.state wire.new)) }
    ensures unsent { OnErr result (KeepsAnswer payload.old live.old live.new (W.state wire.old) (W.state wire.new)) }
{
    if !live.meet(payload) {
        return Ok(());
    }
    if !send_on(wire, payload) {
        return Err(SocketFault(wire.trouble()));
    }
    Ok(())
}

/// Takes bytes of a line, and does what is due if the line is whole, or the input has ended.
fn obey_part<R: Read + Drop, O: Write + Drop>(
    alloc: Global,
    live: &mut Live<'_>,
    lines: &mut Lines,
    input: &mut InputStream<R>,
    output: &mut OutputStream<O>,
) -> Result<(), Refusal>
    requires { lines.old.count < 2 ^ 64 - 1 }
    ensures obeyed { OnOk result ((s : RunState) → s.live ≡ live.old → s.output ≡ output.old → FitsLines s lines.old (bytes_left R.remaining input.old)
        → ObeysSome s live.new lines.new (bytes_left R.remaining input.new) output.new) }
    ensures cut { IfErr result (λ refusal. (s : RunState) → s.live ≡ live.old → s.output ≡ output.old → FitsLines s lines.old (bytes_left R.remaining input.old)
        → ObeysCut s live.new output.new refusal) }
    ensures taken { TakesPart (bytes_left R.remaining input.old) (bytes_left R.remaining input.new) }
    ensures count { lines.new.count ≤ lines.old.count + 1 }
{
    if !lines.is_open {
        return Ok(());
    }
    match take_part(alloc, input, &mut lines.part) {
        Ok(None) => Ok(()),
        Ok(Some(taken)) => {
            lines.is_open = !matches!(&taken, NextLine::End);
            lines.count = lines.count.saturating_add(1);
            let unmet = obey_taken(alloc, live, &mut lines.draft, lines.count, taken, output)?;
            lines.unmet = lines.unmet.saturating_add(unmet);
            Ok(())
        }
        Err(LinesError::Unread) => {
            lines.is_open = false;
            Ok(())
        }
        Err(_) => Err(Refusal::Memory),
    }
}

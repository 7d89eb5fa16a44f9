//! A session whose frames you carry by hand.
ghost use Rattle.std.specs.Prelude.{◌≡◌, ◌≢◌, ◌≤◌, ◌<◌, ◌↔◌, Some, None, length, take, IsErr, IfErr, OnOk, OnErr};
ghost use Rattle.ec_cycle.specs.Closing.{ReportState};
ghost use Rattle.ec_cycle.specs.Master.{OpenCycle, Begun, IsClosed, IsTaken, begin_refusal, refused_by};
ghost use Rattle.ec_cycle.specs.declared.error.CycleError.TheVariants.{NotOpen};
ghost use Rattle.ec_start.specs.Laws.{HasSamePlan};
ghost use Rattle.ec_start.specs.Running.{IsStartTaken, asked, given_up, next_frame};
ghost use Rattle.ec_start.specs.declared.phase.NextFrame.TheVariants.{Send};
ghost use Rattle.ec_session.specs.Sessions.{IsCyclic, IsGiven, IsNextFrame, IsStarting, resumed};

use crate::session::{Session, make_ready};
use ec_cycle::{CycleError, Master};
use ec_frame::Frame;
use ec_frame::field::MAX_FRAME_LEN;
use ec_start::{NextFrame, Startup, Taken};

impl Session {
    /// Writes the next frame of the start-up into `room`, and returns its length in bytes. Returns 0 if a frame is
    /// outstanding, the start-up has ended Ready, or no number is left. After a failure the start-up begins again. Returns 0
    /// and changes nothing if `room` has less than 1472 bytes.
    pub fn next(&mut self, room: &mut [u8]) -> usize
        ensures short { length room.old < 1472 → (result ≡ 0) × (self.new ≡ self.old) }
        ensures state { 1472 ≤ length room.old → self.new ≡ record self.old { startup = asked (resumed self.old.startup) } }
        ensures frame { 1472 ≤ length room.old → next_frame (resumed self.old.startup) ≡ Send
            → IsNextFrame (resumed self.old.startup) (take result room.new) }
        ensures none { next_frame (resumed self.old.startup) ≢ Send → result ≡ 0 }
        ensures within { result ≤ length room.new }
    {
        if room.len() < MAX_FRAME_LEN {
            return 0;
        }
        write_next(&mut self.startup, room)
    }

    /// Takes a payload that came in. Returns whether it answers the outstanding frame of the start-up, or one of the open cycle. Once a
    /// start-up has ended Ready, only cycles take payloads.
    pub fn take(&mut self, payload: &[u8]) -> bool
        ensures { IsGiven self.old payload.now result self.new }
    {
        if self.master.is_ready() {
            self.take_cyclic(payload)
        } else {
            self.take_starting(payload)
        }
    }

    /// Ends a start-up that runs, as `Lost`: its answer is no longer awaited. An ended one stays as it is.
    pub fn give_up(&mut self)
        ensures { self.new ≡ record self.old { startup = given_up self.old.startup } }
    {
        self.startup.give_up();
    }

    /// Begins a cycle: makes one frame for each part, from the outputs as they are.
    ///
    /// # Errors
    ///
    /// The first that holds of `NotReady`, `Open` and `NumbersSpent`; nothing changes.
    pub fn begin(&mut self) -> Result<(), CycleError>
        ensures answer { result ≡ refused_by (begin_refusal self.old.master) }
        ensures begun { OnOk result ((c : OpenCycle) × Begun self.old.master self.new.master c) }
        ensures unchanged { OnErr result (self.new ≡ self.old) }
        ensures rest { self.new ≡ record self.old { master = self.new.master } }
    {
        self.master.begin()
    }

    /// Closes the cycle. What came of it is the report until the next cycle is closed.
    ///
    /// # Errors
    ///
    /// `NotOpen` if no cycle is open; nothing changes.
    pub fn close(&mut self) -> Result<(), CycleError>
        ensures not_open { IsErr result ↔ (self.old.master.cycle ≡ None) }
        ensures cause { IfErr result (λ e. e ≡ NotOpen) }
        ensures closed { OnOk result ((r : ReportState) × (self.new.report ≡ Some r) × IsClosed self.old.master self.new.master r) }
        ensures unchanged { OnErr result (self.new ≡ self.old) }
        ensures rest { self.new ≡ record self.old { master = self.new.master; report = self.new.report } }
    {
        let report = self.master.close()?;
        self.report = Some(report);
        Ok(())
    }

    /// Gives a payload to the master, and returns whether it was kept.
    fn take_cyclic(&mut self, payload: &[u8]) -> bool
        ensures { IsCyclic self.old payload.now result self.new }
    {
        take_cycle(&mut self.master, payload)
    }

    /// Gives a payload to the start-up, and returns whether it was kept. If the start-up is Ready then, the master becomes ready.
    fn take_starting(&mut self, payload: &[u8]) -> bool
        ensures { IsStarting self.old payload.now result self.new }
    {
        let is_accepted = take_start(&mut self.startup, payload);
        make_ready(&mut self.master, &self.startup);
        is_accepted
    }
}

/// Gives a payload to a master, and returns whether it was kept.
#[tactic(auto, using(crate::proofs::Plans::taken_plan))]
fn take_cycle(master: &mut Master<'_>, payload: &[u8]) -> bool
    ensures taken { IsTaken master.old payload.now result master.new }
    ensures plan { master.new.plan ≡ master.old.plan }
{
    match master.take(payload) {
        Taken::Accepted => true,
        Taken::Foreign => false,
    }
}

/// Gives a payload to a start-up, and returns whether it was kept.
#[tactic(auto, using(crate::proofs::Plans::take_plan))]
fn take_start(startup: &mut Startup<'_>, payload: &[u8]) -> bool
    ensures taken { IsStartTaken startup.old payload.now result startup.new }
    ensures plan { HasSamePlan startup.old startup.new }
{
    match startup.take(payload) {
        Taken::Accepted => true,
        Taken::Foreign => false,
    }
}

/// Writes the next frame of a start-up into `room`, and returns its length in bytes; 0 if there is none. A start-up that failed
/// begins again.
#[tactic(auto, using(crate::proofs::Plans::next_plan))]
fn write_next(startup: &mut Startup<'_>, room: &mut [u8]) -> usize
    requires { 1472 ≤ length room.old }
    ensures state { startup.new ≡ asked (resumed startup.old) }
    ensures plan { HasSamePlan startup.old startup.new }
    ensures frame { next_frame (resumed startup.old) ≡ Send → IsNextFrame (resumed startup.old) (take result room.new) }
    ensures none { next_frame (resumed startup.old) ≢ Send → result ≡ 0 }
    ensures within { result ≤ length room.new }
{
    resume(startup);
    let mut frame = Frame::new();
    match startup.next(&mut frame) {
        NextFrame::Send => {
            let count = frame.len();
            room[..count].copy_from_slice(frame.as_slice());
            count
        }
        NextFrame::Waiting | NextFrame::Ended => 0,
    }
}

/// Begins a start-up again if it failed.
fn resume(startup: &mut Startup<'_>)
    ensures { startup.new ≡ resumed startup.old }
{
    if startup.has_failed() {
        startup.restart();
    }
}

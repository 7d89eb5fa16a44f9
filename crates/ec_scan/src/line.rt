//! A wire over which a scan asks.
ghost use Rattle.std.specs.Prelude.{◌≡◌, ◌≤◌, ◌+◌, [], length, IfOk, None};
ghost use Rattle.ec_start.specs.Doable.{IsDoable};
ghost use Rattle.ec_scan.specs.Lines.{IsAnswered, IsFresh, IsHeard, Keeps, most_frames, slave_frames};
ghost use Rattle.ec_scan.specs.Scanning.{IsOfScan};

use ec_frame::field::MAX_FRAME_LEN;
use ec_frame::{Frame, read_counter, read_data};
use ec_start::{Action, StartError, answer_in, write_frame};
use ec_wire::{Pace, Wire, receive_on, send_on};
use std::marker::Model;

/// The most frames for one slave in each of its two turns: in INIT, and by CoE.
pub const SLAVE_FRAMES: u64 = 65_536;

/// The most frames of a scan.
pub const MOST_FRAMES: u64 = 4_096 + 128 * SLAVE_FRAMES;

/// The most frames before the first slave is begun.
const FIRST_FRAMES: u64 = 4_096;

/// The most payloads that are received for one frame.
const MAX_FOREIGN: usize = 64;

/// How often a wait is polled at most.
pub(crate) const MAX_POLLS: u16 = 1000;

/// A wire, and what a scan has asked over it. It sends frames of a scan alone, and at most [`MOST_FRAMES`].
#[derive(Drop)]
pub struct Line<W: Wire + Drop, P: Pace + Drop> {
    wire: W,
    pace: P,
    number: u64,
    left: u64,
    // the data of the datagram that came back last
    answer: Frame,
    // the action whose frame was sent last
    asked: Option<Action>,
}

impl<W: Wire + Drop, P: Pace + Drop> Model for Line<W, P> {
    ghost use Rattle.ec_scan.specs.Lines.{IsOnLine, LineState};

    ghost Value = { LineState };

    ghost view = { λ l. record { wire = W.state l.wire; number = l.number; left = l.left; answer = l.answer.items; asked = l.asked } };

    ghost invariant = { λ l. IsOnLine (W.state l.wire) l.number l.left l.answer.items };
}

impl<W: Wire + Drop, P: Pace + Drop> Line<W, P> {
    /// A line over a wire that has sent nothing, at a pace between polls.
    pub fn new(wire: W, pace: P) -> Line<W, P>
        requires { IsFresh (W.state wire).sent }
        ensures { result ≡ record { wire = W.state wire; number = 0; left = 4096; answer = []; asked = None } }
    {
        Line {
            wire,
            pace,
            number: 0,
            left: FIRST_FRAMES,
            answer: Frame::new(),
            asked: None,
        }
    }

    /// The data of the datagram that came back last.
    pub(crate) fn answer(&self) -> &[u8]
        ensures { result.now ≡ self.now.answer }
    {
        self.answer.as_slice()
    }

    /// The number of the next frame, which is also how many were sent.
    pub fn number(&self) -> u64
        ensures value { result ≡ self.now.number }
        ensures few { result ≤ most_frames }
    {
        self.number
    }

    /// The action that was asked last, whether or not its frame came back; `None` before the first. INIT at the end isn't counted.
    pub fn asked(&self) -> Option<Action>
        ensures { result ≡ self.now.asked }
    {
        self.asked
    }

    /// Returns the wire.
    pub fn into_wire(self) -> W
        ensures { W.state result ≡ self.wire }
    {
        let Line { wire, .. } = self;
        wire
    }

    /// Begins the next turn: it may take [`SLAVE_FRAMES`] frames, as far as a scan has them left.
    pub(crate) fn begin_turn(&mut self)
        ensures wire { self.new.wire ≡ self.old.wire }
        ensures number { self.new.number ≡ self.old.number }
        ensures few { self.new.left ≤ slave_frames }
    {
        self.left = SLAVE_FRAMES.min(MOST_FRAMES - self.number);
    }

    /// Asks all slaves for INIT, in a turn of its own, by a frame at most, and leaves what was asked last.
    pub(crate) fn dismiss(&mut self)
        ensures asked { self.new.asked ≡ self.old.asked }
        ensures forward { self.old.number ≤ self.new.number }
        ensures one { self.new.number ≤ self.old.number + 1 }
        ensures kept { Keeps self.old.wire self.new.wire }
    {
        let asked = self.asked;
        self.begin_turn();
        let _ = self.ask(&Action::AskInit);
        self.asked = asked;
    }

    /// Sends the frame of an action, and returns the working counter with which it came back. Its data are then the answer of the line.
    ///
    /// # Errors
    ///
    /// `Lost` if a call of the wire was a fault or 64 payloads came that don't answer, `TooSlow` if no frame is left.
    #[tactic(auto, using(crate::proofs::LineLemmas::unsent_online, crate::proofs::KeptLemmas::kept, crate::proofs::KeptLemmas::kept_by, crate::proofs::KeptLemmas::kept_on))]
    pub(crate) fn ask(&mut self, action: &Action) -> Result<u16, StartError>
        requires doable { IsDoable action.now }
        requires of_scan { IsOfScan action.now }
        ensures answered { IfOk result (IsAnswered action.now self.old self.new) }
        ensures forward { self.old.number ≤ self.new.number }
        ensures one { self.new.number ≤ self.old.number + 1 }
        ensures kept { Keeps self.old.wire self.new.wire }
    {
        if self.left == 0 {
            return Err(self.too_slow());
        }
        let number = self.number;
        let mut frame = Frame::new();
        write_frame(action, number, &mut frame);
        self.pace.before(&frame);
        self.asked = Some(*action);
        self.left -= 1;
        self.number += 1;
        if !send_on(&mut self.wire, frame.as_slice()) {
            return Err(StartError::Lost);
        }
        self.hear(action, number)
    }

    /// Sends the frame of an action that must come back with this working counter.
    ///
    /// # Errors
    ///
    /// Those of [`Line::ask`], and `Counter` if the working counter is another.
    pub(crate) fn ask_counted(&mut self, action: &Action, counter: u16) -> Result<(), StartError>
        requires doable { IsDoable action.now }
        requires of_scan { IsOfScan action.now }
        ensures { IfOk result (λ _. IsAnswered action.now self.old self.new counter) }
    {
        let step = self.step();
        if self.ask(action)? == counter {
            Ok(())
        } else {
            Err(StartError::Counter { step })
        }
    }

    /// The error of a wait that isn't over.
    pub(crate) fn too_slow(&self) -> StartError {
        StartError::TooSlow { step: self.step() }
    }

    /// The number of the next frame, as errors have it.
    fn step(&self) -> usize {
        self.number as usize
    }

    /// Receives until a payload answers the frame of an action with a number.
    #[tactic(auto, using(crate::proofs::LineLemmas::heard_online, crate::proofs::KeptLemmas::kept, crate::proofs::KeptLemmas::kept_by, crate::proofs::KeptLemmas::kept_on))]
    fn hear(&mut self, action: &Action, number: u64) -> Result<u16, StartError>
        requires { IsDoable action.now }
        ensures heard { IfOk result (IsHeard action.now number self.new) }
        ensures number { self.new.number ≡ self.old.number }
        ensures left { self.new.left ≡ self.old.left }
        ensures asked { self.new.asked ≡ self.old.asked }
        ensures kept { Keeps self.old.wire self.new.wire }
    {
        let mut buffer = [0; MAX_FRAME_LEN];
        for _ in 0..MAX_FOREIGN {
            let Some(count) = receive_on(&mut self.wire, &mut buffer) else {
                return Err(StartError::Lost);
            };
            if let Some(part) = answer_in(&buffer[..count], action, number) {
                let content = read_data(part);
                let size = action.data_length().min(content.len());
                self.keep(&content[..size]);
                return Ok(read_counter(part));
            }
        }
        Err(StartError::Lost)
    }

    /// Keeps the data of a datagram.
    fn keep(&mut self, content: &[u8])
        requires { length content.now ≤ 1422 }
        ensures { self.new ≡ record self.old { answer = content.now } }
    {
        self.answer.clear();
        let _ = self.answer.try_extend_from_slice(content);
    }
}

//! AL states that are asked for by hand.
ghost use Rattle.std.specs.Prelude.{◌≡◌, ◌≤◌, ◌<◌, None, length, replicate, take};
ghost use Rattle.ec_frame.specs.Building.{bare_payload};
ghost use Rattle.ec_frame.specs.Frame.{IsFrame};
ghost use Rattle.ec_asking.specs.Questions.{question_frame};
ghost use Rattle.ec_asking.specs.declared.question.Question.TheVariants.{Status};
ghost use Rattle.ec_handles.specs.Statuses.{TakesStatus, next_count, state_result, status_asked, status_said, told_of};

use ec_asking::{AlStatus, Question, take_answer, write_question};
use ec_frame::Frame;

/// The most slaves that a table has.
const MAX_SLAVES: usize = 64;

/// The questions for AL states, and what the last answers said.
#[derive(Drop)]
pub struct Statuses {
    /// The number of the last question; 0 follows 65535.
    pub count: u16,
    /// The slave that it is for, until its answer comes.
    pub asked: Option<usize>,
    /// What the last answer said of each slave that a table can have.
    pub said: [Option<AlStatus>; MAX_SLAVES],
}

/// Whether an answer told the AL state of a slave, and else 0: the AL status word and the AL status code.
#[repr(C)]
#[derive(Clone, Copy, Drop)]
pub struct Told {
    pub is_known: bool,
    pub word: u16,
    pub code: u16,
}

impl Statuses {
    /// Nothing was asked yet.
    pub fn new() -> Statuses
        ensures asked { result.asked ≡ None }
        ensures said { result.said ≡ replicate 64 None }
    {
        Statuses {
            count: 0,
            asked: None,
            said: [None; MAX_SLAVES],
        }
    }

    /// Writes the next question, for the AL state of a slave, into `room`, and returns its length in bytes. An answer to the question
    /// before it is foreign from now on.
    pub fn ask(&mut self, slave: usize, room: &mut [u8]) -> usize
        requires there { slave < 64 }
        requires long { 1472 ≤ length room.old }
        ensures state { self.new ≡ status_asked self.old slave }
        ensures frame { IsFrame (take result room.new) (bare_payload (question_frame (Status slave) (next_count self.old))) }
    {
        self.count = self.count.wrapping_add(1);
        self.asked = Some(slave);
        let mut frame = Frame::new();
        write_question(Question::Status(slave), self.count, &mut frame);
        let count = frame.len();
        room[..count].copy_from_slice(frame.as_slice());
        count
    }

    /// Takes a payload that came in. Returns whether it answers the last question, and keeps what it says then. Few payloads do, so
    /// that the others don't wait for it.
    #[cold]
    #[inline(never)]
    pub fn take(&mut self, payload: &[u8]) -> bool
        ensures { TakesStatus self.old payload.now result self.new }
    {
        let Some(slave) = self.asked else {
            return false;
        };
        match take_answer(payload, Question::Status(slave), self.count) {
            Some(said) => {
                self.keep(slave, said);
                true
            }
            None => false,
        }
    }

    /// What the last answer said of a slave.
    pub fn told(&self, slave: usize) -> Told
        ensures { result ≡ state_result (told_of self.now slave) }
    {
        if slave >= self.said.len() {
            return told_by(None);
        }
        told_by(self.said[slave])
    }

    /// Keeps what the answer to the last question says of a slave.
    #[tactic(auto, using(std::proofs::lemmas::List::set_past))]
    fn keep(&mut self, slave: usize, said: Option<AlStatus>)
        ensures { self.new ≡ status_said self.old slave said }
    {
        self.asked = None;
        if slave < self.said.len() {
            self.said[slave] = said;
        }
    }
}

/// What an answer says, as C sees it.
fn told_by(said: Option<AlStatus>) -> Told
    ensures { result ≡ state_result said }
{
    match said {
        Some(said) => Told {
            is_known: true,
            word: said.word,
            code: said.code,
        },
        None => Told {
            is_known: false,
            word: 0,
            code: 0,
        },
    }
}

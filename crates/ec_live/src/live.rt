//! A segment that answers frames and obeys lines, as a value.
ghost use Rattle.std.specs.Prelude.{◌≡◌, ◌∷◌, [], ℕ, List, IfOk, OnErr, false, if◌then◌else◌, slice_get, string_bytes, true};
ghost use Rattle.ec_console.specs.Unmet.{unmet_of};
ghost use Rattle.ec_live.specs.Doing.{SaysAction, Tells, TellsServed, is_output, is_seen, served_line};
ghost use Rattle.ec_live.specs.Meeting.{DropsIt, Meets};
ghost use Rattle.ec_live.specs.Stages.{IsReturned};
ghost use Rattle.ec_live.specs.State.{IsNewLive};

use crate::cyclic::cyclic_part;
use crate::drops::Drops;
use crate::why::Why;
use arrayvec::ArrayString;
use cmd_sim::Simulation;
use ec_console::{Manner, Said, Target};
use ec_frame::check;
use ec_link::Machine;
use ec_script::{Expectation, LineAction, LineOutput, Step};
use ec_table::{Direction, Table};
use ec_text::push_number;
use ec_world::{Unwatched, World};
use std::alloc::{AllocError, Global};
use std::marker::Model;

/// The most bytes of the line that says what was served.
const LINE_SIZE: usize = 80;

/// Slaves that frames of a master elsewhere move, and lines as the plant does. Lines also drop frames.
#[derive(Drop)]
pub struct Live<'m> {
    simulation: Simulation<'m, Unwatched>,
    drops: Drops,
    answered: u64,
    refused: u64,
}

impl<'m> Model for Live<'m> {
    ghost use Rattle.ec_live.specs.State.{LiveState};

    ghost Value = { LiveState };

    ghost view = { λ l. record {
      world = l.simulation.world;
      table = l.simulation.table;
      manner = l.simulation.manner;
      drops = l.drops;
      answered = l.answered;
      refused = l.refused;
    } };
}

impl<'m> Live<'m> {
    /// The slaves of a machine, just switched on. Nothing came, and no frame is dropped.
    ///
    /// # Errors
    ///
    /// `AllocError` if there is no memory.
    pub fn new(alloc: Global, machine: &'m Machine, manner: Manner) -> Result<Live<'m>, AllocError>
        ensures { IfOk result (IsNewLive machine.now manner) }
    {
        let world = World::of_machine(alloc, machine)?;
        let drops = Drops::new(alloc, world.plan().parts().len())?;
        Ok(Live {
            simulation: Simulation::new(world, machine, manner, Unwatched),
            drops,
            answered: 0,
            refused: 0,
        })
    }

    /// How many frames were answered, and how many payloads that are no frames came.
    pub fn served(&self) -> (u64, u64)
        ensures answered { result.0 ≡ self.now.answered }
        ensures refused { result.1 ≡ self.now.refused }
    {
        (self.answered, self.refused)
    }

    /// Meets a payload. A frame passes all slaves, and then each makes a firmware step, unless it is dropped. Returns whether there is an
    /// answer, which stands in `payload` then.
    pub fn meet(&mut self, payload: &mut [u8]) -> bool
        ensures { Meets self.old payload.old self.new (if result then payload.new ∷ [] else []) }
    {
        if self.drops_frame(payload) {
            return false;
        }
        if self.simulation.carry(payload) {
            self.answered = self.answered.saturating_add(1);
            return true;
        }
        self.refused = self.refused.saturating_add(1);
        false
    }

    /// Whether a payload is a frame that is dropped. It is counted then.
    fn drops_frame(&mut self, payload: &[u8]) -> bool
        ensures dropped { result ≡ true → DropsIt self.old payload.now self.new [] }
        ensures same { result ≡ false → self.new ≡ self.old }
        ensures kept { result ≡ false → IsReturned self.old payload.now }
    {
        if !self.drops.is_pending() {
            return false;
        }
        if check(payload).is_err() {
            return false;
        }
        let part = cyclic_part(self.simulation.plan().parts(), payload);
        self.drops.count(part)
    }

    /// What a step says by the output of its action.
    ///
    /// # Errors
    ///
    /// `AllocError` if there is no memory for its text.
    fn tell(&self, alloc: Global, step: &Step, said: LineOutput) -> Result<Said, AllocError>
        ensures { IfOk result (λ told. Tells said self.now step.now self.now (string_bytes told.text) (unmet_of told.is_unmet)) }
    {
        let answer = said.answer(step.expects_no);
        let parts = self.simulation.plan().parts().len();
        let words = format!(in alloc; "{}", Why { step: *step, parts })?;
        let text = self
            .simulation
            .text_with(alloc, step.number, answer, words.as_str())?;
        let outcome = self.simulation.outcome();
        let is_unmet = answer.is_counted(self.simulation.manner().strict, outcome);
        Ok(Said { text, is_unmet })
    }

    /// How many frames were answered, and how many other payloads came; or, if that isn't expected, that it is so.
    ///
    /// # Errors
    ///
    /// `AllocError` if there is no memory for its text.
    fn tell_served(&self, alloc: Global, step: &Step) -> Result<Said, AllocError>
        ensures { IfOk result (λ told. TellsServed step.now.expects_no self.now step.now self.now (string_bytes told.text) (unmet_of told.is_unmet)) }
    {
        if step.expects_no {
            return self.tell(alloc, step, LineOutput::Nothing);
        }
        let text = served_text(self.answered, self.refused);
        Ok(Said {
            text: String::from_str(alloc, text.as_str())?,
            is_unmet: false,
        })
    }

    /// Drops so many of the next frames, and returns what the step says.
    fn drop_next(&mut self, alloc: Global, step: &Step, count: usize) -> Result<Said, AllocError>
        ensures said { IfOk result (λ said. SaysAction (LineAction.Lose count) self.old step.now self.new (string_bytes said.text) (unmet_of said.is_unmet)) }
        ensures unsaid { OnErr result ((text : List ℕ) × (unmet : ℕ) × SaysAction (LineAction.Lose count) self.old step.now self.new text unmet) }
        ensures table { self.new.table ≡ self.old.table }
    {
        self.drops.drop_next(count as u64);
        self.tell(alloc, step, LineOutput::Nothing)
    }

    /// Drops so many of the next cyclic frames of a part, and returns what the step says.
    fn drop_part(
        &mut self,
        alloc: Global,
        step: &Step,
        count: usize,
        part: usize,
    ) -> Result<Said, AllocError>
        ensures said { IfOk result (λ said. SaysAction (LineAction.LosePart count part) self.old step.now self.new (string_bytes said.text) (unmet_of said.is_unmet)) }
        ensures unsaid { OnErr result ((text : List ℕ) × (unmet : ℕ) × SaysAction (LineAction.LosePart count part) self.old step.now self.new text unmet) }
        ensures table { self.new.table ≡ self.old.table }
    {
        if self.drops.drop_part(count as u64, part) {
            return self.tell(alloc, step, LineOutput::Nothing);
        }
        self.tell(alloc, step, LineOutput::No)
    }
}

impl Target for Live<'_> {
    ghost use Rattle.ec_live.specs.Doing.{SaysLive, takes_action};

    ghost table = { λ l. l.table };

    ghost takes = { takes_action };

    ghost manner = { λ l. l.manner };

    ghost says = { SaysLive };

    fn table(&self) -> &Table {
        self.simulation.table()
    }

    fn takes(&self, action: LineAction) -> bool {
        match action {
            LineAction::Expect(expected) => is_seen(self.simulation.table(), expected),
            LineAction::Input(_, _)
            | LineAction::Never(_)
            | LineAction::Put(_, _, _)
            | LineAction::Get(_, _)
            | LineAction::Fail(_)
            | LineAction::Reset(_)
            | LineAction::Output(_)
            | LineAction::Lose(_)
            | LineAction::LosePart(_, _)
            | LineAction::Served => true,
            LineAction::Start
            | LineAction::Set(_, _)
            | LineAction::Begin
            | LineAction::Pass(_)
            | LineAction::Return(_)
            | LineAction::Close
            | LineAction::Serve(_)
            | LineAction::Ready
            | LineAction::Cycle
            | LineAction::Within(_, _)
            | LineAction::Show
            | LineAction::ShowVariable(_)
            | LineAction::States
            | LineAction::Stop
            | LineAction::Report => false,
        }
    }

    fn manner(&self) -> Manner {
        self.simulation.manner()
    }

    fn obey(&mut self, alloc: Global, step: &Step) -> Result<Said, AllocError> {
        match step.action {
            LineAction::Lose(count) => self.drop_next(alloc, step, count),
            LineAction::LosePart(count, part) => self.drop_part(alloc, step, count, part),
            LineAction::Served => self.tell_served(alloc, step),
            _ => self.simulation.obey(alloc, step),
        }
    }
}

/// The line that says how many frames were answered, and how many other payloads came.
pub fn served_text(answered: u64, refused: u64) -> ArrayString<LINE_SIZE>
    ensures { result.bytes ≡ served_line answered refused }
{
    let mut line = ArrayString::new();
    line.push_str("served ");
    push_number(&mut line, answered);
    line.push_str(" refused ");
    push_number(&mut line, refused);
    line.push_str("\n");
    line
}

/// Whether a live segment can see what is expected.
fn is_seen(table: &Table, expected: Expectation) -> bool
    ensures { result ≡ is_seen table.now.variables expected }
{
    match expected {
        Expectation::Is(variable, _)
        | Expectation::Holds(variable, _)
        | Expectation::Never(variable) => is_output(table, variable),
        Expectation::State(_, _, _) => true,
        Expectation::Units(_)
        | Expectation::Unit(_, _)
        | Expectation::Ready
        | Expectation::Failed(_) => false,
    }
}

/// Whether the variable at a place is an output.
fn is_output(table: &Table, place: usize) -> bool
    ensures { result ≡ is_output (slice_get table.now.variables place) }
{
    match table.variables().get(place) {
        Some(row) => match row.direction {
            Direction::Out => true,
            Direction::In => false,
        },
        None => false,
    }
}

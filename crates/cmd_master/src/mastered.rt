//! A master over a wire, which lines move: the actions that it takes, what they do to it, and what they print.
ghost use Rattle.std.specs.Prelude.{◌≡◌, IfOk, None, replicate, slice_get, string_bytes};
ghost use Rattle.ec_script.specs.declared.expectation.Expectation.TheVariants.{State as InState};
ghost use Rattle.ec_script.specs.declared.line.LineAction.TheVariants.{Cycle, Expect, Ready, Set, States, Stop, Within};
ghost use Rattle.ec_text.specs.InputText.{value_of_variable};
ghost use Rattle.ec_script.specs.Expecting.{is_met};
ghost use Rattle.ec_script.specs.Outputs.{output_if};
ghost use Rattle.cmd_master.specs.Doing.{Does, is_in_state, last_report, output_of_read, output_of_run, output_of_stop, view_of};
ghost use Rattle.cmd_master.specs.Mastering.{begun_over};
ghost use Rattle.cmd_master.specs.Saying.{is_reasoned, plain_text};
ghost use Rattle.cmd_master.specs.Stages.{IsLineText, IsReasonedText};
ghost use Rattle.cmd_master.specs.Taking.{is_input, is_observable};

use crate::why::Why;
use ec_al::State;
use ec_console::{Manner, Said, Target};
use ec_diagnostic::reason_line;
use ec_link::Machine;
use ec_script::{
    Expectation, LineAction, LineOutput, MasterView, Step, is_failed, is_met, output_text,
};
use ec_session::{AlStatus, Session};
use ec_table::{Direction, Table};
use ec_text::value_of;
use ec_wire::{RunError, SocketFault, Trouble, Wire};
use std::alloc::{AllocError, Global};
use std::marker::Model;
use std::time::Clock;

/// A master over a wire, which lines move. It owns its session and its wire, and a clock measures how long it waits and rests. `manner`
/// says how it takes lines.
#[derive(Drop)]
pub struct Mastered<'c, W: Wire + Drop, C: Clock> {
    pub(crate) session: Session,
    pub(crate) wire: W,
    pub(crate) manner: Manner,
    // what the slaves said of their AL states when they were read last
    pub(crate) states: Vec<Option<AlStatus>>,
    // what the slave said whose AL state was expected last; words alone have it
    pub(crate) told: Option<AlStatus>,
    pub(crate) clock: &'c C,
}

impl<'c, W: Wire + Drop, C: Clock> Model for Mastered<'c, W, C> {
    ghost use Rattle.cmd_master.specs.State.{MasteredState};

    ghost Value = { MasteredState };

    ghost view = { λ m. record { session = m.session; wire = W.state m.wire; manner = m.manner; states = m.states.items } };
}

impl<'c, W: Wire + Drop, C: Clock> Mastered<'c, W, C> {
    /// A master of a machine over a wire, before its first start-up. All variables are 0.
    ///
    /// # Errors
    ///
    /// `AllocError` if memory ran out.
    pub fn new(
        alloc: Global,
        clock: &'c C,
        machine: Machine,
        wire: W,
        manner: Manner,
    ) -> Result<Mastered<'c, W, C>, AllocError>
        ensures { IfOk result (λ m. m ≡ begun_over manner machine (W.state wire)) }
    {
        let states = nothing_read(alloc, machine.table().slaves().len())?;
        Ok(Mastered {
            session: Session::new(alloc, machine)?,
            wire,
            manner,
            states,
            told: None,
            clock,
        })
    }

    /// Does an action once, and returns its output. It allocates nothing. If a cycle ends with [`LineOutput::Fault`], only the number of the
    /// next one has changed.
    fn act(&mut self, action: LineAction) -> LineOutput
        ensures { Does action self.old self.new result }
    {
        match action {
            LineAction::Ready => self.bring_up(),
            LineAction::Cycle => self.run_cycle(),
            LineAction::Set(variable, value) => self.set(variable, value),
            LineAction::States => self.read_states(),
            LineAction::Stop => self.stop(),
            LineAction::Expect(expected) => self.expect(expected),
            LineAction::Within(times, expected) => self.wait_until(times, expected),
            LineAction::Show => LineOutput::Values,
            LineAction::ShowVariable(variable) => self.show_variable(variable),
            LineAction::Report => self.last_report(),
            LineAction::Never(_)
            | LineAction::Start
            | LineAction::Begin
            | LineAction::Pass(_)
            | LineAction::Lose(_)
            | LineAction::LosePart(_, _)
            | LineAction::Return(_)
            | LineAction::Close
            | LineAction::Serve(_)
            | LineAction::Put(_, _, _)
            | LineAction::Get(_, _)
            | LineAction::Fail(_)
            | LineAction::Reset(_)
            | LineAction::Input(_, _)
            | LineAction::Output(_)
            | LineAction::Served => LineOutput::No,
        }
    }

    /// Sets all outputs to 0 and runs a start-up over the wire, from its beginning.
    fn bring_up(&mut self) -> LineOutput
        ensures { Does Ready self.old self.new result }
    {
        self.session.clear_outputs();
        self.session.bring_up_resting(&mut self.wire, self.clock);
        LineOutput::Ended
    }

    /// Runs a cycle over the wire. `No`, and nothing changes, if the last start-up didn't end Ready or no number is left.
    fn run_cycle(&mut self) -> LineOutput
        ensures { Does Cycle self.old self.new result }
    {
        output_of_run(self.session.run_lossy_cycle(&mut self.wire, self.clock))
    }

    /// Reads the AL states of all slaves. `Fault` if the wire had one.
    fn read_states(&mut self) -> LineOutput
        ensures { Does States self.old self.new result }
    {
        let read = self
            .session
            .read_states(&mut self.wire, self.clock, &mut self.states);
        output_of_read(read)
    }

    /// Stops the machine. `No`, and nothing changes, if no cycle can be run.
    fn stop(&mut self) -> LineOutput
        ensures { Does Stop self.old self.new result }
    {
        output_of_stop(self.session.stop(&mut self.wire, self.clock))
    }

    /// Reads the AL state of a slave. `Nothing` if it is in this state, and shows this code if one is given, else `Unmet`.
    fn expect_state(&mut self, slave: usize, state: State, code: Option<u16>) -> LineOutput
        ensures { Does (Expect (InState slave state code)) self.old self.new result }
    {
        let told = self.session.read_status(&mut self.wire, self.clock, slave);
        self.told = said_of(told);
        LineOutput::of_expectation(is_in_state(state, code, told))
    }

    /// Sets an output variable to a value. `No`, and nothing changes, if it is no output or can't hold the value.
    fn set(&mut self, variable: usize, value: u64) -> LineOutput
        ensures { Does (Set variable value) self.old self.new result }
    {
        if !self.session.set(variable, value) {
            return LineOutput::No;
        }
        LineOutput::Nothing
    }

    /// Runs cycles until an expectation holds, at most so many. It is looked at before the first and behind each. A cycle that isn't done is
    /// the last. `Unmet` if the expectation doesn't hold then.
    fn wait_until(&mut self, times: u32, expected: Expectation) -> LineOutput
        ensures { Does (Within times expected) self.old self.new result }
    {
        for _ in 0..times {
            let seen = self.expect(expected);
            if !seen.is_unmet() {
                return seen;
            }
            if !self.run_cycle().is_done() {
                return LineOutput::Unmet;
            }
        }
        self.expect(expected)
    }

    /// The output of `show` with a name: a variable and its value in the process image.
    fn show_variable(&self, variable: usize) -> LineOutput
        ensures { result ≡ LineOutput.Value variable (value_of_variable self.now.session.master variable) }
    {
        LineOutput::Value(variable, value_of(self.session.master(), variable))
    }

    /// `Nothing` if what is expected holds, else `Unmet`. If it is an AL state of a slave, that is read.
    fn expect(&mut self, expected: Expectation) -> LineOutput
        ensures { Does (Expect expected) self.old self.new result }
    {
        match expected {
            Expectation::State(slave, state, code) => self.expect_state(slave, state, code),
            _ => self.expect_here(expected),
        }
    }

    /// `Nothing` if the session by itself shows what is expected, else `Unmet`.
    fn expect_here(&self, expected: Expectation) -> LineOutput
        ensures { result ≡ output_if (is_met expected (view_of self.now.session)) }
    {
        LineOutput::of_expectation(is_met(&view_of(&self.session), expected))
    }

    /// The output of `report`: the last report, or `No` before the first one.
    fn last_report(&self) -> LineOutput
        ensures { result ≡ last_report self.now.session.report }
    {
        match self.session.report() {
            None => LineOutput::No,
            Some(_) => LineOutput::Report,
        }
    }
}

impl<W: Wire + Drop, C: Clock> Target for Mastered<'_, W, C> {
    ghost use Rattle.cmd_master.specs.Mastering.{manner_in};
    ghost use Rattle.cmd_master.specs.Saying.{SaysLine};
    ghost use Rattle.cmd_master.specs.Taking.{takes_action};

    ghost table = { λ m. m.session.table };

    ghost takes = { takes_action };

    ghost manner = { manner_in };

    ghost says = { SaysLine };

    fn table(&self) -> &Table {
        self.session.table()
    }

    fn takes(&self, action: LineAction) -> bool {
        match action {
            LineAction::Expect(expected) | LineAction::Within(_, expected) => {
                is_observable(self.session.table(), expected)
            }
            LineAction::Set(_, _)
            | LineAction::Never(_)
            | LineAction::Ready
            | LineAction::Cycle
            | LineAction::Show
            | LineAction::ShowVariable(_)
            | LineAction::Report
            | LineAction::States
            | LineAction::Stop => true,
            LineAction::Start
            | LineAction::Begin
            | LineAction::Pass(_)
            | LineAction::Lose(_)
            | LineAction::LosePart(_, _)
            | LineAction::Return(_)
            | LineAction::Close
            | LineAction::Serve(_)
            | LineAction::Put(_, _, _)
            | LineAction::Get(_, _)
            | LineAction::Fail(_)
            | LineAction::Reset(_)
            | LineAction::Input(_, _)
            | LineAction::Output(_)
            | LineAction::Served => false,
        }
    }

    fn manner(&self) -> Manner {
        self.manner
    }

    fn obey(&mut self, alloc: Global, step: &Step) -> Result<Said, AllocError> {
        let output = self.act(step.action);
        let answer = output.answer(step.expects_no);
        let why = Why {
            session: &self.session,
            step: *step,
            output: answer,
            trouble: trouble_of(&self.wire),
            told: self.told,
        };
        let text = said_text(alloc, &why, &self.states, self.manner, step.number)?;
        Ok(Said {
            text,
            is_unmet: answer.is_counted(self.manner.strict, self.session.outcome()),
        })
    }
}

/// Why the last call of a wire that was a fault was one; none if no call was.
fn trouble_of<W: Wire>(wire: &W) -> Option<Trouble> {
    if wire.failures() == 0 {
        return None;
    }
    Some(wire.trouble())
}

/// The output of a cycle.
fn output_of_run(ran: Result<(), RunError>) -> LineOutput
    ensures { result ≡ output_of_run ran }
{
    match ran {
        Ok(()) => LineOutput::Report,
        Err(RunError::Wire) => LineOutput::Fault,
        Err(RunError::Refused(_)) => LineOutput::No,
    }
}

/// The output of `stop`: nothing, unless the wire had a fault or no cycle could be run.
fn output_of_stop(stopped: Result<(), RunError>) -> LineOutput
    ensures { result ≡ output_of_stop stopped }
{
    match stopped {
        Ok(()) => LineOutput::Nothing,
        Err(RunError::Wire) => LineOutput::Fault,
        Err(RunError::Refused(_)) => LineOutput::No,
    }
}

/// The output of `states`: what was read, or that the wire had a fault.
fn output_of_read(read: Result<(), SocketFault>) -> LineOutput
    ensures { result ≡ output_of_read read }
{
    match read {
        Ok(()) => LineOutput::States,
        Err(_) => LineOutput::Fault,
    }
}

/// What a slave said of its AL state, if it answered.
fn said_of(told: Result<Option<AlStatus>, SocketFault>) -> Option<AlStatus> {
    match told {
        Ok(told) => told,
        Err(_) => None,
    }
}

/// Whether a slave said that it is in a state, and this code if one is given.
fn is_in_state(state: State, code: Option<u16>, told: Result<Option<AlStatus>, SocketFault>) -> bool
    ensures { result ≡ is_in_state state code told }
{
    match told {
        Ok(Some(status)) => {
            status.word % 16 == state.number() && code.is_none_or(|code| status.code == code)
        }
        Ok(None) | Err(_) => false,
    }
}

/// Whether a master over a wire can see what is expected.
fn is_observable(table: &Table, expected: Expectation) -> bool
    ensures { result ≡ is_observable table.now.variables expected }
{
    match expected {
        Expectation::Is(variable, _)
        | Expectation::Holds(variable, _)
        | Expectation::Never(variable) => is_input(table, variable),
        Expectation::State(_, _, _)
        | Expectation::Units(_)
        | Expectation::Unit(_, _)
        | Expectation::Ready
        | Expectation::Failed(_) => true,
    }
}

/// Whether the variable at a place is an input.
fn is_input(table: &Table, place: usize) -> bool
    ensures { result ≡ is_input (slice_get table.now.variables place) }
{
    match table.variables().get(place) {
        Some(row) => match row.direction {
            Direction::Out => false,
            Direction::In => true,
        },
        None => false,
    }
}

/// The text that line `number` prints for its output, by the session behind it. With reasons, behind that stands why the line can't be
/// done or has failed.
///
/// # Errors
///
/// `AllocError` if memory ran out.
fn said_text(
    alloc: Global,
    why: &Why<'_>,
    states: &[Option<AlStatus>],
    manner: Manner,
    number: usize,
) -> Result<String, AllocError>
    ensures { IfOk result (λ text. IsLineText manner why.now.session.now states.now number why.now.output (string_bytes text)) }
{
    if is_reasoned(manner, why.session, why.output) {
        reasoned_text(alloc, why, states, number)
    } else {
        plain_text(alloc, why.session, states, number, why.output)
    }
}

/// The text of a line's output, and behind it why the line can't be done or has failed.
fn reasoned_text(
    alloc: Global,
    why: &Why<'_>,
    states: &[Option<AlStatus>],
    number: usize,
) -> Result<String, AllocError>
    ensures { IfOk result (λ text. IsReasonedText why.now.session.now states.now number why.now.output (string_bytes text)) }
{
    let mut text = plain_text(alloc, why.session, states, number, why.output)?;
    let words = format!(in alloc; "{why}")?;
    text.push_str(reason_line(alloc, words.as_str())?.as_str())?;
    Ok(text)
}

/// The text that line `number` prints for its output.
fn plain_text(
    alloc: Global,
    session: &Session,
    states: &[Option<AlStatus>],
    number: usize,
    output: LineOutput,
) -> Result<String, AllocError>
    ensures { IfOk result (λ text. string_bytes text ≡ plain_text session.now states.now number output) }
{
    let table = session.table();
    output_text(alloc, table, number, output, &view_of(session), states)
}

/// Room for what slaves say of their AL states: nothing yet.
fn nothing_read(alloc: Global, slaves: usize) -> Result<Vec<Option<AlStatus>>, AllocError>
    ensures { IfOk result (λ states. states.items ≡ replicate slaves None) }
{
    vec![in alloc; None; slaves]
}

/// What lines see of a session.
pub(crate) fn view_of(session: &Session) -> MasterView<'_, 'static>
    ensures { result ≡ view_of session.now }
{
    MasterView {
        outcome: session.outcome(),
        report: session.report(),
        master: session.master(),
        byte: None,
    }
}

/// Whether a reason stands behind an output.
fn is_reasoned(manner: Manner, session: &Session, output: LineOutput) -> bool
    ensures { result ≡ is_reasoned manner session.now output }
{
    match output {
        LineOutput::No | LineOutput::Unmet | LineOutput::Fault => manner.explained,
        LineOutput::Ended => manner.explained && is_failed(None, session.outcome()),
        _ => false,
    }
}

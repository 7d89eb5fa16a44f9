//! A master that owns its machine, and runs over a wire.
ghost use Rattle.std.specs.Prelude.{◌≡◌, ◌≢◌, ◌==◌, ◌<◌, ◌↔◌, true, false, Some, None, Err, length, max, slice_get, is_some, option_and_then, position, IfErr, IfOk, IfSome, IsTrue, MatchOption};
ghost use Rattle.ec_cycle.specs.declared.error.CycleError.{CycleError};
ghost use Rattle.ec_cycle.specs.Master.{frame_of as part_of, holds_value, missing_of, value_at, variable_set};
ghost use Rattle.ec_link.specs.Machine.{Refuses};
ghost use Rattle.ec_link.specs.Plan.{plan_of};
ghost use Rattle.ec_start.specs.Running.{outcome_of};
ghost use Rattle.ec_wire.specs.declared.error.RunError.TheVariants.{Refused, Wire as WireFault};
ghost use Rattle.ec_session.specs.Sessions.{IsOpened, is_up, new_session, outputs_cleared, ready_with, unit_taken, variable_named, zero_set};
ghost use Rattle.ec_session.specs.Wired.{Cycles, LosesAndCycles, Starts, report_behind, run_refusal, with_number_used, without_report};

use ec_cycle::{CycleError, Master, Report};
use ec_link::{LinkError, Machine, MachineError, Plan};
use ec_start::{HeldPlan, Phase, StartError, Startup};
use ec_table::Table;
use ec_wire::{RunError, Wire, bring_up_resting, bring_up_wire, run_cycle, run_lossy_cycle};
use std::alloc::{AllocError, Global};
use std::marker::Model;
use std::sync::Arc;
use std::time::Clock;

/// A master that owns its machine: the table with its plan, the last start-up, the master of cycles and the last report. It
/// borrows nothing, and frees all it owns when it is dropped. You carry the frames by hand, or give a wire.
#[derive(Drop)]
pub struct Session {
    machine: Arc<Machine>,
    pub(crate) startup: Startup<'static>,
    pub(crate) master: Master<'static>,
    pub(crate) report: Option<Report>,
    // how many questions were asked; 0 follows 65535
    pub(crate) asked: u16,
}

impl Model for Session {
    ghost use Rattle.std.specs.Arc.{arc_value};
    ghost use Rattle.ec_session.specs.Held.{IsOfTable};
    ghost use Rattle.ec_session.specs.Sessions.{SessionState};

    ghost Value = { SessionState };

    ghost view = { λ s. record { table = arc_value s.machine; startup = s.startup; master = s.master; report = s.report; asked = s.asked } };

    ghost invariant = { λ s. IsOfTable (arc_value s.machine) s.startup s.master };
}

impl Session {
    /// A session of a machine: no frame was sent yet, and all variables are 0. No later call takes memory.
    ///
    /// # Errors
    ///
    /// `AllocError` if memory was refused. The machine is lost then.
    pub fn new(alloc: Global, machine: Machine) -> Result<Session, AllocError>
        ensures { IfOk result (λ s. s ≡ new_session machine) }
    {
        let machine = Arc::new(alloc, machine)?;
        // the plan of each machine can be started up and used
        let _ = machine.plan();
        let startup = Startup::of(HeldPlan::Shared(machine.clone()?), 0);
        let master = Master::of(alloc, HeldPlan::Shared(machine.clone()?))?;
        Ok(Session {
            machine,
            startup,
            master,
            report: None,
            asked: 0,
        })
    }

    /// The session of the machine that a text states.
    ///
    /// # Errors
    ///
    /// Those of [`Machine::read`]: the first fault of the text or of its table, or memory was refused.
    pub fn open(alloc: Global, text: &str) -> Result<Session, MachineError>
        ensures opened { IfOk result (IsOpened text.now) }
        ensures refused { IfErr result (Refuses text.now) }
    {
        let machine = Machine::read(alloc, text)?;
        match Session::new(alloc, machine) {
            Ok(session) => Ok(session),
            Err(_) => Err(MachineError::Link(LinkError::Memory)),
        }
    }

    /// The table.
    pub fn table(&self) -> &Table
        ensures { result.now ≡ self.now.table }
    {
        self.machine.table()
    }

    /// The plan.
    pub fn plan(&self) -> &Plan
        ensures value { result.now ≡ self.now.master.plan }
        ensures of_table { result.now ≡ plan_of self.now.table }
    {
        self.machine.plan()
    }

    /// The master of cycles.
    pub fn master(&self) -> &Master<'static>
        ensures { result.now ≡ self.now.master }
    {
        &self.master
    }

    /// The start-up, the last that was begun.
    pub fn startup(&self) -> &Startup<'static>
        ensures { result.now ≡ self.now.startup }
    {
        &self.startup
    }

    /// The report of the last cycle that had one; none if there was no such cycle yet.
    pub fn report(&self) -> Option<&Report>
        ensures { MatchOption result (self.now.report ≡ None) (λ report. self.now.report ≡ Some report.now) }
    {
        self.report.as_ref()
    }

    /// How the last start-up ended; none if none has ended yet.
    pub fn outcome(&self) -> Option<Result<(), StartError>>
        ensures { result ≡ outcome_of self.now.startup.phase }
    {
        self.startup.outcome()
    }

    /// Whether the last start-up ended Ready.
    pub fn is_up(&self) -> bool
        ensures { result ≡ is_up self.now.startup.phase }
    {
        match self.startup.phase() {
            Phase::Ready => true,
            Phase::Idle | Phase::Sent(_) | Phase::Failed(_) => false,
        }
    }

    /// Runs a start-up over a wire, from its beginning, with frame numbers that are new. If it ends Ready, cycles can be run;
    /// [`outcome`](Session::outcome) returns how it ended. An earlier start-up, which may be under way, is given up. It never rests.
    pub fn bring_up<W: Wire>(&mut self, wire: &mut W)
        ensures { Starts self.old (W.state wire.old) self.new (W.state wire.new) }
    {
        let number = self.next_start();
        self.startup.begin_again(number);
        bring_up_wire(&mut self.startup, wire);
        make_ready(&mut self.master, &self.startup);
    }

    /// Runs a start-up over a wire to a segment elsewhere, as [`bring_up`](Session::bring_up) does. It rests between two polls of one
    /// wait, as [`ec_wire::bring_up_resting`] does.
    pub fn bring_up_resting<W: Wire, C: Clock>(&mut self, wire: &mut W, clock: &C)
        ensures { Starts self.old (W.state wire.old) self.new (W.state wire.new) }
    {
        let number = self.next_start();
        self.startup.begin_again(number);
        bring_up_resting(&mut self.startup, wire, clock);
        make_ready(&mut self.master, &self.startup);
    }

    /// Runs one cycle over a wire, as [`ec_wire::run_cycle`] does. What came of it is the report until the next one.
    ///
    /// # Errors
    ///
    /// `Refused` if no cycle can be run: nothing is sent, and nothing changes. It is `NotReady` if the last start-up didn't end Ready,
    /// and else the refusal of [`begin`](Session::begin). `Wire` exactly if a cycle was begun and a call of the wire was a fault: the
    /// cycle is then dropped, and only its number is used up.
    pub fn run_cycle<W: Wire>(&mut self, wire: &mut W) -> Result<(), RunError>
        ensures run { run_refusal self.old ≡ None → Cycles self.old (W.state wire.old) self.new (W.state wire.new) result }
        ensures refused { (e : CycleError) → run_refusal self.old ≡ Some e → result ≡ Err (Refused e) }
        ensures refused_session { (e : CycleError) → run_refusal self.old ≡ Some e → self.new ≡ self.old }
        ensures refused_wire { (e : CycleError) → run_refusal self.old ≡ Some e → wire.new ≡ wire.old }
        ensures fault { result ≡ Err WireFault → self.new ≡ with_number_used self.old }
    {
        if !self.is_up() {
            return Err(RunError::Refused(CycleError::NotReady));
        }
        let ran = run_cycle(&mut self.master, wire);
        keep_report(&mut self.report, ran)
    }

    /// Runs one cycle over a wire on which frames may be lost, as [`ec_wire::run_lossy_cycle`] does: parts that don't come back before
    /// the wire's patience is over are missing in the report, and the other units are taken. What came of it is the report until the next
    /// one.
    ///
    /// # Errors
    ///
    /// Those of [`run_cycle`](Session::run_cycle). An answer that doesn't come is none.
    pub fn run_lossy_cycle<W: Wire, C: Clock>(
        &mut self,
        wire: &mut W,
        clock: &C,
    ) -> Result<(), RunError>
        ensures run { run_refusal self.old ≡ None → LosesAndCycles self.old (W.state wire.old) self.new (W.state wire.new) result }
        ensures refused { (e : CycleError) → run_refusal self.old ≡ Some e → result ≡ Err (Refused e) }
        ensures refused_session { (e : CycleError) → run_refusal self.old ≡ Some e → self.new ≡ self.old }
        ensures refused_wire { (e : CycleError) → run_refusal self.old ≡ Some e → wire.new ≡ wire.old }
        ensures fault { result ≡ Err WireFault → self.new ≡ with_number_used self.old }
    {
        let is_up = self.is_up();
        if !is_up {
            return Err(RunError::Refused(CycleError::NotReady));
        }
        let ran = run_lossy_cycle(&mut self.master, wire, clock);
        keep_report(&mut self.report, ran)
    }

    /// The number of parts of a cycle.
    pub fn parts(&self) -> usize
        ensures { result ≡ length self.now.master.plan.parts }
    {
        self.master.parts()
    }

    /// The frame of a part of the open cycle; none if no cycle is open or there is no such part.
    pub fn part(&self, part: usize) -> Option<&[u8]>
        ensures some { IfSome result (λ frame. frame.now ≡ part_of self.now.master.cycle part) }
        ensures there { IsTrue (is_some result) ↔ ((is_some self.now.master.cycle ≡ true) × (part < length self.now.master.plan.parts)) }
    {
        if self.master.is_open() && part < self.master.parts() {
            Some(self.master.frame(part))
        } else {
            None
        }
    }

    /// How many parts of the open cycle have not come back; 0 if no cycle is open.
    pub fn missing(&self) -> usize
        ensures { result ≡ missing_of self.now.master.cycle }
    {
        self.master.missing()
    }

    /// Whether the last report says that a sync unit was taken; none if there is no report or it doesn't have the unit.
    pub fn unit(&self, unit: u8) -> Option<bool>
        ensures { result ≡ option_and_then (unit_taken unit) self.now.report }
    {
        match &self.report {
            Some(report) => unit_in(report, unit),
            None => None,
        }
    }

    /// The number of the variable with this name; none if there is no such variable.
    pub fn variable(&self, name: &str) -> Option<usize>
        ensures { result ≡ variable_named self.now.table name.now }
    {
        self.machine
            .table()
            .variables()
            .iter()
            .position(|row| row.name.as_str() == name)
    }

    /// Whether there is a variable, it is an output, and it has enough bits for the value.
    pub fn can_set(&self, variable: usize, value: u64) -> bool
        ensures { result ≡ holds_value value (slice_get self.now.master.plan.variables variable) }
    {
        self.master.can_set(variable, value)
    }

    /// Sets a variable of the outputs, and returns true. Returns false and changes nothing if there is no such variable, it is an
    /// input, or it has too few bits for the value.
    pub fn set(&mut self, variable: usize, value: u64) -> bool
        ensures answer { result ≡ holds_value value (slice_get self.old.master.plan.variables variable) }
        ensures set { result ≡ true → self.new ≡ record self.old { master = variable_set self.old.master variable value } }
        ensures unchanged { result ≡ false → self.new ≡ self.old }
    {
        if !self.master.can_set(variable, value) {
            return false;
        }
        self.master.set(variable, value);
        true
    }

    /// Sets each variable of the outputs to 0.
    pub fn clear_outputs(&mut self)
        ensures { self.new ≡ record self.old { master = outputs_cleared self.old.master } }
    {
        clear_outputs(&mut self.master);
    }

    /// The value of a variable; none if there is no such variable.
    pub fn get(&self, variable: usize) -> Option<u64>
        ensures some { IfSome result (λ value. value ≡ value_at self.now.master (slice_get self.now.master.plan.variables variable)) }
        ensures there { IsTrue (is_some result) ↔ (variable < length self.now.master.plan.variables) }
    {
        if variable < self.master.variables() {
            Some(self.master.get(variable))
        } else {
            None
        }
    }

    /// Sets the image of all outputs if `outputs` has as many bytes as the image, and else changes nothing. Returns the number of
    /// bytes of the image.
    pub fn set_outputs(&mut self, outputs: &[u8]) -> usize
        ensures size { result ≡ length self.old.master.outputs }
        ensures set { length outputs.now ≡ result → self.new ≡ record self.old { master = record self.old.master { outputs = outputs.now } } }
        ensures unchanged { length outputs.now ≢ result → self.new ≡ self.old }
    {
        let size = self.master.outputs().len();
        if outputs.len() == size {
            self.master.set_outputs(outputs);
        }
        size
    }

    /// The image of all inputs, as bytes.
    pub fn inputs(&self) -> &[u8]
        ensures { result.now ≡ self.now.master.inputs }
    {
        self.master.inputs()
    }

    /// The number of the first frame of the next start-up: neither the last start-up nor a cycle has used it.
    pub(crate) fn next_start(&self) -> u64
        ensures { result ≡ max self.now.startup.next self.now.master.next }
    {
        self.startup.next_number().max(self.master.next_number())
    }
}

/// Makes the master ready if the start-up has ended Ready.
pub(crate) fn make_ready(master: &mut Master<'_>, startup: &Startup<'_>)
    requires { startup.now.plan ≡ master.old.plan.slaves }
    ensures ready { master.new ≡ ready_with master.old startup.now }
    ensures plan { master.new.plan ≡ master.old.plan }
{
    match startup.phase() {
        Phase::Ready => master.ready(startup),
        Phase::Idle | Phase::Sent(_) | Phase::Failed(_) => {}
    }
}

/// Keeps the report of a cycle, if it has one.
fn keep_report(kept: &mut Option<Report>, ran: Result<Report, RunError>) -> Result<(), RunError>
    ensures kept { kept.new ≡ report_behind kept.old ran }
    ensures answer { result ≡ without_report ran }
{
    let report = ran?;
    *kept = Some(report);
    Ok(())
}

/// Sets each variable of the outputs to 0.
fn clear_outputs(master: &mut Master<'_>)
    ensures cleared { master.new ≡ outputs_cleared master.old }
    ensures plan { master.new.plan ≡ master.old.plan }
{
    for variable in 0..master.variables() {
        clear_output(master, variable);
    }
}

/// Sets a variable to 0 if it is an output.
fn clear_output(master: &mut Master<'_>, variable: usize)
    ensures { master.new ≡ zero_set master.old variable }
{
    if master.can_set(variable, 0) {
        master.set(variable, 0);
    }
}

/// Whether a report says that a sync unit was taken; none if the report doesn't have the unit.
fn unit_in(report: &Report, unit: u8) -> Option<bool>
    ensures { result ≡ unit_taken unit report.now }
{
    answer_at(report.units_taken(), place_of(report.units(), unit))
}

/// The element at an index, if there is one.
fn answer_at(answers: &[bool], index: Option<usize>) -> Option<bool>
    ensures { result ≡ option_and_then (λ k. slice_get answers.now k) index }
{
    match index {
        Some(index) => answers.get(index).copied(),
        None => None,
    }
}

/// The first place of a number.
fn place_of(numbers: &[u8], wanted: u8) -> Option<usize>
    ensures { result ≡ position (λ n. n == wanted) numbers.now }
{
    numbers.iter().position(|number| *number == wanted)
}

//! Questions of a session over a wire: the AL states of its slaves, and its stop.
ghost use Rattle.std.specs.Prelude.{◌≡◌, length, None, Some, Err};
ghost use Rattle.ec_cycle.specs.declared.error.CycleError.{CycleError};
ghost use Rattle.ec_wire.specs.declared.error.RunError.TheVariants.{Refused};
ghost use Rattle.ec_asking.specs.Questions.{IsAskable};
ghost use Rattle.ec_session.specs.Asking.{AsksInit, IsQuestioned, ReadsStates, ReadsStatus, Stops, stopped};
ghost use Rattle.ec_session.specs.Wired.{run_refusal};

use crate::session::Session;
use ec_asking::{AlStatus, Question};
use ec_cycle::CycleError;
use ec_wire::{RunError, SocketFault, Wire, ask};
use std::time::Clock;

impl Session {
    /// Reads the AL status of a slave over a wire, and its code. Returns none if the slave doesn't answer before the wire's patience is
    /// over, or there is no such slave. No slave, no variable, no cycle and no report changes.
    ///
    /// # Errors
    ///
    /// `SocketFault` exactly if a call of the wire was a fault.
    pub fn read_status<W: Wire, C: Clock>(
        &mut self,
        wire: &mut W,
        clock: &C,
        slave: usize,
    ) -> Result<Option<AlStatus>, SocketFault>
        ensures { ReadsStatus slave self.old (W.state wire.old) self.new (W.state wire.new) result }
    {
        self.master.is_sound();
        if slave >= self.plan().slaves().len() {
            return Ok(None);
        }
        self.question(wire, clock, Question::Status(slave))
    }

    /// Reads the AL status of the first slaves, as [`read_status`](Session::read_status) does, into as many places as `states` has.
    ///
    /// # Errors
    ///
    /// `SocketFault` exactly if a call of the wire was a fault. No further slave is read then.
    pub fn read_states<W: Wire, C: Clock>(
        &mut self,
        wire: &mut W,
        clock: &C,
        states: &mut [Option<AlStatus>],
    ) -> Result<(), SocketFault>
        ensures count { length states.new ≡ length states.old }
        ensures read { ReadsStates self.old (W.state wire.old) states.new self.new (W.state wire.new) result }
    {
        for slave in 0..states.len() {
            let told = self.read_status(wire, clock, slave)?;
            states[slave] = told;
        }
        Ok(())
    }

    /// Stops the machine over a wire. All outputs become 0, one cycle is run as [`run_lossy_cycle`](Session::run_lossy_cycle) does, and all
    /// slaves are asked for INIT. Then no cycle can be run before the next start-up.
    ///
    /// # Errors
    ///
    /// `Refused` if no cycle can be run: nothing is sent, and nothing changes. `Wire` exactly if a call of the wire was a fault. The
    /// outputs are 0 then, but the slaves may not have been asked, and cycles can be run.
    pub fn stop<W: Wire, C: Clock>(&mut self, wire: &mut W, clock: &C) -> Result<(), RunError>
        ensures stops { run_refusal self.old ≡ None → Stops self.old (W.state wire.old) self.new (W.state wire.new) result }
        ensures refused { (e : CycleError) → run_refusal self.old ≡ Some e → result ≡ Err (Refused e) }
        ensures refused_session { (e : CycleError) → run_refusal self.old ≡ Some e → self.new ≡ self.old }
        ensures refused_wire { (e : CycleError) → run_refusal self.old ≡ Some e → wire.new ≡ wire.old }
    {
        if let Some(refusal) = self.run_refusal() {
            return Err(RunError::Refused(refusal));
        }
        self.clear_outputs();
        self.run_lossy_cycle(wire, clock)?;
        self.ask_init(wire, clock)
    }

    /// Asks all slaves for INIT. If no call of the wire was a fault, no cycle can be run before the next start-up.
    fn ask_init<W: Wire, C: Clock>(&mut self, wire: &mut W, clock: &C) -> Result<(), RunError>
        ensures { AsksInit self.old (W.state wire.old) self.new (W.state wire.new) result }
    {
        match self.question(wire, clock, Question::Init) {
            Ok(_) => {
                self.begin_start();
                Ok(())
            }
            Err(_) => Err(RunError::Wire),
        }
    }

    /// Begins a start-up: no cycle can be run before it has ended Ready.
    fn begin_start(&mut self)
        ensures { self.new ≡ stopped self.old }
    {
        let number = self.next_start();
        self.startup.begin_again(number);
    }

    /// Asks a question over a wire, under the next count of questions.
    fn question<W: Wire, C: Clock>(
        &mut self,
        wire: &mut W,
        clock: &C,
        question: Question,
    ) -> Result<Option<AlStatus>, SocketFault>
        requires { IsAskable question }
        ensures { IsQuestioned question self.old (W.state wire.old) self.new (W.state wire.new) result }
    {
        let count = self.asked;
        self.asked = count.wrapping_add(1);
        ask(wire, clock, question, count)
    }

    /// Why no cycle can be run; none if one can.
    fn run_refusal(&self) -> Option<CycleError>
        ensures { result ≡ run_refusal self.now }
    {
        if !self.is_up() || !self.master.is_ready() {
            Some(CycleError::NotReady)
        } else if self.master.is_open() {
            Some(CycleError::Open)
        } else if self.master.next_number() == u64::MAX {
            Some(CycleError::NumbersSpent)
        } else {
            None
        }
    }
}

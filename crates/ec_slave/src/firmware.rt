//! What a slave's firmware does: it decides AL requests, finishes reads of the SII and takes faults.

ghost use Rattle.std.specs.Prelude.{◌≡◌, ◌<◌, ◌^◌, ◌↔◌, length, IsTrue, true};
ghost use Rattle.std.specs.Option.{option_copied};
ghost use Rattle.ec_al.specs.declared.state.State.TheVariants.{Op};
ghost use Rattle.ec_slave.specs.Checking.{checks_of, control_word as control_word_of, is_manager as is_manager_of, mailbox_check, process_check};
ghost use Rattle.ec_slave.specs.Serving.{al_decided, awaited_by as awaited_of, awaited_if, awaits_by, emergency_counted, emergency_put, greets as greets_of, has_outputs, is_awaiting as is_awaiting_of, is_slow as is_slow_of, slow_by, managers_entered, outputs_awaited, replies_entered, read_finished, request_decided, served, unlocked_empty};
ghost use Rattle.ec_slave.specs.State.{manager_at};
ghost use Rattle.ec_slave.specs.Faulting.{faulted, locked_empty};

use crate::mailbox::{has_room, takes_message};
use crate::slave::Slave;
use ec_al::{Checks, State};
use ec_coe::emergency_bytes;
use ec_device::{Hardware, Mailbox, SlaveType};
use ec_regs::registers::AL_CONTROL;
use ec_regs::{AlWord, CONTROL_INPUTS, CONTROL_MAILBOX_IN, CONTROL_MAILBOX_OUT, CONTROL_OUTPUTS};
use ec_sync::SyncManager;

/// Bits 0 to 3 of the control byte of the mailbox that the ring writes.
const MAILBOX_OUT: u8 = CONTROL_MAILBOX_OUT % 16;

/// Bits 0 to 3 of the control byte of the mailbox that the ring reads.
const MAILBOX_IN: u8 = CONTROL_MAILBOX_IN % 16;

/// Bits 0 to 3 of the control byte of outputs.
const OUTPUTS: u8 = CONTROL_OUTPUTS % 16;

/// Bits 0 to 3 of the control byte of inputs.
const INPUTS: u8 = CONTROL_INPUTS % 16;

impl Slave {
    /// A step of the slave's firmware, in this order. It decides an AL request that waits, by the checks of the managers
    /// against the type and the PDOs that are assigned, or lets it wait if it is slow. It finishes a read of the SII. It takes one mailbox message, and
    /// answers it, or refuses or drops it if it is no SDO request. It takes no memory.
    #[tactic(auto, unfolding(crate::specs::Serving::served))]
    pub fn serve(&mut self)
        ensures { self.new ≡ served self.old }
    {
        self.decide_request();
        self.finish_read();
        self.serve_message();
    }

    /// A fault of the slave's application. Returns whether the slave is in OP, and only then does something: the slave goes to
    /// SAFEOP with an error, and manager 2 is locked and emptied. Firmware of real devices awaits outputs then.
    #[tactic(auto, unfolding(crate::specs::Faulting::faulted))]
    pub fn fault(&mut self) -> bool
        ensures taken { IsTrue result ↔ (self.old.al.state ≡ Op) }
        ensures after { self.new ≡ faulted self.old }
    {
        if !self.al.fault() {
            return false;
        }
        lock(&mut self.managers[2]);
        self.await_outputs(State::Op);
        true
    }

    /// Finishes the read of the SII that is under way. It stands apart so that a step without one is short.
    #[tactic(auto, unfolding(crate::specs::Serving::read_finished))]
    #[inline(never)]
    fn read_words(&mut self)
        ensures { self.new ≡ read_finished self.old }
    {
        self.port.step();
    }

    /// Finishes the read of the SII that is under way, if one is.
    #[tactic(auto, unfolding(crate::specs::Serving::read_finished, ec_sii::specs::Port::stepped))]
    fn finish_read(&mut self)
        ensures { self.new ≡ read_finished self.old }
    {
        if self.port.is_busy() {
            self.read_words();
        }
    }

    /// Decides the AL request that waits, or lets it wait. It stands apart so that a step in which none waits is short.
    #[inline(never)]
    fn decide_waiting(&mut self)
        requires { self.old.al.requested ≡ true }
        ensures { self.new ≡ request_decided self.old }
    {
        if self.is_slow() {
            self.al.wait();
            return;
        }
        let control = self.control_word();
        if self.is_awaiting(control) {
            return;
        }
        let old = self.al.state();
        self.step_al(control);
        self.enter(old);
        self.await_outputs(old);
        self.greet(old);
    }

    /// Whether the firmware lets the request wait for another step.
    fn is_slow(&self) -> bool
        ensures slow { result ≡ is_slow_of self.now.kind.hardware self.now }
        ensures few { IsTrue result → self.now.al.waited < 255 }
    {
        let hardware = self.dictionary.kind().hardware();
        let waited = self.al.waited();
        lets_wait(hardware, waited)
    }

    /// Whether the firmware awaits outputs before it decides a request for OP by this control word: that of a type of real
    /// devices does, in SAFEOP.
    fn is_awaiting(&self, control: u16) -> bool
        requires { control ≡ control_word_of self.now }
        ensures { result ≡ is_awaiting_of self.now.kind.hardware self.now }
    {
        let hardware = self.dictionary.kind().hardware();
        let is_awaited = self.managers[2].is_awaited();
        awaits_outputs(hardware, self.al.state(), control, is_awaited)
    }

    /// Decides the AL request that waits by this control word and the checks, or copies the word if the type has no firmware.
    fn step_al(&mut self, control: u16)
        requires control { control ≡ control_word_of self.old }
        requires waits { self.old.al.requested ≡ true }
        ensures { self.new ≡ record self.old { al = al_decided self.old.kind.hardware self.old } }
    {
        if self.dictionary.kind().has_firmware() {
            let checks = self.checks();
            self.al.step(control, checks);
        } else {
            self.al.copy(control);
        }
    }

    /// Changes the managers, and the counter of replies, as the state is entered from the old one.
    fn enter(&mut self, old: State)
        ensures { let s = self.old in self.new ≡ record s {
          managers = managers_entered old s.al.state s.managers;
          replies = replies_entered old s.al.state s.replies;
        } }
    {
        let new = self.al.state();
        enter_state(&mut self.managers, old, new);
        self.replies = replies_in(old, new, self.replies);
    }

    /// Awaits outputs from now on, if SAFEOP was entered from the old state by firmware of real devices, and any are assigned.
    fn await_outputs(&mut self, old: State)
        ensures { let s = self.old in self.new ≡ record s {
          managers = outputs_awaited s.kind.hardware (has_outputs s) old s.al.state s.managers;
        } }
    {
        let hardware = self.dictionary.kind().hardware();
        let has_outputs = self.dictionary.output_bits() > 0;
        let is_awaited = awaited_by(hardware, has_outputs, old, self.al.state());
        await_if(&mut self.managers[2], is_awaited);
    }

    /// Sends an emergency, if the type has one and PREOP was entered from INIT, the old state, with room in an empty mailbox.
    fn greet(&mut self, old: State)
        ensures { let s = self.old in self.new ≡ record s {
          managers = emergency_put (greets_of s.kind old s.al.state (manager_at s.managers 1)) s.replies s.managers;
          replies = emergency_counted (greets_of s.kind old s.al.state (manager_at s.managers 1)) s.replies;
        } }
    {
        let new = self.al.state();
        if greets(self.dictionary.kind(), old, new, &self.managers[1]) {
            let bytes = emergency_bytes(self.replies % 7 + 1);
            self.put_message(&bytes);
        }
    }

    /// Decides the AL request that waits, if one does.
    #[tactic(auto, unfolding(crate::specs::Serving::request_decided))]
    fn decide_request(&mut self)
        ensures { self.new ≡ request_decided self.old }
    {
        if self.al.is_requested() {
            self.decide_waiting();
        }
    }

    /// Whether the managers are as the states above INIT need them.
    #[tactic(auto, unfolding(crate::specs::Checking::checks_of))]
    fn checks(&self) -> Checks
        ensures { result ≡ checks_of self.now }
    {
        let kind = self.dictionary.kind();
        let output_bits = self.dictionary.output_bits();
        let input_bits = self.dictionary.input_bits();
        Checks {
            mailbox: has_mailboxes(&self.managers, kind.mailbox()),
            outputs: fits_process_data(&self.managers[2], output_bits, kind.out_start(), OUTPUTS),
            inputs: fits_process_data(&self.managers[3], input_bits, kind.in_start(), INPUTS),
        }
    }

    /// The AL control word.
    fn control_word(&self) -> u16
        ensures { result ≡ control_word_of self.now }
    {
        let at = AL_CONTROL;
        self.memory[at] as u16 + 256 * self.memory[at + 1] as u16
    }
}

/// Whether firmware lets a request wait for another step, which so many let wait.
fn lets_wait(hardware: Option<&Hardware>, waited: u8) -> bool
    ensures slow { result ≡ slow_by (option_copied hardware.entry) waited }
    ensures few { IsTrue result → waited < 255 }
{
    match hardware {
        None => false,
        Some(hardware) => hardware.has_firmware && waited < hardware.slow,
    }
}

/// Whether an emergency is sent through this manager, as a state is entered from the old one.
fn greets(kind: &SlaveType, old: State, new: State, manager: &SyncManager) -> bool
    ensures { result ≡ greets_of kind.now old new manager.now }
{
    kind.has_emergency()
        && new == State::PreOp
        && old == State::Init
        && kind.mailbox().is_some()
        && takes_message(manager)
        && has_room(manager)
}

/// Whether firmware awaits outputs before it decides a request by this control word.
fn awaits_outputs(hardware: Option<&Hardware>, state: State, control: u16, is_awaited: bool) -> bool
    ensures { result ≡ awaits_by (option_copied hardware.entry) state control is_awaited }
{
    match hardware {
        None => false,
        Some(hardware) => {
            hardware.has_firmware
                && state == State::SafeOp
                && u16::from(AlWord(control).state()) == State::Op.number()
                && is_awaited
        }
    }
}

/// Whether outputs are awaited from now on, as a state is entered from the old one; none if that stays as it is.
fn awaited_by(
    hardware: Option<&Hardware>,
    has_outputs: bool,
    old: State,
    new: State,
) -> Option<bool>
    ensures { result ≡ awaited_of (option_copied hardware.entry) has_outputs old new }
{
    let hardware = hardware?;
    if new == State::SafeOp && old != State::SafeOp {
        Some(hardware.has_firmware && has_outputs)
    } else {
        None
    }
}

/// Awaits the ring's next value, or awaits it no more, if that is said.
fn await_if(manager: &mut SyncManager, is_awaited: Option<bool>)
    ensures { manager.new ≡ awaited_if is_awaited manager.old }
{
    if let Some(is_awaited) = is_awaited {
        manager.await_value(is_awaited);
    }
}

/// The counter of the last reply after a state was entered: 0 if PREOP was entered from INIT.
fn replies_in(old: State, new: State, replies: u8) -> u8
    ensures { result ≡ replies_entered old new replies }
{
    match (old, new) {
        (State::Init, State::PreOp) => 0,
        _ => replies,
    }
}

/// Changes the managers as a state is entered.
fn enter_state(managers: &mut [SyncManager], old: State, new: State)
    requires { length managers.old ≡ 4 }
    ensures { managers.new ≡ managers_entered old new managers.old }
{
    match (old, new) {
        (State::PreOp | State::SafeOp | State::Op, State::Init) => {
            unlock(&mut managers[0]);
            unlock(&mut managers[1]);
            unlock(&mut managers[2]);
            unlock(&mut managers[3]);
        }
        (State::PreOp, State::SafeOp) => managers[3].publish_zeros(),
        _ => {}
    }
}

/// Sets the deactivate bit of a manager and empties it.
fn lock(manager: &mut SyncManager)
    ensures { manager.new ≡ locked_empty manager.old }
{
    manager.set_locked(true);
    manager.empty();
}

/// Clears the deactivate bit of a manager and empties it.
fn unlock(manager: &mut SyncManager)
    ensures { manager.new ≡ unlocked_empty manager.old }
{
    manager.set_locked(false);
    manager.empty();
}

/// Whether a manager fits `bits` bits of process data: it has their bytes, or, if there are none, it isn't activated.
fn fits_process_data(manager: &SyncManager, bits: usize, start: u16, mode: u8) -> bool
    requires { bits < 2 ^ 20 }
    ensures { result ≡ process_check manager.now bits start mode }
{
    if bits == 0 {
        manager.settings().activate % 2 == 0
    } else {
        is_manager(manager, start, (bits + 7) / 8, mode)
    }
}

/// Whether managers 0 and 1 are the type's mailboxes, if it has any.
fn has_mailboxes(managers: &[SyncManager], mailbox: Option<Mailbox>) -> bool
    requires { length managers.now ≡ 4 }
    ensures { result ≡ mailbox_check managers.now mailbox }
{
    match mailbox {
        None => true,
        Some(mailbox) => {
            is_manager(
                &managers[0],
                mailbox.receive_start,
                mailbox.receive_size as usize,
                MAILBOX_OUT,
            ) && is_manager(
                &managers[1],
                mailbox.send_start,
                mailbox.send_size as usize,
                MAILBOX_IN,
            )
        }
    }
}

/// Whether a manager is enabled and has this start, this length in bytes, and these bits 0 to 3 of its control byte.
fn is_manager(manager: &SyncManager, start: u16, len: usize, mode: u8) -> bool
    ensures { result ≡ is_manager_of manager.now start len mode }
{
    let settings = manager.settings();
    manager.is_enabled()
        && settings.start == start
        && settings.length as usize == len
        && settings.control % 16 == mode
}

//! What a slave's application reads and writes, and a reset of the slave.

ghost use Rattle.std.specs.Prelude.{◌≡◌, ◌<◌, [], ◌∷◌, length, if◌then◌else◌, is_some, option_map, unwrap_or};
ghost use Rattle.ec_sync.specs.SyncManager.{no_manager};
ghost use Rattle.ec_slave.specs.State.{power_on};
ghost use Rattle.ec_slave.specs.Application.{is_running as runs_in, outputs_shown, get_size, put_size, input_put, inputs_put, output_got, output_taken, outputs_taken};

use crate::fmmus::read_fmmus;
use crate::slave::Slave;
use ec_al::State;
use ec_dl::DataLink;
use ec_regs::SyncManagerSettings;
use ec_sync::SyncManager;

impl Slave {
    /// The outputs that were published last, in manager 2; empty if that manager isn't set or is a mailbox.
    pub fn outputs(&self) -> &[u8]
        ensures { result.now ≡ outputs_shown self.now }
    {
        self.managers[2].published()
    }

    /// How many bytes of outputs `app_get` can read now, and how many bytes of inputs `app_put` can write; 0 if every byte is
    /// denied.
    pub fn app_sizes(&self) -> (usize, usize)
        ensures get { result.0 ≡ get_size self.now }
        ensures put { result.1 ≡ put_size self.now }
    {
        let is_running = is_running(self.al.state());
        let (outputs, inputs) = (&self.managers[2], &self.managers[3]);
        (
            size_if(is_running & outputs.may_app_get(), outputs),
            size_if(is_running & inputs.may_app_put(), inputs),
        )
    }

    /// The application writes byte `offset` of the inputs: byte 0 opens a draft of zeros, the last byte publishes it. Returns
    /// false and changes nothing if it is denied. It is granted only in SAFEOP and OP, if manager 3 is enabled, buffered and
    /// read by the ring, and the byte is below its length. Each byte after the first needs an open draft.
    pub fn app_put(&mut self, offset: usize, byte: u8) -> bool
        ensures granted { result ≡ is_some (input_put self.old offset byte) }
        ensures after { self.new ≡ unwrap_or (input_put self.old offset byte) self.old }
    {
        if !is_running(self.al.state()) {
            return false;
        }
        self.managers[3].app_put(offset, byte)
    }

    /// The application writes all bytes of the inputs, as many as `app_sizes` returns, as by `app_put` one after the other.
    /// This publishes them.
    pub fn app_put_all(&mut self, inputs: &[u8])
        requires { length inputs.now ≡ put_size self.old }
        ensures { self.new ≡ inputs_put self.old inputs.now (length inputs.now) }
    {
        self.is_sound();
        if !inputs.is_empty() {
            self.managers[3].app_put_all(inputs);
        }
    }

    /// The application reads byte `offset` of the outputs: byte 0 opens a view of what is published, the last byte closes it.
    /// Returns none and changes nothing if it is denied. It is granted only in SAFEOP and OP, if manager 2 is enabled, buffered
    /// and written by the ring, and the byte is below its length. Each byte after the first needs an open view.
    pub fn app_get(&mut self, offset: usize) -> Option<u8>
        ensures byte { result ≡ option_map (λ got. got.byte) (output_got self.old offset) }
        ensures after { self.new ≡ output_taken self.old (output_got self.old offset) }
    {
        if !is_running(self.al.state()) {
            return None;
        }
        self.managers[2].app_get(offset)
    }

    /// The application reads all bytes of the outputs, as many as `app_sizes` returns, as by `app_get` one after the other.
    pub fn app_get_all(&mut self)
        ensures { self.new ≡ outputs_taken self.old (get_size self.old) }
    {
        self.is_sound();
        let (output_count, _) = self.app_sizes();
        if output_count > 0 {
            self.managers[2].app_get_all();
        }
    }
}

impl Slave {
    /// Switches the slave off and on: it is as `new` makes a slave of its type and identity.
    #[tactic(auto, unfolding(crate::specs::State::power_on))]
    pub fn reset(&mut self)
        ensures { self.new ≡ power_on self.old.kind self.old.identity }
    {
        self.memory.fill(0);
        self.fmmus = read_fmmus(self.dictionary.kind(), &self.memory);
        reset_managers(&mut self.managers);
        self.al.reset();
        self.port.reset();
        self.link = DataLink::new(self.dictionary.kind().face());
        self.dictionary.reset();
        self.replies = 0;
    }
}

/// The length of a manager in bytes if its application is granted, or 0.
fn size_if(is_granted: bool, manager: &SyncManager) -> usize
    ensures { result ≡ (if is_granted then manager.now.settings.length else 0) }
{
    if is_granted {
        manager.settings().length as usize
    } else {
        0
    }
}

/// Whether the application has process data in an AL state.
fn is_running(state: State) -> bool
    ensures { result ≡ runs_in state }
{
    match state {
        State::SafeOp | State::Op => true,
        State::Init | State::PreOp => false,
    }
}

/// The four managers as the power comes on.
fn reset_managers(managers: &mut [SyncManager])
    requires { length managers.old ≡ 4 }
    ensures { managers.new ≡ no_manager ∷ no_manager ∷ no_manager ∷ no_manager ∷ [] }
{
    reset_manager(&mut managers[0]);
    reset_manager(&mut managers[1]);
    reset_manager(&mut managers[2]);
    reset_manager(&mut managers[3]);
}

/// A manager as the power comes on.
fn reset_manager(manager: &mut SyncManager)
    ensures { manager.new ≡ no_manager }
{
    manager.set_locked(false);
    manager.await_value(false);
    manager.configure(SyncManagerSettings {
        start: 0,
        length: 0,
        control: 0,
        activate: 0,
    });
}

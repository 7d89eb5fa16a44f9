//! Settings, the deactivate bit, and what empties a manager.

ghost use Rattle.std.specs.Prelude.{◌≡◌, ◌≤◌};
ghost use Rattle.ec_sync.specs.SyncManager.{awaiting, buffer_length as buffer_length_of, configured, empty_manager, zeros_published};

use crate::bounds::Bounds;
use crate::manager::SyncManager;
use ec_regs::SyncManagerSettings;

impl SyncManager {
    /// A ring write to its settings: it takes them and is empty, even if they are as before. It stays locked or
    /// not, and a value that is awaited stays awaited.
    pub fn configure(&mut self, settings: SyncManagerSettings)
        ensures { self.new ≡ configured self.old settings }
    {
        self.settings = settings;
        self.bounds = Bounds::of(settings);
        self.mail.empty();
        self.buffer.empty(buffer_length(settings));
    }

    /// Sets or clears the deactivate bit, and leaves what it holds.
    pub fn set_locked(&mut self, is_locked: bool)
        ensures { self.new ≡ record self.old { locked = is_locked } }
    {
        self.is_locked = is_locked;
    }

    /// Empties it: zeros, no draft, no view, no message, nothing awaited.
    pub fn empty(&mut self)
        ensures { self.new ≡ empty_manager self.old.settings self.old.locked }
    {
        self.is_awaited = false;
        self.mail.empty();
        self.buffer.empty(buffer_length(self.settings));
    }

    /// Publishes zeros, as a slave that enters SAFEOP does, and leaves an open draft and an open view. If there is no
    /// published value nothing changes.
    pub fn publish_zeros(&mut self)
        ensures { self.new ≡ zeros_published self.old }
    {
        self.buffer.publish_zeros();
    }

    /// The firmware awaits the ring's next value from now on, or none.
    pub fn await_value(&mut self, is_awaited: bool)
        ensures { self.new ≡ awaiting self.old is_awaited }
    {
        self.is_awaited = is_awaited;
    }
}

/// The length of the published value in bytes; 0 if this isn't a set buffered manager.
#[tactic(auto, unfolding(ec_regs::specs::Managers::is_set))]
fn buffer_length(settings: SyncManagerSettings) -> usize
    ensures value { result ≡ buffer_length_of settings }
    ensures small { result ≤ 2730 }
{
    if settings.is_set() && settings.is_buffered() {
        settings.length as usize
    } else {
        0
    }
}

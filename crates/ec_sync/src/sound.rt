//! What holds of every manager, whatever was done to it.

ghost use Rattle.ec_sync.specs.Sound.{IsManager};

use crate::manager::SyncManager;

impl SyncManager {
    /// Does nothing. Its contract says what holds of every manager: the lengths of its values.
    pub fn is_sound(&self)
        ensures { IsManager self.now }
    {
        self.buffer.is_sound();
    }
}

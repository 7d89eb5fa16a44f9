//! Messages of the slave's firmware.

ghost use Rattle.std.specs.Prelude.{◌≡◌, length, is_some};
ghost use Rattle.std.specs.Bool.{OnTrue};
ghost use Rattle.std.specs.Option.{option_copied};
ghost use Rattle.ec_sync.specs.SyncManager.{message_in, message_taken, LiesInRam, may_put_message as firmware_may_put, message_put};

use crate::manager::SyncManager;

impl SyncManager {
    /// The message in a full mailbox that the ring writes. None if it is denied: this must be an enabled
    /// mailbox of that direction, and full.
    pub fn message(&self) -> Option<&[u8]>
        ensures { option_copied result ≡ message_in self.now }
    {
        if self.is_enabled()
            && self.settings.is_mailbox()
            && self.settings.is_master_written()
            && self.mail.is_full()
        {
            Some(self.mail.message())
        } else {
            None
        }
    }

    /// Takes the message out, which leaves the mailbox empty. Returns false and changes nothing exactly if `message`
    /// returns none.
    pub fn mailbox_take(&mut self) -> bool
        ensures granted { result ≡ is_some (message_in self.old) }
        ensures after { self.new ≡ message_taken self.old }
    {
        if self.message().is_none() {
            return false;
        }
        self.mail.empty();
        true
    }

    /// Whether the firmware may put a message of `len` bytes: an enabled mailbox that the ring reads, empty, and no
    /// shorter.
    pub fn may_put_message(&self, len: usize) -> bool
        ensures value { result ≡ firmware_may_put self.now len }
        ensures inside { OnTrue result (LiesInRam self.now.settings) }
    {
        self.is_enabled()
            && self.settings.is_mailbox()
            && self.settings.is_master_read()
            && !self.mail.is_full()
            && len <= self.settings.length as usize
    }

    /// Puts a message, with zeros behind it to the mailbox's length. Returns false and changes nothing if it is
    /// denied: this must be an enabled mailbox that the ring reads, empty, and no shorter than the message.
    pub fn mailbox_put(&mut self, message: &[u8]) -> bool
        ensures granted { result ≡ firmware_may_put self.old (length message.now) }
        ensures after { self.new ≡ message_put self.old message.now }
    {
        if !self.may_put_message(message.len()) {
            return false;
        }
        self.mail.put(message, self.settings.length as usize);
        true
    }
}

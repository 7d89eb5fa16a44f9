//! Accesses of the ring.

ghost use Rattle.std.specs.Prelude.{◌≡◌, ◌&&◌, true};
ghost use Rattle.ec_regs.specs.Managers.{is_set};
ghost use Rattle.ec_sync.specs.SyncManager.{LiesInRam, may_read, may_write, ring_written};
ghost use Rattle.ec_sync.specs.Governing.{covers, after_ring_write, after_ring_read};

use crate::manager::SyncManager;
use crate::touching::{Touching, Writing};

impl SyncManager {
    /// A datagram writes: a mailbox is full then, a buffered manager has published a whole value. Returns false and
    /// changes nothing if it is denied: it must touch the first and the last byte of an enabled manager that the
    /// ring writes, and of a mailbox that is empty.
    pub fn ring_write<W: Writing>(&mut self, writing: &W) -> bool
        ensures granted { result ≡ (covers (W.touched writing.now) self.old && may_write self.old) }
        ensures after { let w = writing.now in
            self.new ≡ after_ring_write (W.touched w) (W.written w) self.old }
    {
        if !self.may_write() || !self.is_touched(writing) {
            return false;
        }
        self.store(writing);
        true
    }

    /// Stores the value that an access writes, as [`ring_write`] does if it is granted. The caller has
    /// checked the right.
    ///
    /// [`ring_write`]: SyncManager::ring_write
    #[tactic(auto, using(crate::proofs::Lengths::buffer_length_set))]
    pub fn store<W: Writing>(&mut self, writing: &W)
        requires set { is_set self.old.settings ≡ true }
        requires inside { LiesInRam self.old.settings }
        requires allowed { may_write self.old ≡ true }
        requires covered { covers (W.touched writing.now) self.old ≡ true }
        ensures { let m = self.old.settings in
            self.new ≡ ring_written self.old (W.written writing.now m.start m.length) }
    {
        let start = self.settings.start as usize;
        let len = self.settings.length as usize;
        if self.settings.is_mailbox() {
            self.mail.fill(start, len, writing);
        } else {
            self.is_awaited = false;
            self.buffer.publish(start, len, writing);
        }
    }

    /// A datagram reads what `visible_byte` returned before. A mailbox is empty then. Returns false and changes nothing
    /// if it is denied: it must touch the first and the last byte of an enabled manager that the ring reads,
    /// and of a mailbox that is full.
    pub fn ring_read<T: Touching>(&mut self, access: &T) -> bool
        ensures granted { result ≡ (covers (T.touched access.now) self.old && may_read self.old) }
        ensures after { self.new ≡ after_ring_read (T.touched access.now) self.old }
    {
        if !self.may_read() || !self.is_touched(access) {
            return false;
        }
        if self.settings.is_mailbox() {
            self.mail.empty();
        }
        true
    }

    /// Whether an access touches the first and the last byte.
    fn is_touched<T: Touching>(&self, access: &T) -> bool
        requires { LiesInRam self.now.settings }
        ensures { result ≡ covers (T.touched access.now) self.now }
    {
        access.touches(self.bounds.first) && access.touches(self.bounds.value_end - 1)
    }
}

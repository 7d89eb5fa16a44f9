//! Reads and writes of the slave's application, byte by byte or as a whole.

ghost use Rattle.std.specs.Prelude.{◌≡◌, true, length, None, is_some, unwrap_or, option_map};
ghost use Rattle.ec_sync.specs.SyncManager.{may_app_put as application_may_put, may_app_get as application_may_get, app_put as put_by_application, app_got, after_get};

use crate::manager::SyncManager;

impl SyncManager {
    /// Whether the application may write: an enabled buffered manager that the ring reads.
    pub fn may_app_put(&self) -> bool
        ensures { result ≡ application_may_put self.now }
    {
        self.is_enabled() && self.settings.is_buffered() && self.settings.is_master_read()
    }

    /// Whether the application may read: an enabled buffered manager that the ring writes.
    pub fn may_app_get(&self) -> bool
        ensures { result ≡ application_may_get self.now }
    {
        self.is_enabled() && self.settings.is_buffered() && self.settings.is_master_written()
    }

    /// The application writes byte `offset`: byte 0 opens a draft of zeros, the last byte publishes it. Returns false and
    /// changes nothing if it is denied. It is granted if this is an enabled buffered manager that the ring reads, and the
    /// place is below its length. Each byte after the first needs an open draft.
    pub fn app_put(&mut self, offset: usize, byte: u8) -> bool
        ensures granted { result ≡ is_some (put_by_application self.old offset byte) }
        ensures after { self.new ≡ unwrap_or (put_by_application self.old offset byte) self.old }
    {
        if !self.may_app_put() {
            return false;
        }
        self.buffer.put(offset, byte)
    }

    /// The application writes all bytes in turn, as by `app_put`: the last one publishes them. The caller has checked the right.
    pub fn app_put_all(&mut self, value: &[u8])
        requires allowed { application_may_put self.old ≡ true }
        requires long { length value.now ≡ length self.old.buffer.published }
        ensures { self.new ≡ record self.old { buffer = record self.old.buffer { published = value.now; draft = None } } }
    {
        self.buffer.put_all(value);
    }

    /// The application reads byte `offset`: byte 0 opens a view of the published value, the last byte closes it. Returns none
    /// and changes nothing if it is denied. It is granted if this is an enabled buffered manager that the ring writes, and
    /// the place is below its length. Each byte after the first needs an open view.
    pub fn app_get(&mut self, offset: usize) -> Option<u8>
        ensures byte { result ≡ option_map (λ got. got.byte) (app_got self.old offset) }
        ensures after { self.new ≡ after_get self.old (app_got self.old offset) }
    {
        if !self.may_app_get() {
            return None;
        }
        self.buffer.get(offset)
    }

    /// The application reads all bytes of what is published in turn, as by `app_get`: the last one closes its view. The
    /// caller has checked the right.
    pub fn app_get_all(&mut self)
        requires { application_may_get self.old ≡ true }
        ensures { self.new ≡ record self.old { buffer = record self.old.buffer { view = None } } }
    {
        self.buffer.get_all();
    }
}

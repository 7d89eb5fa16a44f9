//! The bounds of a manager's bytes, kept decoded so that a test of a byte is a comparison.

ghost use Rattle.std.specs.Prelude.{◌≡◌};
ghost use Rattle.ec_sync.specs.Bounds.{bounds_of};

use ec_regs::SyncManagerSettings;

/// The bounds of a manager's bytes in the memory, decoded from its settings. It governs the bytes from `first` to before
/// `span_end`, and none if it isn't set.
#[derive(Clone, Copy, Debug)]
pub struct Bounds {
    /// The first byte of the value.
    pub first: usize,
    /// The first address after the value, which is the first buffer of a buffered manager.
    pub value_end: usize,
    /// The first address after all that the manager governs, three buffers or a mailbox; 0 if it isn't set.
    pub span_end: usize,
    /// Whether the settings make a manager.
    pub is_set: bool,
}

impl Bounds {
    /// The bounds of a manager with these settings.
    pub fn of(settings: SyncManagerSettings) -> Self
        ensures { result ≡ bounds_of settings }
    {
        let first = settings.start as usize;
        let is_set = settings.is_set();
        Bounds {
            first,
            value_end: first + settings.length as usize,
            span_end: if is_set { first + settings.span() } else { 0 },
            is_set,
        }
    }
}

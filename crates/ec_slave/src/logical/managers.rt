//! What a logical datagram does to the sync managers.

ghost use Rattle.std.specs.Prelude.{◌≡◌, ◌<◌, ◌≤◌, ◌+◌, ◌*◌, ◌^◌, ◌&&◌, ℕ, length, [], Some, IfSome, if◌then◌else◌};
ghost use Rattle.ec_bits.specs.Bits.{bit};
ghost use Rattle.ec_regs.specs.Memory.{ram_end};
ghost use Rattle.ec_sync.specs.SyncManager.{ring_written};
ghost use Rattle.ec_fmmu.specs.Applied.{LogicalSpan, touched_by_reading, touched_by_writing};
ghost use Rattle.ec_slave.specs.Managers.{is_ungoverned, is_written_by, manager_after};
ghost use Rattle.ec_slave.specs.Logical.{logical_managers, plain_bit, logical_value};
ghost use Rattle.ec_slave.specs.Written.{some_manager_written};

use crate::logical::writing::Ungoverned;
use crate::runs::are_ungoverned;
use ec_exchange::{read_manager, take_value, write_manager};
use ec_fmmu::{FmmuTable, apply_write, is_touched_by_reading, is_touched_by_writing, whole_source};
use ec_sync::{SyncManager, Touching, Writing};

/// The bits of a logical datagram that reads.
#[derive(Clone, Copy)]
struct ReadBits<'a> {
    fmmus: &'a FmmuTable,
    from: u64,
    bits: u64,
}

impl Touching for ReadBits<'_> {
    ghost use Rattle.ec_fmmu.specs.Applied.{LogicalSpan, touched_by_reading};

    ghost touched = { λ r a. touched_by_reading r.fmmus.now
        (record { from = r.from; bits = r.bits }) a };

    fn touches(&self, address: usize) -> bool {
        is_touched_by_reading(self.fmmus, self.from, self.bits, address as u16)
    }
}

/// The bits of a logical datagram as a manager takes them whose lower-numbered managers are `lower`.
#[derive(Clone, Copy)]
struct Bits<'a> {
    lower: &'a [SyncManager],
    fmmus: &'a FmmuTable,
    from: u64,
    bytes: &'a [u8],
    ghost fits: { from + 8 * length bytes.now < 2 ^ 64 },
}

impl Touching for Bits<'_> {
    ghost use Rattle.std.specs.Prelude.{◌*◌, length};
    ghost use Rattle.ec_fmmu.specs.Applied.{LogicalSpan, touched_by_writing};

    ghost touched = { λ w a. touched_by_writing w.fmmus.now
        (record { from = w.from; bits = 8 * length w.bytes.now }) a };

    fn touches(&self, address: usize) -> bool {
        let bits = 8 * self.bytes.len() as u64;
        is_touched_by_writing(self.fmmus, self.from, bits, address as u16)
    }
}

impl Writing for Bits<'_> {
    ghost use Rattle.std.specs.Prelude.{◌*◌, length};
    ghost use Rattle.ec_fmmu.specs.Applied.{LogicalSpan};
    ghost use Rattle.ec_slave.specs.Logical.{logical_value};
    ghost use Rattle.ec_slave.specs.Untouched.{untouched-zero};

    ghost written = { λ w start len. logical_value w.lower.now w.fmmus.now
        (record { from = w.from; bits = 8 * length w.bytes.now }) w.bytes.now start len };

    ghost zero_untouched = { λ w start len k first last inside untouched.
        untouched-zero w.lower.now w.fmmus.now
        (record { from = w.from; bits = 8 * length w.bytes.now }) w.bytes.now start len k inside untouched };

    fn fill(&self, start: usize, value: &mut [u8]) {
        self.bring(start, value);
    }
}

impl Bits<'_> {
    /// The first of the data bits that are brought, one after the other, to the bits of the `len` bytes that begin at `start`.
    /// No lower manager governs one of these bytes, so none of what they held stays. None says nothing.
    fn source(&self, start: usize, len: usize) -> Option<usize>
        requires some { 0 < len }
        requires inside { start + len ≤ ram_end }
        ensures inside { IfSome result (λ at. at + 8 * len ≤ 8 * length self.now.bytes.now) }
        ensures bits { IfSome result (λ at. (k : ℕ) → k < 8 * len → plain_bit self.now.lower.now self.now.fmmus.now
            (record { from = self.now.from; bits = 8 * length self.now.bytes.now }) self.now.bytes.now (8 * start + k)
            ≡ Some (bit self.now.bytes.now (at + k))) }
    {
        if !are_ungoverned(self.lower, start, len) {
            return None;
        }
        let bits = 8 * self.bytes.len() as u64;
        let (first, count) = (8 * start as u32, 8 * len as u32);
        whole_source(self.fmmus, self.from, bits, first, count)
    }

    /// Fills a value that begins at `start` with zeros, and then with what is brought.
    #[inline(never)]
    fn bring(&self, start: usize, value: &mut [u8])
        requires { start + length value.old ≤ ram_end }
        ensures { value.new ≡ logical_value self.now.lower.now self.now.fmmus.now
            (record { from = self.now.from; bits = 8 * length self.now.bytes.now }) self.now.bytes.now start (length value.old) }
    {
        value.fill(0);
        let rights = Ungoverned {
            managers: self.lower,
        };
        let origin = 8 * start as u32;
        let _ = apply_write(self.fmmus, &rights, self.from, self.bytes, origin, value);
    }
}

/// Each of the four managers meets a logical datagram whose first logical bit is `from`, from the
/// last to the first, so that each finds the lower-numbered ones as they were. A manager that the
/// datagram writes takes a whole value, with 0 in the bits that aren't brought to it. Returns
/// whether one is written.
pub(crate) fn access_managers(
    managers: &mut [SyncManager],
    reading: bool,
    writing: bool,
    fmmus: &FmmuTable,
    from: u64,
    bytes: &[u8],
) -> bool
    requires four { length managers.old ≡ 4 }
    requires fits { from + 8 * length bytes.now < 2 ^ 64 }
    ensures any { let place : LogicalSpan = record { from = from; bits = 8 * length bytes.now } in
        result ≡ (writing && some_manager_written [] fmmus.now place bytes.now managers.old) }
    ensures after { let place : LogicalSpan = record { from = from; bits = 8 * length bytes.now } in
        managers.new
        ≡ logical_managers [] reading writing fmmus.now place bytes.now managers.old }
{
    let mut is_written = false;
    for k in 0..4 {
        let place = 3 - k;
        let (lower, rest) = managers.split_at_mut(place);
        is_written |= access_manager(lower, &mut rest[0], reading, writing, fmmus, from, bytes);
    }
    is_written
}

/// One manager meets a datagram: it is written, or else read, or stays as it was. Returns whether it is written.
fn access_manager(
    lower: &[SyncManager],
    manager: &mut SyncManager,
    reading: bool,
    writing: bool,
    fmmus: &FmmuTable,
    from: u64,
    bytes: &[u8],
) -> bool
    requires { from + 8 * length bytes.now < 2 ^ 64 }
    ensures written { let place : LogicalSpan = record { from = from; bits = 8 * length bytes.now } in
        result ≡ (writing && is_written_by (touched_by_writing fmmus.now place) (is_ungoverned lower.now) manager.old) }
    ensures after { let place : LogicalSpan = record { from = from; bits = 8 * length bytes.now } in
        manager.new ≡ manager_after reading writing
        (touched_by_reading fmmus.now place) (touched_by_writing fmmus.now place)
        (is_ungoverned lower.now) (logical_value lower.now fmmus.now place bytes.now) manager.old }
{
    let access = Bits {
        lower,
        fmmus,
        from,
        bytes,
    };
    if writing && write_bits(manager, &access) {
        return true;
    }
    if reading {
        let bits = 8 * bytes.len() as u64;
        read_manager(lower, manager, &ReadBits { fmmus, from, bits });
    }
    false
}

/// A manager takes what is brought to it, if the datagram gets at it and the ring may write it. Returns whether it does. Usually
/// all of its value is brought as one run: then the datagram gets at it, and the value is one copy.
fn write_bits(manager: &mut SyncManager, access: &Bits<'_>) -> bool
    ensures written { let place : LogicalSpan = record { from = access.now.from; bits = 8 * length access.now.bytes.now } in
        result ≡ is_written_by (touched_by_writing access.now.fmmus.now place) (is_ungoverned access.now.lower.now) manager.old }
    ensures after { let place : LogicalSpan = record { from = access.now.from; bits = 8 * length access.now.bytes.now } in
        let m = manager.old in
        manager.new ≡ (if is_written_by (touched_by_writing access.now.fmmus.now place) (is_ungoverned access.now.lower.now) m
        then ring_written m (logical_value access.now.lower.now access.now.fmmus.now place access.now.bytes.now m.settings.start m.settings.length) else m) }
{
    if !manager.may_write() {
        return false;
    }
    let start = manager.settings().start as usize;
    let len = manager.settings().length as usize;
    match access.source(start, len) {
        Some(at) => {
            take_value(manager, access.bytes, at);
            true
        }
        None => write_manager(access.lower, manager, access),
    }
}

//! Reads for a logical datagram.

ghost use Rattle.std.specs.Prelude.{◌≡◌, ◌<◌, ◌≤◌, ◌+◌, ◌-◌, ◌*◌, ◌/◌, ◌^◌, ◌&&◌, ℕ, None, Some, length};
ghost use Rattle.ec_bits.specs.Bits.{overlay};
ghost use Rattle.ec_regs.specs.Memory.{ram_end};
ghost use Rattle.ec_sync.specs.SyncManager.{may_read};
ghost use Rattle.ec_sync.specs.Governing.{covers, governor as governor_of, in_first_buffer};
ghost use Rattle.ec_fmmu.specs.Applied.{LogicalSpan, touched_by_reading};
ghost use Rattle.ec_slave.specs.Logical.{read_bit, some_read};
ghost use Rattle.ec_slave.specs.State.{manager_at};
ghost use Rattle.ec_slave.specs.ReadViews.{HasRoom, run_over, some_of_run, view_behind as behind_it, view_bit as bit_in_view};

use crate::runs::count_alike;
use ec_bits::{copy_by_words, get};
use ec_exchange::governor;
use ec_fmmu::{
    FmmuTable, ReadableBits, ReadableRuns, apply_read, is_touched_by_reading, read_by_bits,
};
use ec_sync::SyncManager;

/// A slave's memory and managers as a datagram sees them. `readable` says of each manager whether
/// the datagram gets at it: it is found once for all bits of the manager.
#[derive(Clone, Copy)]
struct ReadView<'a> {
    memory: &'a [u8],
    managers: &'a [SyncManager],
    readable: &'a [bool],
}

impl ReadableBits for ReadView<'_> {
    ghost use Rattle.std.specs.Prelude.{◌≡◌, length};
    ghost use Rattle.ec_slave.specs.ReadViews.{view_bit as bit_in_view};

    ghost can_read = { λ s. (length s.memory.now ≡ ram_end)
        × (length s.managers.now ≡ length s.readable.now) };

    ghost visible = { λ s q. bit_in_view s.memory.now s.managers.now s.readable.now q };

    fn visible_bit(&self, physical: u32) -> Option<bool> {
        view_bit(self.memory, self.managers, self.readable, physical)
    }
}

impl ReadableRuns for ReadView<'_> {
    fn read_run(&self, physical: u32, count: usize, bytes: &mut [u8], to: usize) -> bool {
        let mut any = false;
        let mut done = 0;
        while done < count {
            let next = physical + done as u32;
            let alike = count_alike(self.managers, next, count - done);
            any |= read_alike(self, next, alike, bytes, to + done);
            done += alike;
        }
        any
    }
}

/// Reads what a slave shows into the data of a logical datagram whose first logical bit is `from`:
/// each data bit that the read set leads to a bit that may be read, and no other. Returns whether a
/// bit was read.
pub(crate) fn read_logical(
    memory: &[u8],
    managers: &[SyncManager],
    fmmus: &FmmuTable,
    from: u64,
    bytes: &mut [u8],
) -> bool
    requires room { length memory.now ≡ ram_end }
    requires four { length managers.now ≡ 4 }
    requires fits { from + 8 * length bytes.old < 2 ^ 64 }
    ensures bits { let place : LogicalSpan = record { from = from; bits = 8 * length bytes.old } in
        bytes.new ≡ overlay bytes.old (read_bit memory.now managers.now fmmus.now place) }
    ensures any { let place : LogicalSpan = record { from = from; bits = 8 * length bytes.old } in
        result ≡ some_read memory.now managers.now fmmus.now place }
{
    let bits = 8 * bytes.len() as u64;
    let readable = [
        is_readable(&managers[0], fmmus, from, bits),
        is_readable(&managers[1], fmmus, from, bits),
        is_readable(&managers[2], fmmus, from, bits),
        is_readable(&managers[3], fmmus, from, bits),
    ];
    let view = ReadView {
        memory,
        managers,
        readable: &readable,
    };
    apply_read(fmmus, &view, from, bytes)
}

/// Brings a run of bits to the data. They lie in bytes that are alike: one manager governs all of
/// them, or none, and all lie before the end of its value, or none. Returns whether one was read.
fn read_alike(view: &ReadView<'_>, physical: u32, count: usize, bytes: &mut [u8], to: usize) -> bool
    requires some { 0 < count }
    requires room { length view.now.memory.now ≡ ram_end }
    requires four { length view.now.managers.now ≡ length view.now.readable.now }
    requires alike { (a : ℕ) → physical / 8 ≤ a → a ≤ (physical + count - 1) / 8
        → governor_of view.now.managers.now a ≡ governor_of view.now.managers.now (physical / 8) }
    requires front { (n a : ℕ) → governor_of view.now.managers.now (physical / 8) ≡ Some n → physical / 8 ≤ a → a ≤ (physical + count - 1) / 8
        → in_first_buffer (manager_at view.now.managers.now n) a ≡ in_first_buffer (manager_at view.now.managers.now n) (physical / 8) }
    requires run { HasRoom physical to count (length bytes.old) }
    ensures any { result ≡ some_of_run (bit_in_view view.now.memory.now view.now.managers.now view.now.readable.now) physical to count bytes.old }
    ensures bits { bytes.new ≡ run_over (bit_in_view view.now.memory.now view.now.managers.now view.now.readable.now) physical to count bytes.old }
{
    match governor(view.managers, physical as usize / 8) {
        None => read_plain(view, physical, count, bytes, to),
        Some(place) => read_value(view, place, physical, count, bytes, to),
    }
}

/// Brings a run of bits of a manager's value to the data, if it may be read. All bits lie before the
/// end of the value, or none. Returns whether one was read.
fn read_value(
    view: &ReadView<'_>,
    place: usize,
    physical: u32,
    count: usize,
    bytes: &mut [u8],
    to: usize,
) -> bool
    requires some { 0 < count }
    requires room { length view.now.memory.now ≡ ram_end }
    requires four { length view.now.managers.now ≡ length view.now.readable.now }
    requires governed { (a : ℕ) → physical / 8 ≤ a
        → a ≤ (physical + count - 1) / 8
        → governor_of view.now.managers.now a ≡ Some place }
    requires front { (a : ℕ) → physical / 8 ≤ a → a ≤ (physical + count - 1) / 8
        → in_first_buffer (manager_at view.now.managers.now place) a ≡ in_first_buffer (manager_at view.now.managers.now place) (physical / 8) }
    requires run { HasRoom physical to count (length bytes.old) }
    ensures any { result ≡ some_of_run (bit_in_view view.now.memory.now view.now.managers.now view.now.readable.now) physical to count bytes.old }
    ensures bits { bytes.new ≡ run_over (bit_in_view view.now.memory.now view.now.managers.now view.now.readable.now) physical to count bytes.old }
{
    if !view.readable[place] {
        return false;
    }
    let manager = &view.managers[place];
    let start = manager.settings().start as usize;
    let last = (physical as usize + count - 1) / 8;
    if !manager.in_first_buffer(last) {
        return false;
    }
    let value = manager.visible();
    if last - start >= value.len() {
        return read_by_bits(view, physical, count, bytes, to);
    }
    copy_by_words(bytes, to, value, physical as usize - 8 * start, count);
    true
}

/// Brings a run of bits that no manager governs to the data. Returns true.
fn read_plain(view: &ReadView<'_>, physical: u32, count: usize, bytes: &mut [u8], to: usize) -> bool
    requires some { 0 < count }
    requires room { length view.now.memory.now ≡ ram_end }
    requires plain { (a : ℕ) → physical / 8 ≤ a
        → a ≤ (physical + count - 1) / 8
        → governor_of view.now.managers.now a ≡ None }
    requires run { HasRoom physical to count (length bytes.old) }
    ensures any { result ≡ some_of_run (bit_in_view view.now.memory.now view.now.managers.now view.now.readable.now) physical to count bytes.old }
    ensures bits { bytes.new ≡ run_over (bit_in_view view.now.memory.now view.now.managers.now view.now.readable.now) physical to count bytes.old }
{
    copy_by_words(bytes, to, view.memory, physical as usize, count);
    true
}

/// What a physical bit shows. `readable` says of each manager whether the datagram gets at
/// it.
fn view_bit(
    memory: &[u8],
    managers: &[SyncManager],
    readable: &[bool],
    physical: u32,
) -> Option<bool>
    requires room { length memory.now ≡ ram_end }
    requires four { length managers.now ≡ length readable.now }
    requires inside { physical < 8 * ram_end }
    ensures { result ≡ bit_in_view memory.now managers.now readable.now physical }
{
    match governor(managers, physical as usize / 8) {
        Some(place) => view_behind(&managers[place], readable[place], physical),
        None => Some(get(memory, physical as usize)),
    }
}

/// What a physical bit shows that a manager governs.
fn view_behind(manager: &SyncManager, is_readable: bool, physical: u32) -> Option<bool>
    requires { manager.now.settings.start ≤ physical / 8 }
    ensures { result ≡ behind_it manager.now is_readable physical }
{
    let address = physical as usize / 8;
    if manager.in_first_buffer(address) && is_readable {
        let byte = manager.visible_byte(address);
        Some(get(&[byte], physical as usize % 8))
    } else {
        None
    }
}

/// Whether a datagram that reads gets at a manager: it touches its first and its last byte, and it
/// may read there.
fn is_readable(manager: &SyncManager, fmmus: &FmmuTable, from: u64, bits: u64) -> bool
    ensures { let place : LogicalSpan = record { from = from; bits = bits } in
        result ≡ (covers (touched_by_reading fmmus.now place) manager.now && may_read manager.now) }
{
    if !manager.may_read() {
        return false;
    }
    let first = manager.settings().start;
    let last = first + manager.settings().length - 1;
    is_touched_by_reading(fmmus, from, bits, first)
        && is_touched_by_reading(fmmus, from, bits, last)
}

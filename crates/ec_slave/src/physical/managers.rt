//! What a physical datagram does to the sync managers.

ghost use Rattle.std.specs.Prelude.{◌≡◌, ◌+◌, ◌-◌, ◌<◌, ◌≤◌, ◌*◌, ◌^◌, ℕ, length, [], unwrap_or, true};
ghost use Rattle.ec_bits.specs.Bits.{within, zeros};
ghost use Rattle.ec_regs.specs.Memory.{ram_end};
ghost use Rattle.ec_sync.specs.Governing.{manager_byte};
ghost use Rattle.ec_slave.specs.Managers.{is_ungoverned, manager_after};
ghost use Rattle.ec_slave.specs.Physical.{as_shown, is_configured as is_configured_at, physical_manager, physical_managers, setting_at, settings_written, touches, physical_value};

use crate::numbers::{first_register, register_of};
use crate::physical::bytes::byte_for;
use crate::runs::are_ungoverned;
use ec_bits::within;
use ec_device::SlaveType;
use ec_exchange::{governor, read_manager, write_manager};
use ec_regs::{SyncManagerSettings, decode_manager, is_stored, shown_manager};
use ec_sync::{Reach, SyncManager, Touching, Writing};

/// The bytes of a datagram as a manager takes them whose lower-numbered managers are `lower`.
#[derive(Clone, Copy)]
struct Bytes<'a> {
    lower: &'a [SyncManager],
    from: usize,
    bytes: &'a [u8],
}

impl Touching for Bytes<'_> {
    ghost use Rattle.std.specs.Prelude.{length};
    ghost use Rattle.ec_bits.specs.Bits.{within};

    ghost touched = { λ w a. within w.from (length w.bytes.now) a };

    fn touches(&self, address: usize) -> bool {
        within(self.from, self.bytes.len(), address)
    }
}

impl Writing for Bytes<'_> {
    ghost use Rattle.std.specs.Prelude.{length};
    ghost use Rattle.ec_sync.specs.Touching.{all_touched};
    ghost use Rattle.ec_slave.specs.Physical.{physical_value};

    ghost written = { λ w start len. physical_value w.lower.now (record { from = w.from; bytes = w.bytes.now }) start len };

    ghost zero_untouched = { λ w start len k first last inside untouched.
        absurd (all_touched w.from (length w.bytes.now) start len k first last inside untouched) };

    fn fill(&self, start: usize, value: &mut [u8]) {
        if are_ungoverned(self.lower, start, value.len()) {
            self.copy_own(start, value);
        } else {
            value.fill(0);
            self.fill_zeros(start, value);
        }
    }
}

impl Bytes<'_> {
    /// Fills a value that begins at `start`, no byte of which a lower-numbered manager governs.
    fn copy_own(&self, start: usize, value: &mut [u8])
        requires some { 0 < length value.old }
        requires own { (a : ℕ) → start ≤ a → a < start + length value.old → is_ungoverned self.now.lower.now a ≡ true }
        requires first { within self.now.from (length self.now.bytes.now) start ≡ true }
        requires last { within self.now.from (length self.now.bytes.now) (start + length value.old - 1) ≡ true }
        ensures { value.new ≡ physical_value self.now.lower.now
            (record { from = self.now.from; bytes = self.now.bytes.now }) start (length value.old) }
    {
        let place = start - self.from;
        value.copy_from_slice(&self.bytes[place..place + value.len()]);
    }

    /// Fills a value of zeros that begins at `start`. Each byte that a lower-numbered manager governs stays 0.
    fn fill_zeros(&self, start: usize, value: &mut [u8])
        requires some { 0 < length value.old }
        requires inside { start + length value.old ≤ ram_end }
        requires zeroed { value.old ≡ zeros (length value.old) }
        requires first { within self.now.from (length self.now.bytes.now) start ≡ true }
        requires last { within self.now.from (length self.now.bytes.now) (start + length value.old - 1) ≡ true }
        ensures { value.new ≡ physical_value self.now.lower.now
            (record { from = self.now.from; bytes = self.now.bytes.now }) start (length value.old) }
    {
        for (k, byte) in value.iter_mut().enumerate() {
            if governor(self.lower, start + k).is_none() {
                *byte = self.bytes[start + k - self.from];
            }
        }
    }
}

/// Each of the four managers meets a datagram, from the last to the first, so that each finds the lower-numbered ones as
/// they were.
pub(crate) fn access_managers(
    kind: &SlaveType,
    managers: &mut [SyncManager],
    reads: bool,
    writes: bool,
    from: usize,
    bytes: &[u8],
)
    requires { length managers.old ≡ 4 }
    ensures { managers.new ≡ physical_managers kind.now.hardware [] reads writes (record { from = from; bytes = bytes.now }) 0 managers.old }
{
    for k in 0..4 {
        let place = 3 - k;
        let (lower, rest) = managers.split_at_mut(place);
        access_manager(kind, lower, &mut rest[0], place, reads, writes, from, bytes);
    }
}

/// One manager meets a datagram that leaves its settings.
fn take_access(
    lower: &[SyncManager],
    manager: &mut SyncManager,
    reads: bool,
    writes: bool,
    from: usize,
    bytes: &[u8],
)
    ensures { manager.new ≡ manager_after reads writes (touches (record { from = from; bytes = bytes.now }))
        (touches (record { from = from; bytes = bytes.now })) (is_ungoverned lower.now) (physical_value lower.now (record { from = from; bytes = bytes.now })) manager.old }
{
    if writes && write_manager(lower, manager, &Bytes { lower, from, bytes }) {
        return;
    }
    if reads {
        let len = bytes.len();
        read_manager(lower, manager, &Reach { from, len });
    }
}

/// One manager meets a datagram.
#[tactic(auto, unfolding(crate::specs::Physical::physical_manager))]
fn access_manager(
    kind: &SlaveType,
    lower: &[SyncManager],
    manager: &mut SyncManager,
    place: usize,
    reads: bool,
    writes: bool,
    from: usize,
    bytes: &[u8],
)
    requires { place < 4 }
    ensures { manager.new ≡ physical_manager kind.now.hardware lower.now reads writes (record { from = from; bytes = bytes.now }) place manager.old }
{
    if writes && is_configured(kind, from, bytes, place) {
        let settings = settings_after(kind, manager, from, bytes, place);
        manager.configure(settings);
    } else {
        take_access(lower, manager, reads, writes, from, bytes);
    }
}

/// The settings of a manager after a datagram.
fn settings_after(
    kind: &SlaveType,
    manager: &SyncManager,
    from: usize,
    bytes: &[u8],
    place: usize,
) -> SyncManagerSettings
    requires { place < 4 }
    ensures { result ≡ settings_written kind.now.hardware (record { from = from; bytes = bytes.now }) place manager.now }
{
    let first = first_register(kind, place);
    let registers = [
        byte_after(kind, manager, from, bytes, first, 0),
        byte_after(kind, manager, from, bytes, first, 1),
        byte_after(kind, manager, from, bytes, first, 2),
        byte_after(kind, manager, from, bytes, first, 3),
        byte_after(kind, manager, from, bytes, first, 4),
        byte_after(kind, manager, from, bytes, first, 5),
        byte_after(kind, manager, from, bytes, first, 6),
        byte_after(kind, manager, from, bytes, first, 7),
    ];
    shown_manager(kind, decode_manager(&registers))
}

/// Byte k of a manager's eight, which begin at `first`, after a datagram.
fn byte_after(
    kind: &SlaveType,
    manager: &SyncManager,
    from: usize,
    bytes: &[u8],
    first: usize,
    k: usize,
) -> u8
    requires registers { first < 2 ^ 16 }
    requires byte { k < 8 }
    ensures { result ≡ unwrap_or (setting_at (record { from = from; bytes = bytes.now }) (first + k)) (manager_byte (as_shown kind.now.hardware manager.now) k) }
{
    setting_for(from, bytes, first + k).unwrap_or(register_of(kind, manager, k))
}

/// Whether a datagram writes one of the settings of the manager at a place.
fn is_configured(kind: &SlaveType, from: usize, bytes: &[u8], place: usize) -> bool
    requires { place < 4 }
    ensures { result ≡ is_configured_at kind.now.hardware (record { from = from; bytes = bytes.now }) place }
{
    let first = first_register(kind, place);
    if first + 8 <= from || from.saturating_add(bytes.len()) <= first {
        return false;
    }
    let mut is_some = false;
    for k in 0..8 {
        is_some |= setting_for(from, bytes, first + k).is_some();
    }
    is_some
}

/// What a datagram stores in a register of a manager.
fn setting_for(from: usize, bytes: &[u8], address: usize) -> Option<u8>
    ensures { result ≡ setting_at (record { from = from; bytes = bytes.now }) address }
{
    if is_stored(address) {
        byte_for(from, bytes, address)
    } else {
        None
    }
}

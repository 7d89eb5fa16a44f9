//! Finds the manager that has a byte, and makes an access of the ring, physical or logical, at one manager. Managers with
//! lower numbers may govern bytes of its value.

ghost use Rattle.std.specs.Prelude.{◌≡◌, ◌+◌, ◌<◌, ◌≤◌, ◌&&◌, if◌then◌else◌, length, IfSome, None, true};
ghost use Rattle.ec_bits.specs.Bits.{any_below};
ghost use Rattle.ec_regs.specs.Memory.{ram_end, ram_start};
ghost use Rattle.ec_sync.specs.SyncManager.{LiesInRam, ring_read, ring_written};
ghost use Rattle.ec_sync.specs.Governing.{governor as governor_of};
ghost use Rattle.ec_exchange.specs.Access.{gets_at, is_read_by, is_ungoverned, is_written_by};

use ec_regs::registers::RAM_START;
use ec_sync::{SyncManager, Touching, Writing};

/// The number of the sync manager that governs a byte: the lowest one that is set and whose span has it.
pub fn governor(managers: &[SyncManager], address: usize) -> Option<usize>
    ensures value { result ≡ governor_of managers.now address }
    ensures within { IfSome result (λ n. n < length managers.now) }
{
    for (place, manager) in managers.iter().enumerate() {
        if manager.governs(address) {
            return Some(place);
        }
    }
    None
}

/// The governor of a byte of the RAM, if it has one; none if the byte is a register.
pub fn owner_of(managers: &[SyncManager], address: usize) -> Option<usize>
    ensures within { IfSome result (λ n. n < length managers.now) }
    ensures value { ram_start ≤ address → result ≡ governor_of managers.now address }
    ensures register { address < ram_start → result ≡ None }
{
    if address < RAM_START {
        None
    } else {
        governor(managers, address)
    }
}

/// Makes an access that writes. Returns whether the manager takes its value: the access gets at it, and the ring may write it.
pub fn write_manager<W: Writing>(
    lower: &[SyncManager],
    manager: &mut SyncManager,
    access: &W,
) -> bool
    ensures written { result ≡ is_written_by (W.touched access.now) (is_ungoverned lower.now) manager.old }
    ensures after { let m = manager.old in
        manager.new ≡ (if is_written_by (W.touched access.now) (is_ungoverned lower.now) m
        then ring_written m (W.written access.now m.settings.start m.settings.length) else m) }
{
    if !manager.may_write() || !reaches(access, lower, manager) {
        return false;
    }
    manager.store(access);
    true
}

/// Makes an access that reads. It empties a mailbox that it gets at, if the ring may read it, and changes no other manager.
pub fn read_manager<T: Touching>(lower: &[SyncManager], manager: &mut SyncManager, access: &T)
    ensures { let m = manager.old in
        manager.new ≡ (if is_read_by (T.touched access.now) (is_ungoverned lower.now) m then ring_read m else m) }
{
    if manager.settings().is_mailbox() && manager.may_read() && reaches(access, lower, manager) {
        let _ = manager.ring_read(access);
    }
}

/// Whether an access gets at a manager: at its first and its last byte, and at a byte that no manager in `lower` governs.
fn reaches<T: Touching>(access: &T, lower: &[SyncManager], manager: &SyncManager) -> bool
    requires { LiesInRam manager.now.settings }
    ensures { result ≡ gets_at (T.touched access.now) (is_ungoverned lower.now) manager.now }
{
    let start = manager.settings().start as usize;
    let len = manager.settings().length as usize;
    access.touches(start) && access.touches(start + len - 1) && has_own(access, lower, start, len)
}

/// Whether an access that touches the byte at `start` touches a byte that no manager in `lower` governs, among the `len` bytes
/// that begin there. The byte at `start` usually decides.
fn has_own<T: Touching>(access: &T, lower: &[SyncManager], start: usize, len: usize) -> bool
    requires some { 0 < len }
    requires inside { start + len ≤ ram_end }
    requires first { T.touched access.now start ≡ true }
    ensures { result ≡ any_below len (λ k. T.touched access.now (start + k) && is_ungoverned lower.now (start + k)) }
{
    if governor(lower, start).is_none() {
        return true;
    }
    some_is_own(access, lower, start, len)
}

/// Whether an access touches a byte that no manager in `lower` governs, among the `len` bytes that begin at `start`.
fn some_is_own<T: Touching>(access: &T, lower: &[SyncManager], start: usize, len: usize) -> bool
    requires { start + len ≤ ram_end }
    ensures { result ≡ any_below len (λ k. T.touched access.now (start + k) && is_ungoverned lower.now (start + k)) }
{
    for k in 0..len {
        if is_own(access, lower, start + k) {
            return true;
        }
    }
    false
}

/// Whether an access touches the byte at `address`, and no manager in `lower` governs it.
fn is_own<T: Touching>(access: &T, lower: &[SyncManager], address: usize) -> bool
    requires { address < ram_end }
    ensures { result ≡ (T.touched access.now address && is_ungoverned lower.now address) }
{
    access.touches(address) && governor(lower, address).is_none()
}

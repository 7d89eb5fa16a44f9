//! Runs of bytes that one sync manager governs, or none.

ghost use Rattle.std.specs.Prelude.{◌≡◌, ◌<◌, ◌≤◌, ◌+◌, ◌-◌, ◌/◌, ◌^◌, ℕ, Some, true};
ghost use Rattle.std.specs.Bool.{OnTrue};
ghost use Rattle.std.proofs.Common.{◌⊎◌};
ghost use Rattle.ec_sync.specs.Governing.{governs, governor as governor_of, in_first_buffer};
ghost use Rattle.ec_slave.specs.State.{manager_at};
ghost use Rattle.ec_slave.specs.Managers.{is_ungoverned};

use ec_exchange::governor;
use ec_sync::SyncManager;

/// The end of a part of the bytes from `start` to before `end` that lies on one side of a border.
pub(crate) fn cut(start: usize, end: usize, border: usize) -> usize
    requires { start < end }
    ensures inside { (start < result) × (result ≤ end) }
    ensures aside { (result ≤ border) ⊎ (border ≤ start) }
{
    if border <= start {
        end
    } else {
        end.min(border)
    }
}

/// The end of a part of the bytes from `start` to before `end`. The part has one governor, or none, and lies on one side of the
/// end of its value.
pub(crate) fn end_of_alike(managers: &[SyncManager], start: usize, end: usize) -> usize
    requires { start < end }
    ensures inside { (start < result) × (result ≤ end) }
    ensures governor { (a : ℕ) → start ≤ a → a < result → governor_of managers.now a ≡ governor_of managers.now start }
    ensures front { (n a : ℕ) → governor_of managers.now start ≡ Some n → start ≤ a → a < result
        → in_first_buffer (manager_at managers.now n) a ≡ in_first_buffer (manager_at managers.now n) start }
{
    let mut stop = end;
    for manager in managers {
        stop = cut_at_borders(manager, start, stop);
    }
    stop
}

/// Whether none of these managers governs one of the `len` bytes that begin at `start`. False says nothing.
pub(crate) fn are_ungoverned(managers: &[SyncManager], start: usize, len: usize) -> bool
    requires some { 0 < len }
    requires fits { start + len < 2 ^ 32 }
    ensures { OnTrue result ((a : ℕ) → start ≤ a → a < start + len → is_ungoverned managers.now a ≡ true) }
{
    let end = start + len;
    if governor(managers, start).is_some() {
        return false;
    }
    end_of_alike(managers, start, end) == end
}

/// How many of the `count` bits that begin at a physical bit lie in bytes that are alike in that.
pub(crate) fn count_alike(managers: &[SyncManager], physical: u32, count: usize) -> usize
    requires some { 0 < count }
    requires fits { physical + count < 2 ^ 32 }
    ensures inside { (0 < result) × (result ≤ count) }
    ensures governor { (a : ℕ) → physical / 8 ≤ a → a ≤ (physical + result - 1) / 8
        → governor_of managers.now a ≡ governor_of managers.now (physical / 8) }
    ensures front { (n a : ℕ) → governor_of managers.now (physical / 8) ≡ Some n → physical / 8 ≤ a → a ≤ (physical + result - 1) / 8
        → in_first_buffer (manager_at managers.now n) a ≡ in_first_buffer (manager_at managers.now n) (physical / 8) }
{
    let first = physical as usize;
    let end = end_of_alike(managers, first / 8, (first + count - 1) / 8 + 1);
    (8 * end - first).min(count)
}

/// The end of a part of the bytes from `start` to before `end`. A manager has all of the part or none; if it has them, all lie
/// before the end of its value, or none.
fn cut_at_borders(manager: &SyncManager, start: usize, end: usize) -> usize
    requires { start < end }
    ensures inside { (start < result) × (result ≤ end) }
    ensures governs { (a : ℕ) → start ≤ a → a < result → governs manager.now a ≡ governs manager.now start }
    ensures front { governs manager.now start ≡ true
        → (a : ℕ) → start ≤ a → a < result → in_first_buffer manager.now a ≡ in_first_buffer manager.now start }
{
    let bounds = manager.bounds();
    if bounds.span_end <= start || end <= bounds.first {
        return end;
    }
    let before = cut(start, end, bounds.first);
    let inside = cut(start, before, bounds.value_end);
    cut(start, inside, bounds.span_end)
}

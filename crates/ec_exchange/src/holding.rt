//! Finds where the process data of an area lie: in the values of managers 2 and 3, or in the RAM itself.

ghost use Rattle.std.specs.Prelude.{◌≡◌, ◌+◌, ◌*◌, ◌<◌, ◌≤◌, ◌^◌, ℕ, IfSome, None, true, false, length};
ghost use Rattle.std.specs.Bool.{OnTrue};
ghost use Rattle.ec_bits.specs.Bits.{within};
ghost use Rattle.ec_regs.specs.Memory.{ram_end};
ghost use Rattle.ec_fmmu.specs.Areas.{area, IsMappedBy, Spans};
ghost use Rattle.ec_sync.specs.Governing.{governor, governs};
ghost use Rattle.ec_exchange.specs.Values.{IsBufferAt, LiesFree, LiesIn};

use ec_fmmu::{FmmuTable, MappedArea};
use ec_regs::registers::RAM_END;
use ec_sync::SyncManager;

/// The area that the FMMUs map, if it lies whole in the `bits` logical bits that begin at `from`.
pub fn spanned_area(fmmus: &FmmuTable, from: u64, bits: u64) -> Option<MappedArea>
    requires { from + bits < 2 ^ 64 }
    ensures mapped { IfSome result (λ m. IsMappedBy fmmus.now m) }
    ensures spans { IfSome result (λ m. Spans (record { from = from; bits = bits }) (area m)) }
{
    let mapped = fmmus.area()?;
    if spans(&mapped, from, bits) {
        Some(mapped)
    } else {
        None
    }
}

/// Whether managers 2 and 3 hold an area that the FMMUs map. False says nothing.
pub fn is_held(managers: &[SyncManager], mapped: &MappedArea) -> bool
    requires four { length managers.now ≡ 4 }
    requires outs { mapped.now.outs < 2 ^ 42 }
    requires ins { mapped.now.ins < 2 ^ 42 }
    ensures outs { OnTrue result (LiesIn managers.now 2 mapped.now.out_start mapped.now.outs) }
    ensures ins { OnTrue result (LiesIn managers.now 3 mapped.now.in_start mapped.now.ins) }
{
    has_value(managers, 2, mapped.out_start, mapped.outs)
        && has_value(managers, 3, mapped.in_start, mapped.ins)
}

/// Whether an area that the FMMUs map lies in the RAM itself. False says nothing.
pub fn is_plain(managers: &[SyncManager], mapped: &MappedArea) -> bool
    requires outs { mapped.now.outs < 2 ^ 42 }
    requires ins { mapped.now.ins < 2 ^ 42 }
    ensures outs { OnTrue result (LiesFree managers.now mapped.now.out_start mapped.now.outs) }
    ensures ins { OnTrue result (LiesFree managers.now mapped.now.in_start mapped.now.ins) }
    ensures apart { OnTrue result ((q : ℕ) → within (8 * mapped.now.in_start) mapped.now.ins q ≡ true → within (8 * mapped.now.out_start) mapped.now.outs q ≡ false) }
{
    is_apart(mapped) && (is_in_gap(managers, mapped) || are_free(managers, mapped))
}

/// Whether an area that begins in the RAM ends there, and no manager governs a byte from its first to its last. This is the first
/// test, since it goes over the managers once. False says nothing.
fn is_in_gap(managers: &[SyncManager], mapped: &MappedArea) -> bool
    requires outs { mapped.now.outs < 2 ^ 42 }
    requires ins { mapped.now.ins < 2 ^ 42 }
    requires out_start { mapped.now.out_start ≤ ram_end }
    requires in_start { mapped.now.in_start ≤ ram_end }
    ensures outs { OnTrue result (LiesFree managers.now mapped.now.out_start mapped.now.outs) }
    ensures ins { OnTrue result (LiesFree managers.now mapped.now.in_start mapped.now.ins) }
{
    let out_stop = mapped.out_start + (mapped.outs + 7) / 8;
    let in_stop = mapped.in_start + (mapped.ins + 7) / 8;
    let first = mapped.out_start.min(mapped.in_start);
    let last = out_stop.max(in_stop);
    last <= RAM_END as u64 && are_clear(managers, first as usize, last as usize)
}

/// Whether the outputs and the inputs of an area that begins in the RAM lie in the RAM itself. False says nothing.
fn are_free(managers: &[SyncManager], mapped: &MappedArea) -> bool
    requires outs { mapped.now.outs < 2 ^ 42 }
    requires ins { mapped.now.ins < 2 ^ 42 }
    requires out_start { mapped.now.out_start ≤ ram_end }
    requires in_start { mapped.now.in_start ≤ ram_end }
    ensures outs { OnTrue result (LiesFree managers.now mapped.now.out_start mapped.now.outs) }
    ensures ins { OnTrue result (LiesFree managers.now mapped.now.in_start mapped.now.ins) }
{
    is_free(managers, mapped.out_start, mapped.outs)
        && is_free(managers, mapped.in_start, mapped.ins)
}

/// Whether a manager governs none of the bytes from `start` to before `end`. False says nothing.
fn is_clear(manager: &SyncManager, start: usize, end: usize) -> bool
    ensures { OnTrue result ((a : ℕ) → start ≤ a → a < end → governs manager.now a ≡ false) }
{
    let bounds = manager.bounds();
    bounds.span_end <= start || end <= bounds.first
}

/// Whether a manager is buffered, and its value is the `len` bytes that begin at `start`. False says nothing.
fn is_buffer(manager: &SyncManager, start: u64, len: u64) -> bool
    ensures buffer { OnTrue result (IsBufferAt manager.now.settings start len) }
    ensures governs { OnTrue result ((a : ℕ) → start ≤ a → a < start + len → governs manager.now a ≡ true) }
    ensures small { OnTrue result (start + len < 2 ^ 32) }
{
    let settings = manager.settings();
    manager.is_set()
        && !settings.is_mailbox()
        && u64::from(settings.start) == start
        && u64::from(settings.length) == len
}

/// Whether none of these managers governs one of the bytes from `start` to before `end`. False says nothing.
fn are_clear(managers: &[SyncManager], start: usize, end: usize) -> bool
    ensures { OnTrue result ((a : ℕ) → start ≤ a → a < end → governor managers.now a ≡ None) }
{
    for manager in managers {
        if !is_clear(manager, start, end) {
            return false;
        }
    }
    true
}

/// Whether the `bits` bits that begin at `start`, if there are any, are the value of manager `place`, and no lower manager
/// governs a byte of it. False says nothing.
fn has_value(managers: &[SyncManager], place: usize, start: u64, bits: u64) -> bool
    requires place { place < length managers.now }
    requires small { bits < 2 ^ 42 }
    ensures { OnTrue result (LiesIn managers.now place start bits) }
{
    if bits == 0 {
        return true;
    }
    let len = (bits + 7) / 8;
    if !is_buffer(&managers[place], start, len) {
        return false;
    }
    are_clear(&managers[..place], start as usize, (start + len) as usize)
}

/// Whether `bits` bits that begin at `start` lie in the RAM itself, and no manager governs a byte of them. False says nothing.
fn is_free(managers: &[SyncManager], start: u64, bits: u64) -> bool
    requires inside { start ≤ ram_end }
    requires small { bits < 2 ^ 42 }
    ensures { OnTrue result (LiesFree managers.now start bits) }
{
    if bits == 0 {
        return true;
    }
    let stop = start + (bits + 7) / 8;
    stop <= RAM_END as u64 && are_clear(managers, start as usize, stop as usize)
}

/// Whether an area begins in the RAM, and no bit of its inputs is one of its outputs. False says nothing.
fn is_apart(mapped: &MappedArea) -> bool
    requires outs { mapped.now.outs < 2 ^ 42 }
    requires ins { mapped.now.ins < 2 ^ 42 }
    ensures outs { OnTrue result (mapped.now.out_start ≤ ram_end) }
    ensures ins { OnTrue result (mapped.now.in_start ≤ ram_end) }
    ensures apart { OnTrue result ((q : ℕ) → within (8 * mapped.now.in_start) mapped.now.ins q ≡ true → within (8 * mapped.now.out_start) mapped.now.outs q ≡ false) }
{
    let last = RAM_END as u64;
    if (mapped.out_start > last) | (mapped.in_start > last) {
        return false;
    }
    let out_end = 8 * mapped.out_start + mapped.outs;
    let in_end = 8 * mapped.in_start + mapped.ins;
    (out_end <= 8 * mapped.in_start) | (in_end <= 8 * mapped.out_start)
}

/// Whether a whole area lies in the `bits` logical bits that begin at `from`. False says nothing.
fn spans(mapped: &MappedArea, from: u64, bits: u64) -> bool
    requires outs { mapped.now.out_at + mapped.now.outs < 2 ^ 42 }
    requires ins { mapped.now.in_at + mapped.now.ins < 2 ^ 42 }
    requires fits { from + bits < 2 ^ 64 }
    ensures { OnTrue result (Spans (record { from = from; bits = bits }) (area mapped.now)) }
{
    let end = from + bits;
    from <= mapped.out_at
        && mapped.out_at + mapped.outs <= end
        && from <= mapped.in_at
        && mapped.in_at + mapped.ins <= end
}

//! Which bytes a physical datagram reads and writes, and what it leaves in the memory itself.

ghost use Rattle.std.specs.Prelude.{◌≡◌, ◌+◌, ◌-◌, ◌<◌, ◌≤◌, ◌^◌, ◌&&◌, ℕ, Bool, List, Option, if◌then◌else◌, nat_le, nat_lt, bit_or, length, slice_index, Some, None, IfSome};
ghost use Rattle.std.specs.Bool.{OnTrue};
ghost use Rattle.ec_bits.specs.Bits.{within};
ghost use Rattle.ec_device.specs.declared.hardware.Hardware.{Hardware};
ghost use Rattle.ec_regs.specs.Memory.{fmmu_start, ram_start, ram_end};
ghost use Rattle.ec_sync.specs.Governing.{governor as governor_of};
ghost use Rattle.ec_sync.specs.SyncManager.{SyncManager};
ghost use Rattle.ec_slave.specs.Physical.{byte_from, is_missing, is_stored_at, may_read_byte, may_write_byte, memory_written, updated, some_byte_written};

use crate::runs::{cut, end_of_alike};
use ec_device::SlaveType;
use ec_exchange::owner_of;
use ec_regs::registers::{
    FMMU_SIZE, FMMUS, FMMUS_END, RAM_END, RAM_START, SYNC_MANAGERS, SYNC_MANAGERS_END,
};
use ec_regs::{is_stored, takes_writes};
use ec_sync::SyncManager;

/// Whether a datagram over the `len` bytes that begin at `from` reads the byte at an address that it touches. `owner` is the
/// byte's governor, if it lies in the RAM.
#[tactic(auto, unfolding(crate::specs::Physical::may_read_byte))]
pub(crate) fn reads_byte(
    managers: &[SyncManager],
    owner: Option<usize>,
    from: usize,
    len: usize,
    address: usize,
) -> bool
    requires within { IfSome owner (λ n. n < length managers.now) }
    requires owner { ram_start ≤ address → owner ≡ governor_of managers.now address }
    ensures value { result ≡ may_read_byte managers.now (within from len) address }
    ensures inside { OnTrue result (address < ram_end) }
{
    if address < RAM_START {
        return true;
    }
    if RAM_END <= address {
        return false;
    }
    match owner {
        None => true,
        Some(index) => {
            let manager = &managers[index];
            manager.in_first_buffer(address) & (manager.is_covered(from, len) & manager.may_read())
        }
    }
}

/// The end of a part of the bytes from `start` to before `end`, of which a datagram reads all or none: registers, or bytes
/// of the RAM that are alike.
pub(crate) fn end_of_part(managers: &[SyncManager], start: usize, end: usize) -> usize
    requires { start < end }
    ensures inside { (start < result) × (result ≤ end) }
    ensures reads { (touched : ℕ → Bool) (a : ℕ) → start ≤ a → a < result
        → may_read_byte managers.now touched a ≡ may_read_byte managers.now touched start }
    ensures registers { start < ram_start → result ≤ ram_start }
    ensures owner { (a : ℕ) → ram_start ≤ a → start ≤ a → a < result → governor_of managers.now a ≡ governor_of managers.now start }
{
    if start < RAM_START {
        return end.min(RAM_START);
    }
    let stop = if RAM_END <= start {
        end
    } else {
        end.min(RAM_END)
    };
    end_of_alike(managers, start, stop)
}

/// Writes the bytes of a datagram into the memory itself of a slave of a type, and returns whether one is written there or
/// behind a manager. The registers of FMMUs that the slave lacks take none.
pub(crate) fn write_memory(
    kind: &SlaveType,
    memory: &mut [u8],
    managers: &[SyncManager],
    is_busy: bool,
    from: usize,
    bytes: &[u8],
) -> bool
    requires room { length memory.old ≡ ram_end }
    requires small { from + length bytes.now < 2 ^ 32 }
    requires few { length bytes.now < 2048 }
    ensures memory { memory.new ≡ memory_written kind.now.hardware managers.now (record { from = from; bytes = bytes.now }) memory.old }
    ensures some { result ≡ some_byte_written kind.now.hardware managers.now is_busy (record { from = from; bytes = bytes.now }) }
{
    let missing = FMMUS + FMMU_SIZE * usize::from(kind.fmmu_count());
    if reaches(missing, from, bytes.len()) {
        return write_around(memory, missing, is_busy, from, bytes);
    }
    write_physical(memory, managers, is_busy, from, bytes)
}

/// Whether a datagram over the `len` bytes that begin at `from` reaches registers of FMMUs that the slave lacks: those from
/// `missing` on.
fn reaches(missing: usize, from: usize, len: usize) -> bool
    requires { from + len < 2 ^ 32 }
    ensures { result ≡ ((nat_lt missing (fmmu_start 4) && nat_lt from (fmmu_start 4)) && nat_lt missing (from + len)) }
{
    missing < FMMUS_END && from < FMMUS_END && missing < from + len
}

/// Writes the bytes of a datagram that reaches over registers of FMMUs, of which those from `missing` on take none, and returns
/// whether one is written: what lies before them, and what lies behind them.
fn write_around(memory: &mut [u8], missing: usize, is_busy: bool, from: usize, bytes: &[u8]) -> bool
    requires room { length memory.old ≡ ram_end }
    requires few { length bytes.now < 2048 }
    requires first { fmmu_start 0 ≤ missing }
    requires last { missing < fmmu_start 4 }
    requires low { from < fmmu_start 4 }
    requires high { missing < from + length bytes.now }
    ensures memory { (o : Option Hardware) (ms : List SyncManager) → ((a : ℕ) → is_missing o a ≡ (nat_le missing a && nat_lt a (fmmu_start 4)))
        → memory.new ≡ memory_written o ms (record { from = from; bytes = bytes.now }) memory.old }
    ensures some { (o : Option Hardware) (ms : List SyncManager) (busy : Bool) → busy ≡ is_busy
        → ((a : ℕ) → is_missing o a ≡ (nat_le missing a && nat_lt a (fmmu_start 4)))
        → result ≡ some_byte_written o ms busy (record { from = from; bytes = bytes.now }) }
{
    let before = missing.saturating_sub(from);
    let behind = (FMMUS_END - from).min(bytes.len());
    let is_before = write_registers(memory, is_busy, from, &bytes[..before]);
    let is_behind = write_registers(memory, is_busy, FMMUS_END, &bytes[behind..]);
    is_before | is_behind
}

/// Writes the bytes of a datagram into the memory itself, and returns whether one is written there or behind a manager.
/// It finds once for each part who governs bytes of the RAM and whether they may be written: all of the part, or none, are.
fn write_physical(
    memory: &mut [u8],
    managers: &[SyncManager],
    is_busy: bool,
    from: usize,
    bytes: &[u8],
) -> bool
    requires room { length memory.old ≡ ram_end }
    requires small { from + length bytes.now < 2 ^ 32 }
    ensures memory { memory.new ≡ memory_written None managers.now (record { from = from; bytes = bytes.now }) memory.old }
    ensures some { result ≡ some_byte_written None managers.now is_busy (record { from = from; bytes = bytes.now }) }
{
    if from + bytes.len() <= RAM_START {
        return write_registers(memory, is_busy, from, bytes);
    }
    let len = bytes.len();
    let mut is_some = false;
    let mut done = 0;
    while done < len {
        let first = from + done;
        let owner = owner_of(managers, first);
        let count = end_of_written(managers, first, from + len) - first;
        is_some |= writes_byte(managers, owner, is_busy, from, len, first);
        store_part(memory, owner, first, &bytes[done..done + count]);
        done += count;
    }
    is_some
}

/// The byte that a datagram has for an address.
pub(crate) fn byte_for(from: usize, bytes: &[u8], address: usize) -> Option<u8>
    ensures { result ≡ byte_from (record { from = from; bytes = bytes.now }) address }
{
    let offset = address.checked_sub(from)?;
    bytes.get(offset).copied()
}

/// A data byte after a read that shows `visible`: joined by OR, or replaced.
pub(crate) fn read_over(joining: bool, byte: u8, visible: u8) -> u8
    ensures { result ≡ (if joining then bit_or byte visible else visible) }
{
    if joining { byte | visible } else { visible }
}

/// Reads `visible` into as many data bytes: joined by OR, or replaced.
pub(crate) fn read_slice(joining: bool, bytes: &mut [u8], visible: &[u8])
    requires { length visible.now ≡ length bytes.old }
    ensures { bytes.new ≡ updated bytes.old (λ k. Some (if joining
        then bit_or (slice_index bytes.old k) (slice_index visible.now k) else slice_index visible.now k)) }
{
    if joining {
        join_slice(bytes, visible);
    } else {
        bytes.copy_from_slice(visible);
    }
}

/// Whether the memory itself keeps a byte: a register that it stores, or a byte of the RAM that no manager governs. `owner` is
/// the byte's governor, if it lies in the RAM.
#[tactic(auto, unfolding(crate::specs::Physical::is_stored_at))]
fn is_stored_at(owner: Option<usize>, address: usize) -> bool
    ensures value { (ms : List SyncManager) → (ram_start ≤ address → owner ≡ governor_of ms address) → result ≡ is_stored_at ms address }
    ensures inside { OnTrue result (address < ram_end) }
{
    if address < RAM_START {
        return is_stored_register(address);
    }
    address < RAM_END && owner.is_none()
}

/// Whether the memory itself keeps a register: a stored one that is no sync manager's.
#[tactic(auto, unfolding(crate::specs::Physical::is_stored_at))]
fn is_stored_register(address: usize) -> bool
    requires { address < ram_start }
    ensures { (ms : List SyncManager) → result ≡ is_stored_at ms address }
{
    is_stored(address) && !(SYNC_MANAGERS..SYNC_MANAGERS_END).contains(&address)
}

/// Whether a datagram over the `len` bytes that begin at `from` writes the byte at an address that it touches. `owner` is the
/// byte's governor, if it lies in the RAM.
#[tactic(auto, unfolding(crate::specs::Physical::may_write_byte))]
fn writes_byte(
    managers: &[SyncManager],
    owner: Option<usize>,
    is_busy: bool,
    from: usize,
    len: usize,
    address: usize,
) -> bool
    requires within { IfSome owner (λ n. n < length managers.now) }
    requires owner { ram_start ≤ address → owner ≡ governor_of managers.now address }
    ensures { result ≡ may_write_byte managers.now is_busy (within from len) address }
{
    if address < RAM_START {
        return takes_writes(address, is_busy);
    }
    if RAM_END <= address {
        return false;
    }
    match owner {
        None => true,
        Some(index) => {
            let manager = &managers[index];
            manager.in_first_buffer(address) & (manager.is_covered(from, len) & manager.may_write())
        }
    }
}

/// Stores bytes at the addresses that begin at `start`.
fn store_slice(memory: &mut [u8], start: usize, bytes: &[u8])
    requires { start + length bytes.now ≤ length memory.old }
    ensures { memory.new ≡ updated memory.old (λ a. if within start (length bytes.now) a
        then Some (slice_index bytes.now (a - start)) else None) }
{
    memory[start..start + bytes.len()].copy_from_slice(bytes);
}

/// Stores a part of the bytes of a datagram, if the memory itself keeps them: it keeps all or none. `owner` is their governor.
fn store_part(memory: &mut [u8], owner: Option<usize>, start: usize, bytes: &[u8])
    requires room { length memory.old ≡ ram_end }
    requires aside { start < ram_end → start + length bytes.now ≤ ram_end }
    ensures { (ms : List SyncManager) → (ram_start ≤ start → owner ≡ governor_of ms start)
        → ((a : ℕ) → start ≤ a → a < start + length bytes.now → is_stored_at ms a ≡ is_stored_at ms start)
        → memory.new ≡ updated memory.old (λ a. if within start (length bytes.now) a
        then (if is_stored_at ms a then Some (slice_index bytes.now (a - start)) else None) else None) }
{
    if is_stored_at(owner, start) {
        store_slice(memory, start, bytes);
    }
}

/// The end of a part of the bytes from `start` to before `end`, of which a datagram writes all or none, and of which the
/// memory itself keeps all or none: one register, or bytes of the RAM, or behind it, that are alike.
fn end_of_written(managers: &[SyncManager], start: usize, end: usize) -> usize
    requires { start < end }
    ensures inside { (start < result) × (result ≤ end) }
    ensures aside { start < ram_end → result ≤ ram_end }
    ensures writes { (busy : Bool) (touched : ℕ → Bool) (a : ℕ) → start ≤ a → a < result
        → may_write_byte managers.now busy touched a ≡ may_write_byte managers.now busy touched start }
    ensures alike { (a : ℕ) → start ≤ a → a < result → is_stored_at managers.now a ≡ is_stored_at managers.now start }
{
    if start < RAM_START {
        return start + 1;
    }
    let stop = cut(start, end, RAM_END);
    end_of_alike(managers, start, stop)
}

/// Writes the bytes of a datagram that lies within the registers of the FMMUs, and returns whether one is written. The
/// memory itself keeps all of them.
fn write_fmmus(memory: &mut [u8], from: usize, bytes: &[u8]) -> bool
    requires room { length memory.old ≡ ram_end }
    requires low { fmmu_start 0 ≤ from }
    requires high { from + length bytes.now ≤ fmmu_start 4 }
    ensures memory { (ms : List SyncManager) → memory.new ≡ memory_written None ms (record { from = from; bytes = bytes.now }) memory.old }
    ensures some { (ms : List SyncManager) (busy : Bool) → result ≡ some_byte_written None ms busy (record { from = from; bytes = bytes.now }) }
{
    store_slice(memory, from, bytes);
    !bytes.is_empty()
}

/// Stores, byte by byte, what the memory itself keeps of a datagram that lies within the registers.
fn store_each(memory: &mut [u8], from: usize, bytes: &[u8])
    requires room { length memory.old ≡ ram_end }
    requires inside { from + length bytes.now ≤ ram_start }
    ensures { (ms : List SyncManager) → memory.new ≡ memory_written None ms (record { from = from; bytes = bytes.now }) memory.old }
{
    for (i, byte) in bytes.iter().enumerate() {
        let address = from + i;
        if is_stored_register(address) {
            memory[address] = *byte;
        }
    }
}

/// Stores what the memory itself keeps of a datagram that lies within the registers. It keeps no byte of the managers'
/// registers.
fn store_registers(memory: &mut [u8], from: usize, bytes: &[u8])
    requires room { length memory.old ≡ ram_end }
    requires inside { from + length bytes.now ≤ ram_start }
    ensures { (ms : List SyncManager) → memory.new ≡ memory_written None ms (record { from = from; bytes = bytes.now }) memory.old }
{
    if from < SYNC_MANAGERS || SYNC_MANAGERS_END < from + bytes.len() {
        store_each(memory, from, bytes);
    }
}

/// Whether one of the bytes of a datagram that lies within the registers is written. The first usually is.
fn takes_some(is_busy: bool, from: usize, bytes: &[u8]) -> bool
    requires { from + length bytes.now ≤ ram_start }
    ensures { (ms : List SyncManager) → result ≡ some_byte_written None ms is_busy (record { from = from; bytes = bytes.now }) }
{
    for i in 0..bytes.len() {
        if takes_writes(from + i, is_busy) {
            return true;
        }
    }
    false
}

/// Writes the bytes of a datagram that lies within the registers, and returns whether one is written. No manager
/// governs a register.
fn write_registers(memory: &mut [u8], is_busy: bool, from: usize, bytes: &[u8]) -> bool
    requires room { length memory.old ≡ ram_end }
    requires inside { from + length bytes.now ≤ ram_start }
    ensures memory { (ms : List SyncManager) → memory.new ≡ memory_written None ms (record { from = from; bytes = bytes.now }) memory.old }
    ensures some { (ms : List SyncManager) → result ≡ some_byte_written None ms is_busy (record { from = from; bytes = bytes.now }) }
{
    if FMMUS <= from && from + bytes.len() <= FMMUS_END {
        return write_fmmus(memory, from, bytes);
    }
    store_registers(memory, from, bytes);
    takes_some(is_busy, from, bytes)
}

/// Joins bytes to data bytes by OR.
fn join_slice(bytes: &mut [u8], visible: &[u8])
    requires { length visible.now ≡ length bytes.old }
    ensures { bytes.new ≡ updated bytes.old (λ k. Some (bit_or (slice_index bytes.old k) (slice_index visible.now k))) }
{
    for (k, byte) in bytes.iter_mut().enumerate() {
        *byte |= visible[k];
    }
}

//! Reads through FMMUs, run by run.
ghost use Rattle.std.specs.Prelude.{◌≡◌, ◌<◌, ◌+◌, ◌*◌, ◌^◌, ◌≤◌, length, ℕ, Option, Bool, is_some, get_or, option_and_then};
ghost use Rattle.ec_bits.specs.Bits.{overlay, any_below};
ghost use Rattle.ec_regs.specs.Memory.{ram_start, ram_end};
ghost use Rattle.ec_regs.specs.Fmmus.{no_fmmu};
ghost use Rattle.ec_fmmu.specs.Alone.{run_mapped};
ghost use Rattle.ec_fmmu.specs.Apart.{run_visible};
ghost use Rattle.ec_fmmu.specs.Applied.{read_updates};
ghost use Rattle.ec_fmmu.specs.Ranges.{range_read_updates};
ghost use Rattle.ec_fmmu.specs.Modes.{IsInRam};

use crate::mapping::Fmmu;
use crate::modes::Mode;
use crate::precedence::read_target;
use crate::run::Run;
use crate::table::FmmuTable;
use ec_bits::overwrite;

/// The memory behind the FMMUs: what each physical bit shows to a reader, if it may be read.
pub trait ReadableBits {
    /// What must hold of a value before it may be read.
    ghost can_read: { Self → Type 0 };

    /// What a physical bit shows; none if it may not be read.
    ghost visible: { Self → ℕ → Option Bool };

    /// What a physical bit shows; none if it may not be read.
    fn visible_bit(&self, physical: u32) -> Option<bool>
        requires can { can_read self.now }
        requires inside { physical < 8 * ram_end }
        ensures { result ≡ visible self.now physical };
}

/// The memory behind the FMMUs, also by runs of bits.
pub trait ReadableRuns: ReadableBits {
    /// Brings what `count` physical bits show to `count` bits of `bytes`, which begin at `physical`
    /// and `to`: each that may be read, and no other. Returns whether one may.
    fn read_run(&self, physical: u32, count: usize, bytes: &mut [u8], to: usize) -> bool
        requires can { Self.can_read self.now }
        requires from_ram { 8 * ram_start ≤ physical }
        requires to_ram { physical + count ≤ 8 * ram_end }
        requires there { to + count ≤ 8 * length bytes.old }
        requires fits { to + count < 2 ^ 64 }
        ensures any { result ≡ any_below (8 * length bytes.old)
            (λ i. is_some (run_visible (Self.visible self.now) physical to count i)) }
        ensures bits { bytes.new
            ≡ overlay bytes.old (run_visible (Self.visible self.now) physical to count) };
}

/// Brings what a run of bits shows to the data, bit by bit: a body for
/// [`ReadableRuns::read_run`].
#[inline(never)]
pub fn read_by_bits<M: ReadableBits>(
    memory: &M,
    physical: u32,
    count: usize,
    bytes: &mut [u8],
    to: usize,
) -> bool
    requires can { M.can_read memory.now }
    requires to_ram { physical + count ≤ 8 * ram_end }
    requires there { to + count ≤ 8 * length bytes.old }
    requires fits { to + count < 2 ^ 64 }
    ensures any { result ≡ any_below (8 * length bytes.old)
        (λ i. is_some (run_visible (M.visible memory.now) physical to count i)) }
    ensures bits { bytes.new
        ≡ overlay bytes.old (run_visible (M.visible memory.now) physical to count) }
{
    let mut any = false;
    for k in 0..count {
        let update = memory.visible_bit(physical + k as u32);
        any |= overwrite(bytes, to + k, update);
    }
    any
}

/// Reads through the FMMUs into the data of a logical datagram whose first logical bit is `from`.
/// A data bit that a read pair leads to a physical bit that shows something becomes that, and all
/// others stay. Returns whether a bit was read. It only looks at bits in the ranges of FMMUs that
/// read.
pub fn apply_read<M: ReadableRuns>(
    fmmus: &FmmuTable,
    memory: &M,
    from: u64,
    bytes: &mut [u8],
) -> bool
    requires can { M.can_read memory.now }
    requires fits { from + 8 * length bytes.old < 2 ^ 64 }
    ensures any { result ≡ any_below (8 * length bytes.old)
        (λ i. is_some (read_updates fmmus.now (M.visible memory.now) from i)) }
    ensures bits { bytes.new ≡ overlay bytes.old (read_updates fmmus.now (M.visible memory.now) from) }
{
    let mut any = false;
    for index in 0..fmmus.read_end() {
        any |= read_fmmu(fmmus, index, memory, from, bytes);
    }
    any
}

/// Reads the data bits that lie in the range of one FMMU, if it reads.
#[inline(never)]
fn read_range<M: ReadableBits>(
    fmmus: &[Fmmu],
    range: &Fmmu,
    memory: &M,
    from: u64,
    bytes: &mut [u8],
) -> bool
    requires can { M.can_read memory.now }
    requires fits { from + 8 * length bytes.old < 2 ^ 64 }
    ensures any { result ≡ any_below (8 * length bytes.old)
        (λ i. is_some (range_read_updates range.now fmmus.now (M.visible memory.now) from i)) }
    ensures bits { bytes.new
        ≡ overlay bytes.old (range_read_updates range.now fmmus.now (M.visible memory.now) from) }
{
    if !range.reads() {
        return false;
    }
    let mut any = false;
    let bits = 8 * bytes.len() as u64;
    let first = range.first_logical().max(from) - from;
    let end = (range.first_logical() + range.bit_count()).max(from) - from;
    for index in first..end.min(bits) {
        let update = read_bit(fmmus, memory, from, index as usize);
        any |= overwrite(bytes, index as usize, update);
    }
    any
}

/// Reads the data bits that lie in the range of the FMMU at an index, if it reads: as one run if
/// no other range meets it, and else bit by bit.
fn read_fmmu<M: ReadableRuns>(
    fmmus: &FmmuTable,
    index: usize,
    memory: &M,
    from: u64,
    bytes: &mut [u8],
) -> bool
    requires can { M.can_read memory.now }
    requires fits { from + 8 * length bytes.old < 2 ^ 64 }
    requires there { index < 4 }
    ensures any { result ≡ any_below (8 * length bytes.old)
        (λ i. is_some (range_read_updates (get_or fmmus.now index no_fmmu) fmmus.now (M.visible memory.now) from i)) }
    ensures bits { bytes.new
        ≡ overlay bytes.old (range_read_updates (get_or fmmus.now index no_fmmu) fmmus.now (M.visible memory.now) from) }
{
    match fmmus.read_mode(index) {
        Mode::Closed => false,
        Mode::Alone(run) => read_alone(run, memory, from, bytes),
        Mode::Shared => {
            let all = fmmus.as_slice();
            read_range(all, &all[index], memory, from, bytes)
        }
    }
}

/// Reads the data bits in the pairs of a run.
fn read_alone<M: ReadableRuns>(run: Run, memory: &M, from: u64, bytes: &mut [u8]) -> bool
    requires can { M.can_read memory.now }
    requires fits { from + 8 * length bytes.old < 2 ^ 64 }
    requires inside { IsInRam run }
    ensures any { result ≡ any_below (8 * length bytes.old) (λ i. is_some (option_and_then (M.visible memory.now)
        (run_mapped run.logical run.physical run.count (from + i)))) }
    ensures bits { bytes.new ≡ overlay bytes.old (λ i. option_and_then (M.visible memory.now)
        (run_mapped run.logical run.physical run.count (from + i))) }
{
    let bits = 8 * bytes.len() as u64;
    let first = run.logical.max(from) - from;
    let end = ((run.logical + run.count).max(from) - from).min(bits);
    if end <= first {
        return false;
    }
    let physical = run.physical + (from + first - run.logical);
    memory.read_run(
        physical as u32,
        (end - first) as usize,
        bytes,
        first as usize,
    )
}

/// What the data bit at an index becomes, if it is read.
fn read_bit<M: ReadableBits>(fmmus: &[Fmmu], memory: &M, from: u64, index: usize) -> Option<bool>
    requires can { M.can_read memory.now }
    requires fits { from + index < 2 ^ 64 }
    ensures { result ≡ read_updates fmmus.now (M.visible memory.now) from index }
{
    match read_target(fmmus, from + index as u64) {
        Some(physical) => memory.visible_bit(physical),
        None => None,
    }
}

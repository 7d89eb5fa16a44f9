//! Copies the process data of an area between the data of a datagram and a manager's value, or the RAM itself.

ghost use Rattle.std.specs.Prelude.{◌≡◌, ◌+◌, ◌-◌, ◌*◌, ◌<◌, ◌≤◌, ◌^◌, ◌&&◌, ℕ, true, if◌then◌else◌, length, nat_lt, slice_index};
ghost use Rattle.ec_bits.specs.Bits.{bytes_of_bits, copied, zeros};
ghost use Rattle.ec_regs.specs.Memory.{ram_end};
ghost use Rattle.ec_fmmu.specs.Applied.{LogicalSpan};
ghost use Rattle.ec_fmmu.specs.Areas.{area};
ghost use Rattle.ec_regs.specs.Managers.{is_set};
ghost use Rattle.ec_sync.specs.SyncManager.{LiesInRam, may_read, may_write, ring_written};
ghost use Rattle.ec_exchange.specs.Bits.{bits_from};
ghost use Rattle.ec_exchange.specs.Values.{IsBufferAt, inputs_into, outputs_from, with_published};

use ec_bits::{copy_by_words, within};
use ec_fmmu::MappedArea;
use ec_sync::{SyncManager, Touching, Writing};

/// Manager 2 takes the outputs of an area. Returns whether it does: the area has outputs, and the ring may write the manager.
pub fn take_outputs(manager: &mut SyncManager, mapped: &MappedArea, from: u64, bytes: &[u8]) -> bool
    requires small { from + 8 * length bytes.now < 2 ^ 64 }
    requires buffer { 0 < mapped.now.outs → IsBufferAt manager.old.settings mapped.now.out_start (bytes_of_bits mapped.now.outs) }
    requires first { from ≤ mapped.now.out_at }
    requires last { mapped.now.out_at + mapped.now.outs ≤ from + 8 * length bytes.now }
    ensures taken { result ≡ (nat_lt 0 mapped.now.outs && may_write manager.old) }
    ensures after { let place : LogicalSpan = record { from = from; bits = 8 * length bytes.now } in
        manager.new ≡ (if nat_lt 0 mapped.now.outs && may_write manager.old
        then with_published manager.old (outputs_from (area mapped.now) place bytes.now) else manager.old) }
{
    if mapped.outs == 0 || !manager.may_write() {
        return false;
    }
    manager.store(&Outputs {
        start: mapped.out_start as usize,
        len: (mapped.outs as usize + 7) / 8,
        bytes,
        at: (mapped.out_at - from) as usize,
        count: mapped.outs as usize,
    });
    true
}

/// Manager 3 gives the inputs of an area. Returns whether it does: the area has inputs, and the ring may read the manager.
pub fn give_inputs(manager: &SyncManager, mapped: &MappedArea, from: u64, bytes: &mut [u8]) -> bool
    requires small { from + 8 * length bytes.old < 2 ^ 64 }
    requires buffer { 0 < mapped.now.ins → IsBufferAt manager.now.settings mapped.now.in_start (bytes_of_bits mapped.now.ins) }
    requires first { from ≤ mapped.now.in_at }
    requires last { mapped.now.in_at + mapped.now.ins ≤ from + 8 * length bytes.old }
    ensures given { result ≡ (nat_lt 0 mapped.now.ins && may_read manager.now) }
    ensures bytes { let place : LogicalSpan = record { from = from; bits = 8 * length bytes.old } in
        bytes.new ≡ (if nat_lt 0 mapped.now.ins && may_read manager.now
        then inputs_into (area mapped.now) place manager.now.buffer.published bytes.old else bytes.old) }
{
    if mapped.ins == 0 || !manager.may_read() {
        return false;
    }
    let to = (mapped.in_at - from) as usize;
    copy_by_words(bytes, to, manager.published(), 0, mapped.ins as usize);
    true
}

/// Stores a whole value in a manager that the ring may write. Its bits are those of `bytes`, beginning with data bit `at`.
pub fn take_value(manager: &mut SyncManager, bytes: &[u8], at: usize)
    requires allowed { may_write manager.old ≡ true }
    requires set { is_set manager.old.settings ≡ true }
    requires lies { LiesInRam manager.old.settings }
    requires inside { at + 8 * manager.old.settings.length ≤ 8 * length bytes.now }
    requires small { 8 * length bytes.now < 2 ^ 64 }
    ensures { let n = manager.old.settings.length in
        manager.new ≡ ring_written manager.old (copied (zeros n) 0 bytes.now at (8 * n)) }
{
    let settings = manager.settings();
    let (start, len) = (settings.start as usize, settings.length as usize);
    manager.store(&Outputs {
        start,
        len,
        bytes,
        at,
        count: 8 * len,
    });
}

/// Copies the inputs of an area that lies in the RAM itself into the data of a datagram.
pub fn get_inputs(memory: &[u8], mapped: &MappedArea, from: u64, bytes: &mut [u8])
    requires small { from + 8 * length bytes.old < 2 ^ 64 }
    requires room { length memory.now ≡ ram_end }
    requires inside { mapped.now.in_start + bytes_of_bits mapped.now.ins ≤ ram_end }
    requires first { from ≤ mapped.now.in_at }
    requires last { mapped.now.in_at + mapped.now.ins ≤ from + 8 * length bytes.old }
    ensures { bytes.new ≡ copied bytes.old (mapped.now.in_at - from) memory.now (8 * mapped.now.in_start) mapped.now.ins }
{
    let to = (mapped.in_at - from) as usize;
    let at = 8 * mapped.in_start as usize;
    copy_by_words(bytes, to, memory, at, mapped.ins as usize);
}

/// Copies the outputs of an area that lies in the RAM itself out of the data of a datagram.
pub fn put_outputs(memory: &mut [u8], mapped: &MappedArea, from: u64, bytes: &[u8])
    requires small { from + 8 * length bytes.now < 2 ^ 64 }
    requires room { length memory.old ≡ ram_end }
    requires inside { mapped.now.out_start + bytes_of_bits mapped.now.outs ≤ ram_end }
    requires first { from ≤ mapped.now.out_at }
    requires last { mapped.now.out_at + mapped.now.outs ≤ from + 8 * length bytes.now }
    ensures { memory.new ≡ copied memory.old (8 * mapped.now.out_start) bytes.now (mapped.now.out_at - from) mapped.now.outs }
{
    let to = 8 * mapped.out_start as usize;
    let at = (mapped.out_at - from) as usize;
    copy_by_words(memory, to, bytes, at, mapped.outs as usize);
}

/// A value of `len` bytes that begins at `start`. Its first `count` bits are those of `bytes`, beginning with data bit `at`; the
/// bits behind them are 0.
#[derive(Clone, Copy)]
struct Outputs<'a> {
    start: usize,
    len: usize,
    bytes: &'a [u8],
    at: usize,
    count: usize,
    ghost fits: { at + count ≤ 8 * length bytes.now },
    ghost small: { 8 * length bytes.now < 2 ^ 64 },
    ghost whole: { 8 * len < count + 8 },
}

impl Touching for Outputs<'_> {
    ghost use Rattle.ec_bits.specs.Bits.{within};

    ghost touched = { λ w a. within w.start w.len a };

    fn touches(&self, address: usize) -> bool {
        within(self.start, self.len, address)
    }
}

impl Writing for Outputs<'_> {
    ghost use Rattle.std.specs.Prelude.{◌-◌, ◌*◌};
    ghost use Rattle.ec_exchange.specs.Bits.{bits_from, reaches_all};

    ghost written = { λ w start len. bits_from w.bytes.now w.at w.count (8 * (start - w.start)) len };

    ghost zero_untouched = { λ w start len k first last inside untouched.
        absurd (reaches_all w.start w.len start len k first last inside untouched) };

    fn fill(&self, start: usize, value: &mut [u8]) {
        self.copy(8 * (start - self.start), value);
    }
}

impl Outputs<'_> {
    /// Fills a range of bytes of the value that begins behind its first `skipped` bits.
    fn copy(&self, skipped: usize, value: &mut [u8])
        requires inside { skipped + 8 * length value.old ≤ 8 * self.now.len }
        requires some { 0 < length value.old }
        requires small { (k : ℕ) → slice_index value.old k < 256 }
        ensures { value.new ≡ bits_from self.now.bytes.now self.now.at self.now.count skipped (length value.old) }
    {
        let bits = 8 * value.len();
        let count = (self.count - skipped).min(bits);
        if count < bits {
            value.fill(0);
        }
        copy_by_words(value, 0, self.bytes, self.at + skipped, count);
    }
}

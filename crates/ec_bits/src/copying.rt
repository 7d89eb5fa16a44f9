//! Copies of bits, a byte a turn.
ghost use Rattle.std.specs.Prelude.{◌≡◌, ◌<◌, ◌≤◌, ◌+◌, ◌-◌, ◌*◌, ◌%◌, ◌^◌, ◌==◌, ℕ, length, if◌then◌else◌};
ghost use Rattle.std.specs.Int.{bit_at, from_bool};
ghost use Rattle.ec_bits.specs.Bits.{bit, copied, within, bytes_touched};

/// Copies bits into one byte of `dst`, or none, and returns in how many turns.
pub(crate) fn copy_part(dst: &mut [u8], to: usize, src: &[u8], from: usize, count: usize) -> usize
    requires byte { to % 8 + count ≤ 8 }
    requires inside { to + count ≤ 8 * length dst.old }
    requires there { from + count ≤ 8 * length src.now }
    ensures bits { dst.new ≡ copied dst.old to src.now from count }
    ensures turns { result ≡ (if count == 0 then 0 else 1) }
{
    if count == 0 {
        return 0;
    }
    copy_into_byte(dst, to, src, from, count);
    1
}

/// Copies bits that begin with a byte of `dst` and inside a byte of `src`, byte by byte.
pub(crate) fn shift_bytes(
    dst: &mut [u8],
    at: usize,
    src: &[u8],
    start: usize,
    shift: usize,
    count: usize,
) -> usize
    requires some { 0 < shift }
    requires small { shift < 8 }
    requires inside { at + count ≤ length dst.old }
    requires there { start + count < length src.now }
    ensures bits { dst.new ≡ copied dst.old (8 * at) src.now (8 * start + shift) (8 * count) }
    ensures turns { result ≡ count }
{
    let mut turns = 0;
    for k in 0..count {
        dst[at + k] = shifted(src[start + k], src[start + k + 1], shift);
        turns += 1;
    }
    turns
}

/// Copies `count` bits, which begin at `from` in `src` and at `to` in `dst`, and returns in how
/// many turns. A turn is one masked write of a byte of `dst`, so there are as many as bytes of
/// `dst` that hold a copied bit. The ends of both runs, counted in bits, fit a `usize`.
pub fn copy_bits(dst: &mut [u8], to: usize, src: &[u8], from: usize, count: usize) -> usize
    requires inside { to + count ≤ 8 * length dst.old }
    requires there { from + count ≤ 8 * length src.now }
    requires to_fits { to + count < 2 ^ 64 }
    requires from_fits { from + count < 2 ^ 64 }
    ensures bits { dst.new ≡ copied dst.old to src.now from count }
    ensures turns { result ≡ bytes_touched to count }
{
    let head = ((8 - to % 8) % 8).min(count);
    let whole = (count - head) / 8;
    let done = head + 8 * whole;
    let first = copy_part(dst, to, src, from, head);
    let middle = copy_whole(dst, (to + head) / 8, src, from + head, whole);
    let last = copy_part(dst, to + done, src, from + done, count - done);
    first + middle + last
}

/// Copies bits into one byte of `dst`.
fn copy_into_byte(dst: &mut [u8], to: usize, src: &[u8], from: usize, count: usize)
    requires some { 0 < count }
    requires byte { to % 8 + count ≤ 8 }
    requires inside { to + count ≤ 8 * length dst.old }
    requires there { from + count ≤ 8 * length src.now }
    ensures { dst.new ≡ copied dst.old to src.now from count }
{
    let value = fetch(src, from);
    dst[to / 8] = merge(dst[to / 8], value, to % 8, count);
}

/// One masked write: `count` bits of `byte`, which begin at `shift`, become those of `value`.
fn merge(byte: u8, value: u8, shift: usize, count: usize) -> u8
    requires some { 0 < count }
    requires inside { shift + count ≤ 8 }
    ensures { (j : ℕ) → j < 8 → bit_at result j ≡ (if within shift count j then bit_at value (j - shift) else bit_at byte j) }
{
    let mask = (255u8 >> (8 - count)) << shift;
    (byte & !mask) | ((value << shift) & mask)
}

/// The eight bits of `bytes` that begin at a place, with zeros past their end.
fn fetch(bytes: &[u8], from: usize) -> u8
    requires { from < 8 * length bytes.now }
    ensures { (j : ℕ) → j < 8 → bit_at result j ≡ from_bool (bit bytes.now (from + j)) }
{
    let low = u16::from(bytes[from / 8]);
    let high = if from / 8 < bytes.len() - 1 {
        u16::from(bytes[from / 8 + 1])
    } else {
        0
    };
    (((256 * high + low) >> (from % 8)) % 256) as u8
}

/// Copies bits that begin with a byte of both, byte by byte.
fn copy_bytes(dst: &mut [u8], at: usize, src: &[u8], start: usize, count: usize) -> usize
    requires inside { at + count ≤ length dst.old }
    requires there { start + count ≤ length src.now }
    ensures bits { dst.new ≡ copied dst.old (8 * at) src.now (8 * start) (8 * count) }
    ensures turns { result ≡ count }
{
    let mut turns = 0;
    for k in 0..count {
        dst[at + k] = src[start + k];
        turns += 1;
    }
    turns
}

/// The eight bits that begin at a place inside the lower one of two bytes.
fn shifted(low: u8, high: u8, shift: usize) -> u8
    requires some { 0 < shift }
    requires inside { shift < 8 }
    ensures { (j : ℕ) → j < 8 → bit_at result j ≡ bit_at (256 * high + low) (shift + j) }
{
    (low >> shift) | (high << (8 - shift))
}

/// Copies whole bytes of `dst`, and returns how many.
fn copy_whole(dst: &mut [u8], at: usize, src: &[u8], from: usize, count: usize) -> usize
    requires inside { at + count ≤ length dst.old }
    requires there { from + 8 * count ≤ 8 * length src.now }
    ensures bits { dst.new ≡ copied dst.old (8 * at) src.now from (8 * count) }
    ensures turns { result ≡ count }
{
    if count == 0 {
        return 0;
    }
    if from % 8 == 0 {
        return copy_bytes(dst, at, src, from / 8, count);
    }
    shift_bytes(dst, at, src, from / 8, from % 8, count)
}

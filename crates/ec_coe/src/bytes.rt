//! Reading single bytes, and gathering bytes without allocation.

ghost use Rattle.std.specs.Prelude.{◌≡◌, ◌≤◌, ◌<◌, ◌+◌, ◌*◌, ◌^◌, ◌++◌, length, slice_index};

use arrayvec::ArrayVec;

/// The byte at an offset, 0 past the end.
pub(crate) fn byte_at(bytes: &[u8], offset: usize) -> u8
    ensures { result ≡ slice_index bytes.now offset }
{
    bytes.get(offset).copied().unwrap_or(0)
}

/// The little-endian word at an offset, whose bytes past the end are 0.
pub(crate) fn word_at(bytes: &[u8], offset: usize) -> u16
    requires { offset < 2 ^ 16 }
    ensures { result ≡ slice_index bytes.now offset + 256 * slice_index bytes.now (offset + 1) }
{
    byte_at(bytes, offset) as u16 + 0x100 * byte_at(bytes, offset + 1) as u16
}

/// Puts bytes behind others, if there is room for them.
pub(crate) fn append<const N: usize>(bytes: &mut ArrayVec<u8, N>, more: &[u8])
    requires { length bytes.old.items + length more.now ≤ N }
    ensures { bytes.new.items ≡ bytes.old.items ++ more.now }
{
    let _ = bytes.try_extend_from_slice(more);
}

/// These bytes alone.
pub(crate) fn gathered<const N: usize>(from: &[u8]) -> ArrayVec<u8, N>
    requires { length from.now ≤ N }
    ensures { result.items ≡ from.now }
{
    let mut bytes = ArrayVec::new();
    append(&mut bytes, from);
    bytes
}

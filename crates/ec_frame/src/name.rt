//! How a master's frames are named (this project's profile).
ghost use Rattle.std.specs.Prelude.{◌≡◌, ◌≢◌, ◌%◌, ℕ, IfNone, IfSome, length};
ghost use Rattle.std.specs.Int.{to_le_bytes, w16, w64};
ghost use Rattle.ec_frame.specs.Names.{name_bytes};

use crate::field::NAME_LEN;

/// How many bytes a frame's number has in its name, before those of the part.
const NUMBER_LEN: usize = 8;

/// The name of a frame. The data of its first datagram spell it: the number in eight bytes and the part in two, little-endian.
#[derive(Clone, Copy, Debug, PartialEq, Eq, Drop)]
pub struct FrameName {
    /// The number of the frame, or of its cycle.
    pub number: u64,
    /// The part of the process data that the frame exchanges; 0 in a start-up.
    pub part: u16,
}

impl FrameName {
    /// The name that some bytes spell; none if they aren't ten.
    pub fn read(spelled: &[u8]) -> Option<FrameName>
        ensures name { IfSome result (λ name. spelled.now ≡ name_bytes name.number name.part) }
        ensures none { IfNone result (length spelled.now ≢ 10) }
    {
        if spelled.len() != NAME_LEN {
            return None;
        }
        let (number, part) = spelled.split_at(NUMBER_LEN);
        Some(FrameName {
            number: number_of(number),
            part: part_of(part),
        })
    }

    /// Its spelling.
    pub fn bytes(self) -> [u8; NAME_LEN]
        ensures { result ≡ name_bytes self.number self.part }
    {
        let mut name = [0; NAME_LEN];
        name[..NUMBER_LEN].copy_from_slice(&self.number.to_le_bytes());
        name[NUMBER_LEN..].copy_from_slice(&self.part.to_le_bytes());
        name
    }

    /// Writes another number into the spelling of a name, and leaves its part.
    pub fn renumber(name: &mut [u8], number: u64)
        requires { length name.old ≡ 10 }
        ensures { (was : ℕ) (part : ℕ) → name.old ≡ name_bytes was part → name.new ≡ name_bytes number part }
    {
        name[..NUMBER_LEN].copy_from_slice(&number.to_le_bytes());
    }
}

/// The index of all datagrams of a frame: the low byte of the frame's number.
pub fn index_of(number: u64) -> u8
    ensures { result ≡ number % 256 }
{
    (number % 256) as u8
}

/// The number that eight bytes spell.
fn number_of(bytes: &[u8]) -> u64
    requires { length bytes.now ≡ 8 }
    ensures { bytes.now ≡ to_le_bytes w64 result }
{
    let mut eight = [0; NUMBER_LEN];
    eight.copy_from_slice(bytes);
    u64::from_le_bytes(eight)
}

/// The part that two bytes spell.
fn part_of(bytes: &[u8]) -> u16
    requires { length bytes.now ≡ 2 }
    ensures { bytes.now ≡ to_le_bytes w16 result }
{
    let mut two = [0; 2];
    two.copy_from_slice(bytes);
    u16::from_le_bytes(two)
}

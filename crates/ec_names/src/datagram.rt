//! The datagrams that bytes spell.
ghost use Rattle.std.specs.Prelude.{◌≡◌, ◌+◌, ◌<◌, IfSome, drop, is_some};
ghost use Rattle.ec_frame.specs.Decoded.{after_data, decoded};
ghost use Rattle.ec_names.specs.DatagramFields.{HasFields, begins_a_datagram};

use byteorder::{ByteOrder, LittleEndian};
use ec_frame::Command;
use ec_frame::field::{HEADER_LEN, OVERHEAD};

/// Offsets in a datagram: of the address, and of the word whose low eleven bits are the length of the data in bytes.
const ADDRESS: usize = 2;

const FLAGS: usize = 6;

const LENGTHS: u16 = 2048;

/// What remarks on a datagram are made of.
#[derive(Clone, Copy, Debug)]
pub struct DatagramFields<'a> {
    /// What the slaves are asked to do.
    pub command: Command,
    /// The four address bytes: ADP the low half and ADO the high half, or a logical address.
    pub address: u32,
    /// The data.
    pub content: &'a [u8],
    /// The working counter.
    pub counter: u16,
}

/// The datagram at the start of some bytes, and the bytes behind it; `None` if it isn't whole or its command is unknown.
pub fn first_datagram(bytes: &[u8]) -> Option<(DatagramFields<'_>, &[u8])>
    ensures found { is_some result ≡ begins_a_datagram bytes.now }
    ensures shows { IfSome result (λ found. HasFields found.0 (decoded bytes.now)) }
    ensures rest { IfSome result (λ found. found.1.now ≡ drop 2 (after_data bytes.now)) }
{
    if bytes.len() < OVERHEAD {
        return None;
    }
    let command = Command::from_number(bytes[0])?;
    let address = LittleEndian::read_u32(&bytes[ADDRESS..]);
    let size = usize::from(LittleEndian::read_u16(&bytes[FLAGS..]) % LENGTHS);
    let (_, behind) = bytes.split_at(HEADER_LEN);
    if behind.len() < size + 2 {
        return None;
    }
    let (content, tail) = behind.split_at(size);
    let (counter, rest) = tail.split_at(2);
    let fields = DatagramFields {
        command,
        address,
        content,
        counter: LittleEndian::read_u16(counter),
    };
    Some((fields, rest))
}

//! Messages that a wait for a reply sets aside.

ghost use Rattle.std.specs.Prelude.{◌≡◌};
ghost use Rattle.ec_start.specs.Verdicts.{is_emergency, emergency_in, heard_in};

use byteorder::{ByteOrder, LittleEndian};
use ec_coe::MESSAGE_LENGTH;

/// An emergency: what a slave says of a fault of its own, unasked (ETG.1000.6, "Emergency").
#[derive(Clone, Copy, Debug, PartialEq, Eq)]
pub struct Emergency {
    /// The error code; 0 says that a fault is over.
    pub code: u16,
    /// The error register, as in object 0x1001.
    pub register: u8,
}

/// A message that a slave sent in place of a reply, and that was set aside.
#[derive(Clone, Copy, Debug, PartialEq, Eq)]
pub struct Heard {
    /// The slave, counted from 0 in the order of the table.
    pub slave: usize,
    /// The emergency that it is; none if it is any other message.
    pub emergency: Option<Emergency>,
}

impl Heard {
    /// What a slave says by the message in its mailbox.
    pub(crate) fn read(slave: usize, mailbox: &[u8]) -> Self
        ensures { result ≡ heard_in slave mailbox.now }
    {
        Heard {
            slave,
            emergency: Emergency::read(mailbox),
        }
    }
}

impl Emergency {
    /// The emergency in a mailbox; none if its message is another.
    fn read(mailbox: &[u8]) -> Option<Self>
        ensures { result ≡ emergency_in mailbox.now }
    {
        if !is_emergency(mailbox) {
            return None;
        }
        Some(Emergency {
            code: LittleEndian::read_u16(&mailbox[8..10]),
            register: mailbox[10],
        })
    }
}

/// Whether the message in a mailbox is an emergency: the type of CoE, and the service 1.
fn is_emergency(mailbox: &[u8]) -> bool
    ensures { result ≡ is_emergency mailbox.now }
{
    mailbox.len() >= MESSAGE_LENGTH && mailbox[5] % 16 == 3 && mailbox[7] / 16 == 1
}

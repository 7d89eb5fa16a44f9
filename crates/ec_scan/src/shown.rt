//! What a slave shows of itself.
ghost use Rattle.std.specs.Prelude.{◌≡◌, IfSome};
ghost use Rattle.ec_scan.specs.Showing.{IsUsable, is_in_ram, speaks_coe, usable};

use ec_device::{Identity, Mailbox, Pdo};
use ec_listed::Listed;
use ec_regs::registers::RAM_START;

/// The bit of CoE in a slave's mailbox protocols (ETG.1000.6, "Slave information interface area").
const COE: u16 = 1 << 2;

/// The first address behind all memory.
const END: usize = 0x1_0000;

/// What the SII says of mailboxes, word by word.
#[derive(Clone, Copy, Debug, PartialEq, Eq)]
pub struct ShownMailbox {
    /// Where they lie. Without mailboxes the sizes are 0.
    pub place: Mailbox,
    /// Which protocols they take, a bit each; bit 2 is CoE.
    pub protocols: u16,
}

impl ShownMailbox {
    /// Whether there are mailboxes that take CoE.
    pub fn speaks_coe(&self) -> bool
        ensures { result ≡ speaks_coe self.now }
    {
        self.place.receive_size > 0 && self.protocols & COE != 0
    }

    /// The mailboxes, if they take CoE, have sizes of this profile, and lie in the RAM. A scan writes to no others, so that an SII can't
    /// lead it to a register.
    pub fn usable(&self) -> Option<Mailbox>
        ensures value { result ≡ usable self.now }
        ensures within { IfSome result IsUsable }
    {
        let Mailbox {
            receive_start,
            receive_size,
            send_start,
            send_size,
        } = self.place;
        if self.speaks_coe()
            && self.place.is_within_limits()
            && is_in_ram(receive_start, receive_size)
            && is_in_ram(send_start, send_size)
        {
            Some(self.place)
        } else {
            None
        }
    }
}

/// Whether bytes lie in the RAM, behind the registers.
fn is_in_ram(start: u16, size: u16) -> bool
    ensures { result ≡ is_in_ram start size }
{
    usize::from(start) >= RAM_START && usize::from(start) + usize::from(size) <= END
}

/// What a slave shows of itself, as a scan finds it.
#[derive(Debug, Drop)]
pub struct Shown {
    /// Its identity.
    pub identity: Identity,
    /// What it says of mailboxes.
    pub mailbox: ShownMailbox,
    /// Whether it has firmware: without, its AL status is a copy of AL control.
    pub has_firmware: bool,
    /// The words of its SII's categories, from word 0x40 on: up to the end mark, or none if the SII has 64 words.
    pub categories: Listed<u16>,
    /// The PDOs that it exchanges towards it, in order, with their mapping. `None` if it doesn't take CoE by [`ShownMailbox::usable`], or
    /// has no object that says so, 0x1C12: so it answered. One without an index is an empty slot.
    pub outputs: Option<Listed<Pdo>>,
    /// The PDOs that it exchanges from it, by 0x1C13.
    pub inputs: Option<Listed<Pdo>>,
}

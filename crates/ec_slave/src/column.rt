//! A datagram that passes slaves, one after the other. Its header is decoded once, and what a slave may change of it
//! beside its data is written once, after the last.

ghost use Rattle.std.specs.Prelude.{◌≡◌, ◌<◌, Bool, length};
ghost use Rattle.ec_frame.specs.Datagram.{Datagram, IsDatagram, IsSpelling, spelling};
ghost use Rattle.ec_frame.specs.Fields.{with_data};
ghost use Rattle.ec_slave.specs.Meeting.{datagram_met, slave_met};
ghost use Rattle.ec_slave.specs.Column.{datagram_past, slaves_met};
ghost use Rattle.ec_slave.specs.Carried.{carrying, is_mapped};

use crate::role::Encounter;
use crate::slave::Slave;
use ec_frame::{
    Command, Header, address_of, cut_counter, cut_heading, read_counter, write_address,
    write_counter,
};

/// What a datagram carries from slave to slave beside its data.
#[derive(Clone, Copy)]
struct Carried {
    /// Its address, whose low half a slave counts on.
    address: u32,
    /// Its working counter.
    counter: u16,
}

impl Slave {
    /// Meets what a datagram carries, and returns what it carries on. One through the FMMUs is tested first: it may not
    /// concern the slave at all.
    fn meet(
        &mut self,
        command: Command,
        mapped: bool,
        carried: Carried,
        bytes: &mut [u8],
    ) -> Carried
        requires few { length bytes.old < 2048 }
        requires kind { mapped ≡ is_mapped command }
        ensures slave { self.new ≡ slave_met self.old (carrying command carried bytes.old) }
        ensures datagram { carrying command result bytes.new ≡ datagram_met self.old (carrying command carried bytes.old) }
    {
        let logical = 8 * u64::from(carried.address);
        if mapped && self.misses(logical, 8 * bytes.len() as u64) {
            return carried;
        }
        self.meet_by_command(command, carried, bytes)
    }

    /// As [`Slave::meet`], by the table of commands.
    fn meet_by_command(&mut self, command: Command, carried: Carried, bytes: &mut [u8]) -> Carried
        requires { length bytes.old < 2048 }
        ensures slave { self.new ≡ slave_met self.old (carrying command carried bytes.old) }
        ensures datagram { carrying command result bytes.new ≡ datagram_met self.old (carrying command carried bytes.old) }
    {
        let ado = (carried.address / 65536) as u16;
        match Encounter::of(command, (carried.address % 65536) as u16, self) {
            Encounter::Passing => carried,
            Encounter::Physical { role, adp } => {
                let added = self.access_bytes(role, ado as usize, bytes);
                Carried {
                    address: address_of(adp, ado),
                    counter: carried.counter.wrapping_add(added),
                }
            }
            Encounter::Logical(role) => {
                let added = self.access_bits(role, 8 * u64::from(carried.address), bytes);
                Carried {
                    address: carried.address,
                    counter: carried.counter.wrapping_add(added),
                }
            }
        }
    }
}

/// A datagram passes slaves, one after the other.
pub fn pass_each(slaves: &mut [Slave], part: &mut [u8])
    requires { IsSpelling part.old }
    ensures slaves { (more : Bool) (d : Datagram) → IsDatagram d → part.old ≡ spelling more d
        → slaves.new ≡ slaves_met slaves.old d }
    ensures datagram { (more : Bool) (d : Datagram) → IsDatagram d → part.old ≡ spelling more d
        → part.new ≡ spelling more (datagram_past slaves.old d) }
{
    let header = Header::read(part);
    if header.command == Command::Nop {
        return;
    }
    let first = Carried {
        address: header.address,
        counter: read_counter(part),
    };
    let carried = carry_data(slaves, header.command, first, part);
    write_address(part, carried.address);
    write_counter(part, carried.counter);
}

/// The data of a datagram pass slaves, and its other fields stay.
fn carry_data(slaves: &mut [Slave], command: Command, first: Carried, part: &mut [u8]) -> Carried
    requires { IsSpelling part.old }
    ensures slaves { (more : Bool) (d : Datagram) → IsDatagram d → part.old ≡ spelling more d
        → slaves.new ≡ slaves_met slaves.old (carrying command first d.data_bytes) }
    ensures data { (more : Bool) (d : Datagram) → IsDatagram d → part.old ≡ spelling more d
        → part.new ≡ spelling more (with_data d (datagram_past slaves.old (carrying command first d.data_bytes)).data_bytes) }
    ensures carried { (more : Bool) (d : Datagram) → IsDatagram d → part.old ≡ spelling more d
        → (result.address ≡ (datagram_past slaves.old (carrying command first d.data_bytes)).address)
        × (result.counter ≡ (datagram_past slaves.old (carrying command first d.data_bytes)).counter) }
{
    let (_heading, body) = cut_heading(part);
    let (content, _counter) = cut_counter(body);
    carry(slaves, command, first, content)
}

/// What a datagram carries passes slaves.
fn carry(slaves: &mut [Slave], command: Command, first: Carried, bytes: &mut [u8]) -> Carried
    requires { length bytes.old < 2048 }
    ensures slaves { slaves.new ≡ slaves_met slaves.old (carrying command first bytes.old) }
    ensures datagram { carrying command result bytes.new ≡ datagram_past slaves.old (carrying command first bytes.old) }
{
    let mapped = is_mapped(command);
    let mut carried = first;
    for index in 0..slaves.len() {
        carried = slaves[index].meet(command, mapped, carried, bytes);
    }
    carried
}

/// Whether a command goes through the FMMUs.
fn is_mapped(command: Command) -> bool
    ensures { result ≡ is_mapped command }
{
    matches!(command, Command::Lrd | Command::Lwr | Command::Lrw)
}

//! What a slave does with a datagram, by its command and address.
ghost use Rattle.std.specs.Prelude.{◌≡◌, ◌+◌, ◌*◌, ◌%◌, ◌==◌, if◌then◌else◌};
ghost use Rattle.std.specs.Int.{from_bool};
ghost use Rattle.ec_slave.specs.Encounters.{encounter_of};
ghost use Rattle.ec_slave.specs.Mapped.{weight};
ghost use Rattle.ec_slave.specs.Roles.{is_reading, is_writing};
ghost use Rattle.ec_slave.specs.State.{station_of};
ghost use Rattle.ec_slave.specs.declared.role.Encounter.TheVariants.{Physical};

use crate::slave::Slave;
use ec_frame::Command;

/// What a slave does with the data of a datagram.
#[derive(Clone, Copy)]
pub(crate) enum Role {
    /// It lets the datagram pass.
    Nothing,
    /// The memory is copied into the data.
    Read,
    /// The data are copied into the memory.
    Write,
    /// Both at once.
    ReadWrite,
    /// The memory is joined to the data by OR.
    OrRead,
    /// The memory is joined to the data by OR, and the data as they were received are copied into the memory.
    OrReadWrite,
}

impl Role {
    /// Whether the data become what is read.
    pub(crate) fn reads(self) -> bool
        ensures { result ≡ is_reading self }
    {
        match self {
            Role::Nothing | Role::Write => false,
            Role::Read | Role::ReadWrite | Role::OrRead | Role::OrReadWrite => true,
        }
    }

    /// Whether the data are written.
    pub(crate) fn writes(self) -> bool
        ensures { result ≡ is_writing self }
    {
        match self {
            Role::Nothing | Role::Read | Role::OrRead => false,
            Role::Write | Role::ReadWrite | Role::OrReadWrite => true,
        }
    }

    /// What the working counter grows by if bits were read, written, or both. A write counts 2 in a role that also reads.
    pub(crate) fn count(self, is_read: bool, is_written: bool) -> u16
        ensures { result ≡ from_bool is_read + weight self * from_bool is_written }
    {
        let weight = if self.reads() && self.writes() { 2 } else { 1 };
        is_read as u16 + weight * is_written as u16
    }
}

/// How a datagram meets a slave.
#[derive(Clone, Copy)]
pub(crate) enum Encounter {
    /// It passes as it came.
    Passing,
    /// By an address of the memory.
    Physical {
        /// What the slave does with its data.
        role: Role,
        /// The ADP with which it leaves.
        adp: u16,
    },
    /// Through the FMMUs, in this role.
    Logical(Role),
}

impl Encounter {
    /// A meeting by position: in `role` at the slave whose position is 0, and in the other role elsewhere. The slave adds 1 to
    /// the ADP.
    fn by_position(role: Role, other: Role, adp: u16) -> Encounter
        ensures { result ≡ Physical (if adp == 0 then role else other) ((adp + 1) % 65536) }
    {
        let role = if adp == 0 { role } else { other };
        let adp = adp.wrapping_add(1);
        Encounter::Physical { role, adp }
    }

    /// A meeting by station: in `role` at the slave whose station address is the ADP, and in the other role elsewhere. The ADP
    /// stays.
    fn by_station(role: Role, other: Role, adp: u16, slave: &Slave) -> Encounter
        ensures { result ≡ Physical (if adp == station_of slave.now then role else other) adp }
    {
        let is_meant = adp == slave.station_address();
        let role = if is_meant { role } else { other };
        Encounter::Physical { role, adp }
    }

    /// A meeting with all slaves. Each adds 1 to the ADP.
    fn by_broadcast(role: Role, adp: u16) -> Encounter
        ensures { result ≡ Physical role ((adp + 1) % 65536) }
    {
        let adp = adp.wrapping_add(1);
        Encounter::Physical { role, adp }
    }

    /// How a datagram with this command and ADP meets a slave, by the table of commands (ETG.1000.4, "EtherCAT
    /// commands"). Each slave adds 1 to a position, reached or not, and a station's number stays. A slave whose type takes
    /// no part in LRW lets it pass. Only a command that names a station reads the slave's address.
    #[inline]
    pub fn of(command: Command, adp: u16, slave: &Slave) -> Encounter
        ensures { result ≡ encounter_of command adp slave.now }
    {
        match command {
            Command::Nop => Encounter::Passing,
            Command::Aprd => Encounter::by_position(Role::Read, Role::Nothing, adp),
            Command::Apwr => Encounter::by_position(Role::Write, Role::Nothing, adp),
            Command::Aprw => Encounter::by_position(Role::ReadWrite, Role::Nothing, adp),
            Command::Fprd => Encounter::by_station(Role::Read, Role::Nothing, adp, slave),
            Command::Fpwr => Encounter::by_station(Role::Write, Role::Nothing, adp, slave),
            Command::Fprw => Encounter::by_station(Role::ReadWrite, Role::Nothing, adp, slave),
            Command::Brd => Encounter::by_broadcast(Role::OrRead, adp),
            Command::Bwr => Encounter::by_broadcast(Role::Write, adp),
            Command::Brw => Encounter::by_broadcast(Role::OrReadWrite, adp),
            Command::Lrd => Encounter::Logical(Role::Read),
            Command::Lwr => Encounter::Logical(Role::Write),
            Command::Lrw => {
                if slave.dictionary.kind().lrw() {
                    Encounter::Logical(Role::ReadWrite)
                } else {
                    Encounter::Passing
                }
            }
            Command::Armw => Encounter::by_position(Role::Read, Role::Write, adp),
            Command::Frmw => Encounter::by_station(Role::Read, Role::Write, adp, slave),
        }
    }
}

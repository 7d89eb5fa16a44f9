//! The registers of a slave, by name and address.
ghost use Rattle.std.specs.Prelude.{◌≡◌, IfOk, Some, None, if◌then◌else◌, length, option_map};
ghost use Rattle.ec_names.specs.Registers.{bytes_in, has_address, lies_within, address_of, register_of, registers_within, size_of};

use ec_regs::registers::{
    AL_CONTROL, AL_STATUS, AL_STATUS_CODE, FMMU_SIZE, FMMUS, MANAGER_SIZE, NUMBER_OF_FMMUS,
    NUMBER_OF_SYNC_MANAGERS, RAM_SIZE, SII_ADDRESS, SII_CONTROL, SII_DATA, STATION_ADDRESS,
    SYNC_MANAGERS,
};
use std::alloc::{AllocError, Global};

/// A register of a slave, by the standard's name (ETG.1000.4, "Register description").
#[derive(Clone, Copy, Debug, PartialEq, Eq)]
pub enum Register {
    /// The type of the slave controller.
    ControllerType,
    Revision,
    Build,
    /// How many FMMUs there are.
    FmmuCount,
    /// How many sync managers there are.
    ManagerCount,
    /// The size of the RAM in KiB.
    RamSize,
    PortDescriptors,
    /// What the slave controller supports.
    Features,
    StationAddress,
    StationAlias,
    DlControl,
    DlStatus,
    AlControl,
    AlStatus,
    AlStatusCode,
    PdiControl,
    EventMask,
    AlEventMask,
    EventRequest,
    AlEventRequest,
    ReceiveErrors,
    LostLinks,
    WatchdogDivider,
    PdiWatchdog,
    ProcessWatchdog,
    WatchdogStatus,
    SiiConfiguration,
    SiiPdiAccess,
    SiiControl,
    SiiAddress,
    SiiData,
    /// An FMMU, by its number.
    Fmmu(u8),
    /// A sync manager, by its number.
    Manager(u8),
    SystemTime,
    SystemTimeOffset,
    SystemTimeDelay,
}

/// The registers that have a name, in the order of their addresses.
pub const REGISTERS: [Register; 66] = [
    Register::ControllerType,
    Register::Revision,
    Register::Build,
    Register::FmmuCount,
    Register::ManagerCount,
    Register::RamSize,
    Register::PortDescriptors,
    Register::Features,
    Register::StationAddress,
    Register::StationAlias,
    Register::DlControl,
    Register::DlStatus,
    Register::AlControl,
    Register::AlStatus,
    Register::AlStatusCode,
    Register::PdiControl,
    Register::EventMask,
    Register::AlEventMask,
    Register::EventRequest,
    Register::AlEventRequest,
    Register::ReceiveErrors,
    Register::LostLinks,
    Register::WatchdogDivider,
    Register::PdiWatchdog,
    Register::ProcessWatchdog,
    Register::WatchdogStatus,
    Register::SiiConfiguration,
    Register::SiiPdiAccess,
    Register::SiiControl,
    Register::SiiAddress,
    Register::SiiData,
    Register::Fmmu(0),
    Register::Fmmu(1),
    Register::Fmmu(2),
    Register::Fmmu(3),
    Register::Fmmu(4),
    Register::Fmmu(5),
    Register::Fmmu(6),
    Register::Fmmu(7),
    Register::Fmmu(8),
    Register::Fmmu(9),
    Register::Fmmu(10),
    Register::Fmmu(11),
    Register::Fmmu(12),
    Register::Fmmu(13),
    Register::Fmmu(14),
    Register::Fmmu(15),
    Register::Manager(0),
    Register::Manager(1),
    Register::Manager(2),
    Register::Manager(3),
    Register::Manager(4),
    Register::Manager(5),
    Register::Manager(6),
    Register::Manager(7),
    Register::Manager(8),
    Register::Manager(9),
    Register::Manager(10),
    Register::Manager(11),
    Register::Manager(12),
    Register::Manager(13),
    Register::Manager(14),
    Register::Manager(15),
    Register::SystemTime,
    Register::SystemTimeOffset,
    Register::SystemTimeDelay,
];

impl Register {
    /// The address of its first byte.
    pub fn place(self) -> usize
        ensures { result ≡ address_of self }
    {
        match self {
            Register::ControllerType => 0x0000,
            Register::Revision => 0x0001,
            Register::Build => 0x0002,
            Register::FmmuCount => NUMBER_OF_FMMUS,
            Register::ManagerCount => NUMBER_OF_SYNC_MANAGERS,
            Register::RamSize => RAM_SIZE,
            Register::PortDescriptors => 0x0007,
            Register::Features => 0x0008,
            Register::StationAddress => STATION_ADDRESS,
            Register::StationAlias => 0x0012,
            Register::DlControl => 0x0100,
            Register::DlStatus => 0x0110,
            Register::AlControl => AL_CONTROL,
            Register::AlStatus => AL_STATUS,
            Register::AlStatusCode => AL_STATUS_CODE,
            Register::PdiControl => 0x0140,
            Register::EventMask => 0x0200,
            Register::AlEventMask => 0x0204,
            Register::EventRequest => 0x0210,
            Register::AlEventRequest => 0x0220,
            Register::ReceiveErrors => 0x0300,
            Register::LostLinks => 0x0310,
            Register::WatchdogDivider => 0x0400,
            Register::PdiWatchdog => 0x0410,
            Register::ProcessWatchdog => 0x0420,
            Register::WatchdogStatus => 0x0440,
            Register::SiiConfiguration => 0x0500,
            Register::SiiPdiAccess => 0x0501,
            Register::SiiControl => SII_CONTROL,
            Register::SiiAddress => SII_ADDRESS,
            Register::SiiData => SII_DATA,
            Register::Fmmu(number) => FMMUS + FMMU_SIZE * usize::from(number),
            Register::Manager(number) => SYNC_MANAGERS + MANAGER_SIZE * usize::from(number),
            Register::SystemTime => 0x0910,
            Register::SystemTimeOffset => 0x0920,
            Register::SystemTimeDelay => 0x0928,
        }
    }

    /// How many bytes it has, 1 to 16.
    pub fn size(self) -> usize
        ensures { result ≡ size_of self }
    {
        match self {
            Register::ControllerType
            | Register::Revision
            | Register::FmmuCount
            | Register::ManagerCount
            | Register::RamSize
            | Register::PortDescriptors
            | Register::PdiControl
            | Register::SiiConfiguration
            | Register::SiiPdiAccess => 1,
            Register::Build
            | Register::Features
            | Register::StationAddress
            | Register::StationAlias
            | Register::DlStatus
            | Register::AlControl
            | Register::AlStatus
            | Register::AlStatusCode
            | Register::EventMask
            | Register::EventRequest
            | Register::WatchdogDivider
            | Register::PdiWatchdog
            | Register::ProcessWatchdog
            | Register::WatchdogStatus
            | Register::SiiControl => 2,
            Register::DlControl
            | Register::AlEventMask
            | Register::AlEventRequest
            | Register::LostLinks
            | Register::SiiAddress
            | Register::SiiData
            | Register::SystemTimeDelay => 4,
            Register::ReceiveErrors
            | Register::Manager(_)
            | Register::SystemTime
            | Register::SystemTimeOffset => 8,
            Register::Fmmu(_) => 16,
        }
    }

    /// Whether all its bytes are among the `count` bytes that begin at the address `from`.
    pub fn lies_within(self, from: usize, count: usize) -> bool
        ensures { result ≡ lies_within from count self }
    {
        let (place, size) = (self.place(), self.size());
        from <= place && place + size <= from.saturating_add(count)
    }

    /// Whether one of its bytes has this address.
    pub fn has_address(self, address: usize) -> bool
        ensures { result ≡ has_address address self }
    {
        let (place, size) = (self.place(), self.size());
        place <= address && address < place + size
    }

    /// Its name for people.
    pub fn name(self) -> &'static str {
        match self {
            Register::ControllerType => "type",
            Register::Revision => "revision",
            Register::Build => "build",
            Register::FmmuCount => "number of FMMUs",
            Register::ManagerCount => "number of sync managers",
            Register::RamSize => "RAM size in KiB",
            Register::PortDescriptors => "port descriptors",
            Register::Features => "features",
            Register::StationAddress => "station address",
            Register::StationAlias => "station alias",
            Register::DlControl => "DL control",
            Register::DlStatus => "DL status",
            Register::AlControl => "AL control",
            Register::AlStatus => "AL status",
            Register::AlStatusCode => "AL status code",
            Register::PdiControl => "PDI control",
            Register::EventMask => "event mask",
            Register::AlEventMask => "AL event mask",
            Register::EventRequest => "event request",
            Register::AlEventRequest => "AL event request",
            Register::ReceiveErrors => "receive error counters",
            Register::LostLinks => "lost link counters",
            Register::WatchdogDivider => "watchdog divider",
            Register::PdiWatchdog => "PDI watchdog time",
            Register::ProcessWatchdog => "process data watchdog time",
            Register::WatchdogStatus => "process data watchdog status",
            Register::SiiConfiguration => "SII configuration",
            Register::SiiPdiAccess => "SII access of the PDI",
            Register::SiiControl => "SII control",
            Register::SiiAddress => "SII address",
            Register::SiiData => "SII data",
            Register::Fmmu(_) => "FMMU",
            Register::Manager(_) => "sync manager",
            Register::SystemTime => "system time",
            Register::SystemTimeOffset => "system time offset",
            Register::SystemTimeDelay => "system time delay",
        }
    }
}

/// The registers all of whose bytes are among the `count` bytes at the address `from`, in the order of their addresses.
/// `AllocError` if memory ran out.
pub fn registers_within(
    alloc: Global,
    from: usize,
    count: usize,
) -> Result<Vec<Register>, AllocError>
    ensures { IfOk result (λ found. found.items ≡ registers_within from count) }
{
    REGISTERS
        .iter()
        .copied()
        .filter(|register| register.lies_within(from, count))
        .collect(alloc)
}

/// The register that has a byte at this address; `None` if there is none.
pub fn register_at(address: usize) -> Option<Register>
    ensures { result ≡ register_of address }
{
    REGISTERS
        .iter()
        .copied()
        .find(|register| register.has_address(address))
}

/// The bytes of a register, in data that begin at the address `from`; `None` if the data haven't all of them.
pub fn register_bytes(register: Register, from: usize, content: &[u8]) -> Option<&[u8]>
    ensures { option_map (λ x. x.now) result
        ≡ (if lies_within from (length content.now) register then Some (bytes_in from content.now register) else None) }
{
    if !register.lies_within(from, content.len()) {
        return None;
    }
    let start = register.place() - from;
    Some(&content[start..start + register.size()])
}

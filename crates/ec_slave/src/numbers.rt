//! The registers of the sync managers. Inside a slave the managers stand by their roles; the registers go by the numbers of the
//! slave's type, and by the address that its outputs have there.

ghost use Rattle.std.specs.Prelude.{◌≡◌, ◌<◌, ◌+◌};
ghost use Rattle.ec_device.specs.Hardware.{manager_number};
ghost use Rattle.ec_regs.specs.Memory.{manager_start, ram_start};
ghost use Rattle.ec_sync.specs.Governing.{manager_byte};
ghost use Rattle.ec_slave.specs.Physical.{as_shown};

use ec_device::SlaveType;
use ec_regs::registers::manager_address;
use ec_sync::SyncManager;

/// The address of the first of the eight registers of the manager at a place.
pub(crate) fn first_register(kind: &SlaveType, place: usize) -> usize
    requires { place < 4 }
    ensures value { result ≡ manager_start (manager_number kind.now.hardware place) }
    ensures small { result + 8 < ram_start }
{
    manager_address(kind.manager_number(place))
}

/// Byte k of the eight registers of a manager.
pub(crate) fn register_of(kind: &SlaveType, manager: &SyncManager, k: usize) -> u8
    requires { k < 8 }
    ensures { result ≡ manager_byte (as_shown kind.now.hardware manager.now) k }
{
    let start = kind.other_name(manager.settings().start);
    match k {
        0 => (start % 256) as u8,
        1 => (start / 256) as u8,
        _ => manager.register(k),
    }
}

//! The registers of a slave that this profile has, by the standard's names (ETG.1000.4, "Register
//! description"), and where its RAM lies. Addresses are in bytes; numbers are little-endian. That
//! the constants are the standard's numbers is `laws::constants_are_the_registers`.

ghost use Rattle.std.specs.Prelude.{◌≡◌, ◌<◌};
ghost use Rattle.ec_regs.specs.Memory.{fmmu_start, manager_start};

/// How many FMMUs there are: a byte, 4.
pub const NUMBER_OF_FMMUS: usize = 0x0004;
/// How many sync managers there are: a byte, 4.
pub const NUMBER_OF_SYNC_MANAGERS: usize = 0x0005;
/// The size of the RAM in KiB: a byte, 8.
pub const RAM_SIZE: usize = 0x0006;
/// The station address, two bytes.
pub const STATION_ADDRESS: usize = 0x0010;
/// AL control, two bytes: an `AlWord`.
pub const AL_CONTROL: usize = 0x0120;
/// AL status, two bytes: an `AlWord`.
pub const AL_STATUS: usize = 0x0130;
/// The AL status code, two bytes.
pub const AL_STATUS_CODE: usize = 0x0134;
/// SII configuration, one byte: who has the SII.
pub const SII_CONFIGURATION: usize = 0x0500;
/// SII control and status, two bytes: a `SiiControl`.
pub const SII_CONTROL: usize = 0x0502;
/// The SII word address, four bytes.
pub const SII_ADDRESS: usize = 0x0504;
/// The data of the last SII read, four bytes.
pub const SII_DATA: usize = 0x0508;
/// The first FMMU; `fmmu_address` has the others.
pub const FMMUS: usize = 0x0600;
/// The first address after the FMMUs.
pub const FMMUS_END: usize = 0x0640;
/// The bytes of an FMMU.
pub const FMMU_SIZE: usize = 16;
/// The first sync manager; `manager_address` has the others.
pub const SYNC_MANAGERS: usize = 0x0800;
/// The first address after the sync managers.
pub const SYNC_MANAGERS_END: usize = 0x0820;
/// The bytes of a sync manager.
pub const MANAGER_SIZE: usize = 8;
/// The first byte of the RAM, right after the registers.
pub const RAM_START: usize = 0x1000;
/// The first address after the RAM, and after all memory.
pub const RAM_END: usize = 0x3000;
/// How many FMMUs a slave has: what its register says.
pub const FMMU_COUNT: u8 = 4;
/// How many sync managers a slave has: what its register says.
pub const MANAGER_COUNT: u8 = 4;
/// How many KiB of RAM a slave has: what its register says.
pub const RAM_KIB: u8 = 8;

/// The address of an FMMU.
pub const fn fmmu_address(number: usize) -> usize
    requires { number < 4 }
    ensures { result ≡ fmmu_start number }
{
    FMMUS + FMMU_SIZE * number
}

/// The address of a sync manager.
pub const fn manager_address(number: usize) -> usize
    requires { number < 4 }
    ensures { result ≡ manager_start number }
{
    SYNC_MANAGERS + MANAGER_SIZE * number
}

//! The FMMUs of a slave, kept decoded beside the registers that they stand in.

ghost use Rattle.std.specs.Prelude.{◌≡◌, ◌+◌, ◌<◌, length, slice_index};
ghost use Rattle.ec_regs.specs.Memory.{fmmu_start, ram_end};
ghost use Rattle.ec_regs.specs.Fmmus.{fmmu_of};
ghost use Rattle.ec_regs.specs.Names.{shown_fmmu};
ghost use Rattle.ec_slave.specs.State.{fmmus_of};

use ec_device::SlaveType;
use ec_fmmu::{Fmmu, FmmuTable};
use ec_regs::registers::fmmu_address;
use ec_regs::{decode_fmmu, shown_fmmu};

/// The four FMMUs of a slave of a type as their registers stand.
pub(crate) fn read_fmmus(kind: &SlaveType, memory: &[u8]) -> FmmuTable
    requires { length memory.now ≡ ram_end }
    ensures { result ≡ fmmus_of kind.now.hardware memory.now }
{
    FmmuTable::new([
        fmmu_at(kind, memory, 0),
        fmmu_at(kind, memory, 1),
        fmmu_at(kind, memory, 2),
        fmmu_at(kind, memory, 3),
    ])
}

/// FMMU `number` as its sixteen registers stand, with the address that it means inside the slave.
fn fmmu_at(kind: &SlaveType, memory: &[u8], number: usize) -> Fmmu
    requires room { length memory.now ≡ ram_end }
    requires four { number < 4 }
    ensures { result ≡ shown_fmmu kind.now.hardware (fmmu_of (λ k. slice_index memory.now (fmmu_start number + k))) }
{
    let at = fmmu_address(number);
    let mut record = [0; 16];
    record.copy_from_slice(&memory[at..at + 16]);
    Fmmu::new(shown_fmmu(kind, decode_fmmu(&record)))
}

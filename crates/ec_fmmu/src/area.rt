//! The area of a slave in the process data, as its FMMUs map it if they are set as usual.

ghost use Rattle.std.specs.Prelude.{◌≡◌, ◌+◌, ◌<◌, ◌^◌, IfSome, false};
ghost use Rattle.std.specs.Bool.{OnTrue};
ghost use Rattle.ec_fmmu.specs.Areas.{IsMappedBy};
ghost use Rattle.ec_fmmu.specs.Runs.{RunOf};

use crate::mapping::Fmmu;
use ec_regs::registers::{RAM_END, RAM_START};

/// What two FMMUs map of a slave: its outputs, which are written, and its inputs, which are read. Each begins with bit 0 of a
/// byte of the RAM. Bit `8 * a + j` of the logical space is bit `j` of the byte at the logical address `a`.
#[derive(Clone, Copy)]
pub struct MappedArea {
    /// How many bits the outputs have.
    pub outs: u64,
    /// Their first logical bit.
    pub out_at: u64,
    /// The address of their first byte.
    pub out_start: u64,
    /// How many bits the inputs have.
    pub ins: u64,
    /// Their first logical bit.
    pub in_at: u64,
    /// The address of their first byte.
    pub in_start: u64,
}

/// Logical bits, and the address of the first of the bytes that they are mapped to, one by one.
#[derive(Clone, Copy)]
struct ByteRun {
    at: u64,
    bits: u64,
    start: u64,
}

/// The area that four FMMUs map, if they are set as usual: at most the first writes, and at most the second reads. None says
/// nothing.
pub(crate) fn area_of(fmmus: &[Fmmu; 4]) -> Option<MappedArea>
    ensures { IfSome result (λ a. IsMappedBy fmmus.now a) }
{
    let (outputs, inputs) = (&fmmus[0], &fmmus[1]);
    if outputs.reads() || inputs.writes() || !is_idle(&fmmus[2]) || !is_idle(&fmmus[3]) {
        return None;
    }
    // a direction without an FMMU lies where the other one does
    let only = if outputs.writes() { outputs } else { inputs };
    let at = only.first_logical();
    let out = run_of(outputs, outputs.writes(), at)?;
    let inside = run_of(inputs, inputs.reads(), at)?;
    Some(MappedArea {
        outs: out.bits,
        out_at: out.at,
        out_start: out.start,
        ins: inside.bits,
        in_at: inside.at,
        in_start: inside.start,
    })
}

/// Whether an FMMU goes in no direction.
fn is_idle(fmmu: &Fmmu) -> bool
    ensures reads { OnTrue result (fmmu.now.reads ≡ false) }
    ensures writes { OnTrue result (fmmu.now.writes ≡ false) }
{
    !fmmu.reads() && !fmmu.writes()
}

/// The run of an FMMU that goes in a direction, if it begins with bit 0 of a byte and lies in the RAM. If it doesn't go that
/// way, no bits, which begin at the logical bit `otherwise`.
fn run_of(fmmu: &Fmmu, goes: bool, otherwise: u64) -> Option<ByteRun>
    requires { otherwise < 2 ^ 40 }
    ensures run { IfSome result (λ r. RunOf fmmu.now goes r.at r.bits r.start) }
    ensures small { IfSome result (λ r. r.at + r.bits < 2 ^ 42) }
{
    if !goes {
        return Some(ByteRun {
            at: otherwise,
            bits: 0,
            start: 0,
        });
    }
    let bits = fmmu.bit_count();
    let settings = fmmu.settings();
    let start = u64::from(settings.physical_start);
    if settings.physical_bit != 0 || start < RAM_START as u64 {
        return None;
    }
    if start + (bits + 7) / 8 > RAM_END as u64 {
        return None;
    }
    Some(ByteRun {
        at: fmmu.first_logical(),
        bits,
        start,
    })
}

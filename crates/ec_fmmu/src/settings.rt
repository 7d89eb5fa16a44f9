//! Settings of an FMMU for a run of bits.
ghost use Rattle.std.specs.Prelude.{◌≡◌, ◌<◌, ◌≤◌, ◌+◌, ◌*◌, ◌%◌, ◌^◌};
ghost use Rattle.ec_fmmu.specs.Runs.{run_settings};

use ec_regs::FmmuSettings;

/// The settings of an FMMU that maps the `bits` logical bits that begin at `from` to the physical
/// bytes that begin at `start`, with bit 0 first. The logical bits lie in at most 65535 bytes. If
/// there are no bits, all is zero, and the FMMU isn't activated. Logical bit `8 * a + j` is bit `j`
/// of the logical byte `a`.
#[tactic(auto, unfolding(crate::specs::Runs::run_settings))]
pub fn run_settings(reads: bool, writes: bool, from: usize, bits: usize, start: u16) -> FmmuSettings
    requires low { from < 2 ^ 35 }
    requires fits { from % 8 + bits ≤ 8 * 65535 }
    ensures { result ≡ run_settings reads writes from bits start }
{
    if bits == 0 {
        return FmmuSettings::none();
    }
    let end = from % 8 + bits + 7;
    FmmuSettings {
        logical_start: (from / 8) as u32,
        length: (end / 8) as u16,
        start_bit: (from % 8) as u8,
        stop_bit: (end % 8) as u8,
        physical_start: start,
        physical_bit: 0,
        reads,
        writes,
        active: true,
    }
}

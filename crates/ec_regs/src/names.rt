//! Addresses as the registers of sync managers and FMMUs have them: those of a type whose outputs are pins.
ghost use Rattle.std.specs.Prelude.{◌≡◌};
ghost use Rattle.ec_regs.specs.Names.{shown_fmmu, shown_manager};

use crate::fmmu::FmmuSettings;
use crate::manager::SyncManagerSettings;
use ec_device::SlaveType;

/// The settings in the registers of a sync manager of a type's slave that has these settings inside, and as well the settings
/// inside of one whose registers have these: each is the other's.
pub fn shown_manager(kind: &SlaveType, settings: SyncManagerSettings) -> SyncManagerSettings
    ensures { result ≡ shown_manager kind.now.hardware settings }
{
    SyncManagerSettings {
        start: kind.other_name(settings.start),
        ..settings
    }
}

/// The settings in the registers of an FMMU of a type's slave that has these settings inside, and as well the other way.
pub fn shown_fmmu(kind: &SlaveType, settings: FmmuSettings) -> FmmuSettings
    ensures { result ≡ shown_fmmu kind.now.hardware settings }
{
    FmmuSettings {
        physical_start: kind.other_name(settings.physical_start),
        ..settings
    }
}

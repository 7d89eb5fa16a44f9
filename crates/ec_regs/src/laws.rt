//! Laws of the definitions: each is the contract of a function that does nothing.

ghost use Rattle.ec_regs.specs.Memory.{AccessIsTheTable};
ghost use Rattle.ec_regs.specs.Constants.{ConstantsAreTheRegisters, ConstantsAreTheControls};
ghost use Rattle.ec_regs.specs.Managers.{ManagerIsReadBack, UsualAreasAreSet};
ghost use Rattle.ec_regs.specs.Fmmus.{FmmuIsReadBack};
ghost use Rattle.ec_regs.specs.Words.{AlIsReadBack, SiiIsReadBack};
ghost use Rattle.ec_regs.specs.Names.{SettingsGoBack};

/// Which register bytes take writes, as a table.
#[tactic(auto, using(crate::proofs::Table::access_law))]
pub fn access_is_the_table()
    ensures { AccessIsTheTable }
{}

/// The register constants are the standard's addresses.
#[tactic(auto, using(crate::proofs::Constants::registers))]
pub fn constants_are_the_registers()
    ensures { ConstantsAreTheRegisters }
{}

/// The control constants are the control bytes of the usual managers.
#[tactic(auto, using(crate::proofs::Constants::controls))]
pub fn constants_are_the_controls()
    ensures { ConstantsAreTheControls }
{}

/// The settings of a sync manager are read back from their bytes.
pub fn manager_is_read_back()
    ensures { ManagerIsReadBack }
{}

/// The settings of an FMMU are read back from their bytes.
pub fn fmmu_is_read_back()
    ensures { FmmuIsReadBack }
{}

/// State and flag are read back from their word.
pub fn al_is_read_back()
    ensures { AlIsReadBack }
{}

/// Command and flags are read back from their word.
pub fn sii_is_read_back()
    ensures { SiiIsReadBack }
{}

/// What registers show of settings inside a slave says which they are, whatever address the outputs have there.
#[tactic(auto, using(crate::proofs::ShownBack::settings_back))]
pub fn settings_go_back()
    ensures { SettingsGoBack }
{}

/// An area in the RAM with a usual control byte makes the manager that the byte is named for.
#[tactic(auto, using(crate::proofs::Areas::usual_areas))]
pub fn usual_areas_are_set()
    ensures { UsualAreasAreSet }
{}

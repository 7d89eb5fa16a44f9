//! Laws of the definitions: each is the contract of a function that does nothing.

ghost use Rattle.ec_device.specs.Constants.{ConstantsAreTheLimits, ConstantsAreTheHardware};
ghost use Rattle.ec_device.specs.Hardware.{PlacesAreNumbered, NamesGoBack};
ghost use Rattle.ec_device.specs.Objects.{BitsAssignedAreOfEntries};

/// The limit constants are the limits of a type.
#[tactic(auto, using(crate::proofs::Constants::limits))]
pub fn constants_are_the_limits()
    ensures { ConstantsAreTheLimits }
{}

/// PDOs have as many bits as their entries.
#[tactic(auto, using(crate::proofs::Objects::bits_assigned_law))]
pub fn bits_assigned_are_of_entries()
    ensures { BitsAssignedAreOfEntries }
{}

/// The constants of hardware are the numbers of its definitions.
#[tactic(auto, using(crate::proofs::Constants::hardware))]
pub fn constants_are_the_hardware()
    ensures { ConstantsAreTheHardware }
{}

/// The places of a slave's managers and their numbers belong together, one by one.
pub fn places_are_numbered()
    ensures { PlacesAreNumbered }
{}

/// Each address is the other name of its other name.
#[tactic(auto, using(crate::proofs::Naming::names_law))]
pub fn names_go_back()
    ensures { NamesGoBack }
{}

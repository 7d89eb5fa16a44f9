//! Laws of the definitions. Each function does nothing: its contract is the law.

ghost use Rattle.ec_link.specs.FaultLaw.{FirstLinkFault};
ghost use Rattle.ec_link.specs.AdvertisedFull.{AdvertisedFullGivesFaces};
ghost use Rattle.ec_link.specs.Example.{AcceptedLaw, AcceptedPinsLaw, AcceptedTwoLaw};
ghost use Rattle.ec_link.specs.Interface.{PlansAreSound, PlansAreUsable, PlansHaveTheLinks, VariablesAreApart, VariablesArePlaced};
ghost use Rattle.ec_link.specs.Interface.{LinkedBitsAreThere, LinkedInputsAreThere, PlansListTheUnits, SlavesAreOfTheirTypes, SettingsAreListed};
ghost use Rattle.ec_link.specs.Interface.{OnePlanOneFormat, HardwareIsInWholeBytes};
ghost use Rattle.ec_link.specs.Sizes.{MappedBitsHaveRoom};
ghost use Rattle.ec_link.specs.SlavePlan.{ProcessDataIsBuffered, UsualControls};

/// The fault that `compile` returns is the first that the table has, by the numbers of the kinds and then by the places. If it
/// returns none, the table has none.
#[tactic(auto, using(crate::proofs::FirstFault::first_link_fault))]
pub fn first_link_fault()
    ensures { FirstLinkFault }
{}

/// A table advertised in full has the fault of the table, if any, and the plan of the table except for the faces of its slaves.
#[tactic(auto, using(crate::proofs::AdvertisedFull::faces))]
pub fn advertised_full_gives_faces()
    ensures { AdvertisedFullGivesFaces }
{}

/// The compiler accepts a table, so what is promised of accepted tables is not empty.
#[tactic(auto, using(crate::proofs::AcceptedLaw::accepted_law))]
pub fn a_table_is_accepted()
    ensures { AcceptedLaw }
{}

/// The compiler accepts a table with a real terminal whose outputs are pins.
#[tactic(auto, using(crate::proofs::AcceptedLaw::accepted_pins_law))]
pub fn a_table_with_pins_is_accepted()
    ensures { AcceptedPinsLaw }
{}

/// The compiler accepts a table of two sync units too, with a mailbox, a slave without LRW, and links both ways.
#[tactic(auto, using(crate::proofs::AcceptedTwoLaw::accepted_two))]
pub fn a_table_of_two_units_is_accepted()
    ensures { AcceptedTwoLaw }
{}

/// The plan of an accepted table is sound.
pub fn plans_are_sound()
    ensures { PlansAreSound }
{}

/// The plan of an accepted table is usable.
pub fn plans_are_usable()
    ensures { PlansAreUsable }
{}

/// The links of the plan of an accepted table are the table's.
#[tactic(auto, using(crate::proofs::PlansHaveTheLinks::links_are_the_tables))]
pub fn plans_have_the_links()
    ensures { PlansHaveTheLinks }
{}

/// Each variable of a table has its place in the image, and no two have a bit in common.
#[tactic(auto, using(crate::proofs::VariablesApart::bits_are_apart, crate::proofs::VariablesArePlaced::variables_are_placed))]
pub fn variables_are_placed()
    ensures apart { VariablesAreApart }
    ensures placed { VariablesArePlaced }
{}

/// A linked bit is one of a variable of the table.
pub fn linked_bits_are_there()
    ensures { LinkedBitsAreThere }
{}

/// Only an input of a slave is linked to an input of the image.
pub fn linked_inputs_are_there()
    ensures { LinkedInputsAreThere }
{}

/// A plan lists the sync units of its slaves, each once.
#[tactic(auto, using(crate::proofs::UnitsListed::lists_units))]
pub fn plans_list_the_units()
    ensures { PlansListTheUnits }
{}

/// A slave of a plan is of a type of the table: it keeps the type's limits, its assignments are proper, and it has the bits of
/// the PDOs that are assigned.
#[tactic(auto, using(crate::proofs::OfTypes::slaves_are_of_their_types))]
pub fn slaves_are_of_their_types()
    ensures { SlavesAreOfTheirTypes }
{}

/// The slaves of a plan are all of types for real devices, if its table is for hardware, or none is.
#[tactic(auto, using(crate::proofs::OfTypes::one_format))]
pub fn one_plan_has_one_format()
    ensures { OnePlanOneFormat }
{}

/// Of hardware everything is mapped in whole bytes.
pub fn hardware_is_in_whole_bytes()
    ensures { HardwareIsInWholeBytes }
{}

/// The bits that are mapped have room for the bits of the entries, and as many bytes.
#[tactic(auto, using(crate::proofs::MappedBits::room_law))]
pub fn mapped_bits_have_room()
    ensures { MappedBitsHaveRoom }
{}

/// Without hardware the managers of the process data have the usual control bytes.
#[tactic(auto, using(crate::proofs::MappedBits::usual_controls))]
pub fn controls_are_usual()
    ensures { UsualControls }
{}

/// The settings of a slave of a usable plan are four managers, no two of which share a byte, and an FMMU for each direction.
#[tactic(auto, using(crate::proofs::SettingsAreListed::listed))]
pub fn settings_are_listed()
    ensures { SettingsAreListed }
{}

/// Process data is buffered, in managers that are set if their three buffers lie in the RAM.
#[tactic(auto, using(crate::proofs::ManagersApart::process_data_is_buffered))]
pub fn process_data_is_buffered()
    ensures { ProcessDataIsBuffered }
{}

//! Laws of the definitions. Each function does nothing: its contract is the law.

ghost use Rattle.ec_coe.specs.AbortLaw.{FirstAbort};
ghost use Rattle.ec_coe.specs.DeviceLaws.{AreSetAside, FirstValuesHaveSizes, FixedAssignmentsStay, ParametersAreKept, PlainDictionaries, SizedRepliesAreReplies, SizesStay};
ghost use Rattle.ec_coe.specs.Laws.{AnswersKeepAssignments, ChangesInPreopAlone, ReadsBack};
ghost use Rattle.ec_coe.specs.NameLaws.{FacelessObjects, NamesComeBack, RepliesFit, RepliesReadAlone, RepliesStandAlone, UploadsAreExpedited};
ghost use Rattle.ec_coe.specs.RefusalLaws.{RefusalsFit, RefusalsRead};

/// A message is read back from its bytes, whatever follows them.
#[tactic(auto, using(crate::proofs::ReadBack::reads_back))]
pub fn messages_read_back()
    ensures { ReadsBack }
{}

/// An answer changes an assignment only in PREOP, and in any other state parameters alone.
#[tactic(auto, using(crate::proofs::AssignmentsStay::preop_alone))]
pub fn assignments_change_in_preop()
    ensures { ChangesInPreopAlone }
{}

/// Whatever is downloaded, an assignment stays a list of the type's own PDOs of its direction, with none of them twice
/// and with at most 2048 bits.
#[tactic(auto, using(crate::proofs::AssignmentsStay::assignments_kept))]
pub fn answers_keep_assignments()
    ensures { AnswersKeepAssignments }
{}

/// The reply is an abort exactly if its cause holds and no earlier one does, in this order: another command than
/// an upload or a download, no object, no subindex, an object that can only be read, another length, another state, a value
/// that isn't taken. An abort changes nothing. If no cause holds, the reply is a response.
#[tactic(auto, using(crate::proofs::Aborts::first_abort))]
pub fn first_abort()
    ensures { FirstAbort }
{}

/// The reply to an upload is an expedited transfer if it isn't one of the device name, or if the slave isn't full.
#[tactic(auto, using(crate::proofs::Names::uploads_expedited))]
pub fn uploads_are_expedited()
    ensures { UploadsAreExpedited }
{}

/// A slave that isn't full has its identity, the objects that assign PDOs and those of its PDOs, and no other.
#[tactic(auto, using(crate::proofs::Names::faceless_objects))]
pub fn objects_without_a_face()
    ensures { FacelessObjects }
{}

/// No letters follow a reply that is no normal upload response, nor any of a slave that isn't full.
#[tactic(auto, using(crate::proofs::Names::replies_alone))]
pub fn replies_stand_alone()
    ensures { RepliesStandAlone }
{}

/// A reply with letters behind it is read back as no message.
#[tactic(auto, using(crate::proofs::ReplyLetters::message_or_none))]
pub fn replies_read_alone()
    ensures { RepliesReadAlone }
{}

/// A reply has 16 bytes at least, and fits each mailbox that a message fits.
#[tactic(auto, using(crate::proofs::Names::replies_fit))]
pub fn replies_fit()
    ensures { RepliesFit }
{}

/// The name of a full slave comes back from the bytes of the reply: a long one behind the message, a short one from the data.
#[tactic(auto, using(crate::proofs::Names::names_back))]
pub fn names_come_back()
    ensures { NamesComeBack }
{}

/// A refusal has 10 to 16 bytes.
#[tactic(auto, using(crate::proofs::RefusalBytes::refusals_fit))]
pub fn refusals_fit()
    ensures { RefusalsFit }
{}

/// An abort among the refusals is read back, with the index and the subindex of the request; a mailbox error is no message,
/// and neither it nor an SDO information error is a reply to an SDO request.
#[tactic(auto, using(crate::proofs::RefusalBytes::refusals_read))]
pub fn refusals_read()
    ensures { RefusalsRead }
{}

/// Emergencies are set aside, and no reply of a slave is.
#[tactic(auto, using(crate::proofs::Devices::set_aside))]
pub fn messages_are_set_aside()
    ensures { AreSetAside }
{}

/// A reply whose command says the size says the same to a master that takes any size.
#[tactic(auto, using(crate::proofs::Devices::sized_replies))]
pub fn sized_replies_are_replies()
    ensures { SizedRepliesAreReplies }
{}

/// A slave shows the value of a parameter that it keeps, and takes each of the same length, in each state.
#[tactic(auto, using(crate::proofs::Devices::parameters_kept))]
pub fn parameters_are_kept()
    ensures { ParametersAreKept }
{}

/// No answer changes how many bytes a parameter has.
#[tactic(auto, using(crate::proofs::Devices::sizes_stay))]
pub fn sizes_stay()
    ensures { SizesStay }
{}

/// As the power comes on each parameter has as many bytes as its download.
#[tactic(auto, using(crate::proofs::Devices::first_sizes))]
pub fn first_values_have_sizes()
    ensures { FirstValuesHaveSizes }
{}

/// A type without parameters has its identity, the objects that assign PDOs and those of its PDOs, and what a full slave has
/// besides.
#[tactic(auto, using(crate::proofs::Devices::plain_dictionary))]
pub fn plain_dictionaries()
    ensures { PlainDictionaries }
{}

/// No answer changes a fixed assignment.
#[tactic(auto, using(crate::proofs::Devices::fixed_stays))]
pub fn fixed_assignments_stay()
    ensures { FixedAssignmentsStay }
{}

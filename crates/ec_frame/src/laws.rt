//! Laws of the definitions of frames. Each function does nothing: its contract is the law.
ghost use Rattle.ec_frame.specs.Laws.{FramesHaveOneReading, FramesAreDecoded, DataAreBytes};
ghost use Rattle.ec_frame.specs.Laws.{IsFrameOrRefused, NoFrameIsRefused, RefusedForOneCause};
ghost use Rattle.ec_frame.specs.Laws.{NoSpellingBeginsAnother, SpellingsAreReadBack};
ghost use Rattle.ec_frame.specs.Laws.{PhysicalAddressIsReadBack, ConstantsAreTheLimits};

/// The bytes of a frame say one payload: one list of datagrams, one reserved bit, one rest.
#[tactic(auto, using(crate::proofs::FrameOrFault::one_payload))]
pub fn frames_have_one_reading()
    ensures { FramesHaveOneReading }
{}

/// The datagrams of a frame are those that its bytes are decoded to.
#[tactic(auto, using(crate::proofs::FrameLaws::frames_are_decoded))]
pub fn frames_are_decoded()
    ensures { FramesAreDecoded }
{}

/// The data of a frame's datagrams are bytes, and so is what follows the datagrams.
#[tactic(auto, using(crate::proofs::FrameLaws::data_are_bytes))]
pub fn data_are_bytes()
    ensures { DataAreBytes }
{}

/// Each payload is a frame, or some test refuses it.
#[tactic(auto, using(crate::proofs::FrameLaws::is_frame_or_refused))]
pub fn each_is_frame_or_refused()
    ensures { IsFrameOrRefused }
{}

/// No frame is refused.
#[tactic(auto, using(crate::proofs::FrameOrFault::no_refusal))]
pub fn no_frame_is_refused()
    ensures { NoFrameIsRefused }
{}

/// A payload that is refused is refused for one cause, the first test that fails.
#[tactic(auto, using(crate::proofs::FrameOrFault::one_refusal))]
pub fn refused_for_one_cause()
    ensures { RefusedForOneCause }
{}

/// No datagram's spelling begins another's.
#[tactic(auto, using(crate::proofs::Decoding::one_spelling))]
pub fn no_spelling_begins_another()
    ensures { NoSpellingBeginsAnother }
{}

/// Reading undoes spelling, also where each datagram says that another follows.
#[tactic(auto, using(crate::proofs::BuilderCalls::read_again))]
pub fn spellings_are_read_back()
    ensures { SpellingsAreReadBack }
{}

/// ADP and ADO are read back from the address that they make.
pub fn physical_address_is_read_back()
    ensures { PhysicalAddressIsReadBack }
{}

/// The limits of the code are those of a UDP payload in one Ethernet frame.
pub fn constants_are_the_limits()
    ensures { ConstantsAreTheLimits }
{}

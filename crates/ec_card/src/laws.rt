//! Laws of the definitions of Ethernet frames. Each function does nothing: its contract is the law.
ghost use Rattle.ec_card.specs.Laws.{FramesAreLongEnough, OwnFramesAreDropped, PaddingIsRest, PayloadsHaveOneReading, PayloadsComeThrough};

/// The other side is handed exactly the payload that one side sends, with its padding.
#[tactic(auto, using(crate::proofs::PayloadsComeThrough::come_through))]
pub fn payloads_come_through()
    ensures { PayloadsComeThrough }
{}

/// A frame is never handed on to the side that sent it.
pub fn own_frames_are_dropped()
    ensures { OwnFramesAreDropped }
{}

/// A frame of datagrams with zeros behind it is a frame of these datagrams.
#[tactic(auto, using(crate::proofs::PayloadsComeThrough::padded))]
pub fn padding_is_rest()
    ensures { PaddingIsRest }
{}

/// No frame that is sent is shorter than Ethernet allows.
#[tactic(auto, using(crate::proofs::PayloadsComeThrough::long_enough))]
pub fn frames_are_long_enough()
    ensures { FramesAreLongEnough }
{}

/// A frame has at most one payload.
pub fn payloads_have_one_reading()
    ensures { PayloadsHaveOneReading }
{}

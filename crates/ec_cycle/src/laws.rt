//! Laws of the definitions of this crate. Each function does nothing: its contract is the law.
ghost use Rattle.ec_cycle.specs.Laws.{ProcessByLinks, InputsByLinks, AnswersBySent};
ghost use Rattle.ec_cycle.specs.Laws.{OutputsBySource, OtherBitsAreZero, UnlinkedGoOutAsZero};
ghost use Rattle.ec_cycle.specs.Laws.{PredictedMeansWhole, SetReadsBack, SetKeepsOthers, SetKeepsFrames};
ghost use Rattle.ec_cycle.specs.Interface.{ProcessDataFillTheirPart, NamesAreDistinct, FramesOnTheirWayAnswer, FramesAreReturned, MastersKeepTheirPlan};

/// One copy of a run of bits for each link of outputs makes the process data of a frame.
#[tactic(auto, using(crate::proofs::OutputBits::process_by_links))]
pub fn process_by_links()
    ensures { ProcessByLinks }
{}

/// One copy of a run of bits for each link of inputs makes the inputs after a closing.
#[tactic(auto, using(crate::proofs::Copying::inputs_by_links))]
pub fn inputs_by_links()
    ensures { InputsByLinks }
{}

/// In the process data of a frame, an output bit of a slave is the image's bit that is linked to it, or 0 if none is.
#[tactic(auto, using(crate::proofs::ProcessBits::outputs_by_source))]
pub fn outputs_by_source()
    ensures { OutputsBySource }
{}

/// All other bits of the process data are 0.
#[tactic(auto, using(crate::proofs::ProcessBits::other_bits_are_zero))]
pub fn other_bits_are_zero()
    ensures { OtherBitsAreZero }
{}

/// In a frame that `begin` made, an output bit of a slave that no link names is 0.
pub fn unlinked_go_out_as_zero()
    ensures { UnlinkedGoOutAsZero }
{}

/// Datagrams answer a frame exactly if they have the shapes, the name and the process addresses of the frame as it was
/// sent.
pub fn answers_by_sent()
    ensures { AnswersBySent }
{}

/// If no slave gives more than its share, predicted working counters mean that each gave its whole share.
#[tactic(auto, using(crate::proofs::Counting::predicted_means_whole))]
pub fn predicted_means_whole()
    ensures { PredictedMeansWhole }
{}

/// A variable that was set has the value.
#[tactic(auto, using(crate::proofs::Variables::set_reads_back))]
pub fn set_reads_back()
    ensures { SetReadsBack }
{}

/// Setting a variable changes no other variable: those of a plan have no bit in common, as `compile` promises.
#[tactic(auto, using(crate::proofs::Variables::set_keeps_others))]
pub fn set_keeps_others()
    ensures { SetKeepsOthers }
{}

/// Setting a variable changes no frame that was begun before.
pub fn set_keeps_frames()
    ensures { SetKeepsFrames }
{}

/// The process data of a frame fill its part, and its name says of which cycle and part it is.
pub fn frames_are_of_their_part()
    ensures data { ProcessDataFillTheirPart }
    ensures names { NamesAreDistinct }
{}

/// A frame answers its part whatever slaves it passed, and what is kept of it is what those slaves made of it.
pub fn frames_come_back()
    ensures answers { FramesOnTheirWayAnswer }
    ensures accepted { FramesAreReturned }
{}

/// A master keeps its plan, whatever payload it is given.
#[tactic(auto, using(crate::proofs::Matches::taken_plan))]
pub fn masters_keep_their_plan()
    ensures { MastersKeepTheirPlan }
{}

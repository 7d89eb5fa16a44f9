//! Laws of frames as text. Each function does nothing: its contract is the law.
ghost use Rattle.ec_decode.specs.Laws.{IndentedLinesAreSkipped, ListsReadBack, OneTextIsOneFrame, RemarkedFramesReadBack, TextsHaveNoIndentedLines, TextsReadBack};

/// The text of a frame is read back as that frame, bit for bit.
#[tactic(auto, using(crate::proofs::ReadingFrames::texts_read_back))]
pub fn texts_read_back()
    ensures { TextsReadBack }
{}

/// The texts of frames one after another are read back as these frames.
#[tactic(auto, using(crate::proofs::ReadingFrames::lists_read_back))]
pub fn lists_read_back()
    ensures { ListsReadBack }
{}

/// No two frames have one text.
#[tactic(auto, using(crate::proofs::ReadingFrames::one_text_is_one_frame))]
pub fn one_text_is_one_frame()
    ensures { OneTextIsOneFrame }
{}

/// A text stands for the frames that it stands for without its indented lines.
#[tactic(auto, using(crate::proofs::IndentedLines::indented_lines_are_skipped))]
pub fn indented_lines_are_skipped()
    ensures { IndentedLinesAreSkipped }
{}

/// What lines of hex are printed as has no indented line.
#[tactic(auto, using(crate::proofs::NoIndentedLines::texts_have_no_indented_lines))]
pub fn texts_have_no_indented_lines()
    ensures { TextsHaveNoIndentedLines }
{}

/// A text that is a frame's without its indented lines is read back as that frame, bit for bit.
#[tactic(auto, using(crate::proofs::IndentedLines::remarked_frames_read_back))]
pub fn remarked_frames_read_back()
    ensures { RemarkedFramesReadBack }
{}

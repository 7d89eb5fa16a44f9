//! Laws of the definitions of this crate. Each function does nothing: its contract is the law.
ghost use Rattle.ec_session.specs.Laws.{ClearingKeepsTheRest, LossyRunsKeepTheRest, ReadsKeepTheRest, RunsKeepTheRest, StatusReadsKeepTheRest};

/// A cycle over a wire uses up a number and changes inputs alone. No cycle is open behind it.
pub fn runs_keep_the_rest()
    ensures whole { RunsKeepTheRest }
    ensures lossy { LossyRunsKeepTheRest }
{}

/// To read AL states over a wire changes nothing of a session but the count of its questions: no image, no cycle and no report.
pub fn reads_keep_the_rest()
    ensures one { StatusReadsKeepTheRest }
    ensures all { ReadsKeepTheRest }
{}

/// To set all outputs to 0 changes outputs alone.
pub fn clearing_keeps_the_rest()
    ensures { ClearingKeepsTheRest }
{}

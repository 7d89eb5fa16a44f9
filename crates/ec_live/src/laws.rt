//! Laws of a live segment. Each function does nothing: its contract is the law.
ghost use Rattle.ec_live.specs.Laws.{PayloadsAlone};

/// Without lines a live segment answers as slaves without applications do.
#[tactic(auto, using(crate::proofs::Alone::payloads_alone))]
pub fn payloads_pass_alone()
    ensures { PayloadsAlone }
{}

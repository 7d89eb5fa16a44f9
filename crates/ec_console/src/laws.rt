//! Laws of what is printed. Each function does nothing: its contract is the law.
ghost use Rattle.ec_console.specs.Laws.{TextsLaw};

/// Texts printed one behind the other are printed as one text, whole or cut off.
#[tactic(auto, using(crate::proofs::PrintLemmas::texts))]
pub fn texts_are_printed_as_one()
    ensures { TextsLaw }
{}

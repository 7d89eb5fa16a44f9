//! What the standard says of the EtherCAT state machine, proved of the definitions that the contracts of this
//! crate cite. Each function does nothing; its contract is the law, which `specs/Laws.antt` spells out.

ghost use Rattle.ec_al.specs.Laws.{AsksByNumber, GrantsUpToTheNextState, ClimbsOneStateAtATime, KeepsErrors, ReachesOpByRequest, CodeMatchesErrors, NeverEntersBootstrap, DecidesOnce, WaitingDecidesNothing, ReturnsToInit, ComesUpToOp, CopiesAreShown, NamesReadBack};

/// A control word asks for a state exactly by that state's number.
pub fn asks_by_number()
    ensures { AsksByNumber }
{}

/// A request for a state is granted exactly for the same state, for a lower one, and for the next one up if
/// its checks pass.
pub fn grants_up_to_the_next_state()
    ensures { GrantsUpToTheNextState }
{}

/// No transition skips a state upwards.
#[tactic(auto, using(crate::proofs::RunLemmas::climbs))]
pub fn climbs_one_state_at_a_time()
    ensures { ClimbsOneStateAtATime }
{}

/// An error stays until it is acknowledged, and so does the state, whatever is requested.
#[tactic(auto, using(crate::proofs::RunLemmas::keeps_errors))]
pub fn keeps_errors()
    ensures { KeepsErrors }
{}

/// OP is reached only from SAFEOP, by a granted request for it.
#[tactic(auto, using(crate::proofs::RunLemmas::reaches))]
pub fn reaches_op_by_request()
    ensures { ReachesOpByRequest }
{}

/// The AL status code is 0 exactly without an error.
#[tactic(auto, using(crate::proofs::RunLemmas::code_tells))]
pub fn code_matches_errors()
    ensures { CodeMatchesErrors }
{}

/// BOOT is never entered.
pub fn never_enters_bootstrap()
    ensures { NeverEntersBootstrap }
{}

/// A request is decided once, by the first firmware step after it that doesn't let it wait.
pub fn decides_once()
    ensures { DecidesOnce }
{}

/// A step that lets a request wait shows nothing, and changes nothing of how it is decided.
#[tactic(auto, using(crate::proofs::RunLemmas::waits_alone))]
pub fn waiting_decides_nothing()
    ensures { WaitingDecidesNothing }
{}

/// A request for INIT with the acknowledgement leads from every state to INIT without error.
pub fn returns_to_init()
    ensures { ReturnsToInit }
{}

/// Requests for PREOP, SAFEOP and OP lead from INIT to OP if all checks pass.
pub fn comes_up_to_op()
    ensures { ComesUpToOp }
{}

/// A device without firmware shows in AL status what was written to AL control.
#[tactic(auto, using(crate::proofs::CopyLemmas::copies_shown))]
pub fn copies_are_shown()
    ensures { CopiesAreShown }
{}

/// The name of a state stands for that state.
#[tactic(auto, using(crate::proofs::NameLemmas::names_read_back))]
pub fn names_read_back()
    ensures { NamesReadBack }
{}

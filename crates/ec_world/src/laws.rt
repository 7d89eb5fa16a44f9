//! What is promised of a world, and laws of the definitions. Each function does nothing: its contract is the law.
ghost use Rattle.ec_world.specs.Laws.{RoundTrip, CycleLaw, StepsRefine, PlanLaw, RunsRefine, RunsJoin, UnstoppedLaw};
ghost use Rattle.ec_world.specs.Whole.{WholeLaw, CompiledLaw};
ghost use Rattle.ec_world.specs.NewWorld.{NewLaw, MachineLaw, TurnLaw};
ghost use Rattle.ec_world.specs.AlWords.{WordLaw, OpWordLaw};
ghost use Rattle.ec_world.specs.Headline.{HeadlineLaw};
ghost use Rattle.ec_world.specs.RunLaws.{OneOutcomeLaw, BegunOnceLaw, PassedOnceLaw, OrderLaw, TroubleLaw};
ghost use Rattle.ec_world.specs.Undisturbed.{UndisturbedLaw, LossLaw, EarlyLaw, ShortLaw};
ghost use Rattle.ec_world.specs.Promises.{OutputsLaw, SnapshotsLaw, NotesLaw, InputsLaw, PublishedLaw, WorkingLaw, TakenLaw, QuietLaw};

/// A cyclic frame that passes a slave in OP gives its outputs exactly the linked bits of the image that it was made of, and 0
/// elsewhere; it changes nothing else of the slave, no other slave, no other frame and nothing of the image.
#[tactic(auto, using(crate::proofs::Cycles::InputsLaw::outputs_law))]
pub fn outputs_are_linked()
    ensures { OutputsLaw }
{}

/// The frames of a cycle, wherever they are and whatever happened since, carry the image as it was when the cycle began.
pub fn frames_keep_their_image()
    ensures { SnapshotsLaw }
{}

/// A frame notes of a slave of its part what the slave publishes as the frame passes. A slave falls short only if it was reset
/// and has bits, or had a fault and has outputs.
#[tactic(auto, using(crate::proofs::Cycles::InputsLaw::notes_law))]
pub fn notes_are_published()
    ensures { NotesLaw }
{}

/// A closed cycle takes a unit or not. If it does, the linked inputs become exactly the bits that were published as the frames
/// passed: each part came back, all slaves answered its broadcast, and its working counters are the predicted ones. If not, none
/// of them changes: a frame of the unit was lost, isn't back, or passed a slave that fell short. The report says which units
/// were taken, and how many parts are missing.
#[tactic(auto, using(crate::proofs::Cycles::InputsLaw::inputs_law))]
pub fn inputs_are_linked()
    ensures { InputsLaw }
{}

/// What a cycle keeps of a slave was noted when the frame of the slave's part passed it, in an event since this cycle began. If
/// the slave gave its whole share, these are the inputs that it published at that moment.
#[tactic(auto, using(crate::proofs::Runs::PublishedLaw::published_law))]
pub fn notes_are_of_their_pass()
    ensures { PublishedLaw }
{}

/// A slave in OP stays there until it has a fault or is reset.
#[tactic(auto, using(crate::proofs::Runs::SnapshotsLaw::working_law))]
pub fn slaves_stay_in_op()
    ensures { WorkingLaw }
{}

/// Only a loss, a fault, a reset or an early close can keep a unit from being taken, and only its own: the loss of a frame of
/// one of its parts, a fault or a reset of one of its slaves before the frame passed it, or a close before its frames are back.
/// This does not depend on other units, or on what happens to a slave after its frame.
pub fn quiet_cycles_are_taken()
    ensures { TakenLaw }
{}

/// Each of these keeps the unit from being taken: no input is set in a cycle that wasn't quiet for its unit.
pub fn taken_cycles_were_quiet()
    ensures { QuietLaw }
{}

/// A cyclic frame that goes round leaves each slave, working or not, as the plain machine says, and brings back what it says.
pub fn round_trips()
    ensures { RoundTrip }
{}

/// Past slaves in OP a cyclic frame publishes the linked outputs, and brings back the inputs and the predicted counters.
#[tactic(auto, using(crate::proofs::Refinement::RoundTrip::cycle_law))]
pub fn cycles_exchange()
    ensures { CycleLaw }
{}

/// In a world that refines a plain state, an event is made exactly if the plain machine makes it, and the world then refines the
/// plain machine's next state, unless the event stops the world.
#[tactic(auto, using(crate::proofs::Refinement::StepsRefine::steps_refine))]
pub fn steps_refine()
    ensures { StepsRefine }
{}

/// If a world refines a plain state, every list of events that makes no stop leads it to a world that refines the plain machine's
/// run of these events, and as many of them are made.
#[tactic(auto, using(crate::proofs::Refinement::StepsRefine::runs_refine))]
pub fn runs_refine()
    ensures { RunsRefine }
{}

/// No stop is made by a list without `Stop`.
#[tactic(auto, using(crate::proofs::Runs::Unstopped::unstopped_law))]
pub fn stops_are_events()
    ensures { UnstoppedLaw }
{}

/// No event changes the plan of a world, whether it can be made or not.
#[tactic(auto, using(crate::proofs::Runs::PlanLaw::plan_stays))]
pub fn plans_stay()
    ensures { PlanLaw }
{}

/// Two runs, one after the other, are one: you may make the events of a list piece by piece.
#[tactic(auto, using(crate::proofs::Refinement::StepsRefine::runs_join))]
pub fn runs_join()
    ensures { RunsJoin }
{}

/// A new world of a usable plan that can be started up (`IsUsable`, `AreStartable`), over every list of events. Nothing is shown
/// until the start-up is ready; then the world refines the run of the plain machine, until it is stopped. Each slave that doesn't
/// work when the start-up is ready had a fault or a reset since that start-up began.
pub fn whole_runs()
    ensures { WholeLaw }
{}

/// A new world of the plan that the link compiler makes of a table, over every list of events: what `whole_runs` says of any
/// usable plan holds.
pub fn compiled_runs()
    ensures { CompiledLaw }
{}

/// A start-up may begin in a new world of a table that the compiler accepts, with devices of its types, if their parameters agree
/// with what the plan assigns. It may also begin in the world of a machine, whose slaves are the table's and of its types.
pub fn new_worlds_may_start()
    ensures devices { NewLaw }
    ensures machine { MachineLaw }
{}

/// The events of a script's `ready` are turns of a start-up: the frame is sent and passes all slaves, each slave serves once, and
/// the frame comes back.
pub fn turns_of_a_script()
    ensures { TurnLaw }
{}

/// The headline, in terms of what a world's calls return: a new world of an accepted table, after any events that end with a
/// Ready start-up. A cyclic frame that passes a slave in OP, of the frame's part, makes it show exactly the linked bits of the
/// output variables as they were when the cycle began, and 0 elsewhere. It changes nothing else. A close takes each sync unit
/// completely or not at all, and the report says which. If it is taken, every linked input bit of the unit's slaves is the one
/// that the slave had published when its frame passed it in this cycle. The working counters are the predicted ones, and the
/// broadcasts counted every slave. If not, no linked input bit of them changes, and there is a cause: a frame of the unit was
/// lost since the cycle began, is under way, or passed a slave that gave less than its share after a fault or a reset. If there
/// is a cause, the unit is not taken. Each other event touches only the slave or the variable that it names, or none.
#[tactic(auto, using(crate::proofs::Headline::HeadlineLaw::headline_law))]
pub fn headline()
    ensures { HeadlineLaw }
{}

/// A run has one outcome: the same events lead a new world to the same world, and as many of them are made.
#[tactic(auto, using(crate::proofs::Runs::OneOutcomeLaw::one_outcome))]
pub fn runs_have_one_outcome()
    ensures { OneOutcomeLaw }
{}

/// A cycle is begun once: in a run of a new world no two begins have the same number.
pub fn cycles_begin_once()
    ensures { BegunOnceLaw }
{}

/// A frame passes a slave once, if it passes it after a start-up was Ready.
pub fn frames_pass_once()
    ensures { PassedOnceLaw }
{}

/// Frames keep their order: if two pass the same slave, the older one passes it first.
pub fn frames_keep_their_order()
    ensures { OrderLaw }
{}

/// The AL word of a report is the OR of what the slaves said of their AL status as the frames of the cycle passed them: all
/// slaves, for each part whose frame is back.
pub fn reports_say_what_slaves_said()
    ensures { WordLaw }
{}

/// The AL word is 8 if the frames passed only slaves in OP.
pub fn reports_say_op()
    ensures { OpWordLaw }
{}

/// The flag of a slave is set only by a fault or a reset that was made since the last start-up began.
#[tactic(auto, using(crate::proofs::Runs::TroubleLaw::trouble_law))]
pub fn troubles_are_faults()
    ensures { TroubleLaw }
{}

/// A cycle that nothing disturbs can be made in a Ready world at rest, and every unit is taken. Each slave then shows exactly
/// its linked output bits, and each linked input bit is the one that its slave has published.
pub fn undisturbed_cycles_are_taken()
    ensures { UndisturbedLaw }
{}

/// A cycle that loses a frame can be made, and the unit of the frame is not taken.
pub fn a_loss_misses_its_unit()
    ensures { LossLaw }
{}

/// A cycle that is closed before a frame is back can be made, and the unit of the frame is not taken.
pub fn an_early_close_misses_its_units()
    ensures { EarlyLaw }
{}

/// After a fault of a slave with outputs a cycle can be made whole, and the unit of the slave is not taken.
pub fn a_fault_misses_its_unit()
    ensures { ShortLaw }
{}

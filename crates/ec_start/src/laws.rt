//! Laws of the definitions of this crate. Each function does nothing: its contract is the law.

ghost use Rattle.ec_start.specs.AdvertisedFull.{AdvertisedFullHasTheScript};
ghost use Rattle.ec_start.specs.Feeding.{HardwareIsFed};
ghost use Rattle.ec_start.specs.Interface.{PlannedSlavesAreStartable, ScriptsAreShort};
ghost use Rattle.ec_start.specs.PlainScripts.{PlainTablesSendTheSame};
ghost use Rattle.ec_start.specs.Laws.{IsScriptOfThree, UploadsComeFirst, MappingsAreReadBehindParameters, FixedIsOnlyRead, CountersRunToSeven, EndedStays, TakenKeepsThePlan, PlansStay, PollsEnd, AsideIsAPoll, MailboxFaultsEnd, ForeignChangesNothing, FramesAreAnswered, StartablesAreTaken};

/// The script of the example's three slaves has 75 steps, and step 10 is the first wait for slave 0's SII.
#[tactic(auto, using(crate::proofs::LawLemmas::script_of_three))]
pub fn script_of_three_slaves()
    ensures { IsScriptOfThree }
{}

/// Of a slave without parameters a start-up reads the mappings back before it writes anything by SDO.
#[tactic(auto, using(crate::proofs::LawLemmas::uploads_come_first))]
pub fn uploads_come_first()
    ensures { UploadsComeFirst }
{}

/// A start-up writes a slave's parameters before it reads the mappings back.
pub fn mappings_are_read_behind_parameters()
    ensures { MappingsAreReadBehindParameters }
{}

/// Where a device has its assignment fixed, a start-up writes nothing but parameters by SDO.
#[tactic(auto, using(crate::proofs::LawLemmas::fixed_is_only_read))]
pub fn fixed_is_only_read()
    ensures { FixedIsOnlyRead }
{}

/// The mailbox counter begins at 1, goes up by 1, and begins at 1 again after 7.
#[tactic(auto, using(crate::proofs::LawLemmas::counters_run_to_seven))]
pub fn counters_run_to_seven()
    ensures { CountersRunToSeven }
{}

/// An ended start-up stays as it is, whatever is called.
#[tactic(auto, using(crate::proofs::LawLemmas::ended_stays))]
pub fn ended_stays()
    ensures { EndedStays }
{}

/// A datagram that is taken leaves the plan.
#[tactic(auto, using(crate::proofs::LawLemmas::taken_same))]
pub fn taken_keeps_the_plan()
    ensures { TakenKeepsThePlan }
{}

/// A start-up feeds the parts of slaves of real devices, and of no others.
#[tactic(auto, using(crate::proofs::Feedings::hardware_is_fed))]
pub fn hardware_is_fed()
    ensures { HardwareIsFed }
{}

/// A start-up keeps its plan: `next`, `take`, `give_up` and `restart` leave it.
pub fn plans_stay()
    ensures { PlansStay }
{}

/// A wait is polled at most 1000 times: the last of these polls ends the start-up.
#[tactic(auto, using(crate::proofs::LawLemmas::polls_end))]
pub fn polls_end()
    ensures { PollsEnd }
{}

/// A message that is set aside is a poll, and no more.
#[tactic(auto, using(crate::proofs::MailboxFaults::aside_is_a_poll))]
pub fn aside_is_a_poll()
    ensures { AsideIsAPoll }
{}

/// A full mailbox, a refused transfer, an answer for another object, endless emergencies and silence each end the start-up of real
/// devices.
#[tactic(auto, using(crate::proofs::MailboxFaults::mailbox_faults_end))]
pub fn mailbox_faults_end()
    ensures { MailboxFaultsEnd }
{}

/// A foreign payload changes nothing.
#[tactic(auto, using(crate::proofs::LawLemmas::foreign_changes_nothing))]
pub fn foreign_changes_nothing()
    ensures { ForeignChangesNothing }
{}

/// A frame that comes back as it was sent is an answer to it.
#[tactic(auto, using(crate::proofs::LawLemmas::frames_are_answered))]
pub fn frames_are_answered()
    ensures { FramesAreAnswered }
{}

/// `Startup::new` takes each plan that can be started up.
pub fn startables_are_taken()
    ensures { StartablesAreTaken }
{}

/// A master brings full slaves up by the script that it has for slaves that aren't full. A table that is advertised in full has the
/// script of the table.
#[tactic(auto, using(crate::proofs::FullScripts::full_scripts))]
pub fn advertised_full_has_the_script()
    ensures { AdvertisedFullHasTheScript }
{}

/// A slave of a plan, of a type of its table, can be started up.
#[tactic(auto, using(crate::proofs::Startable::startable))]
pub fn planned_slaves_are_startable()
    ensures { PlannedSlavesAreStartable }
{}

/// The script of a plan that can be started up is short.
#[tactic(auto, using(crate::proofs::ScriptLengths::scripts_are_short))]
pub fn scripts_are_short()
    ensures { ScriptsAreShort }
{}

/// Of a table without `hardware` a start-up has the actions that it had before there was `hardware`, and feeds no part.
#[tactic(auto, using(crate::proofs::PlainLaw::plain_law))]
pub fn plain_tables_send_the_same()
    ensures { PlainTablesSendTheSame }
{}

//! Laws of the definitions. Each function does nothing: its contract is the law.

ghost use Rattle.ec_slave.specs.Laws.{OtherStationPasses};
ghost use Rattle.ec_slave.specs.Laws.{OtherPositionPasses};
ghost use Rattle.ec_slave.specs.Sound.{MetIsSlave, PowerOnIsSlave};
ghost use Rattle.ec_slave.specs.Laws.{CountsWhatItChanges, HeadingStays, WritesByByte, ReadsByByte, CountsByRole};
ghost use Rattle.ec_slave.specs.MeetingLaws.{LogicalBitByBit, ManagersAfterWrite, RegistersAfterWrite, ValueBitByBit};
ghost use Rattle.ec_slave.specs.AgainstAll.{LogicalAgainstAll, PhysicalAgainstAll};
ghost use Rattle.ec_slave.specs.Showing.{ReadsShowTheRun, SlavesShowWholeValues};
ghost use Rattle.ec_slave.specs.Steps.{AccessesAreSteps, ManagersGoByRuns};
ghost use Rattle.ec_slave.specs.HardwareLaws.{EmergenciesComeFirst, MissingFmmusReadZero, OutputsAreAwaitedOutsideOp, OutputsAreOwed, OutputsComeFirst, OutputsStayOwed, RequestsWaitLong, SlavesTakeNames, StatusIsCopied, SwitchedOnAwaitsNothing, WritesEndWaits};
ghost use Rattle.ec_slave.specs.LogicalLaws.{BroadcastLaw, ExchangeLaw, MappedLaw, MissesLaw};
ghost use Rattle.ec_slave.specs.Interface.{SlavesAreSwitchedOn, SwitchedOnWhole, StepsHaveThreeParts, StepsSettle, RequestsAreDecided, PlainTypesDecide, ChecksAreOfManagers, ReadsAreFinished, MessagesKeep, MessagesRest, RequestsAreAnswered};
ghost use Rattle.ec_slave.specs.Interface.{FaultsAreInOp, ApplicationsGoByBytes, ApplicationsGoWhole, FewInputs, DatagramsKeepTheInside, ValuesStayWhole, DatagramsGoOn, DatagramsStay, DatagramsStayPast, WritesMeet, ReadsMeet, LogicalCommandsMeet, OutputsArePublished};
ghost use Rattle.ec_slave.specs.Interface.{RegistersAreWritten, RegistersAreRead, ManagersAside, ManagersAreCleared, SiiConfigurationIsLeft, FreshSlavesAreLeft, RegistersAreOpen, SlavesShowThemselves, UpdatedByIndex, UpdatedWhole, RamIsGoverned, ManagersAreAccessed, WholeValuesAreTheData, AccessesLeave};
ghost use Rattle.ec_slave.specs.FirmwareLaws.{AssignmentsStay, FirstReplyIsOne, PowerOnAssigns, RestsQuietly, ServesKeepAssignments, ServesKeepBuffers, ServesKeepSettings, StatesAreEntered};

/// A datagram for another station address passes, and changes nothing.
#[tactic(auto, using(crate::proofs::Commands::PassedBy::other_station_passes))]
pub fn other_station_passes()
    ensures { OtherStationPasses }
{}

/// A datagram for another position passes, and only its ADP changes: it grows by 1.
#[tactic(auto, using(crate::proofs::Commands::PassedBy::other_position_passes))]
pub fn other_position_passes()
    ensures { OtherPositionPasses }
{}

/// Only ADP, the bytes of the data and the working counter of a datagram ever change.
#[tactic(auto, using(crate::proofs::Commands::PassedBy::heading_stays))]
pub fn heading_stays()
    ensures { HeadingStays }
{}

/// What adds nothing to the working counter changes nothing of the slave, and nothing of the data.
#[tactic(auto, using(crate::proofs::Memory::CountsWhatItChanges::counts_what_it_changes))]
pub fn counts_what_it_changes()
    ensures { CountsWhatItChanges }
{}

/// What holds of every slave holds of one that was just switched on, and of one that a datagram met.
pub fn slaves_stay_slaves()
    ensures power_on { PowerOnIsSlave }
    ensures met { MetIsSlave }
{}

/// After a datagram that writes, a register reads the byte that it brought, if it is stored, and else what it read before.
/// Each manager has the settings that were written to it and is empty, or is as it was.
pub fn registers_after_write()
    ensures registers { RegistersAfterWrite }
    ensures managers { ManagersAfterWrite }
{}

/// A logical datagram moves the bits that the FMMUs map, and no other; what it leaves in a manager has 0 elsewhere.
pub fn logical_bit_by_bit()
    ensures bits { LogicalBitByBit }
    ensures value { ValueBitByBit }
{}

/// A write changes the bytes that it touches and that take writes, and no other.
pub fn writes_by_byte()
    ensures { WritesByByte }
{}

/// A read changes the data bytes whose addresses are there, and no other.
#[tactic(auto, using(crate::proofs::Memory::WritesByByte::reads_by_byte))]
pub fn reads_by_byte()
    ensures { ReadsByByte }
{}

/// What the working counter grows by, as a table.
#[tactic(auto, using(crate::proofs::Memory::WritesByByte::counts_by_role))]
pub fn counts_by_role()
    ensures { CountsByRole }
{}

/// A logical datagram that maps nothing of a slave changes neither.
pub fn logical_misses()
    ensures { MissesLaw }
{}

/// A slave whose FMMUs map its area exchanges exactly its outputs and its inputs with a logical datagram over it.
pub fn exchange()
    ensures { ExchangeLaw }
{}

/// A slave that publishes new outputs is mapped as it was.
pub fn mapped_kept()
    ensures { MappedLaw }
{}

/// A physical datagram does to each manager what it does to it among all managers as they were.
#[tactic(auto, using(crate::proofs::Memory::AgainstAll::physical_against_all))]
pub fn physical_against_all()
    ensures { PhysicalAgainstAll }
{}

/// A logical datagram does to each manager what it does to it among all managers as they were.
#[tactic(auto, using(crate::proofs::Memory::AgainstAll::logical_against_all))]
pub fn logical_against_all()
    ensures { LogicalAgainstAll }
{}

/// An access changes a manager by a step of a manager's run, of which the laws of `ec_sync` speak.
pub fn accesses_are_steps()
    ensures { AccessesAreSteps }
{}

/// Whatever datagrams, firmware and application do, they change each manager of a slave by a few steps, which are named. So
/// what is proved of all runs holds of it.
#[tactic(auto, using(crate::proofs::Always::ManagersGoByRuns::managers_go_by_runs))]
pub fn managers_go_by_runs()
    ensures { ManagersGoByRuns }
{}

/// What a datagram reads of a sync manager, byte by byte or bit by bit, is part of the value that the run of that manager
/// shows. So is what the application gets of the outputs.
pub fn reads_show_the_run()
    ensures { ReadsShowTheRun }
{}

/// Whatever happened to a slave since it was switched on, each of its managers shows any reader only values that were published
/// whole, by a step that one of these happenings made.
pub fn slaves_show_whole_values()
    ensures { SlavesShowWholeValues }
{}

/// A broadcast read of registers changes no slave and counts one.
#[tactic(auto, using(crate::proofs::Memory::BroadcastLaw::broadcast_read))]
pub fn broadcast_read()
    ensures { BroadcastLaw }
{}

/// A slave for which nothing waits is unchanged by a firmware step.
#[tactic(auto, using(crate::proofs::FirmwareRuns::RestsQuietly::rests_quietly))]
pub fn rests_quietly()
    ensures { RestsQuietly }
{}

/// A firmware step changes no byte of the memory, no station address, no FMMU and no settings of a sync manager.
#[tactic(auto, using(crate::proofs::FirmwareRuns::RestsQuietly::settings_kept))]
pub fn serves_keep_settings()
    ensures { ServesKeepSettings }
{}

/// What a master writes by the numbers and addresses of a slave's type, the slave takes at the role's place, and at no other; what
/// its registers read is what the manager at the place holds.
#[tactic(auto, using(crate::proofs::Always::HardwareLaws::names_taken))]
pub fn slaves_take_names()
    ensures { SlavesTakeNames }
{}

/// Whatever happens to a slave since it was switched on, the registers of FMMUs that it lacks read 0.
#[tactic(auto, using(crate::proofs::Always::HardwareLaws::missing_read_zero))]
pub fn missing_fmmus_read_zero()
    ensures { MissingFmmusReadZero }
{}

/// A device without firmware shows in AL status what was written to AL control. One with firmware, of a type of real devices, enters
/// OP only if no outputs are awaited.
#[tactic(auto, using(crate::proofs::Always::HardwareLaws::status_copied, crate::proofs::Always::HardwareLaws::outputs_first))]
pub fn devices_enter_states()
    ensures copied { StatusIsCopied }
    ensures outputs { OutputsComeFirst }
{}

/// From the moment that a slave with firmware of real devices enters SAFEOP, by a request or a fault, it doesn't come to OP while outputs
/// are assigned, whatever happens, until a datagram writes the whole value of manager 2 in SAFEOP.
#[tactic(auto, using(crate::proofs::Always::OutputsFirst::writes_end_waits))]
pub fn outputs_come_first()
    ensures ends { WritesEndWaits }
    ensures begin { OutputsAreOwed }
    ensures stay { OutputsStayOwed }
{}

/// Slow firmware decides a request by the step that finds that as many before it let the request wait as the type says.
#[tactic(auto, using(crate::proofs::Always::SlowAndLoud::waits_long))]
pub fn requests_wait_long()
    ensures { RequestsWaitLong }
{}

/// An emergency lies in the mailbox as PREOP is entered from INIT, with counter 1, and no message is taken before it is read.
#[tactic(auto, using(crate::proofs::Always::SlowAndLoud::emergencies_first))]
pub fn emergencies_come_first()
    ensures { EmergenciesComeFirst }
{}

/// In OP no outputs are awaited, and never in a slave without firmware of real devices, whatever happens to it.
#[tactic(auto, using(crate::proofs::Always::HardwareLaws::nothing_awaited, crate::proofs::Always::HardwareLaws::stays_outside))]
pub fn outputs_are_awaited_outside_op()
    ensures power_on { SwitchedOnAwaitsNothing }
    ensures stay { OutputsAreAwaitedOutsideOp }
{}

/// In SAFEOP and OP a firmware step changes no buffer of a sync manager, as long as it does not leave them.
#[tactic(auto, using(crate::proofs::FirmwareRuns::RestsQuietly::buffers_kept))]
pub fn serves_keep_buffers()
    ensures { ServesKeepBuffers }
{}

/// By firmware OP is reached only from SAFEOP, by a request for it. SAFEOP is entered from PREOP only if managers 2 and 3 are as the PDOs
/// that are assigned want them. PREOP is entered from INIT only if managers 0 and 1 are the type's mailboxes.
#[tactic(auto, using(crate::proofs::FirmwareRuns::StatesAreEntered::states_entered))]
pub fn states_are_entered()
    ensures { StatesAreEntered }
{}

/// After PREOP was entered from INIT, the first reply has number 1, or 2 if an emergency was sent.
#[tactic(auto, using(crate::proofs::FirmwareRuns::StatesAreEntered::first_is_one))]
pub fn first_reply_is_one()
    ensures { FirstReplyIsOne }
{}

/// An assignment changes only in PREOP, one that is fixed not at all; and it stays a list of the type's own PDOs, with none of them twice and with at most
/// 2048 bits.
#[tactic(auto, using(crate::proofs::FirmwareRuns::ServesKeepAssignments::assignments_served))]
pub fn serves_keep_assignments()
    ensures { ServesKeepAssignments }
{}

/// The assignments of a slave that was just switched on are lists of the type's own PDOs. None is in them twice, and they have
/// at most 2048 bits, if no two PDOs of a direction have one index and all have at most 2048 bits together. They stay so,
/// whatever firmware, datagrams and application do. A reset makes the slave as the power comes on, so they are so again then.
pub fn assignments_are_proper()
    ensures power_on { PowerOnAssigns }
    ensures stay { AssignmentsStay }
{}

/// What a slave is that was just switched on; the values of its managers are as long as their settings say.
pub fn slaves_are_switched_on()
    ensures known { SlavesAreSwitchedOn }
    ensures whole { SwitchedOnWhole }
{}

/// A firmware step has three parts, one after the other; after it no request waits and the SII isn't busy.
#[tactic(auto, using(crate::proofs::FirmwareRuns::StepLaws::three_parts, crate::proofs::FirmwareRuns::StepLaws::settles))]
pub fn steps_settle()
    ensures parts { StepsHaveThreeParts }
    ensures settles { StepsSettle }
{}

/// A request that waits is decided, with checks that look at the managers and the assignments.
#[tactic(auto, using(crate::proofs::FirmwareRuns::StepLaws::decided, crate::proofs::FirmwareRuns::StepLaws::plain_decides, crate::proofs::FirmwareRuns::StepLaws::checks))]
pub fn requests_are_decided()
    ensures decided { RequestsAreDecided }
    ensures plain { PlainTypesDecide }
    ensures checks { ChecksAreOfManagers }
{}

/// A read of the SII changes the port alone.
#[tactic(auto, using(crate::proofs::FirmwareRuns::StepLaws::finished))]
pub fn reads_are_finished()
    ensures { ReadsAreFinished }
{}

/// A message changes only the mailboxes, the assignments and the counter of the replies, and nothing if none is taken. A
/// request is answered.
pub fn messages_are_answered()
    ensures keep { MessagesKeep }
    ensures rest { MessagesRest }
    ensures answered { RequestsAreAnswered }
{}

/// What a fault does; and the application goes byte after byte.
pub fn faults_are_in_op()
    ensures faults { FaultsAreInOp }
    ensures applications { ApplicationsGoByBytes }
{}

/// What an application reads and writes as a whole, and that it writes 2,730 bytes at most.
pub fn applications_go_whole()
    ensures whole { ApplicationsGoWhole }
    ensures few { FewInputs }
{}

/// No datagram changes what a slave is, its state, its assignments, or how much there is of memory and managers.
#[tactic(auto, using(crate::proofs::Always::DatagramsKeepTheInside::inside_kept))]
pub fn datagrams_keep_the_inside()
    ensures { DatagramsKeepTheInside }
{}

/// Whatever happens to a slave, the values of its managers stay as long as their settings say.
pub fn values_stay_whole()
    ensures { ValuesStayWhole }
{}

/// What a datagram that writes, or reads, at a slave does to both; which commands go through the FMMUs; and with which command
/// and ADP it goes on.
pub fn datagrams_meet()
    ensures on { DatagramsGoOn }
    ensures stay { DatagramsStay }
    ensures stay_past { DatagramsStayPast }
    ensures writes { WritesMeet }
    ensures reads { ReadsMeet }
    ensures logical { LogicalCommandsMeet }
{}

/// What a write of registers leaves, that a read of them changes nothing, and which of them may be read and written. Zeros
/// clear managers, and a write of 0x0500 leaves a slave that isn't full.
pub fn registers_are_written()
    ensures written { RegistersAreWritten }
    ensures read { RegistersAreRead }
    ensures aside { ManagersAside }
    ensures open { RegistersAreOpen }
    ensures cleared { ManagersAreCleared }
    ensures left { SiiConfigurationIsLeft }
    ensures fresh { FreshSlavesAreLeft }
{}

/// What the registers of the AL status and of the SII read; station address and FMMUs read as they were stored.
pub fn slaves_show_themselves()
    ensures { SlavesShowThemselves }
{}

/// The governor of a byte of the RAM decides whether it is read and written, and what it shows. What an access does to one
/// manager, and to the slave.
pub fn ram_is_governed()
    ensures governed { RamIsGoverned }
    ensures managers { ManagersAreAccessed }
    ensures whole { WholeValuesAreTheData }
    ensures leaves { AccessesLeave }
{}

/// What a list becomes if some of its numbers, or all, are replaced.
pub fn lists_are_updated()
    ensures by_place { UpdatedByIndex }
    ensures whole { UpdatedWhole }
{}

/// A slave that publishes new outputs has them in manager 2, and all other managers as they were.
#[tactic(auto, using(crate::proofs::LogicalAccess::OutputsPublished::outputs_published))]
pub fn outputs_are_published()
    ensures { OutputsArePublished }
{}

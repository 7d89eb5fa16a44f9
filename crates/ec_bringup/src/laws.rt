//! Laws of the definitions. Each function does nothing: its contract is the law.

ghost use Rattle.ec_bringup.specs.Keeping.{StandingLaw, GoneLaw, ForOthersLaw, FeedLaw, FrameLaw};
ghost use Rattle.ec_bringup.specs.Fed.{PartsArePredicted, PartsCanBeFed};
ghost use Rattle.ec_bringup.specs.Runs.{BeginningLaw, StartUpLaw};
ghost use Rattle.ec_bringup.specs.Registers.{HeldIsRead, ReadyIsRead};
ghost use Rattle.ec_bringup.specs.Undisturbed.{RoundLaw};
ghost use Rattle.ec_bringup.specs.Devices.{DevicesLaw, IdentitiesLaw, RingLaw, SlavesOfLaw, SwitchedOnLaw, TypedSlavesLaw};
ghost use Rattle.ec_bringup.specs.Applied.{AppliedUpLaw};
ghost use Rattle.ec_bringup.specs.ComesUp.{AgainLaw, ComesUpLaw, CompiledPlansLaw, CompiledUpLaw, FramesAreFew, PlainUpLaw};

/// After every run of a new segment (`Starting`) that makes it ready, each slave works as the plan says, or it had a fault or a
/// reset since the first frame of that start-up was sent.
pub fn start_up()
    ensures { StartUpLaw }
{}

/// The registers of a slave that holds the plan read it: its station address, its FMMUs, and each sync manager at 0x0800 + 8 * n for
/// the number n that devices of its type give it, with the addresses that they have (ETG.1000.4, "Sync manager", "FMMU"). At Ready
/// each slave's do, or it was reset since the first frame of that start-up was sent.
pub fn ready_is_read()
    ensures held { HeldIsRead }
    ensures ready { ReadyIsRead }
{}

/// A start-up is at its beginning when it begins, and no more once a frame was sent or answered, or it was given up.
pub fn beginning()
    ensures { BeginningLaw }
{}

/// A start-up that nothing disturbs is Ready after one frame for each action of its script, one for each part before each that asks
/// for OP or looks for it, and the further polls that slow slaves and emergencies take. Its slaves are devices of the plan's types, in
/// any state, whose parameters agree with what the plan assigns.
pub fn comes_up()
    ensures { ComesUpLaw }
{}

/// Without `hardware` it is Ready after one frame for each action of its script.
pub fn comes_up_without_hardware()
    ensures { PlainUpLaw }
{}

/// An undisturbed start-up takes few frames, whatever state the slaves are in, and at least one.
pub fn frames_are_few()
    ensures { FramesAreFew }
{}

/// The parts of a plan of the link compiler can be fed, and come back with the counters that are expected.
#[tactic(auto, using(crate::proofs::Script::FeedsOfPlans::parts_can_be_fed, crate::proofs::Script::FeedsOfPlans::parts_are_predicted))]
pub fn parts_are_fed()
    ensures fed { PartsCanBeFed }
    ensures predicted { PartsArePredicted }
{}

/// This also holds whatever the slaves' applications read and write between the frames of the start-up.
#[tactic(auto, using(crate::proofs::StartUp::ComesUpLaw::applied_up))]
pub fn comes_up_beside_applications()
    ensures { AppliedUpLaw }
{}

/// After any run of a new segment (`Starting`) its slaves are devices of their types, so a start-up can bring them up again.
pub fn again()
    ensures { AgainLaw }
{}

/// A start-up's frame that passed all slaves answers the frame that was sent: only its second datagram has changed.
#[tactic(auto, using(crate::proofs::AllSlaves::RoundLaw::round))]
pub fn round()
    ensures { RoundLaw }
{}

/// A start-up of a table that the compiler accepts is Ready in the same way, if nothing disturbs it.
pub fn compiled_up()
    ensures { CompiledUpLaw }
{}

/// The plan of each table that the compiler accepts can be started up, and is complete.
pub fn compiled_plans()
    ensures { CompiledPlansLaw }
{}

/// A slave keeps what is known of it, whatever its firmware and its application do, and at a fault and a reset.
pub fn standing()
    ensures { StandingLaw }
{}

/// A slave that was reset since it got its station address has lost it.
pub fn gone()
    ensures { GoneLaw }
{}

/// A datagram for another slave changes nothing of a slave that has, or had, its station address. It comes out as it went in.
pub fn for_others()
    ensures { ForOthersLaw }
{}

/// A frame that feeds a part leaves each slave as it was, but that its outputs are awaited no more.
pub fn feed()
    ensures { FeedLaw }
{}

/// A frame of the start-up that passes a slave brings it where the action leads, if the frame may come back as done.
pub fn frame()
    ensures { FrameLaw }
{}

/// A slave that was just switched on, with the identity of a device of its type, is a genuine device of the type. So are the
/// slaves of a table that `compile` accepts, with such identities. The identities that the table states are such identities, so
/// its slaves are genuine devices of their types when they are switched on.
pub fn switched_on_slaves_are_devices()
    ensures one { SwitchedOnLaw }
    ensures identities { IdentitiesLaw }
    ensures typed { TypedSlavesLaw }
    ensures of_table { SlavesOfLaw }
{}

/// A device stays one whatever happens to it: any frame, a firmware step, what its application writes or reads, a fault, a reset.
pub fn devices_stay_devices()
    ensures { DevicesLaw }
{}

/// The slaves of a ring stay devices, whatever frame passes all of them and whatever happens to one of them. A start-up may find
/// them in the state that this leaves.
#[tactic(auto, using(crate::proofs::OneSlave::DevicesLaw::stay))]
pub fn rings_stay_devices()
    ensures { RingLaw }
{}

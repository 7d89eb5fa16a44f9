//! Laws of scripts of a simulated segment. Each function does nothing: its contract is the law.
ghost use Rattle.ec_simulation.specs.Events.{LinesRun, ScriptsRun};
ghost use Rattle.ec_simulation.specs.Promised.{CycleLaw, MachineCycleLaw, ReadyCycleLaw, ReadyLaw, TakenTextLaw};

/// What a line does to a world is a run of the line's events, up to the first that can't be made. It says `no` exactly if
/// there is such an event.
#[tactic(auto, using(crate::proofs::Running::lines_run))]
pub fn lines_are_runs()
    ensures { LinesRun }
{}

/// A run of events does to a world what the lines of a script do, one after another.
#[tactic(auto, using(crate::proofs::Running::scripts_run))]
pub fn scripts_are_runs()
    ensures { ScriptsRun }
{}

/// `ready` brings every slave up and says how it ended, in a new world of devices, after a failure or after a stop.
pub fn ready_brings_up()
    ensures { ReadyLaw }
{}

/// `cycle` of a world that is Ready and at rest takes every unit, and its output is the report.
pub fn cycle_is_taken()
    ensures { CycleLaw }
{}

/// The text of that report says that each unit was taken.
pub fn taken_is_printed()
    ensures { TakenTextLaw }
{}

/// `ready` and then `cycle` on a new world of devices, such as one that is made of a machine. If their parameters agree with what the
/// plan assigns, the start-up ends Ready, and the cycle takes every unit.
pub fn ready_and_cycle()
    ensures devices { ReadyCycleLaw }
    ensures machine { MachineCycleLaw }
{}

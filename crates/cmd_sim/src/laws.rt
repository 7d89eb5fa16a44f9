//! Laws of what lines do to a simulated segment, and what they print. Each function does nothing: its contract is the law.
ghost use Rattle.cmd_sim.specs.Laws.{LivesAreScripts, LivesRun, ReasonsOnlyAdd};

/// With reasons, lines do and print what they do and print without them, and the reasons stand between.
pub fn reasons_only_add()
    ensures { ReasonsOnlyAdd }
{}

/// After each line that comes, the world is the one that a script of all lines so far leaves. Lines that stand for nothing are left out,
/// and reasons make no difference.
#[tactic(auto, using(crate::proofs::Runs::lives_are_scripts))]
pub fn lives_are_scripts()
    ensures { LivesAreScripts }
{}

/// A run of events leads to that world.
#[tactic(auto, using(crate::proofs::Runs::lives_run))]
pub fn lives_are_runs()
    ensures { LivesRun }
{}

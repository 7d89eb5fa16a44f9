//! Laws of lines that move a master. Each function does nothing: its contract is the law.
ghost use Rattle.cmd_master.specs.Laws.{CyclesCanRun, ReasonsOnlyAdd};

/// Behind lines of a new master, a cycle is run exactly if the last start-up ended Ready and a number is left.
#[tactic(auto, using(crate::proofs::Cycling::cycles_can_run))]
pub fn cycles_can_run()
    ensures { CyclesCanRun }
{}

/// With reasons, lines do and print the same as without them; the reasons are added.
pub fn reasons_only_add()
    ensures { ReasonsOnlyAdd }
{}

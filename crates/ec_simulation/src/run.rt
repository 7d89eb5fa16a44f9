//! Running a step of a line over a world that no one watches, and its text.
ghost use Rattle.std.specs.Prelude.{◌≡◌, ◌++◌, codes, false, string_bytes};
ghost use Rattle.std.specs.Result.{IfOk};
ghost use Rattle.ec_text.specs.PlanText.{newline};
ghost use Rattle.ec_world.specs.NewWorld.{IsToStart};
ghost use Rattle.ec_script.specs.declared.line.LineAction.TheVariants.{Ready};
ghost use Rattle.ec_script.specs.declared.output.LineOutput.{LineOutput};
ghost use Rattle.ec_script.specs.Outputs.{answer_of, is_done};
ghost use Rattle.ec_simulation.specs.Work.{Does};
ghost use Rattle.ec_simulation.specs.Events.{RunsLine};
ghost use Rattle.ec_simulation.specs.Statuses.{statuses};
ghost use Rattle.ec_simulation.specs.Views.{view_of};
ghost use Rattle.ec_simulation.specs.Promised.{IsReadied};
ghost use Rattle.ec_script.specs.Texts.{output_text};

use crate::action::watch_action;
use crate::status::printed_text;
use ec_script::{LineAction, LineOutput, Step};
use ec_table::Table;
use ec_world::{Unwatched, World};
use std::alloc::{AllocError, Global};

/// Does what a line asks for, up to the first event that can't be made, and returns its output. The world is
/// left as `World::run` of the line's events leaves it. It allocates nothing.
pub fn do_action(world: &mut World<'_>, action: LineAction) -> LineOutput
    ensures does { Does action world.old world.new result }
    ensures run { RunsLine action world.old world.new (is_done result) }
    ensures plan { world.new.plan ≡ world.old.plan }
{
    watch_action(world, &mut Unwatched, action)
}

/// Does a step of a line, up to the first event that can't be made, and returns the text that it prints. Call it for each of the line's
/// steps, as often as its `times` say. It leaves the world as `World::run` of the step's events does, and the text is that of the last of
/// them. The world is one of the table. `ready` on a new world of devices, or after a failed start-up with no frame on its way, brings every slave up and prints
/// `ready`.
///
/// # Errors
///
/// `AllocError` if there is no memory for the text; the world is then as the line leaves it.
pub fn run_step(
    alloc: Global,
    world: &mut World<'_>,
    table: &Table,
    step: &Step,
) -> Result<String, AllocError>
    ensures does { (output : LineOutput) × Does step.now.action world.old world.new output
        × RunsLine step.now.action world.old world.new (is_done output)
        × IfOk result (λ text. string_bytes text
        ≡ output_text table.now step.now.number (view_of world.new) (statuses world.new) (answer_of step.now.expects_no output)) }
    ensures up { IsToStart table.now world.old → step.now.action ≡ Ready → IsReadied table.now world.old world.new
        × (step.now.expects_no ≡ false → IfOk result (λ text. string_bytes text ≡ codes "ready" ++ newline)) }
    ensures plan { world.new.plan ≡ world.old.plan }
{
    let output = do_action(world, step.action);
    printed_text(
        alloc,
        world,
        table,
        step.number,
        output.answer(step.expects_no),
    )
}

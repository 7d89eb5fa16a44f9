//! The steps of a script by their numbers.

ghost use Rattle.std.specs.Prelude.{◌≡◌, All, slice_get};
ghost use Rattle.ec_start.specs.Planned.{HasFewAssigned};
ghost use Rattle.ec_start.specs.Scripts.{script};

use crate::action::Action;
use crate::script::first_step;
use ec_link::Plan;

/// The action of a step of a plan's start-up by its number, counted from 0; none behind the last step. The plan must be one
/// that `Startup::can_start` returns true for.
pub fn step_at(plan: &Plan, number: usize) -> Option<Action>
    requires { All HasFewAssigned plan.now.slaves }
    ensures { result ≡ slice_get (script plan.now.slaves) number }
{
    let slaves = plan.slaves();
    let mut step = first_step();
    for _ in 0..number {
        let mut cursor = step.cursor;
        cursor.place += 1;
        step = cursor.settle(slaves)?;
    }
    Some(step.action)
}

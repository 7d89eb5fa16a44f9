//! What a line expects of a world, now or within some cycles.
ghost use Rattle.std.specs.Prelude.{◌≡◌};
ghost use Rattle.ec_script.specs.Outputs.{output_if};
ghost use Rattle.ec_simulation.specs.Expecting.{is_met};
ghost use Rattle.ec_simulation.specs.Observing.{Observes};
ghost use Rattle.ec_simulation.specs.Work.{Waits};

use crate::met::is_met;
use crate::rounds::run_cycle;
use ec_script::{Expectation, LineOutput};
use ec_world::{Watcher, World};

/// The output of an expectation, by whether it holds.
pub fn expect(world: &World<'_>, expected: Expectation) -> LineOutput
    ensures { result ≡ output_if (is_met expected world.now) }
{
    LineOutput::of_expectation(is_met(world, expected))
}

/// Runs cycles until an expectation holds, at most so many. It is looked at before the first and behind each. A cycle that can't be run is
/// the last. `Unmet` if the expectation doesn't hold then.
#[tactic(auto, using(crate::proofs::Seeing::observes_none))]
pub fn wait_until<S: Watcher>(
    world: &mut World<'_>,
    watcher: &mut S,
    times: u32,
    expected: Expectation,
) -> LineOutput
    ensures waits { Waits times expected world.old world.new result }
    ensures observed { Observes S.observed watcher.old world.old world.new watcher.new }
{
    for _ in 0..times {
        if is_met(world, expected) {
            return LineOutput::Nothing;
        }
        let said = run_cycle(world, watcher);
        if !said.is_done() {
            return LineOutput::Unmet;
        }
    }
    expect(world, expected)
}

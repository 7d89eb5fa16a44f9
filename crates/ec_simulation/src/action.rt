//! What a line does once, by its action.
ghost use Rattle.std.specs.Prelude.{◌≡◌};
ghost use Rattle.ec_script.specs.Outputs.{is_done};
ghost use Rattle.ec_simulation.specs.Events.{RunsLine};
ghost use Rattle.ec_simulation.specs.Observing.{Observes};
ghost use Rattle.ec_simulation.specs.Work.{Does, event_of};

use crate::inputs::put_input;
use crate::rounds::{make, run_cycle, start_up};
use crate::showing::{show_output, show_variable};
use crate::within::{expect, wait_until};
use ec_script::{LineAction, LineOutput};
use ec_world::{Event, Watcher, World};

/// Does once what a line asks for, as [`do_action`](crate::do_action) does; a watcher makes its events, and may keep what it
/// sees of them.
#[tactic(auto, using(crate::proofs::Plans::action_keeps, crate::proofs::Running::lines_run))]
pub fn watch_action<S: Watcher>(
    world: &mut World<'_>,
    watcher: &mut S,
    action: LineAction,
) -> LineOutput
    ensures does { Does action world.old world.new result }
    ensures run { RunsLine action world.old world.new (is_done result) }
    ensures plan { world.new.plan ≡ world.old.plan }
    ensures observed { Observes S.observed watcher.old world.old world.new watcher.new }
{
    perform(world, watcher, action)
}

/// The event of an action that is one; none for any other.
pub fn event_of(action: LineAction) -> Option<Event>
    ensures { result ≡ event_of action }
{
    match action {
        LineAction::Start => Some(Event::StartNext),
        LineAction::Set(variable, value) => Some(Event::Set(variable, value)),
        LineAction::Begin => Some(Event::Begin),
        LineAction::Pass(slot) => Some(Event::Pass(slot)),
        LineAction::Lose(slot) => Some(Event::Lose(slot)),
        LineAction::Return(slot) => Some(Event::Return(slot)),
        LineAction::Close => Some(Event::Close),
        LineAction::Serve(slave) => Some(Event::Serve(slave)),
        LineAction::Put(slave, offset, byte) => Some(Event::AppPut(slave, offset, byte)),
        LineAction::Get(slave, offset) => Some(Event::AppGet(slave, offset)),
        LineAction::Fail(slave) => Some(Event::Fault(slave)),
        LineAction::Reset(slave) => Some(Event::Reset(slave)),
        LineAction::Stop => Some(Event::Stop),
        LineAction::Input(_, _)
        | LineAction::Never(_)
        | LineAction::Expect(_)
        | LineAction::Ready
        | LineAction::Cycle
        | LineAction::Within(_, _)
        | LineAction::Show
        | LineAction::ShowVariable(_)
        | LineAction::Output(_)
        | LineAction::LosePart(_, _)
        | LineAction::Served
        | LineAction::Report
        | LineAction::States => None,
    }
}

/// Does once what a line asks for.
#[tactic(auto, using(crate::proofs::Seeing::observes_none))]
fn perform<S: Watcher>(world: &mut World<'_>, watcher: &mut S, action: LineAction) -> LineOutput
    ensures does { Does action world.old world.new result }
    ensures observed { Observes S.observed watcher.old world.old world.new watcher.new }
{
    match action {
        LineAction::Start => make(world, watcher, Event::StartNext),
        LineAction::Set(variable, value) => make(world, watcher, Event::Set(variable, value)),
        LineAction::Begin => make(world, watcher, Event::Begin),
        LineAction::Pass(slot) => make(world, watcher, Event::Pass(slot)),
        LineAction::Lose(slot) => make(world, watcher, Event::Lose(slot)),
        LineAction::Return(slot) => make(world, watcher, Event::Return(slot)),
        LineAction::Close => make(world, watcher, Event::Close),
        LineAction::Serve(slave) => make(world, watcher, Event::Serve(slave)),
        LineAction::Put(slave, offset, byte) => {
            make(world, watcher, Event::AppPut(slave, offset, byte))
        }
        LineAction::Get(slave, offset) => make(world, watcher, Event::AppGet(slave, offset)),
        LineAction::Fail(slave) => make(world, watcher, Event::Fault(slave)),
        LineAction::Reset(slave) => make(world, watcher, Event::Reset(slave)),
        LineAction::Stop => make(world, watcher, Event::Stop),
        LineAction::Input(variable, value) => put_input(world, watcher, variable, value),
        LineAction::Never(_) => LineOutput::No,
        LineAction::Expect(expected) => expect(world, expected),
        LineAction::Ready => start_up(world, watcher),
        LineAction::Cycle => run_cycle(world, watcher),
        LineAction::Within(times, expected) => wait_until(world, watcher, times, expected),
        LineAction::Show => LineOutput::Values,
        LineAction::ShowVariable(variable) => show_variable(world, variable),
        LineAction::Output(variable) => show_output(world, variable),
        LineAction::LosePart(_, _) | LineAction::Served => LineOutput::No,
        LineAction::Report => LineOutput::Report,
        LineAction::States => LineOutput::States,
    }
}

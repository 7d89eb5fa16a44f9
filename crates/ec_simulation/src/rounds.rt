//! Events, and frames that go round, in whole cycles and start-ups.
ghost use Rattle.std.specs.Prelude.{◌≡◌, [], replicate, if◌then◌else◌};
ghost use Rattle.ec_world.specs.NewWorld.{servings};
ghost use Rattle.ec_world.specs.World.{flight_at};
ghost use Rattle.ec_simulation.specs.Observing.{Observes};
ghost use Rattle.ec_simulation.specs.Work.{Makes, MakesAll, Starts, RunsTurn, RunsCycle, last_turn};
ghost use Rattle.ec_simulation.specs.Rounds.{greatest, has_number, round_events, rounds_found};

use ec_script::LineOutput;
use ec_world::{Event, Watcher, World};

/// Makes an event, if it can be made, and returns its output.
#[tactic(auto, using(crate::proofs::Seeing::observes_none, crate::proofs::Seeing::observes_made, crate::proofs::Seeing::observes_then))]
pub fn make<S: Watcher>(world: &mut World<'_>, watcher: &mut S, event: Event) -> LineOutput
    ensures made { Makes event world.old world.new result }
    ensures observed { Observes S.observed watcher.old world.old world.new watcher.new }
{
    let starting = world.outcome().is_none();
    if !watcher.step(world, event) {
        return LineOutput::No;
    }
    if starting && world.outcome().is_some() {
        return LineOutput::Ended;
    }
    match event {
        Event::AppGet(_, _) => LineOutput::Byte,
        Event::Close => LineOutput::Report,
        _ => LineOutput::Nothing,
    }
}

/// Sends frames of a start-up round the ring, one after another, until it has ended or an event can't be made.
#[tactic(auto, using(crate::proofs::Seeing::observes_none, crate::proofs::Seeing::observes_made, crate::proofs::Seeing::observes_then))]
pub fn start_up<S: Watcher>(world: &mut World<'_>, watcher: &mut S) -> LineOutput
    ensures made { Starts last_turn world.old world.new result }
    ensures observed { Observes S.observed watcher.old world.old world.new watcher.new }
{
    for _ in 0..u64::MAX {
        let said = take_turn(world, watcher);
        if !said.is_done() {
            return said;
        }
        if world.outcome().is_some() {
            return said;
        }
    }
    LineOutput::Nothing
}

/// Begins a cycle, sends its frames round the ring, and closes it. It ends at an event that can't be made.
#[tactic(auto, using(crate::proofs::Seeing::observes_none, crate::proofs::Seeing::observes_made, crate::proofs::Seeing::observes_then))]
pub fn run_cycle<S: Watcher>(world: &mut World<'_>, watcher: &mut S) -> LineOutput
    ensures made { RunsCycle world.old world.new result }
    ensures observed { Observes S.observed watcher.old world.old world.new watcher.new }
{
    let begun = make(world, watcher, Event::Begin);
    if !begun.is_done() {
        return begun;
    }
    let back = go_rounds(world, watcher, false);
    if !back.is_done() {
        return back;
    }
    make(world, watcher, Event::Close)
}

/// Sends one frame of a start-up round the ring.
#[tactic(auto, using(crate::proofs::Seeing::observes_none, crate::proofs::Seeing::observes_made, crate::proofs::Seeing::observes_then))]
fn take_turn<S: Watcher>(world: &mut World<'_>, watcher: &mut S) -> LineOutput
    ensures made { RunsTurn world.old world.new result }
    ensures observed { Observes S.observed watcher.old world.old world.new watcher.new }
{
    let sent = make(world, watcher, Event::StartNext);
    if !sent.is_done() {
        return sent;
    }
    go_rounds(world, watcher, true)
}

/// Takes the newest frames round the ring, one after another in the order of their slots.
#[tactic(auto, using(crate::proofs::Seeing::observes_none, crate::proofs::Seeing::observes_made, crate::proofs::Seeing::observes_then))]
fn go_rounds<S: Watcher>(world: &mut World<'_>, watcher: &mut S, serving: bool) -> LineOutput
    ensures made { MakesAll (rounds_found serving world.old) world.old world.new result }
    ensures observed { Observes S.observed watcher.old world.old world.new watcher.new }
{
    let slaves = world.slaves();
    let number = newest(world);
    let mut said = LineOutput::Nothing;
    for slot in 0..world.slots() {
        if holds(world, slot, number) {
            said = go_round(world, watcher, slot, slaves, serving);
            if !said.is_done() {
                return said;
            }
        }
    }
    said
}

/// Takes the frame in a slot past that many slaves, lets each make a firmware step if `serving`, and returns the frame.
#[tactic(auto, using(crate::proofs::Seeing::observes_none, crate::proofs::Seeing::observes_made, crate::proofs::Seeing::observes_then))]
fn go_round<S: Watcher>(
    world: &mut World<'_>,
    watcher: &mut S,
    slot: usize,
    slaves: usize,
    serving: bool,
) -> LineOutput
    ensures made { MakesAll (round_events slaves serving slot) world.old world.new result }
    ensures observed { Observes S.observed watcher.old world.old world.new watcher.new }
{
    let passed = pass_slaves(world, watcher, slot, slaves);
    if !passed.is_done() {
        return passed;
    }
    let served = serve_if(world, watcher, slaves, serving);
    if !served.is_done() {
        return served;
    }
    make(world, watcher, Event::Return(slot))
}

/// Lets that many slaves make a firmware step, one after another, if `serving`; else it does nothing.
#[tactic(auto, using(crate::proofs::Seeing::observes_none, crate::proofs::Seeing::observes_made, crate::proofs::Seeing::observes_then))]
fn serve_if<S: Watcher>(
    world: &mut World<'_>,
    watcher: &mut S,
    slaves: usize,
    serving: bool,
) -> LineOutput
    ensures made { MakesAll (if serving then servings 0 slaves else []) world.old world.new result }
    ensures observed { Observes S.observed watcher.old world.old world.new watcher.new }
{
    if serving {
        serve_slaves(world, watcher, slaves)
    } else {
        LineOutput::Nothing
    }
}

/// Lets that many slaves make a firmware step, one after another.
#[tactic(auto, using(crate::proofs::Seeing::observes_none, crate::proofs::Seeing::observes_made, crate::proofs::Seeing::observes_then))]
fn serve_slaves<S: Watcher>(world: &mut World<'_>, watcher: &mut S, slaves: usize) -> LineOutput
    ensures made { MakesAll (servings 0 slaves) world.old world.new result }
    ensures observed { Observes S.observed watcher.old world.old world.new watcher.new }
{
    let mut said = LineOutput::Nothing;
    for slave in 0..slaves {
        said = make(world, watcher, Event::Serve(slave));
        if !said.is_done() {
            return said;
        }
    }
    said
}

/// Takes the frame in a slot past that many slaves, up to one that it can't pass.
#[tactic(auto, using(crate::proofs::Seeing::observes_none, crate::proofs::Seeing::observes_made, crate::proofs::Seeing::observes_then))]
fn pass_slaves<S: Watcher>(
    world: &mut World<'_>,
    watcher: &mut S,
    slot: usize,
    slaves: usize,
) -> LineOutput
    ensures made { MakesAll (replicate slaves (Event.Pass slot)) world.old world.new result }
    ensures observed { Observes S.observed watcher.old world.old world.new watcher.new }
{
    let mut said = LineOutput::Nothing;
    for _ in 0..slaves {
        said = make(world, watcher, Event::Pass(slot));
        if !said.is_done() {
            return said;
        }
    }
    said
}

/// Whether a slot holds a frame with this number.
fn holds(world: &World<'_>, slot: usize, number: u64) -> bool
    ensures { result ≡ has_number number (flight_at world.now slot) }
{
    match world.slot(slot) {
        Some(held) => held == number,
        None => false,
    }
}

/// The greatest number of the frames on their way; 0 without one.
fn newest(world: &World<'_>) -> u64
    ensures { result ≡ greatest world.now.slots }
{
    let mut newest: u64 = 0;
    for slot in 0..world.slots() {
        newest = newest.max(world.slot(slot).unwrap_or(0));
    }
    newest
}

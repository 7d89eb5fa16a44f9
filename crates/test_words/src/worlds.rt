//! A world, event by event.
use crate::compare::expect;
use ec_device::Identity;
use ec_link::Machine;
use ec_start::StartError;
use ec_world::{Event, World};
use std::alloc::AllocError;
use std::process::Abort;
use test_data::THREE_SLAVES;

/// What a slave shows, by its product and its revision.
fn identity_of(product: u32, revision: u32) -> Identity {
    Identity {
        vendor: 0xABCD,
        product,
        revision,
        serial: 0,
    }
}

/// A world of three slaves, the second of which has another revision than its type.
fn other_world<'p>(
    rt: &(impl AllocGlobal + Abort),
    machine: &'p Machine,
) -> Result<World<'p>, AllocError> {
    let identities = [identity_of(1, 1), identity_of(2, 2), identity_of(3, 1)];
    let (table, plan) = (machine.table(), machine.plan());
    expect(
        rt,
        identities.len() == table.slaves().len(),
        "an identity for each slave",
    );
    World::new(rt.alloc(), table, plan, &identities)
}

/// Makes events. How many could be made.
fn made(world: &mut World<'_>, events: &[Event]) -> usize {
    world.run(events)
}

/// Makes an event. Whether it could be made.
fn is_made(world: &mut World<'_>, event: Event) -> bool {
    world.step(event)
}

/// Whether the first frame of a start-up passes a slave and is lost, and the start-up is given up. No cycle can begin, and so there is no
/// report; no application has read a byte.
fn is_lost(world: &mut World<'_>) -> bool {
    let is_sent = is_made(world, Event::StartNext) && world.slot(0) == Some(0);
    let count = made(
        world,
        &[Event::Pass(0), Event::Begin, Event::Lose(0), Event::Close],
    );
    let is_gone = is_sent && count == 3 && world.slot(0).is_none();
    let has_nothing = world.byte().is_none() && world.report().is_none();
    is_gone && has_nothing && matches!(world.outcome(), Some(Err(StartError::Lost)))
}

/// A frame of a start-up goes past three slaves and back, and each slave serves once.
const TURN: [Event; 8] = [
    Event::StartNext,
    Event::Pass(0),
    Event::Pass(0),
    Event::Pass(0),
    Event::Return(0),
    Event::Serve(0),
    Event::Serve(1),
    Event::Serve(2),
];

/// The next start-up goes on until it has ended.
fn rise(world: &mut World<'_>) {
    made(world, &TURN);
    for _ in 0..5000 {
        if world.outcome().is_some() {
            return;
        }
        made(world, &TURN);
    }
}

/// Whether the next start-up ends by the revision of the second slave, and no cycle can begin.
fn is_other(world: &mut World<'_>) -> bool {
    rise(world);
    let has_begun = is_made(world, Event::Begin);
    let is_idle = !has_begun && !world.is_ready() && world.slot(0).is_none();
    match world.outcome() {
        Some(Err(StartError::Identity { slave: 1, seen })) => is_idle && seen.revision == 2,
        _ => false,
    }
}

/// A start-up is lost, and others fail by a slave, time and again.
fn expect_failures(rt: &impl Abort, world: Result<World<'_>, AllocError>) {
    let mut world = world.expect(rt, "memory");
    expect(rt, is_lost(&mut world), "a start-up that is lost");
    expect(rt, is_other(&mut world), "a start-up that fails");
    expect(rt, is_other(&mut world), "a second one that fails");
}

#[test]
fn worlds(rt: HostRuntime) {
    let machine = Machine::read(rt.alloc(), THREE_SLAVES).expect(&rt, "a machine");
    expect_failures(&rt, other_world(&rt, &machine));
}

//! Events at random.
use crate::runs::model::Model;
use ec_link::Plan;
use ec_world::{Event, World};
use test_data::Random;

/// What events a world gets.
#[derive(Clone, Copy)]
pub struct Kind {
    /// In so many of a thousand cases any event, and else one that leads on: before the start-up is ready, and after.
    pub early: u32,
    pub late: u32,
    /// In so many of ten thousand cases a slave has a fault, or is switched off and on.
    pub trouble: u32,
}

/// A slave, or one past the last.
fn slave(random: &mut Random, world: &World<'_>) -> usize {
    random.place(world.slaves().saturating_add(1))
}

/// A place of a byte, mostly one of the first.
fn place(random: &mut Random) -> usize {
    random.place(8)
}

/// A variable becomes a value, which mostly fits.
fn set(random: &mut Random, plan: &Plan) -> Event {
    let variable = random.place(plan.variables().len().saturating_add(1));
    let bits = match plan.variables().get(variable) {
        Some(row) => u32::from(row.bits),
        None => 1,
    };
    let value = u64::from(random.word());
    if random.in_hundred(10) {
        return Event::Set(variable, value);
    }
    let most = 1u64.checked_shl(bits).unwrap_or(0);
    Event::Set(variable, value.checked_rem(most).unwrap_or(0))
}

/// Trouble of a slave.
fn trouble(random: &mut Random, world: &World<'_>) -> Event {
    let slave = slave(random, world);
    if random.in_hundred(50) {
        Event::Fault(slave)
    } else {
        Event::Reset(slave)
    }
}

/// Any event.
fn any(random: &mut Random, world: &World<'_>, plan: &Plan) -> Event {
    let slot = random.place(plan.parts().len().saturating_add(2));
    match random.below(12) {
        0 => Event::StartNext,
        1 => set(random, plan),
        2 => Event::Begin,
        3 | 4 => Event::Pass(slot),
        5 => Event::Lose(slot),
        6 => Event::Return(slot),
        7 => Event::Close,
        8 => Event::Serve(slave(random, world)),
        9 => Event::AppPut(slave(random, world), place(random), random.byte()),
        10 => Event::AppGet(slave(random, world), place(random)),
        11 if random.in_hundred(10) => Event::Stop,
        _ => Event::Serve(slave(random, world)),
    }
}

/// The frame of a slot goes on, if there is one.
fn moved(world: &World<'_>, slot: usize) -> Option<Event> {
    let frame = world.progress(slot)?;
    Some(if frame.passed < world.slaves() {
        Event::Pass(slot)
    } else {
        Event::Return(slot)
    })
}

/// The first frame on its way goes on, if there is one.
pub fn next_move(world: &World<'_>) -> Option<Event> {
    for slot in 0..world.slots() {
        let event = moved(world, slot);
        if event.is_some() {
            return event;
        }
    }
    None
}

/// An event that leads on.
fn helpful(random: &mut Random, world: &World<'_>, plan: &Plan, model: &Model) -> Event {
    match random.below(10) {
        0 => return set(random, plan),
        1 => return Event::AppPut(slave(random, world), place(random), random.byte()),
        2 => return Event::AppGet(slave(random, world), place(random)),
        3 => return Event::Serve(slave(random, world)),
        4 | 5 | 6 if !world.is_ready() => return Event::Serve(slave(random, world)),
        _ => {}
    }
    match next_move(world) {
        Some(event) => event,
        None if model.is_open || model.awaits => Event::Close,
        None if world.is_ready() => Event::Begin,
        None => Event::StartNext,
    }
}

/// The next event of a world.
pub fn next_event(
    random: &mut Random,
    world: &World<'_>,
    plan: &Plan,
    model: &Model,
    kind: Kind,
) -> Event {
    let wild = if world.is_ready() {
        kind.late
    } else {
        kind.early
    };
    if random.below(10000) < kind.trouble {
        trouble(random, world)
    } else if random.below(1000) < wild {
        any(random, world, plan)
    } else {
        helpful(random, world, plan, model)
    }
}

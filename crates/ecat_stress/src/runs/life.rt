//! A world that gets events at random, beside one that gets the same in lists.
use crate::runs::events::{Kind, next_event, next_move};
use crate::runs::model::Model;
use ec_cycle::Report;
use ec_link::{Machine, Plan};
use ec_world::{Event, World};
use std::alloc::{AllocError, Global};
use test_data::Random;

/// So many events make a list.
const LIST: u32 = 40;

/// What was seen.
#[derive(Clone, Copy, Drop)]
pub struct Seen {
    /// Events that were tried, and those of them that were made.
    pub tried: u64,
    pub made: u64,
    /// Sync units that the cycle at the end took, and those that it didn't.
    pub taken: u32,
    pub untaken: u32,
    /// Whether all was as it must be.
    pub is_right: bool,
}

impl Seen {
    /// A unit of the cycle at the end, and whether it must have been taken, if that is known.
    fn count(&mut self, is_taken: bool, must: Option<bool>) {
        self.is_right = self.is_right && must.is_none_or(|must| must == is_taken);
        if is_taken {
            self.taken = self.taken.saturating_add(1);
        } else {
            self.untaken = self.untaken.saturating_add(1);
        }
    }
}

/// Before anything was seen.
const NOTHING: Seen = Seen {
    tried: 0,
    made: 0,
    taken: 0,
    untaken: 0,
    is_right: true,
};

/// Two worlds that get the same events, and what is known of them.
#[derive(Drop)]
struct Life<'w, 'p> {
    plan: &'p Plan,
    stepped: &'w mut World<'p>,
    ran: &'w mut World<'p>,
    model: Model,
    seen: Seen,
}

/// Whether reports say the same.
fn are_same_reports(one: Option<&Report>, other: Option<&Report>) -> bool {
    match (one, other) {
        (None, None) => true,
        (Some(one), Some(other)) => {
            one.units() == other.units()
                && one.units_taken() == other.units_taken()
                && one.counters().as_slice() == other.counters().as_slice()
                && one.missing() == other.missing()
                && one.al_word() == other.al_word()
        }
        _ => false,
    }
}

/// Whether worlds have the same values.
fn have_same_values(one: &World<'_>, other: &World<'_>) -> bool {
    if one.variables() != other.variables() {
        return false;
    }
    for variable in 0..one.variables() {
        if one.input(variable) != other.input(variable) {
            return false;
        }
    }
    true
}

/// Whether worlds have the same outputs.
fn have_same_outputs(one: &World<'_>, other: &World<'_>) -> bool {
    if one.slaves() != other.slaves() {
        return false;
    }
    for slave in 0..one.slaves() {
        if one.outputs(slave) != other.outputs(slave) {
            return false;
        }
    }
    true
}

/// Whether worlds have the same frames on their way.
fn have_same_frames(one: &World<'_>, other: &World<'_>) -> bool {
    for slot in 0..one.slots() {
        if one.progress(slot) != other.progress(slot) {
            return false;
        }
    }
    true
}

/// Whether worlds show the same.
fn are_same(one: &World<'_>, other: &World<'_>) -> bool {
    one.outcome() == other.outcome()
        && one.byte() == other.byte()
        && are_same_reports(one.report(), other.report())
        && have_same_values(one, other)
        && have_same_outputs(one, other)
        && have_same_frames(one, other)
}

impl Life<'_, '_> {
    /// Makes an event in the first world. Whether it was made where it must be, and only there.
    fn step(&mut self, event: Event) -> bool {
        let must = self.model.can_happen(self.stepped, self.plan, event);
        let is_ready = self.stepped.is_ready();
        let has_failed = matches!(self.stepped.outcome(), Some(Err(_)));
        let is_made = self.stepped.step(event);
        if is_made {
            self.model.happen(self.plan, event, is_ready, has_failed);
            self.seen.made = self.seen.made.saturating_add(1);
        }
        if self.stepped.is_ready() && !is_ready {
            self.model.become_ready();
        }
        self.seen.tried = self.seen.tried.saturating_add(1);
        must.is_none_or(|must| must == is_made)
    }

    /// Makes a list of events in the first world, one by one, and then in the second world as a list.
    fn make_list(
        &mut self,
        random: &mut Random,
        kind: Kind,
        list: &mut Vec<Event>,
    ) -> Result<(), AllocError> {
        list.clear();
        let before = self.seen.made;
        for _ in 0..1 + random.below(LIST) {
            let event = next_event(random, self.stepped, self.plan, &self.model, kind);
            list.push(event)?;
            self.seen.is_right = self.step(event) && self.seen.is_right;
        }
        let made = self.ran.run(list.as_slice()) as u64;
        let is_same = made == self.seen.made.saturating_sub(before)
            && are_same(self.stepped, self.ran);
        self.seen.is_right = self.seen.is_right && is_same;
        Ok(())
    }

    /// An event that must be made.
    fn must(&mut self, event: Event) {
        let is_right = self.step(event) && self.stepped.slots() > 0;
        self.seen.is_right = self.seen.is_right && is_right;
    }

    /// No frame stays on its way, and nothing open.
    fn clear(&mut self) {
        for slot in 0..self.stepped.slots() {
            if self.stepped.progress(slot).is_some() {
                self.must(Event::Lose(slot));
            }
        }
        if self.model.awaits {
            self.must(Event::Close);
        }
        if self.model.is_open {
            self.must(Event::Close);
        }
    }

    /// All frames go on until none is on its way.
    fn carry(&mut self) {
        for _ in 0..4096 {
            match next_move(self.stepped) {
                Some(event) => self.must(event),
                None => return,
            }
        }
    }

    /// A frame of the start-up passes all slaves and comes back, each slave having served.
    fn turn(&mut self) {
        self.must(Event::StartNext);
        self.carry();
        for slave in 0..self.stepped.slaves() {
            self.must(Event::Serve(slave));
        }
    }

    /// The start-up goes on undisturbed until it is ready, and begins again after a failure, at most twice.
    fn rise(&mut self) {
        for _ in 0..20000 {
            if self.stepped.is_ready() {
                return;
            }
            self.turn();
        }
        self.seen.is_right = false;
    }

    /// Whether the last cycle took each unit that it must.
    fn judge(&mut self) {
        let Some(report) = self.stepped.report() else {
            self.seen.is_right = false;
            return;
        };
        for (unit, is_taken) in report.units().iter().zip(report.units_taken().iter()) {
            let must = self.model.must_take(self.plan, *unit);
            self.seen.count(*is_taken, must);
        }
        self.seen.is_right = self.seen.is_right && report.missing() == 0;
    }

    /// An undisturbed cycle at the end, after a start-up where the world isn't ready.
    fn end(&mut self) {
        self.clear();
        self.rise();
        self.must(Event::Begin);
        self.carry();
        self.must(Event::Close);
        self.judge();
    }
}

/// The worlds get at least so many events. What was seen of those.
fn go_on(
    alloc: Global,
    life: &mut Life<'_, '_>,
    random: &mut Random,
    kind: Kind,
    events: u64,
) -> Result<Seen, AllocError> {
    let mut list = Vec::new(alloc);
    for _ in 0..events {
        if life.seen.tried < events {
            life.make_list(random, kind, &mut list)?;
        }
    }
    Ok(life.seen)
}

/// The worlds get at least so many events, and the first an undisturbed cycle at the end.
fn live_on(
    alloc: Global,
    life: &mut Life<'_, '_>,
    random: &mut Random,
    kind: Kind,
    events: u64,
) -> Result<Seen, AllocError> {
    let seen = go_on(alloc, life, random, kind, events)?;
    life.end();
    Ok(Seen {
        tried: seen.tried,
        made: seen.made,
        ..life.seen
    })
}

/// A world that gets its events one by one, beside a new one of its machine that gets them in lists.
fn live_beside<'p>(
    alloc: Global,
    machine: &'p Machine,
    stepped: &mut World<'p>,
    random: &mut Random,
    kind: Kind,
    events: u64,
) -> Result<Seen, AllocError> {
    let mut ran = World::of_machine(alloc, machine)?;
    let mut life = Life {
        plan: machine.plan(),
        stepped,
        ran: &mut ran,
        model: Model::new(),
        seen: NOTHING,
    };
    live_on(alloc, &mut life, random, kind, events)
}

/// Two worlds of a machine get at least so many events, the first one by one, the second in lists, and the first an undisturbed cycle
/// at the end.
pub fn live(
    alloc: Global,
    machine: &Machine,
    random: &mut Random,
    kind: Kind,
    events: u64,
) -> Result<Seen, AllocError> {
    let mut stepped = World::of_machine(alloc, machine)?;
    live_beside(alloc, machine, &mut stepped, random, kind, events)
}

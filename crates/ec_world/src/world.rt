//! A world: a start-up, a master, slaves and the frames between them.
ghost use Rattle.std.specs.Prelude.{ℕ, ◌≡◌, ◌<◌, All, List, length, slice_get, Option, Some, None, IfOk, option_map, true, false};
ghost use Rattle.ec_device.specs.declared.slave_type.Identity.{Identity};
ghost use Rattle.ec_slave.specs.Application.{outputs_shown};
ghost use Rattle.ec_table.specs.Contents.{Contents};
ghost use Rattle.ec_link.specs.Faults.{compile_fault};
ghost use Rattle.ec_link.specs.Plan.{plan_of};
ghost use Rattle.ec_link.specs.Usable.{IsUsable};
ghost use Rattle.ec_start.specs.Planned.{HasFewAssigned};
ghost use Rattle.ec_start.specs.Feeding.{feeds_of};
ghost use Rattle.ec_start.specs.Running.{begun, outcome_of};
ghost use Rattle.ec_cycle.specs.Master.{new_master, value_at};
ghost use Rattle.ec_world.specs.Laws.{IsRun, StepRefines, RunRefines};
ghost use Rattle.ec_world.specs.Headline.{HeadlineShows, EachIsPromised};
ghost use Rattle.ec_world.specs.NewWorld.{BringUp, IsBroughtUp, IsToStart};
ghost use Rattle.ec_world.specs.Whole.{IsNew, IsOfMachine, RunOutcome, no_trouble};
ghost use Rattle.ec_world.specs.Watching.{sent_of};
ghost use Rattle.ec_world.specs.World.{WorldState, IsStep, slave_of, flight_at, flight_progress, is_up};

use crate::event::Event;
use crate::progress::Progress;
use crate::slots::Slots;
use ec_bringup::{identities_of, switched_on};
use ec_cycle::{Master, Report};
use ec_device::Identity;
use ec_link::{Machine, Plan};
use ec_ring::Ring;
use ec_slave::Slave;
use ec_start::{StartError, Startup};
use ec_table::Table;
use std::alloc::{AllocError, Global};
use std::marker::Model;

/// How many frames can be on their way at a time.
const SLOTS: usize = 64;

/// A segment of simulated slaves under a start-up and a master, with the frames that are on their way. Events move it: each
/// that can be made is one call of the start-up, the master or a slave, or one frame that passes one slave. It allocates all
/// its memory when it is made.
#[derive(Drop)]
pub struct World<'p> {
    pub(crate) plan: &'p Plan,
    pub(crate) start: Startup<'p>,
    pub(crate) master: Master<'p>,
    pub(crate) ring: Ring,
    pub(crate) slots: Slots,
    // the byte that an application read last
    pub(crate) got: Option<u8>,
    // the report of the last closed cycle
    pub(crate) report: Option<Report>,
}

impl<'p> Model for World<'p> {
    ghost use Rattle.ec_world.specs.Held.{AreOfPlan};
    ghost use Rattle.ec_world.specs.World.{WorldState};

    ghost Value = { WorldState };

    ghost view = { λ w. record {
      plan = w.plan.now;
      start = w.start;
      master = w.master;
      slaves = w.ring;
      slots = w.slots;
      got = w.got;
      report = w.report;
    } };

    ghost invariant = { λ w. AreOfPlan w.plan.now w.start w.master };
}

impl<'p> World<'p> {
    /// The world of a table. Its slaves are just switched on, with `identities` in the order of the table. The first frame of its
    /// start-up has number 0, the image of its master is all 0, and its 64 slots have no frame. `plan` is the plan that `compile`
    /// makes of the table. No later call takes memory.
    ///
    /// # Errors
    ///
    /// `AllocError` if there is no memory.
    pub fn new(
        alloc: Global,
        table: &Table,
        plan: &'p Plan,
        identities: &[Identity],
    ) -> Result<World<'p>, AllocError>
        requires accepted { compile_fault table.now ≡ None }
        requires plan { plan.now ≡ plan_of table.now }
        requires one_each { length identities.now ≡ length table.now.slaves }
        ensures { IfOk result (IsNew table.now identities.now) }
    {
        table.is_sound();
        let ring = switched_on(alloc, plan.slaves(), identities)?;
        let slots = Slots::new(alloc, SLOTS)?;
        let (start, master) = ends_of(alloc, plan)?;
        Ok(World {
            plan,
            start,
            master,
            ring,
            slots,
            got: None,
            report: None,
        })
    }

    /// The world of a machine, as [`World::new`] makes it. Its slaves have the identities that the table states.
    ///
    /// # Errors
    ///
    /// `AllocError` if there is no memory.
    pub fn of_machine(alloc: Global, machine: &'p Machine) -> Result<World<'p>, AllocError>
        ensures { IfOk result (IsOfMachine machine.now) }
    {
        let table = machine.table();
        let identities = identities_of(alloc, table)?;
        World::new(alloc, table, machine.plan(), identities.as_slice())
    }

    /// Makes an event, and returns whether it can be made. If it can't, nothing changes.
    ///
    /// In a new world of an accepted table, once it is Ready: a cyclic frame that passes a slave in OP gives it exactly its
    /// linked outputs as they were when the cycle began. A close takes all inputs of a sync unit, or none of them and for a
    /// cause. `Set` gives its variable the value, and touches no other variable and no slave. `AppPut`, `AppGet`, `Fault` and
    /// `Reset` touch only their slave, and no variable. All other events touch no slave and no variable.
    ///
    /// If the world refines a plain state, and the event doesn't stop it, the event is made exactly if the plain machine makes it,
    /// and the world then refines the plain machine's next state. The plan stays.
    pub fn step(&mut self, event: Event) -> bool
        ensures step { IsStep self.old event self.new result }
        ensures plan { self.new.plan ≡ self.old.plan }
        ensures refines { StepRefines self.old event self.new result }
        ensures headline { (t : Contents) (identities : List Identity) (first : WorldState) (events : List Event) (made : ℕ) → IsNew t identities first → IsRun first events self.old made → is_up self.old.start ≡ true → result ≡ true → HeadlineShows t first events self.old event self.new }
    {
        self.is_sound();
        self.make(event)
    }

    /// Makes those of the events that can be made, in their order, and returns how many they were.
    ///
    /// If the world refines a plain state, and no `Stop` is made, it ends in one that refines the run of the plain machine, of as
    /// many events. A new world shows nothing until its start-up is Ready, and so does a stopped one. With the event that makes it
    /// so, it refines a plain state in which each slave that isn't in OP had a fault or a reset since that start-up began. Then it
    /// refines the run of the plain machine, until it is stopped. If nothing disturbs it, a start-up is Ready after
    /// `frames_to_ready` frames: one for each action, one for each part before a frame about OP, and the further polls of slow
    /// slaves. This holds for a new world of devices of its table's types, whose parameters agree with what the plan assigns, and
    /// for one that was stopped, or whose last start-up failed, and that has no frame on its way. Each event that is made while the
    /// start-up is Ready does what `step` says of it. The plan stays.
    pub fn run(&mut self, events: &[Event]) -> usize
        ensures steps { IsRun self.old events.now self.new result }
        ensures plan { self.new.plan ≡ self.old.plan }
        ensures refines { RunRefines self.old events.now self.new result }
        ensures whole { (t : Contents) (identities : List Identity) → IsNew t identities self.old → RunOutcome self.old events.now self.new result (no_trouble self.old) }
        ensures up { (t : Contents) → IsToStart t self.old → BringUp t self.old events.now → IsBroughtUp t self.old events.now self.new result }
        ensures headline { (t : Contents) (identities : List Identity) (first : WorldState) (past : List Event) (count : ℕ) → IsNew t identities first → IsRun first past self.old count → EachIsPromised t first past self.old events.now self.new }
    {
        self.is_sound();
        let mut made = 0;
        for event in events {
            if self.make(*event) {
                made += 1;
            }
        }
        made
    }

    /// The plan.
    pub fn plan(&self) -> &'p Plan
        ensures value { result.now ≡ self.now.plan }
        ensures usable { IsUsable self.now.plan }
    {
        self.plan
    }

    /// Whether its start-up ended Ready. That stays so when a slave has a fault or is reset afterwards, until `Stop`.
    pub fn is_ready(&self) -> bool
        ensures { result ≡ is_up self.now.start }
    {
        match self.start.outcome() {
            Some(Ok(())) => true,
            _ => false,
        }
    }

    /// How its start-up ended; none while it runs, and `Lost` after `Stop`.
    pub fn outcome(&self) -> Option<Result<(), StartError>>
        ensures { result ≡ outcome_of self.now.start.phase }
    {
        self.start.outcome()
    }

    /// How many slaves there are.
    pub fn slaves(&self) -> usize
        ensures { result ≡ length self.now.slaves }
    {
        self.ring.len()
    }

    /// Its master.
    pub fn master(&self) -> &Master<'p>
        ensures { result.now ≡ self.now.master }
    {
        &self.master
    }

    /// How many variables the process image has.
    pub fn variables(&self) -> usize
        ensures { result ≡ length self.now.master.plan.variables }
    {
        self.master.variables()
    }

    /// The value of a variable: an input has what the last closed cycle took, an output what was set last.
    pub fn input(&self, variable: usize) -> u64
        requires { variable < length self.now.master.plan.variables }
        ensures { result ≡ value_at self.now.master (slice_get self.now.master.plan.variables variable) }
    {
        self.master.get(variable)
    }

    /// The outputs that a slave published last, in its sync manager 2. Empty if that manager isn't set or is a mailbox.
    pub fn outputs(&self, slave: usize) -> &[u8]
        requires { slave < length self.now.slaves }
        ensures { result.now ≡ outputs_shown (slave_of self.now slave) }
    {
        self.ring.slave(slave).outputs()
    }

    /// The slave at a place, counted from 0.
    pub fn slave(&self, slave: usize) -> &Slave
        requires { slave < length self.now.slaves }
        ensures { result.now ≡ slave_of self.now slave }
    {
        self.ring.slave(slave)
    }

    /// How many parts a cycle has.
    pub fn parts(&self) -> usize
        ensures { result ≡ length self.now.master.plan.parts }
    {
        self.master.parts()
    }

    /// How many slots for frames there are.
    pub fn slots(&self) -> usize
        ensures { result ≡ length self.now.slots }
    {
        self.slots.len()
    }

    /// The number of the frame in a slot; none if there is no frame or no slot.
    pub fn slot(&self, slot: usize) -> Option<u64>
        ensures { result ≡ option_map (λ f. f.number) (flight_at self.now slot) }
    {
        match self.slots.progress(slot) {
            Some(frame) => Some(frame.number),
            None => None,
        }
    }

    /// How far the frame in a slot is: its number, its part, and how many slaves it has passed; none if there is no frame.
    pub fn progress(&self, slot: usize) -> Option<Progress>
        ensures { result ≡ option_map flight_progress (flight_at self.now slot) }
    {
        self.slots.progress(slot)
    }

    /// The bytes of the frame in a slot; none if there is no frame or no slot.
    pub fn bytes(&self, slot: usize) -> Option<&[u8]>
        ensures { option_map (λ b. b.now) result ≡ option_map (λ f. f.bytes) (flight_at self.now slot) }
    {
        match self.slots.progress(slot) {
            Some(_) => Some(self.slots.bytes(slot)),
            None => None,
        }
    }

    /// The frame of a part of the open cycle, as it was sent; none if no cycle is open or there is no such part.
    pub fn sent(&self, part: usize) -> Option<&[u8]>
        ensures { option_map (λ b. b.now) result ≡ sent_of self.now part }
    {
        if self.master.is_open() && part < self.master.parts() {
            Some(self.master.frame(part))
        } else {
            None
        }
    }

    /// The byte that an application read last; none before the first.
    pub fn byte(&self) -> Option<u8>
        ensures { result ≡ self.now.got }
    {
        self.got
    }

    /// The report of the last closed cycle; none if no cycle was closed yet.
    pub fn report(&self) -> Option<&Report>
        ensures { option_map (λ r. r.now) result ≡ self.now.report }
    {
        self.report.as_ref()
    }

    /// Does nothing. Its contract says that the plan of every world can be used.
    fn is_sound(&self)
        ensures { IsUsable self.now.plan }
    {
        let _ = &self.plan;
    }
}

/// A start-up of a plan whose first frame has number 0, and a master whose image is all 0.
fn ends_of<'p>(alloc: Global, plan: &'p Plan) -> Result<(Startup<'p>, Master<'p>), AllocError>
    requires few { All HasFewAssigned plan.now.slaves }
    requires usable { IsUsable plan.now }
    ensures start { IfOk result (λ ends. ends.0 ≡ begun plan.now.slaves (feeds_of plan.now) 0) }
    ensures master { IfOk result (λ ends. ends.1 ≡ new_master plan.now) }
{
    let start = Startup::new(plan, 0);
    let master = Master::new(alloc, plan)?;
    Ok((start, master))
}

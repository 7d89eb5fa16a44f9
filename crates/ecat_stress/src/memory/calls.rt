//! The functions that take memory.
ghost use Rattle.std.specs.Prelude.{◌≡◌, None, length};
ghost use Rattle.ec_link.specs.Faults.{compile_fault};
ghost use Rattle.ec_link.specs.Plan.{plan_of};
ghost use Rattle.ec_link.specs.Usable.{IsUsable};

use crate::memory::table::{SCRIPT, TABLE};
use ec_cycle::Master;
use ec_device::{Identity, SlaveType};
use ec_link::{Plan, compile};
use ec_script::read_script;
use ec_slave::Slave;
use ec_table::{Table, read_table};
use ec_text::plan_text;
use ec_world::World;
use std::alloc::{AllocError, Global};

/// The number of the refusal that says that memory ran out.
pub const MEMORY: u8 = 1;

/// What a function returns: a figure of what it made, or the number of its refusal.
pub type Answer = Result<usize, u8>;

/// A function that takes memory.
#[derive(Clone, Copy, PartialEq, Eq)]
pub enum Call {
    ReadTable,
    Compile,
    PlanText,
    NewSlave,
    NewMaster,
    NewWorld,
    ReadScript,
}

impl Call {
    pub const ALL: [Call; 7] = [
        Call::ReadTable,
        Call::Compile,
        Call::PlanText,
        Call::NewSlave,
        Call::NewMaster,
        Call::NewWorld,
        Call::ReadScript,
    ];

    /// Its name.
    pub fn name(self) -> &'static str {
        match self {
            Call::ReadTable => "read_table",
            Call::Compile => "compile",
            Call::PlanText => "plan_text",
            Call::NewSlave => "Slave::new",
            Call::NewMaster => "Master::new",
            Call::NewWorld => "World::new",
            Call::ReadScript => "read_script",
        }
    }

    /// The function of a name.
    pub fn named(name: &str) -> Option<Call> {
        for call in Call::ALL {
            if call.name() == name {
                return Some(call);
            }
        }
        None
    }

    /// The figure of what it makes: the links of the table, the process bytes of its one part, the bytes of its plan's text, the
    /// AL status of a slave in INIT, the variables, the slots for frames, and the lines of the script.
    pub fn figure(self) -> usize {
        match self {
            Call::ReadTable => 4,
            Call::Compile => 3,
            Call::PlanText => 411,
            Call::NewSlave => 1,
            Call::NewMaster => 4,
            Call::NewWorld => 64,
            Call::ReadScript => 4,
        }
    }
}

fn read(alloc: Global) -> Answer {
    match read_table(alloc, TABLE) {
        Ok(table) => Ok(table.links().len()),
        Err(error) => Err(error.number()),
    }
}

fn compiled(alloc: Global, table: &Table) -> Answer {
    match compile(alloc, table) {
        Ok(plan) => Ok(plan.parts().first().map_or(0, |part| part.bytes)),
        Err(error) => Err(error.number()),
    }
}

fn written(alloc: Global, table: &Table, plan: &Plan) -> Answer {
    match plan_text(alloc, table.version(), plan) {
        Ok(text) => Ok(text.len()),
        Err(_) => Err(MEMORY),
    }
}

/// A slave of a type, just switched on.
fn switched_on(alloc: Global, kind: SlaveType) -> Answer {
    let identity = kind.device().identity(0);
    match Slave::new(alloc, kind, identity) {
        Ok(slave) => Ok(slave.byte(0x0130).map_or(0, |byte| usize::from(byte))),
        Err(_) => Err(MEMORY),
    }
}

/// The last slave of the plan.
fn new_slave(alloc: Global, plan: &Plan) -> Result<Answer, AllocError> {
    match plan.slaves().last() {
        Some(settings) => Ok(switched_on(alloc, settings.kind.copied(alloc)?)),
        None => Ok(Ok(0)),
    }
}

fn mastered(alloc: Global, plan: &Plan) -> Answer
    requires { IsUsable plan.now }
{
    match Master::new(alloc, plan) {
        Ok(master) => Ok(master.variables()),
        Err(_) => Err(MEMORY),
    }
}

fn world(alloc: Global, table: &Table, plan: &Plan, identities: &[Identity]) -> Answer
    requires accepted { compile_fault table.now ≡ None }
    requires plan { plan.now ≡ plan_of table.now }
    requires one_each { length identities.now ≡ length table.now.slaves }
{
    match World::new(alloc, table, plan, identities) {
        Ok(world) => Ok(world.slots()),
        Err(_) => Err(MEMORY),
    }
}

fn script(alloc: Global, table: &Table) -> Answer {
    match read_script(alloc, table, SCRIPT) {
        Ok(script) => Ok(
            script
                .lines()
                .fold(0, |count: usize, _| count.saturating_add(1)),
        ),
        Err(error) => Err(error.number()),
    }
}

/// Calls a function. The error says that memory was refused before.
pub fn attempt(
    alloc: Global,
    call: Call,
    table: &Table,
    plan: &Plan,
    identities: &[Identity],
) -> Result<Answer, AllocError>
    requires usable { IsUsable plan.now }
    requires accepted { compile_fault table.now ≡ None }
    requires plan { plan.now ≡ plan_of table.now }
    requires one_each { length identities.now ≡ length table.now.slaves }
{
    match call {
        Call::ReadTable => Ok(read(alloc)),
        Call::Compile => Ok(compiled(alloc, table)),
        Call::PlanText => Ok(written(alloc, table, plan)),
        Call::NewSlave => new_slave(alloc, plan),
        Call::NewMaster => Ok(mastered(alloc, plan)),
        Call::NewWorld => Ok(world(alloc, table, plan, identities)),
        Call::ReadScript => Ok(script(alloc, table)),
    }
}

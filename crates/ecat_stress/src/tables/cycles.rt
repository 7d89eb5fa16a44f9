//! The cycles of `ecat loop` as events of a world, whose slaves' applications copy their outputs to their inputs.
use ec_link::{Machine, Plan};
use ec_table::{Direction, Table, VariableRow};
use ec_text::write_report;
use ec_world::{Event, World};
use std::alloc::{AllocError, Global};
use std::fmt::Write;

/// A slave's inputs have fewer bytes.
const MANY_BYTES: usize = 4096;

/// More frames than any start-up has.
const MANY_FRAMES: usize = 20_000;

/// Makes an event, as it may. No clause says what that does, so that what calls it is quickly checked.
fn make(world: &mut World<'_>, event: Event) -> bool {
    world.step(event)
}

/// A byte of a slave's outputs; 0 where there is none.
fn output(world: &World<'_>, slave: usize, place: usize) -> u8 {
    if slave < world.slaves() {
        world.outputs(slave).get(place).copied().unwrap_or(0)
    } else {
        0
    }
}

/// The application of a slave reads its outputs as far as it may, and shows them as its inputs as far as it may, 0 where
/// there are no more.
fn echo(world: &mut World<'_>, slave: usize) {
    for place in 0..MANY_BYTES {
        if !make(world, Event::AppGet(slave, place)) {
            break;
        }
    }
    for place in 0..MANY_BYTES {
        let byte = output(world, slave, place);
        if !make(world, Event::AppPut(slave, place, byte)) {
            return;
        }
    }
}

/// The frame in a slot passes all slaves; then each makes a firmware step, and its application after it.
fn pass(world: &mut World<'_>, slot: usize) {
    for _ in 0..world.slaves() {
        make(world, Event::Pass(slot));
    }
    for slave in 0..world.slaves() {
        make(world, Event::Serve(slave));
        echo(world, slave);
    }
}

/// A start-up that nothing disturbs.
fn start_up(world: &mut World<'_>) {
    for _ in 0..MANY_FRAMES {
        if !make(world, Event::StartNext) || world.is_ready() {
            return;
        }
        pass(world, 0);
        make(world, Event::Return(0));
    }
}

/// A variable of outputs becomes a number, as far as it has bits.
fn set_outputs(world: &mut World<'_>, rows: &[VariableRow], number: u64) {
    for (place, row) in rows.iter().enumerate() {
        let value = match row.bits {
            64.. => number,
            bits => number % (1 << bits),
        };
        make(world, Event::Set(place, value));
    }
}

/// A cycle of so many frames, which all pass before the first comes back.
fn run_cycle(world: &mut World<'_>, parts: usize) {
    make(world, Event::Begin);
    for slot in 0..parts {
        pass(world, slot);
    }
    for slot in 0..parts {
        make(world, Event::Return(slot));
    }
    make(world, Event::Close);
}

/// Adds the line of the last report, if there is one.
fn write_line(
    alloc: Global,
    text: &mut String,
    world: &World<'_>,
    table: &Table,
    plan: &Plan,
) -> Result<(), AllocError> {
    match world.report() {
        Some(report) => write_report(alloc, text, table.version(), plan.parts(), report),
        None => Ok(()),
    }
}

/// Adds the line of each input variable.
fn write_inputs(text: &mut String, world: &World<'_>, table: &Table) -> Result<(), AllocError> {
    for (place, row) in table.variables().iter().enumerate() {
        if row.direction == Direction::In && place < world.variables() {
            let number = table.number(place, world.input(place));
            writeln!(text, "{} {number}", row.name.as_str())?;
        }
    }
    Ok(())
}

/// Brings a world of a machine up, and adds what `ecat loop` prints of so many cycles.
pub fn write_cycles(
    alloc: Global,
    machine: &Machine,
    world: &mut World<'_>,
    cycles: u64,
    text: &mut String,
) -> Result<(), AllocError> {
    let (table, plan) = (machine.table(), machine.plan());
    start_up(world);
    text.push_str("ready\n")?;
    for cycle in 0..cycles {
        set_outputs(world, table.variables(), cycle.saturating_add(1));
        run_cycle(world, plan.parts().len());
        write_line(alloc, text, world, table, plan)?;
    }
    write_inputs(text, world, table)
}

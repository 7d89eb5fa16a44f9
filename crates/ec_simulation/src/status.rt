//! The AL states of a world's slaves, as a master reads them.
ghost use Rattle.std.specs.Prelude.{◌≡◌, ◌+◌, ◌≤◌, IfOk, string_bytes};
ghost use Rattle.ec_script.specs.Texts.{output_text};
ghost use Rattle.ec_simulation.specs.Statuses.{register_word, states_for, status_of, statuses};
ghost use Rattle.ec_simulation.specs.Views.{view_of};

use crate::inputs::slave_byte;
use crate::view::view_of;
use ec_asking::AlStatus;
use ec_regs::registers::{AL_STATUS, AL_STATUS_CODE};
use ec_script::{LineOutput, output_text};
use ec_table::Table;
use ec_world::World;
use std::alloc::{AllocError, Global};

/// The station address that the start-up gives slave 0; slave i gets this plus i.
const FIRST_STATION: usize = 0x1001;

/// The text that line `number` prints for an output of a world.
///
/// # Errors
///
/// `AllocError` if memory ran out.
pub fn printed_text(
    alloc: Global,
    world: &World<'_>,
    table: &Table,
    number: usize,
    output: LineOutput,
) -> Result<String, AllocError>
    ensures { IfOk result (λ text. string_bytes text ≡ output_text table.now number (view_of world.now) (statuses world.now) output) }
{
    let states = states_for(alloc, world, output)?;
    output_text(alloc, table, number, output, &view_of(world), &states)
}

/// The AL states of all slaves if the output prints them, and else none.
fn states_for(
    alloc: Global,
    world: &World<'_>,
    output: LineOutput,
) -> Result<Vec<Option<AlStatus>>, AllocError>
    ensures { IfOk result (λ states. states.items ≡ states_for world.now output) }
{
    match output {
        LineOutput::States => statuses(alloc, world),
        _ => Ok(Vec::new(alloc)),
    }
}

/// The AL states of all slaves; none of a slave that doesn't answer.
#[tactic(auto, using(crate::proofs::Statuses::statuses_more))]
fn statuses(alloc: Global, world: &World<'_>) -> Result<Vec<Option<AlStatus>>, AllocError>
    ensures { IfOk result (λ states. states.items ≡ statuses world.now) }
{
    let mut states = Vec::new(alloc);
    for slave in 0..world.slaves() {
        states.push(status_of(world, slave))?;
    }
    Ok(states)
}

/// The AL status of a slave and its code, as its registers show them; none if it doesn't have its station address, so that it answers no
/// frame for this address.
pub fn status_of(world: &World<'_>, slave: usize) -> Option<AlStatus>
    ensures { result ≡ status_of world.now slave }
{
    if slave >= world.slaves() {
        return None;
    }
    let station = usize::from(world.slave(slave).station_address());
    if station < FIRST_STATION || station - FIRST_STATION != slave {
        return None;
    }
    Some(AlStatus {
        word: register_word(world, slave, AL_STATUS),
        code: register_word(world, slave, AL_STATUS_CODE),
    })
}

/// The word at an address of a slave.
fn register_word(world: &World<'_>, slave: usize, address: usize) -> u16
    requires { address + 1 ≤ 65535 }
    ensures { result ≡ register_word world.now slave address }
{
    let low = u16::from(slave_byte(world, slave, address));
    let high = u16::from(slave_byte(world, slave, address + 1));
    low + 256 * high
}

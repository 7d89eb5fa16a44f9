//! Process data for people.
ghost use Rattle.std.specs.Prelude.{◌≡◌, ◌<◌, length};
ghost use Rattle.ec_link.specs.Plan.{part_at};
ghost use Rattle.ec_link.specs.Usable.{IsUsable};

use crate::carried::bits::{Carried, carried_bits, variable_at};
use crate::carried::process::{Process, ProcessCommand, find_process, predicted_counter};
use ec_frame::Command;
use ec_link::{Link, Plan};
use ec_table::{Direction, Table};
use std::alloc::{AllocError, Global};
use std::fmt::Write as _;

/// What a datagram with process data says.
#[derive(Clone, Copy, Debug)]
pub struct ProcessDatagram<'a> {
    /// What the slaves are asked to do.
    pub command: Command,
    /// The logical address.
    pub address: u32,
    /// The data.
    pub content: &'a [u8],
    /// The working counter.
    pub counter: u16,
}

/// Adds what a datagram carries, for people, in lines, if it is a process datagram of the plan. These are its
/// part, with the predicted counter beside the one that came, and each variable with its value. If no
/// slave has answered the datagram, the variables are outputs alone; an output of an LRW is left out if its slave
/// has put inputs over it. `AllocError` if memory ran out.
pub fn write_process(
    alloc: Global,
    text: &mut String,
    table: &Table,
    plan: &Plan,
    datagram: ProcessDatagram<'_>,
) -> Result<(), AllocError>
    requires { IsUsable plan.now }
{
    let Some(process) = find_process(
        plan,
        datagram.command,
        datagram.address,
        datagram.content.len(),
    ) else {
        return Ok(());
    };
    write_part(text, plan, process, datagram.counter)?;
    if process.command != ProcessCommand::Read {
        write_direction(alloc, text, table, plan, process, Direction::Out, datagram)?;
    }
    if process.command != ProcessCommand::Write && datagram.counter > 0 {
        write_direction(alloc, text, table, plan, process, Direction::In, datagram)?;
    }
    Ok(())
}

/// Adds what the data of a part carry of the variables of a direction.
fn write_direction(
    alloc: Global,
    text: &mut String,
    table: &Table,
    plan: &Plan,
    process: Process,
    direction: Direction,
    datagram: ProcessDatagram<'_>,
) -> Result<(), AllocError>
    requires usable { IsUsable plan.now }
    requires part { process.part < length plan.now.parts }
    requires whole { length datagram.content.now ≡ (part_at plan.now.parts process.part).bytes }
{
    let found = carried_bits(alloc, plan, process.part, direction, datagram.content)?;
    let has_inputs = process.command != ProcessCommand::Write && datagram.counter > 0;
    for one in found.as_slice() {
        if direction == Direction::Out && has_inputs && is_covered(plan, &one.link) {
            continue;
        }
        write_carried(text, table, plan, direction, one)?;
    }
    Ok(())
}

/// Whether the slave of an output puts inputs over its bits.
fn is_covered(plan: &Plan, link: &Link) -> bool {
    plan.slaves()
        .get(link.slave)
        .is_some_and(|settings| link.object_bit < settings.share.ins)
}

/// Adds a variable and its value in some process data.
fn write_carried(
    text: &mut String,
    table: &Table,
    plan: &Plan,
    direction: Direction,
    carried: &Carried,
) -> Result<(), AllocError> {
    let Carried { link, number } = *carried;
    let Some(place) = variable_at(plan, direction, link.image) else {
        return Ok(());
    };
    let (Some(row), Some(variable)) = (table.variables().get(place), plan.variables().get(place))
    else {
        return Ok(());
    };
    let way = match direction {
        Direction::Out => "output",
        Direction::In => "input",
    };
    write!(text, "{way} {}", row.name.as_str())?;
    let first = link.image.saturating_sub(variable.from);
    write_bits(text, first, link.count, variable.bits)?;
    let is_whole = link.count == usize::from(variable.bits);
    let shown = if is_whole {
        table.number(place, number)
    } else {
        i128::from(number)
    };
    let slave = link.slave;
    writeln!(text, " = {shown} ({number:#x}), slave {slave}")
}

/// Adds which bits of a variable they are, if a link doesn't join all of them.
fn write_bits(text: &mut String, first: usize, count: usize, all: u8) -> Result<(), AllocError> {
    if count == usize::from(all) {
        return Ok(());
    }
    if count == 1 {
        return write!(text, " bit {first}");
    }
    let last = first.saturating_add(count).saturating_sub(1);
    write!(text, " bits {first} to {last}")
}

/// Adds the part of a datagram, and the predicted counter beside the one that came.
fn write_part(
    text: &mut String,
    plan: &Plan,
    process: Process,
    counter: u16,
) -> Result<(), AllocError>
    requires { process.part < length plan.now.parts }
{
    let (part, unit) = (process.part, plan.unit_of_part(process.part));
    write!(
        text,
        "process data of part {part}, sync unit {unit}: counter {counter}"
    )?;
    let Some(predicted) = predicted_counter(plan, process) else {
        return text.push_str("\n");
    };
    let counter = usize::from(counter);
    if counter == predicted {
        writeln!(text, " as predicted")
    } else if counter == 0 {
        writeln!(
            text,
            ", predicted {predicted}: as it is sent, or no slave took part"
        )
    } else if counter < predicted {
        writeln!(text, ", predicted {predicted}: not each slave took part")
    } else {
        writeln!(
            text,
            ", predicted {predicted}: more slaves took part than the plan has"
        )
    }
}

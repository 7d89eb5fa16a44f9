//! Tables and scripts from seeds, with what the calls make of them, for a comparison with the program `ecat`.
//!
//! For each seed it prints five texts of a table, and five of a table for hardware, each behind a line with its name and its length
//! in bytes: the table, the script, the text of the plan, what the lines of the script print over a world, and what three cycles
//! between sockets must print.
mod cycles;

use crate::args::number;
use crate::tables::cycles::write_cycles;
use ec_link::Machine;
use ec_script::{Line, Script, Task, read_script};
use ec_simulation::run_step;
use ec_table::Table;
use ec_text::plan_text;
use ec_world::World;
use std::alloc::{AllocError, Global};
use std::io;
use std::io::Write;
use test_data::{Random, random_hardware_table, random_script, random_table};

/// The cycles of each table.
const CYCLES: u64 = 3;

/// Adds what a line prints, as often as it is run.
fn write_line(
    alloc: Global,
    table: &Table,
    world: &mut World<'_>,
    line: &Line,
    text: &mut String,
) -> Result<(), AllocError> {
    for _ in 0..line.times {
        write_tasks(alloc, table, world, line.tasks.as_slice(), text)?;
    }
    Ok(())
}

/// Adds what the steps among some tasks print.
fn write_tasks(
    alloc: Global,
    table: &Table,
    world: &mut World<'_>,
    tasks: &[Task],
    text: &mut String,
) -> Result<(), AllocError> {
    for task in tasks {
        if let Task::Step(step) = task {
            let printed = run_step(alloc, world, table, step)?;
            text.push_str(printed.as_str())?;
        }
    }
    Ok(())
}

/// Adds what the lines of a script print.
fn write_lines(
    alloc: Global,
    table: &Table,
    world: &mut World<'_>,
    lines: &Script,
    text: &mut String,
) -> Result<(), AllocError> {
    for line in lines.lines() {
        write_line(alloc, table, world, line, text)?;
    }
    Ok(())
}

/// Adds what a script prints over a new world of a machine. Returns whether the script could be read.
fn write_answers(
    alloc: Global,
    machine: &Machine,
    script: &str,
    text: &mut String,
) -> Result<bool, AllocError> {
    let Ok(lines) = read_script(alloc, machine.table(), script) else {
        return Ok(false);
    };
    let mut world = World::of_machine(alloc, machine)?;
    write_lines(alloc, machine.table(), &mut world, &lines, text)?;
    Ok(true)
}

/// Prints a text behind its name and its length.
fn print_block<W: Write>(name: &str, text: &str, output: &mut W) -> io::Result<()> {
    writeln!(output, "{name} {}", text.len())?;
    output.write_all(text.as_bytes())
}

/// Prints the text of a machine's plan.
fn print_plan<W: Write>(alloc: Global, machine: &Machine, output: &mut W) -> io::Result<()> {
    let text = plan_text(alloc, machine.table().version(), machine.plan())?;
    print_block("plan", text.as_str(), output)
}

/// Prints what a script prints over a new world of a machine. Returns whether the script could be read.
fn print_answers<W: Write>(
    alloc: Global,
    machine: &Machine,
    script: &str,
    output: &mut W,
) -> io::Result<bool> {
    let mut text = String::new(alloc);
    let is_read = write_answers(alloc, machine, script, &mut text)?;
    print_block("answers", text.as_str(), output)?;
    Ok(is_read)
}

/// Prints what cycles of a machine print between sockets.
fn print_cycles<W: Write>(alloc: Global, machine: &Machine, output: &mut W) -> io::Result<()> {
    let mut text = String::new(alloc);
    let mut world = World::of_machine(alloc, machine)?;
    write_cycles(alloc, machine, &mut world, CYCLES, &mut text)?;
    print_block("cycles", text.as_str(), output)
}

/// Prints what the calls make of a machine and a script. Returns whether the script could be read.
fn print_machine<W: Write>(
    alloc: Global,
    machine: &Machine,
    script: &str,
    output: &mut W,
) -> io::Result<bool> {
    print_plan(alloc, machine, output)?;
    let is_read = print_answers(alloc, machine, script, output)?;
    print_cycles(alloc, machine, output)?;
    Ok(is_read)
}

/// Prints the texts of a table and a script. Returns whether both could be read.
fn print_texts<W: Write>(
    alloc: Global,
    table: &str,
    script: &str,
    output: &mut W,
) -> io::Result<bool> {
    print_block("table", table, output)?;
    print_block("script", script, output)?;
    match Machine::read(alloc, table) {
        Ok(machine) => print_machine(alloc, &machine, script, output),
        Err(_) => Ok(false),
    }
}

/// Prints the texts of a seed's table, or of its table for hardware. Returns whether the table and its script could be read.
fn print_table<W: Write>(
    alloc: Global,
    seed: u64,
    is_hardware: bool,
    output: &mut W,
) -> io::Result<bool> {
    let mut random = Random::new(seed);
    let table = if is_hardware {
        random_hardware_table(alloc, &mut random)?
    } else {
        random_table(alloc, &mut random)?
    };
    let script = random_script(alloc, &mut random, table.as_str())?;
    print_texts(alloc, table.as_str(), script.as_str(), output)
}

/// Prints the texts of both tables of a seed. Returns whether all could be read.
fn print_seed<W: Write>(alloc: Global, seed: u64, output: &mut W) -> io::Result<bool> {
    let is_read = print_table(alloc, seed, false, output)?;
    Ok(print_table(alloc, seed, true, output)? && is_read)
}

/// Prints the texts of so many seeds from a first one on, as the arguments ask for. Returns whether all could be read.
pub fn run<W: Write>(alloc: Global, args: &[String], output: &mut W) -> io::Result<bool> {
    let (Some(first), Some(count)) = (number(args, 1, 0), number(args, 2, 200)) else {
        writeln!(output, "tables [SEED [TABLES]]")?;
        return Ok(false);
    };
    let mut are_read = true;
    for place in 0..count {
        let seed = u64::from(first).wrapping_add(u64::from(place));
        are_read = print_seed(alloc, seed, output)? && are_read;
    }
    Ok(are_read)
}

//! Long runs, from a seed. Worlds of tables at random get events at random: one world gets them one by one, another the same in lists.
//! Each must be made where the table of events lets it, and nowhere else; both worlds must show the same after each list; and at the
//! end an undisturbed cycle must take every sync unit whose slaves are well. Each table gets so many events in ten worlds. It
//! prints a line of figures.

mod events;
mod life;
mod model;

use crate::args::number;
use crate::runs::events::Kind;
use crate::runs::life::{Seen, live};
use ec_link::Machine;
use std::alloc::{AllocError, Global};
use std::io;
use std::io::Write;
use test_data::{Random, random_table};

/// The worlds of each table.
const WORLDS: [Kind; 10] = [
    Kind {
        early: 0,
        late: 0,
        trouble: 0,
    },
    Kind {
        early: 0,
        late: 100,
        trouble: 0,
    },
    Kind {
        early: 1,
        late: 400,
        trouble: 0,
    },
    Kind {
        early: 2,
        late: 800,
        trouble: 0,
    },
    Kind {
        early: 300,
        late: 300,
        trouble: 0,
    },
    Kind {
        early: 0,
        late: 20,
        trouble: 10,
    },
    Kind {
        early: 0,
        late: 300,
        trouble: 20,
    },
    Kind {
        early: 2,
        late: 500,
        trouble: 10,
    },
    Kind {
        early: 10,
        late: 900,
        trouble: 30,
    },
    Kind {
        early: 1000,
        late: 1000,
        trouble: 100,
    },
];

/// What the arguments ask for.
#[derive(Clone, Copy)]
struct Task {
    seed: u64,
    tables: u32,
    events: u32,
}

/// What was seen of all worlds.
#[derive(Clone, Copy)]
struct Sum {
    worlds: u32,
    tried: u64,
    made: u64,
    taken: u32,
    untaken: u32,
    is_right: bool,
}

impl Sum {
    /// A world more.
    fn add(&mut self, seen: Seen) {
        self.worlds = self.worlds.saturating_add(1);
        self.tried = self.tried.saturating_add(seen.tried);
        self.made = self.made.saturating_add(seen.made);
        self.taken = self.taken.saturating_add(seen.taken);
        self.untaken = self.untaken.saturating_add(seen.untaken);
        self.is_right = self.is_right && seen.is_right;
    }
}

/// What the arguments ask for; none where they aren't numbers.
fn task_of(args: &[String]) -> Option<Task> {
    Some(Task {
        seed: u64::from(number(args, 1, 1)?),
        tables: number(args, 2, 20)?,
        events: number(args, 3, 1000)?,
    })
}

/// The worlds of a machine.
fn live_each(
    alloc: Global,
    machine: &Machine,
    random: &mut Random,
    events: u64,
    sum: &mut Sum,
) -> Result<(), AllocError> {
    for kind in WORLDS {
        sum.add(live(alloc, machine, random, kind, events)?);
    }
    Ok(())
}

/// The worlds of a text. A text that is no table, or has no plan, is wrong.
fn live_all(
    alloc: Global,
    text: &str,
    random: &mut Random,
    events: u64,
    sum: &mut Sum,
) -> Result<(), AllocError> {
    match Machine::read(alloc, text) {
        Ok(machine) => live_each(alloc, &machine, random, events, sum),
        Err(_) => {
            sum.is_right = false;
            Ok(())
        }
    }
}

/// All tables.
fn live_tables(alloc: Global, task: Task) -> Result<Sum, AllocError> {
    let mut sum = Sum {
        worlds: 0,
        tried: 0,
        made: 0,
        taken: 0,
        untaken: 0,
        is_right: true,
    };
    let events = u64::from(task.events / 10);
    for table in 0..task.tables {
        let mut random = Random::new(task.seed.wrapping_add(u64::from(table)));
        let text = random_table(alloc, &mut random)?;
        live_all(alloc, text.as_str(), &mut random, events, &mut sum)?;
    }
    Ok(sum)
}

/// Moves the worlds that a task asks for, and prints their figures.
fn print_task<W: Write>(alloc: Global, task: Task, output: &mut W) -> io::Result<bool> {
    let Sum {
        worlds,
        tried,
        made,
        taken,
        untaken,
        is_right,
    } = live_tables(alloc, task)?;
    let verdict = if is_right { "all" } else { "NOT" };
    writeln!(
        output,
        "worlds {worlds}; events {tried} made {made}; units at the end taken {taken} untaken {untaken}; {verdict} as it must be"
    )?;
    Ok(is_right)
}

/// Moves the worlds that the arguments ask for, and prints their figures.
pub fn run<W: Write>(alloc: Global, args: &[String], output: &mut W) -> io::Result<bool> {
    match task_of(args) {
        Some(task) => print_task(alloc, task, output),
        None => {
            writeln!(output, "runs [SEED [TABLES [EVENTS]]]")?;
            Ok(false)
        }
    }
}

/// Moves the gate's share of worlds.
pub fn run_share<W: Write>(alloc: Global, output: &mut W) -> io::Result<bool> {
    let task = Task {
        seed: 1,
        tables: 3,
        events: 20_000,
    };
    print_task(alloc, task, output)
}

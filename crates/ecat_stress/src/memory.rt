//! Calls each function that takes memory, on the table with three slaves, and prints what it returned: its name, and then 0 with a
//! figure of what it made, or the number of its refusal. A call that is refused is made once more, with the same arguments, and
//! its second result stands behind the first. If memory is refused before the function is called, it prints `prepared 1`.
//!
//! All is right if each result is the figure that the table must give or 1, want of memory.

mod calls;
mod table;

ghost use Rattle.std.specs.Prelude.{◌≡◌, None, length};
ghost use Rattle.ec_link.specs.Faults.{compile_fault};
ghost use Rattle.ec_link.specs.Plan.{plan_of};
ghost use Rattle.ec_link.specs.Usable.{IsUsable};

use crate::memory::calls::{Answer, Call, MEMORY, attempt};
use crate::memory::table::TABLE;
use ec_bringup::identities_of;
use ec_device::Identity;
use ec_link::{Plan, compile};
use ec_table::{Table, read_table};
use std::alloc::{AllocError, Global};
use std::io;
use std::io::Write;

/// What a function returned, and what it returned when it was called again after a refusal.
#[derive(Drop)]
struct Answers {
    first: Answer,
    second: Option<Answer>,
}

impl Answers {
    /// Whether each of them is the figure that there must be, or want of memory.
    fn are_right(&self, call: Call) -> bool {
        is_right(self.first, call) && self.second.is_none_or(|answer| is_right(answer, call))
    }
}

/// Whether a result is the figure that there must be, or want of memory.
fn is_right(answer: Answer, call: Call) -> bool {
    match answer {
        Ok(figure) => figure == call.figure(),
        Err(number) => number == MEMORY,
    }
}

/// What a function returns when it is called again.
fn again(alloc: Global, call: Call, table: &Table, plan: &Plan, identities: &[Identity]) -> Answer
    requires usable { IsUsable plan.now }
    requires accepted { compile_fault table.now ≡ None }
    requires plan { plan.now ≡ plan_of table.now }
    requires one_each { length identities.now ≡ length table.now.slaves }
{
    match attempt(alloc, call, table, plan, identities) {
        Ok(answer) => answer,
        Err(_) => Err(MEMORY),
    }
}

/// Calls a function with a table and its plan, and once more if it was refused.
fn call_with(alloc: Global, call: Call, table: &Table, plan: &Plan) -> Result<Answers, AllocError>
    requires usable { IsUsable plan.now }
    requires accepted { compile_fault table.now ≡ None }
    requires plan { plan.now ≡ plan_of table.now }
{
    let identities = identities_of(alloc, table)?;
    let first = attempt(alloc, call, table, plan, &identities)?;
    let second = match first {
        Ok(_) => None,
        Err(_) => Some(again(alloc, call, table, plan, &identities)),
    };
    Ok(Answers { first, second })
}

/// Calls a function with a table and the plan that is made of it.
fn call_over(alloc: Global, call: Call, table: &Table) -> Result<Answers, AllocError> {
    let Ok(plan) = compile(alloc, table) else {
        return Err(AllocError);
    };
    call_with(alloc, call, table, &plan)
}

/// Calls a function, and once more if it was refused. The error says that memory was refused before a call.
fn call_twice(alloc: Global, call: Call) -> Result<Answers, AllocError> {
    let Ok(table) = read_table(alloc, TABLE) else {
        return Err(AllocError);
    };
    call_over(alloc, call, &table)
}

/// Prints a result behind what the line has.
fn print_answer<W: Write>(answer: Answer, output: &mut W) -> io::Result<()> {
    match answer {
        Ok(figure) => write!(output, " 0 {figure}"),
        Err(number) => write!(output, " {number}"),
    }
}

/// Prints what a function returns. Returns whether that is right.
fn print_call<W: Write>(alloc: Global, call: Call, output: &mut W) -> io::Result<bool> {
    let Ok(answers) = call_twice(alloc, call) else {
        writeln!(output, "prepared {MEMORY}")?;
        return Ok(true);
    };
    write!(output, "{}", call.name())?;
    print_answer(answers.first, output)?;
    if let Some(second) = answers.second {
        print_answer(second, output)?;
    }
    writeln!(output, "")?;
    Ok(answers.are_right(call))
}

/// Prints what each function returns. Returns whether all of that is right.
fn print_calls<W: Write>(alloc: Global, calls: &[Call], output: &mut W) -> io::Result<bool> {
    let mut are_right = true;
    for call in calls {
        are_right = print_call(alloc, *call, output)? && are_right;
    }
    Ok(are_right)
}

/// Calls the function of a name, or all of them in turn, and returns whether all was right.
pub fn run<W: Write>(alloc: Global, name: Option<&str>, output: &mut W) -> io::Result<bool> {
    let Some(name) = name else {
        return print_calls(alloc, &Call::ALL, output);
    };
    match Call::named(name) {
        Some(call) => print_call(alloc, call, output),
        None => {
            writeln!(output, "no such function")?;
            Ok(false)
        }
    }
}

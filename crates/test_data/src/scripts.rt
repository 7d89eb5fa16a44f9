//! Random scripts.
use crate::random::Random;
use std::alloc::{AllocError, Global};
use std::fmt::Write as _;

/// How many lines follow the start-up.
const LINES: u32 = 20;

/// A variable of a table.
#[derive(Clone, Copy, Drop)]
struct Named<'a> {
    name: &'a str,
    bits: u32,
    is_output: bool,
}

/// The text of a random script for a table that `random_table` made: a start-up, and twenty lines. Whether a line can be done
/// depends on the table and the lines before it. The error says that memory was refused.
pub fn random_script(
    alloc: Global,
    random: &mut Random,
    table: &str,
) -> Result<String, AllocError> {
    let variables = variables_of(alloc, table)?;
    let mut text = String::from_str(alloc, "ready\n")?;
    for _ in 0..LINES {
        write_line(random, &mut text, variables.as_slice())?;
    }
    Ok(text)
}

/// Writes a line, some with `repeat` before what it does, and some with a comment behind it.
fn write_line(
    random: &mut Random,
    text: &mut String,
    variables: &[Named<'_>],
) -> Result<(), AllocError> {
    if random.in_hundred(15) {
        let times = 1 + random.below(4);
        write!(text, "repeat {times} ")?;
    }
    write_act(random, text, variables)?;
    if random.in_hundred(10) {
        write!(text, "  # as it comes")?;
    }
    writeln!(text)
}

/// Writes what a line does. If it names no variable, it is a line of a script for every table.
fn write_act(
    random: &mut Random,
    text: &mut String,
    variables: &[Named<'_>],
) -> Result<(), AllocError> {
    let (first, second, byte) = (random.below(5), random.below(3), random.byte());
    match random.below(22) {
        0 => write!(text, "start"),
        1 => write!(text, "begin"),
        2 => write!(text, "pass {first}"),
        3 => write!(text, "lose {second}"),
        4 => write!(text, "return {second}"),
        5 => write!(text, "close"),
        6 => write!(text, "serve {first}"),
        7 => write!(text, "put {first} {second} {byte}"),
        8 => write!(text, "get {first} {second}"),
        9 => write!(text, "fault {first}"),
        10 => write!(text, "reset {first}"),
        11 | 12 => write!(text, "ready"),
        13 | 14 => write!(text, "cycle"),
        15 | 16 | 17 => write_set(random, text, variables),
        18 | 19 | 20 => write_expectation(random, text, variables),
        _ => write!(text, "show"),
    }
}

/// Writes a line that expects something of the world.
fn write_expectation(
    random: &mut Random,
    text: &mut String,
    variables: &[Named<'_>],
) -> Result<(), AllocError> {
    let slave = random.below(5);
    match random.below(4) {
        0 => write!(text, "expect state {slave} OP"),
        1 => write!(text, "expect state {slave} PREOP 0000"),
        2 => write_outcome(random, text),
        _ => {
            let variable = one_of(random, variables);
            write_valued(random, text, "expect", variable)
        }
    }
}

/// Writes a line that expects something of the last report or of the start-up.
fn write_outcome(random: &mut Random, text: &mut String) -> Result<(), AllocError> {
    let unit = random.below(3);
    match random.below(6) {
        0 => write!(text, "expect taken"),
        1 => write!(text, "expect untaken"),
        2 => write!(text, "expect taken {unit}"),
        3 => write!(text, "expect failed"),
        4 => write!(text, "expect failed 32"),
        _ => write!(text, "expect ready"),
    }
}

/// Writes a line that sets an output variable, or makes the slaves publish an input variable.
fn write_set(
    random: &mut Random,
    text: &mut String,
    variables: &[Named<'_>],
) -> Result<(), AllocError> {
    let variable = one_of(random, variables);
    let word = match variable {
        Some(found) if !found.is_output => "in",
        _ => "set",
    };
    write_valued(random, text, word, variable)
}

/// Writes a line of a word, a variable and a value; without a variable, a line that prints the inputs.
fn write_valued(
    random: &mut Random,
    text: &mut String,
    word: &str,
    variable: Option<Named<'_>>,
) -> Result<(), AllocError> {
    let Some(variable) = variable else {
        return write!(text, "show");
    };
    let name = variable.name;
    write!(text, "{word} {name}")?;
    write_value(random, text, variable.bits)
}

/// Writes a value in decimal, in hex or with a sign, which the variable's bits usually hold.
fn write_value(random: &mut Random, text: &mut String, bits: u32) -> Result<(), AllocError> {
    let spare = 32u32.saturating_sub(bits);
    let value = random.word().checked_shr(spare).unwrap_or(0);
    match random.below(5) {
        0 => write!(text, " 0x{value:x}"),
        1 => write!(text, " -{value}"),
        2 => write!(text, " 0"),
        _ => write!(text, " {value}"),
    }
}

/// One of these variables; none if there are none.
fn one_of<'a>(random: &mut Random, variables: &[Named<'a>]) -> Option<Named<'a>> {
    let place = random.place(variables.len());
    variables.get(place).copied()
}

/// The variables of a table.
fn variables_of(alloc: Global, table: &str) -> Result<Vec<Named<'_>>, AllocError> {
    let mut variables = Vec::new(alloc);
    for lines in table.split("[[variable]]\n") {
        if let Some(variable) = variable_in(lines) {
            variables.push(variable)?;
        }
    }
    Ok(variables)
}

/// The variable in the lines behind a section's head, as `random_table` writes them; none if the section is another.
fn variable_in(lines: &str) -> Option<Named<'_>> {
    let mut lines = lines.lines();
    let name = lines.next()?.strip_prefix("name = \"")?.strip_suffix("\"")?;
    let direction = lines.next()?.strip_prefix("dir = \"")?;
    let bits = lines.next()?.strip_prefix("bits = ")?.parse::<u32>().ok()?;
    Some(Named {
        name,
        bits,
        is_output: direction == "out\"",
    })
}

//! The AL states of slaves as text.
ghost use Rattle.std.specs.Prelude.{◌≡◌, ◌++◌, None, OnOk, get_or, string_bytes};
ghost use Rattle.ec_text.specs.PlanText.{lines_from};
ghost use Rattle.ec_script.specs.States.{flag_text, line_text, name_text, state_line, status_text};

use ec_asking::AlStatus;
use ec_table::SlaveRow;
use ec_text::write_word;
use std::alloc::{AllocError, Global};
use std::fmt::Write as _;

/// Adds the lines of the AL states of a table's slaves; `states` has none of a slave that doesn't answer.
///
/// # Errors
///
/// `AllocError` if memory ran out.
#[tactic(auto, using(crate::proofs::SlaveLines::slave_steps))]
pub(crate) fn write_states(
    alloc: Global,
    text: &mut String,
    rows: &[SlaveRow],
    states: &[Option<AlStatus>],
) -> Result<(), AllocError>
    ensures { OnOk result (string_bytes text.new ≡ string_bytes text.old ++ lines_from (state_line states.now) 0 rows.now) }
{
    for (slave, row) in rows.iter().enumerate() {
        write_state(
            alloc,
            text,
            slave,
            row.name.as_str(),
            state_of(states, slave),
        )?;
    }
    Ok(())
}

/// What a slave says of its AL state; none if it doesn't answer.
fn state_of(states: &[Option<AlStatus>], slave: usize) -> Option<AlStatus>
    ensures { result ≡ get_or states.now slave None }
{
    if slave < states.len() {
        states[slave]
    } else {
        None
    }
}

/// Adds the line of a slave.
fn write_state(
    alloc: Global,
    text: &mut String,
    slave: usize,
    name: &str,
    state: Option<AlStatus>,
) -> Result<(), AllocError>
    ensures { OnOk result (string_bytes text.new ≡ string_bytes text.old ++ line_text slave name.now state) }
{
    write!(text, "state {slave} {name} ")?;
    write_status(alloc, text, state)?;
    text.push_str("\n")
}

/// Adds what a slave says of its AL state.
fn write_status(alloc: Global, text: &mut String, state: Option<AlStatus>) -> Result<(), AllocError>
    ensures { OnOk result (string_bytes text.new ≡ string_bytes text.old ++ status_text state) }
{
    match state {
        None => text.push_str("- 0000"),
        Some(status) => {
            text.push_str(state_name(status.word % 16))?;
            text.push_str(flag(status.word))?;
            text.push_str(" ")?;
            write_word(alloc, text, status.code)
        }
    }
}

/// The name of the AL state with a number; `-` if there is none.
pub fn state_name(number: u16) -> &'static str
    ensures { result.now ≡ name_text number }
{
    match number {
        1 => "INIT",
        2 => "PREOP",
        3 => "BOOT",
        4 => "SAFEOP",
        8 => "OP",
        _ => "-",
    }
}

/// What stands behind a state if the error flag is set.
fn flag(word: u16) -> &'static str
    ensures { result.now ≡ flag_text word }
{
    if word / 16 % 2 == 1 { "+ERROR" } else { "" }
}

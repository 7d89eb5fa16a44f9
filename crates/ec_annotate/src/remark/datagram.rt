//! The remarks on a datagram.

use crate::remark::mailbox::write_message;
use crate::remark::value::write_value;
use ec_coe::read_message;
use ec_frame::Command;
use ec_names::{DatagramFields, register_at, register_bytes, registers_within};
use ec_regs::registers::RAM_START;
use std::alloc::{AllocError, Global};
use std::fmt::Write as _;

/// Adds what a datagram says, for people, in lines. Each register that it has whole has a line with its value;
/// without one, a line names the register in which it begins. A mailbox message in the memory behind the
/// registers has a line. A logical datagram and a NOP have none. `AllocError` if memory ran out.
pub fn write_remarks(
    alloc: Global,
    text: &mut String,
    fields: DatagramFields<'_>,
) -> Result<(), AllocError> {
    if !is_physical(fields.command) {
        return Ok(());
    }
    let from = (fields.address / 65536) as usize;
    if from >= RAM_START {
        return write_memory(text, fields.content);
    }
    if !write_registers(alloc, text, from, fields.content)? {
        write_part(text, from)?;
    }
    Ok(())
}

/// Adds what data in the memory behind the registers say, if they are a mailbox message.
fn write_memory(text: &mut String, content: &[u8]) -> Result<(), AllocError> {
    match read_message(content) {
        Ok(message) => write_message(text, &message),
        Err(_) => Ok(()),
    }
}

/// Adds which register the data begin in, if they have no register whole.
fn write_part(text: &mut String, from: usize) -> Result<(), AllocError> {
    if let Some(register) = register_at(from) {
        let (name, place) = (register.name(), register.place());
        writeln!(text, "{from:04x} part of {place:04x} {name}")?;
    }
    Ok(())
}

/// Adds a line for each register all of whose bytes are there, and returns whether there is one.
fn write_registers(
    alloc: Global,
    text: &mut String,
    from: usize,
    content: &[u8],
) -> Result<bool, AllocError> {
    let registers = registers_within(alloc, from, content.len())?;
    for register in registers.as_slice() {
        if let Some(bytes) = register_bytes(*register, from, content) {
            let (name, place) = (register.name(), register.place());
            write!(text, "{place:04x} {name}")?;
            write_value(text, *register, bytes)?;
        }
    }
    Ok(!registers.is_empty())
}

/// Whether a command goes to the memory of slaves by a physical address.
fn is_physical(command: Command) -> bool {
    !matches!(
        &command,
        Command::Nop | Command::Lrd | Command::Lwr | Command::Lrw
    )
}

//! What the bytes of a register say.

use crate::remark::sii::sii_text;
use crate::remark::state::{state_name, status_name};
use ec_names::Register;
use ec_regs::{AlWord, FmmuSettings, SiiControl, SyncManagerSettings, decode_fmmu, decode_manager};
use std::alloc::AllocError;
use std::fmt::Write as _;

/// The command that reads the SII.
const SII_READ: u8 = 1;

/// The number of at most eight bytes, little-endian.
pub(crate) fn number_of(bytes: &[u8]) -> u64 {
    let mut number: u64 = 0;
    for byte in bytes.iter().rev() {
        number = number.wrapping_mul(256).wrapping_add(u64::from(*byte));
    }
    number
}

/// Adds what the bytes of a register say, to the end of its line.
pub(crate) fn write_value(
    text: &mut String,
    register: Register,
    bytes: &[u8],
) -> Result<(), AllocError> {
    match register {
        Register::Fmmu(number) => {
            let mut all = [0; 16];
            copy_front(&mut all, bytes);
            write!(text, " {number}")?;
            write_fmmu(text, decode_fmmu(&all))
        }
        Register::Manager(number) => {
            let mut all = [0; 8];
            copy_front(&mut all, bytes);
            write!(text, " {number}")?;
            write_manager(text, decode_manager(&all), all[5])
        }
        _ => {
            let (number, width) = (number_of(bytes), 2 * register.size());
            write!(text, " = {number:0width$x}")?;
            write_word(text, register, number)
        }
    }
}

/// Adds the low 16 bits of a number in words, if the register's bits have names.
fn write_word(text: &mut String, register: Register, number: u64) -> Result<(), AllocError> {
    let word = (number % 65536) as u16;
    match register {
        Register::AlControl => write_al(text, AlWord(word), ", error acknowledged"),
        Register::AlStatus => write_al(text, AlWord(word), ", error"),
        Register::AlStatusCode => writeln!(text, ": {}", status_name(word)),
        Register::SiiControl => write_sii_control(text, SiiControl(word)),
        Register::SiiAddress => writeln!(text, ": {}", sii_text((number % (1 << 32)) as u32)),
        _ => text.push_str("\n"),
    }
}

/// Adds what the word of SII control and status says.
fn write_sii_control(text: &mut String, word: SiiControl) -> Result<(), AllocError> {
    let command = match word.command() {
        0 => "no command",
        SII_READ => "read",
        _ => "another command",
    };
    let busy = if word.is_busy() { ", busy" } else { "" };
    let error = if word.has_error() { ", error" } else { "" };
    writeln!(text, ": {command}{busy}{error}")
}

/// Adds what an AL word says: its state, and its flag in words.
fn write_al(text: &mut String, word: AlWord, flag: &str) -> Result<(), AllocError> {
    let name = state_name(word.state());
    let flag = if word.has_error() { flag } else { "" };
    writeln!(text, ": {name}{flag}")
}

/// Adds the settings of a sync manager.
fn write_manager(
    text: &mut String,
    settings: SyncManagerSettings,
    status: u8,
) -> Result<(), AllocError> {
    let is = if settings.activate % 2 == 1 {
        "on"
    } else {
        "off"
    };
    let mode = if settings.is_mailbox() {
        "mailbox"
    } else if settings.is_buffered() {
        "buffered"
    } else {
        "no mode"
    };
    let way = if settings.is_master_written() {
        "the master writes"
    } else if settings.is_master_read() {
        "the master reads"
    } else {
        "no direction"
    };
    let (start, length, control) = (settings.start, settings.length, settings.control);
    write!(
        text,
        ": {is}, {mode}, {way}, {length} bytes from {start:04x},"
    )?;
    writeln!(text, " control {control:02x}, status {status:02x}")
}

/// Adds the settings of an FMMU.
fn write_fmmu(text: &mut String, settings: FmmuSettings) -> Result<(), AllocError> {
    let is = if settings.active { "on" } else { "off" };
    let way = match (settings.reads, settings.writes) {
        (false, false) => "maps nothing",
        (true, false) => "reads",
        (false, true) => "writes",
        (true, true) => "reads and writes",
    };
    let (logical, length) = (settings.logical_start, settings.length);
    write!(
        text,
        ": {is}, {way}, logical {logical:08x} and {length} bytes,"
    )?;
    let (first, last) = (settings.start_bit, settings.stop_bit);
    write!(text, " bit {first} of the first to bit {last} of the last,")?;
    let (physical, bit) = (settings.physical_start, settings.physical_bit);
    writeln!(text, " physical {physical:04x} from bit {bit}")
}

/// Copies bytes to the front of others, as many as both have.
fn copy_front(to: &mut [u8], from: &[u8]) {
    for (place, byte) in to.iter_mut().zip(from) {
        *place = *byte;
    }
}

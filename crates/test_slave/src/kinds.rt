//! Slaves that were just switched on, by the words of a line.
ghost use Rattle.std.specs.Prelude.{◌≡◌};

use crate::compare::{expect, parts};
use ec_coe::Dictionary;
use ec_device::{
    Device, Entry, Face, Hardware, MAX_NAME, Mailbox, PINS_INSIDE, Parameter, ParameterSize, Pdo,
    ProcessManager, SlaveType,
};
use ec_listed::Listed;
use ec_slave::Slave;
use std::alloc::{AllocError, Global};
use std::process::Abort;

/// What the slave's type stands for.
pub(crate) const DEVICE: Device = Device {
    vendor: 0xABCD,
    product: 3,
    revision: 1,
};

/// PDOs: the index of each, the object of its entries, how many bits one of them has, and how many there are, up to 33.
type Pdos<'a> = &'a [(u16, u16, u8, usize)];

/// Entries of a PDO.
fn entries_of(index: u16, bits: u8) -> [Entry; 33] {
    let entry = Entry {
        index,
        subindex: 1,
        bits,
    };
    [entry; 33]
}

/// A list of PDOs.
fn pdos_of(alloc: Global, rows: Pdos<'_>) -> Result<Listed<Pdo>, AllocError> {
    let mut pdos = Listed::new(alloc);
    for (index, object, bits, count) in rows {
        let all = entries_of(*object, *bits);
        let entries = Listed::copied(alloc, all.get(..*count).unwrap_or(&[]))?;
        pdos.push(Pdo {
            index: *index,
            entries,
        })?;
    }
    Ok(pdos)
}

/// The type of a slave of these outputs and inputs.
fn kind_of(
    rt: &(impl AllocGlobal + Abort),
    mailbox: Option<Mailbox>,
    outputs: Listed<Pdo>,
    inputs: Listed<Pdo>,
) -> SlaveType
    ensures { result.mailbox ≡ mailbox }
{
    let fits = SlaveType::is_within_limits(mailbox, outputs.as_slice(), inputs.as_slice());
    expect(rt, fits, "the limits of a type");
    SlaveType::new(
        rt.alloc(),
        DEVICE,
        mailbox,
        0x1100,
        0x1400,
        outputs,
        inputs,
        true,
    )
}

/// A mailbox that sends so many bytes.
fn mailbox_of(send_size: u16) -> Mailbox {
    Mailbox {
        receive_start: 0x1000,
        receive_size: 128,
        send_start: 0x1080,
        send_size,
    }
}

/// The output PDOs and the input PDOs of a word.
fn objects_of(rt: &impl Abort, word: &str) -> (Pdos<'static>, Pdos<'static>) {
    match word {
        "mixed" | "drive" => (&[(0x1600, 0x7010, 12, 1)], &[(0x1A00, 0x6010, 16, 1)]),
        "four" => (&[(0x1600, 0x7000, 4, 1)], &[]),
        "lamps" => (&[(0x1600, 0x7000, 8, 1)], &[(0x1A00, 0x6000, 8, 1)]),
        "two" => (&[(0x1600, 0x7000, 64, 1), (0x1601, 0x7001, 64, 1)], &[]),
        "long32" => (&[(0x1600, 0x7000, 64, 32)], &[]),
        "long33" => (&[(0x1600, 0x7000, 64, 33)], &[]),
        _ => panic!(rt; "{word}"),
    }
}

/// The type of a slave with the PDOs of a word, whose mailbox sends so many bytes, if it has one.
fn plain_kind(rt: &(impl AllocGlobal + Abort), word: &str, send_size: Option<u16>) -> SlaveType {
    let (outputs, inputs) = objects_of(rt, word);
    let outputs = pdos_of(rt.alloc(), outputs).expect(rt, "memory");
    let inputs = pdos_of(rt.alloc(), inputs).expect(rt, "memory");
    kind_of(rt, send_size.map(mailbox_of), outputs, inputs)
}

/// A slave of a type is the last of its ring, and has a name.
fn show_named(rt: &impl Abort, kind: &mut SlaveType, name: Listed<u8>) {
    let is_short = name.as_slice().len() <= MAX_NAME;
    expect(rt, !name.as_slice().is_empty() && is_short, "a name");
    kind.show(Face {
        name,
        is_last: true,
    });
}

/// The type of the words `KIND NAME SEND`: its PDOs; the name of a full slave, or `-` of one that isn't; how many bytes its mailbox sends,
/// or `-` if it has none.
fn kind_in(rt: &(impl AllocGlobal + Abort), words: &str) -> SlaveType {
    let (word, about) = parts(rt, words, " ");
    let (name, send_size) = parts(rt, about, " ");
    let mut kind = if word == "drive" {
        real_kind(rt, word)
    } else {
        plain_kind(rt, word, send_size.parse::<u16>().ok())
    };
    if name != "-" {
        let name = Listed::copied(rt.alloc(), name.as_bytes());
        show_named(rt, &mut kind, name.expect(rt, "memory"));
    }
    kind
}

/// The objects of a slave of that type.
pub(crate) fn dictionary_in(
    rt: &(impl AllocGlobal + Abort),
    words: &str,
) -> Result<Dictionary, AllocError> {
    Dictionary::new(rt.alloc(), kind_in(rt, words), DEVICE.identity(0))
}

/// A slave of that type.
pub(crate) fn slave_in(rt: &(impl AllocGlobal + Abort), words: &str) -> Result<Slave, AllocError> {
    Slave::new(rt.alloc(), kind_in(rt, words), DEVICE.identity(0))
}

/// The type of lamps and keys: the outputs begin in the register of the pins, managers 0 and 1 hold the process data, there is
/// no firmware, and there are two FMMUs.
fn lamps_kind(
    rt: &(impl AllocGlobal + Abort),
    outputs: Listed<Pdo>,
    inputs: Listed<Pdo>,
) -> SlaveType {
    let fits = SlaveType::is_within_limits(None, outputs.as_slice(), inputs.as_slice());
    expect(rt, fits, "the limits of a type");
    let mut kind = SlaveType::new(
        rt.alloc(),
        DEVICE,
        None,
        PINS_INSIDE,
        0x1000,
        outputs,
        inputs,
        true,
    );
    kind.describe(Hardware {
        out_manager: ProcessManager {
            number: 0,
            control: 0x44,
        },
        in_manager: ProcessManager {
            number: 1,
            control: 0,
        },
        has_pins: true,
        has_firmware: false,
        is_fixed: false,
        slow: 0,
        has_emergency: false,
        fmmus: 2,
        any_revision: true,
    });
    kind
}

/// The type of a valve: a type with mailboxes whose firmware awaits outputs, and whose outputs want a watchdog.
fn valve_kind(
    rt: &(impl AllocGlobal + Abort),
    outputs: Listed<Pdo>,
    inputs: Listed<Pdo>,
) -> SlaveType {
    let mut kind = kind_of(rt, Some(mailbox_of(128)), outputs, inputs);
    kind.describe(Hardware {
        out_manager: ProcessManager {
            number: 2,
            control: 0x64,
        },
        in_manager: ProcessManager {
            number: 3,
            control: 0x20,
        },
        has_pins: false,
        has_firmware: true,
        is_fixed: false,
        slow: 0,
        has_emergency: false,
        fmmus: 3,
        any_revision: true,
    });
    kind
}

/// What is downloaded to a drive before its process data: its mode, an entry of its mapping, and a value of two bytes twice.
const PARAMETERS: [Parameter; 4] = [
    Parameter {
        index: 0x6060,
        subindex: 0,
        size: ParameterSize::One,
        value: 8,
    },
    Parameter {
        index: 0x1600,
        subindex: 1,
        size: ParameterSize::Four,
        value: 0x7001_0208,
    },
    Parameter {
        index: 0x8010,
        subindex: 1,
        size: ParameterSize::Two,
        value: 3,
    },
    Parameter {
        index: 0x8010,
        subindex: 1,
        size: ParameterSize::Two,
        value: 4,
    },
];

/// The type of a drive: slow, with an emergency, a fixed assignment and parameters.
fn drive_kind(
    rt: &(impl AllocGlobal + Abort),
    outputs: Listed<Pdo>,
    inputs: Listed<Pdo>,
) -> SlaveType {
    let mut kind = kind_of(rt, Some(mailbox_of(128)), outputs, inputs);
    kind.describe(Hardware {
        out_manager: ProcessManager {
            number: 2,
            control: 0x24,
        },
        in_manager: ProcessManager {
            number: 3,
            control: 0x20,
        },
        has_pins: false,
        has_firmware: true,
        is_fixed: true,
        slow: 2,
        has_emergency: true,
        fmmus: 4,
        any_revision: false,
    });
    let init = Listed::copied(rt.alloc(), &PARAMETERS);
    kind.prepare(init.expect(rt, "memory"));
    kind
}

/// A type of real devices with the PDOs of a word.
fn real_kind(rt: &(impl AllocGlobal + Abort), word: &str) -> SlaveType {
    let (outputs, inputs) = objects_of(rt, word);
    let outputs = pdos_of(rt.alloc(), outputs).expect(rt, "memory");
    let inputs = pdos_of(rt.alloc(), inputs).expect(rt, "memory");
    match word {
        "lamps" => lamps_kind(rt, outputs, inputs),
        "drive" => drive_kind(rt, outputs, inputs),
        _ => valve_kind(rt, outputs, inputs),
    }
}

/// A slave of that type.
pub(crate) fn real_slave(rt: &(impl AllocGlobal + Abort), word: &str) -> Result<Slave, AllocError> {
    Slave::new(rt.alloc(), real_kind(rt, word), DEVICE.identity(0))
}

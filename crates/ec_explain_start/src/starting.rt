//! Why a start-up or a cycle failed: refusals 9, 26 to 38.
use crate::fault::{DeviceText, SlaveAt, StartFault};
use crate::steps::is_assignment;
use ec_coe::OUTPUT_ASSIGNMENT;
use ec_cycle::CycleError;
use ec_device::{Device, Entry, FIRST_INPUT_INDEX};
use ec_diagnostic::{Counted, Diagnosis, MarkedPart, PathStep};
use ec_link::compile;
use ec_start::StartError;
use ec_table::{Direction, Table, TypeRow};
use std::fmt;

/// The words if no number is left, and what to do.
const SPENT: (&str, &str) = (
    "Each frame has a number of its own, and all 2^64 are used up",
    "start the program anew",
);

/// What to do if a slave's answer is no reply.
const NO_REPLY: &str = "see whether the `mailbox` of its type lies where the device has it";

/// What to do if a slave refused a state.
const REFUSED: &str = "correct what the code names in the slave's type or in what it assigns";

/// What to do if a slave aborted a transfer.
const ABORTED: &str = "correct the PDOs of its type, or `out` and `in` of the slave";

/// What to do if a slave assigns other PDOs.
const ASSIGNED: &str = "give the type the PDOs that the device assigns, in its order";

/// What to do if the frame of a step came back otherwise than it must.
const COUNTER: &str = "see whether a slave was switched off or unplugged, and start again";

/// What to do if a step didn't end.
const TOO_SLOW: &str = "see whether the slave works, and start again";

/// The words if the start-up was given up, and what to do.
const LOST: (&str, &str) = (
    "A frame of the start-up was lost, or its socket was faulty, so it was given up",
    "see that the segment answers, and start again",
);

/// The words for a fault of a wire in a cycle, and what to do.
const FAULTY_WIRE: (&str, &str) = (
    "A socket took or gave no frame in a cycle, so nothing of that cycle was taken",
    "see that the segment answers and that nothing else uses its port, and try again",
);

/// What an object of a mapping must hold by the table: at subindex 0 the number of entries, else an entry. It is printed in words.
#[derive(Clone, Copy)]
struct Mapped<'t> {
    entries: &'t [Entry],
    subindex: u8,
}

/// What an assignment must hold by the table: at subindex 0 the number of PDOs, else one of them. It is printed in words.
#[derive(Clone, Copy)]
struct Assigned<'t> {
    indices: &'t [u16],
    subindex: u8,
}

/// Adds remarks on why a start-up of a table failed.
pub fn explain_start_error(diagnosis: &mut Diagnosis<'_>, table: &Table, error: StartError) {
    let fault = StartFault::new(table, error);
    match error {
        StartError::BadMailbox { slave } => explain_slave(diagnosis, slave, fault, NO_REPLY),
        StartError::Identity { slave, seen } => {
            explain_identity(diagnosis, SlaveAt::new(table, slave), seen, fault);
        }
        StartError::AlError { slave, .. } => explain_slave(diagnosis, slave, fault, REFUSED),
        StartError::Abort { slave, .. } => explain_slave(diagnosis, slave, fault, ABORTED),
        StartError::Mapping {
            slave,
            index,
            subindex,
            seen,
        } => {
            let at = SlaveAt::new(table, slave);
            explain_mapping(diagnosis, at, (index, subindex), seen, fault);
        }
        StartError::Count { seen } => explain_count(diagnosis, table, usize::from(seen), fault),
        StartError::Counter { .. } => explain_step(diagnosis, table, error, COUNTER),
        StartError::TooSlow { .. } => explain_step(diagnosis, table, error, TOO_SLOW),
        StartError::Lost => explain_plain(diagnosis, LOST),
        StartError::NumbersSpent => explain_plain(diagnosis, SPENT),
    }
}

/// Adds remarks on why a cycle couldn't be run.
pub fn explain_cycle_error(diagnosis: &mut Diagnosis<'_>, error: CycleError) {
    explain_plain(
        diagnosis,
        match error {
            CycleError::NotReady => (
                "No start-up of the table has ended ready, so no cycle can begin",
                "bring the slaves up first",
            ),
            CycleError::Open => (
                "A cycle is open already, so no other can begin",
                "close it first",
            ),
            CycleError::NotOpen => ("No cycle is open", "begin one first"),
            CycleError::NumbersSpent => SPENT,
        },
    );
}

/// Adds remarks on a fault of a wire in a cycle.
pub fn explain_wire_fault(diagnosis: &mut Diagnosis<'_>) {
    explain_plain(diagnosis, FAULTY_WIRE);
}

impl fmt::Display for Mapped<'_> {
    fn fmt<W: fmt::Write>(&self, f: &mut fmt::Formatter<W>) -> fmt::Result {
        let Mapped { entries, subindex } = *self;
        if subindex == 0 {
            let count = entries.len();
            return write!(f, "{count}, as many entries as the PDO has,");
        }
        match entries.get(usize::from(subindex) - 1) {
            Some(entry) => {
                let (index, sub, bits) = (entry.index, entry.subindex, entry.bits);
                write!(
                    f,
                    "0x{index:04X}{sub:02X}{bits:02X}, the entry [0x{index:04X}, 0x{sub:02X}, {bits}],"
                )
            }
            None => f.write_str("nothing"),
        }
    }
}

impl fmt::Display for Assigned<'_> {
    fn fmt<W: fmt::Write>(&self, f: &mut fmt::Formatter<W>) -> fmt::Result {
        let Assigned { indices, subindex } = *self;
        if subindex == 0 {
            return write!(f, "{}", Counted(indices.len(), "PDO"));
        }
        match indices.get(usize::from(subindex) - 1) {
            Some(index) => write!(f, "the PDO 0x{index:04X}"),
            None => f.write_str("nothing"),
        }
    }
}

/// Adds a remark that has no place, and what to do.
fn explain_plain(diagnosis: &mut Diagnosis<'_>, (words, advice): (&str, &str)) {
    diagnosis.note(words);
    diagnosis.advise(advice);
}

/// Adds remarks on what a start-up failed by at a slave, and on what to do.
fn explain_slave(
    diagnosis: &mut Diagnosis<'_>,
    slave: usize,
    fault: StartFault<'_>,
    advice: &'static str,
) {
    at_slave(diagnosis, slave, fault);
    diagnosis.advise(fault.advice_or(advice));
}

/// Adds a remark on what a start-up failed by at a slave.
fn at_slave(diagnosis: &mut Diagnosis<'_>, slave: usize, fault: StartFault<'_>) {
    diagnosis.at_row("slave", slave, fault);
}

/// Adds remarks on an object of a slave's mapping, with its index and subindex, that has another value than in its type.
fn explain_mapping(
    diagnosis: &mut Diagnosis<'_>,
    at: SlaveAt<'_>,
    object: (u16, u8),
    seen: u32,
    fault: StartFault<'_>,
) {
    let (index, subindex) = object;
    at_slave(diagnosis, at.place, fault);
    if is_assignment(index) {
        at_assignment(diagnosis, at, index, subindex);
        return diagnosis.advise(fault.advice_or(ASSIGNED));
    }
    at_pdo(diagnosis, at, index, subindex);
    if subindex == 0 {
        return diagnosis.advise("give the PDO of the type the entries that the device has");
    }
    let (object, sub, bits) = (seen / 65536, seen / 256 % 256, seen % 256);
    diagnosis.advise(format_args!(
        "correct the PDO of the type: what the device has is the entry [0x{object:04X}, 0x{sub:02X}, {bits}]"
    ));
    if at.table.is_hardware() {
        diagnosis.advise("if the device lets its mapping be written, write it by `init`");
    }
}

/// Adds a remark on what a slave's fixed assignment must have at a subindex, and marks what the slave assigns.
fn at_assignment(diagnosis: &mut Diagnosis<'_>, at: SlaveAt<'_>, index: u16, subindex: u8) {
    let Some(row) = at.table.slaves().get(at.place) else {
        return;
    };
    let (direction, key) = if index == OUTPUT_ASSIGNMENT {
        (Direction::Out, "out")
    } else {
        (Direction::In, "in")
    };
    let wanted = Assigned {
        indices: row.assigned(direction),
        subindex,
    };
    diagnosis.at_key(
        "slave",
        at.place,
        key,
        format_args!("the table has {wanted} there"),
    );
}

/// Adds a remark on what the PDO of a slave's type has at a subindex, and marks the PDO.
fn at_pdo(diagnosis: &mut Diagnosis<'_>, at: SlaveAt<'_>, index: u16, subindex: u8) {
    let Some((place, kind)) = at.kind() else {
        return;
    };
    let (direction, key) = if index < FIRST_INPUT_INDEX {
        (Direction::Out, "rxpdo")
    } else {
        (Direction::In, "txpdo")
    };
    for (item, pdo) in kind.pdos(direction).iter().enumerate() {
        if pdo.index == index {
            let wanted = Mapped {
                entries: pdo.entries.as_slice(),
                subindex,
            };
            let name = kind.name.as_str();
            let path = [
                PathStep::Key("type"),
                PathStep::Item(place),
                PathStep::Key(key),
                PathStep::Item(item),
            ];
            diagnosis.at(
                &path,
                MarkedPart::Key,
                format_args!("its type {name} has {wanted} there"),
            );
        }
    }
}

/// Adds remarks on a step that failed, if the table has a plan with it, and on what to do.
fn explain_step(
    diagnosis: &mut Diagnosis<'_>,
    table: &Table,
    error: StartError,
    advice: &'static str,
) {
    let Some(fault) = fault_of_step(diagnosis, table, error) else {
        return diagnosis.advise(advice);
    };
    at_step(diagnosis, fault);
    diagnosis.advise(fault.advice_or(advice));
}

/// What a start-up failed by at a step, if the table has a plan.
fn fault_of_step<'t>(
    diagnosis: &mut Diagnosis<'_>,
    table: &'t Table,
    error: StartError,
) -> Option<StartFault<'t>> {
    match compile(diagnosis.alloc, table) {
        Ok(plan) => Some(StartFault::of_plan(table, &plan, error)),
        Err(refusal) => {
            if refusal.number() == 1 {
                diagnosis.fall_short();
            }
            None
        }
    }
}

/// Adds a remark on a step, and marks the slave that it is for; adds none on a step that the plan doesn't have.
fn at_step(diagnosis: &mut Diagnosis<'_>, fault: StartFault<'_>) {
    let Some(found) = fault.step() else {
        return;
    };
    match found.slave() {
        Some(slave) => at_slave(diagnosis, slave, fault),
        None => diagnosis.note(fault),
    }
}

/// Adds remarks on a slave that is another device.
fn explain_identity(
    diagnosis: &mut Diagnosis<'_>,
    at: SlaveAt<'_>,
    seen: Device,
    fault: StartFault<'_>,
) {
    at_slave(diagnosis, at.place, fault);
    if let Some((place, kind)) = at.kind() {
        let (name, wanted) = (kind.name.as_str(), DeviceText(kind.device));
        diagnosis.at_key(
            "type",
            place,
            "name",
            format_args!("its type {name} says {wanted}"),
        );
    }
    match type_of(at.table, seen) {
        Some(kind) => {
            let name = kind.name.as_str();
            diagnosis.advise(format_args!(
                "what it shows is the type {name} of the table: put the slaves into the order in which a frame passes them"
            ));
        }
        None => diagnosis.advise(fault.advice_or(
            "put the slaves into the order in which a frame passes them, or correct vendor, product and revision of the type",
        )),
    }
}

/// The first type of a table with this device.
fn type_of(table: &Table, device: Device) -> Option<&TypeRow> {
    for kind in table.types() {
        if kind.device == device {
            return Some(kind);
        }
    }
    None
}

/// Adds remarks on too few or too many slaves.
fn explain_count(diagnosis: &mut Diagnosis<'_>, table: &Table, seen: usize, fault: StartFault<'_>) {
    if seen < table.slaves().len() {
        let at = SlaveAt::new(table, seen);
        diagnosis.at_row(
            "slave",
            seen,
            format_args!(
                "{fault}: {at} is the first that is missing, if those before it are there"
            ),
        );
        return diagnosis.advise("see whether that slave is switched on and its cable plugged in");
    }
    diagnosis.note(fault);
    diagnosis.advise(
        "add the other slaves to the table, in the order in which a frame passes them",
    );
}

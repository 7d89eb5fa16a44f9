//! The steps of a start-up in words.
use ec_coe::{INPUT_ASSIGNMENT, OUTPUT_ASSIGNMENT, SdoValue};
use ec_diagnostic::Counted;
use ec_link::Plan;
use ec_start::{Action, SdoRequest, SiiAccess, Startup, Transfer, step_at};
use std::fmt;

/// A step of a start-up. It is printed in words.
#[derive(Clone, Copy)]
pub struct Step(Action);

/// A request to a slave. It is printed in words.
#[derive(Clone, Copy)]
pub struct Request(pub SdoRequest);

/// The step with this number of a plan's start-up; `None` behind the last.
pub fn step_of(plan: &Plan, number: usize) -> Option<Step> {
    if !Startup::can_start(plan) {
        return None;
    }
    Some(Step(step_at(plan, number)?))
}

impl Step {
    /// The slave that it is for; none if it is for all slaves.
    pub fn slave(&self) -> Option<usize> {
        self.0.slave()
    }

    /// Its action.
    pub fn action(&self) -> Action {
        self.0
    }

    /// The request that it sends, or whose reply it awaits.
    pub fn request(&self) -> Option<SdoRequest> {
        match self.0 {
            Action::SendRequest { request, .. }
            | Action::AwaitReply { request, .. }
            | Action::AwaitFreeReply { request, .. } => Some(request),
            _ => None,
        }
    }
}

impl fmt::Display for Step {
    fn fmt<W: fmt::Write>(&self, f: &mut fmt::Formatter<W>) -> fmt::Result {
        match self.0 {
            Action::CountSlaves => f.write_str("the slaves are counted"),
            Action::AskInit => f.write_str("all slaves are asked for INIT"),
            Action::AwaitInit => f.write_str("all slaves are awaited in INIT, without an error"),
            Action::ClearFmmus => f.write_str("the FMMUs of all slaves are cleared"),
            Action::ClearManagers => f.write_str("the sync managers of all slaves are cleared"),
            Action::ClearStations => f.write_str("the station addresses of all slaves are cleared"),
            Action::NameSlave { .. } => f.write_str("it is given its station address"),
            Action::AskWord { which, .. } => f.write_str(asked_word(which)),
            Action::AwaitWord { which, .. } => f.write_str(awaited_word(which)),
            Action::SetManager {
                place,
                register,
                ..
            } => {
                let number = register.number;
                write!(f, "sync manager {number}, of {}, is set", role_of(place))
            }
            Action::SetFmmu { number, .. } => f.write_str(set_fmmu(number)),
            Action::AskState { state, .. } => write!(f, "it is asked for {}", state.name()),
            Action::AwaitState { state, .. } => write!(f, "it is awaited in {}", state.name()),
            Action::SendRequest { request, .. } => {
                let request = Request(request);
                write!(f, "a request is written into its mailbox: {request}")
            }
            Action::AwaitReply { request, .. } | Action::AwaitFreeReply { request, .. } => {
                let request = Request(request);
                write!(f, "a reply is awaited in its mailbox: {request}")
            }
            Action::AwaitInitState => {
                f.write_str("all slaves are awaited in INIT, with an error or without")
            }
            Action::ClearAllFmmus => {
                f.write_str("all FMMUs that a slave can have are cleared, of all slaves")
            }
            Action::ClearAllManagers => {
                f.write_str("all sync managers that a slave can have are cleared, of all slaves")
            }
            Action::AssignSii(access) => f.write_str(assigned_sii(access)),
            Action::ClearSiiError => f.write_str("the SII errors of all slaves are cleared"),
            Action::AwaitCleanInit { .. } => f.write_str("it is awaited in INIT, without an error"),
            Action::FeedPart(_) => f.write_str("a part of the process data is fed with zeros"),
        }
    }
}

impl fmt::Display for Request {
    fn fmt<W: fmt::Write>(&self, f: &mut fmt::Formatter<W>) -> fmt::Result {
        let SdoRequest {
            index,
            subindex,
            transfer,
        } = self.0;
        match transfer {
            Transfer::Upload(_) => {
                let what = uploaded(index, subindex);
                write!(f, "the upload of 0x{index:04X}:0x{subindex:02X}, {what}")
            }
            Transfer::Download(value) if is_assignment(index) => {
                write_assigned(f, index, subindex, value)
            }
            Transfer::Download(value) => {
                let number = value.number;
                write!(
                    f,
                    "the download of the parameter 0x{number:X} into 0x{index:04X}:0x{subindex:02X}"
                )
            }
        }
    }
}

/// Whether an object says which PDOs a slave assigns.
pub fn is_assignment(index: u16) -> bool {
    index == OUTPUT_ASSIGNMENT || index == INPUT_ASSIGNMENT
}

/// What an object has at a subindex that is uploaded.
fn uploaded(index: u16, subindex: u8) -> &'static str {
    match (is_assignment(index), subindex) {
        (false, 0) => "how many entries the PDO has",
        (false, _) => "an entry of the PDO",
        (true, 0) => "how many PDOs are assigned",
        (true, _) => "a PDO that is assigned",
    }
}

/// Writes what a download to an assignment does.
fn write_assigned<W: fmt::Write>(
    f: &mut fmt::Formatter<W>,
    index: u16,
    subindex: u8,
    value: SdoValue,
) -> fmt::Result {
    let pdo = value.number;
    if subindex > 0 {
        return write!(
            f,
            "the download of PDO 0x{pdo:04X} into 0x{index:04X}:0x{subindex:02X}"
        );
    }
    if pdo == 0 {
        return write!(
            f,
            "the download of 0 into 0x{index:04X}:0x00, before the PDOs are assigned"
        );
    }
    let count = Counted(pdo as usize, "PDO");
    write!(
        f,
        "the download of the count into 0x{index:04X}:0x00, {count}"
    )
}

/// The words for the step that asks for a word of the identity, by its number.
fn asked_word(which: usize) -> &'static str {
    match which {
        0 => "its vendor is asked for, a word of its SII",
        1 => "its product is asked for, a word of its SII",
        _ => "its revision is asked for, a word of its SII",
    }
}

/// The words for the step that awaits a word of the identity, by its number.
fn awaited_word(which: usize) -> &'static str {
    match which {
        0 => "its vendor is awaited, a word of its SII",
        1 => "its product is awaited, a word of its SII",
        _ => "its revision is awaited, a word of its SII",
    }
}

/// The words for who gets the SII.
fn assigned_sii(access: SiiAccess) -> &'static str {
    match access {
        SiiAccess::Forced => "the SII of each slave is taken from its device",
        SiiAccess::Master => "the SII of each slave is the master's",
        SiiAccess::Device => "the SII of each slave is given back to its device",
    }
}

/// What a sync manager is for, by its place in the plan.
fn role_of(place: usize) -> &'static str {
    match place {
        0 => "its receive mailbox",
        1 => "its send mailbox",
        2 => "the outputs",
        _ => "the inputs",
    }
}

/// The words for the step that sets an FMMU, by its number.
fn set_fmmu(number: usize) -> &'static str {
    match number {
        0 => "FMMU 0, of the outputs, is set",
        _ => "FMMU 1, of the inputs, is set",
    }
}

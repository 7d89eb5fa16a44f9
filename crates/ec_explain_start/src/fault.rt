//! What a start-up failed by, as a sentence.
use crate::cause::{Cause, Known, cause_of};
use crate::steps::{Request, Step, step_of};
use ec_al::StatusCode;
use ec_coe::AbortCode;
use ec_device::{Device, Parameter};
use ec_diagnostic::Counted;
use ec_link::Plan;
use ec_start::{Heard, SdoRequest, StartError, Startup, Transfer};
use ec_table::{Table, TypeRow};
use std::fmt;

/// The words for a step whose frame came back otherwise than it must.
const COUNTER: &str = "its frame came back with another working counter than it must have";

/// The words for a step that didn't end.
const TOO_SLOW: &str = "it wasn't over after 1000 polls";

/// The words for a code that the standard doesn't have.
const OTHER_CODE: &str = "a code that the standard or the vendor explains";

/// What a start-up of a table failed by. It is printed as a sentence, with the names of slaves, a step in words, and devices,
/// objects and codes in hex.
#[derive(Clone, Copy)]
pub struct StartFault<'t> {
    table: &'t Table,
    error: StartError,
    /// The step at which it failed, if it was looked up.
    step: Option<Step>,
    /// The message that was set aside last.
    heard: Option<Heard>,
}

/// The place of a slave in a table, which may not have it. It is printed as `slave`, its place and its name.
#[derive(Clone, Copy)]
pub struct SlaveAt<'t> {
    pub table: &'t Table,
    pub place: usize,
}

/// A device, printed with the names of its numbers.
#[derive(Clone, Copy)]
pub struct DeviceText(pub Device);

impl<'t> StartFault<'t> {
    /// What a start-up of a table's plan failed by.
    pub fn of_plan(table: &'t Table, plan: &Plan, error: StartError) -> StartFault<'t> {
        let step = match error {
            StartError::Counter { step } | StartError::TooSlow { step } => step_of(plan, step),
            _ => None,
        };
        StartFault {
            table,
            error,
            step,
            heard: None,
        }
    }

    /// What a start-up of a table's plan has failed by, at which step, and what a slave said before.
    pub fn of_startup(
        table: &'t Table,
        plan: &Plan,
        startup: &Startup<'_>,
        error: StartError,
    ) -> StartFault<'t> {
        StartFault {
            table,
            error,
            step: step_of(plan, startup.place()),
            heard: startup.heard(),
        }
    }

    /// As [`StartFault::of_plan`], for an error that names no step.
    pub fn new(table: &'t Table, error: StartError) -> StartFault<'t> {
        StartFault {
            table,
            error,
            step: None,
            heard: None,
        }
    }

    /// The step at which it failed, if it was looked up and found.
    pub fn step(&self) -> Option<Step> {
        self.step
    }

    /// The request at which it failed, if that is known.
    fn request(&self) -> Option<SdoRequest> {
        self.step?.request()
    }

    /// Whether the slave that aborted a transfer has parameters.
    fn has_parameters(&self) -> bool {
        let StartError::Abort { slave, .. } = self.error else {
            return false;
        };
        let at = SlaveAt::new(self.table, slave);
        match (at.kind(), self.table.slaves().get(slave)) {
            (Some((_, kind)), Some(row)) => {
                !kind.init.as_slice().is_empty() || !row.init.as_slice().is_empty()
            }
            _ => false,
        }
    }

    /// The likely cause, if anything suggests one.
    pub fn cause(&self) -> Option<Cause> {
        let known = Known {
            hardware: self.table.is_hardware(),
            has_parameters: self.has_parameters(),
            step: self.step,
        };
        cause_of(self.error, known)
    }

    /// What to do, if the likely cause says it, and else this.
    pub fn advice_or(&self, advice: &'static str) -> &'static str {
        match self.cause() {
            Some(cause) => cause.advice,
            None => advice,
        }
    }

    /// Writes which step it is, and what went wrong there.
    fn write_step<W: fmt::Write>(
        &self,
        f: &mut fmt::Formatter<W>,
        number: usize,
        what: &str,
    ) -> fmt::Result {
        let Some(step) = self.step else {
            return write!(f, "step {number}: {what}");
        };
        match step.slave() {
            Some(place) => {
                let at = SlaveAt::new(self.table, place);
                write!(f, "step {number} is for {at}: {step}; {what}")
            }
            None => write!(f, "step {number} is for all slaves: {step}; {what}"),
        }
    }
}

impl<'t> SlaveAt<'t> {
    pub fn new(table: &'t Table, place: usize) -> SlaveAt<'t> {
        SlaveAt { table, place }
    }

    /// Its type, and the place of its type.
    pub fn kind(&self) -> Option<(usize, &'t TypeRow)> {
        let place = self.table.slaves().get(self.place)?.type_index;
        Some((place, self.table.types().get(place)?))
    }
}

impl fmt::Display for StartFault<'_> {
    fn fmt<W: fmt::Write>(&self, f: &mut fmt::Formatter<W>) -> fmt::Result {
        self.write_error(f)?;
        if self.table.is_hardware() {
            self.write_request(f)?;
            self.write_heard(f)?;
        }
        match self.cause() {
            Some(cause) => write!(f, "; {}", cause.words),
            None => Ok(()),
        }
    }
}

impl StartFault<'_> {
    /// Writes what went wrong, and at which slave or step.
    fn write_error<W: fmt::Write>(&self, f: &mut fmt::Formatter<W>) -> fmt::Result {
        let table = self.table;
        match self.error {
            StartError::BadMailbox { slave } => {
                let at = SlaveAt::new(table, slave);
                write!(
                    f,
                    "{at} answered a request with something that is no reply to it"
                )
            }
            StartError::Count { seen } => {
                let (there, wanted) = (Counted(usize::from(seen), "slave"), table.slaves().len());
                write!(f, "{there} answered, and the table has {wanted}")
            }
            StartError::Identity { slave, seen } => {
                let (at, shown) = (SlaveAt::new(table, slave), DeviceText(seen));
                write!(f, "{at} shows {shown}; what couldn't be read is 0")
            }
            StartError::Counter { step } => self.write_step(f, step, COUNTER),
            StartError::AlError { slave, code } => {
                let (at, text) = (SlaveAt::new(table, slave), status_meaning(code));
                write!(
                    f,
                    "{at} refused a state, AL status code 0x{code:04X}: {text}"
                )
            }
            StartError::Abort { slave, code } => {
                let (at, text) = (SlaveAt::new(table, slave), abort_meaning(code));
                write!(f, "{at} aborted an SDO transfer, code 0x{code:08X}: {text}")
            }
            StartError::TooSlow { step } => self.write_step(f, step, TOO_SLOW),
            StartError::Lost | StartError::NumbersSpent => write!(f, "{}", self.error),
            StartError::Mapping {
                slave,
                index,
                subindex,
                seen,
            } => {
                let at = SlaveAt::new(table, slave);
                write!(
                    f,
                    "{at} has 0x{seen:X} in its object 0x{index:04X}:0x{subindex:02X}"
                )
            }
        }
    }
}

impl StartFault<'_> {
    /// Writes which request the slave refused or answered otherwise: its row of `init`, or the value that the table has.
    fn write_request<W: fmt::Write>(&self, f: &mut fmt::Formatter<W>) -> fmt::Result {
        let slave = match self.error {
            StartError::BadMailbox { slave }
            | StartError::Abort { slave, .. }
            | StartError::Mapping { slave, .. } => slave,
            _ => return Ok(()),
        };
        let Some(request) = self.request() else {
            return Ok(());
        };
        write!(f, "; it was {}", Request(request))?;
        if let Transfer::Upload(wanted) = request.transfer {
            return write!(f, ", and the table has 0x{:X} there", wanted.number);
        }
        match row_of(SlaveAt::new(self.table, slave), &request) {
            Some((owner, row)) => write!(f, ", row {row} of `init` of {owner}"),
            None => Ok(()),
        }
    }

    /// Writes what a slave said of itself in place of a reply.
    fn write_heard<W: fmt::Write>(&self, f: &mut fmt::Formatter<W>) -> fmt::Result {
        let Some(Heard { slave, emergency }) = self.heard else {
            return Ok(());
        };
        let at = SlaveAt::new(self.table, slave);
        match emergency {
            Some(emergency) => {
                let (code, register) = (emergency.code, emergency.register);
                write!(
                    f,
                    "; {at} sent an emergency, error code 0x{code:04X}, error register 0x{register:02X}"
                )
            }
            None => write!(f, "; {at} sent a message of another protocol"),
        }
    }
}

/// The row of `init` that a request writes, counted from 1, and whose it is.
fn row_of(at: SlaveAt<'_>, request: &SdoRequest) -> Option<(&'static str, usize)> {
    let (_, kind) = at.kind()?;
    if let Some(row) = row_in(kind.init.as_slice(), request) {
        return Some(("its type", row));
    }
    let slave = at.table.slaves().get(at.place)?;
    Some(("the slave", row_in(slave.init.as_slice(), request)?))
}

/// The first row, counted from 1, that a request writes.
fn row_in(parameters: &[Parameter], request: &SdoRequest) -> Option<usize> {
    let place = parameters
        .iter()
        .position(|parameter| is_written(parameter, request))?;
    Some(place.saturating_add(1))
}

/// Whether a request writes a parameter.
fn is_written(parameter: &Parameter, request: &SdoRequest) -> bool {
    match request.transfer {
        Transfer::Download(value) => {
            parameter.is_of(request.index, request.subindex) && parameter.value == value.number
        }
        Transfer::Upload(_) => false,
    }
}

impl fmt::Display for SlaveAt<'_> {
    fn fmt<W: fmt::Write>(&self, f: &mut fmt::Formatter<W>) -> fmt::Result {
        let SlaveAt { table, place } = *self;
        let name = match table.slaves().get(place) {
            Some(row) => row.name.as_str(),
            None => "",
        };
        write!(f, "slave {place} {name}")
    }
}

impl fmt::Display for DeviceText {
    fn fmt<W: fmt::Write>(&self, f: &mut fmt::Formatter<W>) -> fmt::Result {
        let Device {
            vendor,
            product,
            revision,
        } = self.0;
        write!(
            f,
            "vendor 0x{vendor:08X}, product 0x{product:08X}, revision 0x{revision:08X}"
        )
    }
}

/// What a slave means by an AL status code (ETG.1000.6, "AL status code").
pub fn status_meaning(code: u16) -> &'static str {
    match StatusCode::text(code) {
        Some(text) => text.meaning,
        None => OTHER_CODE,
    }
}

/// What a slave means by the abort code of an SDO transfer (ETG.1000.6, "Abort SDO transfer").
pub fn abort_meaning(code: u32) -> &'static str {
    match AbortCode::text(code) {
        Some(text) => text.meaning,
        None => OTHER_CODE,
    }
}

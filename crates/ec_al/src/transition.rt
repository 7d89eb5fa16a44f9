//! Which state a request enters.
ghost use Rattle.std.specs.Prelude.{◌≡◌};
ghost use Rattle.ec_al.specs.Transitions.{requested_by, answer};

use crate::state::State;
use crate::status_code::StatusCode;
use ec_regs::AlWord;

/// What bits 0 to 3 of an AL control word ask for.
#[derive(Clone, Copy, Debug, PartialEq, Eq)]
pub enum Requested {
    /// A state.
    To(State),
    /// BOOT, number 3.
    Bootstrap,
    /// A number that is no state.
    Unknown,
}

impl Requested {
    /// What a control word asks for.
    pub fn of(control: u16) -> Self
        ensures { result ≡ requested_by control }
    {
        match AlWord(control).state() {
            1 => Requested::To(State::Init),
            2 => Requested::To(State::PreOp),
            3 => Requested::Bootstrap,
            4 => Requested::To(State::SafeOp),
            8 => Requested::To(State::Op),
            _ => Requested::Unknown,
        }
    }
}

/// Which parts of a slave's configuration are as its type and its assignment need them.
#[derive(Clone, Copy, Debug, PartialEq, Eq)]
pub struct Checks {
    /// The mailbox sync managers, 0 and 1, which PREOP needs.
    pub mailbox: bool,
    /// The output sync manager, 2, which SAFEOP needs.
    pub outputs: bool,
    /// The input sync manager, 3, which SAFEOP needs.
    pub inputs: bool,
}

impl State {
    /// The state that a request in this state enters, or why none is.
    ///
    /// # Errors
    ///
    /// The first that holds. `UnknownState` for a number that is no state. For BOOT `BootstrapNotSupported` in INIT, and
    /// `InvalidStateChange` in any other state. From INIT to PREOP `InvalidMailboxConfiguration` if the mailbox sync
    /// managers aren't as needed. From PREOP to SAFEOP `InvalidOutputConfiguration` if the output sync manager isn't, and
    /// then `InvalidInputConfiguration` if the input sync manager isn't. `InvalidStateChange` for a state above the next
    /// one.
    pub fn answer(self, requested: Requested, checks: Checks) -> Result<State, StatusCode>
        ensures { result ≡ answer self requested checks }
    {
        match (self, requested) {
            (_, Requested::Unknown) => Err(StatusCode::UnknownState),
            (State::Init, Requested::Bootstrap) => Err(StatusCode::BootstrapNotSupported),
            (_, Requested::Bootstrap) => Err(StatusCode::InvalidStateChange),
            (State::Init, Requested::To(State::PreOp)) if !checks.mailbox => {
                Err(StatusCode::InvalidMailboxConfiguration)
            }
            (State::Init, Requested::To(State::PreOp)) => Ok(State::PreOp),
            (State::PreOp, Requested::To(State::SafeOp)) if !checks.outputs => {
                Err(StatusCode::InvalidOutputConfiguration)
            }
            (State::PreOp, Requested::To(State::SafeOp)) if !checks.inputs => {
                Err(StatusCode::InvalidInputConfiguration)
            }
            (State::PreOp, Requested::To(State::SafeOp)) => Ok(State::SafeOp),
            (State::SafeOp, Requested::To(State::Op)) => Ok(State::Op),
            (_, Requested::To(wanted)) if wanted.number() <= self.number() => Ok(wanted),
            _ => Err(StatusCode::InvalidStateChange),
        }
    }
}

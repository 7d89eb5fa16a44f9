//! The AL states.
ghost use Rattle.std.specs.Prelude.{◌≡◌};
ghost use Rattle.ec_al.specs.States.{IsStateOf, state_name, state_named, state_number};

/// A state of a slave, with its number in the AL control and AL status words. BOOT, 3, is never entered.
#[derive(Clone, Copy, Debug, PartialEq, Eq)]
pub enum State {
    /// No mailbox and no process data.
    Init = 1,
    /// The mailbox works.
    PreOp = 2,
    /// The mailbox works, and inputs are valid.
    SafeOp = 4,
    /// Mailbox, inputs and outputs work.
    Op = 8,
}

impl State {
    /// The state with this number in bits 0 to 3 of an AL word; `None` if there is none, as for BOOT.
    pub fn from_number(number: u8) -> Option<State>
        ensures { IsStateOf number result }
    {
        match number {
            1 => Some(State::Init),
            2 => Some(State::PreOp),
            4 => Some(State::SafeOp),
            8 => Some(State::Op),
            _ => None,
        }
    }

    /// The state with this name; `None` if there is none.
    #[tactic(auto, unfolding(crate::specs::States::state_named))]
    pub fn from_name(name: &str) -> Option<State>
        ensures { result ≡ state_named name.now }
    {
        match name {
            "INIT" => Some(State::Init),
            "PREOP" => Some(State::PreOp),
            "SAFEOP" => Some(State::SafeOp),
            "OP" => Some(State::Op),
            _ => None,
        }
    }

    /// The standard's name: `INIT`, `PREOP`, `SAFEOP` or `OP`.
    pub fn name(self) -> &'static str
        ensures { result.now ≡ state_name self }
    {
        match self {
            State::Init => "INIT",
            State::PreOp => "PREOP",
            State::SafeOp => "SAFEOP",
            State::Op => "OP",
        }
    }

    /// The number in bits 0 to 3 of the AL control and AL status words.
    pub fn number(self) -> u16
        ensures { result ≡ state_number self }
    {
        self as u16
    }
}

//! The AL status codes.
ghost use Rattle.std.specs.Prelude.{◌≡◌};
ghost use Rattle.ec_al.specs.States.{code_number};

/// Why a slave shows an error: the AL status codes that this slave gives (ETG.1000.6, "AL status code").
#[derive(Clone, Copy, Debug, PartialEq, Eq)]
pub enum StatusCode {
    /// The application had a fault.
    Unspecified = 0x0001,
    /// No transition leads from the state to the requested one.
    InvalidStateChange = 0x0011,
    /// The requested number is no state.
    UnknownState = 0x0012,
    /// BOOT was requested in INIT.
    BootstrapNotSupported = 0x0013,
    /// The mailbox sync managers aren't set as the slave needs them.
    InvalidMailboxConfiguration = 0x0016,
    /// The output sync manager doesn't fit the assigned outputs.
    InvalidOutputConfiguration = 0x001D,
    /// The input sync manager doesn't fit the assigned inputs.
    InvalidInputConfiguration = 0x001E,
}

impl StatusCode {
    /// The number in the AL status code register.
    pub fn number(self) -> u16
        ensures { result ≡ code_number self }
    {
        self as u16
    }
}

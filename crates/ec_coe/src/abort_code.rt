//! The abort codes of an SDO transfer.
ghost use Rattle.std.specs.Prelude.{◌≡◌};
ghost use Rattle.ec_coe.specs.Transfers.{abort_number};

/// Why a slave aborts a transfer: the abort codes that these slaves give (ETG.1000.6, "Abort SDO transfer").
#[derive(Clone, Copy, Debug, PartialEq, Eq, Drop)]
pub enum AbortCode {
    /// The command is none that the slave has.
    InvalidCommand,
    /// A download to an object that can only be read.
    ReadOnly,
    /// There is no object with the index.
    NoObject,
    /// The length isn't that of the value.
    WrongLength,
    /// The object has no such subindex.
    NoSubindex,
    /// The value isn't one that the object takes.
    InvalidValue,
    /// The object takes no download in this state of the slave, or as it stands now.
    WrongState,
}

impl AbortCode {
    /// The number in the data of an abort.
    pub fn number(self) -> u32
        ensures { result ≡ abort_number self }
    {
        match self {
            AbortCode::InvalidCommand => 0x0504_0001,
            AbortCode::ReadOnly => 0x0601_0002,
            AbortCode::NoObject => 0x0602_0000,
            AbortCode::WrongLength => 0x0607_0010,
            AbortCode::NoSubindex => 0x0609_0011,
            AbortCode::InvalidValue => 0x0609_0030,
            AbortCode::WrongState => 0x0800_0022,
        }
    }
}

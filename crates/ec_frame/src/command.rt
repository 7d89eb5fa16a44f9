//! The commands of datagrams.
ghost use Rattle.std.specs.Prelude.{◌≡◌, ◌<◌, IfSome, IfNone};
ghost use Rattle.ec_frame.specs.declared.command.Command.{Command};
ghost use Rattle.ec_frame.specs.Commands.{number_of};

/// What a datagram asks of the slaves that it passes (ETG.1000.4, "Commands"), with the number of
/// each on the wire.
#[derive(Clone, Copy, Debug, PartialEq, Eq, Drop)]
pub enum Command {
    /// No operation.
    Nop = 0,
    /// Auto increment physical read.
    Aprd = 1,
    /// Auto increment physical write.
    Apwr = 2,
    /// Auto increment physical read write.
    Aprw = 3,
    /// Configured address physical read.
    Fprd = 4,
    /// Configured address physical write.
    Fpwr = 5,
    /// Configured address physical read write.
    Fprw = 6,
    /// Broadcast read.
    Brd = 7,
    /// Broadcast write.
    Bwr = 8,
    /// Broadcast read write.
    Brw = 9,
    /// Logical memory read.
    Lrd = 10,
    /// Logical memory write.
    Lwr = 11,
    /// Logical memory read write.
    Lrw = 12,
    /// Auto increment physical read multiple write.
    Armw = 13,
    /// Configured address physical read multiple write.
    Frmw = 14,
}

impl Command {
    /// The command that a number on the wire stands for; none over 14.
    pub fn from_number(number: u8) -> Option<Command>
        ensures found { IfSome result (λ command. number ≡ number_of command) }
        ensures unknown { IfNone result (14 < number) }
        ensures again { (command : Command) → number ≡ number_of command → result ≡ Some command }
    {
        Some(match number {
            0 => Command::Nop,
            1 => Command::Aprd,
            2 => Command::Apwr,
            3 => Command::Aprw,
            4 => Command::Fprd,
            5 => Command::Fpwr,
            6 => Command::Fprw,
            7 => Command::Brd,
            8 => Command::Bwr,
            9 => Command::Brw,
            10 => Command::Lrd,
            11 => Command::Lwr,
            12 => Command::Lrw,
            13 => Command::Armw,
            14 => Command::Frmw,
            _ => return None,
        })
    }

    /// Its number on the wire.
    pub fn number(self) -> u8
        ensures { result ≡ number_of self }
    {
        self as u8
    }
}

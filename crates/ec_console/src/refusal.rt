//! The refusals of all commands.
ghost use Rattle.std.specs.Prelude.{◌≡◌};
ghost use Rattle.ec_console.specs.Unmet.{ended_by};

use ec_frame::FrameError;
use ec_lines::LinesError;
use ec_link::LinkError;
use ec_script::ScriptError;
use ec_start::StartError;
use ec_table::TableError;
use ec_text::{Refused, Values, listed, refusal_text};
use ec_wire::{RunError, SocketFault, Trouble};
use std::alloc::{AllocError, AllocFailed};
use std::error::Error;
use std::fmt;

/// Why a command was refused. Its text is its number, its name and its values in decimal, with blanks
/// between.
#[derive(Clone, Copy, Debug, PartialEq, Eq, Drop)]
pub enum Refusal {
    /// Memory was refused; what was asked for may be good or bad.
    Memory,
    /// A payload that is no frame. One of more than 1472 bytes is `TooLong` too.
    Frame(FrameError),
    /// A text that is no link table, with the section and the place of its first fault.
    Table(TableError),
    /// A link table without a plan, with the place of its first fault, or how many there are.
    Link(LinkError),
    /// A start-up that failed, with what was seen.
    Start(StartError),
    /// A cycle that took nothing.
    Run(RunError),
    /// A socket couldn't be opened, or a call on it was a fault: what the system said.
    Socket(Trouble),
    /// A script with a bad line, with the number of the first one.
    Script(ScriptError),
    /// A text that isn't pairs of hex digits.
    BadHex,
    /// The output, or the file of a capture, couldn't be written.
    Output,
    /// The input couldn't be read, isn't text, or is too long.
    Input,
    /// How often what a script expects wasn't so.
    Unmet(u64),
    /// The first slave that a scan found of which a link table can't say all.
    Unsaid(usize),
}

impl Refused for Refusal {
    ghost use Rattle.ec_console.specs.Refusals.{refusal_row};

    ghost row_of = { refusal_row };

    fn number(&self) -> u8 {
        match self {
            Refusal::Memory => 1,
            Refusal::Frame(error) => Refused::number(error),
            Refusal::Table(error) => Refused::number(error),
            Refusal::Link(error) => Refused::number(error),
            Refusal::Start(error) => Refused::number(error),
            Refusal::Run(error) => error.number(),
            Refusal::Socket(trouble) => SocketFault(*trouble).number(),
            Refusal::Script(error) => Refused::number(error),
            Refusal::BadHex => 40,
            Refusal::Output => 41,
            Refusal::Input => 42,
            Refusal::Unmet(_) => 45,
            Refusal::Unsaid(_) => 46,
        }
    }

    #[tactic(auto, using(crate::proofs::RefusalNames::short_run))]
    fn name(&self) -> &'static str {
        match self {
            Refusal::Memory => "Memory",
            Refusal::Frame(error) => Refused::name(error),
            Refusal::Table(error) => Refused::name(error),
            Refusal::Link(error) => Refused::name(error),
            Refusal::Start(error) => Refused::name(error),
            Refusal::Run(error) => error.name(),
            Refusal::Socket(trouble) => SocketFault(*trouble).name(),
            Refusal::Script(error) => Refused::name(error),
            Refusal::BadHex => "BadHex",
            Refusal::Output => "Output",
            Refusal::Input => "Input",
            Refusal::Unmet(_) => "Unmet",
            Refusal::Unsaid(_) => "Unsaid",
        }
    }

    fn values(&self) -> Values {
        match self {
            Refusal::Frame(error) => Refused::values(error),
            Refusal::Table(error) => Refused::values(error),
            Refusal::Link(error) => Refused::values(error),
            Refusal::Start(error) => Refused::values(error),
            Refusal::Script(error) => Refused::values(error),
            Refusal::Unmet(count) => listed(&[*count]),
            Refusal::Unsaid(slave) => listed(&[*slave as u64]),
            Refusal::Memory
            | Refusal::Run(_)
            | Refusal::Socket(_)
            | Refusal::BadHex
            | Refusal::Output
            | Refusal::Input => Values::new(),
        }
    }
}

impl Refusal {
    ghost use Rattle.std.specs.Prelude.{◌≡◌};
    ghost use Rattle.ec_console.specs.Refusals.{status_of};

    /// The exit status of the program. It is 4 for a fault of a wire, the output, the input or a socket, 5 for
    /// unmet expectations, else 3.
    pub fn status(&self) -> u8
        ensures { result ≡ status_of self.now }
    {
        match self.number() {
            37 | 41 | 42 | 43 => 4,
            45 => 5,
            _ => 3,
        }
    }
}

/// Returns how a run ends in which `unmet` expectations weren't met: by `Refusal::Unmet` with that number, unless it is 0.
pub fn end_of(unmet: u64) -> Result<(), Refusal>
    ensures { result ≡ ended_by unmet }
{
    if unmet == 0 {
        Ok(())
    } else {
        Err(Refusal::Unmet(unmet))
    }
}

impl fmt::Display for Refusal {
    ghost use Rattle.std.specs.Prelude.{Some};
    ghost use Rattle.ec_console.specs.Refusals.{text_of};

    ghost output = { λ refusal. Some (text_of refusal) };

    fn fmt<W: fmt::Write>(&self, f: &mut fmt::Formatter<W>) -> fmt::Result {
        f.write_str(refusal_text(self).as_str())
    }
}

impl Error for Refusal {}

impl From<FrameError> for Refusal {
    ghost use Rattle.std.specs.Prelude.{◌≡◌};
    ghost use Rattle.ec_console.specs.declared.refusal.Refusal.TheVariants.{Frame};

    ghost from_gives = { λ error refusal. refusal ≡ Frame error };

    fn from(error: FrameError) -> Refusal {
        Self::Frame(error)
    }
}

impl From<TableError> for Refusal {
    ghost use Rattle.std.specs.Prelude.{◌≡◌};
    ghost use Rattle.ec_console.specs.declared.refusal.Refusal.TheVariants.{Table};

    ghost from_gives = { λ error refusal. refusal ≡ Table error };

    fn from(error: TableError) -> Refusal {
        Self::Table(error)
    }
}

impl From<LinkError> for Refusal {
    ghost use Rattle.std.specs.Prelude.{◌≡◌};
    ghost use Rattle.ec_console.specs.declared.refusal.Refusal.TheVariants.{Link};

    ghost from_gives = { λ error refusal. refusal ≡ Link error };

    fn from(error: LinkError) -> Refusal {
        Self::Link(error)
    }
}

impl From<StartError> for Refusal {
    ghost use Rattle.std.specs.Prelude.{◌≡◌};
    ghost use Rattle.ec_console.specs.declared.refusal.Refusal.TheVariants.{Start};

    ghost from_gives = { λ error refusal. refusal ≡ Start error };

    fn from(error: StartError) -> Refusal {
        Self::Start(error)
    }
}

impl From<RunError> for Refusal {
    ghost use Rattle.std.specs.Prelude.{◌≡◌};
    ghost use Rattle.ec_console.specs.declared.refusal.Refusal.TheVariants.{Run};

    ghost from_gives = { λ error refusal. refusal ≡ Run error };

    fn from(error: RunError) -> Refusal {
        Self::Run(error)
    }
}

impl From<LinesError> for Refusal {
    ghost use Rattle.std.specs.Prelude.{◌≡◌};
    ghost use Rattle.ec_console.specs.Given.{lines_refusal};

    ghost from_gives = { λ error refusal. refusal ≡ lines_refusal error };

    fn from(error: LinesError) -> Refusal {
        match error {
            LinesError::Memory => Refusal::Memory,
            LinesError::Unread | LinesError::TooLong | LinesError::NoText => Refusal::Input,
        }
    }
}

impl From<SocketFault> for Refusal {
    ghost use Rattle.std.specs.Prelude.{◌≡◌};
    ghost use Rattle.ec_console.specs.declared.refusal.Refusal.TheVariants.{Socket};

    ghost from_gives = { λ fault refusal. refusal ≡ Socket fault.0 };

    fn from(fault: SocketFault) -> Refusal {
        Self::Socket(fault.0)
    }
}

impl From<ScriptError> for Refusal {
    ghost use Rattle.std.specs.Prelude.{◌≡◌};
    ghost use Rattle.ec_console.specs.declared.refusal.Refusal.TheVariants.{Script};

    ghost from_gives = { λ error refusal. refusal ≡ Script error };

    fn from(error: ScriptError) -> Refusal {
        Self::Script(error)
    }
}

impl From<AllocError> for Refusal {
    ghost use Rattle.std.specs.Prelude.{◌≡◌};
    ghost use Rattle.ec_console.specs.declared.refusal.Refusal.TheVariants.{Memory};

    ghost from_gives = { λ _ refusal. refusal ≡ Memory };

    fn from(_error: AllocError) -> Refusal {
        Refusal::Memory
    }
}

impl<T: Drop> From<AllocFailed<T>> for Refusal {
    ghost use Rattle.std.specs.Prelude.{◌≡◌};
    ghost use Rattle.ec_console.specs.declared.refusal.Refusal.TheVariants.{Memory};

    ghost from_gives = { λ _ refusal. refusal ≡ Memory };

    fn from(_error: AllocFailed<T>) -> Refusal {
        Refusal::Memory
    }
}

//! Why bytes open nothing.
ghost use Rattle.std.specs.Prelude.{◌≡◌, length};
ghost use Rattle.ec_link.specs.Faults.{error_value};
ghost use Rattle.ec_handles.specs.Opening.{of_position, of_value, open_name, open_number, open_values, with_values};

use ec_link::{LinkError, MachineError};
use ec_table::Position;

/// Why bytes open nothing.
#[derive(Clone, Copy, Debug, PartialEq, Eq, Drop)]
pub enum OpenError {
    /// They are not UTF-8.
    Text,
    /// Their text states no machine, or memory was refused.
    Machine(MachineError),
}

impl OpenError {
    /// The number of the refusal, as the program prints it.
    pub fn number(self) -> u8
        ensures { result ≡ open_number self }
    {
        match self {
            OpenError::Text => 42,
            OpenError::Machine(MachineError::Table(error)) => error.number(),
            OpenError::Machine(MachineError::Link(error)) => error.number(),
        }
    }

    /// The name of the refusal, one word.
    pub fn name(self) -> &'static str
        ensures { result.now ≡ open_name self }
    {
        match self {
            OpenError::Text => "Input",
            OpenError::Machine(MachineError::Table(error)) => error.name(),
            OpenError::Machine(MachineError::Link(error)) => error.name(),
        }
    }

    /// How many values stand behind the name, and these; 0 in place of one that isn't there. They are a fault's place or count, or
    /// the section and the place of a table's fault.
    pub fn values(self) -> (usize, u64, u64)
        ensures count { result.0 ≡ length (open_values self) }
        ensures values { with_values result.0 result.1 result.2 ≡ open_values self }
    {
        match self {
            OpenError::Text => (0, 0, 0),
            OpenError::Machine(MachineError::Table(error)) => values_of_position(error.place()),
            OpenError::Machine(MachineError::Link(error)) => values_of_fault(error),
        }
    }
}

impl From<MachineError> for OpenError {
    ghost use Rattle.std.specs.Prelude.{◌≡◌};
    ghost use Rattle.ec_handles.specs.declared.error.OpenError.TheVariants.{Machine};

    ghost from_gives = { λ cause error. error ≡ Machine cause };

    fn from(error: MachineError) -> OpenError {
        OpenError::Machine(error)
    }
}

/// The value of a plan's fault, a place or a count; none for memory.
fn values_of_fault(error: LinkError) -> (usize, u64, u64)
    ensures count { result.0 ≡ length (of_value (error_value error)) }
    ensures values { with_values result.0 result.1 result.2 ≡ of_value (error_value error) }
{
    match error {
        LinkError::Memory => (0, 0, 0),
        LinkError::Refused(fault) => (1, fault.value() as u64, 0),
    }
}

/// The section and the place of a table's fault, if it has them.
fn values_of_position(at: Option<Position>) -> (usize, u64, u64)
    ensures count { result.0 ≡ length (of_position at) }
    ensures values { with_values result.0 result.1 result.2 ≡ of_position at }
{
    match at {
        None => (0, 0, 0),
        Some(at) => (2, u64::from(at.section.number()), at.element as u64),
    }
}

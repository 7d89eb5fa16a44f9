//! The process datagrams of a plan.
ghost use Rattle.std.specs.Prelude.{◌≡◌, ◌<◌, IfSome, length, position};
ghost use Rattle.ec_link.specs.Plan.{part_at};
ghost use Rattle.ec_link.specs.Shares.{predicted};
ghost use Rattle.ec_annotate.specs.Processes.{counter_of, is_of, is_split, process_by, process_of, process_command_of};

use ec_frame::Command;
use ec_link::{ExpectedCounters, PartPlan, Plan};

/// How a datagram moves process data.
#[derive(Clone, Copy, Debug, PartialEq, Eq)]
pub enum ProcessCommand {
    /// By an LRW: outputs to the slaves, and inputs from them.
    Both,
    /// By an LWR: outputs to the slaves.
    Write,
    /// By an LRD: inputs from the slaves.
    Read,
}

/// A process datagram of a plan.
#[derive(Clone, Copy, Debug, PartialEq, Eq)]
pub struct Process {
    /// The part whose data it carries.
    pub part: usize,
    /// How it moves the part's data.
    pub command: ProcessCommand,
}

impl ProcessCommand {
    /// How a logical command moves process data; `None` for any other command.
    pub fn of(command: Command) -> Option<ProcessCommand>
        ensures { result ≡ process_command_of command }
    {
        match command {
            Command::Lrw => Some(ProcessCommand::Both),
            Command::Lwr => Some(ProcessCommand::Write),
            Command::Lrd => Some(ProcessCommand::Read),
            _ => None,
        }
    }

    /// Whether it moves the data of split parts.
    pub fn is_split(self) -> bool
        ensures { result ≡ is_split self }
    {
        match self {
            ProcessCommand::Both => false,
            ProcessCommand::Write | ProcessCommand::Read => true,
        }
    }
}

/// The part of a plan whose data a datagram carries, by its command, logical address and bytes of data, and how it
/// moves them. `None` if it is no process datagram of the plan.
pub fn find_process(plan: &Plan, command: Command, address: u32, size: usize) -> Option<Process>
    ensures value { result ≡ process_of plan.now (process_command_of command) address size }
    ensures there { IfSome result (λ process. process.part < length plan.now.parts) }
    ensures whole { IfSome result (λ process. size ≡ (part_at plan.now.parts process.part).bytes) }
{
    find_by(plan, address, size, ProcessCommand::of(command)?)
}

/// The working counter of a process datagram that comes back, if each slave of its part works. `None` if
/// the part has no such datagram.
pub fn predicted_counter(plan: &Plan, process: Process) -> Option<usize>
    requires { process.part < length plan.now.parts }
    ensures { result ≡ counter_of process.command (predicted plan.now process.part) }
{
    match (process.command, plan.predicted(process.part)) {
        (ProcessCommand::Both, ExpectedCounters::Lrw(count)) => Some(count),
        (ProcessCommand::Write, ExpectedCounters::Split { write, read: _ }) => Some(write),
        (ProcessCommand::Read, ExpectedCounters::Split { write: _, read }) => Some(read),
        _ => None,
    }
}

/// The part of a plan whose data a datagram carries by this command; `None` if there is none.
fn find_by(plan: &Plan, address: u32, size: usize, command: ProcessCommand) -> Option<Process>
    ensures value { result ≡ process_by plan.now address size command }
    ensures there { IfSome result (λ process. process.part < length plan.now.parts) }
    ensures whole { IfSome result (λ process. size ≡ (part_at plan.now.parts process.part).bytes) }
{
    let part = find_part(plan, command.is_split(), address, size)?;
    Some(Process { part, command })
}

/// The place of the part whose data a datagram over these bytes carries; `None` if there is none.
fn find_part(plan: &Plan, split: bool, address: u32, size: usize) -> Option<usize>
    ensures value { result ≡ position (is_of split address size) plan.now.parts }
    ensures there { IfSome result (λ part. part < length plan.now.parts) }
{
    plan.parts()
        .iter()
        .position(|part| is_of(part, split, address, size))
}

/// Whether a datagram over these bytes carries the data of a part.
fn is_of(part: &PartPlan, split: bool, address: u32, size: usize) -> bool
    ensures { result ≡ is_of split address size part.now }
{
    part.address == address
        && part.bytes == size
        && ((part.split && split) || !(part.split || split))
}

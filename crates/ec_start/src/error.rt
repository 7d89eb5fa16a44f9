//! Why a start-up fails.

ghost use Rattle.std.specs.Prelude.{◌≡◌, ◌≤◌, length};
ghost use Rattle.ec_start.specs.Errors.{error_number, error_name, error_values};

use arrayvec::ArrayVec;
use ec_device::Device;
use thiserror::Error;

/// The most values of an error.
const MAX_VALUES: usize = 4;

/// Why a start-up failed. Slaves are counted from 0 in the order of the table, steps from 0 in the order of the script.
#[derive(Clone, Copy, Debug, PartialEq, Eq, Error)]
pub enum StartError {
    /// A slave's mailbox held something that is no reply to the request.
    #[error("slave {slave}: no fitting reply in its mailbox")]
    BadMailbox {
        slave: usize,
    },
    /// Another number of slaves is there than the plan has.
    #[error("{seen} slaves are there")]
    Count {
        seen: u16,
    },
    /// A slave is not of its type, or its SII can't be read; what wasn't read is 0.
    #[error("slave {slave}: another device than its type says")]
    Identity {
        slave: usize,
        seen: Device,
    },
    /// The frame of a step came back with an unexpected working counter.
    #[error("step {step}: an unexpected working counter")]
    Counter {
        step: usize,
    },
    /// The AL status of a slave had the error flag, with this AL status code.
    #[error("slave {slave}: AL status code {code}")]
    AlError {
        slave: usize,
        code: u16,
    },
    /// A slave aborted an SDO transfer with this abort code.
    #[error("slave {slave}: abort code {code}")]
    Abort {
        slave: usize,
        code: u32,
    },
    /// The wait of a step wasn't over after 1000 polls.
    #[error("step {step}: not over after 1000 polls")]
    TooSlow {
        step: usize,
    },
    /// The start-up was given up.
    #[error("given up")]
    Lost,
    /// No frame number is left.
    #[error("no frame number is left")]
    NumbersSpent,
    /// An entry or a count of a slave's PDO is another than its type has.
    #[error("slave {slave}: object {index}:{subindex} is {seen}")]
    Mapping {
        slave: usize,
        index: u16,
        subindex: u8,
        seen: u32,
    },
}

impl StartError {
    /// The number of the refusal: 9, 26 to 32, 36 or 38.
    pub fn number(self) -> u8
        ensures { result ≡ error_number self }
    {
        match self {
            StartError::BadMailbox { .. } => 9,
            StartError::Count { .. } => 26,
            StartError::Identity { .. } => 27,
            StartError::Counter { .. } => 28,
            StartError::AlError { .. } => 29,
            StartError::Abort { .. } => 30,
            StartError::TooSlow { .. } => 31,
            StartError::Lost => 32,
            StartError::NumbersSpent => 36,
            StartError::Mapping { .. } => 38,
        }
    }

    /// The name of the refusal, one word.
    pub fn name(self) -> &'static str
        ensures { result.now ≡ error_name self }
    {
        match self {
            StartError::BadMailbox { .. } => "BadMailbox",
            StartError::Count { .. } => "Count",
            StartError::Identity { .. } => "Identity",
            StartError::Counter { .. } => "Counter",
            StartError::AlError { .. } => "AlError",
            StartError::Abort { .. } => "Abort",
            StartError::TooSlow { .. } => "TooSlow",
            StartError::Lost => "Lost",
            StartError::NumbersSpent => "NumbersSpent",
            StartError::Mapping { .. } => "Mapping",
        }
    }

    /// The values of the refusal as they are printed: a slave or a step first, an identity as vendor, product and revision.
    pub fn values(self) -> ArrayVec<u64, 4>
        ensures { result.items ≡ error_values self }
    {
        match self {
            StartError::BadMailbox { slave } => listed(&[slave as u64]),
            StartError::Count { seen } => listed(&[seen as u64]),
            StartError::Identity { slave, seen } => listed(&[
                slave as u64,
                seen.vendor as u64,
                seen.product as u64,
                seen.revision as u64,
            ]),
            StartError::Counter { step } => listed(&[step as u64]),
            StartError::AlError { slave, code } => listed(&[slave as u64, code as u64]),
            StartError::Abort { slave, code } => listed(&[slave as u64, code as u64]),
            StartError::TooSlow { step } => listed(&[step as u64]),
            StartError::Lost | StartError::NumbersSpent => ArrayVec::new(),
            StartError::Mapping {
                slave,
                index,
                subindex,
                seen,
            } => listed(&[slave as u64, index as u64, subindex as u64, seen as u64]),
        }
    }
}

fn listed(values: &[u64]) -> ArrayVec<u64, MAX_VALUES>
    requires { length values.now ≤ 4 }
    ensures { result.items ≡ values.now }
{
    let mut listed = ArrayVec::new();
    let _ = listed.try_extend_from_slice(values);
    listed
}

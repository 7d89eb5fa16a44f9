//! The AL status codes in words.

use crate::status_code::StatusCode;

/// An AL status code in words.
#[derive(Clone, Copy, Debug)]
pub struct StatusText {
    /// The standard's name.
    pub name: &'static str,
    /// What the slave means, as the end of a sentence about it.
    pub meaning: &'static str,
}

/// The codes of the standard (ETG.1000.6, "AL status code"), each with its name and its meaning.
static TEXTS: [(u16, &str, &str); 35] = [
    (0x0000, "No error", "no error"),
    (0x0001, "Unspecified error", "an unspecified error"),
    (0x0002, "No memory", "no memory"),
    (
        0x0011,
        "Invalid requested state change",
        "the state can't be reached from the one that it is in",
    ),
    (
        0x0012,
        "Unknown requested state",
        "the requested state is unknown",
    ),
    (0x0013, "Bootstrap not supported", "there is no bootstrap"),
    (0x0014, "No valid firmware", "there is no valid firmware"),
    (
        0x0015,
        "Invalid mailbox configuration",
        "the sync managers of its mailboxes aren't set as it needs them",
    ),
    (
        0x0016,
        "Invalid mailbox configuration",
        "the sync managers of its mailboxes aren't set as it needs them",
    ),
    (
        0x0017,
        "Invalid sync manager configuration",
        "its sync managers aren't set as it needs them",
    ),
    (
        0x0018,
        "No valid inputs available",
        "there are no valid inputs",
    ),
    (0x0019, "No valid outputs", "there are no valid outputs"),
    (0x001A, "Synchronization error", "a synchronization error"),
    (
        0x001B,
        "Sync manager watchdog",
        "the watchdog of its outputs",
    ),
    (
        0x001C,
        "Invalid sync manager types",
        "types of its sync managers that it doesn't take",
    ),
    (
        0x001D,
        "Invalid output configuration",
        "the sync manager of its outputs doesn't fit the PDOs that are assigned",
    ),
    (
        0x001E,
        "Invalid input configuration",
        "the sync manager of its inputs doesn't fit the PDOs that are assigned",
    ),
    (
        0x001F,
        "Invalid watchdog configuration",
        "a watchdog setting that it doesn't take",
    ),
    (0x0020, "Slave needs cold start", "it needs a cold start"),
    (0x0021, "Slave needs INIT", "it needs INIT first"),
    (0x0022, "Slave needs PREOP", "it needs PREOP first"),
    (0x0023, "Slave needs SAFEOP", "it needs SAFEOP first"),
    (
        0x0024,
        "Invalid input mapping",
        "an input mapping that it doesn't take",
    ),
    (
        0x0025,
        "Invalid output mapping",
        "an output mapping that it doesn't take",
    ),
    (
        0x0026,
        "Inconsistent settings",
        "settings that don't fit each other",
    ),
    (
        0x0030,
        "Invalid DC SYNC configuration",
        "settings of its distributed clock that it doesn't take",
    ),
    (
        0x0031,
        "Invalid DC latch configuration",
        "latch settings of its distributed clock that it doesn't take",
    ),
    (0x0032, "PLL error", "it isn't synchronized (PLL error)"),
    (
        0x0033,
        "DC sync IO error",
        "its inputs and outputs aren't synchronized",
    ),
    (0x0034, "DC sync timeout error", "a synchronization timeout"),
    (0x0042, "Mailbox EoE", "a fault of its mailbox (EoE)"),
    (0x0043, "Mailbox CoE", "a fault of its mailbox (CoE)"),
    (0x0044, "Mailbox FoE", "a fault of its mailbox (FoE)"),
    (0x0045, "Mailbox SoE", "a fault of its mailbox (SoE)"),
    (0x004F, "Mailbox VoE", "a fault of its mailbox (VoE)"),
];

impl StatusCode {
    /// The words for a number in the AL status code register; `None` if the standard has no such code.
    pub fn text(number: u16) -> Option<StatusText> {
        for (code, name, meaning) in &TEXTS {
            if *code == number {
                return Some(StatusText {
                    name: *name,
                    meaning: *meaning,
                });
            }
        }
        None
    }
}

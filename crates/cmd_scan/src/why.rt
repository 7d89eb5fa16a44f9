//! Why a scan failed, for people: at which slave, what was asked, what that means, and what to do.
use crate::finding::Seen;
use ec_console::{FileNames, Refusal, remarks_text};
use ec_diagnostic::Counted;
use ec_explain_start::{Request, abort_meaning, status_meaning};
use ec_found::table_text;
use ec_start::{Action, SiiAccess, StartError};
use ec_wire::Trouble;
use std::alloc::{AllocError, Global};
use std::fmt;

/// What a scan failed by. It is printed as a sentence with the slave, what was asked last and the likely cause, and a line on what to do.
#[derive(Clone, Copy)]
pub(crate) struct ScanFault {
    pub error: StartError,
    /// What was asked last.
    pub asked: Option<Action>,
    /// Why the last call of the wire that was a fault was one; `None` if none was.
    pub trouble: Option<Trouble>,
}

/// An action of a scan. It is printed as what its frame did.
#[derive(Clone, Copy)]
struct Asked(Action);

/// The likely cause of a failure, as the end of a sentence about it, and what to do. The cause is empty if nothing suggests one.
#[derive(Clone, Copy)]
struct Cause {
    words: &'static str,
    advice: &'static str,
}

const MANY: Cause = Cause {
    words: "",
    advice: "scan segments of 64 slaves at most",
};

const UNREADABLE: Cause = Cause {
    words: "; its EEPROM may be blank, worn out, not loaded yet or without an end mark",
    advice: "switch the slave off and on, and scan again; if that doesn't help, write the device's type by hand",
};

const NO_REPLY: Cause = Cause {
    words: "",
    advice: "switch the slave off and on, so that its mailbox is empty, and scan again",
};

const FULL: Cause = Cause {
    words: "; its mailbox took no request, as if it was full",
    advice: "switch the slave off and on, and scan again",
};

const GONE: Cause = Cause {
    words: "",
    advice: "see whether a slave was switched off or unplugged, and scan again",
};

const OTHER_MAILBOX: Cause = Cause {
    words: "; its SII may name other mailboxes than its firmware has",
    advice: BY_HAND,
};

const REFUSED: Cause = Cause {
    words: "",
    advice: "see what the code names, switch the slave off and on, and scan again",
};

const ABORTED: Cause = Cause {
    words: "; it doesn't have this object, or doesn't let it be read now",
    advice: BY_HAND,
};

const SII_HELD: Cause = Cause {
    words: "; its firmware may hold the SII although the master took it",
    advice: "switch the slave off and on, and scan again",
};

const SILENT: Cause = Cause {
    words: "; it sent no reply to the request",
    advice: "see whether the device is still busy, and scan again",
};

const SLOW: Cause = Cause {
    words: "",
    advice: "see whether the slave works, switch it off and on, and scan again",
};

const UNHEARD: Cause = Cause {
    words: "",
    advice: "start the segment, and see the address and the cable",
};

const LOST: Cause = Cause {
    words: "",
    advice: "see that the segment answers, and scan again",
};

/// What to do if a scan can't read all of a device.
const BY_HAND: &str =
    "write the device's type by hand, or let `tools/esi/esi2toml` make it of its ESI file";

/// What stands before the remarks on a table that isn't printed.
const NO_PLAN: &str =
    "The slaves that were found have no plan together, so their table isn't printed. At fault in it is:\n";

/// What a scan failed by, as the text behind the line of its refusal. The error says that memory ran out.
pub(crate) fn fault_text(alloc: Global, fault: ScanFault) -> Result<String, AllocError> {
    format!(in alloc; "{fault}")
}

/// Why the table of slaves that were found isn't printed: what is at fault in its text. The error says that memory ran out.
pub(crate) fn unprinted_text(
    alloc: Global,
    seen: &Seen,
    refusal: Refusal,
) -> Result<String, AllocError> {
    match refusal {
        Refusal::Table(_) | Refusal::Link(_) => {
            let table = table_text(alloc, seen.shown.as_slice(), seen.found.as_slice())?;
            let remarks = remarks_text(alloc, table.as_str(), 0, FileNames::of(None), &refusal)?;
            format!(in alloc; "{NO_PLAN}{remarks}")
        }
        Refusal::Unsaid(slave) => {
            format!(in alloc;
                "The table of the slaves that were found reads otherwise at slave {slave}, so it isn't printed.\n"
            )
        }
        _ => Ok(String::new(alloc)),
    }
}

impl ScanFault {
    /// The likely cause, and what to do.
    fn cause(&self) -> Cause {
        match self.error {
            StartError::Count { .. } => MANY,
            StartError::Identity { .. } => UNREADABLE,
            StartError::BadMailbox { .. } => NO_REPLY,
            StartError::AlError { code: 0x0016, .. } => OTHER_MAILBOX,
            StartError::AlError { .. } => REFUSED,
            StartError::Abort { .. } | StartError::Mapping { .. } => ABORTED,
            StartError::Counter { .. } => match self.asked {
                Some(Action::SendRequest { .. }) => FULL,
                _ => GONE,
            },
            StartError::TooSlow { .. } => self.cause_of_wait(),
            StartError::Lost | StartError::NumbersSpent => match self.asked {
                Some(Action::CountSlaves) | None => UNHEARD,
                _ => LOST,
            },
        }
    }

    /// The likely cause of a wait that wasn't over.
    fn cause_of_wait(&self) -> Cause {
        match self.asked {
            Some(Action::AwaitWord { .. }) => SII_HELD,
            Some(Action::AwaitReply { .. }) => SILENT,
            _ => SLOW,
        }
    }

    /// Writes what went wrong, and at which slave or frame.
    fn write_error<W: fmt::Write>(&self, f: &mut fmt::Formatter<W>) -> fmt::Result {
        match self.error {
            StartError::Count { seen } => {
                let there = Counted(usize::from(seen), "slave");
                write!(f, "{there} answered, and a table has 64 at most")
            }
            StartError::Identity { slave, .. } => {
                write!(f, "slave {slave} has an error where its SII is read")
            }
            StartError::BadMailbox { slave } => write!(
                f,
                "slave {slave} answered a request with something that is no reply to it"
            ),
            StartError::AlError { slave, code } => {
                let text = status_meaning(code);
                write!(
                    f,
                    "slave {slave} refused a state, AL status code 0x{code:04X}: {text}"
                )
            }
            StartError::Abort { slave, code } => {
                let text = abort_meaning(code);
                write!(
                    f,
                    "slave {slave} aborted an SDO transfer, code 0x{code:08X}: {text}"
                )
            }
            StartError::Counter { step } => write!(
                f,
                "frame {step} came back with another working counter than it must have"
            ),
            StartError::TooSlow { .. } => {
                f.write_str("a wait wasn't over after 1000 polls, or a slave took too many frames")
            }
            StartError::Lost => {
                f.write_str("a frame or its answer was lost, so the scan was given up")
            }
            StartError::Mapping { .. } | StartError::NumbersSpent => write!(f, "{}", self.error),
        }
    }
}

impl fmt::Display for ScanFault {
    fn fmt<W: fmt::Write>(&self, f: &mut fmt::Formatter<W>) -> fmt::Result {
        self.write_error(f)?;
        if let Some(action) = self.asked {
            write!(f, "; the last frame {}", Asked(action))?;
        }
        if let (StartError::Lost, Some(trouble)) = (self.error, self.trouble) {
            write!(f, "; a call on the socket failed: {trouble}")?;
        }
        let Cause { words, advice } = self.cause();
        write!(f, "{words}\nTo do: {advice}.\n")
    }
}

impl fmt::Display for Asked {
    fn fmt<W: fmt::Write>(&self, f: &mut fmt::Formatter<W>) -> fmt::Result {
        match self.0 {
            Action::NameSlave { slave } => write!(f, "gave slave {slave} its station address"),
            Action::AwaitCleanInit { slave } => {
                write!(
                    f,
                    "asked whether slave {slave} is in INIT, without an error"
                )
            }
            Action::AskWord { slave, which } => write_word(f, slave, "to read", which),
            Action::AwaitWord { slave, which } => write_word(f, slave, "for", which),
            Action::SetManager { slave, place, .. } => {
                write!(
                    f,
                    "set sync manager {place}, of a mailbox, of slave {slave}"
                )
            }
            Action::AskState { slave, state } => {
                let state = state.name();
                write!(f, "asked slave {slave} for {state}")
            }
            Action::AwaitState { slave, state } => {
                let state = state.name();
                write!(f, "asked whether slave {slave} is in {state}")
            }
            Action::SendRequest { slave, request, .. } => {
                let request = Request(request);
                write!(f, "wrote into the mailbox of slave {slave}: {request}")
            }
            Action::AwaitReply { slave, request, .. } => {
                let request = Request(request);
                write!(f, "looked into the mailbox of slave {slave}: {request}")
            }
            action => f.write_str(asked_of_all(action)),
        }
    }
}

/// Writes what a frame asked of a word of an SII. An action has the number of two words, counted from 0x08 on.
fn write_word<W: fmt::Write>(
    f: &mut fmt::Formatter<W>,
    slave: usize,
    what: &str,
    which: usize,
) -> fmt::Result {
    let word = which.saturating_mul(2).saturating_add(8);
    write!(f, "asked slave {slave} {what} word 0x{word:04X} of its SII")
}

/// The words for what a frame for all slaves did.
fn asked_of_all(action: Action) -> &'static str {
    match action {
        Action::CountSlaves => "counted the slaves",
        Action::AskInit => "asked all slaves for INIT",
        Action::AwaitInitState => "asked whether all slaves are in INIT",
        Action::ClearAllFmmus => "cleared the FMMUs of all slaves",
        Action::ClearAllManagers => "cleared the sync managers of all slaves",
        Action::ClearStations => "took the station addresses of all slaves away",
        Action::AssignSii(SiiAccess::Device) => "gave the SII of each slave back to its device",
        Action::AssignSii(_) => "took the SII of each slave from its device",
        Action::ClearSiiError => "cleared the SII errors of all slaves",
        _ => "was another",
    }
}

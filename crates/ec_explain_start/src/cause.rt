//! The likely cause of a failed start-up, and what to do about it.
use crate::steps::{Step, is_assignment};
use ec_al::State;
use ec_device::Device;
use ec_start::{Action, SdoRequest, StartError, Transfer};

/// A likely cause, as the end of a sentence about the failure, and what to do about it.
#[derive(Clone, Copy)]
pub struct Cause {
    pub words: &'static str,
    pub advice: &'static str,
}

const SII_HELD: Cause = Cause {
    words: "its SII read zeros, as if its firmware or a former master held it",
    advice: "write `hardware = true` above all tables, so that the master takes the SII before it reads it",
};

const SII_BLANK: Cause = Cause {
    words: "its SII read zeros although the master took it, as if its EEPROM was blank or wasn't loaded yet",
    advice: "switch the slave off and on, and see what `ecat scan` finds",
};

const SII_BUSY: Cause = Cause {
    words: "its firmware may hold the SII",
    advice: "write `hardware = true` above all tables, so that the master takes the SII before it reads it",
};

const COPIED: Cause = Cause {
    words: "a device without firmware copies the acknowledgement into its AL status",
    advice: "write `hardware = true` above all tables, and `firmware = false` in the type of such a device",
};

const LEFT_OVER: Cause = Cause {
    words: "outputs are fed in this step: an FMMU that a former master left may map them too, or a slave takes no part in LRW",
    advice: "switch the slaves off and on, or write `lrw = false` in the type of a slave that takes no part in LRW",
};

const FULL: Cause = Cause {
    words: "its mailbox took no request, as if it was full",
    advice: "see whether the `mailbox` of its type lies where the device has it, and switch the slave off and on",
};

const UNFED: Cause = Cause {
    words: "it may want outputs before OP, and this table feeds none",
    advice: "write `hardware = true` above all tables, so that the master feeds the outputs before it asks for OP",
};

const LATE: Cause = Cause {
    words: "its outputs didn't come in time",
    advice: "see whether another program or a slow network card holds the frames back",
};

const CLOCKS: Cause = Cause {
    words: "it may want distributed clocks, which this master doesn't start",
    advice: "select free run or synchronism with the sync managers by `init`: objects 0x1C32:0x01 and 0x1C33:0x01",
};

const MAILBOX: Cause = Cause {
    words: "its mailboxes lie elsewhere than in its type",
    advice: "give the type the `mailbox` that `ecat scan` finds",
};

const OUTPUT_MANAGER: Cause = Cause {
    words: "it wants another address, length or control byte for its outputs",
    advice: "correct `out_manager`, `out_start` or `rxpdo` of its type, or `out` of the slave",
};

const INPUT_MANAGER: Cause = Cause {
    words: "it wants another address, length or control byte for its inputs",
    advice: "correct `in_manager`, `in_start` or `txpdo` of its type, or `in` of the slave",
};

const FIXED: Cause = Cause {
    words: "its assignment may be fixed",
    advice: "write `fixed = true` in its type",
};

const PARAMETER: Cause = Cause {
    words: "it doesn't take a parameter of `init`",
    advice: "correct index, subindex, bits or value of that row of `init`",
};

const SILENT: Cause = Cause {
    words: "it sent no reply to the request",
    advice: "see whether the device is still busy with the request, and whether the `mailbox` of its type lies where the device has it",
};

const OTHER_ASSIGNMENT: Cause = Cause {
    words: "its fixed assignment isn't that of its type",
    advice: "give the type the PDOs that the device assigns, in its order",
};

const OTHER_MAPPING: Cause = Cause {
    words: "its mapping isn't that of its type",
    advice: "correct the PDO of the type, or write the mapping by `init`",
};

/// What is known of a failed start-up beside its error.
#[derive(Clone, Copy)]
pub struct Known {
    /// Whether the table is for hardware.
    pub hardware: bool,
    /// Whether the slave that the error names has parameters.
    pub has_parameters: bool,
    /// The step at which it failed.
    pub step: Option<Step>,
}

/// The likely cause of a failure; none if nothing suggests one.
pub fn cause_of(error: StartError, known: Known) -> Option<Cause> {
    let Known { hardware, step, .. } = known;
    match error {
        StartError::Identity { seen, .. } if is_blank(seen) => {
            Some(if hardware { SII_BLANK } else { SII_HELD })
        }
        StartError::Counter { .. } => cause_of_counter(hardware, step?.action()),
        StartError::AlError { code, .. } => cause_of_status(hardware, code),
        StartError::Abort { code, .. } if hardware => cause_of_abort(code, known),
        StartError::TooSlow { .. } => cause_of_wait(hardware, step?.action()),
        StartError::Mapping { index, .. } if hardware => Some(if is_assignment(index) {
            OTHER_ASSIGNMENT
        } else {
            OTHER_MAPPING
        }),
        _ => None,
    }
}

/// Whether nothing of an identity was read.
fn is_blank(seen: Device) -> bool {
    seen.vendor == 0 && seen.product == 0 && seen.revision == 0
}

/// The likely cause of an unexpected working counter.
fn cause_of_counter(hardware: bool, action: Action) -> Option<Cause> {
    match action {
        Action::AskState {
            state: State::Op,
            ..
        }
        | Action::AwaitState {
            state: State::Op,
            ..
        } if hardware => Some(LEFT_OVER),
        Action::SendRequest { .. } => Some(FULL),
        _ => None,
    }
}

/// The likely cause of a wait that wasn't over.
fn cause_of_wait(hardware: bool, action: Action) -> Option<Cause> {
    match action {
        Action::AwaitInit => Some(COPIED),
        Action::AwaitWord { .. } if !hardware => Some(SII_BUSY),
        Action::AwaitState {
            state: State::Op,
            ..
        } => Some(if hardware { CLOCKS } else { UNFED }),
        Action::AwaitFreeReply { .. } => Some(SILENT),
        _ => None,
    }
}

/// The likely cause of an AL status code (ETG.1000.6, "AL status code").
fn cause_of_status(hardware: bool, code: u16) -> Option<Cause> {
    match code {
        0x001B if !hardware => Some(UNFED),
        0x001B => Some(LATE),
        _ if !hardware => None,
        0x0016 => Some(MAILBOX),
        0x001D => Some(OUTPUT_MANAGER),
        0x001E => Some(INPUT_MANAGER),
        0x002C..=0x0037 => Some(CLOCKS),
        _ => None,
    }
}

/// The likely cause of an abort, by the request that was aborted if that is known.
fn cause_of_abort(code: u32, known: Known) -> Option<Cause> {
    let is_of_parameter = match known.request() {
        Some(request) => is_parameter(&request),
        None => known.has_parameters && !is_read_only(code),
    };
    if is_of_parameter {
        return Some(PARAMETER);
    }
    if is_read_only(code) {
        return Some(FIXED);
    }
    None
}

impl Known {
    /// The request at which it failed.
    fn request(&self) -> Option<SdoRequest> {
        self.step?.request()
    }
}

/// Whether a request downloads a parameter.
fn is_parameter(request: &SdoRequest) -> bool {
    match request.transfer {
        Transfer::Download(_) => !is_assignment(request.index),
        Transfer::Upload(_) => false,
    }
}

/// Whether an abort code says that the object can only be read, or not be accessed so (ETG.1000.6, "Abort SDO transfer").
fn is_read_only(code: u32) -> bool {
    code == 0x0601_0000 || code == 0x0601_0002
}

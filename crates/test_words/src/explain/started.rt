//! Start-ups and cycles that fail, and their explanations. What a run of `ecat` says of tables, of lines of a script and of what
//! they expect stands as cases in `tools/cases/data/`.
use crate::compare::{expect, expect_same};
use crate::explain::machine::MACHINE;
use ec_console::{FileNames, Refusal, remarks_text};
use ec_cycle::CycleError;
use ec_device::Device;
use ec_script::ScriptError;
use ec_start::StartError;
use ec_wire::RunError;
use std::process::Abort;

/// Each phrase stands in the explanation. There is a `;` between phrases.
fn expect_phrases(rt: &impl Abort, told: &str, wanted: &str) {
    for phrase in wanted.split(';') {
        let seen = (phrase, told.contains(phrase));
        expect_same(rt, &seen, &(phrase, true), told);
    }
}

/// What explains a refusal on a text.
fn told_of(rt: &(impl AllocGlobal + Abort), text: &str, refusal: Refusal) -> String {
    let names = FileNames::of(None);
    remarks_text(rt.alloc(), text, 0, names, &refusal).expect(rt, "memory")
}

/// Compares what explains a refusal on a text.
pub(crate) fn expect_told(
    rt: &(impl AllocGlobal + Abort),
    text: &str,
    refusal: Refusal,
    wanted: &str,
) {
    let told = told_of(rt, text, refusal);
    expect_phrases(rt, told.as_str(), wanted);
}

/// Compares what explains a refusal of the machine.
fn expect_refusal(rt: &(impl AllocGlobal + Abort), refusal: Refusal, wanted: &str) {
    expect_told(rt, MACHINE, refusal, wanted);
}

const DRIVE: Device = Device {
    vendor: 1,
    product: 4,
    revision: 1,
};

/// A device that no type of the table is.
const STRANGER: Device = Device {
    vendor: 9,
    product: 4,
    revision: 1,
};

/// Start-ups that failed, and their explanations.
const ERRORS: [(StartError, &str); 20] = [
    (
        StartError::BadMailbox { slave: 1 },
        "line 31, column 1: slave 1 x ;`mailbox`",
    ),
    (
        StartError::Count { seen: 1 },
        "line 31, column 1: 1 slave answered;the table has 3;slave 1 x ",
    ),
    (
        StartError::Count { seen: 5 },
        "5 slaves answered;the table has 3",
    ),
    (
        StartError::Identity {
            slave: 0,
            seen: DRIVE,
        },
        "line 28, column 1: slave 0 panel ;product 0x00000004;type coupler ;product 0x00000002;the type drive ",
    ),
    (
        StartError::AlError {
            slave: 2,
            code: 0x001D,
        },
        "line 35, column 1: slave 2 y ;0x001D;outputs",
    ),
    (
        StartError::Abort {
            slave: 2,
            code: 0x0602_0000,
        },
        "line 35, column 1: slave 2 y ;0x06020000;no such object",
    ),
    (StartError::Lost, "lost;given up"),
    (StartError::NumbersSpent, "number"),
    (
        StartError::Mapping {
            slave: 1,
            index: 0x1600,
            subindex: 2,
            seen: 0x60FF_0020,
        },
        "line 31, column 1: slave 1 x ;0x1600:0x02;line 23, column 3: ;0x607A0020;[0x607A, 0x00, 32];[0x60FF, 0x00, 32]",
    ),
    (
        StartError::Count { seen: 0 },
        "line 28, column 1: 0 slaves answered;the table has 3;slave 0 panel ",
    ),
    (
        StartError::Count { seen: 4 },
        "4 slaves answered;the table has 3",
    ),
    (
        StartError::Identity {
            slave: 2,
            seen: STRANGER,
        },
        "line 35, column 1: slave 2 y ;vendor 0x00000009, product 0x00000004, revision 0x00000001;\
         line 15, column 8: ;type drive ;vendor 0x00000001, product 0x00000004, revision 0x00000001",
    ),
    (
        StartError::AlError {
            slave: 0,
            code: 0x8001,
        },
        "line 28, column 1: slave 0 panel ;0x8001",
    ),
    (
        StartError::AlError {
            slave: 1,
            code: 0x0032,
        },
        "slave 1 x ;0x0032: it isn't synchronized (PLL error)",
    ),
    (
        StartError::AlError {
            slave: 1,
            code: 0x0043,
        },
        "slave 1 x ;0x0043: a fault of its mailbox (CoE)",
    ),
    (
        StartError::AlError {
            slave: 1,
            code: 0x004F,
        },
        "slave 1 x ;0x004F: a fault of its mailbox (VoE)",
    ),
    (
        StartError::Abort {
            slave: 2,
            code: 0x0609_0036,
        },
        "slave 2 y ;0x06090036: the maximum is less than the minimum",
    ),
    (
        StartError::Abort {
            slave: 2,
            code: 0x0800_0023,
        },
        "slave 2 y ;0x08000023: it has no object dictionary, or can't make one",
    ),
    (
        StartError::Mapping {
            slave: 2,
            index: 0x1601,
            subindex: 0,
            seen: 3,
        },
        "line 35, column 1: slave 2 y ;0x1601:0x00;line 24, column 3: ;type drive has 2",
    ),
    (
        StartError::Mapping {
            slave: 1,
            index: 0x1A00,
            subindex: 1,
            seen: 0x6041_0020,
        },
        "line 31, column 1: slave 1 x ;0x1A00:0x01;line 26, column 11: ;0x60410010;[0x6041, 0x00, 16];[0x6041, 0x00, 32]",
    ),
];

#[test]
fn start_ups(rt: HostRuntime) {
    for (error, wanted) in &ERRORS {
        expect_refusal(&rt, Refusal::Start(*error), wanted);
    }
}

// The start-up of the machine has 109 steps: 6 for all, 1 to name each slave, 6 to identify it, 2 for
// the mailboxes of x and y, 2 for PREOP of each, 24 requests and replies of x and of y, 4 to map each,
// and 2 for SAFEOP and 2 for OP of each.
const STEPS: [(usize, &str); 14] = [
    (0, "counted"),
    (2, "all slaves;INIT"),
    (5, "all slaves;station addresses"),
    (
        6,
        "line 28, column 1: ;slave 0 panel: it is given its station address",
    ),
    (17, "slave 1 x: its product is asked for"),
    (26, "slave 2 y: its revision is awaited"),
    (27, "slave 1 x: sync manager 0"),
    (36, "slave 2 y: it is awaited in PREOP"),
    (39, "slave 1 x: a request ;0x1600:0x01"),
    (60, "slave 1 x: a reply ;0x1C13:0x00"),
    (75, "slave 2 y: a request ;PDO 0x1601 into 0x1C12:0x01"),
    (88, "slave 0 panel: FMMU 1"),
    (97, "slave 0 panel: it is asked for SAFEOP"),
    (108, "slave 2 y: it is awaited in OP"),
];

/// Compares the explanations of a step whose counter was wrong, and of one that was too slow.
fn expect_step(rt: &(impl AllocGlobal + Abort), step: usize, wanted: &str) {
    expect_refusal(rt, Refusal::Start(StartError::Counter { step }), wanted);
    expect_refusal(rt, Refusal::Start(StartError::TooSlow { step }), wanted);
}

#[test]
fn steps(rt: HostRuntime) {
    for (step, wanted) in &STEPS {
        expect_step(&rt, *step, wanted);
    }
}

/// A phrase doesn't stand in what explains a refusal on a text.
fn expect_unexplained(rt: &(impl AllocGlobal + Abort), text: &str, refusal: Refusal, phrase: &str) {
    let told = told_of(rt, text, refusal);
    let is_told = told.as_str().contains(phrase);
    expect(rt, !is_told, told.as_str());
}

/// Cycles that can't be, and a line that the script doesn't have, and their explanations.
const REFUSALS: [(Refusal, &str); 6] = [
    (
        Refusal::Run(RunError::Refused(CycleError::NotReady)),
        "ready",
    ),
    (
        Refusal::Run(RunError::Refused(CycleError::Open)),
        "open already",
    ),
    (
        Refusal::Run(RunError::Refused(CycleError::NotOpen)),
        "No cycle is open",
    ),
    (
        Refusal::Run(RunError::Refused(CycleError::NumbersSpent)),
        "2^64",
    ),
    (Refusal::Run(RunError::Wire), "socket;nothing of that cycle"),
    (
        Refusal::Script(ScriptError::BadScript(99)),
        "line 99 of the script isn't found",
    ),
];

#[test]
fn cycles_and_a_line_past_the_last(rt: HostRuntime) {
    for (refusal, wanted) in &REFUSALS {
        expect_refusal(&rt, *refusal, wanted);
    }
}

/// Texts that are no table of this machine.
const OTHER_TEXTS: [&str; 7] = [
    "",
    "\u{FEFF}",
    "[[",
    "a = \"",
    "'''",
    "link = [{",
    "[[slave]]\n[[slave]]",
];

// A step of texts that have no such machine isn't explained, nor is one past its last.
#[test]
fn steps_that_are_none(rt: HostRuntime) {
    let refusal = Refusal::Start(StartError::Counter { step: 17 });
    for text in &OTHER_TEXTS {
        expect_unexplained(&rt, text, refusal, "step 17");
    }
    let past = Refusal::Start(StartError::TooSlow { step: 109 });
    expect_unexplained(&rt, MACHINE, past, "step");
}

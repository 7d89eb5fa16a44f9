//! The AL state machine, step by step, by the public calls of `ec_al`.
use crate::rows::{expect, expect_same};
use ec_al::{Al, Checks};
use std::process::Abort;

/// What is done to a state machine by its word, the control word of a request, whether it was taken, and the status word and the
/// status code afterwards. `starts` and `resets` are power-on; `asks` is a request whose checks all pass, `fails` one whose checks all
/// fail, and `lacks_inputs` one where that of the inputs alone fails; `waits` is a request that a step lets wait, and `steps` a later
/// step, which decides one that waits; `faults` is a fault of the application, which counts only in OP; `copies` is the step of a
/// device without firmware.
type Step = (&'static str, u16, bool, u16, u16);

const STEPS: [Step; 33] = [
    // INIT refuses what skips a state.
    ("starts", 0x0000, true, 0x0001, 0x0000),
    ("asks", 0x0004, true, 0x0011, 0x0011),
    ("asks", 0x0013, true, 0x0011, 0x0013),
    ("asks", 0x0015, true, 0x0011, 0x0012),
    ("asks", 0x0011, true, 0x0001, 0x0000),
    // PREOP keeps an error until it is acknowledged.
    ("starts", 0x0000, true, 0x0001, 0x0000),
    ("asks", 0x0002, true, 0x0002, 0x0000),
    ("asks", 0x0008, true, 0x0012, 0x0011),
    ("asks", 0x0004, true, 0x0012, 0x0011),
    ("steps", 0x0012, true, 0x0012, 0x0011),
    ("asks", 0x0012, true, 0x0002, 0x0000),
    // A fault takes OP to SAFEOP.
    ("starts", 0x0000, true, 0x0001, 0x0000),
    ("asks", 0x0002, true, 0x0002, 0x0000),
    ("asks", 0x0004, true, 0x0004, 0x0000),
    ("asks", 0x0008, true, 0x0008, 0x0000),
    ("faults", 0x0000, true, 0x0014, 0x0001),
    ("faults", 0x0000, false, 0x0014, 0x0001),
    ("asks", 0x0008, true, 0x0014, 0x0001),
    ("asks", 0x0018, true, 0x0008, 0x0000),
    // A reset leaves no error. Without firmware the status is the control word.
    ("faults", 0x0000, true, 0x0014, 0x0001),
    ("resets", 0x0000, true, 0x0001, 0x0000),
    ("copies", 0x0011, true, 0x0011, 0x0000),
    // Checks refuse a wrong configuration: in INIT, in PREOP, and there that of the inputs alone.
    ("starts", 0x0000, true, 0x0001, 0x0000),
    ("fails", 0x0002, true, 0x0011, 0x0016),
    ("starts", 0x0000, true, 0x0001, 0x0000),
    ("asks", 0x0002, true, 0x0002, 0x0000),
    ("fails", 0x0004, true, 0x0012, 0x001D),
    ("starts", 0x0000, true, 0x0001, 0x0000),
    ("asks", 0x0002, true, 0x0002, 0x0000),
    ("lacks_inputs", 0x0004, true, 0x0012, 0x001E),
    // A step of slow firmware shows nothing of the request, and a later one decides it.
    ("starts", 0x0000, true, 0x0001, 0x0000),
    ("waits", 0x0002, true, 0x0001, 0x0000),
    ("steps", 0x0002, true, 0x0002, 0x0000),
];

/// The checks of a request by its word.
fn checks_of(word: &str) -> Checks {
    Checks {
        mailbox: word != "fails",
        outputs: word != "fails",
        inputs: word == "asks",
    }
}

/// Takes a step. Whether it was taken.
fn take_step(rt: &impl Abort, al: &mut Al, word: &str, control: u16) -> bool {
    match word {
        "starts" => *al = Al::new(),
        "resets" => al.reset(),
        "copies" => al.copy(control),
        "faults" => return al.fault(),
        "waits" => {
            al.request();
            al.wait();
        }
        "steps" => al.step(control, checks_of("asks")),
        _ => {
            expect(rt, matches!(word, "asks" | "fails" | "lacks_inputs"), word);
            al.request();
            al.step(control, checks_of(word));
        }
    }
    true
}

/// Takes a step, and compares what is seen then.
fn expect_step(rt: &impl Abort, al: &mut Al, step: &Step) {
    let (word, control, taken, status, code) = *step;
    let is_taken = take_step(rt, al, word, control);
    expect_same(
        rt,
        &(control, is_taken, al.status_word(), al.code()),
        &(control, taken, status, code),
        word,
    );
}

#[test]
fn state_machines(rt: HostRuntime) {
    let mut al = Al::new();
    for step in &STEPS {
        expect_step(&rt, &mut al, step);
    }
}

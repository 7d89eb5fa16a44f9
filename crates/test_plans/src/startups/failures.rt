//! What failures of start-ups say. Their numbers, names and values stand beside what they explain (`test_app`), and in the
//! start-ups of `test_masters`.
use crate::compare::expect_said;
use ec_device::Device;
use ec_start::StartError;

/// What each failure says.
const TEXTS: [(StartError, &str); 10] = [
    (
        StartError::BadMailbox { slave: 2 },
        "slave 2: no fitting reply in its mailbox",
    ),
    (StartError::Count { seen: 3 }, "3 slaves are there"),
    (
        StartError::Identity {
            slave: 1,
            seen: Device {
                vendor: 1,
                product: 2,
                revision: 3,
            },
        },
        "slave 1: another device than its type says",
    ),
    (
        StartError::Counter { step: 38 },
        "step 38: an unexpected working counter",
    ),
    (
        StartError::AlError { slave: 4, code: 22 },
        "slave 4: AL status code 22",
    ),
    (
        StartError::Abort { slave: 5, code: 9 },
        "slave 5: abort code 9",
    ),
    (
        StartError::TooSlow { step: 10 },
        "step 10: not over after 1000 polls",
    ),
    (StartError::Lost, "given up"),
    (StartError::NumbersSpent, "no frame number is left"),
    (
        StartError::Mapping {
            slave: 6,
            index: 5632,
            subindex: 1,
            seen: 1880097035,
        },
        "slave 6: object 5632:1 is 1880097035",
    ),
];

#[test]
fn texts_of_failures(rt: HostRuntime) {
    for (error, text) in &TEXTS {
        expect_said(&rt, error, text);
    }
}

//! Start-ups of real devices that fail, and their explanations.
use crate::explain::machine::MACHINE;
use crate::explain::started::expect_told;
use ec_console::Refusal;
use ec_device::Device;
use ec_start::StartError;

/// A coupler without firmware, an axis with a parameter, and a probe with a fixed assignment.
const REAL: &str = "\
hardware = true

[[type]]
name = \"coupler\"
vendor = 2
product = 1
firmware = false

[[type]]
name = \"axis\"
vendor = 2
product = 2
mailbox = [0x1000, 128, 0x1080, 128]
out_start = 0x1100
in_start = 0x1180
rxpdo = [ { index = 0x1600, entries = [[0x6040, 0, 16]] } ]
txpdo = [ { index = 0x1A00, entries = [[0x6041, 0, 16]] } ]
init = [[0x6060, 0, 8, 8]]

[[type]]
name = \"probe\"
vendor = 2
product = 3
mailbox = [0x1000, 128, 0x1080, 128]
in_start = 0x1180
txpdo = [
  { index = 0x1A00, entries = [[0x6000, 1, 16]] },
  { index = 0x1A01, entries = [[0x6010, 1, 16]] },
]
fixed = true

[[slave]]
name = \"k\"
type = \"coupler\"
[[slave]]
name = \"a\"
type = \"axis\"
[[slave]]
name = \"p\"
type = \"probe\"
";

/// An SII that read zeros.
const ZEROS: Device = Device {
    vendor: 0,
    product: 0,
    revision: 0,
};

/// Failures of the real devices, and phrases of their explanations. The start-up has 97 steps: 9 for all, 3 station addresses, 2
/// waits in INIT, 6 each for who they are, 1 for all, 4 for mailboxes, 2 each for PREOP, 22 requests and replies of a and 14 of p, 4
/// and 2 settings, and 2 each for SAFEOP and OP.
const ERRORS: [(StartError, &str); 16] = [
    (
        StartError::Identity {
            slave: 1,
            seen: ZEROS,
        },
        "slave 1 a shows vendor 0x00000000;although the master took it;switch the slave off and on",
    ),
    (
        StartError::Counter { step: 43 },
        "the download of the parameter 0x8 into 0x6060:0x00;as if it was full;`mailbox`",
    ),
    (
        StartError::TooSlow { step: 44 },
        "a reply is awaited;0x6060:0x00;it sent no reply;still busy",
    ),
    (
        StartError::Counter { step: 75 },
        "a request is written;the upload of 0x1C13:0x01, a PDO that is assigned",
    ),
    (
        StartError::Counter { step: 94 },
        "slave 1 a: it is awaited in OP;outputs are fed in this step;`lrw = false`",
    ),
    (
        StartError::TooSlow { step: 96 },
        "slave 2 p: it is awaited in OP;distributed clocks;0x1C32:0x01",
    ),
    (
        StartError::AlError {
            slave: 1,
            code: 0x001B,
        },
        "its outputs didn't come in time;holds the frames back",
    ),
    (
        StartError::AlError {
            slave: 1,
            code: 0x001D,
        },
        "for its outputs;`out_manager`",
    ),
    (
        StartError::AlError {
            slave: 1,
            code: 0x001E,
        },
        "for its inputs;`in_manager`",
    ),
    (
        StartError::AlError {
            slave: 1,
            code: 0x0030,
        },
        "distributed clocks;0x1C33:0x01",
    ),
    (
        StartError::AlError {
            slave: 2,
            code: 0x0016,
        },
        "lie elsewhere;`ecat scan`",
    ),
    (
        StartError::Abort {
            slave: 1,
            code: 0x0601_0002,
        },
        "may be fixed;`fixed = true`",
    ),
    (
        StartError::Abort {
            slave: 1,
            code: 0x0609_0030,
        },
        "a parameter of `init`;that row of `init`",
    ),
    (
        StartError::Mapping {
            slave: 2,
            index: 0x1C13,
            subindex: 0,
            seen: 1,
        },
        "slave 2 p has 0x1 in its object 0x1C13:0x00;the table has 2 PDOs there;isn't that of its type;in its order",
    ),
    (
        StartError::Mapping {
            slave: 2,
            index: 0x1C13,
            subindex: 2,
            seen: 0x1A02,
        },
        "slave 2 p has 0x1A02 in its object 0x1C13:0x02;the table has the PDO 0x1A01 there",
    ),
    (
        StartError::Mapping {
            slave: 1,
            index: 0x1600,
            subindex: 1,
            seen: 0x6040_0020,
        },
        "slave 1 a has 0x60400020;[0x6040, 0x00, 32];write it by `init`",
    ),
];

/// The same failures where a table says nothing of real devices: `hardware = true` may be what it lacks.
const PLAIN_ERRORS: [(StartError, &str); 4] = [
    (
        StartError::Identity {
            slave: 1,
            seen: ZEROS,
        },
        "read zeros;`hardware = true`",
    ),
    (
        StartError::TooSlow { step: 2 },
        "copies the acknowledgement;`firmware = false`",
    ),
    (
        StartError::TooSlow { step: 108 },
        "slave 2 y: it is awaited in OP;may want outputs;`hardware = true`",
    ),
    (
        StartError::AlError {
            slave: 1,
            code: 0x001B,
        },
        "may want outputs;`hardware = true`",
    ),
];

#[test]
fn start_ups_of_real_devices(rt: HostRuntime) {
    for (error, wanted) in &ERRORS {
        expect_told(&rt, REAL, Refusal::Start(*error), wanted);
    }
}

#[test]
fn tables_that_lack_hardware(rt: HostRuntime) {
    for (error, wanted) in &PLAIN_ERRORS {
        expect_told(&rt, MACHINE, Refusal::Start(*error), wanted);
    }
}

//! Slaves that exchange an entry twice: a table can't say it, and leaves a PDO out.
use crate::rows::assert_same;
use crate::wire::scans::all_found;
use ec_device::{Entry, Identity, Mailbox, Pdo};
use ec_found::{Unsaid, printed};
use ec_listed::Listed;
use ec_scan::{Shown, ShownMailbox};
use std::process::Abort;

/// Sync managers: mailboxes at 0x1000 and 0x1080, outputs at 0x1100 and inputs at 0x1800, of no said length.
const MANAGERS: [u16; 18] = [
    41, 16, 0x1000, 128, 0x26, 0x0101, 0x1080, 128, 0x22, 0x0201, 0x1100, 0, 0x24, 0x0301, 0x1800,
    0, 0x20, 0x0401,
];

/// Output PDOs on manager 2: 0x1601 has the entry of 0x1600, 0x1602 has one twice, and 0x1603 has two gaps.
const OUTPUTS: [u16; 50] = [
    51, 48, //
    0x1600, 0x0201, 0, 0, 0x7000, 1, 0x1000, 0, //
    0x1601, 0x0202, 0, 0, 0x7010, 1, 0x0800, 0, 0x7000, 1, 0x1000, 0, //
    0x1602, 0x0202, 0, 0, 0x7020, 1, 0x0800, 0, 0x7020, 1, 0x0800, 0, //
    0x1603, 0x0203, 0, 0, 0, 0, 0x0400, 0, 0, 0, 0x0400, 0, 0x7000, 2, 0x0800, 0,
];

/// An input PDO on manager 3 with the entry of an output.
const INPUTS: [u16; 10] = [50, 8, 0x1A00, 0x0301, 0, 0, 0x7000, 1, 0x1000, 0];

/// What is common to a slave: by CoE its PDO assignment can be written, or can't.
const WRITTEN: [u16; 5] = [30, 3, 0, 0, 0x0500];

const FIXED: [u16; 5] = [30, 3, 0, 0, 0x0100];

/// The table of a slave without a mailbox.
const TABLE: &str = "\
version = 2
hardware = true

[[type]]
name = \"type\"
vendor = 0x5A5
product = 0x00000007
revision = 0x00000001
out_start = 0x1100
in_start = 0x1800
rxpdo = [
    { index = 0x1600, entries = [[0x7000, 1, 16]] },
]
txpdo = [
    { index = 0x1A00, entries = [[0x7000, 1, 16]] },
]

# its PDO 0x1601 is left out, and those behind it where the assignment can't be written: an entry of it is exchanged already, and a table has each entry once in a direction
[[slave]]
name = \"type\"
type = \"type\"

[[variable]]
name = \"type_7000_1\"
dir = \"out\"
bits = 16
[[link]]
var = \"type_7000_1\"
slave = \"type\"
index = 0x7000
sub = 1

[[variable]]
name = \"type_7000_1_2\"
dir = \"in\"
bits = 16
[[link]]
var = \"type_7000_1_2\"
slave = \"type\"
index = 0x7000
sub = 1
";

/// The table of a drive whose assignment can be written: the type lists both PDOs, and the slave assigns the first.
const WRITTEN_TABLE: &str = "\
version = 2
hardware = true

[[type]]
name = \"type\"
vendor = 0x5A5
product = 0x00000007
revision = 0x00000001
mailbox = [0x1000, 128, 0x1080, 128]
out_start = 0x1100
in_start = 0x1800
rxpdo = [
    { index = 0x1600, entries = [[0x6040, 0, 16], [0x607A, 0, 32]] },
    { index = 0x1601, entries = [[0x6040, 0, 16], [0x60FF, 0, 32]] },
]

# its PDO 0x1601 is left out, and those behind it where the assignment can't be written: an entry of it is exchanged already, and a table has each entry once in a direction
[[slave]]
name = \"type\"
type = \"type\"
out = [0x1600]

[[variable]]
name = \"type_6040_0\"
dir = \"out\"
bits = 16
[[link]]
var = \"type_6040_0\"
slave = \"type\"
index = 0x6040
sub = 0

[[variable]]
name = \"type_607a_0\"
dir = \"out\"
bits = 32
[[link]]
var = \"type_607a_0\"
slave = \"type\"
index = 0x607A
sub = 0
";

/// If it can't be written, the type lists the first alone.
const FIXED_TABLE: &str = "\
version = 2
hardware = true

[[type]]
name = \"type\"
vendor = 0x5A5
product = 0x00000007
revision = 0x00000001
mailbox = [0x1000, 128, 0x1080, 128]
out_start = 0x1100
in_start = 0x1800
fixed = true
rxpdo = [
    { index = 0x1600, entries = [[0x6040, 0, 16], [0x607A, 0, 32]] },
]

# its PDO 0x1601 is left out, and those behind it where the assignment can't be written: an entry of it is exchanged already, and a table has each entry once in a direction
[[slave]]
name = \"type\"
type = \"type\"

[[variable]]
name = \"type_6040_0\"
dir = \"out\"
bits = 16
[[link]]
var = \"type_6040_0\"
slave = \"type\"
index = 0x6040
sub = 0

[[variable]]
name = \"type_607a_0\"
dir = \"out\"
bits = 32
[[link]]
var = \"type_607a_0\"
slave = \"type\"
index = 0x607A
sub = 0
";

/// A type without a mailbox lists the PDOs before the first that is left out. By CoE it lists all, and the slave assigns those that are left,
/// unless its assignment is fixed.
pub fn expect_left_out(rt: &(impl AllocGlobal + Abort)) {
    let plain = shown_with(
        rt,
        0,
        &[MANAGERS.as_slice(), OUTPUTS.as_slice(), INPUTS.as_slice()],
    );
    expect_found(rt, plain, &[0x1600], 1, TABLE);
    let mut written = shown_with(rt, 128, &[MANAGERS.as_slice(), WRITTEN.as_slice()]);
    written.outputs = Some(servo_pdos(rt));
    expect_found(rt, written, &[0x1600], 2, WRITTEN_TABLE);
    let mut fixed = shown_with(rt, 128, &[MANAGERS.as_slice(), FIXED.as_slice()]);
    fixed.outputs = Some(servo_pdos(rt));
    expect_found(rt, fixed, &[0x1600], 1, FIXED_TABLE);
}

/// What a slave shows that has these categories, and mailboxes of so many bytes.
fn shown_with(rt: &(impl AllocGlobal + Abort), size: u16, categories: &[&[u16]]) -> Shown {
    let mut words = Listed::new(rt.alloc());
    for category in categories {
        for word in *category {
            words.push(*word).expect(rt, "memory");
        }
    }
    words.push(0xFFFF).expect(rt, "memory");
    let place = Mailbox {
        receive_start: 0x1000,
        receive_size: size,
        send_start: 0x1080,
        send_size: size,
    };
    Shown {
        identity: Identity {
            vendor: 0x5A5,
            product: 7,
            revision: 1,
            serial: 0,
        },
        mailbox: ShownMailbox {
            place,
            protocols: 4,
        },
        has_firmware: true,
        categories: words,
        outputs: None,
        inputs: None,
    }
}

/// Two PDOs with one controlword.
fn servo_pdos(rt: &(impl AllocGlobal + Abort)) -> Listed<Pdo> {
    let mut pdos = Listed::new(rt.alloc());
    for (index, target) in [(0x1600, 0x607A), (0x1601, 0x60FF)] {
        let entries = [
            Entry {
                index: 0x6040,
                subindex: 0,
                bits: 16,
            },
            Entry {
                index: target,
                subindex: 0,
                bits: 32,
            },
        ];
        let entries = Listed::copied(rt.alloc(), &entries).expect(rt, "memory");
        pdos.push(Pdo { index, entries }).expect(rt, "memory");
    }
    pdos
}

/// The slave assigns these output PDOs, of so many of its type; 0x1601 is left out, and this is its table.
fn expect_found(
    rt: &(impl AllocGlobal + Abort),
    slave: Shown,
    assigned: &[u16],
    listed: usize,
    table: &str,
) {
    let mut shown = Vec::new(rt.alloc());
    shown.push(slave).expect(rt, "memory");
    let found = all_found(rt, shown.as_slice());
    for one in found.as_slice() {
        assert_same(rt, &one.outputs.as_slice(), &assigned, "assigned");
        assert_same(rt, &one.kind.outputs().len(), &listed, "listed");
        let unsaid = [Unsaid::Repeats(0x1601)];
        assert_same(rt, &one.unsaid.as_slice(), &unsaid.as_slice(), "unsaid");
    }
    let text = printed(rt.alloc(), shown.as_slice(), found.as_slice()).expect(rt, "a text");
    assert_same(rt, &text.as_str(), &table, "the table");
}

//! The table of three slaves, spelled otherwise.

/// The rows of `THREE_SLAVES`, a line each.
pub const SHORT_THREE_SLAVES: &str = r#"type = [
  { name = "do4", vendor = 0xABCD, product = 1, revision = 1, out_start = 0x1100, in_start = 0, rxpdo = [ { index = 0x1600, entries = [[0x7000, 1, 4]] } ] },
  { name = "di4", vendor = 0xABCD, product = 2, revision = 1, out_start = 0, in_start = 0x1100, txpdo = [ { index = 0x1A00, entries = [[0x6000, 1, 4]] } ] },
  { name = "mix", vendor = 0xABCD, product = 3, revision = 1, mailbox = [0x1000, 128, 0x1080, 128], out_start = 0x1100, in_start = 0x1400, rxpdo = [ { index = 0x1600, entries = [[0x7010, 1, 12]] } ], txpdo = [ { index = 0x1A00, entries = [[0x6010, 1, 16]] } ] },
]
slave = [ { name = "s0", type = "do4" }, { name = "s1", type = "di4" }, { name = "s2", type = "mix" } ]
variable = [ { name = "a", dir = "out", bits = 4 }, { name = "b", dir = "out", bits = 12 }, { name = "c", dir = "in", bits = 4 }, { name = "d", dir = "in", bits = 16 } ]
link = [ { var = "a", slave = "s0", index = 0x7000, sub = 1 }, { var = "b", slave = "s2", index = 0x7010, sub = 1 }, { var = "c", slave = "s1", index = 0x6000, sub = 1 }, { var = "d", slave = "s2", index = 0x6010, sub = 1 } ]
"#;

/// The same, with a first slave that takes no part in LRW.
pub const SHORT_WITHOUT_LRW: &str = r#"type = [
  { name = "do4", vendor = 0xABCD, product = 1, revision = 1, out_start = 0x1100, in_start = 0, rxpdo = [ { index = 0x1600, entries = [[0x7000, 1, 4]] } ], lrw = false },
  { name = "di4", vendor = 0xABCD, product = 2, revision = 1, out_start = 0, in_start = 0x1100, txpdo = [ { index = 0x1A00, entries = [[0x6000, 1, 4]] } ] },
  { name = "mix", vendor = 0xABCD, product = 3, revision = 1, mailbox = [0x1000, 128, 0x1080, 128], out_start = 0x1100, in_start = 0x1400, rxpdo = [ { index = 0x1600, entries = [[0x7010, 1, 12]] } ], txpdo = [ { index = 0x1A00, entries = [[0x6010, 1, 16]] } ] },
]
slave = [ { name = "s0", type = "do4" }, { name = "s1", type = "di4" }, { name = "s2", type = "mix" } ]
variable = [ { name = "a", dir = "out", bits = 4 }, { name = "b", dir = "out", bits = 12 }, { name = "c", dir = "in", bits = 4 }, { name = "d", dir = "in", bits = 16 } ]
link = [ { var = "a", slave = "s0", index = 0x7000, sub = 1 }, { var = "b", slave = "s2", index = 0x7010, sub = 1 }, { var = "c", slave = "s1", index = 0x6000, sub = 1 }, { var = "d", slave = "s2", index = 0x6010, sub = 1 } ]
"#;

/// `SHORT_THREE_SLAVES` in version 2, with the second slave in a sync unit of its own.
pub const SHORT_TWO_UNITS: &str = r#"version = 2
type = [
  { name = "do4", vendor = 0xABCD, product = 1, revision = 1, out_start = 0x1100, in_start = 0, rxpdo = [ { index = 0x1600, entries = [[0x7000, 1, 4]] } ] },
  { name = "di4", vendor = 0xABCD, product = 2, revision = 1, out_start = 0, in_start = 0x1100, txpdo = [ { index = 0x1A00, entries = [[0x6000, 1, 4]] } ] },
  { name = "mix", vendor = 0xABCD, product = 3, revision = 1, mailbox = [0x1000, 128, 0x1080, 128], out_start = 0x1100, in_start = 0x1400, rxpdo = [ { index = 0x1600, entries = [[0x7010, 1, 12]] } ], txpdo = [ { index = 0x1A00, entries = [[0x6010, 1, 16]] } ] },
]
slave = [ { name = "s0", type = "do4" }, { name = "s1", type = "di4", unit = 1 }, { name = "s2", type = "mix" } ]
variable = [ { name = "a", dir = "out", bits = 4 }, { name = "b", dir = "out", bits = 12 }, { name = "c", dir = "in", bits = 4 }, { name = "d", dir = "in", bits = 16 } ]
link = [ { var = "a", slave = "s0", index = 0x7000, sub = 1 }, { var = "b", slave = "s2", index = 0x7010, sub = 1 }, { var = "c", slave = "s1", index = 0x6000, sub = 1 }, { var = "d", slave = "s2", index = 0x6010, sub = 1 } ]
"#;

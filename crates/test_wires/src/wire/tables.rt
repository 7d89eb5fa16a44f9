//! Tables of the machines.

/// Three slaves: 4 outputs; 4 inputs; 12 outputs and 16 inputs. Variable `d` is what slave 2 makes of `b`.
pub const THREE_SLAVES: &str = test_data::SHORT_THREE_SLAVES;

/// A table of 64 slaves of 2048 bits each way, in 13 parts. Its input variable is what the last slave makes of its output
/// variable.
pub const FULL_TABLE: &str =
    r#"variable = [ { name = "a", dir = "out", bits = 64 }, { name = "b", dir = "in", bits = 64 } ]
link = [ { var = "a", slave = "s63", index = 0x7000, sub = 1 }, { var = "b", slave = "s63", index = 0x7000, sub = 1 } ]
slave = [
    { name = "s0", type = "full" }, { name = "s1", type = "full" }, { name = "s2", type = "full" },
    { name = "s3", type = "full" }, { name = "s4", type = "full" }, { name = "s5", type = "full" },
    { name = "s6", type = "full" }, { name = "s7", type = "full" }, { name = "s8", type = "full" },
    { name = "s9", type = "full" }, { name = "s10", type = "full" }, { name = "s11", type = "full" },
    { name = "s12", type = "full" }, { name = "s13", type = "full" }, { name = "s14", type = "full" },
    { name = "s15", type = "full" }, { name = "s16", type = "full" }, { name = "s17", type = "full" },
    { name = "s18", type = "full" }, { name = "s19", type = "full" }, { name = "s20", type = "full" },
    { name = "s21", type = "full" }, { name = "s22", type = "full" }, { name = "s23", type = "full" },
    { name = "s24", type = "full" }, { name = "s25", type = "full" }, { name = "s26", type = "full" },
    { name = "s27", type = "full" }, { name = "s28", type = "full" }, { name = "s29", type = "full" },
    { name = "s30", type = "full" }, { name = "s31", type = "full" }, { name = "s32", type = "full" },
    { name = "s33", type = "full" }, { name = "s34", type = "full" }, { name = "s35", type = "full" },
    { name = "s36", type = "full" }, { name = "s37", type = "full" }, { name = "s38", type = "full" },
    { name = "s39", type = "full" }, { name = "s40", type = "full" }, { name = "s41", type = "full" },
    { name = "s42", type = "full" }, { name = "s43", type = "full" }, { name = "s44", type = "full" },
    { name = "s45", type = "full" }, { name = "s46", type = "full" }, { name = "s47", type = "full" },
    { name = "s48", type = "full" }, { name = "s49", type = "full" }, { name = "s50", type = "full" },
    { name = "s51", type = "full" }, { name = "s52", type = "full" }, { name = "s53", type = "full" },
    { name = "s54", type = "full" }, { name = "s55", type = "full" }, { name = "s56", type = "full" },
    { name = "s57", type = "full" }, { name = "s58", type = "full" }, { name = "s59", type = "full" },
    { name = "s60", type = "full" }, { name = "s61", type = "full" }, { name = "s62", type = "full" },
    { name = "s63", type = "full" },
]
[[type]]
name = "full"
vendor = 1
product = 1
revision = 1
out_start = 0x1100
in_start = 0x1800
rxpdo = [ { index = 0x1600, entries = [
    [0x7000, 1, 64], [0x7000, 2, 64], [0x7000, 3, 64], [0x7000, 4, 64],
    [0x7000, 5, 64], [0x7000, 6, 64], [0x7000, 7, 64], [0x7000, 8, 64],
    [0x7000, 9, 64], [0x7000, 10, 64], [0x7000, 11, 64], [0x7000, 12, 64],
    [0x7000, 13, 64], [0x7000, 14, 64], [0x7000, 15, 64], [0x7000, 16, 64],
    [0x7000, 17, 64], [0x7000, 18, 64], [0x7000, 19, 64], [0x7000, 20, 64],
    [0x7000, 21, 64], [0x7000, 22, 64], [0x7000, 23, 64], [0x7000, 24, 64],
    [0x7000, 25, 64], [0x7000, 26, 64], [0x7000, 27, 64], [0x7000, 28, 64],
    [0x7000, 29, 64], [0x7000, 30, 64], [0x7000, 31, 64], [0x7000, 32, 64],
] } ]
txpdo = [ { index = 0x1A00, entries = [
    [0x7000, 1, 64], [0x7000, 2, 64], [0x7000, 3, 64], [0x7000, 4, 64],
    [0x7000, 5, 64], [0x7000, 6, 64], [0x7000, 7, 64], [0x7000, 8, 64],
    [0x7000, 9, 64], [0x7000, 10, 64], [0x7000, 11, 64], [0x7000, 12, 64],
    [0x7000, 13, 64], [0x7000, 14, 64], [0x7000, 15, 64], [0x7000, 16, 64],
    [0x7000, 17, 64], [0x7000, 18, 64], [0x7000, 19, 64], [0x7000, 20, 64],
    [0x7000, 21, 64], [0x7000, 22, 64], [0x7000, 23, 64], [0x7000, 24, 64],
    [0x7000, 25, 64], [0x7000, 26, 64], [0x7000, 27, 64], [0x7000, 28, 64],
    [0x7000, 29, 64], [0x7000, 30, 64], [0x7000, 31, 64], [0x7000, 32, 64],
] } ]
"#;

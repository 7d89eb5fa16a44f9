//! The table of three slaves of which start-ups and cycles fail.

/// A machine of three slaves.
pub const MACHINE: &str = "\
version = 2

# a coupler with lamps and buttons
[[type]]
name = \"coupler\"
vendor = 1
product = 2
revision = 3
out_start = 0x1100
in_start = 0x1200
rxpdo = [ { index = 0x1600, entries = [[0x7000, 1, 1], [0x7000, 2, 1], [0, 0, 6]] } ]
txpdo = [ { index = 0x1A00, entries = [[0x6000, 1, 8]] } ]

[[type]]
name = \"drive\"
vendor = 1
product = 4
revision = 1
mailbox = [0x1000, 128, 0x1080, 128]
out_start = 0x1400
in_start = 0x1600
rxpdo = [
  { index = 0x1600, entries = [[0x6040, 0, 16], [0x607A, 0, 32]] },
  { index = 0x1601, entries = [[0x6040, 0, 16], [0x60FF, 0, 32]] },
]
txpdo = [ { index = 0x1A00, entries = [[0x6041, 0, 16], [0x6064, 0, 32]] } ]

[[slave]]
name = \"panel\"
type = \"coupler\"
[[slave]]
name = \"x\"
type = \"drive\"
out = [0x1600]
[[slave]]
name = \"y\"
type = \"drive\"
out = [0x1601]
unit = 1

[[variable]]
name = \"lamps\"
dir = \"out\"
bits = 2
[[variable]]
name = \"buttons\"
dir = \"in\"
bits = 8
[[variable]]
name = \"x_target\"
dir = \"out\"
bits = 32

[[link]]
var = \"lamps\"
slave = \"panel\"
index = 0x7000
sub = 1
bits = [0, 0, 1]
[[link]]
var = \"buttons\"
slave = \"panel\"
index = 0x6000
sub = 1
[[link]]
var = \"x_target\"
slave = \"x\"
index = 0x607A
sub = 0
";

//! Tables as texts, and all that each of them holds.

/// `examples/three_slaves.toml`.
pub const THREE_SLAVES: &str = test_data::THREE_SLAVES;

/// The same, a line for each list.
pub const SHORT: &str = test_data::SHORT_THREE_SLAVES;

/// `examples/small_machine.toml`.
pub const SMALL_MACHINE: &str = test_data::SMALL_MACHINE;

/// Three slaves of a type with four digital outputs, each of which writes its own variable.
pub const THREE_OF_A_TYPE: &str = r#"[[type]]
name = "do4"
vendor = 0xABCD
product = 1
revision = 1
out_start = 0x1100
in_start = 0
rxpdo = [ { index = 0x1600, entries = [[0x7000, 1, 4]] } ]
[[slave]]
name = "s0"
type = "do4"
[[variable]]
name = "v0"
dir = "out"
bits = 4
[[link]]
var = "v0"
slave = "s0"
index = 0x7000
sub = 1
[[slave]]
name = "s1"
type = "do4"
[[variable]]
name = "v1"
dir = "out"
bits = 4
[[link]]
var = "v1"
slave = "s1"
index = 0x7000
sub = 1
[[slave]]
name = "s2"
type = "do4"
[[variable]]
name = "v2"
dir = "out"
bits = 4
[[link]]
var = "v2"
slave = "s2"
index = 0x7000
sub = 1
"#;

/// All that the table of three slaves holds, a line for each row.
pub const THREE_SLAVES_READ: &str = r#"One
TypeRow { name: Name { text: "do4" }, device: Device { vendor: 43981, product: 1, revision: 1 }, mailbox: None, process: ProcessData { out_start: 4352, in_start: 0, outputs: Listed { items: [Pdo { index: 5632, entries: Listed { items: [Entry { index: 28672, subindex: 1, bits: 4 }] } }] }, inputs: Listed { items: [] } }, lrw: true, hardware: None, init: Listed { items: [] } }
TypeRow { name: Name { text: "di4" }, device: Device { vendor: 43981, product: 2, revision: 1 }, mailbox: None, process: ProcessData { out_start: 0, in_start: 4352, outputs: Listed { items: [] }, inputs: Listed { items: [Pdo { index: 6656, entries: Listed { items: [Entry { index: 24576, subindex: 1, bits: 4 }] } }] } }, lrw: true, hardware: None, init: Listed { items: [] } }
TypeRow { name: Name { text: "mix" }, device: Device { vendor: 43981, product: 3, revision: 1 }, mailbox: Some(Mailbox { receive_start: 4096, receive_size: 128, send_start: 4224, send_size: 128 }), process: ProcessData { out_start: 4352, in_start: 5120, outputs: Listed { items: [Pdo { index: 5632, entries: Listed { items: [Entry { index: 28688, subindex: 1, bits: 12 }] } }] }, inputs: Listed { items: [Pdo { index: 6656, entries: Listed { items: [Entry { index: 24592, subindex: 1, bits: 16 }] } }] } }, lrw: true, hardware: None, init: Listed { items: [] } }
SlaveRow { name: Name { text: "s0" }, type_index: 0, outputs: Listed { items: [5632] }, inputs: Listed { items: [] }, serial: 0, unit: 0, init: Listed { items: [] } }
SlaveRow { name: Name { text: "s1" }, type_index: 1, outputs: Listed { items: [] }, inputs: Listed { items: [6656] }, serial: 0, unit: 0, init: Listed { items: [] } }
SlaveRow { name: Name { text: "s2" }, type_index: 2, outputs: Listed { items: [5632] }, inputs: Listed { items: [6656] }, serial: 0, unit: 0, init: Listed { items: [] } }
VariableRow { name: Name { text: "a" }, direction: Out, bits: 4, signed: false }
VariableRow { name: Name { text: "b" }, direction: Out, bits: 12, signed: false }
VariableRow { name: Name { text: "c" }, direction: In, bits: 4, signed: false }
VariableRow { name: Name { text: "d" }, direction: In, bits: 16, signed: false }
LinkRow { variable: 0, slave: 0, index: 28672, subindex: 1, bits: LinkBits { variable_bit: 0, entry_bit: 0, count: 4 } }
LinkRow { variable: 1, slave: 2, index: 28688, subindex: 1, bits: LinkBits { variable_bit: 0, entry_bit: 0, count: 12 } }
LinkRow { variable: 2, slave: 1, index: 24576, subindex: 1, bits: LinkBits { variable_bit: 0, entry_bit: 0, count: 4 } }
LinkRow { variable: 3, slave: 2, index: 24592, subindex: 1, bits: LinkBits { variable_bit: 0, entry_bit: 0, count: 16 } }
"#;

/// The same of the small machine.
pub const SMALL_MACHINE_READ: &str = r#"Two
TypeRow { name: Name { text: "coupler" }, device: Device { vendor: 1445, product: 17, revision: 2 }, mailbox: None, process: ProcessData { out_start: 4352, in_start: 4480, outputs: Listed { items: [Pdo { index: 5632, entries: Listed { items: [Entry { index: 28672, subindex: 1, bits: 1 }, Entry { index: 28672, subindex: 2, bits: 1 }, Entry { index: 28672, subindex: 3, bits: 1 }, Entry { index: 28672, subindex: 4, bits: 1 }, Entry { index: 0, subindex: 0, bits: 4 }] } }] }, inputs: Listed { items: [Pdo { index: 6656, entries: Listed { items: [Entry { index: 24576, subindex: 1, bits: 8 }] } }] } }, lrw: true, hardware: None, init: Listed { items: [] } }
TypeRow { name: Name { text: "analog2" }, device: Device { vendor: 1445, product: 770, revision: 1 }, mailbox: Some(Mailbox { receive_start: 4096, receive_size: 128, send_start: 4224, send_size: 128 }), process: ProcessData { out_start: 4352, in_start: 5120, outputs: Listed { items: [Pdo { index: 5632, entries: Listed { items: [Entry { index: 28688, subindex: 17, bits: 16 }] } }, Pdo { index: 5633, entries: Listed { items: [Entry { index: 28704, subindex: 17, bits: 16 }] } }] }, inputs: Listed { items: [Pdo { index: 6656, entries: Listed { items: [Entry { index: 24592, subindex: 1, bits: 8 }, Entry { index: 0, subindex: 0, bits: 8 }, Entry { index: 24592, subindex: 17, bits: 16 }] } }, Pdo { index: 6657, entries: Listed { items: [Entry { index: 24608, subindex: 1, bits: 8 }, Entry { index: 0, subindex: 0, bits: 8 }, Entry { index: 24608, subindex: 17, bits: 16 }] } }] } }, lrw: false, hardware: None, init: Listed { items: [] } }
SlaveRow { name: Name { text: "panel" }, type_index: 0, outputs: Listed { items: [5632] }, inputs: Listed { items: [6656] }, serial: 0, unit: 0, init: Listed { items: [] } }
SlaveRow { name: Name { text: "press" }, type_index: 1, outputs: Listed { items: [5633] }, inputs: Listed { items: [6657] }, serial: 1042, unit: 1, init: Listed { items: [] } }
VariableRow { name: Name { text: "lamp" }, direction: Out, bits: 1, signed: false }
VariableRow { name: Name { text: "valves" }, direction: Out, bits: 2, signed: false }
VariableRow { name: Name { text: "switches" }, direction: In, bits: 8, signed: false }
VariableRow { name: Name { text: "force_wanted" }, direction: Out, bits: 16, signed: false }
VariableRow { name: Name { text: "force" }, direction: In, bits: 16, signed: false }
LinkRow { variable: 0, slave: 0, index: 28672, subindex: 1, bits: LinkBits { variable_bit: 0, entry_bit: 0, count: 1 } }
LinkRow { variable: 1, slave: 0, index: 28672, subindex: 2, bits: LinkBits { variable_bit: 0, entry_bit: 0, count: 1 } }
LinkRow { variable: 1, slave: 0, index: 28672, subindex: 3, bits: LinkBits { variable_bit: 1, entry_bit: 0, count: 1 } }
LinkRow { variable: 2, slave: 0, index: 24576, subindex: 1, bits: LinkBits { variable_bit: 0, entry_bit: 0, count: 8 } }
LinkRow { variable: 3, slave: 1, index: 28704, subindex: 17, bits: LinkBits { variable_bit: 0, entry_bit: 0, count: 16 } }
LinkRow { variable: 4, slave: 1, index: 24608, subindex: 17, bits: LinkBits { variable_bit: 0, entry_bit: 0, count: 16 } }
"#;

/// The same of the three slaves of a type.
pub const THREE_OF_A_TYPE_READ: &str = r#"One
TypeRow { name: Name { text: "do4" }, device: Device { vendor: 43981, product: 1, revision: 1 }, mailbox: None, process: ProcessData { out_start: 4352, in_start: 0, outputs: Listed { items: [Pdo { index: 5632, entries: Listed { items: [Entry { index: 28672, subindex: 1, bits: 4 }] } }] }, inputs: Listed { items: [] } }, lrw: true, hardware: None, init: Listed { items: [] } }
SlaveRow { name: Name { text: "s0" }, type_index: 0, outputs: Listed { items: [5632] }, inputs: Listed { items: [] }, serial: 0, unit: 0, init: Listed { items: [] } }
SlaveRow { name: Name { text: "s1" }, type_index: 0, outputs: Listed { items: [5632] }, inputs: Listed { items: [] }, serial: 0, unit: 0, init: Listed { items: [] } }
SlaveRow { name: Name { text: "s2" }, type_index: 0, outputs: Listed { items: [5632] }, inputs: Listed { items: [] }, serial: 0, unit: 0, init: Listed { items: [] } }
VariableRow { name: Name { text: "v0" }, direction: Out, bits: 4, signed: false }
VariableRow { name: Name { text: "v1" }, direction: Out, bits: 4, signed: false }
VariableRow { name: Name { text: "v2" }, direction: Out, bits: 4, signed: false }
LinkRow { variable: 0, slave: 0, index: 28672, subindex: 1, bits: LinkBits { variable_bit: 0, entry_bit: 0, count: 4 } }
LinkRow { variable: 1, slave: 1, index: 28672, subindex: 1, bits: LinkBits { variable_bit: 0, entry_bit: 0, count: 4 } }
LinkRow { variable: 2, slave: 2, index: 28672, subindex: 1, bits: LinkBits { variable_bit: 0, entry_bit: 0, count: 4 } }
"#;

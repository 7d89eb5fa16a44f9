//! Link tables of `examples/`, and the scripts behind some of them. `tools/examples/run` looks whether they are the files, word
//! for word.

/// `examples/three_slaves.toml`.
pub const THREE_SLAVES: &str =
    r#"# Three slaves in a row: four digital outputs, four digital inputs, and a terminal
# with a mailbox that has both a setpoint of 12 bits and a measured value of 16.

# A type of slaves. RxPDOs are what the master writes, from `out_start` on in the
# slave's memory; an entry is [index, subindex, bits].
[[type]]
name = "do4"
vendor = 0xABCD
product = 1
revision = 1
out_start = 0x1100
in_start = 0
rxpdo = [ { index = 0x1600, entries = [[0x7000, 1, 4]] } ]

# TxPDOs are what the master reads, from `in_start` on.
[[type]]
name = "di4"
vendor = 0xABCD
product = 2
revision = 1
out_start = 0
in_start = 0x1100
txpdo = [ { index = 0x1A00, entries = [[0x6000, 1, 4]] } ]

# A mailbox is [receive start, receive size, send start, send size], in bytes.
[[type]]
name = "mix"
vendor = 0xABCD
product = 3
revision = 1
mailbox = [0x1000, 128, 0x1080, 128]
out_start = 0x1100
in_start = 0x1400
rxpdo = [ { index = 0x1600, entries = [[0x7010, 1, 12]] } ]
txpdo = [ { index = 0x1A00, entries = [[0x6010, 1, 16]] } ]

# The slaves, in the order in which a frame passes them.
[[slave]]
name = "s0"
type = "do4"
[[slave]]
name = "s1"
type = "di4"
[[slave]]
name = "s2"
type = "mix"

# The variables of the process image: `out` goes to a slave, `in` comes from one.
[[variable]]
name = "a"
dir = "out"
bits = 4
[[variable]]
name = "b"
dir = "out"
bits = 12
[[variable]]
name = "c"
dir = "in"
bits = 4
[[variable]]
name = "d"
dir = "in"
bits = 16

# The links: without `bits` a link joins all bits of its variable, from bit 0 on.
[[link]]
var = "a"
slave = "s0"
index = 0x7000
sub = 1
[[link]]
var = "b"
slave = "s2"
index = 0x7010
sub = 1
[[link]]
var = "c"
slave = "s1"
index = 0x6000
sub = 1
[[link]]
var = "d"
slave = "s2"
index = 0x6010
sub = 1
"#;

/// `examples/three_slaves_inline.toml`.
pub const THREE_SLAVES_INLINE: &str =
    r#"# The table of `three_slaves.toml` once more, with its sections as inline arrays, an
# element a line. They stand before the first `[[..]]`, since what follows such a line
# belongs to it. A section is written in one way or in the other, not in both.
slave = [
    { name = "s0", type = "do4" },
    { name = "s1", type = "di4" },
    { name = "s2", type = "mix" },
]
variable = [
    { name = "a", dir = "out", bits = 4 },
    { name = "b", dir = "out", bits = 12 },
    { name = "c", dir = "in", bits = 4 },
    { name = "d", dir = "in", bits = 16 },
]
link = [
    { var = "a", slave = "s0", index = 0x7000, sub = 1 },
    { var = "b", slave = "s2", index = 0x7010, sub = 1 },
    { var = "c", slave = "s1", index = 0x6000, sub = 1 },
    { var = "d", slave = "s2", index = 0x6010, sub = 1 },
]

[[type]]
name = "do4"
vendor = 0xABCD
product = 1
revision = 1
out_start = 0x1100
in_start = 0
rxpdo = [ { index = 0x1600, entries = [[0x7000, 1, 4]] } ]

[[type]]
name = "di4"
vendor = 0xABCD
product = 2
revision = 1
out_start = 0
in_start = 0x1100
txpdo = [ { index = 0x1A00, entries = [[0x6000, 1, 4]] } ]

[[type]]
name = "mix"
vendor = 0xABCD
product = 3
revision = 1
mailbox = [0x1000, 128, 0x1080, 128]
out_start = 0x1100
in_start = 0x1400
rxpdo = [ { index = 0x1600, entries = [[0x7010, 1, 12]] } ]
txpdo = [ { index = 0x1A00, entries = [[0x6010, 1, 16]] } ]
"#;

/// `examples/small_machine.toml`.
pub const SMALL_MACHINE: &str =
    r#"# A small machine: a coupler with a few digital inputs and outputs, and an analog
# terminal with two channels, of which this machine uses one.
version = 2

# The coupler: four lamps and valves, one bit each, and a gap up to the byte;
# eight switches. It has no mailbox, so its slaves assign all of its objects.
[[type]]
name = "coupler"
vendor = 0x5A5
product = 0x0011
revision = 2
out_start = 0x1100
in_start = 0x1180
rxpdo = [
    { index = 0x1600, entries = [[0x7000, 1, 1], [0x7000, 2, 1], [0x7000, 3, 1], [0x7000, 4, 1], [0, 0, 4]] },
]
txpdo = [
    { index = 0x1A00, entries = [[0x6000, 1, 8]] },
]

# The analog terminal: each channel has a setpoint, a status byte with a gap
# behind it, and a measured value. It takes no part in LRW datagrams.
[[type]]
name = "analog2"
vendor = 0x5A5
product = 0x0302
revision = 1
mailbox = [0x1000, 128, 0x1080, 128]
out_start = 0x1100
in_start = 0x1400
rxpdo = [
    { index = 0x1600, entries = [[0x7010, 17, 16]] },
    { index = 0x1601, entries = [[0x7020, 17, 16]] },
]
txpdo = [
    { index = 0x1A00, entries = [[0x6010, 1, 8], [0, 0, 8], [0x6010, 17, 16]] },
    { index = 0x1A01, entries = [[0x6020, 1, 8], [0, 0, 8], [0x6020, 17, 16]] },
]
lrw = false

[[slave]]
name = "panel"
type = "coupler"

# The press runs in a sync unit of its own, with its second channel alone.
[[slave]]
name = "press"
type = "analog2"
out = [0x1601]
in = [0x1A01]
serial = 1042
unit = 1

[[variable]]
name = "lamp"
dir = "out"
bits = 1
[[variable]]
name = "valves"
dir = "out"
bits = 2
[[variable]]
name = "switches"
dir = "in"
bits = 8
[[variable]]
name = "force_wanted"
dir = "out"
bits = 16
[[variable]]
name = "force"
dir = "in"
bits = 16

[[link]]
var = "lamp"
slave = "panel"
index = 0x7000
sub = 1

# Both bits of `valves`, each to an entry of one bit: [variable bit, entry bit, count].
[[link]]
var = "valves"
slave = "panel"
index = 0x7000
sub = 2
bits = [0, 0, 1]
[[link]]
var = "valves"
slave = "panel"
index = 0x7000
sub = 3
bits = [1, 0, 1]

[[link]]
var = "switches"
slave = "panel"
index = 0x6000
sub = 1
[[link]]
var = "force_wanted"
slave = "press"
index = 0x7020
sub = 17
[[link]]
var = "force"
slave = "press"
index = 0x6020
sub = 17
"#;

/// `examples/terminals.toml`.
pub const TERMINALS: &str =
    r#"# Digital terminals behind a coupler, in two sync units: those of the machine and those
# of its guard door. Where a frame of one unit is lost, the other unit's inputs go on.
version = 2

# The slaves, in the order in which a frame passes them.
slave = [
    { name = "coupler", type = "coupler" },
    { name = "buttons", type = "di8" },
    { name = "lamps", type = "do8" },
    { name = "door_switches", type = "di8", unit = 1 },
    { name = "door_locks", type = "do8", unit = 1 },
]

# The variables of the control program, those of the machine first.
variable = [
    { name = "start_button", dir = "in", bits = 1 },
    { name = "stop_button", dir = "in", bits = 1 },
    { name = "mode_switch", dir = "in", bits = 2 },
    { name = "ready_lamp", dir = "out", bits = 1 },
    { name = "fault_lamp", dir = "out", bits = 1 },
    { name = "door_closed", dir = "in", bits = 1 },
    { name = "door_locked", dir = "in", bits = 1 },
    { name = "lock_door", dir = "out", bits = 1 },
]

# Each channel is an entry of one bit. A variable of two bits has two links, each
# `bits = [its bit, the entry's bit, how many]`. Channels without a link stay 0.
link = [
    { var = "start_button", slave = "buttons", index = 0x6000, sub = 1 },
    { var = "stop_button", slave = "buttons", index = 0x6010, sub = 1 },
    { var = "mode_switch", slave = "buttons", index = 0x6020, sub = 1, bits = [0, 0, 1] },
    { var = "mode_switch", slave = "buttons", index = 0x6030, sub = 1, bits = [1, 0, 1] },
    { var = "ready_lamp", slave = "lamps", index = 0x7000, sub = 1 },
    { var = "fault_lamp", slave = "lamps", index = 0x7010, sub = 1 },
    { var = "door_closed", slave = "door_switches", index = 0x6000, sub = 1 },
    { var = "door_locked", slave = "door_switches", index = 0x6010, sub = 1 },
    { var = "lock_door", slave = "door_locks", index = 0x7000, sub = 1 },
]

# The coupler has no process data of its own.
[[type]]
name = "coupler"
vendor = 0x5A5
product = 0x0100
revision = 17
out_start = 0
in_start = 0

# Eight inputs, each a process data object of its own.
[[type]]
name = "di8"
vendor = 0x5A5
product = 0x0108
revision = 16
out_start = 0
in_start = 0x1000
txpdo = [
    { index = 0x1A00, entries = [[0x6000, 1, 1]] },
    { index = 0x1A01, entries = [[0x6010, 1, 1]] },
    { index = 0x1A02, entries = [[0x6020, 1, 1]] },
    { index = 0x1A03, entries = [[0x6030, 1, 1]] },
    { index = 0x1A04, entries = [[0x6040, 1, 1]] },
    { index = 0x1A05, entries = [[0x6050, 1, 1]] },
    { index = 0x1A06, entries = [[0x6060, 1, 1]] },
    { index = 0x1A07, entries = [[0x6070, 1, 1]] },
]

# Eight outputs.
[[type]]
name = "do8"
vendor = 0x5A5
product = 0x0208
revision = 16
out_start = 0x1000
in_start = 0
rxpdo = [
    { index = 0x1600, entries = [[0x7000, 1, 1]] },
    { index = 0x1601, entries = [[0x7010, 1, 1]] },
    { index = 0x1602, entries = [[0x7020, 1, 1]] },
    { index = 0x1603, entries = [[0x7030, 1, 1]] },
    { index = 0x1604, entries = [[0x7040, 1, 1]] },
    { index = 0x1605, entries = [[0x7050, 1, 1]] },
    { index = 0x1606, entries = [[0x7060, 1, 1]] },
    { index = 0x1607, entries = [[0x7070, 1, 1]] },
]
"#;

/// `examples/drive.toml`.
pub const DRIVE: &str =
    r#"# A servo drive of the profile CiA 402 over CoE. It can take a target position or a target
# velocity, each in a process data object of its own that has the controlword too, so one
# of both is assigned: here that of the position.
slave = [
    { name = "axis", type = "servo", out = [0x1600], serial = 4711 },
]

variable = [
    { name = "controlword", dir = "out", bits = 16 },
    { name = "mode", dir = "out", bits = 8 },
    { name = "target_position", dir = "out", bits = 32 },
    { name = "statusword", dir = "in", bits = 16 },
    { name = "mode_shown", dir = "in", bits = 8 },
    { name = "position", dir = "in", bits = 32 },
    { name = "velocity", dir = "in", bits = 32 },
    { name = "home_switch", dir = "in", bits = 1 },
]

# Of the digital inputs bit 2 alone is linked.
link = [
    { var = "controlword", slave = "axis", index = 0x6040, sub = 0 },
    { var = "mode", slave = "axis", index = 0x6060, sub = 0 },
    { var = "target_position", slave = "axis", index = 0x607A, sub = 0 },
    { var = "statusword", slave = "axis", index = 0x6041, sub = 0 },
    { var = "mode_shown", slave = "axis", index = 0x6061, sub = 0 },
    { var = "position", slave = "axis", index = 0x6064, sub = 0 },
    { var = "velocity", slave = "axis", index = 0x606C, sub = 0 },
    { var = "home_switch", slave = "axis", index = 0x60FD, sub = 0, bits = [0, 2, 1] },
]

# Objects of CiA 402; the gap behind the mode fills a word.
[[type]]
name = "servo"
vendor = 0x5A5
product = 0x0402
revision = 3
mailbox = [0x1000, 256, 0x1200, 256]
out_start = 0x1400
in_start = 0x1600
rxpdo = [
    # controlword, mode of operation, target position
    { index = 0x1600, entries = [[0x6040, 0, 16], [0x6060, 0, 8], [0, 0, 8], [0x607A, 0, 32]] },
    # controlword, mode of operation, target velocity
    { index = 0x1601, entries = [[0x6040, 0, 16], [0x6060, 0, 8], [0, 0, 8], [0x60FF, 0, 32]] },
]
txpdo = [
    # statusword, mode of operation shown, position, velocity
    { index = 0x1A00, entries = [[0x6041, 0, 16], [0x6061, 0, 8], [0, 0, 8], [0x6064, 0, 32], [0x606C, 0, 32]] },
    # digital inputs
    { index = 0x1A01, entries = [[0x60FD, 0, 32]] },
]
"#;

/// `examples/line.toml`.
pub const LINE: &str =
    r#"# A line of eight stations, each with a terminal of 16 valves and one of 16 sensors: 16
# terminals in two sync units, the front and the rear half of the line.
version = 2

# The slaves, in the order in which a frame passes them.
slave = [
    { name = "valves_1", type = "do16" },
    { name = "sensors_1", type = "di16" },
    { name = "valves_2", type = "do16" },
    { name = "sensors_2", type = "di16" },
    { name = "valves_3", type = "do16" },
    { name = "sensors_3", type = "di16" },
    { name = "valves_4", type = "do16" },
    { name = "sensors_4", type = "di16" },
    { name = "valves_5", type = "do16", unit = 1 },
    { name = "sensors_5", type = "di16", unit = 1 },
    { name = "valves_6", type = "do16", unit = 1 },
    { name = "sensors_6", type = "di16", unit = 1 },
    { name = "valves_7", type = "do16", unit = 1 },
    { name = "sensors_7", type = "di16", unit = 1 },
    { name = "valves_8", type = "do16", unit = 1 },
    { name = "sensors_8", type = "di16", unit = 1 },
]

# A word of the control program for each terminal, a bit a channel.
variable = [
    { name = "open_1", dir = "out", bits = 16 },
    { name = "seen_1", dir = "in", bits = 16 },
    { name = "open_2", dir = "out", bits = 16 },
    { name = "seen_2", dir = "in", bits = 16 },
    { name = "open_3", dir = "out", bits = 16 },
    { name = "seen_3", dir = "in", bits = 16 },
    { name = "open_4", dir = "out", bits = 16 },
    { name = "seen_4", dir = "in", bits = 16 },
    { name = "open_5", dir = "out", bits = 16 },
    { name = "seen_5", dir = "in", bits = 16 },
    { name = "open_6", dir = "out", bits = 16 },
    { name = "seen_6", dir = "in", bits = 16 },
    { name = "open_7", dir = "out", bits = 16 },
    { name = "seen_7", dir = "in", bits = 16 },
    { name = "open_8", dir = "out", bits = 16 },
    { name = "seen_8", dir = "in", bits = 16 },
]

link = [
    { var = "open_1", slave = "valves_1", index = 0x7000, sub = 1 },
    { var = "seen_1", slave = "sensors_1", index = 0x6000, sub = 1 },
    { var = "open_2", slave = "valves_2", index = 0x7000, sub = 1 },
    { var = "seen_2", slave = "sensors_2", index = 0x6000, sub = 1 },
    { var = "open_3", slave = "valves_3", index = 0x7000, sub = 1 },
    { var = "seen_3", slave = "sensors_3", index = 0x6000, sub = 1 },
    { var = "open_4", slave = "valves_4", index = 0x7000, sub = 1 },
    { var = "seen_4", slave = "sensors_4", index = 0x6000, sub = 1 },
    { var = "open_5", slave = "valves_5", index = 0x7000, sub = 1 },
    { var = "seen_5", slave = "sensors_5", index = 0x6000, sub = 1 },
    { var = "open_6", slave = "valves_6", index = 0x7000, sub = 1 },
    { var = "seen_6", slave = "sensors_6", index = 0x6000, sub = 1 },
    { var = "open_7", slave = "valves_7", index = 0x7000, sub = 1 },
    { var = "seen_7", slave = "sensors_7", index = 0x6000, sub = 1 },
    { var = "open_8", slave = "valves_8", index = 0x7000, sub = 1 },
    { var = "seen_8", slave = "sensors_8", index = 0x6000, sub = 1 },
]

# 16 outputs in one word.
[[type]]
name = "do16"
vendor = 0x5A5
product = 0x0216
revision = 1
out_start = 0x1000
in_start = 0
rxpdo = [ { index = 0x1600, entries = [[0x7000, 1, 16]] } ]

# 16 inputs in one word.
[[type]]
name = "di16"
vendor = 0x5A5
product = 0x0116
revision = 1
out_start = 0
in_start = 0x1000
txpdo = [ { index = 0x1A00, entries = [[0x6000, 1, 16]] } ]
"#;

/// `examples/terminals.script`.
pub const TERMINALS_SCRIPT: &str = r#"%%
# Behind examples/terminals.toml: the machine's buttons and lamps, and the door of its guard.

# It comes up, and the inputs of both units are taken.
ready
expect ready
expect state coupler OP
expect state door_locks OP 0000
cycle
expect taken

# Somebody presses the start button, with the mode switch at 2 and the door closed.
in start_button 1
in mode_switch 2
in door_closed 1
cycle
expect start_button 1
expect stop_button 0
expect mode_switch 2
expect door_closed 1

# The control program locks the door and lights the lamp; the lock answers.
set lock_door 1 ready_lamp 1
within 1 expect lock_door 1
expect ready_lamp 1
expect fault_lamp 0
in door_locked 1
within 1 expect door_locked 1

# The frame of the door's unit is lost: the machine's inputs go on, and the door's stay.
in stop_button 1
in door_closed 0
begin
repeat 5 pass 0
return 0
lose 1
close
expect taken 0
expect untaken 1
expect stop_button 1
expect door_closed 1

# The next cycle brings them.
cycle
expect taken
expect door_closed 0

# The terminal of the door's switches loses its power: its unit isn't taken any more.
reset door_switches
cycle
expect state door_switches INIT
expect taken 0
expect untaken 1
expect door_locked 1
"#;

/// `examples/drive.script`.
pub const DRIVE_SCRIPT: &str = r#"%%
# Behind examples/drive.toml: the state machine of CiA 402, from power-on to operation enabled, a move,
# and a fault. The lines `in` say what the drive answers.
ready
expect ready
expect state axis OP 0000

# Switch on disabled.
in statusword 0x0240
within 1 expect statusword & 0x004F == 0x0040

# Shutdown: ready to switch on. Mode 8 is cyclic synchronous position.
set mode 8 controlword 0x0006
within 1 expect controlword 0x0006
expect mode 8
in mode_shown 8
in statusword 0x0221
within 1 expect statusword & 0x006F == 0x0021
expect mode_shown 8

# Switch on: switched on.
set controlword 0x0007
within 1 expect controlword 0x0007
in statusword 0x0233
within 1 expect statusword & 0x006F == 0x0023

# Enable operation: operation enabled.
set controlword 0x000F
within 1 expect controlword 0x000F
in statusword 0x0237
within 1 expect statusword & 0x006F == 0x0027

# A move backwards, to the home switch.
set target_position -1000
cycle
expect target_position -1000
expect target_position 0xFFFFFC18
in velocity -250
in position -1000
in home_switch 1
cycle
expect velocity -250
expect position -1000
expect home_switch 1

# The drive has a fault, which is reset.
in statusword 0x0218
within 1 expect statusword & 0x004F == 0x0008
set controlword 0x0080
within 1 expect controlword 0x0080
in statusword 0x0240
within 1 expect statusword & 0x004F == 0x0040

# Its application fails: the slave leaves OP, and nothing is taken any more.
fault axis
expect state axis SAFEOP
in position 0
cycle
expect untaken
expect position -1000
"#;

/// `examples/line.script`.
pub const LINE_SCRIPT: &str = r#"%%
# Behind examples/line.toml: valves follow the control program, and sensors the plant.
ready
expect ready
repeat 3 cycle
expect taken

# Each word reaches its terminal, and no other.
set open_1 0x8001 open_2 0x0100 open_5 0xFFFF open_8 0x00A5
within 1 expect open_1 0x8001
expect open_2 0x0100
expect open_3 0
expect open_4 0
expect open_5 0xFFFF
expect open_6 0
expect open_7 0
expect open_8 0x00A5

in seen_1 0x1234
in seen_4 -1
in seen_8 0x8000
cycle
expect seen_1 0x1234
expect seen_2 0
expect seen_3 0
expect seen_4 0xFFFF
expect seen_5 0
expect seen_6 0
expect seen_7 0
expect seen_8 0x8000

# A station of the rear half loses its power: the front half goes on.
reset sensors_6
in seen_2 0x0F0F
in seen_7 0x00F0
cycle
expect taken 0
expect untaken 1
expect seen_2 0x0F0F
expect seen_7 0

# Of the valves behind it the frame is as good as before.
set open_8 0
within 1 expect open_8 0
"#;

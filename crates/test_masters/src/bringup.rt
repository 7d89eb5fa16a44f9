//! Start-ups of three real slaves, undisturbed and with trouble at every place, as lines of steps (`steps` has their form).
//!
//! The frames are counted as the steps of the script: 0 counts the slaves, 1 and 2 ask for INIT, 3 to 5 clear, 6 to 8 give
//! stations, 9 to 26 read the identities, 27 and 28 set slave 2's mailboxes, 29 to 34 lead to PREOP, 35 to 54 are slave 2's
//! requests and replies, 55 to 62 set what maps process data, 63 to 68 lead to SAFEOP, and 69 to 74 to OP. What a step is about
//! stands in its frame from byte 34 on. Of a message that is the length, its type at 39, its service at 41, its command at 42,
//! its index at 43, its subindex at 45 and its value at 46.

mod slaves;
mod steps;
mod troubles;

pub use self::slaves::{THREE_SLAVES, changed_ring};
use self::steps::expect_steps;

/// Start-ups that nothing disturbs, over slaves that are the plan's and others.
const UNDISTURBED: &str = r#"
# three slaves come up
slaves right
starts 0
rises 75 > ready
show 3 8

# a slave is missing: the first frame counts two of three
slaves "di4" }, { name = "s2", type = "mix" } => "di4" }
starts 0
rises 1 > 26 2
rises 1 > 26 2
slaves right
rises 75 > ready

# slave 1 shows revision 2 where its type has 1: told by the third of its words, the sixth that is read, and nobody leaves INIT
slaves product = 2, revision = 1 => product = 2, revision = 2
starts 0
rises 21 > 27 1 0xABCD 2 2
rises 21 > 27 1 0xABCD 2 2
show 3 1
slaves right
rises 75 > ready

# slave 2 has an output entry of 11 bits, told by its second reply
slaves [0x7010, 1, 12] => [0x7010, 1, 11]
starts 0
rises 39 > 38 2 0x1600 1 0x7010010B
rises 39 > 38 2 0x1600 1 0x7010010B
slaves right
rises 75 > ready

# it has no PDO 0x1600, told by its first reply
slaves 0x1600, entries = [[0x7010 => 0x1601, entries = [[0x7010
starts 0
rises 37 > 30 2 0x06020000
rises 37 > 30 2 0x06020000
slaves right
rises 75 > ready
"#;

/// A slave of another vendor, product and revision, of an output entry of 11 bits, and without the PDO 0x1600: a start-up comes
/// up once that slave alone was exchanged for the plan's.
const EXCHANGED: &str = r#"
slaves 0xABCD, product = 2 => 0xABCE, product = 2
starts 0
rises 21 > 27 1 0xABCE 2 1
exchange 1
rises 75 > ready

slaves product = 2 => product = 3
starts 0
rises 21 > 27 1 0xABCD 3 1
exchange 1
rises 75 > ready

slaves product = 2, revision = 1 => product = 2, revision = 2
starts 0
rises 21 > 27 1 0xABCD 2 2
exchange 1
rises 75 > ready

slaves [0x7010, 1, 12] => [0x7010, 1, 11]
starts 0
rises 39 > 38 2 0x1600 1 0x7010010B
exchange 2
rises 75 > ready

slaves 0x1600, entries = [[0x7010 => 0x1601, entries = [[0x7010
starts 0
rises 37 > 30 2 0x06020000
exchange 2
rises 75 > ready
"#;

#[test]
fn undisturbed_and_exchanged(rt: HostRuntime) {
    expect_steps(&rt, THREE_SLAVES, UNDISTURBED);
    expect_steps(&rt, THREE_SLAVES, EXCHANGED);
}

/// Start-ups that have numbers for so many frames: before the first frame, in each phase, and before the last frame. Begun anew
/// they have no number at all. Each time one from number 0 comes up over the same slaves.
const SPENT: &str = "
slaves right
spares 0
rises 0 > 36
rises 0 > 36
starts 0
rises 75 > ready
spares 7
rises 7 > 36
rises 0 > 36
starts 0
rises 75 > ready
spares 12
rises 12 > 36
rises 0 > 36
starts 0
rises 75 > ready
spares 28
rises 28 > 36
rises 0 > 36
starts 0
rises 75 > ready
spares 31
rises 31 > 36
rises 0 > 36
starts 0
rises 75 > ready
spares 40
rises 40 > 36
rises 0 > 36
starts 0
rises 75 > ready
spares 58
rises 58 > 36
rises 0 > 36
starts 0
rises 75 > ready
spares 66
rises 66 > 36
rises 0 > 36
starts 0
rises 75 > ready
spares 74
rises 74 > 36
rises 0 > 36
starts 0
rises 75 > ready
";

/// Each kind of failure of a start-up of new slaves, but for numbers that are spent and other slaves. Begun anew over the same
/// slaves, undisturbed, it brings them up by 75 frames more.
const FAILURES: &str = "
# a mailbox holds no reply that fits: another length, type, service, command, size or index comes back, or an index was changed
# on its way to the slave, which then answers for that one
fails 36 3 changed 34 9 > 9 2
fails 36 3 changed 39 0x12 > 9 2
fails 38 3 changed 41 0x20 > 9 2
fails 38 3 changed 42 0x60 > 9 2
fails 40 3 changed 42 0x4B > 9 2
fails 42 3 changed 44 0x16 > 9 2
fails 44 3 changed 42 0x4F > 9 2
fails 35 0 changed 43 1 > 9 2

# a 0 in the length of slave 2's first reply, in its type, and in the high byte of its index
fails 36 3 changed 34 0 > 9 2
next 112
fails 36 3 changed 39 0 > 9 2
next 112
fails 36 3 changed 44 0 > 9 2
next 112

# the first frame passes by a slave
fails 0 0 skipped > 26 2
fails 0 1 skipped > 26 2
fails 0 2 skipped > 26 2

# a read of the SII past its last word, at the first word of slave 0's identity and at the third of slave 1's; another vendor,
# product and revision
fails 9 0 changed 36 63 > 27 0 0 0 0
fails 19 0 changed 36 63 > 27 1 0xABCD 2 0
fails 10 3 changed 40 0xCE > 27 0 0xABCE 1 1
fails 18 3 changed 40 9 > 27 1 0xABCD 9 1
fails 26 3 changed 40 2 > 27 2 0xABCD 3 2

# frames that pass by a slave, or come to one that was reset and has no station any more
fails 1 0 skipped > 28 1
fails 2 1 skipped > 28 2
fails 3 2 skipped > 28 3
fails 4 0 skipped > 28 4
fails 5 1 skipped > 28 5
fails 8 2 skipped > 28 8
fails 9 0 skipped > 28 9
fails 16 1 skipped > 28 16
fails 28 2 skipped > 28 28
fails 31 1 skipped > 28 31
fails 34 2 skipped > 28 34
fails 43 2 skipped > 28 43
fails 55 0 skipped > 28 55
fails 62 2 skipped > 28 62
fails 64 0 skipped > 28 64
fails 73 2 skipped > 28 73
fails 12 0 reset 0 > 28 12
fails 65 0 reset 1 > 28 65

# requests that become others, for OP, for BOOT and for a number that is no state; managers that get another length, of a
# mailbox, of outputs and of inputs; and faults in OP
fails 29 0 changed 34 8 > 29 0 0x11
fails 31 0 changed 34 3 > 29 1 0x13
fails 33 0 changed 34 5 > 29 2 0x12
fails 27 0 changed 36 127 > 29 2 0x16
fails 28 0 changed 36 127 > 29 2 0x16
fails 55 0 changed 36 2 > 29 0 0x1D
fails 57 0 changed 36 2 > 29 1 0x1E
fails 65 0 changed 34 8 > 29 1 0x11
fails 71 0 changed 34 5 > 29 1 0x12
fails 73 0 changed 34 3 > 29 2 0x11
fails 70 0 fault 0 > 29 0 1
fails 74 2 fault 2 > 29 2 1

# requests that become others: a command that is none, a download to what can only be read and one of two bytes in place of
# one; a count of 2 of one PDO; a slot that is written while the count is 1; and a PDO that isn't there
fails 35 0 changed 42 0x41 > 30 2 0x05040001
fails 35 0 changed 42 0x2F > 30 2 0x06010002
fails 43 0 changed 42 0x2B > 30 2 0x06070010
fails 43 0 changed 46 2 > 30 2 0x06090030
fails 43 0 changed 46 1 > 30 2 0x08000022
fails 45 0 changed 47 0x17 > 30 2 0x06090030

# slaves that are led to PREOP where INIT is waited for, or asked for the state that they are in; slaves that don't serve; a
# slave that is reset, and has no mailbox any more; and a message that is of another type, which is dropped
fails 1 0 changed 34 0x12 > 31 2
fails 9 0 unserved > 31 10
fails 21 0 unserved > 31 22
fails 29 0 unserved > 31 30
fails 33 0 unserved > 31 34
fails 35 0 unserved > 31 36
fails 36 0 reset 2 > 31 36
fails 37 0 changed 39 0x24 > 31 38
fails 63 0 unserved > 31 64
fails 67 0 changed 34 2 > 31 68
fails 69 0 unserved > 31 70
fails 73 0 unserved > 31 74

# slave 0's SII never has its first word: 10 steps, 1000 polls of the next one, no frame more, and then 75 frames
fails 0 0 unserved > 31 10
next 1085

# frames that are lost, in each phase
fails 0 0 lost > 32
fails 4 1 lost > 32
fails 7 2 lost > 32
fails 12 3 lost > 32
fails 28 3 lost > 32
fails 31 2 lost > 32
fails 40 1 lost > 32
fails 58 2 lost > 32
fails 66 0 lost > 32
fails 74 3 lost > 32

# a reply that tells of two entries, one of an entry of 11 bits, and one of an entry of another object
fails 36 3 changed 46 2 > 38 2 0x1600 0 2
fails 38 3 changed 46 11 > 38 2 0x1600 1 0x7010010B
fails 42 3 changed 48 0x11 > 38 2 0x1A00 1 0x60110110
";

#[test]
fn each_failure(rt: HostRuntime) {
    expect_steps(&rt, THREE_SLAVES, SPENT);
    expect_steps(&rt, THREE_SLAVES, FAILURES);
}

// Each frame in turn, before slave 0 and behind each slave's pass: the second start-up takes 75 frames.
#[test]
fn a_frame_is_lost(rt: HostRuntime) {
    expect_steps(&rt, THREE_SLAVES, "lost");
}

#[test]
fn a_slave_is_reset(rt: HostRuntime) {
    expect_steps(&rt, THREE_SLAVES, "reset");
}

// A slave that isn't in OP has no fault.
#[test]
fn a_slave_has_a_fault(rt: HostRuntime) {
    expect_steps(&rt, THREE_SLAVES, "fault");
}

// Without slaves the first frame is the whole start-up.
#[test]
fn no_slaves_come_up(rt: HostRuntime) {
    expect_steps(&rt, "", "starts 5\nrises 1 > ready\nnext 6");
}

//! The calls of a start-up, with payloads written by hand, as lines of steps (`steps` has their form).

use self::steps::expect_steps;

mod failures;
mod rows;
mod steps;

const THREE_SLAVES: &str = test_data::THREE_SLAVES;

/// All frames of the three slaves byte by byte, the exchange of uploads and downloads among them.
const READY: &str = "\
starts 0
all
outcome > Some(Ok(()))
next > 75
sends Ended >
gives_up
phase > Ready
";

/// The first read of an SII stays busy: 10 steps, and 1000 polls of step 10.
const POLLS: &str = "\
starts 0
makes 10
polls 1000 0081 1
phase > Failed(TooSlow { step: 10 })
next > 1010
";

/// After so many steps, as all is well, the next frame comes back with these data and this counter, and the start-up is there.
const ENDS: &str = "\
# Another revision of slave 1: the last word of its identity is step 20.
ends 20 00000c00000002000000 1 > Failed(Identity { slave: 1, seen: Device { vendor: 43981, product: 2, revision: 2 } })

# No second word: what a read of the SII that ends with an error leaves unread is 0.
ends 18 00200a00000002000000 1 > Failed(Identity { slave: 1, seen: Device { vendor: 43981, product: 0, revision: 0 } })

# Slaves, counters, states and mailboxes that aren't as they must be. Steps 36 and 38 wait for the number of entries of
# 0x1600 and for its first entry: an abort, no message (15 bytes), another command, another index.
ends 0 - 2 > Failed(Count { seen: 2 })
ends 6 - 0 > Failed(Counter { step: 6 })
ends 30 120000001600 1 > Failed(AlError { slave: 0, code: 22 })
ends 36 0a000000001300208000160000000206 1 > Failed(Abort { slave: 2, code: 100794368 })
ends 36 09000000001300304f00160001000000 1 > Failed(BadMailbox { slave: 2 })
ends 36 0a000000001300304300160001000000 1 > Failed(BadMailbox { slave: 2 })
ends 38 0a00000000230030430116010c011070 1 > Failed(BadMailbox { slave: 2 })
ends 38 0a00000000230030430016010c011070 2 > Failed(Counter { step: 38 })

# Another mapping: the first entry of 0x1600 has 11 bits in place of 12.
ends 38 0a00000000230030430016010b011070 1 > Failed(Mapping { slave: 2, index: 5632, subindex: 1, seen: 1880097035 })

# A state that isn't there yet is polled again, and so is an empty mailbox.
ends 2 0200 3 > Idle
ends 30 010000000000 1 > Idle
ends 36 - 0 > Idle
";

/// Before the first frame a payload is foreign. Behind it so is one that is no frame, or another: its number, its length, its
/// command, its index. Part and addresses aren't looked at.
const FOREIGN: &str = "\
starts 0
takes > (Foreign, Idle)
sends Send > 24100000000000000a80000000000000000000000000000007000000300102 00x7
takes > (Foreign, Sent(0))
takes 24100000000000000a80000000000000000000000000000007000300300102000000010003 > (Foreign, Sent(0))
takes 24100000000000000a800000010000000000000000000000070003003001020000000100 0300 > (Foreign, Sent(0))
takes 24100000000000000a800000000000000000000000000000080003003001020000000100 0300 > (Foreign, Sent(0))
takes 24100000000000000a800000000000000000000000000000070103003001020000000100 0300 > (Foreign, Sent(0))
takes 24100001000000000a800000000000000000000000000000070003003001020000000100 0300 > (Foreign, Sent(0))
takes 25100000000000000a800000000000000000000000000000070003003001030000000100 000300 > (Foreign, Sent(0))
takes 16100000000000000a000000000000000000000000000000 > (Foreign, Sent(0))
takes 24100000000000000a80000000000000000000000000000007000300300102000000010003 00 > (Accepted, Idle)
";

/// The last number is no frame's; the one before it is the last frame's.
const SPENT: &str = "\
starts 18446744073709551614
comes 0100 3
sends Ended >
outcome > Some(Err(NumbersSpent))
";

/// Frame 40 is given up: what comes back of it is foreign. The start-up begins anew with its first step, in frame 41.
const ANEW: &str = "\
starts 0
makes 40
sends Send > a2100028000000000a80000028000000000000000000000004280310801080 00x133
gives_up
phase > Failed(Lost)
takes a2100028000000000a80000028000000000000000000000004280310801080 00x133 > (Foreign, Failed(Lost))
restarts
sends Send > 24100029000000000a8000002900000000000000000000000729000030010200000000000000
next > 42
";

#[test]
fn three_slaves(rt: HostRuntime) {
    for steps in &[READY, POLLS, ENDS, FOREIGN, SPENT, ANEW] {
        expect_steps(&rt, THREE_SLAVES, steps);
    }
}

// The only frame of a start-up without slaves comes back as it is, and ends it.
#[test]
fn no_slaves_are_ready_at_once(rt: HostRuntime) {
    expect_steps(
        &rt,
        "",
        "\
starts 5
comes - 0
phase > Ready
next > 6",
    );
}

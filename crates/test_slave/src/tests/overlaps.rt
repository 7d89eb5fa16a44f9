//! Managers whose bytes lower-numbered managers govern: what is denied there changes nothing.
use super::{Kind, expect_cases};

/// What each case is about stands before it.
const CASES: &str = "\
# A mailbox in the spare buffers of a lower manager takes no message through an FMMU.
case logical_write_onto_spare_buffers
writes 0800 0010010024000100 0110020026000100
writes 0600 0000010002000007 0110000201000000
answers lwr 00010000 0 aabb > aabb
shows 080d > 00

# Lower mailboxes have the first and the last byte of a mailbox of four bytes: a datagram over these two alone is theirs,
# one that has the bytes between them fills it.
case logical_write_onto_both_ends
writes 0800 0011010026000100 0311010026000100 0011040026000100
writes 0600 0000010001000007 0011000201000000 0100010001000007 0311000201000000
answers lwr 00010000 1 aabb > aabb
shows 0805 > 08
shows 080d > 08
shows 0815 > 00
writes 0600 0000010004000007 0011000201000000
answers lwr 00010000 1 01020304 > 01020304
shows 0815 > 08

# Outputs stay under a lower manager over them: the ring may not write it, or it takes the bytes itself.
case outputs_under_a_manager
writes 0810 0011020024000100
writes 0600 0100010002000007 0011000201000000
writes 1100 3a02
outputs > 3a02
writes 0800 0011020020000100
vain 1100 ffff
answers lwr 00010001 0 ffff > ffff
outputs > 3a02
writes 0804 24
writes 1100 ffff
answers lwr 00010001 1 eeee > eeee
outputs > 3a02
writes 0806 00
answers lwr 00010001 1 0405 > 0405
outputs > 0405

# The lowest FMMU decides what a logical byte writes, also where the access is denied there: the next one writes nothing.
# Of a physical byte likewise.
case lowest_fmmu_decides_where_it_is_denied
writes 0800 0011010020000100
writes 0600 0000010001000007 0011000201000000 0000010001000007 0018000201000000
answers lwr 00010000 0 aa > aa
shows 1100 > 00
shows 1800 > 00
writes 0806 00
answers lwr 00010000 1 bb > bb
shows 1100 > bb
shows 1800 > 00
writes 0806 01
writes 0610 0100010001000007 0011000201000000
answers lwr 00010000 0 ccdd > ccdd
shows 1100 > 00
writes 0806 00
answers lwr 00010000 1 ccdd > ccdd
shows 1100 > cc
";

#[test]
fn managers_under_managers(rt: HostRuntime) {
    expect_cases(&rt, Kind::Plain, "", CASES);
}

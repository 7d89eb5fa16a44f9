//! Datagrams that cross borders: logical runs those of managers, from plain memory into a value, from a value into its
//! second buffer, from a third buffer into the next manager, and from one value into another; physical ones these too, that
//! between registers and RAM, and those of the FMMUs' registers.
use super::{Kind, expect_cases};

/// Managers 0 and 1 are set to two bytes each at 0x1102 and 0x1108 that the ring writes, with their spare buffers (0x0800), 2 and
/// 3 to the same at 0x1402 and 0x1408 that it reads (0x0810); and FMMUs to sixteen bytes from logical address 0x00010000 on, or
/// to as many bits from its bit 3 on, written from 0x1100 on (0x0600) or read from 0x1400 on (0x0610).
const CASES: &str = "\
# Values are taken where a datagram has them whole, spare buffers take nothing, and what lies around is memory.
case written_run
writes 0800 0211020024000100 0811020024000100
writes 0600 0000010010000007 0011000201000000
answers lwr 00010000 1 0102030405060708090a0b0c0d0e0f10 > 0102030405060708090a0b0c0d0e0f10
shows 1101 > 02
shows 1102 > 03
shows 1103 > 04
shows 1104 > 00
shows 1107 > 00
shows 1108 > 09
shows 1109 > 0a
shows 110d > 00
shows 110e > 0f
answers lwr 00010000 1 c1c2c3 > c1c2c3
shows 1101 > c2
shows 1102 > 03
answers lwr 00010003 0 c4c5c6c7c8 > c4c5c6c7c8
writes 0600 0000010011000302 0011000201000000
answers lwr 00010000 1 08151d252d353d454d555d656d757d8505 > 08151d252d353d454d555d656d757d8505
shows 1100 > a1
shows 1101 > a2
shows 1102 > a3
shows 1103 > a4
shows 1107 > 00
shows 1109 > aa
shows 110f > b0

# The data under spare buffers stay, and those under a value that the datagram doesn't have whole.
case read_run
writes 1400 a1a2
writes 140e b1b2
writes 0810 0214020020000100 0814020020000100
writes 0610 0000010010000007 0014000101000000
answers lrd 00010000 1 ffffffffffffffffffffffffffffffff > a1a20000ffffffff0000ffffffffb1b2
answers lrd 00010000 1 ffffff > a1a2ff
answers lrd 00010003 0 ffffffffff > ffffffffff
writes 0610 0000010011000302 0014000101000000
answers lrd 00010000 1 ffffffffffffffffffffffffffffffffff > 0f150500f8ffffff0700f8ffffff8f95fd

# Both at once: what is written are the data as they were sent.
case exchanged_run
writes 1400 a1a2
writes 140e b1b2
writes 0800 0211020024000100 0811020024000100
writes 0810 0214020020000100 0814020020000100
writes 0600 0000010010000007 0011000201000000
writes 0610 0000010010000007 0014000101000000
answers lrw 00010000 3 0102030405060708090a0b0c0d0e0f10 > a1a200000506070800000b0c0d0eb1b2
shows 1101 > 02
shows 1102 > 03
shows 1104 > 00
shows 1109 > 0a
shows 110e > 0f
writes 0600 0000010011000302 0011000201000000
writes 0610 0000010011000302 0014000101000000
answers lrw 00010000 3 08151d252d353d454d555d656d757d8505 > 0815050028353d45050058656d758d9505
shows 1101 > a2
shows 1103 > a4
shows 1108 > a9
shows 110f > b0

# Two mailboxes of two bytes, one behind the other: both take their message, and then no second one.
case run_over_two_mailboxes
writes 0800 0012020026000100 0212020026000100
writes 0600 0000010006000007 ff11000201000000
answers lwr 00010000 1 aabbccddeeff > aabbccddeeff
shows 11ff > aa
shows 0805 > 08
shows 080d > 08
shows 1204 > ff
answers lwr 00010001 0 01020304 > 01020304
answers lwr 00010000 1 112233445566 > 112233445566
shows 11ff > 11
shows 1204 > 66

# The same by physical datagrams: a manager takes its value from one that has all of it, and only then.
case physical_writes_over_a_span
writes 0800 0211020024000100
writes 1100 0102030405060708090a
shows 1101 > 02
shows 1102 > 03
shows 1103 > 04
shows 1104 > 00
shows 1108 > 09
shows 1109 > 0a
writes 1101 a1a2
shows 1101 > a1
shows 1102 > 03
writes 1107 b1b2
shows 1107 > 00
shows 1108 > b2
writes 2fff c1c2
shows 2fff > c1

# Two registers that read 0 and take no write, and the first two bytes of the RAM: written, read, and both at once, which
# counts 3 and reads what was there before.
case registers_and_ram
writes 0ffe 01020304
shows 0ffe > 00
shows 0fff > 00
shows 1000 > 03
shows 1001 > 04
shows 1002 > 00
answers aprd 0ffe0000 1 ffffffffff > 0000030400
answers aprw 0fff0000 3 a1a2a3 > 000304
shows 1000 > a2
shows 1001 > a3
vain 0ffe b1b2
answers aprd 0ffe0000 1 ffff > 0000
shows 1000 > a2

# The same where two bytes at 0x1000 lie behind a manager that the ring writes, with spare buffers up to 0x1005: it takes
# its value from a datagram that has all of it, and the ring doesn't read it.
case registers_and_a_written_manager
writes 0800 0010020024000100
writes 0fff a1a2a3a4a5a6a7a8a9
shows 0fff > 00
shows 1000 > a2
shows 1001 > a3
shows 1002 > 00
shows 1005 > 00
shows 1006 > a8
shows 1007 > a9
vain 0fff b1b2
shows 1000 > a2
answers aprd 0fff0000 1 eeeeeeeeeeeeeeee > 00eeeeeeeeeeeea8

# And behind one that the ring reads: its value, which is 0, comes with a datagram that has all of it; the data under the
# spare buffers stay.
case registers_and_a_read_manager
writes 1006 b1b2
writes 0800 0010020020000100
answers aprd 0ffe0000 1 ffffffffffffffffffff > 00000000ffffffffb1b2
answers aprd 0fff0000 1 ffff > 00ff
vain 0ffe c1c2c3c4c5
writes 0ffe d1d2d3d4d5d6d7d8d9
shows 1000 > 00
shows 1006 > d9
shows 1007 > b2

# A write that begins before the FMMUs' registers and reaches them counts from the next datagram on, one that ends right
# before them or begins right behind them changes nothing.
case fmmu_behind_another_register
writes 05f8 ffffffffffffffff 0000010010000007 0011000201000000
answers lwr 00010000 1 0102 > 0102
shows 1100 > 01
shows 1101 > 02
vain 05f0 ffffffffffffffff ffffffffffffffff
vain 0640 ffff
answers lwr 00010000 1 0304 > 0304
shows 1100 > 03
# the first byte of the first FMMU alone: its area begins at 0x00010008
writes 05ff ff08
answers lwr 00010000 0 0506 > 0506
answers lwr 00010008 1 0708 > 0708
shows 1100 > 07
# the last byte of the last FMMU, which is reserved, and the one behind it
writes 063f 0000
answers lwr 00010008 1 090a > 090a
shows 1101 > 0a
";

#[test]
fn datagrams_across_borders(rt: HostRuntime) {
    expect_cases(&rt, Kind::Plain, "", CASES);
}

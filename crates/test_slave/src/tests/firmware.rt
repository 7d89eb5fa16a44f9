//! Firmware steps of a slave that frames reach.
use super::{Kind, expect_cases};

/// From power-on to PREOP, with all four managers set: 0 and 1 to mailboxes of 128 bytes at 0x1000 and 0x1080, 2 to two bytes of
/// outputs at 0x1100, and 3 to two bytes of inputs at 0x1400.
const TO_PREOP: &str = "\
writes 0800 0010800026000100 8010800022000100
writes 0810 0011020024000100
writes 0818 0014020020000100
asks 0200 > 020000000000
";

/// From power-on.
const FROM_POWER_ON: &str = "\
# INIT refuses SAFEOP, BOOT and what is no state, and keeps the error until it is acknowledged.
case requests_in_init
asks 0400 > 110000001100
asks 1300 > 110000001300
asks 1500 > 110000001200
asks 1100 > 010000000000

# PREOP wants both mailboxes, the second one too.
case mailbox_check
asks 0200 > 110000001600
writes 0800 0010800026000100 8010810022000100
asks 1200 > 110000001600
writes 0800 0010800026000100 8010800022000100
asks 1200 > 020000000000

# A read of the SII shows the vendor after the firmware step, and before it that it is under way.
case sii_read
writes 0502 0001 08000000
answers aprd 05020000 1 0000 00000000 00000000 > 0081 08000000 00000000
serves
answers aprd 05020000 1 0000 00000000 00000000 > 0000 08000000 cdab0000
";

#[test]
fn slaves_from_power_on(rt: HostRuntime) {
    expect_cases(&rt, Kind::Mixed, "", FROM_POWER_ON);
}

/// From PREOP.
const FROM_PREOP: &str = "\
# PREOP refuses OP; SAFEOP changes nothing then; an acknowledgement clears the error.
case requests_in_preop
asks 0800 > 120000001100
asks 0400 > 120000001100
asks 1200 > 020000000000

# The last request before a firmware step counts.
case the_latest_request_counts
writes 0120 0800
asks 0400 > 040000000000

# SAFEOP wants manager 2 as the outputs that are assigned want it, then manager 3 as the inputs do.
case output_and_input_check
sends 0a0000000013 0020 2f121c00 00000000
replies > 0a0000000013 0030 60121c00 00000000
asks 0400 > 120000001d00
writes 0816 00
writes 0818 0014030020000100
asks 1400 > 120000001e00
writes 0818 0014020020000100
asks 1400 > 040000000000

# The first message asks for nothing the slave knows: the reply is an abort, and the first one.
case unknown_command_is_aborted
sends 0a0000000013 0020 41181001 00000000
replies > 0a0000000013 0020 80181001 01000405

# Downloads, uploads and aborts in PREOP; replies are counted from 1 to 7, whatever the request's counter.
case messages_in_preop
sends 0a0000000013 0020 2f121c00 00000000
replies > 0a0000000013 0030 60121c00 00000000
sends 0a0000000013 0020 2b121c01 001a0000
replies > 0a0000000023 0020 80121c01 30000906
sends 0a0000000013 0020 40181001 00000000
replies > 0a0000000033 0030 43181001 cdab0000
sends 0a0000000013 0020 40002000 00000000
replies > 0a0000000043 0020 80002000 00000206
sends 0a0000000013 0020 41181001 00000000
replies > 0a0000000053 0020 80181001 01000405
sends 0a0000000013 0020 40181005 00000000
replies > 0a0000000063 0020 80181005 11000906
sends 0a0000000053 0020 40001601 00000000
replies > 0a0000000073 0030 43001601 0c011070
sends 0a0000000013 0020 40001a00 00000000
replies > 0a0000000013 0030 4f001a00 01000000

# In SAFEOP an assignment takes no download. Back from INIT the first reply has number 1 again.
case messages_in_safeop
asks 0400 > 040000000000
sends 0a0000000013 0020 2f121c00 00000000
replies > 0a0000000013 0020 80121c00 22000008
sends 0a0000000013 0020 2f121c00 00000000
replies > 0a0000000023 0020 80121c00 22000008
asks 0100 > 010000000000
asks 0200 > 020000000000
sends 0a0000000013 0020 2f121c00 00000000
replies > 0a0000000013 0030 60121c00 00000000

# What is no request is dropped without an answer, and isn't counted: too short, of another type, and a response; a download
# by a normal transfer, whose data stand behind the ten bytes; and what asks for the list of objects.
case dropped_messages
sends 090000000013 0020 40181001 00000000
shows 0805 > 00
shows 080d > 00
sends 0a0000000014 0020 40181001 00000000
shows 0805 > 00
shows 080d > 00
sends 0a0000000013 0030 40181001 00000000
shows 0805 > 00
shows 080d > 00
sends 0e0000000013 0020 21121c01 04000000 00160000
shows 0805 > 00
shows 080d > 00
sends 0a0000000013 0080 01000000 01000000
shows 0805 > 00
shows 080d > 00
sends 0a0000000013 0020 40181001 00000000
replies > 0a0000000013 0030 43181001 cdab0000

# A mailbox of 15 bytes has no room for a reply: the message is dropped. A full one lets the message wait.
case no_room_for_a_reply
writes 0808 80100f0022000100
sends 0a0000000013 0020 40181001 00000000
shows 0805 > 00
shows 080d > 00
writes 0808 8010800022000100
sends 0a0000000013 0020 40181001 00000000
sends 0a0000000013 0020 40181002 00000000
shows 0805 > 08
replies > 0a0000000013 0030 43181001 cdab0000
serves
replies > 0a0000000023 0030 43181002 03000000

# A read under a lower manager leaves the message of a full mailbox that it would empty: the lower manager denies it, or
# shows its own bytes.
case reply_under_a_manager_stays
writes 0808 8010100022000100
sends 0a0000000013 0020 40181001 00000000
writes 0800 8010100026000100
answers aprd 10800000 0 000000000000 0000 00000000 00000000 > 000000000000 0000 00000000 00000000
shows 080d > 08
writes 0804 20
answers aprd 10800000 1 0a0000000013 0020 40181001 00000000 > 000000000000 0000 00000000 00000000
shows 080d > 08
writes 0806 00
answers aprd 10800000 1 000000000000 0000 00000000 00000000 > 0a0000000013 0030 43181001 cdab0000
shows 080d > 00

# A fault is one only in OP: SAFEOP with an error, and manager 2 locked and empty. A request that waits is still decided.
case faults
faults > 00
asks 0400 > 040000000000
asks 0800 > 080000000000
writes 1100 3a02
outputs > 3a02
writes 0120 1200
faults > 01
faults > 00
outputs > 0000
shows 0817 > 01
may_get > 00
may_put > 02
answers aprd 01300000 1 000000000000 > 140000000100
serves
shows 0130 > 02
asks 0100 > 010000000000
shows 0817 > 00

# What the application does in SAFEOP and in OP: a value shows whole, an open draft shows nothing. Before that it has no bytes.
case application_bytes
may_get > 00
may_put > 00
puts 0 01 > 00
asks 0400 > 040000000000
may_get > 02
may_put > 02
puts 0 ef > 01
answers aprd 14000000 1 0909 > 0000
puts 1 be > 01
answers aprd 14000000 1 0909 > efbe
puts 0 00 > 01
puts 1 00 > 01
puts 2 00 > 00
writes 1100 3a02
gets 1 >
gets 0 > 3a
writes 1100 ffff
gets 1 > 02
gets 2 >
asks 0800 > 080000000000
may_get > 02
may_put > 02
puts 0 ef > 01
answers aprd 14000000 1 0909 > 0000
puts 1 be > 01
answers aprd 14000000 1 0909 > efbe
puts 0 00 > 01
puts 1 00 > 01
puts 2 00 > 00
writes 1100 3a02
gets 1 >
gets 0 > 3a
writes 1100 ffff
gets 1 > 02
gets 2 >

# Three slaves in OP answer the broadcast read of their state with 8, and count 3: the first
case three_slaves_in_op
asks 0400 > 040000000000
asks 0800 > 080000000000
passes 0e10 0701 0000 3001 0200 0000 0000 0000 > 0e10 0701 0100 3001 0200 0000 0800 0100

# the second
case three_slaves_in_op
asks 0400 > 040000000000
asks 0800 > 080000000000
passes 0e10 0701 0100 3001 0200 0000 0800 0100 > 0e10 0701 0200 3001 0200 0000 0800 0200

# and the third
case three_slaves_in_op
asks 0400 > 040000000000
asks 0800 > 080000000000
passes 0e10 0701 0200 3001 0200 0000 0800 0200 > 0e10 0701 0300 3001 0200 0000 0800 0300
";

#[test]
fn slaves_from_preop(rt: HostRuntime) {
    expect_cases(&rt, Kind::Mixed, TO_PREOP, FROM_PREOP);
}

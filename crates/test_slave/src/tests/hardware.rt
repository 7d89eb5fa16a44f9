//! Slaves of types of real devices.
use super::{Kind, expect_cases};

/// Lamps and keys, just switched on. Manager 0 holds a byte of outputs at 0x0F00, which is 0x2FF0 inside the slave, and manager 1 a byte
/// of inputs at 0x1000.
const OF_LAMPS: &str = "\
# The registers of the FMMUs that the slave lacks read 0 and take no writes.
case two_fmmus
shows 0004 > 02
shows 0005 > 04
vain 0620 0100010002000007 0011000201000000
answers aprd 06200000 1 0909 > 0000
writes 0610 0300010004000407 0018000301000000 0100010002000007 0011000201000000
shows 0610 > 03
shows 0620 > 00

# Outputs at the pins go by the FMMU to where the manager has them; the registers show the address of the pins.
case outputs_at_the_pins
writes 0800 000f010044000100
writes 0600 0100010001000007 000f000201000000
answers lwr 00010001 1 a5 > a5
outputs > a5
answers aprd 08000000 1 0909090909 > 000f010044
answers aprd 06080000 1 0909 > 000f

# What isn't at the pins stands in the registers as it was written.
case other_addresses
writes 0800 0011010044000100
answers aprd 08000000 1 0909 > 0011
writes 1100 5a
outputs > 5a

# Inputs by manager 1.
case inputs_by_number
writes 0808 0010010000000100
asks 0400 > 040000000000
puts 0 5a > 01
answers aprd 10000000 1 09 > 5a

# Managers 2 and 3 are left, and hold no process data.
case managers_left
writes 0810 0011010024000100
answers aprd 08100000 1 0909 > 0011
writes 1100 77
outputs >

# No firmware checks a state that is asked for: the status is a copy of the control word, if that names a state.
case copied_states
asks 0800 > 080000000000
asks 1200 > 120000000000
asks 0600 > 120000000000
asks 0300 > 120000000000
asks 0100 > 010000000000
";

#[test]
fn slaves_without_firmware(rt: HostRuntime) {
    expect_cases(&rt, Kind::Lamps, "", OF_LAMPS);
}

/// From power-on to SAFEOP; the control byte of manager 2 asks for a watchdog too.
const TO_SAFEOP: &str = "\
writes 0800 0010800026000100 8010800022000100
writes 0810 0011020064000100
writes 0818 0014020020000100
asks 0200 > 020000000000
asks 0400 > 040000000000
";

/// From SAFEOP.
const OF_A_VALVE: &str = "\
# A request for OP waits until the ring has written the outputs in SAFEOP.
case outputs_first
asks 0800 > 040000000000
serves
shows 0130 > 04
writes 1100 2312
shows 0130 > 04
serves
shows 0130 > 08

# They may be there already, but not since an earlier visit of SAFEOP.
case outputs_again
writes 1100 2312
asks 0800 > 080000000000
asks 0400 > 040000000000
asks 0800 > 040000000000
writes 1100 2312
serves
shows 0130 > 08

# New settings of the manager are no outputs.
case outputs_set_anew
writes 0810 0011020064000100
asks 0800 > 040000000000
serves
shows 0130 > 04
writes 1100 2312
serves
shows 0130 > 08

# A fault locks the outputs. They are awaited then, though the error is acknowledged, and INIT alone opens them.
case outputs_after_a_fault
writes 1100 2312
asks 0800 > 080000000000
faults > 01
asks 1800 > 140000000100
vain 1100 2312
serves
shows 0130 > 14
asks 1100 > 010000000000
asks 0200 > 020000000000
asks 0400 > 040000000000
asks 0800 > 040000000000
writes 1100 2312
serves
shows 0130 > 08

# Requests for other states wait for nothing.
case other_requests
asks 0800 > 040000000000
asks 0200 > 020000000000

# Three FMMUs.
case three_fmmus
shows 0004 > 03
vain 0630 0100010002000007
writes 0620 0100010002000007
";

#[test]
fn slaves_with_firmware(rt: HostRuntime) {
    expect_cases(&rt, Kind::Valve, TO_SAFEOP, OF_A_VALVE);
}

/// The mailboxes.
const MAILBOXES: &str = "writes 0800 0010800026000100 8010800022000100";

/// From INIT, with mailboxes. The firmware is slow by two steps.
const OF_A_DRIVE: &str = "\
# Two steps let a request wait, and the third decides it.
case slow
asks 0200 > 010000000000
serves
shows 0130 > 01
serves
shows 0130 > 02

# A request that comes meanwhile waits anew.
case asked_again
asks 0200 > 010000000000
serves
asks 0200 > 010000000000
serves
shows 0130 > 01
serves
shows 0130 > 02

# In PREOP an emergency lies in the mailbox. It has the first counter, and no message is taken before it is read.
case emergency
asks 0200 > 010000000000
serves
serves
sends 0a0000000013 0020 40606000 00000000
replies > 0a0000000013 0010 0050 00 0000000000
serves
replies > 0a0000000023 0030 4f606000 00000000

# PREOP is entered from INIT once.
case once
asks 0200 > 010000000000
serves
serves
replies > 0a0000000013 0010 0050 00 0000000000
asks 0200 > 020000000000
serves
serves
sends 0a0000000013 0020 40606000 00000000
replies > 0a0000000023 0030 4f606000 00000000

# What was downloaded is kept, until the power goes off.
case kept
asks 0200 > 010000000000
serves
serves
replies > 0a0000000013 0010 0050 00 0000000000
sends 0a0000000013 0020 2b108001 feff0000
replies > 0a0000000023 0030 60108001 00000000
sends 0a0000000013 0020 40108001 00000000
replies > 0a0000000033 0030 4b108001 feff0000
sends 0a0000000013 0020 2f121c00 00000000
replies > 0a0000000043 0020 80121c00 02000106
resets
writes 0800 0010800026000100 8010800022000100
asks 0200 > 010000000000
serves
serves
replies > 0a0000000013 0010 0050 00 0000000000
sends 0a0000000013 0020 40108001 00000000
replies > 0a0000000023 0030 4b108001 00000000
";

#[test]
fn slow_slaves_with_parameters(rt: HostRuntime) {
    expect_cases(&rt, Kind::Drive, MAILBOXES, OF_A_DRIVE);
}

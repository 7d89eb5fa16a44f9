//! Frames past one slave: tables of what is done to a slave and of what must be seen of it. Nothing steps its firmware in this
//! file, so it stays in INIT; `firmware` does.
mod borders;
mod firmware;
mod hardware;
mod long;
mod overlaps;
mod runs;
mod steps;

use self::steps::expect_case;
use crate::kinds::{real_slave, slave_in};
use ec_device::{Identity, SlaveType};
use ec_listed::Listed;
use ec_slave::Slave;
use std::alloc::{AllocError, Global};
use std::process::Abort;

/// What distinguishes the slave from others.
const IDENTITY: Identity = Identity {
    vendor: 0xABCD,
    product: 3,
    revision: 1,
    serial: 4,
};

/// A slave without objects.
fn plain_slave(alloc: Global) -> Result<Slave, AllocError> {
    Slave::new(alloc, SlaveType::without_pdos(alloc), IDENTITY)
}

/// Which slave each case begins with.
#[derive(Clone, Copy)]
enum Kind {
    /// One without objects.
    Plain,
    /// One with mailboxes, 12 bits of outputs and 16 bits of inputs.
    Mixed,
    /// The same of a type of real devices.
    Valve,
    /// The same of a drive.
    Drive,
    /// One of a type of real devices that has no firmware, 8 bits of outputs and 8 bits of inputs.
    Lamps,
}

/// A slave that was just switched on.
fn slave_of(rt: &(impl AllocGlobal + Abort), kind: Kind) -> Result<Slave, AllocError> {
    match kind {
        Kind::Plain => plain_slave(rt.alloc()),
        Kind::Mixed => slave_in(rt, "mixed - 128"),
        Kind::Valve => real_slave(rt, "mixed"),
        Kind::Drive => real_slave(rt, "drive"),
        Kind::Lamps => real_slave(rt, "lamps"),
    }
}

/// Takes the steps of each case on a slave that was just switched on, behind others. Between cases stand empty lines.
fn expect_cases(rt: &(impl AllocGlobal + Abort), kind: Kind, before: &str, cases: &str) {
    for case in cases.split("\n\n") {
        expect_case(rt, slave_of(rt, kind), before, case);
    }
}

/// Manager 2 is set to two bytes of outputs at 0x1100 (0x0810), manager 3 to two bytes of inputs at 0x1400 (0x0818), and FMMUs
/// to two whole bytes from logical address 0x00010001 on, written from 0x1100 on (0x0600) or read from 0x1400 on (0x0610).
const CASES: &str = "\
# Four FMMUs, four sync managers and 8 KiB of RAM, in INIT; the rest is 0.
case power_on_reads
shows 0004 > 04
shows 0005 > 04
shows 0006 > 08
shows 0010 > 00
shows 0130 > 01
shows 0131 > 00
shows 0fff > 00
shows 1000 > 00
shows 2fff > 00
shows 3000 >
shows ffff >
station > 0000

# Two datagrams of one frame: the first gives a station address, the second already asks for it.
case station_address_counts_from_the_next_datagram
passes 1c10 0207 0000 1000 0280 0000 0110 0000 0408 0110 3001 0200 0000 ffff 0000 > 1c10 0207 0100 1000 0280 0000 0110 0100 0408 0110 3001 0200 0000 0100 0100
station > 1001

# A register that can only be read gives its byte and takes none: a read and write counts 1.
case read_write_of_a_fixed_register
passes 0d10 0300 0000 0600 0100 0000 55 0000 > 0d10 0300 0100 0600 0100 0000 08 0100
shows 0006 > 08

# The first byte alone doesn't write, a third one reaches the second buffer, the ring can't read what
# it writes, and settings that are written again empty the manager.
case outputs_through_a_manager
writes 0810 0011020024000100
passes 0e10 0501 0000 0011 0200 0000 2312 0000 > 0e10 0501 0000 0011 0200 0000 2312 0100
outputs > 2312
passes 0d10 0501 0000 0011 0100 0000 99 0000 > 0d10 0501 0000 0011 0100 0000 99 0000
outputs > 2312
passes 0f10 0501 0000 0011 0300 0000 aabbcc 0000 > 0f10 0501 0000 0011 0300 0000 aabbcc 0100
outputs > aabb
passes 0e10 0401 0000 0011 0200 0000 0000 0000 > 0e10 0401 0000 0011 0200 0000 0000 0000
passes 1410 0501 0000 1008 0800 0000 0011020024000100 0000 > 1410 0501 0000 1008 0800 0000 0011020024000100 0100
outputs > 0000

# Four bits written to bit 2 on, and four bits read from there into the upper half of a byte.
case four_bits_through_an_fmmu
writes 0600 0000010001000003 0018020201000000
writes 1800 ff
passes 0d10 0b01 0000 0100 0100 0000 0b 0000 > 0d10 0b01 0000 0100 0100 0000 0b 0100
shows 1800 > ef
writes 0600 0000010001000407 0018020101000000
passes 0d10 0a01 0000 0100 0100 0000 0f 0000 > 0d10 0a01 0000 0100 0100 0000 bf 0100
shows 1800 > ef

# LRW counts 2 for the write and 1 for the read, each of them for a whole manager.
case process_data_in_one_exchange
writes 0810 0011020024000100
writes 0818 0014020020000100
writes 0600 0100010002000007 0011000201000000
writes 0610 0100010002000007 0014000101000000
answers lrw 00010000 3 0a2301 > 0a0000
outputs > 2301
answers lrw 00010000 0 0a77 > 0a77
outputs > 2301

# The same in two datagrams, of which each counts 1.
case process_data_one_way
writes 0810 0011020024000100
writes 0818 0014020020000100
writes 0600 0100010002000007 0011000201000000
writes 0610 0100010002000007 0014000101000000
answers lwr 00010001 1 0405 > 0405
answers lrd 00010001 1 0405 > 0000
answers lwr 00010002 0 0405 > 0405
answers lrd 00010002 0 0405 > 0405
outputs > 0405

# One FMMU both ways: the datagram gets what was there, and the memory what was sent.
case exchange_through_one_fmmu
writes 0630 0700000001000007 0018000301000000
writes 1800 ef11
answers lrw 00000006 3 015a03 > 01ef03
shows 1800 > 5a
shows 1801 > 11

# Logical addresses don't wrap: the byte after the last one is no FMMU's at 0.
case fmmu_at_the_last_logical_address
writes 0600 0000000001000007 0318000101000000
writes 0610 ffffffff02000007 0018000101000000
writes 1800 12345678
passes 0e10 0a01 ffff ffff 0200 0000 0000 0000 > 0e10 0a01 ffff ffff 0200 0000 1234 0100
answers lrd 00000000 1 00 > 78

# Three buffers of one byte don't fit at the last address, nor do those of 65535 bytes anywhere: all
# that is plain memory.
case span_past_the_memory
writes 0800 ff2f010024000100
writes 0808 0010ffff24000100
answers aprw 2fff0000 3 aabb > 00bb
answers aprw 10000000 3 cc > 00
shows 2fff > aa
shows 1000 > cc

# A mailbox of the last byte: a second message doesn't fit, and it is the slave that reads.
case mailbox_of_one_byte
writes 2fff 77
writes 0800 ff2f010026000100
writes 2fff 08
vain 2fff 09
answers aprd 2fff0000 0 05 > 05
shows 0805 > 08
writes 0806 00
shows 0805 > 00
shows 2fff > 77

# The word at address 8 is asked for: the port is busy, and takes no writes, until the firmware steps.
case sii_read_is_given
writes 0502 000108000000
answers aprd 05020000 1 09090909090909090909 > 00810800000000000000
vain 0502 000109000000
answers aprd 05020000 1 09090909090909090909 > 00810800000000000000

# A state that is asked for waits for the firmware; the control word reads what was written last.
case state_request_waits
writes 0120 0200
writes 0120 0400
answers brd 01200000 1 0000 > 0400
answers brd 01300000 1 000000000000 > 010000000000

# In INIT the application has no process data, though both managers are enabled.
case application_is_denied_in_init
writes 0810 0011020024000100
writes 0818 0014020020000100
writes 1100 2312
may_get > 00
may_put > 00
gets 0 >
puts 0 07 > 00
faults > 00
outputs > 2312

# A reset is power-on.
case reset_is_power_on
writes 0010 0110
writes 0120 0200
writes 0502 000108000000
writes 0600 0100010002000007 0011000201000000
writes 0810 0011020024000100
writes 1100 2312
writes 2000 77
resets
station > 0000
outputs >
shows 0120 > 00
shows 0503 > 00
shows 0504 > 00
shows 0602 > 00
shows 0811 > 00
shows 0814 > 00
shows 1100 > 00
shows 2000 > 00
shows 0130 > 01
answers lwr 00010001 0 0405 > 0405
";

#[test]
fn slaves_in_init(rt: HostRuntime) {
    expect_cases(&rt, Kind::Plain, "", CASES);
}

/// A slave without objects whose type takes no part in LRW.
fn slave_apart(alloc: Global) -> Result<Slave, AllocError> {
    let (outputs, inputs) = (Listed::new(alloc), Listed::new(alloc));
    let kind = SlaveType::new(alloc, IDENTITY.device(), None, 0, 0, outputs, inputs, false);
    Slave::new(alloc, kind, IDENTITY)
}

const WITHOUT_LRW: &str = "\
case slave_without_lrw
writes 0810 0011020024000100
writes 0600 0100010002000007 0011000201000000
answers lrw 00010001 0 0405 > 0405
outputs > 0000
answers lwr 00010001 1 0405 > 0405
outputs > 0405
";

// A type may take no part in LRW; LWR and LRD still reach it.
#[test]
fn slave_without_lrw(rt: HostRuntime) {
    expect_case(&rt, slave_apart(rt.alloc()), "", WITHOUT_LRW);
}

// Behind the longest datagram what it left is read.
#[test]
fn longest_datagram(rt: HostRuntime) {
    expect_cases(
        &rt,
        Kind::Plain,
        "",
        "case longest_datagram\nlongest\nanswers aprd 15b10000 1 0101 > 5a00",
    );
}

#[test]
fn frame_of_nops_passes_unchanged(rt: HostRuntime) {
    expect_cases(
        &rt,
        Kind::Plain,
        "",
        "case frame_of_nops_passes_unchanged\nnops",
    );
}

/// Frames as they are sent and as they come back, each past a slave that was just switched on. A row of one stands in several
/// lines.
const FRAMES: &str = "\
# Where lower-numbered managers govern each byte that a datagram touches of a manager, the manager stays as it is: here two
# over the same sixteen bytes. Byte 0x080D tells whether manager 1 is a full mailbox.
case manager_under_another_stays
passes 5110 \
    0200 0000 0008 0880 0000 0011100026000100 0000 \
    0200 0000 0808 0880 0000 0011100026000100 0000 \
    0200 0000 0011 1080 0000 0102030405060708 090a0b0c0d0e0f10 0000 \
    0100 0000 0d08 0100 0000 00 0000 \
    > 5110 \
    0200 0100 0008 0880 0000 0011100026000100 0100 \
    0200 0100 0808 0880 0000 0011100026000100 0100 \
    0200 0100 0011 1080 0000 0102030405060708 090a0b0c0d0e0f10 0100 \
    0100 0100 0d08 0100 0000 00 0100

case manager_under_another_stays
passes 5110 \
    0200 0000 0008 0880 0000 0011100024000100 0000 \
    0200 0000 0808 0880 0000 0011100026000100 0000 \
    0200 0000 0011 1080 0000 0102030405060708 090a0b0c0d0e0f10 0000 \
    0100 0000 0d08 0100 0000 00 0000 \
    > 5110 \
    0200 0100 0008 0880 0000 0011100024000100 0100 \
    0200 0100 0808 0880 0000 0011100026000100 0100 \
    0200 0100 0011 1080 0000 0102030405060708 090a0b0c0d0e0f10 0100 \
    0100 0100 0d08 0100 0000 00 0100

case manager_under_another_stays
passes 5110 \
    0200 0000 0008 0880 0000 0011100020000100 0000 \
    0200 0000 0808 0880 0000 0011100026000100 0000 \
    0200 0000 0011 1080 0000 0102030405060708 090a0b0c0d0e0f10 0000 \
    0100 0000 0d08 0100 0000 00 0000 \
    > 5110 \
    0200 0100 0008 0880 0000 0011100020000100 0100 \
    0200 0100 0808 0880 0000 0011100026000100 0100 \
    0200 0100 0011 1080 0000 0102030405060708 090a0b0c0d0e0f10 0000 \
    0100 0100 0d08 0100 0000 00 0100

# The same of a logical datagram.
case manager_under_another_stays_logically
passes 6d10 \
    0200 0000 0008 0880 0000 0011100020000100 0000 \
    0200 0000 0808 0880 0000 0011100026000100 0000 \
    0200 0000 0006 1080 0000 0000010010000007 0011000201000000 0000 \
    0b00 00000100 1080 0000 0102030405060708 090a0b0c0d0e0f10 0000 \
    0100 0000 0d08 0100 0000 00 0000 \
    > 6d10 \
    0200 0100 0008 0880 0000 0011100020000100 0100 \
    0200 0100 0808 0880 0000 0011100026000100 0100 \
    0200 0100 0006 1080 0000 0000010010000007 0011000201000000 0100 \
    0b00 00000100 1080 0000 0102030405060708 090a0b0c0d0e0f10 0000 \
    0100 0100 0d08 0100 0000 00 0100

# The same of a manager that lies in the spare buffers of another.
case manager_in_spare_buffers_stays
passes 4610 \
    0501 0000 0008 1080 0000 0010010024000100 0110020026000100 0000 \
    0501 0000 0110 0280 0000 aabb 0000 \
    0401 0000 0008 1000 0000 0000000000000000 0000000000000000 0000 \
    > 4610 \
    0501 0000 0008 1080 0000 0010010024000100 0110020026000100 0100 \
    0501 0000 0110 0280 0000 aabb 0000 \
    0401 0000 0008 1000 0000 0010010024000100 0110020026000100 0100

# A read and write counts 1 for what it may only read, 2 for what it may only write, which keeps its data, and 3
# for both.
# a mailbox that the ring writes
case read_write_by_what_each_byte_allows
passes 2f10 \
    0200 0000 0008 0880 0000 0011020026000100 0000 \
    0300 0000 0011 0280 0000 5566 0000 \
    0100 0000 0508 0100 0000 00 0000 \
    > 2f10 \
    0200 0100 0008 0880 0000 0011020026000100 0100 \
    0300 0100 0011 0280 0000 5566 0200 \
    0100 0100 0508 0100 0000 08 0100

# behind it a byte of a buffered manager that the ring reads
case read_write_by_what_each_byte_allows
passes 4310 \
    0200 0000 0008 0880 0000 0011010026000100 0000 \
    0200 0000 0808 0880 0000 0111010020000100 0000 \
    0300 0000 0011 0280 0000 5566 0000 \
    0100 0000 0508 0100 0000 00 0000 \
    > 4310 \
    0200 0100 0008 0880 0000 0011010026000100 0100 \
    0200 0100 0808 0880 0000 0111010020000100 0100 \
    0300 0100 0011 0280 0000 5500 0300 \
    0100 0100 0508 0100 0000 08 0100

# a byte of that manager alone
case read_write_by_what_each_byte_allows
passes 2110 \
    0200 0000 0808 0880 0000 0111010020000100 0000 \
    0300 0000 0111 0100 0000 66 0000 \
    > 2110 \
    0200 0100 0808 0880 0000 0111010020000100 0100 \
    0300 0100 0111 0100 0000 00 0100

# Write pairs touch for writing: first and last byte of a manager of three bytes, each mapped by an FMMU of its own.
# written without its middle byte, which is 0 then
case manager_written_through_two_fmmus
passes 8b10 \
    0200 0000 1008 0880 0000 0011030024000100 0000 \
    0200 0000 0006 1080 0000 1000000001000007 0011000201000000 0000 \
    0200 0000 1006 1080 0000 1100000001000007 0211000201000000 0000 \
    0200 0000 0011 0380 0000 777777 0000 \
    0b00 10000000 0280 0000 aabb 0000 \
    0100 0000 1008 0880 0000 0000000000000000 0000 \
    0b00 10000000 0200 0000 ccdd 0000 \
    > 8b10 \
    0200 0100 1008 0880 0000 0011030024000100 0100 \
    0200 0100 0006 1080 0000 1000000001000007 0011000201000000 0100 \
    0200 0100 1006 1080 0000 1100000001000007 0211000201000000 0100 \
    0200 0100 0011 0380 0000 777777 0100 \
    0b00 10000000 0280 0000 aabb 0100 \
    0100 0100 1008 0880 0000 0011030024000100 0100 \
    0b00 10000000 0200 0000 ccdd 0100

# Read pairs touch for reading.
# read by both
case manager_read_through_two_fmmus
passes 5a10 \
    0200 0000 1808 0880 0000 0014030020000100 0000 \
    0200 0000 0006 1080 0000 1000000001000007 0014000101000000 0000 \
    0200 0000 1006 1080 0000 1100000001000007 0214000101000000 0000 \
    0a00 10000000 0200 0000 aabb 0000 \
    > 5a10 \
    0200 0100 1808 0880 0000 0014030020000100 0100 \
    0200 0100 0006 1080 0000 1000000001000007 0014000101000000 0100 \
    0200 0100 1006 1080 0000 1100000001000007 0214000101000000 0100 \
    0a00 10000000 0200 0000 0000 0100

# One pair that reads and one that writes touch a manager for neither.
# the last byte only read
case manager_touched_both_ways
passes 5a10 \
    0200 0000 1008 0880 0000 0011030024000100 0000 \
    0200 0000 0006 1080 0000 1000000001000007 0011000201000000 0000 \
    0200 0000 1006 1080 0000 1100000001000007 0211000101000000 0000 \
    0b00 10000000 0200 0000 aabb 0000 \
    > 5a10 \
    0200 0100 1008 0880 0000 0011030024000100 0100 \
    0200 0100 0006 1080 0000 1000000001000007 0011000201000000 0100 \
    0200 0100 1006 1080 0000 1100000001000007 0211000101000000 0100 \
    0b00 10000000 0200 0000 aabb 0000

# read, the first byte only written
case manager_touched_both_ways
passes 5a10 \
    0200 0000 1808 0880 0000 0014030020000100 0000 \
    0200 0000 0006 1080 0000 1000000001000007 0014000201000000 0000 \
    0200 0000 1006 1080 0000 1100000001000007 0214000101000000 0000 \
    0a00 10000000 0200 0000 aabb 0000 \
    > 5a10 \
    0200 0100 1808 0880 0000 0014030020000100 0100 \
    0200 0100 0006 1080 0000 1000000001000007 0014000201000000 0100 \
    0200 0100 1006 1080 0000 1100000001000007 0214000101000000 0100 \
    0a00 10000000 0200 0000 aabb 0000

# Manager 0 has one byte and its two spare buffers, in which another one begins.
# the second byte of the other alone is read
case managers_that_overlap
passes 3610 \
    0200 0000 0008 0880 0000 0014010020000100 0000 \
    0200 0000 1808 0880 0000 0214020020000100 0000 \
    0100 0000 0214 0200 0000 9999 0000 \
    > 3610 \
    0200 0100 0008 0880 0000 0014010020000100 0100 \
    0200 0100 1808 0880 0000 0214020020000100 0100 \
    0100 0100 0214 0200 0000 9900 0100

# and written: a mailbox gets it with 0 before it, and is full
case managers_that_overlap
passes 4310 \
    0200 0000 0008 0880 0000 0014010024000100 0000 \
    0200 0000 1808 0880 0000 0214020026000100 0000 \
    0200 0000 0214 0280 0000 9999 0000 \
    0100 0000 1d08 0100 0000 00 0000 \
    > 4310 \
    0200 0100 0008 0880 0000 0014010024000100 0100 \
    0200 0100 1808 0880 0000 0214020026000100 0100 \
    0200 0100 0214 0280 0000 9999 0100 \
    0100 0100 1d08 0100 0000 08 0100

# Which logical bit writes a byte is decided before any datagram comes.
# a lower FMMU writes the byte, from outside the datagram
case write_set_of_fmmus
passes 6c10 \
    0200 0000 0006 1080 0000 0000000001000007 0018000201000000 0000 \
    0200 0000 1006 1080 0000 1000000001000007 0018000201000000 0000 \
    0b00 10000000 0180 0000 aa 0000 \
    0100 0000 0018 0180 0000 00 0000 \
    0b00 00000000 0180 0000 bb 0000 \
    0100 0000 0018 0100 0000 00 0000 \
    > 6c10 \
    0200 0100 0006 1080 0000 0000000001000007 0018000201000000 0100 \
    0200 0100 1006 1080 0000 1000000001000007 0018000201000000 0100 \
    0b00 10000000 0180 0000 aa 0000 \
    0100 0100 0018 0180 0000 00 0100 \
    0b00 00000000 0180 0000 bb 0100 \
    0100 0100 0018 0100 0000 bb 0100

# the second FMMU lost its logical byte, and keeps the third from none
case write_set_of_fmmus
passes 7010 \
    0200 0000 0006 1080 0000 0000000001000007 0018000201000000 0000 \
    0200 0000 1006 1080 0000 0000000001000007 0118000201000000 0000 \
    0200 0000 2006 1080 0000 0100000001000007 0118000201000000 0000 \
    0b00 00000000 0280 0000 aabb 0000 \
    0100 0000 0018 0200 0000 0000 0000 \
    > 7010 \
    0200 0100 0006 1080 0000 0000000001000007 0018000201000000 0100 \
    0200 0100 1006 1080 0000 0000000001000007 0118000201000000 0100 \
    0200 0100 2006 1080 0000 0100000001000007 0118000201000000 0100 \
    0b00 00000000 0280 0000 aabb 0100 \
    0100 0100 0018 0200 0000 aabb 0100

# A write of any setting empties a manager, also with what it was.
# the byte that activates it alone
case settings_written_again
passes 4910 \
    0200 0000 0808 0880 0000 0011020026000100 0000 \
    0200 0000 0011 0280 0000 0102 0000 \
    0100 0000 0d08 0180 0000 00 0000 \
    0200 0000 0e08 0180 0000 01 0000 \
    0100 0000 0d08 0100 0000 00 0000 \
    > 4910 \
    0200 0100 0808 0880 0000 0011020026000100 0100 \
    0200 0100 0011 0280 0000 0102 0100 \
    0100 0100 0d08 0180 0000 08 0100 \
    0200 0100 0e08 0180 0000 01 0100 \
    0100 0100 0d08 0100 0000 00 0100

# status and deactivate bytes are no settings
case settings_written_again
passes 5010 \
    0200 0000 0808 0880 0000 0011020026000100 0000 \
    0200 0000 0011 0280 0000 0102 0000 \
    0200 0000 0d08 0180 0000 00 0000 \
    0200 0000 0f08 0180 0000 01 0000 \
    0100 0000 0808 0800 0000 0000000000000000 0000 \
    > 5010 \
    0200 0100 0808 0880 0000 0011020026000100 0100 \
    0200 0100 0011 0280 0000 0102 0100 \
    0200 0100 0d08 0180 0000 00 0000 \
    0200 0100 0f08 0180 0000 01 0000 \
    0100 0100 0808 0800 0000 0011020026080100 0100

# The low byte of the SII control word counts and has no effect.
# neither command nor error
case sii_control_byte_alone
passes 3e10 \
    0200 0000 0205 0180 0000 01 0000 \
    0100 0000 0205 0280 0000 0000 0000 \
    0200 0000 0205 0180 0000 ff 0000 \
    0100 0000 0205 0a00 0000 0000000000000000 0000 0000 \
    > 3e10 \
    0200 0100 0205 0180 0000 01 0100 \
    0100 0100 0205 0280 0000 0000 0100 \
    0200 0100 0205 0180 0000 ff 0100 \
    0100 0100 0205 0a00 0000 0000000000000000 0000 0100
";

#[test]
fn frames_past_a_slave(rt: HostRuntime) {
    expect_cases(&rt, Kind::Plain, "", FRAMES);
}

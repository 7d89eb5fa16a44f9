//! Cycles as lines of steps (`steps` has their form); what comes back is written by hand. These are of the table with three slaves.
mod full;
mod steps;

use self::steps::expect_steps;

/// Three slaves: 4 outputs; 4 inputs; 12 outputs and 16 inputs.
const TABLE: &str = test_data::SHORT_THREE_SLAVES;

/// The same, where the first slave takes no part in LRW.
const WITHOUT_LRW: &str = test_data::SHORT_WITHOUT_LRW;

/// The same, where the second slave is a sync unit of its own.
const TWO_UNITS: &str = test_data::SHORT_TWO_UNITS;

/// The frame is of the image at its begin, and comes back once, from three slaves in OP. The next one has nothing of what came
/// back.
const THREE_IN_OP: &str = "\
sets 0 10
sets 1 291
ready 100
begins
sends 0 3310 \
    0064 0000 0000 0a80 0000 6400000000000000 0000 0000 \
    0764 0000 3001 0280 0000 0000 0000 \
    0c64 00000100 0300 0000 0a2301 0000
sets 0 0
sends 0 3310 \
    0064 0000 0000 0a80 0000 6400000000000000 0000 0000 \
    0764 0000 3001 0280 0000 0000 0000 \
    0c64 00000100 0300 0000 0a2301 0000
keeps 3310 \
    0064 0000 0000 0a80 0000 6400000000000000 0000 0000 \
    0764 0300 3001 0280 0000 0800 0300 \
    0c64 00000100 0300 0000 5aefbe 0600
foreign 3310 \
    0064 0000 0000 0a80 0000 6400000000000000 0000 0000 \
    0764 0300 3001 0280 0000 0800 0300 \
    0c64 00000100 0300 0000 5aefbe 0600
reads 3 0
closes 1 6 0x0008
reads 2 5
reads 3 48879
reads 1 291
foreign 3310 \
    0064 0000 0000 0a80 0000 6400000000000000 0000 0000 \
    0764 0300 3001 0280 0000 0800 0300 \
    0c64 00000100 0300 0000 5aefbe 0600
begins
sends 0 3310 \
    0065 0000 0000 0a80 0000 6500000000000000 0000 0000 \
    0765 0000 3001 0280 0000 0000 0000 \
    0c65 00000100 0300 0000 002301 0000";

/// The second slave was reset, then the third has a fault.
const SHORT_COUNTERS: &str = "\
sets 0 10
sets 1 291
ready 100
begins
keeps 3310 \
    0064 0000 0000 0a80 0000 6400000000000000 0000 0000 \
    0764 0300 3001 0280 0000 0900 0300 \
    0c64 00000100 0300 0000 0aefbe 0500
closes 0 5 0x0009
reads 2 0
reads 3 0
begins
keeps 3310 \
    0065 0000 0000 0a80 0000 6500000000000000 0000 0000 \
    0765 0300 3001 0280 0000 1c00 0300 \
    0c65 00000100 0300 0000 5aefbe 0400
closes 0 4 0x001C
reads 2 0
reads 3 0";

/// A frame that was lost, and comes back in the next cycle, or 256 numbers later with its index again.
const LOST_AND_LATE: &str = "\
ready 100
begins
closes 0 - 0
foreign 3310 \
    0064 0000 0000 0a80 0000 6400000000000000 0000 0000 \
    0764 0300 3001 0280 0000 0800 0300 \
    0c64 00000100 0300 0000 5aefbe 0600
begins
foreign 3310 \
    0064 0000 0000 0a80 0000 6400000000000000 0000 0000 \
    0764 0300 3001 0280 0000 0800 0300 \
    0c64 00000100 0300 0000 5aefbe 0600
closes 0 - 0
ready 356
begins
next 357
foreign 3310 \
    0064 0000 0000 0a80 0000 6400000000000000 0000 0000 \
    0764 0300 3001 0280 0000 0800 0300 \
    0c64 00000100 0300 0000 5aefbe 0600
closes 0 - 0
reads 3 0";

/// Each refusal, which changes nothing, and what it says; and what no variable holds.
const REFUSALS: &str = "\
refused 33 NotReady no start-up has ended ready
denies 35 NotOpen no cycle is open
ready 200
ready 150
next 200
begins
refused 34 Open a cycle is open already
closes 0 - 0
denies 35 NotOpen no cycle is open
ready 18446744073709551615
refused 36 NumbersSpent the numbers of cycles are used up
denied 0 16
denied 2 0
denied 4 0";

#[test]
fn cycles_of_three_slaves(rt: HostRuntime) {
    expect_steps(&rt, TABLE, THREE_IN_OP);
    expect_steps(&rt, TABLE, SHORT_COUNTERS);
    expect_steps(&rt, TABLE, LOST_AND_LATE);
    expect_steps(&rt, TABLE, REFUSALS);
}

/// A slave without LRW splits its part: each half has its counter.
const SPLIT_PART: &str = "\
sets 0 10
sets 1 291
ready 100
begins
sends 0 4210 \
    0064 0000 0000 0a80 0000 6400000000000000 0000 0000 \
    0764 0000 3001 0280 0000 0000 0000 \
    0b64 00000100 0380 0000 0a2301 0000 \
    0a64 00000100 0300 0000 000000 0000
keeps 4210 \
    0064 0000 0000 0a80 0000 6400000000000000 0000 0000 \
    0764 0300 3001 0280 0000 0800 0300 \
    0b64 00000100 0380 0000 0a2301 0200 \
    0a64 00000100 0300 0000 50efbe 0200
closes 1 2+2 0x0008
reads 2 5
reads 3 48879";

/// The second slave was reset, then the third has a fault: the sum is the same, each half is short once.
const SHORT_HALVES: &str = "\
ready 100
begins
keeps 4210 \
    0064 0000 0000 0a80 0000 6400000000000000 0000 0000 \
    0764 0300 3001 0280 0000 0900 0300 \
    0b64 00000100 0380 0000 000000 0200 \
    0a64 00000100 0300 0000 00efbe 0100
closes 0 2+1 0x0009
begins
keeps 4210 \
    0065 0000 0000 0a80 0000 6500000000000000 0000 0000 \
    0765 0300 3001 0280 0000 1c00 0300 \
    0b65 00000100 0380 0000 000000 0100 \
    0a65 00000100 0300 0000 50efbe 0200
closes 0 1+2 0x001C
reads 2 0
reads 3 0";

#[test]
fn split_parts(rt: HostRuntime) {
    expect_steps(&rt, WITHOUT_LRW, SPLIT_PART);
    expect_steps(&rt, WITHOUT_LRW, SHORT_HALVES);
}

/// Two units: the second one's frame is lost, then it comes back alone.
const ONE_BY_ONE: &str = "\
sets 0 10
sets 1 291
ready 100
begins
sends 0 3310 \
    0064 0000 0000 0a80 0000 6400000000000000 0000 0000 \
    0764 0000 3001 0280 0000 0000 0000 \
    0c64 00000100 0300 0000 3a1200 0000
sends 1 3110 \
    0064 0000 0000 0a80 0000 6400000000000000 0100 0000 \
    0764 0000 3001 0280 0000 0000 0000 \
    0c64 03000100 0100 0000 00 0000
keeps 3310 \
    0064 0000 0000 0a80 0000 6400000000000000 0000 0000 \
    0764 0300 3001 0280 0000 0800 0300 \
    0c64 00000100 0300 0000 faee0b 0500
closes 10 5,- 0x0008
reads 2 0
reads 3 48879
begins
keeps 3110 \
    0065 0000 0000 0a80 0000 6500000000000000 0100 0000 \
    0765 0300 3001 0280 0000 0800 0300 \
    0c65 03000100 0100 0000 05 0100
closes 01 -,1 0x0008
reads 2 5
reads 3 48879";

#[test]
fn units_one_by_one(rt: HostRuntime) {
    expect_steps(&rt, TWO_UNITS, ONE_BY_ONE);
}

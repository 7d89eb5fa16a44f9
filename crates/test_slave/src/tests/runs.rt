//! Runs of bits through one FMMU, from each first bit to each other one and of each length up to 40, over ones, over zeros
//! and over bits that differ, against bits that are put one by one.
ghost use Rattle.std.specs.Prelude.{◌≤◌, ◌<◌, ◌+◌};

use super::steps::{data_of, frame_of, pass_frame};
use super::{Kind, expect_cases};
use crate::compare::expect_same;
use ec_bits::{get, put};
use ec_frame::Command::{self, Aprd, Apwr, Lrd, Lwr};
use ec_slave::Slave;
use std::process::Abort;

/// The FMMU reads.
const READS: u8 = 1;

/// It writes.
const WRITES: u8 = 2;

/// Eight bytes of data, from logical address 0x00010000 on.
const DATA: [u8; 8] = [0x9d, 0x2c, 0x63, 0xf0, 0x5a, 0x17, 0xc8, 0x71];

/// What stands in the memory: ones and zeros, where a bit changed beside a run shows, and bits that differ, where one from
/// a wrong place does.
const MEMORIES: [[u8; 8]; 3] = [
    [0xff; 8],
    [0; 8],
    [0xa5, 0x3c, 0x96, 0xf1, 0x0e, 0x72, 0x4b, 0xd8],
];

/// So many bits from a bit of logical byte 0x00010001 on, and of physical byte 0x1801: one byte and more lie on both sides
/// of them, in the data and in the eight bytes of memory from 0x1800 on.
#[derive(Clone, Copy)]
struct Run {
    start: u8,
    physical: u8,
    count: u8,
    ghost short: { (start < 8) × (physical < 8) × (count ≤ 40) },
}

impl Run {
    /// The registers of an FMMU that maps it.
    fn registers(&self, direction: u8) -> [u8; 16] {
        let end = self.start + self.count + 7;
        let (start, physical) = (self.start, self.physical);
        [
            1,
            0,
            1,
            0,
            end / 8,
            0,
            start,
            end % 8,
            1,
            0x18,
            physical,
            direction,
            1,
            0,
            0,
            0,
        ]
    }

    /// How many bytes of memory have a bit of it.
    fn byte_count(&self) -> u8
        ensures { result ≤ 6 }
    {
        (self.physical + self.count + 7) / 8
    }

    /// The data, once these bytes of memory are read.
    fn read(&self, memory: &[u8; 8]) -> [u8; 8] {
        let mut data = DATA;
        for k in 0..self.count {
            let bit = get(memory, usize::from(8 + self.physical + k));
            put(&mut data, usize::from(8 + self.start + k), bit);
        }
        data
    }

    /// These bytes of memory, once the data are written.
    fn written(&self, memory: &[u8; 8]) -> [u8; 8] {
        let mut bytes = *memory;
        for k in 0..self.count {
            let bit = get(&DATA, usize::from(8 + self.start + k));
            put(&mut bytes, usize::from(8 + self.physical + k), bit);
        }
        bytes
    }
}

/// Prints how many bits a run has, the first logical one and the first physical one, if something isn't as it must be.
fn assert_run(rt: &impl Abort, run: Run, is_good: bool) {
    let about = (run.count, run.start, run.physical);
    expect_same(rt, &(about, is_good), &(about, true), "a run");
}

/// Passes a datagram, and compares its data as they come back.
fn expect_back(
    rt: &impl Abort,
    slave: &mut Slave,
    run: Run,
    (command, address): (Command, u32),
    sent: &[u8],
    back: &[u8],
) {
    let mut frame = frame_of(rt, command, address, sent);
    pass_frame(rt, slave, frame.as_mut_slice());
    assert_run(rt, run, data_of(frame.as_slice()).starts_with(back));
}

/// Writes bytes, which come back as they are sent.
fn expect_written(rt: &impl Abort, slave: &mut Slave, run: Run, address: u32, bytes: &[u8]) {
    expect_back(rt, slave, run, (Apwr, address), bytes, bytes);
}

/// Reads the data over these bytes of memory.
fn expect_read(rt: &impl Abort, slave: &mut Slave, run: Run, memory: &[u8; 8]) {
    expect_back(rt, slave, run, (Lrd, 0x0001_0000), &DATA, &run.read(memory));
}

/// Sets the FMMU so that it writes, and writes the data over these bytes of memory.
fn expect_write(rt: &impl Abort, slave: &mut Slave, run: Run, memory: &[u8; 8]) {
    expect_written(rt, slave, run, 0x0600_0000, &run.registers(WRITES));
    expect_back(rt, slave, run, (Lwr, 0x0001_0000), &DATA, &DATA);
    expect_back(
        rt,
        slave,
        run,
        (Aprd, 0x1800_0000),
        &[0; 8],
        &run.written(memory),
    );
}

/// Sets the memory, and exchanges the data.
fn expect_exchange(rt: &impl Abort, slave: &mut Slave, run: Run, memory: &[u8; 8]) {
    expect_written(rt, slave, run, 0x1800_0000, memory);
    expect_read(rt, slave, run, memory);
    expect_write(rt, slave, run, memory);
}

/// The application puts the bytes of memory that have a bit of the run, as it may.
fn expect_put(rt: &impl Abort, slave: &mut Slave, run: Run, memory: &[u8; 8]) {
    for place in 0..usize::from(run.byte_count()) {
        assert_run(rt, run, slave.app_put(place, memory[1 + place]));
    }
}

/// Sets manager 3 over the run's physical bytes, of which the application puts the value, and reads the data.
fn expect_value(rt: &impl Abort, slave: &mut Slave, run: Run, memory: &[u8; 8]) {
    let manager = [1, 0x18, run.byte_count(), 0, 0x20, 0, 1, 0];
    expect_written(rt, slave, run, 0x0818_0000, &manager);
    expect_put(rt, slave, run, memory);
    expect_read(rt, slave, run, memory);
}

/// Sets an FMMU so that it reads. The run is one of a value, or of memory that no manager has a byte of.
fn expect_run(rt: &impl Abort, slave: &mut Slave, run: Run, memory: &[u8; 8], is_value: bool) {
    expect_written(rt, slave, run, 0x0600_0000, &run.registers(READS));
    if is_value {
        expect_value(rt, slave, run, memory);
    } else {
        expect_exchange(rt, slave, run, memory);
    }
}

/// Each run of up to 40 bits, over ones, zeros and bits that differ. For those of a value the slave is in SAFEOP.
pub fn take_runs(rt: &impl Abort, slave: &mut Slave, is_value: bool) {
    for memory in &MEMORIES {
        for start in 0..8 {
            for physical in 0..8 {
                for count in 1..41 {
                    let run = Run {
                        start,
                        physical,
                        count,
                    };
                    expect_run(rt, slave, run, memory, is_value);
                }
            }
        }
    }
}

// Plain memory, of which no manager has a byte.
#[test]
fn each_short_run_of_memory(rt: HostRuntime) {
    expect_cases(
        &rt,
        Kind::Plain,
        "",
        "case each_short_run_of_memory\nmemory_runs",
    );
}

/// The slave is led to SAFEOP first.
const VALUES: &str = "\
case each_short_run_of_a_value
asks 0200 > 020000000000
asks 0400 > 040000000000
value_runs
";

// The value of a manager that has just the bytes of the run, in SAFEOP.
#[test]
fn each_short_run_of_a_value(rt: HostRuntime) {
    expect_cases(&rt, Kind::Plain, "", VALUES);
}

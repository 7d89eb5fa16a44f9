//! What the tests of FMMUs are made of, and each short run that one FMMU brings to and fro, beside the same bit by bit.
ghost use Rattle.std.specs.Prelude.{◌<◌, ◌≤◌, ◌+◌, ◌-◌, ◌*◌, ◌==◌, Option, Some, None, true, false, if◌then◌else◌};
ghost use Rattle.ec_bits.specs.Bits.{bit, within};

use crate::rows::expect_same;
use ec_bits::{get, put};
use ec_fmmu::{
    Fmmu, FmmuTable, ReadableBits, ReadableRuns, WritableBytes, apply_read, apply_write,
    read_by_bits, run_settings,
};
use ec_regs::FmmuSettings;
use std::process::Abort;

/// The first bit of the RAM from 0x1800 on.
pub(crate) const FIRST: u32 = 8 * 0x1800;

/// The first logical bit of the runs.
pub(crate) const LOGICAL: u64 = 8 * 0x0001_0000;

/// Six bytes of RAM from 0x1800 on that may be read; all others may not.
#[derive(Drop)]
pub(crate) struct Ram {
    pub(crate) bytes: [u8; 6],
}

impl ReadableBits for Ram {
    ghost can_read = { λ _. Unit {0} };

    ghost visible = { λ ram q. if within 49152 48 q then Some (bit ram.bytes (q - 49152)) else None };

    fn visible_bit(&self, physical: u32) -> Option<bool> {
        if FIRST <= physical && physical < FIRST + 48 {
            Some(get(&self.bytes, (physical - FIRST) as usize))
        } else {
            None
        }
    }
}

impl ReadableRuns for Ram {
    fn read_run(&self, physical: u32, count: usize, bytes: &mut [u8], to: usize) -> bool {
        read_by_bits(self, physical, count, bytes, to)
    }
}

/// All bytes but one may be written.
#[derive(Drop)]
pub(crate) struct AllBut {
    pub(crate) address: u16,
}

impl WritableBytes for AllBut {
    ghost can_allow = { λ _. Unit {0} };

    ghost allowed = { λ rights a. if a == rights.address then false else true };

    fn is_allowed(&self, address: u16) -> bool {
        address != self.address
    }

    fn count_alike(&self, _start: u16, _len: usize) -> usize {
        1
    }
}

/// Everything may be written, said of runs too.
#[derive(Drop)]
pub(crate) struct All;

impl WritableBytes for All {
    ghost can_allow = { λ _. Unit {0} };

    ghost allowed = { λ _ _. true };

    fn is_allowed(&self, _address: u16) -> bool {
        true
    }

    fn count_alike(&self, _start: u16, len: usize) -> usize {
        len
    }
}

/// These FMMUs of a slave, the lowest first; the others aren't activated.
pub(crate) fn table(fmmus: &[Fmmu]) -> FmmuTable {
    let mut four = [Fmmu::new(FmmuSettings::none()); 4];
    for (place, fmmu) in four.iter_mut().zip(fmmus) {
        *place = *fmmu;
    }
    FmmuTable::new(four)
}

/// An FMMU of `count` bits, from a bit behind the logical address 0x00010000 on to one behind
/// 0x1800.
pub(crate) fn run_of(logical: u8, physical: u8, count: usize) -> Fmmu
    requires { count ≤ 40 }
{
    let from = LOGICAL as usize + logical as usize;
    let start = 0x1800 + u16::from(physical / 8);
    Fmmu::new(FmmuSettings {
        physical_bit: physical % 8,
        ..run_settings(true, true, from, count, start)
    })
}

/// `count` bits of `from` put one by one into `to`.
fn moved(from: [u8; 6], at: usize, to: [u8; 6], place: usize, count: usize) -> [u8; 6]
    requires there { at + count ≤ 48 }
    requires inside { place + count ≤ 48 }
{
    let mut bytes = to;
    for k in 0..count {
        put(&mut bytes, place + k, get(&from, at + k));
    }
    bytes
}

/// What is written or read in the tests below: six bytes of data, or of memory.
pub(crate) const RUN: [u8; 6] = [0x9d, 0x2c, 0x63, 0xf0, 0x5a, 0x17];

/// Writes a run of so many bits, said of runs of bytes and of each byte, and compares both with the same bit by bit.
fn expect_written(rt: &impl Abort, before: [u8; 6], start: u8, physical: u8, count: usize)
    requires start { start < 8 }
    requires physical { physical < 8 }
    requires count { count ≤ 40 }
{
    let fmmus = table(&[run_of(start, physical, count)]);
    let want = moved(RUN, start as usize, before, physical as usize, count);
    let (mut by_runs, mut by_bytes) = (before, before);
    let met = [
        apply_write(&fmmus, &All, LOGICAL, &RUN, FIRST, &mut by_runs),
        apply_write(
            &fmmus,
            &AllBut { address: 0 },
            LOGICAL,
            &RUN,
            FIRST,
            &mut by_bytes,
        ),
    ];
    let run = (start, physical, count);
    expect_same(
        rt,
        &(run, met, [by_runs, by_bytes]),
        &(run, [true, true], [want, want]),
        "a written run",
    );
}

// Each first bit of both sides and each length up to 40, written over ones and over zeros, so that a
// bit changed beside the run shows.
#[test]
fn writes_each_short_run_as_bit_by_bit(rt: HostRuntime) {
    for number in 0..2560usize {
        let (start, physical) = ((number % 8) as u8, (number / 8 % 8) as u8);
        expect_written(&rt, [0xff; 6], start, physical, number / 64 % 40 + 1);
        expect_written(&rt, [0; 6], start, physical, number / 64 % 40 + 1);
    }
}

/// Reads a run of so many bits, and compares it with the same bit by bit.
fn expect_read(
    rt: &impl Abort,
    bytes: [u8; 6],
    before: [u8; 6],
    start: u8,
    physical: u8,
    count: usize,
)
    requires start { start < 8 }
    requires physical { physical < 8 }
    requires count { count ≤ 40 }
{
    let fmmus = table(&[run_of(start, physical, count)]);
    let want = moved(bytes, physical as usize, before, start as usize, count);
    let mut data = before;
    let met = apply_read(&fmmus, &Ram { bytes }, LOGICAL, &mut data);
    let run = (start, physical, count);
    expect_same(
        rt,
        &(run, met, data),
        &(run, true, want),
        "a run that is read",
    );
}

/// Reads a run of each first bit of both sides and each length up to 40.
fn expect_each_read(rt: &impl Abort, bytes: [u8; 6], before: [u8; 6]) {
    for number in 0..2560usize {
        let (start, physical) = ((number % 8) as u8, (number / 8 % 8) as u8);
        expect_read(rt, bytes, before, start, physical, number / 64 % 40 + 1);
    }
}

// The same of reads: of ones and of zeros, so that a data bit changed beside the run shows, and of
// other bytes into ones and into zeros, so that a bit from a wrong place does.
#[test]
fn reads_each_short_run_as_bit_by_bit(rt: HostRuntime) {
    expect_each_read(&rt, [0xff; 6], RUN);
    expect_each_read(&rt, [0; 6], RUN);
    expect_each_read(&rt, RUN, [0xff; 6]);
    expect_each_read(&rt, RUN, [0; 6]);
}

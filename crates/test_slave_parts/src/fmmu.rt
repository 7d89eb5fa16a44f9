//! Bits that FMMUs bring to and fro, by the public calls of `ec_fmmu`.
use crate::rows::expect_same;
use crate::runs::{All, AllBut, FIRST, LOGICAL, RUN, Ram, run_of, table};
use ec_fmmu::{
    Fmmu, FmmuTable, apply_read, apply_write, is_touched_by_reading, is_touched_by_writing,
    run_settings, write_source,
};
use ec_regs::{FmmuSettings, decode_fmmu};
use std::process::Abort;

/// Each byte of the RAM may be written, said byte by byte.
const NO_BYTE_LESS: AllBut = AllBut { address: 0 };

/// An FMMU of whole bytes, for reading and writing.
fn whole(logical_start: u32, length: u16, physical_start: u16) -> Fmmu {
    Fmmu::new(FmmuSettings {
        logical_start,
        length,
        start_bit: 0,
        stop_bit: 7,
        physical_start,
        physical_bit: 0,
        reads: true,
        writes: true,
        active: true,
    })
}

// 00000100 0100 00 03 0018 02 02 01 000000, LWR of 0b at 0x00010000 with ff at 0x1800.
#[test]
fn writes_four_bits(rt: HostRuntime) {
    let registers = decode_fmmu(&[0, 0, 1, 0, 1, 0, 0, 3, 0, 0x18, 2, 2, 1, 0, 0, 0]);
    let fmmus = table(&[Fmmu::new(registers)]);
    let (mut window, mut data) = ([0xff], [0x0b]);
    let met = [
        apply_write(&fmmus, &NO_BYTE_LESS, LOGICAL, &[0x0b], FIRST, &mut window),
        apply_read(&fmmus, &Ram { bytes: [0; 6] }, LOGICAL, &mut data),
    ];
    expect_same(
        &rt,
        &(met, window, data),
        &([true, false], [0xef], [0x0b]),
        "writes four bits",
    );
}

/// The first byte of the RAM alone isn't 0.
const EF: Ram = Ram {
    bytes: [0xef, 0, 0, 0, 0, 0],
};

// 00000100 0100 04 07 0018 02 01 01 000000, LRD of 0f at 0x00010000 with ef at 0x1800.
#[test]
fn reads_four_bits(rt: HostRuntime) {
    let registers = decode_fmmu(&[0, 0, 1, 0, 1, 0, 4, 7, 0, 0x18, 2, 1, 1, 0, 0, 0]);
    let fmmus = table(&[Fmmu::new(registers)]);
    let (mut data, mut window) = ([0x0f], [0xff]);
    let met = [
        apply_read(&fmmus, &EF, LOGICAL, &mut data),
        apply_write(&fmmus, &NO_BYTE_LESS, LOGICAL, &[0], FIRST, &mut window),
    ];
    expect_same(
        &rt,
        &(met, data, window),
        &([true, false], [0xbf], [0xff]),
        "reads four bits",
    );
}

/// Four bytes of RAM, and 0 behind them.
const FOUR_BYTES: Ram = Ram {
    bytes: [0x12, 0x34, 0x56, 0x78, 0, 0],
};

// The last logical byte and the one behind it: addresses don't wrap to 0.
#[test]
fn logical_addresses_do_not_wrap(rt: HostRuntime) {
    let last = whole(0xffff_ffff, 2, 0x1800);
    let first = whole(0, 1, 0x1803);
    let mut data = [0, 0];
    let any = apply_read(
        &table(&[first, last]),
        &FOUR_BYTES,
        8 * 0xffff_ffff,
        &mut data,
    );
    let mapped = [last.map(8 * 0x1_0000_0000), first.map(8 * 0x1_0000_0000)];
    expect_same(
        &rt,
        &(any, data, mapped, last.inverse(8 * 0x1801 + 7)),
        &(
            true,
            [0x12, 0x34],
            [Some(8 * 0x1801), None],
            Some(8 * 0x1_0000_0000 + 7),
        ),
        "logical addresses do not wrap",
    );
}

// On one logical bit the lower FMMU decides, for reading and for writing.
#[test]
fn lower_decides_on_a_logical_bit(rt: HostRuntime) {
    let fmmus = table(&[whole(0x0001_0000, 1, 0x1801), whole(0x0001_0000, 2, 0x1802)]);
    let (mut data, mut window) = ([0, 0], [0; 4]);
    let met = [
        apply_read(&fmmus, &FOUR_BYTES, LOGICAL, &mut data),
        apply_write(
            &fmmus,
            &NO_BYTE_LESS,
            LOGICAL,
            &[0xaa, 0xbb],
            FIRST,
            &mut window,
        ),
    ];
    expect_same(
        &rt,
        &(met, data, window),
        &([true, true], [0x34, 0x78], [0, 0xaa, 0, 0xbb]),
        "lower decides on a logical bit",
    );
}

// On one physical bit the lower of the write pairs left decides, whether the datagram reaches its
// logical bit or not; a pair that lost its logical bit blocks nothing.
#[test]
fn lower_decides_on_a_physical_bit(rt: HostRuntime) {
    let fmmus = table(&[
        whole(0x0001_0000, 1, 0x1800),
        whole(0x0001_0000, 1, 0x1801),
        whole(0x0001_0001, 2, 0x1800),
    ]);
    let (mut all, mut behind, mut one) = ([0; 4], [0; 4], [0; 4]);
    let met = [
        apply_write(
            &fmmus,
            &NO_BYTE_LESS,
            LOGICAL,
            &[0xaa, 0xbb, 0xcc],
            FIRST,
            &mut all,
        ),
        apply_write(
            &fmmus,
            &NO_BYTE_LESS,
            LOGICAL + 8,
            &[0xbb, 0xcc],
            FIRST,
            &mut behind,
        ),
        apply_write(&fmmus, &NO_BYTE_LESS, LOGICAL + 8, &[0xbb], FIRST, &mut one),
    ];
    let source = write_source(fmmus.as_slice(), FIRST);
    expect_same(
        &rt,
        &(met, [all, behind, one], source),
        &(
            [true, true, false],
            [[0xaa, 0xcc, 0, 0], [0, 0xcc, 0, 0], [0; 4]],
            Some(LOGICAL),
        ),
        "lower decides on a physical bit",
    );
}

#[test]
fn denied_and_unmapped_bytes_stay(rt: HostRuntime) {
    let fmmus = table(&[whole(0x0001_0000, 4, 0x1800)]);
    let rights = AllBut { address: 0x1801 };
    let mut window = [0; 3];
    let any = apply_write(&fmmus, &rights, LOGICAL, &[1, 2, 3, 4], FIRST, &mut window);
    let mapped = [
        whole(0, 2, 0x2fff).map(8),
        whole(0, 2, 0x0fff).map(8),
        whole(0, 0, 0x1800).map(0),
    ];
    expect_same(
        &rt,
        &(any, window, mapped),
        &(true, [1, 0, 3], [None, Some(8 * 0x1000), None]),
        "denied and unmapped bytes stay",
    );
}

/// The first logical bit of a datagram, how many it has, a byte, and whether that is touched.
type Touched = (u64, u64, u16, bool);

/// Compares whether a byte is touched, by reading and by writing.
fn expect_touched(rt: &impl Abort, fmmus: &FmmuTable, row: &Touched) {
    let (from, bits, address, is_touched) = *row;
    let met = [
        is_touched_by_reading(fmmus, from, bits, address),
        is_touched_by_writing(fmmus, from, bits, address),
    ];
    expect_same(
        rt,
        &(from, bits, address, met),
        &(from, bits, address, [is_touched; 2]),
        "a touched byte",
    );
}

/// Compares the same of several rows.
fn expect_all_touched(rt: &impl Abort, fmmus: &FmmuTable, rows: &[Touched]) {
    for row in rows {
        expect_touched(rt, fmmus, row);
    }
}

/// Two FMMUs that map one logical byte, and the lower one no other.
const BY_PAIRS: [Touched; 5] = [
    (LOGICAL, 16, 0x1800, false),
    (LOGICAL, 16, 0x1801, true),
    (LOGICAL, 16, 0x1802, false),
    (LOGICAL, 16, 0x1803, true),
    (LOGICAL, 8, 0x1803, false),
];

/// One FMMU alone, of eight bits in the middle of two bytes on both sides.
const BY_A_RUN: [Touched; 9] = [
    (LOGICAL, 16, 0x17ff, false),
    (LOGICAL, 16, 0x1800, true),
    (LOGICAL, 16, 0x1801, true),
    (LOGICAL, 16, 0x1802, false),
    (LOGICAL, 8, 0x1801, false),
    (LOGICAL, 4, 0x1800, false),
    (LOGICAL + 8, 8, 0x1800, false),
    (LOGICAL + 8, 8, 0x1801, true),
    (LOGICAL + 12, 8, 0x1801, false),
];

// A byte is touched where a pair of the direction's set joins one of its bits to the datagram.
#[test]
fn touches_bytes(rt: HostRuntime) {
    let pairs = table(&[whole(0x0001_0000, 1, 0x1801), whole(0x0001_0000, 2, 0x1802)]);
    expect_all_touched(&rt, &pairs, &BY_PAIRS);
    expect_all_touched(&rt, &table(&[run_of(4, 4, 8)]), &BY_A_RUN);
}

/// The six bytes that are read.
const SIX_BYTES: Ram = Ram { bytes: RUN };

// The data begins and ends inside the run, and so does the window.
#[test]
fn moves_what_the_data_and_the_window_reach(rt: HostRuntime) {
    let fmmus = table(&[whole(0x0001_0000, 6, 0x1800)]);
    let (mut window, mut middle, mut end) = ([0; 2], [0; 3], [0; 2]);
    let met = [
        apply_write(
            &fmmus,
            &All,
            LOGICAL + 8,
            &[1, 2, 3],
            FIRST + 16,
            &mut window,
        ),
        apply_read(&fmmus, &SIX_BYTES, LOGICAL + 8, &mut middle),
        apply_read(&fmmus, &SIX_BYTES, LOGICAL + 40, &mut end),
    ];
    let mut behind = end;
    let none = apply_read(&fmmus, &SIX_BYTES, LOGICAL + 48, &mut behind);
    expect_same(
        &rt,
        &(met, none, window, middle, (end, behind)),
        &(
            [true; 3],
            false,
            [2, 3],
            [0x2c, 0x63, 0xf0],
            ([0x17, 0], [0x17, 0]),
        ),
        "moves what the data and the window reach",
    );
}

/// Of the second FMMU the first logical and the first physical bit; data, what is there before, and what is there then.
type Overlapping<D, W> = ((u8, u8), D, W, W);

/// Two FMMUs that meet in logical bits, in physical bits, in both: bit 4 on of the logical byte
/// belongs to the lower one, and of a physical bit the lower of the pairs left.
const WRITTEN: [Overlapping<[u8; 2], [u8; 4]>; 6] = [
    ((4, 16), [0xff, 0xff], [0; 4], [0xff, 0, 0xf0, 0]),
    ((4, 16), [0, 0], [0xff; 4], [0, 0xff, 0x0f, 0xff]),
    ((8, 4), [0xff, 0], [0; 4], [0xff, 0, 0, 0]),
    ((8, 4), [0xff, 0], [0xff; 4], [0xff, 0xf0, 0xff, 0xff]),
    ((4, 4), [0xff, 0xff], [0; 4], [0xff, 0x0f, 0, 0]),
    ((4, 4), [0, 0], [0xff; 4], [0, 0xf0, 0xff, 0xff]),
];

/// Writes through two FMMUs of eight bits.
fn expect_written(rt: &impl Abort, row: &Overlapping<[u8; 2], [u8; 4]>) {
    let ((logical, physical), data, before, want) = *row;
    let fmmus = table(&[run_of(0, 0, 8), run_of(logical, physical, 8)]);
    let mut window = before;
    let any = apply_write(&fmmus, &All, LOGICAL, &data, FIRST, &mut window);
    expect_same(
        rt,
        &((logical, physical), before, any, window),
        &((logical, physical), before, true, want),
        "a written run",
    );
}

#[test]
fn overlapping_runs_are_written_bit_by_bit(rt: HostRuntime) {
    for row in &WRITTEN {
        expect_written(&rt, row);
    }
}

/// Six bytes of RAM.
const MIXED: [u8; 6] = [0xa5, 0x3c, 0x96, 0, 0, 0];

/// The same of reads, where only logical bits are decided on: a physical bit may be read twice.
const READ: [Overlapping<[u8; 6], [u8; 2]>; 9] = [
    ((4, 16), MIXED, [0, 0], [0xa5, 0x09]),
    ((4, 16), [0xff; 6], [0, 0], [0xff, 0x0f]),
    ((4, 16), [0; 6], [0xff, 0xff], [0, 0xf0]),
    ((8, 4), MIXED, [0, 0], [0xa5, 0xca]),
    ((8, 4), [0xff; 6], [0, 0], [0xff, 0xff]),
    ((8, 4), [0; 6], [0xff, 0xff], [0, 0]),
    ((4, 4), MIXED, [0, 0], [0xa5, 0x0c]),
    ((4, 4), [0xff; 6], [0, 0], [0xff, 0x0f]),
    ((4, 4), [0; 6], [0xff, 0xff], [0, 0xf0]),
];

/// Reads through two FMMUs of eight bits.
fn expect_read(rt: &impl Abort, row: &Overlapping<[u8; 6], [u8; 2]>) {
    let ((logical, physical), bytes, before, want) = *row;
    let fmmus = table(&[run_of(0, 0, 8), run_of(logical, physical, 8)]);
    let mut data = before;
    let any = apply_read(&fmmus, &Ram { bytes }, LOGICAL, &mut data);
    expect_same(
        rt,
        &((logical, physical), bytes, any, data),
        &((logical, physical), bytes, true, want),
        "a run that is read",
    );
}

#[test]
fn overlapping_runs_are_read_bit_by_bit(rt: HostRuntime) {
    for row in &READ {
        expect_read(&rt, row);
    }
}

/// Of the outputs, then of the inputs: how many bits, the first logical one, the first byte.
fn area_of(fmmus: &[Fmmu]) -> Option<[u64; 6]> {
    let it = table(fmmus).area()?;
    Some([
        it.outs,
        it.out_at,
        it.out_start,
        it.ins,
        it.in_at,
        it.in_start,
    ])
}

// 12 bits of outputs from bit 3 of the logical byte 0x00010000 on, 9 bits of inputs behind them: 8 * 0x10000 + 3 is 0x80003, and
// 12 more 0x8000F. What other FMMUs map has no area, and neither has what begins inside a byte.
#[test]
fn usual_fmmus_have_an_area(rt: HostRuntime) {
    let outputs = Fmmu::new(run_settings(false, true, 0x80003, 12, 0x1100));
    let inputs = Fmmu::new(run_settings(true, false, 0x8000F, 9, 0x1400));
    let none = Fmmu::new(FmmuSettings::none());
    let inside = Fmmu::new(FmmuSettings {
        physical_bit: 1,
        ..inputs.settings()
    });
    let areas = [
        area_of(&[outputs, inputs]),
        area_of(&[none, inputs]),
        area_of(&[inputs, outputs]),
        area_of(&[outputs, inputs, inputs]),
        area_of(&[outputs, inside]),
    ];
    let both = [12, 0x80003, 0x1100, 9, 0x8000F, 0x1400];
    let mute = [0, 0x8000F, 0, 9, 0x8000F, 0x1400];
    expect_same(
        &rt,
        &areas,
        &[Some(both), Some(mute), None, None, None],
        "usual fmmus have an area",
    );
}

//! Copies and numbers of bits, by the public calls of `ec_bits`.
ghost use Rattle.std.specs.Prelude.{◌<◌, ◌≤◌};

use crate::rows::expect_same;
use ec_bits::{copy_bits, copy_by_words, get, overwrite, put, read_bits, within, write_bits};
use std::process::Abort;

// Twelve bits from bit 0 of ab cd, so b a d from the lowest nibble on, to bit 4 of ff ff ff. Then ten ones to bit 7: bits 7 to
// 16 are set, and bits 0 to 6 and 17 on stay; and no bit behind the last one, which changes nothing.
#[test]
fn copies_bits(rt: HostRuntime) {
    let mut twelve = [0xff, 0xff, 0xff];
    let mut ten = [0, 0, 0];
    let turns = copy_bits(&mut twelve, 4, &[0xab, 0xcd], 0, 12);
    let more_turns = copy_bits(&mut ten, 7, &[0xfe, 0xff], 1, 10);
    let mut none = ten;
    let no_turns = copy_bits(&mut none, 24, &[0xff], 8, 0);
    expect_same(
        &rt,
        &(turns, more_turns, no_turns, twelve, ten, none),
        &(
            2,
            3,
            0,
            [0xbf, 0xda, 0xff],
            [0x80, 0xff, 0x01],
            [0x80, 0xff, 0x01],
        ),
        "copies bits",
    );
}

#[test]
fn reads_numbers(rt: HostRuntime) {
    let bytes = [0x10, 0x32, 0x54, 0x76, 0x98, 0xba, 0xdc, 0xfe, 0x0f];
    let numbers = [
        read_bits(&bytes, 0, 64),
        read_bits(&bytes, 4, 64),
        read_bits(&bytes, 12, 12),
        read_bits(&bytes, 72, 0),
    ];
    expect_same(
        &rt,
        &numbers,
        &[0xfedc_ba98_7654_3210, 0xffed_cba9_8765_4321, 0x543, 0],
        "reads numbers",
    );
}

#[test]
fn writes_numbers(rt: HostRuntime) {
    let mut long = [0xff; 9];
    write_bits(&mut long, 4, 64, 0x8000_0000_0000_0001);
    let mut short = long;
    write_bits(&mut short, 9, 3, 0x15);
    let mut none = short;
    write_bits(&mut none, 72, 0, 1);
    expect_same(
        &rt,
        &[long, short, none],
        &[
            [0x1f, 0, 0, 0, 0, 0, 0, 0, 0xf8],
            [0x1f, 0x0a, 0, 0, 0, 0, 0, 0, 0xf8],
            [0x1f, 0x0a, 0, 0, 0, 0, 0, 0, 0xf8],
        ],
        "writes numbers",
    );
}

#[test]
fn sets_single_bits(rt: HostRuntime) {
    let mut bytes = [0x80, 0xff];
    put(&mut bytes, 2, true);
    put(&mut bytes, 15, false);
    let mut told = bytes;
    let seen = [
        get(&bytes, 7),
        get(&bytes, 15),
        overwrite(&mut told, 0, Some(true)),
        overwrite(&mut told, 1, None),
    ];
    expect_same(
        &rt,
        &(seen, bytes, told),
        &([true, false, true, false], [0x84, 0x7f], [0x85, 0x7f]),
        "sets single bits",
    );
}

/// Copies bit by bit.
fn copied_by_bits(dst: [u8; 6], to: usize, src: &[u8; 6], from: usize, count: usize) -> [u8; 6]
    requires to { to < 8 }
    requires from { from < 8 }
    requires count { count ≤ 40 }
{
    let mut dst = dst;
    for k in 0..count {
        put(&mut dst, to + k, get(src, from + k));
    }
    dst
}

/// What is copied from in the next test.
const SOURCE: [u8; 6] = [0x9d, 0x2c, 0x63, 0xf0, 0x5a, 0x17];

/// Copies a run by bytes, by words and as a number, and compares each with the copy bit by bit.
fn expect_run(rt: &impl Abort, before: [u8; 6], to: usize, from: usize, count: usize)
    requires to { to < 8 }
    requires from { from < 8 }
    requires count { count ≤ 40 }
{
    let (mut by_bytes, mut by_words, mut as_number) = (before, before, before);
    copy_bits(&mut by_bytes, to, &SOURCE, from, count);
    copy_by_words(&mut by_words, to, &SOURCE, from, count);
    write_bits(&mut as_number, to, count, read_bits(&SOURCE, from, count));
    let want = copied_by_bits(before, to, &SOURCE, from, count);
    expect_same(
        rt,
        &((to, from, count), [by_bytes, by_words, as_number]),
        &((to, from, count), [want, want, want]),
        "a run",
    );
}

// Each place in a byte of both, each length up to 40, over ones and over zeros, so that a bit
// changed beside the run shows.
#[test]
fn copies_each_short_run_as_bit_by_bit(rt: HostRuntime) {
    for number in 0..2560usize {
        let (to, from, count) = (number % 8, number / 8 % 8, number / 64 % 40 + 1);
        expect_run(&rt, [0xff; 6], to, from, count);
        expect_run(&rt, [0; 6], to, from, count);
    }
}

/// 152 bits to copy from.
fn long_source() -> [u8; 19] {
    let mut bytes = [0; 19];
    for (k, byte) in bytes.iter_mut().enumerate() {
        *byte = (37 * k % 256) as u8;
    }
    bytes
}

/// Copies 130 bits bit by bit, over ones.
fn long_by_bits(to: usize, src: &[u8; 19], from: usize) -> [u8; 19]
    requires to { to < 8 }
    requires from { from < 8 }
{
    let mut bytes = [0xff; 19];
    for k in 0..130usize {
        put(&mut bytes, to + k, get(src, from + k));
    }
    bytes
}

/// Copies 130 bits by words, and compares that with the copy bit by bit.
fn expect_long_run(rt: &impl Abort, to: usize, src: &[u8; 19], from: usize)
    requires to { to < 8 }
    requires from { from < 8 }
{
    let mut bytes = [0xff; 19];
    copy_by_words(&mut bytes, to, src, from, 130);
    expect_same(
        rt,
        &(to, from, bytes),
        &(to, from, long_by_bits(to, src, from)),
        "a long run",
    );
}

// 130 bits, so two words of eight bytes, with bits before and behind them.
#[test]
fn copies_a_long_run_as_bit_by_bit(rt: HostRuntime) {
    let src = long_source();
    for number in 0..64usize {
        expect_long_run(&rt, number % 8, &src, number / 8 % 8);
    }
}

#[test]
fn finds_what_is_within(rt: HostRuntime) {
    let found = [
        within(3, 2, 3),
        within(3, 2, 4),
        within(3, 2, 2),
        within(3, 2, 5),
        within(3, 0, 3),
        within(1, usize::MAX, usize::MAX),
    ];
    expect_same(
        &rt,
        &found,
        &[true, true, false, false, false, true],
        "finds what is within",
    );
}

//! Types of slaves and lists, by the public calls of `ec_device` and `ec_listed`.
use crate::kinds::{DEVICE, MAILBOX, Pdos, kind_with, pdos_of};
use crate::rows::{expect, expect_same};
use ec_device::{Entry, Pdo, SlaveType};
use ec_listed::Listed;
use std::alloc::AllocError;
use std::process::Abort;

/// Outputs of 12 bits, and a gap of 4.
const OUTPUTS: Pdos<'static> = &[
    (
        0x1600,
        &[Entry {
            index: 0x7010,
            subindex: 1,
            bits: 12,
        }],
    ),
    (
        0x17FF,
        &[Entry {
            index: 0,
            subindex: 0,
            bits: 4,
        }],
    ),
];

/// Inputs of 16 bits.
const INPUTS: Pdos<'static> = &[(
    0x1A00,
    &[Entry {
        index: 0x6010,
        subindex: 1,
        bits: 16,
    }],
)];

/// Expects of a type the device, the mailboxes, and the outputs and inputs above.
fn expect_objects(rt: &impl Abort, kind: &SlaveType) {
    let identity = kind.device().identity(7);
    let starts = [kind.out_start(), kind.in_start()];
    let counts = [kind.outputs().len(), kind.inputs().len()];
    let bits = [kind.output_bits(), kind.input_bits()];
    let is_device = kind.device() == DEVICE && identity.device() == DEVICE;
    let has_mailbox = kind.mailbox() == Some(MAILBOX);
    expect(rt, is_device && has_mailbox && kind.lrw(), "a type");
    expect_same(
        rt,
        &(identity.serial, starts, counts, bits),
        &(7, [0x1100, 0x1400], [2, 1], [16, 16]),
        "a type",
    );
}

/// Expects the same of a copy.
fn expect_copy(rt: &impl Abort, copy: Result<SlaveType, AllocError>) {
    expect_objects(rt, &copy.expect(rt, "memory"));
}

// A slave with a mailbox, 12 output bits and a gap, and 16 input bits.
#[test]
fn a_type_with_objects(rt: HostRuntime) {
    let kind = kind_with(&rt, OUTPUTS, INPUTS, 0x1400, true);
    expect_objects(&rt, &kind);
    expect_copy(&rt, kind.copied(rt.alloc()));
}

/// An entry of 64 bits.
const LONG: Entry = Entry {
    index: 0x7000,
    subindex: 1,
    bits: 64,
};

/// Compares what is within the limits: an index twice, one of the other direction and the same where it belongs, an entry too
/// long, and a gap with a subindex.
fn expect_limits(rt: &impl Abort, twice: &[Pdo], other: &[Pdo]) {
    let within = [
        SlaveType::is_within_limits(None, twice, &[]),
        SlaveType::is_within_limits(None, other, &[]),
        SlaveType::is_within_limits(None, &[], other),
        Entry { bits: 65, ..LONG }.is_within_limits(),
        Entry { index: 0, ..LONG }.is_within_limits(),
    ];
    expect_same(rt, &within, &[false, false, true, false, false], "limits");
}

#[test]
fn types_out_of_limits(rt: HostRuntime) {
    let twice = pdos_of(&rt, &[(0x1600, &[LONG]), (0x1600, &[LONG])]);
    let other = pdos_of(&rt, &[(0x1A00, &[LONG])]);
    expect_limits(&rt, twice.as_slice(), other.as_slice());
}

/// Expects of a type that it has nothing.
fn expect_plain(rt: &impl Abort, plain: &SlaveType) {
    let is_empty = plain.outputs().is_empty() && plain.output_bits() == 0;
    let has_none = plain.mailbox().is_none() && plain.input_bits() == 0;
    expect(rt, is_empty && has_none && plain.lrw(), "a type");
}

#[test]
fn a_type_without_objects(rt: HostRuntime) {
    expect_plain(&rt, &SlaveType::without_pdos(rt.alloc()));
}

/// A list of so many numbers.
fn numbers(rt: &(impl AllocGlobal + Abort), count: u32) -> Listed<u32> {
    let mut list = Listed::new(rt.alloc());
    for number in 0..count {
        list.push(number).expect(rt, "memory");
    }
    list
}

/// Copies a list, and compares the lengths of both.
fn expect_lengths(rt: &(impl AllocGlobal + Abort), list: &Listed<u32>, count: usize) {
    let copied = Listed::copied(rt.alloc(), list.as_slice()).expect(rt, "memory");
    expect_same(rt, &(list.len(), copied.len()), &(count, count), "lists");
}

/// Makes a list of so many numbers and a copy of it.
fn expect_list(rt: &(impl AllocGlobal + Abort), count: u32) {
    expect_lengths(rt, &numbers(rt, count), count as usize);
}

// No length is reported as want of memory, nor is a copy of it.
#[test]
fn lists_of_each_length(rt: HostRuntime) {
    for count in 0..40 {
        expect_list(&rt, count);
    }
    expect_list(&rt, 100_000);
}

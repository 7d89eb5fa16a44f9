//! Records of registers, by the public calls of `ec_regs`.
use crate::rows::{expect, expect_same};
use ec_regs::registers::{
    AL_CONTROL, AL_STATUS, AL_STATUS_CODE, SII_ADDRESS, SII_CONTROL, SII_DATA, STATION_ADDRESS,
    fmmu_address, manager_address,
};
use ec_regs::{
    AlWord, CONTROL_OUTPUTS, FmmuSettings, SiiControl, SyncManagerSettings, decode_fmmu,
    decode_manager, encode_fmmu, encode_manager, is_stored, takes_writes,
};

// What `ecat plan` prints for the output manager of a slave with 12 output bits.
#[test]
fn output_manager(rt: HostRuntime) {
    let bytes = [0x00, 0x11, 0x02, 0x00, 0x24, 0x00, 0x01, 0x00];
    let settings = decode_manager(&bytes);
    let answers = [
        settings.is_set(),
        settings.is_buffered(),
        settings.is_master_written(),
    ];
    let outputs = SyncManagerSettings::of_area(0x1100, 2, CONTROL_OUTPUTS);
    expect(&rt, settings == outputs, "an output manager");
    expect_same(
        &rt,
        &(answers, settings.span(), encode_manager(&settings)),
        &([true; 3], 6, bytes),
        "an output manager",
    );
}

// What `ecat plan` prints for the output FMMU of the same slave.
#[test]
fn output_fmmu(rt: HostRuntime) {
    let bytes = [
        0x00, 0x00, 0x01, 0x00, 0x02, 0x00, 0x04, 0x07, 0x00, 0x11, 0x00, 0x02, 0x01, 0x00, 0x00,
        0x00,
    ];
    let settings = decode_fmmu(&bytes);
    let fields = FmmuSettings {
        logical_start: 0x0001_0000,
        length: 2,
        start_bit: 4,
        stop_bit: 7,
        physical_start: 0x1100,
        physical_bit: 0,
        reads: false,
        writes: true,
        active: true,
    };
    // of the byte of the stop bit three bits count
    let mut high = bytes;
    high[7] = 0xFF;
    let are_same = settings == fields
        && encode_fmmu(&settings) == bytes
        && decode_fmmu(&high) == fields;
    expect(&rt, are_same, "an output FMMU");
}

// Three buffers of one byte that don't fit at the last address, a mailbox of that byte and one of two, three buffers of 65535 bytes,
// and two bytes that the master reads.
#[test]
fn spans_at_the_end_of_the_ram(rt: HostRuntime) {
    let buffered = decode_manager(&[0xFF, 0x2F, 0x01, 0x00, 0x24, 0x00, 0x01, 0x00]);
    let mailbox = decode_manager(&[0xFF, 0x2F, 0x01, 0x00, 0x26, 0x00, 0x01, 0x00]);
    let longer = decode_manager(&[0xFF, 0x2F, 0x02, 0x00, 0x26, 0x00, 0x01, 0x00]);
    let longest = decode_manager(&[0x00, 0x10, 0xFF, 0xFF, 0x24, 0x00, 0x01, 0x00]);
    let input = decode_manager(&[0x00, 0x14, 0x02, 0x00, 0x20, 0x00, 0x01, 0x00]);
    let are_set = [
        buffered.is_set(),
        mailbox.is_set(),
        longer.is_set(),
        longest.is_set(),
        input.is_set(),
    ];
    let are_so = mailbox.is_mailbox() && input.is_master_read();
    expect_same(
        &rt,
        &(are_set, buffered.span(), are_so),
        &([false, true, false, false, true], 3, true),
        "spans",
    );
}

// The first and the last FMMU and sync manager.
#[test]
fn addresses_of_records(rt: HostRuntime) {
    let fmmus = [fmmu_address(0), fmmu_address(3)];
    let managers = [manager_address(0), manager_address(3)];
    expect_same(
        &rt,
        &(fmmus, managers),
        &([0x0600, 0x0630], [0x0800, 0x0818]),
        "addresses",
    );
}

/// Addresses, and whether the byte there is stored as it is written.
const STORED: [(usize, bool); 22] = [
    (STATION_ADDRESS - 1, false),
    (STATION_ADDRESS, true),
    (STATION_ADDRESS + 1, true),
    (STATION_ADDRESS + 2, false),
    (AL_CONTROL - 1, false),
    (AL_CONTROL, true),
    (AL_CONTROL + 1, true),
    (AL_CONTROL + 2, false),
    (AL_STATUS, false),
    (AL_STATUS_CODE, false),
    (SII_CONTROL, false),
    // the first FMMU and the last one
    (0x05FF, false),
    (0x0600, true),
    (0x063F, true),
    (0x0640, false),
    // of a manager all bytes but the two that are no settings; first what stands before the first one
    (0x07FF, false),
    (0x0818, true),
    (0x081C, true),
    (0x081D, false),
    (0x081E, true),
    (0x081F, false),
    (0x0820, false),
];

#[test]
fn bytes_that_are_stored(rt: HostRuntime) {
    for (address, stored) in &STORED {
        let seen = (*address, is_stored(*address));
        expect_same(&rt, &seen, &(*address, *stored), "a stored byte");
    }
}

/// Addresses about the port of the SII, whether it is busy, and whether a byte that is written there counts.
const WRITTEN: [(usize, bool, bool); 7] = [
    (SII_CONTROL - 1, false, false),
    (SII_CONTROL, false, true),
    (SII_CONTROL, true, false),
    (SII_ADDRESS + 3, false, true),
    (SII_DATA, false, false),
    (AL_CONTROL, true, true),
    (AL_STATUS, false, false),
];

#[test]
fn bytes_of_the_sii_port(rt: HostRuntime) {
    for (address, is_busy, counts) in &WRITTEN {
        let seen = (*address, takes_writes(*address, *is_busy));
        expect_same(&rt, &seen, &(*address, *counts), "a written byte");
    }
}

// The words that a slave in PREOP shows: after a refused request, and with an SII read under way.
#[test]
fn words(rt: HostRuntime) {
    let status = AlWord(0x0012);
    let control = SiiControl(0x8100);
    let flags = [
        status.has_error(),
        status.acknowledges(),
        control.is_busy(),
        control.has_error(),
    ];
    let words = [
        AlWord::new(8, true).0,
        SiiControl::new(1, false, true).0,
        SiiControl::new(0, true, false).0,
    ];
    let are_so = status.state() == 2 && control.command() == 1;
    expect_same(
        &rt,
        &(are_so, flags, words),
        &(true, [true, true, true, false], [0x0018, 0x8100, 0x2000]),
        "words",
    );
}

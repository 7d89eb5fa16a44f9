//! Messages that are no SDO request by an expedited transfer, and what a full slave answers to them; and bytes that a master reads.
use crate::compare::{bytes_of, expect, expect_same, expect_words, parts};
use ec_coe::{BadMailbox, ValueSize, is_aside, read_free_reply, read_message, read_reply, refuse};
use std::alloc::{AllocError, Global};
use std::process::Abort;

/// The counter of the reply, the bytes of a mailbox, those of the reply, and what a master finds in it that waits for a reply of object
/// 0x1008:2.
const REFUSALS: &str = "\
# Another protocol: EoE, none, and a type that the standard leaves free.
3 0a0000000012 0020 40181001 00000000 > 040000000030 0100 0200 > Unexpected
1 000000000000 0000 00000000 00000000 > 040000000010 0100 0200 > Unexpected
7  > 040000000070 0100 0200 > Unexpected
2 0e000000001b 0020 40181001 00000000 > 040000000020 0100 0200 > Unexpected
# SDO information: the list of the objects, the description of one.
2 080000000013 0080 01000000 0100 > 0a0000000023 0080 07000000 00000106 > Unexpected
7 080000000073 0080 03000000 1810 > 0a0000000073 0080 07000000 00000106 > Unexpected
# A longer SDO request: its length in the low byte, and in the high byte.
4 0e0000000013 0020 21081002 04000000 61626364 > 0a0000000043 0020 80081002 01000405 > Aborted(84148225)
1 000100000013 0020 21121c00 f6000000 00000000 > 0a0000000013 0020 80121c00 01000405 > Unexpected
# A shorter one, and one of whose ten bytes the mailbox has only nine.
5 060000000013 0020 40181001 > 040000000050 0100 0600 > Unexpected
6 0a0000000013 0020 40181001 000000 > 040000000060 0100 0600 > Unexpected
# Other services of CoE: an emergency, an SDO response, a number that the standard leaves free, and none.
6 0a0000000013 0010 00000000 00000000 > 040000000060 0100 0400 > Unexpected
1 0a0000000013 0030 60121c00 00000000 > 040000000010 0100 0400 > Unexpected
2 0e0000000013 00f0 40181001 00000000 > 040000000020 0100 0400 > Unexpected
3 000000000003 > 040000000030 0100 0400 > Unexpected";

/// What a reply says to a master that waits for one of an object, in words.
fn reply_words(
    alloc: Global,
    bytes: &[u8],
    (index, subindex): (u16, u8),
) -> Result<String, AllocError> {
    let reply = read_reply(bytes, index, subindex);
    format!(in alloc; "{reply:?}")
}

/// Compares what refuses bytes, and what a master finds in it.
fn expect_refusal(
    rt: &(impl AllocGlobal + Abort),
    raw: &[u8],
    counter: u8,
    back: &[u8],
    found: &str,
) {
    let refusal = refuse(raw, counter % 8);
    expect_same(rt, &refusal.as_slice(), &back, found);
    let words = reply_words(rt.alloc(), refusal.as_slice(), (0x1008, 2));
    expect_words(rt, words, found);
}

/// The same of a row.
fn expect_row(rt: &(impl AllocGlobal + Abort), row: &str) {
    let (asked, told) = parts(rt, row, " > ");
    let (counter, sent) = parts(rt, asked, " ");
    let (back, found) = parts(rt, told, " > ");
    expect_refusal(
        rt,
        &bytes_of(rt, sent),
        counter.parse::<u8>().expect(rt, counter),
        &bytes_of(rt, back),
        found,
    );
}

#[test]
fn refuses(rt: HostRuntime) {
    for row in REFUSALS.lines() {
        if !row.starts_with("#") {
            expect_row(&rt, row);
        }
    }
}

/// A message in fewer than 16 bytes, of another length, of another type; and a mailbox error, with zeros behind it.
const NO_MESSAGES: [&str; 6] = [
    "0a0000000013 0020 40181001 000000",
    "090000000013 0020 40181001 00000000",
    "0a0100000013 0020 40181001 00000000",
    "0a0000000014 0020 40181001 00000000",
    "",
    "040000000010 0100 0200 00000000 00000000 0000",
];

/// Bytes are no message.
fn expect_no_message(rt: &impl Abort, bytes: &[u8], row: &str) {
    let is_refused = read_message(bytes) == Err(BadMailbox);
    expect(rt, is_refused && BadMailbox.number() == 9, row);
}

#[test]
fn what_is_no_message(rt: HostRuntime) {
    for row in &NO_MESSAGES {
        expect_no_message(&rt, &bytes_of(&rt, row), row);
    }
}

/// A done whatever its data, a value of its size, an abort of either service; all else is unexpected.
const REPLIES: &str = "\
0a0000000013 0030 60121c00 01020304 > Downloaded
0a0000000013 0030 4f121c00 0102ffff > Uploaded(SdoValue { size: One, number: 1 })
0a0000000013 0030 43121c00 01020304 > Uploaded(SdoValue { size: Four, number: 67305985 })
0a0000000013 0020 80121c00 22000008 > Aborted(134217762)
0a0000000013 0030 80121c00 22000008 > Aborted(134217762)
0a0000000013 0020 60121c00 00000000 > Unexpected
0a0000000013 0040 80121c00 00000000 > Unexpected
0a0000000013 0030 60131c00 00000000 > Unexpected
0a0000000013 0030 60121c01 00000000 > Unexpected
0a0000000013 0030 40121c00 00000000 > Unexpected
0a0000000014 0030 60121c00 00000000 > Unexpected";

/// Compares what the reply of a row says.
fn expect_read(rt: &(impl AllocGlobal + Abort), row: &str) {
    let (bytes, wanted) = parts(rt, row, " > ");
    let words = reply_words(rt.alloc(), &bytes_of(rt, bytes), (0x1C12, 0));
    expect_words(rt, words, wanted);
}

#[test]
fn replies(rt: HostRuntime) {
    for row in REPLIES.lines() {
        expect_read(&rt, row);
    }
}

/// Whether it is set aside, and what it says to a master that takes any size and wants two bytes: a value without its size, whatever the
/// bits of the size are; one of another size; one by a normal transfer; an abort; an emergency; another protocol; a mailbox error.
const FREE_REPLIES: &str = "\
0a0000000013 0030 42121c00 01020304 > false Uploaded(SdoValue { size: Two, number: 513 })
0a0000000013 0030 4e121c00 01020304 > false Uploaded(SdoValue { size: Two, number: 513 })
0a0000000013 0030 43121c00 01000000 > false Uploaded(SdoValue { size: Four, number: 1 })
0a0000000013 0030 41121c00 01000000 > false Unexpected
0a0000000013 0020 80121c00 22000008 > false Aborted(134217762)
0a0000000013 0010 0050 00 0000000000 > true Unexpected
0a0000000012 0030 60121c00 00000000 > true Unexpected
040000000010 0100 0200 > true Unexpected";

/// What a message says, in words.
fn free_words(alloc: Global, bytes: &[u8]) -> Result<String, AllocError> {
    let reply = read_free_reply(bytes, 0x1C12, 0, ValueSize::Two);
    let is_aside = is_aside(bytes);
    format!(in alloc; "{is_aside} {reply:?}")
}

/// Compares what the message of a row says.
fn expect_free(rt: &(impl AllocGlobal + Abort), row: &str) {
    let (bytes, wanted) = parts(rt, row, " > ");
    expect_words(rt, free_words(rt.alloc(), &bytes_of(rt, bytes)), wanted);
}

#[test]
fn free_replies(rt: HostRuntime) {
    for row in FREE_REPLIES.lines() {
        expect_free(&rt, row);
    }
}

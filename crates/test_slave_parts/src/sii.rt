//! The SII, word by word and through its registers, by the public calls of `ec_sii`. What is asked and what must be seen are
//! lines of text, in hexadecimal digits, with blanks in between. A line with `#` is a comment.
use crate::kinds::{MAILBOX, kind_with};
use crate::rows::{bytes_of, expect, expect_same, parts, word_of};
use ec_device::{Entry, Face, Identity, MAX_NAME, SlaveType};
use ec_listed::Listed;
use ec_sii::{Image, Port};
use std::alloc::AllocError;
use std::process::Abort;

const IDENTITY: Identity = Identity {
    vendor: 0xABCD,
    product: 3,
    revision: 0x0102_0304,
    serial: 7,
};

/// Four outputs.
const OUTPUT: Entry = Entry {
    index: 0x7000,
    subindex: 1,
    bits: 4,
};

/// Twelve inputs.
const INPUT: Entry = Entry {
    index: 0x6000,
    subindex: 2,
    bits: 12,
};

const GAP: Entry = Entry {
    index: 0,
    subindex: 0,
    bits: 4,
};

/// A type gets this name, and is then that of the last slave of its ring.
fn show_named(rt: &impl Abort, kind: &mut SlaveType, name: Listed<u8>) {
    let is_short = name.as_slice().len() <= MAX_NAME;
    expect(rt, !name.as_slice().is_empty() && is_short, "a name");
    kind.show(Face {
        name,
        is_last: true,
    });
}

/// The image of a full slave of a type, whose name has three letters.
fn named_image(rt: &(impl AllocGlobal + Abort), mut kind: SlaveType) -> Result<Image, AllocError> {
    let name = Listed::copied(rt.alloc(), b"do4").expect(rt, "memory");
    show_named(rt, &mut kind, name);
    Image::of(rt.alloc(), &kind, IDENTITY)
}

/// The image of a full slave that takes no part in LRW, with 4 bits of outputs and 16 bits of inputs, the last 4 of them a gap.
fn full_image(rt: &(impl AllocGlobal + Abort)) -> Result<Image, AllocError> {
    let (outputs, inputs) = ([OUTPUT], [INPUT, GAP]);
    let kind = kind_with(
        rt,
        &[(0x1600, &outputs)],
        &[(0x1A00, &inputs)],
        0x1180,
        false,
    );
    named_image(rt, kind)
}

/// That of a full slave that has nothing but its name.
fn bare_image(rt: &(impl AllocGlobal + Abort)) -> Result<Image, AllocError> {
    named_image(rt, SlaveType::without_pdos(rt.alloc()))
}

/// That of a slave without a name that has nothing.
fn plain_image(rt: &impl AllocGlobal) -> Result<Image, AllocError> {
    Image::of(rt.alloc(), &SlaveType::without_pdos(rt.alloc()), IDENTITY)
}

/// Compares the words of an image from an address on.
fn expect_words(rt: &impl Abort, image: &Image, line: &str, from: u16, words: &str) {
    for (place, digits) in words.split(' ').enumerate() {
        let address = place.saturating_add(usize::from(from));
        let seen = (address, image.word(address));
        expect_same(rt, &seen, &(address, word_of(rt, digits)), line);
    }
}

/// Compares the words that a line says: an address, and behind `>` the words from there on.
fn expect_line(rt: &impl Abort, image: &Image, line: &str) {
    if !line.starts_with("#") {
        let (from, words) = parts(rt, line, " > ");
        expect_words(rt, image, line, word_of(rt, from), words);
    }
}

/// Compares the words of an image, as it is made.
fn expect_image(rt: &impl Abort, image: Result<Image, AllocError>, lines: &str) {
    let image = image.expect(rt, "memory");
    for line in lines.lines() {
        expect_line(rt, &image, line);
    }
}

/// Identity and mailboxes, and nothing else.
const IDENTITY_AND_MAILBOX: &str = "\
07 > 0000 abcd 0000 0003
0c > 0304 0102 0007
18 > 1000 0080 1080 0080 0004 0000
40 > 0000";

#[test]
fn an_image_spells_identity_and_mailbox(rt: HostRuntime) {
    let with_mailbox = Image::new(IDENTITY, Some(MAILBOX));
    let without = Image::new(IDENTITY, None);
    expect_image(&rt, Ok(with_mailbox), IDENTITY_AND_MAILBOX);
    expect_image(&rt, Ok(without), "1c > 0000");
}

/// What stands in the image of a full slave, worked out from the tables of the categories.
const FULL_WORDS: &str = "\
08 > abcd
1c > 0004 0000
3d > 0000
# 3 kibibits hold 64 words, 69 of the categories and the end mark; version 1
3e > 0002 0001
# one string of 3 letters, do4
40 > 000a 0003 0301 6f64 0034
# the first 18 bytes, no LRW, and 14 zeros
45 > 001e 0010 0000 0101 0500 0000 0000 0200 0000 0000 0011
50 > 0000 0000 0000 0000 0000 0000 0000
# FMMU 0 for outputs, 1 for inputs
57 > 0028 0002 0201 0000
# the mailbox that the master writes, and that which it reads
5b > 0029 0010 1000 0080 0026 0101
61 > 1080 0080 0022 0201
# 4 bits of outputs, and 16 bits of inputs
65 > 1100 0001 0024 0301
69 > 1180 0002 0020 0401
# two entries, manager 3: twelve inputs, and a gap of four bits
6d > 0032 000c 1a00 0302 0000 0000
73 > 6000 0002 0c00 0000 0000 0000 0400 0000
# one entry, manager 2: four outputs
7b > 0033 0008 1600 0201 0000 0000
81 > 7000 0001 0400 0000
# the end mark, and more of it
85 > ffff ffff";

#[test]
fn a_full_image_shows_categories(rt: HostRuntime) {
    expect_image(&rt, full_image(&rt), FULL_WORDS);
}

/// What a full slave shows that has nothing but its name: no PDOs, and so neither category of them; managers without
/// lengths, which aren't enabled.
const BARE_WORDS: &str = "\
3e > 0001
# do4
40 > 000a 0003 0301 6f64 0034
# no CoE, with LRW
45 > 001e 0010 0000 0101 0000 0000 0000 0000 0000 0000 0011
50 > 0000 0000 0000 0000 0000 0000 0000
# no FMMU is used
57 > 0028 0002 0000 0000
# no mailboxes, and managers 2 and 3
5b > 0029 0010 0000 0000 0000 0000 0000 0000 0000 0000 0000 0000 0024 0300
6b > 0020 0400 ffff
7f > ffff";

#[test]
fn a_bare_full_image_has_four_categories(rt: HostRuntime) {
    expect_image(&rt, bare_image(&rt), BARE_WORDS);
}

/// The ten bytes of the port, from 0x0502 on.
fn bytes_seen(port: &Port) -> [u8; 10] {
    let mut bytes = [0; 10];
    for (place, byte) in bytes.iter_mut().enumerate() {
        *byte = port.read(0x0502 + place);
    }
    bytes
}

/// Compares the bytes of the port with a row. It is busy exactly where its status says so.
fn assert_seen(rt: &impl Abort, port: &Port, line: &str, row: &str, wanted: &[u8]) {
    let seen = (port.is_busy(), bytes_seen(port).as_slice() == wanted);
    expect_same(rt, &seen, &(row.starts_with("0081"), true), line);
}

/// Writes bytes from an address on.
fn write_row(rt: &(impl AllocGlobal + Abort), port: &mut Port, about: &str) {
    let (from, row) = parts(rt, about, " ");
    port.write(usize::from(word_of(rt, from)), &bytes_of(rt, row));
}

/// Asks for the words at an address, and lets the firmware step.
fn read_row(rt: &(impl AllocGlobal + Abort), port: &mut Port, about: &str) {
    port.write(0x0502, &bytes_of(rt, about));
    port.step();
}

/// Takes a step: `writes` bytes from an address on, `reads` the words at an address, `steps` is one of the firmware.
fn take_step(rt: &(impl AllocGlobal + Abort), port: &mut Port, word: &str, about: &str) {
    match word {
        "writes" => write_row(rt, port, about),
        "reads" => read_row(rt, port, about),
        "steps" => port.step(),
        "resets" => port.reset(),
        _ => expect(rt, false, word),
    }
}

/// Takes the step of a line, and compares the bytes of the port with those behind `>`.
fn expect_step(rt: &(impl AllocGlobal + Abort), port: &mut Port, line: &str) {
    let (done, row) = parts(rt, line, "> ");
    let (word, about) = parts(rt, done, " ");
    take_step(rt, port, word, about);
    assert_seen(rt, port, line, row, &bytes_of(rt, row));
}

/// Takes the steps of lines on the port of an image.
fn expect_steps(rt: &(impl AllocGlobal + Abort), image: Image, lines: &str) {
    let mut port = Port::new(image);
    for line in lines.lines() {
        expect_step(rt, &mut port, line);
    }
}

/// The same of an image as it is made.
fn expect_port(rt: &(impl AllocGlobal + Abort), image: Result<Image, AllocError>, lines: &str) {
    expect_steps(rt, image.expect(rt, "memory"), lines);
}

/// A read is finished by the next step. While it is under way the port takes no write.
const A_READ: &str = "\
writes 0502 0001 08000000 > 0081 08000000 00000000
writes 0502 0000 09000000 > 0081 08000000 00000000
steps > 0000 08000000 cdab0000
resets > 0000 00000000 00000000";

/// A read past the image is an error. The command 0 clears the error, its bits 3 to 7 aside, and a write of 0x0502 alone does
/// nothing.
const PAST_THE_IMAGE: &str = "\
reads 0001 0c000000 > 0000 0c000000 04030201
reads 0001 3f000000 > 0020 3f000000 04030201
writes 0502 ff > 0020 3f000000 04030201
writes 0503 f8 > 0000 3f000000 04030201
writes 0503 02 > 0020 3f000000 04030201";

#[test]
fn reads_of_an_identity(rt: HostRuntime) {
    expect_steps(&rt, Image::new(IDENTITY, None), A_READ);
    expect_steps(&rt, Image::new(IDENTITY, None), PAST_THE_IMAGE);
}

/// A full image is read to its end: the flags of the last entry and the end mark (0x84); behind it; the last two words (0xbe);
/// past them.
const TO_ITS_END: &str = "\
reads 0001 3e000000 > 0000 3e000000 02000100
reads 0001 42000000 > 0000 42000000 0103646f
reads 0001 84000000 > 0000 84000000 0000ffff
reads 0001 86000000 > 0000 86000000 ffffffff
reads 0001 08000000 > 0000 08000000 cdab0000
reads 0001 be000000 > 0000 be000000 ffffffff
reads 0001 0a000000 > 0000 0a000000 03000000
reads 0001 bf000000 > 0020 bf000000 03000000
resets > 0000 00000000 00000000
reads 0001 41000000 > 0000 41000000 03000103";

#[test]
fn a_full_image_is_read_to_its_end(rt: HostRuntime) {
    expect_port(&rt, full_image(&rt), TO_ITS_END);
}

/// A type without a face has a plain image.
const PLAIN: &str = "\
reads 0001 3e000000 > 0000 3e000000 00000000
reads 0001 40000000 > 0020 40000000 00000000";

#[test]
fn a_type_without_a_face_has_a_plain_image(rt: HostRuntime) {
    expect_port(&rt, plain_image(&rt), PLAIN);
}

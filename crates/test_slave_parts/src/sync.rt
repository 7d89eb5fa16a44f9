//! What the ring and a slave's own side see of a sync manager, by the public calls of `ec_sync`. What is done to a manager, and
//! what must be seen of it, are lines of text: a word, what it is about, and behind `>` what is seen. Each case begins with a new
//! manager, and between cases stand empty lines.
//!
//! | Line | Says |
//! |---|---|
//! | `configures START LENGTH CONTROL ACTIVATE` | it gets settings |
//! | `locks BYTE` | its deactivate bit is set, or cleared where the byte is 00 |
//! | `awaits BYTE` | its firmware awaits a value, or none where the byte is 00 |
//! | `writes ADDRESS ROW > 01` | the ring writes bytes from an address on; 00 where it may not, as in all that follows |
//! | `ends FIRST LAST > 01` | it writes 0 at two bytes, and none between |
//! | `reads ADDRESS LENGTH > 01`, `touches ADDRESS ROW > 01` | it reads so many bytes, or as many as the row has |
//! | `gets PLACE > BYTE`, `puts PLACE BYTE > 01` | the application reads a byte, or none; writes one |
//! | `gets_all > 01`, `puts_all ROW > 01` | it does so with all bytes at once |
//! | `sends ROW > 01`, `takes > 01` | the firmware puts a message, takes one |
//! | `published > ROW`, `shown > ROW`, `message > ROW` | what is published, what the ring sees, the message |
//! | `register PLACE > BYTE`, `shown_byte ADDRESS > BYTE` | a byte of its registers, a byte that the ring sees |
//! | `is_set > 01`, `is_enabled > 01`, `is_awaited > 01`, `governs ADDRESS > 01` | whether it is set, is enabled, is awaited, governs a byte |
//! | `first > ADDRESS`, `value_end > ADDRESS`, `span_end > ADDRESS` | where it lies |
//! | `# WORDS` | nothing |
ghost use Rattle.std.specs.Prelude.{◌==◌, ◌||◌, ◌+◌, ◌-◌, length, slice_range};
ghost use Rattle.ec_bits.specs.Bits.{within, zeros};

use crate::rows::{byte_of, bytes_of, expect, expect_same, halves, parts, word_of};
use ec_regs::SyncManagerSettings;
use ec_sync::{Manager, Reach, Touching, Writing};
use std::alloc::AllocError;
use std::process::Abort;

/// Writes bytes from an address on.
#[derive(Clone, Copy)]
struct Range<'a> {
    from: usize,
    bytes: &'a [u8],
}

impl Touching for Range<'_> {
    ghost touched = { λ r a. within r.from (length r.bytes.now) a };

    fn touches(&self, address: usize) -> bool {
        address >= self.from && address - self.from < self.bytes.len()
    }
}

impl Writing for Range<'_> {
    ghost use Rattle.ec_sync.specs.Touching.{all_touched};

    ghost written = { λ r start len. slice_range r.bytes.now (start - r.from) (start - r.from + len) };

    ghost zero_untouched = { λ r start len k first last inside untouched.
        absurd (all_touched r.from (length r.bytes.now) start len k first last inside untouched) };

    fn fill(&self, start: usize, value: &mut [u8]) {
        let place = start - self.from;
        value.copy_from_slice(&self.bytes[place..place + value.len()]);
    }
}

/// Writes 0 at two bytes, and none between.
#[derive(Drop)]
struct Ends {
    first: usize,
    last: usize,
}

impl Touching for Ends {
    ghost touched = { λ e a. (a == e.first) || (a == e.last) };

    fn touches(&self, address: usize) -> bool {
        address == self.first || address == self.last
    }
}

impl Writing for Ends {
    ghost use Rattle.std.proofs.lemmas.List.{get_or-replicate};

    ghost written = { λ e start len. zeros len };

    ghost zero_untouched = { λ e start len k first last inside untouched. get_or-replicate len k 0 0 inside };

    fn fill(&self, _start: usize, value: &mut [u8]) {
        value.fill(0);
    }
}

/// A physical address, or a place.
fn place_of(rt: &impl Abort, digits: &str) -> usize {
    usize::from(word_of(rt, digits))
}

/// Settings, each field as a number.
fn settings_of(rt: &impl Abort, about: &str) -> SyncManagerSettings {
    let (start, about) = parts(rt, about, " ");
    let (length, about) = parts(rt, about, " ");
    let (control, activate) = parts(rt, about, " ");
    SyncManagerSettings {
        start: word_of(rt, start),
        length: word_of(rt, length),
        control: byte_of(rt, control),
        activate: byte_of(rt, activate),
    }
}

/// Two numbers.
fn places_of(rt: &impl Abort, about: &str) -> (usize, usize) {
    let (first, second) = parts(rt, about, " ");
    (place_of(rt, first), place_of(rt, second))
}

/// The ring writes bytes from an address on.
fn are_written(manager: &mut Manager, from: usize, bytes: &[u8]) -> bool {
    manager.ring_write(&Range { from, bytes })
}

/// The same of a row.
fn is_row_written(rt: &(impl AllocGlobal + Abort), manager: &mut Manager, about: &str) -> bool {
    let (from, row) = parts(rt, about, " ");
    are_written(manager, place_of(rt, from), &bytes_of(rt, row))
}

/// The ring reads as many bytes as there are.
fn are_touched(manager: &mut Manager, from: usize, bytes: &[u8]) -> bool {
    manager.ring_read(&Range { from, bytes })
}

/// The same of a row.
fn is_row_touched(rt: &(impl AllocGlobal + Abort), manager: &mut Manager, about: &str) -> bool {
    let (from, row) = parts(rt, about, " ");
    are_touched(manager, place_of(rt, from), &bytes_of(rt, row))
}

/// The ring writes 0 at two bytes.
fn are_ends_written(rt: &impl Abort, manager: &mut Manager, about: &str) -> bool {
    let (first, last) = places_of(rt, about);
    manager.ring_write(&Ends { first, last })
}

/// The ring reads bytes.
fn is_read(rt: &impl Abort, manager: &mut Manager, about: &str) -> bool {
    let (from, len) = places_of(rt, about);
    manager.ring_read(&Reach { from, len })
}

/// The application puts a byte.
fn is_put(rt: &impl Abort, manager: &mut Manager, about: &str) -> bool {
    let (place, byte) = parts(rt, about, " ");
    manager.app_put(place_of(rt, place), byte_of(rt, byte))
}

/// The application puts all bytes at once, if it may.
fn are_all_put(manager: &mut Manager, bytes: &[u8]) -> bool {
    if manager.may_app_put() && manager.published().len() == bytes.len() {
        manager.app_put_all(bytes);
        return true;
    }
    false
}

/// The application gets all bytes at once, if it may.
fn are_all_got(manager: &mut Manager) -> bool {
    if manager.may_app_get() {
        manager.app_get_all();
        return true;
    }
    false
}

/// What only asks, or is granted or not.
fn is_granted(
    rt: &(impl AllocGlobal + Abort),
    manager: &mut Manager,
    word: &str,
    about: &str,
) -> bool {
    match word {
        "writes" => is_row_written(rt, manager, about),
        "touches" => is_row_touched(rt, manager, about),
        "ends" => are_ends_written(rt, manager, about),
        "reads" => is_read(rt, manager, about),
        "puts" => is_put(rt, manager, about),
        "puts_all" => are_all_put(manager, &bytes_of(rt, about)),
        "gets_all" => are_all_got(manager),
        "sends" => manager.mailbox_put(&bytes_of(rt, about)),
        "takes" => manager.mailbox_take(),
        "is_set" => manager.is_set(),
        "is_enabled" => manager.is_enabled(),
        "is_awaited" => manager.is_awaited(),
        "governs" => manager.governs(place_of(rt, about)),
        _ => {
            expect(rt, false, word);
            false
        }
    }
}

/// A byte that is seen, or none.
fn byte_seen(
    rt: &(impl AllocGlobal + Abort),
    manager: &mut Manager,
    word: &str,
    about: &str,
) -> Option<u8> {
    match word {
        "gets" => manager.app_get(place_of(rt, about)),
        "register" => Some(manager.register(place_of(rt, about) % 8)),
        "shown_byte" => Some(manager.visible_byte(place_of(rt, about))),
        _ => Some(u8::from(is_granted(rt, manager, word, about))),
    }
}

/// An address as it stands in a row.
fn address_bytes(rt: &impl Abort, address: usize) -> [u8; 2] {
    u16::try_from(address)
        .expect(rt, "an address")
        .to_be_bytes()
}

/// A line, and the first line of its case: both are printed if something isn't as it must be.
type Place<'a> = (&'a str, &'a str);

/// Compares bytes.
fn assert_bytes(rt: &impl Abort, at: Place<'_>, met: &[u8], wanted: &[u8]) {
    expect_same(rt, &(at.1, met), &(at.1, wanted), at.0);
}

/// Compares bytes with a row.
fn assert_row(rt: &(impl AllocGlobal + Abort), at: Place<'_>, met: &[u8], row: &str) {
    assert_bytes(rt, at, met, &bytes_of(rt, row));
}

/// Compares an address with a row.
fn assert_address(rt: &(impl AllocGlobal + Abort), at: Place<'_>, address: usize, row: &str) {
    assert_row(rt, at, &address_bytes(rt, address), row);
}

/// Takes the step of a line, and compares what is seen.
fn expect_seen(
    rt: &(impl AllocGlobal + Abort),
    manager: &mut Manager,
    at: Place<'_>,
    (word, about): (&str, &str),
    row: &str,
) {
    match word {
        "#" => {}
        "configures" => manager.configure(settings_of(rt, about)),
        "locks" => manager.set_locked(byte_of(rt, about) != 0),
        "awaits" => manager.await_value(byte_of(rt, about) != 0),
        "published" => assert_row(rt, at, manager.published(), row),
        "shown" => assert_row(rt, at, manager.visible(), row),
        "message" => assert_row(rt, at, manager.message().unwrap_or(b"none"), row),
        "first" => assert_address(rt, at, manager.bounds().first, row),
        "value_end" => assert_address(rt, at, manager.bounds().value_end, row),
        "span_end" => assert_address(rt, at, manager.bounds().span_end, row),
        _ => assert_row(rt, at, byte_seen(rt, manager, word, about).as_slice(), row),
    }
}

/// Takes a line apart, and its step.
fn take_line(rt: &(impl AllocGlobal + Abort), manager: &mut Manager, at: Place<'_>) {
    let (done, row) = halves(at.0, " >");
    expect_seen(rt, manager, at, halves(done, " "), row);
}

/// Takes the steps of a case.
fn take_case(rt: &(impl AllocGlobal + Abort), manager: &mut Manager, case: &str) {
    let (name, _) = halves(case, "\n");
    for line in case.lines() {
        take_line(rt, manager, (line, name));
    }
}

/// Takes the steps of a case on a manager as it is made, which goes away here.
fn expect_case(rt: &(impl AllocGlobal + Abort), manager: Result<Manager, AllocError>, case: &str) {
    let mut manager = manager.expect(rt, "memory");
    take_case(rt, &mut manager, case);
}

/// Two buffered bytes at 0x1100 that the ring writes have the control byte 24, those that it reads 20; a mailbox 26 and 22. The
/// last byte of the RAM stands at 0x2fff.
const CASES: &str = "\
# outputs row by row
configures 1100 0002 24 01
writes 1100 2312 > 01
published > 2312
# the last byte is not touched
writes 1100 99 > 00
published > 2312
# reaches the second buffer
writes 1100 aabbcc > 01
published > aabb
# the ring writes it
reads 1100 0002 > 00
configures 1100 0002 24 01
published > 0000

# a view is of one value
configures 1100 0002 24 01
writes 1100 0102 > 01
# no view is open
gets 1 >
gets 0 > 01
writes 1100 0304 > 01
gets 1 > 02
# the last byte closes the view
gets 1 >
gets 0 > 03
# the ring writes it
puts 0 05 > 00

# a half written draft is not shown
configures 1100 0002 20 01
# no draft is open
puts 1 06 > 00
puts 0 05 > 01
published > 0000
shown_byte 1100 > 00
puts 1 06 > 01
touches 1100 0000 > 01
shown_byte 1100 > 05
shown_byte 1101 > 06
# past its length
puts 2 07 > 00

# hostile settings: three buffers do not fit
configures 2fff 0001 24 01
is_set > 00
configures 1100 ffff 24 01
is_set > 00
governs 1100 > 00

# a mailbox of one byte
configures 2fff 0001 26 01
writes 2fff 08 > 01
register 5 > 08
# full
writes 2fff 08 > 00
message > 08
takes > 01
# empty
takes > 00
configures 2fff 0001 22 01
# empty
reads 2fff 0001 > 00
# too long
sends 0102 > 00
sends 01 > 01
# full
sends 02 > 00
locks 01
# locked
reads 2fff 0001 > 00
locks 00
reads 2fff 0001 > 01
register 5 > 00

# untouched bytes are 0
configures 1100 0004 24 01
writes 1100 01020304 > 01
ends 1100 1103 > 01
published > 00000000

# All bytes at once are as one after the other: a half written draft and an open view are closed.
configures 1100 0002 20 01
puts 0 05 > 01
puts_all 0708 > 01
published > 0708
# the draft is closed
puts 1 06 > 00
configures 1100 0002 24 01
gets 0 > 00
gets_all > 01
# the view is closed
gets 1 >

# New settings empty a manager, also where they are what they were, and where it wasn't set before.
configures 1000 0010 22 01
sends 010203 > 01
register 5 > 08
configures 1000 0010 22 01
register 5 > 00
sends 04 > 01
configures 1000 0010 22 00
register 5 > 00
shown >

# The deactivate bit is kept, and read back, also where the manager isn't set.
locks 01
register 7 > 01
configures 1100 0002 24 01
register 7 > 01
is_enabled > 00

# A value is awaited until the ring writes one. New settings leave that.
configures 1100 0001 24 01
awaits 01
is_awaited > 01
writes 1100 00 > 01
gets 0 > 00
gets 1 >
is_awaited > 00
awaits 01
configures 1100 0001 24 01
is_awaited > 01
awaits 00
is_awaited > 00

# bounds of a span with its three buffers, of a mailbox, and of a manager that isn't set
configures 1100 0002 24 01
first > 1100
value_end > 1102
span_end > 1106
governs 1100 > 01
governs 1106 > 00
configures 2fff 0001 22 01
first > 2fff
value_end > 3000
span_end > 3000
governs 2fff > 01
governs 3000 > 00
configures 2fff 0001 20 01
first > 2fff
value_end > 3000
span_end > 0000
governs 2fff > 00
governs 0000 > 00";

#[test]
fn managers(rt: HostRuntime) {
    for case in CASES.split("\n\n") {
        expect_case(&rt, Manager::new(rt.alloc()), case);
    }
}

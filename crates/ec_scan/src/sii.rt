//! What slaves show by their SII (ETG.1000.6, "Slave information interface area").
ghost use Rattle.std.specs.Prelude.{◌≡◌, ◌<◌, ◌≤◌, [], length, IfOk, IfSome, Some, true};
ghost use Rattle.ec_scan.specs.Showing.{AreShown, AreWhole, HasNoCategories, Leads, is_ended, most_words, words_in};

use crate::error::ScanError;
use crate::line::{Line, MAX_POLLS};
use crate::shown::ShownMailbox;
use byteorder::{ByteOrder, LittleEndian};
use ec_device::{Device, Identity, Mailbox};
use ec_listed::Listed;
use ec_regs::SiiControl;
use ec_start::{Action, StartError};
use ec_wire::{Pace, Wire};
use std::alloc::Global;

/// The SII words of an action `AskWord` by its number, which begins at word 0x08: vendor, product, revision and serial number.
const VENDOR: usize = 0;

const PRODUCT: usize = 1;

const REVISION: usize = 2;

const SERIAL: usize = 3;
/// Offset and size of the mailbox that a master writes, at 0x18; of the one that it reads; and the protocols.
const RECEIVE: usize = 8;

const SEND: usize = 9;

const PROTOCOLS: usize = 10;
/// The size, in kibibits less 1, and the version, at 0x3E.
const SIZE: usize = 27;
/// The categories begin at 0x40.
const CATEGORIES: usize = 28;

/// The size of an SII that ends before the categories: it has 64 words.
const ONE_KIBIBIT: u16 = 0;

/// The most words of categories that are read: those of 64 kibibits.
const MAX_WORDS: usize = 4096;

/// The type behind the last category.
const END: u16 = 0xFFFF;

/// Two words of the SII, the low one first.
pub(crate) type Words = (u16, u16);

/// The 32 bits of two words.
fn long(words: Words) -> u32 {
    u32::from(words.0) | u32::from(words.1) << 16
}

/// The two words that an answer to `AwaitWord` has, which isn't busy; none if the read ended with an error.
pub(crate) fn words_in(answer: &[u8]) -> Option<Words>
    requires { length answer.now ≡ 10 }
    ensures { result ≡ words_in answer.now }
{
    let control = SiiControl(LittleEndian::read_u16(&answer[0..2]));
    if control.has_error() {
        return None;
    }
    Some((
        LittleEndian::read_u16(&answer[6..8]),
        LittleEndian::read_u16(&answer[8..10]),
    ))
}

/// Whether an answer to `AwaitWord` says that the read is under way.
fn is_busy(answer: &[u8]) -> bool
    requires { length answer.now ≡ 10 }
{
    let control = SiiControl(LittleEndian::read_u16(&answer[0..2]));
    !control.has_error() && control.is_busy()
}

/// Reads two words; none if the read ends with an error. It is tried once more then, behind a clearing of the error: an EEPROM that is
/// busy doesn't acknowledge a read, and usual masters try again.
fn read_words<W: Wire + Drop, P: Pace + Drop>(
    line: &mut Line<W, P>,
    slave: usize,
    which: usize,
) -> Result<Option<Words>, StartError>
    requires slave { slave < 64 }
    requires place { which < 0x8000 }
    ensures { IfOk result (λ words. AreShown slave which words line.new) }
{
    if let Some(words) = read_once(line, slave, which)? {
        return Ok(Some(words));
    }
    line.ask(&Action::ClearSiiError)?;
    read_once(line, slave, which)
}

/// Reads two words; none if the read ends with an error.
fn read_once<W: Wire + Drop, P: Pace + Drop>(
    line: &mut Line<W, P>,
    slave: usize,
    which: usize,
) -> Result<Option<Words>, StartError>
    requires slave { slave < 64 }
    requires place { which < 0x8000 }
    ensures { IfOk result (λ words. AreShown slave which words line.new) }
{
    line.ask_counted(&Action::AskWord { slave, which }, 1)?;
    for _ in 0..MAX_POLLS {
        line.ask_counted(&Action::AwaitWord { slave, which }, 1)?;
        if !is_busy(line.answer()) {
            return Ok(words_in(line.answer()));
        }
    }
    Err(line.too_slow())
}

/// Reads two words that each SII has.
fn read_there<W: Wire + Drop, P: Pace + Drop>(
    line: &mut Line<W, P>,
    slave: usize,
    which: usize,
) -> Result<Words, StartError>
    requires slave { slave < 64 }
    requires place { which < 0x8000 }
    ensures { IfOk result (λ words. AreShown slave which (Some words) line.new) }
{
    match read_words(line, slave, which)? {
        Some(words) => Ok(words),
        None => Err(unread(slave)),
    }
}

/// The error of an SII that can't be read.
fn unread(slave: usize) -> StartError {
    let seen = Device {
        vendor: 0,
        product: 0,
        revision: 0,
    };
    StartError::Identity { slave, seen }
}

/// Reads the identity of a slave.
pub(crate) fn read_identity<W: Wire + Drop, P: Pace + Drop>(
    line: &mut Line<W, P>,
    slave: usize,
) -> Result<Identity, StartError>
    requires { slave < 64 }
{
    Ok(Identity {
        vendor: long(read_there(line, slave, VENDOR)?),
        product: long(read_there(line, slave, PRODUCT)?),
        revision: long(read_there(line, slave, REVISION)?),
        serial: long(read_there(line, slave, SERIAL)?),
    })
}

/// Reads where the mailboxes of a slave are, and their protocols.
pub(crate) fn read_mailbox<W: Wire + Drop, P: Pace + Drop>(
    line: &mut Line<W, P>,
    slave: usize,
) -> Result<ShownMailbox, StartError>
    requires { slave < 64 }
{
    let (receive_start, receive_size) = read_there(line, slave, RECEIVE)?;
    let (send_start, send_size) = read_there(line, slave, SEND)?;
    let (protocols, _) = read_there(line, slave, PROTOCOLS)?;
    Ok(ShownMailbox {
        place: Mailbox {
            receive_start,
            receive_size,
            send_start,
            send_size,
        },
        protocols,
    })
}

/// Reads the words of the categories in order, up to the end mark, which is the last or the one before it; none of an SII of 64 words.
///
/// # Errors
///
/// `Identity` if a word can't be read, or the first 4096 have no end mark: categories that are cut aren't taken.
pub(crate) fn read_categories<W: Wire + Drop, P: Pace + Drop>(
    alloc: Global,
    line: &mut Line<W, P>,
    slave: usize,
) -> Result<Listed<u16>, ScanError>
    requires { slave < 64 }
    ensures few { IfOk result (λ words. length words ≤ most_words) }
    ensures whole { IfOk result (λ words. AreWhole slave words line.new) }
{
    let mut words = Listed::new(alloc);
    let mut header = 0;
    for place in 0..MAX_WORDS / 2 {
        match read_words(line, slave, CATEGORIES + place)? {
            Some((low, high)) => {
                words.push(low)?;
                words.push(high)?;
            }
            None if place == 0 => return no_categories(alloc, line, slave),
            None => return Err(ScanError::Start(unread(slave))),
        }
        header = header_behind(words.as_slice(), header);
        if is_end(words.as_slice(), header) {
            return Ok(words);
        }
    }
    Err(ScanError::Start(unread(slave)))
}

/// The words of the categories if the first of them can't be read: none, if the SII says that it ends before them.
fn no_categories<W: Wire + Drop, P: Pace + Drop>(
    alloc: Global,
    line: &mut Line<W, P>,
    slave: usize,
) -> Result<Listed<u16>, ScanError>
    requires { slave < 64 }
    ensures { IfOk result (λ words. (words ≡ []) × HasNoCategories slave line.new) }
{
    let (size, _) = read_there(line, slave, SIZE)?;
    if size == ONE_KIBIBIT {
        Ok(Listed::new(alloc))
    } else {
        Err(ScanError::Start(unread(slave)))
    }
}

/// Where the first category begins whose type isn't followed by its length yet, from a place where one begins.
#[tactic(auto, using(crate::proofs::WalkLemmas::stays, crate::proofs::WalkLemmas::goes_on))]
fn header_behind(words: &[u16], header: usize) -> usize
    requires { length words.now ≤ most_words }
    ensures { Leads words.now header result }
{
    let mut place = header;
    // each category has two words at least, and two came
    for _ in 0..2 {
        match next_header(words, place) {
            Some(next) => place = next,
            None => return place,
        }
    }
    place
}

/// Where the category behind one begins; none if the words don't have its type and its length, or it is the end mark.
#[tactic(auto, using(crate::proofs::WalkLemmas::passes))]
fn next_header(words: &[u16], header: usize) -> Option<usize>
    requires { length words.now ≤ most_words }
    ensures { IfSome result (Leads words.now header) }
{
    if header >= words.len() || words.len() - header < 2 || words[header] == END {
        return None;
    }
    Some(header + 2 + usize::from(words[header + 1]))
}

/// Whether the end mark stands where a category would begin.
#[tactic(auto, using(crate::proofs::WalkLemmas::at_mark))]
fn is_end(words: &[u16], header: usize) -> bool
    ensures { result ≡ true → is_ended header words.now ≡ true }
{
    header < words.len() && words[header] == END
}

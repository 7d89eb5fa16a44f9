//! What stands in the categories of an SII (ETG.1000.6, "Slave information interface area"): any words are read, whatever they are.
ghost use Rattle.std.specs.Prelude.{◌≡◌, ◌<◌, ◌≤◌, ◌/◌, ◌%◌, ◌∷◌, [], drop, false, length, take, unwrap_or, IfNone, IfOk, IfSome};
ghost use Rattle.std.specs.Option.{option_copied};
ghost use Rattle.ec_sii.specs.Reading.{category_found, pdos_read};
ghost use Rattle.ec_found.specs.Founds.{byte_in, entries_of, has_second, has_stray, managers_in, pdos_in, plain_entries, plain_entry, used_from};

use ec_device::{Entry, Pdo};
use ec_listed::Listed;
use std::alloc::{AllocError, Global};

/// The types of the categories.
pub(crate) const STRINGS: u16 = 10;

pub(crate) const GENERAL: u16 = 30;

pub(crate) const MANAGERS: u16 = 41;

pub(crate) const INPUT_PDOS: u16 = 50;

pub(crate) const OUTPUT_PDOS: u16 = 51;

/// The type behind the last category.
const END: u16 = 0xFFFF;

/// The words of a sync manager, of the head of a PDO, and of an entry.
const RECORD: usize = 4;

/// The most sync managers of a controller.
const MAX_MANAGERS: usize = 16;

/// A sync manager that a direction of the process data has.
#[derive(Clone, Copy, Debug, PartialEq, Eq)]
pub(crate) struct UsedManager {
    /// Its number.
    pub number: u8,
    /// Where its bytes begin.
    pub start: u16,
    /// How many bytes it has as delivered; 0 says nothing.
    pub long: u16,
    /// Its control byte.
    pub control: u8,
}

/// The words of the first category of a type before the end mark; none if there is no such category.
#[tactic(auto, using(crate::proofs::FirstWords::category_none, crate::proofs::FirstWords::category_end))]
pub(crate) fn category_in(words: &[u16], wanted: u16) -> Option<&[u16]>
    ensures { option_copied result ≡ category_found wanted words.now }
{
    let mut rest = words;
    // each category has two words at least
    for _ in 0..words.len() {
        if rest.len() < 2 {
            return None;
        }
        if rest[0] == END {
            return None;
        }
        let body = behind(rest, 2);
        let size = usize::from(rest[1]).min(body.len());
        if rest[0] == wanted {
            return Some(front(body, size));
        }
        let next = behind(body, size);
        rest = next;
    }
    None
}

/// The words of a category, none if it isn't there.
pub(crate) fn words_in(words: &[u16], wanted: u16) -> &[u16]
    ensures { result.now ≡ unwrap_or (category_found wanted words.now) [] }
{
    category_in(words, wanted).unwrap_or(&[])
}

/// A byte of words, of each the low one first; 0 behind them.
#[tactic(auto, using(crate::proofs::WordBytes::low_byte, crate::proofs::WordBytes::high_byte, crate::proofs::WordBytes::no_byte))]
pub(crate) fn byte_in(words: &[u16], place: usize) -> u8
    ensures { result ≡ byte_in words.now place }
{
    if place / 2 >= words.len() {
        return 0;
    }
    let word = words[place / 2];
    if place % 2 == 0 {
        low(word)
    } else {
        high(word)
    }
}

/// The first sync manager with a use, of those that words have.
#[tactic(auto, using(crate::proofs::FirstWords::manager_none, crate::proofs::FirstWords::manager_here))]
pub(crate) fn manager_for(words: &[u16], usage: u8) -> Option<UsedManager>
    ensures { result ≡ used_from usage 0 (managers_in words.now) }
{
    let mut rest = words;
    for number in 0..MAX_MANAGERS {
        if rest.len() < RECORD {
            return None;
        }
        if high(rest[3]) == usage {
            return Some(UsedManager {
                number: number as u8,
                start: rest[0],
                long: rest[1],
                control: low(rest[2]),
            });
        }
        let next = behind(rest, RECORD);
        rest = next;
    }
    None
}

/// Whether one more sync manager with a use, behind the first, has a length.
#[tactic(auto, using(crate::proofs::FirstWords::second_none, crate::proofs::FirstWords::second_next))]
pub(crate) fn has_second(words: &[u16], usage: u8) -> bool
    ensures { result ≡ has_second false usage (managers_in words.now) }
{
    let mut rest = words;
    let mut is_behind = false;
    for _ in 0..words.len() {
        if rest.len() < RECORD {
            return false;
        }
        let is_used = high(rest[3]) == usage;
        if is_behind && is_used && rest[1] != 0 {
            return true;
        }
        is_behind = is_behind || is_used;
        let next = behind(rest, RECORD);
        rest = next;
    }
    false
}

/// The PDOs in the words of a category, in order: all, or those that a sync manager moves as delivered. An entry without bits is left
/// out, and a gap has no subindex.
#[tactic(auto, using(crate::proofs::FirstWords::pdos_first, crate::proofs::FirstWords::pdos_other, crate::proofs::FirstWords::pdos_end))]
pub(crate) fn pdos_in(
    alloc: Global,
    all: bool,
    manager: u8,
    words: &[u16],
) -> Result<Listed<Pdo>, AllocError>
    ensures { IfOk result (λ ps. ps ≡ pdos_in all manager words.now) }
{
    let mut found = Listed::new(alloc);
    let mut rest = words;
    // each PDO has four words at least
    for _ in 0..words.len() {
        let Some(pdo) = PdoWords::first(rest) else {
            return Ok(found);
        };
        if all || pdo.manager == manager {
            let entries = entries_in(alloc, pdo.entries)?;
            found.push(Pdo {
                index: pdo.index,
                entries,
            })?;
        }
        rest = pdo.behind;
    }
    Ok(found)
}

/// Whether another sync manager than this moves a PDO in the words of a category as delivered.
#[tactic(auto, using(crate::proofs::FirstWords::stray_first, crate::proofs::FirstWords::stray_end))]
pub(crate) fn has_stray(words: &[u16], manager: u8) -> bool
    ensures { result ≡ has_stray manager words.now }
{
    let mut rest = words;
    for _ in 0..words.len() {
        let Some(pdo) = PdoWords::first(rest) else {
            return false;
        };
        if usize::from(pdo.manager) < MAX_MANAGERS && pdo.manager != manager {
            return true;
        }
        rest = pdo.behind;
    }
    false
}

/// The words of a PDO.
#[derive(Clone, Copy, Drop)]
pub(crate) struct PdoWords<'a> {
    pub index: u16,
    /// The number of its sync manager as delivered; 0xFF if it has none.
    pub manager: u8,
    /// The number of the string that names it.
    pub name: u8,
    /// The words of its entries, four each.
    pub entries: &'a [u16],
    /// The words behind it.
    pub behind: &'a [u16],
}

impl<'a> PdoWords<'a> {
    /// The PDO whose words come first; none if there aren't four. If words of its entries are missing, no PDO is behind it.
    #[tactic(auto, using(crate::proofs::FirstWords::pdo_first, crate::proofs::EntryWords::no_pdos))]
    pub(crate) fn first(words: &'a [u16]) -> Option<PdoWords<'a>>
        ensures some { IfSome result (λ p. pdos_read words.entry.now ≡ record { manager = p.manager; pdo = record { index = p.index; entries = entries_of p.entries.now } } ∷ pdos_read p.behind.now) }
        ensures shorter { IfSome result (λ p. length p.behind.now < length words.entry.now) }
        ensures none { IfNone result (pdos_read words.entry.now ≡ []) }
    {
        if words.len() < RECORD {
            return None;
        }
        let rest = behind(words, RECORD);
        // words may be missing
        let size = (RECORD * usize::from(low(words[1]))).min(rest.len());
        Some(PdoWords {
            index: words[0],
            manager: high(words[1]),
            name: high(words[2]),
            entries: front(rest, size),
            behind: behind(rest, size),
        })
    }
}

/// The words of an entry.
#[derive(Clone, Copy, Drop)]
struct EntryWords<'a> {
    index: u16,
    subindex: u8,
    bits: u8,
    /// The number of the string that names it.
    name: u8,
    /// The words behind it.
    behind: &'a [u16],
}

impl<'a> EntryWords<'a> {
    /// The entry whose words come first; none if there aren't four.
    #[tactic(auto, using(crate::proofs::FirstWords::entries_none, crate::proofs::FirstWords::entries_here))]
    fn first(words: &'a [u16]) -> Option<EntryWords<'a>>
        ensures some { IfSome result (λ e. entries_of words.entry.now ≡ record { index = e.index; subindex = e.subindex; bits = e.bits } ∷ entries_of e.behind.now) }
        ensures shorter { IfSome result (λ e. length e.behind.now < length words.entry.now) }
        ensures none { IfNone result (entries_of words.entry.now ≡ []) }
    {
        if words.len() < RECORD {
            return None;
        }
        Some(EntryWords {
            index: words[0],
            subindex: low(words[1]),
            bits: high(words[2]),
            name: high(words[1]),
            behind: behind(words, RECORD),
        })
    }
}

/// The number of the string that names an entry, of words of entries; 0 if there is no such entry.
pub(crate) fn entry_name(words: &[u16], index: u16, subindex: u8) -> u8 {
    let mut rest = words;
    for _ in 0..words.len() {
        let Some(entry) = EntryWords::first(rest) else {
            return 0;
        };
        if entry.index == index && entry.subindex == subindex {
            return entry.name;
        }
        rest = entry.behind;
    }
    0
}

/// The entries that words state, four each. One without bits is left out, and a gap has no subindex.
#[tactic(auto, using(crate::proofs::FirstWords::plain_first, crate::proofs::FirstWords::plain_other))]
fn entries_in(alloc: Global, words: &[u16]) -> Result<Listed<Entry>, AllocError>
    ensures { IfOk result (λ es. es ≡ plain_entries (entries_of words.now)) }
{
    let mut found = Listed::new(alloc);
    let mut rest = words;
    for _ in 0..words.len() {
        let Some(entry) = EntryWords::first(rest) else {
            return Ok(found);
        };
        if entry.bits > 0 {
            found.push(plain_entry(&entry))?;
        }
        rest = entry.behind;
    }
    Ok(found)
}

/// An entry as a table has it: a gap has no subindex.
fn plain_entry(entry: &EntryWords<'_>) -> Entry
    ensures { result ≡ plain_entry (record { index = entry.now.index; subindex = entry.now.subindex; bits = entry.now.bits }) }
{
    Entry {
        index: entry.index,
        subindex: if entry.index == 0 { 0 } else { entry.subindex },
        bits: entry.bits,
    }
}

/// The first words.
fn front(words: &[u16], count: usize) -> &[u16]
    requires { count ≤ length words.now }
    ensures { result.now ≡ take count words.now }
{
    &words[..count]
}

/// The words behind the first.
#[tactic(auto, using(std::proofs::lemmas::List::take_rest))]
fn behind(words: &[u16], count: usize) -> &[u16]
    requires { count ≤ length words.now }
    ensures { result.now ≡ drop count words.now }
{
    &words[count..]
}

/// The low byte of a word.
pub(crate) fn low(word: u16) -> u8
    ensures { result ≡ word % 256 }
{
    (word & 0xFF) as u8
}

/// The high byte of a word.
pub(crate) fn high(word: u16) -> u8
    ensures { result ≡ word / 256 }
{
    (word >> 8) as u8
}

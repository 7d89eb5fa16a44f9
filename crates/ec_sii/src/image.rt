//! The words of a slave's SII.
ghost use Rattle.std.specs.Prelude.{◌≡◌, ◌<◌, ◌^◌, Some, None, IfOk};
ghost use Rattle.std.specs.Option.{option_map};
ghost use Rattle.ec_sii.specs.Categories.{categories_of};
ghost use Rattle.ec_sii.specs.SiiImage.{word_at, other_word, identity_words, mailbox_words, low_word, high_word, kibibits, size_of, image_of};

use crate::categories::categories_of;
use ec_device::{Identity, Mailbox, SlaveType};
use ec_listed::Listed;
use std::alloc::{AllocError, Global};

/// A short name of a slave's SII.
pub type Image = SiiImage;

/// The words of a slave's SII (ETG.1000.6, "Slave information interface area").
#[derive(Debug, Drop)]
pub struct SiiImage {
    /// The identity of the slave.
    pub identity: Identity,
    /// The places of its mailboxes, if it has any.
    pub mailbox: Option<Mailbox>,
    /// The words of the categories of a full slave, one category after another.
    pub categories: Option<Listed<u16>>,
}

impl SiiImage {
    /// The image of a slave that isn't full.
    pub fn new(identity: Identity, mailbox: Option<Mailbox>) -> Self
        ensures { result ≡ record { identity = identity; mailbox = mailbox; categories = None } }
    {
        SiiImage {
            identity,
            mailbox,
            categories: None,
        }
    }

    /// The image of a slave of a type, which is full if the type has a face. The error says that memory was
    /// refused; the image of a slave that isn't full takes none.
    pub fn of(alloc: Global, kind: &SlaveType, identity: Identity) -> Result<SiiImage, AllocError>
        ensures { IfOk result (λ image. image ≡ image_of kind.now identity) }
    {
        let categories = shown_categories(alloc, kind)?;
        Ok(SiiImage {
            identity,
            mailbox: kind.mailbox(),
            categories,
        })
    }

    /// The size of the image in kibibits, of 64 words each: 1, or as many as the categories of a full slave need.
    pub(crate) fn size(&self) -> usize
        ensures value { result ≡ size_of self.now.categories }
        ensures limit { result < 2 ^ 57 }
    {
        match &self.categories {
            Some(categories) => kibibits(categories.as_slice()),
            None => 1,
        }
    }

    /// The word at a word address: 0x08 vendor, 0x0A product, 0x0C revision and 0x0E serial number, two words each
    /// and the low one first; 0x18 offset and 0x19 size of the receive mailbox, 0x1A and 0x1B those of the send
    /// mailbox, 0x1C the mailbox protocols (bit 2: CoE). A full slave has at 0x3E the size in kibibits less 1, at 0x3F the
    /// version, 1, and at 0x40 and above the categories, with 0xFFFF behind them. All others are 0.
    #[tactic(auto, unfolding(crate::specs::SiiImage::word_at))]
    pub fn word(&self, address: usize) -> u16
        ensures { result ≡ word_at self.now address }
    {
        match address {
            0x08..=0x0F => identity_words(self.identity)[address - 0x08],
            0x18..=0x1C => mailbox_words(self.mailbox)[address - 0x18],
            _ => self.other_word(address),
        }
    }

    /// The word at a word address, outside those of the identity and the mailboxes.
    fn other_word(&self, address: usize) -> u16
        ensures { result ≡ other_word self.now.categories address }
    {
        match &self.categories {
            Some(categories) => category_word(categories.as_slice(), address),
            None => 0,
        }
    }
}

/// The word address of the size of a full slave's image, in kibibits less 1.
const SIZE: usize = 0x3E;
/// The word address of the version of its image.
const VERSION: usize = 0x3F;
/// The word address of its categories.
const CATEGORIES: usize = 0x40;
/// The end mark behind them.
const END_MARK: u16 = 0xFFFF;

/// The fewest kibibits, of 64 words each, that hold the first 64 words, these categories, the end mark and one
/// word more, since a read at the end mark shows two.
fn kibibits(categories: &[u16]) -> usize
    ensures value { result ≡ kibibits categories.now }
    ensures limit { result < 2 ^ 57 }
{
    (CATEGORIES + categories.len() + 2).div_ceil(64)
}

/// A word of a full slave, with these categories, outside those of the identity and the mailboxes.
fn category_word(categories: &[u16], address: usize) -> u16
    ensures { result ≡ other_word (Some categories.now) address }
{
    match address {
        SIZE => ((kibibits(categories) - 1) % 65536) as u16,
        VERSION => 1,
        CATEGORIES.. => categories
            .get(address - CATEGORIES)
            .copied()
            .unwrap_or(END_MARK),
        _ => 0,
    }
}

/// The categories of a slave of a type, if it is a full one.
fn shown_categories(alloc: Global, kind: &SlaveType) -> Result<Option<Listed<u16>>, AllocError>
    ensures { IfOk result (λ words. words ≡ option_map (λ f. categories_of kind.now f.name) kind.now.face) }
{
    let Some(face) = kind.face() else {
        return Ok(None);
    };
    let words = categories_of(alloc, kind, face.name.as_slice())?;
    Ok(Some(words))
}

fn low_word(number: u32) -> u16
    ensures { result ≡ low_word number }
{
    (number & 0xFFFF) as u16
}

fn high_word(number: u32) -> u16
    ensures { result ≡ high_word number }
{
    (number >> 16) as u16
}

fn identity_words(identity: Identity) -> [u16; 8]
    ensures { result ≡ identity_words identity }
{
    [
        low_word(identity.vendor),
        high_word(identity.vendor),
        low_word(identity.product),
        high_word(identity.product),
        low_word(identity.revision),
        high_word(identity.revision),
        low_word(identity.serial),
        high_word(identity.serial),
    ]
}

/// The mailbox protocols of a slave with a mailbox: bit 2, CoE.
const COE: u16 = 1 << 2;

fn mailbox_words(mailbox: Option<Mailbox>) -> [u16; 5]
    ensures { result ≡ mailbox_words mailbox }
{
    match mailbox {
        Some(m) => [
            m.receive_start,
            m.receive_size,
            m.send_start,
            m.send_size,
            COE,
        ],
        None => [0; 5],
    }
}

//! Why a table has no plan.
ghost use Rattle.std.specs.Prelude.{◌≡◌};
ghost use Rattle.ec_link.specs.Faults.{fault_number, fault_name, fault_value};

use ec_table::{OrMemory, Refusing};
use std::fmt;
use thiserror::Error;

/// What keeps a table from having a plan, with the place of the link, the slave or the variable in its section,
/// counted from 0 in file order, or with how many slaves or parts there are.
#[derive(Clone, Copy, PartialEq, Eq, Error)]
pub enum LinkFault {
    /// The slave has the link's entry in the other direction only.
    WrongDirection(usize),
    /// The slave has no such entry.
    NoEntry(usize),
    /// The link has bits past the entry or past the variable.
    OutsideEntry(usize),
    /// The link gives a bit that an earlier link gives.
    LinkedTwice(usize),
    /// The slave assigns an entry twice in one direction.
    EntryTwice(usize),
    /// The slave has over 2048 bits in a direction.
    TooManyBits(usize),
    /// Over 64 slaves.
    TooManySlaves(usize),
    /// Over 32 parts.
    TooManyParts(usize),
    /// Two spans of the slave's managers share a byte.
    AreasOverlap(usize),
    /// A span of the slave's managers leaves the RAM.
    OutsideRam(usize),
    /// An input variable has links from two sync units.
    SplitVariable(usize),
}

impl LinkFault {
    /// The number of the refusal: 16 to 25, or 44.
    pub fn number(self) -> u8
        ensures { result ≡ fault_number self }
    {
        match self {
            LinkFault::WrongDirection(_) => 16,
            LinkFault::NoEntry(_) => 17,
            LinkFault::OutsideEntry(_) => 18,
            LinkFault::LinkedTwice(_) => 19,
            LinkFault::EntryTwice(_) => 20,
            LinkFault::TooManyBits(_) => 21,
            LinkFault::TooManySlaves(_) => 22,
            LinkFault::TooManyParts(_) => 23,
            LinkFault::AreasOverlap(_) => 24,
            LinkFault::OutsideRam(_) => 25,
            LinkFault::SplitVariable(_) => 44,
        }
    }

    /// The name of the refusal, one word.
    pub fn name(self) -> &'static str
        ensures { result.now ≡ fault_name self }
    {
        match self {
            LinkFault::WrongDirection(_) => "WrongDirection",
            LinkFault::NoEntry(_) => "NoEntry",
            LinkFault::OutsideEntry(_) => "OutsideEntry",
            LinkFault::LinkedTwice(_) => "LinkedTwice",
            LinkFault::EntryTwice(_) => "EntryTwice",
            LinkFault::TooManyBits(_) => "TooManyBits",
            LinkFault::TooManySlaves(_) => "TooManySlaves",
            LinkFault::TooManyParts(_) => "TooManyParts",
            LinkFault::AreasOverlap(_) => "AreasOverlap",
            LinkFault::OutsideRam(_) => "OutsideRam",
            LinkFault::SplitVariable(_) => "SplitVariable",
        }
    }

    /// The place of the fault, or how many slaves or parts there are.
    pub fn value(self) -> usize
        ensures { result ≡ fault_value self }
    {
        match self {
            LinkFault::WrongDirection(index)
            | LinkFault::NoEntry(index)
            | LinkFault::OutsideEntry(index)
            | LinkFault::LinkedTwice(index)
            | LinkFault::EntryTwice(index)
            | LinkFault::TooManyBits(index)
            | LinkFault::AreasOverlap(index)
            | LinkFault::OutsideRam(index)
            | LinkFault::SplitVariable(index) => index,
            LinkFault::TooManySlaves(count) | LinkFault::TooManyParts(count) => count,
        }
    }

    /// What its text says before the value and behind it.
    fn words(self) -> (&'static str, &'static str) {
        match self {
            LinkFault::WrongDirection(_) => {
                (
                    "link ",
                    ": the slave assigns the entry in the other direction",
                )
            }
            LinkFault::NoEntry(_) => ("link ", ": the slave assigns no such entry"),
            LinkFault::OutsideEntry(_) => ("link ", ": bits past the entry or the variable"),
            LinkFault::LinkedTwice(_) => ("link ", ": a bit is linked twice"),
            LinkFault::EntryTwice(_) => ("slave ", ": an entry is assigned twice"),
            LinkFault::TooManyBits(_) => ("slave ", ": over 2048 bits in a direction"),
            LinkFault::TooManySlaves(_) => ("", " slaves, and 64 are the most"),
            LinkFault::TooManyParts(_) => ("", " parts, and 32 are the most"),
            LinkFault::AreasOverlap(_) => ("slave ", ": two areas overlap"),
            LinkFault::OutsideRam(_) => ("slave ", ": an area leaves the RAM"),
            LinkFault::SplitVariable(_) => ("variable ", ": links from two sync units"),
        }
    }
}

// One text in two parts: a derived one has a `write!` in each arm, and the prover's work grows with them, here and in each crate
// that prints a fault.
impl fmt::Display for LinkFault {
    fn fmt<W: fmt::Write>(&self, f: &mut fmt::Formatter<W>) -> fmt::Result {
        let (before, behind) = self.words();
        write!(f, "{before}{}{behind}", self.value())
    }
}

// By its name and its value: a derived one has a call in each arm, and the prover's work grows with them.
impl fmt::Debug for LinkFault {
    fn fmt<W: fmt::Write>(&self, f: &mut fmt::Formatter<W>) -> fmt::Result {
        f.debug_tuple(self.name()).field(&self.value()).finish()
    }
}

/// Why there is no plan: memory ran out, or the first fault of the table.
pub type LinkError = OrMemory<LinkFault>;

impl Refusing for LinkFault {
    ghost number_of = { fault_number };

    ghost name_of = { fault_name };

    fn refusal_number(self) -> u8 {
        self.number()
    }

    fn refusal_name(self) -> &'static str {
        self.name()
    }
}

impl From<LinkFault> for OrMemory<LinkFault> {
    ghost use Rattle.ec_table.specs.declared.or_memory.OrMemory.TheVariants.{Refused};

    ghost from_gives = { λ f e. e ≡ Refused f };

    fn from(fault: LinkFault) -> OrMemory<LinkFault> {
        Self::Refused(fault)
    }
}

//! Working counters as they are kept and reported: two bytes each, as in a frame.
ghost use Rattle.std.specs.Prelude.{◌≡◌};
ghost use Rattle.ec_link.specs.declared.plan.ExpectedCounters.TheVariants.{Lrw, Split};

use ec_link::ExpectedCounters;
use std::marker::Model;

/// The working counters of a part's process datagrams.
#[derive(Drop)]
pub struct Counters {
    is_split: bool,
    first: u16,
    second: u16,
}

impl Model for Counters {
    ghost use Rattle.std.specs.Prelude.{if◌then◌else◌};
    ghost use Rattle.ec_link.specs.declared.plan.ExpectedCounters.{ExpectedCounters};
    ghost use Rattle.ec_link.specs.declared.plan.ExpectedCounters.TheVariants.{Lrw, Split};

    ghost Value = { ExpectedCounters };

    ghost view = { λ c. if c.is_split then Split c.first c.second else Lrw c.first };
}

impl Counters {
    /// The counter of an LRW.
    pub fn lrw(counter: u16) -> Counters
        ensures { result ≡ Lrw counter }
    {
        Counters {
            is_split: false,
            first: counter,
            second: 0,
        }
    }

    /// The counters of an LWR and of an LRD.
    pub fn split(write: u16, read: u16) -> Counters
        ensures { result ≡ Split write read }
    {
        Counters {
            is_split: true,
            first: write,
            second: read,
        }
    }

    /// A copy of these counters.
    pub fn copied(&self) -> Counters
        ensures { result ≡ self.now }
    {
        Counters {
            is_split: self.is_split,
            first: self.first,
            second: self.second,
        }
    }

    /// These counters as a plan predicts them.
    pub fn as_predicted(&self) -> ExpectedCounters
        ensures { result ≡ self.now }
    {
        let first = usize::from(self.first);
        if self.is_split {
            let read = usize::from(self.second);
            ExpectedCounters::Split { write: first, read }
        } else {
            ExpectedCounters::Lrw(first)
        }
    }
}

//! Which bits an FMMU maps.
ghost use Rattle.std.specs.Prelude.{ℕ, true, ◌≡◌, ◌<◌, ◌≤◌, ◌+◌, ◌*◌, ◌^◌, IfSome, OnSome};
ghost use Rattle.std.specs.Bool.{OnTrue};
ghost use Rattle.ec_bits.specs.Bits.{within as within_of};
ghost use Rattle.ec_regs.specs.Memory.{ram_start, ram_end};
ghost use Rattle.ec_fmmu.specs.Alone.{run_mapped, run_unmapped};
ghost use Rattle.ec_fmmu.specs.Pairs.{first_logical as first_logical_of, first_physical as first_physical_of, bit_count as bit_count_of, mapped, unmapped, reaches, reaches_physical, is_ram_bit as is_ram_bit_of};

use crate::run::Run;
use ec_regs::FmmuSettings;
use ec_regs::registers::{RAM_END, RAM_START};
use std::marker::Model;

/// Whether `from ≤ place < from + count`.
pub(crate) fn within(from: u64, count: u64, place: u64) -> bool
    ensures { result ≡ within_of from count place }
{
    from <= place && place - from < count
}

/// One FMMU (fieldbus memory management unit): a set of pairs of a logical and a physical bit.
#[derive(Clone, Copy, Debug, PartialEq, Eq)]
pub struct Fmmu {
    registers: FmmuSettings,
}

impl Model for Fmmu {
    ghost use Rattle.ec_regs.specs.declared.fmmu.FmmuSettings.{FmmuSettings as Settings};

    ghost Value = { Settings };

    ghost view = { λ f. f.registers };

    ghost inverse = { λ s. record { registers = s } };
}

impl Fmmu {
    /// The FMMU with these settings. Its range begins at bit `start_bit` of the logical byte
    /// `logical_start` and ends with bit `stop_bit` of the byte `logical_start + length - 1`; an
    /// empty or backward range maps nothing, and neither does an FMMU that isn't activated.
    pub fn new(settings: FmmuSettings) -> Self
        ensures { result ≡ settings }
    {
        Fmmu {
            registers: settings,
        }
    }

    /// The settings that it was made of.
    pub fn settings(&self) -> FmmuSettings
        ensures { result ≡ self.now }
    {
        self.registers
    }

    /// Whether logical reads go through it.
    pub fn reads(&self) -> bool
        ensures { result ≡ self.now.reads }
    {
        self.settings().reads
    }

    /// Whether logical writes go through it.
    pub fn writes(&self) -> bool
        ensures { result ≡ self.now.writes }
    {
        self.settings().writes
    }

    pub(crate) fn first_logical(&self) -> u64
        ensures value { result ≡ first_logical_of self.now }
        ensures small { result < 2 ^ 40 }
    {
        let settings = self.settings();
        8 * u64::from(settings.logical_start) + u64::from(settings.start_bit)
    }

    pub(crate) fn first_physical(&self) -> u64
        ensures value { result ≡ first_physical_of self.now }
        ensures small { result < 2 ^ 20 }
    {
        let settings = self.settings();
        8 * u64::from(settings.physical_start) + u64::from(settings.physical_bit)
    }

    pub(crate) fn bit_count(&self) -> u64
        ensures value { result ≡ bit_count_of self.now }
        ensures small { result < 2 ^ 40 }
    {
        let settings = self.settings();
        if !settings.active {
            return 0;
        }
        let behind = u64::from(settings.logical_start) + u64::from(settings.length);
        let end = (8 * behind + u64::from(settings.stop_bit)).saturating_sub(7);
        end.saturating_sub(self.first_logical())
    }

    /// Whether no logical bit lies in the ranges of both.
    pub(crate) fn is_apart_from(&self, other: &Fmmu) -> bool
        ensures { OnTrue result ((l : ℕ) → reaches self.now l ≡ true → reaches other.now l ≡ true → ⊥) }
    {
        let first = self.first_logical();
        let other_first = other.first_logical();
        first + self.bit_count() <= other_first || other_first + other.bit_count() <= first
    }

    /// Whether no physical bit lies in the ranges of both.
    pub(crate) fn is_physically_apart_from(&self, other: &Fmmu) -> bool
        ensures { OnTrue result ((q : ℕ) → reaches_physical self.now q ≡ true → reaches_physical other.now q ≡ true → ⊥) }
    {
        let first = self.first_physical();
        let other_first = other.first_physical();
        first + self.bit_count() <= other_first || other_first + other.bit_count() <= first
    }

    /// Its pairs, as one run.
    #[tactic(auto, unfolding(crate::specs::Pairs::mapped, crate::specs::Pairs::unmapped))]
    pub(crate) fn run(&self) -> Run
        ensures value { (l : ℕ) → mapped self.now l ≡ run_mapped result.logical result.physical result.count l }
        ensures back { (q : ℕ) → unmapped self.now q ≡ run_unmapped result.logical result.physical result.count q }
        ensures inside { (8 * ram_start ≤ result.physical) × (result.physical + result.count ≤ 8 * ram_end) }
        ensures small { result.logical + result.count < 2 ^ 42 }
    {
        let low = 8 * RAM_START as u64;
        let high = 8 * RAM_END as u64;
        let physical = self.first_physical();
        let count = self.bit_count();
        let first = physical.max(low);
        let end = (physical + count).min(high);
        if end <= first {
            return Run {
                logical: 0,
                physical: low,
                count: 0,
            };
        }
        Run {
            logical: self.first_logical() + (first - physical),
            physical: first,
            count: end - first,
        }
    }

    /// The physical bit of the pair that a logical bit is in, if it is in one.
    #[tactic(auto, unfolding(crate::specs::Pairs::mapped))]
    pub fn map(&self, logical: u64) -> Option<u32>
        ensures inside { IfSome result (λ q. q < 8 * ram_end) }
        ensures value { result ≡ mapped self.now logical }
    {
        let first = self.first_logical();
        if !within(first, self.bit_count(), logical) {
            return None;
        }
        let physical = self.first_physical() + (logical - first);
        if is_ram_bit(physical) {
            Some(physical as u32)
        } else {
            None
        }
    }

    /// The logical bit of the pair that a physical bit is in, if it is in one.
    #[tactic(auto, unfolding(crate::specs::Pairs::unmapped))]
    pub fn inverse(&self, physical: u32) -> Option<u64>
        ensures inside { OnSome result (physical < 8 * ram_end) }
        ensures value { result ≡ unmapped self.now physical }
    {
        let place = u64::from(physical);
        let first = self.first_physical();
        if within(first, self.bit_count(), place) && is_ram_bit(place) {
            Some(self.first_logical() + (place - first))
        } else {
            None
        }
    }
}

/// Whether a physical bit lies in the RAM.
fn is_ram_bit(physical: u64) -> bool
    ensures { result ≡ is_ram_bit_of physical }
{
    let address = physical / 8;
    RAM_START as u64 <= address && address < RAM_END as u64
}

//! The FMMUs of a slave together, with what is found once for all datagrams.

ghost use Rattle.std.specs.Prelude.{◌≡◌, ◌+◌, ◌<◌, ◌≤◌, ◌^◌, ℕ, None, IfSome, true, false, get_or, length};
ghost use Rattle.std.specs.Bool.{OnTrue};
ghost use Rattle.ec_regs.specs.Fmmus.{no_fmmu};
ghost use Rattle.ec_fmmu.specs.Apart.{AreApart};
ghost use Rattle.ec_fmmu.specs.Areas.{IsMappedBy};
ghost use Rattle.ec_fmmu.specs.Applied.{data_bit_for};
ghost use Rattle.ec_fmmu.specs.Pairs.{reaches};
ghost use Rattle.ec_fmmu.specs.Sets.{target, readers};
ghost use Rattle.ec_fmmu.specs.Stretches.{Has, IsAround};
ghost use Rattle.ec_fmmu.specs.Modes.{IsReadMode, IsWriteMode};

use crate::area::{MappedArea, area_of};
use crate::crossing::are_apart;
use crate::mapping::Fmmu;
use crate::modes::{Mode, end_of_open, read_modes, write_modes};
use std::marker::Model;

/// The logical bits from one number to before another.
#[derive(Clone, Copy)]
struct LogicalRange {
    first: u64,
    end: u64,
}

/// The four FMMUs of a slave. What every datagram needs is found once: where their ranges lie
/// in the logical space, by which pairs datagrams go through each of them, whether any bit that is
/// read may be written as well, and which area they map if they are set as usual.
#[derive(Drop)]
pub struct FmmuTable {
    fmmus: [Fmmu; 4],
    stretch: LogicalRange,
    is_apart: bool,
    reading: [Mode; 4],
    writing: [Mode; 4],
    // the places behind the last ones that are open
    read_end: usize,
    write_end: usize,
    area: Option<MappedArea>,
}

impl Model for FmmuTable {
    ghost use Rattle.std.specs.Prelude.{◌≡◌, ◌≤◌, List, IfSome, length};
    ghost use Rattle.std.specs.Bool.{OnTrue};
    ghost use Rattle.ec_regs.specs.declared.fmmu.FmmuSettings.{FmmuSettings};
    ghost use Rattle.ec_fmmu.specs.Apart.{AreApart};
    ghost use Rattle.ec_fmmu.specs.Areas.{IsMappedBy};
    ghost use Rattle.ec_fmmu.specs.Stretches.{IsAround};
    ghost use Rattle.ec_fmmu.specs.Modes.{AreClosedFrom, AreReadModes, AreWriteModes};

    ghost Value = { List FmmuSettings };

    ghost view = { λ t. t.fmmus };

    ghost invariant = { λ t. (length t.fmmus ≡ 4) × (IsAround t.stretch t.fmmus) × OnTrue t.is_apart (AreApart t.fmmus)
        × AreReadModes t.fmmus t.reading × AreWriteModes t.fmmus t.writing
        × (t.read_end ≤ 4) × AreClosedFrom t.read_end t.reading
        × (t.write_end ≤ 4) × AreClosedFrom t.write_end t.writing
        × IfSome t.area (λ a. IsMappedBy t.fmmus a) };
}

impl FmmuTable {
    /// The table of the four FMMUs of a slave, the lowest first. It finds here what every datagram needs.
    pub fn new(fmmus: [Fmmu; 4]) -> FmmuTable
        ensures { result ≡ fmmus }
    {
        let reading = read_modes(&fmmus);
        let writing = write_modes(&fmmus);
        FmmuTable {
            stretch: around(&fmmus),
            is_apart: are_apart(&fmmus),
            read_end: end_of_open(&reading),
            write_end: end_of_open(&writing),
            area: area_of(&fmmus),
            reading,
            writing,
            fmmus,
        }
    }

    /// The FMMUs, the lowest first.
    pub fn as_slice(&self) -> &[Fmmu]
        ensures { result.now ≡ self.now }
    {
        &self.fmmus
    }

    /// The place behind the last FMMU that reads.
    pub(crate) fn read_end(&self) -> usize
        ensures inside { result ≤ 4 }
        ensures behind { (k : ℕ) → result ≤ k → (get_or self.now k no_fmmu).reads ≡ false }
    {
        self.read_end
    }

    /// The place behind the last FMMU that writes.
    pub(crate) fn write_end(&self) -> usize
        ensures inside { result ≤ 4 }
        ensures behind { (k : ℕ) → result ≤ k → (get_or self.now k no_fmmu).writes ≡ false }
    {
        self.write_end
    }

    /// How reads go through the FMMU at an index.
    pub(crate) fn read_mode(&self, index: usize) -> Mode
        requires { index < 4 }
        ensures mode { IsReadMode self.now index result }
        ensures there { index < length self.now }
    {
        self.reading[index]
    }

    /// How writes go through the FMMU at an index.
    pub(crate) fn write_mode(&self, index: usize) -> Mode
        requires { index < 4 }
        ensures mode { IsWriteMode self.now index result }
        ensures there { index < length self.now }
    {
        self.writing[index]
    }

    /// The area that they map, if they are set as usual: at most the first writes, and at most the
    /// second reads, and each begins with bit 0 of a byte of the RAM. None says nothing.
    pub fn area(&self) -> Option<MappedArea>
        ensures { IfSome result (λ a. IsMappedBy self.now a) }
    {
        self.area
    }

    /// Whether no physical bit is in the range of an FMMU that reads and of one that writes, as
    /// [`are_apart`] finds it. False says nothing.
    pub fn is_apart(&self) -> bool
        ensures { OnTrue result (AreApart self.now) }
    {
        self.is_apart
    }

    /// Whether the `bits` logical bits that begin at `from` lie before the first range or behind the
    /// last, so that a datagram over them neither reads nor writes. False says nothing.
    #[tactic(auto, using(crate::proofs::Missing::none_read, crate::proofs::Missing::none_brought))]
    pub fn is_outside(&self, from: u64, bits: u64) -> bool
        requires { from + bits < 2 ^ 64 }
        ensures reads { OnTrue result ((i : ℕ) → i < bits → target (readers self.now) (from + i) ≡ None) }
        ensures writes { OnTrue result ((q : ℕ) → data_bit_for self.now (record { from = from; bits = bits }) q ≡ None) }
    {
        self.stretch.end <= from || from + bits <= self.stretch.first
    }
}

/// The logical bits in the ranges of four FMMUs, and those between them.
fn around(fmmus: &[Fmmu; 4]) -> LogicalRange
    ensures { IsAround result fmmus.now }
{
    let low = join(stretch_of(&fmmus[0]), stretch_of(&fmmus[1]));
    let high = join(stretch_of(&fmmus[2]), stretch_of(&fmmus[3]));
    join(low, high)
}

/// The bits of both, and those between them.
fn join(one: LogicalRange, other: LogicalRange) -> LogicalRange
    ensures one { (l : ℕ) → Has one l → Has result l }
    ensures other { (l : ℕ) → Has other l → Has result l }
{
    LogicalRange {
        first: one.first.min(other.first),
        end: one.end.max(other.end),
    }
}

/// The logical bits in the range of an FMMU.
fn stretch_of(fmmu: &Fmmu) -> LogicalRange
    ensures { (l : ℕ) → reaches fmmu.now l ≡ true → Has result l }
{
    let count = fmmu.bit_count();
    if count == 0 {
        return LogicalRange {
            first: u64::MAX,
            end: 0,
        };
    }
    let first = fmmu.first_logical();
    LogicalRange {
        first,
        end: first + count,
    }
}

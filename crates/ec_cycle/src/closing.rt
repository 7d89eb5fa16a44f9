//! Closes cycles: judges each sync unit by what came back of its parts, takes the inputs of those that are taken, and reports.
ghost use Rattle.std.specs.Prelude.{◌&&◌, set, if◌then◌else◌, ◌≡◌, ◌≤◌, ◌<◌, ◌*◌, ◌^◌, ℕ, Bool, true, false, Option, Some, None, length, map, option_map, replicate, get_or};
ghost use Rattle.std.specs.List.{list_all};
ghost use Rattle.ec_bits.specs.Bits.{bytes_of_bits};
ghost use Rattle.ec_link.specs.declared.plan.ExpectedCounters.{ExpectedCounters};
ghost use Rattle.ec_link.specs.Plan.{part_at};
ghost use Rattle.ec_link.specs.Shares.{predicted, same_counters};
ghost use Rattle.ec_link.specs.Usable.{IsUsable};
ghost use Rattle.ec_cycle.specs.Closing.{ReturnedPart, ReportState, bytes_of, came_back_as, inputs_closed, is_good, or_words, unit_taken};
ghost use Rattle.ec_cycle.specs.Copies.{FitsRun, input_runs, run_copied};

use crate::counters::Counters;
use crate::returned::Returned;
use crate::run::InputRun;
use arrayvec::ArrayVec;
use ec_bits::copy_by_words;
use ec_link::{ExpectedCounters, Plan};
use std::marker::Model;

/// What came of a closed cycle.
#[derive(Drop)]
pub struct Report {
    units: ArrayVec<u8, 64>,
    taken: ArrayVec<bool, 64>,
    missing: usize,
    counters: ArrayVec<Option<Counters>, 32>,
    al_word: u16,
}

impl Model for Report {
    ghost use Rattle.ec_cycle.specs.Closing.{ReportState};

    ghost Value = { ReportState };

    ghost view = { λ r. record { units = r.units.items; taken = r.taken.items; missing = r.missing; counters = r.counters.items; al_word = r.al_word } };
}

impl Report {
    /// The report on a cycle: which units there are and which of them are taken, how many parts are missing, and what came back of each.
    pub(crate) fn new(
        units: &[u8],
        taken: &[bool; 256],
        missing: usize,
        kept: &[Returned],
    ) -> Report
        requires few_units { length units.now ≤ 64 }
        requires few_parts { length kept.now ≤ 32 }
        ensures small { (i : ℕ) → get_or units.now i 0 < 256 }
        ensures report { result ≡ record {
          units = units.now;
          taken = map (λ u. get_or taken.now u false) units.now;
          missing = missing;
          counters = map (λ (o : Option ReturnedPart). option_map (λ (q : ReturnedPart). q.counters) o) kept.now;
          al_word = or_words kept.now;
        } }
    {
        Report {
            units: copy_of(units),
            taken: taken_of(units, taken),
            missing,
            counters: counters_of(kept),
            al_word: words_of(kept),
        }
    }

    /// The sync units of the plan, in rising number.
    pub fn units(&self) -> &[u8]
        ensures { result.now ≡ self.now.units }
    {
        self.units.as_slice()
    }

    /// Whether the inputs of each of these units were taken, in the order of `units`.
    pub fn units_taken(&self) -> &[bool]
        ensures { result.now ≡ self.now.taken }
    {
        self.taken.as_slice()
    }

    /// Whether the inputs of every unit were taken.
    pub fn is_taken(&self) -> bool
        ensures { result ≡ list_all (λ (t : Bool). t) self.now.taken }
    {
        self.taken.as_slice().iter().all(|taken| *taken)
    }

    /// How many parts were not kept: their frames were lost, or had not come back yet.
    pub fn missing(&self) -> usize
        ensures { result ≡ self.now.missing }
    {
        self.missing
    }

    /// The working counters of each part's process datagrams; none if the part was not kept.
    pub fn counters(&self) -> ArrayVec<Option<ExpectedCounters>, 32>
        ensures { result.items ≡ self.now.counters }
    {
        as_predicted(self.counters.as_slice())
    }

    /// The OR of the AL status words that came back. It doesn't decide whether inputs are taken.
    pub fn al_word(&self) -> u16
        ensures { result ≡ self.now.al_word }
    {
        self.al_word
    }
}

/// Whether each unit is taken, by the number of the unit: all its parts came back and are good.
pub(crate) fn judged(plan: &Plan, expected: &[ExpectedCounters], kept: &[Returned]) -> [bool; 256]
    requires kept { length kept.now ≡ length plan.now.parts }
    requires count { length expected.now ≡ length plan.now.parts }
    requires counters { (k : ℕ) (d : ExpectedCounters) → k < length plan.now.parts → get_or expected.now k d ≡ predicted plan.now k }
    ensures size { length result ≡ 256 }
    ensures judged { (u : ℕ) → u < 256 → get_or result u false ≡ unit_taken plan.now kept.now u }
{
    let mut taken = all_taken();
    for k in 0..plan.parts().len() {
        let is_good = is_good(plan, expected, kept, k);
        judge(&mut taken, plan.unit_of_part(k), is_good);
    }
    taken
}

/// All units, before any part is judged: taken.
fn all_taken() -> [bool; 256]
    ensures { result ≡ replicate 256 true }
{
    [true; 256]
}

/// Whether a part came back and is good.
#[tactic(auto, using(crate::proofs::UnitLoops::good_is))]
fn is_good(plan: &Plan, expected: &[ExpectedCounters], kept: &[Returned], part: usize) -> bool
    requires there { part < length plan.now.parts }
    requires kept { length kept.now ≡ length plan.now.parts }
    requires count { length expected.now ≡ length plan.now.parts }
    requires counters { (k : ℕ) (d : ExpectedCounters) → k < length plan.now.parts → get_or expected.now k d ≡ predicted plan.now k }
    ensures { result ≡ is_good plan.now part (get_or kept.now part None) }
{
    let slaves = plan.slaves().len();
    kept[part].came_back_as(slaves, expected[part])
}

impl Returned {
    /// Whether `slaves` slaves processed the broadcast, and the working counters are `counters`.
    pub fn came_back_as(&self, slaves: usize, counters: ExpectedCounters) -> bool
        ensures { result ≡ came_back_as slaves counters self.now }
    {
        self.is_back
            && usize::from(self.broadcast) == slaves
            && same_counters(self.counters.as_predicted(), counters)
    }
}

/// Whether counters are the same, each by itself.
fn same_counters(one: ExpectedCounters, other: ExpectedCounters) -> bool
    ensures { result ≡ same_counters one other }
{
    match (one, other) {
        (ExpectedCounters::Lrw(n), ExpectedCounters::Lrw(m)) => n == m,
        (ExpectedCounters::Split { write, read }, ExpectedCounters::Split { write: v, read: q }) =>
            write == v && read == q,
        _ => false,
    }
}

/// Judges a unit by one of its parts: it isn't taken if the part isn't good.
fn judge(taken: &mut [bool; 256], unit: u8, is_good: bool)
    ensures judged { taken.new ≡ set taken.old unit (get_or taken.old unit false && is_good) }
    ensures small { unit < 256 }
{
    let unit = usize::from(unit);
    taken[unit] = taken[unit] && is_good;
}

/// A copy of the numbers of sync units, in room of its own.
fn copy_of(units: &[u8]) -> ArrayVec<u8, 64>
    requires { length units.now ≤ 64 }
    ensures { result.items ≡ units.now }
{
    let mut copy = ArrayVec::new();
    let _ = copy.try_extend_from_slice(units);
    copy
}

/// Whether each of these units is taken.
fn taken_of(units: &[u8], taken: &[bool; 256]) -> ArrayVec<bool, 64>
    requires { length units.now ≤ 64 }
    ensures taken { result.items ≡ map (λ u. get_or taken.now u false) units.now }
    ensures small { (i : ℕ) → get_or units.now i 0 < 256 }
{
    let mut units_taken = ArrayVec::new();
    for unit in units {
        units_taken.push(taken[usize::from(*unit)]);
    }
    units_taken
}

/// The working counters of the parts that are kept.
fn counters_of(kept: &[Returned]) -> ArrayVec<Option<Counters>, 32>
    requires { length kept.now ≤ 32 }
    ensures { result.items ≡ map (λ (o : Option ReturnedPart). option_map (λ (q : ReturnedPart). q.counters) o) kept.now }
{
    let mut counters = ArrayVec::new();
    for part in kept {
        counters.push(part.counters());
    }
    counters
}

/// The OR of the words of the parts that are kept.
#[tactic(auto, using(crate::proofs::UnitLoops::word_steps))]
fn words_of(kept: &[Returned]) -> u16
    ensures { result ≡ or_words kept.now }
{
    let mut words = 0;
    for part in kept {
        words |= part.al_word();
    }
    words
}

/// The working counters of a part, as a plan predicts them.
fn part_as_predicted(counters: &Option<Counters>) -> Option<ExpectedCounters>
    ensures { result ≡ counters.now }
{
    match counters {
        Some(counters) => Some(counters.as_predicted()),
        None => None,
    }
}

/// The working counters of parts, as a plan predicts them.
fn as_predicted(parts: &[Option<Counters>]) -> ArrayVec<Option<ExpectedCounters>, 32>
    requires { length parts.now ≤ 32 }
    ensures { result.items ≡ parts.now }
{
    let mut counters = ArrayVec::new();
    for part in parts {
        counters.push(part_as_predicted(part));
    }
    counters
}

/// Copies the linked input bits of each unit that is taken out of what its parts brought back.
pub(crate) fn take_inputs(
    plan: &Plan,
    runs: &[InputRun],
    taken: &[bool; 256],
    kept: &[Returned],
    inputs: &mut [u8],
)
    requires usable { IsUsable plan.now }
    requires runs { runs.now ≡ input_runs plan.now }
    requires size { length taken.now ≡ 256 }
    requires taken { (u : ℕ) → u < 256 → get_or taken.now u false ≡ unit_taken plan.now kept.now u }
    requires kept { length kept.now ≡ length plan.now.parts }
    requires sizes { (k : ℕ) (q : ReturnedPart) → get_or kept.now k None ≡ Some q → length q.bytes ≡ (part_at plan.now.parts k).bytes }
    requires room { length inputs.old ≡ bytes_of_bits plan.now.in_bits }
    requires few { plan.now.in_bits < 2 ^ 64 }
    ensures { inputs.new ≡ inputs_closed plan.now kept.now inputs.old }
{
    for input in runs {
        take_input(*input, taken, kept, inputs);
    }
}

/// Copies the input bits of a run, if its unit is taken.
fn take_input(input: InputRun, taken: &[bool; 256], kept: &[Returned], inputs: &mut [u8])
    requires { get_or taken.now input.unit false ≡ true → (input.part < length kept.now) × FitsRun (length inputs.old) (length (bytes_of (get_or kept.now input.part None))) input.run }
    ensures copied { inputs.new ≡ (if get_or taken.now input.unit false then run_copied (bytes_of (get_or kept.now input.part None)) input.run inputs.old else inputs.old) }
    ensures small { input.unit < 256 }
{
    if taken[usize::from(input.unit)] {
        copy_input(input, kept, inputs);
    }
}

/// Copies the input bits of a run out of what its part brought back.
fn copy_input(input: InputRun, kept: &[Returned], inputs: &mut [u8])
    requires there { input.part < length kept.now }
    requires fits { FitsRun (length inputs.old) (length (bytes_of (get_or kept.now input.part None))) input.run }
    ensures { inputs.new ≡ run_copied (bytes_of (get_or kept.now input.part None)) input.run inputs.old }
{
    let run = input.run;
    let bytes = kept[input.part].bytes();
    copy_by_words(inputs, run.to, bytes, run.from, run.count);
}

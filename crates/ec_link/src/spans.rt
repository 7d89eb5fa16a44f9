//! Runs of bits on one line, to find overlaps.
ghost use Rattle.std.specs.Prelude.{◌≡◌, ◌+◌, ◌<◌, ◌≤◌, ◌^◌, ℕ, true, false, All, IfOk, Some};
ghost use Rattle.std.specs.BTreeMap.{get};
ghost use Rattle.std.specs.Ordering.{nat_cmp};
ghost use Rattle.ec_link.specs.LinkRuns.{linked_twice};
ghost use Rattle.ec_link.specs.Spans.{span_from, AreApart, IsMet};
ghost use Rattle.ec_link.specs.Faults.{first_at};
ghost use Rattle.ec_link.specs.Limits.{IsShortRun};

use crate::link_runs::{LinkRun, is_out};
use std::alloc::{AllocError, Global};
use std::collections::BTreeMap;

/// The first link run that gives a bit which an earlier one gives, by a map of the runs so far.
pub fn first_met(alloc: Global, link_runs: &[LinkRun]) -> Result<Option<usize>, AllocError>
    requires { All IsShortRun link_runs.now }
    ensures { IfOk result (λ o. o ≡ first_at (linked_twice link_runs.now) 0 link_runs.now) }
{
    let mut ends = BTreeMap::new(alloc);
    for (place, link_run) in link_runs.iter().enumerate() {
        let from = span_from(link_run);
        let end = from + link_run.count as u128;
        if is_met(&ends, from, end) {
            return Ok(Some(place));
        }
        ends.insert(from, end)?;
    }
    Ok(None)
}

/// Whether one of the spans, which are given by their ends, shares a number with those from `from` to before `end`. No two of
/// them share one, so only the last that begins before `end` can.
fn is_met(ends: &BTreeMap<u128, u128>, from: u128, end: u128) -> bool
    requires { AreApart ends.now }
    ensures hit { result ≡ true → IsMet ends.now from end }
    ensures miss { result ≡ false → (a b : ℕ) → get nat_cmp ends.now a ≡ Some b → a < end → b ≤ from }
{
    match ends.range(..end).next_back() {
        Some((_, last)) => *last > from,
        None => false,
    }
}

/// The first number of a link run on the line: 2^17 numbers for the outputs of each slave, and as many for each variable.
fn span_from(link_run: &LinkRun) -> u128
    requires { IsShortRun link_run.now }
    ensures value { result ≡ span_from link_run.now }
    ensures low { result < 2 ^ 100 }
{
    if is_out(link_run.direction) {
        (1 << 18) * link_run.slave as u128 + link_run.object_bit as u128
    } else {
        (1 << 18) * link_run.variable as u128 + ((1 << 17) + link_run.variable_bit as u128)
    }
}

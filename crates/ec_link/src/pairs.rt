//! Finds whether two runs have a bit in common: by pairs, if they are few.
ghost use Rattle.std.specs.Prelude.{◌≡◌, ◌&&◌, All, IfOk};
ghost use Rattle.std.specs.List.{list_any};
ghost use Rattle.ec_link.specs.Faults.{first_at};
ghost use Rattle.ec_link.specs.LinkRuns.{give_one_bit, linked_twice, runs_meet};
ghost use Rattle.ec_link.specs.Limits.{IsShortRun};

use crate::link_runs::{LinkRun, is_out};
use crate::marks::first_of_many;
use std::alloc::{AllocError, Global};

/// The most link runs that are compared in pairs: this takes no memory, and no longer than to make the marks.
const FEW: usize = 8;

/// The first link run that gives a bit which an earlier one gives.
pub fn first_given_twice(
    alloc: Global,
    link_runs: &[LinkRun],
    slaves: usize,
    variables: usize,
) -> Result<Option<usize>, AllocError>
    requires { All IsShortRun link_runs.now }
    ensures { IfOk result (λ o. o ≡ first_at (linked_twice link_runs.now) 0 link_runs.now) }
{
    if link_runs.len() <= FEW {
        return Ok(first_of_pairs(link_runs));
    }
    first_of_many(alloc, link_runs, slaves, variables)
}

/// As [`first_given_twice`], by comparing each pair: it takes no memory, and quadratic time.
fn first_of_pairs(link_runs: &[LinkRun]) -> Option<usize>
    ensures { result ≡ first_at (linked_twice link_runs.now) 0 link_runs.now }
{
    for (place, link_run) in link_runs.iter().enumerate() {
        if gives_again(&link_runs[..place], link_run) {
            return Some(place);
        }
    }
    None
}

/// Whether a link run gives a bit that one of the earlier ones gives.
fn gives_again(earlier: &[LinkRun], link_run: &LinkRun) -> bool
    ensures { result ≡ list_any (give_one_bit link_run.now) earlier.now }
{
    for other in earlier {
        if give_one_bit(link_run, other) {
            return true;
        }
    }
    false
}

/// Whether both give one output object bit, or one input variable bit.
fn give_one_bit(one: &LinkRun, other: &LinkRun) -> bool
    ensures { result ≡ give_one_bit one.now other.now }
{
    match (is_out(one.direction), is_out(other.direction)) {
        (true, true) => one.slave == other.slave
            && runs_meet(one.object_bit, one.count, other.object_bit, other.count),
        (false, false) => one.variable == other.variable
            && runs_meet(one.variable_bit, one.count, other.variable_bit, other.count),
        _ => false,
    }
}

/// Whether two runs of this many bits, which begin at two places, share a bit.
fn runs_meet(from: usize, count: usize, other: usize, other_count: usize) -> bool
    ensures { result ≡ runs_meet from count other other_count }
{
    (from < other || from - other < other_count) && (other < from || other - from < count)
}

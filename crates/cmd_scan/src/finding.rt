//! The slaves that a scan found.
ghost use Rattle.std.specs.Prelude.{IfOk};
ghost use Rattle.cmd_scan.specs.Scans.{AreFound};

use ec_found::{Found, found_of};
use ec_scan::Shown;
use std::alloc::{AllocError, Global};

/// The slaves of a segment: what each of them shows, and what it is.
#[derive(Drop)]
pub(crate) struct Seen {
    pub shown: Vec<Shown>,
    pub found: Vec<Found>,
}

/// What slaves are, by what each of them shows. The error says that memory ran out.
#[tactic(auto, using(crate::proofs::FoundLemmas::found_more))]
pub(crate) fn found_all(alloc: Global, shown: &[Shown]) -> Result<Vec<Found>, AllocError>
    ensures { IfOk result (λ found. AreFound shown.now found.items) }
{
    let mut found = Vec::new(alloc);
    for slave in shown {
        found.push(found_of(alloc, slave)?)?;
    }
    Ok(found)
}

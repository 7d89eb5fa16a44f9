//! Laws of what is found. Each function does nothing: its contract is the law.
ghost use Rattle.ec_found.specs.Laws.{FoundAssignsOnce, FullTypesAreFound, RowsExchangeOnce};

/// The full slaves of a table that has a plan are found as its types. A table can say all of them if they exchange no entry twice, so once
/// they were started up.
pub fn full_types_are_found()
    ensures types { FullTypesAreFound }
    ensures rows { RowsExchangeOnce }
{}

/// A table assigns no entry twice of a slave that was found, whatever it shows.
pub fn found_assigns_once()
    ensures { FoundAssignsOnce }
{}

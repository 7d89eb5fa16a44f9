//! Places of a text as people count them. What is found at them in tables stands as cases in `tools/cases/data/stumbles.cases`.
use crate::compare::expect_same;
use ec_diagnostic::spot_of;
use std::process::Abort;

/// Bytes of a text, with the line and the column of each.
const SPOTS: [(usize, usize, usize); 7] = [
    (0, 1, 1),
    (1, 1, 2),
    (2, 2, 1),
    (6, 2, 4),
    (9, 3, 1),
    (10, 4, 1),
    (99, 4, 1),
];

/// A byte of a text stands at this line and column.
fn expect_spot(rt: &impl Abort, text: &str, wanted: &(usize, usize, usize)) {
    let spot = spot_of(text, wanted.0);
    let seen = (wanted.0, spot.line, spot.column);
    expect_same(rt, &seen, wanted, "a byte, its line and its column");
}

#[test]
fn spots_count_lines_and_characters(rt: HostRuntime) {
    for wanted in &SPOTS {
        expect_spot(&rt, "a\n\tb\u{fc}c\r\n\n", wanted);
    }
}

//! Why a live segment can't do a step, in words.
use ec_script::{LineAction, Step};
use std::fmt;

/// Why a step of the segment's own isn't done: the plan has no such part. Or why it isn't met: it was done, and is expected not to be.
#[derive(Clone, Copy)]
pub struct Why {
    pub step: Step,
    pub parts: usize,
}

impl fmt::Display for Why {
    fn fmt<W: fmt::Write>(&self, f: &mut fmt::Formatter<W>) -> fmt::Result {
        let Why { step, parts } = *self;
        match step.action {
            LineAction::LosePart(_, part) if !step.expects_no => {
                let last = parts.saturating_sub(1);
                write!(f, "there is no part {part}: the plan has parts 0 to {last}")
            }
            _ => f.write_str("the line was done, expected `no`"),
        }
    }
}

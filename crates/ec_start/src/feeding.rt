//! Which part a start-up feeds next.

ghost use Rattle.std.specs.Prelude.{◌≡◌, ◌≤◌, IfSome, slice_get};
ghost use Rattle.ec_start.specs.declared.action.Feed.{Feed};
ghost use Rattle.ec_start.specs.Feeding.{feed_over, feeds_of};
ghost use Rattle.ec_start.specs.Running.{is_fed};

use crate::action::{Action, Feed};
use crate::script::has_hardware;
use ec_al::State;
use ec_link::{ExpectedCounters, PartPlan, Plan};

/// Whether parts are fed before each frame of an action: it asks for OP, or looks for it.
pub fn is_fed(action: &Action) -> bool
    ensures { result ≡ is_fed action.now }
{
    match *action {
        Action::AskState { state, .. } | Action::AwaitState { state, .. } => state == State::Op,
        _ => false,
    }
}

/// The part that is fed by its number, counted from 0 over the parts that have process bytes; none behind the last, and none without
/// `hardware`.
pub fn feed_at(plan: &Plan, number: usize) -> Option<Feed>
    ensures value { result ≡ slice_get (feeds_of plan.now) number }
    ensures few { IfSome result (λ (f : Feed). f.bytes ≤ 1422) }
{
    if !has_hardware(plan.slaves()) {
        return None;
    }
    let parts = plan.parts();
    let mut left = number;
    for (part, settings) in parts.iter().enumerate() {
        if settings.bytes > 0 {
            if left == 0 {
                return Some(feed_over(settings, plan.predicted(part)));
            }
            left -= 1;
        }
    }
    None
}

/// The datagram of zeros over a part that comes back with these counters.
fn feed_over(part: &PartPlan, expected: ExpectedCounters) -> Feed
    ensures { result ≡ feed_over part.now expected }
{
    let counter = match expected {
        ExpectedCounters::Lrw(counter) => counter,
        ExpectedCounters::Split { write, .. } => write,
    };
    Feed {
        address: part.address,
        bytes: part.bytes,
        split: part.split,
        counter,
    }
}

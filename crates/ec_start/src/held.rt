//! A plan that a start-up or a master holds.
ghost use Rattle.std.specs.Prelude.{◌≡◌};
ghost use Rattle.ec_start.specs.HeldPlans.{plan_in};

use ec_link::{Machine, Plan};
use std::alloc::AllocError;
use std::sync::Arc;

/// A plan, as a start-up or a master holds it.
#[derive(Drop)]
pub enum HeldPlan<'p> {
    /// It is lent.
    Lent(&'p Plan),
    /// It is the plan of a machine that has several owners, of which this is one.
    Shared(Arc<Machine>),
}

impl HeldPlan<'_> {
    /// The plan.
    pub fn plan(&self) -> &Plan
        ensures { result.now ≡ plan_in self.now }
    {
        match self {
            HeldPlan::Lent(plan) => plan,
            HeldPlan::Shared(machine) => machine.plan(),
        }
    }
}

impl<'p> Clone for HeldPlan<'p> {
    ghost is_clone = { λ held copy. plan_in copy ≡ plan_in held };

    /// Holds the same plan once more. It takes no memory.
    fn clone(&self) -> Result<HeldPlan<'p>, AllocError> {
        match self {
            HeldPlan::Lent(plan) => Ok(HeldPlan::Lent(*plan)),
            HeldPlan::Shared(machine) => Ok(HeldPlan::Shared(machine.clone()?)),
        }
    }
}

//! What a master says of itself.
ghost use Rattle.std.specs.Prelude.{◌≡◌, length, is_some};
ghost use Rattle.ec_bits.specs.Bits.{bytes_of_bits};
ghost use Rattle.ec_start.specs.HeldPlans.{plan_in};

use crate::master::Master;
use ec_link::Plan;
use ec_start::HeldPlan;

impl<'p> Master<'p> {
    /// The plan. A start-up of it makes the master ready.
    pub fn plan(&self) -> &Plan
        ensures { result.now ≡ self.now.plan }
    {
        self.held.plan()
    }

    /// The plan, as the master holds it. A start-up that holds it too makes the master ready.
    pub fn held_plan(&self) -> &HeldPlan<'p>
        ensures { plan_in result.now ≡ self.now.plan }
    {
        &self.held
    }

    /// Whether a start-up of the plan has ended Ready.
    pub fn is_ready(&self) -> bool
        ensures { result ≡ self.now.is_ready }
    {
        self.is_ready
    }

    /// Whether a cycle is open.
    pub fn is_open(&self) -> bool
        ensures { result ≡ is_some self.now.cycle }
    {
        self.number.is_some()
    }

    /// The number of the next cycle.
    pub fn next_number(&self) -> u64
        ensures { result ≡ self.now.next }
    {
        self.next
    }

    /// The image of all outputs: the output variables bit by bit, in the order of the plan.
    pub fn outputs(&self) -> &[u8]
        ensures value { result.now ≡ self.now.outputs }
        ensures size { length result.now ≡ bytes_of_bits self.now.plan.out_bits }
    {
        self.outputs.as_slice()
    }

    /// The image of all inputs: the input variables bit by bit, in the order of the plan.
    pub fn inputs(&self) -> &[u8]
        ensures value { result.now ≡ self.now.inputs }
        ensures size { length result.now ≡ bytes_of_bits self.now.plan.in_bits }
    {
        self.inputs.as_slice()
    }

    /// How many parts a cycle has.
    pub fn parts(&self) -> usize
        ensures { result ≡ length self.now.plan.parts }
    {
        self.held.plan().parts().len()
    }

    /// How many variables there are.
    pub fn variables(&self) -> usize
        ensures { result ≡ length self.now.plan.variables }
    {
        self.held.plan().variables().len()
    }
}

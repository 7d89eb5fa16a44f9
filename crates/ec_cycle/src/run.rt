//! Runs of bits that are copied between the images and the process data of frames. There is one run for each link, and one for
//! several links if their bits adjoin on both sides.
ghost use Rattle.std.specs.Prelude.{◌≡◌, ◌<◌, ◌++◌, ◌∷◌, [], ℕ, Bool, List, IfOk, length, map, get_or, true};
ghost use Rattle.ec_link.specs.Usable.{IsUsable, IsOutLink, IsInLink};
ghost use Rattle.ec_cycle.specs.Copies.{is_of_part, output_run, input_run, part_runs, adjoin, both, inputs_adjoin, both_inputs, merged, merged_from, output_runs, input_runs};

use ec_link::{Link, Plan};
use ec_listed::Listed;
use std::alloc::{AllocError, Global};

/// A run of `count` bits, copied from bit `from` of the source to bit `to` of the target.
#[derive(Clone, Copy, Drop)]
pub struct BitRun {
    pub to: usize,
    pub from: usize,
    pub count: usize,
}

/// A run from the data that a part brought back to the image of the inputs.
#[derive(Clone, Copy, Drop)]
pub struct InputRun {
    /// The part that brings the bits back.
    pub part: usize,
    /// The sync unit of that part.
    pub unit: u8,
    pub run: BitRun,
}

/// Runs that can be joined if the next one begins where this one ends.
trait Adjoining: Copy {
    ghost adjoins: { Self → Self → Bool };

    ghost joined: { Self → Self → Self };

    /// Whether the next run begins where this one ends.
    fn adjoins(self, next: Self) -> bool
        ensures { result ≡ adjoins self next };

    /// Both runs as one.
    fn joined(self, next: Self) -> Self
        requires { adjoins self next ≡ true }
        ensures { result ≡ joined self next };
}

impl Adjoining for BitRun {
    ghost adjoins = { adjoin };

    ghost joined = { both };

    fn adjoins(self, next: BitRun) -> bool {
        self.to.checked_add(self.count) == Some(next.to)
            && self.from.checked_add(self.count) == Some(next.from)
            && self.count.checked_add(next.count).is_some()
    }

    fn joined(self, next: BitRun) -> BitRun {
        BitRun {
            to: self.to,
            from: self.from,
            count: self.count + next.count,
        }
    }
}

impl Adjoining for InputRun {
    ghost adjoins = { inputs_adjoin };

    ghost joined = { both_inputs };

    fn adjoins(self, next: InputRun) -> bool {
        self.part == next.part && self.unit == next.unit && self.run.adjoins(next.run)
    }

    fn joined(self, next: InputRun) -> InputRun {
        InputRun {
            part: self.part,
            unit: self.unit,
            run: self.run.joined(next.run),
        }
    }
}

/// The runs of the outputs of each part, from the image to the part's process data.
pub fn runs_by_part(alloc: Global, plan: &Plan) -> Result<Listed<Listed<BitRun>>, AllocError>
    requires { IsUsable plan.now }
    ensures count { IfOk result (λ rs. length rs ≡ length plan.now.parts) }
    ensures each { IfOk result (λ rs. (k : ℕ) → k < length plan.now.parts → get_or rs k [] ≡ output_runs plan.now k) }
{
    let mut runs = Listed::new(alloc);
    for part in 0..plan.parts().len() {
        runs.push(runs_of_outputs(alloc, plan, part)?)?;
    }
    Ok(runs)
}

/// The runs of the inputs, from the parts' data to the image.
pub fn runs_of_inputs(alloc: Global, plan: &Plan) -> Result<Listed<InputRun>, AllocError>
    requires { IsUsable plan.now }
    ensures { IfOk result (λ rs. rs ≡ input_runs plan.now) }
{
    let runs = runs_of_links(alloc, plan)?;
    merged(alloc, runs.as_slice())
}

/// These runs, with those that adjoin joined.
fn merged<R: Adjoining>(alloc: Global, runs: &[R]) -> Result<Listed<R>, AllocError>
    ensures { IfOk result (λ rs. rs ≡ merged R.adjoins R.joined runs.now) }
{
    let mut done = Listed::new(alloc);
    let Some((first, rest)) = runs.split_first() else {
        return Ok(done);
    };
    let mut last = *first;
    for next in rest {
        last = go_on(&mut done, last, *next)?;
    }
    done.push(last)?;
    Ok(done)
}

/// Joins the next run to the last if it adjoins. Otherwise it adds the last run to `done`, and returns the next as the last.
fn go_on<R: Adjoining>(done: &mut Listed<R>, last: R, next: R) -> Result<R, AllocError>
    ensures { IfOk result (λ r. (rest : List R) → done.new ++ merged_from R.adjoins R.joined r rest ≡ done.old ++ merged_from R.adjoins R.joined last (next ∷ rest)) }
{
    if last.adjoins(next) {
        return Ok(last.joined(next));
    }
    done.push(last)?;
    Ok(next)
}

/// The runs of the outputs of a part, with those that adjoin joined.
fn runs_of_outputs(alloc: Global, plan: &Plan, part: usize) -> Result<Listed<BitRun>, AllocError>
    requires usable { IsUsable plan.now }
    requires there { part < length plan.now.parts }
    ensures { IfOk result (λ rs. rs ≡ output_runs plan.now part) }
{
    let runs = runs_of_part(alloc, plan, part)?;
    merged(alloc, runs.as_slice())
}

/// The runs of the outputs of a part, one for each link, in the order of the links.
#[tactic(auto, using(crate::proofs::Runs::filter_steps))]
fn runs_of_part(alloc: Global, plan: &Plan, part: usize) -> Result<Listed<BitRun>, AllocError>
    requires usable { IsUsable plan.now }
    requires there { part < length plan.now.parts }
    ensures { IfOk result (λ rs. rs ≡ part_runs plan.now part) }
{
    let mut runs = Listed::new(alloc);
    for link in plan.out_links() {
        if is_of_part(plan, part, link) {
            runs.push(output_run(plan, part, link))?;
        }
    }
    Ok(runs)
}

/// The run of a link of outputs, from the image to the data of its part.
fn output_run(plan: &Plan, part: usize, link: &Link) -> BitRun
    requires usable { IsUsable plan.now }
    requires linked { IsOutLink plan.now link.now }
    requires there { part < length plan.now.parts }
    requires own { is_of_part plan.now part link.now ≡ true }
    ensures { result ≡ output_run plan.now part link.now }
{
    BitRun {
        to: plan.settings(link.slave).from + link.object_bit
            - 8 * plan.parts()[part].address as usize,
        from: link.image,
        count: link.count,
    }
}

/// Whether the slave of a link is in a part.
fn is_of_part(plan: &Plan, part: usize, link: &Link) -> bool
    requires { IsOutLink plan.now link.now }
    ensures { result ≡ is_of_part plan.now part link.now }
{
    plan.part_of(link.slave) == part
}

/// The runs of the inputs, one for each link, in the order of the links.
fn runs_of_links(alloc: Global, plan: &Plan) -> Result<Listed<InputRun>, AllocError>
    requires { IsUsable plan.now }
    ensures { IfOk result (λ rs. rs ≡ map (input_run plan.now) plan.now.in_links) }
{
    let mut runs = Listed::new(alloc);
    for link in plan.in_links() {
        runs.push(input_run(plan, link))?;
    }
    Ok(runs)
}

/// The run of a link of inputs, from the data of its part to the image.
fn input_run(plan: &Plan, link: &Link) -> InputRun
    requires usable { IsUsable plan.now }
    requires linked { IsInLink plan.now link.now }
    ensures { result ≡ input_run plan.now link.now }
{
    let settings = plan.settings(link.slave);
    let part = settings.share.part;
    let part_plan = plan.parts()[part];
    InputRun {
        part,
        unit: part_plan.unit,
        run: BitRun {
            to: link.image,
            from: settings.from + link.object_bit - 8 * part_plan.address as usize,
            count: link.count,
        },
    }
}

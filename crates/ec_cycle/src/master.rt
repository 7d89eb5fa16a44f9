//! The master of the cyclic frames: its image and its open cycle.
ghost use Rattle.std.specs.Prelude.{◌≡◌, ◌≤◌, ◌<◌, ◌+◌, ◌^◌, ◌↔◌, ℕ, [], None, length, slice_get, get_or, true, is_some, IfOk, IsErr, IfErr, OnOk, OnErr};
ghost use Rattle.ec_bits.specs.Bits.{zeros, bytes_of_bits};
ghost use Rattle.ec_frame.specs.Building.{bare_payload};
ghost use Rattle.ec_frame.specs.Frame.{IsFrame};
ghost use Rattle.ec_link.specs.declared.plan.ExpectedCounters.{ExpectedCounters};
ghost use Rattle.ec_link.specs.Shares.{predicted};
ghost use Rattle.ec_link.specs.Usable.{IsUsable};
ghost use Rattle.ec_cycle.specs.Closing.{nones};
ghost use Rattle.ec_cycle.specs.Copies.{output_runs};
ghost use Rattle.ec_cycle.specs.Frames.{sent_datagrams};
ghost use Rattle.ec_cycle.specs.MasterFields.{IsMade};
ghost use Rattle.ec_cycle.specs.Master.{OpenCycle, MasterState, Begun, IsTaken, IsClosed, new_master, readied, holds_value, value_put, variable_set, value_at, begin_refusal, refused_by, frame_of, missing_of, abandoned};
ghost use Rattle.ec_cycle.specs.declared.error.CycleError.TheVariants.{NotOpen};
ghost use Rattle.ec_start.specs.HeldPlans.{plan_in};
ghost use Rattle.ec_start.specs.declared.phase.Phase.TheVariants.{Ready};
ghost use Rattle.ec_start.specs.Running.{is_accepted};

use crate::building::build;
use crate::closing::{Report, judged, take_inputs};
use crate::error::CycleError;
use crate::matching::{answered, first_spans};
use crate::renewing::{SentFrame, fill};
use crate::returned::Returned;
use crate::run::{BitRun, InputRun, runs_by_part, runs_of_inputs};
use ec_bits::{is_short, read_bits, write_bits};
use ec_frame::{Frame, check};
use ec_link::{ExpectedCounters, MAX_PART_BYTES, Plan};
use ec_listed::Listed;
use ec_start::{HeldPlan, Startup, Taken};
use ec_table::Direction;
use std::alloc::{AllocError, Global};
use std::marker::Model;

/// A master of the cyclic frames of a plan. It allocates all its memory when it is made.
#[derive(Drop)]
pub struct Master<'p> {
    pub(crate) held: HeldPlan<'p>,
    pub(crate) is_ready: bool,
    pub(crate) next: u64,
    pub(crate) outputs: Vec<u8>,
    pub(crate) inputs: Vec<u8>,
    // looked up once in the plan
    runs: Listed<Listed<BitRun>>,
    input_runs: Listed<InputRun>,
    expected: Listed<ExpectedCounters>,
    // the number of the open cycle
    pub(crate) number: Option<u64>,
    // one for each part
    frames: Vec<SentFrame>,
    kept: Vec<Returned>,
}

impl<'p> Model for Master<'p> {
    ghost use Rattle.std.specs.Prelude.{option_map};
    ghost use Rattle.ec_cycle.specs.Master.{MasterState};
    ghost use Rattle.ec_cycle.specs.MasterFields.{IsMaster};
    ghost use Rattle.ec_start.specs.HeldPlans.{plan_in};

    ghost Value = { MasterState };

    ghost view = { λ m. record {
      plan = plan_in m.held;
      is_ready = m.is_ready;
      next = m.next;
      outputs = m.outputs.items;
      inputs = m.inputs.items;
      cycle = option_map (λ n. record { number = n; frames = m.frames.items; kept = m.kept.items }) m.number;
    } };

    ghost invariant = { λ m. IsMaster (plan_in m.held) m.runs m.input_runs m.expected m.outputs.items m.inputs.items m.frames.items m.kept.items m.number };
}

impl<'p> Master<'p> {
    /// A master of a plan. It isn't ready, and all bits of its process image are 0. No later call takes memory.
    ///
    /// # Errors
    ///
    /// `AllocError` if memory was refused.
    pub fn new(alloc: Global, plan: &'p Plan) -> Result<Master<'p>, AllocError>
        requires { IsUsable plan.now }
        ensures { IfOk result (λ m. m ≡ new_master plan.now) }
    {
        Master::of(alloc, HeldPlan::Lent(plan))
    }

    /// As [`new`](Master::new), of a plan that is lent or shared.
    ///
    /// # Errors
    ///
    /// `AllocError` if memory was refused.
    pub fn of(alloc: Global, held: HeldPlan<'p>) -> Result<Master<'p>, AllocError>
        requires { IsUsable (plan_in held) }
        ensures { IfOk result (λ m. m ≡ new_master (plan_in held.entry)) }
    {
        let plan = held.plan();
        let outputs = image_of(alloc, plan.out_bits())?;
        let inputs = image_of(alloc, plan.in_bits())?;
        let runs = runs_by_part(alloc, plan)?;
        let input_runs = runs_of_inputs(alloc, plan)?;
        let expected = counters_of(alloc, plan)?;
        let frames = frames_of(alloc, plan, runs.as_slice(), &outputs)?;
        let kept = nothing_returned(alloc, plan.parts().len())?;
        Ok(Master {
            held,
            is_ready: false,
            next: 0,
            outputs,
            inputs,
            runs,
            input_runs,
            expected,
            number: None,
            frames,
            kept,
        })
    }

    /// Makes the master ready for cycles: a start-up of its plan has ended Ready. The numbers of cycles follow those of the
    /// start-up's frames, unless they are greater already.
    pub fn ready(&mut self, startup: &Startup)
        requires ready { startup.now.phase ≡ Ready }
        requires same { startup.now.plan ≡ self.old.plan.slaves }
        ensures { self.new ≡ readied self.old startup.now.next }
    {
        self.become_ready(startup.next_number());
    }

    /// Makes the master ready: a start-up of the plan ended Ready, and `next` is that start-up's next number.
    pub(crate) fn become_ready(&mut self, next: u64)
        ensures { self.new ≡ readied self.old next }
    {
        self.is_ready = true;
        self.next = self.next.max(next);
    }

    /// Does nothing. Its contract says that the plan of every master can be used.
    pub fn is_sound(&self)
        ensures { IsUsable self.now.plan }
    {
        let _ = &self.held;
    }

    /// Whether there is a variable, it is an output, and it has enough bits for the value: the condition of `set`.
    pub fn can_set(&self, variable: usize, value: u64) -> bool
        ensures { result ≡ holds_value value (slice_get self.now.plan.variables variable) }
    {
        can_hold(self.held.plan(), variable, value)
    }

    /// Sets a variable of the outputs. No other bit changes, and no frame that was made.
    pub fn set(&mut self, variable: usize, value: u64)
        requires { holds_value value (slice_get self.old.plan.variables variable) ≡ true }
        ensures { self.new ≡ variable_set self.old variable value }
    {
        write_variable(&mut self.outputs, self.held.plan(), variable, value);
    }

    /// The value of a variable.
    pub fn get(&self, variable: usize) -> u64
        requires { variable < length self.now.plan.variables }
        ensures { result ≡ value_at self.now (slice_get self.now.plan.variables variable) }
    {
        let place = self.held.plan().variables()[variable];
        let image = match place.direction {
            Direction::Out => self.outputs.as_slice(),
            Direction::In => self.inputs.as_slice(),
        };
        read_bits(image, place.from, usize::from(place.bits))
    }

    /// Sets the image of all outputs. `outputs` has as many bytes as the image. No frame that was made changes.
    pub fn set_outputs(&mut self, outputs: &[u8])
        requires { length outputs.now ≡ length self.old.outputs }
        ensures { self.new ≡ record self.old { outputs = outputs.now } }
    {
        self.outputs.copy_from_slice(outputs);
    }

    /// Begins a cycle: makes one frame for each part, from the outputs as they are. The cycle takes the next number.
    ///
    /// # Errors
    ///
    /// The first that holds of `NotReady`, `Open` and `NumbersSpent`; nothing changes.
    pub fn begin(&mut self) -> Result<(), CycleError>
        ensures answer { result ≡ refused_by (begin_refusal self.old) }
        ensures begun { OnOk result ((c : OpenCycle) × Begun self.old self.new c) }
        ensures unchanged { OnErr result (self.new ≡ self.old) }
    {
        if !self.is_ready {
            return Err(CycleError::NotReady);
        }
        if self.number.is_some() {
            return Err(CycleError::Open);
        }
        if self.next == u64::MAX {
            return Err(CycleError::NumbersSpent);
        }
        let number = self.next;
        forget(&mut self.kept);
        make_frames(
            self.held.plan(),
            self.runs.as_slice(),
            number,
            &self.outputs,
            &mut self.frames,
        );
        self.next = number + 1;
        self.number = Some(number);
        Ok(())
    }

    /// The frame of a part of the open cycle, as `begin` made it.
    pub fn frame(&self, part: usize) -> &[u8]
        requires opened { is_some self.now.cycle ≡ true }
        requires there { part < length self.now.plan.parts }
        ensures { result.now ≡ frame_of self.now.cycle part }
    {
        self.frames[part].bytes()
    }

    /// Takes a payload that came in. It is accepted exactly if it answers the frame of a part of the open cycle that isn't back
    /// yet, whatever slaves made of its data, its counters and the broadcast's address. Any other payload is foreign and
    /// changes nothing.
    pub fn take(&mut self, payload: &[u8]) -> Taken
        ensures { IsTaken self.old payload.now (is_accepted result) self.new }
    {
        if self.number.is_none() {
            return Taken::Foreign;
        }
        let Ok(count) = check(payload) else {
            return Taken::Foreign;
        };
        let spans = first_spans(payload);
        let frames = self.frames.as_slice();
        let Some(part) = answered(payload, count, &spans, frames, self.kept.as_slice()) else {
            return Taken::Foreign;
        };
        let place = self.held.plan().parts()[part];
        self.kept[part].keep(place.split, payload, &spans);
        Taken::Accepted
    }

    /// Closes the cycle. It takes the inputs of each unit whose own parts all came back and are good, all at once; the other
    /// units' inputs stay as they are.
    ///
    /// # Errors
    ///
    /// `NotOpen` if no cycle is open; nothing changes.
    pub fn close(&mut self) -> Result<Report, CycleError>
        ensures not_open { IsErr result ↔ (self.old.cycle ≡ None) }
        ensures cause { IfErr result (λ e. e ≡ NotOpen) }
        ensures closed { IfOk result (λ r. IsClosed self.old self.new r) }
        ensures unchanged { OnErr result (self.new ≡ self.old) }
    {
        if self.number.is_none() {
            return Err(CycleError::NotOpen);
        }
        let plan = self.held.plan();
        let taken = judged(plan, self.expected.as_slice(), &self.kept);
        let missing = missing_of(&self.kept);
        let report = Report::new(plan.units(), &taken, missing, &self.kept);
        take_inputs(
            plan,
            self.input_runs.as_slice(),
            &taken,
            &self.kept,
            &mut self.inputs,
        );
        self.number = None;
        Ok(report)
    }

    /// How many parts of the open cycle aren't back yet; 0 if no cycle is open.
    pub fn missing(&self) -> usize
        ensures { result ≡ missing_of self.now.cycle }
    {
        match self.number {
            None => 0,
            Some(_) => missing_of(&self.kept),
        }
    }

    /// Drops the open cycle, if there is one, and takes nothing of it. Its frames are foreign if they come back later.
    pub fn abandon(&mut self)
        ensures { self.new ≡ abandoned self.old }
    {
        self.number.take();
    }
}

/// Writes the bits of a variable of the outputs.
fn write_variable(image: &mut [u8], plan: &Plan, variable: usize, value: u64)
    requires usable { IsUsable plan.now }
    requires image { length image.old ≡ bytes_of_bits plan.now.out_bits }
    requires few { plan.now.out_bits < 2 ^ 64 }
    requires holds { holds_value value (slice_get plan.now.variables variable) ≡ true }
    ensures { image.new ≡ value_put image.old value (slice_get plan.now.variables variable) }
{
    let place = plan.variables()[variable];
    write_bits(image, place.from, usize::from(place.bits), value);
}

/// Whether there is a variable, it is an output, and it has enough bits for the value.
fn can_hold(plan: &Plan, variable: usize, value: u64) -> bool
    requires { IsUsable plan.now }
    ensures { result ≡ holds_value value (slice_get plan.now.variables variable) }
{
    if variable >= plan.variables().len() {
        return false;
    }
    let place = plan.variables()[variable];
    match place.direction {
        Direction::Out => is_short(value, place.bits),
        Direction::In => false,
    }
}

/// Forgets what came back of each part.
fn forget(kept: &mut [Returned])
    ensures { (k : ℕ) → k < length kept.new → get_or kept.new k None ≡ None }
{
    for part in kept.iter_mut() {
        part.forget();
    }
}

/// Writes the number of a cycle and the outputs of an image into the frame of each part.
fn make_frames(
    plan: &Plan,
    runs: &[Listed<BitRun>],
    number: u64,
    image: &[u8],
    frames: &mut [SentFrame],
)
    requires usable { IsUsable plan.now }
    requires count { length runs.now ≡ length plan.now.parts }
    requires runs { (k : ℕ) → k < length plan.now.parts → get_or runs.now k [] ≡ output_runs plan.now k }
    requires image { length image.now ≡ bytes_of_bits plan.now.out_bits }
    requires few { plan.now.out_bits < 2 ^ 64 }
    requires frames { length frames.old ≡ length plan.now.parts }
    requires made { (k : ℕ) → k < length plan.now.parts → IsMade plan.now k (get_or frames.old k []) }
    ensures spelled { (k : ℕ) → k < length plan.now.parts → IsFrame (get_or frames.new k []) (bare_payload (sent_datagrams plan.now number k image.now)) }
    ensures made { (k : ℕ) → k < length plan.now.parts → IsMade plan.now k (get_or frames.new k []) }
{
    for part in 0..frames.len() {
        frames[part].renew(plan, part, runs[part].as_slice(), number, image);
    }
}

/// How many parts are not kept.
#[tactic(auto, using(crate::proofs::UnitLoops::missing_steps))]
fn missing_of(kept: &[Returned]) -> usize
    requires { length kept.now ≤ 32 }
    ensures value { result ≡ nones kept.now }
    ensures few { result ≤ 32 }
{
    let mut missing = 0;
    for part in kept {
        if !part.is_back() {
            missing += 1;
        }
    }
    missing
}

/// One frame for each part, with the outputs of an image; `begin` gives them their number.
fn frames_of(
    alloc: Global,
    plan: &Plan,
    runs: &[Listed<BitRun>],
    image: &[u8],
) -> Result<Vec<SentFrame>, AllocError>
    requires usable { IsUsable plan.now }
    requires count { length runs.now ≡ length plan.now.parts }
    requires runs { (k : ℕ) → k < length plan.now.parts → get_or runs.now k [] ≡ output_runs plan.now k }
    requires image { length image.now ≡ bytes_of_bits plan.now.out_bits }
    requires few { plan.now.out_bits < 2 ^ 64 }
    ensures count { IfOk result (λ v. length v.items ≡ length plan.now.parts) }
    ensures made { IfOk result (λ v. (k : ℕ) → k < length plan.now.parts → IsMade plan.now k (get_or v.items k [])) }
{
    let mut frames = Vec::new(alloc);
    for part in 0..plan.parts().len() {
        let frame = frame_for(plan, part, runs[part].as_slice(), 0, image);
        frames.push(SentFrame::new(frame))?;
    }
    Ok(frames)
}

/// The frame of a part, with the outputs of an image.
fn frame_for(plan: &Plan, part: usize, runs: &[BitRun], number: u64, image: &[u8]) -> Frame
    requires usable { IsUsable plan.now }
    requires there { part < length plan.now.parts }
    requires runs { runs.now ≡ output_runs plan.now part }
    requires image { length image.now ≡ bytes_of_bits plan.now.out_bits }
    requires few { plan.now.out_bits < 2 ^ 64 }
    ensures spelled { IsFrame result.items (bare_payload (sent_datagrams plan.now number part image.now)) }
    ensures made { IsMade plan.now part result.items }
{
    let place = plan.parts()[part];
    let mut room = blank();
    let sent = &mut room[..place.bytes];
    fill(plan, part, runs, image, sent);
    build(&place, number, part, sent)
}

/// Room for the process data of a part, all 0.
fn blank() -> [u8; MAX_PART_BYTES]
    ensures { result ≡ zeros 1422 }
{
    [0; MAX_PART_BYTES]
}

/// Room for what comes back of `count` parts; nothing did yet.
fn nothing_returned(alloc: Global, count: usize) -> Result<Vec<Returned>, AllocError>
    ensures { IfOk result (λ v. length v.items ≡ count) }
{
    let mut kept = Vec::new(alloc);
    for n in 0..count {
        kept.push(Returned::new())?;
    }
    Ok(kept)
}

/// The predicted counters of each part.
fn counters_of(alloc: Global, plan: &Plan) -> Result<Listed<ExpectedCounters>, AllocError>
    ensures count { IfOk result (λ ps. length ps ≡ length plan.now.parts) }
    ensures each { IfOk result (λ ps. (k : ℕ) (d : ExpectedCounters) → k < length plan.now.parts → get_or ps k d ≡ predicted plan.now k) }
{
    let mut expected = Listed::new(alloc);
    for part in 0..plan.parts().len() {
        expected.push(plan.predicted(part))?;
    }
    Ok(expected)
}

/// An image of this many bits, in whole bytes, all 0.
fn image_of(alloc: Global, bits: usize) -> Result<Vec<u8>, AllocError>
    ensures { IfOk result (λ v. v.items ≡ zeros (bytes_of_bits bits)) }
{
    vec![in alloc; 0; bits / 8 + (bits % 8 + 7) / 8]
}

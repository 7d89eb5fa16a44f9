//! The frame of a part. It is made once, and renewed in each cycle: it gets another number and other outputs.
ghost use Rattle.std.specs.Prelude.{◌≡◌, ◌^◌, ◌<◌, ◌∷◌, ℕ, Bool, List, length};
ghost use Rattle.std.specs.List.{AllByRecursion};
ghost use Rattle.ec_bits.specs.Bits.{bytes_of_bits, zeros};
ghost use Rattle.ec_frame.specs.Building.{bare_payload};
ghost use Rattle.ec_frame.specs.Frame.{IsFrame};
ghost use Rattle.ec_link.specs.Plan.{part_at};
ghost use Rattle.ec_link.specs.Usable.{IsUsable};
ghost use Rattle.ec_cycle.specs.Copies.{FitsRun, output_runs, runs_copied};
ghost use Rattle.ec_cycle.specs.Frames.{process_bytes, sent_datagrams};
ghost use Rattle.ec_cycle.specs.MasterFields.{IsMade};
ghost use Rattle.ec_cycle.specs.Renewing.{front_bytes, process_spelled};

use crate::run::BitRun;
use ec_bits::copy_by_words;
use ec_frame::field::{FRAME_HEADER_LEN, HEADER_LEN, INDEX, NAME_LEN, OVERHEAD};
use ec_frame::{Frame, FrameName, index_of};
use ec_link::{PartPlan, Plan};
use std::marker::Model;

/// The offset in bytes of the datagram that names a frame.
const NAME: usize = FRAME_HEADER_LEN;
/// The offset in bytes of the broadcast, behind the name.
const STATUS: usize = NAME + OVERHEAD + NAME_LEN;
/// The offset in bytes of the process datagrams, behind the two bytes of the AL status.
const PROCESS: usize = STATUS + OVERHEAD + 2;

/// The frame of a part, as it was sent.
#[derive(Drop)]
pub struct SentFrame {
    frame: Frame,
}

impl Model for SentFrame {
    ghost use Rattle.std.specs.Prelude.{ℕ, List};

    ghost Value = { List ℕ };

    ghost view = { λ s. s.frame.items };
}

impl SentFrame {
    pub fn new(frame: Frame) -> SentFrame
        ensures { result ≡ frame.items }
    {
        SentFrame { frame }
    }

    pub fn bytes(&self) -> &[u8]
        ensures { result.now ≡ self.now }
    {
        self.frame.as_slice()
    }

    /// Writes the number of a cycle and the outputs of an image into the frame.
    pub fn renew(&mut self, plan: &Plan, part: usize, runs: &[BitRun], number: u64, image: &[u8])
        requires usable { IsUsable plan.now }
        requires there { part < length plan.now.parts }
        requires runs { runs.now ≡ output_runs plan.now part }
        requires image { length image.now ≡ bytes_of_bits plan.now.out_bits }
        requires few { plan.now.out_bits < 2 ^ 64 }
        requires made { IsMade plan.now part self.old }
        ensures spelled { IsFrame self.new (bare_payload (sent_datagrams plan.now number part image.now)) }
        ensures made { IsMade plan.now part self.new }
    {
        renew(self.frame.as_mut_slice(), plan, part, runs, number, image);
    }
}

/// Writes the process data of a part, for an image of the outputs, into `sent`, which is zeros.
#[tactic(auto, using(crate::proofs::Runs::fill_steps))]
pub fn fill(plan: &Plan, part: usize, runs: &[BitRun], image: &[u8], sent: &mut [u8])
    requires usable { IsUsable plan.now }
    requires runs { runs.now ≡ output_runs plan.now part }
    requires image { length image.now ≡ bytes_of_bits plan.now.out_bits }
    requires few { plan.now.out_bits < 2 ^ 64 }
    requires blank { sent.old ≡ zeros (part_at plan.now.parts part).bytes }
    ensures { sent.new ≡ process_bytes plan.now part image.now }
{
    copy_runs(sent, image, runs);
}

/// Writes the number of a cycle and the outputs of an image into the frame of a part.
pub fn renew(frame: &mut [u8], plan: &Plan, part: usize, runs: &[BitRun], number: u64, image: &[u8])
    requires usable { IsUsable plan.now }
    requires there { part < length plan.now.parts }
    requires runs { runs.now ≡ output_runs plan.now part }
    requires image { length image.now ≡ bytes_of_bits plan.now.out_bits }
    requires few { plan.now.out_bits < 2 ^ 64 }
    requires made { IsMade plan.now part frame.old }
    ensures { IsFrame frame.new (bare_payload (sent_datagrams plan.now number part image.now)) }
{
    let part_plan = plan.parts()[part];
    let (front, process) = frame.split_at_mut(PROCESS);
    renumber(front, number);
    renumber_process(process, &part_plan, number);
    refill(process, plan, part, runs, image);
}

/// Writes the number of a cycle into the process datagrams of a part.
fn renumber_process(process: &mut [u8], part: &PartPlan, number: u64)
    requires { (n : ℕ) × (s : List ℕ) × (length s ≡ part.now.bytes) × (process.old ≡ process_spelled part.now n s) }
    ensures { (n : ℕ) (s : List ℕ) → length s ≡ part.now.bytes → process.old ≡ process_spelled part.now n s → process.new ≡ process_spelled part.now number s }
{
    if part.bytes == 0 {
        return;
    }
    let index = index_of(number);
    process[INDEX] = index;
    if part.split {
        process[OVERHEAD + part.bytes + INDEX] = index;
    }
}

/// Writes the number of a cycle into the first two datagrams of a frame. `front` has the frame's header and these two.
fn renumber(front: &mut [u8], number: u64)
    requires { length front.old ≡ 38 }
    ensures { (a b : ℕ) (more : Bool) (n k : ℕ) → front.old ≡ a ∷ b ∷ front_bytes more n k → front.new ≡ a ∷ b ∷ front_bytes more number k }
{
    let index = index_of(number);
    front[NAME + INDEX] = index;
    FrameName::renumber(
        &mut front[NAME + HEADER_LEN..NAME + HEADER_LEN + NAME_LEN],
        number,
    );
    front[STATUS + INDEX] = index;
}

/// Writes the outputs of an image into the process datagrams of a part.
fn refill(process: &mut [u8], plan: &Plan, part: usize, runs: &[BitRun], image: &[u8])
    requires usable { IsUsable plan.now }
    requires there { part < length plan.now.parts }
    requires runs { runs.now ≡ output_runs plan.now part }
    requires image { length image.now ≡ bytes_of_bits plan.now.out_bits }
    requires few { plan.now.out_bits < 2 ^ 64 }
    requires made { (n : ℕ) × (was : List ℕ) × (process.old ≡ process_spelled (part_at plan.now.parts part) n (process_bytes plan.now part was)) }
    ensures { (n : ℕ) (was : List ℕ) → process.old ≡ process_spelled (part_at plan.now.parts part) n (process_bytes plan.now part was)
        → process.new ≡ process_spelled (part_at plan.now.parts part) n (process_bytes plan.now part image.now) }
{
    let bytes = plan.parts()[part].bytes;
    if bytes == 0 {
        return;
    }
    let sent = &mut process[HEADER_LEN..HEADER_LEN + bytes];
    refresh(plan, part, runs, image, sent);
}

/// Writes the outputs of an image over those of another image. Bits that aren't linked are 0, and stay so.
#[tactic(auto, using(crate::proofs::Runs::refresh_steps))]
fn refresh(plan: &Plan, part: usize, runs: &[BitRun], image: &[u8], sent: &mut [u8])
    requires usable { IsUsable plan.now }
    requires runs { runs.now ≡ output_runs plan.now part }
    requires image { length image.now ≡ bytes_of_bits plan.now.out_bits }
    requires few { plan.now.out_bits < 2 ^ 64 }
    requires made { (was : List ℕ) × (sent.old ≡ process_bytes plan.now part was) }
    ensures { sent.new ≡ process_bytes plan.now part image.now }
{
    copy_runs(sent, image, runs);
}

/// Copies run after run from `src` to `dst`.
#[tactic(auto, using(crate::proofs::Runs::copy_steps))]
fn copy_runs(dst: &mut [u8], src: &[u8], runs: &[BitRun])
    requires { AllByRecursion (FitsRun (length dst.old) (length src.now)) runs.now }
    ensures { dst.new ≡ runs_copied src.now runs.now dst.old }
{
    for run in runs {
        copy_by_words(dst, run.to, src, run.from, run.count);
    }
}

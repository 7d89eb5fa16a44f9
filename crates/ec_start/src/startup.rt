//! A start-up as it runs.

ghost use Rattle.std.specs.Prelude.{◌≡◌, ◌≢◌, ◌<◌, ◌≤◌, ◌+◌, length, true, false, ◌↔◌, All, IsTrue};
ghost use Rattle.ec_bits.specs.Bits.{zeros};
ghost use Rattle.ec_frame.specs.Building.{bare_payload};
ghost use Rattle.ec_frame.specs.Frame.{IsFrame};
ghost use Rattle.ec_start.specs.declared.verdict.Verdict.TheVariants.{Again, Fed};
ghost use Rattle.ec_start.specs.HeldPlans.{plan_in};
ghost use Rattle.ec_start.specs.declared.phase.NextFrame.TheVariants.{Send};
ghost use Rattle.ec_start.specs.Actions.{datagram_of, frame_of};
ghost use Rattle.ec_start.specs.Planned.{HasFewAssigned};
ghost use Rattle.ec_start.specs.Doable.{IsDoable};
ghost use Rattle.ec_start.specs.Feeding.{feeds_of};
ghost use Rattle.ec_start.specs.Running.{begun, action_of, has_failed, is_ended, asked, next_frame, IsStartTaken, is_accepted, advanced, judged, given_up, restarted, outcome_of, is_sent, with_identity};

use crate::action::{Action, MAX_DATA};
use crate::answer::answer_in;
use crate::aside::Heard;
use crate::error::StartError;
use crate::feeding::{feed_at, is_fed};
use crate::held::HeldPlan;
use crate::phase::{NextFrame, Phase, Taken};
use crate::script::{Step, first_step};
use crate::verdict::{Verdict, nothing_read, verdict_on, with_word};
use ec_device::Device;
use ec_frame::{Command, Frame, FrameName, Sent, index_of, read_counter, read_data, write_pair};
use ec_link::{Plan, SlavePlan};
use std::marker::Model;

/// Enough bytes for the data of each datagram without `hardware` that is no mailbox message.
const SHORT_DATA: usize = 64;

/// Enough bytes for most mailboxes, and for the clears with `hardware`.
const USUAL_DATA: usize = 256;

/// How often a wait is polled at most.
const MAX_POLLS: u16 = 1000;

/// A start-up of a segment by init commands (ETG.1000.6, "AL state machine"), one frame at a time. `next` writes a frame, which
/// is outstanding until `take` accepts its answer. The start-up ends Ready, with all slaves in OP, or with a failure.
#[derive(Drop)]
pub struct Startup<'p> {
    held: HeldPlan<'p>,
    next: u64,
    place: usize,
    // how many parts were fed before the frame of this place that comes next
    fed: usize,
    polls: u16,
    seen: Device,
    // the message that was set aside last
    heard: Option<Heard>,
    phase: Phase,
    // the step of the script that it is at; the script itself is not stored
    step: Step,
}

impl<'p> Model for Startup<'p> {
    ghost use Rattle.ec_start.specs.Running.{StartState};
    ghost use Rattle.ec_start.specs.Held.{IsHeld};
    ghost use Rattle.ec_start.specs.HeldPlans.{plan_in};
    ghost use Rattle.ec_start.specs.Feeding.{feeds_of};

    ghost Value = { StartState };

    ghost view = { λ s. record {
      plan = (plan_in s.held).slaves;
      feeds = feeds_of (plan_in s.held);
      next = s.next;
      place = s.place;
      fed = s.fed;
      polls = s.polls;
      seen = s.seen;
      heard = s.heard;
      phase = s.phase;
    } };

    ghost invariant = { λ s. IsHeld (plan_in s.held).slaves s.next s.place s.fed s.polls s.phase s.step };
}

impl<'p> Startup<'p> {
    /// Whether `new` takes a plan: at most 255 PDOs are assigned in a direction. It takes each plan of the link compiler.
    pub fn can_start(plan: &Plan) -> bool
        ensures { IsTrue result ↔ All HasFewAssigned plan.now.slaves }
    {
        plan.slaves()
            .iter()
            .all(|settings| has_few_assigned(settings))
    }

    /// A start-up of a plan. Its first frame has the number `from_number`. Neither this nor any later call takes memory.
    pub fn new(plan: &'p Plan, from_number: u64) -> Startup<'p>
        requires { All HasFewAssigned plan.now.slaves }
        ensures begun { result ≡ begun plan.now.slaves (feeds_of plan.now) from_number }
        ensures plan { result.plan ≡ plan.now.slaves }
        ensures unsent { is_sent result.phase ≡ false }
    {
        Startup::of(HeldPlan::Lent(plan), from_number)
    }

    /// As [`new`](Startup::new), of a plan that is lent or shared.
    #[tactic(auto, unfolding(crate::specs::Running::begun))]
    pub fn of(plan: HeldPlan<'p>, from_number: u64) -> Startup<'p>
        requires { All HasFewAssigned (plan_in plan).slaves }
        ensures begun { result ≡ begun (plan_in plan.entry).slaves (feeds_of (plan_in plan.entry)) from_number }
        ensures plan { result.plan ≡ (plan_in plan.entry).slaves }
        ensures unsent { is_sent result.phase ≡ false }
    {
        Startup {
            held: plan,
            next: from_number,
            place: 0,
            fed: 0,
            polls: 0,
            seen: nothing_read(),
            heard: None,
            phase: Phase::Idle,
            step: first_step(),
        }
    }

    /// How far it is.
    pub fn phase(&self) -> Phase
        ensures { result ≡ self.now.phase }
    {
        self.phase
    }

    /// Whether it failed. It may then be begun again by `restart`.
    pub fn has_failed(&self) -> bool
        ensures { result ≡ has_failed self.now.phase }
    {
        match self.phase {
            Phase::Failed(_) => true,
            _ => false,
        }
    }

    /// How it ended; none while it runs.
    pub fn outcome(&self) -> Option<Result<(), StartError>>
        ensures { result ≡ outcome_of self.now.phase }
    {
        match self.phase {
            Phase::Idle | Phase::Sent(_) => None,
            Phase::Ready => Some(Ok(())),
            Phase::Failed(error) => Some(Err(error)),
        }
    }

    /// The number of the step that it is at, counted from 0 in the order of the script. If it has failed, it failed there.
    pub fn place(&self) -> usize
        ensures { result ≡ self.now.place }
    {
        self.place
    }

    /// The message that was set aside last in this start-up; none if none was. Only slaves of a table with `hardware` may send one.
    pub fn heard(&self) -> Option<Heard>
        ensures { result ≡ self.now.heard }
    {
        self.heard
    }

    /// The number of the next frame: one more than the last that was sent.
    pub fn next_number(&self) -> u64
        ensures { result ≡ self.now.next }
    {
        self.next
    }

    /// Writes the next frame in place of what was in `frame`. Returns `Waiting` if the last frame is outstanding, and `Ended` if
    /// the start-up has ended, or ends now because no number is left; `frame` stays as it was then.
    pub fn next(&mut self, frame: &mut Frame) -> NextFrame
        ensures answer { result ≡ next_frame self.old }
        ensures state { self.new ≡ asked self.old }
        ensures written { result ≡ Send → IsFrame frame.new.items (bare_payload (frame_of (action_of self.old) self.old.next)) }
        ensures unchanged { result ≢ Send → frame.new ≡ frame.old }
    {
        match self.phase {
            Phase::Sent(_) => return NextFrame::Waiting,
            Phase::Ready | Phase::Failed(_) => return NextFrame::Ended,
            Phase::Idle => {}
        }
        if self.next == u64::MAX {
            self.phase = Phase::Failed(StartError::NumbersSpent);
            return NextFrame::Ended;
        }
        write_frame(&self.action(), self.next, frame);
        self.phase = Phase::Sent(self.next);
        self.next += 1;
        NextFrame::Send
    }

    /// Takes a payload that came in. It is accepted if it answers the outstanding frame: the commands, the indices, the lengths,
    /// the order and the number are those of the frame. Its second datagram then decides: the next step, one more poll, or the
    /// end. Any other payload is foreign, and changes nothing.
    pub fn take(&mut self, payload: &[u8]) -> Taken
        ensures { IsStartTaken self.old payload.now (is_accepted result) self.new }
    {
        let Phase::Sent(number) = self.phase else {
            return Taken::Foreign;
        };
        let action = self.action();
        let Some(answer) = answer_in(payload, &action, number) else {
            return Taken::Foreign;
        };
        let verdict = verdict_on(
            self.held.plan().slaves(),
            self.place,
            self.seen,
            &action,
            read_counter(answer),
            read_data(answer),
        );
        self.judge(verdict);
        Taken::Accepted
    }

    /// Ends a start-up that runs, as `Lost`. One that has ended stays as it is.
    pub fn give_up(&mut self)
        ensures { self.new ≡ given_up self.old }
    {
        match self.phase {
            Phase::Idle | Phase::Sent(_) => self.phase = Phase::Failed(StartError::Lost),
            Phase::Ready | Phase::Failed(_) => {}
        }
    }

    /// Begins again after a failure, with the next number.
    pub fn restart(&mut self)
        requires { has_failed self.old.phase ≡ true }
        ensures { self.new ≡ restarted self.old }
    {
        self.begin_again(self.next);
    }

    /// Begins again from any phase. The next frame has the number `from_number`; an answer to an earlier frame is no longer awaited.
    #[tactic(auto, unfolding(crate::specs::Running::begun))]
    pub fn begin_again(&mut self, from_number: u64)
        ensures { self.new ≡ begun self.old.plan self.old.feeds from_number }
    {
        self.next = from_number;
        self.place = 0;
        self.fed = 0;
        self.polls = 0;
        self.seen = nothing_read();
        self.heard = None;
        self.phase = Phase::Idle;
        self.step = first_step();
    }

    /// What the next frame does, or the outstanding one: it feeds a part before the step asks for OP or looks for it, or else is the
    /// step's own.
    fn action(&self) -> Action
        requires { is_ended self.now.phase ≡ false }
        ensures value { result ≡ action_of self.now }
        ensures doable { IsDoable result }
    {
        if !is_fed(&self.step.action) {
            return self.step.action;
        }
        match feed_at(self.held.plan(), self.fed) {
            Some(feed) => Action::FeedPart(feed),
            None => self.step.action,
        }
    }

    /// Follows the verdict on the outstanding frame's answer.
    fn judge(&mut self, verdict: Verdict)
        requires { is_sent self.old.phase ≡ true }
        ensures { self.new ≡ judged self.old verdict }
    {
        match verdict {
            Verdict::Next => self.advance(self.seen),
            Verdict::Word(value) => self.advance(self.with_identity(value)),
            Verdict::Fed => self.feed_next(),
            Verdict::Again => self.poll(),
            Verdict::Aside(heard) => {
                self.heard = Some(heard);
                self.poll();
            }
            Verdict::Fails(error) => self.phase = Phase::Failed(error),
        }
    }

    /// The identity that was read so far, with the word that was read now.
    fn with_identity(&self, value: u32) -> Device
        requires { is_sent self.now.phase ≡ true }
        ensures { result ≡ with_identity self.now (action_of self.now) value }
    {
        match self.step.action {
            Action::AwaitWord { which, .. } => with_word(self.seen, which, value),
            _ => self.seen,
        }
    }

    /// Goes on behind a part that was fed: to the next part, or to the step's own frame.
    fn feed_next(&mut self)
        requires { is_sent self.old.phase ≡ true }
        ensures { self.new ≡ judged self.old Fed }
    {
        self.fed += 1;
        self.phase = Phase::Idle;
    }

    /// Polls a wait once more; it fails as `TooSlow` after `MAX_POLLS` polls.
    fn poll(&mut self)
        requires { is_sent self.old.phase ≡ true }
        ensures { self.new ≡ judged self.old Again }
    {
        if self.polls + 1 == MAX_POLLS {
            self.phase = Phase::Failed(StartError::TooSlow { step: self.place });
        } else {
            self.polls += 1;
            self.fed = 0;
            self.phase = Phase::Idle;
        }
    }

    /// Goes to the next step of the script, or becomes Ready behind the last.
    fn advance(&mut self, seen: Device)
        requires { is_sent self.old.phase ≡ true }
        ensures { self.new ≡ advanced self.old seen }
    {
        self.place += 1;
        self.fed = 0;
        self.polls = 0;
        self.seen = seen;
        let mut cursor = self.step.cursor;
        cursor.place += 1;
        match cursor.settle(self.held.plan().slaves()) {
            Some(step) => {
                self.step = step;
                self.phase = Phase::Idle;
            }
            None => self.phase = Phase::Ready,
        }
    }
}

/// Writes the frame of an action with a number in place of what was in `frame`. It picks the least of three buffers that is long
/// enough.
pub fn write_frame(action: &Action, number: u64, frame: &mut Frame)
    requires { IsDoable action.now }
    ensures { IsFrame frame.new.items (bare_payload (frame_of action.now number)) }
{
    let count = action.data_length();
    if count <= SHORT_DATA {
        write_through(&mut [0; SHORT_DATA], action, number, frame);
    } else if count <= USUAL_DATA {
        write_usual(action, number, frame);
    } else {
        write_long(action, number, frame);
    }
}

/// As [`write_through`], with the longest buffer, which a mailbox message or a part may need.
#[inline(never)]
fn write_long(action: &Action, number: u64, frame: &mut Frame)
    requires doable { IsDoable action.now }
    requires room { length (datagram_of action.now 0).data_bytes ≤ 1422 }
    ensures { IsFrame frame.new.items (bare_payload (frame_of action.now number)) }
{
    write_through(&mut [0; MAX_DATA], action, number, frame);
}

/// As [`write_through`], with a buffer that has room for a usual mailbox and for the clears.
#[inline(never)]
fn write_usual(action: &Action, number: u64, frame: &mut Frame)
    requires doable { IsDoable action.now }
    requires room { length (datagram_of action.now 0).data_bytes ≤ 256 }
    ensures { IsFrame frame.new.items (bare_payload (frame_of action.now number)) }
{
    write_through(&mut [0; USUAL_DATA], action, number, frame);
}

/// Writes the frame of an action with a number: the datagram that names the frame, and the action's. `buffer` has zeros,
/// and takes the action's data.
fn write_through(buffer: &mut [u8], action: &Action, number: u64, frame: &mut Frame)
    requires doable { IsDoable action.now }
    requires zeroed { buffer.old ≡ zeros (length buffer.old) }
    requires room { length (datagram_of action.now 0).data_bytes ≤ length buffer.old }
    ensures { IsFrame frame.new.items (bare_payload (frame_of action.now number)) }
{
    let index = index_of(number);
    let name = FrameName { number, part: 0 }.bytes();
    let data = &mut buffer[..action.data_length()];
    action.write_data(data);
    let naming = Sent {
        command: Command::Nop,
        index,
        address: 0,
        content: &name,
    };
    let asking = Sent {
        command: action.command(),
        index,
        address: action.address(),
        content: data,
    };
    write_pair(frame, naming, asking);
}

/// Whether each slot of a slave's assignments has a subindex that fits one byte.
fn has_few_assigned(settings: &SlavePlan) -> bool
    ensures { IsTrue result ↔ HasFewAssigned settings.now }
{
    settings.outputs.len() < 256 && settings.inputs.len() < 256
}

//! A start-up over a ring of slaves.

ghost use Rattle.std.specs.Prelude.{◌≡◌, ◌≢◌, ◌≤◌, ◌+◌, ◌↔◌, false, true, ℕ, IsTrue, List, map};
ghost use Rattle.ec_link.specs.declared.settings.SlavePlan.{SlavePlan};
ghost use Rattle.ec_slave.specs.Serving.{served};
ghost use Rattle.ec_start.specs.declared.error.StartError.TheVariants.{Lost};
ghost use Rattle.ec_start.specs.declared.phase.NextFrame.TheVariants.{Send};
ghost use Rattle.ec_start.specs.declared.phase.Phase.TheVariants.{Failed, Idle};
ghost use Rattle.ec_start.specs.Running.{asked, begun, is_ended, is_sent, last_number, next_frame};
ghost use Rattle.ec_start.specs.declared.action.Feed.{Feed};
ghost use Rattle.ec_bringup.specs.BringUp.{rising, IsBroughtTo};
ghost use Rattle.ec_bringup.specs.ComesUp.{AllAgree, IsUpAndWorks};
ghost use Rattle.ec_bringup.specs.Counting.{frames_up};
ghost use Rattle.ec_bringup.specs.Undisturbed.{ArePlansWith, AreDevices, turned};

use ec_frame::Frame;
use ec_ring::Ring;
use ec_start::{NextFrame, Startup};

/// Brings the slaves of a ring up. In each turn the next frame of the start-up passes all slaves, each slave serves once, and
/// the frame is taken back, until the start-up has ended. It always ends, and is never given up. A new start-up of a plan of the
/// link compiler ends Ready over devices of the plan's types, whatever state they are in, if the types' parameters agree with what
/// the plan assigns. It takes exactly `frames_up` frames: one for each action of its script, and with `hardware` one for each part
/// before each that asks for OP or looks for it, and further polls of slow slaves. Then every slave works as planned.
///
/// No frame of the start-up may be outstanding.
pub fn bring_up(startup: &mut Startup<'_>, ring: &mut Ring)
    requires { is_sent startup.old.phase ≡ false }
    ensures steps { IsBroughtTo (rising startup.old ring.old) (rising startup.new ring.new) }
    ensures plan { startup.new.plan ≡ startup.old.plan }
    ensures ended { is_ended startup.new.phase ≡ true }
    ensures not_given_up { startup.old.phase ≡ Idle → startup.new.phase ≢ Failed Lost }
    ensures up { (ps : List SlavePlan) (fs : List Feed) (from : ℕ) → ArePlansWith ps fs → AllAgree ps → startup.old ≡ begun ps fs from → AreDevices ps ring.old
        → from + frames_up ps fs ring.old ≤ last_number → IsUpAndWorks ps (from + frames_up ps fs ring.old) (rising startup.new ring.new) }
{
    make_turns(startup, ring)
}

/// Makes turns until there is no next frame.
fn make_turns(startup: &mut Startup<'_>, ring: &mut Ring)
    requires { is_sent startup.old.phase ≡ false }
    ensures { IsBroughtTo (rising startup.old ring.old) (rising startup.new ring.new) }
{
    let mut frame = Frame::new();
    // each turn takes a number
    for _ in startup.next_number()..u64::MAX {
        if !turn(startup, ring, &mut frame) {
            return;
        }
    }
    turn(startup, ring, &mut frame);
}

/// One turn: writes the next frame, passes it through all slaves, makes a firmware step of each, and takes it back. Returns
/// whether there was a frame; if not, the ring stays as it was.
fn turn(startup: &mut Startup<'_>, ring: &mut Ring, frame: &mut Frame) -> bool
    requires { is_sent startup.old.phase ≡ false }
    ensures answer { IsTrue result ↔ (next_frame startup.old ≡ Send) }
    ensures made { IsTrue result → rising startup.new ring.new ≡ turned (rising startup.old ring.old) }
    ensures none { next_frame startup.old ≢ Send → startup.new ≡ asked startup.old }
    ensures ring_unchanged { next_frame startup.old ≢ Send → ring.new ≡ ring.old }
{
    match startup.next(frame) {
        NextFrame::Send => {}
        NextFrame::Waiting | NextFrame::Ended => return false,
    }
    let payload = frame.as_mut_slice();
    ring.pass_frame(payload);
    serve_all(ring);
    startup.take(payload);
    true
}

/// Makes a firmware step of each slave, in order.
fn serve_all(ring: &mut Ring)
    ensures { ring.new ≡ map served ring.old }
{
    for index in 0..ring.len() {
        ring.slave_mut(index).serve();
    }
}

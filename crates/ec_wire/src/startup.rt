//! A start-up over a wire.
ghost use Rattle.std.specs.Prelude.{◌≡◌, true, false};
ghost use Rattle.ec_start.specs.Running.{is_ended};
ghost use Rattle.ec_start.specs.Laws.{HasSamePlan};
ghost use Rattle.ec_wire.specs.BringingUp.{IsAnswered, IsBroughtUp, IsTurn, IsUnanswered};
ghost use Rattle.ec_wire.specs.ComingUp.{ComesUpOver};

use crate::pace::{Pace, Resting, Restless};
use crate::wire::{Wire, receive_on, send_on};
use ec_frame::Frame;
use ec_frame::field::MAX_FRAME_LEN;
use ec_start::{NextFrame, Startup, Taken};
use std::time::Clock;

/// The most payloads that are received for one frame of a start-up.
const MAX_FOREIGN: usize = 64;

/// Brings up the slaves that answer on a wire. Each turn sends the next frame and takes its answer, until the start-up has ended.
/// A fault of the wire, or 64 payloads in a row that don't answer a frame, ends it as lost.
///
/// If the wire carries each frame past all slaves and back, a new start-up of a compiled plan ends Ready over devices of its types.
/// Every slave then works as planned.
///
/// A start-up whose frame is outstanding ends as lost. It never rests: [`bring_up_resting`] is for wires to a segment elsewhere.
pub fn bring_up_wire<W: Wire>(startup: &mut Startup<'_>, wire: &mut W)
    ensures leads { IsBroughtUp startup.old (W.state wire.old) startup.new (W.state wire.new) }
    ensures up { ComesUpOver startup.old startup.new (W.state wire.old) (W.state wire.new) }
    ensures ended { is_ended startup.new.phase ≡ true }
    ensures plan { HasSamePlan startup.old startup.new }
{
    bring_up_paced(startup, wire, &mut Restless);
}

/// Brings up the slaves that answer on a wire as [`bring_up_wire`] does, and rests by a clock between two polls of one wait: not for the
/// first 10, then 1 ms up to the 100th, then 10 ms. A wait of 1000 polls takes about 9 seconds.
pub fn bring_up_resting<W: Wire, C: Clock>(startup: &mut Startup<'_>, wire: &mut W, clock: &C)
    ensures leads { IsBroughtUp startup.old (W.state wire.old) startup.new (W.state wire.new) }
    ensures up { ComesUpOver startup.old startup.new (W.state wire.old) (W.state wire.new) }
    ensures ended { is_ended startup.new.phase ≡ true }
    ensures plan { HasSamePlan startup.old startup.new }
{
    bring_up_paced(startup, wire, &mut Resting::new(clock));
}

/// Brings up the slaves that answer on a wire, at a pace.
fn bring_up_paced<W: Wire, P: Pace>(startup: &mut Startup<'_>, wire: &mut W, pace: &mut P)
    ensures leads { IsBroughtUp startup.old (W.state wire.old) startup.new (W.state wire.new) }
    ensures up { ComesUpOver startup.old startup.new (W.state wire.old) (W.state wire.new) }
    ensures ended { is_ended startup.new.phase ≡ true }
    ensures plan { HasSamePlan startup.old startup.new }
{
    let mut frame = Frame::new();
    // each turn takes a number
    for _ in startup.next_number()..u64::MAX {
        if !turn(startup, wire, pace, &mut frame) {
            return;
        }
    }
    turn(startup, wire, pace, &mut frame);
}

/// Makes one turn: sends the next frame and takes its answer. Returns whether the start-up goes on. It is given up if its frame isn't
/// answered.
fn turn<W: Wire, P: Pace>(
    startup: &mut Startup<'_>,
    wire: &mut W,
    pace: &mut P,
    frame: &mut Frame,
) -> bool
    ensures made { result ≡ true → IsTurn startup.old startup.new (W.state wire.old) (W.state wire.new) }
    ensures ended { result ≡ false → IsBroughtUp startup.old (W.state wire.old) startup.new (W.state wire.new) }
{
    match startup.next(frame) {
        NextFrame::Send => {
            pace.before(frame);
            if exchange(startup, wire, frame.as_slice()) {
                return true;
            }
            startup.give_up();
        }
        NextFrame::Waiting => startup.give_up(),
        NextFrame::Ended => {}
    }
    false
}

/// Sends a frame of the start-up and receives until it is answered. Returns whether it was; if not, the start-up stays as it was.
fn exchange<W: Wire>(startup: &mut Startup<'_>, wire: &mut W, frame: &[u8]) -> bool
    ensures answered { result ≡ true → IsAnswered startup.old startup.new frame.now (W.state wire.old) (W.state wire.new) }
    ensures unanswered { result ≡ false → IsUnanswered startup.old frame.now (W.state wire.old) (W.state wire.new) }
    ensures unchanged { result ≡ false → startup.new ≡ startup.old }
{
    let mut buffer = [0; MAX_FRAME_LEN];
    if !send_on(wire, frame) {
        return false;
    }
    for _ in 0..MAX_FOREIGN {
        let Some(count) = receive_on(wire, &mut buffer) else {
            return false;
        };
        match startup.take(&buffer[..count]) {
            Taken::Accepted => return true,
            Taken::Foreign => {}
        }
    }
    false
}

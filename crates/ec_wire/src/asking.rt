//! A question over a wire.
ghost use Rattle.ec_wire.specs.Asked.{Asks, Hears};
ghost use Rattle.ec_asking.specs.Questions.{IsAskable};

use crate::error::SocketFault;
use crate::lossy::MAX_HEARD;
use crate::wire::{Watch, Wire, listen_on, send_on};
use ec_asking::{AlStatus, Question, take_answer, write_question};
use ec_frame::Frame;
use ec_frame::field::MAX_FRAME_LEN;
use std::time::Clock;

/// Asks question number `count` over a wire, and returns what the slave says: none if no answer came before the wire's patience was over
/// by the clock, no slave answered, or the question isn't `Status`. Other payloads that come meanwhile are dropped.
///
/// # Errors
///
/// `SocketFault` exactly if a call of the wire was a fault.
pub fn ask<W: Wire, C: Clock>(
    wire: &mut W,
    clock: &C,
    question: Question,
    count: u16,
) -> Result<Option<AlStatus>, SocketFault>
    requires { IsAskable question }
    ensures { Asks question count (W.state wire.old) (W.state wire.new) result }
{
    let mut frame = Frame::new();
    write_question(question, count, &mut frame);
    if !send_on(wire, frame.as_slice()) {
        return Err(SocketFault(wire.trouble()));
    }
    hear_answer(wire, clock, question, count)
}

/// Receives payloads until one answers a question, the wire's patience is over, or the most payloads came.
fn hear_answer<W: Wire, C: Clock>(
    wire: &mut W,
    clock: &C,
    question: Question,
    count: u16,
) -> Result<Option<AlStatus>, SocketFault>
    ensures { Hears question count (W.state wire.old) (W.state wire.new) result }
{
    let mut buffer = [0; MAX_FRAME_LEN];
    let watch = Watch::start(clock);
    for _ in 0..MAX_HEARD {
        let heard = listen_on(wire, watch.waited(), &mut buffer)?;
        let Some(size) = heard else {
            return Ok(None);
        };
        if let Some(told) = take_answer(&buffer[..size], question, count) {
            return Ok(told);
        }
    }
    Ok(None)
}

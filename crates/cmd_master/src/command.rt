//! `ecat master`: lines that move the master of a machine over a socket or a card.
ghost use Rattle.std.specs.Prelude.{◌≡◌, [], IfOk, is_some};
ghost use Rattle.ec_wire.specs.Taps.{IsTraceOf};
ghost use Rattle.ec_console.specs.Coming.{reading_at};
ghost use Rattle.ec_console.specs.Given.{given_by};
ghost use Rattle.cmd_master.specs.Mastering.{RunsMachine, RunsOver};
ghost use Rattle.cmd_master.specs.Stages.{RunsTarget};
ghost use Rattle.cmd_master.specs.State.{MasteredState};

use crate::mastered::Mastered;
use ec_card::{CardWire, Sender};
use ec_console::{Capture, InputStream, Manner, OutputStream, Refusal, Target, end_of, run_input};
use ec_link::Machine;
use ec_wire::{CapturedWire, Patience, Side, SocketFault, Trouble, UdpWire, Wire};
use std::alloc::Global;
use std::fs::Files;
use std::io::{Read, Write};
use std::net::{Net, SocketAddrV4};
use std::time::Clock;

/// Where a master's frames go, how long it waits for an answer, in milliseconds, and how it takes lines.
#[derive(Clone, Copy, Drop)]
pub struct MasterOptions<'a> {
    /// The IPv4 address and the UDP port of a segment, such as `127.0.0.1:34980`.
    pub to: &'a str,
    /// The descriptor of a card's raw socket; it replaces the address.
    pub descriptor: Option<u16>,
    pub patience: u16,
    pub manner: Manner,
}

/// Runs the lines of an input with a new master of a machine over a socket or a card. The text of a line is printed before the next
/// is read, and with reasons also why it is bad, can't be done or has failed. What the master sends and receives goes into an open
/// capture, if there is one.
///
/// # Errors
///
/// `Refusal::Socket` if there is no such socket, also if `to` is no address with a port. `Refusal::Memory`, `Refusal::Input` or
/// `Refusal::Output` if memory, a read or a write was refused. `Refusal::Unmet` if what lines expect isn't so.
pub fn run_connected<H: AllocGlobal + Net + Files + Clock, R: Read + Drop, O: Write + Drop>(
    rt: &H,
    machine: Machine,
    options: MasterOptions<'_>,
    capture: &mut Capture<H::File>,
    input: &mut InputStream<R>,
    output: &mut OutputStream<O>,
) -> Result<(), Refusal>
    ensures runs { RunsMachine options.entry.manner machine (given_by R.remaining input.old input.new) output.old output.new result }
    ensures still_open { is_some capture.new ≡ is_some capture.old }
{
    match options.descriptor {
        None => {
            let wire = connect(rt, options.to, options.patience)?;
            let mastered = Mastered::new(rt.alloc(), rt, machine, wire, options.manner)?;
            run_tapped(rt, mastered, capture, input, output)
        }
        Some(descriptor) => {
            let patience = Patience::of_millis(options.patience);
            let wire = CardWire::of_descriptor(i32::from(descriptor), Sender::Master, patience)?;
            let mastered = Mastered::new(rt.alloc(), rt, machine, wire, options.manner)?;
            run_tapped(rt, mastered, capture, input, output)
        }
    }
}

/// A socket that is connected to the segment at an address with a port, and waits so many milliseconds for an answer.
pub fn connect<R: Net>(rt: &R, to: &str, patience: u16) -> Result<UdpWire, SocketFault>
    ensures { IfOk result (λ w. w.failed ≡ 0) }
{
    match to.parse::<SocketAddrV4>() {
        Ok(peer) => UdpWire::connect_patient(rt, peer, patience),
        Err(_) => Err(SocketFault(Trouble::Unmade)),
    }
}

/// Runs the lines of an input with a master over a wire that has carried nothing yet. If there is a capture, it notes what the wire
/// carries.
fn run_tapped<H: AllocGlobal + Files + Clock, W: Wire + Drop, R: Read + Drop, O: Write + Drop>(
    rt: &H,
    mastered: Mastered<'_, W, H>,
    capture: &mut Capture<H::File>,
    input: &mut InputStream<R>,
    output: &mut OutputStream<O>,
) -> Result<(), Refusal>
    requires sent { IsTraceOf mastered.wire.sent [] }
    requires received { IsTraceOf mastered.wire.received [] }
    ensures runs { (last : MasteredState) × RunsOver mastered.entry.session.table mastered.entry last (given_by R.remaining input.old input.new)
        output.old output.new result }
    ensures still_open { is_some capture.new ≡ is_some capture.old }
{
    match capture.take() {
        None => {
            let mut mastered = mastered;
            run_all(rt.alloc(), &mut mastered, input, output)
        }
        Some(recording) => {
            let Mastered {
                session,
                wire,
                manner,
                states,
                told,
                clock,
            } = mastered;
            let mut tapped = Mastered {
                session,
                wire: CapturedWire::new(wire, recording, Side::Master, rt),
                manner,
                states,
                told,
                clock,
            };
            let ended = run_all(rt.alloc(), &mut tapped, input, output);
            let (_, recording) = tapped.wire.into_parts();
            *capture = Some(recording);
            ended
        }
    }
}

/// Runs the lines of an input, up to its end.
fn run_all<T: Target, R: Read + Drop, O: Write + Drop>(
    alloc: Global,
    target: &mut T,
    input: &mut InputStream<R>,
    output: &mut OutputStream<O>,
) -> Result<(), Refusal>
    ensures { RunsTarget T.says T.manner (reading_at T.takes (T.table target.old)) target.old target.new
        (given_by R.remaining input.old input.new) output.old output.new result }
{
    let unmet = run_input(alloc, target, input, output)?;
    end_of(unmet)
}

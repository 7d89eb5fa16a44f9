//! `ecat segment`: the slaves of a machine, on a socket or a card.
ghost use Rattle.std.specs.Prelude.{◌≡◌, [], IfErr, IfOk, is_some};
ghost use Rattle.std.specs.Net.Addr.{ipv4_octets};
ghost use Rattle.ec_wire.specs.Taps.{IsTraceOf};
ghost use Rattle.ec_console.specs.Printing.{PrintsText};
ghost use Rattle.ec_live.specs.Doing.{served_line};
ghost use Rattle.cmd_segment.specs.Serving.{ServedAll, ServedSome, ServesMachine, ServesSegment};

use crate::endpoint::Endpoint;
use crate::opened::SegmentWire;
use ec_bringup::slaves_of_machine;
use ec_console::{Capture, OutputStream, Refusal, print_text};
use ec_link::Machine;
use ec_live::served_text;
use ec_ring::Ring;
use ec_wire::{
    App, CapturedWire, Patience, Served, Side, SocketFault, Wire, serve_counted, serve_idle,
};
use std::fs::Files;
use std::io::Write;
use std::net::Net;
use std::time::Clock;

/// Serves `frames` payloads on a wire, with slaves whose application is `app`; without a number, until none comes with the wire's patience.
/// At its end, also after a fault of the wire, it prints how many frames it answered, and how many other payloads came.
///
/// # Errors
///
/// `Refusal::Socket` if a call of the wire was a fault, and `Refusal::Output` if the counts couldn't be printed.
#[tactic(auto, using(crate::proofs::SegmentLemmas::all_served, crate::proofs::SegmentLemmas::some_served, crate::proofs::SegmentLemmas::served_unprinted))]
pub fn print_served_segment<W: Wire, O: Write + Drop>(
    slaves: &mut Ring,
    app: &mut dyn App,
    wire: &mut W,
    frames: Option<u32>,
    output: &mut OutputStream<O>,
) -> Result<(), Refusal>
    ensures { ServesSegment frames (may_produce app.old) slaves.old slaves.new (W.state wire.old) (W.state wire.new)
        output.old output.new result }
{
    match serve_all(slaves, app, wire, frames) {
        Ok(counts) => print_served(counts, output),
        Err(counts) => {
            print_served(counts, output)?;
            Err(SocketFault(wire.trouble()).into())
        }
    }
}

/// Serves payloads on a port or a card, with the slaves of a machine, just switched on. Their application is `app`. Once it listens on
/// a port, it prints that on `faults`. Ethernet frames that a card sends have bit 1 of the source set. Once the wire is open, it prints
/// at every end how many frames it answered, and how many other payloads came. If no payload comes for `idle` seconds, it ends: as by a
/// fault of the socket if a number of payloads was to come. What the segment receives and sends goes into an open capture, if there is one.
///
/// # Errors
///
/// `Refusal::Memory` if there is no memory for the slaves, `Refusal::Socket` if there is no such socket, and the errors of
/// [`print_served_segment`].
pub fn run_segment<H: AllocGlobal + Net + Files + Clock, W: Write + Drop, F: Write + Drop>(
    rt: &H,
    machine: &Machine,
    endpoint: Endpoint,
    capture: &mut Capture<H::File>,
    output: &mut OutputStream<W>,
    faults: &mut OutputStream<F>,
    app: &mut dyn App,
) -> Result<(), Refusal>
    ensures serves { ServesMachine endpoint.descriptor (ipv4_octets endpoint.address) endpoint.port endpoint.frames machine.now
        output.old output.new faults.old faults.new result }
    ensures still_open { is_some capture.new ≡ is_some capture.old }
{
    let mut slaves = slaves_of_machine(rt.alloc(), machine)?;
    let patience = Patience::of_seconds(endpoint.idle);
    let wire = SegmentWire::open(rt, endpoint, patience, faults)?;
    serve_tapped(rt, &mut slaves, app, wire, endpoint.frames, capture, output)
}

/// Serves `frames` payloads on a wire, or, without a number, until none comes. Returns how many it answered, and how many it didn't.
///
/// # Errors
///
/// The counts until a call of the wire was a fault.
fn serve_all<W: Wire>(
    slaves: &mut Ring,
    app: &mut dyn App,
    wire: &mut W,
    frames: Option<u32>,
) -> Result<Served, Served>
    ensures all { IfOk result (λ s. ServedAll frames (may_produce app.old) slaves.old slaves.new (W.state wire.old) (W.state wire.new) s.answered s.refused) }
    ensures some { IfErr result (λ s. ServedSome frames (may_produce app.old) slaves.old slaves.new (W.state wire.old) (W.state wire.new) s.answered s.refused) }
{
    match frames {
        Some(frames) => serve_counted(slaves, app, wire, frames),
        None => serve_idle(slaves, app, wire),
    }
}

/// Prints how many payloads were answered, and how many weren't.
#[tactic(auto, using(ec_console::proofs::PrintLemmas::shown))]
fn print_served<W: Write + Drop>(
    counts: Served,
    output: &mut OutputStream<W>,
) -> Result<(), Refusal>
    ensures { PrintsText (served_line counts.answered counts.refused) output.old output.new result }
{
    let line = served_text(counts.answered, counts.refused);
    print_text(line.as_bytes(), output)
}

/// Serves payloads on a wire that has carried nothing yet, as [`print_served_segment`] does, and notes them in an open capture, if
/// there is one.
#[tactic(auto, using(crate::proofs::SegmentLemmas::tapped_serves))]
fn serve_tapped<H: AllocGlobal + Files + Clock, W: Wire + Drop, O: Write + Drop>(
    rt: &H,
    slaves: &mut Ring,
    app: &mut dyn App,
    wire: W,
    frames: Option<u32>,
    capture: &mut Capture<H::File>,
    output: &mut OutputStream<O>,
) -> Result<(), Refusal>
    requires sent { IsTraceOf (W.state wire).sent [] }
    requires received { IsTraceOf (W.state wire).received [] }
    ensures serves { (last : W) × ServesSegment frames (may_produce app.old) slaves.old slaves.new (W.state wire) (W.state last)
        output.old output.new result }
    ensures still_open { is_some capture.new ≡ is_some capture.old }
{
    match capture.take() {
        None => {
            let mut wire = wire;
            print_served_segment(slaves, app, &mut wire, frames, output)
        }
        Some(recording) => {
            let mut tapped = CapturedWire::new(wire, recording, Side::Segment, rt);
            let ended = print_served_segment(slaves, app, &mut tapped, frames, output);
            let (_, recording) = tapped.into_parts();
            *capture = Some(recording);
            ended
        }
    }
}

//! `ecat segment --live`: the slaves of a machine on a socket or a card, which lines move as the plant does.
ghost use Rattle.std.specs.Prelude.{◌≡◌, [], is_some};
ghost use Rattle.std.specs.Net.Addr.{ipv4_octets};
ghost use Rattle.ec_lines.specs.Inputs.{bytes_left};
ghost use Rattle.ec_wire.specs.Taps.{IsTraceOf};
ghost use Rattle.ec_console.specs.Given.{given_by};
ghost use Rattle.ec_live.specs.Living.{LivesOn, begun};
ghost use Rattle.ec_wire.specs.Wires.{silent};
ghost use Rattle.cmd_segment.specs.Opening.{state_of};
ghost use Rattle.cmd_segment.specs.Serving.{LivesMachine};

use crate::endpoint::Endpoint;
use crate::opened::SegmentWire;
use crate::watch::Watch;
use ec_console::{Capture, Console, InputStream, Manner, OutputStream, Refusal};
use ec_link::Machine;
use ec_live::{Live, Station, Watching, print_live, print_unserved};
use ec_wire::{CapturedWire, Patience, Side, Wire};
use std::fs::Files;
use std::io::{Read, Write};
use std::net::Net;
use std::time::{Clock, Duration};

/// How long a receive waits for a payload of which the system said that it has come, in milliseconds.
const PATIENCE: u16 = 1;

/// Serves payloads as [`run_segment`](crate::run_segment) does, with slaves that have no application, while it does the lines of an input
/// as they come. The text of a line is printed before the next thing is done, and, as `manner` says, also why it is bad or can't be done. The
/// end of the input changes nothing.
///
/// # Errors
///
/// `Refusal::Memory` if memory was refused, `Refusal::Socket` if there is no such socket, and the errors of [`print_live`].
pub fn run_plant<
    H: AllocGlobal + Net + Files + Clock,
    R: Read + Drop,
    W: Write + Drop,
    F: Write + Drop,
>(
    rt: &H,
    machine: &Machine,
    endpoint: Endpoint,
    manner: Manner,
    capture: &mut Capture<H::File>,
    console: &mut Console<R, W, F>,
) -> Result<(), Refusal>
    ensures lives { LivesMachine endpoint.descriptor (ipv4_octets endpoint.address) endpoint.port endpoint.frames manner machine.now
        (given_by R.remaining console.old.input console.new.input) console.old.output console.new.output
        console.old.faults console.new.faults result }
    ensures still_open { is_some capture.new ≡ is_some capture.old }
    ensures explanation { console.new.explanation ≡ console.old.explanation }
{
    let mut live = Live::new(rt.alloc(), machine, manner)?;
    let patience = Patience::of_millis(PATIENCE);
    let wire = SegmentWire::open(rt, endpoint, patience, &mut console.faults)?;
    live_opened(rt, &mut live, wire, endpoint, capture, console)
}

/// Runs a live segment on an open wire that has carried nothing yet.
fn live_opened<
    H: AllocGlobal + Net + Files + Clock,
    R: Read + Drop,
    W: Write + Drop,
    F: Write + Drop,
>(
    rt: &H,
    live: &mut Live<'_>,
    wire: SegmentWire,
    endpoint: Endpoint,
    capture: &mut Capture<H::File>,
    console: &mut Console<R, W, F>,
) -> Result<(), Refusal>
    requires { state_of wire ≡ silent 0 }
    ensures lives { LivesOn endpoint.frames (begun live.old (silent 0) (bytes_left R.remaining console.old.input) console.old.output)
        (bytes_left R.remaining console.new.input) console.new.output result }
    ensures still_open { is_some capture.new ≡ is_some capture.old }
    ensures faults { console.new.faults ≡ console.old.faults }
    ensures explanation { console.new.explanation ≡ console.old.explanation }
{
    let input = console.input.descriptor();
    match Watch::new(rt, wire.descriptor(), input, idle_of(endpoint)) {
        Ok(watch) => {
            let station = Station {
                wire,
                watch,
                frames: endpoint.frames,
            };
            live_tapped(
                rt,
                live,
                station,
                capture,
                &mut console.input,
                &mut console.output,
            )
        }
        Err(error) => print_unserved(live, error.into(), &mut console.output),
    }
}

/// How long a segment waits for a payload; without end if that is `None`.
fn idle_of(endpoint: Endpoint) -> Option<Duration> {
    match endpoint.idle {
        0 => None,
        seconds => Some(Duration::from_secs(u64::from(seconds))),
    }
}

/// Runs a live segment on a wire that has carried nothing yet, and notes its payloads in an open capture, if there is one.
fn live_tapped<
    H: AllocGlobal + Files + Clock,
    W: Wire + Drop,
    K: Watching + Drop,
    R: Read + Drop,
    O: Write + Drop,
>(
    rt: &H,
    live: &mut Live<'_>,
    station: Station<W, K>,
    capture: &mut Capture<H::File>,
    input: &mut InputStream<R>,
    output: &mut OutputStream<O>,
) -> Result<(), Refusal>
    requires sent { IsTraceOf (W.state station.wire).sent [] }
    requires received { IsTraceOf (W.state station.wire).received [] }
    ensures lives { LivesOn station.frames (begun live.old (W.state station.wire) (bytes_left R.remaining input.old) output.old)
        (bytes_left R.remaining input.new) output.new result }
    ensures still_open { is_some capture.new ≡ is_some capture.old }
{
    let Station {
        wire,
        watch,
        frames,
    } = station;
    match capture.take() {
        None => {
            let mut station = Station {
                wire,
                watch,
                frames,
            };
            print_live(rt.alloc(), live, &mut station, input, output)
        }
        Some(recording) => {
            let mut station = Station {
                wire: CapturedWire::new(wire, recording, Side::Segment, rt),
                watch,
                frames,
            };
            let ended = print_live(rt.alloc(), live, &mut station, input, output);
            let Station {
                wire,
                watch: _,
                frames: _,
            } = station;
            let (_, recording) = wire.into_parts();
            *capture = Some(recording);
            ended
        }
    }
}

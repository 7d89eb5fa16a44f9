//! A control program over a socket: the valves of a small machine follow its switches.
//!
//!     ecat_follow ADDRESS:PORT CYCLES < TABLE
//!
//! TABLE has outputs `lamp` and `valves` and an input `switches`, as examples/small_machine.toml has. Its slaves answer at the
//! address, as `ecat segment` does. The program prints how many of CYCLES cycles were taken, and both variables. The status is 1 if one
//! isn't taken, or if the slaves don't come up, which it says on standard error.
#![tactic(auto)]

use ec_session::Session;
use ec_wire::{UdpWire, Wire};
use std::io::Read;
use std::net::{Net, SocketAddrV4};
use std::process::ExitCode;
use std::time::Clock;
use std::{env, io};

/// How many milliseconds an answer is awaited.
const PATIENCE: u16 = 500;

/// The first two switches, which the valves follow.
const FOLLOWED: u64 = 3;

/// Runs a cycle, and sets the valves as the switches are. Returns whether it was taken.
fn step<W: Wire, C: Clock>(
    session: &mut Session,
    wire: &mut W,
    clock: &C,
    switches: usize,
    valves: usize,
) -> bool {
    if session.run_lossy_cycle(wire, clock).is_err() {
        return false;
    }
    let shown = session.get(switches).unwrap_or(0);
    session.set(valves, shown & FOLLOWED);
    session.report().is_some_and(|report| report.is_taken())
}

/// How many cycles were taken, and the values of the switches and the valves then; or why no cycle was run.
type Ended = Result<(u32, u64, u64), &'static str>;

/// Brings the slaves up, lights the lamp, and runs cycles up to the first that isn't taken.
fn follow<W: Wire, C: Clock>(session: &mut Session, wire: &mut W, clock: &C, cycles: u32) -> Ended {
    let lacking = "the table lacks `lamp`, `valves` or `switches`";
    let lamp = session.variable("lamp").ok_or(lacking)?;
    let valves = session.variable("valves").ok_or(lacking)?;
    let switches = session.variable("switches").ok_or(lacking)?;
    session.bring_up_resting(wire, clock);
    if !session.is_up() {
        return Err("the slaves don't come up");
    }
    session.set(lamp, 1);
    let mut taken = 0;
    for cycle in 0..cycles {
        if !step(session, wire, clock, switches, valves) {
            break;
        }
        taken = cycle + 1;
    }
    let (switches, valves) = (session.get(switches), session.get(valves));
    Ok((taken, switches.unwrap_or(0), valves.unwrap_or(0)))
}

/// Does so for the machine of a table, whose slaves answer at an address.
fn run<H: AllocGlobal + Net + Clock>(
    rt: &H,
    table: &str,
    peer: SocketAddrV4,
    cycles: u32,
) -> Ended {
    let Ok(mut session) = Session::open(rt.alloc(), table) else {
        return Err("the input states no machine");
    };
    let Ok(mut wire) = UdpWire::connect_patient(rt, peer, PATIENCE) else {
        return Err("there is no such socket");
    };
    follow(&mut session, &mut wire, rt, cycles)
}

/// The arguments: an address with a port, and how many cycles; `None` if they aren't that.
fn task_of(args: &[String]) -> Option<(SocketAddrV4, u32)> {
    let peer = args.get(1)?.as_str().parse::<SocketAddrV4>().ok()?;
    let cycles = args.get(2)?.as_str().parse::<u32>().ok()?;
    Some((peer, cycles))
}

fn main(rt: HostRuntime) -> io::Result<ExitCode> {
    let mut args = Vec::new(rt.alloc());
    for argument in env::args(&rt)? {
        args.push(argument)?;
    }
    let Some((peer, cycles)) = task_of(args.as_slice()) else {
        eprintln!(rt; "ecat_follow ADDRESS:PORT CYCLES < TABLE")?;
        return Ok(ExitCode::from(2));
    };
    let mut table = String::new(rt.alloc());
    rt.stdin().read_to_string(&mut table)?;
    match run(&rt, table.as_str(), peer, cycles) {
        Ok((taken, switches, valves)) => {
            println!(rt; "cycles {taken} switches {switches} valves {valves}")?;
            Ok(ExitCode::from(if taken == cycles { 0 } else { 1 }))
        }
        Err(failure) => {
            eprintln!(rt; "ecat_follow: {failure}")?;
            Ok(ExitCode::FAILURE)
        }
    }
}

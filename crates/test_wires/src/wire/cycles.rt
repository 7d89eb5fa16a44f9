//! Cycles over memory, of which each call is a fault in turn; cycles over a wire on which every call is one; and cycles over
//! sockets.
ghost use Rattle.std.specs.Prelude.{◌≡◌};
ghost use Rattle.ec_link.specs.Plan.{plan_of};

use crate::rows::{assert_same, expect};
use crate::wire::fakes::Fake;
use crate::wire::machines::{bring_up, brought_up, ring_of, set, startup_of, value_of, wire_to};
use ec_cycle::{Master, Report};
use ec_link::{ExpectedCounters, Machine};
use ec_ring::Ring;
use ec_wire::{Echo, LoopWire, Loopback, MemoryWire, RunError, Wire, run_cycle, run_lossy_cycle};
use std::net::{Ipv4Addr, Net, SocketAddr, UdpSocket};
use std::process::Abort;
use std::time::Clock;

/// An output variable, and the input variable that shows what its slave got a frame before. The slave is of the last part.
type Mirror = (usize, usize);

/// What is seen of a cycle: its output, how it ended, the faults of its wire and the payloads that were received so far, and
/// the input.
type Seen = (u64, &'static str, u64, u64, u64);

/// How a cycle ends over a wire.
fn end_of(master: &mut Master<'_>, wire: &mut MemoryWire) -> &'static str {
    match run_cycle(master, wire) {
        Ok(report) if report.is_taken() => "taken",
        Ok(_) => "not taken",
        Err(RunError::Wire) => "a fault",
        Err(RunError::Refused(_)) => "refused",
    }
}

/// Runs a cycle that sends an output.
fn run(master: &mut Master<'_>, wire: &mut MemoryWire, mirror: Mirror, output: u64) -> Seen {
    set(master, mirror.0, output);
    let end = end_of(master, wire);
    let received = wire.received_count() as u64;
    let input = value_of(master, mirror.1);
    (output, end, wire.failures(), received, input)
}

/// What must be seen of a cycle whose call of this number is a fault, and of the next one: what was still on the wire comes
/// first then, and is foreign; the slave shows what it got last. Outputs are 1, 2, 3, .., two for each call.
fn seen_at(call: u32, parts: u32, before: u64) -> [Seen; 2] {
    let parts = u64::from(parts);
    let call = u64::from(call);
    let shown = if call < parts { call } else { call + 1 };
    let received = call.saturating_sub(parts);
    let later = call.min(parts) + parts;
    [
        (2 * call + 1, "a fault", 1, received, before),
        (2 * call + 2, "taken", 1, later, call + shown),
    ]
}

/// Runs a cycle whose call of this number is a fault, and the next one, over a wire to slaves, which come back.
fn expect_fault(
    rt: &(impl AllocGlobal + Abort),
    master: &mut Master<'_>,
    ring: Ring,
    mirror: Mirror,
    parts: u32,
    call: u32,
) -> Ring {
    let mut wire = wire_to(rt, ring, 100, u64::from(call));
    let wanted = seen_at(call, parts, value_of(master, mirror.1));
    let met = [
        run(master, &mut wire, mirror, wanted[0].0),
        run(master, &mut wire, mirror, wanted[1].0),
    ];
    assert_same(rt, &met, &wanted, "two cycles");
    wire.into_ring()
}

/// Brings the slaves of a machine up, and runs a cycle with a fault at each of its calls in turn.
pub fn expect_faults(
    rt: &(impl AllocGlobal + Abort),
    machine: &Machine,
    master: &mut Master<'_>,
    mirror: Mirror,
    parts: u16,
)
    requires { master.old.plan ≡ plan_of machine.now }
{
    let mut ring = brought_up(rt, machine, master, 0);
    expect(rt, master.parts() == usize::from(parts), "parts");
    for call in 0..2 * u32::from(parts) {
        ring = expect_fault(rt, master, ring, mirror, u32::from(parts), call);
    }
}

/// What a cycle ends by whose wire is spent: at its last value the count of faults can't rise, and each call is a fault.
fn error_over_spent(rt: &impl Abort, master: &mut Master<'_>) -> RunError {
    let mut spent = Fake {
        failures: u64::MAX,
        bytes: 0,
        received: 0,
    };
    run_cycle(master, &mut spent)
        .err()
        .expect(rt, "a cycle over a spent wire")
}

/// A cycle over a spent wire ends by an error with this number and name.
pub fn expect_error(
    rt: &impl Abort,
    master: &mut Master<'_>,
    wanted: (RunError, u8, &'static str),
) {
    let error = error_over_spent(rt, master);
    let seen = (error, error.number(), error.name());
    assert_same(rt, &seen, &wanted, wanted.2);
}

/// Once its slaves have come up a cycle over a spent wire ends by a fault.
pub fn expect_spent(rt: &(impl AllocGlobal + Abort), machine: &Machine, master: &mut Master<'_>)
    requires { master.old.plan ≡ plan_of machine.now }
{
    brought_up(rt, machine, master, 0);
    expect_error(rt, master, (RunError::Wire, 37, "Wire"));
}

/// What is seen of a cycle on whose wire nothing comes back: its missing parts, whether all units were taken, and an input.
fn seen_in_silence<H: Clock + Abort>(rt: &H, master: &mut Master<'_>) -> (usize, bool, u64) {
    let mut silent = Fake {
        failures: 0,
        bytes: 0,
        received: 0,
    };
    let report = run_lossy_cycle(master, &mut silent, rt).expect(rt, "a report");
    (report.missing(), report.is_taken(), value_of(master, 3))
}

/// Whether a cycle on whose wire answers may be lost is taken.
fn is_taken<H: Clock + Abort>(rt: &H, master: &mut Master<'_>, wire: &mut MemoryWire) -> bool {
    let report = run_lossy_cycle(master, wire, rt).expect(rt, "a report");
    report.is_taken()
}

/// Once its slaves have come up a cycle that may lose answers is taken, and one on whose wire nothing comes back has a report.
pub fn expect_silence<H: AllocGlobal + Clock + Abort>(
    rt: &H,
    machine: &Machine,
    master: &mut Master<'_>,
)
    requires { master.old.plan ≡ plan_of machine.now }
{
    let mut wire = wire_to(rt, brought_up(rt, machine, master, 0), 100, u64::MAX);
    let is_taken = is_taken(rt, master, &mut wire);
    let seen = seen_in_silence(rt, master);
    assert_same(
        rt,
        &(is_taken, seen),
        &(true, (1, false, 0)),
        "a cycle, and silence",
    );
}

/// Whether a cycle was taken by a counter of 6.
fn is_good(report: &Report) -> bool {
    report.is_taken() && report.counters().as_slice() == [Some(ExpectedCounters::Lrw(6))].as_slice()
}

/// Runs a cycle over sockets that sends this number.
fn expect_good(rt: &impl Abort, master: &mut Master<'_>, wire: &mut LoopWire<Echo>, number: u64) {
    set(master, 0, number);
    set(master, 1, number);
    let report = run_cycle(master, wire).expect(rt, "a cycle");
    expect(rt, is_good(&report), "a good cycle");
}

/// Runs two cycles over sockets, of slaves that show their outputs; slave 1 has none to show.
fn expect_two(rt: &impl Abort, master: &mut Master<'_>, wire: &mut LoopWire<Echo>) {
    expect_good(rt, master, wire, 1);
    expect_good(rt, master, wire, 2);
    let seen = (value_of(master, 2), value_of(master, 3), wire.failures());
    assert_same(rt, &seen, &(0, 1, 0), "two cycles");
}

/// Whether a port of 127.0.0.1 is in use.
fn is_held(rt: &impl Net, port: u16) -> bool {
    UdpSocket::bind(rt, SocketAddr::from((Ipv4Addr::LOCALHOST, port))).is_err()
}

/// A wire has two sockets, on the ports that it says.
fn expect_ports(rt: &(impl Net + Abort), wire: &LoopWire<Echo>) {
    let (master, segment) = wire.ports();
    let met = (is_held(rt, master), is_held(rt, segment), master == segment);
    assert_same(rt, &met, &(true, true, false), "two ports");
}

/// What a loopback counts: slaves, payloads sent and received, and faults.
fn expect_counts(rt: &impl Abort, loopback: &Loopback<Echo>, wanted: (usize, u64, u64, u64)) {
    let met = (
        loopback.slaves(),
        loopback.sent(),
        loopback.received(),
        loopback.failures(),
    );
    assert_same(rt, &met, &wanted, "a loopback");
}

/// A loopback opens no wire while another one has its application.
fn expect_lent(rt: &(impl Net + Abort), loopback: &mut Loopback<Echo>, ring: Ring)
    ensures { loopback.new ≡ loopback.old }
{
    let is_refused = loopback.open(rt, ring).is_err();
    expect(rt, is_refused, "one wire with an application");
}

/// Brings the slaves of a machine up over a loop of two sockets, and runs two cycles. As many payloads are counted as the
/// start-up and the cycles have frames.
pub fn expect_loop(
    rt: &(impl Net + AllocGlobal + Abort),
    machine: &Machine,
    master: &mut Master<'_>,
)
    requires { master.old.plan ≡ plan_of machine.now }
{
    let mut loopback = Loopback::new(Echo);
    let mut wire = loopback
        .open(rt, ring_of(rt, machine))
        .expect(rt, "sockets");
    expect_lent(rt, &mut loopback, ring_of(rt, machine));
    expect_ports(rt, &wire);
    let mut startup = startup_of(rt, machine, 0);
    bring_up(rt, &mut startup, &mut wire, master);
    expect_two(rt, master, &mut wire);
    loopback.close(wire);
    let sent = master.parts().saturating_mul(2);
    let frames = startup
        .next_number()
        .saturating_add(u64::try_from(sent).unwrap_or(0));
    expect_counts(rt, &loopback, (3, frames, frames, 0));
}

//! What lines print, and how often what they expect isn't so. What is printed of lines that need no wire stands as cases in
//! `tools/cases/data/masters.cases`.

use crate::compare::expect_same;
use cmd_master::Mastered;
use ec_bringup::slaves_of_machine;
use ec_console::{InputStream, Manner, OutputStream, Refusal, run_input};
use ec_link::Machine;
use ec_wire::MemoryWire;
use std::alloc::Global;
use std::process::Abort;
use std::time::Clock;

const THREE_SLAVES: &str = test_data::SHORT_THREE_SLAVES;

/// So many calls of a wire never fail.
const NEVER: u64 = u64::MAX;

/// Runs lines by a master over a wire. What they print is said by no clause, so that the comparisons behind it carry nothing of it.
fn run_all<C: Clock>(
    alloc: Global,
    mastered: &mut Mastered<'_, MemoryWire, C>,
    lines: &str,
    output: &mut OutputStream<Vec<u8>>,
) -> Result<u64, Refusal> {
    let mut input = InputStream::new(lines.as_bytes());
    run_input(alloc, mastered, &mut input, output)
}

/// The machine of the three slaves.
fn three_slaves(rt: &(impl AllocGlobal + Abort)) -> Machine {
    Machine::read(rt.alloc(), THREE_SLAVES).expect(rt, "a good table")
}

/// A wire to the slaves of a machine, whose call of this number fails.
fn wire_of(rt: &(impl AllocGlobal + Abort), machine: &Machine, fails_at: u64) -> MemoryWire {
    let slaves = slaves_of_machine(rt.alloc(), machine).expect(rt, "memory");
    MemoryWire::new(rt.alloc(), slaves, 2000, fails_at).expect(rt, "memory")
}

/// A master of a machine over a wire.
fn mastered_over<H: AllocGlobal + Abort + Clock>(
    rt: &H,
    machine: Machine,
    wire: MemoryWire,
    manner: Manner,
) -> Mastered<'_, MemoryWire, H> {
    Mastered::new(rt.alloc(), rt, machine, wire, manner).expect(rt, "memory")
}

/// Lines, the call of the wire that fails, how often what they expect isn't so, and what they print.
type Run<'a> = (&'a str, u64, u64, &'a str);

/// Compares how often what lines expect isn't so, and what they print.
fn expect_ended(rt: &impl Abort, run: &Run, ended: Result<u64, Refusal>, output: &[u8]) {
    let (lines, _, unmet, printed) = *run;
    expect_same(
        rt,
        &(ended, output),
        &(Ok(unmet), printed.as_bytes()),
        lines,
    );
}

/// Runs lines over a wire to the three slaves, and compares what they print.
fn expect_run<H: AllocGlobal + Abort + Clock>(rt: &H, manner: Manner, run: &Run) {
    let wire = wire_of(rt, &three_slaves(rt), run.1);
    let mut mastered = mastered_over(rt, three_slaves(rt), wire, manner);
    let mut output = OutputStream::new(Vec::new(rt.alloc()));
    let ended = run_all(rt.alloc(), &mut mastered, run.0, &mut output);
    expect_ended(rt, run, ended, output.into_stream().as_slice());
}

/// Does so with each of these.
fn expect_runs<H: AllocGlobal + Abort + Clock>(rt: &H, manner: Manner, runs: &[Run]) {
    for run in runs {
        expect_run(rt, manner, run);
    }
}

// The start-up of the three slaves has 75 frames, each sent in one call of the wire and received in the next, and a cycle has
// one: so the first cycle begins with call 150, and a start-up behind it with call 152.
const RUNS: [Run; 16] = [
    // What a cycle sends comes back as input in the next one.
    (
        "ready\nset b 0x123\ncycle\ncycle\nexpect d 0x123\nshow\n",
        NEVER,
        0,
        "ready\nreport taken missing 0 counters 6 al 0008\nreport taken missing 0 counters 6 al 0008\nc 0\nd 291\n",
    ),
    // Before a start-up nothing is run, and there is no report; what was set is 0 again behind it.
    (
        "cycle\nreport\nshow\nset b 2\nready\nrepeat 2 cycle\nshow",
        NEVER,
        0,
        "no 1\nno 2\nc 0\nd 0\nready\nreport taken missing 0 counters 6 al 0008\nreport taken missing 0 counters 6 al 0008\nc 0\nd 0\n",
    ),
    // The last report again, as often as is asked, also with a comment.
    (
        "ready\ncycle\nreport\nrepeat 2 report # report\n",
        NEVER,
        0,
        "ready\nreport taken missing 0 counters 6 al 0008\nreport taken missing 0 counters 6 al 0008\nreport taken missing 0 counters 6 al 0008\nreport taken missing 0 counters 6 al 0008\n",
    ),
    // Expectations of reports and start-ups.
    (
        "ready\ncycle\nexpect ready\nexpect failed\nexpect taken\nexpect untaken\nexpect taken 0\nexpect taken 1\nexpect untaken 0\n",
        NEVER,
        4,
        "ready\nreport taken missing 0 counters 6 al 0008\nunmet 4\nunmet 6\nunmet 8\nunmet 9\n",
    ),
    // A start-up that fails, and then the next one.
    (
        "ready\nexpect failed 32\nexpect failed 26\ncycle\nready\ncycle\n",
        0,
        1,
        "failed 32\nunmet 3\nno 4\nready\nreport taken missing 0 counters 6 al 0008\n",
    ),
    // A fault of the wire in a cycle: nothing is taken, the last report stays, and the next cycle goes on.
    (
        "ready\ncycle\nset b 7\ncycle\nshow\nreport\nexpect taken\nrepeat 2 cycle\nshow\n",
        152,
        0,
        "ready\nreport taken missing 0 counters 6 al 0008\nfault 37 Wire\nc 0\nd 0\nreport taken missing 0 counters 6 al 0008\nreport taken missing 0 counters 6 al 0008\nreport taken missing 0 counters 6 al 0008\nc 0\nd 7\n",
    ),
    (
        "ready\nset b 7\ncycle\ncycle\nshow\n",
        153,
        0,
        "ready\nreport taken missing 0 counters 6 al 0008\nfault 37 Wire\nc 0\nd 0\n",
    ),
    (
        "ready\ncycle\nreport\n",
        150,
        0,
        "ready\nfault 37 Wire\nno 3\n",
    ),
    // Slaves that are up are brought up again; their outputs and inputs are 0 then.
    (
        "ready\nset b 9\nrepeat 2 cycle\nexpect d 9\nready\ncycle\nexpect d 0\ncycle\nexpect d 0\n",
        NEVER,
        0,
        "ready\nreport taken missing 0 counters 6 al 0008\nreport taken missing 0 counters 6 al 0008\nready\nreport taken missing 0 counters 6 al 0008\nreport taken missing 0 counters 6 al 0008\n",
    ),
    // AL states, and a machine that is stopped: without station addresses no slave answers, and a slave that isn't there never does.
    (
        "states\nready\nexpect state 0 OP\nexpect state 1 OP 0000\nexpect state 2 SAFEOP\nexpect state 3 OP\nstop\nstates\ncycle\nexpect ready\nready\ncycle\n",
        NEVER,
        3,
        "state 0 s0 - 0000\nstate 1 s1 - 0000\nstate 2 s2 - 0000\nready\nunmet 5\nunmet 6\n\
         state 0 s0 INIT 0000\nstate 1 s1 INIT 0000\nstate 2 s2 INIT 0000\nno 9\nunmet 10\nready\nreport taken missing 0 counters 6 al 0008\n",
    ),
    // Outputs are 0 behind `stop`.
    (
        "stop\nready\nset b 9\nrepeat 2 cycle\nexpect d 9\nstop\nready\ncycle\nexpect d 0\n",
        NEVER,
        0,
        "no 1\nready\nreport taken missing 0 counters 6 al 0008\nreport taken missing 0 counters 6 al 0008\nready\nreport taken missing 0 counters 6 al 0008\n",
    ),
    // A fault of the wire while states are read; the answer that is left on the wire is none of the next question.
    (
        "states\nstates\n",
        3,
        0,
        "fault 37 Wire\nstate 0 s0 - 0000\nstate 1 s1 - 0000\nstate 2 s2 - 0000\n",
    ),
    // What a cycle sends comes back in the next one: one cycle isn't enough, and of five the first is.
    (
        "ready\nset b 9 a 1\nwithin 1 expect d 9\nwithin 5 expect d 9\nshow d b a\nreport\n",
        NEVER,
        1,
        "ready\nunmet 3\nd 9\nb 9\na 1\nreport taken missing 0 counters 6 al 0008\n",
    ),
    // Lines that are expected to be refused, and a text.
    (
        "expect no cycle\nexpect no set c 1\nexpect no set a 1 b 4096\nready\nexpect no cycle\nexpect no report\necho x  y\n",
        NEVER,
        2,
        "ready\nunmet 5\nunmet 6\nx  y\n",
    ),
    // A fault of the wire ends the cycles of a line.
    (
        "ready\ncycle\nwithin 3 expect d 1\nreport\n",
        152,
        1,
        "ready\nreport taken missing 0 counters 6 al 0008\nunmet 3\nreport taken missing 0 counters 6 al 0008\n",
    ),
    // Where that fails, no cycle is run until they are.
    (
        "ready\ncycle\nready\ncycle\nexpect ready\nready\ncycle\n",
        152,
        1,
        "ready\nreport taken missing 0 counters 6 al 0008\nfailed 32\nno 4\nunmet 5\nready\nreport taken missing 0 counters 6 al 0008\n",
    ),
];

#[test]
fn lines_move_a_master(rt: HostRuntime) {
    expect_runs(&rt, Manner::of(false, false), &RUNS);
}

// Behind each line that can't be done, and behind a start-up that has failed, stands why, if reasons are printed.
const REASONED: [Run; 4] = [
    (
        "cycle\nready\ncycle\n",
        NEVER,
        0,
        "no 1\n  there was no start-up: `ready` brings the slaves up\nready\nreport taken missing 0 counters 6 al 0008\n",
    ),
    // A start-up that fails, then a cycle, and then the next start-up.
    (
        "ready\ncycle\nexpect ready\nready\ncycle\n",
        0,
        1,
        "failed 32\n  32 Lost: given up; a call on the socket failed: there is no such address, or a payload is too long\n\
         no 2\n  the last start-up failed, 32 Lost: given up; `ready` makes one more\n\
         unmet 3\n  the start-up failed by 32, expected ready\nready\nreport taken missing 0 counters 6 al 0008\n",
    ),
    // Behind one that was ready.
    (
        "ready\ncycle\nready\ncycle\nreport\n",
        152,
        0,
        "ready\nreport taken missing 0 counters 6 al 0008\nfailed 32\n  32 Lost: given up; a call on the socket failed: there is no such address, or a payload is too long\n\
         no 4\n  the last start-up failed, 32 Lost: given up; `ready` makes one more\n\
         report taken missing 0 counters 6 al 0008\n",
    ),
    // A fault of the wire has one, and so have a bad line and what is expected and isn't so.
    (
        "ready\ncycle\nreport\nbegin\nexpect taken\nshow\n",
        150,
        1,
        "ready\nfault 37 Wire\n  a call on the socket failed: there is no such address, or a payload is too long\n\
         no 3\n  no cycle has ended with a report yet\nbad 4\n  lines of this form aren't taken here; `--help` lists those that are\n\
         unmet 5\n  there is no report yet, expected all taken\nc 0\nd 0\n",
    ),
];

#[test]
fn lines_tell_why(rt: HostRuntime) {
    expect_runs(&rt, Manner::of(true, false), &REASONED);
}

// Lines that are bad, can't be done or have failed count as unmet, if they are taken strictly.
const STRICT: [Run; 2] = [
    (
        "cycle\nfoo\nready\nexpect no set c 1\n",
        NEVER,
        2,
        "no 1\nbad 2\nready\n",
    ),
    (
        "ready\nready\ncycle\n",
        0,
        1,
        "failed 32\nready\nreport taken missing 0 counters 6 al 0008\n",
    ),
];

#[test]
fn lines_are_taken_strictly(rt: HostRuntime) {
    expect_runs(&rt, Manner::of(false, true), &STRICT);
}

/// Slaves of the table in which OLD became NEW, what the start-up of the three slaves fails by over them, and what stands behind that.
type Failure<'a> = (&'a str, &'a str, u8, &'a str);

// Each is worked out from the table by hand. The steps of the start-up: 6 for all slaves, 3 station addresses, 6 each for who they
// are, 2 for the mailboxes of s2, 2 for PREOP of each; so step 35 is the first request to s2, and step 36 awaits its reply.
const FAILURES: [Failure; 6] = [
    (
        ", { name = \"s2\", type = \"mix\" }",
        "",
        26,
        "26 Count 2: 2 slaves answered, and the table has 3",
    ),
    (
        "product = 2, revision = 1",
        "product = 2, revision = 0x12",
        27,
        "27 Identity 1 43981 2 18: slave 1 s1 shows vendor 0x0000ABCD, product 0x00000002, revision 0x00000012; what couldn't be read is 0",
    ),
    (
        "mailbox = [0x1000, 128,",
        "mailbox = [0x1000, 64,",
        29,
        "29 AlError 2 22: slave 2 s2 refused a state, AL status code 0x0016: the sync managers of its mailboxes aren't set as it needs them",
    ),
    (
        "0x1600, entries = [[0x7010",
        "0x1601, entries = [[0x7010",
        30,
        "30 Abort 2 100794368: slave 2 s2 aborted an SDO transfer, code 0x06020000: it has no such object",
    ),
    (
        "mailbox = [0x1000, 128, 0x1080, 128], ",
        "",
        31,
        "31 TooSlow 36: step 36 is for slave 2 s2: a reply is awaited in its mailbox: the upload of 0x1600:0x00, how many entries the PDO has; it wasn't over after 1000 polls",
    ),
    (
        "[0x7010, 1, 12]",
        "[0x7010, 1, 11]",
        38,
        "38 Mapping 2 5632 1 1880097035: slave 2 s2 has 0x7010010B in its object 0x1600:0x01",
    ),
];

/// The slaves of the three, without variables and links, in which OLD became NEW.
fn other_slaves(rt: &(impl AllocGlobal + Abort), old: &str, new: &str) -> Machine {
    let (slaves, _) = THREE_SLAVES
        .split_once("variable = [")
        .expect(rt, "variables");
    let text = slaves.replace(rt.alloc(), old, new).expect(rt, "memory");
    Machine::read(rt.alloc(), text.as_str()).expect(rt, "a good table")
}

/// Runs `ready` of a machine over the slaves of another, with reasons.
fn ready_over(
    rt: &(impl AllocGlobal + Abort + Clock),
    machine: Machine,
    slaves: &Machine,
) -> Vec<u8> {
    let wire = wire_of(rt, slaves, NEVER);
    let mut mastered = mastered_over(rt, machine, wire, Manner::of(true, false));
    let mut output = OutputStream::new(Vec::new(rt.alloc()));
    let ended = run_all(rt.alloc(), &mut mastered, "ready\n", &mut output);
    expect_same(rt, &ended, &Ok(0), "ready");
    output.into_stream()
}

/// Compares what is printed of a start-up over other slaves.
fn expect_failure(rt: &(impl AllocGlobal + Abort + Clock), failure: &Failure) {
    let (old, new, number, words) = *failure;
    let output = ready_over(rt, three_slaves(rt), &other_slaves(rt, old, new));
    expect_failed(rt, output.as_slice(), number, words);
}

/// Compares what is printed of a start-up that failed.
fn expect_failed(rt: &(impl AllocGlobal + Abort), output: &[u8], number: u8, words: &str) {
    let wanted = format!(in rt.alloc(); "failed {number}\n  {words}\n").expect(rt, "memory");
    expect_same(rt, &output, &wanted.as_bytes(), words);
}

#[test]
fn failed_start_ups_tell_why(rt: HostRuntime) {
    for failure in &FAILURES {
        expect_failure(&rt, failure);
    }
}

/// A change of the third type: OLD becomes NEW.
type Change<'a> = (&'a str, &'a str);

/// Changes of the master's table for hardware and of its slaves', what the start-up fails by, and what stands behind that.
type RealFailure<'a> = (Change<'a>, Change<'a>, u8, &'a str);

const MAILBOX: &str = "mailbox = [0x1000, 128, 0x1080, 128],";

const PARAMETER: &str = "mailbox = [0x1000, 128, 0x1080, 128], init = [[0x8000, 6, 16, 3]],";

const EMERGENCY: &str = "mailbox = [0x1000, 128, 0x1080, 128], emergency = true,";

const FIXED: &str = "mailbox = [0x1000, 128, 0x1080, 128], fixed = true,";

// Each is worked out from the tables by hand.
const REAL_FAILURES: [RealFailure; 4] = [
    (
        (MAILBOX, PARAMETER),
        (MAILBOX, EMERGENCY),
        30,
        "30 Abort 2 100794368: slave 2 s2 aborted an SDO transfer, code 0x06020000: it has no such object; \
         it was the download of the parameter 0x3 into 0x8000:0x06, row 1 of `init` of its type; \
         slave 2 s2 sent an emergency, error code 0x5000, error register 0x00; it doesn't take a parameter of `init`",
    ),
    (
        (MAILBOX, MAILBOX),
        (MAILBOX, FIXED),
        30,
        "30 Abort 2 100728834: slave 2 s2 aborted an SDO transfer, code 0x06010002: the object can only be read; \
         it was the download of 0 into 0x1C12:0x00, before the PDOs are assigned; its assignment may be fixed",
    ),
    (
        (MAILBOX, FIXED),
        (
            "[[0x6010, 1, 16]] }",
            "[[0x6010, 1, 16]] }, { index = 0x1A01, entries = [[0x6011, 1, 16]] }",
        ),
        38,
        "38 Mapping 2 7187 0 2: slave 2 s2 has 0x2 in its object 0x1C13:0x00; \
         it was the upload of 0x1C13:0x00, how many PDOs are assigned, and the table has 0x1 there; \
         its fixed assignment isn't that of its type",
    ),
    (
        (MAILBOX, MAILBOX),
        ("[0x7010, 1, 12]", "[0x7010, 1, 11]"),
        38,
        "38 Mapping 2 5632 1 1880097035: slave 2 s2 has 0x7010010B in its object 0x1600:0x01; \
         it was the upload of 0x1600:0x01, an entry of the PDO, and the table has 0x7010010C there; its mapping isn't that of its type",
    ),
];

/// The machine of the three slaves for hardware, without variables and links, with a change.
fn real_machine(rt: &(impl AllocGlobal + Abort), change: &Change) -> Machine {
    let (old, new) = *change;
    let (slaves, _) = THREE_SLAVES
        .split_once("variable = [")
        .expect(rt, "variables");
    let changed = slaves.replace(rt.alloc(), old, new).expect(rt, "memory");
    let text = format!(in rt.alloc(); "hardware = true\n{changed}").expect(rt, "memory");
    Machine::read(rt.alloc(), text.as_str()).expect(rt, "a good table")
}

#[test]
fn failed_start_ups_of_real_devices_tell_why(rt: HostRuntime) {
    for (master, slaves, number, words) in &REAL_FAILURES {
        let output = ready_over(&rt, real_machine(&rt, master), &real_machine(&rt, slaves));
        expect_failed(&rt, output.as_slice(), *number, words);
    }
}

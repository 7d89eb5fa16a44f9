//! Runs of the program over streams that fail, and with another application. What a run over memory prints and tells, and what the helps
//! list, stands as cases in `tools/cases/data/`; captures, sockets and full disks are looked at from outside (`tools/captures/run`,
//! `tools/reach/run`, `tools/scan/run`).
use crate::compare::expect_same;
use crate::streams::{HandedOn, Sink, Source, nothing_handed_on, sink_of, source_of};
use ec_app::{
    App, Console, InputStream, Origin, OutputStream, print_text, read_text, run_command,
    run_console,
};
use std::alloc::Global;
use std::fs::Files;
use std::io::Read;
use std::net::Net;
use std::process::Abort;
use std::time::Clock;
use test_data::THREE_SLAVES;

/// An application that sets the inputs of slaves that have one byte of them, and leaves all others as they come to it.
#[derive(Drop)]
struct OneByte;

impl App for OneByte {
    fn step(&mut self, _outputs: &[u8], inputs: &mut [u8]) {
        if inputs.len() == 1 {
            inputs[0] = 5;
        }
    }
}

/// A run: what is wrong with its streams, its arguments, its input, its exit status, its output, and its standard error. The last two
/// may be cut short by `..`, which then stands at their ends.
type Run<'a> = (&'a str, &'a str, &'a str, u8, &'a str, &'a str);

/// The output of a run.
fn output_of<'a>(alloc: Global, wrong: &str, handed_on: &'a HandedOn) -> OutputStream<Sink<'a>> {
    let mut sink = sink_of(alloc, handed_on);
    match wrong {
        "full output" => sink.writes = 0,
        "stuck output" => sink.flushes = 0,
        _ => {}
    }
    OutputStream::new(sink)
}

/// The fault stream of a run.
fn faults_of<'a>(alloc: Global, wrong: &str, handed_on: &'a HandedOn) -> OutputStream<Sink<'a>> {
    let mut sink = sink_of(alloc, handed_on);
    match wrong {
        "full faults" => sink.writes = 0,
        "faults of one write" => sink.writes = 1,
        "faults of two writes" => sink.writes = 2,
        "stuck faults" => sink.flushes = 0,
        _ => {}
    }
    OutputStream::new(sink)
}

/// Whether a read of the input is refused, and a write to the output and to the fault stream, or handing on what it took.
fn refuses(wrong: &str) -> (bool, bool, bool) {
    (
        wrong == "failing input",
        matches!(wrong, "full output" | "stuck output"),
        matches!(
            wrong,
            "full faults" | "faults of one write" | "stuck faults"
        ),
    )
}

/// The input of a run.
fn input_of<'a, O: Read + Drop>(wrong: &str, text: &'a str) -> InputStream<Origin<Source<'a>, O>> {
    let mut source = source_of(text.as_bytes());
    match wrong {
        "endless input" => {
            source.line = &[b' '; 4096];
            source.left = usize::MAX;
        }
        "failing input" => {
            // one byte, an interruption, and no more
            source.at_a_time = 1;
            source.halts = true;
            source.is_halted = true;
            source.fails = true;
        }
        _ => {}
    }
    InputStream::new(Origin::Given(source))
}

/// Whether bytes are those of a text, or begin so where it ends with `..`.
fn is_as(seen: &[u8], wanted: &str) -> bool {
    match wanted.strip_suffix("..") {
        Some(first) => seen.starts_with(first.as_bytes()),
        None => seen == wanted.as_bytes(),
    }
}

/// Compares how a run ended: its exit status, what it printed, what it wrote to standard error, that a stream that isn't handed on was to
/// be, once, and whether a read of its input and a write to its streams were refused.
fn expect_ended(
    rt: &impl Abort,
    run: &Run,
    status: u8,
    is_refused: (bool, bool, bool),
    output: &Sink<'_>,
    faults: &Sink<'_>,
) {
    let (wrong, args, _, wanted, printed, told) = *run;
    let refused = output.refused.saturating_add(faults.refused);
    let is_printed = is_as(output.taken.as_slice(), printed);
    let is_told = is_as(faults.taken.as_slice(), told);
    let stuck = usize::from(wrong.starts_with("stuck"));
    expect_same(
        rt,
        &(status, refused, is_printed, is_told, is_refused),
        &(wanted, stuck, true, true, refuses(wrong)),
        args,
    );
}

/// Compares how a run ended, after which its streams go away.
fn expect_console<O: Read + Drop>(
    rt: &impl Abort,
    run: &Run,
    status: u8,
    console: Console<Origin<Source<'_>, O>, Sink<'_>, Sink<'_>>,
) {
    let Console {
        input,
        output,
        faults,
        explanation: _,
        terminals: _,
    } = console;
    let is_refused = (input.is_refused(), output.is_refused(), faults.is_refused());
    let (output, faults) = (output.into_stream(), faults.into_stream());
    expect_ended(rt, run, status, is_refused, &output, &faults);
}

/// Runs the program, with an application of this file. It promises nothing, so what calls it is quickly checked.
fn run_args<H: AllocGlobal + Net + Files + Clock>(
    rt: &H,
    args: &[&str],
    console: &mut Console<Origin<Source<'_>, H::File>, Sink<'_>, Sink<'_>>,
) -> u8 {
    run_console(rt, args, console, &mut OneByte)
}

/// The words of a text.
fn words_of<'a>(rt: &(impl AllocGlobal + Abort), text: &'a str) -> Vec<&'a str> {
    text.split(' ').collect(rt.alloc()).expect(rt, "memory")
}

/// Runs the program, and compares how that ends.
fn expect_run<H: AllocGlobal + Net + Files + Clock + Abort>(rt: &H, run: &Run) {
    let handed_on = nothing_handed_on();
    let mut console = Console::new(
        rt.alloc(),
        input_of(run.0, run.2),
        output_of(rt.alloc(), run.0, &handed_on),
        faults_of(rt.alloc(), run.0, &handed_on),
    );
    let status = run_args(rt, words_of(rt, run.1).as_slice(), &mut console);
    expect_console(rt, run, status, console);
}

/// Runs over streams that fail, and over an application that isn't that of the program, which shows slaves' outputs as their inputs: the inputs
/// of the last slave are 0, whatever the application set at the one before. Where what is told, or printed, is `..` alone, it isn't compared.
const RUNS: [Run; 14] = [
    // An output that takes nothing. Where that is explained, a command has printed something.
    (
        "full output",
        "ecat pass --slaves 3 0e100701000030010200000000000000",
        "",
        4,
        "",
        "ecat: 41 Output\n",
    ),
    (
        "full output",
        "ecat plan",
        THREE_SLAVES,
        4,
        "",
        "ecat: 41 Output\n",
    ),
    (
        "full output",
        "ecat plan --explain",
        THREE_SLAVES,
        4,
        "",
        "ecat: 41 Output\nWhat was to be printed..",
    ),
    // An output that isn't handed on.
    (
        "stuck output",
        "ecat pass --slaves=3 0e100701000030010200000000000000",
        "",
        4,
        "..",
        "ecat: 41 Output\n",
    ),
    (
        "stuck output",
        "ecat --help",
        "",
        4,
        "..",
        "ecat: 41 Output\n",
    ),
    // What is written to standard error isn't handed on.
    (
        "stuck faults",
        "ecat pass --slaves=3 0e1",
        "",
        3,
        "..",
        "..",
    ),
    ("stuck faults", "ecat", "", 2, "..", ".."),
    // A full fault stream changes nothing of a refusal.
    ("full faults", "ecat pass --slaves 3 0e1", "", 3, "..", ""),
    (
        "full faults",
        "ecat plan --explain",
        "link = 1",
        3,
        "..",
        "",
    ),
    (
        "faults of one write",
        "ecat plan --explain",
        "link = 1",
        3,
        "..",
        "..",
    ),
    (
        "faults of two writes",
        "ecat plan --explain",
        "link = 1",
        3,
        "..",
        "..",
    ),
    // An input that has no end, and one that can't be read.
    ("endless input", "ecat plan", "", 4, "", "ecat: 42 Input\n"),
    ("failing input", "ecat plan", " ", 4, "", "ecat: 42 Input\n"),
    (
        "nothing",
        "ecat loop --cycles 2",
        THREE_SLAVES,
        0,
        "ready\nreport taken missing 0 counters 6 al 0008\nreport taken missing 0 counters 6 al 0008\nc 5\nd 0\n",
        "",
    ),
];

#[test]
fn runs_over_streams_that_fail(rt: HostRuntime) {
    for run in &RUNS {
        expect_run(&rt, run);
    }
}

/// Runs the program over memory.
fn run_over<H: AllocGlobal + Net + Files + Clock>(
    rt: &H,
    args: &[&str],
    output: &mut Vec<u8>,
    faults: &mut Vec<u8>,
) -> u8 {
    run_command(rt, args, &b"[["[..], output, faults, &mut OneByte)
}

/// Compares how a run over memory ends, what it prints and what it writes to standard error.
fn expect_over_memory<H: AllocGlobal + Net + Files + Clock + Abort>(
    rt: &H,
    args: &[&str],
    wanted: (u8, &str, &str),
) {
    let (mut output, mut faults) = (Vec::new(rt.alloc()), Vec::new(rt.alloc()));
    let status = run_over(rt, args, &mut output, &mut faults);
    expect_same(
        rt,
        &(status, output.as_slice(), faults.as_slice()),
        &(wanted.0, wanted.1.as_bytes(), wanted.2.as_bytes()),
        "a run over memory",
    );
}

// A broadcast read of the AL status comes back from three slaves in INIT; and a text that is no table.
#[test]
fn runs_over_memory(rt: HostRuntime) {
    let frame = "0e100701000030010200000000000000";
    let back = "0e100701030030010200000001000300\n";
    expect_over_memory(
        &rt,
        &["ecat", "pass", "--slaves", "3", frame],
        (0, back, ""),
    );
    expect_over_memory(&rt, &["ecat", "plan"], (3, "", "ecat: 11 Toml\n"));
}

// A writer takes one byte at a time, and is interrupted before each.
#[test]
fn writes_on_past_short_writes_and_interruptions(rt: HostRuntime) {
    let handed_on = nothing_handed_on();
    let mut sink = sink_of(rt.alloc(), &handed_on);
    sink.at_a_time = 1;
    sink.halts = true;
    let mut output = OutputStream::new(sink);
    print_text(b"ecat", &mut output).expect(&rt, "a text");
    let taken = output.into_stream().taken;
    expect_same(&rt, &taken.as_slice(), &b"ecat".as_slice(), "a text");
}

/// The text of an input.
fn text_of(rt: &(impl AllocGlobal + Abort), input: &mut InputStream<Source<'_>>) -> String {
    read_text(rt.alloc(), input).expect(rt, "a text")
}

// A reader gives one byte at a time, and is interrupted before each.
#[test]
fn reads_on_past_interruptions(rt: HostRuntime) {
    let mut source = source_of(b"version = 2");
    source.at_a_time = 1;
    source.halts = true;
    let text = text_of(&rt, &mut InputStream::new(source));
    expect_same(&rt, &text.as_str(), &"version = 2", "a text");
}

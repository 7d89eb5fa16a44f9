//! Commands that run a machine, in one order: its text, the machine, a capture, the run, the end of the capture, the explanation.
ghost use Rattle.std.specs.Prelude.{◌≡◌, is_some, option_map};
ghost use Rattle.std.specs.Net.Addr.{ipv4_octets};
ghost use Rattle.cmd_loop.specs.Looping.{LoopsOnSockets};
ghost use Rattle.cmd_segment.specs.Serving.{ServesMachine};
ghost use Rattle.cmd_sim.specs.Simulating.{RunsLines, RunsLive};
ghost use Rattle.ec_console.specs.Explaining.{IsLeft};
ghost use Rattle.ec_console.specs.Given.{given_by};
ghost use Rattle.ec_console.specs.Stating.{RunsBehind, RunsSource, RunsStated};
ghost use Rattle.ec_wire.specs.Wires.{Traffic, nothing_sent};
ghost use Rattle.ec_app.specs.Running.{IsSilent, LeavesApp, RunsWork, does_of, form_of, source_of};

use crate::places::Place;
use cmd_loop::run_loopback;
use cmd_master::{MasterOptions, run_connected};
use cmd_segment::{Endpoint, run_plant, run_segment};
use cmd_sim::{run_live, run_script};
use ec_console::{
    Capture, Console, InputStream, Interfaces, Manner, OutputStream, Refusal, SlaveForm, Source,
    Stated, TextRead, close_capture, lines_before, open_capture, read_behind, read_source,
    read_stated,
};
use ec_wire::{App, Loopback};
use std::alloc::Global;
use std::fs::Files;
use std::io::{Read, Write};
use std::net::Net;
use std::time::Clock;

/// What is done with a machine.
#[derive(Clone, Copy, Drop)]
pub enum Work<'a> {
    /// The lines of its script are run.
    Script(Manner),
    /// The lines that the input gives are run as they come.
    Live(Manner),
    /// So many cycles are run over sockets of this process.
    Cycles(u16),
    /// Its slaves are served, in a form.
    Segment(SlaveForm, Endpoint),
    /// Its slaves are served, in a form, and the lines that the input gives move them.
    Plant(SlaveForm, Endpoint, Manner),
    /// The lines that the input gives move its master.
    Master(MasterOptions<'a>),
}

impl Work<'_> {
    /// What is read of the input for it.
    fn source(&self) -> Source
        ensures { result ≡ source_of self.now }
    {
        match *self {
            Work::Script(_) => Source::Script,
            Work::Live(_) | Work::Plant(_, _, _) | Work::Master(_) => Source::Lines,
            Work::Cycles(_) | Work::Segment(_, _) => Source::Table,
        }
    }

    /// The form in which its slaves are shown.
    fn form(&self) -> SlaveForm
        ensures { result ≡ form_of self.now }
    {
        match *self {
            Work::Segment(form, _) | Work::Plant(form, _, _) => form,
            Work::Script(_) | Work::Live(_) | Work::Cycles(_) | Work::Master(_) => SlaveForm::Plain,
        }
    }

    /// The interfaces of its capture.
    fn interfaces(&self) -> Interfaces {
        match *self {
            Work::Script(_) | Work::Live(_) => Interfaces::Segment,
            Work::Cycles(_) => Interfaces::One("loop"),
            Work::Segment(_, _) | Work::Plant(_, _, _) => Interfaces::One("segment"),
            Work::Master(_) => Interfaces::One("master"),
        }
    }
}

/// The inputs of some work: the text of its table, if that was read before, and where that and its lines are.
#[derive(Clone, Copy, Drop)]
pub(crate) struct WorkInputs<'a> {
    pub(crate) table: Option<&'a str>,
    pub(crate) place: Place<'a>,
}

/// Does some work with the machine that the input states, or that a table states which was read before. The frames go into a capture, if
/// a file is named. A refusal is explained, if that is wanted.
///
/// # Errors
///
/// The refusal of the input or of what it states. `Refusal::Output` or `Memory` if the file couldn't be opened. The errors of the work.
/// `Refusal::Output` if that was through and the capture isn't whole.
pub(crate) fn run_work<
    H: AllocGlobal + Net + Files + Clock,
    R: Read + Drop,
    W: Write + Drop,
    F: Write + Drop,
>(
    rt: &H,
    work: Work<'_>,
    file: Option<&str>,
    inputs: WorkInputs<'_>,
    console: &mut Console<R, W, F>,
    app: &mut dyn App,
) -> Result<(), Refusal>
    ensures runs { RunsWork (option_map (λ x. x.now) inputs.entry.table) (source_of work.entry) (form_of work.entry) (does_of work.entry)
        (option_map (λ x. x.now) file.entry) (given_by R.remaining console.old.input console.new.input)
        (record { old = console.old.output; new = console.new.output })
        (record { old = console.old.faults; new = console.new.faults }) result }
    ensures alone { LeavesApp work.entry app.old app.new }
    ensures explains { IsLeft console.old.explanation console.new.explanation }
{
    match inputs.table {
        None => run_whole(rt, work, file, console, app),
        Some(table) => run_behind(rt, work, file, (table, inputs.place), console, app),
    }
}

/// Does some work with the machine that the input states.
#[tactic(auto, using(crate::proofs::RunLemmas::left_alone))]
fn run_whole<
    H: AllocGlobal + Net + Files + Clock,
    R: Read + Drop,
    W: Write + Drop,
    F: Write + Drop,
>(
    rt: &H,
    work: Work<'_>,
    file: Option<&str>,
    console: &mut Console<R, W, F>,
    app: &mut dyn App,
) -> Result<(), Refusal>
    ensures runs { RunsSource (source_of work.entry) (form_of work.entry) (option_map (λ x. x.now) file.entry)
        (does_of work.entry (record { old = console.old.output; new = console.new.output })
        (record { old = console.old.faults; new = console.new.faults }))
        (IsSilent (record { old = console.old.output; new = console.new.output })
        (record { old = console.old.faults; new = console.new.faults }))
        (given_by R.remaining console.old.input console.new.input) result }
    ensures alone { LeavesApp work.entry app.old app.new }
    ensures explains { IsLeft console.old.explanation console.new.explanation }
{
    let text = read_source(rt.alloc(), work.source(), &mut console.input)?;
    let ended = run_text(rt, work, file, text.as_str(), console, app);
    let read = TextRead {
        source: work.source(),
        text: text.as_str(),
        names: Place::Standard.names(None),
    };
    console.explanation.explain(rt.alloc(), read, &ended);
    ended
}

/// Does some work with the machine that a table states which was read before.
#[tactic(auto, using(crate::proofs::RunLemmas::left_alone))]
fn run_behind<
    H: AllocGlobal + Net + Files + Clock,
    R: Read + Drop,
    W: Write + Drop,
    F: Write + Drop,
>(
    rt: &H,
    work: Work<'_>,
    file: Option<&str>,
    given: (&str, Place<'_>),
    console: &mut Console<R, W, F>,
    app: &mut dyn App,
) -> Result<(), Refusal>
    ensures runs { RunsBehind given.entry.0.now (source_of work.entry) (form_of work.entry) (option_map (λ x. x.now) file.entry)
        (does_of work.entry (record { old = console.old.output; new = console.new.output })
        (record { old = console.old.faults; new = console.new.faults }))
        (IsSilent (record { old = console.old.output; new = console.new.output })
        (record { old = console.old.faults; new = console.new.faults }))
        (given_by R.remaining console.old.input console.new.input) result }
    ensures alone { LeavesApp work.entry app.old app.new }
    ensures explains { IsLeft console.old.explanation console.new.explanation }
{
    let (table, place) = given;
    let text = read_behind(rt.alloc(), work.source(), table, &mut console.input)?;
    let ended = run_text(rt, work, file, text.as_str(), console, app);
    let read = TextRead {
        source: work.source(),
        text: text.as_str(),
        names: place.names(Some(lines_before(table))),
    };
    console.explanation.explain(rt.alloc(), read, &ended);
    ended
}

/// Does some work with the machine that a text states.
#[tactic(auto, using(crate::proofs::RunLemmas::left_alone))]
fn run_text<H: AllocGlobal + Net + Files + Clock, R: Read + Drop, W: Write + Drop, F: Write + Drop>(
    rt: &H,
    work: Work<'_>,
    file: Option<&str>,
    text: &str,
    console: &mut Console<R, W, F>,
    app: &mut dyn App,
) -> Result<(), Refusal>
    ensures runs { RunsStated (source_of work.entry) (form_of work.entry) (option_map (λ x. x.now) file.entry)
        (does_of work.entry (record { old = console.old.output; new = console.new.output })
        (record { old = console.old.faults; new = console.new.faults }) (given_by R.remaining console.old.input console.new.input))
        (IsSilent (record { old = console.old.output; new = console.new.output })
        (record { old = console.old.faults; new = console.new.faults })) text.now result }
    ensures alone { LeavesApp work.entry app.old app.new }
    ensures explanation { console.new.explanation ≡ console.old.explanation }
{
    let stated = read_stated(rt.alloc(), work.source(), work.form(), text)?;
    let mut capture = open_capture(rt, file, work.interfaces(), stated.machine.table())?;
    let ended = run_on(rt, work, stated, &mut capture, console, app);
    close_capture(ended, &capture)
}

/// Does some work with a machine. The frames go into an open capture, if there is one.
fn run_on<H: AllocGlobal + Net + Files + Clock, R: Read + Drop, W: Write + Drop, F: Write + Drop>(
    rt: &H,
    work: Work<'_>,
    stated: Stated,
    capture: &mut Capture<H::File>,
    console: &mut Console<R, W, F>,
    app: &mut dyn App,
) -> Result<(), Refusal>
    ensures runs { does_of work.entry (record { old = console.old.output; new = console.new.output })
        (record { old = console.old.faults; new = console.new.faults }) (given_by R.remaining console.old.input console.new.input)
        stated.machine stated.lines result }
    ensures still_open { is_some capture.new ≡ is_some capture.old }
    ensures alone { LeavesApp work.entry app.old app.new }
    ensures explanation { console.new.explanation ≡ console.old.explanation }
{
    match work {
        Work::Script(manner) => {
            run_lines(rt.alloc(), stated, manner, capture, &mut console.output)
        }
        Work::Live(manner) => {
            run_coming(
                rt.alloc(),
                stated,
                manner,
                capture,
                &mut console.input,
                &mut console.output,
            )
        }
        Work::Cycles(cycles) => {
            run_cycles(rt, stated, cycles, capture, &mut console.output, app)
        }
        Work::Segment(_, endpoint) => {
            serve(
                rt,
                stated,
                endpoint,
                capture,
                &mut console.output,
                &mut console.faults,
                app,
            )
        }
        Work::Plant(_, endpoint, manner) => {
            run_plant(rt, &stated.machine, endpoint, manner, capture, console)
        }
        Work::Master(options) => {
            run_connected(
                rt,
                stated.machine,
                options,
                capture,
                &mut console.input,
                &mut console.output,
            )
        }
    }
}

/// Runs the lines of a script.
fn run_lines<F: Write + Drop, W: Write + Drop>(
    alloc: Global,
    stated: Stated,
    manner: Manner,
    capture: &mut Capture<F>,
    output: &mut OutputStream<W>,
) -> Result<(), Refusal>
    ensures runs { RunsLines manner stated.machine stated.lines output.old output.new result }
    ensures still_open { is_some capture.new ≡ is_some capture.old }
{
    run_script(
        alloc,
        &stated.machine,
        manner,
        &stated.lines,
        capture,
        output,
    )
}

/// Runs the lines that the input gives as they come.
fn run_coming<F: Write + Drop, R: Read + Drop, W: Write + Drop>(
    alloc: Global,
    stated: Stated,
    manner: Manner,
    capture: &mut Capture<F>,
    input: &mut InputStream<R>,
    output: &mut OutputStream<W>,
) -> Result<(), Refusal>
    ensures runs { RunsLive manner stated.machine (given_by R.remaining input.old input.new) output.old output.new result }
    ensures still_open { is_some capture.new ≡ is_some capture.old }
{
    run_live(alloc, &stated.machine, manner, capture, input, output)
}

/// Runs cycles over sockets of this process, over which nothing was sent before.
fn run_cycles<H: AllocGlobal + Net + Files + Clock, W: Write + Drop>(
    rt: &H,
    stated: Stated,
    cycles: u16,
    capture: &mut Capture<H::File>,
    output: &mut OutputStream<W>,
    app: &mut dyn App,
) -> Result<(), Refusal>
    ensures loops { (after : Traffic) × LoopsOnSockets cycles stated.machine output.old output.new nothing_sent after result }
    ensures still_open { is_some capture.new ≡ is_some capture.old }
{
    let mut loopback = Loopback::new(app);
    run_loopback(rt, &stated.machine, cycles, capture, output, &mut loopback)
}

/// Serves the slaves of a machine.
fn serve<H: AllocGlobal + Net + Files + Clock, W: Write + Drop, F: Write + Drop>(
    rt: &H,
    stated: Stated,
    endpoint: Endpoint,
    capture: &mut Capture<H::File>,
    output: &mut OutputStream<W>,
    faults: &mut OutputStream<F>,
    app: &mut dyn App,
) -> Result<(), Refusal>
    ensures serves { ServesMachine endpoint.descriptor (ipv4_octets endpoint.address) endpoint.port endpoint.frames stated.machine
        output.old output.new faults.old faults.new result }
    ensures still_open { is_some capture.new ≡ is_some capture.old }
{
    run_segment(rt, &stated.machine, endpoint, capture, output, faults, app)
}

//! All commands, by their arguments.
ghost use Rattle.std.specs.Prelude.{◌≡◌, ◌∷◌, [], IfErr, IfOk, is_some, map, option_map, string_bytes, Contains, Result};
ghost use Rattle.ec_args.specs.Requests.{Reads, arguments_of, command_of};
ghost use Rattle.ec_args.specs.declared.request.Arguments.{Arguments as ArgumentsValue};
ghost use Rattle.ec_args.specs.declared.request.Notice.{Notice as NoticeValue};
ghost use Rattle.ec_console.specs.Explaining.{IsLeft};
ghost use Rattle.ec_console.specs.Stating.{left_in};
ghost use Rattle.ec_console.specs.declared.files.Origin.TheVariants.{Given as GivenOrigin};
ghost use Rattle.ec_app.specs.Placing.{AllStandard, kind_of};
ghost use Rattle.ec_app.specs.Running.{Announces, Ends, EndsAlone, EndsOwning, GivesTable, IsWorkOf, LeavesAlone, LeavesAppOf, LeavesInput, Runs, RunsArguments, RunsAt, RunsBoth, RunsOpened, RunsTabled, Eprints, EprintsWith, unwritten};
ghost use Rattle.ec_console.specs.Given.{IsUnread, given_by};

use crate::pass::print_pass;
use crate::places::{Place, WAITING, explains, waits};
use crate::plan::{PlanForm, prefix_or, print_plan};
use crate::remarked::print_payloads;
use crate::scan::{ScanFiles, print_scan};
use crate::translate::print_encode;
use crate::work::{Work, WorkInputs, run_work};
use crate::wrong::wrong_of;
use cmd_master::MasterOptions;
use cmd_scan::ScanOptions;
use cmd_segment::Endpoint;
use ec_annotate::Names;
use ec_args::{Arguments, Notice, Request, SegmentOptions, read_args};
use ec_console::{
    Console, Explanation, InputStream, Manner, Origin, OutputStream, Refusal, SlaveForm, open_file,
    print_text, read_file, read_text,
};
use ec_wire::App;
use std::convert::AsStr;
use std::fs::Files;
use std::io::{Read, Write};
use std::net::{Ipv4Addr, Net};
use std::time::Clock;

/// Runs the command that the words ask for, and returns the exit status, as [`run_console`] does. The first word is the program's name.
/// A command that reads a text reads `input`. What it prints goes to `output`, and what failed to `faults`. Simulated slaves take their
/// inputs from `app`.
///
/// It takes the streams by value and drops them at the end. A `&mut` to a reader or a writer is one too: lend them to look at them
/// afterwards. [`run_console`] gives the streams back, and its contract says what they then hold.
pub fn run_command<
    H: AllocGlobal + Net + Files + Clock,
    S: AsStr,
    R: Read + Drop,
    W: Write + Drop,
    F: Write + Drop,
>(rt: &H, words: &[S], input: R, output: W, faults: F, app: &mut dyn App) -> u8
    ensures ends { EndsOwning (left_in {O = H.File} R.remaining) (map S.text words.now) (GivenOrigin input) (unwritten (W.contents output)) (unwritten (F.contents faults))
        app.old app.new result }
    ensures status { Contains (0 ∷ 2 ∷ 3 ∷ 4 ∷ 5 ∷ []) result }
{
    let mut console = Console::new(
        rt.alloc(),
        InputStream::new(Origin::Given(input)),
        OutputStream::new(output),
        OutputStream::new(faults),
    );
    run_console(rt, words, &mut console, app)
}

/// Runs the command that the words ask for, and returns the exit status. The first word is the program's name. The status is 0 if all was
/// done, or help is on the output. It is 2 if the words ask for no command, and 3 after a refusal. It is 4 after a fault of input or
/// output, and 5 if what a script expects doesn't hold. The console's `faults` gets what failed, with an explanation behind it if the
/// words ask for one. A fault in writing it changes nothing.
///
/// Simulated slaves take their inputs from `app`. A command that reads a text reads the console's `input`, unless the words name a file:
/// then the file takes its place there. A refusal is explained, too, if the console says that `faults` is a terminal.
pub fn run_console<
    H: AllocGlobal + Net + Files + Clock,
    S: AsStr,
    R: Read + Drop,
    W: Write + Drop,
    F: Write + Drop,
>(rt: &H, words: &[S], console: &mut Console<Origin<R, H::File>, W, F>, app: &mut dyn App) -> u8
    // What `clap`'s specification finds in the words decides how the run ends, and what it leaves alone.
    ensures ends { (read : Result ArgumentsValue NoticeValue) × Reads (map S.text words.now) read
        × Ends read console.old.terminals (given_by (left_in R.remaining) console.old.input console.new.input)
        (record { old = console.old.output; new = console.new.output })
        (record { old = console.old.faults; new = console.new.faults }) result
        × EndsAlone read console.old.input console.new.input app.old app.new }
    ensures status { Contains (0 ∷ 2 ∷ 3 ∷ 4 ∷ 5 ∷ []) result }
    ensures unprinted { result ≡ 2 → console.new.output ≡ console.old.output }
{
    end_run(rt, read_args(rt.alloc(), words), console, app)
}

/// Ends a run whose arguments were read: runs the command, or prints the notice that stands in its
/// place, and returns the exit status.
fn end_run<H: AllocGlobal + Net + Files + Clock, R: Read + Drop, W: Write + Drop, F: Write + Drop>(
    rt: &H,
    read: Result<Arguments<'_>, Notice>,
    console: &mut Console<Origin<R, H::File>, W, F>,
    app: &mut dyn App,
) -> u8
    ensures ends { Ends read.entry console.old.terminals (given_by (left_in R.remaining) console.old.input console.new.input)
        (record { old = console.old.output; new = console.new.output })
        (record { old = console.old.faults; new = console.new.faults }) result }
    ensures alone { EndsAlone read.entry console.old.input console.new.input app.old app.new }
    ensures status { Contains (0 ∷ 2 ∷ 3 ∷ 4 ∷ 5 ∷ []) result }
    ensures unprinted { result ≡ 2 → console.new.output ≡ console.old.output }
{
    match read {
        Ok(arguments) => {
            if let Some(wrong) = wrong_of(&arguments.request) {
                console.faults.eprint_text(wrong.text().as_bytes());
                return 2;
            }
            let wanted = explains(&arguments, console.terminals);
            console.explanation = Explanation::new(rt.alloc(), wanted);
            let ended = run_arguments(rt, arguments, console, app);
            explained_status(ended, console.explanation.as_bytes(), &mut console.faults)
        }
        Err(Notice::Memory) => exit_status(Err(Refusal::Memory), &mut console.faults),
        Err(Notice::Help(text)) => {
            let ended = print_text(text.as_bytes(), &mut console.output);
            exit_status(ended, &mut console.faults)
        }
        Err(Notice::Usage(text)) => {
            console.faults.eprint_text(text.as_bytes());
            2
        }
    }
}

/// Runs a command on its inputs. If it waits for someone who types, it says so before. A fault of a stream is explained, if that is
/// wanted.
fn run_arguments<
    H: AllocGlobal + Net + Files + Clock,
    R: Read + Drop,
    W: Write + Drop,
    F: Write + Drop,
>(
    rt: &H,
    arguments: Arguments<'_>,
    console: &mut Console<Origin<R, H::File>, W, F>,
    app: &mut dyn App,
) -> Result<(), Refusal>
    ensures runs { RunsArguments arguments.entry console.old.terminals (given_by (left_in R.remaining) console.old.input console.new.input)
        (record { old = console.old.output; new = console.new.output })
        (record { old = console.old.faults; new = console.new.faults }) result }
    ensures alone { LeavesAlone (command_of arguments.entry.request) console.old.input console.new.input app.old app.new }
    ensures explains { IsLeft console.old.explanation console.new.explanation }
{
    announce(waits(&arguments, console.terminals), &mut console.faults);
    let place = Place::of(&arguments.request, arguments.inputs);
    let ended = run_at(rt, place, arguments.request, console, app);
    console
        .explanation
        .explain_stream(rt.alloc(), place.file(), &ended);
    ended
}

/// Says that a command waits for someone who types, if it does.
fn announce<F: Write + Drop>(is_waiting: bool, faults: &mut OutputStream<F>)
    ensures { Announces is_waiting faults.old faults.new }
{
    if is_waiting {
        faults.eprint_text(WAITING.as_bytes());
    }
}

/// Runs a command on inputs in some place. A file takes the place of the console's input.
fn run_at<H: AllocGlobal + Net + Files + Clock, R: Read + Drop, W: Write + Drop, F: Write + Drop>(
    rt: &H,
    place: Place<'_>,
    request: Request<'_>,
    console: &mut Console<Origin<R, H::File>, W, F>,
    app: &mut dyn App,
) -> Result<(), Refusal>
    ensures runs { RunsAt (kind_of place.entry) (command_of request.entry) (given_by (left_in R.remaining) console.old.input console.new.input)
        (record { old = console.old.output; new = console.new.output })
        (record { old = console.old.faults; new = console.new.faults }) result }
    ensures input { kind_of place.entry ≡ AllStandard → LeavesInput (command_of request.entry) console.old.input console.new.input }
    ensures app { LeavesAppOf (command_of request.entry) app.old app.new }
    ensures explains { IsLeft console.old.explanation console.new.explanation }
{
    match place {
        Place::Standard => {
            let inputs = WorkInputs { table: None, place };
            run_request(rt, request, inputs, console, app)
        }
        Place::File(file) => {
            let inputs = WorkInputs { table: None, place };
            run_opened(rt, request, file, inputs, console, app)
        }
        Place::Table(file) => run_tabled(rt, request, file, console, app),
        Place::Lines(table, lines) => run_both(rt, request, (table, lines), console, app),
    }
}

/// Runs a command whose table is in a file.
fn run_tabled<
    H: AllocGlobal + Net + Files + Clock,
    R: Read + Drop,
    W: Write + Drop,
    F: Write + Drop,
>(
    rt: &H,
    request: Request<'_>,
    file: &str,
    console: &mut Console<R, W, F>,
    app: &mut dyn App,
) -> Result<(), Refusal>
    ensures runs { RunsTabled (command_of request.entry) (given_by R.remaining console.old.input console.new.input)
        (record { old = console.old.output; new = console.new.output })
        (record { old = console.old.faults; new = console.new.faults }) result }
    ensures app { LeavesAppOf (command_of request.entry) app.old app.new }
    ensures explains { IsLeft console.old.explanation console.new.explanation }
{
    let table = read_file(rt, file, &mut console.explanation)?;
    let inputs = WorkInputs {
        table: Some(table.as_str()),
        place: Place::Table(file),
    };
    run_request(rt, request, inputs, console, app)
}

/// Runs a command whose lines are in a file, and whose table is in a file too or on the console's input.
fn run_both<H: AllocGlobal + Net + Files + Clock, R: Read + Drop, W: Write + Drop, F: Write + Drop>(
    rt: &H,
    request: Request<'_>,
    files: (Option<&str>, &str),
    console: &mut Console<Origin<R, H::File>, W, F>,
    app: &mut dyn App,
) -> Result<(), Refusal>
    ensures runs { RunsBoth (is_some (option_map (λ x. x.now) files.entry.0)) (command_of request.entry) (given_by (left_in R.remaining) console.old.input console.new.input)
        (record { old = console.old.output; new = console.new.output })
        (record { old = console.old.faults; new = console.new.faults }) result }
    ensures app { LeavesAppOf (command_of request.entry) app.old app.new }
    ensures explains { IsLeft console.old.explanation console.new.explanation }
{
    let (table, lines) = files;
    let text = read_table(rt, table, console)?;
    let inputs = WorkInputs {
        table: Some(text.as_str()),
        place: Place::Lines(table, lines),
    };
    run_opened(rt, request, lines, inputs, console, app)
}

/// The text of a table in a file, or of the console's whole input.
fn read_table<H: AllocGlobal + Files, R: Read + Drop, W: Write + Drop, F: Write + Drop>(
    rt: &H,
    file: Option<&str>,
    console: &mut Console<R, W, F>,
) -> Result<String, Refusal>
    ensures gives { IfOk result (λ text. GivesTable (is_some (option_map (λ x. x.now) file.entry)) (given_by R.remaining console.old.input console.new.input) (string_bytes text)) }
    ensures refused { IfErr result IsUnread }
    ensures output { console.new.output ≡ console.old.output }
    ensures faults { console.new.faults ≡ console.old.faults }
    ensures explains { IsLeft console.old.explanation console.new.explanation }
{
    match file {
        Some(file) => read_file(rt, file, &mut console.explanation),
        None => read_text(rt.alloc(), &mut console.input),
    }
}

/// Runs a command with a file in the place of the console's input.
fn run_opened<
    H: AllocGlobal + Net + Files + Clock,
    R: Read + Drop,
    W: Write + Drop,
    F: Write + Drop,
>(
    rt: &H,
    request: Request<'_>,
    file: &str,
    inputs: WorkInputs<'_>,
    console: &mut Console<Origin<R, H::File>, W, F>,
    app: &mut dyn App,
) -> Result<(), Refusal>
    ensures runs { RunsOpened (option_map (λ x. x.now) inputs.entry.table) (command_of request.entry) console.new.input.is_refused
        (record { old = console.old.output; new = console.new.output })
        (record { old = console.old.faults; new = console.new.faults }) result }
    ensures app { LeavesAppOf (command_of request.entry) app.old app.new }
    ensures explains { IsLeft console.old.explanation console.new.explanation }
{
    let file = open_file(rt, file, &mut console.explanation)?;
    console.input = InputStream::new(Origin::Opened(file));
    run_request(rt, request, inputs, console, app)
}

/// The exit status of a run; writes its refusal, if it has one, to `faults`, with `more` behind the line.
fn explained_status<F: Write + Drop>(
    ended: Result<(), Refusal>,
    more: &[u8],
    faults: &mut OutputStream<F>,
) -> u8
    ensures { EprintsWith more.now (record { old = faults.old; new = faults.new })
        result ended }
{
    match ended {
        Ok(()) => 0,
        Err(refusal) => faults.eprint_explained(&refusal, more),
    }
}

/// The exit status of a run; writes its refusal, if it has one, to `faults`. A fault in writing changes nothing.
fn exit_status<F: Write + Drop>(ended: Result<(), Refusal>, faults: &mut OutputStream<F>) -> u8
    ensures { Eprints (record { old = faults.old; new = faults.new })
        result ended }
{
    match ended {
        Ok(()) => 0,
        Err(refusal) => faults.eprint_refusal(&refusal),
    }
}

/// The work of a segment.
fn segment_work<'a>(options: SegmentOptions<'_>, explained: bool) -> Work<'a>
    ensures { IsWorkOf (arguments_of options.entry) explained result }
{
    let endpoint = Endpoint {
        frames: options.frames,
        address: options.bind.parse().unwrap_or(Ipv4Addr::LOCALHOST),
        port: options.port,
        descriptor: options.descriptor,
        idle: options.idle,
    };
    let form = SlaveForm::of(options.full);
    if options.live {
        Work::Plant(form, endpoint, Manner::of(explained, options.strict))
    } else {
        Work::Segment(form, endpoint)
    }
}

/// Runs one command on the console's input. `app` and sockets are for commands that simulate slaves or serve them; `faults`
/// is for what a command says while it runs.
fn run_request<
    H: AllocGlobal + Net + Files + Clock,
    R: Read + Drop,
    W: Write + Drop,
    F: Write + Drop,
>(
    rt: &H,
    request: Request<'_>,
    inputs: WorkInputs<'_>,
    console: &mut Console<R, W, F>,
    app: &mut dyn App,
) -> Result<(), Refusal>
    ensures runs { Runs (option_map (λ x. x.now) inputs.entry.table) (command_of request.entry) (given_by R.remaining console.old.input console.new.input)
        (record { old = console.old.output; new = console.new.output })
        (record { old = console.old.faults; new = console.new.faults }) result }
    ensures alone { LeavesAlone (command_of request.entry) console.old.input console.new.input app.old app.new }
    ensures explains { IsLeft console.old.explanation console.new.explanation }
{
    match request {
        Request::Pass { slaves, frame } => {
            print_pass(rt.alloc(), slaves.into(), frame, &mut console.output)
        }
        Request::Plan {
            header,
            prefix,
            explained,
        } => {
            print_plan(
                rt.alloc(),
                PlanForm::of(header, explained),
                prefix_or(prefix),
                inputs.place.file(),
                &mut console.input,
                &mut console.output,
                &mut console.explanation,
            )
        }
        Request::Decode { table, explained } => {
            print_payloads(
                rt,
                table,
                Names::of(explained),
                &mut console.input,
                &mut console.output,
                &mut console.explanation,
            )
        }
        Request::Encode => print_encode(rt.alloc(), &mut console.input, &mut console.output),
        Request::Sim {
            live: false,
            capture,
            explained,
            strict,
        } => run_work(
            rt,
            Work::Script(Manner::of(explained, strict)),
            capture,
            inputs,
            console,
            app,
        ),
        Request::Sim {
            live: true,
            capture,
            explained,
            strict,
        } => run_work(
            rt,
            Work::Live(Manner::of(explained, strict)),
            capture,
            inputs,
            console,
            app,
        ),
        Request::Loop {
            cycles,
            capture,
            ..
        } => run_work(rt, Work::Cycles(cycles), capture, inputs, console, app),
        Request::Segment {
            options,
            capture,
            explained,
        } => run_work(
            rt,
            segment_work(options, explained),
            capture,
            inputs,
            console,
            app,
        ),
        Request::Master {
            to,
            descriptor,
            patience,
            capture,
            explained,
            strict,
        } => {
            let options = MasterOptions {
                to,
                descriptor,
                patience,
                manner: Manner::of(explained, strict),
            };
            run_work(rt, Work::Master(options), capture, inputs, console, app)
        }
        Request::Scan {
            to,
            descriptor,
            patience,
            against,
            capture,
            ..
        } => {
            let options = ScanOptions {
                to,
                descriptor,
                patience,
            };
            print_scan(
                rt,
                options,
                ScanFiles { against, capture },
                &mut console.output,
                &mut console.explanation,
            )
        }
    }
}

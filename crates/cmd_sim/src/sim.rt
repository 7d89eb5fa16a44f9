//! `ecat sim`: runs lines over a simulated segment of a machine, with a capture if there is to be one.
ghost use Rattle.std.specs.Prelude.{◌≡◌, ℕ, IfErr, IfOk, OnErr, false, is_some};
ghost use Rattle.ec_lines.specs.Inputs.{bytes_left};
ghost use Rattle.ec_world.specs.World.{WorldState};
ghost use Rattle.ec_script.specs.Scripts.{repeated};
ghost use Rattle.ec_simulation.specs.Observing.{Observes};
ghost use Rattle.ec_console.specs.Coming.{ComesOut, ComesPart};
ghost use Rattle.ec_console.specs.Given.{given_by};
ghost use Rattle.ec_console.specs.Saying.{IsLate, PrintsAll, PrintsPart};
ghost use Rattle.ec_console.specs.Unmet.{counted};
ghost use Rattle.cmd_sim.specs.Capturing.{NotesRun};
ghost use Rattle.cmd_sim.specs.Simulating.{RunsLines, RunsLive, SaysLine, line_read};

use crate::simulation::Simulation;
use crate::watch::Watch;
use ec_console::{
    Capture, InputStream, Manner, OutputStream, Refusal, end_of, run_input, run_lines,
};
use ec_link::Machine;
use ec_script::Script;
use ec_world::{Unwatched, Watcher, World};
use std::alloc::Global;
use std::io::{Read, Write};

/// Runs the lines of a script over a new segment of a machine, each as many times as it says. Its slaves begin at power-on, with the
/// identities of the table. The text of a line is printed before the next line runs, and with reasons also why it says `no`. The
/// frames go into an open capture, if there is one.
///
/// # Errors
///
/// `Refusal::Memory` or `Refusal::Output` if memory or a write was refused; what was printed until then stays. `Refusal::Unmet` if
/// what lines expect isn't so.
pub fn run_script<F: Write + Drop, W: Write + Drop>(
    alloc: Global,
    machine: &Machine,
    manner: Manner,
    lines: &Script,
    capture: &mut Capture<F>,
    output: &mut OutputStream<W>,
) -> Result<(), Refusal>
    ensures runs { RunsLines manner machine.now lines.now output.old output.new result }
    ensures still_open { is_some capture.new ≡ is_some capture.old }
{
    let world = World::of_machine(alloc, machine)?;
    let simulation = Simulation::new(world, machine, manner, Unwatched);
    let unmet = print_captured(alloc, simulation, lines, capture, output)?;
    end_of(unmet)
}

/// Runs the lines that an input gives over a new segment of a machine, each as it comes. The text of a line is printed before the next
/// one is read. A line that can't be read prints `bad` and its number, and does nothing. With reasons, why a line is bad or says `no`
/// stands behind its text. The slaves begin at power-on, with the identities of the table. The frames go into an open capture, if there is one.
///
/// # Errors
///
/// `Refusal::Unmet` if what a line expected wasn't so. `Refusal::Input`, `Output` or `Memory` if a read, a write or memory was
/// refused; what was printed until then stays.
pub fn run_live<F: Write + Drop, R: Read + Drop, W: Write + Drop>(
    alloc: Global,
    machine: &Machine,
    manner: Manner,
    capture: &mut Capture<F>,
    input: &mut InputStream<R>,
    output: &mut OutputStream<W>,
) -> Result<(), Refusal>
    ensures runs { RunsLive manner machine.now (given_by R.remaining input.old input.new) output.old output.new result }
    ensures still_open { is_some capture.new ≡ is_some capture.old }
{
    let world = World::of_machine(alloc, machine)?;
    let simulation = Simulation::new(world, machine, manner, Unwatched);
    let unmet = print_coming(alloc, simulation, capture, input, output)?;
    end_of(unmet)
}

/// Runs the lines of a script over a segment that is captured, each as many times as it says. It prints the text of each before the next
/// one runs, and returns how often what they expect isn't so. The capture notes exactly the frames of the run, event by event in order,
/// each where it was.
///
/// # Errors
///
/// `Refusal::Memory` or `Refusal::Output`. They cut the run short; the capture notes the run until then.
#[tactic(auto, using(crate::proofs::Noting::run_noted))]
pub fn print_noted<F: Write + Drop, W: Write + Drop>(
    alloc: Global,
    simulation: &mut Simulation<'_, Watch<F>>,
    lines: &Script,
    output: &mut OutputStream<W>,
) -> Result<u64, Refusal>
    ensures all { IfOk result (λ count. (unmet : ℕ) × (count ≡ counted unmet)
        × PrintsAll (SaysLine simulation.old.manner simulation.old.table) simulation.old.world (repeated lines.now)
        simulation.new.world unmet output.old output.new) }
    ensures part { OnErr result (PrintsPart (SaysLine simulation.old.manner simulation.old.table) simulation.old.world
        (repeated lines.now) simulation.new.world output.old output.new) }
    ensures late { IfErr result (IsLate false output.new) }
    ensures noted { NotesRun simulation.old.watcher simulation.old.world simulation.new.world simulation.new.watcher }
{
    print_lines(alloc, simulation, lines, output)
}

/// Runs the lines of a script over a segment as [`print_noted`] does. The watcher sees exactly the events of the run.
fn print_lines<S: Watcher + Drop, W: Write + Drop>(
    alloc: Global,
    simulation: &mut Simulation<'_, S>,
    lines: &Script,
    output: &mut OutputStream<W>,
) -> Result<u64, Refusal>
    ensures all { IfOk result (λ count. (unmet : ℕ) × (count ≡ counted unmet)
        × PrintsAll (SaysLine simulation.old.manner simulation.old.table) simulation.old.world (repeated lines.now)
        simulation.new.world unmet output.old output.new) }
    ensures part { OnErr result (PrintsPart (SaysLine simulation.old.manner simulation.old.table) simulation.old.world
        (repeated lines.now) simulation.new.world output.old output.new) }
    ensures late { IfErr result (IsLate false output.new) }
    ensures observed { Observes S.observed simulation.old.watcher simulation.old.world simulation.new.world simulation.new.watcher }
{
    run_lines(alloc, simulation, lines, output)
}

/// Runs the lines that an input gives over a segment, each as it comes. Returns how often what they expect isn't so.
fn print_input<S: Watcher + Drop, R: Read + Drop, W: Write + Drop>(
    alloc: Global,
    simulation: &mut Simulation<'_, S>,
    input: &mut InputStream<R>,
    output: &mut OutputStream<W>,
) -> Result<u64, Refusal>
    ensures all { IfOk result (λ count. (unmet : ℕ) × (count ≡ counted unmet)
        × ComesOut (SaysLine simulation.old.manner simulation.old.table) (λ w. simulation.old.manner)
        (line_read simulation.old.table) simulation.old.world (bytes_left R.remaining input.old) simulation.new.world unmet output.old output.new) }
    ensures part { OnErr result (ComesPart (SaysLine simulation.old.manner simulation.old.table) (λ w. simulation.old.manner)
        (line_read simulation.old.table) simulation.old.world (bytes_left R.remaining input.old) simulation.new.world output.old output.new) }
    ensures late { IfErr result (IsLate input.new.is_refused output.new) }
{
    run_input(alloc, simulation, input, output)
}

/// Runs the lines of a script over a segment. The frames go into an open capture, if there is one.
fn print_captured<F: Write + Drop, W: Write + Drop>(
    alloc: Global,
    simulation: Simulation<'_, Unwatched>,
    lines: &Script,
    capture: &mut Capture<F>,
    output: &mut OutputStream<W>,
) -> Result<u64, Refusal>
    ensures all { IfOk result (λ count. (unmet : ℕ) × (count ≡ counted unmet) × (last : WorldState)
        × PrintsAll (SaysLine simulation.entry.manner simulation.entry.table) simulation.entry.world (repeated lines.now) last unmet
        output.old output.new) }
    ensures part { OnErr result ((last : WorldState) × PrintsPart (SaysLine simulation.entry.manner simulation.entry.table)
        simulation.entry.world (repeated lines.now) last output.old output.new) }
    ensures late { IfErr result (IsLate false output.new) }
    ensures still_open { is_some capture.new ≡ is_some capture.old }
{
    match capture.take() {
        None => {
            let mut simulation = simulation;
            print_lines(alloc, &mut simulation, lines, output)
        }
        Some(recording) => {
            let mut noted = simulation.watched_by(Watch::new(recording));
            let ended = print_noted(alloc, &mut noted, lines, output);
            *capture = Some(noted.into_watcher().into_capture());
            ended
        }
    }
}

/// Runs the lines that an input gives over a segment, each as it comes. The frames go into an open capture, if there is one.
fn print_coming<F: Write + Drop, R: Read + Drop, W: Write + Drop>(
    alloc: Global,
    simulation: Simulation<'_, Unwatched>,
    capture: &mut Capture<F>,
    input: &mut InputStream<R>,
    output: &mut OutputStream<W>,
) -> Result<u64, Refusal>
    ensures all { IfOk result (λ count. (unmet : ℕ) × (count ≡ counted unmet) × (last : WorldState)
        × ComesOut (SaysLine simulation.entry.manner simulation.entry.table) (λ w. simulation.entry.manner)
        (line_read simulation.entry.table) simulation.entry.world (bytes_left R.remaining input.old) last unmet output.old output.new) }
    ensures part { OnErr result ((last : WorldState) × ComesPart (SaysLine simulation.entry.manner simulation.entry.table)
        (λ w. simulation.entry.manner) (line_read simulation.entry.table) simulation.entry.world (bytes_left R.remaining input.old) last output.old output.new) }
    ensures late { IfErr result (IsLate input.new.is_refused output.new) }
    ensures still_open { is_some capture.new ≡ is_some capture.old }
{
    match capture.take() {
        None => {
            let mut simulation = simulation;
            print_input(alloc, &mut simulation, input, output)
        }
        Some(recording) => {
            let mut watched = simulation.watched_by(Watch::new(recording));
            let ended = print_input(alloc, &mut watched, input, output);
            *capture = Some(watched.into_watcher().into_capture());
            ended
        }
    }
}

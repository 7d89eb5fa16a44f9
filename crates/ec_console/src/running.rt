//! Lines that a target obeys, one after another: those of a script, or those of an input as they come.
ghost use Rattle.std.specs.Prelude.{◌≡◌, ◌∷◌, [], ◌++◌, ℕ, List, IfErr, IfOk, OnErr, OnOk, false};
ghost use Rattle.ec_text.specs.PlanText.{newline};
ghost use Rattle.ec_lines.specs.Inputs.{bytes_left};
ghost use Rattle.ec_lines.specs.Taking.{IsTaken};
ghost use Rattle.ec_script.specs.declared.line.Task.TheVariants as task;
ghost use Rattle.ec_script.specs.Scripts.{repeated, rounds, taken_by, takes_task};
ghost use Rattle.std.specs.List.{list_all};
ghost use Rattle.ec_console.specs.Coming.{ComesOut, ComesPart, DoesTaken, IsBadText, PartOf, SaysDue, StopsIn, come, reading_at};
ghost use Rattle.ec_console.specs.Printing.{IsPartPrinted, IsPrinted};
ghost use Rattle.ec_console.specs.Saying.{IsLate, PrintsAll, PrintsPart};
ghost use Rattle.ec_console.specs.Stages.{is_end};
ghost use Rattle.ec_console.specs.Unmet.{counted, unmet_of};

use crate::bad::bad_text;
use crate::printing::print_text;
use crate::{OutputStream, Refusal, Target};
use ec_lines::{InputStream, NextLine, take_line};
use ec_listed::Listed;
use ec_script::{Draft, Due, Line, Reading, Script, Step, Task, read_line};
use std::alloc::{AllocError, Global};
use std::io::{Read, Write};

/// Does the lines of a script, each as many times as it says. The text of each is printed before the next one is done. Returns how often
/// they count as unmet.
///
/// # Errors
///
/// `Refusal::Memory` or `Refusal::Output`. They cut the run short; what was printed until then stays.
pub fn run_lines<T: Target, W: Write + Drop>(
    alloc: Global,
    target: &mut T,
    lines: &Script,
    output: &mut OutputStream<W>,
) -> Result<u64, Refusal>
    ensures all { IfOk result (λ count. (unmet : ℕ) × (count ≡ counted unmet)
        × PrintsAll T.says target.old (repeated lines.now) target.new unmet output.old output.new) }
    ensures part { OnErr result (PrintsPart T.says target.old (repeated lines.now) target.new output.old output.new) }
    ensures late { IfErr result (IsLate false output.new) }
    ensures table { T.table target.new ≡ T.table target.old }
{
    let mut unmet: u64 = 0;
    for line in lines.lines() {
        let count = obey_line(alloc, target, line, output)?;
        unmet = unmet.saturating_add(count);
    }
    Ok(unmet)
}

/// Does the lines that an input gives, each as it comes, and those of a block once it is whole. The text of a line is printed before the next
/// one is done. A line that can't be read, or with an action that the target doesn't take, prints `bad` and its number, also why if the target
/// explains, and does nothing. So does a block that is open at the end. Returns how often lines count as unmet.
///
/// # Errors
///
/// `Refusal::Memory`, `Refusal::Input` or `Refusal::Output`. They cut the run short; what was printed until then stays.
#[tactic(auto, using(crate::proofs::Late::line_late, crate::proofs::Late::unread_late))]
pub fn run_input<T: Target, R: Read + Drop, W: Write + Drop>(
    alloc: Global,
    target: &mut T,
    input: &mut InputStream<R>,
    output: &mut OutputStream<W>,
) -> Result<u64, Refusal>
    ensures all { IfOk result (λ count. (unmet : ℕ) × (count ≡ counted unmet)
        × ComesOut T.says T.manner (reading_at T.takes (T.table target.old)) target.old (bytes_left R.remaining input.old) target.new unmet
        output.old output.new) }
    ensures part { OnErr result (ComesPart T.says T.manner (reading_at T.takes (T.table target.old)) target.old (bytes_left R.remaining input.old)
        target.new output.old output.new) }
    ensures late { IfErr result (IsLate input.new.is_refused output.new) }
    ensures table { T.table target.new ≡ T.table target.old }
{
    let mut unmet: u64 = 0;
    let mut draft = Draft::new(alloc);
    for place in 0..usize::MAX {
        let taken = take_line(alloc, input)?;
        let has_ended = is_end(&taken);
        let count = obey_taken(alloc, target, &mut draft, place + 1, taken, output)?;
        unmet = unmet.saturating_add(count);
        if has_ended {
            return Ok(unmet);
        }
    }
    // There is no number for a further line.
    Err(Refusal::Memory)
}

/// Does what is due once line `number` of an input has come behind a draft, and prints its text. A line that can't be read, or with an action
/// that the target doesn't take, prints `bad` and its number, also why if the target explains, and does nothing. At the end of the input a
/// block that is open is bad. Returns how often lines count as unmet.
///
/// # Errors
///
/// `Refusal::Memory` or `Refusal::Output`. They cut the lines short; what was printed until then stays.
pub fn obey_taken<T: Target, W: Write + Drop>(
    alloc: Global,
    target: &mut T,
    draft: &mut Draft,
    number: usize,
    taken: NextLine,
    output: &mut OutputStream<W>,
) -> Result<u64, Refusal>
    ensures all { IfOk result (λ count. (unmet : ℕ) × (count ≡ counted unmet) × ((line : List ℕ) → IsTaken line taken
        → DoesTaken T.says (T.manner target.old) (reading_at T.takes (T.table target.old)) draft.old target.old number line target.new unmet
        output.old output.new)) }
    ensures draft { IfOk result (λ count. (line : List ℕ) → IsTaken line taken
        → draft.new ≡ (come (reading_at T.takes (T.table target.old)) draft.old number line).0) }
    ensures part { OnErr result ((line : List ℕ) → IsTaken line taken
        → StopsIn T.says (T.manner target.old) (reading_at T.takes (T.table target.old)) draft.old target.old number line target.new
        output.old output.new) }
    ensures late { IfErr result (IsLate false output.new) }
    ensures table { T.table target.new ≡ T.table target.old }
{
    let due = due_at(alloc, target, draft, number, &taken)?;
    obey_due(alloc, target, due, draft, &taken, output)
}

/// Whether the next line of an input is its end.
fn is_end(taken: &NextLine) -> bool
    ensures { result ≡ is_end taken.now }
{
    matches!(taken, NextLine::End)
}

/// What is due once line `number` of an input has come behind a draft, as it was taken. A line that isn't text is bad.
fn due_at<T: Target>(
    alloc: Global,
    target: &T,
    draft: &mut Draft,
    number: usize,
    taken: &NextLine,
) -> Result<Due, AllocError>
    ensures draft { IfOk result (λ due. (line : List ℕ) → IsTaken line taken.now
        → draft.new ≡ (come (reading_at T.takes (T.table target.now)) draft.old number line).0) }
    ensures due { IfOk result (λ due. (line : List ℕ) → IsTaken line taken.now
        → due ≡ (come (reading_at T.takes (T.table target.now)) draft.old number line).1) }
{
    match taken {
        NextLine::End => Ok(draft.end(alloc)),
        NextLine::Text(text) => {
            let text = draft.unindented(text.as_str());
            let reading = read_line(alloc, target.table(), number, text)?;
            draft.gather(alloc, number, text, taken_by(target, reading))
        }
        NextLine::NoText => Ok(Due::Bad(number)),
    }
}

/// Does what is due behind a line of an input, as it was taken, and prints its text. Returns how often it counts as unmet.
fn obey_due<T: Target, W: Write + Drop>(
    alloc: Global,
    target: &mut T,
    due: Due,
    draft: &Draft,
    taken: &NextLine,
    output: &mut OutputStream<W>,
) -> Result<u64, Refusal>
    ensures all { IfOk result (λ count. (unmet : ℕ) × (count ≡ counted unmet) × (printed : List ℕ)
        × SaysDue T.says (T.manner target.old) target.old due target.new printed unmet
        × IsPrinted output.old output.new printed) }
    ensures part { OnErr result (PartOf T.says (T.manner target.old) target.old due target.new output.old output.new) }
    ensures late { IfErr result (IsLate false output.new) }
    ensures table { T.table target.new ≡ T.table target.old }
{
    match due {
        Due::Lines(lines) => run_lines(alloc, target, &lines, output),
        Due::Bad(number) => {
            print_bad(alloc, target, number, draft, taken, output)?;
            Ok(count_of(target.manner().strict))
        }
    }
}

/// How often something counts as unmet, by whether it does.
fn count_of(is_unmet: bool) -> u64
    ensures { result ≡ unmet_of is_unmet }
{
    if is_unmet { 1 } else { 0 }
}

/// Does the tasks of a line as many times as it says. The text of each is printed before the next one is done. Returns how often they count
/// as unmet.
fn obey_line<T: Target, W: Write + Drop>(
    alloc: Global,
    target: &mut T,
    line: &Line,
    output: &mut OutputStream<W>,
) -> Result<u64, Refusal>
    ensures all { IfOk result (λ count. (unmet : ℕ) × (count ≡ counted unmet)
        × PrintsAll T.says target.old (rounds line.now.times line.now.tasks) target.new unmet output.old output.new) }
    ensures part { OnErr result (PrintsPart T.says target.old (rounds line.now.times line.now.tasks) target.new output.old output.new) }
    ensures late { IfErr result (IsLate false output.new) }
    ensures table { T.table target.new ≡ T.table target.old }
{
    let mut unmet: u64 = 0;
    for _ in 0..line.times {
        let count = obey_tasks(alloc, target, line.tasks.as_slice(), output)?;
        unmet = unmet.saturating_add(count);
    }
    Ok(unmet)
}

/// Does tasks one after another. The text of each is printed before the next one is done. Returns how often they count as unmet.
fn obey_tasks<T: Target, W: Write + Drop>(
    alloc: Global,
    target: &mut T,
    tasks: &[Task],
    output: &mut OutputStream<W>,
) -> Result<u64, Refusal>
    ensures all { IfOk result (λ count. (unmet : ℕ) × (count ≡ counted unmet)
        × PrintsAll T.says target.old tasks.now target.new unmet output.old output.new) }
    ensures part { OnErr result (PrintsPart T.says target.old tasks.now target.new output.old output.new) }
    ensures late { IfErr result (IsLate false output.new) }
    ensures table { T.table target.new ≡ T.table target.old }
{
    let mut unmet: u64 = 0;
    for task in tasks {
        if obey_task(alloc, target, task, output)? {
            unmet = unmet.saturating_add(1);
        }
    }
    Ok(unmet)
}

/// Does a task and prints its text. Returns whether it counts as unmet.
fn obey_task<T: Target, W: Write + Drop>(
    alloc: Global,
    target: &mut T,
    task: &Task,
    output: &mut OutputStream<W>,
) -> Result<bool, Refusal>
    ensures all { IfOk result (λ is_unmet.
        PrintsAll T.says target.old (task.now ∷ []) target.new (unmet_of is_unmet) output.old output.new) }
    ensures part { OnErr result (PrintsPart T.says target.old (task.now ∷ []) target.new output.old output.new) }
    ensures late { IfErr result (IsLate false output.new) }
    ensures table { T.table target.new ≡ T.table target.old }
{
    match task {
        Task::Step(step) => obey_step(alloc, target, step, output),
        Task::Echo(text) => {
            print_echo(alloc, text.as_slice(), output)?;
            Ok(false)
        }
    }
}

/// Does a step and prints its text. Returns whether it counts as unmet.
#[tactic(auto, using(crate::proofs::Late::refused_late))]
fn obey_step<T: Target, W: Write + Drop>(
    alloc: Global,
    target: &mut T,
    step: &Step,
    output: &mut OutputStream<W>,
) -> Result<bool, Refusal>
    ensures all { IfOk result (λ is_unmet.
        PrintsAll T.says target.old (task.Step step.now ∷ []) target.new (unmet_of is_unmet) output.old output.new) }
    ensures part { OnErr result (PrintsPart T.says target.old (task.Step step.now ∷ []) target.new output.old output.new) }
    ensures late { IfErr result (IsLate false output.new) }
    ensures table { T.table target.new ≡ T.table target.old }
{
    let said = target.obey(alloc, step)?;
    print_text(said.text.as_bytes(), output)?;
    Ok(said.is_unmet)
}

/// Prints a text and a line end.
#[tactic(auto, using(crate::proofs::Late::write_late))]
fn print_echo<W: Write + Drop>(
    alloc: Global,
    text: &[u8],
    output: &mut OutputStream<W>,
) -> Result<(), Refusal>
    ensures all { OnOk result (IsPrinted output.old output.new (text.now ++ newline)) }
    ensures part { OnErr result (IsPartPrinted output.old output.new (text.now ++ newline)) }
    ensures late { IfErr result (IsLate false output.new) }
{
    let mut line = Listed::copied(alloc, text)?;
    line.push(b'\n')?;
    print_text(line.as_slice(), output)
}

/// Prints the text of a bad line, line `number`, behind a draft, as it was taken; or of a block that has no end.
#[tactic(auto, using(crate::proofs::Late::write_late))]
fn print_bad<T: Target, W: Write + Drop>(
    alloc: Global,
    target: &T,
    number: usize,
    draft: &Draft,
    taken: &NextLine,
    output: &mut OutputStream<W>,
) -> Result<(), Refusal>
    ensures all { OnOk result ((printed : List ℕ) × IsBadText (T.manner target.now) number printed
        × IsPrinted output.old output.new printed) }
    ensures part { OnErr result ((printed : List ℕ) × IsBadText (T.manner target.now) number printed
        × IsPartPrinted output.old output.new printed) }
    ensures late { IfErr result (IsLate false output.new) }
{
    let text = bad_text(alloc, target, number, draft, taken)?;
    print_text(text.as_bytes(), output)
}

/// What a line is to a target: one with an action that the target doesn't take is bad.
fn taken_by<T: Target>(target: &T, reading: Reading) -> Reading
    ensures { result ≡ taken_by (T.takes (T.table target.now)) reading }
{
    match reading {
        Reading::Line(line) => {
            if takes_tasks(target, line.tasks.as_slice()) {
                Reading::Line(line)
            } else {
                Reading::Bad
            }
        }
        Reading::Bad => Reading::Bad,
        Reading::Empty => Reading::Empty,
    }
}

/// Whether a target takes all of some tasks.
fn takes_tasks<T: Target>(target: &T, tasks: &[Task]) -> bool
    ensures { result ≡ list_all (takes_task (T.takes (T.table target.now))) tasks.now }
{
    for task in tasks {
        if !takes_task(target, task) {
            return false;
        }
    }
    true
}

/// Whether a target takes a task.
fn takes_task<T: Target>(target: &T, task: &Task) -> bool
    ensures { result ≡ takes_task (T.takes (T.table target.now)) task.now }
{
    match task {
        Task::Step(step) => target.takes(step.action),
        Task::Echo(_) => true,
    }
}

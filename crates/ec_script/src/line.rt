//! Lines of scripts.
ghost use Rattle.std.specs.Prelude.{◌≡◌};
ghost use Rattle.ec_script.specs.Scripts.{is_simulated, takes_line, takes_task};

use crate::expectation::Expectation;
use ec_listed::Listed;

/// What a line asks for. Variables and slaves have their places in the table, and frames their slots.
#[derive(Clone, Copy, Debug, PartialEq, Eq, Drop)]
pub enum LineAction {
    /// The next frame of the start-up is sent.
    Start,
    /// The output variable at this place is set to this value.
    Set(usize, u64),
    /// A cycle is begun: the frame of each part is sent.
    Begin,
    /// The frame in this slot passes its next slave.
    Pass(usize),
    /// The frame in this slot is lost; at a live segment, so many of the next frames are.
    Lose(usize),
    /// So many of the next cyclic frames of a part are lost: how many, and the part.
    LosePart(usize, usize),
    /// The frame in this slot comes back to the master.
    Return(usize),
    /// The cycle is closed, or a start-up that waits for its frame is given up.
    Close,
    /// The firmware of this slave makes a step.
    Serve(usize),
    /// The application of this slave writes this byte of its inputs, counted from 0.
    Put(usize, usize, u8),
    /// The application of this slave reads this byte of its outputs, counted from 0.
    Get(usize, usize),
    /// The application of this slave has a fault.
    Fail(usize),
    /// This slave is switched off and on.
    Reset(usize),
    /// The slaves that have bits of the input variable at this place write this value into them.
    Input(usize, u64),
    /// The variable at this place becomes a value that its bits can't hold: this is never done.
    Never(usize),
    /// An expectation is checked; nothing changes.
    Expect(Expectation),
    /// Cycles are run until this holds, at most so many.
    Within(u32, Expectation),
    /// A start-up is run to its end.
    Ready,
    /// A whole cycle is run.
    Cycle,
    /// The input variables are printed.
    Show,
    /// The variable at this place is printed, as the process image has it.
    ShowVariable(usize),
    /// The output variable at this place is printed, as slaves publish it.
    Output(usize),
    /// How many payloads a segment answered, and how many others came, is printed.
    Served,
    /// The last report is printed.
    Report,
    /// The AL states of all slaves are printed.
    States,
    /// The master stops. Over a wire the outputs become 0, a cycle is run, and all slaves are asked for INIT; in a simulation it
    /// gives up, and slaves stay as they are.
    Stop,
}

/// One action of a line.
#[derive(Clone, Copy, Debug, PartialEq, Eq, Drop)]
pub struct Step {
    /// The number of the line, counted from 1; empty lines count too.
    pub number: usize,
    pub action: LineAction,
    /// Whether the line expects that this can't be done.
    pub expects_no: bool,
}

/// What a line asks for: an action, or a text.
#[derive(Debug, Drop)]
pub enum Task {
    Step(Step),
    /// These bytes are printed, and a line end behind them.
    Echo(Listed<u8>),
}

/// A line of a script that isn't empty.
#[derive(Debug, Drop)]
pub struct Line {
    /// Its number, counted from 1; empty lines count too.
    pub number: usize,
    /// How often its tasks are done, all of them one time after another; 1 without `repeat`.
    pub times: u32,
    /// What it asks for, in this order.
    pub tasks: Listed<Task>,
}

/// Whether a script of simulated slaves may have this line.
pub fn is_simulated_line(line: &Line) -> bool
    ensures { result ≡ takes_line is_simulated line.now }
{
    line.tasks
        .as_slice()
        .iter()
        .all(|task| is_simulated_task(task))
}

/// Whether a script of simulated slaves may have this task.
fn is_simulated_task(task: &Task) -> bool
    ensures { result ≡ takes_task is_simulated task.now }
{
    match task {
        Task::Step(step) => is_simulated(step.action),
        Task::Echo(_) => true,
    }
}

/// Whether a script of simulated slaves may have this action: it may have any but `Report`, `LosePart` and `Served`.
pub fn is_simulated(action: LineAction) -> bool
    ensures { result ≡ is_simulated action }
{
    !matches!(
        action,
        LineAction::Report | LineAction::LosePart(_, _) | LineAction::Served
    )
}

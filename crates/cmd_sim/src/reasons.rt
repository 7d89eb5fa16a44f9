//! Why a step ended at an event that can't be made, or isn't met, as a printed line.
ghost use Rattle.std.specs.Prelude.{◌≡◌, IfOk, is_some, string_bytes};
ghost use Rattle.ec_diagnostic.specs.Reason.{IsReason};
ghost use Rattle.ec_world.specs.Watching.{sent_of};

use crate::scene::{Firmware, Scene};
use ec_console::{Misfit, greatest};
use ec_diagnostic::reason_line;
use ec_link::{Link, Variable};
use ec_script::{LineAction, LineOutput, Step};
use ec_simulation::event_of;
use ec_table::Direction;
use ec_world::{Event, World};
use std::alloc::{AllocError, Global};
use std::fmt;

/// Whether a cycle is open.
pub fn has_cycle(world: &World<'_>) -> bool
    ensures { result ≡ is_some (sent_of world.now 0) }
{
    world.sent(0).is_some()
}

/// Why a step ended at an event that can't be made, or isn't met, as a line with two blanks before it. The world of `scene` is the one that
/// the step left, and the event changed nothing of it. `had_cycle` is what [`has_cycle`] returned before the step. If the step ended
/// otherwise, the words mean nothing.
///
/// # Errors
///
/// `AllocError` if there is no memory for the text.
pub fn reason_text(
    alloc: Global,
    scene: Scene<'_, '_>,
    step: &Step,
    answer: LineOutput,
    had_cycle: bool,
) -> Result<String, AllocError>
    ensures { IfOk result (λ text. IsReason (string_bytes text)) }
{
    let why = Why {
        scene,
        step: *step,
        answer,
        had_cycle,
    };
    let words = format!(in alloc; "{why}")?;
    reason_line(alloc, words.as_str())
}

/// Why a step ended at an event that can't be made, or isn't met, in the world that it left. It is printed in words, or as nothing if there
/// is nothing to say.
#[derive(Clone, Copy)]
struct Why<'w, 'p> {
    scene: Scene<'w, 'p>,
    step: Step,
    answer: LineOutput,
    had_cycle: bool,
}

impl fmt::Display for Why<'_, '_> {
    fn fmt<W: fmt::Write>(&self, f: &mut fmt::Formatter<W>) -> fmt::Result {
        match self.answer {
            LineOutput::Unmet => self.write_unmet(f),
            _ => self.write_undone(f),
        }
    }
}

impl Why<'_, '_> {
    /// Writes why what the step expects isn't so.
    fn write_unmet<W: fmt::Write>(&self, f: &mut fmt::Formatter<W>) -> fmt::Result {
        let scene = self.scene;
        match self.step.action {
            _ if self.step.expects_no => f.write_str("the line was done, expected `no`"),
            LineAction::Expect(expected) => scene.write_missed(f, expected),
            LineAction::Within(_, expected) => {
                scene.write_missed(f, expected)?;
                if scene.world.is_ready() && !has_cycle(scene.world) {
                    return Ok(());
                }
                f.write_str("; no further cycle is run: ")?;
                self.write_no_cycle(f)
            }
            _ => Ok(()),
        }
    }

    /// Writes why a whole cycle isn't run.
    fn write_no_cycle<W: fmt::Write>(&self, f: &mut fmt::Formatter<W>) -> fmt::Result {
        if self.had_cycle || !has_cycle(self.scene.world) {
            return self.scene.write_event(f, Event::Begin);
        }
        self.scene.write_held(f)
    }

    /// Writes why the step can't be done.
    fn write_undone<W: fmt::Write>(&self, f: &mut fmt::Formatter<W>) -> fmt::Result {
        let scene = self.scene;
        match self.step.action {
            LineAction::Input(variable, value) => match still_slave(scene.world, variable, value) {
                Some(slave) => scene.write_event(f, Event::AppPut(slave, 0, 0)),
                None => scene.write_unset(f, variable, Direction::In),
            },
            LineAction::Never(variable) => f.write(Misfit {
                table: scene.table,
                variable,
            }),
            LineAction::Output(variable) => scene.write_unshown(f, variable),
            LineAction::Ready => scene.write_event(f, Event::StartNext),
            LineAction::Cycle => self.write_no_cycle(f),
            action => match event_of(action) {
                Some(event) => scene.write_event(f, event),
                None => Ok(()),
            },
        }
    }
}

/// The first slave that has bits of an input variable and isn't in SAFEOP or OP, if the variable can hold the value.
fn still_slave(world: &World<'_>, variable: usize, value: u64) -> Option<usize> {
    let variable = *world.plan().variables().get(variable)?;
    if variable.direction == Direction::Out || value > greatest(variable.bits) {
        return None;
    }
    for link in world.plan().in_links() {
        if is_of(variable, link) && !Firmware::of(world, link.slave).is_running {
            return Some(link.slave);
        }
    }
    None
}

/// Whether a link's bits of the image are among those of a variable.
fn is_of(variable: Variable, link: &Link) -> bool {
    link.image >= variable.from && link.image - variable.from < usize::from(variable.bits)
}

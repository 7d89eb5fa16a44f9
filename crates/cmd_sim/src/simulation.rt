//! A simulated segment that lines act on.
ghost use Rattle.std.specs.Prelude.{◌≡◌, IfOk, false, string_bytes, true};
ghost use Rattle.ec_ring.specs.Rings.{IsNoFrame};
ghost use Rattle.ec_start.specs.Running.{outcome_of};
ghost use Rattle.ec_world.specs.Outside.{IsCarried};
ghost use Rattle.cmd_sim.specs.Simulating.{IsLineText, is_reasoned};

use crate::reasons::{has_cycle, reason_text};
use crate::scene::Scene;
use ec_console::{Manner, Said, Target};
use ec_diagnostic::reason_line;
use ec_link::{Machine, Plan};
use ec_script::{LineAction, LineOutput, Step, is_simulated};
use ec_simulation::{printed_text, watch_action};
use ec_start::StartError;
use ec_table::Table;
use ec_world::{Watcher, World};
use std::alloc::{AllocError, Global};
use std::marker::Model;

/// A simulated segment that lines act on, and what watches its events. `manner` says how it takes lines.
#[derive(Drop)]
pub struct Simulation<'m, S: Watcher + Drop> {
    world: World<'m>,
    watcher: S,
    table: &'m Table,
    manner: Manner,
}

impl<'m, S: Watcher + Drop> Model for Simulation<'m, S> {
    ghost use Rattle.cmd_sim.specs.Simulating.{Simulated};

    ghost Value = { Simulated S };

    ghost view = { λ s. record { world = s.world; watcher = s.watcher; table = s.table.now; manner = s.manner } };
}

impl<'m, S: Watcher + Drop> Simulation<'m, S> {
    /// A world of a machine that lines act on, with a watcher.
    pub fn new(
        world: World<'m>,
        machine: &'m Machine,
        manner: Manner,
        watcher: S,
    ) -> Simulation<'m, S>
        ensures { result ≡ record { world = world.entry; watcher = watcher; table = machine.now; manner = manner } }
    {
        Simulation {
            world,
            watcher,
            table: machine.table(),
            manner,
        }
    }

    /// The same segment with another watcher.
    pub fn watched_by<V: Watcher + Drop>(self, watcher: V) -> Simulation<'m, V>
        ensures { result ≡ record { world = self.entry.world; watcher = watcher; table = self.entry.table; manner = self.entry.manner } }
    {
        let Simulation {
            world,
            watcher: _,
            table,
            manner,
        } = self;
        Simulation {
            world,
            watcher,
            table,
            manner,
        }
    }

    /// A payload of another master passes all slaves, and then each makes a firmware step. Returns whether it was a frame; if it wasn't,
    /// nothing changes. The watcher sees nothing of it.
    pub fn carry(&mut self, payload: &mut [u8]) -> bool
        ensures carried { result ≡ true → IsCarried self.old.world payload.old self.new.world payload.new }
        ensures others { self.new ≡ record self.old { world = self.new.world } }
        ensures refused { result ≡ false → IsNoFrame payload.old }
        ensures unchanged { result ≡ false → self.new ≡ self.old }
    {
        self.world.carry(payload)
    }

    /// The plan of its machine.
    pub fn plan(&self) -> &'m Plan
        ensures { result.now ≡ self.now.world.plan }
    {
        self.world.plan()
    }

    /// How the last start-up ended; `None` while it runs.
    pub fn outcome(&self) -> Option<Result<(), StartError>>
        ensures { result ≡ outcome_of self.now.world.start.phase }
    {
        self.world.outcome()
    }

    /// The text of an output of line `number`, and behind it, if a reason follows such an output, these words on a line.
    ///
    /// # Errors
    ///
    /// `AllocError` if memory ran out.
    pub fn text_with(
        &self,
        alloc: Global,
        number: usize,
        answer: LineOutput,
        words: &str,
    ) -> Result<String, AllocError>
        ensures { IfOk result (λ text. IsLineText self.now.manner self.now.table number self.now.world answer (string_bytes text)) }
    {
        let mut text = printed_text(alloc, &self.world, self.table, number, answer)?;
        if !is_reasoned(self.manner, answer) {
            return Ok(text);
        }
        let reason = reason_line(alloc, words)?;
        text.push_str(reason.as_str())?;
        Ok(text)
    }

    /// The watcher, with what it kept.
    pub fn into_watcher(self) -> S
        ensures { result ≡ self.entry.watcher }
    {
        self.watcher
    }
}

impl<'m, S: Watcher + Drop> Target for Simulation<'m, S> {
    ghost use Rattle.cmd_sim.specs.Simulating.{Simulates, takes_action};

    ghost table = { λ s. s.table };

    ghost takes = { takes_action };

    ghost manner = { λ s. s.manner };

    ghost says = { Simulates S.observed };

    fn table(&self) -> &Table {
        self.table
    }

    fn takes(&self, action: LineAction) -> bool {
        is_simulated(action)
    }

    fn manner(&self) -> Manner {
        self.manner
    }

    fn obey(&mut self, alloc: Global, step: &Step) -> Result<Said, AllocError> {
        let had_cycle = has_cycle(&self.world);
        let output = watch_action(&mut self.world, &mut self.watcher, step.action);
        let answer = output.answer(step.expects_no);
        let scene = Scene {
            table: self.table,
            world: &self.world,
        };
        let text = line_text(alloc, scene, self.manner, step, answer, had_cycle)?;
        Ok(Said {
            text,
            is_unmet: answer.is_counted(self.manner.strict, self.world.outcome()),
        })
    }
}

/// The text of a step, by the world that it left. If it says `no` or isn't met, and reasons are wanted, a line that says why stands behind
/// it. `had_cycle` is whether a cycle was open before the step.
#[tactic(auto, using(crate::proofs::SimLemmas::line_alone, crate::proofs::SimLemmas::line_reasoned))]
fn line_text(
    alloc: Global,
    scene: Scene<'_, '_>,
    manner: Manner,
    step: &Step,
    answer: LineOutput,
    had_cycle: bool,
) -> Result<String, AllocError>
    ensures { IfOk result (λ text.
        IsLineText manner scene.entry.table.now step.now.number scene.entry.world.now answer (string_bytes text)) }
{
    let mut text = printed_text(alloc, scene.world, scene.table, step.number, answer)?;
    if !is_reasoned(manner, answer) {
        return Ok(text);
    }
    let reason = reason_text(alloc, scene, step, answer, had_cycle)?;
    text.push_str(reason.as_str())?;
    Ok(text)
}

/// Whether a reason stands behind the text of a step.
fn is_reasoned(manner: Manner, answer: LineOutput) -> bool
    ensures { result ≡ is_reasoned manner answer }
{
    match answer {
        LineOutput::No | LineOutput::Unmet => manner.explained,
        _ => false,
    }
}

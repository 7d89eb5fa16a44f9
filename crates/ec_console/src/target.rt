//! What lines act on.
ghost use Rattle.std.specs.Prelude.{◌≡◌, ℕ, List, IfOk, OnErr, string_bytes};
ghost use Rattle.ec_console.specs.Unmet.{unmet_of};

use crate::Manner;
use ec_script::{LineAction, Step};
use ec_table::Table;
use std::alloc::{AllocError, Global};

/// The text of a step that was done, and whether the step counts as unmet.
#[derive(Drop)]
pub struct Said {
    pub text: String,
    pub is_unmet: bool,
}

/// What lines act on: a simulated segment, or a master over a wire.
pub trait Target {
    ghost use Rattle.std.specs.Prelude.{Bool};
    ghost use Rattle.ec_table.specs.Contents.{Contents};
    ghost use Rattle.ec_script.specs.declared.line.Step.{Step};
    ghost use Rattle.ec_script.specs.declared.line.LineAction.{LineAction};
    ghost use Rattle.ec_console.specs.declared.wanted.Manner.{Manner};

    /// The table whose names lines use. It stays the same.
    ghost table: { Self → Contents };

    /// The actions that a target of a table can do at all. A line of an input with another action is bad.
    ghost takes: { Contents → LineAction → Bool };

    /// How a target takes lines.
    ghost manner: { Self → Manner };

    /// What a step does: the target before it, the step, the target behind it, its text, and 1 if it counts as unmet, else 0.
    ghost says: { Self → Step → Self → List ℕ → ℕ → Type 0 };

    /// The table whose names lines use.
    fn table(&self) -> &Table
        ensures { result.now ≡ table self.now };

    /// Whether the target can do such an action at all.
    fn takes(&self, action: LineAction) -> bool
        ensures { result ≡ takes (table self.now) action };

    /// How the target takes lines.
    fn manner(&self) -> Manner
        ensures { result ≡ manner self.now };

    /// Does a step of a line, and returns what it says.
    ///
    /// # Errors
    ///
    /// `AllocError` if there is no memory for the text. The step is done all the same.
    fn obey(&mut self, alloc: Global, step: &Step) -> Result<Said, AllocError>
        ensures said { IfOk result (λ said. says self.old step.now self.new (string_bytes said.text) (unmet_of said.is_unmet)) }
        ensures unsaid { OnErr result ((text : List ℕ) × (unmet : ℕ) × says self.old step.now self.new text unmet) }
        ensures table { table self.new ≡ table self.old };
}

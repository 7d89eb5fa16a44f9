//! Machines: a link table that the compiler accepts, with its plan.

ghost use Rattle.std.specs.Prelude.{◌≡◌, None, IfErr, IfOk, OnOk};
ghost use Rattle.ec_table.specs.Sound.{IsSound as IsSoundTable};
ghost use Rattle.ec_link.specs.Faults.{Fails, compile_fault};
ghost use Rattle.ec_link.specs.Plan.{plan_of};
ghost use Rattle.ec_link.specs.Sound.{IsSound};
ghost use Rattle.ec_link.specs.Usable.{IsUsable};
ghost use Rattle.ec_link.specs.Machine.{Refuses, StatesMachine};

use crate::compiling::compile;
use crate::fault::LinkError;
use crate::plan::Plan;
use ec_table::{Table, TableError, read_table};
use std::alloc::Global;
use std::marker::Model;
use thiserror::Error;

/// Why a text states no machine.
#[derive(Clone, Copy, Debug, PartialEq, Eq, Error)]
pub enum MachineError {
    /// The text states no table, or memory ran out.
    #[error(transparent)]
    Table(TableError),
    /// The table that it states has no plan, or memory ran out.
    #[error(transparent)]
    Link(LinkError),
}

impl From<TableError> for MachineError {
    ghost use Rattle.std.specs.Prelude.{◌≡◌};
    ghost use Rattle.ec_link.specs.declared.machine.MachineError.TheVariants.{Table};

    ghost from_gives = { λ error refusal. refusal ≡ Table error };

    fn from(error: TableError) -> MachineError {
        Self::Table(error)
    }
}

impl From<LinkError> for MachineError {
    ghost use Rattle.std.specs.Prelude.{◌≡◌};
    ghost use Rattle.ec_link.specs.declared.machine.MachineError.TheVariants.{Link};

    ghost from_gives = { λ error refusal. refusal ≡ Link error };

    fn from(error: LinkError) -> MachineError {
        Self::Link(error)
    }
}

/// A link table that the compiler accepts, and its plan. Its value is the table alone, which fixes the plan.
#[derive(Debug, Drop)]
pub struct Machine {
    table: Table,
    plan: Plan,
}

impl Model for Machine {
    ghost use Rattle.std.specs.Prelude.{◌≡◌, None};
    ghost use Rattle.ec_table.specs.Contents.{Contents};
    ghost use Rattle.ec_link.specs.Faults.{compile_fault};
    ghost use Rattle.ec_link.specs.Plan.{plan_of};

    ghost Value = { Contents };

    ghost view = { λ m. m.table };

    ghost invariant = { λ m. (compile_fault m.table ≡ None) × (m.plan ≡ plan_of m.table) };
}

impl Machine {
    /// The machine of a table.
    ///
    /// # Errors
    ///
    /// The table's first fault, as `compile` returns it, or `LinkError::Memory`. The table is lost then.
    pub fn new(alloc: Global, table: Table) -> Result<Machine, LinkError>
        ensures machine { IfOk result (λ m. m ≡ table) }
        ensures accepted { OnOk result (compile_fault table ≡ None) }
        ensures fault { IfErr result (λ e. Fails e (compile_fault table)) }
    {
        let plan = compile(alloc, &table)?;
        Ok(Machine { table, plan })
    }

    /// The machine that a text states.
    ///
    /// # Errors
    ///
    /// The text's first fault, as `read_table` returns it, or the first of the table that it states, as `compile` does.
    pub fn read(alloc: Global, text: &str) -> Result<Machine, MachineError>
        ensures machine { IfOk result (StatesMachine text.now) }
        ensures refused { IfErr result (Refuses text.now) }
    {
        let table = read_table(alloc, text)?;
        Ok(Machine::new(alloc, table)?)
    }

    /// The table.
    pub fn table(&self) -> &Table
        ensures value { result.now ≡ self.now }
        ensures sound { IsSoundTable self.now }
        ensures accepted { compile_fault self.now ≡ None }
    {
        self.table.is_sound();
        &self.table
    }

    /// The plan of the table.
    pub fn plan(&self) -> &Plan
        ensures value { result.now ≡ plan_of self.now }
        ensures accepted { compile_fault self.now ≡ None }
        ensures table { IsSoundTable self.now }
        ensures sound { IsSound self.now (plan_of self.now) }
        ensures usable { IsUsable (plan_of self.now) }
    {
        self.table.is_sound();
        &self.plan
    }
}

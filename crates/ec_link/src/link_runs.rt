//! Links as runs of bits.
ghost use Rattle.std.specs.Prelude.{◌≡◌, ◌≤◌, IfOk, IfSome, All, map};
ghost use Rattle.ec_table.specs.Sound.{IsLink};
ghost use Rattle.ec_link.specs.Objects.{AreObjects};
ghost use Rattle.ec_link.specs.LinkRuns.{is_out, direction_of, run_toward, run_of, link_run_of, table_link_runs, run_from};
ghost use Rattle.ec_link.specs.Limits.{IsShort, IsShortRun, HasVariable, HaveVariables};

use crate::objects::{EntryRun, Objects};
use ec_listed::Listed;
use ec_table::{Direction, LinkRow, Table};
use std::alloc::{AllocError, Global};

/// A link as runs of bits of a variable and of a slave's objects.
#[derive(Clone, Copy)]
pub struct LinkRun {
    pub direction: Direction,
    pub variable: usize,
    pub variable_bit: usize,
    pub slave: usize,
    pub object_bit: usize,
    pub count: usize,
}

pub fn is_out(direction: Direction) -> bool
    ensures { result ≡ is_out direction }
{
    match direction {
        Direction::Out => true,
        Direction::In => false,
    }
}

/// The direction of a link's variable.
#[tactic(auto, using(crate::proofs::Links::variable_is))]
pub fn direction_of(table: &Table, link: &LinkRow) -> Direction
    requires { IsLink table.now.slaves table.now.variables link.now }
    ensures { result ≡ direction_of table.now link.now }
{
    table.variables()[link.variable].direction
}

/// The bits of a link's entry among a direction's object bits.
#[tactic(auto, using(crate::proofs::Links::run_steps))]
pub fn run_toward(
    table: &Table,
    objects: &[Objects],
    direction: Direction,
    link: &LinkRow,
) -> Option<EntryRun>
    requires known { AreObjects table.now objects.now }
    requires link { IsLink table.now.slaves table.now.variables link.now }
    ensures value { result ≡ run_toward table.now direction link.now }
    ensures few { IfSome result IsShort }
{
    objects[link.slave]
        .toward(direction)
        .run(link.index, link.subindex)
}

/// The links of a table: the bits of each one's entry, if there is one, and its link run.
#[derive(Drop)]
pub struct LinkRuns {
    pub runs: Listed<Option<EntryRun>>,
    pub link_runs: Listed<LinkRun>,
}

/// The link runs of all links.
pub fn link_runs_of(
    alloc: Global,
    table: &Table,
    objects: &[Objects],
) -> Result<LinkRuns, AllocError>
    requires { AreObjects table.now objects.now }
    ensures runs { IfOk result (λ w. w.runs ≡ map (run_of table.now) table.now.links) }
    ensures link_runs { IfOk result (λ w. w.link_runs ≡ table_link_runs table.now) }
    ensures few { IfOk result (λ w. All IsShortRun w.link_runs) }
    ensures there { IfOk result (λ w. HaveVariables table.now.variables w.link_runs) }
{
    let mut runs = Listed::new(alloc);
    let mut link_runs = Listed::new(alloc);
    for link in table.links() {
        let run = run_of(table, objects, link);
        runs.push(run)?;
        link_runs.push(link_run_of(table, run, link))?;
    }
    Ok(LinkRuns { runs, link_runs })
}

#[tactic(auto, unfolding(crate::specs::LinkRuns::run_of))]
fn run_of(table: &Table, objects: &[Objects], link: &LinkRow) -> Option<EntryRun>
    requires known { AreObjects table.now objects.now }
    requires link { IsLink table.now.slaves table.now.variables link.now }
    ensures value { result ≡ run_of table.now link.now }
    ensures few { IfSome result IsShort }
{
    run_toward(table, objects, direction_of(table, link), link)
}

/// The runs of a link whose entry has these bits.
#[tactic(auto, unfolding(crate::specs::LinkRuns::link_run_of))]
fn link_run_of(table: &Table, run: Option<EntryRun>, link: &LinkRow) -> LinkRun
    requires link { IsLink table.now.slaves table.now.variables link.now }
    requires run { run ≡ run_of table.now link.now }
    requires few { IfSome run IsShort }
    ensures value { result ≡ link_run_of table.now link.now }
    ensures few { IsShortRun result }
    ensures there { HasVariable table.now.variables result }
{
    let LinkRow {
        variable,
        slave,
        bits,
        ..
    } = *link;
    LinkRun {
        direction: direction_of(table, link),
        variable,
        variable_bit: usize::from(bits.variable_bit),
        slave,
        object_bit: run_from(run) + usize::from(bits.entry_bit),
        count: usize::from(bits.count),
    }
}

fn run_from(run: Option<EntryRun>) -> usize
    requires { IfSome run IsShort }
    ensures value { result ≡ run_from run }
    ensures few { result ≤ 65536 }
{
    match run {
        None => 0,
        Some(run) => run.from,
    }
}

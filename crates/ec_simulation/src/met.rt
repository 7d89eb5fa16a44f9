//! Whether what a line expects of a world holds.
ghost use Rattle.std.specs.Prelude.{◌≡◌, ◌≤◌, true, slice_get};
ghost use Rattle.ec_simulation.specs.Expecting.{has_bits, has_code, is_in_state, is_met, is_published, is_so, is_tested, is_value};
ghost use Rattle.ec_simulation.specs.Inputs.{is_of};
ghost use Rattle.ec_simulation.specs.Showing.{value_shown};
ghost use Rattle.std.specs.List.{list_all, list_any};

use crate::inputs::{is_of, is_short, slave_byte};
use crate::showing::{has_room, value_shown};
use crate::view::view_of;
use ec_al::State;
use ec_bits::read_bits;
use ec_link::{Link, Variable};
use ec_regs::registers::{AL_STATUS, AL_STATUS_CODE};
use ec_script::{Expectation, ValueTest};
use ec_table::Direction;
use ec_world::World;

/// Whether what a line expects of a world holds.
pub fn is_met(world: &World<'_>, expected: Expectation) -> bool
    ensures { result ≡ is_met expected world.now }
{
    match expected {
        Expectation::Is(variable, value) => is_value(world, variable, value),
        Expectation::Holds(variable, test) => is_tested(world, variable, test),
        Expectation::State(slave, state, code) => {
            is_in_state(world, slave, state) && has_code(world, slave, code)
        }
        Expectation::Never(_)
        | Expectation::Units(_)
        | Expectation::Unit(_, _)
        | Expectation::Ready
        | Expectation::Failed(_) => ec_script::is_met(&view_of(world), expected),
    }
}

/// Whether a slave shows this AL status code; true without one.
fn has_code(world: &World<'_>, slave: usize, code: Option<u16>) -> bool
    ensures { result ≡ has_code world.now slave code }
{
    let low = u16::from(slave_byte(world, slave, AL_STATUS_CODE));
    let high = u16::from(slave_byte(world, slave, AL_STATUS_CODE + 1));
    match code {
        None => true,
        Some(code) => low + 256 * high == code,
    }
}

/// Whether a slave is in an AL state, by its AL status.
fn is_in_state(world: &World<'_>, slave: usize, state: State) -> bool
    ensures { result ≡ is_in_state world.now slave state }
{
    let status = u16::from(slave_byte(world, slave, AL_STATUS));
    slave < world.slaves() && status % 16 == state.number()
}

/// Whether a variable has a value: an input in the process image, an output as slaves publish it.
fn is_value(world: &World<'_>, index: usize, value: u64) -> bool
    ensures { result ≡ is_value world.now index value (slice_get world.now.plan.variables index) }
{
    let variables = world.plan().variables();
    if index >= variables.len() {
        return false;
    }
    let variable = variables[index];
    match variable.direction {
        Direction::Out => is_short(variable.bits, value) && is_output(world, variable, value),
        Direction::In => ec_script::is_met(&view_of(world), Expectation::Is(index, value)),
    }
}

/// Whether the value of a variable meets a test: that of an input in the process image, that of an output as slaves publish it.
fn is_tested(world: &World<'_>, index: usize, test: ValueTest) -> bool
    ensures { result ≡ is_tested world.now index test (slice_get world.now.plan.variables index) }
{
    let variables = world.plan().variables();
    if index >= variables.len() {
        return false;
    }
    let variable = variables[index];
    match variable.direction {
        Direction::Out => is_so(world, variable, test),
        Direction::In => ec_script::is_met(&view_of(world), Expectation::Holds(index, test)),
    }
}

/// Whether slaves publish a value of a variable that meets a test.
fn is_so(world: &World<'_>, variable: Variable, test: ValueTest) -> bool
    requires { variable.bits ≤ 64 }
    ensures { result ≡ is_so world.now variable test (value_shown world.now variable) }
{
    match value_shown(world, variable) {
        Some(value) => {
            has_link(world, variable)
                && is_output(world, variable, value)
                && test.holds(variable, value)
        }
        None => false,
    }
}

/// Whether an output variable has a link.
fn has_link(world: &World<'_>, variable: Variable) -> bool
    ensures { result ≡ list_any (is_of variable) world.now.plan.out_links }
{
    world
        .plan()
        .out_links()
        .iter()
        .any(|link| is_of(variable, link))
}

/// Whether slaves publish a value in all linked bits of a variable.
fn is_output(world: &World<'_>, variable: Variable, value: u64) -> bool
    requires { variable.bits ≤ 64 }
    ensures { result ≡ list_all (is_published world.now variable value) world.now.plan.out_links }
{
    world
        .plan()
        .out_links()
        .iter()
        .all(|link| is_published(world, variable, value, link))
}

/// Whether the slave of a link publishes the bits of a value; true if the link is none of the variable.
fn is_published(world: &World<'_>, variable: Variable, value: u64, link: &Link) -> bool
    requires { variable.bits ≤ 64 }
    ensures { result ≡ is_published world.now variable value link.now }
{
    if !is_of(variable, link) {
        return true;
    }
    link.slave < world.slaves() && has_bits(variable, value, link, world.outputs(link.slave))
}

/// Whether published outputs have all bits of a link of a variable, and these are those of a value.
fn has_bits(variable: Variable, value: u64, link: &Link, outputs: &[u8]) -> bool
    requires few { variable.bits ≤ 64 }
    requires linked { is_of variable link.now ≡ true }
    ensures { result ≡ has_bits variable value link.now outputs.now }
{
    if !has_room(link, outputs) {
        return false;
    }
    let from = link.image - variable.from;
    read_bits(outputs, link.object_bit, link.count)
        == read_bits(&value.to_le_bytes(), from, link.count)
}

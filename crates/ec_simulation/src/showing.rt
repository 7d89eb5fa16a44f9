//! An output variable as the slaves publish it.
ghost use Rattle.std.specs.Prelude.{◌≡◌, ◌≤◌, if◌then◌else◌, length, slice_get, Some, None};
ghost use Rattle.ec_text.specs.InputText.{value_of_variable};
ghost use Rattle.ec_simulation.specs.Showing.{has_room, output_shown, said_value, value_seen, value_shown, with_shown};
ghost use Rattle.ec_simulation.specs.Inputs.{is_of};
ghost use Rattle.std.specs.List.{list_any};

use crate::inputs::is_of;
use ec_bits::{copy_bits, read_bits};
use ec_link::{Link, Variable};
use ec_script::LineOutput;
use ec_table::Direction;
use ec_text::value_of;
use ec_world::World;

/// More bits than the memory of a slave has room for.
const MAX_BITS: usize = 0x10000;

/// The output of `out`: a variable and its value as slaves publish it. `No` if it is no output, or if the slave of one of its links
/// publishes none of the link's bits.
pub fn show_output(world: &World<'_>, place: usize) -> LineOutput
    ensures { result ≡ said_value place (output_shown world.now (slice_get world.now.plan.variables place)) }
{
    match output_shown(world, place) {
        Some(value) => LineOutput::Value(place, value),
        None => LineOutput::No,
    }
}

/// The output of `show` with a name: a variable and its value in the process image.
pub fn show_variable(world: &World<'_>, place: usize) -> LineOutput
    ensures { result ≡ LineOutput.Value place (value_of_variable world.now.master place) }
{
    LineOutput::Value(place, value_of(world.master(), place))
}

/// The value of the variable at a place that an expectation looks at: of an input the one in the process image, of an output the one that
/// slaves publish. `None` if the slave of one of its links publishes none of the link's bits, and without links.
pub fn value_seen(world: &World<'_>, place: usize) -> Option<u64>
    ensures { result ≡ value_seen world.now place (slice_get world.now.plan.variables place) }
{
    let variables = world.plan().variables();
    if place >= variables.len() {
        return None;
    }
    let variable = variables[place];
    match variable.direction {
        Direction::In => Some(value_of(world.master(), place)),
        Direction::Out => {
            if has_link(world, variable) {
                value_shown(world, variable)
            } else {
                None
            }
        }
    }
}

/// Whether a link takes bits of a variable to a slave.
fn has_link(world: &World<'_>, variable: Variable) -> bool
    ensures { result ≡ list_any (is_of variable) world.now.plan.out_links }
{
    world
        .plan()
        .out_links()
        .iter()
        .any(|link| is_of(variable, link))
}

/// The value of the output variable at a place, as slaves publish it.
fn output_shown(world: &World<'_>, place: usize) -> Option<u64>
    ensures { result ≡ output_shown world.now (slice_get world.now.plan.variables place) }
{
    let variables = world.plan().variables();
    if place >= variables.len() {
        return None;
    }
    let variable = variables[place];
    match variable.direction {
        Direction::Out => value_shown(world, variable),
        Direction::In => None,
    }
}

/// The value of a variable, of the bits that the slaves of its links publish. `None` if the slave of one of its links publishes none of
/// the link's bits.
#[tactic(auto, using(crate::proofs::Shown::shown_end, crate::proofs::Shown::shown_more, crate::proofs::Shown::shown_none))]
pub fn value_shown(world: &World<'_>, variable: Variable) -> Option<u64>
    requires { variable.bits ≤ 64 }
    ensures { result ≡ value_shown world.now variable }
{
    let mut bytes = [0; 8];
    for link in world.plan().out_links() {
        if !add_shown(world, variable, link, &mut bytes) {
            return None;
        }
    }
    Some(read_bits(&bytes, 0, 64))
}

/// Whether published outputs have all bits of a link.
pub fn has_room(link: &Link, outputs: &[u8]) -> bool
    ensures { result ≡ has_room link.now outputs.now }
{
    if link.object_bit > MAX_BITS || link.count > MAX_BITS - link.object_bit {
        return false;
    }
    (link.object_bit + link.count + 7) / 8 <= outputs.len()
}

/// Adds to the bytes of a variable's value the bits that the slave of a link publishes, if it is one of the variable. Returns whether
/// the slave publishes them.
fn add_shown(world: &World<'_>, variable: Variable, link: &Link, bytes: &mut [u8]) -> bool
    requires few { variable.bits ≤ 64 }
    requires eight { length bytes.old ≡ 8 }
    ensures { with_shown world.now variable link.now bytes.old ≡ (if result then Some bytes.new else None) }
{
    if !is_of(variable, link) {
        return true;
    }
    if link.slave >= world.slaves() {
        return false;
    }
    let outputs = world.outputs(link.slave);
    if !has_room(link, outputs) {
        return false;
    }
    let to = link.image - variable.from;
    copy_bits(bytes, to, outputs, link.object_bit, link.count);
    true
}

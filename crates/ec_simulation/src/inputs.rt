//! An input variable as the plant sets it: what the applications of its slaves write.
ghost use Rattle.std.specs.Prelude.{◌≡◌, ◌≤◌, ◌<◌, ◌+◌, ◌*◌, ◌^◌, length, slice_get};
ghost use Rattle.std.specs.List.{AllByRecursion, list_any};
ghost use Rattle.ec_bits.specs.Bits.{bytes_of_bits};
ghost use Rattle.ec_link.specs.Meaning.{slave_at};
ghost use Rattle.ec_link.specs.Usable.{IsUsable};
ghost use Rattle.ec_simulation.specs.Inputs.{bytes_from, is_input_of, is_of, is_short, is_to, puts, puts_from, slave_byte, slave_puts, with_links};
ghost use Rattle.ec_simulation.specs.Observing.{Observes};
ghost use Rattle.ec_simulation.specs.Work.{MakesAll, RunsInput};

use crate::rounds::make;
use ec_bits::copy_bits;
use ec_link::{Link, Plan, Variable};
use ec_script::LineOutput;
use ec_table::Direction;
use ec_world::{Event, Watcher, World};

/// More bytes than a slave has inputs.
const MAX_BYTES: usize = 0x1000;

/// Whether a number has at most `bits` bits.
pub fn is_short(bits: u8, value: u64) -> bool
    requires some { 1 ≤ bits }
    requires few { bits ≤ 64 }
    ensures { result ≡ is_short bits value }
{
    bits == 64 || value < 1u64 << bits
}

/// Whether a link's bits of the image are bits of a variable.
pub fn is_of(variable: Variable, link: &Link) -> bool
    ensures { result ≡ is_of variable link.now }
{
    let bits = usize::from(variable.bits);
    if link.image < variable.from || link.image - variable.from > bits {
        return false;
    }
    link.count <= bits - (link.image - variable.from)
}

/// The byte at an address of a slave; 0 if there is none.
pub fn slave_byte(world: &World<'_>, slave: usize, address: usize) -> u8
    ensures { result ≡ slave_byte world.now slave address }
{
    if slave >= world.slaves() {
        return 0;
    }
    match u16::try_from(address) {
        Ok(address) => world.slave(slave).byte(address).unwrap_or(0),
        Err(_) => 0,
    }
}

/// Gives an input variable a value, as the plant does. Each slave with bits of it writes all its input bytes, with these bits
/// changed and all others as it published them last. `No` if it is no input that holds the value, or at an event that can't be made.
#[tactic(auto, using(crate::proofs::Seeing::observes_none, crate::proofs::Seeing::observes_then))]
pub fn put_input<S: Watcher>(
    world: &mut World<'_>,
    watcher: &mut S,
    variable: usize,
    value: u64,
) -> LineOutput
    ensures made { RunsInput variable value world.old world.new result }
    ensures observed { Observes S.observed watcher.old world.old world.new watcher.new }
{
    let plan = world.plan();
    if !is_input_of(plan, variable, value) {
        return LineOutput::No;
    }
    put_slaves(world, watcher, plan.variables()[variable], value)
}

/// Whether a link brings bits of a variable to a slave.
fn is_to(variable: Variable, slave: usize, link: &Link) -> bool
    ensures { result ≡ is_to variable slave link.now }
{
    link.slave == slave && is_of(variable, link)
}

/// Whether a variable is an input that holds a value.
fn is_input_of(plan: &Plan, variable: usize, value: u64) -> bool
    requires { IsUsable plan.now }
    ensures { result ≡ is_input_of value (slice_get plan.now.variables variable) }
{
    if variable >= plan.variables().len() {
        return false;
    }
    let row = plan.variables()[variable];
    match row.direction {
        Direction::Out => false,
        Direction::In => is_short(row.bits, value),
    }
}

/// Lets the application of each slave that has bits of a variable write all its input bytes, with these bits changed. An
/// event that can't be made ends it.
#[tactic(auto, using(crate::proofs::Seeing::observes_none, crate::proofs::Seeing::observes_then))]
fn put_slaves<S: Watcher>(
    world: &mut World<'_>,
    watcher: &mut S,
    variable: Variable,
    value: u64,
) -> LineOutput
    requires { variable.bits ≤ 64 }
    ensures made { MakesAll (puts_from world.old variable value 0 (length world.old.plan.slaves))
        world.old world.new result }
    ensures observed { Observes S.observed watcher.old world.old world.new watcher.new }
{
    let slaves = world.plan().slaves();
    for slave in 0..slaves.len() {
        let said = put_slave(world, watcher, variable, value, slave);
        if !said.is_done() {
            return said;
        }
    }
    LineOutput::Nothing
}

/// Lets the application of a slave write all its input bytes with the bits of a variable changed, if it has any of them.
#[tactic(auto, using(crate::proofs::Seeing::observes_none, crate::proofs::Seeing::observes_then))]
fn put_slave<S: Watcher>(
    world: &mut World<'_>,
    watcher: &mut S,
    variable: Variable,
    value: u64,
    slave: usize,
) -> LineOutput
    requires there { slave < length world.old.plan.slaves }
    requires few { variable.bits ≤ 64 }
    ensures made { MakesAll (slave_puts world.old variable value slave) world.old world.new result }
    ensures observed { Observes S.observed watcher.old world.old world.new watcher.new }
{
    let plan = world.plan();
    let links = plan.in_links();
    if !is_linked(links, variable, slave) {
        return LineOutput::Nothing;
    }
    let count = input_count(plan, slave);
    let mut inputs = [0; MAX_BYTES];
    let bytes = &mut inputs[..count];
    read_bytes(world, slave, plan.settings(slave).kind.in_start(), bytes);
    change_bits(links, variable, value, slave, bytes);
    put_bytes(world, watcher, slave, bytes)
}

/// How many bytes of inputs a slave has; its memory has room for them.
fn input_count(plan: &Plan, slave: usize) -> usize
    requires usable { IsUsable plan.now }
    requires there { slave < length plan.now.slaves }
    ensures value { result ≡ bytes_of_bits (slave_at plan.now slave).share.ins }
    ensures few { result ≤ 4096 }
{
    (plan.settings(slave).share.ins + 7) / 8
}

/// Whether some link brings bits of a variable to a slave.
fn is_linked(links: &[Link], variable: Variable, slave: usize) -> bool
    ensures { result ≡ list_any (is_to variable slave) links.now }
{
    links.iter().any(|link| is_to(variable, slave, link))
}

/// Lets the application of a slave write bytes of its inputs, one after another.
#[tactic(auto, using(crate::proofs::Seeing::observes_none, crate::proofs::Seeing::observes_then))]
fn put_bytes<S: Watcher>(
    world: &mut World<'_>,
    watcher: &mut S,
    slave: usize,
    bytes: &[u8],
) -> LineOutput
    ensures made { MakesAll (puts slave 0 bytes.now) world.old world.new result }
    ensures observed { Observes S.observed watcher.old world.old world.new watcher.new }
{
    let mut said = LineOutput::Nothing;
    for (offset, byte) in bytes.iter().enumerate() {
        said = make(world, watcher, Event::AppPut(slave, offset, *byte));
        if !said.is_done() {
            return said;
        }
    }
    said
}

/// Writes a variable's value into those bits of a slave's inputs that links join to it.
fn change_bits(links: &[Link], variable: Variable, value: u64, slave: usize, bytes: &mut [u8])
    requires few { variable.bits ≤ 64 }
    requires inside { AllByRecursion (λ l. l.slave ≡ slave
        → l.object_bit + l.count ≤ 8 * length bytes.old) links.now }
    requires fits { 8 * length bytes.old < 2 ^ 64 }
    ensures { bytes.new ≡ with_links variable value slave links.now bytes.old }
{
    for link in links {
        if is_to(variable, slave, link) {
            let from = link.image - variable.from;
            copy_bits(
                bytes,
                link.object_bit,
                &value.to_le_bytes(),
                from,
                link.count,
            );
        }
    }
}

/// Fills `bytes` with the bytes of a slave that begin at the address `start`.
fn read_bytes(world: &World<'_>, slave: usize, start: u16, bytes: &mut [u8])
    ensures { bytes.new ≡ bytes_from world.now slave start (length bytes.old) }
{
    for offset in 0..bytes.len() {
        bytes[offset] = slave_byte(world, slave, usize::from(start) + offset);
    }
}

//! The calls of a segment: each makes a call of its ring of slaves, and returns whether it did something.
ghost use Rattle.std.specs.Prelude.{◌≡◌, Some, length};
ghost use Rattle.ec_slave.specs.Application.{get_size};
ghost use Rattle.ec_slave.specs.Serving.{served};
ghost use Rattle.ec_slave.specs.State.{power_on};
ghost use Rattle.ec_handles.specs.Calling.{AreCopied, Does, Exchanges, HasFault, Passes, Reads, ReadsOutputs, Writes, WritesInputs, inputs_behind, inputs_given, inputs_result, outputs_behind, outputs_whole};

use crate::done::{Done, copy_into, counted};
use ec_ring::Ring;
use ec_slave::Slave;

/// Passes a frame through all slaves, in place. Returns false and changes nothing if the bytes are no frame.
pub fn pass(slaves: &mut Ring, frame: &mut [u8]) -> bool
    ensures { Passes slaves.old frame.old result frame.new slaves.new }
{
    slaves.pass_all(frame).is_ok()
}

/// Makes a firmware step of a slave. Returns whether it is there.
pub fn serve(slaves: &mut Ring, index: usize) -> bool
    ensures { Does slaves.old index served result slaves.new }
{
    if index >= slaves.len() {
        return false;
    }
    slaves.slave_mut(index).serve();
    true
}

/// Switches a slave off and on. Returns whether it is there.
pub fn reset(slaves: &mut Ring, index: usize) -> bool
    ensures { Does slaves.old index (λ s. power_on s.kind s.identity) result slaves.new }
{
    if index >= slaves.len() {
        return false;
    }
    slaves.slave_mut(index).reset();
    true
}

/// The application of a slave reads a byte of its outputs into `read`. Returns whether the slave is there and may read it.
pub fn get(slaves: &mut Ring, index: usize, byte: usize, read: &mut u8) -> bool
    ensures { Reads slaves.old index byte read.old result read.new slaves.new }
{
    if index >= slaves.len() {
        return false;
    }
    match slaves.slave_mut(index).app_get(byte) {
        Some(got) => {
            *read = got;
            true
        }
        None => false,
    }
}

/// The application of a slave writes a byte of its inputs. Returns whether the slave is there and may write it.
pub fn put(slaves: &mut Ring, index: usize, byte: usize, value: u8) -> bool
    ensures { Writes slaves.old index byte value result slaves.new }
{
    if index >= slaves.len() {
        return false;
    }
    slaves.slave_mut(index).app_put(byte, value)
}

/// The application of a slave reads its outputs whole into `room`, if they fit; done then. The count is how many bytes it may read
/// now, 0 if the slave isn't there.
pub fn read_outputs(slaves: &mut Ring, index: usize, room: &mut [u8]) -> Done
    ensures { ReadsOutputs slaves.old index room.old result room.new slaves.new }
{
    if index >= slaves.len() {
        return counted(false, 0);
    }
    take_outputs(slaves.slave_mut(index), room)
}

/// The application of a slave writes its inputs whole, if `inputs` has enough bytes; done then. The count is how many bytes it may
/// write now, 0 if the slave isn't there.
pub fn write_inputs(slaves: &mut Ring, index: usize, inputs: &[u8]) -> Done
    ensures { WritesInputs slaves.old index inputs.now result slaves.new }
{
    if index >= slaves.len() {
        return counted(false, 0);
    }
    put_inputs(slaves.slave_mut(index), inputs)
}

/// Makes a firmware step of a slave. Its application then writes its inputs whole, if `inputs` has enough bytes, and reads its outputs
/// whole into `room`, if they fit; done then. The count is how many bytes of outputs it may read now, 0 if the slave isn't there.
pub fn exchange(slaves: &mut Ring, index: usize, inputs: &[u8], room: &mut [u8]) -> Done
    ensures { Exchanges slaves.old index inputs.now room.old result room.new slaves.new }
{
    if index >= slaves.len() {
        return counted(false, 0);
    }
    exchange_with(slaves.slave_mut(index), inputs, room)
}

/// The application of a slave has a fault. Returns whether the slave is there and in OP.
pub fn fault(slaves: &mut Ring, index: usize) -> bool
    ensures { HasFault slaves.old index result slaves.new }
{
    if index >= slaves.len() {
        return false;
    }
    slaves.slave_mut(index).fault()
}

/// A firmware step of a slave; its application writes its inputs whole, if there are enough, and reads its outputs whole, if they fit.
fn exchange_with(slave: &mut Slave, inputs: &[u8], room: &mut [u8]) -> Done
    ensures copied { AreCopied (outputs_whole (inputs_given inputs.now (served slave.old))) room.old result room.new }
    ensures behind { slave.new ≡ outputs_behind result.is_done (inputs_given inputs.now (served slave.old)) }
{
    slave.serve();
    put_inputs(slave, inputs);
    take_outputs(slave, room)
}

/// A slave's application reads its outputs whole into `room`, if they fit.
fn take_outputs(slave: &mut Slave, room: &mut [u8]) -> Done
    ensures copied { AreCopied (outputs_whole slave.old) room.old result room.new }
    ensures behind { slave.new ≡ outputs_behind result.is_done slave.old }
{
    let (size, _) = slave.app_sizes();
    let done = copy_into(outputs_of(slave, size), room);
    if done.is_done {
        slave.app_get_all();
    }
    done
}

/// The outputs that a slave's application may read now: the first `size` bytes.
fn outputs_of(slave: &Slave, size: usize) -> &[u8]
    requires { size ≡ get_size slave.now }
    ensures { result.now ≡ outputs_whole slave.now }
{
    slave.is_sound();
    let outputs = slave.outputs();
    &outputs[..size]
}

/// A slave's application writes its inputs whole, if there are enough.
fn put_inputs(slave: &mut Slave, inputs: &[u8]) -> Done
    ensures told { result ≡ inputs_result (length inputs.now) (Some slave.old) }
    ensures behind { slave.new ≡ inputs_behind result.is_done inputs.now slave.old }
{
    let (_, size) = slave.app_sizes();
    if size > inputs.len() {
        return counted(false, size);
    }
    slave.app_put_all(&inputs[..size]);
    counted(true, size)
}

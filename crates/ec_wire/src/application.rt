//! The applications of simulated slaves, and how a segment serves its slaves after a frame.
ghost use Rattle.std.specs.Prelude.{◌≡◌, ◌<◌, ℕ, List, false, true, length};
ghost use Rattle.ec_bits.specs.Bits.{zeros};
ghost use Rattle.ec_slave.specs.Application.{get_size, put_size};
ghost use Rattle.ec_ring.specs.Rings.{IsNoFrame};
ghost use Rattle.ec_wire.specs.Applications.{AreServed, HasStepped, IsServed, inputs_written, outputs_read, outputs_seen};
ghost use Rattle.ec_wire.specs.Segments.{IsAnswer};

use ec_ring::Ring;
use ec_slave::Slave;
use ec_sync::MAX_BUFFER_LEN;

/// A slave's application, which makes the slave's inputs from its outputs.
pub trait App {
    /// Relates outputs to the inputs that the application may make from them, now or later.
    ghost may_produce: { Self → List ℕ → List ℕ → Type 0 } = { λ app outputs inputs. Unit {0} };

    /// Sets the bytes of `inputs` from the bytes of `outputs`. Before the call, all bytes of `inputs` are 0.
    fn step(&mut self, outputs: &[u8], inputs: &mut [u8])
        requires { inputs.old ≡ zeros (length inputs.old) }
        ensures made { may_produce self.old outputs.now inputs.new }
        ensures later { (o i : List ℕ) → may_produce self.new o i → may_produce self.old o i };
}

impl App for &mut dyn App {
    ghost may_produce = { λ app. (App-dyn app.now).may_produce app.now.1 };

    fn step(&mut self, outputs: &[u8], inputs: &mut [u8]) {
        (**self).step(outputs, inputs);
    }
}

/// An application that copies its outputs to its inputs, and leaves the inputs beyond them 0.
#[derive(Drop)]
pub struct Echo;

impl App for Echo {
    ghost use Rattle.ec_wire.specs.Applications.{IsEchoed};

    ghost may_produce = { λ app. IsEchoed };

    fn step(&mut self, outputs: &[u8], inputs: &mut [u8]) {
        let shown = outputs.len().min(inputs.len());
        inputs[..shown].copy_from_slice(&outputs[..shown]);
    }
}

/// Passes a payload through all slaves, and then serves each of them. Returns whether the payload was a frame; if it wasn't, the
/// slaves stay as they were.
pub(crate) fn answer<A: App>(ring: &mut Ring, app: &mut A, payload: &mut [u8]) -> bool
    ensures answered { result ≡ true → IsAnswer (A.may_produce app.old) ring.old payload.old ring.new payload.new }
    ensures refused { result ≡ false → IsNoFrame payload.old }
    ensures unchanged { result ≡ false → ring.new ≡ ring.old }
    ensures later { (o i : List ℕ) → A.may_produce app.new o i → A.may_produce app.old o i }
{
    if ring.pass_all(payload).is_err() {
        return false;
    }
    serve_slaves(ring, app);
    true
}

/// Serves each slave, in the order of the ring.
fn serve_slaves<A: App>(ring: &mut Ring, app: &mut A)
    ensures served { AreServed (A.may_produce app.old) ring.old ring.new }
    ensures later { (o i : List ℕ) → A.may_produce app.new o i → A.may_produce app.old o i }
{
    let mut inputs = [0; MAX_BUFFER_LEN];
    for index in 0..ring.len() {
        serve_slave(ring.slave_mut(index), app, &mut inputs);
    }
}

/// Makes a firmware step of a slave, and steps its application if it has process data now. `inputs` is the buffer for its inputs.
#[tactic(auto, using(ec_slave::proofs::AppAccess::ApplicationsGoWhole::few_inputs))]
fn serve_slave<A: App>(slave: &mut Slave, app: &mut A, inputs: &mut [u8])
    requires { length inputs.old ≡ 2730 }
    ensures served { IsServed (A.may_produce app.old) slave.old slave.new }
    ensures later { (o i : List ℕ) → A.may_produce app.new o i → A.may_produce app.old o i }
{
    slave.serve();
    let (output_count, input_count) = slave.app_sizes();
    if output_count == 0 && input_count == 0 {
        return;
    }
    step_application(slave, app, output_count, &mut inputs[..input_count]);
}

/// Steps an application on all output bytes of a slave, then reads these and writes all input bytes at the slave.
fn step_application<A: App>(slave: &mut Slave, app: &mut A, output_count: usize, inputs: &mut [u8])
    requires outputs { output_count ≡ get_size slave.old }
    requires inputs { length inputs.old ≡ put_size slave.old }
    ensures stepped { HasStepped (A.may_produce app.old) slave.old slave.new }
    ensures later { (o i : List ℕ) → A.may_produce app.new o i → A.may_produce app.old o i }
{
    inputs.fill(0);
    app.step(outputs_of(slave, output_count), inputs);
    read_outputs(slave);
    write_inputs(slave, inputs);
}

/// Writes a slave's inputs as its application does, as many bytes as it may write now.
fn write_inputs(slave: &mut Slave, inputs: &[u8])
    requires { length inputs.now ≡ put_size slave.old }
    ensures { slave.new ≡ inputs_written slave.old inputs.now }
{
    slave.is_sound();
    slave.app_put_all(inputs);
}

/// Reads a slave's outputs as its application does, as many bytes as it may read now.
fn read_outputs(slave: &mut Slave)
    ensures { slave.new ≡ outputs_read slave.old }
{
    slave.is_sound();
    slave.app_get_all();
}

/// The outputs that a slave's application sees: `count` bytes, as many as it may read now.
fn outputs_of(slave: &Slave, count: usize) -> &[u8]
    requires { count ≡ get_size slave.now }
    ensures { result.now ≡ outputs_seen slave.now }
{
    slave.is_sound();
    let outputs = slave.outputs();
    &outputs[..count]
}

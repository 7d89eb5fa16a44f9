//! `ecat pass`: a frame in hex, through a ring of slaves at power-on.
ghost use Rattle.std.specs.Prelude.{◌≡◌, IfOk, IfErr, replicate};
ghost use Rattle.std.specs.String.{string_bytes};
ghost use Rattle.ec_app.specs.Passing.{IsAnswer, IsPassRefusal, RunsPass, SpellsPayload, plain_slave};

use ec_console::{OutputStream, Refusal, print_text};
use ec_device::{Identity, SlaveType};
use ec_frame::FrameError;
use ec_frame::field::MAX_FRAME_LEN;
use ec_ring::Ring;
use ec_slave::Slave;
use hex::FromHexError;
use std::alloc::{AllocError, Global};
use std::io::Write;

/// The identity of slaves that are no device in particular.
const NO_IDENTITY: Identity = Identity {
    vendor: 0,
    product: 0,
    revision: 0,
    serial: 0,
};

/// The frame that `text` spells, as it comes back from a ring of `slaves` slaves at power-on without
/// PDOs, in lower-case hex. The text is the payload of a UDP datagram to port 34980 (0x88A4), in hex
/// digits of either case. It refuses, in this order, a text that isn't hex, more than 1472 bytes, and
/// what `ec_frame::check` refuses. It returns `Refusal::Memory` if memory ran out.
pub fn pass_hex(alloc: Global, slaves: usize, text: &str) -> Result<String, Refusal>
    ensures answer { IfOk result (λ answer. IsAnswer slaves text.now (string_bytes answer)) }
    ensures refused { IfErr result (IsPassRefusal text.now) }
{
    let mut payload = read_payload(alloc, text)?;
    ec_frame::check(payload.as_slice())?;
    let mut ring = plain_ring(alloc, slaves)?;
    ring.pass_frame(payload.as_mut_slice());
    Ok(hex::encode(alloc, payload.as_slice())?)
}

/// Prints what `pass_hex` returns, and a newline.
///
/// # Errors
///
/// What [`pass_hex`] refuses, `Refusal::Memory` if memory ran out, and `Refusal::Output` if a write was refused.
pub fn print_pass<W: Write + Drop>(
    alloc: Global,
    slaves: usize,
    text: &str,
    output: &mut OutputStream<W>,
) -> Result<(), Refusal>
    ensures { RunsPass slaves text.now output.old output.new result }
{
    let mut answer = pass_hex(alloc, slaves, text)?;
    answer.push('\n')?;
    print_text(answer.as_bytes(), output)
}

/// The payload that the text spells.
fn read_payload(alloc: Global, text: &str) -> Result<Vec<u8>, Refusal>
    ensures spelled { IfOk result (λ payload. SpellsPayload text.now payload.items) }
    ensures refused { IfErr result (IsPassRefusal text.now) }
{
    let payload = match hex::decode(alloc, text) {
        Ok(payload) => payload,
        Err(FromHexError::OutOfMemory) => return Err(Refusal::Memory),
        Err(_) => return Err(Refusal::BadHex),
    };
    if payload.len() > MAX_FRAME_LEN {
        return Err(Refusal::Frame(FrameError::TooLong));
    }
    Ok(payload)
}

/// A ring of that many slaves at power-on, without PDOs.
fn plain_ring(alloc: Global, slaves: usize) -> Result<Ring, AllocError>
    ensures { IfOk result (λ ring. ring ≡ replicate slaves plain_slave) }
{
    let mut ring = Vec::with_capacity(alloc, slaves)?;
    for _ in 0..slaves {
        ring.push(Slave::new(alloc, SlaveType::without_pdos(alloc), NO_IDENTITY)?)?;
    }
    Ok(Ring::new(ring))
}

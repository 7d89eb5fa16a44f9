//! Builds the frames of a cycle.
ghost use Rattle.std.specs.Prelude.{◌≡◌, ◌≤◌, ◌<◌, ◌+◌, ◌*◌, ◌%◌, ◌∷◌, ◌++◌, [], length, if◌then◌else◌};
ghost use Rattle.ec_bits.specs.Bits.{zeros};
ghost use Rattle.ec_frame.specs.Building.{bare_payload, new_datagram};
ghost use Rattle.ec_frame.specs.Datagram.{joined};
ghost use Rattle.ec_frame.specs.Frame.{IsFrame};
ghost use Rattle.ec_cycle.specs.Frames.{cyclic_datagrams, process_datagrams, returned_first};

use ec_frame::{Builder, Command, Frame, FrameName, address_of, index_of};
use ec_link::{MAX_SPLIT_BYTES, PartPlan};
use ec_regs::registers;

/// The cyclic frame of a part: cycle `number`, part `index`, and the process data `sent`.
#[tactic(auto, using(ec_frame::proofs::BuilderCalls::joined_push))]
pub fn build(part: &PartPlan, number: u64, index: usize, sent: &[u8]) -> Frame
    requires place { index < 65536 }
    requires size { length sent.now ≡ part.now.bytes }
    requires small { (if part.now.split then 2 * part.now.bytes + 12 else part.now.bytes) ≤ 1422 }
    ensures { IsFrame result.items (bare_payload (cyclic_datagrams part.now number index 0 (zeros 2) sent.now (returned_first part.now sent.now) [])) }
{
    let name = FrameName {
        number,
        part: index as u16,
    };
    let mut builder = Builder::new();
    append(&mut builder, Command::Nop, number, 0, &name.bytes());
    append(
        &mut builder,
        Command::Brd,
        number,
        address_of(0, registers::AL_STATUS as u16),
        &[0, 0],
    );
    append_process(&mut builder, part, number, sent);
    builder.finish()
}

/// Appends the process datagrams of a part, with `sent` as their outputs.
fn append_process(builder: &mut Builder, part: &PartPlan, number: u64, sent: &[u8])
    requires room { length (joined builder.old) ≤ 36 }
    requires size { length sent.now ≡ part.now.bytes }
    requires small { (if part.now.split then 2 * part.now.bytes + 12 else part.now.bytes) ≤ 1422 }
    ensures { builder.new ≡ builder.old ++ process_datagrams part.now number sent.now (returned_first part.now sent.now) [] }
{
    if part.bytes == 0 {
        return;
    }
    if part.split {
        let nothing = nothing();
        append(builder, Command::Lwr, number, part.address, sent);
        append(
            builder,
            Command::Lrd,
            number,
            part.address,
            &nothing[..part.bytes],
        );
    } else {
        append(builder, Command::Lrw, number, part.address, sent);
    }
}

/// The data of the longest LRD as it is sent: zeros.
fn nothing() -> [u8; MAX_SPLIT_BYTES]
    ensures { result ≡ zeros 705 }
{
    [0; MAX_SPLIT_BYTES]
}

/// Appends a datagram of the frame of this number, for which there is room.
fn append(builder: &mut Builder, command: Command, number: u64, address: u32, content: &[u8])
    requires { length (joined builder.old) + 12 + length content.now ≤ 1470 }
    ensures { builder.new ≡ builder.old ++ new_datagram command (number % 256) address content.now ∷ [] }
{
    let _ = builder.add(command, index_of(number), address, content);
}

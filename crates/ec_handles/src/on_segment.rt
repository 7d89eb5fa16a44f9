//! The calls on the handle of a segment, as those of `on_master`: what is done to the slaves leads from the first to the second.
ghost use Rattle.std.specs.Prelude.{◌≡◌, true, is_some};
ghost use Rattle.ec_slave.specs.Serving.{served};
ghost use Rattle.ec_slave.specs.State.{power_on};
ghost use Rattle.ec_handles.specs.Calling.{Does, Exchanges, HasFault, Leads, Passes, Reads, ReadsOutputs, Writes, WritesInputs};
ghost use Rattle.ec_handles.specs.Opening.{HasSlaves};
ghost use Rattle.ec_handles.specs.Refusing.{HasOpened};

use crate::done::Done;
use crate::handle::{RawBox, SegmentHandle, conceal_segment, reveal_segment};
use crate::opening::{NotOpened, boxed_slaves, opened, refusal_result};
use crate::segments;
use std::alloc::Global;

/// Opens the slaves of the table that bytes state, just switched on, as full slaves if `full`. Refuses as `on_master::open` does.
#[tactic(auto, using(crate::proofs::Leading::opened_as, crate::proofs::Leading::refused_as))]
pub fn open(
    alloc: Global,
    table: &[u8],
    full: bool,
    name: &mut [u8],
    told: &mut NotOpened,
    out: &mut SegmentHandle,
)
    ensures { HasOpened (HasSlaves full table.now) table.now told.new name.new out.new.slaves out.old out.new }
{
    match boxed_slaves(alloc, table, full) {
        Ok(slaves) => {
            *told = opened();
            *out = conceal_segment(RawBox::of(slaves));
        }
        Err(error) => *told = refusal_result(error, name),
    }
}

/// Frees a segment.
pub fn free(alloc: Global, segment: SegmentHandle)
    requires { is_some segment.slaves ≡ true }
{
    let _slaves = reveal_segment(segment).into_box(alloc);
}

/// Passes a frame through all slaves; not done if the bytes are no frame.
#[tactic(auto, using(crate::proofs::Leading::leads))]
pub fn pass(
    alloc: Global,
    segment: SegmentHandle,
    frame: &mut [u8],
    out: &mut SegmentHandle,
) -> bool
    requires { is_some segment.slaves ≡ true }
    ensures { Leads segment.slaves out.new.slaves (λ old new. Passes old frame.old result frame.new new) }
{
    let mut slaves = reveal_segment(segment).into_box(alloc);
    let done = segments::pass(&mut slaves, frame);
    *out = conceal_segment(RawBox::of(slaves));
    done
}

/// Makes a firmware step of a slave, if it is there.
#[tactic(auto, using(crate::proofs::Leading::leads))]
pub fn serve(alloc: Global, segment: SegmentHandle, slave: usize, out: &mut SegmentHandle) -> bool
    requires { is_some segment.slaves ≡ true }
    ensures { Leads segment.slaves out.new.slaves (λ old new. Does old slave served result new) }
{
    let mut slaves = reveal_segment(segment).into_box(alloc);
    let done = segments::serve(&mut slaves, slave);
    *out = conceal_segment(RawBox::of(slaves));
    done
}

/// The application of a slave reads a byte of its outputs, if it is there and may.
#[tactic(auto, using(crate::proofs::Leading::leads))]
pub fn get(
    alloc: Global,
    segment: SegmentHandle,
    slave: usize,
    offset: usize,
    byte: &mut u8,
    out: &mut SegmentHandle,
) -> bool
    requires { is_some segment.slaves ≡ true }
    ensures { Leads segment.slaves out.new.slaves (λ old new. Reads old slave offset byte.old result byte.new new) }
{
    let mut slaves = reveal_segment(segment).into_box(alloc);
    let done = segments::get(&mut slaves, slave, offset, byte);
    *out = conceal_segment(RawBox::of(slaves));
    done
}

/// The application of a slave writes a byte of its inputs, if it is there and may.
#[tactic(auto, using(crate::proofs::Leading::leads))]
pub fn put(
    alloc: Global,
    segment: SegmentHandle,
    slave: usize,
    offset: usize,
    byte: u8,
    out: &mut SegmentHandle,
) -> bool
    requires { is_some segment.slaves ≡ true }
    ensures { Leads segment.slaves out.new.slaves (λ old new. Writes old slave offset byte result new) }
{
    let mut slaves = reveal_segment(segment).into_box(alloc);
    let done = segments::put(&mut slaves, slave, offset, byte);
    *out = conceal_segment(RawBox::of(slaves));
    done
}

/// The application of a slave reads its outputs whole, if they fit. The count is how many bytes it may read, 0 if the slave isn't there.
#[tactic(auto, using(crate::proofs::Leading::leads))]
pub fn outputs(
    alloc: Global,
    segment: SegmentHandle,
    slave: usize,
    outputs: &mut [u8],
    out: &mut SegmentHandle,
) -> Done
    requires { is_some segment.slaves ≡ true }
    ensures { Leads segment.slaves out.new.slaves (λ old new. ReadsOutputs old slave outputs.old result outputs.new new) }
{
    let mut slaves = reveal_segment(segment).into_box(alloc);
    let done = segments::read_outputs(&mut slaves, slave, outputs);
    *out = conceal_segment(RawBox::of(slaves));
    done
}

/// The application of a slave writes its inputs whole, if there are enough. The count is how many bytes it may write, 0 if the slave
/// isn't there.
#[tactic(auto, using(crate::proofs::Leading::leads))]
pub fn inputs(
    alloc: Global,
    segment: SegmentHandle,
    slave: usize,
    inputs: &[u8],
    out: &mut SegmentHandle,
) -> Done
    requires { is_some segment.slaves ≡ true }
    ensures { Leads segment.slaves out.new.slaves (λ old new. WritesInputs old slave inputs.now result new) }
{
    let mut slaves = reveal_segment(segment).into_box(alloc);
    let done = segments::write_inputs(&mut slaves, slave, inputs);
    *out = conceal_segment(RawBox::of(slaves));
    done
}

/// Makes a firmware step of a slave, whose application then writes its inputs and reads its outputs, each whole. The count is how many
/// bytes of outputs it may read, 0 if the slave isn't there.
#[tactic(auto, using(crate::proofs::Leading::leads))]
pub fn exchange(
    alloc: Global,
    segment: SegmentHandle,
    slave: usize,
    inputs: &[u8],
    outputs: &mut [u8],
    out: &mut SegmentHandle,
) -> Done
    requires { is_some segment.slaves ≡ true }
    ensures { Leads segment.slaves out.new.slaves (λ old new. Exchanges old slave inputs.now outputs.old result outputs.new new) }
{
    let mut slaves = reveal_segment(segment).into_box(alloc);
    let done = segments::exchange(&mut slaves, slave, inputs, outputs);
    *out = conceal_segment(RawBox::of(slaves));
    done
}

/// The application of a slave has a fault, if the slave is there and in OP.
#[tactic(auto, using(crate::proofs::Leading::leads))]
pub fn fault(alloc: Global, segment: SegmentHandle, slave: usize, out: &mut SegmentHandle) -> bool
    requires { is_some segment.slaves ≡ true }
    ensures { Leads segment.slaves out.new.slaves (λ old new. HasFault old slave result new) }
{
    let mut slaves = reveal_segment(segment).into_box(alloc);
    let done = segments::fault(&mut slaves, slave);
    *out = conceal_segment(RawBox::of(slaves));
    done
}

/// Switches a slave off and on, if it is there.
#[tactic(auto, using(crate::proofs::Leading::leads))]
pub fn reset(alloc: Global, segment: SegmentHandle, slave: usize, out: &mut SegmentHandle) -> bool
    requires { is_some segment.slaves ≡ true }
    ensures { Leads segment.slaves out.new.slaves (λ old new. Does old slave (λ s. power_on s.kind s.identity) result new) }
{
    let mut slaves = reveal_segment(segment).into_box(alloc);
    let done = segments::reset(&mut slaves, slave);
    *out = conceal_segment(RawBox::of(slaves));
    done
}

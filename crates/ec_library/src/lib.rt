//! The master and the segment of a link table for programs in C; `include/ecat.h` has the calls as C sees them.
//!
//! Only a static library exports, and no crate can stand on one. So each export is a call of `ec_handles`, with its contract again.
#![tactic(auto)]

ghost use Rattle.std.specs.Prelude.{◌≡◌, true, is_some, length, slice_get};
ghost use Rattle.ec_slave.specs.Serving.{served};
ghost use Rattle.ec_slave.specs.State.{power_on};
ghost use Rattle.ec_handles.specs.Calling.{AreCopied, AsksNext, AsksState, Begins, Closes, Does, Exchanges, Finds, Gets, GivesUp, HasFault, Leads, Passes, Reads, ReadsOutputs, Sets, SetsOutputs, CopiesInputs, CopiesPart, Takes, ReturnsPhase, ReturnsUnit, Writes, WritesInputs, counted};
ghost use Rattle.ec_handles.specs.Facts.{Explains, GetsSigned, ReturnsFailure, counters_of, counters_result, failure_name, name_at, place_result};
ghost use Rattle.ec_handles.specs.Holding.{failure_of};
ghost use Rattle.ec_handles.specs.Opening.{HasMaster, HasSlaves};
ghost use Rattle.ec_handles.specs.Refusing.{HasOpened};
ghost use Rattle.ec_handles.specs.Statuses.{state_result, told_of};

use ec_handles::{
    Closed, Done, MasterHandle, NotOpened, PartCounters, Placed, SegmentHandle, Told,
    VariableValue, on_master, on_segment,
};
use std::alloc::Global;

/// [`on_master::open`] for programs in C.
#[unsafe(no_mangle)]
pub extern "C" fn ecat_c_open(
    alloc: Global,
    table: &[u8],
    name: &mut [u8],
    told: &mut NotOpened,
    out: &mut MasterHandle,
)
    ensures { HasOpened (HasMaster table.now) table.now told.new name.new out.new.held out.old out.new }
{
    on_master::open(alloc, table, name, told, out);
}

/// [`on_master::free`] for programs in C.
#[unsafe(no_mangle)]
pub extern "C" fn ecat_c_drop(alloc: Global, master: MasterHandle)
    requires { is_some master.held ≡ true }
{
    on_master::free(alloc, master);
}

/// [`on_master::next`] for programs in C.
#[unsafe(no_mangle)]
pub extern "C" fn ecat_c_next(
    alloc: Global,
    master: MasterHandle,
    frame: &mut [u8],
    out: &mut MasterHandle,
) -> Done
    requires { is_some master.held ≡ true }
    ensures { Leads master.held out.new.held (λ m n. AsksNext m frame.old result frame.new n) }
{
    on_master::next(alloc, master, frame, out)
}

/// [`on_master::take`] for programs in C.
#[unsafe(no_mangle)]
pub extern "C" fn ecat_c_take(
    alloc: Global,
    master: MasterHandle,
    payload: &[u8],
    out: &mut MasterHandle,
) -> Done
    requires { is_some master.held ≡ true }
    ensures { Leads master.held out.new.held (λ m n. Takes m payload.now result n) }
{
    on_master::take(alloc, master, payload, out)
}

/// [`on_master::phase`] for programs in C.
#[unsafe(no_mangle)]
pub extern "C" fn ecat_c_phase(alloc: Global, master: MasterHandle, out: &mut MasterHandle) -> Done
    requires { is_some master.held ≡ true }
    ensures { Leads master.held out.new.held (λ m n. ReturnsPhase m result n) }
{
    on_master::phase(alloc, master, out)
}

/// [`on_master::give_up`] for programs in C.
#[unsafe(no_mangle)]
pub extern "C" fn ecat_c_give_up(alloc: Global, master: MasterHandle, out: &mut MasterHandle)
    requires { is_some master.held ≡ true }
    ensures { Leads master.held out.new.held (λ m n. GivesUp m n) }
{
    on_master::give_up(alloc, master, out);
}

/// [`on_master::waits`] for programs in C.
#[unsafe(no_mangle)]
pub extern "C" fn ecat_c_waits(alloc: Global, master: MasterHandle, out: &mut MasterHandle) -> bool
    requires { is_some master.held ≡ true }
    ensures { Leads master.held out.new.held (λ m n. (n ≡ m) × (result ≡ m.polling.is_again)) }
{
    on_master::waits(alloc, master, out)
}

/// [`on_master::failure`] for programs in C.
#[unsafe(no_mangle)]
pub extern "C" fn ecat_c_failure(
    alloc: Global,
    master: MasterHandle,
    values: &mut [u64],
    out: &mut MasterHandle,
) -> Done
    requires { is_some master.held ≡ true }
    ensures { Leads master.held out.new.held (λ m n. (n ≡ m) × ReturnsFailure (failure_of m) values.old result values.new) }
{
    on_master::failure(alloc, master, values, out)
}

/// [`on_master::failure_name`] for programs in C.
#[unsafe(no_mangle)]
pub extern "C" fn ecat_c_failure_name(
    alloc: Global,
    master: MasterHandle,
    name: &mut [u8],
    out: &mut MasterHandle,
) -> Done
    requires { is_some master.held ≡ true }
    ensures { Leads master.held out.new.held (λ m n. (n ≡ m) × AreCopied (failure_name (failure_of m)) name.old result name.new) }
{
    on_master::failure_name(alloc, master, name, out)
}

/// [`on_master::explain`] for programs in C.
#[unsafe(no_mangle)]
pub extern "C" fn ecat_c_explain(
    alloc: Global,
    master: MasterHandle,
    words: &mut [u8],
    out: &mut MasterHandle,
) -> Done
    requires { is_some master.held ≡ true }
    ensures { Leads master.held out.new.held (λ m n. (n ≡ m) × Explains (failure_of m) words.old result words.new) }
{
    on_master::explain(alloc, master, words, out)
}

/// [`on_master::state_next`] for programs in C.
#[unsafe(no_mangle)]
pub extern "C" fn ecat_c_state_next(
    alloc: Global,
    master: MasterHandle,
    slave: usize,
    frame: &mut [u8],
    out: &mut MasterHandle,
) -> Done
    requires { is_some master.held ≡ true }
    ensures { Leads master.held out.new.held (λ m n. AsksState m slave frame.old result frame.new n) }
{
    on_master::state_next(alloc, master, slave, frame, out)
}

/// [`on_master::state`] for programs in C.
#[unsafe(no_mangle)]
pub extern "C" fn ecat_c_state(
    alloc: Global,
    master: MasterHandle,
    slave: usize,
    out: &mut MasterHandle,
) -> Told
    requires { is_some master.held ≡ true }
    ensures { Leads master.held out.new.held (λ m n. (n ≡ m) × (result ≡ state_result (told_of m.statuses slave))) }
{
    on_master::state(alloc, master, slave, out)
}

/// [`on_master::slaves`] for programs in C.
#[unsafe(no_mangle)]
pub extern "C" fn ecat_c_slaves(alloc: Global, master: MasterHandle, out: &mut MasterHandle) -> Done
    requires { is_some master.held ≡ true }
    ensures { Leads master.held out.new.held (λ m n. (n ≡ m) × (result ≡ counted true (length m.session.master.plan.slaves))) }
{
    on_master::slaves(alloc, master, out)
}

/// [`on_master::begin`] for programs in C.
#[unsafe(no_mangle)]
pub extern "C" fn ecat_c_begin(alloc: Global, master: MasterHandle, out: &mut MasterHandle) -> Done
    requires { is_some master.held ≡ true }
    ensures { Leads master.held out.new.held (λ m n. Begins m result n) }
{
    on_master::begin(alloc, master, out)
}

/// [`on_master::part`] for programs in C.
#[unsafe(no_mangle)]
pub extern "C" fn ecat_c_part(
    alloc: Global,
    master: MasterHandle,
    part: usize,
    frame: &mut [u8],
    out: &mut MasterHandle,
) -> Done
    requires { is_some master.held ≡ true }
    ensures { Leads master.held out.new.held (λ m n. CopiesPart m part frame.old result frame.new n) }
{
    on_master::part(alloc, master, part, frame, out)
}

/// [`on_master::close`] for programs in C.
#[unsafe(no_mangle)]
pub extern "C" fn ecat_c_close(
    alloc: Global,
    master: MasterHandle,
    out: &mut MasterHandle,
) -> Closed
    requires { is_some master.held ≡ true }
    ensures { Leads master.held out.new.held (λ m n. Closes m result n) }
{
    on_master::close(alloc, master, out)
}

/// [`on_master::unit`] for programs in C.
#[unsafe(no_mangle)]
pub extern "C" fn ecat_c_unit(
    alloc: Global,
    master: MasterHandle,
    unit: u8,
    out: &mut MasterHandle,
) -> Done
    requires { is_some master.held ≡ true }
    ensures { Leads master.held out.new.held (λ m n. ReturnsUnit m unit result n) }
{
    on_master::unit(alloc, master, unit, out)
}

/// [`on_master::counters`] for programs in C.
#[unsafe(no_mangle)]
pub extern "C" fn ecat_c_counters(
    alloc: Global,
    master: MasterHandle,
    part: usize,
    out: &mut MasterHandle,
) -> PartCounters
    requires { is_some master.held ≡ true }
    ensures { Leads master.held out.new.held (λ m n. (n ≡ m) × (result ≡ counters_result (counters_of m part))) }
{
    on_master::counters(alloc, master, part, out)
}

/// [`on_master::set`] for programs in C.
#[unsafe(no_mangle)]
pub extern "C" fn ecat_c_set(
    alloc: Global,
    master: MasterHandle,
    variable: usize,
    value: u64,
    out: &mut MasterHandle,
) -> Done
    requires { is_some master.held ≡ true }
    ensures { Leads master.held out.new.held (λ m n. Sets m variable value result n) }
{
    on_master::set(alloc, master, variable, value, out)
}

/// [`on_master::get`] for programs in C.
#[unsafe(no_mangle)]
pub extern "C" fn ecat_c_get(
    alloc: Global,
    master: MasterHandle,
    variable: usize,
    out: &mut MasterHandle,
) -> VariableValue
    requires { is_some master.held ≡ true }
    ensures { Leads master.held out.new.held (λ m n. Gets m variable result n) }
{
    on_master::get(alloc, master, variable, out)
}

/// [`on_master::outputs`] for programs in C.
#[unsafe(no_mangle)]
pub extern "C" fn ecat_c_outputs(
    alloc: Global,
    master: MasterHandle,
    outputs: &[u8],
    out: &mut MasterHandle,
) -> Done
    requires { is_some master.held ≡ true }
    ensures { Leads master.held out.new.held (λ m n. SetsOutputs m outputs.now result n) }
{
    on_master::outputs(alloc, master, outputs, out)
}

/// [`on_master::inputs`] for programs in C.
#[unsafe(no_mangle)]
pub extern "C" fn ecat_c_inputs(
    alloc: Global,
    master: MasterHandle,
    inputs: &mut [u8],
    out: &mut MasterHandle,
) -> Done
    requires { is_some master.held ≡ true }
    ensures { Leads master.held out.new.held (λ m n. CopiesInputs m inputs.old result inputs.new n) }
{
    on_master::inputs(alloc, master, inputs, out)
}

/// [`on_master::variable`] for programs in C.
#[unsafe(no_mangle)]
pub extern "C" fn ecat_c_variable(
    alloc: Global,
    master: MasterHandle,
    name: &[u8],
    out: &mut MasterHandle,
) -> Done
    requires { is_some master.held ≡ true }
    ensures { Leads master.held out.new.held (λ m n. Finds m name.now result n) }
{
    on_master::variable(alloc, master, name, out)
}

/// [`on_master::get_signed`] for programs in C.
#[unsafe(no_mangle)]
pub extern "C" fn ecat_c_get_signed(
    alloc: Global,
    master: MasterHandle,
    variable: usize,
    out: &mut MasterHandle,
) -> VariableValue
    requires { is_some master.held ≡ true }
    ensures { Leads master.held out.new.held (λ m n. (n ≡ m) × GetsSigned m variable result) }
{
    on_master::get_signed(alloc, master, variable, out)
}

/// [`on_master::variables`] for programs in C.
#[unsafe(no_mangle)]
pub extern "C" fn ecat_c_variables(
    alloc: Global,
    master: MasterHandle,
    out: &mut MasterHandle,
) -> Done
    requires { is_some master.held ≡ true }
    ensures { Leads master.held out.new.held (λ m n. (n ≡ m) × (result ≡ counted true (length m.session.master.plan.variables))) }
{
    on_master::variables(alloc, master, out)
}

/// [`on_master::place`] for programs in C.
#[unsafe(no_mangle)]
pub extern "C" fn ecat_c_place(
    alloc: Global,
    master: MasterHandle,
    variable: usize,
    out: &mut MasterHandle,
) -> Placed
    requires { is_some master.held ≡ true }
    ensures { Leads master.held out.new.held (λ m n. (n ≡ m) × (result ≡ place_result (slice_get m.session.master.plan.variables variable))) }
{
    on_master::place(alloc, master, variable, out)
}

/// [`on_master::name`] for programs in C.
#[unsafe(no_mangle)]
pub extern "C" fn ecat_c_name(
    alloc: Global,
    master: MasterHandle,
    variable: usize,
    name: &mut [u8],
    out: &mut MasterHandle,
) -> Done
    requires { is_some master.held ≡ true }
    ensures { Leads master.held out.new.held (λ m n. (n ≡ m) × AreCopied (name_at m.session.table variable) name.old result name.new) }
{
    on_master::name(alloc, master, variable, name, out)
}

/// [`on_segment::open`] for programs in C.
#[unsafe(no_mangle)]
pub extern "C" fn ecat_c_segment_open(
    alloc: Global,
    table: &[u8],
    full: bool,
    name: &mut [u8],
    told: &mut NotOpened,
    out: &mut SegmentHandle,
)
    ensures { HasOpened (HasSlaves full table.now) table.now told.new name.new out.new.slaves out.old out.new }
{
    on_segment::open(alloc, table, full, name, told, out);
}

/// [`on_segment::free`] for programs in C.
#[unsafe(no_mangle)]
pub extern "C" fn ecat_c_segment_drop(alloc: Global, segment: SegmentHandle)
    requires { is_some segment.slaves ≡ true }
{
    on_segment::free(alloc, segment);
}

/// [`on_segment::pass`] for programs in C.
#[unsafe(no_mangle)]
pub extern "C" fn ecat_c_segment_pass(
    alloc: Global,
    segment: SegmentHandle,
    frame: &mut [u8],
    out: &mut SegmentHandle,
) -> bool
    requires { is_some segment.slaves ≡ true }
    ensures { Leads segment.slaves out.new.slaves (λ old new. Passes old frame.old result frame.new new) }
{
    on_segment::pass(alloc, segment, frame, out)
}

/// [`on_segment::serve`] for programs in C.
#[unsafe(no_mangle)]
pub extern "C" fn ecat_c_segment_serve(
    alloc: Global,
    segment: SegmentHandle,
    slave: usize,
    out: &mut SegmentHandle,
) -> bool
    requires { is_some segment.slaves ≡ true }
    ensures { Leads segment.slaves out.new.slaves (λ old new. Does old slave served result new) }
{
    on_segment::serve(alloc, segment, slave, out)
}

/// [`on_segment::get`] for programs in C.
#[unsafe(no_mangle)]
pub extern "C" fn ecat_c_segment_get(
    alloc: Global,
    segment: SegmentHandle,
    slave: usize,
    offset: usize,
    byte: &mut u8,
    out: &mut SegmentHandle,
) -> bool
    requires { is_some segment.slaves ≡ true }
    ensures { Leads segment.slaves out.new.slaves (λ old new. Reads old slave offset byte.old result byte.new new) }
{
    on_segment::get(alloc, segment, slave, offset, byte, out)
}

/// [`on_segment::put`] for programs in C.
#[unsafe(no_mangle)]
pub extern "C" fn ecat_c_segment_put(
    alloc: Global,
    segment: SegmentHandle,
    slave: usize,
    offset: usize,
    byte: u8,
    out: &mut SegmentHandle,
) -> bool
    requires { is_some segment.slaves ≡ true }
    ensures { Leads segment.slaves out.new.slaves (λ old new. Writes old slave offset byte result new) }
{
    on_segment::put(alloc, segment, slave, offset, byte, out)
}

/// [`on_segment::outputs`] for programs in C.
#[unsafe(no_mangle)]
pub extern "C" fn ecat_c_segment_outputs(
    alloc: Global,
    segment: SegmentHandle,
    slave: usize,
    outputs: &mut [u8],
    out: &mut SegmentHandle,
) -> Done
    requires { is_some segment.slaves ≡ true }
    ensures { Leads segment.slaves out.new.slaves (λ old new. ReadsOutputs old slave outputs.old result outputs.new new) }
{
    on_segment::outputs(alloc, segment, slave, outputs, out)
}

/// [`on_segment::inputs`] for programs in C.
#[unsafe(no_mangle)]
pub extern "C" fn ecat_c_segment_inputs(
    alloc: Global,
    segment: SegmentHandle,
    slave: usize,
    inputs: &[u8],
    out: &mut SegmentHandle,
) -> Done
    requires { is_some segment.slaves ≡ true }
    ensures { Leads segment.slaves out.new.slaves (λ old new. WritesInputs old slave inputs.now result new) }
{
    on_segment::inputs(alloc, segment, slave, inputs, out)
}

/// [`on_segment::exchange`] for programs in C.
#[unsafe(no_mangle)]
pub extern "C" fn ecat_c_segment_exchange(
    alloc: Global,
    segment: SegmentHandle,
    slave: usize,
    inputs: &[u8],
    outputs: &mut [u8],
    out: &mut SegmentHandle,
) -> Done
    requires { is_some segment.slaves ≡ true }
    ensures { Leads segment.slaves out.new.slaves (λ old new. Exchanges old slave inputs.now outputs.old result outputs.new new) }
{
    on_segment::exchange(alloc, segment, slave, inputs, outputs, out)
}

/// [`on_segment::fault`] for programs in C.
#[unsafe(no_mangle)]
pub extern "C" fn ecat_c_segment_fault(
    alloc: Global,
    segment: SegmentHandle,
    slave: usize,
    out: &mut SegmentHandle,
) -> bool
    requires { is_some segment.slaves ≡ true }
    ensures { Leads segment.slaves out.new.slaves (λ old new. HasFault old slave result new) }
{
    on_segment::fault(alloc, segment, slave, out)
}

/// [`on_segment::reset`] for programs in C.
#[unsafe(no_mangle)]
pub extern "C" fn ecat_c_segment_reset(
    alloc: Global,
    segment: SegmentHandle,
    slave: usize,
    out: &mut SegmentHandle,
) -> bool
    requires { is_some segment.slaves ≡ true }
    ensures { Leads segment.slaves out.new.slaves (λ old new. Does old slave (λ s. power_on s.kind s.identity) result new) }
{
    on_segment::reset(alloc, segment, slave, out)
}

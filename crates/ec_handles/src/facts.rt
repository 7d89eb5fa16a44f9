//! What a program in C can know of a master: its variables, its slaves, why its start-up failed, and the counters of its last report.
ghost use Rattle.std.specs.Prelude.{◌≡◌, Some, slice_get};
ghost use Rattle.ec_link.specs.LinkRuns.{is_out};
ghost use Rattle.ec_handles.specs.Calling.{AreCopied};
ghost use Rattle.ec_handles.specs.Facts.{Explains, GetsSigned, ReturnsFailure, counters_in, counters_of, counters_result, extended, failure_name, name_at, place_result, signed};
ghost use Rattle.ec_handles.specs.Holding.{failure_of};

use crate::done::{Done, VariableValue, copy_into, counted};
use crate::held::HeldMaster;
use arrayvec::ArrayString;
use ec_cycle::Report;
use ec_explain_start::StartFault;
use ec_link::ExpectedCounters;
use ec_start::StartError;
use ec_table::Direction;
use std::fmt::Write as _;

/// The most bytes of the words for a failure.
const WORDS: usize = 511;

/// Where a variable is, if there is one: its direction, whether it is signed, its bits, and its first bit in the image of its direction.
#[repr(C)]
#[derive(Clone, Copy, Drop)]
pub struct Placed {
    pub is_there: bool,
    pub is_output: bool,
    pub is_signed: bool,
    pub bits: u8,
    pub from: usize,
}

/// The working counters of a part: how many there are, and these, with 0 behind them.
#[repr(C)]
#[derive(Clone, Copy, Drop)]
pub struct PartCounters {
    pub count: usize,
    pub first: usize,
    pub second: usize,
}

/// The number of the last start-up's failure; not done if it didn't fail. The count is how many values it has, and these are written
/// into `values`, as far as it has room.
pub fn failure(held: &HeldMaster, values: &mut [u64]) -> Done
    ensures { ReturnsFailure (failure_of held.now) values.old result values.new }
{
    match held.failure() {
        Some(error) => failure_result(error, values),
        None => counted(false, 0),
    }
}

/// Writes the name of that failure into `room`; the count is its length in bytes, 0 if there is no failure.
pub fn copy_failure_name(held: &HeldMaster, room: &mut [u8]) -> Done
    ensures { AreCopied (failure_name (failure_of held.now)) room.old result room.new }
{
    match held.failure() {
        Some(error) => copy_into(error.name().as_bytes(), room),
        None => copy_into(&[], room),
    }
}

/// Writes in words what the last start-up failed by, if they fit; the count is their length in bytes, 0 if it didn't fail.
pub fn explain(held: &HeldMaster, room: &mut [u8]) -> Done
    ensures { Explains (failure_of held.now) room.old result room.new }
{
    match held.failure() {
        Some(error) => copy_into(words_for(held, error).as_bytes(), room),
        None => counted(false, 0),
    }
}

/// Where a variable is.
pub fn place(held: &HeldMaster, variable: usize) -> Placed
    ensures { result ≡ place_result (slice_get held.now.session.master.plan.variables variable) }
{
    match held.session.plan().variables().get(variable) {
        Some(place) => Placed {
            is_there: true,
            is_output: is_output(place.direction),
            is_signed: place.signed,
            bits: place.bits,
            from: place.from,
        },
        None => Placed {
            is_there: false,
            is_output: false,
            is_signed: false,
            bits: 0,
            from: 0,
        },
    }
}

/// Writes the name of a variable into `room`; the count is its length in bytes, 0 if there is no such variable.
pub fn copy_name(held: &HeldMaster, variable: usize, room: &mut [u8]) -> Done
    ensures { AreCopied (name_at held.now.session.table variable) room.old result room.new }
{
    match held.session.table().variables().get(variable) {
        Some(row) => copy_into(row.name.as_str().as_bytes(), room),
        None => copy_into(&[], room),
    }
}

/// The value of a variable with its sign, in two's complement of 64 bits; 0 if there is no such variable.
pub fn get_signed(held: &HeldMaster, variable: usize) -> VariableValue
    ensures { GetsSigned held.now variable result }
{
    let value = held.session.get(variable).unwrap_or(0);
    let place = place(held, variable);
    VariableValue {
        is_there: place.is_there,
        value: signed(place, value),
    }
}

/// The working counters of a part in the last report; none if there is no report or no such part, or if the part was missing.
pub fn counters(held: &HeldMaster, part: usize) -> PartCounters
    ensures { result ≡ counters_result (counters_of held.now part) }
{
    match held.session.report() {
        Some(report) => counters_in(report, part),
        None => counters_result(None),
    }
}

/// The failure, and its values.
fn failure_result(error: StartError, room: &mut [u64]) -> Done
    ensures { ReturnsFailure (Some error) room.old result room.new }
{
    let values = error.values();
    let count = values.len().min(room.len());
    room[..count].copy_from_slice(&values.as_slice()[..count]);
    Done {
        number: error.number(),
        is_done: true,
        count: values.len(),
    }
}

/// The words for a failure.
fn words_for(held: &HeldMaster, error: StartError) -> ArrayString<WORDS> {
    let session = &held.session;
    let fault = StartFault::of_startup(session.table(), session.plan(), session.startup(), error);
    let mut words = ArrayString::new();
    let _ = write!(words, "{fault}");
    words
}

/// Whether the master writes the variables of a direction.
fn is_output(direction: Direction) -> bool
    ensures { result ≡ is_out direction }
{
    match direction {
        Direction::Out => true,
        Direction::In => false,
    }
}

/// A value of a variable as a number of 64 bits in two's complement.
fn signed(place: Placed, value: u64) -> u64
    ensures { result ≡ signed place.is_signed place.bits value }
{
    if place.is_signed {
        extended(place.bits, value)
    } else {
        value
    }
}

/// A signed number of so many bits, in 64 bits.
fn extended(bits: u8, value: u64) -> u64
    ensures { result ≡ extended bits value }
{
    if bits == 0 || bits >= 64 || value < 1u64 << (bits - 1) {
        return value;
    }
    value.wrapping_add(u64::MAX - ((1u64 << bits) - 1))
}

/// The working counters of a part in a report.
fn counters_in(report: &Report, part: usize) -> PartCounters
    ensures { result ≡ counters_result (counters_in report.now part) }
{
    let counters = report.counters();
    if part >= counters.len() {
        return counters_result(None);
    }
    counters_result(counters[part])
}

/// The working counters of a part, as C sees them.
fn counters_result(counters: Option<ExpectedCounters>) -> PartCounters
    ensures { result ≡ counters_result counters }
{
    let (count, first, second) = match counters {
        None => (0, 0, 0),
        Some(ExpectedCounters::Lrw(counter)) => (1, counter, 0),
        Some(ExpectedCounters::Split { write, read }) => (2, write, read),
    };
    PartCounters {
        count,
        first,
        second,
    }
}

//! The calls of a master: each makes the call of a session, and returns what C sees of it.
ghost use Rattle.std.specs.Prelude.{◌≡◌, true, length};
ghost use Rattle.ec_cycle.specs.Closing.{ReportState};
ghost use Rattle.ec_handles.specs.Calling.{AsksNext, AsksState, Begins, Closes, Finds, Gets, GivesUp, Sets, SetsOutputs, CopiesInputs, CopiesPart, Takes, ReturnsPhase, ReturnsUnit, counted, not_closed, report_result};

use crate::done::{Closed, Done, VariableValue, copy_into, counted, refused};
use crate::held::HeldMaster;
use ec_cycle::Report;
use ec_frame::field::MAX_FRAME_LEN;
use ec_session::Session;

/// Writes the next frame of the start-up into `room`; the count is its length in bytes, 0 if there is none.
pub fn next(held: &mut HeldMaster, room: &mut [u8]) -> Done
    ensures { AsksNext held.old room.old result room.new held.new }
{
    let count = held.session.next(room);
    if count > 0 {
        held.polling.note(&room[..count]);
    }
    counted(count > 0, count)
}

/// Takes a payload; done if it was kept, by the session or as what a slave says of its AL state. The count is how many parts of the
/// open cycle are missing.
#[tactic(auto, using(crate::proofs::Taking::kept, crate::proofs::Taking::told))]
pub fn take(held: &mut HeldMaster, payload: &[u8]) -> Done
    ensures { Takes held.old payload.now result held.new }
{
    let is_kept = held.session.take(payload);
    let is_taken = is_kept || held.statuses.take(payload);
    counted(is_taken, held.session.missing())
}

/// Writes the frame that asks for the AL state of a slave into `room`, if there is such a slave; the count is its length in bytes.
pub fn next_state(held: &mut HeldMaster, slave: usize, room: &mut [u8]) -> Done
    ensures { AsksState held.old slave room.old result room.new held.new }
{
    held.session.master().is_sound();
    if room.len() < MAX_FRAME_LEN || slave >= held.session.plan().slaves().len() {
        return counted(false, 0);
    }
    counted(true, held.statuses.ask(slave, room))
}

/// Whether the start-up has ended Ready, or the number of its failure.
pub fn phase(held: &HeldMaster) -> Done
    ensures { ReturnsPhase held.now result held.now }
{
    match held.session.outcome() {
        None => counted(false, 0),
        Some(Ok(())) => counted(true, 0),
        Some(Err(error)) => refused(error.number()),
    }
}

/// Ends a start-up that runs, as lost.
pub fn give_up(held: &mut HeldMaster)
    ensures { GivesUp held.old held.new }
{
    held.session.give_up();
}

/// The number of slaves, as the count.
pub fn slaves(held: &HeldMaster) -> Done
    ensures { result ≡ counted true (length held.now.session.master.plan.slaves) }
{
    counted(true, held.session.plan().slaves().len())
}

/// The number of variables, as the count.
pub fn variables(held: &HeldMaster) -> Done
    ensures { result ≡ counted true (length held.now.session.master.plan.variables) }
{
    counted(true, held.session.plan().variables().len())
}

/// Begins a cycle; the count is its number of parts.
pub fn begin(held: &mut HeldMaster) -> Done
    ensures { Begins held.old result held.new }
{
    match held.session.begin() {
        Ok(()) => counted(true, held.session.parts()),
        Err(error) => refused(error.number()),
    }
}

/// Writes the frame of a part of the open cycle into `room`, if there is one and it fits; the count is its length in bytes.
pub fn copy_part(held: &HeldMaster, part: usize, room: &mut [u8]) -> Done
    ensures { CopiesPart held.now part room.old result room.new held.now }
{
    match held.session.part(part) {
        Some(frame) => copy_into(frame, room),
        None => counted(false, 0),
    }
}

/// Closes the cycle, and returns its report.
pub fn close(held: &mut HeldMaster) -> Closed
    ensures { Closes held.old result held.new }
{
    match held.session.close() {
        Ok(()) => last_result(&held.session),
        Err(error) => not_closed(error.number()),
    }
}

/// Whether a sync unit was taken in the last report; the count is 1 if the report has the unit, and else 0.
pub fn unit_result_of(held: &HeldMaster, unit: u8) -> Done
    ensures { ReturnsUnit held.now unit result held.now }
{
    match held.session.unit(unit) {
        Some(is_taken) => counted(is_taken, 1),
        None => counted(false, 0),
    }
}

/// Sets a variable of the outputs; done if there is one that holds the value.
pub fn set(held: &mut HeldMaster, variable: usize, value: u64) -> Done
    ensures { Sets held.old variable value result held.new }
{
    counted(held.session.set(variable, value), 0)
}

/// The value of a variable, if there is one.
pub fn get(held: &HeldMaster, variable: usize) -> VariableValue
    ensures { Gets held.now variable result held.now }
{
    match held.session.get(variable) {
        Some(value) => VariableValue {
            is_there: true,
            value,
        },
        None => VariableValue {
            is_there: false,
            value: 0,
        },
    }
}

/// Sets the image of all outputs if the lengths agree; the count is the image's number of bytes.
pub fn set_outputs(held: &mut HeldMaster, outputs: &[u8]) -> Done
    ensures { SetsOutputs held.old outputs.now result held.new }
{
    let count = held.session.set_outputs(outputs);
    counted(count == outputs.len(), count)
}

/// Writes the image of all inputs into `room` if it fits; the count is its number of bytes.
pub fn copy_inputs(held: &HeldMaster, room: &mut [u8]) -> Done
    ensures { CopiesInputs held.now room.old result room.new held.now }
{
    copy_into(held.session.inputs(), room)
}

/// The number of the variable with a name, as the count; not done if there is none.
pub fn find(held: &HeldMaster, name: &[u8]) -> Done
    ensures { Finds held.now name.now result held.now }
{
    let Ok(name) = str::from_utf8(name) else {
        return counted(false, 0);
    };
    match held.session.variable(name) {
        Some(index) => counted(true, index),
        None => counted(false, 0),
    }
}

/// The last report, if there is one.
fn last_result(session: &Session) -> Closed
    ensures { (r : ReportState) → session.now.report ≡ Some r → result ≡ report_result r }
{
    match session.report() {
        Some(report) => result_of_report(report),
        None => not_closed(0),
    }
}

/// A report, as C sees it.
fn result_of_report(report: &Report) -> Closed
    ensures { result ≡ report_result report.now }
{
    Closed {
        number: 0,
        is_taken: report.is_taken(),
        al: report.al_word(),
        missing: report.missing(),
    }
}

/// No cycle was closed; the number says why.
fn not_closed(number: u8) -> Closed
    ensures { result ≡ not_closed number }
{
    Closed {
        number,
        is_taken: false,
        al: 0,
        missing: 0,
    }
}

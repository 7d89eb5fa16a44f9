//! Boxes of opened masters and slaves, and the refusal of a text as C sees it.
ghost use Rattle.std.specs.Prelude.{◌≡◌, None, IfErr, IfOk, IsUtf8, OnOk, length, min, take};
ghost use Rattle.ec_bringup.specs.SwitchedOn.{AreSlavesOf};
ghost use Rattle.ec_link.specs.Faults.{Fails, compile_fault};
ghost use Rattle.ec_link.specs.Machine.{Refuses};
ghost use Rattle.ec_handles.specs.Opening.{AreOpened, HasMaster, HasSlaves, IsNewMaster, IsOpenFault};
ghost use Rattle.ec_handles.specs.Refusing.{ReturnsRefusal, no_refusal};

use crate::error::OpenError;
use crate::held::HeldMaster;
use ec_bringup::slaves_of_machine;
use ec_link::{LinkError, Machine, MachineError};
use ec_ring::Ring;
use ec_session::Session;
use ec_table::{Table, TableError, read_table};
use std::alloc::Global;

/// Whether an opening succeeded, and else the refusal: its number, the length of its name in bytes, how many values it has, and
/// these.
#[repr(C)]
#[derive(Clone, Copy, Drop)]
pub struct NotOpened {
    pub is_open: bool,
    pub number: u8,
    pub name: usize,
    pub count: usize,
    pub first: u64,
    pub second: u64,
}

/// The opening succeeded.
pub fn opened() -> NotOpened
    ensures { result ≡ no_refusal }
{
    NotOpened {
        is_open: true,
        number: 0,
        name: 0,
        count: 0,
        first: 0,
        second: 0,
    }
}

/// A refusal. Writes its name into `room`, as far as it fits.
pub fn refusal_result(error: OpenError, room: &mut [u8]) -> NotOpened
    ensures { ReturnsRefusal error result room.new }
{
    let (count, first, second) = error.values();
    NotOpened {
        is_open: false,
        number: error.number(),
        name: write_name(error.name(), room),
        count,
        first,
        second,
    }
}

/// The box of the master of the table that bytes state; the error is `Text`, or that of [`Session::open`].
pub fn boxed_master(alloc: Global, table: &[u8]) -> Result<Box<HeldMaster>, OpenError>
    ensures opened { IfOk result (λ boxed. HasMaster table.now boxed.value) }
    ensures refused { IfErr result (IsOpenFault table.now) }
{
    let text = text_of(table)?;
    Ok(master_of(alloc, text)?)
}

/// The box of the slaves of the table that bytes state, just switched on; all of them full slaves if `full`. The error is that of
/// [`boxed_master`].
pub fn boxed_slaves(alloc: Global, table: &[u8], full: bool) -> Result<Box<Ring>, OpenError>
    ensures opened { IfOk result (λ boxed. HasSlaves full table.now boxed.value) }
    ensures refused { IfErr result (IsOpenFault table.now) }
{
    let text = text_of(table)?;
    Ok(slaves_of(alloc, text, full)?)
}

/// The text of bytes; the error is `Text` if they are not UTF-8.
fn text_of(bytes: &[u8]) -> Result<&str, OpenError>
    ensures readable { OnOk result (IsUtf8 bytes.now) }
    ensures same { IfOk result (λ text. text.now ≡ bytes.now) }
    ensures refused { IfErr result (IsOpenFault bytes.now) }
{
    match str::from_utf8(bytes) {
        Ok(text) => Ok(text),
        Err(_) => Err(OpenError::Text),
    }
}

/// The box of the master of the table that a text states; the error is that of [`Session::open`].
fn master_of(alloc: Global, text: &str) -> Result<Box<HeldMaster>, MachineError>
    ensures opened { IfOk result (λ boxed. IsNewMaster text.now boxed.value) }
    ensures refused { IfErr result (Refuses text.now) }
{
    let session = Session::open(alloc, text)?;
    match Box::new(alloc, HeldMaster::new(session)) {
        Ok(boxed) => Ok(boxed),
        Err(_) => Err(MachineError::Table(TableError::Memory)),
    }
}

/// The box of the slaves of the table that a text states, just switched on; all of them full slaves if `full`. The error is the
/// first fault of the text or of its table, or `Memory`.
fn slaves_of(alloc: Global, text: &str, full: bool) -> Result<Box<Ring>, MachineError>
    ensures opened { IfOk result (λ boxed. AreOpened full text.now boxed.value) }
    ensures refused { IfErr result (Refuses text.now) }
{
    let slaves = slaves_in(alloc, text, full)?;
    match Box::new(alloc, slaves) {
        Ok(boxed) => Ok(boxed),
        Err(_) => Err(MachineError::Table(TableError::Memory)),
    }
}

/// As [`slaves_of`], without a box.
#[tactic(auto, using(crate::proofs::Shown::are_opened, crate::proofs::Shown::are_refused))]
fn slaves_in(alloc: Global, text: &str, full: bool) -> Result<Ring, MachineError>
    ensures opened { IfOk result (AreOpened full text.now) }
    ensures refused { IfErr result (Refuses text.now) }
{
    let mut table = read_table(alloc, text)?;
    table.advertise_as(full);
    Ok(switched_on(alloc, table)?)
}

/// The slaves of a table, just switched on; the error is the table's first fault, or `Memory`.
fn switched_on(alloc: Global, table: Table) -> Result<Ring, LinkError>
    ensures accepted { OnOk result (compile_fault table ≡ None) }
    ensures slaves { IfOk result (AreSlavesOf table) }
    ensures refused { IfErr result (λ error. Fails error (compile_fault table)) }
{
    let machine = Machine::new(alloc, table)?;
    Ok(slaves_of_machine(alloc, &machine)?)
}

/// Writes as much of a name as `room` holds, and returns how many bytes that is.
fn write_name(name: &str, room: &mut [u8]) -> usize
    ensures few { result ≡ min (length name.now) (length room.new) }
    ensures written { take result room.new ≡ take result name.now }
{
    let bytes = name.as_bytes();
    let count = bytes.len().min(room.len());
    room[..count].copy_from_slice(&bytes[..count]);
    count
}

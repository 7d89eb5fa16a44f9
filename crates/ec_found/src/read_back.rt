//! The text of a table, read back before it is given out.
ghost use Rattle.std.specs.Prelude.{◌≡◌, ◌↔◌, ◌<◌, length, IfOk, IfNone, IsTrue};
ghost use Rattle.std.specs.String.{string_bytes};
ghost use Rattle.ec_found.specs.Stating.{HasFound, IsRowOf, StatesFound};

use crate::error::FoundError;
use crate::found::Found;
use crate::same::are_same;
use crate::text::table_text;
use ec_link::Machine;
use ec_scan::Shown;
use ec_table::{SlaveRow, Table};
use std::alloc::{AllocError, Global};

/// The text of a table with the slaves that were found; `shown` is what each of them shows. It is read back, and has a plan: it
/// states these slaves, in this order, and no others.
///
/// # Errors
///
/// `Refused` if the slaves have no plan together, such as over 2048 bits of one; `Otherwise` if the text reads as another slave.
#[tactic(auto, using(crate::proofs::Stated::stated_found))]
pub fn printed(alloc: Global, shown: &[Shown], found: &[Found]) -> Result<String, FoundError>
    ensures { IfOk result (λ text. StatesFound (string_bytes text) found.now) }
{
    let text = table_text(alloc, shown, found)?;
    let machine = Machine::read(alloc, text.as_str())?;
    match first_other(alloc, machine.table(), found)? {
        None => Ok(text),
        Some(place) => Err(FoundError::Otherwise(place)),
    }
}

/// The place of the first slave that a table has otherwise than it was found, or that it or the scan doesn't have; none if it has them all and
/// no others. It is 0 if the table isn't for hardware.
#[tactic(auto, using(crate::proofs::Stated::no_rows, crate::proofs::Stated::rows_more, crate::proofs::Stated::all_rows))]
fn first_other(alloc: Global, table: &Table, found: &[Found]) -> Result<Option<usize>, AllocError>
    ensures { IfOk result (λ other. IfNone other (HasFound found.now table.now)) }
{
    if !table.is_hardware() {
        return Ok(Some(0));
    }
    let count = table.slaves().len();
    for (place, one) in found.iter().enumerate() {
        if place >= count || !as_found(alloc, table, place, one)? {
            return Ok(Some(place));
        }
    }
    if count > found.len() {
        return Ok(Some(found.len()));
    }
    Ok(None)
}

/// Whether a table has a slave as it was found. The error says that memory ran out.
#[tactic(auto, using(crate::proofs::Stated::a_row, crate::proofs::Stated::of_row))]
pub fn as_found(
    alloc: Global,
    table: &Table,
    place: usize,
    found: &Found,
) -> Result<bool, AllocError>
    requires { place < length table.now.slaves }
    ensures { IfOk result (λ same. IsTrue same ↔ IsRowOf table.now place found.now) }
{
    let kind = table.kind_of(alloc, place)?;
    Ok(are_same(&kind, &found.kind) && has_rest(&table.slaves()[place], found))
}

/// Whether a row has the serial number and the assignments of a slave as it was found.
fn has_rest(row: &SlaveRow, found: &Found) -> bool
    ensures { IsTrue result ↔ ((row.now.serial ≡ found.now.serial) × (row.now.outputs ≡ found.now.outputs) × (row.now.inputs ≡ found.now.inputs)) }
{
    row.serial == found.serial
        && row.outputs.as_slice() == found.outputs.as_slice()
        && row.inputs.as_slice() == found.inputs.as_slice()
}

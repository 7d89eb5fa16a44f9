//! What differs between the slaves that were found and those of a table.
ghost use Rattle.std.specs.Prelude.{◌≡◌, ◌<◌, length, IfOk};
ghost use Rattle.ec_device.specs.Hardware.{takes_any_revision};
ghost use Rattle.std.specs.List.{list_any};
ghost use Rattle.ec_device.specs.Objects.{pdo_at};
ghost use Rattle.ec_found.specs.Differing.{agrees, assigns, differ, differs, is_none, is_same, same_pdo, same_pdos, started, stays};

use crate::found::{Found, Unsaid};
use crate::same::have_same_entries;
use ec_coe::find_pdo;
use ec_device::{Device, FIRST_INPUT_INDEX, Pdo, SlaveType};
use ec_table::{Direction, SlaveRow, Table};
use std::alloc::{AllocError, Global};
use std::fmt::Write as _;

/// What differs of a slave.
#[derive(Clone, Copy, Debug, PartialEq, Eq)]
pub struct Differences {
    /// Vendor or product.
    pub device: bool,
    /// The revision, if the table has one.
    pub revision: bool,
    /// The serial number, if the table has one.
    pub serial: bool,
    /// The output PDOs that it exchanges once it was started up by the table, or their mapping.
    pub outputs: bool,
    /// The input PDOs.
    pub inputs: bool,
    /// Whether a table can't say all of the slave that was found, and a start-up doesn't change that.
    pub unsaid: bool,
}

impl Differences {
    /// Whether nothing differs.
    pub fn is_none(&self) -> bool
        ensures { result ≡ is_none self.now }
    {
        !(self.device || self.revision || self.serial || self.outputs || self.inputs || self.unsaid)
    }
}

/// What differs between a slave of a table, which has a type and a row, and the one that was found in its place.
pub fn differs(kind: &SlaveType, row: &SlaveRow, found: &Found) -> Differences
    ensures { result ≡ differs kind.now row.now found.now }
{
    let (wanted, seen) = (kind.device(), found.kind.device());
    let (outputs, inputs) = (row.outputs.as_slice(), row.inputs.as_slice());
    let outputs_then = started(kind, kind.outputs(), outputs, found.outputs.as_slice());
    let inputs_then = started(kind, kind.inputs(), inputs, found.inputs.as_slice());
    let both_outputs = (kind.outputs(), found.kind.outputs());
    let both_inputs = (kind.inputs(), found.kind.inputs());
    Differences {
        device: wanted.vendor != seen.vendor || wanted.product != seen.product,
        revision: !takes_any_revision(kind) && wanted.revision != seen.revision,
        serial: row.serial != 0 && row.serial != found.serial,
        outputs: differ(both_outputs, (outputs, outputs_then)),
        inputs: differ(both_inputs, (inputs, inputs_then)),
        unsaid: some_stays(kind, found.unsaid.as_slice()),
    }
}

/// What a slave exchanges in a direction once it was started up by a row: what the row assigns, if the type has PDOs that can be
/// assigned, else what it exchanges now.
fn started<'a>(kind: &SlaveType, pdos: &[Pdo], assigned: &'a [u16], found: &'a [u16]) -> &'a [u16]
    ensures { result.now ≡ started kind.now pdos.now assigned.now found.now }
{
    if assigns(kind, pdos) { assigned } else { found }
}

/// Whether a start-up assigns the PDOs of a direction, of which a type has these.
fn assigns(kind: &SlaveType, pdos: &[Pdo]) -> bool
    ensures { result ≡ assigns kind.now pdos.now }
{
    kind.is_assignable() && !pdos.is_empty()
}

/// Whether something that a table can't say of a slave still is so once it was started up as a slave of a type.
fn some_stays(kind: &SlaveType, things: &[Unsaid]) -> bool
    ensures { result ≡ list_any (stays kind.now) things.now }
{
    for unsaid in things {
        if stays(kind, *unsaid) {
            return true;
        }
    }
    false
}

/// Whether a thing still is so then: a PDO that is left out isn't exchanged, if the start-up assigns others.
fn stays(kind: &SlaveType, unsaid: Unsaid) -> bool
    ensures { result ≡ stays kind.now unsaid }
{
    match unsaid {
        Unsaid::Pdos(Direction::Out) => !assigns(kind, kind.outputs()),
        Unsaid::Pdos(Direction::In) => !assigns(kind, kind.inputs()),
        Unsaid::Repeats(index) => {
            if index < FIRST_INPUT_INDEX {
                !assigns(kind, kind.outputs())
            } else {
                !assigns(kind, kind.inputs())
            }
        }
        Unsaid::Mailbox
        | Unsaid::Managers
        | Unsaid::Spread(_)
        | Unsaid::Silent(_)
        | Unsaid::Size(_) => true,
    }
}

fn takes_any_revision(kind: &SlaveType) -> bool
    ensures { result ≡ takes_any_revision kind.now.hardware }
{
    match kind.hardware() {
        Some(hardware) => hardware.any_revision,
        None => false,
    }
}

/// Whether two slaves exchange other PDOs in a direction, or one with other entries.
fn differ(pdos: (&[Pdo], &[Pdo]), assigned: (&[u16], &[u16])) -> bool
    ensures { result ≡ differ (pdos.entry.0.now, pdos.entry.1.now) (assigned.entry.0.now, assigned.entry.1.now) }
{
    assigned.0 != assigned.1 || !have_same_pdos(pdos.0, pdos.1, assigned.0)
}

/// Whether the PDOs with these indices have the same entries in two slaves, one by one.
fn have_same_pdos(wanted: &[Pdo], seen: &[Pdo], indices: &[u16]) -> bool
    ensures { result ≡ same_pdos (wanted.now, seen.now) indices.now }
{
    for index in indices {
        if !has_same_pdo(wanted, seen, *index) {
            return false;
        }
    }
    true
}

/// Whether two slaves have the PDO with an index, with the same entries.
fn has_same_pdo(wanted: &[Pdo], seen: &[Pdo], index: u16) -> bool
    ensures { result ≡ same_pdo (pdo_at wanted.now index) (pdo_at seen.now index) }
{
    match (find_pdo(wanted, index), find_pdo(seen, index)) {
        (Some(one), Some(other)) => {
            have_same_entries(one.entries.as_slice(), other.entries.as_slice())
        }
        _ => false,
    }
}

/// Whether a table has the slaves that were found and no others: nothing differs. The error says that memory ran out.
#[tactic(auto, using(crate::proofs::SameSlaves::same_next))]
pub fn agrees(alloc: Global, table: &Table, found: &[Found]) -> Result<bool, AllocError>
    ensures { IfOk result (λ same. same ≡ agrees table.now found.now) }
{
    if table.slaves().len() != found.len() {
        return Ok(false);
    }
    for (place, one) in found.iter().enumerate() {
        if !is_same(alloc, table, place, one)? {
            return Ok(false);
        }
    }
    Ok(true)
}

/// Whether nothing differs between the slave of a table at a place and one that was found.
#[tactic(auto, using(crate::proofs::SameSlaves::same_there))]
fn is_same(alloc: Global, table: &Table, place: usize, found: &Found) -> Result<bool, AllocError>
    requires { place < length table.now.slaves }
    ensures { IfOk result (λ same. same ≡ is_same table.now place found.now) }
{
    let kind = table.kind_of(alloc, place)?;
    Ok(differs(&kind, &table.slaves()[place], found).is_none())
}

/// What differs between the slaves that were found and a table, a line each; empty if nothing does. A line has the place of the slave,
/// its name in the table, and what is there and what the table has, or what no table can say. The error says that memory ran out.
pub fn differences_text(
    alloc: Global,
    table: &Table,
    found: &[Found],
) -> Result<String, AllocError> {
    let mut text = String::new(alloc);
    let rows = table.slaves();
    for (place, row) in rows.iter().enumerate() {
        match found.get(place) {
            Some(one) => {
                let kind = table.kind_of(alloc, place)?;
                let differences = differs(&kind, row, one);
                let pair = Pair {
                    place,
                    row,
                    kind: &kind,
                    found: one,
                };
                pair.write(&mut text, differences)?;
            }
            None => writeln!(text, "slave {place} {}: missing", row.name.as_str())?,
        }
    }
    for (place, one) in found.iter().enumerate().skip(rows.len()) {
        write!(text, "slave {place}: not in the table: ")?;
        write_device(&mut text, one.kind.device())?;
        text.push_str("\n")?;
    }
    Ok(text)
}

/// A slave of a table, and the one that was found in its place.
#[derive(Clone, Copy)]
struct Pair<'a> {
    place: usize,
    row: &'a SlaveRow,
    kind: &'a SlaveType,
    found: &'a Found,
}

impl Pair<'_> {
    /// Adds a line for each thing that differs.
    fn write(&self, text: &mut String, differences: Differences) -> Result<(), AllocError> {
        let (seen, wanted) = (self.found.kind.device(), self.kind.device());
        if differences.device {
            self.begin(text)?;
            text.push_str("device ")?;
            write_device(text, seen)?;
            text.push_str(", table ")?;
            write_device(text, wanted)?;
            text.push_str("\n")?;
        }
        if differences.revision {
            self.begin(text)?;
            let (seen, wanted) = (seen.revision, wanted.revision);
            writeln!(text, "revision 0x{seen:08X}, table 0x{wanted:08X}")?;
        }
        if differences.serial {
            self.begin(text)?;
            let (seen, wanted) = (self.found.serial, self.row.serial);
            writeln!(text, "serial {seen}, table {wanted}")?;
        }
        if differences.outputs {
            self.write_pdos(text, self.outputs())?;
        }
        if differences.inputs {
            self.write_pdos(text, self.inputs())?;
        }
        for unsaid in self.found.unsaid.as_slice() {
            if stays(self.kind, *unsaid) {
                self.begin(text)?;
                writeln!(text, "{unsaid}")?;
            }
        }
        Ok(())
    }

    /// Adds how each line of the slave begins.
    fn begin(&self, text: &mut String) -> Result<(), AllocError> {
        write!(text, "slave {} {}: ", self.place, self.row.name.as_str())
    }

    fn outputs(&self) -> Compared<'_> {
        let (wanted, assigned) = (self.kind.outputs(), self.row.outputs.as_slice());
        Compared {
            wanted,
            assigned,
            seen: self.found.kind.outputs(),
            exchanged: started(self.kind, wanted, assigned, self.found.outputs.as_slice()),
        }
    }

    fn inputs(&self) -> Compared<'_> {
        let (wanted, assigned) = (self.kind.inputs(), self.row.inputs.as_slice());
        Compared {
            wanted,
            assigned,
            seen: self.found.kind.inputs(),
            exchanged: started(self.kind, wanted, assigned, self.found.inputs.as_slice()),
        }
    }

    /// Adds a line for each PDO in which a direction differs, or one if its PDOs have another order.
    fn write_pdos(&self, text: &mut String, pdos: Compared<'_>) -> Result<(), AllocError> {
        let before = text.len();
        for index in pdos.assigned {
            if let Some(what) = pdos.difference_in(*index) {
                self.begin(text)?;
                writeln!(text, "PDO 0x{index:04X} {what}")?;
            }
        }
        self.write_others(text, pdos)?;
        if text.len() == before {
            self.begin(text)?;
            text.push_str("PDOs in another order\n")?;
        }
        Ok(())
    }

    /// Adds a line for each PDO that the table doesn't assign.
    fn write_others(&self, text: &mut String, pdos: Compared<'_>) -> Result<(), AllocError> {
        for index in pdos.exchanged {
            if !pdos.assigned.contains(index) {
                self.begin(text)?;
                writeln!(text, "PDO 0x{index:04X} not in the table")?;
            }
        }
        Ok(())
    }
}

/// The PDOs of a direction: all of the table's type and of the slave that was found, the indices of those that the table assigns, and of
/// those that the slave exchanges once it was started up.
#[derive(Clone, Copy)]
struct Compared<'a> {
    wanted: &'a [Pdo],
    seen: &'a [Pdo],
    assigned: &'a [u16],
    exchanged: &'a [u16],
}

impl Compared<'_> {
    /// In which way a PDO that the table assigns differs.
    fn difference_in(&self, index: u16) -> Option<&'static str> {
        if !self.exchanged.contains(&index) {
            return Some("missing");
        }
        match (find_pdo(self.wanted, index), find_pdo(self.seen, index)) {
            (_, None) => Some("missing"),
            (Some(wanted), Some(seen)) => {
                let is_same = have_same_entries(wanted.entries.as_slice(), seen.entries.as_slice());
                if is_same {
                    None
                } else {
                    Some("has other entries")
                }
            }
            (None, Some(_)) => None,
        }
    }
}

/// Adds vendor and product.
fn write_device(text: &mut String, device: Device) -> Result<(), AllocError> {
    write!(text, "0x{:X} 0x{:08X}", device.vendor, device.product)
}

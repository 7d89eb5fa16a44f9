//! The text of a link table with the slaves that were found. Whether it is read as they were found is tested before it is given out.
use crate::found::{Found, Unsaid};
use crate::names::{Names, Word, joined, string_word};
use crate::reading::{
    GENERAL, INPUT_PDOS, OUTPUT_PDOS, PdoWords, STRINGS, byte_in, entry_name, words_in,
};
use crate::same::are_same;
use ec_coe::{INPUT_ASSIGNMENT, OUTPUT_ASSIGNMENT, find_pdo};
use ec_device::{Entry, Pdo, ProcessManager, SlaveType};
use ec_scan::Shown;
use ec_table::Direction;
use std::alloc::{AllocError, Global};
use std::fmt;
use std::fmt::Write as _;

/// The most letters of a type's name, and of a word in a variable's.
const MOST: usize = 24;

/// The byte of the general category that has the number of the device's name.
const NAME: usize = 3;

/// What to do about what a table can't say.
const UNSAID_ADVICE: &str =
    "To do: try a start-up by this table, unless a line says that it fails. What is left out isn't moved; a slave that needs it and has firmware refuses it.\n";

/// A direction: its words in a table, and the category of its PDOs.
#[derive(Clone, Copy)]
struct Way {
    assigned: &'static str,
    pdos: &'static str,
    category: u16,
}

const OUT: Way = Way {
    assigned: "out",
    pdos: "rxpdo",
    category: OUTPUT_PDOS,
};

const IN: Way = Way {
    assigned: "in",
    pdos: "txpdo",
    category: INPUT_PDOS,
};

/// What a slave and its type are called.
#[derive(Clone, Copy)]
struct RowNames {
    /// The place of the first slave of its type.
    first: usize,
    type_name: Word,
    name: Word,
}

/// A slave of the table: what it shows, what it is, and its names.
#[derive(Clone, Copy)]
struct Row<'a> {
    shown: &'a Shown,
    found: &'a Found,
    names: &'a RowNames,
}

impl Row<'_> {
    /// The words of the strings that it has.
    fn strings(&self) -> &[u16] {
        words_in(self.shown.categories.as_slice(), STRINGS)
    }

    /// All PDOs of a direction.
    fn pdos(&self, way: Way) -> &[Pdo] {
        match way.category {
            OUTPUT_PDOS => self.found.kind.outputs(),
            _ => self.found.kind.inputs(),
        }
    }

    /// The indices of those that it exchanges.
    fn assigned(&self, way: Way) -> &[u16] {
        match way.category {
            OUTPUT_PDOS => self.found.outputs.as_slice(),
            _ => self.found.inputs.as_slice(),
        }
    }

    /// The words of a PDO in its SII, if that has it.
    fn words_of(&self, way: Way, index: u16) -> Option<PdoWords<'_>> {
        let words = words_in(self.shown.categories.as_slice(), way.category);
        let mut rest = words;
        for _ in 0..words.len() {
            let pdo = PdoWords::first(rest)?;
            if pdo.index == index {
                return Some(pdo);
            }
            rest = pdo.behind;
        }
        None
    }

    /// What a PDO is called; empty if it has no name.
    fn pdo_word(&self, way: Way, index: u16) -> Word {
        match self.words_of(way, index) {
            Some(pdo) => string_word(self.strings(), pdo.name, MOST),
            None => Word::new(),
        }
    }

    /// What an entry of a PDO is called; empty if it has no name.
    fn entry_word(&self, way: Way, index: u16, entry: &Entry) -> Word {
        match self.words_of(way, index) {
            Some(pdo) => {
                let number = entry_name(pdo.entries, entry.index, entry.subindex);
                string_word(self.strings(), number, MOST)
            }
            None => Word::new(),
        }
    }
}

/// The text of a table with these slaves; `shown` is what each of them shows. It may have no plan: [`crate::printed`] tests that. The error
/// says that memory ran out.
pub fn table_text(alloc: Global, shown: &[Shown], found: &[Found]) -> Result<String, AllocError> {
    let rows = names_of(alloc, shown, found)?;
    let mut text = String::new(alloc);
    text.push_str("version = 2\nhardware = true\n")?;
    for place in 0..rows.len() {
        if let Some(row) = row_at(shown, found, rows.as_slice(), place) {
            if row.names.first == place {
                write_type(&mut text, &row)?;
            }
        }
    }
    for place in 0..rows.len() {
        if let Some(row) = row_at(shown, found, rows.as_slice(), place) {
            write_slave(&mut text, &row)?;
        }
    }
    let mut names = Names::new(alloc);
    for place in 0..rows.len() {
        if let Some(row) = row_at(shown, found, rows.as_slice(), place) {
            write_variables(&mut text, &mut names, &row, OUT)?;
            write_variables(&mut text, &mut names, &row, IN)?;
        }
    }
    Ok(text)
}

/// What a table can't say of these slaves, for people: a line for each thing, with the place of the slave and its name in the table, and
/// what to do. Empty if there is none. The error says that memory ran out.
pub fn unsaid_text(alloc: Global, shown: &[Shown], found: &[Found]) -> Result<String, AllocError> {
    let rows = names_of(alloc, shown, found)?;
    let mut text = String::new(alloc);
    for (place, (one, row)) in found.iter().zip(rows.as_slice()).enumerate() {
        let name = row.name.as_str();
        for unsaid in one.unsaid.as_slice() {
            writeln!(text, "slave {place} `{name}`: {unsaid}")?;
        }
    }
    if !text.is_empty() {
        text.push_str(UNSAID_ADVICE)?;
    }
    Ok(text)
}

/// The slave at a place.
fn row_at<'a>(
    shown: &'a [Shown],
    found: &'a [Found],
    names: &'a [RowNames],
    place: usize,
) -> Option<Row<'a>> {
    Some(Row {
        shown: shown.get(place)?,
        found: found.get(place)?,
        names: names.get(place)?,
    })
}

/// The names of the slaves. Those of one type share its name, which is the first one's.
fn names_of(alloc: Global, shown: &[Shown], found: &[Found]) -> Result<Vec<RowNames>, AllocError> {
    let mut rows: Vec<RowNames> = Vec::new(alloc);
    let mut types = Names::new(alloc);
    let mut slaves = Names::new(alloc);
    for (place, (shown, one)) in shown.iter().zip(found).enumerate() {
        let (first, type_name) = match same_before(rows.as_slice(), found, one) {
            Some(row) => (row.first, row.type_name),
            None => (place, types.take(device_word(shown).as_str())?),
        };
        let name = slaves.take(lower(type_name.as_str()).as_str())?;
        rows.push(RowNames {
            first,
            type_name,
            name,
        })?;
    }
    Ok(rows)
}

/// The first row of the same type, if there is one.
fn same_before<'r>(rows: &'r [RowNames], found: &[Found], one: &Found) -> Option<&'r RowNames> {
    rows.iter().find(|row| match found.get(row.first) {
        Some(other) => are_same(&other.kind, &one.kind),
        None => false,
    })
}

/// What a device is called; `type` if it has no name.
fn device_word(shown: &Shown) -> Word {
    let words = shown.categories.as_slice();
    let number = byte_in(words_in(words, GENERAL), NAME);
    let word = string_word(words_in(words, STRINGS), number, MOST);
    if word.is_empty() {
        Word::from("type").unwrap()
    } else {
        word
    }
}

/// A name in small letters.
fn lower(name: &str) -> Word {
    let mut word = Word::new();
    for letter in name.as_bytes() {
        let _ = word.try_push(char::from(letter.to_ascii_lowercase()));
    }
    word
}

/// Adds a type, with the PDOs' names as comments.
fn write_type(text: &mut String, row: &Row<'_>) -> Result<(), AllocError> {
    let kind = &row.found.kind;
    let device = kind.device();
    writeln!(
        text,
        "\n[[type]]\nname = \"{}\"",
        row.names.type_name.as_str()
    )?;
    writeln!(text, "vendor = 0x{:X}", device.vendor)?;
    writeln!(text, "product = 0x{:08X}", device.product)?;
    writeln!(text, "revision = 0x{:08X}", device.revision)?;
    write_mailbox(text, kind)?;
    write_areas(text, kind)?;
    write_pdos(text, row, OUT)?;
    write_pdos(text, row, IN)
}

fn write_mailbox(text: &mut String, kind: &SlaveType) -> Result<(), AllocError> {
    match kind.mailbox() {
        None => Ok(()),
        Some(m) => writeln!(
            text,
            "mailbox = [0x{:04X}, {}, 0x{:04X}, {}]",
            m.receive_start, m.receive_size, m.send_start, m.send_size
        ),
    }
}

/// Adds where the process data lie, and what else a type for hardware says; what is usual is left out.
fn write_areas(text: &mut String, kind: &SlaveType) -> Result<(), AllocError> {
    writeln!(
        text,
        "out_start = 0x{:04X}",
        kind.other_name(kind.out_start())
    )?;
    writeln!(text, "in_start = 0x{:04X}", kind.in_start())?;
    if !kind.lrw() {
        writeln!(text, "lrw = false")?;
    }
    let Some(hardware) = kind.hardware() else {
        return Ok(());
    };
    let (outs, ins) = (hardware.out_manager, hardware.in_manager);
    if outs != ProcessManager::usual_outputs() {
        writeln!(
            text,
            "out_manager = [{}, 0x{:02X}]",
            outs.number, outs.control
        )?;
    }
    if ins != ProcessManager::usual_inputs() {
        writeln!(text, "in_manager = [{}, 0x{:02X}]", ins.number, ins.control)?;
    }
    if !hardware.has_firmware {
        writeln!(text, "firmware = false")?;
    }
    if hardware.is_fixed {
        writeln!(text, "fixed = true")?;
    }
    Ok(())
}

/// Adds the PDOs of a direction, if there are any.
fn write_pdos(text: &mut String, row: &Row<'_>, way: Way) -> Result<(), AllocError> {
    let pdos = row.pdos(way);
    if pdos.is_empty() {
        return Ok(());
    }
    writeln!(text, "{} = [", way.pdos)?;
    for pdo in pdos {
        write_pdo(text, row, way, pdo)?;
    }
    writeln!(text, "]")
}

fn write_pdo(text: &mut String, row: &Row<'_>, way: Way, pdo: &Pdo) -> Result<(), AllocError> {
    write!(text, "    {{ index = 0x{:04X}, entries = [", pdo.index)?;
    for (place, entry) in pdo.entries.as_slice().iter().enumerate() {
        let comma = if place == 0 { "" } else { ", " };
        let Entry {
            index,
            subindex,
            bits,
        } = *entry;
        if entry.is_gap() {
            write!(text, "{comma}[0, 0, {bits}]")?;
        } else {
            write!(text, "{comma}[0x{index:04X}, {subindex}, {bits}]")?;
        }
    }
    text.push_str("] },")?;
    let word = row.pdo_word(way, pdo.index);
    if !word.is_empty() {
        write!(text, "  # {}", word.as_str())?;
    }
    text.push_str("\n")
}

/// Adds a slave, and as comments what the table can't say of it.
fn write_slave(text: &mut String, row: &Row<'_>) -> Result<(), AllocError> {
    text.push_str("\n")?;
    for unsaid in row.found.unsaid.as_slice() {
        writeln!(text, "# {unsaid}")?;
    }
    writeln!(text, "[[slave]]\nname = \"{}\"", row.names.name.as_str())?;
    writeln!(text, "type = \"{}\"", row.names.type_name.as_str())?;
    write_assigned(text, row, OUT)?;
    write_assigned(text, row, IN)?;
    if row.found.serial != 0 {
        writeln!(text, "serial = {}", row.found.serial)?;
    }
    Ok(())
}

/// Adds which PDOs a slave exchanges, if they aren't all of its type in order.
fn write_assigned(text: &mut String, row: &Row<'_>, way: Way) -> Result<(), AllocError> {
    let assigned = row.assigned(way);
    if are_all(row.pdos(way), assigned) {
        return Ok(());
    }
    write!(text, "{} = [", way.assigned)?;
    for (place, index) in assigned.iter().enumerate() {
        let comma = if place == 0 { "" } else { ", " };
        write!(text, "{comma}0x{index:04X}")?;
    }
    text.push_str("]\n")
}

/// Whether indices are those of all PDOs in order.
fn are_all(pdos: &[Pdo], assigned: &[u16]) -> bool {
    pdos.len() == assigned.len()
        && pdos
            .iter()
            .zip(assigned)
            .all(|(pdo, index)| pdo.index == *index)
}

/// Adds a variable and a link for each entry that a slave exchanges in a direction.
fn write_variables(
    text: &mut String,
    names: &mut Names,
    row: &Row<'_>,
    way: Way,
) -> Result<(), AllocError> {
    for index in row.assigned(way) {
        if let Some(pdo) = find_pdo(row.pdos(way), *index) {
            for entry in pdo.entries.as_slice() {
                if !entry.is_gap() {
                    let name = names.take(variable_word(row, way, *index, entry).as_str())?;
                    write_variable(text, row, way, entry, name.as_str())?;
                }
            }
        }
    }
    Ok(())
}

/// What the variable of an entry is to be called: by its slave, and its own name or its object.
fn variable_word(row: &Row<'_>, way: Way, index: u16, entry: &Entry) -> Word {
    let word = row.entry_word(way, index, entry);
    if !word.is_empty() {
        return joined(row.names.name.as_str(), word.as_str());
    }
    let mut object = Word::new();
    let _ = write!(object, "{:04x}_{}", entry.index, entry.subindex);
    joined(row.names.name.as_str(), object.as_str())
}

fn write_variable(
    text: &mut String,
    row: &Row<'_>,
    way: Way,
    entry: &Entry,
    name: &str,
) -> Result<(), AllocError> {
    writeln!(
        text,
        "\n[[variable]]\nname = \"{name}\"\ndir = \"{}\"\nbits = {}",
        way.assigned, entry.bits
    )?;
    writeln!(
        text,
        "[[link]]\nvar = \"{name}\"\nslave = \"{}\"\nindex = 0x{:04X}\nsub = {}",
        row.names.name.as_str(),
        entry.index,
        entry.subindex
    )
}

/// In words.
impl fmt::Display for Unsaid {
    fn fmt<W: fmt::Write>(&self, f: &mut fmt::Formatter<W>) -> fmt::Result {
        match *self {
            Unsaid::Mailbox => f.write_str(
                "its mailboxes are left out: `mailbox` takes CoE, 16 to 1024 bytes, at 0x1000 or above",
            ),
            Unsaid::Managers => f.write_str(
                "its sync managers are left out: `out_manager` and `in_manager` are two of 0 to 3 in the usual modes; beside a mailbox 2 and 3",
            ),
            Unsaid::Spread(direction) => {
                let what = data_of(direction);
                write!(
                    f,
                    "{what} behind a second sync manager are left out: a table has one for each direction"
                )
            }
            Unsaid::Silent(direction) => {
                let (what, object) = (data_of(direction), object_of(direction));
                write!(
                    f,
                    "it takes CoE and has no object 0x{object:04X} for its {what}: a start-up by this table ends with `30 Abort`"
                )
            }
            Unsaid::Pdos(direction) => {
                let (what, takes) = (data_of(direction), taken_in(direction));
                write!(
                    f,
                    "{what} of it are left out: {takes} once each, with up to 64 entries of 1 to 64 bits, and gaps without a subindex; where the assignment can't be written, none behind one that is left out"
                )
            }
            Unsaid::Size(direction) => {
                let what = data_of(direction);
                write!(
                    f,
                    "its {what} may lie elsewhere: their sync manager has another length than their PDOs"
                )
            }
            Unsaid::Repeats(index) => write!(
                f,
                "its PDO 0x{index:04X} is left out, and those behind it where the assignment can't be written: an entry of it is exchanged already, and a table has each entry once in a direction"
            ),
        }
    }
}

/// What the data of a direction are called.
fn data_of(direction: Direction) -> &'static str {
    match direction {
        Direction::Out => "outputs",
        Direction::In => "inputs",
    }
}

/// The PDOs of a direction that a table takes.
fn taken_in(direction: Direction) -> &'static str {
    match direction {
        Direction::Out => "`rxpdo` takes up to 16 PDOs, 0x1600 to 0x17FF",
        Direction::In => "`txpdo` takes up to 16 PDOs, 0x1A00 to 0x1BFF",
    }
}

/// The assignment object of a direction.
fn object_of(direction: Direction) -> u16 {
    match direction {
        Direction::Out => OUTPUT_ASSIGNMENT,
        Direction::In => INPUT_ASSIGNMENT,
    }
}

//! A plan for people: where each bit of each object stands, and which variable it is linked with.
ghost use Rattle.std.specs.Prelude.{◌<◌, length};

use ec_device::{Entry, INPUTS_PLACE, OUTPUTS_PLACE, Parameter};
use ec_link::{ExpectedCounters, Link, PartPlan, Plan, SlavePlan};
use ec_table::{Direction, SlaveRow, Table};
use std::alloc::{AllocError, Global};
use std::fmt::Write as _;

const LEGEND: &str = "\
Each line is a run of bits that go the same way. Bits count from 0, the lowest first.
  assigns   the PDOs that the slave exchanges, in order
  object    index and subindex, both in hex; a gap has neither
  bits      of the object
  byte      byte and bit of the slave's own data, whose bytes `put` and `get` of `ecat sim` count
  logical   byte and bit of the logical addresses, over which the part's datagrams go
  variable  the variable that they are linked with, and its bits
";

/// Consecutive bits of an object that go the same way.
#[derive(Clone, Copy)]
struct ObjectRun {
    /// The first of them, counted in the slave's own data of the direction.
    from: usize,
    count: usize,
    link: Option<Link>,
}

/// One direction of a plan: its links, and for each bit of its image the place of its variable.
#[derive(Drop)]
struct ImageSide<'a> {
    direction: Direction,
    links: &'a [Link],
    owners: Vec<usize>,
}

impl<'a> ImageSide<'a> {
    fn new(
        alloc: Global,
        plan: &'a Plan,
        direction: Direction,
    ) -> Result<ImageSide<'a>, AllocError> {
        let mut owners = Vec::new(alloc);
        for (place, variable) in plan.variables().iter().enumerate() {
            if variable.direction == direction {
                for _ in 0..variable.bits {
                    owners.push(place)?;
                }
            }
        }
        let links = match direction {
            Direction::Out => plan.out_links(),
            Direction::In => plan.in_links(),
        };
        Ok(ImageSide {
            direction,
            links,
            owners,
        })
    }

    /// The links of a slave, in the order of their object bits.
    fn links_of(&self, alloc: Global, slave: usize) -> Result<Vec<Link>, AllocError> {
        let mut found = Vec::new(alloc);
        for link in self.links {
            if link.slave == slave {
                found.push(*link)?;
            }
        }
        found.sort_by_key(|link| link.object_bit)?;
        Ok(found)
    }
}

/// A plan and its table, with what is often looked up in them.
#[derive(Drop)]
struct Explained<'a> {
    alloc: Global,
    table: &'a Table,
    plan: &'a Plan,
    outputs: ImageSide<'a>,
    inputs: ImageSide<'a>,
}

impl<'a> Explained<'a> {
    fn new(alloc: Global, table: &'a Table, plan: &'a Plan) -> Result<Explained<'a>, AllocError> {
        Ok(Explained {
            alloc,
            table,
            plan,
            outputs: ImageSide::new(alloc, plan, Direction::Out)?,
            inputs: ImageSide::new(alloc, plan, Direction::In)?,
        })
    }

    fn image(&self, direction: Direction) -> &ImageSide<'a> {
        match direction {
            Direction::Out => &self.outputs,
            Direction::In => &self.inputs,
        }
    }

    /// The variable that a run is linked with, and its bits; `-` if it isn't linked.
    fn variable_text(&self, image: &ImageSide<'_>, run: ObjectRun) -> Result<String, AllocError> {
        let alloc = self.alloc;
        let Some(link) = run.link else {
            return format!(in alloc; "-");
        };
        let Some(owner) = image.owners.get(link.image) else {
            return format!(in alloc; "-");
        };
        let rows = (
            self.table.variables().get(*owner),
            self.plan.variables().get(*owner),
        );
        let (Some(row), Some(variable)) = rows else {
            return format!(in alloc; "-");
        };
        let first = link.image.saturating_sub(variable.from);
        let (name, bits) = (row.name.as_str(), bits_text(alloc, first, run.count)?);
        format!(in alloc; "{name} {bits}")
    }

    /// Adds the lines of an entry whose bits begin at the object bit `from`, of a slave whose area
    /// begins at the logical bit `area`.
    fn write_entry(
        &self,
        text: &mut String,
        direction: Direction,
        links: &[Link],
        area: usize,
        from: usize,
        entry: &Entry,
    ) -> Result<(), AllocError> {
        let alloc = self.alloc;
        let object = object_text(alloc, entry)?;
        for run in runs_of(alloc, from, entry, links)?.as_slice() {
            let bits = bits_text(alloc, run.from.saturating_sub(from), run.count)?;
            let byte = own_text(alloc, run.from)?;
            let logical = logical_range(alloc, area.saturating_add(run.from), run.count)?;
            let variable = self.variable_text(self.image(direction), *run)?;
            writeln!(
                text,
                "    {object:<11}  {bits:<6}  {byte:<5}  {logical:<28}  {variable}"
            )?;
        }
        Ok(())
    }

    /// Adds the bits of a slave in one direction.
    fn write_direction(
        &self,
        text: &mut String,
        direction: Direction,
        slave: usize,
        settings: &SlavePlan,
        entries: &[Entry],
    ) -> Result<(), AllocError> {
        let links = self.image(direction).links_of(self.alloc, slave)?;
        let kind = &settings.kind;
        let (name, number, manager, assigned) = match direction {
            Direction::Out => (
                "outputs",
                kind.out_manager().number,
                &settings.managers[OUTPUTS_PLACE],
                &settings.outputs,
            ),
            Direction::In => (
                "inputs",
                kind.in_manager().number,
                &settings.managers[INPUTS_PLACE],
                &settings.inputs,
            ),
        };
        let (bytes, start) = (manager.length, kind.other_name(manager.start));
        writeln!(
            text,
            "  {name}: sync manager {number}, address 0x{start:04x}, length {bytes}"
        )?;
        write_assigned(text, assigned.as_slice())?;
        let (object, bits, byte, logical) = ("object", "bits", "byte", "logical");
        writeln!(
            text,
            "    {object:<11}  {bits:<6}  {byte:<5}  {logical:<28}  variable"
        )?;
        let mut from: usize = 0;
        for entry in entries {
            self.write_entry(
                text,
                direction,
                links.as_slice(),
                settings.from,
                from,
                entry,
            )?;
            from = from.saturating_add(usize::from(entry.bits));
        }
        Ok(())
    }

    /// Adds a slave.
    fn write_slave(
        &self,
        text: &mut String,
        slave: usize,
        row: &SlaveRow,
        settings: &SlavePlan,
    ) -> Result<(), AllocError>
        requires { slave < length self.now.table.now.slaves }
    {
        let (name, unit) = (row.name.as_str(), row.unit);
        let kind = self.table.type_of(slave).name.as_str();
        let part = settings.share.part;
        writeln!(
            text,
            "\nslave {slave}  {name}  type {kind}  part {part}  unit {unit}"
        )?;
        let share = settings.share;
        if share.outs == 0 && share.ins == 0 {
            writeln!(text, "  no process data")?;
        }
        write_init(text, settings.kind.init())?;
        for (direction, bits) in [(Direction::Out, share.outs), (Direction::In, share.ins)] {
            if bits > 0 {
                let entries = self.table.entries_of(self.alloc, slave, direction)?;
                self.write_direction(text, direction, slave, settings, entries.as_slice())?;
            }
        }
        Ok(())
    }

    /// Adds the slaves that stand in a part.
    fn write_slaves(&self, text: &mut String, part: usize) -> Result<(), AllocError> {
        for (slave, row) in self.table.slaves().iter().enumerate() {
            match self.plan.slaves().get(slave) {
                Some(settings) if settings.share.part == part => {
                    self.write_slave(text, slave, row, settings)?;
                }
                _ => {}
            }
        }
        Ok(())
    }
}

/// The plan of a table for people, part by part, for each slave in it and each direction. It has the downloads to the
/// slave, what it assigns, and for the bits of each object their place in its own data and in the logical bits. It
/// names the variable that they are linked with. The plan must be
/// that of the table; no line has over 100 characters. `AllocError` if memory ran out.
pub fn explain_text(alloc: Global, table: &Table, plan: &Plan) -> Result<String, AllocError> {
    let explained = Explained::new(alloc, table, plan)?;
    let mut text = String::from_str(alloc, LEGEND)?;
    for (number, part) in plan.parts().iter().enumerate() {
        write_part(&mut text, number, part, plan.predicted(number))?;
        explained.write_slaves(&mut text, number)?;
    }
    Ok(text)
}

/// Adds the downloads to a slave, in order: those of its type, then its own.
fn write_init(text: &mut String, parameters: &[Parameter]) -> Result<(), AllocError> {
    for parameter in parameters {
        let (index, subindex) = (parameter.index, parameter.subindex);
        let (bits, value) = (parameter.size.bits(), parameter.value);
        writeln!(
            text,
            "  download: 0x{index:04x}:0x{subindex:02x}, {bits} bits, 0x{value:x}"
        )?;
    }
    Ok(())
}

/// Adds the heading of a part.
fn write_part(
    text: &mut String,
    number: usize,
    part: &PartPlan,
    predicted: ExpectedCounters,
) -> Result<(), AllocError> {
    let (bytes, address, unit) = (part.bytes, part.address, part.unit);
    writeln!(
        text,
        "\npart {number}: address 0x{address:08x}, length {bytes}, unit {unit}"
    )?;
    match predicted {
        _ if bytes == 0 => writeln!(text, "  no datagram of process data"),
        ExpectedCounters::Lrw(count) => writeln!(
            text,
            "  an LRW that comes back with counter {count}"
        ),
        ExpectedCounters::Split { write, read } => writeln!(
            text,
            "  an LWR that comes back with counter {write}, and an LRD with {read}"
        ),
    }
}

/// The runs of an entry whose bits begin at `from`, by the links of its slave in the order of their object bits.
fn runs_of(
    alloc: Global,
    from: usize,
    entry: &Entry,
    links: &[Link],
) -> Result<Vec<ObjectRun>, AllocError> {
    let end = from.saturating_add(usize::from(entry.bits));
    let mut runs = Vec::new(alloc);
    let mut at = from;
    for link in links {
        let first = link.object_bit;
        if from <= first && first < end {
            if at < first {
                runs.push(ObjectRun {
                    from: at,
                    count: first - at,
                    link: None,
                })?;
            }
            runs.push(ObjectRun {
                from: first,
                count: link.count,
                link: Some(*link),
            })?;
            at = at.max(first.saturating_add(link.count));
        }
    }
    if at < end {
        runs.push(ObjectRun {
            from: at,
            count: end - at,
            link: None,
        })?;
    }
    Ok(runs)
}

/// Adds the lines of the objects that a slave assigns in one direction, eight in a line.
fn write_assigned(text: &mut String, indices: &[u16]) -> Result<(), AllocError> {
    for line in indices.chunks(8) {
        text.push_str("    assigns")?;
        write_indices(text, line)?;
        text.push_str("\n")?;
    }
    Ok(())
}

/// Adds indices of objects, with a blank before each.
fn write_indices(text: &mut String, indices: &[u16]) -> Result<(), AllocError> {
    for index in indices {
        let index = *index;
        write!(text, " 0x{index:04x}")?;
    }
    Ok(())
}

/// The index and subindex of an entry, or `gap`.
fn object_text(alloc: Global, entry: &Entry) -> Result<String, AllocError> {
    let (index, subindex) = (entry.index, entry.subindex);
    if index == 0 {
        format!(in alloc; "gap")
    } else {
        format!(in alloc; "0x{index:04x}:0x{subindex:02x}")
    }
}

/// The first and the last logical byte and bit of a run.
fn logical_range(alloc: Global, from: usize, count: usize) -> Result<String, AllocError> {
    let first = logical_text(alloc, from)?;
    if count <= 1 {
        return Ok(first);
    }
    let last = logical_text(alloc, from.saturating_add(count - 1))?;
    format!(in alloc; "{first} to {last}")
}

/// The byte and bit, in a slave's own data, of one of its bits.
fn own_text(alloc: Global, bit: usize) -> Result<String, AllocError> {
    let (byte, bit) = (bit / 8, bit % 8);
    format!(in alloc; "{byte}.{bit}")
}

/// The logical byte and bit of a logical bit.
fn logical_text(alloc: Global, bit: usize) -> Result<String, AllocError> {
    let (byte, bit) = (bit / 8, bit % 8);
    format!(in alloc; "0x{byte:08x}.{bit}")
}

/// The `count` bits that begin at `from`, as `4` or as `4..7`.
fn bits_text(alloc: Global, from: usize, count: usize) -> Result<String, AllocError> {
    let last = from.saturating_add(count.saturating_sub(1));
    if from == last {
        format!(in alloc; "{from}")
    } else {
        format!(in alloc; "{from}..{last}")
    }
}

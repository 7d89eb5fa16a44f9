//! Tables, and what the crates above read of them.
ghost use Rattle.std.specs.Prelude.{◌≡◌, ◌==◌, ◌++◌, ◌<◌, ◌≤◌, length, find, All, Some, option_map, false, IfOk, OnOk};
ghost use Rattle.std.specs.Option.{option_copied};
ghost use Rattle.ec_device.specs.declared.slave_type.Pdo.{Pdo};
ghost use Rattle.ec_device.specs.Parameters.{AreParameters};
ghost use Rattle.ec_device.specs.Types.{IsEntry, IsFace};
ghost use Rattle.ec_device.specs.Objects.{bits_of, entries_at, assigned_entries};
ghost use Rattle.ec_table.specs.Contents.{advertised_as, advertised_full};
ghost use Rattle.ec_table.specs.Sound.{IsSound, IsType, AreTypes, AreSlaves, IsVariable, AreVariables, IsLink};
ghost use Rattle.ec_table.specs.Numbers.{number_at};
ghost use Rattle.ec_table.specs.Objects.{type_of, variable_of, slave_of, identity_of, face_of, kind_of, own_init, entries_of};

use crate::numbers::number_in;
use crate::rows::{Direction, Format, LinkRow, SlaveRow, TypeRow, VariableRow, Version};
use ec_device::{Entry, Face, Identity, Parameter, Pdo, SlaveType, copied_pdos};
use ec_listed::Listed;
use std::alloc::{AllocError, Global};
use std::marker::Model;

/// What a text states: a format, and the rows of each section in file order. A table is also advertised in full or not, which no
/// text states. If it is, its slaves have a face: they look to common masters as those expect.
///
/// Each table is sound. Names stand once in their section, and each reference to a row finds one. Assigned objects are
/// the type's, each once. All values are in their ranges.
#[derive(Debug, Drop)]
pub struct Table {
    format: Format,
    types: Listed<TypeRow>,
    slaves: Listed<SlaveRow>,
    variables: Listed<VariableRow>,
    links: Listed<LinkRow>,
    is_full: bool,
}

impl Model for Table {
    ghost use Rattle.ec_table.specs.Contents.{Contents};
    ghost use Rattle.ec_table.specs.Sound.{IsSound};

    ghost Value = { Contents };

    ghost view = { λ t. record {
      version = t.format.version;
      hardware = t.format.hardware;
      types = t.types;
      slaves = t.slaves;
      variables = t.variables;
      links = t.links;
      full = t.is_full;
    } };

    ghost invariant = { λ t. IsSound (record {
      version = t.format.version;
      hardware = t.format.hardware;
      types = t.types;
      slaves = t.slaves;
      variables = t.variables;
      links = t.links;
      full = t.is_full;
    }) };
}

impl Table {
    /// A table of rows that were read, which isn't advertised in full.
    pub(crate) fn new(
        format: Format,
        types: Listed<TypeRow>,
        slaves: Listed<SlaveRow>,
        variables: Listed<VariableRow>,
        links: Listed<LinkRow>,
    ) -> Table
        requires { IsSound (record {
          version = format.version;
          hardware = format.hardware;
          types = types;
          slaves = slaves;
          variables = variables;
          links = links;
          full = false;
        }) }
        ensures { result ≡ record {
          version = format.version;
          hardware = format.hardware;
          types = types;
          slaves = slaves;
          variables = variables;
          links = links;
          full = false;
        } }
    {
        Table {
            format,
            types,
            slaves,
            variables,
            links,
            is_full: false,
        }
    }

    /// Shows the table in full. Each slave then has a face with the name of its type, and the last one says that it is the
    /// last of its ring. No row changes.
    #[tactic(auto, using(crate::proofs::AdvertisedFull::sound_shown))]
    pub fn advertise_full(&mut self)
        ensures { self.new ≡ advertised_full self.old }
    {
        self.is_full = true;
    }

    /// Shows the table in full if `full`; otherwise it stays as it is.
    pub fn advertise_as(&mut self, full: bool)
        ensures { self.new ≡ advertised_as full self.old }
    {
        if full {
            self.advertise_full();
        }
    }

    /// The version of the format.
    pub fn version(&self) -> Version
        ensures value { result ≡ self.now.version }
        ensures sound { IsSound self.now }
    {
        self.format.version
    }

    /// Whether the slaves are real devices, or simulated ones that behave like them.
    pub fn is_hardware(&self) -> bool
        ensures { result ≡ self.now.hardware }
    {
        self.format.hardware
    }

    /// Does nothing. Its contract says that every table is sound.
    pub fn is_sound(&self)
        ensures { IsSound self.now }
    {
        let _ = &self.types;
    }

    /// The types.
    pub fn types(&self) -> &[TypeRow]
        ensures value { result.now ≡ self.now.types }
        ensures sound { AreTypes self.now.types }
    {
        self.types.as_slice()
    }

    /// The slaves.
    pub fn slaves(&self) -> &[SlaveRow]
        ensures value { result.now ≡ self.now.slaves }
        ensures sound { AreSlaves self.now.version self.now.types self.now.slaves }
    {
        self.slaves.as_slice()
    }

    /// The variables.
    pub fn variables(&self) -> &[VariableRow]
        ensures value { result.now ≡ self.now.variables }
        ensures sound { AreVariables self.now.variables }
    {
        self.variables.as_slice()
    }

    /// The links.
    pub fn links(&self) -> &[LinkRow]
        ensures value { result.now ≡ self.now.links }
        ensures sound { All (IsLink self.now.slaves self.now.variables) self.now.links }
    {
        self.links.as_slice()
    }

    /// The type of the slave at a place.
    pub fn type_of(&self, slave: usize) -> &TypeRow
        requires { slave < length self.now.slaves }
        ensures value { type_of self.now slave ≡ Some result.now }
        ensures sound { IsType result.now }
    {
        let row = &self.slaves.as_slice()[slave];
        &self.types.as_slice()[row.type_index]
    }

    /// The variable of the link at a place.
    pub fn variable_of(&self, link: usize) -> &VariableRow
        requires { link < length self.now.links }
        ensures value { variable_of self.now link ≡ Some result.now }
        ensures sound { IsVariable result.now }
    {
        let row = &self.links.as_slice()[link];
        &self.variables.as_slice()[row.variable]
    }

    /// The number that a value of the variable at a place is for people: of a signed variable, two's complement of its bits. Where
    /// no variable is, it is the value.
    pub fn number(&self, variable: usize, value: u64) -> i128
        ensures { result ≡ number_at self.now variable value }
    {
        match self.variables.as_slice().get(variable) {
            Some(row) => number_in(row.signed, row.bits, value),
            None => i128::from(value),
        }
    }

    /// The slave of the link at a place.
    pub fn slave_of(&self, link: usize) -> &SlaveRow
        requires { link < length self.now.links }
        ensures { slave_of self.now link ≡ Some result.now }
    {
        let row = &self.links.as_slice()[link];
        &self.slaves.as_slice()[row.slave]
    }

    /// The identity of the slave at a place: its type's device, and its own serial number.
    pub fn identity_of(&self, slave: usize) -> Identity
        requires { slave < length self.now.slaves }
        ensures { identity_of self.now slave ≡ Some result }
    {
        let row = &self.slaves.as_slice()[slave];
        let device = self.types.as_slice()[row.type_index].device;
        device.identity(row.serial)
    }

    /// The type of the slave at a place, as a slave has it: with the downloads of its type and then its own, and with a face if the
    /// table is advertised in full. The error says that memory was refused.
    pub fn kind_of(&self, alloc: Global, slave: usize) -> Result<SlaveType, AllocError>
        requires { slave < length self.now.slaves }
        ensures { IfOk result (λ k. kind_of self.now slave ≡ Some k) }
    {
        let row = self.type_of(slave);
        let outputs = copied_pdos(alloc, row.process.outputs.as_slice())?;
        let inputs = copied_pdos(alloc, row.process.inputs.as_slice())?;
        let init = self.init_of(alloc, slave, row)?;
        let mut kind = SlaveType::new(
            alloc,
            row.device,
            row.mailbox,
            row.out_start_inside(),
            row.process.in_start,
            outputs,
            inputs,
            row.lrw,
        );
        kind.prepare(init);
        if let Some(hardware) = row.hardware {
            kind.describe(hardware);
        } else if self.is_full {
            kind.show(self.face(alloc, slave)?);
        }
        Ok(kind)
    }

    /// The downloads to the slave at a place: those of its type, which is `row`, and then its own.
    fn init_of(
        &self,
        alloc: Global,
        slave: usize,
        row: &TypeRow,
    ) -> Result<Listed<Parameter>, AllocError>
        requires place { slave < length self.now.slaves }
        requires row { type_of self.now slave ≡ Some row.now }
        requires sound { IsType row.now }
        ensures value { IfOk result (λ qs. qs ≡ row.now.init ++ own_init self.now slave) }
        ensures limits { IfOk result (AreParameters row.now.mailbox) }
    {
        let own = &self.slaves()[slave];
        joined(alloc, row.init.as_slice(), own.init.as_slice())
    }

    /// The entries of the objects that the slave at a place assigns in one direction, one after another;
    /// at most 1024, of at most 65536 bits.
    pub fn entries_of(
        &self,
        alloc: Global,
        slave: usize,
        direction: Direction,
    ) -> Result<Listed<Entry>, AllocError>
        requires { slave < length self.now.slaves }
        ensures value { IfOk result (λ es. es ≡ entries_of self.now slave direction) }
        ensures each { All IsEntry (entries_of self.now slave direction) }
        ensures few { length (entries_of self.now slave direction) ≤ 1024 }
        ensures bits { bits_of (entries_of self.now slave direction) ≤ 65536 }
    {
        let slave_type = self.type_of(slave);
        let row = &self.slaves()[slave];
        assigned_entries(alloc, slave_type.pdos(direction), row.assigned(direction))
    }

    /// The face of the slave at a place, if the table is advertised in full. The error says that memory was refused.
    fn face(&self, alloc: Global, slave: usize) -> Result<Face, AllocError>
        requires { slave < length self.now.slaves }
        ensures value { IfOk result (λ f. option_map (face_of self.now slave) (type_of self.now slave) ≡ Some f) }
        ensures limits { IfOk result IsFace }
    {
        let row = self.type_of(slave);
        let name = Listed::copied(alloc, row.name.as_str().as_bytes())?;
        let slaves = self.slaves.len();
        Ok(Face {
            name,
            is_last: slave + 1 == slaves,
        })
    }
}

/// Downloads, and others behind them.
fn joined(
    alloc: Global,
    first: &[Parameter],
    second: &[Parameter],
) -> Result<Listed<Parameter>, AllocError>
    ensures { IfOk result (λ qs. qs ≡ first.now ++ second.now) }
{
    let mut all = Listed::copied(alloc, first)?;
    for parameter in second {
        all.push(*parameter)?;
    }
    Ok(all)
}

/// The entries of the PDOs with these indices, one after another.
fn assigned_entries(
    alloc: Global,
    pdos: &[Pdo],
    indices: &[u16],
) -> Result<Listed<Entry>, AllocError>
    ensures { IfOk result (λ es. es ≡ assigned_entries pdos.now indices.now) }
{
    let mut found = Listed::new(alloc);
    for index in indices {
        push_all(&mut found, entries_at(pdos, *index))?;
    }
    Ok(found)
}

fn push_all(found: &mut Listed<Entry>, entries: &[Entry]) -> Result<(), AllocError>
    ensures { OnOk result (found.new ≡ found.old ++ entries.now) }
{
    for entry in entries {
        found.push(*entry)?;
    }
    Ok(())
}

/// The entries of the PDO with an index, none if there is no such PDO.
fn entries_at(pdos: &[Pdo], index: u16) -> &[Entry]
    ensures { result.now ≡ entries_at pdos.now index }
{
    match pdo_at(pdos, index) {
        Some(pdo) => pdo.entries.as_slice(),
        None => &[],
    }
}

/// The PDO with an index.
fn pdo_at(pdos: &[Pdo], index: u16) -> Option<&Pdo>
    ensures { option_copied result ≡ find (λ (q : Pdo). q.index == index) pdos.now }
{
    pdos.iter().find(|pdo| pdo.index == index)
}

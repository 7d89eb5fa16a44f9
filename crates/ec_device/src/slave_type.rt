//! Types of slaves: device, mailbox, PDOs and entries.
ghost use Rattle.std.specs.Prelude.{◌≡◌, ◌<◌, ◌≤◌, ◌↔◌, [], length, All, AllPairs, ◌≢◌, IsTrue, IfSome, IfOk, Some, None};
ghost use Rattle.std.specs.Option.{option_copied};
ghost use Rattle.ec_device.specs.Hardware.{IsHardware, manager_number, manager_place, other_name, has_firmware, is_fixed, is_assignable, slow, has_emergency, fmmu_count, takes_any_revision, out_manager, in_manager};
ghost use Rattle.ec_device.specs.Parameters.{AreParameters};
ghost use Rattle.ec_device.specs.Types.{IsEntry, IsPdo, ArePdos, IsMailbox, IsFace, IsWithinLimits, device_identity, device_of, pdo_bits, pdos_bits, plain_kind, first_output_index, first_input_index};

use crate::hardware::{Hardware, MAX_FMMUS, ProcessManager};
use crate::parameter::Parameter;
use ec_listed::Listed;
use std::alloc::{AllocError, Global};
use std::marker::Model;

/// Where the indices of the output PDOs begin: those that the slave receives.
pub const FIRST_OUTPUT_INDEX: u16 = 0x1600;
/// Where the indices of the input PDOs begin: those that the slave sends.
pub const FIRST_INPUT_INDEX: u16 = 0x1A00;
/// How many indices each direction has for its PDOs.
pub const PDO_INDICES: u16 = 512;
/// How many PDOs a type may have in one direction.
pub const MAX_PDOS: usize = 16;
/// How many entries a PDO may have.
pub const MAX_ENTRIES: usize = 64;
/// How many bits an entry may have.
pub const MAX_ENTRY_BITS: u8 = 64;
/// How many bits the PDOs may have together that a slave assigns in one direction.
pub const MAX_BITS: usize = 2048;
/// The fewest bytes of a mailbox: one message with an expedited SDO.
pub const MIN_MAILBOX_SIZE: u16 = 16;
/// The most bytes of a mailbox.
pub const MAX_MAILBOX_SIZE: u16 = 1024;
/// The most letters of a face's name.
pub const MAX_NAME: usize = 32;

/// What distinguishes the devices of one type from all others: the first three numbers of object
/// 0x1018 (ETG.1000.6, "Identity object").
#[derive(Clone, Copy, Debug, PartialEq, Eq)]
pub struct Device {
    /// The vendor's number, subindex 1.
    pub vendor: u32,
    /// The product code, subindex 2.
    pub product: u32,
    /// The revision number, subindex 3.
    pub revision: u32,
}

/// What distinguishes one slave from every other: its device and its serial number, as its SII and its
/// object 0x1018 show them (ETG.1000.6, "Identity object").
#[derive(Clone, Copy, Debug, PartialEq, Eq)]
pub struct Identity {
    /// The vendor's number, subindex 1.
    pub vendor: u32,
    /// The product code, subindex 2.
    pub product: u32,
    /// The revision number, subindex 3.
    pub revision: u32,
    /// The serial number, subindex 4.
    pub serial: u32,
}

/// Where a slave's mailboxes lie in its memory, in bytes.
#[derive(Clone, Copy, Debug, PartialEq, Eq)]
pub struct Mailbox {
    /// The first byte of the mailbox that the master writes.
    pub receive_start: u16,
    /// How many bytes it has.
    pub receive_size: u16,
    /// The first byte of the mailbox that the master reads.
    pub send_start: u16,
    /// How many bytes it has.
    pub send_size: u16,
}

/// An entry of a process data object; index 0 is a gap.
#[derive(Clone, Copy, Debug, PartialEq, Eq)]
pub struct Entry {
    /// The index of its object; 0 for a gap.
    pub index: u16,
    /// The subindex in that object.
    pub subindex: u8,
    /// How many bits it has.
    pub bits: u8,
}

/// A process data object: its index, and its entries in order.
#[derive(Debug, Drop)]
pub struct Pdo {
    /// Its index, 0x1600 to 0x17FF for outputs and 0x1A00 to 0x1BFF for inputs.
    pub index: u16,
    /// Its entries; the bits of each follow those of the one before.
    pub entries: Listed<Entry>,
}

/// What a full slave shows besides, to masters that look around before they know what stands on
/// the ring: its name in the SII and as object 0x1008 (ETG.1000.6, "Object dictionary"), and by its
/// data link registers (ETG.1000.4, "DL status") whether a slave follows it.
#[derive(Debug, Drop)]
pub struct Face {
    /// The name of its type, 1 to 32 bytes: of a type that a table has letters, digits and `_` of ASCII.
    pub name: Listed<u8>,
    /// Whether it is the last slave of its ring.
    pub is_last: bool,
}

/// What a slave of one type is: its device, where its mailboxes and its process data lie, and its
/// process data objects, all within the limits of this profile. A type with a face is that of one
/// full slave, since where the slave stands is part of the face.
#[derive(Debug, Drop)]
pub struct SlaveType {
    device: Device,
    mailbox: Option<Mailbox>,
    out_start: u16,
    in_start: u16,
    outputs: Listed<Pdo>,
    inputs: Listed<Pdo>,
    lrw: bool,
    face: Option<Face>,
    hardware: Option<Hardware>,
    init: Listed<Parameter>,
}

impl Model for SlaveType {
    ghost use Rattle.std.specs.Option.{ForSome};
    ghost use Rattle.ec_device.specs.Hardware.{IsHardware};
    ghost use Rattle.ec_device.specs.Parameters.{AreParameters};
    ghost use Rattle.ec_device.specs.Types.{SlaveKind, IsFace, IsWithinLimits};

    ghost Value = { SlaveKind };

    ghost view = { λ t. record {
      device = t.device;
      mailbox = t.mailbox;
      out_start = t.out_start;
      in_start = t.in_start;
      outputs = t.outputs;
      inputs = t.inputs;
      lrw = t.lrw;
      face = t.face;
      hardware = t.hardware;
      init = t.init;
    } };

    ghost invariant = { λ t. IsWithinLimits t.mailbox t.outputs t.inputs × ForSome t.face IsFace × ForSome t.hardware (IsHardware t.mailbox) × AreParameters t.mailbox t.init };
}

impl Device {
    /// What its slave with this serial number shows.
    pub fn identity(self, serial: u32) -> Identity
        ensures { result ≡ device_identity self serial }
    {
        Identity {
            vendor: self.vendor,
            product: self.product,
            revision: self.revision,
            serial,
        }
    }
}

impl Identity {
    /// The device, without the serial number.
    pub fn device(self) -> Device
        ensures { result ≡ device_of self }
    {
        Device {
            vendor: self.vendor,
            product: self.product,
            revision: self.revision,
        }
    }
}

impl Mailbox {
    /// Whether both directions have 16 to 1024 bytes.
    pub fn is_within_limits(&self) -> bool
        ensures { IsTrue result ↔ IsMailbox self.now }
    {
        let sizes = MIN_MAILBOX_SIZE..=MAX_MAILBOX_SIZE;
        sizes.contains(&self.receive_size) && sizes.contains(&self.send_size)
    }
}

impl Entry {
    /// Whether it is a gap: bits that stand for no object.
    pub fn is_gap(&self) -> bool
        ensures { IsTrue result ↔ (self.now.index ≡ 0) }
    {
        self.index == 0
    }

    /// Whether it has 1 to 64 bits and, if it is a gap, subindex 0.
    pub fn is_within_limits(&self) -> bool
        ensures { IsTrue result ↔ IsEntry self.now }
    {
        (1..=MAX_ENTRY_BITS).contains(&self.bits) && (!self.is_gap() || self.subindex == 0)
    }
}

impl Pdo {
    /// How many bits it has, gaps with them.
    pub fn bits(&self) -> usize
        requires { length self.now.entries ≤ 64 }
        ensures { result ≡ pdo_bits self.now }
    {
        self.entries
            .as_slice()
            .iter()
            .map(|entry| entry.bits as usize)
            .sum()
    }

    /// Whether its index is one of the 512 from `first` on, and it has at most 64 entries, each
    /// within its own limits.
    pub fn is_within_limits(&self, first: u16) -> bool
        requires { first ≤ first_input_index }
        ensures { IsTrue result ↔ IsPdo first self.now }
    {
        (first..first + PDO_INDICES).contains(&self.index)
            && self.entries.len() <= MAX_ENTRIES
            && self
                .entries
                .as_slice()
                .iter()
                .all(|entry| entry.is_within_limits())
    }
}

/// Whether no two PDOs have one index.
pub fn have_own_indices(pdos: &[Pdo]) -> bool
    ensures { IsTrue result ↔ AllPairs (λ p q. p.index ≢ q.index) pdos.now }
{
    for (i, pdo) in pdos.iter().enumerate() {
        if !is_free(&pdos[i + 1..], pdo.index) {
            return false;
        }
    }
    true
}

/// Whether a direction has at most 16 PDOs, no two with one index, and each within its own limits;
/// the indices of the direction are the 512 from `first` on.
pub fn are_within_limits(pdos: &[Pdo], first: u16) -> bool
    requires { first ≤ first_input_index }
    ensures { IsTrue result ↔ ArePdos first pdos.now }
{
    pdos.len() <= MAX_PDOS
        && pdos.iter().all(|pdo| pdo.is_within_limits(first))
        && have_own_indices(pdos)
}

/// A copy of PDOs. The error says that memory was refused.
pub fn copied_pdos(alloc: Global, pdos: &[Pdo]) -> Result<Listed<Pdo>, AllocError>
    ensures { IfOk result (λ ps. ps ≡ pdos.now) }
{
    let mut copied = Listed::new(alloc);
    for pdo in pdos {
        let entries = Listed::copied(alloc, pdo.entries.as_slice())?;
        copied.push(Pdo {
            index: pdo.index,
            entries,
        })?;
    }
    Ok(copied)
}

impl SlaveType {
    /// Whether a type may have this mailbox and these PDOs: the limits of this profile.
    pub fn is_within_limits(mailbox: Option<Mailbox>, outputs: &[Pdo], inputs: &[Pdo]) -> bool
        ensures { IsTrue result ↔ IsWithinLimits mailbox outputs.now inputs.now }
    {
        let has_room = match mailbox {
            None => true,
            Some(mailbox) => mailbox.is_within_limits(),
        };
        has_room
            && are_within_limits(outputs, FIRST_OUTPUT_INDEX)
            && are_within_limits(inputs, FIRST_INPUT_INDEX)
    }

    /// The type of these parts, which `is_within_limits` accepts. `out_start` and `in_start` are
    /// the addresses of the output and the input sync manager, inside the slave. It has no face, no
    /// hardware and no parameters.
    pub fn new(
        alloc: Global,
        device: Device,
        mailbox: Option<Mailbox>,
        out_start: u16,
        in_start: u16,
        outputs: Listed<Pdo>,
        inputs: Listed<Pdo>,
        lrw: bool,
    ) -> Self
        requires { IsWithinLimits mailbox outputs inputs }
        ensures { result ≡ record {
          device = device;
          mailbox = mailbox;
          out_start = out_start;
          in_start = in_start;
          outputs = outputs;
          inputs = inputs;
          lrw = lrw;
          face = None;
          hardware = None;
          init = [];
        } }
    {
        SlaveType {
            device,
            mailbox,
            out_start,
            in_start,
            outputs,
            inputs,
            lrw,
            face: None,
            hardware: None,
            init: Listed::new(alloc),
        }
    }

    /// The type without PDOs and without a mailbox, of a device of zeros, which takes part in LRW.
    pub fn without_pdos(alloc: Global) -> Self
        ensures { result ≡ plain_kind }
    {
        let device = Device {
            vendor: 0,
            product: 0,
            revision: 0,
        };
        SlaveType {
            device,
            mailbox: None,
            out_start: 0,
            in_start: 0,
            outputs: Listed::new(alloc),
            inputs: Listed::new(alloc),
            lrw: true,
            face: None,
            hardware: None,
            init: Listed::new(alloc),
        }
    }

    /// A copy, for one more slave of the type. The error says that memory was refused.
    pub fn copied(&self, alloc: Global) -> Result<SlaveType, AllocError>
        ensures { IfOk result (λ t. t ≡ self.now) }
    {
        let SlaveType {
            device,
            mailbox,
            out_start,
            in_start,
            outputs,
            inputs,
            lrw: has_lrw,
            face,
            hardware,
            init,
        } = self;
        Ok(SlaveType {
            device: *device,
            mailbox: *mailbox,
            out_start: *out_start,
            in_start: *in_start,
            outputs: copied_pdos(alloc, outputs.as_slice())?,
            inputs: copied_pdos(alloc, inputs.as_slice())?,
            lrw: *has_lrw,
            face: copied_face(alloc, face)?,
            hardware: *hardware,
            init: Listed::copied(alloc, init.as_slice())?,
        })
    }

    /// The type gets a face, and loses the one that it had: it is then the type of one full slave.
    pub fn show(&mut self, face: Face)
        requires { IsFace face }
        ensures { self.new ≡ record self.old { face = Some face } }
    {
        self.face = Some(face);
    }

    /// What a full slave shows besides; none of a slave that isn't one.
    pub fn face(&self) -> Option<&Face>
        ensures value { option_copied result ≡ self.now.face }
        ensures limits { IfSome result (λ face. IsFace face.now) }
    {
        self.face.as_ref()
    }

    /// The type is one of real devices from now on, with this part in place of the one that it had. Its `out_start`
    /// stays, so it must be an address inside the slave already.
    pub fn describe(&mut self, hardware: Hardware)
        requires { IsHardware self.old.mailbox hardware }
        ensures { self.new ≡ record self.old { hardware = Some hardware } }
    {
        self.hardware = Some(hardware);
    }

    /// What the type says of real devices; none of a table without `hardware`.
    pub fn hardware(&self) -> Option<&Hardware>
        ensures value { option_copied result ≡ self.now.hardware }
        ensures limits { IfSome result (λ h. IsHardware self.now.mailbox h.now) }
    {
        self.hardware.as_ref()
    }

    /// The type's slaves get these downloads from now on, in place of those that they got.
    pub fn prepare(&mut self, init: Listed<Parameter>)
        requires { AreParameters self.old.mailbox init }
        ensures { self.new ≡ record self.old { init = init } }
    {
        self.init = init;
    }

    /// The downloads that its slaves get before their process data, in order.
    pub fn init(&self) -> &[Parameter]
        ensures value { result.now ≡ self.now.init }
        ensures limits { AreParameters self.now.mailbox result.now }
    {
        self.init.as_slice()
    }

    /// The number of the sync manager at a place: mailbox out, mailbox in, outputs, inputs.
    pub fn manager_number(&self, place: usize) -> usize
        requires { place < 4 }
        ensures value { result ≡ manager_number self.now.hardware place }
        ensures few { result < 4 }
    {
        match &self.hardware {
            None => place,
            Some(hardware) => hardware.number_at(place),
        }
    }

    /// The place of the sync manager with a number.
    pub fn manager_place(&self, number: usize) -> usize
        requires { number < 4 }
        ensures value { result ≡ manager_place self.now.hardware number }
        ensures few { result < 4 }
    {
        match &self.hardware {
            None => number,
            Some(hardware) => hardware.place_at(number),
        }
    }

    /// The address in a register that names an address inside the slave, and the address inside the slave that a
    /// register names: each is the other's.
    pub fn other_name(&self, address: u16) -> u16
        ensures { result ≡ other_name self.now.hardware address }
    {
        match &self.hardware {
            None => address,
            Some(hardware) => hardware.other_name(address),
        }
    }

    /// The number and the control byte of the outputs' manager.
    pub fn out_manager(&self) -> ProcessManager
        ensures { result ≡ out_manager self.now.hardware }
    {
        match &self.hardware {
            None => ProcessManager::usual_outputs(),
            Some(hardware) => hardware.out_manager,
        }
    }

    /// The number and the control byte of the inputs' manager.
    pub fn in_manager(&self) -> ProcessManager
        ensures { result ≡ in_manager self.now.hardware }
    {
        match &self.hardware {
            None => ProcessManager::usual_inputs(),
            Some(hardware) => hardware.in_manager,
        }
    }

    /// Whether its slaves have firmware; without it, AL status is a copy of AL control.
    pub fn has_firmware(&self) -> bool
        ensures { result ≡ has_firmware self.now.hardware }
    {
        match &self.hardware {
            None => true,
            Some(hardware) => hardware.has_firmware,
        }
    }

    /// Whether the assignment of PDOs of its slaves can't be written: all PDOs of the type, in order.
    pub fn is_fixed(&self) -> bool
        ensures { result ≡ is_fixed self.now.hardware }
    {
        match &self.hardware {
            None => false,
            Some(hardware) => hardware.is_fixed,
        }
    }

    /// Whether the master says which PDOs its slaves assign.
    pub fn is_assignable(&self) -> bool
        ensures { result ≡ is_assignable self.now.mailbox self.now.hardware }
    {
        self.mailbox.is_some() && !self.is_fixed()
    }

    /// How many firmware steps later than others its simulated slaves decide a request to their AL control.
    pub fn slow(&self) -> u8
        ensures value { result ≡ slow self.now.hardware }
        ensures few { result ≤ 100 }
    {
        match &self.hardware {
            None => 0,
            Some(hardware) => hardware.slow,
        }
    }

    /// Whether its simulated slaves send an emergency as they enter PREOP from INIT.
    pub fn has_emergency(&self) -> bool
        ensures { result ≡ has_emergency self.now.hardware }
    {
        match &self.hardware {
            None => false,
            Some(hardware) => hardware.has_emergency,
        }
    }

    /// How many FMMUs its slaves have, from number 0 on.
    pub fn fmmu_count(&self) -> u8
        ensures value { result ≡ fmmu_count self.now.hardware }
        ensures few { result ≤ 4 }
    {
        match &self.hardware {
            None => MAX_FMMUS,
            Some(hardware) => hardware.fmmus,
        }
    }

    /// Whether a device of any revision is one of the type.
    pub fn takes_any_revision(&self) -> bool
        ensures { result ≡ takes_any_revision self.now.hardware }
    {
        match &self.hardware {
            None => false,
            Some(hardware) => hardware.any_revision,
        }
    }

    /// The device that the type's slaves are; the serial number is each slave's own.
    pub fn device(&self) -> Device
        ensures { result ≡ self.now.device }
    {
        self.device
    }

    /// Where the mailboxes lie, if the type has any.
    pub fn mailbox(&self) -> Option<Mailbox>
        ensures value { result ≡ self.now.mailbox }
        ensures limits { IfSome result IsMailbox }
    {
        self.mailbox
    }

    /// The address of the output sync manager, inside the slave.
    pub fn out_start(&self) -> u16
        ensures { result ≡ self.now.out_start }
    {
        self.out_start
    }

    /// The address of the input sync manager, inside the slave.
    pub fn in_start(&self) -> u16
        ensures { result ≡ self.now.in_start }
    {
        self.in_start
    }

    /// The output PDOs: those that the slave receives.
    pub fn outputs(&self) -> &[Pdo]
        ensures value { result.now ≡ self.now.outputs }
        ensures limits { ArePdos first_output_index result.now }
    {
        self.outputs.as_slice()
    }

    /// The input PDOs: those that the slave sends.
    pub fn inputs(&self) -> &[Pdo]
        ensures value { result.now ≡ self.now.inputs }
        ensures limits { ArePdos first_input_index result.now }
    {
        self.inputs.as_slice()
    }

    /// Whether the type's slaves take part in LRW datagrams.
    pub fn lrw(&self) -> bool
        ensures { result ≡ self.now.lrw }
    {
        self.lrw
    }

    /// How many bits all output PDOs have together.
    pub fn output_bits(&self) -> usize
        ensures value { result ≡ pdos_bits self.now.outputs }
        ensures limit { result ≤ 65536 }
    {
        bits_of(self.outputs())
    }

    /// How many bits all input PDOs have together.
    pub fn input_bits(&self) -> usize
        ensures value { result ≡ pdos_bits self.now.inputs }
        ensures limit { result ≤ 65536 }
    {
        bits_of(self.inputs())
    }
}

/// Whether no PDO has this index.
fn is_free(pdos: &[Pdo], index: u16) -> bool
    ensures { IsTrue result ↔ All (λ p. p.index ≢ index) pdos.now }
{
    pdos.iter().all(|pdo| pdo.index != index)
}

/// How many bits the PDOs of a direction have together.
fn bits_of(pdos: &[Pdo]) -> usize
    requires few { length pdos.now ≤ 16 }
    requires small { All (λ p. (length p.entries ≤ 64) × (pdo_bits p ≤ 4096)) pdos.now }
    ensures value { result ≡ pdos_bits pdos.now }
    ensures limit { result ≤ 65536 }
{
    let mut total = 0;
    for pdo in pdos {
        total += pdo.bits();
    }
    total
}

/// A copy of a face, where there is one.
fn copied_face(alloc: Global, face: &Option<Face>) -> Result<Option<Face>, AllocError>
    ensures { IfOk result (λ f. f ≡ face.now) }
{
    let Some(face) = face else {
        return Ok(None);
    };
    let name = Listed::copied(alloc, face.name.as_slice())?;
    Ok(Some(Face {
        name,
        is_last: face.is_last,
    }))
}

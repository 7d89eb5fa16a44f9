//! A slave's object dictionary.

ghost use Rattle.std.specs.Prelude.{◌≡◌, ◌==◌, ◌++◌, ◌≤◌, ◌<◌, ◌^◌, ◌*◌, ◌+◌, length, map, slice_get, if◌then◌else◌, IfOk, IfSome, MatchResult, Ok, Err, Some};
ghost use Rattle.std.specs.List.{list_any};
ghost use Rattle.std.specs.Option.{option_copied};
ghost use Rattle.ec_coe.specs.declared.message.SdoCommand.TheVariants.{UploadResponse, Other as OtherCommand};
ghost use Rattle.ec_device.specs.Objects.{pdo_at, bits_assigned};
ghost use Rattle.ec_coe.specs.Objects.{HasSlots, assigned, entry_number as number_of_entry, identity_values, pdo_values, send_room, face_values_of, object_values, own_values, parameter_of, has_parameters as has_parameters_of, is_assignment as assigns};
ghost use Rattle.ec_coe.specs.SwitchedOn.{new_dictionary, first_value as first_value_of};
ghost use Rattle.ec_coe.specs.Messages.{size_number, normal_upload, IsMessage};
ghost use Rattle.ec_coe.specs.Transfers.{value_or_abort, value_at, uploaded, parameter_written, object_written, downloaded};
ghost use Rattle.ec_coe.specs.Answers.{answered, has_long_name};

use crate::abort_code::AbortCode;
use crate::assignment::{Assignment, find_pdo};
use crate::face::{DEVICE_NAME_OBJECT, face_value, is_long};
use crate::message::{Message, NORMAL_UPLOAD, SdoCommand, Service};
use crate::value::{SdoValue, ValueSize};
use ec_device::{Entry, Identity, Parameter, Pdo, SlaveType, parameter_at};
use std::alloc::{AllocError, Global};
use std::marker::Model;

/// The index of the identity object.
pub const IDENTITY_OBJECT: u16 = 0x1018;

/// The index of the object that assigns output PDOs.
pub const OUTPUT_ASSIGNMENT: u16 = 0x1C12;

/// The index of the object that assigns input PDOs.
pub const INPUT_ASSIGNMENT: u16 = 0x1C13;

/// The objects of a slave (ETG.1000.6, "Object dictionary"): its identity, the PDOs of its type, and which of them are
/// assigned. A full slave, whose type has a face, also has the device type, the device name, the versions and the uses of its
/// sync managers. Any other has the objects that the downloads of its type name, its parameters. It owns all of these.
#[derive(Debug, Drop)]
pub struct Dictionary {
    kind: SlaveType,
    identity: Identity,
    outs: Assignment,
    ins: Assignment,
    // one for each download of the type; the first to an object has the object's
    values: Vec<SdoValue>,
}

impl Model for Dictionary {
    ghost use Rattle.ec_coe.specs.Objects.{Dictionary as Objects, HasSlots};

    ghost Value = { Objects };

    ghost view = { λ d. record { kind = d.kind; identity = d.identity; outs = d.outs; ins = d.ins; values = d.values.items } };

    ghost invariant = { λ d. HasSlots d.kind d.outs d.ins d.values.items };
}

/// The number of an entry in a mapping object: its index, its subindex and its bits, from the high bytes down (ETG.1000.6,
/// "PDO mapping").
pub fn entry_number(entry: &Entry) -> u32
    ensures { result ≡ number_of_entry entry.now }
{
    0x1_0000 * entry.index as u32 + 0x100 * entry.subindex as u32 + entry.bits as u32
}

impl Dictionary {
    /// The objects of a slave of a type that was just switched on: every PDO is assigned, in order, and each parameter has the
    /// value that its object has without one, or 0. No later call takes memory.
    ///
    /// # Errors
    ///
    /// `AllocError` if there is no memory. The type is lost then: copy it before if you need it again.
    pub fn new(alloc: Global, kind: SlaveType, identity: Identity) -> Result<Dictionary, AllocError>
        ensures { IfOk result (λ d. d ≡ new_dictionary kind identity) }
    {
        let outs = Assignment::new(alloc, kind.outputs())?;
        let ins = Assignment::new(alloc, kind.inputs())?;
        let values = vec![in alloc; SdoValue::byte(0); kind.init().len()]?;
        let mut dictionary = Dictionary {
            kind,
            identity,
            outs,
            ins,
            values,
        };
        dictionary.reset_values();
        Ok(dictionary)
    }

    /// Does nothing. Its contract says that every dictionary has as many slots as the type has PDOs, and as many values as
    /// downloads, and that no more slots count than there are.
    pub fn is_sound(&self)
        ensures slots { HasSlots self.now.kind self.now.outs self.now.ins self.now.values }
        ensures outputs { self.now.outs.count ≤ length self.now.outs.slots }
        ensures inputs { self.now.ins.count ≤ length self.now.ins.slots }
    {
        self.outs.is_sound();
        self.ins.is_sound();
    }

    /// The slave's type.
    pub fn kind(&self) -> &SlaveType
        ensures { result.now ≡ self.now.kind }
    {
        &self.kind
    }

    /// The slave's identity.
    pub fn identity(&self) -> Identity
        ensures { result ≡ self.now.identity }
    {
        self.identity
    }

    /// The indices of the output PDOs that are assigned, in order.
    pub fn assigned_outputs(&self) -> &[u16]
        ensures { result.now ≡ assigned self.now.outs }
    {
        self.outs.assigned()
    }

    /// The indices of the input PDOs that are assigned, in order.
    pub fn assigned_inputs(&self) -> &[u16]
        ensures { result.now ≡ assigned self.now.ins }
    {
        self.ins.assigned()
    }

    /// How many bits the assigned output PDOs have together.
    pub fn output_bits(&self) -> usize
        ensures value { result ≡ bits_assigned self.now.kind.outputs (assigned self.now.outs) }
        ensures limit { result < 2 ^ 20 }
    {
        self.outs.bits(self.kind.outputs())
    }

    /// How many bits the assigned input PDOs have together.
    pub fn input_bits(&self) -> usize
        ensures value { result ≡ bits_assigned self.now.kind.inputs (assigned self.now.ins) }
        ensures limit { result < 2 ^ 20 }
    {
        self.ins.bits(self.kind.inputs())
    }

    /// The value at an index and a subindex. The value of a name of more than four letters is their number.
    ///
    /// # Errors
    ///
    /// `NoObject` if the index has no object, `NoSubindex` if the object has no such subindex.
    #[tactic(auto, unfolding(crate::specs::Transfers::uploaded))]
    pub fn upload(&self, index: u16, subindex: u8) -> Result<SdoValue, AbortCode>
        ensures { result ≡ uploaded self.now index subindex }
    {
        match self.parameter(index, subindex) {
            Some(place) => Ok(self.values[place]),
            None => self.own_value(index, subindex),
        }
    }

    /// A download to an index and a subindex. The objects that assign PDOs take one, if the type's assignment isn't fixed, and
    /// only in PREOP: a count of slots, and while that is 0 the slots. Parameters take any of their length, in any state. The
    /// value must have no more bits than its size says, as each has that `SdoValue::of`, `byte`, `word` or `long` makes.
    ///
    /// # Errors
    ///
    /// The first abort that holds: `NoObject`, `NoSubindex`, `ReadOnly`, `WrongLength`, `WrongState`, `InvalidValue`. Nothing
    /// changes then.
    #[tactic(auto, unfolding(crate::specs::Transfers::downloaded))]
    pub fn download(
        &mut self,
        in_preop: bool,
        index: u16,
        subindex: u8,
        value: SdoValue,
    ) -> Result<(), AbortCode>
        requires { value.number < 2 ^ (8 * size_number value.size) }
        ensures { MatchResult result
            (λ _. downloaded in_preop self.old index subindex value ≡ Ok self.new)
            (λ code. (downloaded in_preop self.old index subindex value ≡ Err code) × (self.new ≡ self.old)) }
    {
        match self.parameter(index, subindex) {
            Some(place) => self.set_parameter(place, value),
            None => self.set_object(in_preop, index, subindex, value),
        }
    }

    /// The reply to a request, with this counter, whatever the counter of the request is. The reply is a response with
    /// the index and the subindex of the request, or an abort. The name of a full slave, if it has more than four letters,
    /// is sent by a normal upload response, whose letters `reply_bytes` puts behind the message. The counter must be
    /// below 8; the request may be any value of its type.
    #[tactic(auto, unfolding(crate::specs::Answers::answered))]
    pub fn answer(&mut self, in_preop: bool, request: &Message, counter: u8) -> Message
        requires { counter < 8 }
        ensures message { IsMessage result }
        ensures reply { result ≡ (answered in_preop self.old request.now counter).reply }
        ensures after { self.new ≡ (answered in_preop self.old request.now counter).dictionary }
    {
        let is_normal = request.index == DEVICE_NAME_OBJECT && self.has_long_name();
        let outcome = match request.command {
            SdoCommand::DownloadRequest(size) => self
                .download(
                    in_preop,
                    request.index,
                    request.subindex,
                    SdoValue::of(size, request.value),
                )
                .map(|_| (SdoCommand::DownloadResponse, 0)),
            SdoCommand::UploadRequest => self.upload(request.index, request.subindex).map(|value| (
                upload_command(is_normal, value.size),
                value.number,
            )),
            _ => Err(AbortCode::InvalidCommand),
        };
        let (service, command, value) = match outcome {
            Ok((command, value)) => (Service::Response, command, value),
            Err(code) => (Service::Request, SdoCommand::Abort, code.number()),
        };
        Message {
            counter,
            service,
            command,
            index: request.index,
            subindex: request.subindex,
            value,
        }
    }

    /// Puts assignments and parameters back to power-on: every PDO is assigned, in order, and each parameter has the value that
    /// its object has without one, or 0.
    pub fn reset(&mut self)
        ensures { self.new ≡ new_dictionary self.old.kind self.old.identity }
    {
        self.outs.reset(self.kind.outputs());
        self.ins.reset(self.kind.inputs());
        self.reset_values();
    }

    /// Each parameter gets the value that its object has without one, or 0.
    fn reset_values(&mut self)
        ensures { self.new ≡ record self.old { values = map (first_value_of self.old) self.old.kind.init } }
    {
        for place in 0..self.values.len() {
            let value = self.first_value(place);
            self.values[place] = value;
        }
    }

    /// The value that the object of the parameter at a place has without it, in as many bytes as the parameter has; or 0.
    fn first_value(&self, place: usize) -> SdoValue
        requires { place < length self.now.values }
        ensures { slice_get (map (first_value_of self.now) self.now.kind.init) place ≡ Some result }
    {
        let parameter = self.kind.init()[place];
        let number = match self.own_value(parameter.index, parameter.subindex) {
            Ok(value) => value.number,
            Err(_) => 0,
        };
        SdoValue::of(ValueSize::of(parameter.size), number)
    }

    /// The place of the parameter at an index and a subindex; none if there is no parameter.
    fn parameter(&self, index: u16, subindex: u8) -> Option<usize>
        ensures place { result ≡ parameter_of self.now.kind index subindex }
        ensures within { IfSome result (λ place. place < length self.now.values) }
    {
        if is_assignment(index) || self.kind.face().is_some() {
            return None;
        }
        parameter_at(self.kind.init(), index, subindex)
    }

    /// Whether some parameter is a value of the object with this index.
    fn has_parameters(&self, index: u16) -> bool
        ensures { result ≡ has_parameters_of self.now.kind index }
    {
        !(is_assignment(index) || self.kind.face().is_some()) && names(self.kind.init(), index)
    }

    /// The value at an index and a subindex that isn't a parameter.
    ///
    /// # Errors
    ///
    /// As those of `upload`.
    fn own_value(&self, index: u16, subindex: u8) -> Result<SdoValue, AbortCode>
        ensures { result ≡ value_at (own_values self.now index) subindex }
    {
        match self.object_value(index, subindex) {
            Err(AbortCode::NoObject) if self.has_parameters(index) => Err(AbortCode::NoSubindex),
            value => value,
        }
    }

    /// The value at an index and a subindex, as in a dictionary without parameters.
    ///
    /// # Errors
    ///
    /// As those of `upload`.
    #[tactic(auto, unfolding(crate::specs::Objects::object_values))]
    fn object_value(&self, index: u16, subindex: u8) -> Result<SdoValue, AbortCode>
        ensures { result ≡ value_at (object_values self.now index) subindex }
    {
        match index {
            IDENTITY_OBJECT => found(identity_value(&self.identity, subindex)),
            OUTPUT_ASSIGNMENT if self.kind.outputs().is_empty() => Err(AbortCode::NoObject),
            OUTPUT_ASSIGNMENT => found(self.outs.value(subindex)),
            INPUT_ASSIGNMENT if self.kind.inputs().is_empty() => Err(AbortCode::NoObject),
            INPUT_ASSIGNMENT => found(self.ins.value(subindex)),
            _ => match self.pdo(index) {
                Some(pdo) => found(pdo_value(pdo, subindex)),
                None => self.value_of_face(index, subindex),
            },
        }
    }

    /// A download to the parameter at a place.
    ///
    /// # Errors
    ///
    /// `WrongLength` if the value has another length than the parameter's. Nothing changes then.
    fn set_parameter(&mut self, place: usize, value: SdoValue) -> Result<(), AbortCode>
        requires { place < length self.old.values }
        ensures { MatchResult result
            (λ _. parameter_written self.old value place ≡ Ok self.new)
            (λ code. (parameter_written self.old value place ≡ Err code) × (self.new ≡ self.old)) }
    {
        if value.size.number() != self.values[place].size.number() {
            return Err(AbortCode::WrongLength);
        }
        self.values[place] = value;
        Ok(())
    }

    /// A download to an index and a subindex that isn't a parameter.
    ///
    /// # Errors
    ///
    /// As those of `download`.
    fn set_object(
        &mut self,
        in_preop: bool,
        index: u16,
        subindex: u8,
        value: SdoValue,
    ) -> Result<(), AbortCode>
        requires { value.number < 2 ^ (8 * size_number value.size) }
        ensures { MatchResult result
            (λ _. object_written in_preop self.old index subindex value (value_at (own_values self.old index) subindex) ≡ Ok self.new)
            (λ code. (object_written in_preop self.old index subindex value (value_at (own_values self.old index) subindex) ≡ Err code) × (self.new ≡ self.old)) }
    {
        let old = self.own_value(index, subindex)?;
        let is_as_long = value.size.number() == old.size.number();
        if !is_assignment(index) || self.kind.is_fixed() {
            return Err(AbortCode::ReadOnly);
        }
        if !is_as_long {
            return Err(AbortCode::WrongLength);
        }
        if index == OUTPUT_ASSIGNMENT {
            let outputs = self.kind.outputs();
            self.outs.write(outputs, in_preop, subindex, value.number)
        } else {
            let inputs = self.kind.inputs();
            self.ins.write(inputs, in_preop, subindex, value.number)
        }
    }

    /// The mapping object of a PDO of the type.
    fn pdo(&self, index: u16) -> Option<&Pdo>
        ensures value { option_copied result ≡ pdo_at (self.now.kind.outputs ++ self.now.kind.inputs) index }
        ensures few { IfSome result (λ p. length p.now.entries ≤ 64) }
    {
        match find_pdo(self.kind.outputs(), index) {
            Some(pdo) => Some(pdo),
            None => find_pdo(self.kind.inputs(), index),
        }
    }

    /// Whether the slave is full and its name too long for an expedited transfer.
    fn has_long_name(&self) -> bool
        ensures { result ≡ has_long_name self.now.kind.face }
    {
        match self.kind.face() {
            Some(face) => is_long(face.name.as_slice()),
            None => false,
        }
    }

    /// The value at an index and a subindex of the objects that a full slave has besides.
    ///
    /// # Errors
    ///
    /// As those of `upload`; each index has no object if the slave isn't full.
    fn value_of_face(&self, index: u16, subindex: u8) -> Result<SdoValue, AbortCode>
        ensures { result ≡ value_at (face_values_of self.now.kind.face (send_room self.now.kind.mailbox) index) subindex }
    {
        match self.kind.face() {
            Some(face) => face_value(face, self.room(), index, subindex),
            None => Err(AbortCode::NoObject),
        }
    }

    /// The length in bytes of the mailbox through which the slave sends; 0 if it has none.
    fn room(&self) -> usize
        ensures { result ≡ send_room self.now.kind.mailbox }
    {
        match self.kind.mailbox() {
            Some(mailbox) => mailbox.send_size as usize,
            None => 0,
        }
    }
}

/// Whether some parameter is a value of the object with this index.
fn names(parameters: &[Parameter], index: u16) -> bool
    ensures { result ≡ list_any (λ (q : Parameter). q.index == index) parameters.now }
{
    parameters.iter().any(|parameter| parameter.index == index)
}

/// Whether an object assigns PDOs.
fn is_assignment(index: u16) -> bool
    ensures { result ≡ assigns index }
{
    index == OUTPUT_ASSIGNMENT || index == INPUT_ASSIGNMENT
}

/// The command of the response to an upload, by a normal or by an expedited transfer.
fn upload_command(is_normal: bool, size: ValueSize) -> SdoCommand
    ensures { result ≡ (if is_normal then OtherCommand normal_upload else UploadResponse size) }
{
    if is_normal {
        SdoCommand::Other(NORMAL_UPLOAD)
    } else {
        SdoCommand::UploadResponse(size)
    }
}

/// The value of an object that is there, or `NoSubindex`.
fn found(value: Option<SdoValue>) -> Result<SdoValue, AbortCode>
    ensures { result ≡ value_or_abort value }
{
    value.ok_or(AbortCode::NoSubindex)
}

/// The value at a subindex of a PDO's mapping object.
fn pdo_value(pdo: &Pdo, subindex: u8) -> Option<SdoValue>
    requires { length pdo.now.entries < 256 }
    ensures { result ≡ slice_get (pdo_values pdo.now) subindex }
{
    if subindex == 0 {
        return Some(SdoValue::byte(pdo.entries.len() as u8));
    }
    let entry = pdo.entries.as_slice().get(subindex as usize - 1)?;
    Some(SdoValue::long(entry_number(entry)))
}

/// The value at a subindex of the identity object.
fn identity_value(identity: &Identity, subindex: u8) -> Option<SdoValue>
    ensures { result ≡ slice_get (identity_values identity.now) subindex }
{
    match subindex {
        0 => Some(SdoValue::byte(4)),
        1 => Some(SdoValue::long(identity.vendor)),
        2 => Some(SdoValue::long(identity.product)),
        3 => Some(SdoValue::long(identity.revision)),
        4 => Some(SdoValue::long(identity.serial)),
        _ => None,
    }
}

//! Verdicts: what the answer to a step says of it.

ghost use Rattle.std.specs.Prelude.{◌≡◌, ◌≤◌, length};
ghost use Rattle.ec_device.specs.declared.slave_type.Device.{Device};
ghost use Rattle.ec_start.specs.Actions.{datagram_of};
ghost use Rattle.ec_start.specs.Running.{type_of, wanted_of};
ghost use Rattle.ec_start.specs.Answered.{answered, init_verdict};
ghost use Rattle.ec_start.specs.Verdicts.{nothing_read, with_word, read_before, is_device, differs, word_verdict, state_verdict, init_state_verdict, clean_init_verdict, upload_verdict, value_verdict, reply_verdict, size_asked, free_reply_verdict, free_verdict, counted, verdict};

use crate::action::{Action, SdoRequest, Transfer};
use crate::aside::Heard;
use crate::error::StartError;
use byteorder::{ByteOrder, LittleEndian};
use ec_al::State;
use ec_coe::{Reply, SdoValue, ValueSize, is_aside, read_free_reply, read_reply};
use ec_device::{Device, SlaveType};
use ec_link::SlavePlan;
use ec_regs::registers::{AL_STATUS, AL_STATUS_CODE, SII_CONTROL, SII_DATA};
use ec_regs::{AlWord, SiiControl};

/// The offset in bytes of the AL status code from the AL status.
const CODE: usize = AL_STATUS_CODE - AL_STATUS;
/// The offset in bytes of the SII's data from the SII's control word.
const DATA: usize = SII_DATA - SII_CONTROL;

/// What a returned datagram says of its action.
#[derive(Clone, Copy)]
pub enum Verdict {
    /// The action is done.
    Next,
    /// The action is done, and read this word of the SII.
    Word(u32),
    /// A part was fed; the step's own frame is still to come.
    Fed,
    /// The action must be tried again.
    Again,
    /// The slave sent this in place of a reply; the action must be tried again.
    Aside(Heard),
    /// The start-up fails.
    Fails(StartError),
}

/// The device that a slave must be.
#[derive(Clone, Copy)]
pub struct WantedDevice {
    pub device: Device,
    /// Whether each revision fits, since the type has none.
    pub any_revision: bool,
}

/// An identity of which no word was read yet: all 0.
pub fn nothing_read() -> Device
    ensures { result ≡ nothing_read }
{
    Device {
        vendor: 0,
        product: 0,
        revision: 0,
    }
}

/// The identity with one more word: 0 the vendor, which clears the others, 1 the product, 2 the revision.
pub fn with_word(seen: Device, which: usize, value: u32) -> Device
    ensures { result ≡ with_word seen which value }
{
    let Device {
        vendor,
        product,
        ..
    } = seen;
    match which {
        0 => Device {
            vendor: value,
            product: 0,
            revision: 0,
        },
        1 => Device {
            vendor,
            product: value,
            revision: 0,
        },
        _ => Device {
            vendor,
            product,
            revision: value,
        },
    }
}

/// The verdict on an action, by the working counter and the data of the returned datagram.
pub fn verdict_on(
    slaves: &[SlavePlan],
    step: usize,
    seen: Device,
    action: &Action,
    counter: u16,
    bytes: &[u8],
) -> Verdict
    requires { length bytes.now ≡ length (datagram_of action.now 0).data_bytes }
    ensures { result ≡ verdict (length slaves.now) step seen (type_of slaves.now) action.now (answered counter bytes.now) }
{
    match *action {
        Action::CountSlaves if counter as usize == slaves.len() => Verdict::Next,
        Action::CountSlaves => Verdict::Fails(StartError::Count { seen: counter }),
        Action::AskInit | Action::ClearFmmus | Action::ClearManagers | Action::ClearStations =>
            counted(counter, slaves.len(), step, Verdict::Next),
        Action::AwaitInit => counted(counter, slaves.len(), step, init_verdict(bytes)),
        Action::AwaitInitState => counted(counter, slaves.len(), step, init_state_verdict(bytes)),
        Action::ClearAllFmmus
        | Action::ClearAllManagers
        | Action::AssignSii(_)
        | Action::ClearSiiError => Verdict::Next,
        Action::AwaitCleanInit { .. } => counted(counter, 1, step, clean_init_verdict(bytes)),
        Action::FeedPart(feed) => counted(counter, feed.counter, step, Verdict::Fed),
        Action::AwaitWord { slave, which } => {
            let kind = type_of(slaves, slave);
            let shown = word_verdict(kind, seen, slave, which, bytes);
            counted(counter, 1, step, shown)
        }
        Action::AwaitState { slave, state } => {
            counted(counter, 1, step, state_verdict(slave, state, bytes))
        }
        Action::AwaitReply { .. } if counter == 0 => Verdict::Again,
        Action::AwaitReply { slave, request, .. } => {
            let reply = read_reply(bytes, request.index, request.subindex);
            counted(counter, 1, step, reply_verdict(slave, &request, reply))
        }
        Action::AwaitFreeReply { .. } if counter == 0 => Verdict::Again,
        Action::AwaitFreeReply { slave, request, .. } => {
            counted(counter, 1, step, free_verdict(slave, &request, bytes))
        }
        _ => counted(counter, 1, step, Verdict::Next),
    }
}

/// The verdict if the working counter is the expected one, and else the failure `Counter`.
fn counted(counter: u16, expected: usize, step: usize, verdict: Verdict) -> Verdict
    ensures { result ≡ counted counter expected step verdict }
{
    if counter as usize == expected {
        verdict
    } else {
        Verdict::Fails(StartError::Counter { step })
    }
}

fn reply_verdict(slave: usize, request: &SdoRequest, reply: Reply) -> Verdict
    ensures { result ≡ reply_verdict slave request.now request.now.transfer reply }
{
    match (request.transfer, reply) {
        (_, Reply::Aborted(code)) => Verdict::Fails(StartError::Abort { slave, code }),
        (Transfer::Download(_), Reply::Downloaded) => Verdict::Next,
        (Transfer::Upload(expected), Reply::Uploaded(seen)) => {
            upload_verdict(slave, request, expected, seen)
        }
        _ => Verdict::Fails(StartError::BadMailbox { slave }),
    }
}

fn upload_verdict(slave: usize, request: &SdoRequest, expected: SdoValue, seen: SdoValue) -> Verdict
    ensures { result ≡ upload_verdict slave request.now expected seen }
{
    if seen.size.number() != expected.size.number() {
        return Verdict::Fails(StartError::BadMailbox { slave });
    }
    value_verdict(slave, request, expected, seen)
}

fn value_verdict(slave: usize, request: &SdoRequest, expected: SdoValue, seen: SdoValue) -> Verdict
    ensures { result ≡ value_verdict slave request.now expected seen }
{
    if seen.number == expected.number {
        return Verdict::Next;
    }
    Verdict::Fails(StartError::Mapping {
        slave,
        index: request.index,
        subindex: request.subindex,
        seen: seen.number,
    })
}

/// The verdict on the message in a mailbox of a real device: one that is no SDO is set aside.
fn free_verdict(slave: usize, request: &SdoRequest, mailbox: &[u8]) -> Verdict
    ensures { result ≡ free_verdict slave request.now mailbox.now }
{
    if is_aside(mailbox) {
        return Verdict::Aside(Heard::read(slave, mailbox));
    }
    let size = size_asked(request.transfer);
    let reply = read_free_reply(mailbox, request.index, request.subindex, size);
    free_reply_verdict(slave, request, reply)
}

/// The verdict on the reply of a real device: an upload may have any size.
fn free_reply_verdict(slave: usize, request: &SdoRequest, reply: Reply) -> Verdict
    ensures { result ≡ free_reply_verdict slave request.now request.now.transfer reply }
{
    match (request.transfer, reply) {
        (Transfer::Upload(expected), Reply::Uploaded(seen)) => {
            value_verdict(slave, request, expected, seen)
        }
        _ => reply_verdict(slave, request, reply),
    }
}

/// The size of the value that a request transfers.
fn size_asked(transfer: Transfer) -> ValueSize
    ensures { result ≡ size_asked transfer }
{
    match transfer {
        Transfer::Download(value) | Transfer::Upload(value) => value.size,
    }
}

fn state_verdict(slave: usize, state: State, bytes: &[u8]) -> Verdict
    requires { 6 ≤ length bytes.now }
    ensures { result ≡ state_verdict slave state bytes.now }
{
    let status = bytes[0] as u16;
    if AlWord(status).has_error() {
        let code = LittleEndian::read_u16(&bytes[CODE..CODE + 2]);
        return Verdict::Fails(StartError::AlError { slave, code });
    }
    if status % 32 == state.number() {
        Verdict::Next
    } else {
        Verdict::Again
    }
}

fn word_verdict(
    kind: WantedDevice,
    seen: Device,
    slave: usize,
    which: usize,
    bytes: &[u8],
) -> Verdict
    requires { 10 ≤ length bytes.now }
    ensures { result ≡ word_verdict kind seen slave which bytes.now }
{
    let control = SiiControl(LittleEndian::read_u16(&bytes[0..2]));
    if control.has_error() {
        return differs(slave, read_before(seen, which));
    }
    if control.is_busy() {
        return Verdict::Again;
    }
    let value = LittleEndian::read_u32(&bytes[DATA..DATA + 4]);
    let shown = with_word(seen, which, value);
    if which == 2 && !is_device(kind, shown) {
        return differs(slave, shown);
    }
    Verdict::Word(value)
}

fn differs(slave: usize, seen: Device) -> Verdict
    ensures { result ≡ differs slave seen }
{
    Verdict::Fails(StartError::Identity { slave, seen })
}

/// The device that a slave must be by its type; all 0 if there is no such slave.
fn type_of(slaves: &[SlavePlan], slave: usize) -> WantedDevice
    ensures { result ≡ type_of slaves.now slave }
{
    if slave < slaves.len() {
        wanted_of(&slaves[slave].kind)
    } else {
        WantedDevice {
            device: nothing_read(),
            any_revision: false,
        }
    }
}

/// The device that a slave of a type must be.
fn wanted_of(kind: &SlaveType) -> WantedDevice
    ensures { result ≡ wanted_of kind.now }
{
    WantedDevice {
        device: kind.device(),
        any_revision: kind.takes_any_revision(),
    }
}

fn is_device(kind: WantedDevice, seen: Device) -> bool
    ensures { result ≡ is_device kind seen }
{
    let WantedDevice {
        device,
        any_revision,
    } = kind;
    device.vendor == seen.vendor
        && device.product == seen.product
        && (any_revision || device.revision == seen.revision)
}

/// The words of the identity that were read from this slave before word `which`.
fn read_before(seen: Device, which: usize) -> Device
    ensures { result ≡ read_before seen which }
{
    match which {
        0 => nothing_read(),
        1 => Device {
            vendor: seen.vendor,
            product: 0,
            revision: 0,
        },
        _ => Device {
            vendor: seen.vendor,
            product: seen.product,
            revision: 0,
        },
    }
}

/// The verdict on the OR of all AL states, errors left aside.
fn init_state_verdict(bytes: &[u8]) -> Verdict
    requires { 2 ≤ length bytes.now }
    ensures { result ≡ init_state_verdict bytes.now }
{
    if bytes[0] % 16 == 1 {
        Verdict::Next
    } else {
        Verdict::Again
    }
}

/// The verdict on a slave that is awaited in INIT without an error.
fn clean_init_verdict(bytes: &[u8]) -> Verdict
    requires { 6 ≤ length bytes.now }
    ensures { result ≡ clean_init_verdict bytes.now }
{
    if bytes[0] % 32 == 1 {
        Verdict::Next
    } else {
        Verdict::Again
    }
}

fn init_verdict(bytes: &[u8]) -> Verdict
    requires { 2 ≤ length bytes.now }
    ensures { result ≡ init_verdict bytes.now }
{
    if LittleEndian::read_u16(&bytes[0..2]) == 1 {
        Verdict::Next
    } else {
        Verdict::Again
    }
}

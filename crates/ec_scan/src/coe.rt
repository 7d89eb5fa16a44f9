//! What slaves say by CoE of the PDOs that they exchange (ETG.1000.6, "SDO services", "Object dictionary").
ghost use Rattle.std.specs.Prelude.{◌≡◌, ◌<◌, ◌%◌, IfOk, IfSome, None, true};
ghost use Rattle.ec_coe.specs.declared.value.ValueSize.TheVariants.{Four};
ghost use Rattle.ec_coe.specs.Messages.{message_read};
ghost use Rattle.ec_coe.specs.Objects.{entry_number};
ghost use Rattle.ec_coe.specs.Replies.{free_reply_of};
ghost use Rattle.ec_start.specs.Doable.{IsDoable};
ghost use Rattle.ec_scan.specs.Scanning.{IsOfScan, is_upload};
ghost use Rattle.ec_scan.specs.Showing.{IsUsable, LacksObject};

use crate::error::ScanError;
use crate::line::{Line, MAX_POLLS};
use byteorder::{ByteOrder, LittleEndian};
use ec_al::State;
use ec_coe::{
    AbortCode, INPUT_ASSIGNMENT, OUTPUT_ASSIGNMENT, Reply, SdoValue, ValueSize, is_aside,
    read_free_reply,
};
use ec_device::{Entry, Mailbox, Pdo};
use ec_listed::Listed;
use ec_regs::{AlWord, CONTROL_MAILBOX_IN, CONTROL_MAILBOX_OUT, SyncManagerSettings};
use ec_start::{Action, ManagerRegister, SdoRequest, StartError, Transfer};
use ec_wire::{Pace, Wire};
use std::alloc::Global;

/// The PDOs that a slave exchanges towards it and from it; none of a direction if it has no object that says so.
#[derive(Drop)]
pub(crate) struct Exchanged {
    pub outputs: Option<Listed<Pdo>>,
    pub inputs: Option<Listed<Pdo>>,
}

/// A slave whose mailbox is asked, and how many requests were sent to it.
#[derive(Drop)]
struct Asked {
    slave: usize,
    mailbox: Mailbox,
    before: usize,
}

/// Leads a slave to PREOP and reads which PDOs it exchanges, and their mapping.
pub(crate) fn read_exchanged<W: Wire + Drop, P: Pace + Drop>(
    alloc: Global,
    line: &mut Line<W, P>,
    slave: usize,
    mailbox: Mailbox,
) -> Result<Exchanged, ScanError>
    requires slave { slave < 64 }
    requires usable { IsUsable mailbox }
{
    open_mailbox(line, slave, mailbox)?;
    let mut asked = Asked {
        slave,
        mailbox,
        before: 0,
    };
    let outputs = read_pdos(alloc, line, &mut asked, OUTPUT_ASSIGNMENT)?;
    let inputs = read_pdos(alloc, line, &mut asked, INPUT_ASSIGNMENT)?;
    Ok(Exchanged { outputs, inputs })
}

/// Sets the sync managers of the mailboxes and waits until the slave is in PREOP.
fn open_mailbox<W: Wire + Drop, P: Pace + Drop>(
    line: &mut Line<W, P>,
    slave: usize,
    mailbox: Mailbox,
) -> Result<(), StartError>
    requires slave { slave < 64 }
    requires usable { IsUsable mailbox }
{
    let receive = SyncManagerSettings::of_area(
        mailbox.receive_start,
        mailbox.receive_size,
        CONTROL_MAILBOX_OUT,
    );
    let send = SyncManagerSettings::of_area(
        mailbox.send_start,
        mailbox.send_size,
        CONTROL_MAILBOX_IN,
    );
    line.ask_counted(&set_mailbox(slave, 0, receive), 1)?;
    line.ask_counted(&set_mailbox(slave, 1, send), 1)?;
    let state = State::PreOp;
    line.ask_counted(&Action::AskState { slave, state }, 1)?;
    await_pre_op(line, slave)
}

/// The action that sets the sync manager of a mailbox.
fn set_mailbox(slave: usize, number: usize, settings: SyncManagerSettings) -> Action
    requires slave { slave < 64 }
    requires number { number < 2 }
    ensures doable { IsDoable result }
    ensures of_scan { IsOfScan result }
{
    let register = ManagerRegister {
        number,
        start: settings.start,
    };
    Action::SetManager {
        slave,
        place: number,
        settings,
        register,
    }
}

/// Waits until a slave is in PREOP.
fn await_pre_op<W: Wire + Drop, P: Pace + Drop>(
    line: &mut Line<W, P>,
    slave: usize,
) -> Result<(), StartError>
    requires { slave < 64 }
{
    let state = State::PreOp;
    for _ in 0..MAX_POLLS {
        line.ask_counted(&Action::AwaitState { slave, state }, 1)?;
        let answer = line.answer();
        let status = u16::from(answer[0]);
        if AlWord(status).has_error() {
            let code = LittleEndian::read_u16(&answer[4..6]);
            return Err(StartError::AlError { slave, code });
        }
        if status % 32 == state.number() {
            return Ok(());
        }
    }
    Err(line.too_slow())
}

/// Reads the PDOs that an assignment object has; none if the slave says that it has no such object.
fn read_pdos<W: Wire + Drop, P: Pace + Drop>(
    alloc: Global,
    line: &mut Line<W, P>,
    asked: &mut Asked,
    object: u16,
) -> Result<Option<Listed<Pdo>>, ScanError>
    requires slave { asked.old.slave < 64 }
    requires usable { IsUsable asked.old.mailbox }
    ensures kept { IsUsable asked.new.mailbox }
    ensures same { asked.new.slave ≡ asked.old.slave }
    ensures lacks { IfOk result (λ pdos. pdos ≡ None → LacksObject object line.new) }
{
    let count = match upload(line, asked, object, 0)? {
        Reply::Aborted(code) if code == AbortCode::NoObject.number() => return Ok(None),
        reply => number_in(asked, reply)?,
    };
    let mut pdos = Listed::new(alloc);
    for slot in 1..=low_byte(count) {
        let index = low_word(read_number(line, asked, object, slot)?);
        let entries = read_entries(alloc, line, asked, index)?;
        pdos.push(Pdo { index, entries })?;
    }
    Ok(Some(pdos))
}

/// Reads the mapping of a PDO; none of an empty slot, whose index is 0.
fn read_entries<W: Wire + Drop, P: Pace + Drop>(
    alloc: Global,
    line: &mut Line<W, P>,
    asked: &mut Asked,
    index: u16,
) -> Result<Listed<Entry>, ScanError>
    requires slave { asked.old.slave < 64 }
    requires usable { IsUsable asked.old.mailbox }
    ensures kept { IsUsable asked.new.mailbox }
    ensures same { asked.new.slave ≡ asked.old.slave }
{
    let mut entries = Listed::new(alloc);
    if index == 0 {
        return Ok(entries);
    }
    let count = read_number(line, asked, index, 0)?;
    for slot in 1..=low_byte(count) {
        entries.push(entry_of(read_number(line, asked, index, slot)?))?;
    }
    Ok(entries)
}

/// The entry that a mapping states: the index in the high 16 bits, then the subindex, then the bits. A start-up reads the same number
/// back, so a gap, whose index is 0, keeps its subindex too.
fn entry_of(number: u32) -> Entry
    ensures { entry_number result ≡ number }
{
    Entry {
        index: (number >> 16) as u16,
        subindex: low_byte(number >> 8),
        bits: low_byte(number),
    }
}

fn low_byte(number: u32) -> u8
    ensures { result ≡ number % 256 }
{
    (number & 0xFF) as u8
}

fn low_word(number: u32) -> u16 {
    (number & 0xFFFF) as u16
}

/// Uploads a value that the slave must have.
fn read_number<W: Wire + Drop, P: Pace + Drop>(
    line: &mut Line<W, P>,
    asked: &mut Asked,
    index: u16,
    subindex: u8,
) -> Result<u32, ScanError>
    requires slave { asked.old.slave < 64 }
    requires usable { IsUsable asked.old.mailbox }
    ensures kept { IsUsable asked.new.mailbox }
    ensures same { asked.new.slave ≡ asked.old.slave }
{
    let reply = upload(line, asked, index, subindex)?;
    number_in(asked, reply)
}

/// The number that a reply brings. The error is `Abort` with the code that aborts the upload, and `BadMailbox` of any other reply.
fn number_in(asked: &Asked, reply: Reply) -> Result<u32, ScanError> {
    let slave = asked.slave;
    match reply {
        Reply::Uploaded(value) => Ok(value.number),
        Reply::Aborted(code) => Err(ScanError::Start(StartError::Abort { slave, code })),
        _ => Err(ScanError::Start(StartError::BadMailbox { slave })),
    }
}

/// Asks for a value, and returns the reply.
fn upload<W: Wire + Drop, P: Pace + Drop>(
    line: &mut Line<W, P>,
    asked: &mut Asked,
    index: u16,
    subindex: u8,
) -> Result<Reply, StartError>
    requires slave { asked.old.slave < 64 }
    requires usable { IsUsable asked.old.mailbox }
    ensures kept { IsUsable asked.new.mailbox }
    ensures same { asked.new.slave ≡ asked.old.slave }
    ensures read { IfOk result (λ reply. reply ≡ free_reply_of index subindex Four (message_read line.new.answer)) }
{
    let request = SdoRequest {
        index,
        subindex,
        // what comes is taken, whatever it is
        transfer: Transfer::Upload(SdoValue::long(0)),
    };
    send_request(line, asked, request)?;
    await_reply(line, asked, request)
}

/// Sends a request, and counts it.
fn send_request<W: Wire + Drop, P: Pace + Drop>(
    line: &mut Line<W, P>,
    asked: &mut Asked,
    request: SdoRequest,
) -> Result<(), StartError>
    requires slave { asked.old.slave < 64 }
    requires usable { IsUsable asked.old.mailbox }
    requires upload { is_upload request.transfer ≡ true }
    ensures kept { IsUsable asked.new.mailbox }
    ensures same { asked.new.slave ≡ asked.old.slave }
{
    let Asked {
        slave,
        mailbox,
        before,
    } = *asked;
    let sending = Action::SendRequest {
        slave,
        before,
        mailbox,
        request,
    };
    line.ask_counted(&sending, 1)?;
    asked.before = before % 7 + 1;
    Ok(())
}

/// Waits for the reply to a request. Messages that are no CoE, such as those of another protocol, and emergencies are set aside.
fn await_reply<W: Wire + Drop, P: Pace + Drop>(
    line: &mut Line<W, P>,
    asked: &Asked,
    request: SdoRequest,
) -> Result<Reply, StartError>
    requires slave { asked.now.slave < 64 }
    requires usable { IsUsable asked.now.mailbox }
    ensures { IfOk result (λ reply. reply ≡ free_reply_of request.index request.subindex Four (message_read line.new.answer)) }
{
    let waiting = Action::AwaitReply {
        slave: asked.slave,
        mailbox: asked.mailbox,
        request,
    };
    for _ in 0..MAX_POLLS {
        // a counter of 0 says that the mailbox is empty
        if line.ask(&waiting)? == 1 {
            if let Some(reply) = reply_in(line.answer(), request.index, request.subindex) {
                return Ok(reply);
            }
        }
    }
    Err(line.too_slow())
}

/// The reply in a mailbox; none if its message is set aside. A value whose size isn't said has four bytes.
fn reply_in(mailbox: &[u8], index: u16, subindex: u8) -> Option<Reply>
    ensures { IfSome result (λ reply. reply ≡ free_reply_of index subindex Four (message_read mailbox.now)) }
{
    if is_aside(mailbox) {
        return None;
    }
    Some(read_free_reply(mailbox, index, subindex, ValueSize::Four))
}

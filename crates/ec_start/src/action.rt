//! The actions of a start-up, and the datagram of each.

ghost use Rattle.std.specs.Prelude.{◌≡◌, ◌<◌, ◌≤◌, ◌-◌, ◌%◌, ◌/◌, false, length};
ghost use Rattle.ec_bits.specs.Bits.{zeros};
ghost use Rattle.ec_start.specs.Actions.{access_number, station, slave_of_action, word_address_of, request_message, datagram_of};
ghost use Rattle.ec_start.specs.Scripts.{parameter_value, downloads, uploads};
ghost use Rattle.ec_start.specs.Doable.{IsDoable, is_feed};

use ec_al::State;
use ec_coe::{Message, SdoCommand, SdoValue, Service, ValueSize, write_message};
use ec_device::{Mailbox, Parameter};
use ec_frame::{Command, address_of};
use ec_regs::registers::{
    AL_CONTROL, AL_STATUS, AL_STATUS_CODE, FMMU_SIZE, FMMUS, FMMUS_END, MANAGER_SIZE, SII_ADDRESS,
    SII_CONFIGURATION, SII_CONTROL, SII_DATA, STATION_ADDRESS, SYNC_MANAGERS, SYNC_MANAGERS_END,
    fmmu_address, manager_address,
};
use ec_regs::{AlWord, FmmuSettings, SiiControl, SyncManagerSettings, encode_fmmu, encode_manager};

/// The most bytes of data that an action has: those of a part of the process data.
pub const MAX_DATA: usize = 1422;

/// How many FMMUs, and how many sync managers, a controller can have.
const MAX_REGISTERS: usize = 16;

/// The station address of slave 0; slave i gets this plus i.
const FIRST_STATION: u16 = 0x1001;

/// The length of one word in bytes: AL control, AL status, or a station address.
const WORD: usize = 2;
/// The length in bytes from the AL status to the end of its code.
const STATE_WITH_CODE: usize = AL_STATUS_CODE + WORD - AL_STATUS;
/// The read command in the SII's control word.
const SII_READ: u8 = 1;
/// The offset of the SII's word address from the SII's control word, in bytes.
const WORD_ADDRESS: usize = SII_ADDRESS - SII_CONTROL;
/// The length in bytes of the SII's control word and word address: an order to read.
const SII_ORDER: usize = SII_DATA - SII_CONTROL;
/// The length in bytes from the SII's control word to the end of the two words that were read.
const SII_ANSWER: usize = SII_ORDER + 2 * WORD;
/// The SII word of the vendor; product and revision follow, two words each.
const VENDOR_WORD: u32 = 0x08;

/// What an SDO request transfers.
#[derive(Clone, Copy)]
pub enum Transfer {
    /// A download of this value.
    Download(SdoValue),
    /// An upload, which must bring back this value.
    Upload(SdoValue),
}

/// An SDO request of the start-up to one slave.
#[derive(Clone, Copy)]
pub struct SdoRequest {
    /// The index of the object.
    pub index: u16,
    /// The subindex.
    pub subindex: u8,
    /// Whether it is a download or an upload, and of which value.
    pub transfer: Transfer,
}

/// Who has the SII, as its configuration register says (ETG.1000.4, "SII configuration").
#[derive(Clone, Copy, Debug, PartialEq, Eq)]
pub enum SiiAccess {
    /// The master.
    Master,
    /// The device.
    Device,
    /// The master, also against the device's will, until `Master` is written.
    Forced,
}

/// The register of a sync manager, as a device has it. Without `hardware` number and start are those of the plan.
#[derive(Clone, Copy, Debug, PartialEq, Eq)]
pub struct ManagerRegister {
    /// The number of the sync manager, 0 to 3.
    pub number: usize,
    /// The address of its first byte.
    pub start: u16,
}

/// A datagram of zeros over a part of the process data: the slaves of the part get outputs.
#[derive(Clone, Copy, Debug, PartialEq, Eq)]
pub struct Feed {
    /// The logical address of the part's first byte.
    pub address: u32,
    /// How many bytes the part has, at most 1422.
    pub bytes: usize,
    /// Whether it is an LWR, since the part is split; else it is an LRW.
    pub split: bool,
    /// The working counter with which it comes back.
    pub counter: usize,
}

/// One action of a start-up: an init command, or a wait with all its polls. Slaves are counted from 0 in the order of the
/// table.
#[derive(Clone, Copy)]
pub enum Action {
    /// Counts the slaves.
    CountSlaves,
    /// Asks all slaves for INIT, and acknowledges their errors.
    AskInit,
    /// Waits until all are in INIT without error.
    AwaitInit,
    /// Clears the FMMUs of all slaves.
    ClearFmmus,
    /// Clears the sync managers of all slaves.
    ClearManagers,
    /// Takes the station addresses of all slaves away.
    ClearStations,
    /// Gives a slave its station address.
    NameSlave {
        slave: usize,
    },
    /// Commands an SII read of the two words at 0x08 + 2 * `which`: 0 is the vendor, 1 the product, 2 the revision.
    AskWord {
        slave: usize,
        which: usize,
    },
    /// Waits for the words that the SII reads.
    AwaitWord {
        slave: usize,
        which: usize,
    },
    /// Sets the sync manager of a role: the mailboxes are 0 and 1, the outputs 2, the inputs 3. `settings` are those of the plan.
    SetManager {
        slave: usize,
        place: usize,
        settings: SyncManagerSettings,
        register: ManagerRegister,
    },
    /// Sets an FMMU. `settings` are those of the plan; its register has `start` as the physical start.
    SetFmmu {
        slave: usize,
        number: usize,
        settings: FmmuSettings,
        start: u16,
    },
    /// Asks a slave for a state.
    AskState {
        slave: usize,
        state: State,
    },
    /// Waits until the slave is in the state.
    AwaitState {
        slave: usize,
        state: State,
    },
    /// Writes a request into a slave's mailbox; `before` is how many were sent to it before.
    SendRequest {
        slave: usize,
        before: usize,
        mailbox: Mailbox,
        request: SdoRequest,
    },
    /// Waits for the reply.
    AwaitReply {
        slave: usize,
        mailbox: Mailbox,
        request: SdoRequest,
    },
    /// With `hardware`: waits for the reply. Emergencies and messages of other protocols are set aside.
    AwaitFreeReply {
        slave: usize,
        mailbox: Mailbox,
        request: SdoRequest,
    },
    /// With `hardware`: waits until all are in INIT, with an error or without. A device without firmware copies the
    /// acknowledgement into its AL status, where it looks like an error.
    AwaitInitState,
    /// With `hardware`: clears all FMMUs that a controller can have, of all slaves.
    ClearAllFmmus,
    /// With `hardware`: clears all sync managers that a controller can have, of all slaves.
    ClearAllManagers,
    /// With `hardware`: gives the SII of all slaves to the master or to the devices.
    AssignSii(SiiAccess),
    /// With `hardware`: clears the error of a former SII command, of all slaves.
    ClearSiiError,
    /// With `hardware`: waits until a slave with firmware is in INIT without an error.
    AwaitCleanInit {
        slave: usize,
    },
    /// With `hardware`: feeds a part of the process data with zeros. It belongs to the step that asks for OP or looks for it.
    FeedPart(Feed),
}

impl SiiAccess {
    /// The byte of the configuration register.
    fn number(self) -> u8
        ensures { result ≡ access_number self }
    {
        match self {
            SiiAccess::Master => 0,
            SiiAccess::Device => 1,
            SiiAccess::Forced => 2,
        }
    }
}

impl SdoRequest {
    /// A download of a value.
    pub(crate) fn download(index: u16, subindex: u8, value: SdoValue) -> Self
        ensures { result ≡ downloads index subindex value }
    {
        SdoRequest {
            index,
            subindex,
            transfer: Transfer::Download(value),
        }
    }

    /// The download of a parameter.
    pub(crate) fn of_parameter(parameter: &Parameter) -> Self
        ensures { result ≡ downloads parameter.now.index parameter.now.subindex (parameter_value parameter.now) }
    {
        let value = SdoValue {
            size: ValueSize::of(parameter.size),
            number: parameter.value,
        };
        SdoRequest::download(parameter.index, parameter.subindex, value)
    }

    /// An upload that must bring a value back.
    pub(crate) fn upload(index: u16, subindex: u8, value: SdoValue) -> Self
        ensures { result ≡ uploads index subindex value }
    {
        SdoRequest {
            index,
            subindex,
            transfer: Transfer::Upload(value),
        }
    }

    /// The mailbox message of the request; `before` is how many were sent to the slave before it.
    fn message(&self, before: usize) -> Message
        ensures { result ≡ request_message before self.now }
    {
        let (command, value) = match self.transfer {
            Transfer::Download(value) => (SdoCommand::DownloadRequest(value.size), value.number),
            Transfer::Upload(_) => (SdoCommand::UploadRequest, 0),
        };
        Message {
            counter: (before % 7) as u8 + 1,
            service: Service::Request,
            command,
            index: self.index,
            subindex: self.subindex,
            value,
        }
    }
}

impl Action {
    /// The slave that it is for; none if it is for all slaves.
    pub fn slave(&self) -> Option<usize>
        ensures { result ≡ slave_of_action self.now }
    {
        match *self {
            Action::NameSlave { slave }
            | Action::AskWord { slave, .. }
            | Action::AwaitWord { slave, .. }
            | Action::SetManager { slave, .. }
            | Action::SetFmmu { slave, .. }
            | Action::AskState { slave, .. }
            | Action::AwaitState { slave, .. }
            | Action::SendRequest { slave, .. }
            | Action::AwaitReply { slave, .. }
            | Action::AwaitFreeReply { slave, .. }
            | Action::AwaitCleanInit { slave } => Some(slave),
            _ => None,
        }
    }

    /// The command of the action's datagram.
    pub fn command(&self) -> Command
        ensures { result ≡ (datagram_of self.now 0).command }
    {
        match self {
            Action::CountSlaves | Action::AwaitInit | Action::AwaitInitState => Command::Brd,
            Action::AskInit
            | Action::ClearFmmus
            | Action::ClearManagers
            | Action::ClearStations
            | Action::ClearAllFmmus
            | Action::ClearAllManagers
            | Action::AssignSii(_)
            | Action::ClearSiiError => Command::Bwr,
            Action::NameSlave { .. } => Command::Apwr,
            Action::AwaitWord { .. }
            | Action::AwaitState { .. }
            | Action::AwaitReply { .. }
            | Action::AwaitFreeReply { .. }
            | Action::AwaitCleanInit { .. } => Command::Fprd,
            Action::AskWord { .. }
            | Action::SetManager { .. }
            | Action::SetFmmu { .. }
            | Action::AskState { .. }
            | Action::SendRequest { .. } => Command::Fpwr,
            Action::FeedPart(feed) if feed.split => Command::Lwr,
            Action::FeedPart(_) => Command::Lrw,
        }
    }

    /// The address of the action's datagram: of a part its logical address, else the ADP in the low 16 bits and the ADO in the high
    /// 16 bits.
    pub fn address(&self) -> u32
        requires { IsDoable self.now }
        ensures { result ≡ (datagram_of self.now 0).address }
    {
        match *self {
            Action::FeedPart(feed) => feed.address,
            _ => address_of(self.adp(), self.ado()),
        }
    }

    /// The length in bytes of the data of the action's datagram, at most 1422.
    pub fn data_length(&self) -> usize
        requires { IsDoable self.now }
        ensures value { result ≡ length (datagram_of self.now 0).data_bytes }
        ensures few { result ≤ 1422 }
    {
        match *self {
            Action::CountSlaves
            | Action::AskInit
            | Action::AwaitInit
            | Action::ClearStations
            | Action::NameSlave { .. }
            | Action::AskState { .. }
            | Action::AwaitInitState
            | Action::ClearSiiError => WORD,
            Action::AssignSii(_) => 1,
            Action::ClearAllFmmus => MAX_REGISTERS * FMMU_SIZE,
            Action::ClearAllManagers => MAX_REGISTERS * MANAGER_SIZE,
            Action::FeedPart(feed) => feed.bytes,
            Action::ClearFmmus => FMMUS_END - FMMUS,
            Action::ClearManagers => SYNC_MANAGERS_END - SYNC_MANAGERS,
            Action::AskWord { .. } => SII_ORDER,
            Action::AwaitWord { .. } => SII_ANSWER,
            Action::AwaitState { .. } | Action::AwaitCleanInit { .. } => STATE_WITH_CODE,
            Action::SetManager { .. } => MANAGER_SIZE,
            Action::SetFmmu { .. } => FMMU_SIZE,
            Action::SendRequest { mailbox, .. } => mailbox.receive_size as usize,
            Action::AwaitReply { mailbox, .. } | Action::AwaitFreeReply { mailbox, .. } => {
                mailbox.send_size as usize
            }
        }
    }

    /// Writes the data of the action's datagram into `bytes`, which must be as many zeros.
    pub(crate) fn write_data(&self, bytes: &mut [u8])
        requires doable { IsDoable self.now }
        requires zeroed { bytes.old ≡ zeros (length (datagram_of self.now 0).data_bytes) }
        ensures { bytes.new ≡ (datagram_of self.now 0).data_bytes }
    {
        match self {
            Action::AskInit => {
                let word = AlWord::new(State::Init.number() as u8, true);
                bytes.copy_from_slice(&word.0.to_le_bytes());
            }
            Action::NameSlave { slave } => {
                bytes.copy_from_slice(&station(*slave).to_le_bytes());
            }
            Action::AskWord { which, .. } => {
                bytes[..WORD_ADDRESS].copy_from_slice(
                    &SiiControl::new(SII_READ, false, false).0.to_le_bytes(),
                );
                bytes[WORD_ADDRESS..].copy_from_slice(&word_address_of(*which).to_le_bytes());
            }
            Action::SetManager {
                settings,
                register,
                ..
            } => {
                let mut shown = *settings;
                shown.start = register.start;
                bytes.copy_from_slice(&encode_manager(&shown));
            }
            Action::SetFmmu {
                settings,
                start,
                ..
            } => {
                let mut shown = *settings;
                shown.physical_start = *start;
                bytes.copy_from_slice(&encode_fmmu(&shown));
            }
            Action::AssignSii(access) => bytes[0] = access.number(),
            Action::AskState { state, .. } => bytes[0] = state.number() as u8,
            Action::SendRequest {
                before,
                request,
                ..
            } => {
                let _ = write_message(&request.message(*before), bytes);
            }
            _ => {}
        }
    }

    /// The ADO of the action's datagram; 0 if it is over a part.
    fn ado(&self) -> u16
        requires { IsDoable self.now }
        ensures { is_feed self.now ≡ false → result ≡ (datagram_of self.now 0).address / 65536 }
    {
        match *self {
            Action::CountSlaves
            | Action::AwaitInit
            | Action::AwaitState { .. }
            | Action::AwaitInitState
            | Action::AwaitCleanInit { .. } => AL_STATUS as u16,
            Action::AskInit | Action::AskState { .. } => AL_CONTROL as u16,
            Action::ClearFmmus | Action::ClearAllFmmus => FMMUS as u16,
            Action::ClearManagers | Action::ClearAllManagers => SYNC_MANAGERS as u16,
            Action::AssignSii(_) => SII_CONFIGURATION as u16,
            Action::FeedPart(_) => 0,
            Action::ClearStations | Action::NameSlave { .. } => STATION_ADDRESS as u16,
            Action::AskWord { .. } | Action::AwaitWord { .. } | Action::ClearSiiError => {
                SII_CONTROL as u16
            }
            Action::SetManager { register, .. } => manager_address(register.number) as u16,
            Action::SetFmmu { number, .. } => fmmu_address(number) as u16,
            Action::SendRequest { mailbox, .. } => mailbox.receive_start,
            Action::AwaitReply { mailbox, .. } | Action::AwaitFreeReply { mailbox, .. } => {
                mailbox.send_start
            }
        }
    }

    /// The ADP of the action's datagram; 0 if it is over a part.
    fn adp(&self) -> u16
        requires { IsDoable self.now }
        ensures { is_feed self.now ≡ false → result ≡ (datagram_of self.now 0).address % 65536 }
    {
        match *self {
            Action::NameSlave { slave } => position(slave),
            Action::AskWord { slave, .. }
            | Action::AwaitWord { slave, .. }
            | Action::SetManager { slave, .. }
            | Action::SetFmmu { slave, .. }
            | Action::AskState { slave, .. }
            | Action::AwaitState { slave, .. }
            | Action::SendRequest { slave, .. }
            | Action::AwaitReply { slave, .. }
            | Action::AwaitFreeReply { slave, .. }
            | Action::AwaitCleanInit { slave } => station(slave),
            _ => 0,
        }
    }
}

/// The ADP of an auto increment datagram for a slave: each slave before it adds 1, so that it sees 0.
fn position(slave: usize) -> u16
    requires { slave ≤ 64 }
    ensures { result ≡ (65536 - slave) % 65536 }
{
    (0 as u16).wrapping_sub(slave as u16)
}

/// The address of SII words: 0 is the vendor, 1 the product, 2 the revision.
fn word_address_of(which: usize) -> u32
    requires { which < 0x8000 }
    ensures { result ≡ word_address_of which }
{
    VENDOR_WORD + 2 * which as u32
}

/// The station address of a slave.
fn station(slave: usize) -> u16
    requires { slave ≤ 64 }
    ensures { result ≡ station slave }
{
    FIRST_STATION + slave as u16
}

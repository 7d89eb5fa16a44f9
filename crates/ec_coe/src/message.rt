//! Mailbox messages with an expedited SDO, and their bytes (ETG.1000.4, "Mailbox structure"; ETG.1000.6, "CoE header" and
//! "SDO services").

ghost use Rattle.std.specs.Prelude.{◌≡◌, ◌-◌, ◌<◌, ◌≤◌, ◌++◌, length, MatchResult, Some, None};
ghost use Rattle.ec_bits.specs.Bits.{zeros};
ghost use Rattle.ec_coe.specs.Messages.{service_number, service_of, command_number, command_of, message_bytes, message_read, message_length, IsMessage};

use crate::value::ValueSize;
use byteorder::{ByteOrder, LittleEndian};

/// How many bytes a message has; the rest of a mailbox is zeros.
pub const MESSAGE_LENGTH: usize = 16;

/// What the mailbox header says of the length: the bytes that follow it.
pub(crate) const BYTES_AFTER_HEADER: u16 = 10;

/// The command byte of the response to an upload by a normal transfer: the data say how many bytes follow the message
/// (ETG.1000.6, "Upload SDO normal response"). It stands in a message as `SdoCommand::Other`.
pub const NORMAL_UPLOAD: u8 = 0x41;

/// The mailbox type of CoE.
pub(crate) const COE: u8 = 3;

/// In the mailbox header: how many bytes follow it, two bytes.
const LENGTH: usize = 0;
/// The address of the station that a message is for, two bytes; the channel and the priority stand behind it.
const STATION: usize = 2;
/// The type in the low four bits, and the counter in the three above them.
const TYPE: usize = 5;
/// In the CoE header: the service in the high four bits of its second byte.
const SERVICE: usize = 7;
/// In the SDO: the command byte.
const COMMAND: usize = 8;
/// The index of the object, two bytes.
const INDEX: usize = 9;
/// The subindex.
const SUBINDEX: usize = 11;
/// The value or the abort code, four bytes.
const DATA: usize = 12;

/// What the CoE header says of a message.
#[derive(Clone, Copy, Debug, PartialEq, Eq)]
pub enum Service {
    /// An SDO request, number 2. A slave's abort has it too.
    Request,
    /// An SDO response, number 3.
    Response,
    /// Another number, below 16.
    Other(u8),
}

/// What the command byte of an expedited SDO says.
#[derive(Clone, Copy, Debug, PartialEq, Eq)]
pub enum SdoCommand {
    /// A download of a value of this size, which the data are: 0x2F, 0x2B, 0x27, 0x23.
    DownloadRequest(ValueSize),
    /// A download was done, 0x60.
    DownloadResponse,
    /// A request for a value, 0x40.
    UploadRequest,
    /// A value of this size, which the data are: 0x4F, 0x4B, 0x47, 0x43.
    UploadResponse(ValueSize),
    /// A transfer was aborted, 0x80: the data are the abort code.
    Abort,
    /// Another number.
    Other(u8),
}

/// A mailbox message with an expedited SDO.
#[derive(Clone, Copy, Debug, PartialEq, Eq)]
pub struct Message {
    /// The counter of the mailbox header, below 8.
    pub counter: u8,
    /// The service of the CoE header.
    pub service: Service,
    /// The command.
    pub command: SdoCommand,
    /// The object's index.
    pub index: u16,
    /// The subindex.
    pub subindex: u8,
    /// The four data bytes, as a little-endian number.
    pub value: u32,
}

/// Bytes that are no message, or too few for one: the refusal 9.
#[derive(Clone, Copy, Debug, PartialEq, Eq, Drop)]
pub struct BadMailbox;

impl BadMailbox {
    /// The number of the refusal, as the program prints it.
    pub fn number(self) -> u8
        ensures { result ≡ 9 }
    {
        9
    }
}

impl Service {
    /// The service with a number.
    pub fn of(number: u8) -> Self
        ensures { result ≡ service_of number }
    {
        match number {
            2 => Service::Request,
            3 => Service::Response,
            _ => Service::Other(number),
        }
    }

    /// Its number.
    pub fn number(self) -> u8
        ensures { result ≡ service_number self }
    {
        match self {
            Service::Request => 2,
            Service::Response => 3,
            Service::Other(number) => number,
        }
    }
}

impl SdoCommand {
    /// The command with a number.
    pub fn of(number: u8) -> Self
        ensures { result ≡ command_of number }
    {
        match number {
            0x2F => SdoCommand::DownloadRequest(ValueSize::One),
            0x2B => SdoCommand::DownloadRequest(ValueSize::Two),
            0x27 => SdoCommand::DownloadRequest(ValueSize::Three),
            0x23 => SdoCommand::DownloadRequest(ValueSize::Four),
            0x60 => SdoCommand::DownloadResponse,
            0x40 => SdoCommand::UploadRequest,
            0x4F => SdoCommand::UploadResponse(ValueSize::One),
            0x4B => SdoCommand::UploadResponse(ValueSize::Two),
            0x47 => SdoCommand::UploadResponse(ValueSize::Three),
            0x43 => SdoCommand::UploadResponse(ValueSize::Four),
            0x80 => SdoCommand::Abort,
            _ => SdoCommand::Other(number),
        }
    }

    /// Its number.
    pub fn number(self) -> u8
        ensures { result ≡ command_number self }
    {
        match self {
            SdoCommand::DownloadRequest(ValueSize::One) => 0x2F,
            SdoCommand::DownloadRequest(ValueSize::Two) => 0x2B,
            SdoCommand::DownloadRequest(ValueSize::Three) => 0x27,
            SdoCommand::DownloadRequest(ValueSize::Four) => 0x23,
            SdoCommand::DownloadResponse => 0x60,
            SdoCommand::UploadRequest => 0x40,
            SdoCommand::UploadResponse(ValueSize::One) => 0x4F,
            SdoCommand::UploadResponse(ValueSize::Two) => 0x4B,
            SdoCommand::UploadResponse(ValueSize::Three) => 0x47,
            SdoCommand::UploadResponse(ValueSize::Four) => 0x43,
            SdoCommand::Abort => 0x80,
            SdoCommand::Other(number) => number,
        }
    }
}

impl Message {
    /// Its 16 bytes.
    ///
    /// The message must be one that bytes can spell: its counter is below 8, its service below 16, and a
    /// service or a command that has a name stands by it. So a counter of 8, `Service::Other(16)`, `Service::Other(2)` and
    /// `SdoCommand::Other(0x40)` are no message, though the type has them. What `Dictionary::answer` returns is one.
    #[tactic(auto, unfolding(crate::specs::Messages::message_bytes))]
    pub fn bytes(&self) -> [u8; 16]
        requires { IsMessage self.now }
        ensures { result ≡ message_bytes self.now }
    {
        let [index_low, index_high] = self.index.to_le_bytes();
        let [first, second, third, fourth] = self.value.to_le_bytes();
        [
            BYTES_AFTER_HEADER as u8,
            0,
            0,
            0,
            0,
            COE + 16 * self.counter,
            0,
            16 * self.service.number(),
            self.command.number(),
            index_low,
            index_high,
            self.subindex,
            first,
            second,
            third,
            fourth,
        ]
    }
}

/// The message at the front of a mailbox; what follows it isn't read.
///
/// # Errors
///
/// `BadMailbox` exactly for fewer than 16 bytes, a length that isn't 10 or a type that isn't 3.
#[tactic(auto, unfolding(crate::specs::Messages::message_read))]
pub fn read_message(mailbox: &[u8]) -> Result<Message, BadMailbox>
    ensures { MatchResult result (λ m. message_read mailbox.now ≡ Some m) (λ _. message_read mailbox.now ≡ None) }
{
    if mailbox.len() < MESSAGE_LENGTH
        || LittleEndian::read_u16(&mailbox[LENGTH..STATION]) != BYTES_AFTER_HEADER
        || mailbox[TYPE] % 16 != COE
    {
        return Err(BadMailbox);
    }
    Ok(Message {
        counter: mailbox[TYPE] / 16 % 8,
        service: Service::of(mailbox[SERVICE] / 16),
        command: SdoCommand::of(mailbox[COMMAND]),
        index: LittleEndian::read_u16(&mailbox[INDEX..SUBINDEX]),
        subindex: mailbox[SUBINDEX],
        value: LittleEndian::read_u32(&mailbox[DATA..MESSAGE_LENGTH]),
    })
}

/// Writes a message to the front of a mailbox, and zeros behind it. The message must be one that bytes can
/// spell, as `Message::bytes` says.
///
/// # Errors
///
/// `BadMailbox` exactly for fewer than 16 bytes, which stay as they were.
pub fn write_message(message: &Message, mailbox: &mut [u8]) -> Result<(), BadMailbox>
    requires { IsMessage message.now }
    ensures { MatchResult result
        (λ _. mailbox.new ≡ message_bytes message.now ++ zeros (length mailbox.old - message_length))
        (λ _. (length mailbox.old < message_length) × (mailbox.new ≡ mailbox.old)) }
{
    test_room(mailbox)?;
    mailbox.fill(0);
    mailbox[..MESSAGE_LENGTH].copy_from_slice(&message.bytes());
    Ok(())
}

/// Refuses a mailbox that is too short for a message.
fn test_room(mailbox: &[u8]) -> Result<(), BadMailbox>
    ensures { MatchResult result (λ _. message_length ≤ length mailbox.now) (λ _. length mailbox.now < message_length) }
{
    if mailbox.len() < MESSAGE_LENGTH {
        return Err(BadMailbox);
    }
    Ok(())
}

//! Reads the reply to a request out of a mailbox.

ghost use Rattle.std.specs.Prelude.{◌≡◌};
ghost use Rattle.ec_coe.specs.Messages.{message_read};
ghost use Rattle.ec_coe.specs.Replies.{reply_in, reply_of, is_aside as is_aside_message, is_unsized as is_unsized_number, sized_command, sized_message, free_reply_of};

use crate::bytes::byte_at;
use crate::message::{COE, Message, SdoCommand, Service, read_message};
use crate::value::{SdoValue, ValueSize};

/// The number of an SDO request in the CoE header.
pub(crate) const SDO_REQUEST: u8 = 2;

/// The number of an SDO response there.
const SDO_RESPONSE: u8 = 3;

/// What a mailbox says as the reply to a request (ETG.1000.6, "SDO services").
#[derive(Clone, Copy, Debug, PartialEq, Eq)]
pub enum Reply {
    /// The download was done, whatever the data of the reply are.
    Downloaded,
    /// The value that the reply has, of the size that it says.
    Uploaded(SdoValue),
    /// The transfer was aborted, with this code.
    Aborted(u32),
    /// Anything else: no message, another index or subindex, another service or command.
    Unexpected,
}

impl Message {
    /// What the message says as the reply to a request for an index and a subindex: an abort has the service of a request or
    /// of a response, all else that of a response. The counter may be any.
    #[tactic(auto, unfolding(crate::specs::Replies::reply_in))]
    pub fn reply_to(&self, index: u16, subindex: u8) -> Reply
        ensures { result ≡ reply_in index subindex self.now }
    {
        if self.index != index || self.subindex != subindex {
            return Reply::Unexpected;
        }
        match (self.service, self.command) {
            (Service::Request | Service::Response, SdoCommand::Abort) => Reply::Aborted(self.value),
            (Service::Response, SdoCommand::DownloadResponse) => Reply::Downloaded,
            (Service::Response, SdoCommand::UploadResponse(size)) => {
                Reply::Uploaded(SdoValue::of(size, self.value))
            }
            _ => Reply::Unexpected,
        }
    }
}

/// What the bytes of a mailbox say as the reply to a request for an index and a subindex.
pub fn read_reply(mailbox: &[u8], index: u16, subindex: u8) -> Reply
    ensures { result ≡ reply_of index subindex (message_read mailbox.now) }
{
    match read_message(mailbox) {
        Ok(message) => message.reply_to(index, subindex),
        Err(_) => Reply::Unexpected,
    }
}

/// Whether the message in a mailbox is set aside, as no request asked for it: one of another protocol than CoE, or of a CoE service
/// that is neither an SDO request nor an SDO response, as an emergency (ETG.1000.4, "Mailbox structure"; ETG.1000.6, "CoE header").
pub fn is_aside(mailbox: &[u8]) -> bool
    ensures { result ≡ is_aside_message mailbox.now }
{
    if byte_at(mailbox, 5) % 16 != COE {
        return true;
    }
    let service = byte_at(mailbox, 7) / 16;
    !(service == SDO_REQUEST || service == SDO_RESPONSE)
}

/// What the bytes of a mailbox say as the reply to a request for an index and a subindex, of a device that may leave out the size of
/// a value. Such a value has the size that is wanted.
pub fn read_free_reply(mailbox: &[u8], index: u16, subindex: u8, wanted: ValueSize) -> Reply
    ensures { result ≡ free_reply_of index subindex wanted (message_read mailbox.now) }
{
    match read_message(mailbox) {
        Ok(message) => message.sized(wanted).reply_to(index, subindex),
        Err(_) => Reply::Unexpected,
    }
}

impl Message {
    /// The message with the size that is wanted, if its command leaves out the size of a value.
    fn sized(self, wanted: ValueSize) -> Message
        ensures { result ≡ sized_message wanted self }
    {
        Message {
            command: self.command.sized(wanted),
            ..self
        }
    }
}

impl SdoCommand {
    /// The command with the size that is wanted, if it leaves out the size of a value.
    fn sized(self, wanted: ValueSize) -> SdoCommand
        ensures { result ≡ sized_command wanted self }
    {
        match self {
            SdoCommand::Other(number) if is_unsized(number) => SdoCommand::UploadResponse(wanted),
            command => command,
        }
    }
}

/// Whether a command is that of an expedited upload response without the bit that says the size.
fn is_unsized(number: u8) -> bool
    ensures { result ≡ is_unsized_number number }
{
    number / 32 == 2 && number % 4 == 2
}

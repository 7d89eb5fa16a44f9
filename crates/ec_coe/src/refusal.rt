//! The replies of a full slave to messages that are no SDO request that it takes.

ghost use Rattle.std.specs.Prelude.{◌≡◌, ◌<◌};
ghost use Rattle.ec_coe.specs.Messages.{message_bytes};
ghost use Rattle.ec_coe.specs.Refusals.{detail_number, error_reply as error_reply_of, information_error as information_error_of, transfer_abort as transfer_abort_of, refusal_bytes};

use crate::abort_code::AbortCode;
use crate::bytes::{byte_at, gathered, word_at};
use crate::message::{BYTES_AFTER_HEADER, COE, Message, SdoCommand, Service};
use crate::reply::SDO_REQUEST;
use arrayvec::ArrayVec;

/// The bytes of a refusal: those of a mailbox error, or as many as a message has.
pub type RefusalBytes = ArrayVec<u8, 16>;

/// The number of SDO information in the CoE header.
const SDO_INFORMATION: u8 = 8;

/// What a mailbox error says of the message that it answers (ETG.1000.4, "Mailbox error").
#[derive(Clone, Copy, Debug, PartialEq, Eq, Drop)]
pub enum MailboxError {
    /// The slave doesn't speak the protocol.
    UnsupportedProtocol,
    /// The protocol has no such service in this slave.
    UnsupportedService,
    /// The message is too short for what it is.
    TooShort,
}

impl MailboxError {
    /// The number of the detail.
    pub fn number(self) -> u8
        ensures { result ≡ detail_number self }
    {
        match self {
            MailboxError::UnsupportedProtocol => 0x02,
            MailboxError::UnsupportedService => 0x04,
            MailboxError::TooShort => 0x06,
        }
    }
}

/// The reply of a full slave, with this counter, to bytes of the mailbox that are no SDO request by an expedited transfer. It is
/// a mailbox error if the protocol isn't CoE, the service is another than SDO requests and SDO information, or an SDO request
/// is too short. It is an SDO information error to SDO information, and an abort to a request for a longer transfer
/// (ETG.1000.4, "Mailbox error"; ETG.1000.6, "SDO information error" and "Abort SDO transfer"). Bytes
/// past the end read 0.
#[tactic(auto, unfolding(crate::specs::Refusals::refusal_bytes))]
pub fn refuse(raw: &[u8], counter: u8) -> RefusalBytes
    requires { counter < 8 }
    ensures { result.items ≡ refusal_bytes raw.now counter }
{
    if byte_at(raw, 5) % 16 != COE {
        return error_reply(MailboxError::UnsupportedProtocol, counter);
    }
    match byte_at(raw, 7) / 16 {
        SDO_INFORMATION => information_error(counter),
        SDO_REQUEST if word_at(raw, 0) > BYTES_AFTER_HEADER => transfer_abort(raw, counter),
        SDO_REQUEST => error_reply(MailboxError::TooShort, counter),
        _ => error_reply(MailboxError::UnsupportedService, counter),
    }
}

/// An abort of the transfer that a request wants.
fn transfer_abort(raw: &[u8], counter: u8) -> RefusalBytes
    requires { counter < 8 }
    ensures { result.items ≡ message_bytes (transfer_abort_of raw.now counter) }
{
    let abort = Message {
        counter,
        service: Service::Request,
        command: SdoCommand::Abort,
        index: word_at(raw, 9),
        subindex: byte_at(raw, 11),
        value: AbortCode::InvalidCommand.number(),
    };
    gathered(&abort.bytes())
}

/// An SDO information error: the access to an object isn't supported.
fn information_error(counter: u8) -> RefusalBytes
    requires { counter < 8 }
    ensures { result.items ≡ information_error_of counter }
{
    gathered(&[
        BYTES_AFTER_HEADER as u8,
        0,
        0,
        0,
        0,
        COE + 16 * counter,
        0,
        16 * SDO_INFORMATION,
        7,
        0,
        0,
        0,
        0x00,
        0x00,
        0x01,
        0x06,
    ])
}

/// A mailbox error reply.
fn error_reply(error: MailboxError, counter: u8) -> RefusalBytes
    requires { counter < 8 }
    ensures { result.items ≡ error_reply_of error counter }
{
    gathered(&[4, 0, 0, 0, 0, 16 * counter, 1, 0, error.number(), 0])
}

//! CANopen over EtherCAT (CoE) as simulated slaves and their master speak it (ETG.1000.6): mailbox messages with expedited
//! SDOs, a slave's object dictionary with its PDO assignments and its parameters, the name that a full slave sends by a normal
//! transfer, its refusals in place of silence, the emergency that a slave may send, and what a reply says.
#![tactic(auto)]

mod abort_code;
mod abort_text;
mod assignment;
mod bytes;
mod dictionary;
mod emergency;
mod face;
pub mod laws;
mod message;
mod refusal;
mod reply;
mod reply_bytes;
mod value;

pub use crate::abort_code::AbortCode;
pub use crate::abort_text::AbortText;
pub use crate::assignment::{Assignment, find_pdo};
pub use crate::dictionary::{
    Dictionary, IDENTITY_OBJECT, INPUT_ASSIGNMENT, OUTPUT_ASSIGNMENT, entry_number,
};
pub use crate::emergency::emergency_bytes;
pub use crate::face::{
    DEVICE_NAME_OBJECT, DEVICE_TYPE_OBJECT, HARDWARE_VERSION_OBJECT, MANAGER_TYPES_OBJECT,
    SOFTWARE_VERSION_OBJECT,
};
pub use crate::message::{
    BadMailbox, MESSAGE_LENGTH, Message, NORMAL_UPLOAD, SdoCommand, Service, read_message,
    write_message,
};
pub use crate::refusal::{MailboxError, RefusalBytes, refuse};
pub use crate::reply::{Reply, is_aside, read_free_reply, read_reply};
pub use crate::reply_bytes::ReplyBytes;
pub use crate::value::{SdoValue, ValueSize};

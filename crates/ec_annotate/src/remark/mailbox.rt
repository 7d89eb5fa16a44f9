//! What a mailbox message says.

use crate::remark::OTHER_CODE;
use ec_coe::{AbortCode, Message, SdoCommand, SdoValue, Service};
use std::alloc::AllocError;
use std::fmt::Write as _;

/// Adds what a mailbox message says.
pub(crate) fn write_message(text: &mut String, message: &Message) -> Result<(), AllocError> {
    let counter = message.counter;
    write!(text, "mailbox message {counter}, CoE, ")?;
    match message.service {
        Service::Request => write!(text, "SDO request: ")?,
        Service::Response => write!(text, "SDO response: ")?,
        Service::Other(number) => write!(text, "service {number}: ")?,
    }
    write_transfer(text, message)
}

/// Adds what the SDO of a message does to its object.
fn write_transfer(text: &mut String, message: &Message) -> Result<(), AllocError> {
    let (index, subindex, number) = (message.index, message.subindex, message.value);
    match message.command {
        SdoCommand::DownloadRequest(size) => {
            let (bytes, value) = (size.number(), SdoValue::of(size, number).number);
            writeln!(
                text,
                "download {index:04x}:{subindex:02x} = {value:x} ({bytes} bytes)"
            )
        }
        SdoCommand::DownloadResponse => writeln!(text, "downloaded {index:04x}:{subindex:02x}"),
        SdoCommand::UploadRequest => writeln!(text, "upload {index:04x}:{subindex:02x}"),
        SdoCommand::UploadResponse(size) => {
            let (bytes, value) = (size.number(), SdoValue::of(size, number).number);
            writeln!(
                text,
                "uploaded {index:04x}:{subindex:02x} = {value:x} ({bytes} bytes)"
            )
        }
        SdoCommand::Abort => {
            let why = match AbortCode::text(number) {
                Some(text) => text.name,
                None => OTHER_CODE,
            };
            writeln!(
                text,
                "abort {index:04x}:{subindex:02x}, code {number:08x}: {why}"
            )
        }
        SdoCommand::Other(command) => {
            writeln!(text, "command {command:02x} of {index:04x}:{subindex:02x}")
        }
    }
}

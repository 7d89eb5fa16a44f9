//! The remarks on the lines of a text of payloads.
ghost use Rattle.std.specs.Option.{ForSome};
ghost use Rattle.ec_link.specs.Usable.{IsUsable};

use crate::annotate::Links;
use crate::carried::{ProcessDatagram, write_process};
use crate::names::Names;
use crate::remark::write_remarks;
use ec_decode::check_located;
use ec_frame::FrameError;
use ec_frame::field::FRAME_HEADER_LEN;
use ec_names::{DatagramFields, first_datagram};
use hex::FromHexError;
use std::alloc::{AllocError, Global};

/// The remarks on the printed lines of a text of hex, in their order, up to the first line of the
/// text that isn't hex. `AllocError` if memory ran out.
pub(crate) fn remarks_of(
    alloc: Global,
    text: &str,
    names: Names,
    links: Option<Links<'_>>,
) -> Result<Vec<String>, AllocError>
    requires { ForSome links (λ links. IsUsable links.plan.now) }
{
    let mut remarks = Vec::new(alloc);
    for line in text.lines() {
        if !line.is_empty() && !add_line(alloc, &mut remarks, line, names, links)? {
            break;
        }
    }
    Ok(remarks)
}

/// Adds the remarks on a line of hex, and returns whether it is hex.
fn add_line(
    alloc: Global,
    remarks: &mut Vec<String>,
    line: &str,
    names: Names,
    links: Option<Links<'_>>,
) -> Result<bool, AllocError>
    requires { ForSome links (λ links. IsUsable links.plan.now) }
{
    match hex::decode(alloc, line) {
        Ok(payload) => {
            add_payload(alloc, remarks, payload.as_slice(), names, links)?;
            Ok(true)
        }
        Err(FromHexError::OutOfMemory) => Err(AllocError),
        Err(_) => Ok(false),
    }
}

/// Adds the remarks on the lines of a payload. The remark on a frame's own line is empty.
fn add_payload(
    alloc: Global,
    remarks: &mut Vec<String>,
    payload: &[u8],
    names: Names,
    links: Option<Links<'_>>,
) -> Result<(), AllocError>
    requires { ForSome links (λ links. IsUsable links.plan.now) }
{
    let bytes = match payload.get(FRAME_HEADER_LEN..) {
        Some(bytes) => bytes,
        None => &[],
    };
    match check_located(payload) {
        Ok(count) => {
            remarks.push(String::new(alloc))?;
            add_datagrams(alloc, remarks, count, bytes, names, links)
        }
        Err(refused) => {
            add_datagrams(alloc, remarks, refused.whole, bytes, names, links)?;
            let fault = match names {
                Names::Added => fault_text(refused.error),
                Names::Omitted => "",
            };
            remarks.push(String::from_str(alloc, fault)?)?;
            Ok(())
        }
    }
}

/// Adds the remarks on the first `count` datagrams in some bytes.
fn add_datagrams(
    alloc: Global,
    remarks: &mut Vec<String>,
    count: usize,
    bytes: &[u8],
    names: Names,
    links: Option<Links<'_>>,
) -> Result<(), AllocError>
    requires { ForSome links (λ links. IsUsable links.plan.now) }
{
    let mut rest = bytes;
    for _ in 0..count {
        let Some((fields, after)) = first_datagram(rest) else {
            return Ok(());
        };
        remarks.push(remark_on(alloc, fields, names, links)?)?;
        rest = after;
    }
    Ok(())
}

/// The remarks on a datagram.
fn remark_on(
    alloc: Global,
    fields: DatagramFields<'_>,
    names: Names,
    links: Option<Links<'_>>,
) -> Result<String, AllocError>
    requires { ForSome links (λ links. IsUsable links.plan.now) }
{
    let mut remark = String::new(alloc);
    match names {
        Names::Added => write_remarks(alloc, &mut remark, fields)?,
        Names::Omitted => {}
    }
    if let Some(links) = links {
        write_variables(alloc, &mut remark, fields, links)?;
    }
    Ok(remark)
}

/// Adds which variables a datagram carries.
fn write_variables(
    alloc: Global,
    text: &mut String,
    fields: DatagramFields<'_>,
    links: Links<'_>,
) -> Result<(), AllocError>
    requires { IsUsable links.plan.now }
{
    let datagram = ProcessDatagram {
        command: fields.command,
        address: fields.address,
        content: fields.content,
        counter: fields.counter,
    };
    write_process(alloc, text, links.table, links.plan, datagram)
}

/// What is wrong with a payload that is no frame (ETG.1000.4, "EtherCAT frame structure").
fn fault_text(error: FrameError) -> &'static str {
    match error {
        FrameError::Short => "it ends before its header, or before what the header says",
        FrameError::BadType => "bits 12 to 15 of its header aren't 1, the type of datagrams",
        FrameError::BadLength => "there a datagram has less room than it says it has bytes",
        FrameError::BadMore => "the datagram there says wrongly whether another follows",
        FrameError::BadCommand => "the command of the datagram there is none of 0 to 14",
        FrameError::TooLong => "its header says more than 1470 bytes",
    }
}

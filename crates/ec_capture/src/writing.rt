//! Writing bytes to a file.
ghost use Rattle.ec_capture.specs.Writing.{Writes};

use std::io::{ErrorKind, Write};
use thiserror::Error;

/// A write was refused, and the capture ends there.
#[derive(Clone, Copy, Debug, PartialEq, Eq, Drop, Error)]
#[error("the capture can't be written further")]
pub struct WriteFault;

/// Writes all of these bytes. If a write is refused, a first part of them is written. An interrupted write is made again.
pub(crate) fn write_bytes<W: Write>(bytes: &[u8], file: &mut W) -> Result<(), WriteFault>
    ensures { Writes bytes.now (W.contents file.old) (W.contents file.new) result }
{
    let mut written = 0;
    for _ in 0..u64::MAX {
        if written == bytes.len() {
            return Ok(());
        }
        match file.write(&bytes[written..]) {
            Ok(0) => return Err(WriteFault),
            Ok(count) => written += count,
            Err(error) if error.kind() == ErrorKind::Interrupted => {}
            Err(_) => return Err(WriteFault),
        }
    }
    Err(WriteFault)
}

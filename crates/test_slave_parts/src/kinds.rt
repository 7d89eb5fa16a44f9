//! Types of slaves for the tests of this crate.
use crate::rows::expect;
use ec_device::{Device, Entry, Mailbox, Pdo, SlaveType};
use ec_listed::Listed;
use std::alloc::{AllocError, Global};
use std::process::Abort;

/// What the types stand for.
pub(crate) const DEVICE: Device = Device {
    vendor: 0xABCD,
    product: 3,
    revision: 0x0102_0304,
};

/// Two mailboxes of 128 bytes.
pub(crate) const MAILBOX: Mailbox = Mailbox {
    receive_start: 0x1000,
    receive_size: 128,
    send_start: 0x1080,
    send_size: 128,
};

/// PDOs by their index, each with its entries.
pub(crate) type Pdos<'a> = &'a [(u16, &'a [Entry])];

/// A list of PDOs, or want of memory.
fn listed_pdos(alloc: Global, rows: Pdos<'_>) -> Result<Listed<Pdo>, AllocError> {
    let mut pdos = Listed::new(alloc);
    for (index, entries) in rows {
        let entries = Listed::copied(alloc, entries)?;
        pdos.push(Pdo {
            index: *index,
            entries,
        })?;
    }
    Ok(pdos)
}

/// A list of PDOs.
pub(crate) fn pdos_of(rt: &(impl AllocGlobal + Abort), rows: Pdos<'_>) -> Listed<Pdo> {
    listed_pdos(rt.alloc(), rows).expect(rt, "memory")
}

/// The type of a slave with mailboxes and these PDOs. The output manager lies at 0x1100.
fn kind_of(
    rt: &(impl AllocGlobal + Abort),
    outputs: Listed<Pdo>,
    inputs: Listed<Pdo>,
    in_start: u16,
    lrw: bool,
) -> SlaveType {
    let mailbox = Some(MAILBOX);
    let fits = SlaveType::is_within_limits(mailbox, outputs.as_slice(), inputs.as_slice());
    expect(rt, fits, "the limits of a type");
    SlaveType::new(
        rt.alloc(),
        DEVICE,
        mailbox,
        0x1100,
        in_start,
        outputs,
        inputs,
        lrw,
    )
}

/// The same of rows.
pub(crate) fn kind_with(
    rt: &(impl AllocGlobal + Abort),
    outputs: Pdos<'_>,
    inputs: Pdos<'_>,
    in_start: u16,
    lrw: bool,
) -> SlaveType {
    kind_of(rt, pdos_of(rt, outputs), pdos_of(rt, inputs), in_start, lrw)
}

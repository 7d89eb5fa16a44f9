//! The device description: what a slave of one type is, by its device, mailboxes, process data objects and entries.
#![tactic(auto)]

mod hardware;
pub mod laws;
mod parameter;
mod slave_type;

pub use crate::hardware::{
    Hardware, INPUTS_PLACE, LAST_MANAGER, MAX_FMMUS, MAX_SLOW, MIN_FMMUS, OUTPUTS_PLACE, PINS,
    PINS_BYTES, PINS_INSIDE, PINS_SIZE, ProcessManager,
};
pub use crate::parameter::{MAX_PARAMETERS, Parameter, ParameterSize, parameter_at};
pub use crate::slave_type::{
    Device, Entry, FIRST_INPUT_INDEX, FIRST_OUTPUT_INDEX, Face, Identity, MAX_BITS, MAX_ENTRIES,
    MAX_ENTRY_BITS, MAX_MAILBOX_SIZE, MAX_NAME, MAX_PDOS, MIN_MAILBOX_SIZE, Mailbox, PDO_INDICES,
    Pdo, SlaveType, are_within_limits, copied_pdos, have_own_indices,
};

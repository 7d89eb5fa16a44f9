//! What the process data of a plan's frames carry: a datagram's part, the variables of its bits with their
//! values, and the predicted working counter.

mod bits;
mod process;
mod saying;

pub use self::bits::{Carried, carried_bits, variable_at};
pub use self::process::{Process, ProcessCommand, find_process, predicted_counter};
pub use self::saying::{ProcessDatagram, write_process};

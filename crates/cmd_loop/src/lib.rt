//! `ecat loop`: cycles of a link table over two sockets of this process.
#![tactic(auto)]

mod looping;

pub use crate::looping::{run_loop, run_loopback};

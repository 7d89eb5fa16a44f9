//! The slave information interface (SII) of a simulated slave: an image of 64 words with the identity of the slave and
//! the places of its mailboxes. A full slave has categories behind them, with its name, its
//! sync managers and its PDOs. A master reads the image by a port (ETG.1000.4 and ETG.1000.6, "Slave
//! information interface"), and can't write it.
#![tactic(auto)]

mod categories;
mod image;
pub mod laws;
mod port;

pub use crate::image::{Image, SiiImage};
pub use crate::port::Port;

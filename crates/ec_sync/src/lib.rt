//! Sync managers: what lies between the frames on the ring and a slave's own side (ETG.1000.4, "Sync manager").
//!
//! A `SyncManager` is a buffered value, which is only ever seen whole, or a mailbox, which holds one message.
#![tactic(auto)]

mod application;
mod bounds;
mod buffer;
mod configuring;
pub mod laws;
mod mail;
mod mailbox;
mod manager;
mod ring;
mod sound;
mod touching;

pub use crate::bounds::Bounds;
pub use crate::buffer::MAX_BUFFER_LEN;
pub use crate::manager::{Manager, SyncManager};
pub use crate::touching::{Reach, Touching, Writing};

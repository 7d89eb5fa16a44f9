//! A world: a start-up and a master over simulated slaves, event after event.
#![tactic(auto)]

mod event;
pub mod laws;
mod making;
mod outside;
mod progress;
mod slot;
mod slots;
mod watcher;
mod world;

pub use crate::event::Event;
pub use crate::progress::Progress;
pub use crate::watcher::{Unwatched, Watcher};
pub use crate::world::World;

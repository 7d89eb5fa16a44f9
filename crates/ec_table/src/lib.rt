//! Link tables: the types, slaves, variables and links that a TOML text states.
#![tactic(auto)]

mod described;
mod fault;
mod fields;
mod keys;
pub mod laws;
mod links;
mod named;
mod numbers;
mod or_memory;
mod parameters;
mod pdos;
mod read;
mod rows;
mod slaves;
mod table;
mod types;
mod values;
mod variables;

pub use crate::fault::{Fault, Position, Section, TableError};
pub use crate::keys::{ENTRY, Key, LINK_BITS, MAILBOX, MANAGER, PARAMETER, Rule, Shape};
pub use crate::numbers::number_in;
pub use crate::or_memory::{OrMemory, Refusing};
pub use crate::read::read_table;
pub use crate::rows::{
    Direction, Format, LinkBits, LinkRow, Name, ProcessData, SlaveRow, TypeRow, VariableRow,
    Version,
};
pub use crate::table::Table;

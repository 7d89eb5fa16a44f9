//! Why a link table has no plan, for people: which links, slaves and areas are at fault, and what to do.
#![tactic(auto)]

mod areas;
mod bits;
mod entries;
mod linking;
mod links;
mod places;
mod slaves;
mod twice;

pub use crate::linking::explain_link_fault;

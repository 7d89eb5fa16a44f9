//! What a scan found as a link table says it: the type of each slave, the text of the table, which is read back before it is given
//! out, and what differs from another table.
#![tactic(auto)]

mod against;
mod areas;
mod assigned;
mod error;
mod found;
pub mod laws;
mod mapped;
mod names;
mod read_back;
mod reading;
mod same;
mod text;

pub use crate::against::{Differences, agrees, differences_text, differs};
pub use crate::error::FoundError;
pub use crate::found::{Found, Unsaid, found_of};
pub use crate::read_back::{as_found, printed};
pub use crate::text::{table_text, unsaid_text};

//! Words for people on a text: where its bytes stand; remarks, with their lines and a mark under each; and a
//! reason on one line.
//!
//! Of a TOML text: where its tables, keys and values stand, and remarks on them for people.
#![tactic(auto)]

mod diagnosis;
mod file_names;
mod outline;
mod reason;
mod remark;
mod spot;
mod text;
mod token;
mod words;

pub use crate::diagnosis::{Diagnosis, MarkedPart};
pub use crate::file_names::FileNames;
pub use crate::outline::{Found, Outline, PathStep};
pub use crate::reason::reason_line;
pub use crate::remark::{Remark, Remarks};
pub use crate::spot::{Span, Spot, spot_of};
pub use crate::text::{printed, without_mark};
pub use crate::words::{Counted, Meant, Nearest, Printable, comma, is_among};

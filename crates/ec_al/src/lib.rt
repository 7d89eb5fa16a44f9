//! The AL state machine of a simulated slave (ETG.1000.6, "EtherCAT state machine"). A master asks for a
//! state by the AL control word, and the slave's firmware grants or refuses it. The AL status word and
//! the AL status code show the state and the error. BOOT isn't supported.
#![tactic(auto)]

pub mod laws;
mod machine;
mod state;
mod status_code;
mod status_text;
mod transition;

pub use crate::machine::Al;
pub use crate::state::State;
pub use crate::status_code::StatusCode;
pub use crate::status_text::StatusText;
pub use crate::transition::{Checks, Requested};

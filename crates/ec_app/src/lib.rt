//! The program `ecat` as functions: its commands by their arguments, over any reader and writers, and what they are made of. The crates
//! below have the same functions and types; this one has them together.
#![tactic(auto)]

mod pass;
mod places;
mod plan;
mod program;
mod remarked;
mod run;
mod scan;
mod translate;
mod work;
mod wrong;

pub use crate::pass::{pass_hex, print_pass};
pub use crate::plan::{PlanForm, print_plan, show_plan};
pub use crate::program::run_program;
pub use crate::remarked::{print_payloads, print_remarked};
pub use crate::run::{run_command, run_console};
pub use crate::scan::print_scan;
pub use crate::translate::{print_decode, print_encode};
pub use cmd_loop::{run_loop, run_loopback};
pub use cmd_segment::{Endpoint, print_served_segment, run_segment};
pub use cmd_sim::{run_live, run_script};
pub use ec_bringup::{bring_up, identities_of};
pub use ec_console::{
    Console, Explanation, InputStream, Origin, OutputStream, Refusal, SlaveForm, Terminals,
    print_text, read_text,
};
pub use ec_script::{Line, LineAction, Script, ScriptError, ScriptLines, Step, Task, read_script};
pub use ec_simulation::run_step;
pub use ec_text::{Refused, header_text, plan_text};
pub use ec_wire::{
    App, MemoryWire, UdpWire, Wire, bring_up_resting, bring_up_wire, run_cycle, run_lossy_cycle,
    serve_segment,
};

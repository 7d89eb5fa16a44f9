//! The names that `ec_app` passes on from the crates below.
pub use ec_app::{
    App, Line, MemoryWire, Task, UdpWire, Wire, bring_up, bring_up_resting, bring_up_wire,
    pass_hex, plan_text, read_script, run_cycle, run_lossy_cycle, run_step, serve_segment,
};

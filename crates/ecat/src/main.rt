//! The program `ecat`: an EtherCAT master and a segment of simulated slaves. It runs the commands of
//! `ec_app` over the arguments, the streams and the memory of the system.
#![tactic(auto)]

use ec_app::{Console, InputStream, Origin, OutputStream, Terminals, run_program};
use std::env;
use std::io::IsTerminal;
use std::process::ExitCode;

/// The descriptor of standard input.
const STDIN: i32 = 0;

fn main(rt: HostRuntime) -> ExitCode {
    let (input, faults) = (rt.stdin(), rt.stderr());
    let terminals = Terminals {
        input: input.is_terminal(),
        faults: faults.is_terminal(),
    };
    let mut console = Console::new(
        rt.alloc(),
        InputStream::watched(Origin::Given(input), STDIN),
        OutputStream::new(rt.stdout()),
        OutputStream::new(faults),
    );
    console.terminals = terminals;
    ExitCode::from(run_program(&rt, env::args(&rt), &mut console))
}

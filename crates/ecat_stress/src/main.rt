//! Trials of the libraries that no contract replaces: refused memory, and long runs.
//!
//!     ecat_stress                                   the gate's share of all but the tables
//!     ecat_stress memory [FUNCTION]                 the functions that take memory
//!     ecat_stress runs [SEED [TABLES [EVENTS]]]     worlds under events at random
//!     ecat_stress tables [SEED [TABLES]]            tables and scripts, and what the calls make of them
//!     ecat_stress scans [SEED [COUNT]]              scans of slaves that answer at random
//!
//! Each prints its figures. The status is 0 if all was as it must be, else 1.
#![tactic(auto)]

mod args;
mod memory;
mod runs;
mod scans;
mod tables;

use std::alloc::Global;
use std::env::Env;
use std::io::Write;
use std::process::ExitCode;
use std::{env, io};

/// The arguments, the first of which is the program's name.
fn given_args<H: Env + AllocGlobal>(rt: &H) -> io::Result<Vec<String>> {
    let given = env::args(rt)?;
    Ok(given.collect(rt.alloc())?)
}

/// The gate's share of each trial that has one.
fn run_shares<W: Write>(alloc: Global, output: &mut W) -> io::Result<bool> {
    let memory = memory::run(alloc, None, output)?;
    let runs = runs::run_share(alloc, output)?;
    let scans = scans::run_share(alloc, output)?;
    Ok(memory && runs && scans)
}

/// The trial of a word, with the arguments from the word on.
fn run_trial<W: Write>(alloc: Global, args: &[String], output: &mut W) -> io::Result<bool> {
    let Some(word) = args.first() else {
        return run_shares(alloc, output);
    };
    match word.as_str() {
        "memory" => memory::run(alloc, args.get(1).map(String::as_str), output),
        "runs" => runs::run(alloc, args, output),
        "tables" => tables::run(alloc, args, output),
        "scans" => scans::run(alloc, args, output),
        _ => {
            writeln!(output, "no such trial")?;
            Ok(false)
        }
    }
}

fn main(rt: HostRuntime) -> io::Result<ExitCode> {
    let mut output = rt.stdout();
    let is_right = match given_args(&rt) {
        Ok(args) => run_trial(rt.alloc(), args.get(1..).unwrap_or(&[]), &mut output)?,
        Err(_) => {
            writeln!(output, "prepared 1")?;
            true
        }
    };
    Ok(if is_right {
        ExitCode::SUCCESS
    } else {
        ExitCode::FAILURE
    })
}

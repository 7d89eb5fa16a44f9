//! Each line is answered before the next one is read, whoever reads and writes. What lines print, and the messages for them, stands
//! as cases in `tools/cases/data/lives.cases`.
mod askers;
mod drivers;

use crate::compare::expect_same;
use crate::streams::Sink;
use cmd_sim::run_live;
use ec_console::{
    Capture, InputStream, Manner, OutputStream, Refusal, SlaveForm, Source, read_source,
    read_stated,
};
use std::fs::Files;
use std::io::Read;
use std::process::Abort;

/// Runs lines as they come behind a table. It promises nothing, so what calls it is quickly checked.
fn run<H: AllocGlobal + Files, R: Read + Drop>(
    rt: &H,
    input: &mut InputStream<R>,
    output: &mut OutputStream<Sink<'_>>,
) -> Result<(), Refusal> {
    let text = read_source(rt.alloc(), Source::Lines, input)?;
    let stated = read_stated(rt.alloc(), Source::Lines, SlaveForm::Plain, text.as_str())?;
    let mut capture: Capture<H::File> = None;
    run_live(
        rt.alloc(),
        &stated.machine,
        Manner::of(false, false),
        &mut capture,
        input,
        output,
    )
}

/// Compares how a run ended, and what it printed.
fn expect_ended(
    rt: &impl Abort,
    ended: Result<(), Refusal>,
    output: OutputStream<Sink<'_>>,
    wanted: (Result<(), Refusal>, &str),
) {
    let (end, printed) = wanted;
    let taken = output.into_stream().taken;
    expect_same(
        rt,
        &(ended, taken.as_slice()),
        &(end, printed.as_bytes()),
        "a run",
    );
}

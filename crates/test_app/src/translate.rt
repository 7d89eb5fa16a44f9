//! `ecat decode` and `ecat encode` to a writer that is full. What else they print stands as cases in
//! `tools/cases/data/translates.cases`.
use crate::compare::expect_same;
use crate::streams::{HandedOn, Sink, Source, nothing_handed_on, sink_of, source_of};
use ec_app::{print_decode, print_encode};
use ec_console::{InputStream, OutputStream, Refusal};
use std::alloc::Global;
use std::process::Abort;

/// A NOP with ten bytes of data, and a broadcast read of the AL status that three slaves answered.
const CYCLE: &str = "24100005000000000a800000050000000000000000000000070503003001020000000800\
0300";

/// Its text.
const CYCLE_TEXT: &str = "\
frame 2
0 NOP index 05 at 0000:0000 counter 0 data 05000000000000000000
1 BRD index 05 at 0003:0130 counter 3 data 0800
";

/// A command ends so, and the writer is full.
fn expect_full(rt: &impl Abort, ended: Result<(), Refusal>, output: OutputStream<Sink<'_>>) {
    let is_refused = output.is_refused();
    expect_same(
        rt,
        &(ended, is_refused, output.into_stream().room),
        &(Err(Refusal::Output), true, 0),
        "a full output",
    );
}

/// An output that takes ten bytes.
fn small_output(alloc: Global, handed_on: &HandedOn) -> OutputStream<Sink<'_>> {
    let mut sink = sink_of(alloc, handed_on);
    sink.room = 10;
    OutputStream::new(sink)
}

/// An input of a text.
fn input_of(text: &str) -> InputStream<Source<'_>> {
    InputStream::new(source_of(text.as_bytes()))
}

#[test]
fn a_full_output_is_told(rt: HostRuntime) {
    let handed_on = nothing_handed_on();
    let mut output = small_output(rt.alloc(), &handed_on);
    let ended = print_decode(rt.alloc(), &mut input_of(CYCLE), &mut output);
    expect_full(&rt, ended, output);
    let mut output = small_output(rt.alloc(), &handed_on);
    let ended = print_encode(rt.alloc(), &mut input_of(CYCLE_TEXT), &mut output);
    expect_full(&rt, ended, output);
}

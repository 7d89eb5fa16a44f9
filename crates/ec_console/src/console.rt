//! The streams of a run, which of them are terminals, and what explains its refusal.
ghost use Rattle.std.specs.Prelude.{◌≡◌, [], false};

use crate::{Explanation, InputStream, OutputStream};
use std::alloc::Global;
use std::io::{Read, Write};

/// Which streams of a run are terminals.
#[derive(Clone, Copy, Debug, PartialEq, Eq, Drop)]
pub struct Terminals {
    /// The input.
    pub input: bool,
    /// The fault stream.
    pub faults: bool,
}

/// What a run reads and writes: its input, its output, the fault stream, and the explanation behind the line of its refusal.
#[derive(Drop)]
pub struct Console<R: Read + Drop, W: Write + Drop, F: Write + Drop> {
    pub input: InputStream<R>,
    pub output: OutputStream<W>,
    pub faults: OutputStream<F>,
    pub explanation: Explanation,
    pub terminals: Terminals,
}

impl<R: Read + Drop, W: Write + Drop, F: Write + Drop> Console<R, W, F> {
    /// A console of these streams, none of which is a terminal. No explanation is wanted yet.
    pub fn new(
        alloc: Global,
        input: InputStream<R>,
        output: OutputStream<W>,
        faults: OutputStream<F>,
    ) -> Console<R, W, F>
        ensures input { result.input ≡ input }
        ensures output { result.output ≡ output }
        ensures faults { result.faults ≡ faults }
        ensures explanation { result.explanation ≡ record { is_wanted = false; text = [] } }
        ensures terminals { result.terminals ≡ record { input = false; faults = false } }
    {
        Console {
            input,
            output,
            faults,
            explanation: Explanation::new(alloc, false),
            terminals: Terminals {
                input: false,
                faults: false,
            },
        }
    }
}

//! The program over a system, which gives it its arguments and its memory.
ghost use Rattle.std.specs.Prelude.{◌≡◌, ◌∷◌, [], Contains, IfOk};
ghost use Rattle.std.specs.Vec.Iter.{into_iter_items};
ghost use Rattle.ec_app.specs.Running.{EndsGiven, EprintsUnread};
ghost use Rattle.ec_console.specs.Given.{given_by};
ghost use Rattle.ec_console.specs.Stating.{left_in};

use crate::run::run_console;
use ec_console::{Console, Origin, OutputStream, Refusal};
use ec_wire::Echo;
use std::alloc::{AllocError, Global};
use std::env::Args;
use std::fs::Files;
use std::io;
use std::io::{ErrorKind, Read, Write};
use std::net::Net;
use std::time::Clock;

/// What standard error says if an argument isn't text.
const NOT_TEXT: &str = "error: an argument of the command line isn't text\n";

/// Runs the program `ecat` on the arguments that `std::env::args` gives, as `run_console` does, and
/// returns its exit status. Slaves that it simulates show their outputs as their inputs. If an
/// argument isn't text, the status is 2, as for other arguments that ask for no command.
pub fn run_program<
    H: AllocGlobal + Net + Files + Clock,
    R: Read + Drop,
    W: Write + Drop,
    F: Write + Drop,
>(rt: &H, given: io::Result<Args>, console: &mut Console<Origin<R, H::File>, W, F>) -> u8
    ensures ends { EndsGiven given console.old.terminals (given_by (left_in R.remaining) console.old.input console.new.input) console.old.input console.new.input
        (record { old = console.old.output; new = console.new.output })
        (record { old = console.old.faults; new = console.new.faults }) result }
    ensures status { Contains (0 ∷ 2 ∷ 3 ∷ 4 ∷ 5 ∷ []) result }
    ensures unprinted { result ≡ 2 → console.new.output ≡ console.old.output }
{
    let given = match given {
        Ok(given) => given,
        Err(error) => return eprint_unread(&error, &mut console.faults),
    };
    match collected(rt.alloc(), given) {
        Ok(args) => run_console(rt, args.as_slice(), console, &mut Echo),
        Err(_) => console.faults.eprint_refusal(&Refusal::Memory),
    }
}

/// Writes to `faults` why the arguments can't be read, by the system's error, and returns the exit status.
fn eprint_unread<F: Write + Drop>(error: &io::Error, faults: &mut OutputStream<F>) -> u8
    ensures eprints { EprintsUnread error.now
        (record { old = faults.old; new = faults.new }) result }
    ensures status { Contains (2 ∷ 3 ∷ []) result }
{
    if error.kind() == ErrorKind::OutOfMemory {
        return faults.eprint_refusal(&Refusal::Memory);
    }
    faults.eprint_text(NOT_TEXT.as_bytes());
    2
}

/// All arguments that are given, in order.
fn collected(alloc: Global, given: Args) -> Result<Vec<String>, AllocError>
    ensures { IfOk result (λ args. args.items ≡ into_iter_items given) }
{
    given.collect(alloc)
}

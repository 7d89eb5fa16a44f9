//! Texts on the fault stream (standard error).
ghost use Rattle.std.specs.Prelude.{◌≡◌, ◌++◌, false, true};
ghost use Rattle.ec_console.specs.Printing.{IsCutOff, IsPrinted, IsEprinted};
ghost use Rattle.ec_console.specs.Refusals.{line_of, status_of};

use crate::printing::print_text;
use crate::{OutputStream, Refusal};
use ec_text::refusal_line;
use std::io::Write;

/// Calls for the fault stream, which gets refusals, the usage, and where a segment listens. A refused write has no effect but that
/// the stream keeps it.
impl<F: Write + Drop> OutputStream<F> {
    /// Prints a text. A refused write changes nothing but [`OutputStream::is_refused`].
    pub fn eprint_text(&mut self, text: &[u8])
        ensures { IsEprinted text.now self.old self.new }
    {
        self.is_eprinted(text);
    }

    /// Prints a refusal as one line `ecat: NUMBER NAME VALUES`, and returns its exit status. A refused write changes nothing but
    /// [`OutputStream::is_refused`]. The call takes no memory.
    pub fn eprint_refusal(&mut self, refusal: &Refusal) -> u8
        ensures status { result ≡ status_of refusal.now }
        ensures eprinted { IsEprinted (line_of refusal.now) self.old self.new }
    {
        let line = refusal_line(refusal);
        self.eprint_text(line.as_bytes());
        refusal.status()
    }

    /// Prints a refusal's line and `more` behind it, and returns the refusal's exit status. A refused write changes nothing but
    /// [`OutputStream::is_refused`].
    pub fn eprint_explained(&mut self, refusal: &Refusal, more: &[u8]) -> u8
        ensures status { result ≡ status_of refusal.now }
        ensures eprinted { IsEprinted (line_of refusal.now ++ more.now) self.old self.new }
    {
        let line = refusal_line(refusal);
        self.eprint_both(line.as_bytes(), more);
        refusal.status()
    }

    /// Prints a text and another behind it, which is left out if a write of the first was refused.
    fn eprint_both(&mut self, text: &[u8], more: &[u8])
        ensures { IsEprinted (text.now ++ more.now) self.old self.new }
    {
        if self.is_eprinted(text) {
            self.eprint_text(more);
        }
    }

    /// Prints a text. Returns whether all of it was written and handed on.
    fn is_eprinted(&mut self, text: &[u8]) -> bool
        ensures whole { result ≡ true → IsPrinted self.old self.new text.now }
        ensures part { result ≡ false → IsCutOff self.old self.new text.now }
    {
        print_text(text, self).is_ok()
    }
}

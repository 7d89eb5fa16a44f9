//! A file for writing, which keeps whether all written bytes were handed on.
ghost use Rattle.std.specs.Prelude.{◌≡◌, OnOk, true};
ghost use Rattle.std.specs.Io.KnownBytes.{Keeps};

use std::io::{Result, Write};
use std::marker::Model;

/// A file for writing. It keeps whether all written bytes were handed on, which a flush does; no other value has that.
#[derive(Drop)]
pub(crate) struct CaptureFile<W: Write + Drop> {
    file: W,
    is_flushed: bool,
}

impl<W: Write + Drop> Model for CaptureFile<W> {
    ghost use Rattle.ec_capture.specs.Writing.{FileState};

    ghost Value = { FileState };

    ghost view = { λ f. record { holds = W.contents f.file; is_flushed = f.is_flushed } };
}

impl<W: Write + Drop> CaptureFile<W> {
    /// A file whose bytes may not have been handed on yet.
    pub(crate) fn new(file: W) -> CaptureFile<W>
        ensures { result.holds ≡ W.contents file }
    {
        CaptureFile {
            file,
            is_flushed: false,
        }
    }

    /// The file itself.
    pub(crate) fn file(&self) -> &W
        ensures { W.contents result.now ≡ self.now.holds }
    {
        &self.file
    }
}

impl<W: Write + Drop> Write for CaptureFile<W> {
    ghost contents = { λ f. f.holds };

    fn write(&mut self, bytes: &[u8]) -> Result<usize> {
        self.is_flushed = false;
        self.file.write(bytes)
    }

    fn flush(&mut self) -> Result<()>
        ensures bytes { Keeps self.old.holds self.new.holds }
        ensures flushed { OnOk result (self.new.is_flushed ≡ true) }
    {
        let flushed = self.file.flush();
        self.is_flushed = flushed.is_ok();
        flushed
    }
}

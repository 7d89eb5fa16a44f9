//! A stream for writing, which keeps whether a write of it was refused.
ghost use Rattle.std.specs.Prelude.{◌≡◌, ◌<◌, ◌||◌, OnOk, false, length, true};
ghost use Rattle.std.specs.Io.KnownBytes.{Keeps, WriteAppends};
ghost use Rattle.std.specs.Io.{WritesAtMost};
ghost use Rattle.ec_console.specs.Printing.{IsSpent, is_flush_refused, is_write_refused, one_more};

use std::io::{ErrorKind, Result, Write};
use std::marker::Model;

/// A stream for writing: the output, or the fault stream (standard error). It keeps whether a write or a flush was ever refused, and
/// whether all written bytes were handed on. Nothing else writes to the stream. So a contract can promise that all of a text is
/// printed and handed on, unless a write or a flush was refused. After 2^64 - 1 writes that didn't take a text, the stream counts
/// as refused.
#[derive(Drop)]
pub struct OutputStream<W: Write + Drop> {
    stream: W,
    is_refused: bool,
    is_flushed: bool,
    writes: u64,
}

impl<W: Write + Drop> Model for OutputStream<W> {
    ghost use Rattle.ec_console.specs.Printing.{OutputState};

    ghost Value = { OutputState };

    ghost view = { λ s. record { holds = W.contents s.stream; is_refused = s.is_refused; is_flushed = s.is_flushed; writes = s.writes } };
}

impl<W: Write + Drop> OutputStream<W> {
    /// An output of which no write was refused yet. What the stream holds counts as handed on.
    pub fn new(stream: W) -> OutputStream<W>
        ensures { result ≡ record { holds = W.contents stream; is_refused = false; is_flushed = true; writes = 0 } }
    {
        OutputStream {
            stream,
            is_refused: false,
            is_flushed: true,
            writes: 0,
        }
    }

    /// The stream itself, which holds what was written.
    pub fn into_stream(self) -> W
        ensures { W.contents result ≡ self.holds }
    {
        self.stream
    }

    /// Whether a write or a flush was ever refused, or the output was given up, so that some text may be missing.
    pub fn is_refused(&self) -> bool
        ensures { result ≡ self.now.is_refused }
    {
        self.is_refused
    }

    /// Writes bytes to the stream, and returns what its `write` returns. A write of no bytes would look like a refused one.
    pub(crate) fn write(&mut self, bytes: &[u8]) -> Result<usize>
        requires { 0 < length bytes.now }
        ensures bound { WritesAtMost result bytes.now }
        ensures bytes { WriteAppends self.old.holds self.new.holds result bytes.now }
        ensures refused { self.new.is_refused ≡ self.old.is_refused || is_write_refused result }
        ensures flushed { self.new.is_flushed ≡ false }
        ensures counted { self.new.writes ≡ one_more self.old.writes }
    {
        self.is_flushed = false;
        self.writes = self.writes.saturating_add(1);
        let written = self.stream.write(bytes);
        self.is_refused = self.is_refused || is_write_refused(&written);
        written
    }

    /// Flushes the stream, which hands on what was written, and returns what its `flush` returns.
    pub(crate) fn flush(&mut self) -> Result<()>
        ensures bytes { Keeps self.old.holds self.new.holds }
        ensures refused { self.new.is_refused ≡ self.old.is_refused || is_flush_refused result }
        ensures flushed { OnOk result (self.new.is_flushed ≡ true) }
        ensures writes { self.new.writes ≡ self.old.writes }
    {
        let flushed = self.stream.flush();
        self.is_refused = self.is_refused || flushed.is_err();
        self.is_flushed = flushed.is_ok();
        flushed
    }

    /// Counts the output as refused, since 2^64 - 1 writes didn't take a text.
    pub(crate) fn give_up(&mut self)
        requires { IsSpent self.old.writes }
        ensures holds { self.new.holds ≡ self.old.holds }
        ensures refused { self.new.is_refused ≡ true }
        ensures flushed { self.new.is_flushed ≡ self.old.is_flushed }
        ensures writes { self.new.writes ≡ self.old.writes }
    {
        self.is_refused = true;
    }
}

/// Whether the result of a write is a refusal: no byte was taken, or an error came that is no interruption.
fn is_write_refused(written: &Result<usize>) -> bool
    ensures { result ≡ is_write_refused written.now }
{
    match written {
        Ok(count) => *count == 0,
        Err(error) => !matches!(error.kind(), ErrorKind::Interrupted),
    }
}

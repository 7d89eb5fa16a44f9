//! Streams in memory that ask, that are slow, that fail, and that have no end.
use std::alloc::Global;
use std::cell::Cell;
use std::io;
use std::io::{ErrorKind, Read, Write};

/// What a writer handed on: how many bytes in all, and how often.
#[derive(Drop)]
pub struct HandedOn {
    pub bytes: Cell<usize>,
    pub times: Cell<usize>,
}

/// Nothing yet.
pub fn nothing_handed_on() -> HandedOn {
    HandedOn {
        bytes: Cell::new(0),
        times: Cell::new(0),
    }
}

/// A writer.
#[derive(Drop)]
pub struct Sink<'a> {
    /// What it has taken.
    pub taken: Vec<u8>,
    /// How many bytes it still takes, and how many at a time.
    pub room: usize,
    pub at_a_time: usize,
    /// How many writes it still takes, how often it hands on what it took, and how often it was to and didn't.
    pub writes: usize,
    pub flushes: usize,
    pub refused: usize,
    /// Whether it is interrupted before every other write, and whether it was before the last one.
    pub halts: bool,
    pub is_halted: bool,
    /// What it handed on.
    pub handed_on: &'a HandedOn,
}

/// A writer that takes all.
pub fn sink_of(alloc: Global, handed_on: &HandedOn) -> Sink<'_> {
    Sink {
        taken: Vec::new(alloc),
        room: usize::MAX,
        at_a_time: usize::MAX,
        writes: usize::MAX,
        flushes: usize::MAX,
        refused: 0,
        halts: false,
        is_halted: false,
        handed_on,
    }
}

impl Write for Sink<'_> {
    fn write(&mut self, bytes: &[u8]) -> io::Result<usize> {
        self.is_halted = self.halts && !self.is_halted;
        if self.is_halted {
            return Err(io::Error::from(ErrorKind::Interrupted));
        }
        if self.writes == 0 {
            return Err(io::Error::from(ErrorKind::StorageFull));
        }
        self.writes -= 1;
        let count = bytes.len().min(self.at_a_time).min(self.room);
        self.room -= count;
        self.taken.extend_from_slice(&bytes[..count])?;
        Ok(count)
    }

    fn flush(&mut self) -> io::Result<()> {
        if self.flushes == 0 {
            self.refused = self.refused.saturating_add(1);
            return Err(io::Error::from(ErrorKind::StorageFull));
        }
        self.flushes -= 1;
        self.handed_on.bytes.set(self.taken.len());
        self.handed_on
            .times
            .set(self.handed_on.times.get().saturating_add(1));
        Ok(())
    }
}

/// A reader of a text, and of a line so many times behind it.
#[derive(Drop)]
pub struct Source<'a> {
    /// What it has still to give, and how many bytes it gives at a time.
    pub text: &'a [u8],
    pub at_a_time: usize,
    /// The line behind that, and how often it still comes.
    pub line: &'a [u8],
    pub left: usize,
    /// How often what was answered must be handed on before the next line is given, where it waits for that.
    pub given: usize,
    pub awaits: Option<&'a HandedOn>,
    /// Whether it is interrupted before every other read, and whether it was before the last one.
    pub halts: bool,
    pub is_halted: bool,
    /// Whether it fails in the place of its end.
    pub fails: bool,
}

/// A reader of a text alone.
pub fn source_of(text: &[u8]) -> Source<'_> {
    Source {
        text,
        at_a_time: usize::MAX,
        line: b"",
        left: 0,
        given: 0,
        awaits: None,
        halts: false,
        is_halted: false,
        fails: false,
    }
}

impl<'a> Source<'a> {
    /// Whether it gives the next line: what is awaited before it was handed on.
    fn is_awaited(&self) -> bool {
        match self.awaits {
            Some(handed_on) => handed_on.times.get() == self.given,
            None => true,
        }
    }

    /// Goes on to the next line, if there is one. Whether it may.
    fn goes_on(&mut self) -> bool {
        if !self.is_awaited() {
            return false;
        }
        self.given = self.given.saturating_add(1);
        if self.left == 0 {
            return !self.fails;
        }
        self.left -= 1;
        self.text = self.line;
        true
    }
}

impl<'a> Read for Source<'a> {
    fn read(&mut self, buffer: &mut [u8]) -> io::Result<usize> {
        self.is_halted = self.halts && !self.is_halted;
        if self.is_halted {
            return Err(io::Error::from(ErrorKind::Interrupted));
        }
        if self.text.is_empty() && !self.goes_on() {
            return Err(io::Error::from(ErrorKind::Other));
        }
        let count = self.text.len().min(self.at_a_time).min(buffer.len());
        buffer[..count].copy_from_slice(&self.text[..count]);
        self.text = &self.text[count..];
        Ok(count)
    }
}

//! Lines of an input, each up to its end. The input is read by blocks, and keeps whether a read of it was refused.
ghost use Rattle.std.specs.Prelude.{◌≡◌, ◌≢◌, ◌≤◌, ◌==◌, ◌||◌, ◌+◌, ◌++◌, [], List, ℕ, Option, IfErr, IfOk, IfSome, OnErr, OnOk, drop, false, length, min, nat_lt, position, true, take};
ghost use Rattle.std.specs.Io.KnownBytes.{Consumes, IsAtEnd, Keeps};
ghost use Rattle.std.specs.IoError.{error_kind};
ghost use Rattle.ec_lines.specs.Inputs.{IsSpent, bytes_left, is_read_refused, one_more};
ghost use Rattle.ec_lines.specs.Kept.{IsMore, IsPart, TakesAhead, TakesKept, TakesMore, kept_more};
ghost use Rattle.ec_lines.specs.Taking.{GoesOn, IsReadFault, IsSoFar, IsTaken, TakesPart, TakesLine, max_kept, without_end};

use crate::LinesError;
use std::alloc::{AllocError, Global};
use std::io::{self, ErrorKind, Read};
use std::marker::Model;
use std::os::fd::RawFd;

/// The most bytes of a text, and of a line without its end.
pub const MAX_BYTES: usize = 1 << 20;

/// The most bytes that are kept of a line with its end: one more than the longest line with its longest end, `\r\n`.
pub(crate) const MAX_KEPT: usize = MAX_BYTES + 3;

/// The most bytes that one read gives.
const MAX_BLOCK: usize = 8192;

/// The next line of an input.
#[derive(Debug, PartialEq, Eq, Drop)]
pub enum NextLine {
    /// The input has ended.
    End,
    /// A line of text, without its end.
    Text(String),
    /// A line that has more than `MAX_BYTES` bytes, or isn't text in UTF-8.
    NoText,
}

/// An input that is read by blocks. What a read gives behind a line waits here for the next call. It keeps whether a read of it was
/// ever refused. A read is refused if it gives an error, unless it was interrupted or memory ran out. No other value has that. So a
/// contract can promise that an input isn't refused unless a read of it was, or 2^64 - 1 reads gave no end.
#[derive(Drop)]
pub struct InputStream<R: Read + Drop> {
    ahead: Block,
    stream: R,
    descriptor: Option<RawFd>,
    is_refused: bool,
    reads: u64,
}

impl<R: Read + Drop> Model for InputStream<R> {
    ghost use Rattle.ec_lines.specs.Inputs.{InputState};

    ghost Value = { InputState R };

    ghost view = { λ s. record { ahead = s.ahead; stream = s.stream; is_refused = s.is_refused; reads = s.reads } };
}

impl<R: Read + Drop> InputStream<R> {
    /// An input from a stream. Nothing is read yet.
    pub fn new(stream: R) -> InputStream<R>
        ensures { result ≡ record { ahead = []; stream = stream; is_refused = false; reads = 0 } }
    {
        InputStream {
            ahead: Block::new(),
            stream,
            descriptor: None,
            is_refused: false,
            reads: 0,
        }
    }

    /// An input from the stream of a descriptor, at which one can wait for bytes. Nothing is read yet.
    pub fn watched(stream: R, descriptor: RawFd) -> InputStream<R>
        ensures { result ≡ record { ahead = []; stream = stream; is_refused = false; reads = 0 } }
    {
        InputStream {
            descriptor: Some(descriptor),
            ..InputStream::new(stream)
        }
    }

    /// The descriptor of the stream, if it has one at which one can wait for bytes.
    pub fn descriptor(&self) -> Option<RawFd> {
        self.descriptor
    }

    /// Whether bytes were read that aren't taken yet.
    pub fn is_ahead(&self) -> bool
        ensures { result ≡ nat_lt 0 (length self.now.ahead) }
    {
        !self.ahead.as_slice().is_empty()
    }

    /// Whether a read was ever refused, or the input was given up.
    pub fn is_refused(&self) -> bool
        ensures { result ≡ self.now.is_refused }
    {
        self.is_refused
    }

    /// Reads `most` bytes, or all that are left if these are fewer, and appends them to `bytes`. Bytes that were read ahead come first.
    /// Returns how many bytes were read, or the stream's error. An interrupted read is made again.
    pub fn read_first(&mut self, most: u64, bytes: &mut Vec<u8>) -> io::Result<usize>
        ensures bytes { OnOk result (IfSome (bytes_left R.remaining self.old) (λ all. bytes.new.items ≡ bytes.old.items ++ take most all)) }
        ensures count { IfOk result (λ count. length bytes.new.items ≡ length bytes.old.items + count) }
        ensures retried { IfErr result (λ error. error_kind error ≢ ErrorKind.Interrupted) }
        ensures refused { self.new.is_refused ≡ self.old.is_refused || is_read_refused result }
        ensures counted { OnOk result (self.new.reads ≡ one_more self.old.reads) }
        ensures few { OnErr result (self.new.reads ≤ self.old.reads + 1) }
    {
        let count = self.ahead.take_first(most, bytes)?;
        let read = read_first(&mut self.stream, most - count as u64, bytes);
        self.reads = self.reads.saturating_add(1);
        self.is_refused = self.is_refused || is_read_refused(&read);
        match read {
            Ok(more) => Ok(count + more),
            Err(error) => Err(error),
        }
    }

    /// Reads the stream once. The bytes that came are ahead then. Returns how many they are.
    ///
    /// # Errors
    ///
    /// The stream's error; then nothing is ahead.
    fn read_ahead(&mut self) -> io::Result<usize>
        requires { self.old.ahead ≡ [] }
        ensures count { IfOk result (λ count. length self.new.ahead ≡ count) }
        ensures left { Keeps (bytes_left R.remaining self.old) (bytes_left R.remaining self.new) }
        ensures end { IfOk result (λ count. count ≡ 0 → IsAtEnd (bytes_left R.remaining self.new)) }
        ensures none { OnErr result (self.new.ahead ≡ []) }
        ensures refused { self.new.is_refused ≡ self.old.is_refused || is_read_refused result }
        ensures counted { self.new.reads ≡ one_more self.old.reads }
    {
        let read = self.ahead.fill(&mut self.stream);
        self.reads = self.reads.saturating_add(1);
        self.is_refused = self.is_refused || is_read_refused(&read);
        read
    }

    /// Takes bytes of a line from those ahead, up to its newline, or all. Of the line the first bytes are kept, at most `most`.
    /// Returns whether the newline is taken.
    ///
    /// # Errors
    ///
    /// `AllocError`; then nothing is taken.
    fn take_ahead(&mut self, most: usize, line: &mut Vec<u8>) -> Result<bool, AllocError>
        ensures taken { IfOk result (TakesMore (bytes_left R.remaining self.old) (bytes_left R.remaining self.new) most
            line.old.items line.new.items) }
        ensures whole { IfOk result (λ is_ended. is_ended ≡ false → self.new.ahead ≡ []) }
        ensures left { OnErr result (Keeps (bytes_left R.remaining self.old) (bytes_left R.remaining self.new)) }
        ensures refused { self.new.is_refused ≡ self.old.is_refused }
        ensures counted { self.new.reads ≡ self.old.reads }
    {
        self.ahead.take_part(most, line)
    }

    /// Gives up an input that was read 2^64 - 1 times and gave no end. It then counts as refused.
    fn give_up(&mut self)
        requires { IsSpent self.old.reads }
        ensures ahead { self.new.ahead ≡ self.old.ahead }
        ensures stream { self.new.stream ≡ self.old.stream }
        ensures reads { self.new.reads ≡ self.old.reads }
        ensures refused { self.new.is_refused ≡ true }
    {
        self.is_refused = true;
    }
}

/// Takes the next line of an input: all bytes up to a newline or the end of the input, and nothing behind them. An interrupted read
/// is made again. A line that is too long or isn't text is taken as a whole too.
///
/// # Errors
///
/// `LinesError::Unread` if a read is refused, `Memory` if memory runs out. Some bytes of the line may be taken by then.
pub fn take_line<R: Read + Drop>(
    alloc: Global,
    input: &mut InputStream<R>,
) -> Result<NextLine, LinesError>
    ensures taken { IfOk result (λ taken. (line : List ℕ)
        × TakesLine (bytes_left R.remaining input.old) (bytes_left R.remaining input.new) line × IsTaken line taken) }
    ensures refused { IfErr result (IsReadFault input.new.is_refused) }
    ensures unchanged { OnOk result (input.new.is_refused ≡ input.old.is_refused) }
    ensures left { OnErr result (TakesPart (bytes_left R.remaining input.old) (bytes_left R.remaining input.new)) }
{
    let line = take_bytes(alloc, input, MAX_KEPT)?;
    Ok(taken_of(alloc, &line)?)
}

/// The bytes so far of a line that comes in parts.
#[derive(Drop)]
pub struct LinePart {
    bytes: Vec<u8>,
}

impl Model for LinePart {
    ghost use Rattle.std.specs.Prelude.{ℕ, List};

    ghost Value = { List ℕ };

    ghost view = { λ p. p.bytes.items };
}

impl LinePart {
    /// No bytes of a line.
    pub fn new(alloc: Global) -> LinePart
        ensures { result ≡ [] }
    {
        LinePart {
            bytes: Vec::new(alloc),
        }
    }
}

/// Takes more of a line of an input: of the bytes that were read ahead, those up to a newline. If none are ahead, the stream is read
/// once. Returns the line as [`take_line`] does, once it is whole; `None` if more of it is to come. So it never waits while bytes are
/// ahead.
///
/// # Errors
///
/// `LinesError::Unread` if a read is refused, `Memory` if memory runs out. Some bytes of the line may be taken by then.
pub fn take_part<R: Read + Drop>(
    alloc: Global,
    input: &mut InputStream<R>,
    part: &mut LinePart,
) -> Result<Option<NextLine>, LinesError>
    ensures goes { (start : Option (List ℕ)) → IsSoFar start (bytes_left R.remaining input.old) max_kept part.old
        → IfOk result (GoesOn start (bytes_left R.remaining input.new) part.new) }
    ensures taken { TakesPart (bytes_left R.remaining input.old) (bytes_left R.remaining input.new) }
    ensures refused { IfErr result (IsReadFault input.new.is_refused) }
    ensures unchanged { OnOk result (input.new.is_refused ≡ input.old.is_refused) }
{
    if !take_more(input, &mut part.bytes)? {
        return Ok(None);
    }
    let next = taken_of(alloc, &part.bytes)?;
    part.bytes.clear();
    Ok(Some(next))
}

/// Takes bytes of an input up to the end of a line, or all that are left. Returns the first of them, at most `most`. The stream is
/// read, a block at a time, if no end of a line is ahead. An interrupted read is made again.
pub(crate) fn take_bytes<R: Read + Drop>(
    alloc: Global,
    input: &mut InputStream<R>,
    most: usize,
) -> Result<Vec<u8>, LinesError>
    ensures taken { IfOk result (λ kept.
        TakesKept (bytes_left R.remaining input.old) (bytes_left R.remaining input.new) most kept.items) }
    ensures refused { IfErr result (IsReadFault input.new.is_refused) }
    ensures unchanged { OnOk result (input.new.is_refused ≡ input.old.is_refused) }
    ensures left { OnErr result (TakesPart (bytes_left R.remaining input.old) (bytes_left R.remaining input.new)) }
{
    let mut line = Vec::new(alloc);
    if input.take_ahead(most, &mut line)? {
        return Ok(line);
    }
    for _ in 0..u64::MAX {
        match input.read_ahead() {
            Ok(0) => return Ok(line),
            Ok(_) => {
                if input.take_ahead(most, &mut line)? {
                    return Ok(line);
                }
            }
            Err(error) if error.kind() == ErrorKind::Interrupted => {}
            Err(error) => return Err(LinesError::of_read(&error)),
        }
    }
    input.give_up();
    Err(LinesError::Unread)
}

/// Takes bytes of a line from those that were read ahead, or from one read if none are. Returns whether the line is whole: its newline
/// is taken, or the input has ended. An interrupted read takes nothing.
fn take_more<R: Read + Drop>(
    input: &mut InputStream<R>,
    line: &mut Vec<u8>,
) -> Result<bool, LinesError>
    ensures more { (start : Option (List ℕ)) → IsSoFar start (bytes_left R.remaining input.old) max_kept line.old.items
        → IfOk result (IsMore start (bytes_left R.remaining input.new) line.new.items) }
    ensures taken { TakesPart (bytes_left R.remaining input.old) (bytes_left R.remaining input.new) }
    ensures refused { IfErr result (IsReadFault input.new.is_refused) }
    ensures unchanged { OnOk result (input.new.is_refused ≡ input.old.is_refused) }
{
    if input.is_ahead() {
        return Ok(input.take_ahead(MAX_KEPT, line)?);
    }
    match input.read_ahead() {
        Ok(0) => Ok(true),
        Ok(_) => Ok(input.take_ahead(MAX_KEPT, line)?),
        Err(error) if error.kind() == ErrorKind::Interrupted => Ok(false),
        Err(error) => Err(LinesError::of_read(&error)),
    }
}

/// The line that these bytes are, which have its end; no bytes are the end of the input.
fn taken_of(alloc: Global, line: &[u8]) -> Result<NextLine, AllocError>
    ensures { IfOk result (IsTaken line.now) }
{
    if line.is_empty() {
        return Ok(NextLine::End);
    }
    let line = without_end(line);
    if line.len() > MAX_BYTES {
        return Ok(NextLine::NoText);
    }
    match str::from_utf8(line) {
        Ok(text) => Ok(NextLine::Text(String::from_str(alloc, text)?)),
        Err(_) => Ok(NextLine::NoText),
    }
}

/// A line without its end.
fn without_end(line: &[u8]) -> &[u8]
    ensures { result.now ≡ without_end line.now }
{
    match line.strip_suffix(b"\n".as_slice()) {
        Some(line) => line.strip_suffix(b"\r".as_slice()).unwrap_or(line),
        None => line,
    }
}

/// Bytes that were read and are not yet taken.
#[derive(Drop)]
struct Block {
    room: [u8; MAX_BLOCK],
    start: usize,
    end: usize,
}

impl Model for Block {
    ghost use Rattle.std.specs.Prelude.{◌≤◌, ℕ, List, slice_range};

    ghost Value = { List ℕ };

    ghost view = { λ b. slice_range b.room b.start b.end };

    ghost invariant = { λ b. (b.start ≤ b.end) × (b.end ≤ 8192) };
}

impl Block {
    /// No bytes.
    fn new() -> Block
        ensures { result ≡ [] }
    {
        Block {
            room: [0; MAX_BLOCK],
            start: 0,
            end: 0,
        }
    }

    /// The bytes.
    fn as_slice(&self) -> &[u8]
        ensures { result.now ≡ self.now }
    {
        &self.room[self.start..self.end]
    }

    /// Takes bytes off the front.
    fn consume(&mut self, count: usize)
        requires { count ≤ length self.old }
        ensures { self.new ≡ drop count self.old }
    {
        self.start += count;
    }

    /// Reads a stream once, in place of the bytes: returns how many came, which are at most `MAX_BLOCK`. A read waits for no more
    /// than what is there.
    ///
    /// # Errors
    ///
    /// The stream's. No byte is there then.
    fn fill<R: Read>(&mut self, stream: &mut R) -> io::Result<usize>
        ensures count { IfOk result (λ count. length self.new ≡ count) }
        ensures bytes { OnOk result (Consumes (R.remaining stream.old) (R.remaining stream.new) self.new) }
        ensures end { IfOk result (λ count. count ≡ 0 → IsAtEnd (R.remaining stream.new)) }
        ensures none { OnErr result ((self.new ≡ []) × Keeps (R.remaining stream.old) (R.remaining stream.new)) }
    {
        self.start = 0;
        self.end = 0;
        let count = stream.read(&mut self.room)?;
        self.end = count;
        Ok(count)
    }

    /// Takes the first bytes off the front, at most `most`, and puts them behind others. Returns how many they are.
    ///
    /// # Errors
    ///
    /// `AllocError`; then nothing is taken.
    fn take_first(&mut self, most: u64, bytes: &mut Vec<u8>) -> Result<usize, AllocError>
        ensures bytes { OnOk result (bytes.new.items ≡ bytes.old.items ++ take most self.old) }
        ensures count { IfOk result (λ count. count ≡ min most (length self.old)) }
        ensures left { OnErr result (self.new ≡ self.old) }
    {
        let ahead = self.as_slice();
        let count = (most as usize).min(ahead.len());
        bytes.extend_from_slice(&ahead[..count])?;
        self.consume(count);
        Ok(count)
    }

    /// Takes bytes of a line off the front, up to its newline, or all. Of the line the first bytes are kept, at most `most`. Returns
    /// whether the newline is taken.
    ///
    /// # Errors
    ///
    /// `AllocError`; then nothing is taken.
    fn take_part(&mut self, most: usize, line: &mut Vec<u8>) -> Result<bool, AllocError>
        ensures taken { IfOk result (TakesAhead self.old self.new most line.old.items line.new.items) }
        ensures left { OnErr result (self.new ≡ self.old) }
    {
        let ahead = self.as_slice();
        let (count, is_ended) = line_part(ahead);
        keep(line, most, &ahead[..count])?;
        self.consume(count);
        Ok(is_ended)
    }
}

/// How many of the bytes are of the line that they begin, with its newline; and whether that is among them.
fn line_part(bytes: &[u8]) -> (usize, bool)
    ensures bound { result.0 ≤ length bytes.now }
    ensures whole { result.1 ≡ false → result.0 ≡ length bytes.now }
    ensures is_part { IsPart result.1 (take result.0 bytes.now) }
{
    match newline_in(bytes) {
        Some(place) => (place + 1, true),
        None => (bytes.len(), false),
    }
}

/// The place of the first newline.
fn newline_in(bytes: &[u8]) -> Option<usize>
    ensures { result ≡ position (λ b. b == 10) bytes.now }
{
    bytes.iter().position(|byte| *byte == b'\n')
}

/// Keeps more bytes of a line, of which `most` are kept at most.
fn keep(line: &mut Vec<u8>, most: usize, part: &[u8]) -> Result<(), AllocError>
    ensures { OnOk result (line.new.items ≡ kept_more most line.old.items part.now) }
{
    let room = most.saturating_sub(line.len());
    line.extend_from_slice(&part[..room.min(part.len())])?;
    Ok(())
}

/// Appends `most` bytes of a stream to `bytes`, or all that are left if they are fewer. Returns how many bytes it appended.
fn read_first<R: Read>(stream: &mut R, most: u64, bytes: &mut Vec<u8>) -> io::Result<usize>
    ensures bytes { OnOk result (IfSome (R.remaining stream.old) (λ all. bytes.new.items ≡ bytes.old.items ++ take most all)) }
    ensures count { IfOk result (λ count. length bytes.new.items ≡ length bytes.old.items + count) }
    ensures retried { IfErr result (λ error. error_kind error ≢ ErrorKind.Interrupted) }
{
    stream.take(most).read_to_end(bytes)
}

/// Whether the result of a read is a refusal: an error, but no interruption and no want of memory.
fn is_read_refused(read: &io::Result<usize>) -> bool
    ensures { result ≡ is_read_refused read.now }
{
    match read {
        Ok(_) => false,
        Err(error) => !matches!(
            error.kind(),
            ErrorKind::Interrupted | ErrorKind::OutOfMemory
        ),
    }
}

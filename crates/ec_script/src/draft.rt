//! Lines that are read one after another: what each is, the blocks that are open, and what is due.
ghost use Rattle.std.specs.Prelude.{◌≡◌, IfOk, OnErr, length, map, nat_lt, not, reverse, slice_get};
ghost use Rattle.ec_script.specs.Blocks.{opened};
ghost use Rattle.ec_script.specs.Drafts.{added_if, closed, drafted, due_at_end, empty_draft, gathered, has_room_for, whole};
ghost use Rattle.ec_script.specs.Scripts.{brace_of_words, brace_on, piece_or, piece_reading, unindented};
ghost use Rattle.ec_script.specs.Growing.{Grows};
ghost use Rattle.ec_script.specs.Stages.{IsBegun, IsBegunIf, IsEnded};
ghost use Rattle.ec_script.specs.Words.{without_start_blanks};

use crate::read::{Reading, read_line, simulated, uncommented, words_of};
use crate::script::{MAX_DEPTH, Piece, Script};
use crate::words::times_of;
use arrayvec::ArrayVec;
use ec_decode::DecodeError as ScriptError;
use ec_table::Table;
use std::alloc::{AllocError, Global};
use std::marker::Model;
use std::mem;

/// How many lines and braces a block that comes may have. A `}` may follow all the same.
pub const MAX_LINES: usize = 1000;

/// What a line of a script is, by its text.
#[derive(Debug, Drop)]
pub enum PieceReading {
    /// Nothing but a comment, or nothing at all.
    Empty,
    /// The line stands for nothing.
    Bad,
    /// A line or a brace.
    Piece(Piece),
}

/// What is due once a line has come.
#[derive(Drop)]
pub enum Due {
    /// The line of this number is bad.
    Bad(usize),
    /// These lines are to be done. There are none if the line is empty, or if a block is open behind it.
    Lines(Script),
}

/// The lines and braces so far of a script, or of a block that comes and isn't whole yet; and the numbers of the lines that begin the
/// blocks around the next one.
#[derive(Drop)]
pub struct Draft {
    pieces: Vec<Piece>,
    around: ArrayVec<usize, MAX_DEPTH>,
}

impl Model for Draft {
    ghost use Rattle.std.specs.Prelude.{length, reverse};
    ghost use Rattle.ec_script.specs.Drafts.{DraftState};
    ghost use Rattle.ec_script.specs.Stages.{AreNested};

    ghost Value = { DraftState };

    ghost view = { λ d. record { pieces = reverse d.pieces.items; around = reverse d.around.items } };

    ghost invariant = { λ d. AreNested 0 d.pieces.items (length d.around.items) };
}

impl Draft {
    /// A draft without lines, which takes no memory.
    pub fn new(alloc: Global) -> Draft
        ensures { result ≡ empty_draft }
    {
        Draft {
            pieces: Vec::new(alloc),
            around: ArrayVec::new(),
        }
    }

    /// How many blocks are open.
    pub fn depth(&self) -> usize
        ensures { result ≡ length self.now.around }
    {
        self.around.len()
    }

    /// Whether it has as many lines as a block that comes may have.
    pub fn is_full(&self) -> bool
        ensures { result ≡ not (nat_lt (length self.now.pieces) 1000) }
    {
        self.pieces.len() >= MAX_LINES
    }

    /// A text without the blanks before it, if a block is open.
    pub fn unindented<'t>(&self, text: &'t str) -> &'t str
        ensures { result.now ≡ unindented self.now.around text.now }
    {
        if self.around.is_empty() {
            text
        } else {
            without_start_blanks(text)
        }
    }

    /// Adds line `number` of a script. Returns whether it is good: a bad line changes nothing.
    pub(crate) fn add(
        &mut self,
        alloc: Global,
        table: &Table,
        number: usize,
        text: &str,
    ) -> Result<bool, AllocError>
        ensures { IfOk result (Grows (drafted number (piece_reading table.now number self.old.around text.now) self.old) self.old self.new) }
    {
        let text = self.unindented(text);
        let reading = simulated(read_line(alloc, table, number, text)?);
        let piece = read_piece(alloc, text, reading)?;
        self.push_reading(number, piece)
    }

    /// Adds line `number` of lines that come: a brace if its text is one, else what it is without blocks. Its text has no blanks
    /// before it in a block. Returns what is due then. A bad line changes nothing.
    ///
    /// # Errors
    ///
    /// `AllocError` if memory ran out. Nothing changes then.
    pub fn gather(
        &mut self,
        alloc: Global,
        number: usize,
        text: &str,
        reading: Reading,
    ) -> Result<Due, AllocError>
        ensures draft { IfOk result (λ due. self.new ≡ (gathered number (piece_or (brace_on text.now) reading) self.old).0) }
        ensures due { IfOk result (λ due. due ≡ (gathered number (piece_or (brace_on text.now) reading) self.old).1) }
        ensures unchanged { OnErr result (self.new ≡ self.old) }
    {
        let piece = read_piece(alloc, text, reading)?;
        if !self.has_room_for(&piece) {
            return Ok(Due::Bad(number));
        }
        if !self.push_reading(number, piece)? {
            return Ok(Due::Bad(number));
        }
        Ok(Due::Lines(self.take_whole(alloc)))
    }

    /// Ends lines that come. Returns what is due then: a block that is still open is bad, and is left out.
    pub fn end(&mut self, alloc: Global) -> Due
        ensures draft { self.new ≡ empty_draft }
        ensures due { result ≡ due_at_end self.old.around }
    {
        let open = self.open_line();
        *self = Draft::new(alloc);
        match open {
            Some(number) => Due::Bad(number),
            None => Due::Lines(Script::new(alloc)),
        }
    }

    /// The script, if no block is open.
    ///
    /// # Errors
    ///
    /// `BadScript`, with the number of the line that begins the innermost block that is still open.
    pub(crate) fn into_script(self) -> Result<Script, ScriptError>
        ensures { IsEnded (reverse self.pieces) self.around result }
    {
        match self.open_line() {
            Some(number) => Err(ScriptError::BadScript(number)),
            None => Ok(Script::of(self.pieces)),
        }
    }

    /// The line that begins the innermost block that is open.
    fn open_line(&self) -> Option<usize>
        ensures { result ≡ slice_get self.now.around 0 }
    {
        self.around.as_slice().last().copied()
    }

    /// Whether a block that comes has room for what a line is.
    fn has_room_for(&self, reading: &PieceReading) -> bool
        ensures { result ≡ has_room_for (length self.now.pieces) reading.now }
    {
        match reading {
            PieceReading::Piece(Piece::Line(_)) | PieceReading::Piece(Piece::Open(_)) =>
                !self.is_full(),
            PieceReading::Piece(Piece::Close) | PieceReading::Empty | PieceReading::Bad => true,
        }
    }

    /// Takes all lines so far, if no block is open; else there are none.
    fn take_whole(&mut self, alloc: Global) -> Script
        ensures draft { self.new ≡ (whole self.old.around self.old).0 }
        ensures lines { result ≡ (whole self.old.around self.old).1 }
    {
        if !self.around.is_empty() {
            return Script::new(alloc);
        }
        Script::of(mem::replace(&mut self.pieces, Vec::new(alloc)))
    }

    /// Adds what line `number` is. Returns whether it is good: a bad line changes nothing.
    fn push_reading(&mut self, number: usize, reading: PieceReading) -> Result<bool, AllocError>
        requires { IsBegunIf reading }
        ensures grows { IfOk result (Grows (drafted number reading self.old) self.old self.new) }
        ensures unchanged { OnErr result (self.new ≡ self.old) }
    {
        match reading {
            PieceReading::Empty => Ok(true),
            PieceReading::Bad => Ok(false),
            PieceReading::Piece(piece) => self.push(number, piece),
        }
    }

    /// Adds a piece, which stands on line `number`, if it may stand there. Returns whether it may; if not, nothing changes.
    fn push(&mut self, number: usize, piece: Piece) -> Result<bool, AllocError>
        requires { IsBegun piece }
        ensures grows { IfOk result (Grows (added_if piece (opened number self.old.around piece) self.old) self.old self.new) }
        ensures unchanged { OnErr result (self.new ≡ self.old) }
    {
        match piece {
            Piece::Line(_) => self.pieces.push(piece)?,
            Piece::Open(_) => {
                if self.around.is_full() {
                    return Ok(false);
                }
                self.pieces.push(piece)?;
                self.around.push(number);
            }
            Piece::Close => {
                if self.around.is_empty() {
                    return Ok(false);
                }
                close(&mut self.pieces)?;
                self.around.pop();
            }
        }
        Ok(true)
    }
}

/// Adds a `}` to pieces; if the block has no lines, it takes the `repeat N {` away.
fn close(pieces: &mut Vec<Piece>) -> Result<(), AllocError>
    ensures closed { IfOk result (λ done. reverse pieces.new.items ≡ closed (reverse pieces.old.items)) }
    ensures unchanged { OnErr result (pieces.new.items ≡ pieces.old.items) }
{
    if let Some(Piece::Open(_)) = pieces.last() {
        pieces.pop();
        return Ok(());
    }
    pieces.push(Piece::Close)?;
    Ok(())
}

/// A text without the blanks at its beginning.
fn without_start_blanks(text: &str) -> &str
    ensures { result.now ≡ without_start_blanks text.now }
{
    text.trim_start_matches(' ')
}

/// What a line is by its text, which has no blanks before it: a brace, or else what it is without blocks.
fn read_piece(alloc: Global, text: &str, reading: Reading) -> Result<PieceReading, AllocError>
    ensures { IfOk result (λ piece. piece ≡ piece_or (brace_on text.now) reading) }
{
    let words = words_of(alloc, uncommented(text))?;
    if let Some(brace) = brace_of_words(words.as_slice()) {
        return Ok(PieceReading::Piece(brace));
    }
    Ok(match reading {
        Reading::Empty => PieceReading::Empty,
        Reading::Bad => PieceReading::Bad,
        Reading::Line(line) => PieceReading::Piece(Piece::Line(line)),
    })
}

/// The brace that words write.
fn brace_of_words(words: &[&str]) -> Option<Piece>
    ensures { result ≡ brace_of_words (map (λ x. x.now) words.now) }
{
    match words {
        [word] if *word == "}" => Some(Piece::Close),
        [verb, count, brace] if *verb == "repeat" && *brace == "{" => {
            times_of(count).map(|times| Piece::Open(times))
        }
        _ => None,
    }
}

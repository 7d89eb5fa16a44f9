//! A script: its lines, and blocks of them that are done again and again.
ghost use Rattle.std.specs.Prelude.{◌≡◌, ◌≤◌, [], length, reverse};
ghost use Rattle.std.specs.Iterator.{YieldsFirstRef};
ghost use Rattle.ec_script.specs.Blocks.{unrolled};
ghost use Rattle.ec_script.specs.Stages.{AreNested, IsAt, lines_left, turned};

use crate::line::Line;
use arrayvec::ArrayVec;
use std::alloc::Global;
use std::marker::Model;

/// How many blocks may stand in one another.
pub const MAX_DEPTH: usize = 8;

/// A line of a script, or a brace of a block.
#[derive(Debug, Drop)]
pub enum Piece {
    Line(Line),
    /// `repeat N {`: the pieces up to its `}` are done this many times, once at least.
    Open(u32),
    /// `}`: it ends the block that was begun last.
    Close,
}

/// The lines of a script in the order in which they are done: those of a block as many times as it says. It has the text's lines alone,
/// and no copies.
#[derive(Drop)]
pub struct Script {
    pieces: Vec<Piece>,
}

impl Model for Script {
    ghost use Rattle.std.specs.Prelude.{List};
    ghost use Rattle.ec_script.specs.Blocks.{unrolled};
    ghost use Rattle.ec_script.specs.Stages.{AreNested};
    ghost use Rattle.ec_script.specs.declared.line.Line.{Line};

    ghost Value = { List Line };

    ghost view = { λ s. unrolled s.pieces.items };

    ghost invariant = { λ s. AreNested 0 s.pieces.items 0 };
}

impl Script {
    /// A script without lines, which takes no memory.
    pub fn new(alloc: Global) -> Script
        ensures { result ≡ [] }
    {
        Script {
            pieces: Vec::new(alloc),
        }
    }

    /// The script of these pieces.
    pub(crate) fn of(pieces: Vec<Piece>) -> Script
        requires { AreNested 0 pieces.items 0 }
        ensures { result ≡ unrolled pieces.items }
    {
        Script { pieces }
    }

    /// Its lines, one after another. Taking them allocates nothing.
    pub fn lines(&self) -> ScriptLines<'_>
        ensures { result ≡ self.now }
    {
        ScriptLines {
            pieces: self.pieces.as_slice(),
            place: 0,
            around: ArrayVec::new(),
        }
    }
}

/// A block that is being done: the place behind its `repeat N {`, and how many of its rounds are left, with the one that it is in.
#[derive(Clone, Copy, Debug, Default, PartialEq, Eq, Drop)]
pub(crate) struct Round {
    begin: usize,
    left: u32,
}

/// The lines of a script that are left to be done.
#[derive(Drop)]
pub struct ScriptLines<'s> {
    pieces: &'s [Piece],
    place: usize,
    around: ArrayVec<Round, MAX_DEPTH>,
}

impl<'s> Model for ScriptLines<'s> {
    ghost use Rattle.std.specs.Prelude.{List, reverse};
    ghost use Rattle.ec_script.specs.Stages.{IsAt, lines_left};
    ghost use Rattle.ec_script.specs.declared.line.Line.{Line};

    ghost Value = { List Line };

    ghost view = { λ s. lines_left s.pieces.now s.place (reverse s.around.items) };

    ghost invariant = { λ s. IsAt s.pieces.now s.place (reverse s.around.items) };
}

impl<'s> Iterator for ScriptLines<'s> {
    ghost use Rattle.std.specs.Iterator.{YieldsFirstRef, item_count};

    type Item = &'s Line;

    ghost next_gives = { YieldsFirstRef (λ lines. lines) };

    ghost remaining = { item_count (λ lines. lines) };

    fn next(&mut self) -> Option<&'s Line> {
        take_line(self.pieces, &mut self.place, &mut self.around)
    }
}

/// Takes the next line of pieces, from a place on, in the blocks around it. `None` behind the last one.
fn take_line<'s>(
    pieces: &'s [Piece],
    place: &mut usize,
    around: &mut ArrayVec<Round, MAX_DEPTH>,
) -> Option<&'s Line>
    requires { IsAt pieces.now place.old (reverse around.old.items) }
    ensures at { IsAt pieces.now place.new (reverse around.new.items) }
    ensures gives { YieldsFirstRef (λ lines. lines) (lines_left pieces.now place.old (reverse around.old.items)) result
        (lines_left pieces.now place.new (reverse around.new.items)) }
{
    while let Some(piece) = pieces.get(*place) {
        let next = *place + 1;
        match piece {
            Piece::Line(line) => {
                *place = next;
                return Some(line);
            }
            Piece::Open(times) => {
                around.push(Round {
                    begin: next,
                    left: *times,
                });
                *place = next;
            }
            Piece::Close => *place = turn(around, next),
        }
    }
    None
}

/// Ends a round of the innermost of the blocks around a `}`, which stands before the place `next`. Returns the place at which it goes on:
/// the block's beginning if it has further rounds.
fn turn(around: &mut ArrayVec<Round, MAX_DEPTH>, next: usize) -> usize
    requires { length around.old.items ≤ 8 }
    ensures place { result ≡ (turned next (reverse around.old.items)).0 }
    ensures around { reverse around.new.items ≡ (turned next (reverse around.old.items)).1 }
{
    let Some(Round { begin, left }) = around.pop() else {
        return next;
    };
    if left <= 1 {
        return next;
    }
    around.push(Round {
        begin,
        left: left - 1,
    });
    begin
}

//! A reader of frames, line by line.
ghost use Rattle.std.specs.Prelude.{◌≡◌, [], IfErr, IfOk, Option, Some, None, is_none, map, option_map};
ghost use Rattle.std.specs.Option.{ForSome};
ghost use Rattle.ec_decode.specs.Growing.{Grows, Refuses};
ghost use Rattle.ec_decode.specs.Holding.{IsHeld, begun_of};
ghost use Rattle.ec_decode.specs.Lines.{heading_in};
ghost use Rattle.ec_decode.specs.Reading.{Begun as BegunState, ReadsLine, is_skipped};

use crate::begun::Begun;
use crate::error::DecodeError;
use crate::line::{datagram_in, heading_in};
use crate::words::words_of;
use std::alloc::Global;
use std::marker::Model;

/// A reader of frames from the lines of their text. In contracts a reader is the frame that isn't
/// whole yet, if there is one.
#[derive(Drop)]
pub struct Reader {
    begun: Option<Begun>,
}

impl Model for Reader {
    ghost Value = { Option BegunState };

    ghost view = { λ r. option_map begun_of r.begun };

    ghost invariant = { λ r. ForSome r.begun IsHeld };
}

impl Reader {
    /// A reader that is between two frames.
    pub fn new() -> Self
        ensures { result ≡ None }
    {
        Reader { begun: None }
    }

    /// Whether the reader is between two frames, so that a text may end here.
    pub fn is_between(&self) -> bool
        ensures { result ≡ is_none self.now }
    {
        self.begun.is_none()
    }

    /// Reads a line, and returns the frame if the line completes it. `number` is the line's, for the error.
    ///
    /// # Errors
    ///
    /// `BadScript` if the line is out of form, `Memory` if memory ran out; the reader stays as
    /// it was.
    pub fn read_line(
        &mut self,
        alloc: Global,
        number: usize,
        line: &str,
    ) -> Result<Option<Vec<u8>>, DecodeError>
        ensures { ReadsLine self.old number line.now self.new result }
    {
        if is_skipped(line) {
            return Ok(None);
        }
        let words = words_of(alloc, line)?;
        match &mut self.begun {
            None => {
                self.begun = Some(begin(alloc, number, words.as_slice())?);
                Ok(None)
            }
            Some(begun) => {
                let whole = grow(alloc, number, begun, words.as_slice())?;
                if whole.is_some() {
                    self.begun = None;
                }
                Ok(whole)
            }
        }
    }
}

/// Reads the line of a frame's next datagram, and returns the frame if that is the last one.
fn grow(
    alloc: Global,
    number: usize,
    begun: &mut Begun,
    words: &[&str],
) -> Result<Option<Vec<u8>>, DecodeError>
    requires { IsHeld begun.old }
    ensures held { IsHeld begun.new }
    ensures grown { Grows (begun_of begun.old) number (map (λ x. x.now) words.now)
        (begun_of begun.new) result }
{
    let Some(stated) = datagram_in(alloc, begun.number(), words)? else {
        return Err(DecodeError::BadScript(number));
    };
    if !begun.fits(&stated) {
        return Err(DecodeError::BadScript(number));
    }
    if begun.ends() {
        return Ok(Some(begun.finish(alloc, &stated)?));
    }
    begun.add(alloc, &stated)?;
    Ok(None)
}

/// The frame that its line begins.
fn begin(alloc: Global, number: usize, words: &[&str]) -> Result<Begun, DecodeError>
    ensures begun { IfOk result (λ begun. heading_in (map (λ x. x.now) words.now)
        ≡ Some (begun_of begun).heading × ((begun_of begun).datagrams ≡ [])) }
    ensures held { IfOk result IsHeld }
    ensures refused { IfErr result (Refuses number (heading_in (map (λ x. x.now) words.now))) }
{
    match heading_in(alloc, words)? {
        Some(heading) => Ok(Begun::new(alloc, heading)),
        None => Err(DecodeError::BadScript(number)),
    }
}

/// Whether a line says nothing: it is empty or indented.
fn is_skipped(line: &str) -> bool
    ensures { result ≡ is_skipped line.now }
{
    match line.as_bytes() {
        [] => true,
        [first, ..] => *first == b' ' || *first == b'\t',
    }
}

//! Remarks on a text while they are collected, at the ends of paths through it.
ghost use Rattle.std.specs.Prelude.{◌≡◌, IfOk};

use crate::outline::{Outline, PathStep};
use crate::remark::Remarks;
use crate::spot::{Span, spot_of};
use crate::words::Nearest;
use std::alloc::{AllocError, Global};
use std::fmt::Display;
use strsim::osa_distance;

/// Words with more bytes than this are near no name.
const MAX_WORD: usize = 64;

/// Which bytes at the end of a path are marked.
#[derive(Clone, Copy, PartialEq, Eq)]
pub enum MarkedPart {
    /// The key.
    Key,
    /// The value.
    Value,
}

/// A remark, on some bytes or on none.
#[derive(Drop)]
struct Saying {
    span: Option<Span>,
    words: String,
}

/// A text with its outline, and the remarks on it so far. The words of a remark are any value that prints them, such as
/// `format_args!(..)`. If memory runs out for them, that is noted, and `into_remarks` returns the error: so callers have no early exit
/// at each remark.
#[derive(Drop)]
pub struct Diagnosis<'a> {
    /// The allocator of all remarks.
    pub alloc: Global,
    text: &'a str,
    outline: Outline<'a>,
    sayings: Vec<Saying>,
    /// The byte at which the element begins that was named last.
    element: Option<usize>,
    /// Whether memory ran out for a remark.
    is_short: bool,
}

impl<'a> Diagnosis<'a> {
    /// A text without remarks. `AllocError` if memory ran out.
    pub fn new(alloc: Global, text: &'a str) -> Result<Diagnosis<'a>, AllocError> {
        Ok(Diagnosis {
            alloc,
            text,
            outline: Outline::new(alloc, text)?,
            sayings: Vec::new(alloc),
            element: None,
            is_short: false,
        })
    }

    /// The remarks, on the text that they were made for. `AllocError` if memory ran out, now or for a remark.
    pub fn into_remarks<'t>(self, text: &'t str) -> Result<Remarks<'t>, AllocError>
        ensures { IfOk result (λ remarks. remarks.text ≡ text.now) }
    {
        let Diagnosis {
            alloc,
            sayings,
            is_short,
            ..
        } = self;
        if is_short {
            return Err(AllocError);
        }
        remarks_of(alloc, text, sayings)
    }

    /// Notes that memory ran out for a remark.
    pub fn fall_short(&mut self) {
        self.is_short = true;
    }

    /// The nearer to a word of the nearest name so far and the name at an index.
    pub fn nearer(&mut self, near: Nearest, word: &str, index: usize, name: &str) -> Nearest {
        if word.len() > MAX_WORD {
            return near;
        }
        let Ok(edits) = osa_distance(self.alloc, word, name) else {
            self.fall_short();
            return near;
        };
        near.or(index, edits)
    }

    /// Adds a remark that has no place.
    pub fn note<D: Display + Drop>(&mut self, words: D) {
        self.say(None, words);
    }

    /// Adds a remark on what to do.
    pub fn advise<D: Display + Drop>(&mut self, what: D) {
        self.say(None, format_args!("To do: {what}."));
    }

    /// Adds a remark on the end of a path, marks a part there, and names the element that it is in. If a part of
    /// the path isn't found, it marks the last that is found; if none is, the remark says so.
    pub fn at<D: Display + Drop>(&mut self, path: &[PathStep<'_>], part: MarkedPart, words: D) {
        match self.find(path, part) {
            Some(span) => self.at_span(span, words),
            None => self.note(format_args!("{words} (where that stands in the text isn't found)")),
        }
    }

    /// Adds a remark on some bytes of the text, and marks them.
    pub fn at_span<D: Display + Drop>(&mut self, span: Span, words: D) {
        self.say(Some(span), words);
    }

    /// Whether the whole path is found in the text.
    pub fn has(&self, path: &[PathStep<'_>]) -> bool {
        self.outline.find(path).steps == path.len()
    }

    /// Adds a remark on some bytes, or on none. All words are made here.
    fn say<D: Display + Drop>(&mut self, span: Option<Span>, words: D) {
        let words = String::format(self.alloc, words);
        if self.keep(span, words).is_err() {
            self.is_short = true;
        }
    }

    /// Adds a remark with words that were made for it. `AllocError` if memory ran out, for them or for the remark.
    fn keep(
        &mut self,
        span: Option<Span>,
        words: Result<String, AllocError>,
    ) -> Result<(), AllocError> {
        let words = words?;
        self.sayings.push(Saying { span, words })?;
        Ok(())
    }

    /// The bytes to mark at the end of a path, after the element is named that they are in; `None` if nothing of the way is found.
    fn find(&mut self, path: &[PathStep<'_>], part: MarkedPart) -> Option<Span> {
        let found = self.outline.find(path);
        if found.steps == 0 {
            return None;
        }
        let span = match part {
            MarkedPart::Value if found.steps == path.len() => found.value,
            _ => found.key,
        };
        self.say_element(path, span.start);
        Some(span)
    }

    /// Adds a remark on the element that a path goes through, if it begins in another line than the way ends in.
    fn say_element(&mut self, path: &[PathStep<'_>], start: usize) {
        let [PathStep::Key(section), PathStep::Item(element), _, ..] = path else {
            return;
        };
        let found = self.outline.find(&path[..2]);
        let begin = found.key.start;
        let is_elsewhere = spot_of(self.text, begin).line != spot_of(self.text, start).line;
        if found.steps == 2 && is_elsewhere && self.element != Some(begin) {
            self.element = Some(begin);
            self.at_span(found.key, format_args!("{section} {element} begins here"));
        }
    }

    /// Adds a remark on a row of a list of the document, and marks it.
    pub fn at_row<D: Display + Drop>(&mut self, list: &str, index: usize, words: D) {
        let path = [PathStep::Key(list), PathStep::Item(index)];
        self.at(&path, MarkedPart::Key, words);
    }

    /// Adds a remark on what stands under a key of such a row, and marks that.
    pub fn at_key<'k, D: Display + Drop>(
        &mut self,
        list: &'k str,
        index: usize,
        key: &'k str,
        words: D,
    ) {
        let path = [
            PathStep::Key(list),
            PathStep::Item(index),
            PathStep::Key(key),
        ];
        self.at(&path, MarkedPart::Value, words);
    }
}

/// The remarks on a text. `AllocError` if memory ran out.
fn remarks_of<'t>(
    alloc: Global,
    text: &'t str,
    sayings: Vec<Saying>,
) -> Result<Remarks<'t>, AllocError>
    ensures { IfOk result (λ remarks. remarks.text ≡ text.now) }
{
    let mut remarks = Remarks::new(alloc, text);
    for saying in sayings {
        let Saying { span, words } = saying;
        match span {
            Some(span) => remarks.at(span, words)?,
            None => remarks.note(words)?,
        }
    }
    Ok(remarks)
}

//! The words of a line.
use ec_diagnostic::Span;

/// A word of a line, and where it begins in the text, in bytes.
#[derive(Clone, Copy)]
pub struct Word<'t> {
    pub start: usize,
    pub text: &'t str,
}

/// A line, or its end from one of its words, and where it begins in the text, in bytes. Its words stand one blank apart.
#[derive(Clone, Copy)]
pub struct Line<'t> {
    pub start: usize,
    pub text: &'t str,
}

impl Word<'_> {
    /// Where it stands.
    pub fn span(self) -> Span {
        span_of(self.start, self.text)
    }
}

impl<'t> Line<'t> {
    /// Where it stands.
    pub fn span(self) -> Span {
        span_of(self.start, self.text)
    }

    /// The line as it stands with so many blocks around it: in a block, without the blanks before it.
    pub fn in_blocks(self, depth: usize) -> Line<'t> {
        if depth == 0 {
            return self;
        }
        let text = self.text.trim_start_matches(' ');
        let blanks = self.text.len().saturating_sub(text.len());
        Line {
            start: self.start.saturating_add(blanks),
            text,
        }
    }

    /// The word at a place, counted from 0.
    pub fn word(self, place: usize) -> Option<Word<'t>> {
        let mut start = self.start;
        for (at, text) in self.text.split(' ').enumerate() {
            if at == place {
                return Some(Word { start, text });
            }
            start = start.saturating_add(text.len()).saturating_add(1);
        }
        None
    }

    /// Whether a word stands at a place.
    pub fn has(self, place: usize, word: &str) -> bool {
        match self.word(place) {
            Some(found) => found.text == word,
            None => false,
        }
    }

    /// Where a word is missing: the place of the first word that is empty.
    pub fn gap(self) -> Option<Span> {
        let mut start = self.start;
        for text in self.text.split(' ') {
            if text.is_empty() {
                return Some(span_of(start, text));
            }
            start = start.saturating_add(text.len()).saturating_add(1);
        }
        None
    }

    /// Its end, which begins with one of its words.
    pub fn from(self, word: Word<'t>) -> Line<'t> {
        let before = word.start.saturating_sub(self.start);
        Line {
            start: word.start,
            text: self.text.get(before..).unwrap_or(""),
        }
    }
}

/// The bytes of a text that begins at the byte `start`.
fn span_of(start: usize, text: &str) -> Span {
    Span {
        start,
        end: start.saturating_add(text.len()),
    }
}

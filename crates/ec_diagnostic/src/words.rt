//! Words for people: names that someone may have meant, lists and numbers of things. Each value prints
//! itself, and allocates nothing for that.
use crate::text::printed;
use std::fmt;

/// How many characters of a text are printed at most.
const SHOWN: usize = 40;

/// Whether a word is among names.
pub fn is_among(word: &str, names: &[&str]) -> bool {
    for name in names {
        if *name == word {
            return true;
        }
    }
    false
}

/// The first of the names that are nearest to a word, by its place among those that were compared. A name is near if no more edits are
/// needed than a third of the word's bytes, or than one.
#[derive(Clone, Copy, Drop)]
pub struct Nearest {
    /// The edits that it needs; without a name, the most that are near.
    edits: usize,
    /// Its place, if a name is near.
    pub place: Option<usize>,
}

impl Nearest {
    /// None of the names yet.
    pub fn to(word: &str) -> Nearest {
        Nearest {
            edits: (word.len() / 3).max(1),
            place: None,
        }
    }

    /// The nearer of it and the name at a place, which needs this many edits.
    pub(crate) fn or(self, place: usize, edits: usize) -> Nearest {
        if edits < self.edits || (edits == self.edits && self.place.is_none()) {
            let place = Some(place);
            return Nearest { edits, place };
        }
        self
    }
}

/// A name that may have been meant. It is printed as a question behind a semicolon; without a name, as nothing.
#[derive(Clone, Copy, Drop)]
pub struct Meant<'n>(pub Option<&'n str>);

impl fmt::Display for Meant<'_> {
    fn fmt<W: fmt::Write>(&self, f: &mut fmt::Formatter<W>) -> fmt::Result {
        match self.0 {
            Some(name) => write!(f, "; did you mean `{name}`?"),
            None => Ok(()),
        }
    }
}

/// What stands before the text at an index of a list of `count` texts: nothing, a comma or `and`.
pub fn comma(index: usize, count: usize) -> &'static str {
    match count.saturating_sub(index) {
        _ if index == 0 => "",
        1 => " and ",
        _ => ", ",
    }
}

/// A number of things, printed as `1 bit` or `2 bits`.
#[derive(Clone, Copy, Drop)]
pub struct Counted<'t>(pub usize, pub &'t str);

impl fmt::Display for Counted<'_> {
    fn fmt<W: fmt::Write>(&self, f: &mut fmt::Formatter<W>) -> fmt::Result {
        let Counted(count, thing) = *self;
        let ending = if count == 1 { "" } else { "s" };
        write!(f, "{count} {thing}{ending}")
    }
}

/// A text of a table. At most 40 of its characters are printed, and none that moves the cursor.
#[derive(Clone, Copy, Drop)]
pub struct Printable<'t>(pub &'t str);

impl fmt::Display for Printable<'_> {
    fn fmt<W: fmt::Write>(&self, f: &mut fmt::Formatter<W>) -> fmt::Result {
        for character in self.0.chars().take(SHOWN) {
            f.write_char(printed(character))?;
        }
        if self.0.chars().nth(SHOWN).is_some() {
            f.write_str("..")?;
        }
        Ok(())
    }
}

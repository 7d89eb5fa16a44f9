//! The files that a text was read from.
use crate::spot::Spot;

/// The names of the files that the lines of a text were read from. Lines of standard input have no file.
#[derive(Clone, Copy, Debug, PartialEq, Eq, Drop)]
pub struct FileNames<'n> {
    /// The file of the text, or of its first lines.
    pub first: Option<&'n str>,
    /// How many lines these are, if lines of a second input follow, which count from 1 again.
    pub lines: Option<usize>,
    /// The file of the lines that follow.
    pub second: Option<&'n str>,
}

impl<'n> FileNames<'n> {
    /// The names for a text of one input.
    pub fn of(first: Option<&'n str>) -> FileNames<'n> {
        FileNames {
            first,
            lines: None,
            second: None,
        }
    }

    /// The file that has a place of the text, and where it stands there.
    pub(crate) fn place_of(self, spot: Spot) -> (Option<&'n str>, Spot) {
        match self.lines {
            Some(lines) if spot.line > lines => {
                let Spot { line, column } = spot;
                let line = line.saturating_sub(lines);
                (self.second, Spot { line, column })
            }
            _ => (self.first, spot),
        }
    }
}

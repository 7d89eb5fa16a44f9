//! Remarks on a text, and how they are printed.
ghost use Rattle.std.specs.Prelude.{◌≡◌, ◌++◌, [], All, None, OnErr, OnOk, Some, option_map, string_bytes};
ghost use Rattle.ec_diagnostic.specs.Remarks.{SaysMore, StandsIn, heading};
ghost use Rattle.ec_diagnostic.specs.Spots.{spot_at};

use crate::file_names::FileNames;
use crate::spot::{Span, Spot, spot_of};
use crate::text::printed;
use std::alloc::{AllocError, Global};
use std::fmt::Write as _;
use std::marker::Model;

/// How many characters of a line are shown.
const SHOWN: usize = 100;

/// A remark on a text.
#[derive(Debug, Drop)]
pub struct Remark {
    /// Where the bytes stand that it is about; `None` if it has no place.
    pub spot: Option<Spot>,
    /// How many characters are marked there; 0 without a place.
    pub width: usize,
    /// Its words.
    pub words: String,
}

/// Remarks on a text. Each place that they name lies in it.
#[derive(Drop)]
pub struct Remarks<'a> {
    text: &'a str,
    list: Vec<Remark>,
}

impl<'a> Model for Remarks<'a> {
    ghost use Rattle.std.specs.Prelude.{All};
    ghost use Rattle.ec_diagnostic.specs.Remarks.{Said, StandsIn};

    ghost Value = { Said };

    ghost view = { λ a. record { text = a.text.now; remarks = a.list.items } };

    ghost invariant = { λ a. All (StandsIn a.text.now) a.list.items };
}

impl<'a> Remarks<'a> {
    /// No remarks yet.
    pub fn new(alloc: Global, text: &'a str) -> Remarks<'a>
        ensures text { result.text ≡ text.now }
        ensures none { result.remarks ≡ [] }
    {
        Remarks {
            text,
            list: Vec::new(alloc),
        }
    }

    /// Adds a remark on some bytes of the text, behind all others. `AllocError` if memory ran out; then nothing
    /// is added.
    pub fn at(&mut self, span: Span, words: String) -> Result<(), AllocError>
        ensures said { OnOk result (SaysMore self.old self.new (Some (spot_at self.old.text span.start)) words) }
        ensures unchanged { OnErr result (self.new ≡ self.old) }
    {
        self.list.push(Remark {
            spot: Some(spot_of(self.text, span.start)),
            width: width_of(self.text, span),
            words,
        })?;
        Ok(())
    }

    /// Adds a remark without a place, behind all others. `AllocError` if memory ran out; then nothing is
    /// added.
    pub fn note(&mut self, words: String) -> Result<(), AllocError>
        ensures said { OnOk result (SaysMore self.old self.new None words) }
        ensures unchanged { OnErr result (self.new ≡ self.old) }
    {
        self.list.push(Remark {
            spot: None,
            width: 0,
            words,
        })?;
        Ok(())
    }

    /// The remarks in order.
    pub fn list(&self) -> &[Remark]
        ensures value { result.now ≡ self.now.remarks }
        ensures lie { All (StandsIn self.now.text) self.now.remarks }
    {
        self.list.as_slice()
    }

    /// The text of the remarks. One with a place has a line with that place, in the file that has it if that has a
    /// name, and its words. Below stand the line of the text, and a mark. One without a place has a line with its
    /// words. The lines of the text have no control character but tabs. `AllocError` if memory ran out.
    pub fn to_text(&self, alloc: Global, names: FileNames<'_>) -> Result<String, AllocError> {
        let mut told = String::new(alloc);
        for remark in self.list() {
            match remark.spot {
                Some(spot) => write_marked(&mut told, self.text, names, spot, remark)?,
                None => writeln!(told, "{}", remark.words.as_str())?,
            }
        }
        Ok(told)
    }
}

/// How many characters a span of a text has, 1 at least.
fn width_of(text: &str, span: Span) -> usize {
    match text.get(span.start..span.end) {
        Some(marked) => marked.chars().count().max(1),
        None => 1,
    }
}

/// Adds a remark that has a place.
fn write_marked(
    told: &mut String,
    text: &str,
    names: FileNames<'_>,
    spot: Spot,
    remark: &Remark,
) -> Result<(), AllocError> {
    let (file, place) = names.place_of(spot);
    write_heading(told, file, place, remark.words.as_str())?;
    let line = line_of(text, spot.line);
    let number = place.line;
    write!(told, "{number:>6} | ")?;
    let skipped = skipped_before(spot.column);
    write_shown(told, line, skipped)?;
    told.push_str("\n       | ")?;
    write_under(told, line, skipped, spot.column, remark.width)?;
    told.push_str("\n")
}

/// Adds the line that says where a remark stands.
fn write_heading(
    told: &mut String,
    file: Option<&str>,
    spot: Spot,
    words: &str,
) -> Result<(), AllocError>
    ensures { OnOk result (string_bytes told.new
        ≡ string_bytes told.old ++ heading (option_map (λ x. x.now) file.entry) spot words.now) }
{
    let (line, column) = (spot.line, spot.column);
    match file {
        Some(name) => writeln!(told, "{name}:{line}:{column}: {words}"),
        None => writeln!(told, "line {line}, column {column}: {words}"),
    }
}

/// A line of a text, counted from 1, without its end.
fn line_of(text: &str, line: usize) -> &str {
    let found = text.split('\n').nth(line.saturating_sub(1));
    found.unwrap_or("").trim_end_matches('\r')
}

/// How many characters at the start of a line aren't shown, so that the one in this column is.
fn skipped_before(column: usize) -> usize {
    if column <= SHOWN * 3 / 4 {
        0
    } else {
        column.saturating_sub(SHOWN / 2 + 1)
    }
}

/// Adds the characters of a line behind those that are skipped, as many as are shown.
fn write_shown(told: &mut String, line: &str, skipped: usize) -> Result<(), AllocError> {
    if skipped > 0 {
        told.push_str("..")?;
    }
    for character in line.chars().skip(skipped).take(SHOWN) {
        told.push(match character {
            '\t' => '\t',
            _ => printed(character),
        })?;
    }
    if line.chars().skip(skipped).nth(SHOWN).is_some() {
        told.push_str("..")?;
    }
    Ok(())
}

/// Adds a mark of `width` characters under a column, as far as the line is shown. Before it stand blanks,
/// and a tab for each tab of the line.
fn write_under(
    told: &mut String,
    line: &str,
    skipped: usize,
    column: usize,
    width: usize,
) -> Result<(), AllocError> {
    if skipped > 0 {
        told.push_str("  ")?;
    }
    let before = column.saturating_sub(1);
    let indent = before.saturating_sub(skipped);
    for character in line.chars().skip(skipped).take(indent) {
        told.push(if character == '\t' { '\t' } else { ' ' })?;
    }
    let behind = line.chars().count().saturating_sub(before);
    let shown = SHOWN.saturating_sub(indent);
    for _ in 0..width.min(behind).min(shown).max(1) {
        told.push('^')?;
    }
    Ok(())
}

//! The tokens of a TOML text. A text that is TOML is cut as its reader cuts it; any other is cut too.
use crate::outline::PathStep;
use crate::spot::Span;
use std::alloc::{AllocError, Global};

/// What a token is.
#[derive(Clone, Copy, PartialEq, Eq)]
pub enum TokenKind {
    /// A key, or a value or a piece of one: bytes without quotes, or a text in quotes of any kind.
    Text,
    /// `[` or `{`
    Open,
    /// `]` or `}`
    Close,
    /// `=`
    Equals,
    /// `,`
    Comma,
    /// `.`
    Dot,
    /// A line feed.
    LineEnd,
}

/// A token and its bytes.
#[derive(Clone, Copy)]
pub struct Token<'a> {
    /// What it is.
    pub kind: TokenKind,
    /// Where it stands, with its quotes.
    pub span: Span,
    /// Its bytes without quotes.
    pub text: &'a [u8],
    /// How many brackets it stands in; a bracket doesn't stand in itself.
    pub depth: usize,
}

impl Token<'_> {
    /// Whether it may be this key.
    pub fn is_named(self, name: &[u8]) -> bool {
        self.kind == TokenKind::Text && self.text == name
    }

    /// Whether what it begins is what a step leads to, if that is the item `number`.
    pub fn begins(self, step: PathStep<'_>, number: usize) -> bool {
        match step {
            PathStep::Key(key) => self.is_named(key.as_bytes()),
            PathStep::Item(item) => item == number,
        }
    }
}

/// The tokens of a text, in order; blanks and comments are none. `AllocError` if memory ran out.
pub fn tokens_of<'a>(alloc: Global, bytes: &'a [u8]) -> Result<Vec<Token<'a>>, AllocError> {
    let mut tokens = Vec::new(alloc);
    let (mut start, mut depth) = (0, 0_usize);
    for _ in 0..bytes.len() {
        let rest = bytes.get(start..).unwrap_or(&[]);
        let [first, ..] = rest else {
            break;
        };
        let (kind, length) = token_at(rest, *first);
        let end = start.saturating_add(length);
        if let Some(kind) = kind {
            depth = depth.saturating_sub(usize::from(kind == TokenKind::Close));
            let quote = usize::from(matches!(*first, b'"' | b'\''));
            let text = rest.get(quote..length.saturating_sub(quote));
            tokens.push(Token {
                kind,
                span: Span { start, end },
                text: text.unwrap_or(&[]),
                depth,
            })?;
            depth = depth.saturating_add(usize::from(kind == TokenKind::Open));
        }
        start = end;
    }
    Ok(tokens)
}

/// The kind of the token that bytes begin with, `None` for a blank or a comment, and how many bytes it has.
fn token_at(bytes: &[u8], first: u8) -> (Option<TokenKind>, usize) {
    let kind = match first {
        b'[' | b'{' => TokenKind::Open,
        b']' | b'}' => TokenKind::Close,
        b'=' => TokenKind::Equals,
        b',' => TokenKind::Comma,
        b'.' => TokenKind::Dot,
        b'\n' => TokenKind::LineEnd,
        b' ' | b'\t' | b'\r' => return (None, 1),
        b'#' => return (None, length_before(bytes, b"\n")),
        b'"' | b'\'' => return (Some(TokenKind::Text), quoted_length(bytes, first)),
        _ => return (
            Some(TokenKind::Text),
            length_before(bytes, b"[]{}=,.\n \t\r#\"'"),
        ),
    };
    (Some(kind), 1)
}

/// How many bytes stand before the first byte that is one of `ends`.
fn length_before(bytes: &[u8], ends: &[u8]) -> usize {
    for (place, byte) in bytes.iter().enumerate() {
        if ends.contains(byte) {
            return place;
        }
    }
    bytes.len()
}

/// How many bytes the text in quotes has that bytes begin with. Behind three quotes it goes over lines, and
/// the last three of a run end it; else it ends with its line at the latest.
fn quoted_length(bytes: &[u8], quote: u8) -> usize {
    let is_long = bytes.starts_with(&[quote, quote, quote]);
    let (least, most): (usize, usize) = if is_long { (3, 5) } else { (1, 1) };
    let (mut quotes, mut is_escaped) = (0_usize, false);
    for (place, byte) in bytes.iter().enumerate().skip(least) {
        let is_quote = *byte == quote && !is_escaped;
        let is_whole = quotes >= least && (!is_quote || quotes >= most);
        if is_whole || (*byte == b'\n' && !is_long && !is_escaped) {
            return place;
        }
        quotes = if is_quote {
            quotes.saturating_add(1)
        } else {
            0
        };
        is_escaped = *byte == b'\\' && quote == b'"' && !is_escaped;
    }
    bytes.len()
}

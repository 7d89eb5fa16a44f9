//! Where the tables, keys and values of a TOML text stand, found by their tokens alone.
use crate::spot::Span;
use crate::token::{Token, TokenKind, tokens_of};
use std::alloc::{AllocError, Global};

/// A step of the path to a value.
#[derive(Clone, Copy, Debug, PartialEq, Eq)]
pub enum PathStep<'a> {
    /// To what stands under a key of a table.
    Key(&'a str),
    /// To an item of an array, counted from 0.
    Item(usize),
}

/// What a step leads to. Statements and tokens are given by their places in the outline.
#[derive(Clone, Copy)]
enum Node {
    /// The table behind a header. The document's is the first statement, which has no name.
    Table(usize),
    /// The array of the tables behind headers like this one.
    Headers(usize),
    /// The value that begins with a token.
    Value(usize),
}

/// What is found at the end of a path.
#[derive(Clone, Copy, Debug, Default, PartialEq, Eq)]
pub struct Found {
    /// The key, or the first line of an item.
    pub key: Span,
    /// The value.
    pub value: Span,
    /// How many steps were found.
    pub steps: usize,
}

/// A header, or a key with its value.
#[derive(Drop)]
struct Statement<'a> {
    /// The place of its first token.
    first: usize,
    /// Its bytes.
    span: Span,
    /// How many brackets it begins with: 1 for a header, 2 for that of an item of an array, 0 for a key.
    brackets: usize,
    /// The parts of the header's name, or of the key.
    name: Vec<&'a [u8]>,
}

impl<'a> Statement<'a> {
    /// The statement of some tokens; `first` is the place of the first of them.
    fn new(alloc: Global, first: usize, tokens: &[Token<'a>]) -> Result<Statement<'a>, AllocError> {
        let (span, brackets) = (span_over(tokens), brackets_before(tokens));
        let mut name = Vec::new(alloc);
        for token in tokens {
            match token.kind {
                TokenKind::Equals => break,
                TokenKind::Text => name.push(token.text)?,
                _ => (),
            }
        }
        Ok(Statement {
            first,
            span,
            brackets,
            name,
        })
    }

    fn is_header(&self) -> bool {
        self.brackets > 0
    }

    /// Whether its name begins with that of a table or array, and a key behind that.
    fn is_under(&self, table: &[&'a [u8]], key: &[u8]) -> bool {
        let name = self.name.as_slice();
        name.starts_with(table) && name.get(table.len()) == Some(&key)
    }
}

/// A text as its tokens and its statements.
#[derive(Drop)]
pub struct Outline<'a> {
    tokens: Vec<Token<'a>>,
    statements: Vec<Statement<'a>>,
}

impl<'a> Outline<'a> {
    /// The outline of a text. `AllocError` if memory ran out.
    pub fn new(alloc: Global, text: &'a str) -> Result<Outline<'a>, AllocError> {
        let tokens = tokens_of(alloc, text.as_bytes())?;
        let statements = statements_of(alloc, tokens.as_slice())?;
        Ok(Outline { tokens, statements })
    }

    /// Follows a path through the text as far as it is found, and returns what stands there.
    pub fn find(&self, path: &[PathStep<'_>]) -> Found {
        let mut found = Found::default();
        let mut node = Node::Table(0);
        for step in path {
            let Some((key, next)) = self.next(node, *step) else {
                break;
            };
            let value = match next {
                Node::Value(first) => self.value_bytes(first),
                _ => key,
            };
            let steps = found.steps.saturating_add(1);
            found = Found { key, value, steps };
            node = next;
        }
        found
    }

    /// What a step leads to, and the bytes of its key; `None` if it isn't found.
    fn next(&self, node: Node, step: PathStep<'_>) -> Option<(Span, Node)> {
        match (node, step) {
            (Node::Table(header), PathStep::Key(key)) => {
                match self.in_pairs(header, key.as_bytes()) {
                    None => self.in_headers(header, key.as_bytes()),
                    pair => pair,
                }
            }
            (Node::Headers(first), PathStep::Item(item)) => self.in_item_headers(first, item),
            (Node::Value(first), _) => self.in_value(first, step),
            _ => None,
        }
    }

    /// What stands under a key among the pairs right behind a header.
    fn in_pairs(&self, header: usize, key: &[u8]) -> Option<(Span, Node)> {
        for pair in self.statements.get(header.saturating_add(1)..)? {
            if pair.is_header() {
                return None;
            }
            if pair.name.first() == Some(&key) {
                return self.value_behind(pair.first);
            }
        }
        None
    }

    /// What stands under a key of the table behind a header, by a header of its own.
    fn in_headers(&self, header: usize, key: &[u8]) -> Option<(Span, Node)> {
        let table = self.statements.get(header)?.name.as_slice();
        let index = self.header_under(header.saturating_add(1), table, key)?;
        let found = self.statements.get(index)?;
        let is_item = found.brackets > 1 && found.name.len() == table.len().saturating_add(1);
        let node = if is_item {
            Node::Headers(index)
        } else {
            Node::Table(index)
        };
        Some((found.span, node))
    }

    /// The first header, among the statement `from` and those behind it, that stands under a key of a table. A
    /// header of the table itself, or of one that it stands in, ends the search.
    fn header_under(&self, from: usize, table: &[&'a [u8]], key: &[u8]) -> Option<usize> {
        for index in from..self.statements.len() {
            let header = &self.statements[index];
            if header.is_header() && table.starts_with(header.name.as_slice()) {
                return None;
            }
            if header.is_header() && header.is_under(table, key) {
                return Some(index);
            }
        }
        None
    }

    /// An item of the array whose first header is the statement `first`.
    fn in_item_headers(&self, first: usize, item: usize) -> Option<(Span, Node)> {
        let array = self.statements.get(first)?.name.as_slice();
        let mut left = item;
        for index in first..self.statements.len() {
            let header = &self.statements[index];
            let name = header.name.as_slice();
            if header.is_header() && array.starts_with(name) {
                if name.len() != array.len() {
                    return None;
                }
                if left == 0 {
                    return Some((header.span, Node::Table(index)));
                }
                left -= 1;
            }
        }
        None
    }

    /// What a step leads to in the brackets or braces that the token `first` opens.
    fn in_value(&self, first: usize, step: PathStep<'_>) -> Option<(Span, Node)> {
        let index = self.place_inside(first, step)?;
        match step {
            PathStep::Key(_) => self.value_behind(index),
            PathStep::Item(_) => Some((self.value_bytes(index), Node::Value(index))),
        }
    }

    /// The place of the token that begins an item, or a key, in such brackets.
    fn place_inside(&self, first: usize, step: PathStep<'_>) -> Option<usize> {
        let inside = self.tokens.get(first)?.depth.saturating_add(1);
        let (mut number, mut begins) = (0_usize, true);
        for index in first.saturating_add(1)..self.tokens.len() {
            let token = self.tokens[index];
            if token.kind != TokenKind::LineEnd {
                if token.depth < inside {
                    return None;
                }
                if begins && token.begins(step, number) {
                    return Some(index);
                }
                number = number.saturating_add(usize::from(begins));
                begins = token.kind == TokenKind::Comma && token.depth == inside;
            }
        }
        None
    }

    /// The bytes of the key whose token is at the index `key`, and the value behind it.
    fn value_behind(&self, key: usize) -> Option<(Span, Node)> {
        let span = self.tokens.get(key)?.span;
        for index in key..self.tokens.len() {
            if self.tokens[index].kind == TokenKind::Equals {
                return Some((span, Node::Value(index.saturating_add(1))));
            }
        }
        None
    }

    /// The bytes of the value whose first token is `first`. The next comma, line end or bracket that isn't in
    /// the value ends it.
    fn value_bytes(&self, first: usize) -> Span {
        let behind = self.tokens.get(first..).unwrap_or(&[]);
        let [begin, ..] = behind else {
            return Span::default();
        };
        for (end, token) in behind.iter().enumerate() {
            let is_end = match token.kind {
                TokenKind::Comma | TokenKind::LineEnd => token.depth <= begin.depth,
                _ => token.depth < begin.depth,
            };
            if is_end {
                return span_over(&behind[..end]);
            }
        }
        span_over(behind)
    }
}

/// The document's statement, and one for each run of tokens between line ends that are in no bracket.
fn statements_of<'a>(
    alloc: Global,
    tokens: &[Token<'a>],
) -> Result<Vec<Statement<'a>>, AllocError> {
    let mut statements = Vec::new(alloc);
    statements.push(Statement::new(alloc, 0, &[])?)?;
    push_statements(alloc, &mut statements, tokens)?;
    Ok(statements)
}

/// Adds a statement for each such run.
fn push_statements<'a>(
    alloc: Global,
    statements: &mut Vec<Statement<'a>>,
    tokens: &[Token<'a>],
) -> Result<(), AllocError> {
    let mut first: usize = 0;
    for run in tokens.split(|it| it.kind == TokenKind::LineEnd && it.depth == 0) {
        if !run.is_empty() {
            statements.push(Statement::new(alloc, first, run)?)?;
        }
        first = first.saturating_add(run.len()).saturating_add(1);
    }
    Ok(())
}

/// How many brackets are opened before all other tokens.
fn brackets_before(tokens: &[Token<'_>]) -> usize {
    for (index, token) in tokens.iter().enumerate() {
        if token.kind != TokenKind::Open {
            return index;
        }
    }
    tokens.len()
}

/// The bytes from the first token to the last.
fn span_over(tokens: &[Token<'_>]) -> Span {
    match (tokens.first(), tokens.last()) {
        (Some(first), Some(last)) => Span {
            start: first.span.start,
            end: last.span.end,
        },
        _ => Span::default(),
    }
}

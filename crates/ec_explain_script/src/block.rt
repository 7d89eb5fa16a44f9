//! Why a brace of a block can't stand where it does.
use crate::word::Line;
use ec_diagnostic::Diagnosis;
use ec_script::{Draft, MAX_DEPTH, times_of, uncommented};

/// What is wrong with a block that isn't ended.
pub const NO_END: &str = "this block has no end";

/// A brace of a block.
#[derive(Clone, Copy)]
enum Brace {
    /// `repeat N {`
    Open,
    /// `}`
    Close,
}

impl Brace {
    /// The brace that a line is.
    fn of(line: Line<'_>) -> Option<Brace> {
        let words = (line.word(0)?, line.word(1), line.word(2), line.word(3));
        match words {
            (word, None, _, _) if word.text == "}" => Some(Brace::Close),
            (verb, Some(count), Some(brace), None) => {
                let begins = verb.text == "repeat"
                    && brace.text == "{"
                    && times_of(count.text).is_some();
                begins.then_some(Brace::Open)
            }
            _ => None,
        }
    }
}

/// Why a line of a block that comes has no room behind a draft; `None` if it has room, or needs none.
pub fn room_words(draft: &Draft, line: Line<'_>, is_read: bool) -> Option<&'static str> {
    let is_kept = is_read || matches!(Brace::of(line), Some(Brace::Open));
    let is_full = is_kept && draft.is_full();
    is_full.then_some("a block that comes has at most 1000 lines: here only `}` may follow")
}

/// How many blocks are open behind some lines of a script.
pub fn depth_behind(lines: &str) -> usize {
    let mut depth: usize = 0;
    for line in lines.lines() {
        let text = uncommented(line.trim_start_matches(' '));
        match Brace::of(Line { start: 0, text }) {
            Some(Brace::Open) => depth = depth.saturating_add(1),
            Some(Brace::Close) => depth = depth.saturating_sub(1),
            None => (),
        }
    }
    depth
}

/// Adds remarks on a line that is a brace and can't stand where it does, with so many blocks around it; returns whether it is a brace.
pub fn explain_brace(diagnosis: &mut Diagnosis<'_>, line: Line<'_>, depth: usize) -> bool {
    let (wrong, advice) = match Brace::of(line) {
        None => return false,
        Some(Brace::Close) => (
            "no block is open here",
            "remove the line, or begin a block by `repeat N {`",
        ),
        Some(Brace::Open) if depth >= MAX_DEPTH => (
            "8 blocks are around this one, and a block has no more around it",
            "write its lines without a block of their own, or fewer blocks around it",
        ),
        Some(Brace::Open) => (
            NO_END,
            "write `}` on a line of its own behind the last line of the block",
        ),
    };
    diagnosis.at_span(line.span(), wrong);
    diagnosis.advise(advice);
    true
}

//! Explanations of refusals for people, behind the line of a refusal.
ghost use Rattle.std.specs.Prelude.{◌≡◌, []};
ghost use Rattle.ec_console.specs.Explaining.{IsLeft};

use crate::remarks::remarks_text;
use crate::{Refusal, Source};
use ec_diagnostic::FileNames;
use ec_script::split_script;
use ec_table::{Fault, TableError};
use ec_wire::Trouble;
use std::alloc::{AllocError, Global};
use std::io;
use std::marker::Model;

/// A text that a command read.
#[derive(Clone, Copy, Drop)]
pub struct TextRead<'t> {
    /// What the command read it as.
    pub source: Source,
    /// The text.
    pub text: &'t str,
    /// The files that it was read from.
    pub names: FileNames<'t>,
}

/// The text behind the line of a refusal, if it is wanted.
#[derive(Drop)]
pub struct Explanation {
    is_wanted: bool,
    text: String,
}

impl Model for Explanation {
    ghost use Rattle.std.specs.Prelude.{string_bytes};
    ghost use Rattle.ec_console.specs.Explaining.{Behind};

    ghost Value = { Behind };

    ghost view = { λ e. record { is_wanted = e.is_wanted; text = string_bytes e.text } };
}

impl Explanation {
    /// An explanation without text.
    pub fn new(alloc: Global, is_wanted: bool) -> Explanation
        ensures { result ≡ record { is_wanted = is_wanted; text = [] } }
    {
        Explanation {
            is_wanted,
            text: String::new(alloc),
        }
    }

    /// The text, which is empty if nothing is explained.
    pub fn as_bytes(&self) -> &[u8]
        ensures { result.now ≡ self.now.text }
    {
        self.text.as_bytes()
    }

    /// Explains the refusal of a command that read a text, if that is wanted and there is memory for it.
    pub fn explain(&mut self, alloc: Global, read: TextRead<'_>, ended: &Result<(), Refusal>)
        ensures { IsLeft self.old self.new }
    {
        if self.is_wanted {
            self.keep(text_on(alloc, read, ended));
        }
    }

    /// Explains why a file couldn't be opened, if that is wanted.
    pub fn explain_unopened(&mut self, alloc: Global, file: &str, error: &io::Error)
        ensures { IsLeft self.old self.new }
    {
        if self.is_wanted {
            self.keep(format!(in alloc; "{file}: {error}\n{FILE_ADVICE}"));
        }
    }

    /// Explains a refusal by a text that the command has made, if that is wanted and there was memory for it.
    pub fn explain_by(&mut self, made: Result<String, AllocError>)
        ensures { IsLeft self.old self.new }
    {
        if self.is_wanted {
            self.keep(made);
        }
    }

    /// Explains a fault of the input, the output or a socket, if that is wanted and nothing is explained yet. If the input is a file,
    /// its name is given.
    pub fn explain_stream(&mut self, alloc: Global, file: Option<&str>, ended: &Result<(), Refusal>)
        ensures { IsLeft self.old self.new }
    {
        if !self.is_wanted || !self.text.is_empty() {
            return;
        }
        if let Some(made) = fault_text(alloc, file, ended) {
            self.keep(made);
        }
    }

    /// Keeps a text, if there was memory for it.
    fn keep(&mut self, made: Result<String, AllocError>) {
        if let Ok(text) = made {
            self.text = text;
        }
    }
}

/// What a fault of the input, the output or a socket means, and what to do. `None` for other refusals.
fn fault_text(
    alloc: Global,
    file: Option<&str>,
    ended: &Result<(), Refusal>,
) -> Option<Result<String, AllocError>> {
    match (ended, file) {
        (Err(Refusal::Socket(trouble)), _) => Some(socket_text(alloc, *trouble)),
        (Err(Refusal::Input), Some(file)) => {
            Some(format!(in alloc;
                "{file}: it couldn't be read, isn't text in UTF-8, or is longer than 1048576 bytes\n{FILE_ADVICE}"
            ))
        }
        _ => Some(String::from_str(alloc, stream_text(ended)?)),
    }
}

/// What to do about a file that can't be read.
const FILE_ADVICE: &str =
    "To do: correct the file's name, see who may read it, and save it as UTF-8.\n";

/// What a fault of a socket means, by what the system said, and what to do.
fn socket_text(alloc: Global, trouble: Trouble) -> Result<String, AllocError> {
    let todo = advice_on(trouble);
    format!(in alloc;
        "There is no such socket, or a call on it failed: {trouble}.\nTo do: {todo}.\n"
    )
}

/// What to do about a socket, if nothing better is known.
const LOOK: &str = "see the address and the port, and open a card as `tools/with_card` does";

/// What to do about a fault of a socket.
fn advice_on(trouble: Trouble) -> &'static str {
    match trouble {
        Trouble::Silence => "start the other side in time, or wait longer with `--idle`",
        Trouble::System(number) => advice_on_error(number),
        Trouble::Unmade => LOOK,
    }
}

/// What to do about an error of Linux with this number.
fn advice_on_error(number: i32) -> &'static str {
    match number {
        1 | 13 => "run it with the right to open this socket",
        98 => "end what listens there, or take another `--port`",
        _ => LOOK,
    }
}

/// What a fault of the input or the output means, and what to do. `None` for other refusals.
fn stream_text(ended: &Result<(), Refusal>) -> Option<&'static str> {
    match ended {
        Err(Refusal::Output) => Some(
            "What was to be printed, or the file of the capture, couldn't be written; what was written before stays.\n\
            To do: see whether whoever reads standard output is still there, and whether the disk is full.\n",
        ),
        Err(Refusal::Input) => Some(
            "The input couldn't be read, isn't text in UTF-8, or is longer than 1048576 bytes.\n\
            To do: see where standard input comes from, and save the text as UTF-8.\n",
        ),
        _ => None,
    }
}

/// The explanation of how a command ended, on the text that it read; empty if it wasn't refused.
fn text_on(
    alloc: Global,
    read: TextRead<'_>,
    ended: &Result<(), Refusal>,
) -> Result<String, AllocError> {
    match (read.source, ended) {
        (_, Ok(())) => Ok(String::new(alloc)),
        (Source::Table | Source::Lines, Err(refusal)) => {
            remarks_text(alloc, read.text, 0, read.names, refusal)
        }
        (Source::Script, Err(refusal)) => script_text(alloc, read.text, read.names, refusal),
    }
}

/// The explanation of a refusal of a link table and a script.
fn script_text(
    alloc: Global,
    text: &str,
    names: FileNames<'_>,
    refusal: &Refusal,
) -> Result<String, AllocError> {
    let (table, script) = split_script(text);
    match refusal {
        Refusal::Script(_) => {
            let from = text.len().saturating_sub(script.len());
            remarks_text(alloc, text, from, names, refusal)
        }
        Refusal::Table(TableError::Refused(Fault::Toml)) if table.len() == text.len() => {
            let mut told = remarks_text(alloc, table, 0, names, refusal)?;
            told.push_str(
                "There is no line `%%`, so all lines were read as lines of the table.\n",
            )?;
            Ok(told)
        }
        _ => remarks_text(alloc, table, 0, names, refusal),
    }
}

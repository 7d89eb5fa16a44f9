//! Laws of the lines. Each function does nothing: its contract is the law.
ghost use Rattle.ec_script.specs.Drafts.{BoundedDrafts, ScriptsCome};
ghost use Rattle.ec_script.specs.Scripts.{BoundedScripts, PlainScripts};
ghost use Rattle.ec_script.specs.Writing.{LinesReadBack, PrintedIsRead};

/// The line that is written for an action of a table's script is read as that line.
#[tactic(auto, using(crate::proofs::ReadingBack::lines_read_back))]
pub fn lines_read_back()
    ensures { LinesReadBack }
{}

/// The number that a variable's value is printed as is read as that value.
pub fn printed_numbers_are_read()
    ensures { PrintedIsRead }
{}

/// A script without blocks is the lines of its texts, one after another.
#[tactic(auto, using(crate::proofs::Plain::plain_scripts))]
pub fn plain_scripts()
    ensures { PlainScripts }
{}

/// Blocks have a bound: a script is at most a million to the eighth lines for each line of its text.
#[tactic(auto, using(crate::proofs::Bounds::bounded_scripts))]
pub fn scripts_are_bounded()
    ensures { BoundedScripts }
{}

/// Blocks that come have a bound: at most 1008 lines and braces are kept, and what is due at once is at most a million to the eighth lines for
/// each.
pub fn drafts_are_bounded()
    ensures { BoundedDrafts }
{}

/// A script of at most 1000 lines is what is due while its lines come one after another.
#[tactic(auto, using(crate::proofs::Coming::scripts_come))]
pub fn scripts_come()
    ensures { ScriptsCome }
{}

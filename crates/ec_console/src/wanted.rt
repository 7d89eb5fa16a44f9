//! How lines are taken.
ghost use Rattle.std.specs.Prelude.{◌≡◌};
ghost use Rattle.ec_console.specs.Reasons.{manner_of};

/// How lines are taken, and what is printed of them.
#[derive(Clone, Copy, Debug, PartialEq, Eq, Drop)]
pub struct Manner {
    /// Whether a line that says why follows each line that is bad, can't be done or isn't met.
    pub explained: bool,
    /// Whether each line that is bad, can't be done or has failed counts as unmet.
    pub strict: bool,
}

impl Manner {
    /// The manner of a command, by whether an explanation is wanted, and whether its lines are taken strictly.
    pub fn of(explained: bool, strict: bool) -> Manner
        ensures { result ≡ manner_of explained strict }
    {
        Manner { explained, strict }
    }
}

//! Whether remarks explain a payload by the standard's names.
ghost use Rattle.std.specs.Prelude.{◌≡◌};
ghost use Rattle.ec_annotate.specs.Annotating.{names_of};

/// Whether remarks explain datagrams by the standard's names, and say what is wrong with a payload that is no frame.
#[derive(Clone, Copy, Debug, PartialEq, Eq, Drop)]
pub enum Names {
    /// They do.
    Added,
    /// They don't.
    Omitted,
}

impl Names {
    /// They do if an explanation is wanted.
    pub fn of(explained: bool) -> Names
        ensures { result ≡ names_of explained }
    {
        if explained {
            Names::Added
        } else {
            Names::Omitted
        }
    }
}

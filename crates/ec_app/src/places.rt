//! Where a command takes its inputs from: standard input, or files.
ghost use Rattle.std.specs.Prelude.{◌≡◌, option_map};
ghost use Rattle.ec_args.specs.Requests.{command_of, first_of_inputs, second_of_inputs};
ghost use Rattle.ec_app.specs.Placing.{explains, kind_of, place_of_both, place_of_only, place_of_table, places_of, reads_standard, waits};

use ec_args::{Arguments, Inputs, Request};
use ec_console::{FileNames, Terminals};

/// Where a command takes its inputs from.
#[derive(Clone, Copy, Drop)]
pub enum Place<'a> {
    /// Standard input has all that it reads.
    Standard,
    /// Its only input is a file.
    File(&'a str),
    /// Its table is in a file. Standard input has its lines, if it runs lines.
    Table(&'a str),
    /// Its lines are in a file, the second. Its table is in a file, or standard input is its table.
    Lines(Option<&'a str>, &'a str),
}

impl<'a> Place<'a> {
    /// The place of the inputs of a command.
    pub(crate) fn of(request: &Request<'a>, inputs: Inputs<'a>) -> Place<'a>
        ensures { kind_of result ≡ places_of (command_of request.now) (first_of_inputs inputs.entry) (second_of_inputs inputs.entry) }
    {
        match request {
            Request::Pass { .. } | Request::Scan { .. } => Place::Standard,
            Request::Plan { .. } | Request::Decode { .. } | Request::Encode => {
                Place::of_only(inputs.first)
            }
            Request::Loop { .. } | Request::Segment { .. } => Place::of_table(inputs.first),
            Request::Sim { .. } | Request::Master { .. } => Place::of_both(inputs),
        }
    }

    /// The place of an input that is read as a whole.
    fn of_only(file: Option<&'a str>) -> Place<'a>
        ensures { kind_of result ≡ place_of_only (option_map (λ x. x.now) file.entry) }
    {
        match file {
            Some(file) => Place::File(file),
            None => Place::Standard,
        }
    }

    /// The place of a table.
    fn of_table(file: Option<&'a str>) -> Place<'a>
        ensures { kind_of result ≡ place_of_table (option_map (λ x. x.now) file.entry) }
    {
        match file {
            Some(file) => Place::Table(file),
            None => Place::Standard,
        }
    }

    /// The place of a table and of lines.
    fn of_both(inputs: Inputs<'a>) -> Place<'a>
        ensures { kind_of result ≡ place_of_both (first_of_inputs inputs.entry) (second_of_inputs inputs.entry) }
    {
        match inputs.second {
            Some(lines) => Place::Lines(inputs.first, lines),
            None => Place::of_table(inputs.first),
        }
    }

    /// The file that is read in the place of standard input, if there is one.
    pub(crate) fn file(self) -> Option<&'a str> {
        match self {
            Place::File(file) | Place::Lines(_, file) => Some(file),
            Place::Standard | Place::Table(_) => None,
        }
    }

    /// The names of the files that the text of a command was read from, with so many lines before its script, if it has one.
    pub(crate) fn names(self, lines: Option<usize>) -> FileNames<'a> {
        match self {
            Place::Standard => FileNames::of(None),
            Place::File(file) => FileNames::of(Some(file)),
            Place::Table(file) => FileNames {
                lines,
                ..FileNames::of(Some(file))
            },
            Place::Lines(table, file) => FileNames {
                lines,
                second: Some(file),
                ..FileNames::of(table)
            },
        }
    }
}

/// Whether a refusal is explained: if the arguments or a terminal ask for it, and the arguments don't refuse it.
pub(crate) fn explains(arguments: &Arguments<'_>, terminals: Terminals) -> bool
    ensures { result ≡ explains terminals arguments.now.terse (command_of arguments.now.request) }
{
    !arguments.terse && (arguments.request.explained() || terminals.faults)
}

/// What a command says before it waits for someone who types.
pub(crate) const WAITING: &str = "ecat: reading standard input; Ctrl-D ends it\n";

/// Whether a command waits for someone who types: it reads standard input, which is a terminal, as standard error is.
pub(crate) fn waits(arguments: &Arguments<'_>, terminals: Terminals) -> bool
    ensures { result ≡ waits terminals (command_of arguments.now.request) (first_of_inputs arguments.now.inputs) (second_of_inputs arguments.now.inputs) }
{
    terminals.input && terminals.faults && reads_standard(&arguments.request, arguments.inputs)
}

/// Whether a command reads standard input.
fn reads_standard(request: &Request<'_>, inputs: Inputs<'_>) -> bool
    ensures { result ≡ reads_standard (command_of request.now) (first_of_inputs inputs.entry) (second_of_inputs inputs.entry) }
{
    match request {
        Request::Pass { .. } | Request::Scan { .. } => false,
        Request::Plan { .. } | Request::Decode { .. } | Request::Encode | Request::Loop { .. } => {
            inputs.first.is_none()
        }
        Request::Segment { options, .. } => options.live || inputs.first.is_none(),
        Request::Sim { .. } | Request::Master { .. } => {
            inputs.first.is_none() || inputs.second.is_none()
        }
    }
}

//! What the arguments of a command line ask for.
ghost use Rattle.std.specs.Prelude.{◌≡◌, ◌⊎◌, [], Some, codes, map, option_map, IfOk, IfErr, IfSome, IfNone, OnOk};
ghost use Rattle.clap.specs.Faults.{fault_of};
ghost use Rattle.clap.specs.Matches.{found_of};
ghost use Rattle.clap.specs.Simple.{subcommand_of, subcommand_rows_of};
ghost use Rattle.clap.specs.Values.{kind_of};
ghost use Rattle.clap.specs.Walk.{rows_of};
ghost use Rattle.ec_args.specs.CommandLine.{ecat};
ghost use Rattle.ec_args.specs.Requests.{Asks, AsksAll, FindsInputs, IsFault, IsNotice, IsNoticeFor, MeetsCommand, Reads, command_of, is_explained, named};
ghost use Rattle.ec_args.specs.Stages.{IsAskedAs, IsNeverAsked};

use crate::commands::command;
use clap::error::ErrorKind;
use clap::{ArgMatches, Command, Error};
use std::alloc::{AllocError, Global};
use std::convert::AsStr;

/// All that the arguments of a command line say.
#[derive(Clone, Copy, Debug, PartialEq, Eq, Drop)]
pub struct Arguments<'a> {
    /// The command.
    pub request: Request<'a>,
    /// Its inputs.
    pub inputs: Inputs<'a>,
    /// Whether no refusal is explained.
    pub terse: bool,
}

/// The inputs of a command: the names of files. Without a name, an input is standard input.
#[derive(Clone, Copy, Debug, PartialEq, Eq, Drop)]
pub struct Inputs<'a> {
    /// The file of its only input, or of its link table if it runs lines too.
    pub first: Option<&'a str>,
    /// The file of the lines that it runs.
    pub second: Option<&'a str>,
}

/// What the arguments of a command line ask for.
#[derive(Clone, Copy, Debug, PartialEq, Eq, Drop)]
pub enum Request<'a> {
    /// Pass the frame that the text spells in hex through this many slaves at power-on.
    Pass {
        /// How many slaves there are, 0 to 64.
        slaves: u8,
        /// The frame in hex, as it was given.
        frame: &'a str,
    },
    /// Print the plan of the link table on the input; with `header`, print a C header of its variables.
    /// With `explained`, explain the plan and a refusal for people.
    Plan {
        /// Whether the C header is printed instead of the plan.
        header: bool,
        /// What the names of the header begin with, if it is given.
        prefix: Option<&'a str>,
        /// Whether the plan and a refusal are explained.
        explained: bool,
    },
    /// Print as text the payloads that the lines of the input spell in hex. With `explained`, explain them
    /// by the names of the standard; if a file is named, also by the link table in it.
    Decode {
        /// The file of the link table.
        table: Option<&'a str>,
        /// Whether the payloads are explained.
        explained: bool,
    },
    /// Print in hex the frames that the text on the input states.
    Encode,
    /// Run the script behind the link table on the input; with `live`, run its lines as they come. If a
    /// file is named, the frames that pass go into a capture. With `explained`, a refusal is explained, as
    /// with the commands below.
    Sim {
        /// Whether each line is run as it comes.
        live: bool,
        /// The file of the capture.
        capture: Option<&'a str>,
        /// Whether a refusal is explained, and why a line can't be done.
        explained: bool,
        /// Whether each line that can't be done, is bad or fails counts as unmet.
        strict: bool,
    },
    /// Run this many cycles of the link table on the input over sockets of this process.
    Loop {
        /// How many cycles are run, 0 to 1000.
        cycles: u16,
        /// The file of the capture.
        capture: Option<&'a str>,
        /// Whether a refusal is explained.
        explained: bool,
    },
    /// Answer payloads as the slaves of the input's link table, on a port or on the card whose socket has a
    /// descriptor.
    Segment {
        /// On what it answers, how many, and as which slaves.
        options: SegmentOptions<'a>,
        /// The file of the capture.
        capture: Option<&'a str>,
        /// Whether a refusal is explained.
        explained: bool,
    },
    /// Run the lines behind the link table on the input, as they come, with a master. Its socket is connected
    /// to the segment at `to`, an IPv4 address with a UDP port, or is the card's raw socket with this
    /// descriptor. It waits `patience` milliseconds for an answer.
    Master {
        /// The segment's IPv4 address and UDP port, as they were given.
        to: &'a str,
        /// The descriptor of a card's raw socket, 0 to 1023, which replaces the address.
        descriptor: Option<u16>,
        /// How many milliseconds it waits for an answer, 1 to 60000.
        patience: u16,
        /// The file of the capture.
        capture: Option<&'a str>,
        /// Whether a refusal is explained, and why a line can't be done or a start-up failed.
        explained: bool,
        /// Whether each line that can't be done, is bad or fails counts as unmet.
        strict: bool,
    },
    /// Scan the slaves of a segment and print a link table of them, or what differs from the table in a file. The segment is that of
    /// `Master`.
    Scan {
        /// The segment's IPv4 address and UDP port, as they were given.
        to: &'a str,
        /// The descriptor of a card's raw socket, 0 to 1023, which replaces the address.
        descriptor: Option<u16>,
        /// How many milliseconds it waits for an answer, 1 to 60000.
        patience: u16,
        /// The file of the table that the slaves are compared with.
        against: Option<&'a str>,
        /// The file of the capture.
        capture: Option<&'a str>,
        /// Whether a refusal is explained, and why a scan failed.
        explained: bool,
    },
}

/// On what a segment answers, how many payloads, and as which slaves.
#[derive(Clone, Copy, Debug, PartialEq, Eq, Drop)]
pub struct SegmentOptions<'a> {
    /// How many payloads are received; if it isn't given, as many as come.
    pub frames: Option<u32>,
    /// The IPv4 address that it listens on, as it was given.
    pub bind: &'a str,
    /// The UDP port there, 1 to 65535.
    pub port: u16,
    /// The descriptor of a card's raw socket, 0 to 1023, which replaces address and port.
    pub descriptor: Option<u16>,
    /// Whether the slaves are as usual masters expect them.
    pub full: bool,
    /// How many seconds it waits for a payload, 0 to 86400; 0 waits without end.
    pub idle: u32,
    /// Whether lines behind the link table move the slaves as they come.
    pub live: bool,
    /// Whether each line that can't be done or is bad counts as unmet.
    pub strict: bool,
}

impl Request<'_> {
    /// Whether a refusal is to be explained.
    pub fn explained(&self) -> bool
        ensures { result ≡ is_explained (command_of self.now) }
    {
        match *self {
            Request::Pass { .. } | Request::Decode { .. } | Request::Encode => false,
            Request::Plan { explained, .. }
            | Request::Sim { explained, .. }
            | Request::Loop { explained, .. }
            | Request::Segment { explained, .. }
            | Request::Master { explained, .. }
            | Request::Scan { explained, .. } => explained,
        }
    }
}

/// Why arguments are no request.
#[derive(Debug, Drop)]
pub enum Notice {
    /// Memory ran out; the arguments may be good or bad.
    Memory,
    /// The help or the version was asked for: its text.
    Help(String),
    /// The arguments ask for no command: the text says why, and has the usage.
    Usage(String),
}

/// What the arguments ask for; the first of them is the program's name. If `clap`'s specification finds
/// no fault in them, it is what that specification finds; else the notice says what to print for the
/// user.
pub fn read_args<'a, S: AsStr>(alloc: Global, args: &'a [S]) -> Result<Arguments<'a>, Notice>
    ensures { Reads (map S.text args.entry.now) result }
{
    read_request(alloc, args).map_err(|error| notice_of(alloc, &error))
}

/// The notice of an error of `clap`, with a text of its own.
fn notice_of(alloc: Global, error: &Error) -> Notice
    ensures { IsNotice (kind_of error.now) result }
{
    notice_for(error.kind(), error.to_string(alloc))
}

/// The notice of an error of this kind, whose text was made, or couldn't be because memory ran out.
fn notice_for(kind: ErrorKind, text: Result<String, AllocError>) -> Notice
    ensures { IsNoticeFor kind text result }
{
    if kind == ErrorKind::OutOfMemory {
        return Notice::Memory;
    }
    match (text, kind) {
        (Err(_), _) => Notice::Memory,
        (Ok(text), ErrorKind::DisplayHelp | ErrorKind::DisplayVersion) => Notice::Help(text),
        (Ok(text), _) => Notice::Usage(text),
    }
}

/// What the arguments ask for, or `clap`'s error.
fn read_request<'a, S: AsStr>(alloc: Global, args: &'a [S]) -> Result<Arguments<'a>, Error>
    ensures faultless { OnOk result (fault_of ecat (map S.text args.entry.now) ≡ []) }
    ensures found { IfOk result (AsksAll (subcommand_of ecat (map S.text args.entry.now))) }
    ensures fault { IfErr result (λ error. IsFault (map S.text args.entry.now) (kind_of error)) }
{
    let mut command = command(alloc)?;
    let matches = command.try_get_matches_from_mut(args)?;
    match read_matches(&matches) {
        Some(arguments) => Ok(arguments),
        None => Err(no_command(&mut command)),
    }
}

/// The error for arguments in which `clap` found no fault and no command.
fn no_command(command: &mut Command<'_>) -> Error
    ensures { (kind_of result ≡ ErrorKind.OutOfMemory)
        ⊎ (kind_of result ≡ ErrorKind.MissingSubcommand) }
{
    match command.error(ErrorKind::MissingSubcommand, "no command was given") {
        Ok(error) => error,
        Err(error) => error.into(),
    }
}

/// What the command that `clap` met asks for; `None` if it met none with all that it needs.
fn read_matches<'a>(matches: &ArgMatches<'a>) -> Option<Arguments<'a>>
    ensures some { IfSome result (AsksAll (subcommand_rows_of matches.now)) }
    ensures none { IfNone result (MeetsCommand (subcommand_rows_of matches.now) → ⊥) }
{
    let (name, given) = matches.subcommand()?;
    read_arguments(name, given)
}

/// All that the arguments of the command `name` say; `None` if it is unknown or one that it needs is missing.
fn read_arguments<'a>(name: &str, given: &ArgMatches<'a>) -> Option<Arguments<'a>>
    ensures some { IfSome result (AsksAll (Some (name.now, rows_of (found_of given.now)))) }
    ensures none { IfNone result (MeetsCommand (Some (name.now, rows_of (found_of given.now))) → ⊥) }
{
    match read_command(name, given) {
        Some(request) => Some(Arguments {
            request,
            inputs: read_inputs(given),
            terse: given.get_flag("terse"),
        }),
        None => None,
    }
}

/// The inputs of a command.
fn read_inputs<'a>(given: &ArgMatches<'a>) -> Inputs<'a>
    ensures { FindsInputs (rows_of (found_of given.now)) result }
{
    Inputs {
        first: named(given.get_str("input")),
        second: named(given.get_str("lines")),
    }
}

/// The name of a file; `None` if there is none, or if it is `-`.
fn named(file: Option<&str>) -> Option<&str>
    ensures { option_map (λ x. x.now) result ≡ named (option_map (λ x. x.now) file.entry) }
{
    let name = file?;
    if name == "-" { None } else { Some(name) }
}

/// What the arguments of the command `name` ask for; `None` if it is unknown or one that it needs is missing.
#[tactic(auto, using(crate::proofs::RequestLemmas::asked, crate::proofs::RequestLemmas::asked_one, crate::proofs::RequestLemmas::not_asked))]
fn read_command<'a>(name: &str, given: &ArgMatches<'a>) -> Option<Request<'a>>
    ensures some { IfSome result (Asks (Some (name.now, rows_of (found_of given.now)))) }
    ensures none { IfNone result (MeetsCommand (Some (name.now, rows_of (found_of given.now))) → ⊥) }
{
    match name {
        "pass" => read_pass(given),
        "plan" => Some(read_plan(given)),
        "decode" => Some(read_decode(given)),
        "encode" => Some(Request::Encode),
        "sim" => Some(read_sim(given)),
        "loop" => read_loop(given),
        "segment" => read_segment(given),
        "master" => read_master(given),
        "scan" => read_scan(given),
        _ => None,
    }
}

/// What the arguments of `master` ask for; `None` if one that it needs is missing.
fn read_master<'a>(given: &ArgMatches<'a>) -> Option<Request<'a>>
    ensures some { IfSome result (IsAskedAs (codes "master") (rows_of (found_of given.now))) }
    ensures none { IfNone result (IsNeverAsked (codes "master") (rows_of (found_of given.now))) }
{
    Some(Request::Master {
        to: given.get_str("to")?,
        descriptor: given.get_one::<u16>("descriptor"),
        patience: given.get_one::<u16>("patience")?,
        capture: given.get_str("capture"),
        explained: given.get_flag("explain"),
        strict: given.get_flag("strict"),
    })
}

/// What the arguments of `scan` ask for; `None` if one that it needs is missing.
fn read_scan<'a>(given: &ArgMatches<'a>) -> Option<Request<'a>>
    ensures some { IfSome result (IsAskedAs (codes "scan") (rows_of (found_of given.now))) }
    ensures none { IfNone result (IsNeverAsked (codes "scan") (rows_of (found_of given.now))) }
{
    Some(Request::Scan {
        to: given.get_str("to")?,
        descriptor: given.get_one::<u16>("descriptor"),
        patience: given.get_one::<u16>("patience")?,
        against: given.get_str("against"),
        capture: given.get_str("capture"),
        explained: given.get_flag("explain"),
    })
}

/// What the arguments of `segment` ask for; `None` if one that it needs is missing.
fn read_segment<'a>(given: &ArgMatches<'a>) -> Option<Request<'a>>
    ensures some { IfSome result (IsAskedAs (codes "segment") (rows_of (found_of given.now))) }
    ensures none { IfNone result (IsNeverAsked (codes "segment") (rows_of (found_of given.now))) }
{
    let options = SegmentOptions {
        frames: given.get_one::<u32>("frames"),
        bind: given.get_str("bind")?,
        port: given.get_one::<u16>("port")?,
        descriptor: given.get_one::<u16>("descriptor"),
        full: given.get_flag("full"),
        idle: given.get_one::<u32>("idle")?,
        live: given.get_flag("live"),
        strict: given.get_flag("strict"),
    };
    Some(Request::Segment {
        options,
        capture: given.get_str("capture"),
        explained: given.get_flag("explain"),
    })
}

/// What the arguments of `loop` ask for; `None` if one that it needs is missing.
fn read_loop<'a>(given: &ArgMatches<'a>) -> Option<Request<'a>>
    ensures some { IfSome result (IsAskedAs (codes "loop") (rows_of (found_of given.now))) }
    ensures none { IfNone result (IsNeverAsked (codes "loop") (rows_of (found_of given.now))) }
{
    Some(Request::Loop {
        cycles: given.get_one::<u16>("cycles")?,
        capture: given.get_str("capture"),
        explained: given.get_flag("explain"),
    })
}

/// What the arguments of `sim` ask for.
fn read_sim<'a>(given: &ArgMatches<'a>) -> Request<'a>
    ensures { IsAskedAs (codes "sim") (rows_of (found_of given.now)) result }
{
    Request::Sim {
        live: given.get_flag("live"),
        capture: given.get_str("capture"),
        explained: given.get_flag("explain"),
        strict: given.get_flag("strict"),
    }
}

/// What the arguments of `decode` ask for.
fn read_decode<'a>(given: &ArgMatches<'a>) -> Request<'a>
    ensures { IsAskedAs (codes "decode") (rows_of (found_of given.now)) result }
{
    Request::Decode {
        table: given.get_str("table"),
        explained: given.get_flag("explain"),
    }
}

/// What the arguments of `plan` ask for.
fn read_plan<'a>(given: &ArgMatches<'a>) -> Request<'a>
    ensures { IsAskedAs (codes "plan") (rows_of (found_of given.now)) result }
{
    Request::Plan {
        header: given.get_flag("header"),
        prefix: given.get_str("prefix"),
        explained: given.get_flag("explain"),
    }
}

/// What the arguments of `pass` ask for; `None` if one that it needs is missing.
fn read_pass<'a>(given: &ArgMatches<'a>) -> Option<Request<'a>>
    ensures some { IfSome result (IsAskedAs (codes "pass") (rows_of (found_of given.now))) }
    ensures none { IfNone result (IsNeverAsked (codes "pass") (rows_of (found_of given.now))) }
{
    Some(Request::Pass {
        slaves: given.get_one::<u8>("slaves")?,
        frame: given.get_str("frame")?,
    })
}

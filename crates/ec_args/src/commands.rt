//! The commands of `ecat`, and behind them the functions that build them. A builder of `clap` owns much, so each
//! exit of a function that drops one costs the checker much time. Functions therefore hand on a command as `Made`,
//! which may be an error, and only three functions have an early exit.
ghost use Rattle.std.specs.Prelude.{◌≡◌, Some, codes, IfOk, true};
ghost use Rattle.clap.specs.Simple.{App, app_of, new_app, new_rule, on_top, with_rule, with_subcommand};
ghost use Rattle.clap.specs.Walk.{Rule};
ghost use Rattle.clap.specs.declared.builder.action.ArgAction.TheVariants.{Set};
ghost use Rattle.ec_args.specs.CommandLine.{decode_shape, ecat, encode_shape, loop_shape, master_shape, pass_shape, plan_shape, scan_shape, segment_shape, sim_shape};
ghost use Rattle.ec_args.specs.CommandLine.{capture_rule, descriptor_rule, explain_rule, flag_rule, lines_rule, needed, number_rule, or_else, strict_rule, terse_rule, text_rule, with_input};
ghost use Rattle.ec_args.specs.Stages.{IsArgument, IsMadeAs, alone};

use crate::helps::{
    DECODE_EXAMPLE, DECODE_LINES, ENCODE_EXAMPLE, ENCODE_LINES, EXIT_STATUSES, LOOP_EXAMPLE,
    LOOP_LINES, MASTER_EXAMPLE, MASTER_LINES, PASS_EXAMPLE, PASS_REFUSALS, PLAN_EXAMPLE,
    PLAN_LINES, SCAN_EXAMPLE, SCAN_LINES, SEGMENT_EXAMPLE, SEGMENT_LINES, SIM_EXAMPLE, SIM_LINES,
};
use clap::builder::ValueParser;
use clap::{Arg, ArgAction, Command};
use std::alloc::{AllocError, Global};

/// A command, unless memory ran out.
type Made<'a> = Result<Command<'a>, AllocError>;

/// All commands of `ecat`.
pub fn command<'a>(alloc: Global) -> Made<'a>
    ensures { IfOk result (λ command. app_of command ≡ ecat) }
{
    let commands = with_command(program(alloc), pass_command(alloc));
    let commands = with_command(commands, plan_command(alloc));
    let commands = with_command(commands, decode_command(alloc));
    let commands = with_command(commands, encode_command(alloc));
    let commands = with_command(commands, sim_command(alloc));
    let commands = with_command(commands, loop_command(alloc));
    let commands = with_command(commands, segment_command(alloc));
    let commands = with_command(commands, master_command(alloc));
    with_command(commands, scan_command(alloc))
}

/// `ecat` without a command.
fn program<'a>(alloc: Global) -> Made<'a>
    ensures { IsMadeAs result (on_top (λ s. record s { has_version = true; subcommand_required = true }) (new_app (codes "ecat"))) }
{
    let about = "An EtherCAT master and simulated EtherCAT slaves";
    let command = Command::new(alloc, "ecat")
        .about(about)
        .after_help(EXIT_STATUSES);
    Ok(command.version("0.1.0").subcommand_required(true))
}

/// `ecat pass --slaves N HEX`.
fn pass_command<'a>(alloc: Global) -> Made<'a>
    ensures { IsMadeAs result (alone pass_shape) }
{
    let about = "Passes a frame through slaves at power-on and prints it as it comes back";
    let command = help_of(alloc, "pass", about, PASS_EXAMPLE, PASS_REFUSALS);
    let help = "How many slaves the ring has, 0 to 64";
    let slaves = required(number(alloc, "slaves", "N", 0, 64, help));
    let command = with_argument(command, slaves);
    let help = "The payload in hex digits of either case, at most 1472 bytes";
    with_argument(command, required(text(alloc, "frame", "HEX", help)))
}

/// `ecat plan [--header] [--prefix PREFIX] [--explain] [--terse] [TABLE]`.
fn plan_command<'a>(alloc: Global) -> Made<'a>
    ensures { IsMadeAs result (alone plan_shape) }
{
    let usage = "ecat plan [--header] [--prefix <PREFIX>] [--explain] [--terse] [TABLE]";
    let about = "Reads a link table and prints its plan";
    let command = used_as(alloc, "plan", usage, about, PLAN_EXAMPLE, PLAN_LINES);
    let help = "Print the variables as a C header instead of the plan";
    let command = with_argument(command, flag(alloc, "header", help));
    let help = "What the names of the header begin with, in place of ECAT_";
    let command = with_argument(command, option(alloc, "prefix", "PREFIX", help));
    let help = "Print the plan as tables of bits, for people, and explain a refusal";
    let command = with_argument(command, flag(alloc, "explain", help));
    with_input(alloc, command, "TABLE")
}

/// `ecat decode [--table FILE] [--explain] [--terse] [FILE]`.
fn decode_command<'a>(alloc: Global) -> Made<'a>
    ensures { IsMadeAs result (alone decode_shape) }
{
    let usage = "ecat decode [--table <FILE>] [--explain] [--terse] [FILE]";
    let about = "Reads payloads in hex, one a line, and prints them as text";
    let command = used_as(alloc, "decode", usage, about, DECODE_EXAMPLE, DECODE_LINES);
    let help = "Name the variables of this link table that a frame carries";
    let command = with_argument(command, option(alloc, "table", "FILE", help));
    let help = "Explain each datagram by the names of the standard";
    let command = with_argument(command, flag(alloc, "explain", help));
    with_input(alloc, command, "FILE")
}

/// `ecat encode [--terse] [FILE]`.
fn encode_command<'a>(alloc: Global) -> Made<'a>
    ensures { IsMadeAs result (alone encode_shape) }
{
    let usage = "ecat encode [--terse] [FILE]";
    let about = "Reads frames as `ecat decode` prints them and prints each in hex";
    let command = used_as(alloc, "encode", usage, about, ENCODE_EXAMPLE, ENCODE_LINES);
    with_input(alloc, command, "FILE")
}

/// `ecat sim [--live] [--capture FILE] [--strict] [--explain] [--terse] [TABLE [SCRIPT]]`.
fn sim_command<'a>(alloc: Global) -> Made<'a>
    ensures { IsMadeAs result (alone sim_shape) }
{
    let usage =
        "ecat sim [--live] [--capture <FILE>] [--strict] [--explain] [--terse] [TABLE [SCRIPT]]";
    let about = "Runs a script against the simulated slaves of a link table";
    let command = used_as(alloc, "sim", usage, about, SIM_EXAMPLE, SIM_LINES);
    let help = "Run each line as it comes, and write out what it prints before the next one";
    let command = with_argument(command, flag(alloc, "live", help));
    let command = with_argument(command, capture_argument(alloc));
    let command = with_argument(command, strict_argument(alloc));
    let command = with_argument(command, explain_argument(alloc));
    let command = with_input(alloc, command, "TABLE");
    with_argument(command, lines_argument(alloc, "SCRIPT"))
}

/// `ecat loop --cycles N [--capture FILE] [--explain] [--terse] [TABLE]`.
fn loop_command<'a>(alloc: Global) -> Made<'a>
    ensures { IsMadeAs result (alone loop_shape) }
{
    let usage = "ecat loop --cycles <N> [--capture <FILE>] [--explain] [--terse] [TABLE]";
    let about = "Runs master and slaves of a link table against each other over two sockets";
    let command = used_as(alloc, "loop", usage, about, LOOP_EXAMPLE, LOOP_LINES);
    let help = "How many cycles are run, 0 to 1000";
    let cycles = required(number(alloc, "cycles", "N", 0, 1000, help));
    let command = with_argument(command, cycles);
    let command = with_argument(command, capture_argument(alloc));
    let command = with_argument(command, explain_argument(alloc));
    with_input(alloc, command, "TABLE")
}

/// `ecat segment [--frames N] [--bind ADDRESS] [--port P | --descriptor N] [--full] [--live] [--idle SECONDS] [--capture FILE]
/// [--strict] [--explain] [--terse] [TABLE]`.
fn segment_command<'a>(alloc: Global) -> Made<'a>
    ensures { IsMadeAs result (alone segment_shape) }
{
    let usage =
        "ecat segment [--frames <N>] [--bind <ADDRESS>] [--port <P> | --descriptor <N>] [--full] [--live] [--idle <SECONDS>] [--capture <FILE>] [--strict] [--explain] [--terse] [TABLE]";
    let about = "Answers frames as the slaves of a link table, on a UDP port or a network card";
    let command = used_as(
        alloc,
        "segment",
        usage,
        about,
        SEGMENT_EXAMPLE,
        SEGMENT_LINES,
    );
    let help = "How many payloads are received, 0 to 4294967295; without it, as many as come";
    let command = with_argument(command, number(alloc, "frames", "N", 0, u32::MAX, help));
    let help = "The IPv4 address that it listens on";
    let bind = by_default(option(alloc, "bind", "ADDRESS", help), "127.0.0.1");
    let command = with_argument(command, bind);
    let help = "The UDP port there, 1 to 65535";
    let port = by_default(number(alloc, "port", "P", 1, 65535, help), "34980");
    let command = with_argument(command, port);
    let command = with_argument(command, descriptor_argument(alloc));
    let help = "Give slaves what usual masters expect: SII categories, DL status, more objects";
    let command = with_argument(command, flag(alloc, "full", help));
    let help = "Move the slaves by the lines behind the link table, as they come";
    let command = with_argument(command, flag(alloc, "live", help));
    let help = "How many seconds it waits for a payload, 0 to 86400; 0 waits without end";
    let idle = by_default(number(alloc, "idle", "SECONDS", 0, 86400, help), "60");
    let command = with_argument(command, idle);
    let command = with_argument(command, capture_argument(alloc));
    let command = with_argument(command, strict_argument(alloc));
    let command = with_argument(command, explain_argument(alloc));
    with_input(alloc, command, "TABLE")
}

/// `ecat master [--to ADDRESS:PORT | --descriptor N] [--patience MS] [--capture FILE] [--strict] [--explain] [--terse]
/// [TABLE [LINES]]`.
fn master_command<'a>(alloc: Global) -> Made<'a>
    ensures { IsMadeAs result (alone master_shape) }
{
    let usage =
        "ecat master [--to <ADDRESS:PORT> | --descriptor <N>] [--patience <MS>] [--capture <FILE>] [--strict] [--explain] [--terse] [TABLE [LINES]]";
    let about = "Runs lines as the master of a link table, over UDP or a network card";
    let command = used_as(alloc, "master", usage, about, MASTER_EXAMPLE, MASTER_LINES);
    let help = "The IPv4 address and the UDP port of the segment";
    let to = by_default(option(alloc, "to", "ADDRESS:PORT", help), "127.0.0.1:34980");
    let command = with_argument(command, to);
    let command = with_argument(command, descriptor_argument(alloc));
    let help = "How many milliseconds it waits for an answer, 1 to 60000";
    let patience = by_default(number(alloc, "patience", "MS", 1, 60000, help), "500");
    let command = with_argument(command, patience);
    let command = with_argument(command, capture_argument(alloc));
    let command = with_argument(command, strict_argument(alloc));
    let command = with_argument(command, explain_argument(alloc));
    let command = with_input(alloc, command, "TABLE");
    with_argument(command, lines_argument(alloc, "LINES"))
}

/// `ecat scan [--to ADDRESS:PORT | --descriptor N] [--patience MS] [--against TABLE] [--capture FILE] [--explain] [--terse]`.
fn scan_command<'a>(alloc: Global) -> Made<'a>
    ensures { IsMadeAs result (alone scan_shape) }
{
    let usage =
        "ecat scan [--to <ADDRESS:PORT> | --descriptor <N>] [--patience <MS>] [--against <TABLE>] [--capture <FILE>] [--explain] [--terse]";
    let about = "Finds the slaves of a segment and prints a link table of them";
    let command = used_as(alloc, "scan", usage, about, SCAN_EXAMPLE, SCAN_LINES);
    let help = "The IPv4 address and the UDP port of the segment";
    let to = by_default(option(alloc, "to", "ADDRESS:PORT", help), "127.0.0.1:34980");
    let command = with_argument(command, to);
    let command = with_argument(command, descriptor_argument(alloc));
    let help = "How many milliseconds it waits for an answer, 1 to 60000";
    let patience = by_default(number(alloc, "patience", "MS", 1, 60000, help), "500");
    let command = with_argument(command, patience);
    let help = "Print what differs from this link table instead: status 5 if anything does";
    let command = with_argument(command, option(alloc, "against", "TABLE", help));
    let command = with_argument(command, capture_argument(alloc));
    let help = "Explain a refusal: which slave, what it said, what to do";
    let command = with_argument(command, flag(alloc, "explain", help));
    with_argument(command, terse_argument(alloc))
}

/// A command without arguments: its name, its usage, what it does, and the texts below its short and its long help.
fn used_as<'a>(
    alloc: Global,
    name: &'a str,
    usage: &'a str,
    about: &'a str,
    example: &'a str,
    lines: &'a str,
) -> Made<'a>
    ensures { IsMadeAs result (new_app name.now) }
{
    Ok(help_of(alloc, name, about, example, lines)?.override_usage(usage))
}

/// As [`used_as`], but `clap` makes the usage from the arguments.
fn help_of<'a>(
    alloc: Global,
    name: &'a str,
    about: &'a str,
    example: &'a str,
    lines: &'a str,
) -> Made<'a>
    ensures { IsMadeAs result (new_app name.now) }
{
    let command = Command::new(alloc, name).about(about);
    Ok(command.after_help(example).after_long_help(lines))
}

/// The commands with one more.
fn with_command<'a>(commands: Made<'a>, command: Made<'a>) -> Made<'a>
    ensures { (app sub : App) → IsMadeAs commands.entry app → IsMadeAs command.entry sub → IsMadeAs result (with_subcommand app sub.top) }
{
    commands?.subcommand(command?)
}

/// The command with one more argument.
fn with_argument<'a>(command: Made<'a>, argument: Arg<'a>) -> Made<'a>
    ensures { (app : App) (rule : Rule) → IsArgument argument.entry rule → IsMadeAs command.entry app → IsMadeAs result (with_rule app rule) }
{
    command?.arg(argument)
}

/// The command with the file of an input, and with `--terse`.
fn with_input<'a>(alloc: Global, command: Made<'a>, value: &'a str) -> Made<'a>
    ensures { (app : App) → IsMadeAs command.entry app → IsMadeAs result (with_input app) }
{
    let help = "The file that is read; without it, or with `-`, standard input";
    let command = with_argument(command, text(alloc, "input", value, help));
    with_argument(command, terse_argument(alloc))
}

/// `--terse`, which explains no refusal.
fn terse_argument<'a>(alloc: Global) -> Arg<'a>
    ensures { IsArgument result terse_rule }
{
    let help = "Explain no refusal; else one is explained if standard error is a terminal";
    flag(alloc, "terse", help)
}

/// `SCRIPT` or `LINES`, the file of the lines behind a table.
fn lines_argument<'a>(alloc: Global, value: &'a str) -> Arg<'a>
    ensures { IsArgument result lines_rule }
{
    let help = "The file of the lines; without it, or with `-`, standard input";
    text(alloc, "lines", value, help)
}

/// `--strict` of the commands that run lines.
fn strict_argument<'a>(alloc: Global) -> Arg<'a>
    ensures { IsArgument result strict_rule }
{
    let help = "Count each line that prints `no`, `bad`, `failed` or `fault` as unmet: status 5";
    flag(alloc, "strict", help)
}

/// `--explain` of the commands that print neither a plan nor payloads.
fn explain_argument<'a>(alloc: Global) -> Arg<'a>
    ensures { IsArgument result explain_rule }
{
    let help = "Explain a refusal: which line is at fault, what is wrong, what to do";
    flag(alloc, "explain", help)
}

/// `--capture FILE`, the file that gets the frames that pass.
fn capture_argument<'a>(alloc: Global) -> Arg<'a>
    ensures { IsArgument result capture_rule }
{
    let help = "Write all frames into a pcapng file for Wireshark";
    option(alloc, "capture", "FILE", help)
}

/// `--descriptor N`, the descriptor of a card's raw socket.
fn descriptor_argument<'a>(alloc: Global) -> Arg<'a>
    ensures { IsArgument result descriptor_rule }
{
    let help = "Instead of UDP: the descriptor of a network card's open raw socket, 0 to 1023";
    number(alloc, "descriptor", "N", 0, 1023, help)
}

/// `--NAME`, a flag.
fn flag<'a>(alloc: Global, name: &'a str, help: &'a str) -> Arg<'a>
    ensures { IsArgument result (flag_rule name.now) }
{
    Arg::new(alloc, name)
        .long(name)
        .action(ArgAction::SetTrue)
        .help(help)
}

/// `VALUE`, any text.
fn text<'a>(alloc: Global, name: &'a str, value: &'a str, help: &'a str) -> Arg<'a>
    ensures { IsArgument result (record (new_rule name.now) { action = Some Set; value_names = 1 }) }
{
    Arg::new(alloc, name)
        .action(ArgAction::Set)
        .value_name(value)
        .help(help)
}

/// `--NAME VALUE`, any text.
fn option<'a>(alloc: Global, name: &'a str, value: &'a str, help: &'a str) -> Arg<'a>
    ensures { IsArgument result (text_rule name.now) }
{
    text(alloc, name, value, help).long(name)
}

/// `--NAME VALUE`, a number from the least to the most.
fn number<'a>(
    alloc: Global,
    name: &'a str,
    value: &'a str,
    least: u32,
    most: u32,
    help: &'a str,
) -> Arg<'a>
    ensures { IsArgument result (number_rule name.now least most) }
{
    option(alloc, name, value, help).value_parser(ValueParser::signed(
        i64::from(least),
        i64::from(most),
    ))
}

/// The argument, which must be given.
fn required<'a>(argument: Arg<'a>) -> Arg<'a>
    ensures { (rule : Rule) → IsArgument argument.entry rule → IsArgument result (needed rule) }
{
    argument.required(true)
}

/// The argument, with this text if it isn't given.
fn by_default<'a>(argument: Arg<'a>, text: &'a str) -> Arg<'a>
    ensures { (rule : Rule) → IsArgument argument.entry rule → IsArgument result (or_else text.now rule) }
{
    argument.default_value(text)
}

//! The command line.
ghost use Rattle.std.specs.Prelude.{◌≡◌, List, [], ◌∷◌, Some, codes, false, map, unwrap_or, IfOk, IfSome};
ghost use Rattle.clap.specs.Words.{FailsBy, app_of, fault_of, first_value, found_of, one_text, rule_of};
ghost use Rattle.clap.specs.Simple.{with_rule};
ghost use Rattle.clap.specs.Words.{subcommand_rows_of};
ghost use Rattle.clap.specs.declared.builder.command.Command.TheViews.{out-Command as fields_of};
ghost use Rattle.command_line.specs.CommandLine.{command_of_line, command_in, command_app, file_rule};
ghost use Rattle.command_line.specs.CommandLine.{value_of_command, tool_app};
ghost use Rattle.command_line.specs.CommandLine.{threads_app, fuel_rule, number_given};

use crate::{VERSION, help};
use clap::builder::ValueParser;
use clap::{Arg, ArgAction, ArgMatches, Command, Error};
use std::alloc::{AllocError, Global};
use std::convert::AsStr;

/// The most steps that a processor of a threaded run may be asked to take.
const MAX_FUEL: u64 = 1_000_000;

/// What a command line asks for. Files are named by their paths.
#[derive(Clone, Copy)]
pub enum ToolCommand<'a> {
    /// Runs a program of words from standard input.
    Words,
    /// Assembles a source text to an image.
    Assemble {
        source: &'a str,
        image: &'a str,
    },
    /// Prints the listing of an image.
    List {
        image: &'a str,
    },
    /// Runs an image by a schedule.
    Run {
        image: &'a str,
        schedule: &'a str,
    },
    /// Runs an image's processors at once, each for `fuel` steps, and writes a schedule that does the same.
    Threads {
        image: &'a str,
        fuel: usize,
        schedule: &'a str,
    },
    /// Answers the debugger's commands from standard input over an image and a schedule.
    Debug {
        image: &'a str,
        schedule: &'a str,
    },
}

/// The command that the words of a line ask for, the first of which is the program's name.
///
/// The error has the text for the user, also where help or the version was asked for, or memory was refused. The
/// clauses say which kind it has, and nothing of the text.
pub fn read_command_line<'a, S: AsStr>(
    alloc: Global,
    words: &'a [S],
) -> Result<ToolCommand<'a>, Error>
    ensures command { IfOk result (λ command.
        command_of_line (map S.text words.entry.now) ≡ Some (value_of_command command)) }
    ensures fault { FailsBy (fault_of tool_app (map S.text words.entry.now)) result }
{
    let matches = tool_parser(alloc)?.try_get_matches_from(words)?;
    Ok(command_of_matches(&matches))
}

/// The command that stood on the line, with all its arguments.
fn command_of_matches<'a>(matches: &ArgMatches<'a>) -> ToolCommand<'a>
    ensures { IfSome (command_in (subcommand_rows_of matches.now)) (λ wanted. value_of_command result ≡ wanted) }
{
    match matches.subcommand() {
        Some(("asm", files)) => ToolCommand::Assemble {
            source: path(files, "SOURCE"),
            image: path(files, "IMAGE"),
        },
        Some(("list", files)) => ToolCommand::List {
            image: path(files, "IMAGE"),
        },
        Some(("run", files)) => ToolCommand::Run {
            image: path(files, "IMAGE"),
            schedule: path(files, "SCHEDULE"),
        },
        Some(("threads", arguments)) => ToolCommand::Threads {
            image: path(arguments, "IMAGE"),
            fuel: number(arguments, "FUEL"),
            schedule: path(arguments, "SCHEDULE"),
        },
        Some(("debug", files)) => ToolCommand::Debug {
            image: path(files, "IMAGE"),
            schedule: path(files, "SCHEDULE"),
        },
        _ => ToolCommand::Words,
    }
}

/// The path that an argument gives.
fn path<'a>(matches: &ArgMatches<'a>, argument: &str) -> &'a str
    ensures { result.now ≡ unwrap_or (first_value (found_of matches.now) argument.now) [] }
{
    matches.get_str(argument).unwrap_or("")
}

/// The number that an argument gives; 0 where it gives none, which no parser lets through.
fn number(matches: &ArgMatches, argument: &str) -> usize
    ensures { result ≡ number_given (one_text (found_of matches.now) argument.now) }
{
    matches.get_one::<usize>(argument).unwrap_or(0)
}

/// The parser of the tool's command lines, with the texts that it prints.
fn tool_parser<'a>(alloc: Global) -> Result<Command<'a>, AllocError>
    ensures { IfOk result (λ command. app_of command ≡ tool_app) }
{
    described(
        alloc,
        "mta_sim",
        "Simulates processors of the Tera MTA",
        help::TOOL,
    )
    .version(VERSION)
    .subcommand_required(true)
    .subcommand(words_parser(alloc))?
    .subcommand(asm_parser(alloc)?)?
    .subcommand(list_parser(alloc)?)?
    .subcommand(run_parser(alloc)?)?
    .subcommand(threads_parser(alloc)?)?
    .subcommand(debug_parser(alloc)?)
}

/// The parser of `words`.
fn words_parser<'a>(alloc: Global) -> Command<'a>
    ensures app { app_of result ≡ command_app (codes "words") [] }
    ensures local { (fields_of result).has_globals ≡ false }
{
    described(
        alloc,
        "words",
        "Runs program words from standard input, and prints the stream's state",
        help::WORDS,
    )
}

/// The parser of `asm`.
fn asm_parser<'a>(alloc: Global) -> Result<Command<'a>, AllocError>
    ensures app { IfOk result (λ command.
        app_of command ≡ command_app (codes "asm") (codes "SOURCE" ∷ codes "IMAGE" ∷ [])) }
    ensures local { IfOk result (λ command. (fields_of command).has_globals ≡ false) }
{
    let asm = described(
        alloc,
        "asm",
        "Assembles a source text, and writes the image",
        help::ASM,
    );
    let source = file(alloc, "SOURCE", help::SOURCE);
    let image = file(alloc, "IMAGE", help::IMAGE_TO_WRITE);
    with_two(asm, source, image)
}

/// The parser of `list`.
fn list_parser<'a>(alloc: Global) -> Result<Command<'a>, AllocError>
    ensures app { IfOk result (λ command. app_of command ≡ command_app (codes "list") (codes "IMAGE" ∷ [])) }
    ensures local { IfOk result (λ command. (fields_of command).has_globals ≡ false) }
{
    let list = described(
        alloc,
        "list",
        "Prints the source text that means just this image",
        help::LIST,
    );
    list.arg(file(alloc, "IMAGE", help::IMAGE))
}

/// The parser of `run`.
fn run_parser<'a>(alloc: Global) -> Result<Command<'a>, AllocError>
    ensures app { IfOk result (λ command.
        app_of command ≡ command_app (codes "run") (codes "IMAGE" ∷ codes "SCHEDULE" ∷ [])) }
    ensures local { IfOk result (λ command. (fields_of command).has_globals ≡ false) }
{
    let run = described(
        alloc,
        "run",
        "Runs an image by a schedule, and prints each step and what the machine came to",
        help::RUN,
    );
    let image = file(alloc, "IMAGE", help::IMAGE);
    let schedule = file(alloc, "SCHEDULE", help::SCHEDULE);
    with_two(run, image, schedule)
}

/// The parser of `threads`.
fn threads_parser<'a>(alloc: Global) -> Result<Command<'a>, AllocError>
    ensures app { IfOk result (λ command. app_of command ≡ threads_app) }
    ensures local { IfOk result (λ command. (fields_of command).has_globals ≡ false) }
{
    let threads = described(
        alloc,
        "threads",
        "Runs an image's processors at once, and writes a schedule that does the same",
        help::THREADS,
    )
    .arg(file(alloc, "IMAGE", help::IMAGE))?;
    let schedule = file(alloc, "SCHEDULE", help::SCHEDULE_TO_WRITE);
    with_two(threads, fuel(alloc), schedule)
}

/// The argument that says how many steps each processor takes at most.
fn fuel<'a>(alloc: Global) -> Arg<'a>
    ensures rule { rule_of result ≡ fuel_rule }
    ensures local { result.global ≡ false }
{
    Arg::new(alloc, "FUEL")
        .help(help::FUEL)
        .required(true)
        .action(ArgAction::Set)
        .value_parser(ValueParser::unsigned(1, MAX_FUEL))
}

/// The parser of `debug`.
fn debug_parser<'a>(alloc: Global) -> Result<Command<'a>, AllocError>
    ensures app { IfOk result (λ command.
        app_of command ≡ command_app (codes "debug") (codes "IMAGE" ∷ codes "SCHEDULE" ∷ [])) }
    ensures local { IfOk result (λ command. (fields_of command).has_globals ≡ false) }
{
    let debug = described(
        alloc,
        "debug",
        "Answers the debugger's commands over an image's run by a schedule",
        help::DEBUG,
    );
    let image = file(alloc, "IMAGE", help::IMAGE);
    let schedule = file(alloc, "SCHEDULE", help::SCHEDULE);
    with_two(debug, image, schedule)
}

/// The parser of a command, and what `--help` says of it.
fn described<'a>(alloc: Global, name: &'a str, about: &'a str, long_about: &'a str) -> Command<'a>
    ensures app { app_of result ≡ command_app name.entry.now [] }
    ensures local { (fields_of result).has_globals ≡ false }
{
    Command::new(alloc, name)
        .about(about)
        .long_about(long_about)
        .after_help(help::STATUSES)
}

/// The parser of a command that takes two arguments more.
fn with_two<'a>(
    command: Command<'a>,
    first: Arg<'a>,
    second: Arg<'a>,
) -> Result<Command<'a>, AllocError>
    requires local { (fields_of command).has_globals ≡ false }
    requires no_global { first.global ≡ false }
    requires nor_second { second.global ≡ false }
    ensures app { IfOk result (λ added. app_of added
        ≡ with_rule (with_rule (app_of command.entry) (rule_of first.entry)) (rule_of second.entry)) }
    ensures local { IfOk result (λ added. (fields_of added).has_globals ≡ false) }
{
    command.arg(first)?.arg(second)
}

/// An argument that names a file, and what `--help` says of it.
fn file<'a>(alloc: Global, name: &'a str, text: &'a str) -> Arg<'a>
    ensures rule { rule_of result ≡ file_rule name.entry.now }
    ensures local { result.global ≡ false }
{
    Arg::new(alloc, name)
        .help(text)
        .required(true)
        .action(ArgAction::Set)
}

//! The parser of the command lines.

use crate::arguments::{Argument, Form, Presence, parser_of};
use crate::choices::COLOUR_WORDS;
use crate::commands::{COMMANDS, CommandWords};
use crate::values::ValueKind;
use crate::{VERSION, help};
use clap::Command;
use std::alloc::{AllocError, Global};

/// When lines for people have colours, of all commands.
const COLOUR: Argument = Argument(
    "color",
    help::COLOUR,
    Form::Option("WHEN", ValueKind::OneOf(&COLOUR_WORDS), Presence::Free),
);

/// The parser of the command lines, with the texts that it prints.
pub(crate) fn lab_parser<'a>(alloc: Global) -> Result<Command<'a>, AllocError> {
    let about = "Shows what programs of the Tera MTA do";
    let tool = described(alloc, "mta_lab", about, help::TOOL)
        .version(VERSION)
        .subcommand_required(true)
        .arg(parser_of(alloc, &COLOUR)?.global(true))?;
    with_commands(alloc, tool, &COMMANDS)
}

/// The parser with these commands below it.
fn with_commands<'a>(
    alloc: Global,
    parser: Command<'a>,
    commands: &[CommandWords],
) -> Result<Command<'a>, AllocError> {
    let mut parser = parser;
    for words in commands.iter() {
        parser = parser.subcommand(command_parser(alloc, words)?)?;
    }
    Ok(parser)
}

/// The parser of a command, and what `--help` says of it.
fn command_parser<'a>(alloc: Global, words: &CommandWords) -> Result<Command<'a>, AllocError> {
    let parser = described(alloc, words.name, words.about, words.long);
    with_arguments(alloc, parser, words.arguments)
}

/// The parser of the tool or of a command, before its arguments, and what `--help` says of it.
fn described<'a>(alloc: Global, name: &'a str, about: &'a str, long: &'a str) -> Command<'a> {
    Command::new(alloc, name)
        .about(about)
        .long_about(long)
        .after_help(help::STATUSES)
}

/// The parser with these arguments too.
fn with_arguments<'a>(
    alloc: Global,
    parser: Command<'a>,
    arguments: &[Argument],
) -> Result<Command<'a>, AllocError> {
    let mut parser = parser;
    for argument in arguments.iter() {
        parser = parser.arg(parser_of(alloc, argument)?)?;
    }
    Ok(parser)
}

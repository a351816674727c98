//! Words of a line that are not UTF-8.

use crate::arguments::{Argument, Form};
use crate::commands::{COMMANDS, CommandName};
use crate::values::ValueKind;
use clap::ArgMatches;
use named_files::ForeignNames;
use std::alloc::{AllocError, Global};

/// Why a line is refused that has such words: one is an option, or the value of an option or of an argument that is no
/// file to read.
pub(crate) fn refusal_of(
    alloc: Global,
    command: CommandName,
    found: &ArgMatches<'_>,
    foreign: &ForeignNames,
) -> Result<Option<String>, AllocError> {
    if let Some(word) = foreign.first_with("-") {
        let option = word.split_once('=').map_or(word, |(option, _)| option);
        return Ok(Some(format!(in alloc; "{option}: its value is not UTF-8: {word}")?));
    }
    if command == CommandName::Asm
        && found.get_str("out").is_none()
        && let Some(source) = one_foreign(found.get_str("SOURCE"), foreign)
    {
        return Ok(Some(format!(in alloc; "--out: the image of {source} needs a name")?));
    }
    for argument in arguments_of(command) {
        if let Some(word) = foreign_value(argument, found, foreign) {
            let (dashes, name) = (dashes_of(argument), argument.0);
            return Ok(Some(format!(in alloc; "{dashes}{name}: its value is not UTF-8: {word}")?));
        }
    }
    Ok(None)
}

/// The arguments of a command.
fn arguments_of(command: CommandName) -> &'static [Argument] {
    for words in COMMANDS.iter() {
        if words.command == command {
            return words.arguments;
        }
    }
    &[]
}

/// The value of an argument that is not UTF-8 and may not be so.
fn foreign_value<'a>(
    argument: &Argument,
    found: &ArgMatches<'a>,
    foreign: &ForeignNames,
) -> Option<&'a str> {
    let Argument(name, _, form) = *argument;
    match form {
        Form::Flag(_) => None,
        Form::Option(_, _, _) => one_foreign(found.get_str(name), foreign),
        Form::Needed(kind) | Form::Optional(kind, _) if is_file(kind) => None,
        Form::Needed(_) | Form::Optional(_, _) => one_foreign(found.get_str(name), foreign),
        Form::Several(kind) | Form::AnyNumber(kind) if is_file(kind) => None,
        Form::Several(_) | Form::AnyNumber(_) | Form::Name(_) => first_foreign(
            found.get_strs(name)?,
            foreign,
        ),
    }
}

/// A word, if it is there and is not UTF-8.
fn one_foreign<'a>(word: Option<&'a str>, foreign: &ForeignNames) -> Option<&'a str> {
    word.filter(|word| foreign.has(word))
}

/// The first of these words that is not UTF-8.
fn first_foreign<'a>(words: &[&'a str], foreign: &ForeignNames) -> Option<&'a str> {
    for word in words {
        if foreign.has(word) {
            return Some(*word);
        }
    }
    None
}

/// Whether a value is a file.
fn is_file(kind: ValueKind) -> bool {
    matches!(kind, ValueKind::File(_))
}

/// What stands before the name of an argument on a line.
fn dashes_of(argument: &Argument) -> &'static str {
    match argument.2 {
        Form::Flag(_) | Form::Option(_, _, _) => "--",
        Form::Needed(_)
        | Form::Optional(_, _)
        | Form::Several(_)
        | Form::AnyNumber(_)
        | Form::Name(_) => "",
    }
}

//! The arguments and options of commands, as data, and the parser's form of them.

use crate::values::ValueKind;
use clap::builder::ValueParser;
use clap::{Arg, ArgAction};
use std::alloc::{AllocError, Global};

/// How an argument stands on a line, and what its value is.
#[derive(Clone, Copy)]
pub(crate) enum Form {
    /// A word that has to be there.
    Needed(ValueKind),
    /// A word that may be left out, and does not go with the options of these names.
    Optional(ValueKind, &'static [&'static str]),
    /// One or more words.
    Several(ValueKind),
    /// Words, which may be left out.
    AnyNumber(ValueKind),
    /// A name of one or more words, which may be left out.
    Name(ValueKind),
    /// `--name`, which does not go with the options of these names.
    Flag(&'static [&'static str]),
    /// `--name VALUE`: what help calls the value, what it is, and when the option stands on a line.
    Option(&'static str, ValueKind, Presence),
}

/// When an option stands on a line.
#[derive(Clone, Copy)]
pub(crate) enum Presence {
    /// It may be left out.
    Free,
    /// It has to be there.
    Needed,
    /// It has to be there, unless an option of these names is.
    NeededWithout(&'static [&'static str]),
    /// It does not go with the options of these names.
    Without(&'static [&'static str]),
    /// It says nothing without the argument of this name, and so goes only with it.
    With(&'static str),
}

/// An argument of a command: its name, what help says of it, and how it stands on a line.
#[derive(Clone, Copy)]
pub(crate) struct Argument(pub &'static str, pub &'static str, pub Form);

/// The parser of an argument.
pub(crate) fn parser_of<'a>(alloc: Global, argument: &Argument) -> Result<Arg<'a>, AllocError> {
    let Argument(name, about, form) = *argument;
    let parser = Arg::new(alloc, name).help(about);
    match form {
        Form::Needed(kind) => Ok(taking(parser, kind).required(true)),
        Form::Optional(kind, excluded) => taking(parser, kind).conflicts_with_all(excluded),
        Form::Several(kind) => Ok(taking_several(parser, kind).required(true)),
        Form::AnyNumber(kind) | Form::Name(kind) => Ok(taking_several(parser, kind)),
        Form::Flag(excluded) => parser
            .long(name)
            .action(ArgAction::SetTrue)
            .conflicts_with_all(excluded),
        Form::Option(value, kind, presence) => {
            with_presence(taking(parser.long(name).value_name(value), kind), presence)
        }
    }
}

/// The parser of an argument that takes a value of a kind.
fn taking<'a>(parser: Arg<'a>, kind: ValueKind) -> Arg<'a> {
    checking(parser.action(ArgAction::Set), kind)
}

/// The parser of an argument that takes several such values.
fn taking_several<'a>(parser: Arg<'a>, kind: ValueKind) -> Arg<'a> {
    checking(parser.num_args(1..).action(ArgAction::Append), kind)
}

/// The parser of an argument whose values have to be of a kind, as far as that can be seen before they are used.
fn checking<'a>(parser: Arg<'a>, kind: ValueKind) -> Arg<'a> {
    match kind {
        ValueKind::OneOf(words) => parser.value_parser(words),
        ValueKind::Number(least, most) => parser.value_parser(ValueParser::unsigned(least, most)),
        ValueKind::Operand => parser.allow_hyphen_values(true),
        ValueKind::File(_)
        | ValueKind::Folder
        | ValueKind::OneOfOrOther(_)
        | ValueKind::Explained
        | ValueKind::Exercise
        | ValueKind::Text => parser,
    }
}

/// The parser of an option that stands on a line only so.
fn with_presence<'a>(parser: Arg<'a>, presence: Presence) -> Result<Arg<'a>, AllocError> {
    match presence {
        Presence::Free => Ok(parser),
        Presence::Needed => Ok(parser.required(true)),
        Presence::NeededWithout(others) => parser.required_unless_present_any(others),
        Presence::Without(excluded) => parser.conflicts_with_all(excluded),
        Presence::With(needed) => parser.requires_arg(needed),
    }
}

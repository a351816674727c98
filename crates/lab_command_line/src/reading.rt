//! The command line, read.

use crate::choices::{COLOUR_WORDS, COLOURS};
use crate::commands::{CommandName, command_called};
use crate::file_commands::{asm_of, check_of, exercise_of, explain_of, layout_of, new_of, word_of};
use crate::foreign_words::refusal_of;
use crate::gallery_command::gallery_of;
use crate::help;
use crate::many_runs_commands::{explore_of, grading_of, survey_of};
use crate::options::chosen;
use crate::page_commands::{page_of, picture_of};
use crate::parsers::lab_parser;
use crate::play_command::play_of;
use crate::run_commands::{compare_of, debug_of, misfit_of, schedule_of, view_of};
use crate::standard_inputs::misused_input;
use clap::error::ErrorKind;
use clap::{ArgMatches, Error};
use lab_requests::{Colours, LabCall, LabCommand};
use named_files::ForeignNames;
use std::alloc::{AllocError, Global};
use std::convert::AsStr;

/// The command that the words of a line ask for, the first of which is the program's name. Those that are not UTF-8 stand
/// there as they are shown, and may be files that are read and no options.
///
/// The error has the text for the user, also where help or the version was asked for, or memory was refused.
pub fn read_lab_command<'a, S: AsStr>(
    alloc: Global,
    line: &'a [S],
    foreign: &ForeignNames,
) -> Result<LabCall<'a>, Error> {
    if line.len() <= 1 {
        return Err(refused(alloc, help::FIRST_COMMANDS)?);
    }
    if let Some(program) = mistyped_program(line) {
        let words = format!(in alloc; "to run a program, type: mta_lab view {program}")?;
        return Err(refused(alloc, words.as_str())?);
    }
    let matches = lab_parser(alloc)?.try_get_matches_from(line)?;
    let Some((name, found)) = matches.subcommand() else {
        return Err(refused(alloc, "there is no command")?);
    };
    let Some(command) = command_called(name) else {
        return Err(refused(alloc, "there is no such command")?);
    };
    if let Some(words) = refusal_of(alloc, command, found, foreign)? {
        return Err(refused(alloc, words.as_str())?);
    }
    if let Some(words) = misfit_of(command, found) {
        return Err(refused(alloc, words)?);
    }
    let command = asked_of(alloc, command, found)?;
    match misused_input(&command) {
        Some(words) => Err(refused(alloc, words)?),
        None => Ok(LabCall {
            command,
            colours: colours_of(found),
        }),
    }
}

/// When the lines of the command have colours.
fn colours_of(found: &ArgMatches) -> Colours {
    chosen(found, "color", &COLOUR_WORDS, &COLOURS).unwrap_or(Colours::Auto)
}

/// The program of a line that names one where its command stands, or that runs one as `mta_sim` does.
fn mistyped_program<S: AsStr>(line: &[S]) -> Option<&str> {
    let first = line.get(1)?.as_str();
    if first == "run" {
        return match line.get(2) {
            Some(program) => Some(program.as_str()),
            None => Some("PROGRAM"),
        };
    }
    if first.ends_with(".asm") || first.ends_with(".image") {
        Some(first)
    } else {
        None
    }
}

/// The error for a command line whose words do not go together.
fn refused(alloc: Global, words: &str) -> Result<Error, AllocError> {
    let mut parser = lab_parser(alloc)?;
    parser.error(ErrorKind::ArgumentConflict, words)
}

/// What a command is asked.
fn asked_of<'a>(
    alloc: Global,
    command: CommandName,
    found: &ArgMatches<'a>,
) -> Result<LabCommand<'a>, AllocError> {
    match command {
        CommandName::Check => Ok(LabCommand::Check(check_of(alloc, found)?)),
        CommandName::Fmt => Ok(LabCommand::LayOut(layout_of(alloc, found)?)),
        CommandName::Schedule => Ok(schedule_of(found)),
        CommandName::View => Ok(LabCommand::View(view_of(found))),
        CommandName::Debug => Ok(debug_of(found)),
        CommandName::Dap => Ok(LabCommand::Adapt),
        CommandName::Lsp => Ok(LabCommand::ServeLanguage),
        CommandName::Compare => Ok(compare_of(found)),
        CommandName::Survey => Ok(LabCommand::Survey(survey_of(found))),
        CommandName::Explore => Ok(LabCommand::Explore(explore_of(found))),
        CommandName::Grade => grading_of(alloc, found),
        CommandName::Exercise => Ok(LabCommand::Exercise(exercise_of(found))),
        CommandName::Page => Ok(LabCommand::Page(page_of(found))),
        CommandName::Picture => Ok(LabCommand::Picture(picture_of(found))),
        CommandName::Play => Ok(LabCommand::Play(play_of(found))),
        CommandName::Gallery => Ok(LabCommand::Gallery(gallery_of(found))),
        CommandName::Asm => Ok(asm_of(found)),
        CommandName::Explain => explain_of(alloc, found),
        CommandName::Word => word_of(alloc, found),
        CommandName::New => Ok(new_of(found)),
    }
}

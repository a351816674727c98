//! The commands over files alone: their arguments, in the order of the help, and what they ask.

use crate::arguments::{Argument, Form, Presence};
use crate::choices::{IDIOM_WORDS, IDIOMS, KIND_WORDS, KINDS};
use crate::options::{EXERCISES, MOST_HINTS, chosen, text, word, words};
use crate::shared_arguments::JSON;
use crate::values::{PAGE_FILE, PROGRAM_FILE, SOURCE_FILE, ValueKind};
use clap::ArgMatches;
use lab_requests::{CheckRequest, ExerciseRequest, ExerciseTask, LabCommand, LayoutRequest};
use std::alloc::{AllocError, Global};

/// Of `check`.
pub(crate) const CHECK_ARGUMENTS: [Argument; 5] = [
    Argument(
        "FILE",
        "source texts, images, schedules or files of expectations",
        Form::Several(ValueKind::File(&[".asm", ".image", ".schedule", ".expect"])),
    ),
    Argument(
        "as",
        "all are of this kind: source, image, schedule or expectations",
        Form::Option("KIND", ValueKind::OneOf(&KIND_WORDS), Presence::Free),
    ),
    Argument(
        "program",
        "the schedules and expectations are of this program",
        Form::Option("PROGRAM", PROGRAM_FILE, Presence::Free),
    ),
    Argument("strict", "warnings count as errors", Form::Flag(&[])),
    JSON,
];

/// Of `fmt`.
pub(crate) const FMT_ARGUMENTS: [Argument; 2] = [
    Argument(
        "FILE",
        "the source texts [standard input]",
        Form::AnyNumber(SOURCE_FILE),
    ),
    Argument(
        "check",
        "writes nothing, and says which files would change",
        Form::Flag(&[]),
    ),
];

/// Of `explain`.
pub(crate) const EXPLAIN_ARGUMENTS: [Argument; 1] = [Argument(
    "WORD",
    "the word, or a name of several words [all words are listed]",
    Form::Name(ValueKind::Explained),
)];

/// Of `word`.
pub(crate) const WORD_ARGUMENTS: [Argument; 1] = [Argument(
    "WORD",
    "hexadecimal digits, as 0x28000, or an instruction, as ADD r1, r1, 1",
    Form::Several(ValueKind::Operand),
)];

/// Of `new`.
pub(crate) const NEW_ARGUMENTS: [Argument; 2] = [
    Argument(
        "NAME",
        "the program's name: NAME.asm and NAME.expect are written",
        Form::Needed(ValueKind::Text),
    ),
    Argument(
        "from",
        "what it shows: lock, semaphore, mailbox, ticket, barrier or switch [a count]",
        Form::Option("IDIOM", ValueKind::OneOf(&IDIOM_WORDS), Presence::Free),
    ),
];

/// Of `asm`.
pub(crate) const ASM_ARGUMENTS: [Argument; 2] = [
    Argument("SOURCE", "the source text", Form::Needed(SOURCE_FILE)),
    Argument(
        "out",
        "the image file [the source's name, with .image]",
        Form::Option("IMAGE", ValueKind::File(&[".image"]), Presence::Free),
    ),
];

/// Of `exercise`.
pub(crate) const EXERCISE_ARGUMENTS: [Argument; 7] = [
    Argument(
        "NUMBER",
        "the exercise, by its number or its name [lists all]",
        Form::Optional(ValueKind::Exercise, &[]),
    ),
    Argument(
        "hint",
        "shows this hint, from 1",
        Form::Option(
            "K",
            ValueKind::Number(1, MOST_HINTS),
            Presence::With("NUMBER"),
        ),
    ),
    Argument(
        "page",
        "writes the page of a run that is not right, FILE.html",
        Form::Option("FILE", PAGE_FILE, Presence::With("NUMBER")),
    ),
    Argument(
        "play",
        "writes the page of all schedules, opened where that run ends, FILE.html",
        Form::Option("FILE", PAGE_FILE, Presence::With("NUMBER")),
    ),
    Argument(
        "reset",
        "makes start.asm what it was before you edited it",
        Form::Flag(&["hint", "page", "play"]),
    ),
    Argument(
        "watch",
        "judges your program again each time that you save it",
        Form::Flag(&["hint", "page", "play", "reset"]),
    ),
    Argument(
        "folder",
        "where the exercises are [exercises]",
        Form::Option("FOLDER", ValueKind::Folder, Presence::Free),
    ),
];

/// What `check` is asked.
pub(crate) fn check_of<'a>(
    alloc: Global,
    found: &ArgMatches<'a>,
) -> Result<CheckRequest<'a>, AllocError> {
    Ok(CheckRequest {
        files: words(alloc, found, "FILE")?,
        kind: chosen(found, "as", &KIND_WORDS, &KINDS),
        program: text(found, "program"),
        strict: found.get_flag("strict"),
        json: found.get_flag("json"),
    })
}

/// What `fmt` is asked.
pub(crate) fn layout_of<'a>(
    alloc: Global,
    found: &ArgMatches<'a>,
) -> Result<LayoutRequest<'a>, AllocError> {
    Ok(LayoutRequest {
        files: words(alloc, found, "FILE")?,
        checks: found.get_flag("check"),
    })
}

/// What `word` is asked.
pub(crate) fn word_of<'a>(
    alloc: Global,
    found: &ArgMatches<'a>,
) -> Result<LabCommand<'a>, AllocError> {
    Ok(LabCommand::Word {
        words: words(alloc, found, "WORD")?,
    })
}

/// What `explain` is asked.
pub(crate) fn explain_of<'a>(
    alloc: Global,
    found: &ArgMatches<'a>,
) -> Result<LabCommand<'a>, AllocError> {
    Ok(LabCommand::Explain {
        words: words(alloc, found, "WORD")?,
    })
}

/// What `new` is asked.
pub(crate) fn new_of<'a>(found: &ArgMatches<'a>) -> LabCommand<'a> {
    LabCommand::New {
        name: word(found, "NAME"),
        idiom: chosen(found, "from", &IDIOM_WORDS, &IDIOMS),
    }
}

/// What `asm` is asked.
pub(crate) fn asm_of<'a>(found: &ArgMatches<'a>) -> LabCommand<'a> {
    LabCommand::Assemble {
        source: word(found, "SOURCE"),
        image: text(found, "out"),
    }
}

/// What `exercise` is asked.
pub(crate) fn exercise_of<'a>(found: &ArgMatches<'a>) -> ExerciseRequest<'a> {
    ExerciseRequest {
        folder: text(found, "folder").unwrap_or(EXERCISES),
        which: text(found, "NUMBER"),
        task: task_of(found),
    }
}

/// What is done with an exercise.
fn task_of<'a>(found: &ArgMatches<'a>) -> ExerciseTask<'a> {
    if found.get_flag("reset") {
        return ExerciseTask::Reset;
    }
    if found.get_flag("watch") {
        return ExerciseTask::Watch;
    }
    if let Some(hint) = found.get_one::<usize>("hint") {
        return ExerciseTask::Hint(hint);
    }
    match (text(found, "page"), text(found, "play")) {
        (Some(page), _) => ExerciseTask::Page(page),
        (None, Some(page)) => ExerciseTask::Play(page),
        (None, None) => ExerciseTask::Judge,
    }
}

/// What is said of words of `exercise` that do not go together.
pub(crate) fn exercise_misfit(found: &ArgMatches) -> Option<&'static str> {
    let mut asked: usize = 0;
    for name in ["hint", "page", "play"] {
        if found.contains_id(name) {
            asked = asked.saturating_add(1);
        }
    }
    if asked > 1 {
        return Some("--hint, --page and --play are asked one at a time");
    }
    if found.get_flag("reset") && !found.contains_id("NUMBER") {
        return Some("--reset takes the number of an exercise");
    }
    if found.get_flag("watch") && !found.contains_id("NUMBER") {
        return Some("--watch takes the number of an exercise");
    }
    None
}

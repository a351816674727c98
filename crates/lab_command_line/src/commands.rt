//! The commands, as data: their names, what help says of them, and which arguments they take.

use crate::arguments::Argument;
use crate::file_commands::{
    ASM_ARGUMENTS, CHECK_ARGUMENTS, EXERCISE_ARGUMENTS, EXPLAIN_ARGUMENTS, FMT_ARGUMENTS,
    NEW_ARGUMENTS, WORD_ARGUMENTS,
};
use crate::gallery_command::GALLERY_ARGUMENTS;
use crate::help;
use crate::many_runs_commands::{EXPLORE_ARGUMENTS, GRADE_ARGUMENTS, SURVEY_ARGUMENTS};
use crate::page_commands::{PAGE_ARGUMENTS, PICTURE_ARGUMENTS};
use crate::play_command::PLAY_ARGUMENTS;
use crate::run_commands::{COMPARE_ARGUMENTS, DEBUG_ARGUMENTS, SCHEDULE_ARGUMENTS, VIEW_ARGUMENTS};

/// The commands.
#[derive(Clone, Copy, PartialEq, Eq)]
pub(crate) enum CommandName {
    /// `check`.
    Check,
    /// `fmt`.
    Fmt,
    /// `schedule`.
    Schedule,
    /// `view`.
    View,
    /// `debug`.
    Debug,
    /// `dap`.
    Dap,
    /// `lsp`.
    Lsp,
    /// `compare`.
    Compare,
    /// `survey`.
    Survey,
    /// `explore`.
    Explore,
    /// `grade`.
    Grade,
    /// `exercise`.
    Exercise,
    /// `page`.
    Page,
    /// `picture`.
    Picture,
    /// `play`.
    Play,
    /// `gallery`.
    Gallery,
    /// `asm`.
    Asm,
    /// `explain`.
    Explain,
    /// `word`.
    Word,
    /// `new`.
    New,
}

/// A command.
#[derive(Clone, Copy)]
pub(crate) struct CommandWords {
    /// Which it is.
    pub command: CommandName,
    /// Its name.
    pub name: &'static str,
    /// What it does, in a line.
    pub about: &'static str,
    /// The same at length.
    pub long: &'static str,
    /// Its arguments.
    pub arguments: &'static [Argument],
}

/// The commands, in the order of the help.
pub(crate) const COMMANDS: [CommandWords; 20] = [
    CommandWords {
        command: CommandName::Check,
        name: "check",
        about: "Checks source texts, images, schedules and files of expectations",
        long: help::CHECK,
        arguments: &CHECK_ARGUMENTS,
    },
    CommandWords {
        command: CommandName::Fmt,
        name: "fmt",
        about: "Lays source texts out: labels, statements and comments in columns",
        long: help::FMT,
        arguments: &FMT_ARGUMENTS,
    },
    CommandWords {
        command: CommandName::Schedule,
        name: "schedule",
        about: "Makes a schedule of a program, and prints it",
        long: help::SCHEDULE,
        arguments: &SCHEDULE_ARGUMENTS,
    },
    CommandWords {
        command: CommandName::View,
        name: "view",
        about: "Shows a run step by step, and how it ends",
        long: help::VIEW,
        arguments: &VIEW_ARGUMENTS,
    },
    CommandWords {
        command: CommandName::Debug,
        name: "debug",
        about: "Goes forward and back in a run, by the lines of standard input",
        long: help::DEBUG,
        arguments: &DEBUG_ARGUMENTS,
    },
    CommandWords {
        command: CommandName::Dap,
        name: "dap",
        about: "Lets an editor debug a program, by the Debug Adapter Protocol",
        long: help::DAP,
        arguments: &[],
    },
    CommandWords {
        command: CommandName::Lsp,
        name: "lsp",
        about: "Shows an editor faults, names and layouts, by the Language Server Protocol",
        long: help::LSP,
        arguments: &[],
    },
    CommandWords {
        command: CommandName::Compare,
        name: "compare",
        about: "Shows where two schedules of a program first differ, and both ends",
        long: help::COMPARE,
        arguments: &COMPARE_ARGUMENTS,
    },
    CommandWords {
        command: CommandName::Survey,
        name: "survey",
        about: "Runs many random schedules, and counts their ends",
        long: help::SURVEY,
        arguments: &SURVEY_ARGUMENTS,
    },
    CommandWords {
        command: CommandName::Explore,
        name: "explore",
        about: "Shows every end that schedules of a program can reach",
        long: help::EXPLORE,
        arguments: &EXPLORE_ARGUMENTS,
    },
    CommandWords {
        command: CommandName::Grade,
        name: "grade",
        about: "Judges submissions by many random schedules each, or by every one",
        long: help::GRADE,
        arguments: &GRADE_ARGUMENTS,
    },
    CommandWords {
        command: CommandName::Exercise,
        name: "exercise",
        about: "Lists exercises, judges yours, and shows hints",
        long: help::EXERCISE,
        arguments: &EXERCISE_ARGUMENTS,
    },
    CommandWords {
        command: CommandName::Page,
        name: "page",
        about: "Writes a page that shows a run, for a browser",
        long: help::PAGE,
        arguments: &PAGE_ARGUMENTS,
    },
    CommandWords {
        command: CommandName::Picture,
        name: "picture",
        about: "Writes a picture of a run's lanes",
        long: help::PICTURE,
        arguments: &PICTURE_ARGUMENTS,
    },
    CommandWords {
        command: CommandName::Play,
        name: "play",
        about: "Writes a page on which the reader is the scheduler",
        long: help::PLAY,
        arguments: &PLAY_ARGUMENTS,
    },
    CommandWords {
        command: CommandName::Gallery,
        name: "gallery",
        about: "Writes pages of all examples and exercises, and one that leads to them",
        long: help::GALLERY,
        arguments: &GALLERY_ARGUMENTS,
    },
    CommandWords {
        command: CommandName::Asm,
        name: "asm",
        about: "Assembles a source text, and writes the image",
        long: help::ASM,
        arguments: &ASM_ARGUMENTS,
    },
    CommandWords {
        command: CommandName::Explain,
        name: "explain",
        about: "Says what a word of a program, a run or a message means",
        long: help::EXPLAIN,
        arguments: &EXPLAIN_ARGUMENTS,
    },
    CommandWords {
        command: CommandName::Word,
        name: "word",
        about: "Says what an instruction word says, field by field",
        long: help::WORD,
        arguments: &WORD_ARGUMENTS,
    },
    CommandWords {
        command: CommandName::New,
        name: "new",
        about: "Writes a program to begin with, and what its ends have to be",
        long: help::NEW,
        arguments: &NEW_ARGUMENTS,
    },
];

/// The command of this name; None if there is none.
pub(crate) fn command_called(name: &str) -> Option<CommandName> {
    for words in COMMANDS.iter() {
        if words.name == name {
            return Some(words.command);
        }
    }
    None
}

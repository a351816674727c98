//! The commands that show or make one run, or two, in text: their arguments, in the order of the help, and what they ask.

use crate::arguments::{Argument, Form, Presence};
use crate::choices::{RULE_WORDS, RULES, RuleName};
use crate::commands::CommandName;
use crate::file_commands::exercise_misfit;
use crate::help;
use crate::options::{MOST_STEPS, USUAL_STEPS, chosen, count, number, shown_of, text, word};
use crate::page_commands::page_misfit;
use crate::shared_arguments::{GIVEN, HEX_IN_TEXT, JSON, PROGRAM, SCHEDULE, SEED, STEPS};
use crate::values::{SCHEDULE_FILE, ValueKind};
use clap::ArgMatches;
use lab_requests::{LabCommand, Maker, RunChoice, ViewRequest};

/// Of `schedule`.
pub(crate) const SCHEDULE_ARGUMENTS: [Argument; 4] = [
    Argument(
        "RULE",
        "rounds, fair or random",
        Form::Needed(ValueKind::OneOf(&RULE_WORDS)),
    ),
    PROGRAM,
    SEED,
    STEPS,
];

/// What `--why` of `view` does not go with: it says itself which steps are shown, and how.
const NOT_WITH_WHY: [&str; 7] = ["from", "only", "word", "columns", "all", "round", "json"];

/// Of `view`.
pub(crate) const VIEW_ARGUMENTS: [Argument; 16] = [
    PROGRAM,
    SCHEDULE,
    GIVEN,
    Argument("fair", help::FAIR, Form::Flag(&["seed"])),
    SEED,
    STEPS,
    Argument(
        "from",
        "the first step that is shown",
        Form::Option("K", ValueKind::Number(1, u64::MAX / 2), Presence::Free),
    ),
    Argument(
        "to",
        "the last step that is shown",
        Form::Option("K", ValueKind::Number(1, u64::MAX / 2), Presence::Free),
    ),
    Argument(
        "only",
        "shows only the steps of this stream",
        Form::Option("P.S", ValueKind::Text, Presence::Free),
    ),
    Argument(
        "word",
        "shows the steps that use the word at this byte address, or of this name",
        Form::Option("A", ValueKind::Text, Presence::Free),
    ),
    Argument(
        "why",
        "shows the steps that the value of this register or word comes from, as 2.0.r6 or [8]",
        Form::Option("WHERE", ValueKind::Text, Presence::Without(&NOT_WITH_WHY)),
    ),
    Argument("columns", "a column a stream", Form::Flag(&["json"])),
    Argument(
        "all",
        "a line for each step, also where a loop repeats",
        Form::Flag(&["json"]),
    ),
    Argument(
        "round",
        help::ROUND,
        Form::Option("N", ValueKind::Number(1, MOST_STEPS), Presence::Free),
    ),
    HEX_IN_TEXT,
    JSON,
];

/// Of `debug`.
pub(crate) const DEBUG_ARGUMENTS: [Argument; 6] = [
    PROGRAM,
    SCHEDULE,
    GIVEN,
    Argument("fair", help::FAIR, Form::Flag(&["seed"])),
    SEED,
    STEPS,
];

/// Of `compare`.
pub(crate) const COMPARE_ARGUMENTS: [Argument; 8] = [
    PROGRAM,
    Argument(
        "ONE",
        "a schedule, or with --seeds its seed",
        Form::Needed(SCHEDULE_FILE),
    ),
    Argument("OTHER", "another one", Form::Needed(SCHEDULE_FILE)),
    GIVEN,
    Argument(
        "seeds",
        "ONE and OTHER are seeds of random schedules",
        Form::Flag(&[]),
    ),
    Argument(
        "steps",
        help::STEPS,
        Form::Option(
            "K",
            ValueKind::Number(1, MOST_STEPS),
            Presence::With("seeds"),
        ),
    ),
    HEX_IN_TEXT,
    JSON,
];

/// What is said of a command's words that do not go together; None where they do.
pub(crate) fn misfit_of(command: CommandName, found: &ArgMatches) -> Option<&'static str> {
    match command {
        CommandName::Schedule => seed_misfit(found),
        CommandName::Compare => compare_misfit(found),
        CommandName::Page => page_misfit(found),
        CommandName::Exercise => exercise_misfit(found),
        CommandName::Check
        | CommandName::Fmt
        | CommandName::View
        | CommandName::Debug
        | CommandName::Dap
        | CommandName::Lsp
        | CommandName::Survey
        | CommandName::Explore
        | CommandName::Grade
        | CommandName::Picture
        | CommandName::Play
        | CommandName::Gallery
        | CommandName::Asm
        | CommandName::Explain
        | CommandName::Word
        | CommandName::New => None,
    }
}

/// What is said of a seed of `schedule` that says nothing: its rule is not `random`.
fn seed_misfit(found: &ArgMatches) -> Option<&'static str> {
    if rule_of(found) != RuleName::Random && found.contains_id("seed") {
        Some("--seed goes with the rule random alone")
    } else {
        None
    }
}

/// What is said of words of `compare` that do not go together.
fn compare_misfit(found: &ArgMatches) -> Option<&'static str> {
    if lacks_seeds(found, "ONE") {
        Some("with --seeds ONE and OTHER are numbers from 0 to 18446744073709551615")
    } else {
        None
    }
}

/// Whether two seeds are to be taken, and a word is none.
pub(crate) fn lacks_seeds(found: &ArgMatches, one: &str) -> bool {
    let are_seeds = seed_in(found, one).is_some() && seed_in(found, "OTHER").is_some();
    found.get_flag("seeds") && !are_seeds
}

/// The seed that a word is; None where it is none.
fn seed_in(found: &ArgMatches, name: &str) -> Option<u64> {
    let digits = word(found, name);
    if digits.bytes().all(|byte| byte.is_ascii_digit()) {
        digits.parse::<u64>().ok()
    } else {
        None
    }
}

/// One of two schedules that are compared.
pub(crate) fn compared_of<'a>(found: &ArgMatches<'a>, name: &str) -> RunChoice<'a> {
    if !found.get_flag("seeds") {
        return RunChoice::File(word(found, name));
    }
    RunChoice::Made {
        maker: Maker::Random {
            seed: seed_in(found, name).unwrap_or(0),
        },
        most: count(found, "steps", USUAL_STEPS),
    }
}

/// The name of the rule of `schedule`.
fn rule_of(found: &ArgMatches) -> RuleName {
    chosen(found, "RULE", &RULE_WORDS, &RULES).unwrap_or(RuleName::Fair)
}

/// The rule that `schedule` names.
fn maker_of(found: &ArgMatches) -> Maker {
    match rule_of(found) {
        RuleName::Rounds => Maker::Rounds,
        RuleName::Fair => Maker::Fair,
        RuleName::Random => Maker::Random {
            seed: number(found, "seed", 0),
        },
    }
}

/// What `schedule` is asked.
pub(crate) fn schedule_of<'a>(found: &ArgMatches<'a>) -> LabCommand<'a> {
    LabCommand::Schedule {
        program: word(found, "PROGRAM"),
        maker: maker_of(found),
        most: count(found, "steps", USUAL_STEPS),
    }
}

/// What `debug` is asked.
pub(crate) fn debug_of<'a>(found: &ArgMatches<'a>) -> LabCommand<'a> {
    LabCommand::Debug {
        program: word(found, "PROGRAM"),
        given: text(found, "given"),
        run: run_of(found),
    }
}

/// What `compare` is asked.
pub(crate) fn compare_of<'a>(found: &ArgMatches<'a>) -> LabCommand<'a> {
    LabCommand::Compare {
        program: word(found, "PROGRAM"),
        given: text(found, "given"),
        one: compared_of(found, "ONE"),
        other: compared_of(found, "OTHER"),
        shown: shown_of(found),
    }
}

/// What `view` is asked.
pub(crate) fn view_of<'a>(found: &ArgMatches<'a>) -> ViewRequest<'a> {
    ViewRequest {
        program: word(found, "PROGRAM"),
        given: text(found, "given"),
        run: run_of(found),
        from: count(found, "from", 1),
        to: count(found, "to", usize::MAX),
        only: text(found, "only"),
        word: text(found, "word"),
        why: text(found, "why"),
        columns: found.get_flag("columns"),
        are_all: found.get_flag("all"),
        round: found.get_one::<usize>("round"),
        shown: shown_of(found),
    }
}

/// By which schedule a program runs: a file's, a random one where a seed is given, else a fair one.
pub(crate) fn run_of<'a>(found: &ArgMatches<'a>) -> RunChoice<'a> {
    if let Some(path) = text(found, "SCHEDULE") {
        return RunChoice::File(path);
    }
    let maker = match found.get_one::<u64>("seed") {
        Some(seed) => Maker::Random { seed },
        None => Maker::Fair,
    };
    RunChoice::Made {
        maker,
        most: count(found, "steps", USUAL_STEPS),
    }
}

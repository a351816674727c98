//! The commands that draw one run, or two: `page` and `picture`. Their arguments, in the order of the help, and what they ask.

use crate::arguments::{Argument, Form, Presence};
use crate::help;
use crate::options::{MOST_STEPS, USUAL_STEPS, count, text, word};
use crate::run_commands::{compared_of, lacks_seeds, run_of};
use crate::shared_arguments::{GIVEN, PROGRAM, SEED, STEPS, TITLE};
use crate::values::{PAGE_FILE, SCHEDULE_FILE, ValueKind};
use clap::ArgMatches;
use lab_requests::{Maker, PageRequest, RunChoice};

/// Of `page`.
pub(crate) const PAGE_ARGUMENTS: [Argument; 12] = [
    PROGRAM,
    Argument(
        "SCHEDULE",
        help::PAGE_SCHEDULE,
        Form::Optional(SCHEDULE_FILE, &["fair", "seed", "rounds"]),
    ),
    Argument(
        "OTHER",
        "another one, whose run is shown next to the first",
        Form::Optional(SCHEDULE_FILE, &[]),
    ),
    GIVEN,
    Argument(
        "seeds",
        "SCHEDULE and OTHER are seeds of random schedules",
        Form::Flag(&[]),
    ),
    Argument("fair", help::FAIR, Form::Flag(&["seed", "rounds"])),
    Argument(
        "rounds",
        "the running streams step in the order of processor and stream",
        Form::Flag(&["seed"]),
    ),
    SEED,
    STEPS,
    Argument(
        "round",
        help::ROUND,
        Form::Option(
            "N",
            ValueKind::Number(1, MOST_STEPS),
            Presence::Without(&["OTHER"]),
        ),
    ),
    TITLE,
    Argument(
        "out",
        "the page, FILE.html",
        Form::Option("FILE", PAGE_FILE, Presence::Needed),
    ),
];

/// Of `picture`.
pub(crate) const PICTURE_ARGUMENTS: [Argument; 11] = [
    PROGRAM,
    Argument(
        "SCHEDULE",
        help::SCHEDULE_FILE,
        Form::Optional(SCHEDULE_FILE, &["fair", "seed", "rounds", "steps"]),
    ),
    GIVEN,
    Argument("fair", help::FAIR, Form::Flag(&["seed", "rounds"])),
    Argument(
        "rounds",
        "the running streams step in the order of processor and stream",
        Form::Flag(&["seed"]),
    ),
    SEED,
    STEPS,
    Argument(
        "from",
        "the first step that is drawn",
        Form::Option("K", ValueKind::Number(1, u64::MAX / 2), Presence::Free),
    ),
    Argument(
        "to",
        "the last step that is drawn",
        Form::Option("K", ValueKind::Number(1, u64::MAX / 2), Presence::Free),
    ),
    TITLE,
    Argument(
        "out",
        "the picture, FILE.svg",
        Form::Option("FILE", ValueKind::File(&[".svg"]), Presence::Needed),
    ),
];

/// What is said of words of `page` that do not go together.
pub(crate) fn page_misfit(found: &ArgMatches) -> Option<&'static str> {
    if lacks_seeds(found, "SCHEDULE") {
        return Some("with --seeds SCHEDULE and OTHER are numbers from 0 to 18446744073709551615");
    }
    if has_idle_steps(found) {
        Some("--steps is of schedules that are made, and SCHEDULE is a file")
    } else {
        None
    }
}

/// Whether `page` has a number of steps that says nothing: its schedule is a file's.
fn has_idle_steps(found: &ArgMatches) -> bool {
    !found.get_flag("seeds") && found.contains_id("SCHEDULE") && found.contains_id("steps")
}

/// What `page` is asked.
pub(crate) fn page_of<'a>(found: &ArgMatches<'a>) -> PageRequest<'a> {
    let shown = PageRequest {
        round: found.get_one::<usize>("round"),
        ..drawn_of(found)
    };
    if !found.contains_id("OTHER") {
        return shown;
    }
    PageRequest {
        run: compared_of(found, "SCHEDULE"),
        other: Some(compared_of(found, "OTHER")),
        ..shown
    }
}

/// What `picture` is asked, and `page` of one run.
fn drawn_of<'a>(found: &ArgMatches<'a>) -> PageRequest<'a> {
    let run = if found.get_flag("rounds") {
        RunChoice::Made {
            maker: Maker::Rounds,
            most: count(found, "steps", USUAL_STEPS),
        }
    } else {
        run_of(found)
    };
    PageRequest {
        program: word(found, "PROGRAM"),
        given: text(found, "given"),
        run,
        other: None,
        from: 1,
        to: usize::MAX,
        round: None,
        title: text(found, "title"),
        out: word(found, "out"),
    }
}

/// What `picture` is asked.
pub(crate) fn picture_of<'a>(found: &ArgMatches<'a>) -> PageRequest<'a> {
    PageRequest {
        from: count(found, "from", 1),
        to: count(found, "to", usize::MAX),
        ..drawn_of(found)
    }
}

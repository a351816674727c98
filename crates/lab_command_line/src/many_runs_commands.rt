//! The commands over many runs or every schedule: their arguments, in the order of the help, and what they ask.

use crate::arguments::{Argument, Form, Presence};
use crate::choices::{FORMAT_WORDS, FORMATS, UNDECIDED, UNDECIDED_WORDS};
use crate::options::{
    MOST_JOBS, MOST_MEGABYTES, MOST_SECONDS, MOST_WORLDS, USUAL_MEGABYTES, USUAL_SEEDS,
    USUAL_STEPS, USUAL_WORLDS, chosen, count, number, shown_of, text, word, words,
};
use crate::shared_arguments::{
    BEGINNING, EXPECT, GIVEN, HEX, JSON, PROGRAM, SECONDS, SEEDS, STATES, STEPS,
};
use crate::values::{CELLS_FILE, EXPECT_FILE, PROGRAM_FILE, RESULTS_FILE, ValueKind};
use crate::{VERSION, help};
use clap::ArgMatches;
use lab_requests::{
    Bounds, ExploreRequest, GradeCases, GradeFormat, GradeRequest, LabCommand, MergeRequest,
    SurveyRequest, Undecided,
};
use std::alloc::{AllocError, Global};

/// Of `survey`.
pub(crate) const SURVEY_ARGUMENTS: [Argument; 12] = [
    PROGRAM,
    GIVEN,
    SEEDS,
    Argument(
        "from",
        "the first seed [0]",
        Form::Option("SEED", ValueKind::Number(0, u64::MAX), Presence::Free),
    ),
    STEPS,
    EXPECT,
    Argument(
        "explore",
        "says how many of the ends of every schedule were reached",
        Form::Flag(&[]),
    ),
    STATES,
    SECONDS,
    Argument(
        "memory",
        help::MEMORY,
        Form::Option(
            "MB",
            ValueKind::Number(1, MOST_MEGABYTES),
            Presence::With("explore"),
        ),
    ),
    HEX,
    JSON,
];

/// Of `explore`.
pub(crate) const EXPLORE_ARGUMENTS: [Argument; 14] = [
    PROGRAM,
    GIVEN,
    EXPECT,
    BEGINNING,
    Argument(
        "states",
        help::STATES,
        Form::Option("N", ValueKind::Number(1, MOST_WORLDS), Presence::Free),
    ),
    Argument(
        "seconds",
        help::SECONDS,
        Form::Option("N", ValueKind::Number(0, MOST_SECONDS), Presence::Free),
    ),
    Argument(
        "memory",
        help::MEMORY,
        Form::Option("MB", ValueKind::Number(1, MOST_MEGABYTES), Presence::Free),
    ),
    Argument("plain", help::PLAIN, Form::Flag(&[])),
    Argument(
        "waiting",
        "says who can wait forever, of all states",
        Form::Flag(&[]),
    ),
    Argument(
        "keep",
        "writes the schedule to each end into this folder",
        Form::Option("FOLDER", ValueKind::Folder, Presence::Free),
    ),
    Argument(
        "pages",
        "writes the page of the run to each end into this folder",
        Form::Option("FOLDER", ValueKind::Folder, Presence::Free),
    ),
    Argument(
        "dot",
        "writes the states as a graph for Graphviz, FILE.dot",
        Form::Option("FILE", ValueKind::File(&[".dot"]), Presence::Free),
    ),
    HEX,
    JSON,
];

/// Of `grade`.
pub(crate) const GRADE_ARGUMENTS: [Argument; 24] = [
    Argument(
        "expect",
        help::EXPECT,
        Form::Option(
            "FILE",
            EXPECT_FILE,
            Presence::NeededWithout(&["cases", "merge"]),
        ),
    ),
    Argument(
        "cases",
        "a folder of cases, each NAME.data and NAME.expect",
        Form::Option(
            "FOLDER",
            ValueKind::Folder,
            Presence::Without(&["expect", "given"]),
        ),
    ),
    Argument(
        "given",
        "the cells, as .data and .fill lines, that replace words of each submission",
        Form::Option("FILE", CELLS_FILE, Presence::Without(&["cases"])),
    ),
    Argument(
        "require-names",
        "a submission without the names of a case's words is a source fault",
        Form::Flag(&[]),
    ),
    SEEDS,
    STEPS,
    Argument(
        "all",
        "counts the ends of all seeds, and of all schedules",
        Form::Flag(&[]),
    ),
    Argument(
        "explore",
        "every schedule; if that decides nothing, random ones too",
        Form::Flag(&[]),
    ),
    Argument(
        "thorough",
        "random schedules; if they are right, every schedule, with more and more memory",
        Form::Flag(&[]),
    ),
    STATES,
    SECONDS,
    Argument(
        "memory",
        help::GRADE_MEMORY,
        Form::Option(
            "MB",
            ValueKind::Number(1, MOST_MEGABYTES),
            Presence::With("explore"),
        ),
    ),
    Argument(
        "jobs",
        "how many submissions at a time, 1 to 256 [as many as processors]",
        Form::Option("N", ValueKind::Number(1, MOST_JOBS), Presence::Free),
    ),
    Argument(
        "no-links",
        "a submission that is a symbolic link is not read",
        Form::Flag(&[]),
    ),
    Argument(
        "pages",
        "writes the page of each submission that is not right into this folder",
        Form::Option("FOLDER", ValueKind::Folder, Presence::Free),
    ),
    Argument(
        "format",
        "how it is written: text, tsv, json, junit, gradescope or moodle [text]",
        Form::Option(
            "FORMAT",
            ValueKind::OneOf(&FORMAT_WORDS),
            Presence::Without(&["json"]),
        ),
    ),
    Argument(
        "undecided",
        "what a case that is not decided counts as, right or wrong [no score]",
        Form::Option("WORD", ValueKind::OneOf(&UNDECIDED_WORDS), Presence::Free),
    ),
    Argument(
        "feedback",
        "writes a text for the student of each submission into this folder",
        Form::Option("FOLDER", ValueKind::Folder, Presence::Free),
    ),
    HEX,
    Argument("json", "the same as --format json", Form::Flag(&[])),
    Argument(
        "results",
        "keeps each result in this file, and takes those that it has already",
        Form::Option("FILE", RESULTS_FILE, Presence::Free),
    ),
    Argument(
        "part",
        help::PART,
        Form::Option("I/N", ValueKind::Text, Presence::Free),
    ),
    Argument(
        "merge",
        "judges nothing: the files are kept results, of which it makes one table",
        Form::Flag(&[
            "expect",
            "cases",
            "given",
            "require-names",
            "seeds",
            "steps",
            "all",
            "explore",
            "thorough",
            "jobs",
            "no-links",
            "pages",
            "feedback",
            "hex",
            "results",
            "part",
        ]),
    ),
    Argument(
        "SUBMISSION",
        "the submissions: source texts or images; with --merge files of results",
        Form::Several(PROGRAM_FILE),
    ),
];

/// What `survey` is asked.
pub(crate) fn survey_of<'a>(found: &ArgMatches<'a>) -> SurveyRequest<'a> {
    SurveyRequest {
        program: word(found, "PROGRAM"),
        given: text(found, "given"),
        seeds: count(found, "seeds", USUAL_SEEDS),
        first: number(found, "from", 0),
        most: count(found, "steps", USUAL_STEPS),
        expected: text(found, "expect"),
        explored: explored_of(found),
        shown: shown_of(found),
    }
}

/// What `explore` is asked.
pub(crate) fn explore_of<'a>(found: &ArgMatches<'a>) -> ExploreRequest<'a> {
    ExploreRequest {
        program: word(found, "PROGRAM"),
        given: text(found, "given"),
        expected: text(found, "expect"),
        from: text(found, "from"),
        bounds: bounds_of(found),
        is_plain: found.get_flag("plain"),
        asks_who_waits: found.get_flag("waiting"),
        keep: text(found, "keep"),
        pages: text(found, "pages"),
        dot: text(found, "dot"),
        shown: shown_of(found),
    }
}

/// What `grade` asks for: to judge, or to make one table of results that were kept.
pub(crate) fn grading_of<'a>(
    alloc: Global,
    found: &ArgMatches<'a>,
) -> Result<LabCommand<'a>, AllocError> {
    if found.get_flag("merge") {
        return Ok(LabCommand::Merge(MergeRequest {
            results: words(alloc, found, "SUBMISSION")?,
            format: format_of(found),
            undecided: undecided_of(found),
        }));
    }
    Ok(LabCommand::Grade(grade_of(alloc, found)?))
}

/// What `grade` is asked.
fn grade_of<'a>(alloc: Global, found: &ArgMatches<'a>) -> Result<GradeRequest<'a>, AllocError> {
    Ok(GradeRequest {
        cases: cases_of(found),
        seeds: count(found, "seeds", USUAL_SEEDS),
        most: count(found, "steps", USUAL_STEPS),
        counts_all: found.get_flag("all"),
        explored: graded_of(found),
        is_thorough: found.get_flag("thorough"),
        needs_names: found.get_flag("require-names"),
        megabytes_in_all: found.get_one::<usize>("memory"),
        jobs: found.get_one::<usize>("jobs"),
        refuses_links: found.get_flag("no-links"),
        pages: text(found, "pages"),
        submissions: words(alloc, found, "SUBMISSION")?,
        part: text(found, "part"),
        results: text(found, "results"),
        version: VERSION,
        feedback: text(found, "feedback"),
        format: format_of(found),
        undecided: undecided_of(found),
        hexadecimal: found.get_flag("hex"),
    })
}

/// What submissions are judged by.
fn cases_of<'a>(found: &ArgMatches<'a>) -> GradeCases<'a> {
    match text(found, "cases") {
        Some(folder) => GradeCases::Folder(folder),
        None => GradeCases::One {
            expected: word(found, "expect"),
            given: text(found, "given"),
        },
    }
}

/// What a case counts as that is not decided.
fn undecided_of(found: &ArgMatches) -> Undecided {
    chosen(found, "undecided", &UNDECIDED_WORDS, &UNDECIDED).unwrap_or(Undecided::Unscored)
}

/// How the answer of `grade` is written.
fn format_of(found: &ArgMatches) -> GradeFormat {
    if found.get_flag("json") {
        return GradeFormat::Json;
    }
    chosen(found, "format", &FORMAT_WORDS, &FORMATS).unwrap_or(GradeFormat::Text)
}

/// Where all schedules are asked for, how far they are looked for.
fn explored_of(found: &ArgMatches) -> Option<Bounds> {
    if found.get_flag("explore") {
        Some(bounds_of(found))
    } else {
        None
    }
}

/// The same of each submission, also where seeds come before them. Those that are judged side by side share the megabytes
/// that are given. Where neither states nor megabytes are given, and seeds do not come first, each has its own.
fn graded_of(found: &ArgMatches) -> Option<Bounds> {
    let is_thorough = found.get_flag("thorough");
    if !found.get_flag("explore") && !is_thorough {
        return None;
    }
    let mut bounds = bounds_of(found);
    let is_bounded = is_thorough
        || bounds.megabytes.is_some()
        || found.get_one::<usize>("states").is_some();
    bounds.megabytes = if is_bounded {
        None
    } else {
        Some(USUAL_MEGABYTES)
    };
    Some(bounds)
}

/// How far a search among all schedules goes.
fn bounds_of(found: &ArgMatches) -> Bounds {
    Bounds {
        worlds: count(found, "states", USUAL_WORLDS),
        seconds: found.get_one::<u64>("seconds"),
        megabytes: found.get_one::<usize>("memory"),
        megabytes_in_all: None,
    }
}

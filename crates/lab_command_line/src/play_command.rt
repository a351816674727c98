//! The command `play`: its arguments, in the order of the help, and what it asks.

use crate::arguments::{Argument, Form, Presence};
use crate::choices::GOALS;
use crate::options::{count, text, word};
use crate::shared_arguments::{BEGINNING, EXPECT, GIVEN, PROGRAM, TITLE};
use crate::values::{PAGE_FILE, ValueKind};
use clap::ArgMatches;
use lab_requests::{MOST_PLAYED, PlayRequest};

/// Of `play`.
pub(crate) const PLAY_ARGUMENTS: [Argument; 8] = [
    PROGRAM,
    GIVEN,
    EXPECT,
    BEGINNING,
    Argument(
        "states",
        "the most states of the page, 1 to 100000 [100000]",
        Form::Option(
            "N",
            ValueKind::Number(1, MOST_PLAYED as u64),
            Presence::Free,
        ),
    ),
    TITLE,
    Argument(
        "goal",
        "the first goal: right, wrong, deadlock, waiting, stopped, spinning, looping, broken, or the number of an end [none]",
        Form::Option("TEXT", ValueKind::OneOfOrOther(&GOALS), Presence::Free),
    ),
    Argument(
        "out",
        "the page, FILE.html",
        Form::Option("FILE", PAGE_FILE, Presence::Needed),
    ),
];

/// What `play` is asked.
pub(crate) fn play_of<'a>(found: &ArgMatches<'a>) -> PlayRequest<'a> {
    PlayRequest {
        program: word(found, "PROGRAM"),
        given: text(found, "given"),
        expected: text(found, "expect"),
        from: text(found, "from"),
        states: count(found, "states", MOST_PLAYED),
        title: text(found, "title"),
        goal: text(found, "goal"),
        out: word(found, "out"),
    }
}

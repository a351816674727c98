//! The arguments that several commands have.

use crate::arguments::{Argument, Form, Presence};
use crate::help;
use crate::options::{MOST_SECONDS, MOST_SEEDS, MOST_STEPS, MOST_WORLDS};
use crate::values::{CELLS_FILE, EXPECT_FILE, PROGRAM_FILE, SCHEDULE_FILE, ValueKind};

/// The program.
pub(crate) const PROGRAM: Argument = Argument("PROGRAM", help::PROGRAM, Form::Needed(PROGRAM_FILE));

/// Its schedule, of commands that show one run.
pub(crate) const SCHEDULE: Argument = Argument(
    "SCHEDULE",
    help::SCHEDULE_FILE,
    Form::Optional(SCHEDULE_FILE, &["fair", "seed", "steps"]),
);

/// The seed of a random schedule.
pub(crate) const SEED: Argument = Argument(
    "seed",
    help::SEED,
    Form::Option("N", ValueKind::Number(0, u64::MAX), Presence::Free),
);

/// The most steps of a schedule that is made.
pub(crate) const STEPS: Argument = Argument(
    "steps",
    help::STEPS,
    Form::Option("K", ValueKind::Number(1, MOST_STEPS), Presence::Free),
);

/// How many random schedules.
pub(crate) const SEEDS: Argument = Argument(
    "seeds",
    help::SEEDS,
    Form::Option("N", ValueKind::Number(1, MOST_SEEDS), Presence::Free),
);

/// What the ends have to be, where it may be left out.
pub(crate) const EXPECT: Argument = Argument(
    "expect",
    help::EXPECT,
    Form::Option("FILE", EXPECT_FILE, Presence::Free),
);

/// The words of a case, in place of the program's own.
pub(crate) const GIVEN: Argument = Argument(
    "given",
    help::GIVEN,
    Form::Option("FILE", CELLS_FILE, Presence::Free),
);

/// The schedule that all schedules begin with.
pub(crate) const BEGINNING: Argument = Argument(
    "from",
    help::BEGIN,
    Form::Option("SCHEDULE", SCHEDULE_FILE, Presence::Free),
);

/// The most states of a search, where every schedule is asked for.
pub(crate) const STATES: Argument = Argument(
    "states",
    help::STATES,
    Form::Option(
        "N",
        ValueKind::Number(1, MOST_WORLDS),
        Presence::With("explore"),
    ),
);

/// The most seconds of such a search.
pub(crate) const SECONDS: Argument = Argument(
    "seconds",
    help::SECONDS,
    Form::Option(
        "N",
        ValueKind::Number(0, MOST_SECONDS),
        Presence::With("explore"),
    ),
);

/// What a page or a picture calls the program.
pub(crate) const TITLE: Argument = Argument(
    "title",
    help::TITLE,
    Form::Option("TEXT", ValueKind::Text, Presence::Free),
);

/// Numbers in hexadecimal.
pub(crate) const HEX: Argument = Argument("hex", help::HEX, Form::Flag(&[]));

/// The same, where JSON has none.
pub(crate) const HEX_IN_TEXT: Argument = Argument("hex", help::HEX, Form::Flag(&["json"]));

/// Answers as JSON.
pub(crate) const JSON: Argument = Argument("json", help::JSON, Form::Flag(&[]));

//! The words that arguments take, and what each means, in the same order. What a word is read as, what help lists and what
//! the completions offer are these.

use lab_requests::{Colours, FileKind, GradeFormat, Idiom, Undecided};

/// The words for the kinds of files that `check` judges.
pub(crate) const KIND_WORDS: [&str; 4] = ["source", "image", "schedule", "expectations"];

/// The kinds.
pub(crate) const KINDS: [FileKind; 4] = [
    FileKind::Source,
    FileKind::Image,
    FileKind::Schedule,
    FileKind::Expectations,
];

/// The words for how the answer of `grade` is written.
pub(crate) const FORMAT_WORDS: [&str; 6] = ["text", "tsv", "json", "junit", "gradescope", "moodle"];

/// The formats.
pub(crate) const FORMATS: [GradeFormat; 6] = [
    GradeFormat::Text,
    GradeFormat::Tsv,
    GradeFormat::Json,
    GradeFormat::Junit,
    GradeFormat::Gradescope,
    GradeFormat::Moodle,
];

/// The words for what a case that is not decided counts as.
pub(crate) const UNDECIDED_WORDS: [&str; 2] = ["right", "wrong"];

/// What it counts as.
pub(crate) const UNDECIDED: [Undecided; 2] = [Undecided::Right, Undecided::Wrong];

/// The words for when lines have colours.
pub(crate) const COLOUR_WORDS: [&str; 3] = ["auto", "always", "never"];

/// When they have.
pub(crate) const COLOURS: [Colours; 3] = [Colours::Auto, Colours::Always, Colours::Never];

/// The words for what a program of `new` shows.
pub(crate) const IDIOM_WORDS: [&str; 6] = [
    "lock",
    "semaphore",
    "mailbox",
    "ticket",
    "barrier",
    "switch",
];

/// What it shows.
pub(crate) const IDIOMS: [Idiom; 6] = [
    Idiom::Lock,
    Idiom::Semaphore,
    Idiom::Mailbox,
    Idiom::Ticket,
    Idiom::Barrier,
    Idiom::Switch,
];

/// A rule by which `schedule` makes schedules.
#[derive(Clone, Copy, PartialEq, Eq)]
pub(crate) enum RuleName {
    /// The running streams in the order of processor and stream.
    Rounds,
    /// The processors in turn.
    Fair,
    /// By a generator.
    Random,
}

/// The words for the rules.
pub(crate) const RULE_WORDS: [&str; 3] = ["rounds", "fair", "random"];

/// The rules.
pub(crate) const RULES: [RuleName; 3] = [RuleName::Rounds, RuleName::Fair, RuleName::Random];

/// The goals of `play` that are kinds of ends; the number of an end is one too.
pub(crate) const GOALS: [&str; 8] = [
    "right", "wrong", "deadlock", "waiting", "stopped", "spinning", "looping", "broken",
];

/// What a word means, of these words with these meanings; None if it is none of them.
pub(crate) fn meaning<T: Copy>(text: &str, words: &[&str], meanings: &[T]) -> Option<T> {
    for (word, meaning) in words.iter().zip(meanings.iter()) {
        if *word == text {
            return Some(*meaning);
        }
    }
    None
}

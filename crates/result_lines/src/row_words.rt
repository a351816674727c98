//! The words of rows in lines, read back.

use end_kinds::{EndKind, Status};
use grade_reports::judges::VerdictKind;
use grade_reports::searches::SearchBound;

/// All verdicts.
const KINDS: [VerdictKind; 10] = [
    VerdictKind::NotRead,
    VerdictKind::SourceFault,
    VerdictKind::Trap,
    VerdictKind::Deadlock,
    VerdictKind::Wrong,
    VerdictKind::RanOutOfSteps,
    VerdictKind::Spins,
    VerdictKind::NotJudged,
    VerdictKind::NotDecided,
    VerdictKind::Right,
];

/// All kinds of ends.
const END_KINDS: [EndKind; 7] = [
    EndKind::Finished,
    EndKind::Stopped,
    EndKind::Deadlock,
    EndKind::Waiting,
    EndKind::Spinning,
    EndKind::Looping,
    EndKind::OutOfSteps,
];

/// All bounds of searches.
const BOUNDS: [SearchBound; 4] = [
    SearchBound::States,
    SearchBound::Seconds,
    SearchBound::Memory,
    SearchBound::Refused,
];

/// All exit statuses.
const STATUSES: [Status; 6] = [
    Status::Done,
    Status::Fault,
    Status::NoCommand,
    Status::Unexpected,
    Status::Deadlock,
    Status::OutOfSteps,
];

/// The verdict of a word.
pub(crate) fn kind_of(word: &str) -> Option<VerdictKind> {
    for kind in KINDS {
        if kind.word() == word {
            return Some(kind);
        }
    }
    None
}

/// The kind of ends of its name in JSON.
pub(crate) fn end_kind_of(word: &str) -> Option<EndKind> {
    for kind in END_KINDS {
        if kind.json_name() == word {
            return Some(kind);
        }
    }
    None
}

/// The bound of its name in JSON.
pub(crate) fn bound_of(word: &str) -> Option<SearchBound> {
    for bound in BOUNDS {
        if bound.json_name() == word {
            return Some(bound);
        }
    }
    None
}

/// The exit status of a number.
pub(crate) fn status_of(number: u8) -> Option<Status> {
    for status in STATUSES {
        if status.number() == number {
            return Some(status);
        }
    }
    None
}

//! What a submission is.

ghost use Rattle.std.specs.Prelude.{◌≡◌, true};
ghost use Rattle.judgements.specs.Known.{is_right_kind, is_undecided};
ghost use Rattle.judgements.specs.Severity.{severity_of};
ghost use Rattle.judgements.specs.Statuses.{status_of_kind};
ghost use Rattle.judgements.specs.Words.{word_of};

use end_kinds::Status;

/// What a submission is ("Judging a class", docs/LAB_REFERENCE.md).
#[derive(Clone, Copy, Debug, PartialEq, Eq)]
pub enum VerdictKind {
    /// It can't be read.
    NotRead,
    /// It is no program.
    SourceFault,
    /// A trap that nobody expected stops a stream.
    Trap,
    /// Nobody can go on.
    Deadlock,
    /// An end is not as expected, or a claim does not hold.
    Wrong,
    /// A run has no end within the steps that it may have.
    RanOutOfSteps,
    /// It can go on forever.
    Spins,
    /// A line of a case speaks of what it does not have, so that it can't be judged by this case.
    NotJudged,
    /// The search came to its bound and found nothing wrong, and neither did seeds.
    NotDecided,
    /// All that was looked at is as it is required.
    Right,
}

impl VerdictKind {
    /// Whether all that was looked at is as it is required.
    pub(crate) fn is_right(self) -> bool
        ensures { result ≡ is_right_kind self }
    {
        match self {
            VerdictKind::Right => true,
            VerdictKind::NotDecided
            | VerdictKind::NotRead
            | VerdictKind::SourceFault
            | VerdictKind::Trap
            | VerdictKind::Deadlock
            | VerdictKind::Wrong
            | VerdictKind::RanOutOfSteps
            | VerdictKind::Spins
            | VerdictKind::NotJudged => false,
        }
    }

    /// Whether it is not known what the submission is.
    pub(crate) fn is_not_decided(self) -> bool
        ensures only { result ≡ true → self ≡ VerdictKind.NotDecided }
        ensures is { self ≡ VerdictKind.NotDecided → result ≡ true }
        ensures undecided { result ≡ is_undecided self }
    {
        match self {
            VerdictKind::NotDecided => true,
            VerdictKind::Right
            | VerdictKind::NotRead
            | VerdictKind::SourceFault
            | VerdictKind::Trap
            | VerdictKind::Deadlock
            | VerdictKind::Wrong
            | VerdictKind::RanOutOfSteps
            | VerdictKind::Spins
            | VerdictKind::NotJudged => false,
        }
    }

    /// The word of the table.
    pub fn word(self) -> &'static str
        ensures { result.now ≡ word_of self }
    {
        match self {
            VerdictKind::NotRead => "not read",
            VerdictKind::SourceFault => "source fault",
            VerdictKind::Trap => "trap",
            VerdictKind::Deadlock => "deadlock",
            VerdictKind::Wrong => "wrong",
            VerdictKind::RanOutOfSteps => "ran out of steps",
            VerdictKind::Spins => "spins",
            VerdictKind::NotJudged => "not judged",
            VerdictKind::NotDecided => "not decided",
            VerdictKind::Right => "right",
        }
    }

    /// What it means for the exit status.
    pub fn status(self) -> Status
        ensures { result ≡ status_of_kind self }
    {
        match self {
            VerdictKind::Deadlock => Status::Deadlock,
            VerdictKind::NotRead
            | VerdictKind::SourceFault
            | VerdictKind::Trap
            | VerdictKind::Wrong => Status::Unexpected,
            VerdictKind::RanOutOfSteps
            | VerdictKind::Spins
            | VerdictKind::NotJudged
            | VerdictKind::NotDecided => Status::OutOfSteps,
            VerdictKind::Right => Status::Done,
        }
    }

    /// How severe it is: the greatest number of several cases decides.
    pub fn severity(self) -> u8
        ensures { result ≡ severity_of self }
    {
        match self {
            VerdictKind::NotRead => 9,
            VerdictKind::SourceFault => 8,
            VerdictKind::Trap => 7,
            VerdictKind::Deadlock => 6,
            VerdictKind::Wrong => 5,
            VerdictKind::Spins => 4,
            VerdictKind::RanOutOfSteps => 3,
            VerdictKind::NotJudged => 2,
            VerdictKind::NotDecided => 1,
            VerdictKind::Right => 0,
        }
    }
}

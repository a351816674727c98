//! How the end of a run is judged: whether it is as expected, and what it means for the exit status.

ghost use Rattle.std.specs.Prelude.{◌≡◌};
ghost use Rattle.end_states.specs.Judgements.{is_deadlock, is_expected, is_wrong, is_flawed, status_of_judged};

use end_kinds::{EndKind, Status, status_of};

/// How the end of a run is judged. This is the one answer to whether an end is as expected, for all commands.
#[derive(Clone, Copy, Debug, PartialEq, Eq)]
pub struct EndJudgement {
    /// The kind of the end, beside what is expected.
    pub kind: EndKind,
    /// The place of the first expectation that it misses, among all of ends.
    pub missed: Option<usize>,
    /// The place of the first claim that does not hold of some world of the run, among all claims.
    pub broken: Option<usize>,
    /// Whether a trap that is not expected stopped a stream.
    pub is_trapped: bool,
}

impl EndJudgement {
    /// Whether the end is as expected: it is no deadlock, no expectation is missed, no claim is broken on the way, and each
    /// trap that stopped a stream is expected.
    pub fn is_expected(self) -> bool
        ensures { result ≡ is_expected self }
    {
        !is_deadlock(self.kind) && !self.is_wrong() && !self.is_trapped
    }

    /// What the end means for the exit status. A claim that is broken on the way counts whatever the kind of the end.
    pub fn status(self) -> Status
        ensures { result ≡ status_of_judged self }
    {
        status_of(self.kind, self.missed.is_some(), self.is_flawed())
    }

    /// Whether a claim is broken on the way, or a trap that is not expected stopped a stream.
    fn is_flawed(self) -> bool
        ensures { result ≡ is_flawed self }
    {
        self.broken.is_some() || self.is_trapped
    }

    /// Whether an expectation is missed, or a claim is broken.
    fn is_wrong(self) -> bool
        ensures { result ≡ is_wrong self }
    {
        self.missed.is_some() || self.broken.is_some()
    }
}

/// Whether ends of this kind are deadlocks.
fn is_deadlock(kind: EndKind) -> bool
    ensures { result ≡ is_deadlock kind }
{
    match kind {
        EndKind::Deadlock => true,
        EndKind::Finished
        | EndKind::Stopped
        | EndKind::Waiting
        | EndKind::Spinning
        | EndKind::Looping
        | EndKind::OutOfSteps => false,
    }
}

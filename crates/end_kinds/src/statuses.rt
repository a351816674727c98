//! The exit status that ends come to.

ghost use Rattle.std.specs.Prelude.{◌≡◌, ◌≤◌, ◌⊎◌};
ghost use Rattle.end_kinds.specs.Statuses.{number_of, badness, status_of};

use crate::kinds::EndKind;

/// How a command ended ("Exit statuses", docs/LAB.md).
#[derive(Clone, Copy, Debug, PartialEq, Eq)]
pub enum Status {
    /// Done, and all is as expected.
    Done,
    /// A fault, which is reported.
    Fault,
    /// The command line asks for no command.
    NoCommand,
    /// Some end is not as expected, a claim is broken, or a trap that nobody expected stopped a stream.
    Unexpected,
    /// Some end is a deadlock.
    Deadlock,
    /// Something runs forever, or a run or a search ended at its bound.
    OutOfSteps,
}

impl Status {
    /// The number that the program exits with.
    pub fn number(self) -> u8
        ensures { result ≡ number_of self }
    {
        match self {
            Status::Done => 0,
            Status::Fault => 1,
            Status::NoCommand => 2,
            Status::Unexpected => 3,
            Status::Deadlock => 4,
            Status::OutOfSteps => 5,
        }
    }

    /// The worse of two statuses, which is that of both: no command before a fault, a fault before a deadlock, that
    /// before an end that was not expected, that before a bound.
    pub fn worse(self, other: Status) -> Status
        ensures one { (result ≡ self) ⊎ (result ≡ other) }
        ensures first { badness self ≤ badness result }
        ensures second { badness other ≤ badness result }
    {
        if self.badness() >= other.badness() {
            self
        } else {
            other
        }
    }

    /// How bad it is: its place among all statuses, the least first.
    fn badness(self) -> u8
        ensures { result ≡ badness self }
    {
        match self {
            Status::Done => 0,
            Status::OutOfSteps => 1,
            Status::Unexpected => 2,
            Status::Deadlock => 3,
            Status::Fault => 4,
            Status::NoCommand => 5,
        }
    }
}

/// The status of one end: of this kind, which misses what is expected of it or not, and where a trap that nobody
/// expected stopped a stream or not. What is expected of an end is only asked where nothing goes on any more.
pub fn status_of(kind: EndKind, is_missed: bool, is_trapped: bool) -> Status
    ensures { result ≡ status_of kind is_missed is_trapped }
{
    match kind {
        EndKind::Deadlock => Status::Deadlock,
        EndKind::Finished | EndKind::Stopped | EndKind::Waiting if is_missed => Status::Unexpected,
        _ if is_trapped => Status::Unexpected,
        EndKind::Spinning | EndKind::OutOfSteps => Status::OutOfSteps,
        EndKind::Finished | EndKind::Stopped | EndKind::Waiting | EndKind::Looping => Status::Done,
    }
}

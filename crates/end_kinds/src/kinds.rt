//! The kinds of ends, and the words for them.

ghost use Rattle.std.specs.Prelude.{◌≡◌};
ghost use Rattle.end_kinds.specs.Words.{name_of, json_name_of, sentence_of};

/// How a run ends, or how it goes on forever ("Ends", docs/LAB.md).
#[derive(Clone, Copy, Debug, PartialEq, Eq)]
pub enum EndKind {
    /// No stream runs, and none was stopped by a trap.
    Finished,
    /// No stream runs, and some was stopped by a trap.
    Stopped,
    /// Some stream runs, and none that runs can ever go on.
    Deadlock,
    /// The same, where the file of expectations lets each stream that runs wait there. No world shows it by itself.
    Waiting,
    /// Some stream runs forever: no schedule leads to an end. No single world shows it, only a search over all.
    Spinning,
    /// The same, where the file of expectations lets the program go on forever.
    Looping,
    /// Some stream runs that can go on: the schedule ended first.
    OutOfSteps,
}

impl EndKind {
    /// Its name in tables.
    pub fn name(self) -> &'static str
        ensures { result.now ≡ name_of self }
    {
        match self {
            EndKind::Finished => "finished",
            EndKind::Stopped => "stopped",
            EndKind::Deadlock => "deadlock",
            EndKind::Waiting => "waiting",
            EndKind::Spinning => "spinning",
            EndKind::Looping => "looping",
            EndKind::OutOfSteps => "out of steps",
        }
    }

    /// Its name in JSON.
    pub fn json_name(self) -> &'static str
        ensures { result.now ≡ json_name_of self }
    {
        match self {
            EndKind::OutOfSteps => "steps",
            EndKind::Finished
            | EndKind::Stopped
            | EndKind::Deadlock
            | EndKind::Waiting
            | EndKind::Spinning
            | EndKind::Looping => self.name(),
        }
    }

    /// What is said of a run that ended so.
    pub fn sentence(self) -> &'static str
        ensures { result.now ≡ sentence_of self }
    {
        match self {
            EndKind::Finished | EndKind::Stopped => "nobody runs",
            EndKind::Deadlock => "deadlock",
            EndKind::Waiting => "waits",
            EndKind::Spinning => "spins",
            EndKind::Looping => "loops",
            EndKind::OutOfSteps => "ran out of steps",
        }
    }
}

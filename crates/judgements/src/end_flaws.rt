//! What an end of a submission can show against it.

ghost use Rattle.std.specs.Prelude.{◌≡◌, MatchOption};
ghost use Rattle.judgements.specs.Flaws.{kind_of_end, shows, is_deadlock, is_spinning, is_broken};
ghost use Rattle.judgements.specs.Flaws.{NoneShows, ShowNothing, IsFirstToShow, IsWorstFlaw};

use crate::verdict_kinds::VerdictKind;
use end_kinds::EndKind;
use seed_outcomes::ends_of_space::{SpaceEnd, SpaceEndKind};

/// What an end of a submission can show against it.
#[derive(Clone, Copy, Debug, PartialEq, Eq)]
pub enum EndFlaw {
    /// A trap that nobody expected stopped a stream.
    Trap,
    /// Nobody can go on, and some stream may not wait where it stands.
    Deadlock,
    /// The end is not as expected. Of a set that spins it is not asked.
    Wrong,
    /// A claim does not hold of some world on the way, or a stream loops alone where none is to.
    Broken,
    /// It can go on forever, and may not.
    Spinning,
}

impl EndFlaw {
    /// What a submission is that shows it.
    pub fn kind(self) -> VerdictKind
        ensures { result ≡ kind_of_end self }
    {
        match self {
            EndFlaw::Trap => VerdictKind::Trap,
            EndFlaw::Deadlock => VerdictKind::Deadlock,
            EndFlaw::Wrong | EndFlaw::Broken => VerdictKind::Wrong,
            EndFlaw::Spinning => VerdictKind::Spins,
        }
    }

    /// Whether an end shows it.
    pub(crate) fn is_of(self, end: &SpaceEnd) -> bool
        ensures { result ≡ shows self end.now }
    {
        match self {
            EndFlaw::Trap => end.is_trapped,
            EndFlaw::Deadlock => is_deadlock(end.kind),
            EndFlaw::Wrong => end.missed.is_some() && !is_spinning(end.kind),
            EndFlaw::Broken => is_broken(end.kind),
            EndFlaw::Spinning => is_spinning(end.kind),
        }
    }
}

/// A flaw that an end of a list shows.
#[derive(Clone, Copy, Debug)]
pub(crate) struct FoundFlaw {
    /// The flaw.
    pub flaw: EndFlaw,
    /// The place of the end.
    pub end: usize,
}

/// The first of all flaws, in the order of their severity, that any of these ends shows, with the first such end; None if no
/// end shows any.
#[tactic(auto, using(crate::proofs::Flaws::none_shown, crate::proofs::Flaws::worst_trap, crate::proofs::Flaws::worst_deadlock, crate::proofs::Flaws::worst_wrong, crate::proofs::Flaws::worst_broken, crate::proofs::Flaws::worst_spinning))]
pub(crate) fn first_end_flaw(ends: &[SpaceEnd]) -> Option<FoundFlaw>
    ensures { MatchOption result (ShowNothing ends.now) (λ f. IsWorstFlaw ends.now f.flaw f.end) }
{
    if let Some(found) = found_of(ends, EndFlaw::Trap) {
        return Some(found);
    }
    if let Some(found) = found_of(ends, EndFlaw::Deadlock) {
        return Some(found);
    }
    if let Some(found) = found_of(ends, EndFlaw::Wrong) {
        return Some(found);
    }
    if let Some(found) = found_of(ends, EndFlaw::Broken) {
        return Some(found);
    }
    if let Some(found) = found_of(ends, EndFlaw::Spinning) {
        return Some(found);
    }
    None
}

/// The first of these ends that shows a flaw.
fn found_of(ends: &[SpaceEnd], flaw: EndFlaw) -> Option<FoundFlaw>
    ensures { MatchOption result (NoneShows ends.now flaw)
        (λ f. (f.flaw ≡ flaw) × IsFirstToShow ends.now flaw f.end) }
{
    for end in 0..ends.len() {
        if flaw.is_of(&ends[end]) {
            return Some(FoundFlaw { flaw, end });
        }
    }
    None
}

/// Whether worlds are deadlocks, which are none where each stream that runs may wait.
fn is_deadlock(kind: SpaceEndKind) -> bool
    ensures { result ≡ is_deadlock kind }
{
    match kind {
        SpaceEndKind::End(EndKind::Deadlock) => true,
        SpaceEndKind::End(
            EndKind::Finished
            | EndKind::Stopped
            | EndKind::Waiting
            | EndKind::Spinning
            | EndKind::Looping
            | EndKind::OutOfSteps,
        )
        | SpaceEndKind::Broken { .. }
        | SpaceEndKind::Busy => false,
    }
}

/// Whether no schedule leads from worlds to an end, where the program may not go on so.
fn is_spinning(kind: SpaceEndKind) -> bool
    ensures { result ≡ is_spinning kind }
{
    match kind {
        SpaceEndKind::End(EndKind::Spinning) => true,
        SpaceEndKind::End(
            EndKind::Finished
            | EndKind::Stopped
            | EndKind::Deadlock
            | EndKind::Waiting
            | EndKind::Looping
            | EndKind::OutOfSteps,
        )
        | SpaceEndKind::Broken { .. }
        | SpaceEndKind::Busy => false,
    }
}

/// Whether a claim does not hold of worlds, or a stream loops alone from one.
fn is_broken(kind: SpaceEndKind) -> bool
    ensures { result ≡ is_broken kind }
{
    match kind {
        SpaceEndKind::End(_) => false,
        SpaceEndKind::Broken { .. } | SpaceEndKind::Busy => true,
    }
}

//! Which ends are right.

ghost use Rattle.std.specs.Prelude.{◌≡◌, ◌==◌, ◌&&◌, not, is_some};
ghost use Rattle.std.specs.List.{list_any};
ghost use Rattle.expectation_files.specs.Files.{is_nothing};
ghost use Rattle.expectation_files.specs.Seen.{requirements_seen};
ghost use Rattle.end_goals.specs.RightEnds.{verdict_of, is_right_end, is_met, is_resting, is_breaking, breaks_at, breaks_claim};

use end_kinds::EndKind;
use expectation_files::Requirements;
use space_ends::states::EndJudgement;
use space_ends::{SpaceEnd, SpaceEndKind};

/// What decides besides the ends themselves whether they are right.
#[derive(Clone, Copy, Debug, PartialEq, Eq)]
pub struct EndCriteria {
    /// Whether something is required: where nothing is no end is right or wrong.
    pub is_judged: bool,
    /// Whether the program keeps the rules for programs, and each claim that has to hold of one state at least does. Where
    /// not, no end is right.
    pub keeps_rules: bool,
}

impl EndCriteria {
    /// Those of a program of which this is required: the place of the first rule that it breaks, and of the first claim that
    /// has to hold of one state at least and that none shows.
    pub fn of(
        required: &Requirements,
        broken_rule: Option<usize>,
        unshown: Option<usize>,
    ) -> EndCriteria
        ensures judged { result.is_judged ≡ not (is_nothing (requirements_seen required.now)) }
        ensures kept { result.keeps_rules ≡ (not (is_some broken_rule) && not (is_some unshown)) }
    {
        EndCriteria {
            is_judged: !required.is_nothing(),
            keeps_rules: broken_rule.is_none() && unshown.is_none(),
        }
    }

    /// Whether an end is right, which is one of these; None where nothing is judged.
    pub fn verdict(self, end: &SpaceEnd, ends: &[SpaceEnd]) -> Option<bool>
        ensures { result ≡ verdict_of self ends.now end.now }
    {
        if !self.is_judged {
            return None;
        }
        Some(self.keeps_rules && is_right_end(end, ends))
    }
}

/// Whether an end, which is one of these, is right by itself: no stream runs there, or those that do may wait, or the program
/// may go on so; it is as expected, and the first of its worlds breaks no claim. A reader comes to it by many ways: worlds on them that break a claim are an end of their own.
pub fn is_right_end(end: &SpaceEnd, ends: &[SpaceEnd]) -> bool
    ensures { result ≡ is_right_end ends.now end.now }
{
    match end.kind {
        SpaceEndKind::End(kind) => {
            is_resting(kind) && is_met(kind, end) && !breaks_claim(end, ends)
        }
        SpaceEndKind::Broken { .. } | SpaceEndKind::Busy => false,
    }
}

/// Whether no stream runs at ends of this kind, or those that do may wait there or go on so.
fn is_resting(kind: EndKind) -> bool
    ensures { result ≡ is_resting kind }
{
    match kind {
        EndKind::Finished | EndKind::Stopped | EndKind::Waiting | EndKind::Looping => true,
        EndKind::Deadlock | EndKind::Spinning | EndKind::OutOfSteps => false,
    }
}

/// Whether an end of this kind is as expected, by its worlds alone.
fn is_met(kind: EndKind, end: &SpaceEnd) -> bool
    ensures { result ≡ is_met kind end.now }
{
    let judgement = EndJudgement {
        kind,
        missed: end.missed,
        broken: None,
        is_trapped: end.is_trapped,
    };
    judgement.is_expected()
}

/// Whether the first world of an end breaks a claim.
fn breaks_claim(end: &SpaceEnd, ends: &[SpaceEnd]) -> bool
    ensures { result ≡ breaks_claim ends.now end.now }
{
    match end.places.first().copied() {
        Some(place) => is_broken_at(place, ends),
        None => false,
    }
}

/// Whether some of these are worlds that break a claim, and the one at a place is among them.
fn is_broken_at(place: usize, ends: &[SpaceEnd]) -> bool
    ensures { result ≡ list_any (λ e. breaks_at place e) ends.now }
{
    ends.iter().any(
        |end: &SpaceEnd| -> bool
            ensures { result ≡ breaks_at place end.now }
        { breaks_at(place, end) },
    )
}

/// Whether these are worlds that break a claim, and the one at a place is among them.
fn breaks_at(place: usize, end: &SpaceEnd) -> bool
    ensures { result ≡ breaks_at place end.now }
{
    is_breaking(end.kind) && has_place(&end.places, place)
}

/// Whether worlds of this kind break a claim.
pub(crate) fn is_breaking(kind: SpaceEndKind) -> bool
    ensures { result ≡ is_breaking kind }
{
    match kind {
        SpaceEndKind::Broken { .. } | SpaceEndKind::Busy => true,
        SpaceEndKind::End(_) => false,
    }
}

/// Whether a place is among some.
fn has_place(places: &[usize], place: usize) -> bool
    ensures { result ≡ list_any (λ k. k == place) places.now }
{
    places.iter().any(
        |other: &usize| -> bool
            ensures { result ≡ (other.now == place) }
        { *other == place },
    )
}

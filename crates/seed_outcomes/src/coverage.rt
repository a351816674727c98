//! Which ends of all schedules the runs of seeds came to.

ghost use Rattle.std.specs.Prelude.{◌≡◌, ◌↔◌, IsTrue, Some};
ghost use Rattle.seed_outcomes.specs.Coverage.{IsMetBy, IsMet, IsReported, IsBrokenBySome};

use crate::outcomes::SeedOutcome;
use end_kinds::EndKind;
use space_ends::states::are_same_states;
use space_ends::{SpaceEnd, SpaceEndKind};

/// Whether some outcome is an end of all schedules: both agree in their kind, in the first expectation that is missed, in
/// whether a trap that is not expected stopped a stream, and in what they show.
pub fn is_met(end: &SpaceEnd, outcomes: &[SeedOutcome]) -> bool
    ensures { IsTrue result ↔ IsMet end.now outcomes.now }
{
    for outcome in outcomes {
        if is_met_by(end, outcome) {
            return true;
        }
    }
    false
}

/// Whether an outcome is an end of all schedules.
fn is_met_by(end: &SpaceEnd, outcome: &SeedOutcome) -> bool
    ensures { IsTrue result ↔ IsMetBy end.now outcome.now }
{
    let judgement = outcome.judgement;
    is_of_kind(end.kind, judgement.kind)
        && is_same_place(end.missed, judgement.missed)
        && end.is_trapped == judgement.is_trapped
        && are_same_states(&end.state, &outcome.state)
}

/// Whether ends of all schedules are of a kind.
fn is_of_kind(found: SpaceEndKind, kind: EndKind) -> bool
    ensures { IsTrue result ↔ (found ≡ SpaceEndKind.End kind) }
{
    match found {
        SpaceEndKind::End(of) => of == kind,
        SpaceEndKind::Busy | SpaceEndKind::Broken { .. } => false,
    }
}

/// Whether two places, which may be missing, are the same.
fn is_same_place(one: Option<usize>, other: Option<usize>) -> bool
    ensures { IsTrue result ↔ (one ≡ other) }
{
    one == other
}

/// Whether the claim that worlds break is one that some outcome breaks.
pub fn is_reported(broken: &SpaceEnd, outcomes: &[SeedOutcome]) -> bool
    ensures { IsTrue result ↔ IsReported broken.now outcomes.now }
{
    match broken.kind {
        SpaceEndKind::Broken { claim } => is_broken_by_some(claim, outcomes),
        SpaceEndKind::Busy | SpaceEndKind::End(_) => false,
    }
}

/// Whether some outcome breaks a claim.
fn is_broken_by_some(claim: usize, outcomes: &[SeedOutcome]) -> bool
    ensures { IsTrue result ↔ IsBrokenBySome claim outcomes.now }
{
    for outcome in outcomes {
        if is_same_place(outcome.judgement.broken, Some(claim)) {
            return true;
        }
    }
    false
}

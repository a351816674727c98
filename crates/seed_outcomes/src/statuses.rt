//! The exit status of outcomes.

ghost use Rattle.seed_outcomes.specs.Outcomes.{IsOfSome, IsAsBadAsEach};

use crate::outcomes::SeedOutcome;
use end_kinds::Status;

/// The exit status of outcomes: the worst over all of them. That of none is `Done`.
pub fn worst_status(outcomes: &[SeedOutcome]) -> Status
    ensures some { IsOfSome outcomes.now result }
    ensures each { IsAsBadAsEach outcomes.now result }
{
    let mut status = Status::Done;
    for outcome in outcomes {
        status = status.worse(outcome.judgement.status());
    }
    status
}

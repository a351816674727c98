//! Whether ends are of one line.

ghost use Rattle.std.specs.Prelude.{◌≡◌, ◌↔◌, IsTrue};
ghost use Rattle.seed_outcomes.specs.Outcomes.{AreOfOneLine};

use crate::outcomes::SeedOutcome;
use space_ends::states::{EndJudgement, are_same_states};

/// Whether two outcomes are of one line.
pub(crate) fn are_of_one_line(one: &SeedOutcome, other: &SeedOutcome) -> bool
    ensures { IsTrue result ↔ AreOfOneLine one.now other.now }
{
    are_same_judgements(one.judgement, other.judgement) && are_same_states(&one.state, &other.state)
}

/// Whether ends are judged alike.
fn are_same_judgements(one: EndJudgement, other: EndJudgement) -> bool
    ensures { IsTrue result ↔ (one ≡ other) }
{
    one == other
}

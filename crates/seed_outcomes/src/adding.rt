//! Outcomes that are added to others: each line stands once.

ghost use Rattle.std.specs.Prelude.{◌≡◌, ◌+◌, ◌<◌, ◌^◌, ℕ, length, slice_get, OnOk, IfSome, Some, None};
ghost use Rattle.seed_outcomes.specs.Outcomes.{AreOfOneLine};
ghost use Rattle.seed_outcomes.specs.Adding.{IsAdded, AreAdded};
ghost use Rattle.seed_outcomes.specs.declared.outcomes.SeedOutcome.{SeedOutcome};

use crate::outcomes::SeedOutcome;
use crate::same_lines::are_of_one_line;
use std::alloc::AllocError;

/// Adds outcomes to those that are known, in their order.
pub(crate) fn add_outcomes(
    outcomes: &mut Vec<SeedOutcome>,
    found: Vec<SeedOutcome>,
) -> Result<(), AllocError>
    ensures { OnOk result (AreAdded outcomes.old.items found.items outcomes.new.items) }
{
    for outcome in found {
        add_outcome(outcomes, outcome)?;
    }
    Ok(())
}

/// Adds an outcome to those that are known.
pub(crate) fn add_outcome(
    outcomes: &mut Vec<SeedOutcome>,
    outcome: SeedOutcome,
) -> Result<(), AllocError>
    ensures { OnOk result (IsAdded outcomes.old.items outcome outcomes.new.items) }
{
    match place_of_line(outcomes, &outcome) {
        Some(place) => {
            outcomes[place].runs = outcomes[place].runs.saturating_add(outcome.runs);
        }
        None => outcomes.push(outcome)?,
    }
    Ok(())
}

/// The place of the outcome that is of one line with another; None where none of them is.
fn place_of_line(outcomes: &[SeedOutcome], other: &SeedOutcome) -> Option<usize>
    ensures within { IfSome result (λ known. known < length outcomes.now) }
    ensures known { IfSome result (λ known. (o : SeedOutcome) × (slice_get outcomes.now known ≡ Some o)
        × AreOfOneLine o other.now) }
    ensures new { result ≡ None → (k : ℕ) (o : SeedOutcome) → slice_get outcomes.now k ≡ Some o
        → ¬ AreOfOneLine o other.now }
{
    for place in 0..outcomes.len() {
        if are_of_one_line(&outcomes[place], other) {
            return Some(place);
        }
    }
    None
}

//! A fair round within a set of places.

ghost use Rattle.std.specs.Prelude.{IfOk};
ghost use Rattle.fair_rounds.specs.Rounds.{IsAnswer, IsFairByWords};

use crate::checked_rounds::checked_round;
use crate::graphs::{Answer, Edge, Standing};
use crate::marks::first_in;
use crate::sought_rounds::sought_round;
use crate::trims::trimmed;
use std::alloc::{AllocError, Global};

/// A round within a set that is fair by words, if there is one.
pub fn fair_round(
    alloc: Global,
    edges: &[Edge],
    standings: &[Standing],
    within: &[bool],
) -> Result<Answer, AllocError>
    ensures { IfOk result (λ a. IsAnswer edges.now within.now (IsFairByWords standings.now) a) }
{
    let set = trimmed(alloc, edges, standings, within)?;
    let Some(place) = first_in(&set) else {
        return Ok(Answer::Absent);
    };
    let numbers = sought_round(alloc, edges, standings, &set, place)?;
    match checked_round(alloc, edges, standings, within, place, &numbers)? {
        Some(round) => Ok(Answer::Found(round)),
        None => Ok(Answer::Undecided),
    }
}

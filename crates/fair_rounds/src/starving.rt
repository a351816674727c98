//! Rounds in which a stream starves, and rounds that are fair by steps alone.

ghost use Rattle.std.specs.Prelude.{◌≡◌, ◌&&◌, not, map, filter, IfOk};
ghost use Rattle.fair_rounds.specs.Rounds.{IsAnswer, IsStarvingAnswer, IsFairBySteps};
ghost use Rattle.fair_rounds.specs.Starving.{is_left, at_rest};

use crate::classes::is_step;
use crate::graphs::{Answer, Edge, Standing};
use crate::rounds::fair_round;
use processor::Step;
use std::alloc::{AllocError, Global};

/// A round within a set that is fair by words, in which the stream has blocked steps alone. If the set is the places at
/// which the stream waits, it can starve there exactly if there is one.
pub fn starving_round(
    alloc: Global,
    edges: &[Edge],
    standings: &[Standing],
    within: &[bool],
    who: Step,
) -> Result<Answer, AllocError>
    ensures { IfOk result (λ a. IsStarvingAnswer edges.now standings.now within.now who a) }
{
    let left = edges_left(alloc, edges, who)?;
    fair_round(alloc, &left, standings, within)
}

/// A round within a set that is fair by steps.
pub fn fair_round_by_steps(
    alloc: Global,
    edges: &[Edge],
    standings: &[Standing],
    within: &[bool],
) -> Result<Answer, AllocError>
    ensures { IfOk result (λ a. IsAnswer edges.now within.now (IsFairBySteps standings.now) a) }
{
    let resting = standings_at_rest(alloc, standings)?;
    fair_round(alloc, edges, &resting, within)
}

/// The edges that are no completed step of the stream.
fn edges_left(alloc: Global, edges: &[Edge], who: Step) -> Result<Vec<Edge>, AllocError>
    ensures { IfOk result (λ v. v.items ≡ filter (is_left who) edges.now) }
{
    edges
        .iter()
        .copied()
        .filter(
            |edge: &Edge| -> bool
                ensures { result ≡ is_left who edge.now }
            { !(is_step(who, edge.step) && edge.completes) },
        )
        .collect(alloc)
}

/// The same streams at the same places, as if none could complete: a round is fair by words among these if it is fair by
/// steps.
pub fn standings_at_rest(alloc: Global, standings: &[Standing]) -> Result<Vec<Standing>, AllocError>
    ensures { IfOk result (λ v. v.items ≡ map at_rest standings.now) }
{
    standings
        .iter()
        .map(|standing| at_rest(*standing))
        .collect(alloc)
}

/// The same stream at the same place, as if it could not complete.
fn at_rest(standing: Standing) -> Standing
    ensures { result ≡ at_rest standing }
{
    Standing {
        place: standing.place,
        step: standing.step,
        can_complete: false,
    }
}

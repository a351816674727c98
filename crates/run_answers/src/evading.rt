//! Runs that evade what a condition is to lead to.

ghost use Rattle.std.specs.Prelude.{IfOk};
ghost use Rattle.run_answers.specs.Marks.{IsEndOf, IsShownAs};

use crate::answers::{EvadingRun, RunAnswer, RunEnd};
use fair_rounds::{Lasso, Tail};
use starving_streams::space::Space;
use starving_streams::steps_of;
use std::alloc::{AllocError, Global};

/// The run that a way of the graph of a space is, if it begins at a place of the space.
pub(crate) fn evading_run(
    alloc: Global,
    space: &Space<'_>,
    lasso: &Lasso,
) -> Result<RunAnswer, AllocError>
    ensures { IfOk result (λ a. IsShownAs space.now lasso.now a) }
{
    if lasso.begin >= space.len() {
        return Ok(RunAnswer::Undecided);
    }
    let stem = space.schedule(alloc, lasso.begin)?;
    let way = steps_of(alloc, &lasso.way)?;
    let end = run_end(alloc, &lasso.tail)?;
    Ok(RunAnswer::Evaded(EvadingRun { stem, way, end }))
}

/// What follows the last steps of a run, by what follows a way.
fn run_end(alloc: Global, tail: &Tail) -> Result<RunEnd, AllocError>
    ensures { IfOk result (λ end. IsEndOf tail.now end) }
{
    match tail {
        Tail::Stop => Ok(RunEnd::Stops),
        Tail::Round(edges) => Ok(RunEnd::Repeats(steps_of(alloc, edges)?)),
    }
}

//! Runs on which a stream is overtaken too often.

ghost use Rattle.std.specs.Prelude.{◌≡◌, IfOk, IfSome};
ghost use Rattle.run_answers.specs.Waiting.{IsStepTo, IsShownOvertaking, IsShownAfter};

use crate::answers::{EvadingRun, RunAnswer, RunEnd};
use fair_rounds::{Edge, EnteringWay, is_inside, is_step};
use processor::Step;
use starving_streams::space::Space;
use starving_streams::steps_of;
use std::alloc::{AllocError, Global};

/// The run that a step of the stream and a way of the graph after it are, if there is such a step.
pub(crate) fn overtaking_run(
    alloc: Global,
    space: &Space<'_>,
    edges: &[Edge],
    set: &[bool],
    who: Step,
    way: &EnteringWay,
) -> Result<RunAnswer, AllocError>
    ensures { IfOk result (λ a. IsShownAfter space.now edges.now set.now who way.now a) }
{
    match step_to(edges, set, who, way.begin) {
        Some(first) => run_after(alloc, space, first, way),
        None => Ok(RunAnswer::Undecided),
    }
}

/// A step of the stream within the set that leads to a place.
fn step_to(edges: &[Edge], set: &[bool], who: Step, place: usize) -> Option<Edge>
    ensures { IfSome result (IsStepTo edges.now set.now who place) }
{
    for number in 0..edges.len() {
        let edge = edges[number];
        if is_inside(edge, set) && is_step(who, edge.step) && edge.to as usize == place {
            return Some(edge);
        }
    }
    None
}

/// The run that a step and a way after it are, if it begins at a place of the space.
fn run_after(
    alloc: Global,
    space: &Space<'_>,
    first: Edge,
    way: &EnteringWay,
) -> Result<RunAnswer, AllocError>
    ensures { IfOk result (λ a. IsShownOvertaking space.now first way.now a) }
{
    let place = first.from as usize;
    if place >= space.len() {
        return Ok(RunAnswer::Undecided);
    }
    let stem = space.schedule(alloc, place)?;
    let mut edges = Vec::new(alloc);
    edges.push(first)?;
    edges.extend_from_slice(&way.edges)?;
    Ok(RunAnswer::Evaded(EvadingRun {
        stem,
        way: steps_of(alloc, &edges)?,
        end: RunEnd::Anything,
    }))
}

//! The steps of a cycle in a set of worlds that spins.

use crate::links::links_of;
use machine::Machine;
use processor::Step;
use seed_verdicts::space::{Edge, Space};
use std::alloc::{AllocError, Global};
use terminal_components::shortest_cycle;
use waiting::{is_stuck, running_streams};

/// The steps of a shortest cycle along the edges of a space from the world at a place, a machine's, back to it, or
/// to one for which it stands: where none leads back, a step that goes on and leaves such a world. Empty where there is
/// neither.
pub(crate) fn cycle_of<const S: usize>(
    alloc: Global,
    space: &Space<'_>,
    machine: &Machine<'_, S>,
    place: usize,
) -> Result<Vec<Step>, AllocError> {
    let edges = space.edges();
    let links = links_of(alloc, edges)?;
    match shortest_cycle(alloc, space.len(), &links, place)? {
        Some(numbers) => steps_of(alloc, edges, &numbers),
        None => staying_step(alloc, machine),
    }
}

/// The steps of the edges with these numbers.
fn steps_of(alloc: Global, edges: &[Edge], numbers: &[usize]) -> Result<Vec<Step>, AllocError> {
    let mut steps = Vec::new(alloc);
    for number in numbers {
        if let Some(edge) = edges.get(*number) {
            steps.push(edge.step)?;
        }
    }
    Ok(steps)
}

/// A step that goes on, as the only one of a list; empty where there is none.
fn staying_step<const S: usize>(
    alloc: Global,
    machine: &Machine<'_, S>,
) -> Result<Vec<Step>, AllocError> {
    let mut steps = Vec::new(alloc);
    for step in &running_streams(alloc, machine)? {
        if !is_stuck(machine, step.p, step.s) {
            steps.push(*step)?;
            break;
        }
    }
    Ok(steps)
}

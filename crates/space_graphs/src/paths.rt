//! The steps of the schedules to ends.

use lab_ends::ends_of_space::SpaceEnd;
use lab_ends::space::Edge;
use processor::Step;
use std::alloc::{AllocError, Global};

/// For each edge whether the schedule of an end takes it. All schedules have so many steps before the first world.
pub(crate) fn taken_edges(
    alloc: Global,
    edges: &[Edge],
    begin: usize,
    ends: &[SpaceEnd],
) -> Result<Vec<bool>, AllocError> {
    let mut taken = vec![in alloc; false; edges.len()]?;
    for end in ends {
        if let Some(steps) = end.schedule.get(begin..) {
            take(edges, steps, &mut taken);
        }
    }
    Ok(taken)
}

/// Marks the edges that these steps take from the first world on.
fn take(edges: &[Edge], steps: &[Step], taken: &mut [bool]) {
    let mut here = 0;
    for step in steps {
        let Some(number) = edge_of(edges, here, *step) else {
            return;
        };
        if let Some(mark) = taken.get_mut(number) {
            *mark = true;
        }
        if let Some(edge) = edges.get(number) {
            here = edge.to;
        }
    }
}

/// The number of the edge by which a step leads on from a world. Edges stand in the order of those that they lead from.
fn edge_of(edges: &[Edge], from: u32, step: Step) -> Option<usize> {
    let first = edges.partition_point(|edge| edge.from < from);
    let others = edges.get(first..)?;
    let behind = others
        .iter()
        .position(|edge| edge.from == from && edge.step == step)?;
    first.checked_add(behind)
}

//! Where the steps of a stream lead from the places of a space.

ghost use Rattle.std.specs.Prelude.{◌<◌, ℕ, length, slice_index_or, IfOk};
ghost use Rattle.starving_streams.specs.Graphs.{AreTargets, ArePlaces, IsFollowed};

use processor::Step;
use schedule_space::Edge;
use std::alloc::{AllocError, Global};

/// For each of so many places the one that a stream's step leads to: the place itself if none of these edges is the
/// stream's from there.
pub(crate) fn targets_of(
    alloc: Global,
    count: usize,
    edges: &[Edge],
    who: Step,
) -> Result<Vec<u32>, AllocError>
    ensures { IfOk result (λ v. AreTargets count edges.now who v.items) }
{
    let mut targets = places(alloc, count)?;
    for edge in edges {
        follow_edge(&mut targets, *edge, who);
    }
    Ok(targets)
}

/// So many places.
#[tactic(auto, using(crate::proofs::Leading::places_more))]
fn places(alloc: Global, count: usize) -> Result<Vec<u32>, AllocError>
    ensures { IfOk result (λ v. ArePlaces count v.items) }
{
    let mut places = Vec::new(alloc);
    for place in 0..count {
        let Ok(number) = u32::try_from(place) else {
            return Err(AllocError);
        };
        places.push(number)?;
    }
    Ok(places)
}

/// Puts where an edge leads, if it is the stream's.
#[tactic(auto, using(crate::proofs::Leading::set_followed, crate::proofs::Leading::not_followed))]
fn follow_edge(targets: &mut [u32], edge: Edge, who: Step)
    ensures { (k : ℕ) → k < length targets.old
        → IsFollowed edge who k (slice_index_or targets.old k 0) (slice_index_or targets.new k 0) }
{
    let from = edge.from as usize;
    let is_of_stream = edge.step.p == who.p && edge.step.s == who.s;
    if from >= targets.len() || !is_of_stream {
        return;
    }
    targets[from] = edge.to;
}

//! Where the steps of a stream lead.

ghost use Rattle.std.specs.Prelude.{◌≡◌, ◌<◌, ℕ, IfOk, length, slice_index_or};
ghost use Rattle.state_tables.specs.Targets.{AreTargets, IsFollowed, ArePlaces};

use processor::Step;
use schedule_space::Edge;
use std::alloc::{AllocError, Global};

/// For each of so many states the one that a stream's step leads to: the state itself if the stream does not run there, or if
/// its step changes nothing. If several edges are of one state and stream, it is the last one's.
pub fn targets_of(
    alloc: Global,
    states: usize,
    edges: &[Edge],
    stream: Step,
) -> Result<Vec<u32>, AllocError>
    ensures { IfOk result (λ v. AreTargets states edges.now stream v.items) }
{
    let mut targets = places(alloc, states)?;
    for edge in edges {
        follow_edge(&mut targets, *edge, stream);
    }
    Ok(targets)
}

/// So many places.
#[tactic(auto, using(crate::proofs::Lists::places_more))]
fn places(alloc: Global, count: usize) -> Result<Vec<u32>, AllocError>
    ensures { IfOk result (λ v. ArePlaces count v.items) }
{
    let mut places = Vec::new(alloc);
    for place in 0..count {
        let Ok(number) = u32::try_from(place) else {
            return Err(AllocError);
        };
        places.push(number)?;
    }
    Ok(places)
}

/// Puts where an edge leads, if it is this stream's.
#[tactic(auto, using(crate::proofs::Leading::set_followed, crate::proofs::Leading::not_followed))]
fn follow_edge(targets: &mut [u32], edge: Edge, stream: Step)
    ensures { (k : ℕ) → k < length targets.old
        → IsFollowed edge stream k (slice_index_or targets.old k 0) (slice_index_or targets.new k 0) }
{
    let from = edge.from as usize;
    let is_of_stream = edge.step.p == stream.p && edge.step.s == stream.s;
    if from >= targets.len() || !is_of_stream {
        return;
    }
    targets[from] = edge.to;
}

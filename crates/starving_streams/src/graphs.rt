//! The graph of a space.

ghost use Rattle.std.specs.Prelude.{◌≡◌, ◌<◌, IfOk, Err};
ghost use Rattle.starving_streams.specs.Reports.{HasAllStates};
ghost use Rattle.starving_streams.specs.Graphs.{IsGraph};

use crate::edges::edges_of;
use crate::standings::{Standings, standings_of, streams_of};
use claims::Rest;
use fair_rounds::{Edge, Standing};
use machine::LoadFault;
use processor::Step;
use schedule_space::Space;
use std::alloc::Global;

/// The graph of a space: which streams run at its places, and an edge for each of their steps. A step that changes nothing
/// leads to the place that it leads from.
#[derive(Drop)]
pub struct Graph {
    /// A standing for each stream that runs at a place, in the order of the places.
    pub standings: Vec<Standing>,
    /// Those of the streams that may not rest there.
    pub dues: Vec<Standing>,
    /// The streams that run somewhere, each once.
    pub streams: Vec<Step>,
    /// The edges.
    pub edges: Vec<Edge>,
}

/// The graph of a space that has all worlds and all steps between them, where these streams may rest; each place is the one
/// that it has there. `Streams` only where the image's slim is above `S`.
pub fn graph_of<const S: usize>(
    alloc: Global,
    space: &Space<'_>,
    rests: &[Rest],
) -> Result<Graph, LoadFault>
    ensures is { IfOk result (λ g. HasAllStates space.now → IsGraph space.now rests.now g) }
    ensures streams { result ≡ Err LoadFault.Streams → S < space.now.image.slim }
{
    let Standings { all, due } = standings_of::<S>(alloc, space, rests)?;
    let streams = streams_of(alloc, &all)?;
    let edges = edges_of(alloc, space, &all, &streams)?;
    Ok(Graph {
        standings: all,
        dues: due,
        streams,
        edges,
    })
}

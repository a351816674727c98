//! The edges of the graph of a space: a step of a stream each.

ghost use Rattle.std.specs.Prelude.{◌≡◌, map, filter, length, IfOk};
ghost use Rattle.schedule_space.specs.Spaces.{count};
ghost use Rattle.fair_rounds.specs.Classes.{stands};
ghost use Rattle.starving_streams.specs.Reports.{HasAllStates};
ghost use Rattle.starving_streams.specs.Graphs.{AreStandings, AreEdges, edge_by};

use crate::standings::is_step;
use crate::targets::targets_of;
use fair_rounds::{Edge, Standing};
use processor::Step;
use schedule_space::Space;
use std::alloc::{AllocError, Global};

/// The steps of these streams from where they stand.
pub(crate) fn edges_of(
    alloc: Global,
    space: &Space<'_>,
    standings: &[Standing],
    streams: &[Step],
) -> Result<Vec<Edge>, AllocError>
    requires { AreStandings space.now (count space.now) standings.now }
    ensures { IfOk result (λ v. HasAllStates space.now → AreEdges space.now standings.now streams.now
        (length streams.now) v.items) }
{
    let count = space.len();
    let links = space.edges();
    let mut edges = Vec::new(alloc);
    for number in 0..streams.len() {
        let who = streams[number];
        let targets = targets_of(alloc, count, links, who)?;
        let own = edges_to(alloc, standings, who, &targets)?;
        edges.extend_from_slice(&own)?;
    }
    Ok(edges)
}

/// The edges of a stream, whose steps lead to these places.
fn edges_to(
    alloc: Global,
    standings: &[Standing],
    who: Step,
    targets: &[u32],
) -> Result<Vec<Edge>, AllocError>
    ensures { IfOk result (λ v. v.items ≡ map (edge_by targets.now) (filter (stands who) standings.now)) }
{
    standings
        .iter()
        .copied()
        .filter(
            |standing: &Standing| -> bool
                ensures { result ≡ stands who standing.now }
            { is_step(who, standing.step) },
        )
        .map(
            |standing: Standing| -> Edge
                ensures { result ≡ edge_by targets.entry.now standing }
            { edge_by(targets, standing) },
        )
        .collect(alloc)
}

/// The step of a standing, which leads to the target of its place.
fn edge_by(targets: &[u32], standing: Standing) -> Edge
    ensures { result ≡ edge_by targets.now standing }
{
    let place = standing.place as usize;
    Edge {
        from: standing.place,
        step: standing.step,
        completes: standing.can_complete,
        to: if place < targets.len() {
            targets[place]
        } else {
            0
        },
    }
}

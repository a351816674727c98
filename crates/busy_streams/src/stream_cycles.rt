//! The cycles of one stream alone: from which places of a space its steps alone lead back.

ghost use Rattle.std.specs.Prelude.{◌≡◌, ◌<◌, ◌↔◌, IsTrue, IfOk};
ghost use Rattle.schedule_space.specs.Spaces.{count};
ghost use Rattle.busy_streams.specs.OwnCycles.{is_step, link_of, own_links, ComesBack, AreOwnCycles, HasOwnCycles, HasCyclesOf};

use processor::Step;
use schedule_space::{Edge, Space};
use std::alloc::{AllocError, Global};
use terminal_components::{Link, terminal_roots};

/// A stream, and for each place of a space the root of its terminal component by the stream's steps alone; None if it
/// belongs to none.
#[derive(Drop)]
pub(crate) struct OwnCycles {
    pub(crate) stream: Step,
    pub(crate) roots: Vec<Option<usize>>,
}

/// Those of each stream that an edge of a space has.
pub(crate) fn own_cycles(alloc: Global, space: &Space<'_>) -> Result<Vec<OwnCycles>, AllocError>
    ensures { IfOk result (λ v. HasOwnCycles space.now v.items) }
{
    let edges = space.edges();
    let mut cycles: Vec<OwnCycles> = Vec::new(alloc);
    for number in 0..edges.len() {
        let stream = edges[number].step;
        if !has_cycles_of(&cycles, stream) {
            cycles.push(cycles_of(alloc, space, stream)?)?;
        }
    }
    Ok(cycles)
}

/// Whether some are those of a stream.
fn has_cycles_of(cycles: &[OwnCycles], stream: Step) -> bool
    ensures { IsTrue result → HasCyclesOf cycles.now stream }
{
    for number in 0..cycles.len() {
        if is_step(cycles[number].stream, stream) {
            return true;
        }
    }
    false
}

/// Those of a stream.
fn cycles_of(alloc: Global, space: &Space<'_>, stream: Step) -> Result<OwnCycles, AllocError>
    ensures stream { IfOk result (λ r. r.stream ≡ stream) }
    ensures own { IfOk result (λ r. AreOwnCycles space.now r) }
{
    let links = own_links(alloc, space.edges(), stream)?;
    let roots = terminal_roots(alloc, space.len(), &links)?;
    Ok(OwnCycles { stream, roots })
}

/// The edges of a stream, as links between the places of a space.
pub(crate) fn own_links(
    alloc: Global,
    edges: &[Edge],
    stream: Step,
) -> Result<Vec<Link>, AllocError>
    ensures { IfOk result (λ v. v.items ≡ own_links stream edges.now) }
{
    edges
        .iter()
        .copied()
        .filter(
            |edge: &Edge| -> bool
                ensures { result ≡ is_step stream edge.now.step }
            { is_step(edge.step, stream) },
        )
        .map(|edge| link_of(edge))
        .collect(alloc)
}

/// Whether a step is this one.
fn is_step(step: Step, this: Step) -> bool
    ensures { result ≡ is_step this step }
{
    step.p == this.p && step.s == this.s
}

/// The link that an edge is.
fn link_of(edge: Edge) -> Link
    ensures { result ≡ link_of edge }
{
    Link {
        from: edge.from,
        to: edge.to,
    }
}

/// Whether each place that steps of a stream alone lead to from this one leads back by them. Of a stream that no edge has,
/// they lead to no other.
pub(crate) fn comes_back(
    space: &Space<'_>,
    cycles: &[OwnCycles],
    stream: Step,
    place: usize,
) -> bool
    requires cycles { HasOwnCycles space.now cycles.now }
    requires within { place < count space.now }
    ensures { IsTrue result ↔ ComesBack space.now place stream }
{
    for number in 0..cycles.len() {
        let own = &cycles[number];
        if is_step(own.stream, stream) {
            return own.roots[place].is_some();
        }
    }
    true
}

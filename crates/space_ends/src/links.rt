//! The steps of a space as links between its places.

ghost use Rattle.std.specs.Prelude.{◌≡◌, IfOk, map};
ghost use Rattle.space_ends.specs.Links.{link_of};

use seed_verdicts::space::Edge;
use std::alloc::{AllocError, Global};
use terminal_components::Link;

/// The links between the places of a space's worlds, in the order of its edges.
pub fn links_of(alloc: Global, edges: &[Edge]) -> Result<Vec<Link>, AllocError>
    ensures { IfOk result (λ v. v.items ≡ map link_of edges.now) }
{
    edges.iter().map(|edge| link_of(*edge)).collect(alloc)
}

/// The link that an edge is.
fn link_of(edge: Edge) -> Link
    ensures { result ≡ link_of edge }
{
    Link {
        from: edge.from,
        to: edge.to,
    }
}

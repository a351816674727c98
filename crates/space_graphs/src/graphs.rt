//! The graph of a space.

use crate::ahead::ends_ahead;
use crate::legend::put_legend;
use crate::paths::taken_edges;
use crate::sets::groups_of;
use crate::worlds::{put_steps, put_worlds};
use lab_ends::EndWords;
use lab_ends::ends_of_space::SpaceEnd;
use lab_ends::space::Space;
use plain_text::TextWriter;
use std::alloc::{AllocError, Global};

/// The most worlds that are drawn.
pub const MOST_DRAWN: usize = 2_000;

/// The settings of a graph.
const SETTINGS: &str = "digraph worlds {
  node [shape=ellipse, style=filled, fontname=\"sans-serif\"];
  edge [fontname=\"sans-serif\"];
";

/// The worlds of a space with its ends, which have these words, as a graph in the DOT language: each world with its number, from 1, and the numbers
/// of the ends that can still be reached, by which it is coloured; the first with a double line, those of ends as boxes
/// with the kind; the steps with their streams, those of the ends' schedules bold.
pub fn graph_of(
    alloc: Global,
    space: &Space<'_>,
    ends: &[SpaceEnd],
    words: &[EndWords],
) -> Result<String, AllocError> {
    let mut out = TextWriter::new(alloc);
    out.put(SETTINGS);
    put_nodes(alloc, &mut out, space, ends, words)?;
    put_edges(alloc, &mut out, space, ends)?;
    out.put("}\n");
    out.take_text()
}

/// Adds the legend, and the worlds.
fn put_nodes(
    alloc: Global,
    out: &mut TextWriter,
    space: &Space<'_>,
    ends: &[SpaceEnd],
    words: &[EndWords],
) -> Result<(), AllocError> {
    let ahead = ends_ahead(alloc, space, ends)?;
    let groups = groups_of(alloc, &ahead)?;
    put_legend(out, ends, words, &ahead, &groups);
    put_worlds(out, ends, &ahead, &groups);
    Ok(())
}

/// Adds the steps.
fn put_edges(
    alloc: Global,
    out: &mut TextWriter,
    space: &Space<'_>,
    ends: &[SpaceEnd],
) -> Result<(), AllocError> {
    let edges = space.edges();
    let taken = taken_edges(alloc, edges, space.begin().len(), ends)?;
    put_steps(out, edges, &taken);
    Ok(())
}

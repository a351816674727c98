//! The worlds of a graph, and the steps between them.

use crate::sets::{Groups, colour, numbers_of};
use crate::texts::put_ahead;
use lab_ends::ends_of_space::SpaceEnd;
use lab_ends::space::Edge;
use plain_text::TextWriter;

/// Adds a line for each world: its number, from 1, the ends that it is of, and those that can still be reached.
pub(crate) fn put_worlds(
    out: &mut TextWriter,
    ends: &[SpaceEnd],
    ahead: &[Vec<usize>],
    groups: &Groups,
) {
    for (place, group) in groups.group_of.iter().enumerate() {
        let number = place.saturating_add(1) as u64;
        out.put("  w");
        out.put_number(number);
        out.put(" [label=\"");
        out.put_number(number);
        let is_end = put_kinds(out, ends, place);
        put_ways(out, numbers_of(ahead, place));
        put_look(out, *group, is_end, place == 0);
    }
}

/// Adds the kind and the number of each end that the world at a place is of, and says whether there is one.
fn put_kinds(out: &mut TextWriter, ends: &[SpaceEnd], place: usize) -> bool {
    let mut is_end = false;
    for (index, end) in ends.iter().enumerate() {
        if end.places.contains(&place) {
            out.put("\\n");
            out.put(end.kind.name());
            out.put(" ");
            out.put_number(index.saturating_add(1) as u64);
            is_end = true;
        }
    }
    is_end
}

/// Adds which ends can still be reached from a world, below its number and as what is shown beside it.
fn put_ways(out: &mut TextWriter, numbers: &[usize]) {
    out.put("\\n");
    put_ahead(out, numbers);
    out.put("\", tooltip=\"");
    put_ahead(out, numbers);
}

/// Adds how a world of a group looks, and ends its line.
fn put_look(out: &mut TextWriter, group: usize, is_end: bool, is_first: bool) {
    out.put("\", fillcolor=\"");
    out.put(colour(group));
    out.put("\"");
    if is_end {
        out.put(", shape=box");
    }
    if is_first {
        out.put(", peripheries=2");
    }
    out.put("];\n");
}

/// Adds a line for each step, those that are marked bold.
pub(crate) fn put_steps(out: &mut TextWriter, edges: &[Edge], are_bold: &[bool]) {
    for (edge, is_bold) in edges.iter().zip(are_bold) {
        put_step(out, edge, *is_bold);
    }
}

/// Adds the line of a step.
fn put_step(out: &mut TextWriter, edge: &Edge, is_bold: bool) {
    out.put("  w");
    out.put_number(u64::from(edge.from).saturating_add(1));
    out.put(" -> w");
    out.put_number(u64::from(edge.to).saturating_add(1));
    out.put(" [label=\"");
    out.put_number(u64::from(edge.step.p));
    out.put(".");
    out.put_number(u64::from(edge.step.s));
    out.put("\"");
    if is_bold {
        out.put(", style=bold, penwidth=3");
    }
    out.put("];\n");
}

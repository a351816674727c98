//! What stands beside a graph: its ends in words, and its colours.

use crate::sets::{Groups, colour, numbers_of};
use crate::texts::{put_ahead, put_shown};
use lab_ends::EndWords;
use lab_ends::ends_of_space::SpaceEnd;
use plain_text::TextWriter;

/// Adds the ends in words, and a colour for each group of worlds.
pub(crate) fn put_legend(
    out: &mut TextWriter,
    ends: &[SpaceEnd],
    words: &[EndWords],
    ahead: &[Vec<usize>],
    groups: &Groups,
) {
    out.put("  subgraph cluster_legend {\n    label=\"ends\";\n    node [shape=box];\n");
    for (index, (end, words)) in ends.iter().zip(words).enumerate() {
        put_end(out, index.saturating_add(1), end, &words.text);
    }
    for (group, first) in groups.firsts.iter().enumerate() {
        put_group(out, group, numbers_of(ahead, *first));
    }
    out.put("  }\n");
}

/// Adds the colour of a group, from whose worlds the ends of these numbers can still be reached.
fn put_group(out: &mut TextWriter, group: usize, numbers: &[usize]) {
    out.put("    g");
    out.put_number(group as u64);
    out.put(" [label=\"");
    put_ahead(out, numbers);
    out.put("\", fillcolor=\"");
    out.put(colour(group));
    out.put("\"];\n");
}

/// Adds an end of this number in words.
fn put_end(out: &mut TextWriter, number: usize, end: &SpaceEnd, text: &str) {
    let number = number as u64;
    out.put("    e");
    out.put_number(number);
    out.put(" [label=\"");
    out.put_number(number);
    out.put(": ");
    out.put(end.kind.name());
    if !text.is_empty() {
        out.put("\\n");
        put_shown(out, text);
    }
    out.put("\", fillcolor=\"white\"];\n");
}

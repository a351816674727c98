//! The worlds of a space as a graph for Graphviz (docs/LAB_REFERENCE.md, "The graph of states").
#![tactic(auto)]

mod ahead;
mod graphs;
mod legend;
mod paths;
mod sets;
mod texts;
mod worlds;

pub use ahead::ends_ahead;
pub use graphs::{MOST_DRAWN, graph_of};
pub use lab_ends as ends_in_words;
pub use lab_ends::ends_of_space;

//! Directed graphs, of places and links between them: the places that can reach given ones, the terminal components (the
//! strongly connected components that no link leaves), and shortest cycles (docs/LAB.md, "Every schedule").
#![tactic(auto)]

mod components;
mod cycles;
mod links;
mod reach_marks;
mod reachability;
mod relaxation;

pub use components::terminal_roots;
pub use cycles::shortest_cycle;
pub use links::Link;
pub use reachability::places_that_reach;

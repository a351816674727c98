//! A page on which the reader is the scheduler: all states of a program, the steps between them, and which ends can still
//! be reached from which (docs/PLAY.md).
#![tactic(auto)]

mod columns;
mod contents;
mod ends;
mod graphs;
mod judged_lines;
mod numbers;
mod opened;
mod page_tables;
mod pages;
mod parts;
mod records;
mod shared_states;

pub use end_goals as goals;
pub use end_goals::{ends_of_space, states};
pub use ends::PageEnds;
pub use graphs::{GraphNames, graph_json};
pub use judged_lines::{BreakingRun, Following, JudgedLine};
pub use pages::page_of_graph;
pub use replay_page as replay;

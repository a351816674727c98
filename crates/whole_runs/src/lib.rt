//! Whole runs, step by step: the views of the steps, and what the steps did to their streams and words, from which
//! findings are computed ("Findings", docs/LAB_REFERENCE.md).
#![tactic(auto)]

mod actions;
mod differences;
mod first_differences;
mod same_worlds;
mod views;

pub use actions::{run_actions, take_action};
pub use differences::world_differences;
pub use first_differences::{Difference, first_difference};
pub use views::run_views;

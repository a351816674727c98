//! Whether the last steps of a run are a round: they lead from a state back to it (docs/LAB_REFERENCE.md, "Waiting forever").
#![tactic(auto)]

mod run_ends;
mod states;

pub use run_ends::{EndRound, LastSteps, last_steps};

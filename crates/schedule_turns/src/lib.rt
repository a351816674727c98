//! The turns of a schedule: its steps, as runs of steps of one stream.
#![tactic(auto)]

mod link_turns;
mod turns;

pub use link_turns::push_link_turns;
pub use turns::{Turn, turns_of};

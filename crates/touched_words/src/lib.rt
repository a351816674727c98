//! Which words of the memory a stream may still ask for, by its program alone (docs/LAB.md, "Every schedule").
#![tactic(auto)]

mod few;
mod known_after;
mod laws;
mod named_requests;
mod rows;
mod touch_tables;

pub use laws::standing_streams_stay;
pub use touch_tables::TouchTable;

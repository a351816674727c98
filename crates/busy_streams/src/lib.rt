//! Streams that loop alone, in the worlds of a search that has all ("Every schedule", docs/LAB.md).
#![tactic(auto)]

mod busy_worlds;
mod stream_cycles;

pub use busy_worlds::{Busy, first_busy};
pub use schedule_space as space;

//! A processor of many streams, and the operation table folded over a schedule of steps
//! (docs/MACHINE.md, "Processors", "Schedules").
#![tactic(auto)]

mod counted_streams;
mod processors;
mod recorded;
mod recorded_steps;
mod steps;
mod stream_table;

pub use image_file as images;
pub use processors::Processor;
pub use recorded::Recorded;
pub use recorded_steps::Steps;
pub use steps::{Asked, Entry, MAX_STEPS, Next, NextStep, Step};
pub use stream_core as streams;
pub use tag_memory as memories;

//! What threads share, with no thread in it: a memory that keeps its history, and the schedule that such a history
//! and the records of processors make together (docs/MACHINE.md, "Histories").
#![tactic(auto)]

mod gathering;
mod part_faults;
mod parts;
mod shared_memory;
mod weaving;
mod woven;

pub use gathering::{GatherFault, gather};
pub use parts::{Parts, PartsFault};
pub use shared_memory::{NoRoom, SharedMemory};
pub use woven::Woven;

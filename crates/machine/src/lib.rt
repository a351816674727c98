//! A machine: the processors of an image over one memory, one step at a time
//! (docs/MACHINE.md, "Machines", "Schedules").
#![tactic(auto)]

mod load_fault;
mod machines;

pub use load_fault::LoadFault;
pub use machines::Machine;
pub use processor as processors;

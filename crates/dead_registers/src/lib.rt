//! Worlds in which streams hold 0 in each register and each condition code that does not matter, since nobody looks at it
//! any more: they agree with those of the machine, and end alike (docs/MACHINE.md, "One step").
#![tactic(auto)]

mod laws;
mod live_registers;

pub use laws::{cleared_worlds_agree, registers_are_cleared};
pub use live_registers::LiveRegisters;

//! Finished lines for people, written to a standard stream as they come (docs/LAB_REFERENCE.md, "Colours").
#![tactic(auto)]

mod printing;

pub use command_parts as parts;
pub use printing::{Printer, write_lines};

//! Messages about files of expectations, and the one way by which a command reads one
//! ("Files of expectations", docs/LAB_REFERENCE.md).
#![tactic(auto)]

mod fault_texts;
mod messages;
mod reading;

pub use command_parts as parts;
pub use fault_texts::fault_words;
pub use messages::check_expectations;
pub use reading::{file_fault, requirements_of};

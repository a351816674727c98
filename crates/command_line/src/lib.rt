//! The command line of `mta_sim`: which words are a command, and what it asks for ("The command line",
//! docs/FORMATS.md).
#![tactic(auto)]

mod help;
mod reading;

pub use reading::{ToolCommand, read_command_line};

/// The program's version; CHANGELOG.md says what each brought.
pub const VERSION: &str = "0.3.0";

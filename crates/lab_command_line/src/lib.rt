//! The command line of `mta_lab`: which words are a command, and what it asks for (docs/LAB.md).
#![tactic(auto)]

/// The version of `mta_lab`; CHANGELOG.md says what each brought.
pub const VERSION: &str = "0.3.0";

mod arguments;
mod choices;
mod commands;
mod file_commands;
mod foreign_words;
mod gallery_command;
mod help;
mod many_runs_commands;
mod options;
mod page_commands;
mod parsers;
mod play_command;
mod reading;
mod run_commands;
mod shared_arguments;
mod standard_inputs;
mod values;

pub use reading::read_lab_command;

//! The debugger's commands, read from their lines, and its answers as text ("Debugger", docs/FORMATS.md).
#![tactic(auto)]

mod answer_texts;
mod answers;
mod commands;
mod debug_fault;
mod reading;
mod word_list;

pub use answer_texts::answer_text;
pub use answers::{Answer, Why};
pub use commands::Command;
pub use debug_fault::DebugFault;
pub use reading::{COMMAND_LIMIT, read_command};
pub use word_list::WordList;

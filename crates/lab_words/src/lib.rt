//! What words of programs, runs and messages mean, and what an instruction word says: the texts of the commands
//! `explain` and `word` (docs/LAB_REFERENCE.md, "Words").
#![tactic(auto)]

mod explaining;
mod instruction_words;
mod page_lines;
mod pages;
mod status_words;
mod trap_values;
mod word_fields;

pub use explaining::explained;
pub use instruction_words::{instruction_description, source_of};

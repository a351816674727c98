//! The words of a command line that are not UTF-8, and how they are shown.
#![tactic(auto)]

mod foreign_names;
mod line_words;

pub use foreign_names::{ForeignNames, shown_name};
pub use line_words::arguments;

//! What `check` says of a source text: its faults, and what is likely not meant (docs/LAB_REFERENCE.md, "Checks").
#![tactic(auto)]

mod names;
mod slips;
mod source_text;
mod whole_checks;

pub use source_text::SourceText;
pub use whole_checks::source_messages;

//! How the messages about a source text may be mended: each fix was tried (docs/LAB_REFERENCE.md, "How a text is mended").
#![tactic(auto)]

mod finder;
mod mending;

pub use finder::{FixFinder, MOST_BYTES, MOST_MESSAGES};

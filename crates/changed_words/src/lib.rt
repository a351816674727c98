//! The words of a machine's memory that are not as its image has them.
#![tactic(auto)]

mod changed;

pub use changed::{ChangedWord, changed_words};

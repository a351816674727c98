//! What the end of a run has to be, judged of a machine ("Files of expectations", docs/LAB_REFERENCE.md).
#![tactic(auto)]

mod expectation;
mod judging;
mod memory_words;
mod names;
mod word_ranges;

pub use expectation::{Expectation, FullEmpty, Relation};
pub use judging::{first_missed, is_met};
pub use names::named_registers;

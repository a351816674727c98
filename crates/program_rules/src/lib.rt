//! What is required of a program alone, whatever its schedule: read by names, and judged of an image ("Expectations",
//! docs/FORMATS.md).
#![tactic(auto)]

mod judging;
mod names;
mod program_rule;

pub use judging::{first_broken, is_kept};
pub use program_rule::{ProgramOperation, ProgramRule};

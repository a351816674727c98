//! The exercises of a folder, and the files that they have.
#![tactic(auto)]

mod failing_runs;
mod folders;
mod left_out;
mod part_files;

pub use command_parts as parts;
pub use expectation_files as expected;
pub use failing_runs::{FailingRun, ShownFailing};
pub use folders::{Exercise, read_exercises};
pub use left_out::{LeftOut, LookedFor};
pub use part_files::{read_part, read_part_or_why, read_to_replace};

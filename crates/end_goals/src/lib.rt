//! Which ends of a page of all schedules are right, and which one is a reader's first goal (docs/PLAY.md).
#![tactic(auto)]

mod goals;
mod right_ends;

pub use goals::EndGoal;
pub use right_ends::{EndCriteria, is_right_end};
pub use space_ends as ends_of_space;
pub use space_ends::states;

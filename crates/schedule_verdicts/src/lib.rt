//! What is known of every schedule of an image from a search through its worlds ("Schedules", docs/MACHINE.md).
#![tactic(auto)]

mod claim_marks;
mod expected_waits;
mod kept_claims;
mod laws;
mod marking;
mod right_ends;
mod right_spaces;
mod shown_claims;
mod step_trees;
mod walks;

pub use busy_streams as busy;
pub use busy_streams::space;
pub use claim_marks::ClaimMarks;
pub use expected_waits::{are_waits_expected, may_loop};
pub use kept_claims::are_kept_on_the_way;
pub use laws::agreeing_worlds_are_judged_alike;
pub use marking::{marks_of_kept, marks_of_shown};
pub use right_ends::{are_traps_expected, is_right_end};
pub use right_spaces::is_right;
pub use shown_claims::{first_unshown, is_shown_on_the_way};

//! What the runs of seeds show of who does the work: the first of them that does not meet the lines about it ("Lines about
//! who does the work", docs/LAB_REFERENCE.md).
#![tactic(auto)]

mod first_missed;
mod missed_work;

pub use first_missed::{first_missed_alone, first_missed_by_seeds};
pub use missed_work::MissedWork;
pub use work_rules as rules;

//! What the streams of a program have to do in a run, whatever its end is: which of them store values, and where ("Lines
//! about who does the work", docs/LAB_REFERENCE.md).
#![tactic(auto)]

mod judging;
mod runs;
mod work_rule;

pub use judging::{first_missed, is_met};
pub use runs::first_missed_by;
pub use work_rule::WorkRule;

//! Whether the runs of a program keep conditions, by a space of all its states (docs/LAB_REFERENCE.md, "Leads to" and
//! "Overtaking").
#![tactic(auto)]

mod answers;
mod deciding;
mod evading;
mod marks;
mod overtaking;
mod overtaking_runs;
mod waiting_marks;

pub use answers::{EvadingRun, RunAnswer, RunEnd};
pub use deciding::{answer_of, answers_of};
pub use starving_streams as starving;
pub use starving_streams::claims::{Fairness, Rest, RunCondition};

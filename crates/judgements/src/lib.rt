//! The verdict on a submission over its cases, as values: the worst case decides, and each case keeps its own
//! (docs/LAB.md, "Judging a class").
#![tactic(auto)]

mod by_case;
mod by_schedules;
mod by_seeds;
mod by_work;
mod case_judgements;
mod cases;
mod end_flaws;
mod evaded;
mod judge_faults;
mod knowledge;
mod requirements;
mod starved;
mod submissions;
mod thorough;
mod verdict_kinds;

pub use case_judgements::{CaseJudgement, MissedLine, Reason, ShownRun, Witness, line_missed_by};
pub use cases::{AskedJudging, Case, Submission, image_by};
pub use end_flaws::EndFlaw;
pub use evaded::Evasion;
pub use judge_faults::JudgeFault;
pub use knowledge::Known;
pub use program_searches as searches;
pub use requirements::required_by;
pub use seed_outcomes as outcomes;
pub use seed_outcomes::seeds::RunFlaw;
pub use seed_outcomes::states;
pub use seed_work as work;
pub use submissions::{SubmissionJudgement, judged_submission};
pub use verdict_kinds::VerdictKind;

//! What the random schedules of seeds say of a program: the least seed whose run is not right, and what is wrong with that
//! run (docs/LAB.md, "Judging a class").
#![tactic(auto)]

mod broken_claims;
mod end_flaws;
mod first_flaws;
mod judging;
mod run_flaw;
mod seed_runs;
mod shown_claims;

pub use broken_claims::{Broken, first_broken};
pub use first_flaws::{first_flaw, first_flaw_alone};
pub use run_flaw::{RunFlaw, SeedFlaw, Seeds};
pub use schedule_verdicts as verdicts;
pub use schedule_verdicts::{busy, space};
pub use shown_claims::first_unshown_by_seeds;

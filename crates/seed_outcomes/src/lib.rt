//! Ends of the schedules of seeds, counted by what they show and how they are judged.
#![tactic(auto)]

mod adding;
mod coverage;
mod outcomes;
mod parts;
mod same_lines;
mod seed_runs;
mod statuses;
mod surveys;
mod unshown_claims;

pub use coverage::{is_met, is_reported};
pub use outcomes::SeedOutcome;
pub use space_ends as ends_of_space;
pub use space_ends::{seeds, states};
pub use statuses::worst_status;
pub use surveys::{SurveySeeds, outcomes_of};
pub use unshown_claims::unshown_by_seeds;

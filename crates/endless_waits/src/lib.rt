//! Who can wait forever, and whether all runs keep conditions, among the states that a search found (docs/LAB_REFERENCE.md,
//! "Waiting forever", "Leads to" and "Overtaking").
#![tactic(auto)]

mod extents;
mod kept;
mod rounds;
mod unanswered;
mod waits;

pub use extents::SearchExtent;
pub use kept::{KeptConditions, kept_conditions};
pub use rounds::{SeenRound, StreamSteps, seen_round};
pub use run_answers as answered;
pub use run_answers::starving;
pub use unanswered::{MOST_STATES, Unanswered};
pub use waiting as waits_of_streams;
pub use waits::{EndlessWaits, endless_waits};

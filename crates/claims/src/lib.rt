//! Claims about the worlds that a program comes to, and whether they hold of one ("Claims", docs/LAB.md).
#![tactic(auto)]

mod breaks;
mod claim;
mod judging;
mod looking;
mod missing;
mod run_conditions;

pub use claim::{Claim, ClaimForm, CountTest, LeadsTo, NumberOrder, Scope, StreamGroup, WordTest};
pub use looking::{places_looked_at, words_looked_at};
pub use missing::Missing;
pub use run_conditions::{Fairness, Overtaking, Rest, RunCondition};

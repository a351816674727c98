//! Worlds that a search found, of which one stands for all that agree with it: when they have all worlds that schedules
//! lead to, or all ends (docs/LAB.md, "Every schedule").
#![tactic(auto)]

mod laws;
mod unseen;

pub use laws::{
    followed_worlds_have_all_ends, free_steps_are_first_sets, worlds_of_schedules_are_grounded,
};
pub use same_futures::local;
pub use unseen::unseen_steps_keep_claims;

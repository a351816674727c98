//! Steps of two streams whose requests commute, and so do they (docs/MACHINE.md, "One step").
#![tactic(auto)]

mod laws;

pub use laws::{
    distant_requests_commute, steps_of_commuting_requests_commute,
    steps_of_commuting_requests_stay, unchanging_requests_commute,
};

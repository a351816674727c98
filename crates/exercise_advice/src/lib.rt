//! Advice on mistakes: which sentence of a file of advice fits what a verdict shows (exercises/README.md).
#![tactic(auto)]

mod choosing;
mod facts;
mod lines;
mod observations;
mod observing;
mod parts;
mod reading;
mod run_observations;
mod shortfalls;

pub use choosing::first_fitting;
pub use expectations as expected;
pub use facts::{SoughtFact, SoughtOperation, Suffix};
pub use judgements as judges;
pub use judgements::searches;
pub use lines::{AdviceFault, AdviceFaultKind, AdviceLine};
pub use observations::{Observation, ObservationKind};
pub use observing::{ShownMistake, observations_of};
pub use program_rules as rules;
pub use reading::read_advice;
pub use shortfalls::{FoundInstead, Shortfall, shortfall_of};

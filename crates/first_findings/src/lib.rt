//! Which finding of a run is shown first (docs/LAB_REFERENCE.md, "Findings").
#![tactic(auto)]

mod choosing;

pub use choosing::{FindingPlace, WordRange, first_finding};

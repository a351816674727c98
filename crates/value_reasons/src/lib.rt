//! Why a register or a word holds what it holds: the steps of a run that its value comes from, in words (docs/LAB.md).
#![tactic(auto)]

mod named_locations;
mod reasons;

pub use named_locations::{LocationFault, location_named, put_location_fault};
pub use reasons::Reason;

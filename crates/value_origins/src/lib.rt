//! The steps that a value of a run comes from: which step wrote a register or a word last, and what that step read for it
//! ("Findings", docs/LAB_REFERENCE.md).
#![tactic(auto)]

mod chains;
mod locations;
mod origins;
mod reading;
mod streams;

pub use chains::{Chain, Link, chain_of};
pub use locations::Location;
pub use origins::{Source, last_writer, sources_of};
pub use streams::Starts;

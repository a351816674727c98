//! The ends of all schedules of a program as values: which worlds of a space are ends of one line, what they miss, which sets
//! of worlds spin, where claims are broken (docs/LAB_REFERENCE.md, "Every schedule").
#![tactic(auto)]

mod broken_claims;
mod busy_ends;
mod cycles;
mod end_values;
mod every_end;
mod going;
mod links;
mod place_ends;
mod sources;
mod spinning;
mod spinning_lines;
mod spinning_sets;

pub use end_states as states;
pub use end_values::{SpaceEnd, SpaceEndKind};
pub use every_end::{JudgedBy, space_ends};
pub use going::{Going, GoingStream};
pub use links::links_of;
pub use seed_verdicts as seeds;
pub use seed_verdicts::{busy, space, verdicts};

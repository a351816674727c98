//! Which places of a program a stream can come to, by the image alone (docs/MACHINE.md, "One step").
#![tactic(auto)]

mod places;
mod search;
mod successors;
mod unreached_words;

pub use places::reachable_places;
pub use unreached_words::unreached_rows;

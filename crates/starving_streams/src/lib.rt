//! Streams that can wait forever, in the worlds of a search that has all.
#![tactic(auto)]

mod edges;
mod graphs;
mod places;
mod reports;
mod rests;
mod standings;
mod starving;
mod targets;

pub use claims;
pub use graphs::{Graph, graph_of};
pub use reports::{Starving, StarvingStreams};
pub use schedule_space as space;
pub use starving::{starving_streams, steps_of};
